// What came of a record. Each piece begins with a semicolon and a space, or is empty. Where a fact says how many there are of something, 2 stands for several.
use crate::Sentence;

#[derive(Clone, Copy)]
pub enum Happened {
    // 0 the levels that ask anew, 2 those that ask no more, 6 and 8 the same of the slave, and after each how many these are. 4 what became of INT, 5 the level in service that keeps it
    // low, A and C the same of the slave. B and D the OUTs that rose and fell. E the lines that rose before their chip was ready, F how many, and 4 more for the slave's
    Levels,

    // a word of an interrupt chip: 0 the byte, 1 whether it is the slave's, 2 the levels that were finished, 3 how many, 4 those in service, 5 what it awaits, 6 its first-ranked level
    Finished,
    NothingInService,
    NotInService,
    HighestNow,
    NoEffect,
    ReadsShow,
    Awaits,
    // an acknowledge: 1 whether the slave gave its bytes, 2 and 4 what is in service, 5 and 7 whether the ranks turned, 6 and 8 the lowest level
    InService,

    // a counter: 2 and 3 its latch, 4 what becomes of the count before this one, or when this one is taken over, 5 and 6 the count, 7 whether that is 0
    AwaitsCount,
    LatchUnread,
    Holds,
    AwaitsHighByte,
    Count,

    // the DMA chip: 8 and 9 a count, A the units that it stands for, 4 whether they are told, or an address
    DmaCount,
    DmaAddress,
    // 0 the channels that ask and may be served, 2 those that are masked, and after each how many; 4 whether the chip is disabled
    Requests,
    DmaReset,

    // the counters: 0 those that will load, 2 those that stand still, 4 those that count now, 6 those that load and then stand still, and after each how many
    Gates,
    // from 0, 4 and 8 on the first pulses at which an OUT rose, C its number, D how many are named, E whether there are more, &0 of them
    Rises,
    // from 0 on the value of a counter, C its number
    CounterAt,
    NoRise,
}

impl Sentence for Happened {
    fn words(self) -> &'static str {
        match self {
            Happened::Levels =>
                "{B01|; OUT0 rises}{B11|; OUT1 rises}{B21|; OUT2 rises}{D01|; OUT0 falls}{D11|; OUT1 falls}{D21|; OUT2 falls}{702|; slave level*608 asks|; slave levels*608 ask}{902|; slave level*808 asks no more|; slave levels*808 ask no more}{A03|; slave INT rises|; slave INT falls|; slave INT stays low: masked|; slave INT stays low: level %C08 in service|; slave INT stays low: the slave is not ready|; slave INT stays low: masked, or level %C08 in service}{102|; level*008 asks|; levels*008 ask}{302|; level*208 asks no more|; levels*208 ask no more}{403|; INT rises|; INT falls|; INT stays low: masked|; INT stays low: level %508 in service|; INT stays low: the chip is not ready|; INT stays low: masked, or level %508 in service}{F03|; line*E08 rose, but the chip is not ready|; lines*E08 rose, but the chip is not ready|||; slave line*E08 rose, but the slave is not ready|; slave lines*E08 rose, but the slave is not ready}",
            Happened::Finished =>
                "; level*208 finished{071|, and is lowest now}; {101|slave }in service:*408",
            Happened::NothingInService => "; nothing was in service: no effect",
            Happened::NotInService =>
                "; level %003 was not in service{071: no effect|; it is lowest now}",
            Happened::HighestNow => "; level %603 is highest now",
            Happened::NoEffect => "; no effect",
            Happened::ReadsShow => "; reads at port {1010|3}0 show {001IRR|ISR} now",
            Happened::Awaits =>
                "{503|; starts anew, waits for IW2|; waits for IW4|; ready|; waits for IW3}",
            Happened::InService =>
                "; in service:*408{101|; slave in service:*208}{501|; level %603 is lowest now}{701|; slave level %803 is lowest now}",
            Happened::AwaitsCount => "; waits for a count",
            Happened::LatchUnread => "; a latch waits to be read: no effect",
            Happened::Holds => "; holds $3$2 until it is read",
            Happened::AwaitsHighByte =>
                "; waits for the high byte{402|; the old count runs on|; no pulse counts till then|; the old count stays till then}",
            Happened::Count =>
                "; count $6$5{701| (65536)}: taken over {402at the next pulse|at the pulse after GATE rises|when the old count has run out|at the end of this half}",
            Happened::DmaCount => "; count $9$8{401|: =A unit}{411|s}",
            Happened::DmaAddress => "; address @4",
            Happened::Requests =>
                "{102|; channel*004 asks|; channels*004 ask}{302|; channel*204 asks but is masked (2F)|; channels*204 ask but are masked (2F)}{401|; the chip is disabled (28, D2)}",
            Happened::DmaReset => "; every channel is masked",
            Happened::Gates =>
                "{102|; counter*003 loads at the next pulse|; counters*003 load at the next pulse}{302|; counter*203 stands still|; counters*203 stand still}{502|; counter*403 counts now|; counters*403 count now}{702|; counter*603 still loads at the next pulse, then stands still|; counters*603 still load at the next pulse, then stand still}",
            Happened::Rises =>
                "; OUT%C02 rose at pulse{D02| =0|s =0 =4|s =0 =4 =8}{E01| and &0 times more}",
            Happened::CounterAt => "; counter %C02 at $1$0",
            Happened::NoRise => "; no OUT rose",
        }
    }
}
