// The state of a chip.
use crate::Sentence;

#[derive(Clone, Copy)]
pub enum Shown {
    // an interrupt chip: 0 whether it is the slave, 1 its ISR, 2 its IRR, 3 its IMR, 4 why INT is low or that it is high, 5 the level, 6 what it awaits
    Icu,
    IcuAwaits,
    // 0 and 1 the value, 2 and 3 the count, 4 the mode, 5 OUT, 6 GATE, 7 and 8 the latch, 9 what holds, A whether there is a count, C the counter's number
    Counter,
    CounterWithoutMode,
    // from 0 and 4 on the addresses, 8 and A the counts, C the channel's number, D whether it is masked, E its mode
    Channel,
    // 0 the levels, as an answer has them
    Levels,
    // an interrupt chip that is ready: 7 IW1, 8 IW2, 9 whether it is in vector mode, A its lowest level, B whether it shows its ISR, C self-FI, D whether that rotates
    SetUp,
    // 0 whether the bus has 16 bits, 1 whether the chip is disabled, 2 the channels that ask, 3 those that ended, 4 whether one has the bus, 5 which
    Dma,
}

impl Sentence for Shown {
    fn words(self) -> &'static str {
        match self {
            Shown::Icu =>
                "{001master|slave}: ISR*108 ^ IRR*208 ^ IMR*308 ^ INT {403low: no level asks|low: every level that asks is masked|low: level %508 in service|high: level %508 asks}",
            Shown::IcuAwaits =>
                "{001master|slave}: waits for {603IW1|IW2|IW4||IW3} at port {0010|3}{6030|1|1||1}",
            Shown::Counter =>
                "counter %C02: mode %408, {A01no count yet|count written $3$2}, at $1$0, OUT %508, GATE %608{931|, not taken over yet}{941|, loads at the next pulse}{901|, latched $8$7}{911|, half written}{921|, half read}",
            Shown::CounterWithoutMode => "counter %C02: no mode",
            Shown::Channel =>
                "channel %C02: @0, count $9$8, base @4/$B$A, masked {D01no|yes}, mode $E",
            Shown::Levels => "OUT %001%011%021, INT %031",
            Shown::SetUp =>
                "{001master|slave}: {731edge|level} trigger, {901CALL|vectors from $8}, lowest level %A08, reads show {B01IRR|ISR}{C01|, self-FI}{D01|, rotation in self-FI}",
            Shown::Dma =>
                "DMA: {0018|16}-bit bus, {101enabled|disabled}, asking:*204, ended:*304, {401bus free|channel %508 has the bus}",
        }
    }
}
