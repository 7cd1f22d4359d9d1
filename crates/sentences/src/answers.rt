// What was done, and the operation that an answer is to. The facts are the answer, but for those that a comment names.
use crate::Sentence;

#[derive(Clone, Copy)]
pub enum Answered {
    Done,
    // F is 1 where another byte was expected
    Read,
    ReadLevels,
    // F is the level of a CALL, where E is not 0
    Vector,
    Call,
    Rises,
    // C has the channels that ask, D is how many (1, 2 for several, 3 for none), or 0 where the chip is disabled, as E says
    Nothing,
    Granted,
    Released,
    // 4 is which way it went, as D3-D2 of a mode say it, or 3 where that is not known, with bit 2 where it is a word. C is 1 where it was the last one, with bit 2 where E is not 0, and 7
    // is 1 where the bus is free. E has bit 0 where it is a word at an odd address, and bit 1 where it is past the end of memory; then F is what 4 is, with bit 3 in the place of bit 2
    // where the upper byte of a word is past it alone, else 0. 3 is an upper byte that was not used. 6 is 1 where the channel starts anew, and 2 where units are left, &0 of them
    Unit,
    // these two follow the bytes of an acknowledge, with the INT of the chip that answers low or high. E is whether that is the slave, C why its INT is low or the level that it gives, D its
    // highest level in service
    LowInt,
    SlaveGives,
    // follows a unit
    UpperUnused,

    // the operation
    Reset,
    Write,
    ReadPort,
    Lines,
    Acknowledge,
    Advance,
    Cycle,
    Other,

    // the status
    BusTaken,
    NoSuch,
    OutOfTurn,
    NotBuilt,
    NeverGiven,
    CountOfOne,
    NoStatus,

    // what was read of a port: F as above
    ReadImr,
    // E has bit 0 where the high byte is next, and bit 1 where it is of a latch
    ReadCounter,
    // E is the channel that is selected, D whether the base is
    ReadSelection,
    // from 8 on there is the count or the address
    ReadCount,
    ReadAddress,
    ReadControl,
    ReadMode,
    // E is whether an end bit was set
    ReadStatus,
    ReadMasks,
}

impl Sentence for Answered {
    fn words(self) -> &'static str {
        match self {
            Answered::Done => "done",
            Answered::Read => "read{F01s|} $2",
            Answered::ReadLevels => "read{F01s|} $2 (levels:*208)",
            Answered::Vector => "vector $2 (level %203)",
            Answered::Call => "CALL $6$5{E01| (level %F08)}",
            Answered::Rises => "rises: OUT0 =4, OUT1 =8, OUT2 =C",
            Answered::Nothing =>
                "nothing{E01|: the chip is disabled (28, D2)}{D02|: channel*C04 asks but is masked (2F)|: channels*C04 ask but are masked (2F)|: no request is high}",
            Answered::Granted => "channel %508 gets the bus; no unit",
            Answered::Released => "channel %508 leaves the bus; no unit",
            Answered::Unit =>
                "channel %508: {403verified|$2 to memory|$2 from memory|$2 at|word verified|$2 $D to memory|$2 $D from memory|$2 $D at} @8{E02|: odd, so ~8 and @8|: past the end of memory|: odd, so ~8 and @8; past the end of memory}{F04|, lost|, reads FF|, it or a word's upper byte||, both lost|, both read FF|, the upper byte or both||, the upper byte lost|, the upper byte reads FF}{C03|, end||||; end}{602|: address and count from base again|; units left: &0}{701|, bus free}",
            Answered::LowInt =>
                ":{E01| level 7, but the slave's} INT is low, {C02no level asks|every level that asks is masked|level %D08 is in service and not outranked}; answered as {E01|its }level 7",
            Answered::SlaveGives => "{E01|: level 7, and the slave gives its level %C08}",
            Answered::UpperUnused => " ($3 not used)",
            Answered::Reset => "reset",
            Answered::Write => "write",
            Answered::ReadPort => "read",
            Answered::Lines => "lines",
            Answered::Acknowledge => "interrupt acknowledge",
            Answered::Advance => "advance",
            Answered::Cycle => "DMA cycle",
            Answered::Other => "operation $1",
            Answered::BusTaken => "1: a DMA channel has the bus",
            Answered::NoSuch => "2: there is no such record, port or level",
            Answered::OutOfTurn => "3: out of turn",
            Answered::NotBuilt => "4: not built, or words on the 8-bit bus",
            Answered::NeverGiven => "5: this board never gives it",
            Answered::CountOfOne => "6: count 1 in mode 2 or 3",
            Answered::NoStatus => "%008: no status that a record can have",
            Answered::ReadImr => "read{F01s|} $2 (masked:*208)",
            Answered::ReadCounter =>
                "read{F01s|} $2{E02| (the high byte is next)| (latched; the latch is free now)| (latched; the high byte is next)}",
            Answered::ReadSelection => "read{F01s|} $2 (channel %E02{D01|, base})",
            Answered::ReadCount => "read{F01s|} $2 (count $9$8)",
            Answered::ReadAddress => "read{F01s|} $2 (address @8)",
            Answered::ReadControl =>
                "read{F01s|} $2 ({223enabled|disabled|enabled|disabled|rotate, enabled|rotate, disabled|rotate, enabled|rotate, disabled})",
            Answered::ReadMode =>
                "read{F01s|} $2 ({262demand|single|block|cascade}, {222verify|to memory|to device|direction 11}, {201bytes|words}{251|, downwards}{241|, autoinitialize})",
            Answered::ReadStatus =>
                "read{F01s|} $2 (ended:*204; asking:*244{E01|; end bits now clear})",
            Answered::ReadMasks => "read{F01s|} $2 (masked:*204)",
        }
    }
}
