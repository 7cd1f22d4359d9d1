// A record in the notation, and what a record asks for, in the chips' own words. The facts: 0 to 7 are the record, 8 the DMA channel that is selected, 9 whether its base is, A the
// byte of a count (1 the low one, 2 the high one), B whether the count is latched. Of the port's interrupt chip C is what it awaits, D whether it shows its ISR, E whether it is the
// slave.
use crate::Sentence;

#[derive(Clone, Copy)]
pub enum Asked {
    // a record as a line, and its bytes
    Raw,
    Write,
    Read,
    Intp,
    Gates,
    Requests,
    Cycle,
    CycleByte,
    CycleWord,
    Advance,
    Reset,
    Acknowledge,
    Bytes,
    Slave,

    // what a record asks of the board
    Pulses,
    OnePulse,
    DmaCycle,
    ResetBoard,
    InterruptAcknowledge,
    Lines,
    DmaWordCycle,

    // of an interrupt chip
    Iw1,
    Mcw,
    Pfcw,
    Iw2OrImr,
    Iw2,
    Iw4,
    Imr,
    Iw3,
    ReadIcu,
    ReadImr,

    // of the timer
    MultipleLatch,
    Latch,
    CounterMode,
    CounterModeBcd,
    Count,
    ReadCounter,

    // of the DMA chip
    DmaInitialize,
    DmaSelect,
    DmaRegister,
    DmaControl,
    DmaControlHigh,
    DmaMode,
    DmaUnbuilt,
    DmaMasks,
    ReadSelection,
    ReadDmaRegister,
    ReadDmaMode,
    ReadDma,
}

impl Sentence for Asked {
    fn words(self) -> &'static str {
        match self {
            Asked::Raw => "raw $0 $1 $2 $3 $4 $5 $6 $7",
            Asked::Write => "write $1 $2",
            Asked::Read => "read $1",
            Asked::Intp => "intp $2",
            Asked::Gates => "gates $2",
            Asked::Requests => "requests $2",
            Asked::Cycle => "cycle",
            Asked::CycleByte => "cycle $2{101| end}",
            Asked::CycleWord => "cycle $2 $3{101| end}",
            Asked::Advance => "advance =4",
            Asked::Reset => "reset",
            Asked::Acknowledge => "acknowledge",
            Asked::Bytes => "$0 $1 $2 $3 $4 $5 $6 $7",
            Asked::Slave => "slave $2",
            Asked::Pulses => "=4 pulses",
            Asked::OnePulse => "1 pulse",
            Asked::DmaCycle => "DMA cycle, device has $2{101|, END}",
            Asked::ResetBoard => "reset",
            Asked::InterruptAcknowledge => "interrupt acknowledge",
            Asked::Lines => "{102INTP lines|gates|DMA requests|slave lines}: $2 (high:*208)",
            Asked::DmaWordCycle => "DMA cycle, device has $2 $3{101|, END}",
            Asked::Iw1 =>
                "{E01|slave }IW1: $2 ({231edge|level}, {211extended|single}, CALL gap {2218|4}, {201no IW4|IW4 follows})",
            Asked::Mcw => "{E01|slave }MCW{203|| read IRR| read ISR| poll| poll| poll| poll}: $2",
            Asked::Pfcw =>
                "{E01|slave }PFCW {253rotation in self-FI off|finish|no operation|finish level %203|rotation in self-FI on|finish and rotate|level %203 lowest|finish level %203, make it lowest}: $2",
            Asked::Iw2OrImr => "{E01|slave }IW2 or IMR: $2",
            Asked::Iw2 => "{E01|slave }IW2: $2",
            Asked::Iw4 => "{E01|slave }IW4: $2 ({201CALL|vector}{211|, self-FI})",
            Asked::Imr => "{E01|slave }IMR: $2 (masked:*208)",
            Asked::Iw3 => "{E01|slave }IW3: $2",
            Asked::ReadIcu => "{E01|slave }read {D01IRR|ISR}",
            Asked::ReadImr => "{E01|slave }read IMR",
            Asked::MultipleLatch => "multiple latch: $2",
            Asked::Latch => "counter %262 control: $2 (latch)",
            Asked::CounterMode =>
                "counter %262 control: $2 (mode {2130|1|2|3|4|5|2|3}, {242|low byte|high byte|both bytes})",
            Asked::CounterModeBcd => "counter %262 control: $2 (mode {2130|1|2|3|4|5|2|3}, BCD)",
            Asked::Count => "counter %102 count{A02| low| high}: $2",
            Asked::ReadCounter => "read counter %102{A02| low| high}{B01|, latched}",
            Asked::DmaInitialize => "DMA initialize: $2 ({201|reset, }{2118|16}-bit bus)",
            Asked::DmaSelect => "DMA select channel %202{221| base}: $2",
            Asked::DmaRegister =>
                "channel %802 {103||count low|count high|address low|address middle|address high}: $2{901| (base)}",
            Asked::DmaControl =>
                "DMA device control: $2{223| (disabled)|| (disabled)| (rotate)| (rotate, disabled)| (rotate)| (rotate, disabled)}",
            Asked::DmaControlHigh => "DMA device control high: $2",
            Asked::DmaMode =>
                "channel %802 mode: $2 ({262demand|single|block|cascade}, {222verify|to memory|to device|direction 11}, {201bytes|words}{251|, downwards}{241|, autoinitialize})",
            Asked::DmaUnbuilt => "DMA {102temporary low|temporary high|request register}: $2",
            Asked::DmaMasks => "DMA masks: $2 (masked:*204)",
            Asked::ReadSelection => "read DMA selection",
            Asked::ReadDmaRegister =>
                "read channel %802 {103||count low|count high|address low|address middle|address high}{901| (base)}",
            Asked::ReadDmaMode => "read channel %802 mode",
            Asked::ReadDma =>
                "read DMA {103device control|device control high||status|temporary low|temporary high|request register|masks}",
        }
    }
}
