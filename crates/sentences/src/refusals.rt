// Why a record was refused. The facts: 0 to 7 are the record, 8 the status, 9 the DMA channel that has the bus, or where none has it a bit for each channel in a word
// mode, A whether the count that is written has two bytes. B is what the interrupt chip at fault awaits, C whether that is the slave, F whether the master needs it for an
// acknowledge. D is how the master is set up, E how the slave is: bit 0 vector mode, bit 1 single.
use crate::Sentence;

#[derive(Clone, Copy)]
pub enum Refused {
    // status 1
    BusTaken,

    // status 2
    ResetBytes,
    WriteBytes,
    ReadBytes,
    LinesBytes,
    AcknowledgeBytes,
    PulsesPastMost,
    AdvanceBytes,
    CycleEnd,
    CycleBytes,
    NoOperation,
    OnlyWritten,
    OnlyRead,
    NoPort,
    Intp0,
    Gates,
    Requests,
    NoGroup,

    // status 3
    IcuAwaits,
    ExtendedAndSingle,
    CallAndVector,
    LatchBeforeMode,
    CountBeforeMode,

    // status 4
    OtherSlaves,
    Polling,
    Nesting,
    MultipleLatch,
    Bcd,
    WordsOnNarrowBus,
    NarrowBusUnderWords,
    DmaControl,
    DmaControlHigh,
    Cascade,
    Direction,
    ModeD1,
    DmaUnbuilt,

    // status 6
    CountOfOne,
}

impl Sentence for Refused {
    fn words(self) -> &'static str {
        match self {
            Refused::BusTaken =>
                "1: channel %902 has the bus; give it cycles until the bus is free",
            Refused::ResetBytes => "2: bytes 1 to 7 of a reset must be zero",
            Refused::WriteBytes => "2: bytes 3 to 7 of a write must be zero",
            Refused::ReadBytes => "2: bytes 2 to 7 of a read must be zero",
            Refused::LinesBytes => "2: bytes 3 to 7 of a lines record must be zero",
            Refused::AcknowledgeBytes => "2: bytes 1 to 7 of an acknowledge must be zero",
            Refused::PulsesPastMost => "2: one advance has at most 65535 pulses",
            Refused::AdvanceBytes => "2: bytes 1 to 3 of an advance must be zero",
            Refused::CycleEnd => "2: END, byte 1 of a DMA cycle, must be 0 or 1",
            Refused::CycleBytes => "2: bytes 4 to 7 of a DMA cycle must be zero",
            Refused::NoOperation => "2: there is no operation $0; they go from 00 to 06",
            Refused::OnlyWritten => "2: port $1 cannot be {002|written|read}, only written",
            Refused::OnlyRead => "2: port $1 cannot be {002|written|read}, only read",
            Refused::NoPort => "2: port $1 is not there",
            Refused::Intp0 => "2: INTP0 is wired to OUT0; a tape sets INTP1 to INTP7, bits 1 to 7",
            Refused::Gates => "2: there are three gates, bits 0 to 2",
            Refused::Requests => "2: there are four DMA requests, bits 0 to 3",
            Refused::NoGroup => "2: there is no group $1 of lines; they go from 00 to 03",
            Refused::IcuAwaits =>
                "3: out of turn, {F01|the master is extended, and }the {C01master|slave} waits for {B03IW1|IW2|IW4||IW3} at port {C010|3}{B030|1|1||1}",
            Refused::ExtendedAndSingle =>
                "3: out of turn, the master is {D11extended|single} and the slave is {E11extended|single}",
            Refused::CallAndVector =>
                "3: out of turn, the master is in {D01CALL|vector} mode and the slave in {E01CALL|vector} mode",
            Refused::LatchBeforeMode => "3: out of turn, counter %262 has no mode yet",
            Refused::CountBeforeMode => "3: out of turn, counter %102 has no mode yet",
            Refused::OtherSlaves =>
                "4: not built, any slave but one on line 7; IW3 must be {C0180|07} here",
            Refused::Polling => "4: not built, polling",
            Refused::Nesting => "4: not built, the exceptional nesting mode",
            Refused::MultipleLatch => "4: not built, the multiple latch; there are counters 0 to 2",
            Refused::Bcd => "4: not built, counting in BCD",
            Refused::WordsOnNarrowBus =>
                "4: no words on the 8-bit bus; for the 16-bit bus write 02 to port 20 first",
            Refused::NarrowBusUnderWords =>
                "4: the 8-bit bus has no words; channels in a word mode:*904. Give each a byte mode first, or reset the chip",
            Refused::DmaControl => "4: not built, bits of device control other than D4 and D2",
            Refused::DmaControlHigh => "4: not built, any bit of device control high; write 00",
            Refused::Cascade => "4: not built, cascade (D7 and D6 set)",
            Refused::Direction => "4: not built, direction 11 (D3 and D2 set)",
            Refused::ModeD1 => "4: not built, D1 of a mode",
            Refused::DmaUnbuilt => "4: not built, registers C, D and E of the DMA chip",
            Refused::CountOfOne =>
                "%808: a count of 1 is not for modes 2 and 3; the least is 2{A01|. The low byte is kept: write the high byte next, or the control word again}",
        }
    }
}
