// Which sentence says what a record asks for.
use icu::Icu;
use sentences::bytes::{Op, Record};
use sentences::{Asked, which};
use timer::Counter;

// By a record, and the stage of the interrupt chip that its port is of.
pub fn sentence(r: Record, stage: u8) -> Asked {
    match r.operation() {
        Some(Op::Reset) => Asked::ResetBoard,
        Some(Op::Write) => write(which::master_port(r.port), r.byte, stage),
        Some(Op::Read) => read(which::master_port(r.port)),
        Some(Op::Lines) => Asked::Lines,
        Some(Op::Acknowledge) => Asked::InterruptAcknowledge,
        Some(Op::Advance) if r.pulses % 65536 == 1 => Asked::OnePulse,
        Some(Op::Advance) => Asked::Pulses,
        _ if r.upper == 0 => Asked::DmaCycle,
        _ => Asked::DmaWordCycle,
    }
}

// Which byte of a count is the next one: 1 the low one, 2 the high one. `second`: of a count of two bytes the first one is done.
pub fn place(c: Counter, second: bool) -> u8 {
    match c.format {
        Counter::BOTH => 1 + u8::from(second),
        format => format,
    }
}

// By port: an interrupt chip, whose next word depends on what it awaits, the timer, the DMA chip.
fn write(port: u8, x: u8, stage: u8) -> Asked {
    match port {
        0x00 => match x / 8 % 4 {
            0 => Asked::Pfcw,
            1 => Asked::Mcw,
            _ => Asked::Iw1,
        },
        0x01 => match stage {
            Icu::AWAITS_IW2 => Asked::Iw2,
            Icu::AWAITS_IW3 => Asked::Iw3,
            Icu::AWAITS_IW4 => Asked::Iw4,
            Icu::READY => Asked::Imr,
            _ => Asked::Iw2OrImr,
        },
        0x10..=0x12 => Asked::Count,
        0x13 => match x / 16 {
            0 | 4 | 8 => Asked::Latch,
            12..=15 => Asked::MultipleLatch,
            _ if x % 2 == 0 => Asked::CounterMode,
            _ => Asked::CounterModeBcd,
        },
        0x20 => Asked::DmaInitialize,
        0x21 => Asked::DmaSelect,
        0x28 => Asked::DmaControl,
        0x29 => Asked::DmaControlHigh,
        0x2a => Asked::DmaMode,
        0x2c..=0x2e => Asked::DmaUnbuilt,
        0x2f => Asked::DmaMasks,
        _ => Asked::DmaRegister,
    }
}

fn read(port: u8) -> Asked {
    match port {
        0x00 => Asked::ReadIcu,
        0x01 => Asked::ReadImr,
        0x10..=0x12 => Asked::ReadCounter,
        0x21 => Asked::ReadSelection,
        0x2a => Asked::ReadDmaMode,
        0x28..=0x2f => Asked::ReadDma,
        _ => Asked::ReadDmaRegister,
    }
}
