// Which sentence says why a record was refused.
use crate::chips::Manner;
use icu::Icu;
use sentences::Refused;
use sentences::bytes::{Op, Record};

// Status 2: the record by itself.
pub fn malformed(r: Record, m: Manner) -> Refused {
    let zero = r.upper == 0 && r.pulses == 0;
    match r.operation() {
        Some(Op::Reset) => Refused::ResetBytes,
        Some(Op::Write) if zero => closed_port(m),
        Some(Op::Write) => Refused::WriteBytes,
        Some(Op::Read) if zero && r.byte == 0 => closed_port(m),
        Some(Op::Read) => Refused::ReadBytes,
        Some(Op::Lines) if zero => match r.port {
            0 => Refused::Intp0,
            1 => Refused::Gates,
            2 => Refused::Requests,
            _ => Refused::NoGroup,
        },
        Some(Op::Lines) => Refused::LinesBytes,
        Some(Op::Acknowledge) => Refused::AcknowledgeBytes,
        Some(Op::Advance) if r.pulses < 65536 => Refused::AdvanceBytes,
        Some(Op::Advance) => Refused::PulsesPastMost,
        Some(Op::Cycle) if r.port < 2 => Refused::CycleBytes,
        Some(Op::Cycle) => Refused::CycleEnd,
        None => Refused::NoOperation,
    }
}

// A port that is not there, or there for the other direction alone.
fn closed_port(m: Manner) -> Refused {
    match (m.writable, m.readable) {
        (false, false) => Refused::NoPort,
        (false, true) => Refused::OnlyRead,
        (true, _) => Refused::OnlyWritten,
    }
}

// Status 3: who waits for what. An interrupt chip awaits a word, or two are ready and not set up alike: one of them is `single` and the other not, or they differ in their modes.
pub fn early(op: Option<Op>, port: u8, stage: u8, single: bool) -> Refused {
    if op != Some(Op::Acknowledge) && 1 < port {
        return match port {
            0x13 => Refused::LatchBeforeMode,
            _ => Refused::CountBeforeMode,
        };
    }
    match stage {
        Icu::READY if single => Refused::ExtendedAndSingle,
        Icu::READY => Refused::CallAndVector,
        _ => Refused::IcuAwaits,
    }
}

// Status 4: what the board leaves out, by port and byte.
pub fn unbuilt(port: u8, x: u8) -> Refused {
    match port {
        0x00 if x / 4 % 2 == 0 => Refused::Nesting,
        0x00 => Refused::Polling,
        0x01 => Refused::OtherSlaves,
        0x13 if x / 64 == 3 => Refused::MultipleLatch,
        0x13 => Refused::Bcd,
        0x20 => Refused::NarrowBusUnderWords,
        0x28 => Refused::DmaControl,
        0x29 => Refused::DmaControlHigh,
        0x2a if x / 64 == 3 => Refused::Cascade,
        0x2a if x / 4 % 4 == 3 => Refused::Direction,
        0x2a if x / 2 % 2 == 0 => Refused::WordsOnNarrowBus,
        0x2a => Refused::ModeD1,
        _ => Refused::DmaUnbuilt,
    }
}
