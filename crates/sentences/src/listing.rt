// A record as a line.
use crate::bytes::{Op, Record};
use crate::requests::Asked;

// The sentence of the line that stands for a record: whatever has no line of its own is raw.
pub fn sentence(r: Record) -> Asked {
    let Some(op) = r.operation() else {
        return Asked::Raw;
    };
    match (op, r.port, r.byte, r.upper, r.pulses) {
        (Op::Reset, 0, 0, 0, 0) => Asked::Reset,
        (Op::Write, _, _, 0, 0) => Asked::Write,
        (Op::Read, _, 0, 0, 0) => Asked::Read,
        (Op::Lines, 0, _, 0, 0) => Asked::Intp,
        (Op::Lines, 1, _, 0, 0) => Asked::Gates,
        (Op::Lines, 2, _, 0, 0) => Asked::Requests,
        (Op::Lines, 3, _, 0, 0) => Asked::Slave,
        (Op::Acknowledge, 0, 0, 0, 0) => Asked::Acknowledge,
        (Op::Advance, 0, 0, 0, _) => Asked::Advance,
        // the upper byte goes unsaid where it is 00, and the lower one too where nothing follows it
        (Op::Cycle, 0, 0, 0, 0) => Asked::Cycle,
        (Op::Cycle, 0 | 1, _, 0, 0) => Asked::CycleByte,
        (Op::Cycle, 0 | 1, _, _, 0) => Asked::CycleWord,
        _ => Asked::Raw,
    }
}
