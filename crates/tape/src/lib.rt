// The tape's records of 8 bytes, read as operations, and the answers of 16 bytes.
#![tactic(auto)]

ghost use Rattle.std.specs.Prelude.{◌≡◌, ℕ, List, ◌++◌, ◌+◌, ◌≤◌, length, take, get_or};
ghost use Rattle.tape.specs.Records.{held_of, unused, writable, readable, lines_asked, decode_of, uses_bus};
ghost use Rattle.tape.specs.Answers.{answer_of};

use std::marker::Model;

// What a record asks for. Lines come by group: INTP, gates, DMA requests, the slave's INTP.
#[derive(Clone, Copy)]
pub enum Operation {
    Reset,
    // port, data
    Write(u8, u8),
    // port
    Read(u8),
    Intp(u8),
    Gates(u8),
    Requests(u8),
    SlaveIntp(u8),
    Acknowledge,
    // pulses
    Advance(u32),
    // END, the device's byte, its upper one for a word
    Cycle(bool, u8, u8),
}

pub const RECORD: usize = 8;

pub const ANSWER: usize = 16;

pub const MOST_PULSES: u32 = 65535;

// The bytes that there are to run: those kept of a cut record, and the tape after them.
#[derive(Drop)]
pub struct Input<'a> {
    pub kept: [u8; 7],
    // how many bytes were kept, as it is said
    pub size: u8,
    pub tape: &'a [u8],
}

impl<'a> Model for Input<'a> {
    ghost Value = { List ℕ };

    ghost view = { λ b. take b.size b.kept ++ b.tape.now };
}

// How many bytes are kept: there is room for seven, whatever their size is said to be.
pub fn held(size: u8) -> usize
    ensures value { result ≡ held_of size }
    ensures upper_bound { result ≤ 7 }
{
    usize::from(size.min(7))
}

// How many bytes the kept ones and the tape make.
pub fn count_bytes(kept: [u8; 7], size: u8, tape: &[u8]) -> usize
    ensures value { result ≡ length (take size kept ++ tape.now) }
    ensures value_2 { result ≡ held_of size + length tape.now }
{
    held(size) + tape.len()
}

impl<'a> Input<'a> {
    // How many bytes there are.
    pub fn count_bytes(&self) -> usize
        ensures { result ≡ length self.now }
    {
        count_bytes(self.kept, self.size, self.tape)
    }

    // Byte j of them, 0 past the end.
    pub fn byte_at(&self, j: usize) -> u8
        ensures { result ≡ get_or self.now j 0 }
    {
        let n = held(self.size);
        if j < n {
            self.kept[j]
        } else if j - n < self.tape.len() {
            self.tape[j - n]
        } else {
            0
        }
    }
}

// The ports that a write may name: the interrupt chip's two, the timer's four, the DMA chip's but for 27H and 2BH, the slave's two.
pub fn is_writable(port: u8) -> bool
    ensures { result ≡ writable port }
{
    matches!(port, 0x00..=0x01 | 0x10..=0x13 | 0x20..=0x26 | 0x28..=0x2a | 0x2c..=0x31)
}

// The ports that a read may name: 13H, 20H and 27H are not among them.
pub fn is_readable(port: u8) -> bool
    ensures { result ≡ readable port }
{
    matches!(port, 0x00..=0x01 | 0x10..=0x12 | 0x21..=0x26 | 0x28..=0x31)
}

// Bytes 4 to 7 are zero. (By a function over any part of the record a register read takes 14 instructions more.)
#[tactic(auto, unfolding(crate::specs::Records::unused))]
fn is_zero_from_4(r: [u8; 8]) -> bool
    ensures { result ≡ unused r 4 4 }
{
    r[4] == 0 && r[5] == 0 && r[6] == 0 && r[7] == 0
}

#[tactic(auto, unfolding(crate::specs::Records::unused))]
fn is_zero_from_3(r: [u8; 8]) -> bool
    ensures { result ≡ unused r 3 5 }
{
    r[3] == 0 && is_zero_from_4(r)
}

#[tactic(auto, unfolding(crate::specs::Records::unused))]
fn is_zero_from_2(r: [u8; 8]) -> bool
    ensures { result ≡ unused r 2 6 }
{
    r[2] == 0 && is_zero_from_3(r)
}

#[tactic(auto, unfolding(crate::specs::Records::unused))]
fn is_zero_from_1(r: [u8; 8]) -> bool
    ensures { result ≡ unused r 1 7 }
{
    r[1] == 0 && is_zero_from_2(r)
}

// Bytes 1 to 3 are zero.
#[tactic(auto, unfolding(crate::specs::Records::unused))]
fn is_zero_to_3(r: [u8; 8]) -> bool
    ensures { result ≡ unused r 1 3 }
{
    r[1] == 0 && r[2] == 0 && r[3] == 0
}

// A group of lines at levels: bits 1-7 are INTP's, 0-2 the gates', 0-3 the DMA requests', 0-7 the slave's.
fn lines_asked(group: u8, levels: u8) -> Option<Operation>
    ensures { result ≡ lines_asked group levels }
{
    match group {
        0 => (levels % 2 == 0).then_some(Operation::Intp(levels)),
        1 => (levels < 8).then_some(Operation::Gates(levels)),
        2 => (levels < 16).then_some(Operation::Requests(levels)),
        3 => Some(Operation::SlaveIntp(levels)),
        _ => None,
    }
}

// A record's operation, or none where it is malformed. It is so or not by its eight bytes alone: those that an operation does not use are zero.
pub fn decode(r: [u8; 8]) -> Option<Operation>
    ensures { result ≡ decode_of r }
{
    match r[0] {
        0 => is_zero_from_1(r).then_some(Operation::Reset),
        1 => (is_zero_from_3(r) && is_writable(r[1])).then_some(Operation::Write(r[1], r[2])),
        2 => (is_zero_from_2(r) && is_readable(r[1])).then_some(Operation::Read(r[1])),
        3 if is_zero_from_3(r) => lines_asked(r[1], r[2]),
        4 => is_zero_from_1(r).then_some(Operation::Acknowledge),
        5 => {
            let n = u32::from_le_bytes([r[4], r[5], r[6], r[7]]);
            (is_zero_to_3(r) && n <= MOST_PULSES).then_some(Operation::Advance(n))
        }
        6 => {
            let cycle = Operation::Cycle(r[1] == 1, r[2], r[3]);
            (is_zero_from_4(r) && r[1] <= 1).then_some(cycle)
        }
        _ => None,
    }
}

impl Operation {
    // The processor's own bus cycles, which wait while a DMA channel is served.
    pub fn uses_bus(self) -> bool
        ensures { result ≡ uses_bus self }
    {
        matches!(
            self,
            Operation::Write(_, _) | Operation::Read(_) | Operation::Acknowledge
        )
    }
}

// Sixteen bytes: status, operation as read, data, levels, payload.
pub fn answer(status: u8, op: u8, byte: u8, levels: u8, payload: [u8; 12]) -> [u8; 16]
    ensures { result ≡ answer_of status op byte levels payload }
{
    let p = payload;
    [
        status, op, byte, levels, p[0], p[1], p[2], p[3], p[4], p[5], p[6], p[7], p[8], p[9],
        p[10], p[11],
    ]
}
