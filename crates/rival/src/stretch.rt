// A stretch of tape: 64 records at most, with room for their answers. Both boards run it. `first_apart` and `count_apart` hold answers against
// answers and memory against memory; nothing else compares the boards.
use crate::modes::Modes;
use crate::places::Places;
use crate::requests::Requests;
use crate::slave::Slave;
use second::State;

pub type Tape = [[u8; 8]; 64];
// The answers of 64 records, and room for four more, which no board may write.
pub type Answers = [[u8; 16]; 68];

// Answers that no board has written yet.
pub const UNWRITTEN: Answers = [[0xA5; 16]; 68];

// The first place at which two lists differ, answers or memories, with what stands there in each.
pub fn first_apart<'a, T: PartialEq>(a: &'a [T], b: &'a [T]) -> Option<(usize, (&'a T, &'a T))> {
    a.iter().zip(b).enumerate().find(|(_, (a, b))| a != b)
}

// At how many places they differ.
pub fn count_apart<T: PartialEq>(a: &[T], b: &[T]) -> u64 {
    a.iter().zip(b).filter(|(a, b)| a != b).count() as u64
}

// A memory, of which a board is lent the first bytes: so many as `length` says, or all.
#[derive(Clone, Copy, PartialEq, Eq)]
pub struct Memory {
    pub bytes: [u8; 4096],
    pub length: usize,
}

// What became of the second board's counters, its requests, its slave and its units.
#[derive(Clone, Copy, Default)]
pub struct Seen {
    pub modes: Modes,
    pub requests: Requests,
    pub slave: Slave,
    pub places: Places,
}

// A record on the second board: the board before and after it, the record and its answer.
#[derive(Clone, Copy)]
pub(crate) struct Step {
    pub(crate) before: State,
    pub(crate) after: State,
    pub(crate) record: [u8; 8],
    pub(crate) answer: [u8; 16],
}

impl Step {
    pub(crate) fn status(&self) -> u8 {
        self.answer[0]
    }

    pub(crate) fn op(&self) -> u8 {
        self.record[0]
    }

    // The port of a write or a read, the group of lines.
    pub(crate) fn port(&self) -> u8 {
        self.record[1]
    }

    // The pulses of an advance.
    pub(crate) fn pulses(&self) -> u32 {
        let [_, _, _, _, a, b, c, d] = self.record;
        u32::from_le_bytes([a, b, c, d])
    }

    // How often OUT of counter 0, 1 or 2 rose in an advance.
    pub(crate) fn rises(&self, counter: usize) -> u16 {
        let at = 4 + counter % 3 * 4;
        u16::from_le_bytes([self.answer[at], self.answer[at + 1]])
    }
}

// The second board under way, and what became of it.
#[derive(Clone, Copy)]
pub struct Ran {
    pub state: State,
    pub seen: Seen,
}

impl Ran {
    // The second board from reset, with the counts so far.
    pub fn from_reset(seen: Seen) -> Ran {
        Ran {
            state: second::second_reset(),
            seen,
        }
    }

    // One record, and its answer.
    fn run_one(&mut self, record: [u8; 8], memory: &mut [u8]) -> [u8; 16] {
        let [a, b, c, d, e, f, g, h] = record;
        let low = u32::from_le_bytes([a, b, c, d]);
        let high = u32::from_le_bytes([e, f, g, h]);
        let before = self.state;
        let answered = second::second_step(before, low, high, memory);
        let after = answered.s;
        let answer = answered.answer;
        let step = Step {
            before,
            after,
            record,
            answer,
        };
        self.state = after;
        self.seen.modes.count_record(&step);
        self.seen.requests.count_record(&step);
        self.seen.slave.count_record(&step);
        self.seen.places.count_record(&step, memory);
        answer
    }

    // The second board, record by record: the answers of as many records as there is room for.
    pub fn run(&mut self, records: &[[u8; 8]], memory: &mut Memory, answers: &mut Answers) {
        let length = memory.length.min(4096);
        let lent = &mut memory.bytes[..length];
        for (answer, record) in answers.iter_mut().zip(records) {
            *answer = self.run_one(*record, lent);
        }
    }
}
