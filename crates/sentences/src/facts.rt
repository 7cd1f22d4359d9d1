// What a sentence is filled in from.
ghost use Rattle.std.specs.Prelude.{◌≡◌, ℕ};
ghost use Rattle.sentences.specs.Bytes.{answer_bytes, record_bytes};
ghost use Rattle.sentences.specs.Facts.{no_facts, fact_at, facts_from, numbered};

use crate::bytes::{Answer, Record};

// Sixteen bytes, by their places, and two numbers beside them. What is not given is 0.
#[derive(Clone, Copy)]
pub struct Facts {
    bytes: [u8; 16],
    numbers: [u64; 2],
}

impl Facts {
    pub fn new() -> Facts
        ensures { result ≡ no_facts }
    {
        Facts {
            bytes: [0; 16],
            numbers: [0; 2],
        }
    }

    // A byte, or a bool, at a place.
    pub fn with<T: Into<u8>>(mut self, place: usize, x: T) -> Facts
        ensures { (byte : ℕ) × T.converts x byte × (result ≡ fact_at self place byte) }
    {
        let byte = x.into();
        if place < self.bytes.len() {
            self.bytes[place] = byte;
        }
        self
    }

    // Some bytes, from a place on; past the last place there is nothing.
    pub fn with_bytes(mut self, place: usize, bytes: &[u8]) -> Facts
        ensures { result ≡ facts_from self place bytes.now }
    {
        let from = place.min(16);
        let to = from + bytes.len().min(16 - from);
        self.bytes[from..to].copy_from_slice(&bytes[..to - from]);
        self
    }

    pub fn with_number(mut self, n: u64) -> Facts
        ensures { result ≡ numbered self n }
    {
        self.numbers[0] = n;
        self
    }

    pub(crate) fn with_numbers(mut self, numbers: [u64; 2]) -> Facts {
        self.numbers = numbers;
        self
    }

    pub(crate) fn number(&self, which: usize) -> u64 {
        self.numbers[which % 2]
    }

    pub(crate) fn byte(&self, place: usize) -> u8 {
        self.bytes[place % 16]
    }

    // Four bytes from a place on, little end first; C is the last such place.
    pub(crate) fn four(&self, place: usize) -> u32 {
        let at = place % 13;
        u32::from_le_bytes([
            self.bytes[at],
            self.bytes[at + 1],
            self.bytes[at + 2],
            self.bytes[at + 3],
        ])
    }
}

impl From<Record> for Facts {
    ghost from_gives = { λ r f. f ≡ facts_from no_facts 0 (record_bytes r) };

    fn from(r: Record) -> Facts {
        Facts::new().with_bytes(0, &<[u8; 8]>::from(r))
    }
}

impl From<Answer> for Facts {
    ghost from_gives = { λ a f. f ≡ record no_facts { bytes = answer_bytes a } };

    fn from(a: Answer) -> Facts {
        Facts {
            bytes: a.into(),
            numbers: [0; 2],
        }
    }
}
