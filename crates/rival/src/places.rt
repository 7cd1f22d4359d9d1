// Where units lie: inside the lent memory or outside it, by their direction and their width. Counted by the address in a unit's answer, by the second
// board's mode of its channel and by the memory's length. What the answer says of the place, its bytes 12 and 13, is held against that. docs/DUEL.md has
// the words.
use crate::counts::add;
use crate::stretch::Step;
use second::{Direction, Moving};
use std::fmt;

// The counts.
#[derive(Clone, Copy, Default)]
pub struct Places {
    to_memory: Units,
    from_memory: Units,
    verified: Units,
    // Units whose byte 12, and those whose byte 13, says otherwise.
    fell_otherwise: u64,
    moved_otherwise: u64,
}

// The units of one direction.
#[derive(Clone, Copy, Default)]
struct Units {
    bytes: Bytes,
    words: Words,
}

#[derive(Clone, Copy, Default)]
struct Bytes {
    // Inside the memory, of these at its last byte; outside, of these at the address that is its length.
    inside: u64,
    last: u64,
    outside: u64,
    at_length: u64,
}

#[derive(Clone, Copy, Default)]
struct Words {
    // Inside, half outside and outside, upwards and downwards each.
    lying: [[u64; 2]; 3],
    // At an even address, and at an odd one.
    even: u64,
    odd: u64,
    // Upwards and downwards, at the four addresses where the address space begins and ends.
    ends: [[u64; 4]; 2],
}

// A unit that moved: how its channel moves it, its address, and the memory's length.
#[derive(Clone, Copy)]
struct Unit {
    moving: Moving,
    at: usize,
    length: usize,
}

impl Unit {
    // How many of its bytes the memory lacks. A word is at its even address and at the one above.
    fn missing(&self) -> usize {
        if self.moving.by_words {
            usize::from(self.at & !1 >= self.length) + usize::from(self.at | 1 >= self.length)
        } else {
            usize::from(self.at >= self.length)
        }
    }

    // The upper byte: that of the device, or that of the memory, which a unit to the device leaves as it was.
    fn upper(&self, device: u8, memory: &[u8]) -> u8 {
        if !self.moving.by_words {
            return 0;
        }
        match self.moving.direction {
            Direction::Verify => 0,
            Direction::ToMemory => device,
            Direction::ToDevice => memory.get(self.at | 1).copied().unwrap_or(0xFF),
        }
    }
}

impl Bytes {
    fn count(&mut self, unit: &Unit) {
        if unit.at < unit.length {
            add(&mut self.inside, 1);
            add(&mut self.last, u64::from(unit.at + 1 == unit.length));
        } else {
            add(&mut self.outside, 1);
            add(&mut self.at_length, u64::from(unit.at == unit.length));
        }
    }
}

impl Words {
    fn count(&mut self, unit: &Unit) {
        let down = usize::from(unit.moving.down);
        add(&mut self.lying[unit.missing() % 3][down], 1);
        if unit.at % 2 == 0 {
            add(&mut self.even, 1);
        } else {
            add(&mut self.odd, 1);
        }
        let end = match unit.at {
            0 => 0,
            1 => 1,
            0xFFFFFE => 2,
            0xFFFFFF => 3,
            _ => return,
        };
        add(&mut self.ends[down][end], 1);
    }
}

impl Units {
    fn count(&mut self, unit: &Unit) {
        if unit.moving.by_words {
            self.words.count(unit);
        } else {
            self.bytes.count(unit);
        }
    }
}

impl Places {
    // The memory is as it is after the record.
    pub(crate) fn count_record(&mut self, step: &Step, memory: &[u8]) {
        let answer = step.answer;
        if step.status() != 0 || answer[1] != 6 || answer[4] != 2 {
            return;
        }
        let at = u32::from_le_bytes([answer[8], answer[9], answer[10], answer[11]]);
        let unit = Unit {
            moving: second::watch_channel(step.before, u32::from(answer[5])),
            at: at as usize,
            length: memory.len(),
        };
        match unit.moving.direction {
            Direction::Verify => self.verified.count(&unit),
            Direction::ToMemory => self.to_memory.count(&unit),
            Direction::ToDevice => self.from_memory.count(&unit),
        }
        let falls = unit.moving.direction != Direction::Verify && unit.missing() > 0;
        if answer[12] != u8::from(falls) {
            add(&mut self.fell_otherwise, 1);
        }
        if answer[13] != unit.upper(step.record[3], memory) {
            add(&mut self.moved_otherwise, 1);
        }
    }

    // How many bytes 12 and 13 said otherwise.
    pub fn otherwise(&self) -> u64 {
        self.fell_otherwise.saturating_add(self.moved_otherwise)
    }
}

impl fmt::Display for Places {
    fn fmt<W: fmt::Write>(&self, f: &mut fmt::Formatter<W>) -> fmt::Result {
        let all = [
            ("to memory", self.to_memory),
            ("from memory", self.from_memory),
            ("verified", self.verified),
        ];
        for (direction, units) in all {
            let bytes = units.bytes;
            writeln!(
                f,
                "bytes {direction}: inside the memory {}, at its last byte {}, outside {}, at its length {}",
                bytes.inside, bytes.last, bytes.outside, bytes.at_length,
            )?;
        }
        for (direction, units) in all {
            let words = units.words;
            let [inside, half, outside] = words.lying;
            writeln!(
                f,
                "words {direction}, upwards and downwards: inside the memory {} {}, half outside {} {}, outside {} {}; at an even address {}, at an odd one {}",
                inside[0],
                inside[1],
                half[0],
                half[1],
                outside[0],
                outside[1],
                words.even,
                words.odd,
            )?;
        }
        for (direction, units) in [
            ("to memory", self.to_memory),
            ("from memory", self.from_memory),
        ] {
            let [up, down] = units.words.ends;
            writeln!(
                f,
                "words {direction}, upwards: at 000000H {}, 000001H {}, FFFFFEH {}, FFFFFFH {}",
                up[0], up[1], up[2], up[3],
            )?;
            writeln!(
                f,
                "downwards: at 000000H {}, 000001H {}, FFFFFEH {}, FFFFFFH {}",
                down[0], down[1], down[2], down[3],
            )?;
        }
        writeln!(
            f,
            "units whose byte 12 says otherwise: {}",
            self.fell_otherwise
        )?;
        writeln!(f, "whose byte 13 says otherwise: {}", self.moved_otherwise)
    }
}
