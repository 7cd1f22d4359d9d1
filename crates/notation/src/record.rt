// The lines that are records.
ghost use Rattle.std.specs.Prelude.{◌≡◌, if◌then◌else◌};
ghost use Rattle.notation.specs.Answers.{expected_by, charted};

use crate::check;
use crate::check::{Check, Expected};
use crate::fault::{Bad, Fault};
use crate::word::{Base, Span, Words};

#[derive(Clone, Copy)]
pub struct RecordLine {
    pub bytes: [u8; 8],
    // how often it comes
    pub times: u32,
    // the characters of a cycle, of which each makes a record; empty where it has none
    pub text: Span,
    pub check: Check,
}

impl RecordLine {
    // What is said of its answer.
    pub fn expected(&self) -> Expected
        ensures { result ≡ expected_by self.now.check }
    {
        match self.check {
            Check::Said(expected) => expected,
            _ => Expected::NONE,
        }
    }

    // In a chart the whole answer is meant.
    pub fn meant(self, chart: bool) -> RecordLine
        ensures bytes { result.bytes ≡ self.bytes }
        ensures times { result.times ≡ self.times }
        ensures text { result.text ≡ self.text }
        ensures value { result ≡ (if chart then charted self else self) }
    {
        if !chart {
            return self;
        }
        RecordLine {
            check: Check::Said(self.expected().whole(self.bytes[0])),
            ..self
        }
    }
}

// What a record's first word asks for.
#[derive(Clone, Copy)]
pub(crate) enum Order {
    Reset,
    Write,
    Read,
    // of the lines of one group
    Levels(u8),
    Acknowledge,
    Advance,
    Cycle,
    Raw,
}

impl Order {
    pub(crate) fn of(word: &[u8]) -> Option<Order> {
        Some(match word {
            b"reset" => Order::Reset,
            b"write" => Order::Write,
            b"read" => Order::Read,
            b"intp" => Order::Levels(0),
            b"gates" => Order::Levels(1),
            b"requests" => Order::Levels(2),
            b"slave" => Order::Levels(3),
            b"acknowledge" => Order::Acknowledge,
            b"advance" => Order::Advance,
            b"cycle" => Order::Cycle,
            b"raw" => Order::Raw,
            _ => return None,
        })
    }
}

// A record that comes so often, and what its answer is expected to be, or nothing more.
pub(crate) fn take(words: &mut Words<'_>, order: Order, times: u32) -> Result<RecordLine, Bad> {
    let mut record = RecordLine {
        bytes: [0; 8],
        times,
        text: Span::NONE,
        check: Check::Unchecked,
    };
    // what may follow
    let mut next = Fault::Nothing;
    match order {
        Order::Cycle => next = take_cycle(words, &mut record),
        _ => record.bytes = take_bytes(words, order)?,
    }
    if words.take_word(b"=") {
        record.check = check::take(words, record.bytes[0])?;
        return Ok(record);
    }
    words.close(next)?;
    Ok(record)
}

fn take_bytes(words: &mut Words<'_>, order: Order) -> Result<[u8; 8], Bad> {
    let mut bytes = [0; 8];
    match order {
        Order::Reset | Order::Cycle => {}
        Order::Write => {
            bytes[0] = 1;
            bytes[1] = words.byte(Fault::Port)?;
            bytes[2] = words.byte(Fault::Data)?;
        }
        Order::Read => {
            bytes[0] = 2;
            bytes[1] = words.byte(Fault::Port)?;
        }
        Order::Levels(group) => {
            bytes[0] = 3;
            bytes[1] = group;
            bytes[2] = words.byte(Fault::Levels)?;
        }
        Order::Acknowledge => bytes[0] = 4,
        Order::Advance => {
            bytes[0] = 5;
            let pulses = words.number(Base::Ten, 0, u32::MAX, Fault::Pulses)?;
            bytes[4..].copy_from_slice(&pulses.to_le_bytes());
        }
        Order::Raw => {
            for byte in &mut bytes {
                *byte = words.byte(Fault::Raw)?;
            }
        }
    }
    Ok(bytes)
}

// After the word cycle: a text, or the device's lower byte, then its upper one, then the word end; or nothing. Answers what else might have followed.
fn take_cycle(words: &mut Words<'_>, record: &mut RecordLine) -> Fault {
    record.bytes[0] = 6;
    if let Some(text) = words.take(|w| w.letters_span()) {
        record.text = text;
        return Fault::Nothing;
    }
    let Some(lower) = words.take(|w| w.byte()) else {
        return Fault::Device;
    };
    record.bytes[2] = lower;
    let upper = words.take(|w| w.byte());
    record.bytes[3] = upper.unwrap_or(0);
    if words.take_word(b"end") {
        record.bytes[1] = 1;
        return Fault::Nothing;
    }
    match upper {
        Some(_) => Fault::End,
        None => Fault::DeviceUpper,
    }
}
