// A line, as what it comes to.
ghost use Rattle.std.specs.Prelude.{◌+◌, ◌<◌, ◌≡◌, ◌↔◌, true};
ghost use Rattle.notation.specs.Lines as Lines;

use crate::check::{Expected, Whose};
use crate::fault::{Bad, Fault};
use crate::record::{Order, RecordLine};
use crate::word::{Base, Bytes, Span, Word, Words};
use crate::{check, record};

// What a good line comes to.
#[derive(Clone, Copy)]
pub struct Parsed {
    pub what: What,
    // where its words end: what is left is its comment
    pub end: usize,
}

#[derive(Clone, Copy)]
pub enum What {
    Empty,
    Record(RecordLine),
    // levels, or bytes of memory, as they are expected now
    Expect(Expected),
    ExpectMemory(MemoryLine),
    Memory(MemoryLine),
    // the length of the memory
    Lend(u32),
    Show(Chip),
    Guess(Guess),
    // a name
    Chart(Span),
    Card(Span),
    Again,
}

impl Parsed {
    pub const EMPTY: Parsed = Parsed {
        what: What::Empty,
        end: 0,
    };

    pub fn is_record(&self) -> bool
        ensures { result ≡ Lines.is_record self.now.what }
    {
        matches!(self.what, What::Record(_))
    }

    // Whether the learner is asked for an answer.
    pub fn is_asked(&self) -> bool
        ensures { result ≡ Lines.is_asked self.now.what }
    {
        matches!(self.what, What::Record(record) if matches!(record.check, check::Check::Asked))
    }

    // The words of it that are told as they stand there: what it expects, a chart's name, what is said to a guess, or the name of a card.
    pub fn quoted(&self) -> Span
        ensures { result ≡ Lines.quoted self.now.what }
    {
        match self.what {
            What::Expect(expected) => expected.said,
            What::ExpectMemory(memory) => memory.said,
            What::Guess(guess) => guess.answer,
            What::Chart(name) | What::Card(name) => name,
            _ => Span::NONE,
        }
    }
}

// Bytes of memory from an address on.
#[derive(Clone, Copy)]
pub struct MemoryLine {
    pub address: u32,
    pub length: usize,
    // where they stand, and where all that is said of memory does
    pub bytes: Span,
    pub said: Span,
}

impl MemoryLine {
    // Whether it ends past a memory of this length.
    pub(crate) fn is_past(&self, lent: u32) -> bool
        ensures { (result ≡ true) ↔ (lent < self.now.address + self.now.length) }
    {
        (self.length as u64).saturating_add(u64::from(self.address)) > u64::from(lent)
    }

    // The bytes, one after another.
    pub fn bytes<'a>(&self, line: &'a [u8]) -> Bytes<'a> {
        Bytes::of(Words::of(self.bytes.of(line)))
    }
}

// What is said to a guess, if it was just this.
#[derive(Clone, Copy)]
pub struct Guess {
    pub expected: Expected,
    pub answer: Span,
}

// What is shown.
#[derive(Clone, Copy, PartialEq, Eq)]
pub enum Chip {
    All = 0,
    Master = 1,
    Slave = 2,
    Timer = 3,
    Dma = 4,
}

impl Chip {
    fn of(word: Word<'_>) -> Option<Chip> {
        match word.text {
            b"master" => Some(Chip::Master),
            b"slave" => Some(Chip::Slave),
            b"timer" => Some(Chip::Timer),
            b"dma" => Some(Chip::Dma),
            _ => None,
        }
    }
}

// A line up to its line feed. A carriage return elsewhere than at its end is no blank, and stands in no comment either: what comes after it looks like lines of its own.
pub fn parse(line: &[u8]) -> Result<Parsed, Bad> {
    let line = without_return(line);
    if let Some(at) = find_return(line) {
        return Err(Bad::at(at, Fault::CarriageReturn));
    }
    let mut words = Words::of(line);
    let what = take(&mut words)?;
    Ok(Parsed {
        what,
        end: words.at(),
    })
}

// What is wrong with a line that is too long, by its first bytes: a text whose lines end in carriage returns alone is one such line.
pub fn parse_long(line: &[u8]) -> Bad {
    match find_return(line) {
        Some(at) => Bad::at(at, Fault::CarriageReturn),
        None => Bad::at(line.len(), Fault::Shorter),
    }
}

// A carriage return just before the line feed belongs to it.
pub fn without_return(line: &[u8]) -> &[u8] {
    match line {
        [rest @ .., b'\r'] => rest,
        _ => line,
    }
}

fn find_return(line: &[u8]) -> Option<usize> {
    line.iter().position(|b| *b == b'\r')
}

fn take(words: &mut Words<'_>) -> Result<What, Bad> {
    let Some(first) = words.next() else {
        return Ok(What::Empty);
    };
    match first.text {
        b"repeat" => take_repeat(words),
        b"expect" => take_expect(words),
        b"memory" => take_memory(words, first).map(What::Memory),
        b"lend" => take_lend(words),
        b"show" => take_show(words),
        b"guess" => take_guess(words),
        b"chart" => take_name(words),
        b"card" => take_card(words),
        b"again" => {
            words.close(Fault::TheRest)?;
            Ok(What::Again)
        }
        _ => {
            let order = Order::of(first.text).ok_or(first.bad(Fault::Word))?;
            record::take(words, order, 1).map(What::Record)
        }
    }
}

// How often, and a record.
fn take_repeat(words: &mut Words<'_>) -> Result<What, Bad> {
    let times = words.number(Base::Ten, 1, 65535, Fault::Repeats)?;
    let order = words.expect(Fault::Records, |w| Order::of(w.text))?;
    record::take(words, order, times).map(What::Record)
}

fn take_expect(words: &mut Words<'_>) -> Result<What, Bad> {
    let mut after = *words;
    match after.next() {
        Some(word) if word.is(b"memory") => {
            *words = after;
            take_memory(words, word).map(What::ExpectMemory)
        }
        _ => check::take_items(words, Whose::Now).map(What::Expect),
    }
}

// After the word memory: an address, and bytes or texts.
fn take_memory(words: &mut Words<'_>, first: Word<'_>) -> Result<MemoryLine, Bad> {
    let address = words.number(Base::Sixteen, 0, 0xffffff, Fault::Address)?;
    let from = words.at();
    let mut bytes = Bytes::of(*words);
    let length = bytes.by_ref().count();
    *words = bytes.words();
    if length == 0 {
        return Err(words.bad(Fault::Bytes));
    }
    words.close(Fault::Bytes)?;
    let to = words.left().from;
    Ok(MemoryLine {
        address,
        length,
        bytes: Span { from, to },
        said: Span { from: first.at, to },
    })
}

fn take_lend(words: &mut Words<'_>) -> Result<What, Bad> {
    let length = words.number(Base::Ten, 0, 65536, Fault::Length)?;
    words.close(Fault::TheRest)?;
    Ok(What::Lend(length))
}

fn take_show(words: &mut Words<'_>) -> Result<What, Bad> {
    match words.take(Chip::of) {
        Some(chip) => {
            words.close(Fault::TheRest)?;
            Ok(What::Show(chip))
        }
        None => {
            words.close(Fault::Chip)?;
            Ok(What::Show(Chip::All))
        }
    }
}

// What the guess was, a colon, and what is said to it.
fn take_guess(words: &mut Words<'_>) -> Result<What, Bad> {
    let expected = check::take_items(words, Whose::Guess)?;
    if !words.take_word(b":") {
        return Err(words.bad(Fault::Colon));
    }
    let answer = words.left();
    if words.next().is_none() {
        return Err(words.bad(Fault::Answer));
    }
    words.take_rest();
    Ok(What::Guess(Guess { expected, answer }))
}

// A name of up to 64 characters: the rest of the line.
fn take_name(words: &mut Words<'_>) -> Result<What, Bad> {
    let from = words.left().from;
    let to = words.last().map_or(from, |w| w.span().to);
    if to <= from || to - from > 64 {
        return Err(Bad::at(from, Fault::Name));
    }
    Ok(What::Chart(Span { from, to }))
}

// A name, or none.
fn take_card(words: &mut Words<'_>) -> Result<What, Bad> {
    let name = words.next().map_or(Span::NONE, |w| w.span());
    words.close(Fault::TheRest)?;
    Ok(What::Card(name))
}
