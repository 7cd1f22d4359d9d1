// What an answer is expected to be: items after an equals sign, or after the words expect and guess.
ghost use Rattle.std.specs.Prelude.{◌+◌, ◌<◌, ◌≤◌, ◌≡◌, ◌↔◌, IsTrue, length};
ghost use Rattle.notation.specs.Answers.{whole_of};

use crate::fault::{Bad, Fault};
use crate::word::{Base, Span, Word, Words};

// What a line says of an answer: its bytes, in the bits that are meant, and where that is said.
#[derive(Clone, Copy, PartialEq, Eq)]
pub struct Expected {
    pub bytes: [u8; 16],
    pub mask: [u8; 16],
    pub said: Span,
}

impl Expected {
    // Every answer is such.
    pub const NONE: Expected = Expected {
        bytes: [0; 16],
        mask: [0; 16],
        said: Span::NONE,
    };

    // Whether an answer is as expected, in the bits that are meant.
    pub fn is_met(&self, answer: [u8; 16]) -> bool {
        answer
            .iter()
            .zip(&self.bytes)
            .zip(&self.mask)
            .all(|((is, meant), mask)| (is ^ meant) & mask == 0)
    }

    // Whether another line expects just this.
    pub fn is_same(&self, other: &Expected) -> bool
        ensures { IsTrue result ↔ (self.now.bytes ≡ other.now.bytes × self.now.mask ≡ other.now.mask) }
    {
        self.bytes == other.bytes && self.mask == other.mask
    }

    // In a chart every byte of an answer is meant, and byte 1 is the record's operation.
    pub fn whole(mut self, operation: u8) -> Expected
        ensures { result ≡ whole_of self operation }
    {
        self.bytes[1] = operation;
        self.mask = [255; 16];
        self
    }

    // Bytes of the answer, from a place on. These bits of each are meant.
    fn say(&mut self, place: usize, bytes: &[u8], bits: u8)
        requires { place + length bytes.now ≤ 16 }
    {
        for (k, byte) in bytes.iter().enumerate() {
            self.bytes[place + k] |= *byte;
            self.mask[place + k] |= bits;
        }
    }
}

// What is expected of the answer to a record: nothing; the learner is asked for it; or it is said.
#[derive(Clone, Copy, PartialEq, Eq)]
pub enum Check {
    Unchecked,
    Asked,
    Said(Expected),
}

// Whose answer items are about: that to a record with this operation; that which stands now, of which only levels may be expected; or one that was guessed, which may be anything.
#[derive(Clone, Copy)]
pub(crate) enum Whose {
    Record(u8),
    Now,
    Guess,
}

impl Whose {
    // What is expected where no item stands.
    fn expected(self) -> Fault {
        match self {
            Whose::Now => Fault::Expected,
            _ => Fault::Item,
        }
    }

    // What is wrong with an item, if anything is.
    fn fault(self, item: Item) -> Option<Fault> {
        match self {
            Whose::Now if !matches!(item, Item::Out | Item::Int) => Some(Fault::Expected),
            Whose::Record(operation) if !item.is_of(operation) => Some(Fault::NotOf),
            _ => None,
        }
    }
}

#[derive(Clone, Copy)]
enum Item {
    Done,
    Refused,
    Byte(u8),
    Out,
    Int,
    Call,
    Rises,
    Nothing,
    Grant,
    Leave,
    Unit,
    End,
    Free,
    Outside,
    Upper,
}

impl Item {
    fn of(word: Word<'_>) -> Option<Item> {
        Some(match word.text {
            b"done" => Item::Done,
            b"refused" => Item::Refused,
            b"out" => Item::Out,
            b"int" => Item::Int,
            b"call" => Item::Call,
            b"rises" => Item::Rises,
            b"nothing" => Item::Nothing,
            b"grant" => Item::Grant,
            b"leave" => Item::Leave,
            b"unit" => Item::Unit,
            b"end" => Item::End,
            b"free" => Item::Free,
            b"outside" => Item::Outside,
            b"upper" => Item::Upper,
            _ => Item::Byte(word.byte()?),
        })
    }

    // Whether the answer to a record with this operation can have it. A byte is of the answer to a read, an acknowledge and a cycle; most items are of a cycle alone.
    fn is_of(self, operation: u8) -> bool {
        match self {
            Item::Done | Item::Refused | Item::Out | Item::Int => true,
            Item::Byte(_) => matches!(operation, 2 | 4 | 6),
            Item::Call => operation == 4,
            Item::Rises => operation == 5,
            _ => operation == 6,
        }
    }

    // The byte of the answer that it is about first, which bits of it, and what they are if no number follows.
    fn part(self) -> (usize, u8, u8)
        ensures { result.0 < 16 }
    {
        match self {
            Item::Done | Item::Refused => (0, 255, 0),
            Item::Byte(byte) => (2, 255, byte),
            Item::Out => (3, 7, 0),
            Item::Int => (3, 8, 0),
            // a CALL starts with CD
            Item::Call => (4, 255, 0xcd),
            Item::Rises | Item::Nothing => (4, 255, 0),
            Item::Grant => (4, 255, 1),
            Item::Unit => (4, 255, 2),
            Item::Leave => (4, 255, 3),
            Item::End => (6, 255, 1),
            Item::Free => (7, 255, 1),
            Item::Outside => (12, 255, 1),
            Item::Upper => (13, 255, 0),
        }
    }
}

// After the equals sign of a record: a question mark alone, or items.
pub(crate) fn take(words: &mut Words<'_>, operation: u8) -> Result<Check, Bad> {
    if words.take_word(b"?") {
        words.close(Fault::Nothing)?;
        return Ok(Check::Asked);
    }
    Ok(Check::Said(take_items(words, Whose::Record(operation))?))
}

// Items up to a comment or the end of the line; a colon ends those of a guess. There is at least one. Where nothing is said of the status, a record is done.
pub(crate) fn take_items(words: &mut Words<'_>, whose: Whose) -> Result<Expected, Bad> {
    let mut expected = Expected::NONE;
    let left = words.left();
    // each has at least a byte
    for _ in left.from..left.to {
        let mut after = *words;
        match after.next() {
            Some(word) if !word.is(b":") => {
                *words = after;
                take_item(words, word, whose, &mut expected)?;
                expected.said = Span {
                    from: left.from,
                    to: words.at(),
                };
            }
            _ => break,
        }
    }
    if expected.said.is_empty() {
        return Err(words.bad(whose.expected()));
    }
    if !matches!(whose, Whose::Guess) {
        words.close(whose.expected())?;
    }
    expected.mask[0] = 255;
    Ok(expected)
}

fn take_item(
    words: &mut Words<'_>,
    word: Word<'_>,
    whose: Whose,
    expected: &mut Expected,
) -> Result<(), Bad> {
    let item = Item::of(word).ok_or(word.bad(whose.expected()))?;
    let (place, bits, value) = item.part();
    if let Some(fault) = whose.fault(item) {
        return Err(word.bad(fault));
    }
    if expected.mask[place] & bits != 0 {
        return Err(word.bad(Fault::Twice));
    }
    expected.say(place, &[value], bits);
    take_value(words, item, expected)
}

// What follows the word of an item.
fn take_value(words: &mut Words<'_>, item: Item, expected: &mut Expected) -> Result<(), Bad> {
    match item {
        Item::Refused => {
            let status = words.small(Base::Sixteen, 1, 6, Fault::Status)?;
            expected.say(0, &[status], 255);
        }
        Item::Out => {
            let outs = words.expect(Fault::Outs, |w| outs(w.text))?;
            expected.say(3, &[outs], 7);
        }
        Item::Int => {
            let level = words.small(Base::Ten, 0, 1, Fault::Int)?;
            expected.say(3, &[level << 3], 8);
        }
        Item::Call => {
            let address = words.expect(Fault::Call, |w| address_of_call(w))?;
            expected.say(5, &address.to_le_bytes(), 255);
        }
        Item::Rises => {
            let first = words.number(Base::Ten, 0, 65535, Fault::Rises)?;
            expected.say(4, &first.to_le_bytes(), 255);
            expected.say(8, &take_rise(words).to_le_bytes(), 255);
            expected.say(12, &take_rise(words).to_le_bytes(), 255);
        }
        Item::Grant | Item::Leave | Item::Unit => {
            let channel = words.small(Base::Ten, 0, 3, Fault::Channel)?;
            expected.say(5, &[channel], 255);
            if let Item::Unit = item {
                let address = words.number(Base::Sixteen, 0, 0xffffff, Fault::Address)?;
                expected.say(8, &address.to_le_bytes(), 255);
            }
        }
        Item::Upper => {
            let upper = words.small(Base::Sixteen, 0, 255, Fault::Upper)?;
            expected.say(13, &[upper], 255);
        }
        _ => {}
    }
    Ok(())
}

// Three digits, the first for OUT0.
fn outs(text: &[u8]) -> Option<u8> {
    Some(match text {
        b"000" => 0,
        b"100" => 1,
        b"010" => 2,
        b"110" => 3,
        b"001" => 4,
        b"101" => 5,
        b"011" => 6,
        b"111" => 7,
        _ => return None,
    })
}

// The address of a CALL, in four digits.
fn address_of_call(word: Word<'_>) -> Option<u16> {
    if word.text.len() != 4 {
        return None;
    }
    u16::try_from(word.number(Base::Sixteen)?).ok()
}

// A number more, if one stands there: one to three come, and those that are left out are 0.
fn take_rise(words: &mut Words<'_>) -> u32 {
    words
        .take(|w| w.number(Base::Ten).filter(|v| *v < 65536))
        .unwrap_or(0)
}
