// The words of a line: where they stand, and what they are.
ghost use Rattle.std.specs.Iterator.{at_most};
ghost use Rattle.std.specs.Prelude.{◌+◌, ◌-◌, ◌<◌, ◌≤◌, ◌^◌, ◌≡◌, IfSome, drop, length, nat_le, take};
ghost use Rattle.notation.specs.Lines.{bytes_of};

use crate::fault;
use crate::fault::{Bad, Fault};

// Some bytes of a line: where they start, and where they end.
#[derive(Clone, Copy, PartialEq, Eq)]
pub struct Span {
    pub from: usize,
    pub to: usize,
}

impl Span {
    pub const NONE: Span = Span { from: 0, to: 0 };

    pub fn is_empty(self) -> bool
        ensures { result ≡ nat_le self.to self.from }
    {
        self.to <= self.from
    }

    // The bytes themselves; none where the line has not so many.
    pub fn of(self, line: &[u8]) -> &[u8]
        ensures part { self.from ≤ self.to → self.to ≤ length line.now → result.now ≡ take (self.to - self.from) (drop self.from line.now) }
        ensures value { result.now ≡ bytes_of self line.now }
    {
        line.get(self.from..self.to).unwrap_or(&[])
    }
}

fn is_plain(byte: &u8) -> bool {
    (32..=126).contains(byte)
}

// What the digits of a number count by.
#[derive(Clone, Copy)]
pub(crate) enum Base {
    Ten,
    Sixteen,
}

impl Base {
    fn radix(self) -> u32
        ensures { (2 ≤ result) × (result ≤ 36) }
    {
        match self {
            Base::Ten => 10,
            Base::Sixteen => 16,
        }
    }
}

// A word of a line; an equals sign or a colon is one by itself.
#[derive(Clone, Copy)]
pub struct Word<'a> {
    pub at: usize,
    pub text: &'a [u8],
    ghost in_line: { at + length text.now < 2 ^ 64 },
}

impl<'a> Word<'a> {
    pub(crate) fn span(self) -> Span {
        Span {
            from: self.at,
            to: self.at + self.text.len(),
        }
    }

    pub(crate) fn is(self, text: &[u8]) -> bool {
        self.text == text
    }

    // A number of 32 bits in digits.
    pub(crate) fn number(self, base: Base) -> Option<u32> {
        let base = base.radix();
        self.text.iter().try_fold(0u32, |v, b| {
            v.checked_mul(base)?
                .checked_add(char::from(*b).to_digit(base)?)
        })
    }

    // A byte in one or two hexadecimal digits.
    pub(crate) fn byte(self) -> Option<u8> {
        if self.text.len() > 2 {
            return None;
        }
        u8::try_from(self.number(Base::Sixteen)?).ok()
    }

    // What stands between double quotes, if that is something, and all of it plain characters.
    pub(crate) fn letters(self) -> Option<&'a [u8]>
        ensures { IfSome result (λ s. length s.now + 2 ≡ length self.entry.text.now) }
    {
        match self.text {
            [b'"', letters @ .., b'"'] if !letters.is_empty() && letters.iter().all(is_plain) => {
                Some(letters)
            }
            _ => None,
        }
    }

    // Where its letters stand.
    pub(crate) fn letters_span(self) -> Option<Span> {
        let letters = self.letters()?;
        let from = self.at + 1;
        Some(Span {
            from,
            to: from + letters.len(),
        })
    }

    // Why it is not understood: a byte in it that may not be seen for what it is, or else what was expected in its place.
    pub(crate) fn bad(self, expected: Fault) -> Bad {
        if let Some(k) = self.text.iter().position(|b| !is_plain(b)) {
            return fault::strange(self.at + k, &self.text[k..]);
        }
        if self.text.starts_with(b"\"") && self.letters().is_none() {
            return Bad::at(self.at, Fault::BadText);
        }
        Bad::at(self.at, expected)
    }
}

// The bytes before the first that is such, and those from there on.
fn split<F: FnMut(&u8) -> bool>(bytes: &[u8], is_such: F) -> (&[u8], &[u8])
    requires { F.IsAlwaysCallable is_such }
    ensures { length result.0.now + length result.1.now ≡ length bytes.now }
{
    let at = bytes.iter().position(is_such).unwrap_or(bytes.len());
    bytes.split_at(at)
}

fn is_blank(byte: u8) -> bool {
    matches!(byte, b' ' | b'\t')
}

// The word that bytes begin with, and those after it. A comment is no word, and ends one.
fn split_word(bytes: &[u8]) -> (&[u8], &[u8])
    ensures { length result.0.now + length result.1.now ≡ length bytes.now }
{
    match bytes {
        [b'=' | b':', ..] => bytes.split_at(1),
        // a text, from its first quote to its second, or to the end where it has only one
        [b'"', letters @ ..] => match letters.iter().position(|b| *b == b'"') {
            Some(k) => bytes.split_at(k + 2),
            None => (bytes, &[]),
        },
        _ => split(bytes, |b| is_blank(*b) || matches!(b, b'#' | b'=' | b':')),
    }
}

// A line, and what is not read of it yet.
#[derive(Clone, Copy)]
pub(crate) struct Words<'a> {
    line: &'a [u8],
    rest: &'a [u8],
    ghost in_line: { length rest.now ≤ length line.now },
}

impl<'a> Words<'a> {
    pub(crate) fn of(line: &'a [u8]) -> Words<'a> {
        Words { line, rest: line }
    }

    // How far it is read.
    pub(crate) fn at(&self) -> usize
        ensures { result + length self.now.rest.now ≡ length self.now.line.now }
    {
        self.line.len() - self.rest.len()
    }

    // What is left of it, from the next word on, or where that would be.
    pub(crate) fn left(&self) -> Span {
        let (blanks, _) = split(self.rest, |b| !is_blank(*b));
        Span {
            from: self.at() + blanks.len(),
            to: self.line.len(),
        }
    }

    // Passes what is left of it.
    pub(crate) fn take_rest(&mut self) {
        self.rest = &[];
    }

    // What the next word is read as. It is passed, unless it is read as nothing.
    pub(crate) fn take<T: Drop, F: FnOnce(Word<'a>) -> Option<T>>(&mut self, read: F) -> Option<T>
        requires { F.IsAlwaysCallable read }
    {
        let mut after = *self;
        let value = read(after.next()?)?;
        *self = after;
        Some(value)
    }

    // The same, or why it is bad.
    pub(crate) fn expect<T: Drop, F: FnOnce(Word<'a>) -> Option<T>>(
        &mut self,
        expected: Fault,
        read: F,
    ) -> Result<T, Bad>
        requires { F.IsAlwaysCallable read }
    {
        let bad = self.bad(expected);
        self.take(read).ok_or(bad)
    }

    // Passes the next word if it is this one.
    pub(crate) fn take_word(&mut self, text: &[u8]) -> bool {
        self.take(|w| w.is(text).then_some(())).is_some()
    }

    pub(crate) fn byte(&mut self, expected: Fault) -> Result<u8, Bad> {
        self.expect(expected, |w| w.byte())
    }

    // A number in a base, at least `least` and at most `most`.
    pub(crate) fn number(
        &mut self,
        base: Base,
        least: u32,
        most: u32,
        expected: Fault,
    ) -> Result<u32, Bad> {
        self.expect(expected, |w| {
            w.number(base).filter(|v| (least..=most).contains(v))
        })
    }

    // The same of a number that is a byte.
    pub(crate) fn small(
        &mut self,
        base: Base,
        least: u8,
        most: u8,
        expected: Fault,
    ) -> Result<u8, Bad> {
        self.expect(expected, |w| {
            u8::try_from(w.number(base)?)
                .ok()
                .filter(|v| (least..=most).contains(v))
        })
    }

    // What is bad where the next word is not understood, or there is none.
    pub(crate) fn bad(mut self, expected: Fault) -> Bad {
        match self.next() {
            Some(word) => word.bad(expected),
            None => Bad::at(self.at(), expected),
        }
    }

    // Nothing else may stand on the line.
    pub(crate) fn close(mut self, expected: Fault) -> Result<(), Bad> {
        match self.next() {
            Some(word) => Err(word.bad(expected)),
            None => Ok(()),
        }
    }
}

impl<'a> Iterator for Words<'a> {
    type Item = Word<'a>;

    // each word has a byte, and is passed
    ghost next_gives = { λ s r t. IfSome r (λ w. (0 < length w.text.now) × (length w.text.now + length t.rest.now ≤ length s.rest.now)) };

    ghost remaining = { λ s. at_most (length s.rest.now) };

    // The next word. Where there is none, the line has ended, or only a comment is left.
    fn next(&mut self) -> Option<Word<'a>> {
        (_, self.rest) = split(self.rest, |b| !is_blank(*b));
        let at = self.at();
        let (text, rest) = split_word(self.rest);
        if text.is_empty() {
            return None;
        }
        self.rest = rest;
        Some(Word { at, text })
    }
}

// The bytes of a memory line, one after another: those in digits, and the characters of texts.
#[derive(Clone, Copy)]
pub struct Bytes<'a> {
    words: Words<'a>,
    // what is left of a text
    letters: &'a [u8],
}

impl<'a> Bytes<'a> {
    pub(crate) fn of(words: Words<'a>) -> Bytes<'a> {
        Bytes {
            words,
            letters: &[],
        }
    }

    // What is not read yet.
    pub(crate) fn words(self) -> Words<'a> {
        self.words
    }
}

impl<'a> Iterator for Bytes<'a> {
    type Item = u8;

    ghost remaining = { λ s. at_most (length s.letters.now + length s.words.rest.now) };

    fn next(&mut self) -> Option<u8> {
        if self.letters.is_empty() {
            let mut after = self.words;
            let word = after.next()?;
            if let Some(byte) = word.byte() {
                self.words = after;
                return Some(byte);
            }
            self.letters = word.letters()?;
            self.words = after;
        }
        let (first, rest) = self.letters.split_first()?;
        self.letters = rest;
        Some(*first)
    }
}
