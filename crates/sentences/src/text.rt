// A short text, built piece by piece, and the columns that it is laid out in.
ghost use Rattle.std.specs.Prelude.{◌≡◌, ◌==◌, ◌≤◌, ◌<◌, ◌-◌, take, length};

use report::{STDERR, STDOUT};
use std::fmt;
use std::fmt::Write;

// What does not fit is left off.
#[derive(Clone, Copy, PartialEq, Eq)]
pub struct Text {
    bytes: [u8; 400],
    len: usize,
    ghost fits: { len ≤ 400 },
}

impl Text {
    pub fn new() -> Text {
        Text {
            bytes: [0; 400],
            len: 0,
        }
    }

    pub fn as_bytes(&self) -> &[u8]
        ensures fits { length result.now ≤ 400 }
        ensures value { result.now ≡ take self.now.len self.now.bytes }
    {
        &self.bytes[..self.len]
    }

    pub fn is_empty(&self) -> bool
        ensures { result ≡ (self.now.len == 0) }
    {
        self.len == 0
    }

    pub fn put(mut self, b: u8) -> Text {
        if self.len < 400 {
            self.bytes[self.len] = b;
            self.len += 1;
        }
        self
    }

    pub fn say(mut self, s: &[u8]) -> Text {
        let from = self.len;
        let n = s.len().min(400 - from);
        self.bytes[from..from + n].copy_from_slice(&s[..n]);
        self.len = from + n;
        self
    }

    // Another text after this one.
    pub fn and(self, other: Text) -> Text {
        self.say(other.as_bytes())
    }

    // A byte as two hexadecimal digits.
    pub fn hex(mut self, x: u8) -> Text {
        let _ = write!(self, "{x:02X}");
        self
    }

    // An address as six.
    pub fn address(mut self, a: u32) -> Text {
        let _ = write!(self, "{:06X}", a % 0x1000000);
        self
    }

    pub fn decimal(mut self, x: u64) -> Text {
        let _ = write!(self, "{x}");
        self
    }

    // A number that ends at a column, if it is not too long for that.
    pub fn number(self, x: u64, column: usize) -> Text {
        let digits = Text::new().decimal(x);
        self.pad(column.saturating_sub(digits.len)).and(digits)
    }

    // Spaces up to a column.
    pub fn pad(self, to: usize) -> Text {
        (self.len..to.min(400)).fold(self, |t, _| t.put(b' '))
    }

    // The numbers of the bits that are set, each with a space before it.
    pub fn bits(self, x: u8) -> Text {
        if x == 0 {
            return self.say(b" none");
        }
        (0..8)
            .filter(|&n| x >> n & 1 == 1)
            .fold(self, |t, n| t.put(b' ').put(b'0' + n))
    }

    // OUT0 to OUT2 and INT, as an answer's byte 3 has them; nothing where a bit past these is set.
    pub fn levels(self, x: u8) -> Text {
        if 15 < x {
            return self;
        }
        self.put(b'0' + x % 2)
            .put(b'0' + x / 2 % 2)
            .put(b'0' + x / 4 % 2)
            .say(b"  ")
            .put(b'0' + x / 8 % 2)
    }

    // The text without its hexadecimal digits: that of rows which differ in numbers alone is the same.
    pub fn shape(self) -> Text {
        self.as_bytes()
            .iter()
            .filter(|c| !matches!(c, b'0'..=b'9' | b'A'..=b'F'))
            .fold(Text::new(), |t, &c| t.put(c))
    }

    // To standard output.
    pub fn print(&self) -> bool {
        io::write_all(STDOUT, self.as_bytes())
    }

    pub fn print_line(self) -> bool {
        self.put(b'\n').print()
    }

    // To standard error.
    pub fn complain(&self) {
        io::write_all(STDERR, self.as_bytes());
    }
}

impl fmt::Write for Text {
    fn write_str(&mut self, s: &str) -> fmt::Result {
        *self = self.say(s.as_bytes());
        Ok(())
    }
}

// What stands at the left of a row: the number of its line, and the pulses so far.
pub fn left(number: u64, pulses: u64) -> Text {
    Text::new().number(number, 5).put(b' ').number(pulses, 12)
}

// What of a text fits a width, up to a space if there is one, and what is left past that space.
fn break_off(text: &[u8], width: usize) -> (&[u8], &[u8])
    requires { 0 < width }
    ensures shorter { length result.1.now ≤ length text.now - 1 }
{
    if text.len() <= width {
        return (text, &[]);
    }
    match text[..width + 1].iter().rposition(|&c| c == b' ') {
        None | Some(0) => text.split_at(width),
        Some(space) => (&text[..space], &text[space + 1..]),
    }
}

// A row: what stands at its left, what was asked, the answer, the levels, if they are below 16. Where a text is too long for its column, the row goes on below.
pub fn print_row(left: Text, asked: Text, answer: Text, levels: Option<u8>) -> bool {
    let (a, asked) = break_off(asked.as_bytes(), 27);
    let (b, answer) = break_off(answer.as_bytes(), 31);
    let row = left
        .put(b' ')
        .pad(13)
        .say(a)
        .put(b' ')
        .pad(41)
        .say(b)
        .put(b' ')
        .pad(73);
    let row = match levels {
        Some(x) if x < 16 => row.levels(x),
        _ => row,
    };
    row.print_line() && print_rest(asked, answer)
}

fn print_rest(mut asked: &[u8], mut answer: &[u8]) -> bool {
    while !asked.is_empty() || !answer.is_empty() {
        let (a, asked_left) = break_off(asked, 27);
        let (b, answer_left) = break_off(answer, 31);
        let row = Text::new().pad(13).say(a);
        // no spaces where there is no answer
        let row = if b.is_empty() {
            row
        } else {
            row.pad(41).say(b)
        };
        if !row.print_line() {
            return false;
        }
        asked = asked_left;
        answer = answer_left;
    }
    true
}

// A text in lines of its own below a row, each up to column 79.
pub fn print_below(t: Text) -> bool {
    let mut text = t.as_bytes();
    while !text.is_empty() {
        let (piece, left) = break_off(text, 73);
        if !Text::new().pad(6).say(piece).print_line() {
            return false;
        }
        text = left;
    }
    true
}
