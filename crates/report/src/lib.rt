// What a program tells beside its output: how it ended, to whoever started it, and names, with nothing in them that a terminal would obey.
#![tactic(auto)]

ghost use Rattle.std.specs.Prelude.{max, ◌≡◌, ◌≤◌};
ghost use Rattle.std.specs.Io.{ReadsAtMost};
ghost use Rattle.std.specs.Ordering.{ord_max};

use arrayvec::ArrayString;
use std::env::FillError;
use std::fmt::Write;
use std::io::{Error, ErrorKind};
use std::rt::Env;
use std_io::io::last_error;

// The descriptors that each program begins with.
pub const STDIN: i32 = 0;

pub const STDOUT: i32 = 1;

pub const STDERR: i32 = 2;

// How a program ended, the better before the worse.
#[derive(Clone, Copy, Debug, PartialEq, Eq, PartialOrd, Ord)]
pub enum Exit {
    Well = 0,
    Failed = 1,
    // It was called the wrong way.
    Usage = 2,
    // Nobody reads the output any more: what a shell says of a program that this ended.
    Closed = 141,
}

// The number that `run` passes on.
impl From<Exit> for u8 {
    fn from(exit: Exit) -> u8 {
        exit as u8
    }
}

// A program writes the number to this descriptor, which `run` holds open and reads, and ends with; where it is not open, nobody hears it.
const TOLD: i32 = 9;

// The last thing that a program does.
pub fn end<S: Into<u8>>(status: S) {
    let number: u8 = status.into();
    io::print_decimal(TOLD, u64::from(number));
    io::write_all(TOLD, b"\n");
}

// Of two ends the one that is told.
pub fn worse<S: Ord + Drop>(a: S, b: S) -> S
    ensures { result ≡ ord_max S.cmp a b }
{
    a.max(b)
}

// What was written could not be: says so, or nothing where nobody reads it, and answers how the program ends.
pub fn fail_output(what: &[u8]) -> Exit {
    let error = last_error();
    if error.kind() == ErrorKind::BrokenPipe {
        return Exit::Closed;
    }
    fail_with(what, &error);
    Exit::Failed
}

// Says of a file what errno says.
pub fn fail(name: &[u8]) {
    fail_of(name, &last_error());
}

// Says of a file why a call on it failed.
pub fn fail_of(name: &[u8], error: &Error) {
    let mut room = [0; ROOM];
    let n = show(name, &mut room);
    fail_with(&room[..n.min(ROOM)], error);
}

// A line on standard error: what failed, as the caller names it, a colon and the error's text.
pub fn fail_with(what: &[u8], error: &Error) {
    let mut said = ArrayString::<320>::new();
    let _ = write!(said, "{error}");
    io::write_all(STDERR, what);
    io::write_all(STDERR, b": ");
    io::write_all(STDERR, without_number(said.as_str()).as_bytes());
    io::write_all(STDERR, b"\n");
}

// An error's text without the errno's number, which ends it, in parentheses after a space.
fn without_number(said: &str) -> &str {
    match said.rsplit_once(" (os error ") {
        Some((text, _)) => text,
        None => said,
    }
}

// How many words the program was started with, its own name among them.
pub fn arg_count<R: Env>(rt: &R) -> usize {
    let mut word = [0u8; 1];
    for n in 0..usize::MAX {
        if let Err(FillError::NotPresent) = rt.arg(n, &mut word) {
            return n;
        }
    }
    usize::MAX
}

// Puts one of them at the start of buf and answers its length, or why it is not there.
pub fn arg<R: Env>(rt: &R, i: usize, buf: &mut [u8]) -> Result<usize, Error>
    ensures { ReadsAtMost result buf.new }
{
    match rt.arg(i, buf) {
        Ok(n) => Ok(n),
        Err(FillError::TooLong) => Err(Error::from_raw_os_error(TOO_LONG)),
        Err(FillError::NotPresent) => Err(Error::from_raw_os_error(INVALID)),
    }
}

// What the system calls a word that is too long, and one that is not there.
const TOO_LONG: i32 = 36;

const INVALID: i32 = 22;

// A file's name.
pub fn print_name(fd: i32, name: &[u8]) -> bool {
    let mut room = [0; ROOM];
    let n = show(name, &mut room);
    io::write_all(fd, &room[..n.min(ROOM)])
}

// A message that begins with a file's name.
pub fn say_of(name: &[u8], text: &[u8]) {
    print_name(STDERR, name);
    io::write_all(STDERR, text);
}

// A path has no more than 4,096 bytes, and a byte is shown by four characters at the most.
const ROOM: usize = 16384;

// Puts a name at the start of the room as it can be shown, and answers its length there. What has no room is left out. (A comment of a lesson is
// shown so too: a vector that is handed back would be filled, and copied, for each.)
fn show(name: &[u8], room: &mut [u8; ROOM]) -> usize {
    let mut n = 0;
    let mut parts = 0;
    for x in name {
        n = show_byte(room, n, parts, *x);
        parts = parts_after(parts, *x);
    }
    n
}

fn show_byte(room: &mut [u8; ROOM], n: usize, parts: u8, x: u8) -> usize {
    if is_plain(parts, x) {
        return put(room, n, x);
    }
    let n = put(room, n, b'\\');
    let n = put(room, n, b'x');
    let n = put(room, n, DIGITS[usize::from(x / 16)]);
    put(room, n, DIGITS[usize::from(x % 16)])
}

fn put(room: &mut [u8; ROOM], n: usize, x: u8) -> usize {
    if n < ROOM {
        room[n] = x;
        n + 1
    } else {
        n
    }
}

const DIGITS: &[u8; 16] = b"0123456789ABCDEF";

// No control character, of ASCII or of the row above it. UTF-8 has these as C2 and a byte of 80 to 9F; such a byte is plain only as a part of a longer letter.
fn is_plain(parts: u8, x: u8) -> bool {
    match x {
        0..=31 | 127 => false,
        128..=159 => 0 < parts,
        _ => true,
    }
}

// How many bytes of a letter are still to come, so far as they can be 80 to 9F.
fn parts_after(parts: u8, x: u8) -> u8 {
    match x {
        0x80..=0xbf => parts.saturating_sub(1),
        0xc3..=0xdf => 1,
        0xe0..=0xef => 2,
        0xf0..=0xff => 3,
        _ => 0,
    }
}

#[cfg(test)]
mod tests {
    use super::*;

    // Of two numbers the greater.
    fn worse_number(a: u8, b: u8) -> u8
        ensures { result ≡ max a b }
    {
        worse(a, b)
    }

    #[test]
    fn ends_are_in_order(rt: HostRuntime) {
        assert_eq!(rt; worse_number(0, 141), 141);
        assert_eq!(rt; worse(Exit::Usage, Exit::Failed), Exit::Usage);
        assert_eq!(rt; u8::from(worse(Exit::Well, Exit::Closed)), 141);
    }
}
