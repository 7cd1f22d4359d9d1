// What needs no board: a lesson that is checked or made into a tape, a tape or answers that are put into words. What reads a text is not folded into
// what calls it: its buffers, some 64 KiB each, are in no frame but its own.
use crate::held::Tape;
use crate::lines::{End, Lines};
use crate::output::Stop;
use crate::source::Source;
use crate::usage::Mode;
use crate::{lines, output, pieces};
use notation::line::What;
use notation::record::RecordLine;
use sentences::Message;
use sentences::bytes::{Answer, Record};

// A record of a line, by its place in the line's text; the text's characters are the device's bytes.
pub fn record_of(line: &[u8], said: &RecordLine, place: usize) -> Record {
    let mut record = Record::from(said.bytes);
    if let Some(byte) = said.text.of(line).get(place) {
        record.byte = *byte;
    }
    record
}

// How many records there are each time that a line is run: one, or one for each character of its text.
pub fn count_records(line: &[u8], said: &RecordLine) -> usize {
    said.text.of(line).len().max(1)
}

// What is to be done with a lesson.
#[derive(Clone, Copy)]
enum Purpose {
    Run,
    Write,
}

// Whether a text was read whole, is good, and has a record; says why not.
fn judge(
    lines: &Lines<'_>,
    path: &[u8],
    end: End,
    has_record: bool,
    purpose: Purpose,
) -> Result<(), Stop> {
    let fault = match (purpose, end, lines.bad) {
        (_, End::Failed, _) => return Err(Stop::Text),
        (_, _, 0) if has_record => return Ok(()),
        (Purpose::Run, _, 0) => Message::NothingToRun,
        (Purpose::Write, _, 0) => Message::NothingToWrite,
        (Purpose::Run, End::Stopped, bad) => Message::BadUnreadNotRun(bad),
        (Purpose::Write, End::Stopped, bad) => Message::BadUnreadNotWritten(bad),
        (Purpose::Run, _, bad) => Message::BadNotRun(bad),
        (Purpose::Write, _, bad) => Message::BadNotWritten(bad),
    };
    output::tell(path, fault);
    Err(Stop::Text)
}

// Whether each line of a lesson is good, and there is a record; answers whether it asks for a guess.
#[inline(never)]
fn check(source: &Source, path: &[u8]) -> Result<bool, Stop> {
    let mut lines = Lines::start(source, path, false, lines::TOLD);
    let mut has_record = false;
    let mut has_question = false;
    for _ in 0..u64::MAX {
        match lines.take() {
            Ok(parsed) => {
                has_record |= parsed.is_record();
                has_question |= parsed.is_asked();
            }
            Err(end) => {
                judge(&lines, path, end, has_record, Purpose::Run)?;
                return Ok(has_question);
            }
        }
    }
    Err(Stop::Text)
}

// A lesson is read twice: here to see that each line is good, and then to run it. Its title is printed if it is. Lines that are typed have no title. Answers whether it
// asks for a guess.
pub fn prepare(mode: Mode, source: &Source, path: &[u8]) -> Result<bool, Stop> {
    if mode == Mode::Try {
        output::written(sentences::print_heads())?;
        return Ok(false);
    }
    lines::rewind(source, path)?;
    let has_question = check(source, path)?;
    lines::rewind(source, path)?;
    output::written(output::print_title(path))?;
    Ok(has_question)
}

// A lesson as a tape. Only that of a good one goes out.
#[inline(never)]
pub fn assemble(rt: &HostRuntime, source: &Source, path: &[u8]) -> Result<(), Stop> {
    let mut lines = Lines::start(source, path, false, lines::TOLD);
    let mut tape = Tape::new();
    for _ in 0..u64::MAX {
        match lines.take() {
            // after a bad line there will be no tape
            Ok(parsed) => {
                if let What::Record(said) = parsed.what
                    && lines.bad == 0
                {
                    hold_line(rt, &mut tape, lines.line(), &said)?;
                }
            }
            Err(end) => {
                judge(&lines, path, end, !tape.is_empty(), Purpose::Write)?;
                return tape.write();
            }
        }
    }
    Err(Stop::Text)
}

// The records of a line, as often as it says.
fn hold_line(
    rt: &HostRuntime,
    tape: &mut Tape,
    line: &[u8],
    said: &RecordLine,
) -> Result<(), Stop> {
    for _ in 0..said.times {
        for place in 0..count_records(line, said) {
            tape.push(rt, record_of(line, said, place).into())?;
        }
    }
    Ok(())
}

// One of the pieces of N bytes that a tape is made of, or what was answered to it.
trait Piece<const N: usize>: From<[u8; N]> {
    // They are counted from 1.
    fn print(self, number: u64) -> bool;
}

impl Piece<8> for Record {
    fn print(self, _number: u64) -> bool {
        pieces::line_of(self).print_line()
    }
}

impl Piece<16> for Answer {
    fn print(self, number: u64) -> bool {
        pieces::print_answer(number, self)
    }
}

// A tape, a record on each line.
#[inline(never)]
pub fn list(source: &Source, path: &[u8]) -> Result<(), Stop> {
    tell::<8, Record>(source, path)
}

// Answers, a row for each.
#[inline(never)]
pub fn explain(source: &Source, path: &[u8]) -> Result<(), Stop> {
    output::written(sentences::print_answer_heads())?;
    tell::<16, Answer>(source, path)
}

// A tape or answers, put into words.
fn tell<const N: usize, P: Piece<N>>(source: &Source, path: &[u8]) -> Result<(), Stop> {
    let mut lump = io::large_buffer();
    // the piece under way, and how many bytes of it there are
    let mut piece = [0; N];
    let mut held: usize = 0;
    let mut count: u64 = 0;
    for _ in 0..u64::MAX {
        let n = match source.read(&mut lump) {
            Ok(0) => return end_pieces(path, held, count),
            Ok(n) => n,
            Err(error) => {
                report::fail_of(path, &error);
                return Err(Stop::Text);
            }
        };
        for x in &lump[..n] {
            if held < N {
                piece[held] = *x;
            }
            held = held.saturating_add(1);
            if N <= held {
                held = 0;
                count = count.saturating_add(1);
                output::written(P::from(piece).print(count))?;
            }
        }
    }
    Err(Stop::Text)
}

// Says what is wrong with what was read to its end: bytes are left over, or there were none.
fn end_pieces(path: &[u8], left: usize, count: u64) -> Result<(), Stop> {
    let fault = match (left, count) {
        (0, 0) => Message::Empty,
        (0, _) => return Ok(()),
        _ => Message::HalfRecord(left as u64),
    };
    output::tell(path, fault);
    Err(Stop::Text)
}
