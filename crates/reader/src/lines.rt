// The lines of a text, one after another, from a file or standard input, as what they come to. A bad line is told, and passed over.
use crate::output;
use crate::output::Stop;
use crate::source::Source;
use notation::fault::{Bad, Fault};
use notation::line;
use notation::line::Parsed;
use notation::place::Place;
use report::STDERR;
use sentences::Message;

// How many bad lines of a lesson are told: reading stops at the last of them.
pub const TOLD: u64 = 10;

// How many bytes of a line are kept, and how many are counted.
const KEPT: usize = 1000;

const COUNTED: usize = 101000;

// How much is read at once.
const LUMP: usize = 65536;

// Why there are no more lines.
#[derive(Clone, Copy, PartialEq, Eq)]
pub enum End {
    // the text was read to its end
    Text,
    // reading stopped before that, at a bad line
    Stopped,
    // reading failed, which was told
    Failed,
}

// A text under way.
#[derive(Clone, Copy)]
pub struct Lines<'a> {
    source: &'a Source,
    path: &'a [u8],
    // what was read last, and of that what is not taken yet
    lump: [u8; LUMP],
    from: usize,
    to: usize,
    // how many bytes the line under way has, or the last one
    held: usize,
    // at each place the byte that the last line which reaches it has there: first those of this line
    left: [u8; KEPT],
    // its number, from 1
    pub number: u64,
    pub place: Place,
    // bad lines so far, and how many may be told
    pub bad: u64,
    most: u64,
}

impl<'a> Lines<'a> {
    // `typed`: the lines are typed and not a lesson's. `most`: so many bad lines are told.
    pub fn start(source: &'a Source, path: &'a [u8], typed: bool, most: u64) -> Lines<'a> {
        Lines {
            source,
            path,
            lump: [0; LUMP],
            from: 0,
            to: 0,
            held: 0,
            left: [0; KEPT],
            number: 0,
            place: Place::start(typed),
            bad: 0,
            most,
        }
    }
}

impl Lines<'_> {
    // The bytes of the line that was taken last, without its line feed.
    pub fn line(&self) -> &[u8] {
        &self.left[..self.held.min(KEPT)]
    }

    // The next good line, which may be empty.
    pub fn take(&mut self) -> Result<Parsed, End> {
        for _ in 0..u64::MAX {
            self.read_line()?;
            match self.judge() {
                Ok(parsed) => {
                    self.place = self.place.after(&parsed);
                    return Ok(parsed);
                }
                Err(bad) => {
                    self.tell_bad(bad)?;
                    // what was meant below it is not bad by itself
                    self.place = self.place.after_bad();
                }
            }
        }
        Err(End::Stopped)
    }

    // A whole line: what it comes to where it stands. One that is too long was told already, and comes to nothing.
    fn judge(&self) -> Result<Parsed, Bad> {
        if KEPT < self.held {
            return Ok(Parsed::EMPTY);
        }
        match line::parse(self.line()) {
            Ok(parsed) => self.place.judge(parsed),
            Err(bad) => Err(self.named(bad)),
        }
    }

    // A guess that its line ends with has no colon, which is told; but not where an earlier line has a colon just there: then its answer is missing.
    fn named(&self, bad: Bad) -> Bad {
        let end = self.line().len();
        if bad == Bad::at(end, Fault::Colon) && self.left.get(end).copied() == Some(b':') {
            Bad::at(end, Fault::Answer)
        } else {
            bad
        }
    }

    // The line under way is bad.
    fn tell_bad(&mut self, bad: Bad) -> Result<(), End> {
        self.tell_line(bad);
        self.count_bad()
    }

    // By file, line and column.
    fn tell_line(&self, bad: Bad) {
        report::print_name(STDERR, self.path);
        sentences::bad_line(bad.fault, self.number, bad.column as u64, bad.found)
            .put(b'\n')
            .complain();
    }

    // A bad line that was told. At the last that may be, reading stops.
    pub fn count_bad(&mut self) -> Result<(), End> {
        self.bad = self.bad.saturating_add(1);
        if self.bad < self.most {
            Ok(())
        } else {
            Err(End::Stopped)
        }
    }

    // Reads until a line is whole.
    fn read_line(&mut self) -> Result<(), End> {
        self.held = 0;
        self.number = self.number.saturating_add(1);
        for _ in 0..u64::MAX {
            if self.take_rest()? {
                return Ok(());
            }
            self.refill()?;
        }
        Err(End::Stopped)
    }

    // What is left of the lump, up to the end of the line: whether that was there.
    fn take_rest(&mut self) -> Result<bool, End> {
        let to = self.to.min(LUMP);
        let from = self.from.min(to);
        let rest = &self.lump[from..to];
        let end = rest.iter().position(|x| *x == b'\n');
        let taken = end.unwrap_or(rest.len()).min(rest.len());
        let held = self.held.min(KEPT);
        let kept = taken.min(KEPT - held);
        self.from = from + taken + usize::from(end.is_some());
        for i in 0..kept {
            self.left[held + i] = self.lump[from + i];
        }
        self.count(taken)?;
        Ok(end.is_some())
    }

    // So many bytes more of the line under way. The first that is too many is told at once, since the line may never end; much later reading stops.
    fn count(&mut self, more: usize) -> Result<(), End> {
        let was = self.held;
        let now = was.saturating_add(more);
        self.held = now.min(COUNTED);
        if was <= KEPT && KEPT < now {
            self.tell_bad(line::parse_long(self.line()))?;
        }
        if COUNTED < now {
            self.tell_line(Bad::at(COUNTED, Fault::Endless));
            return Err(End::Stopped);
        }
        Ok(())
    }

    // One read.
    fn refill(&mut self) -> Result<(), End> {
        match self.source.read(&mut self.lump) {
            Ok(0) => {
                self.end_last_line();
                Err(End::Text)
            }
            Ok(n) => {
                self.from = 0;
                self.to = n;
                Ok(())
            }
            Err(error) => {
                report::fail_of(self.path, &error);
                Err(End::Failed)
            }
        }
    }

    // A last line without a line feed may be half a line. A byte in it that may not be seen for what it is goes first.
    fn end_last_line(&mut self) {
        if self.held == 0 || KEPT < self.held {
            return;
        }
        let bad = match line::parse(self.line()) {
            Err(bad) if bad.fault.is_about_byte() => bad,
            _ => Bad::at(self.held, Fault::LineFeed),
        };
        let _ = self.tell_bad(bad);
    }
}

// From its start once more; says so where a file cannot be.
pub fn rewind(source: &Source, path: &[u8]) -> Result<(), Stop> {
    if source.rewind() {
        return Ok(());
    }
    output::tell(path, Message::NotTwice);
    Err(Stop::Text)
}
