// A lesson under way, or lines as they are typed: what is to be done next, and what is told of it. The board is elsewhere; its chips are shown to the desk before and after each
// record, and its memory is the desk's.
#![tactic(auto)]

use notation::check::{Check, Expected};
use notation::line;
use notation::line::{Parsed, What};
use notation::record::RecordLine;
use notation::word::Span;
use reader::lines::{End, Lines};
use reader::memory::Memory;
use reader::output::Stop;
use reader::source::Source;
use reader::tally::Tally;
use reader::usage::Mode;
use reader::{comments, expected, filters, output, pieces};
use sentences::bytes::{Answer, Op, Record};
use sentences::text::Text;
use sentences::{Message, text};
use words::chips::{Chips, Manner};
use words::{chips, happened, shown};

// What is due on the board.
#[derive(Clone, Copy, PartialEq, Eq)]
pub enum Due {
    Record([u8; 8]),
    // all begins anew
    Reset,
    Nothing,
}

// The records of the last line: each time that it is run one, or one for each character of its text.
#[derive(Clone, Copy)]
struct Records {
    said: RecordLine,
    // the next one's place in the text, and how often the line is still to be run
    place: usize,
    left: u32,
}

impl Records {
    const NONE: Records = Records {
        said: RecordLine {
            bytes: [0; 8],
            times: 0,
            text: Span::NONE,
            check: Check::Unchecked,
        },
        place: 0,
        left: 0,
    };

    fn next(&self, line: &[u8]) -> Record {
        filters::record_of(line, &self.said, self.place)
    }

    // The next one is the one after that: of the text, or the first one once more.
    fn pass(&mut self, line: &[u8]) {
        self.place = self.place.saturating_add(1);
        if filters::count_records(line, &self.said) <= self.place {
            self.place = 0;
            self.left = self.left.saturating_sub(1);
        }
    }
}

#[derive(Clone, Copy)]
pub struct Desk<'a> {
    // what is done with the lesson, and whether a guess is still asked for somewhere: then rows say no more than the answers
    mode: Mode,
    plain: bool,
    // the text, and the records of its last line; while these are run no other line is read
    lines: Lines<'a>,
    records: Records,
    pulses: u64,
    tally: Tally,
    // what the last line with a record or a check expects, and whether that failed
    expected: Expected,
    wrong: bool,
    // the last row of the line without digits, and the rows like it that were not shown
    last: Text,
    like: u64,
    // it has charts, each with a memory of its own
    charts: bool,
    // a card that is not there was asked for, or the text could not be read
    missed: bool,
    memory: Memory,
}

impl<'a> Desk<'a> {
    pub fn start(mode: Mode, plain: bool, source: &'a Source, path: &'a [u8]) -> Desk<'a> {
        // A lesson was checked: a bad line is there only if the file changed since. What is typed may be bad, and typed anew.
        let lines = match mode {
            Mode::Try => Lines::start(source, path, true, u64::MAX),
            _ => Lines::start(source, path, false, 1),
        };
        Desk {
            mode,
            plain,
            lines,
            records: Records::NONE,
            pulses: 0,
            tally: Tally::default(),
            expected: Expected::NONE,
            wrong: false,
            last: Text::new(),
            like: 0,
            charts: false,
            missed: false,
            memory: Memory::new(),
        }
    }
}

impl Desk<'_> {
    // What is lent to the board.
    pub fn memory(&mut self) -> &mut [u8] {
        let lent = self.lines.place.lent;
        self.memory.lent(lent)
    }

    // What is due: the next record of the line under way, or what the next line asks for; none where the text has ended. What of it is not the board's is done.
    pub fn take(&mut self, chips: Chips) -> Result<Option<Due>, Stop> {
        if 0 < self.records.left {
            let record = self.records.next(self.lines.line());
            return Ok(Some(Due::Record(record.into())));
        }
        match self.lines.take() {
            Ok(parsed) => Ok(Some(self.take_line(chips, &parsed)?)),
            Err(end) => {
                self.missed |= end == End::Failed;
                Ok(None)
            }
        }
    }

    fn take_line(&mut self, chips: Chips, parsed: &Parsed) -> Result<Due, Stop> {
        if let What::Record(said) = parsed.what
            && said.check == Check::Asked
        {
            self.ask(chips, &said)?;
            return Ok(Due::Nothing);
        }
        if 0 < self.tally.questions {
            return Ok(Due::Nothing);
        }
        let line = line::without_return(self.lines.line());
        // in a listing the comments of the lesson are printed
        if self.mode == Mode::Listing {
            output::written(comments::print(line, parsed))?;
        }
        let said = Text::new().say(parsed.quoted().of(line));
        self.take_words(chips, parsed.what, said)
    }

    // A line, with the words of it that are told.
    fn take_words(&mut self, chips: Chips, what: What, said: Text) -> Result<Due, Stop> {
        match what {
            What::Empty | What::Lend(_) => {}
            What::Record(record) => self.begin(record),
            What::Memory(bytes) => self
                .memory
                .put(line::without_return(self.lines.line()), &bytes),
            What::ExpectMemory(bytes) => {
                let line = line::without_return(self.lines.line());
                let found = expected::first_apart(line, &bytes, &self.memory);
                self.tell_check(said, Expected::NONE, found, chips.levels())?;
            }
            What::Expect(expected) => {
                let levels = chips.levels();
                let answer = [0, 0, 0, levels, 0, 0, 0, 0, 0, 0, 0, 0, 0, 0, 0, 0];
                let found = if expected::is_wrong(answer, &expected) {
                    Some(expected::levels_words(levels))
                } else {
                    None
                };
                self.tell_check(said, expected, found, levels)?;
            }
            What::Chart(_) => {
                self.charts = true;
                return self.begin_anew(Text::new().say(b"chart ").and(said));
            }
            What::Again => return self.begin_anew(Message::FromReset.text()),
            What::Show(chip) => output::written(shown::print(chips, chip))?,
            // what is said to a guess, if the check above was just that and failed
            What::Guess(guess) => {
                if self.wrong && self.expected.is_same(&guess.expected) {
                    output::written(text::print_below(said))?;
                }
            }
            What::Card(_) => match comments::print_card(said.as_bytes()) {
                Err(Stop::Text) => self.missed = true,
                printed => printed?,
            },
        }
        Ok(Due::Nothing)
    }

    // The records of a line; the first row is like no other.
    fn begin(&mut self, said: RecordLine) {
        let said = said.meant(self.lines.place.chart);
        self.expected = said.expected();
        self.records = Records {
            said,
            place: 0,
            left: said.times,
        };
        self.last = Text::new();
    }

    // From reset, over zero bytes, none of them marked as written; a text says so.
    fn begin_anew(&mut self, said: Text) -> Result<Due, Stop> {
        output::written(said.print_line())?;
        self.expected = Expected::NONE;
        self.pulses = 0;
        self.memory.clear();
        Ok(Due::Reset)
    }

    // A guess is asked for: its row has a question mark, and nothing more is run. The others after it are named.
    fn ask(&mut self, chips: Chips, said: &RecordLine) -> Result<(), Stop> {
        let number = self.lines.number;
        let is_first = self.tally.questions == 0;
        self.tally.count_question();
        if !is_first {
            let row = Text::new()
                .number(number, 5)
                .pad(41)
                .say(b"? still to be filled in");
            return output::written(row.print_line());
        }
        let record = filters::record_of(self.lines.line(), said, 0);
        output::written(text::print_row(
            text::left(number, self.pulses),
            chips::asked(chips, record, 0, true),
            Text::new().say(b"? put your guess in its place"),
            None,
        ))
    }

    // A line with a check that is no record: its own words, and whether it is so, or what was found in its place.
    fn tell_check(
        &mut self,
        said: Text,
        expected: Expected,
        found: Option<Text>,
        levels: u8,
    ) -> Result<(), Stop> {
        self.expected = expected;
        self.wrong = found.is_some();
        self.tally.count_check(self.wrong);
        let answer = match found {
            Some(found) => Text::new().say(b"not so: ").and(found),
            None => Text::new().say(b"as expected"),
        };
        output::written(text::print_row(
            text::left(self.lines.number, self.pulses),
            Text::new().say(b"expect ").and(said),
            answer,
            Some(levels),
        ))
    }

    // The record that was due is done: what is counted of it, what is marked as written, and its row.
    pub fn tell(&mut self, before: Chips, after: Chips, bytes: [u8; 16]) -> Result<(), Stop> {
        let lent = self.lines.place.lent;
        let answer = Answer::from(bytes);
        if let Some(unit) = chips::unit_of(before.dma, answer, lent) {
            self.memory.mark(unit.address, unit.written, lent);
            self.tally.count_lost(unit.way, unit.lost);
        }
        let record = self.records.next(self.lines.line());
        self.records.pass(self.lines.line());
        let said = self.records.said;
        let expected = said.expected();
        self.wrong = expected::is_wrong(bytes, &expected);
        let is_checked = matches!(said.check, Check::Said(_));
        self.tally
            .count_record(answer.status != 0, is_checked, self.wrong);
        self.pulses = self
            .pulses
            .saturating_add(u64::from(pulses_of(record, answer.status)));
        if self.mode == Mode::Pieces {
            return output::written(pieces::print_pieces(self.lines.number, record, answer));
        }
        self.tell_record(before, after, record, answer)
    }

    // The row of a record, or in a repeat one more that is like the last one. After the last record of a line, the rows that were not shown are counted.
    fn tell_record(
        &mut self,
        before: Chips,
        after: Chips,
        record: Record,
        answer: Answer,
    ) -> Result<(), Stop> {
        let levels = answer.levels;
        let asked = chips::asked(before, record, answer.status, self.plain);
        let told = self.answer_words(before, after, record, answer);
        let shape = shape_of(asked, told, answer);
        if self.records.said.times != 1 && shape == self.last {
            self.like = self.like.saturating_add(1);
        } else {
            self.tell_like()?;
            output::written(text::print_row(
                text::left(self.lines.number, self.pulses),
                asked,
                told,
                Some(levels),
            ))?;
        }
        self.last = shape;
        if self.records.left == 0 {
            self.tell_like()?;
        }
        Ok(())
    }

    // What happened, and where that is not what was expected, what was.
    fn answer_words(&self, before: Chips, after: Chips, record: Record, answer: Answer) -> Text {
        let manner = Manner {
            plain: self.plain,
            other: self.wrong,
            lent: self.lines.place.lent,
            writable: tape::is_writable(record.port),
            readable: tape::is_readable(record.port),
        };
        let happened = happened::words(before, after, record, answer, manner);
        if !self.wrong {
            return happened;
        }
        let expected = self.records.said.expected();
        expected::words(self.lines.line(), &expected)
            .and(happened)
            .and(expected::levels_now(&expected, answer.levels))
    }

    // The rows that were not shown.
    fn tell_like(&mut self) -> Result<(), Stop> {
        let like = self.like;
        self.like = 0;
        output::written(like == 0 || text::print_below(Message::RowsAlike(like).text()))
    }

    // What stands below a lesson: the counts, and the memory. All went well only if every check held, none was left open, and no line was bad.
    pub fn end(&self) -> Result<(), Stop> {
        output::written(self.tally.print() && (self.charts || self.memory.print()))?;
        if self.tally.is_well() && !self.missed && self.lines.bad == 0 {
            Ok(())
        } else {
            Err(Stop::Text)
        }
    }
}

// The pulses of a record: those of an advance that was done.
fn pulses_of(record: Record, status: u8) -> u32 {
    match record.operation() {
        Some(Op::Advance) if status == 0 => record.pulses,
        _ => 0,
    }
}

// What a row is but for its numbers, with its levels and the byte that it read, as letters.
fn shape_of(asked: Text, told: Text, answer: Answer) -> Text {
    let byte = byte_read(answer);
    asked
        .shape()
        .and(told.shape())
        .put(b'a' + answer.levels % 16)
        .put(b'a' + byte / 16)
        .put(b'a' + byte % 16)
}

// What a read gave, or an acknowledge: a vector, or the low byte of a CALL. Rows of others are alike where their bytes are not.
fn byte_read(answer: Answer) -> u8 {
    match answer.operation() {
        Some(Op::Read) => answer.byte,
        Some(Op::Acknowledge) => answer.byte | answer.channel,
        _ => 0,
    }
}
