// Runs the charts of files: tapes with their answers, in the notation of lessons. Each chart runs on both boards, from reset, over zero bytes of memory: on
// the second record by record, on the first in lumps. Files are read line by line, so they may have any length.
use super::first::Run;
use arrayvec::ArrayVec;
use notation::check::Check;
use notation::line::What;
use notation::record::RecordLine;
use reader::lines;
use reader::lines::{End, Lines};
use reader::source::Source;
use report::{Exit, STDERR, STDOUT};
use rival::counts::{Tally, add};
use rival::show::Output;
use rival::stretch::{Answers, Memory, Ran, Seen};
use rival::{show, stretch};
use std::fmt;
use std::fmt::Write;

// Of all files: charts, those that agreed in every record, their records, bad lines, and files that could not be read or have no chart.
#[derive(Clone, Copy)]
pub struct Totals {
    charts: u64,
    agreed: u64,
    records: u64,
    bad: u64,
    unread: u64,
    // every line was written so far
    written: bool,
}

// A chart under way: its name, the length of its memory, its records with the answers typed in, and whether no line of it is bad so far.
#[derive(Drop)]
struct Chart {
    well: bool,
    name: ArrayVec<u8, 64>,
    memory: usize,
    records: ArrayVec<[u8; 8], 64>,
    typed: Answers,
}

// What became of a chart.
#[derive(Clone, Copy, PartialEq, Eq)]
enum Outcome {
    Agreed,
    Apart,
    // a line of it does not read
    Bad,
    Empty,
}

// What a chart cannot have here, though a lesson can.
#[derive(Clone, Copy, PartialEq, Eq)]
enum Fault {
    // no chart is open
    Homeless,
    Full,
    Asked,
    Repeated,
    Letters,
    Expected,
    Filled,
    Shown,
    Guessed,
}

impl fmt::Display for Fault {
    fn fmt<W: fmt::Write>(&self, f: &mut fmt::Formatter<W>) -> fmt::Result {
        f.write_str(match self {
            Fault::Homeless =>
                "a record or 'lend' before the first chart; a line 'chart NAME' opens one",
            Fault::Full => "in the duel a chart has at most 64 records",
            Fault::Asked => "in the duel nobody is asked for a guess; write the answer after the =",
            Fault::Repeated => "in the duel no record is repeated; write it as often as it comes",
            Fault::Letters => "in the duel a cycle has no text; write a cycle for each byte",
            Fault::Expected =>
                "in the duel a chart has no 'expect'; write the answer of each record after its =",
            Fault::Filled => "in the duel a chart has no 'memory'; all its bytes are 00 at first",
            Fault::Shown => "in the duel a chart has no 'show'; delete the line",
            Fault::Guessed => "in the duel a chart has no 'guess'; delete the line",
        })
    }
}

// A board's answers against those typed in.
fn agrees(board: &str, typed: &Answers, got: &Answers) -> bool {
    let Some((i, (typed, got))) = stretch::first_apart(typed, got) else {
        return true;
    };
    let record = i.saturating_add(1);
    let _ = writeln!(Output(STDOUT), "{board} board differs at record {record}");
    let _ = show::print_answer(b"  typed in", typed);
    let _ = show::print_answer(b"  found   ", got);
    false
}

// The memories of the two boards, which a chart's answers show only in part, and the calls of the first.
fn agree_otherwise(first: &Memory, second: &Memory, calls: Tally) -> bool {
    let apart = if first != second {
        "the memories of the two boards differ"
    } else if calls.wrong > 0 {
        "a call of the first board was not taken whole or refused whole"
    } else {
        return true;
    };
    let _ = writeln!(Output(STDOUT), "{apart}");
    false
}

impl Chart {
    fn new(name: &[u8]) -> Chart {
        let mut kept = ArrayVec::new();
        for byte in name {
            let _ = kept.try_push(*byte);
        }
        Chart {
            well: true,
            name: kept,
            memory: 256,
            records: ArrayVec::new(),
            typed: stretch::UNWRITTEN,
        }
    }

    // A record joins it.
    fn join(&mut self, record: RecordLine) -> Result<(), Fault> {
        if record.check == Check::Asked {
            return Err(Fault::Asked);
        }
        if record.times != 1 {
            return Err(Fault::Repeated);
        }
        if !record.text.is_empty() {
            return Err(Fault::Letters);
        }
        let n = self.records.len();
        if self.records.try_push(record.bytes).is_err() {
            return Err(Fault::Full);
        }
        let answer = record.meant(true).expected().bytes;
        self.typed[n % 68] = answer;
        Ok(())
    }

    // Both boards over the chart's memory. Its number draws the lumps.
    fn both_agree(&self, number: u32) -> bool {
        let mut first_memory = Memory {
            bytes: [0; 4096],
            length: self.memory,
        };
        let mut second_memory = first_memory;
        let mut got_first = stretch::UNWRITTEN;
        let mut got_second = stretch::UNWRITTEN;
        let records = self.records.as_slice();
        let mut ran = Ran::from_reset(Seen::default());
        ran.run(records, &mut second_memory, &mut got_second);
        let mut run = Run::from_reset(number, Tally::default());
        run.run(records, &mut first_memory, &mut got_first);
        agrees("the second", &self.typed, &got_second)
            & agrees("the first", &self.typed, &got_first)
            & agree_otherwise(&first_memory, &second_memory, run.tally)
    }

    fn run(&self, number: u64) -> Outcome {
        if !self.well {
            Outcome::Bad
        } else if self.records.is_empty() {
            Outcome::Empty
        } else if self.both_agree((number % 65536) as u32 + 1) {
            Outcome::Agreed
        } else {
            Outcome::Apart
        }
    }
}

impl Totals {
    fn new() -> Totals {
        Totals {
            charts: 0,
            agreed: 0,
            records: 0,
            bad: 0,
            unread: 0,
            written: true,
        }
    }

    // A chart is over: it is run.
    fn close(&mut self, chart: &Chart) {
        let mut out = Output(STDOUT);
        let headed = write!(out, "chart {} ", self.charts).is_ok()
            & report::print_name(STDOUT, chart.name.as_slice())
            & write!(out, ": ").is_ok();
        let outcome = chart.run(self.charts);
        let told = match outcome {
            Outcome::Agreed => writeln!(out, "ok, {} records", chart.records.len()),
            Outcome::Bad => writeln!(out, "not run, a line of it does not read"),
            Outcome::Empty => writeln!(out, "not run, it has no record"),
            // That was told, and the program fails anyway.
            Outcome::Apart => Ok(()),
        };
        self.written &= headed & told.is_ok();
        if outcome == Outcome::Agreed {
            add(&mut self.agreed, 1);
        }
    }

    // The files that the arguments name.
    pub(crate) fn of_arguments(rt: &HostRuntime, words: usize) -> Totals {
        let mut totals = Totals::new();
        for i in 1..words {
            totals.take_argument(rt, i);
        }
        totals
    }

    fn take_argument(&mut self, rt: &HostRuntime, i: usize) {
        let mut word = io::buffer();
        match report::arg(rt, i, &mut word) {
            Ok(n) => self.take_file(rt, &word[..n]),
            Err(e) => {
                report::fail_with(b"duel: an argument", &e);
                add(&mut self.unread, 1);
            }
        }
    }

    fn take_file(&mut self, rt: &HostRuntime, path: &[u8]) {
        let source = match Source::open(rt, path) {
            Ok(source) => source,
            Err(e) => {
                report::fail_of(path, &e);
                add(&mut self.unread, 1);
                return;
            }
        };
        let before = *self;
        let reader = Reader {
            path,
            totals: before,
            chart: None,
        };
        *self = reader.take_all(&source);
        // A file with no chart, and nothing wrong, is told and counted.
        if before.charts == self.charts && before.bad == self.bad && before.unread == self.unread {
            report::say_of(path, b": there is no chart in it\n");
            add(&mut self.unread, 1);
        }
    }

    // All but the last line: whether it was written.
    pub(crate) fn print(&self) -> fmt::Result {
        writeln!(
            Output(STDOUT),
            "{} charts, {} ok on both boards, {} records",
            self.charts,
            self.agreed,
            self.records
        )
    }

    // The last line: all that can go wrong, counted; answers how the program ends. `written` says whether all lines between were written.
    pub(crate) fn print_last(&self, differences: u64, written: bool) -> Exit {
        let failed = self.charts.saturating_sub(self.agreed);
        let last = writeln!(
            Output(STDOUT),
            "files not read: {}, bad lines: {}, charts failed: {failed}, differences: {differences}",
            self.unread,
            self.bad
        );
        if last.is_err() {
            return report::fail_output(b"duel: standard output");
        }
        if !(self.written && written) {
            io::write_all(
                STDERR,
                b"duel: standard output: some lines were not written\n",
            );
            return Exit::Failed;
        }
        if self.unread == 0 && self.bad == 0 && failed == 0 && differences == 0 {
            return Exit::Well;
        }
        Exit::Failed
    }
}

// A file under way.
#[derive(Drop)]
struct Reader<'a> {
    path: &'a [u8],
    totals: Totals,
    chart: Option<Chart>,
}

impl Reader<'_> {
    // The open chart, if there is one, is over.
    fn close(&mut self) {
        if let Some(chart) = &self.chart {
            self.totals.close(chart);
        }
    }

    // The open chart is not run.
    fn spoil(&mut self) {
        if let Some(chart) = &mut self.chart {
            chart.well = false;
        }
    }

    // A line that is good in a lesson. (Those of `lesson try` alone are bad there too.)
    fn obey(&mut self, line: &[u8], what: What) -> Result<(), Fault> {
        match what {
            What::Chart(name) => {
                self.close();
                add(&mut self.totals.charts, 1);
                self.chart = Some(Chart::new(name.of(line)));
            }
            What::Record(record) => {
                let Some(chart) = &mut self.chart else {
                    return Err(Fault::Homeless);
                };
                chart.join(record)?;
                add(&mut self.totals.records, 1);
            }
            What::Lend(length) => {
                let Some(chart) = &mut self.chart else {
                    return Err(Fault::Homeless);
                };
                chart.memory = length as usize;
            }
            What::Expect(_) | What::ExpectMemory(_) => return Err(Fault::Expected),
            What::Memory(_) => return Err(Fault::Filled),
            What::Show(_) => return Err(Fault::Shown),
            What::Guess(_) => return Err(Fault::Guessed),
            What::Empty | What::Card(_) | What::Again => {}
        }
        Ok(())
    }

    // The next line.
    fn take(&mut self, lines: &mut Lines) -> Result<(), End> {
        let bad = lines.bad;
        let taken = lines.take();
        // Bad lines that were passed over on the way to the next good one are the open chart's.
        if lines.bad != bad {
            self.spoil();
        }
        let parsed = taken?;
        let Err(fault) = self.obey(lines.line(), parsed.what) else {
            return Ok(());
        };
        // It is told and counted, and its chart is not run. The whole line is meant: column 1.
        report::print_name(STDERR, self.path);
        let _ = writeln!(Output(STDERR), ":{}:1: {fault}", lines.number);
        self.spoil();
        lines.count_bad()
    }

    fn take_all(mut self, source: &Source) -> Totals {
        let mut lines = Lines::start(source, self.path, false, lines::TOLD);
        for _ in 0..u64::MAX {
            if let Err(end) = self.take(&mut lines) {
                return self.end(end, lines.bad);
            }
        }
        // No file has so many lines.
        self.end(End::Failed, lines.bad)
    }

    // The end of a file, or of what is read of it: the open chart is over, and not run where there may be more of it.
    fn end(mut self, end: End, bad: u64) -> Totals {
        if end == End::Stopped && bad >= lines::TOLD {
            report::say_of(
                self.path,
                b": bad lines: 10, and there may be more, since the rest was not read\n",
            );
        }
        add(&mut self.totals.bad, bad);
        if end == End::Failed {
            add(&mut self.totals.unread, 1);
        }
        if end != End::Text {
            self.spoil();
        }
        self.close();
        self.totals
    }
}
