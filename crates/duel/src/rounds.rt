// The duel: both boards on the same tapes, in rounds. A round lends both a memory of its own length, with the same pattern in it, starts both from
// reset, and runs 64 stretches of 64 records. After each stretch the answers and the memories are held against each other.
use super::first::Run;
use report::STDOUT;
use rival::counts::{Tally, add};
use rival::show::Output;
use rival::stretch::{Answers, Memory, Ran, Seen, Tape};
use rival::tapes::Maker;
use rival::{show, stretch};
use std::fmt;
use std::fmt::Write;

// The lengths of memory, by round.
const LENGTHS: [u16; 16] = [
    4096, 0, 256, 1, 4096, 3, 4095, 17, 1000, 2, 5, 100, 257, 2048, 9, 255,
];

// A round under way: its number, how many records it has passed, and both boards with their memories.
#[derive(Drop)]
struct Round {
    number: u32,
    passed: u64,
    maker: Maker,
    first: Run,
    second: Ran,
    first_memory: Memory,
    second_memory: Memory,
}

// The counts of the duel.
#[derive(Clone, Copy, Default)]
pub struct Counted {
    pub tally: Tally,
    pub seen: Seen,
}

// The memory of a round, with its pattern.
fn memory_of(number: u32, length: u16) -> Memory {
    let mut bytes = [0; 4096];
    for i in 0..4096 {
        bytes[i] = ((i * 7 + i / 256 * 3 + number as usize % 256) % 256) as u8;
    }
    Memory {
        bytes,
        length: usize::from(length),
    }
}

impl Round {
    fn start(number: u32, counted: Counted) -> Round {
        let length = LENGTHS[number as usize % 16];
        let memory = memory_of(number, length);
        let seed = number.saturating_add(1);
        Round {
            number,
            passed: 0,
            maker: Maker::new(seed, u32::from(length)),
            first: Run::from_reset(seed, counted.tally),
            second: Ran::from_reset(counted.seen),
            first_memory: memory,
            second_memory: memory,
        }
    }

    // The first difference of all is told, by the place of its record in the stretch.
    fn tell(&self, place: usize) {
        let _ = writeln!(
            Output(STDOUT),
            "first difference: round {}, record {}",
            self.number,
            self.passed.saturating_add(place as u64).saturating_add(1)
        );
    }

    // The answers are counted, and compared.
    fn compare_answers(&mut self, tape: &Tape, want: &Answers, got: &Answers) {
        self.first.tally.count_answers(tape, want);
        if let Some((i, (want, got))) = stretch::first_apart(want, got) {
            if self.first.tally.differences == 0 {
                self.tell(i);
                let _ = show::print_answer(b"  first board ", got);
                let _ = show::print_answer(b"  second board", want);
            }
        }
        add(
            &mut self.first.tally.differences,
            stretch::count_apart(want, got),
        );
    }

    // Calls that were not taken whole or refused whole.
    fn compare_calls(&mut self) {
        if self.first.tally.wrong == 0 {
            return;
        }
        if self.first.tally.differences == 0 {
            self.tell(63);
            let _ = writeln!(
                Output(STDOUT),
                "  a call before it was not taken whole or refused whole"
            );
        }
        self.first.tally.wrong = 0;
        add(&mut self.first.tally.differences, 1);
    }

    fn compare_memory(&mut self) {
        let got = &self.first_memory.bytes;
        let want = &self.second_memory.bytes;
        let Some((i, (got, want))) = stretch::first_apart(got, want) else {
            return;
        };
        if self.first.tally.differences == 0 {
            self.tell(63);
            let _ = writeln!(
                Output(STDOUT),
                "  memory after it, place {i}: first board {got:02x}, second board {want:02x}"
            );
        }
        add(&mut self.first.tally.differences, 1);
    }

    fn run_stretch(&mut self) {
        let mut tape = [[0; 8]; 64];
        for record in &mut tape {
            *record = self.maker.next_record();
        }
        let mut want = stretch::UNWRITTEN;
        let mut got = stretch::UNWRITTEN;
        self.second.run(&tape, &mut self.second_memory, &mut want);
        self.first.run(&tape, &mut self.first_memory, &mut got);
        self.compare_answers(&tape, &want, &got);
        self.compare_calls();
        self.compare_memory();
        self.passed = self.passed.saturating_add(64);
    }
}

impl Counted {
    fn run_round(&mut self, number: u32) {
        let mut round = Round::start(number, *self);
        for _ in 0..64 {
            round.run_stretch();
        }
        self.tally = round.first.tally;
        self.seen = round.second.seen;
    }

    // n rounds.
    pub(crate) fn duel(n: u32) -> Counted {
        let mut counted = Counted::default();
        for number in 0..n {
            counted.run_round(number);
        }
        counted
    }

    // Whether the counts of n rounds were written. What one part was not written of does not keep back the next.
    pub(crate) fn print(&self, n: u32) -> fmt::Result {
        let mut out = Output(STDOUT);
        let seen = &self.seen;
        writeln!(out, "rounds: {n}")
            .and(write!(out, "{}", self.tally))
            .and(write!(out, "{}", seen.places))
            .and(write!(out, "{}", seen.requests))
            .and(write!(out, "{}", seen.slave))
            .and(write!(out, "{}", seen.modes))
    }
}
