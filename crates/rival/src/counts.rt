// What the tapes do: how often each status, operation and kind of DMA cycle came, each case of register 0 of the DMA chip, and modes by words, counted by
// the records and the second board's answers.
ghost use Rattle.std.specs.Prelude.{◌≡◌, ◌+◌, ◌-◌, ◌^◌, min};

use crate::stretch::{Answers, Tape};
use std::fmt;

// The counts, in the order in which they are printed; the last two are not printed here.
#[derive(Clone, Copy, Default)]
pub struct Tally {
    pub records: u64,
    // Calls of the first board, of them those refused with 7, and of these those on a board with a field out of its range.
    pub calls: u64,
    pub refused: u64,
    pub spoilt: u64,
    pub statuses: [u64; 7],
    // Operations 0 to 6, and any other.
    pub operations: [u64; 8],
    pub cycles: [u64; 4],
    // Register 0: D0 without D1 and with it, D1 alone, neither, which may be refused.
    pub resets: u64,
    pub wide_resets: u64,
    pub wide: u64,
    pub narrow: u64,
    pub narrow_refused: u64,
    // Modes by words.
    pub by_words: u64,
    pub by_words_refused: u64,
    pub differences: u64,
    // Calls that were not what they should be.
    pub wrong: u64,
}

// n more. A count stays at the greatest number.
pub fn add(count: &mut u64, n: u64)
    ensures { count.new ≡ min (count.old + n) (2 ^ 64 - 1) }
{
    *count = count.saturating_add(n);
}

// One more at a place, if there is such a place.
pub(crate) fn add_at(counts: &mut [u64], place: usize) {
    if let Some(count) = counts.get_mut(place) {
        add(count, 1);
    }
}

// Whether a mode byte is refused for its word bit alone, if it is refused.
fn is_by_words(data: u8) -> bool {
    data % 4 == 1 && data / 4 % 4 != 3 && data / 64 != 3
}

impl Tally {
    fn count_answer(&mut self, answer: &[u8; 16]) {
        let [status, op, _, _, kind, ..] = *answer;
        add(&mut self.records, 1);
        add_at(&mut self.statuses, usize::from(status));
        add_at(&mut self.operations, usize::from(op.min(7)));
        if status == 0 && op == 6 {
            add_at(&mut self.cycles, usize::from(kind));
        }
    }

    // A write that the chip has taken or refused with 4.
    fn count_write(&mut self, refused: bool, port: u8, data: u8) {
        if port == 0x2A && is_by_words(data) {
            if refused {
                add(&mut self.by_words_refused, 1);
            } else {
                add(&mut self.by_words, 1);
            }
        } else if port == 0x20 {
            match data % 4 {
                1 => add(&mut self.resets, 1),
                3 => add(&mut self.wide_resets, 1),
                2 => add(&mut self.wide, 1),
                _ if refused => add(&mut self.narrow_refused, 1),
                _ => add(&mut self.narrow, 1),
            }
        }
    }

    // 64 records with their answers.
    pub fn count_answers(&mut self, tape: &Tape, answers: &Answers) {
        for (record, answer) in tape.iter().zip(answers) {
            self.count_answer(answer);
            let [op, port, data, ..] = *record;
            let status = answer[0];
            if op == 1 && (status == 0 || status == 4) {
                self.count_write(status == 4, port, data);
            }
        }
    }
}

impl fmt::Display for Tally {
    fn fmt<W: fmt::Write>(&self, f: &mut fmt::Formatter<W>) -> fmt::Result {
        writeln!(f, "records: {}", self.records)?;
        writeln!(f, "calls: {}", self.calls)?;
        writeln!(f, "calls refused with 7: {}", self.refused)?;
        writeln!(f, "of them for a field out of range: {}", self.spoilt)?;
        for (status, count) in self.statuses.iter().enumerate() {
            writeln!(f, "status {status}: {count}")?;
        }
        let operations = [
            "operation 0, reset",
            "operation 1, write",
            "operation 2, read",
            "operation 3, lines",
            "operation 4, acknowledge",
            "operation 5, advance",
            "operation 6, DMA cycle",
            "other operations",
        ];
        for (name, count) in operations.iter().zip(&self.operations) {
            writeln!(f, "{name}: {count}")?;
        }
        let cycles = ["nothing", "granted", "moved", "released"];
        for (name, count) in cycles.iter().zip(&self.cycles) {
            writeln!(f, "cycles, {name}: {count}")?;
        }
        writeln!(f, "register 0, D0 set and D1 clear: {}", self.resets)?;
        writeln!(f, "D0 and D1 set: {}", self.wide_resets)?;
        writeln!(f, "D0 clear and D1 set: {}", self.wide)?;
        writeln!(
            f,
            "D0 and D1 clear, taken {}, refused with 4 {}",
            self.narrow, self.narrow_refused,
        )?;
        writeln!(
            f,
            "modes by words: taken {}, refused on a narrow bus {}",
            self.by_words, self.by_words_refused,
        )
    }
}
