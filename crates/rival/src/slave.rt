// What becomes of the slave on line 7: acknowledges by what the two interrupt chips are set up as and by who answers, IW3, and how the slave moves line
// 7. Counted by the second board before and after each record, and by its answer. docs/DUEL.md has the words.
use crate::counts::{add, add_at};
use crate::stretch::Step;
use second::Joined;
use std::fmt;

#[derive(Clone, Copy, Default)]
pub struct Slave {
    // Acknowledges, by what the master counts as and, within it, the slave: not ready, single, extended in CALL mode, in vector mode.
    setups: [[u64; 4]; 4],
    // Of both extended and alike: with the master's INT low, a level of its own, and level 7, one count for each cause that the slave has.
    low: u64,
    own: u64,
    passed: [u64; 4],
    // IW3.
    master_words: Words,
    slave_words: Words,
    // Line 7, by a write, by lines and by an acknowledge.
    by_write: Moves,
    by_lines: Moves,
    by_acknowledge: Moves,
    // The slave's INT stays over an acknowledge that it answered; so does the line of an edge-triggered master.
    stays: u64,
    stays_by_edge: u64,
    // The slave's INT moves behind INTP7.
    hidden: u64,
}

// How often IW3 came wrong and right.
#[derive(Clone, Copy, Default)]
struct Words {
    wrong: u64,
    right: u64,
}

impl Words {
    // A write at A0=1 where IW3 may be awaited: 4 where it is wrong.
    fn count(&mut self, awaits: bool, status: u8) {
        if awaits {
            if status == 0 {
                add(&mut self.right, 1);
            } else {
                add(&mut self.wrong, 1);
            }
        }
    }
}

// How often line 7 rose and fell.
#[derive(Clone, Copy, Default)]
struct Moves {
    raised: u64,
    lowered: u64,
}

impl Moves {
    // The slave's INT may have moved, and line 7 with it where INTP7 is low.
    fn count(&mut self, hidden: &mut u64, before: Joined, after: Joined) {
        if before.offers == after.offers {
            return;
        }
        if before.intp7 {
            add(hidden, 1);
        } else if before.offers {
            add(&mut self.lowered, 1);
        } else {
            add(&mut self.raised, 1);
        }
    }
}

impl Slave {
    // An acknowledge that is neither 1 nor 2.
    fn count_acknowledge(&mut self, before: Joined, after: Joined) {
        if let Some(setups) = self.setups.get_mut(before.master as usize) {
            add_at(setups, before.slave as usize);
        }
        if before.master != before.slave || !before.master.is_extended() {
            return;
        }
        if !before.calls {
            add(&mut self.low, 1);
        } else if before.level < 7 {
            add(&mut self.own, 1);
        } else {
            add_at(&mut self.passed, before.cause as usize);
            if before.offers && after.offers {
                add(&mut self.stays, 1);
                add(&mut self.stays_by_edge, u64::from(before.by_edge));
            }
        }
    }

    fn count_write(&mut self, before: Joined, after: Joined, port: u8, status: u8) {
        match port {
            1 => self.master_words.count(before.master_awaits, status),
            0x30 => self.by_write.count(&mut self.hidden, before, after),
            0x31 => {
                self.slave_words.count(before.slave_awaits, status);
                self.by_write.count(&mut self.hidden, before, after);
            }
            _ => {}
        }
    }

    pub(crate) fn count_record(&mut self, step: &Step) {
        let status = step.status();
        if status == 1 || status == 2 || !touches_chips(step.op(), step.port()) {
            return;
        }
        let before = second::both_chips(step.before);
        let after = second::both_chips(step.after);
        match step.op() {
            1 => self.count_write(before, after, step.port(), status),
            3 => self.by_lines.count(&mut self.hidden, before, after),
            _ => {
                self.count_acknowledge(before, after);
                self.by_acknowledge.count(&mut self.hidden, before, after);
            }
        }
    }
}

// Whether a record may have to do with both chips: a write to one of them, the slave's lines, an acknowledge.
fn touches_chips(op: u8, port: u8) -> bool {
    match op {
        1 => port < 2 || port / 16 == 3,
        3 => port == 3,
        _ => op == 4,
    }
}

impl fmt::Display for Slave {
    fn fmt<W: fmt::Write>(&self, f: &mut fmt::Formatter<W>) -> fmt::Result {
        let [unready, single, by_call, by_vector] = self.setups;
        writeln!(
            f,
            "acknowledges, master not ready: slave not ready {}, single {}, extended {}",
            unready[0],
            unready[1],
            unready[2].saturating_add(unready[3]),
        )?;
        writeln!(
            f,
            "master single: slave not ready {}, single {}, extended {}",
            single[0],
            single[1],
            single[2].saturating_add(single[3]),
        )?;
        writeln!(
            f,
            "master extended: slave not ready {}, single {}",
            by_call[0].saturating_add(by_vector[0]),
            by_call[1].saturating_add(by_vector[1]),
        )?;
        writeln!(
            f,
            "both extended: both vector {}, both CALL {}, master vector and slave CALL {}, master CALL and slave vector {}",
            by_vector[3], by_call[2], by_vector[2], by_call[3],
        )?;
        writeln!(
            f,
            "both extended and alike, with the master's INT low: {}",
            self.low
        )?;
        writeln!(f, "levels 0 to 6 by the master: {}", self.own)?;
        let passed = [
            "level 7 by the slave",
            "level 7 with the slave's INT low, nothing asks",
            "what asks is masked",
            "what asks is outranked",
        ];
        for (cause, count) in passed.iter().zip(&self.passed) {
            writeln!(f, "{cause}: {count}")?;
        }
        let words = self.master_words;
        writeln!(
            f,
            "IW3 of the master: wrong {}, right {}",
            words.wrong, words.right
        )?;
        let words = self.slave_words;
        writeln!(
            f,
            "IW3 of the slave: wrong {}, right {}",
            words.wrong, words.right
        )?;
        let moves = self.by_write;
        writeln!(
            f,
            "line 7 by a write to the slave: raised {}, lowered {}",
            moves.raised, moves.lowered,
        )?;
        let moves = self.by_lines;
        writeln!(
            f,
            "by the slave's lines: raised {}, lowered {}",
            moves.raised, moves.lowered
        )?;
        writeln!(
            f,
            "lowered by an acknowledge: {}",
            self.by_acknowledge.lowered
        )?;
        writeln!(
            f,
            "the slave's INT stays high over its acknowledge: {}",
            self.stays
        )?;
        writeln!(
            f,
            "of them with an edge-triggered master: {}",
            self.stays_by_edge
        )?;
        writeln!(
            f,
            "the slave's INT moves while INTP7 is high: {}",
            self.hidden
        )
    }
}
