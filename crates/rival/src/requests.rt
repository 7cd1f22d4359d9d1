// What becomes of requests: acknowledges by why INT is low, if it is, and requests of edge trigger that a fall withdrew. Counted by the second board before
// and after each record, and by its answer. docs/DUEL.md has the words.
use crate::counts::{add, add_at};
use crate::stretch::Step;
use second::Asking;
use std::fmt;

#[derive(Clone, Copy, Default)]
pub struct Requests {
    // Acknowledges, one count for each cause that the second board has.
    acknowledges: [u64; 4],
    // Requests that a fall withdrew: of INTP1 to INTP7, and of OUT0, by a write, by an advance, and made and withdrawn in one advance.
    intp: u64,
    intp_masked: u64,
    out0_by_write: u64,
    out0_by_advance: u64,
    out0_within_advance: u64,
    out0_masked: u64,
}

impl Requests {
    // Lines INTP1 to INTP7: each request that is no more has lost its line.
    fn count_lines(&mut self, before: Asking, after: Asking) {
        let gone = before.edges & !after.edges;
        add(&mut self.intp, u64::from(gone.count_ones()));
        add(
            &mut self.intp_masked,
            u64::from((gone & before.imr).count_ones()),
        );
    }

    // A write to the timer.
    fn count_write(&mut self, before: Asking, after: Asking) {
        if before.edges & !after.edges != 0 {
            add(&mut self.out0_by_write, 1);
            self.count_masked(before);
        }
    }

    // An advance: a request from before it, or one that was made in it, as OUT0's rises and its level tell.
    fn count_advance(&mut self, before: Asking, after: Asking, rises: u16) {
        if before.edges & !after.edges != 0 {
            add(&mut self.out0_by_advance, 1);
            self.count_masked(before);
        } else if before.by_edge && rises > 0 && !after.out0 {
            add(&mut self.out0_within_advance, 1);
            self.count_masked(before);
        }
    }

    // A request of OUT0 that was withdrawn may have been masked.
    fn count_masked(&mut self, before: Asking) {
        add(&mut self.out0_masked, u64::from(before.imr % 2));
    }

    pub(crate) fn count_record(&mut self, step: &Step) {
        if step.status() != 0 {
            return;
        }
        let before = second::who_asks(step.before);
        let after = second::who_asks(step.after);
        match (step.op(), step.port()) {
            (1, 0x10..=0x1F) => self.count_write(before, after),
            (3, 0) => self.count_lines(before, after),
            (4, _) => add_at(&mut self.acknowledges, before.cause as usize),
            (5, _) => self.count_advance(before, after, step.rises(0)),
            _ => {}
        }
    }
}

impl fmt::Display for Requests {
    fn fmt<W: fmt::Write>(&self, f: &mut fmt::Formatter<W>) -> fmt::Result {
        let acknowledges = [
            "INT high",
            "INT low, nothing asks",
            "INT low, what asks is masked",
            "INT low, what asks is outranked",
        ];
        write!(f, "acknowledges ")?;
        for (cause, count) in acknowledges.iter().zip(&self.acknowledges) {
            writeln!(f, "with {cause}: {count}")?;
        }
        writeln!(
            f,
            "requests withdrawn by a fall of INTP1 to INTP7: {}",
            self.intp
        )?;
        writeln!(f, "of them masked: {}", self.intp_masked)?;
        writeln!(
            f,
            "requests of OUT0 withdrawn by a write: {}",
            self.out0_by_write
        )?;
        writeln!(f, "by an advance: {}", self.out0_by_advance)?;
        writeln!(
            f,
            "made and withdrawn in one advance: {}",
            self.out0_within_advance
        )?;
        writeln!(f, "of the three masked: {}", self.out0_masked)
    }
}
