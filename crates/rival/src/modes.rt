// What the counters do, mode by mode: counted by the second board before and after each record, and by its answer. docs/DUEL.md has the words.
use crate::counts::add;
use crate::stretch::Step;
use second::Watched;
use std::fmt;

// What the counters in one mode do.
#[derive(Clone, Copy, Default)]
struct Mode {
    pulses: u64,
    loads: u64,
    triggers: u64,
    ends: u64,
    rewrites: u64,
}

#[derive(Clone, Copy, Default)]
pub struct Modes {
    modes: [Mode; 6],
}

impl Mode {
    // A write that leaves the counter another complete count than the one it had.
    fn count_write(&mut self, before: Watched, after: Watched) {
        if before.complete && after.complete && before.count != after.count {
            add(&mut self.rewrites, 1);
        }
    }

    // A rise of the gate after which a trigger pends.
    fn count_gate(&mut self, before: Watched, after: Watched) {
        if !before.gate && after.gate && after.triggered {
            add(&mut self.triggers, 1);
        }
    }

    // Pulses of a counter with a complete count: a count that waited, or a trigger, may be used up, and OUT may have risen.
    fn count_pulses(&mut self, before: Watched, after: Watched, pulses: u32, rises: u16) {
        if !before.complete {
            return;
        }
        add(&mut self.pulses, u64::from(pulses));
        if before.waiting && !after.waiting || before.triggered && !after.triggered {
            add(&mut self.loads, 1);
        }
        add(&mut self.ends, u64::from(rises));
    }
}

impl Modes {
    // One counter. A counter with no mode counts nothing.
    fn count_counter(&mut self, step: &Step, counter: u8) {
        let before = second::watch(step.before, u32::from(counter));
        let after = second::watch(step.after, u32::from(counter));
        let Some(number) = before.mode else {
            return;
        };
        let Some(mode) = self.modes.get_mut(number as usize) else {
            return;
        };
        match step.op() {
            1 => mode.count_write(before, after),
            3 => mode.count_gate(before, after),
            5 => mode.count_pulses(
                before,
                after,
                step.pulses(),
                step.rises(usize::from(counter)),
            ),
            _ => {}
        }
    }

    pub(crate) fn count_record(&mut self, step: &Step) {
        if step.status() == 0 && touches_timer(step.op(), step.port()) {
            for counter in 0..3 {
                self.count_counter(step, counter);
            }
        }
    }
}

// An operation that may change a counter, but for a reset: a write to the timer's ports, gates, an advance.
fn touches_timer(op: u8, port: u8) -> bool {
    match op {
        1 => port / 16 == 1,
        3 => port == 1,
        _ => op == 5,
    }
}

impl fmt::Display for Modes {
    fn fmt<W: fmt::Write>(&self, f: &mut fmt::Formatter<W>) -> fmt::Result {
        for (n, mode) in self.modes.iter().enumerate() {
            writeln!(
                f,
                "mode {n}: pulses {}, loads {}, triggers {}, ends {}, rewrites {}",
                mode.pulses, mode.loads, mode.triggers, mode.ends, mode.rewrites,
            )?;
        }
        Ok(())
    }
}
