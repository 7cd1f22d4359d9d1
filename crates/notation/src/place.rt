// Where a line stands among the others, and whether it may stand there.
use crate::check::Check;
use crate::fault::{Bad, Fault};
use crate::line::{Parsed, What};

#[derive(Clone, Copy)]
pub struct Place {
    // lines are taken as they are typed, and not from a lesson
    pub typed: bool,
    // the lines belong to a chart
    pub chart: bool,
    // lines of records so far, of the lesson or the chart
    pub records: u64,
    // the length of the memory
    pub lent: u32,
    // the last line that was no comment has a check, or answers a guess of one
    pub checked: bool,
}

// What a chart lends where it does not say, and the most that it may.
pub const CHART_MEMORY: u32 = 256;

// What a lesson does.
pub const LESSON_MEMORY: u32 = 65536;

impl Place {
    pub fn start(typed: bool) -> Place {
        Place {
            typed,
            chart: false,
            records: 0,
            lent: LESSON_MEMORY,
            checked: false,
        }
    }

    // The line itself, or why it may not stand here.
    pub fn judge(self, parsed: Parsed) -> Result<Parsed, Bad> {
        match self.fault(&parsed.what) {
            Some(fault) => Err(Bad::at(0, fault)),
            None => Ok(parsed),
        }
    }

    fn fault(self, what: &What) -> Option<Fault> {
        // memory is set, and its length too, before the first record
        let late = self.records > 0;
        let faults = |wrong: bool, fault: Fault| wrong.then_some(fault);
        match *what {
            What::Memory(_) | What::Lend(_) if late => Some(Fault::Late),
            What::Memory(memory) | What::ExpectMemory(memory) => {
                faults(memory.is_past(self.lent), Fault::Past)
            }
            What::Lend(length) => faults(self.chart && length > CHART_MEMORY, Fault::Chart),
            What::Guess(_) => faults(!self.checked, Fault::Unchecked),
            What::Card(_) | What::Again => faults(!self.typed, Fault::Typed),
            What::Record(record) => faults(
                self.typed && record.check == Check::Asked,
                Fault::Asked,
            ),
            _ => None,
        }
    }

    // The place of the line after a bad one, which may have had a check.
    pub fn after_bad(self) -> Place {
        Place {
            checked: true,
            ..self
        }
    }

    // The place of the line after a good one.
    pub fn after(self, parsed: &Parsed) -> Place {
        match parsed.what {
            What::Empty | What::Guess(_) => self,
            What::Lend(lent) => Place { lent, ..self },
            What::Chart(_) => Place {
                chart: true,
                lent: CHART_MEMORY,
                ..Place::start(self.typed)
            },
            What::Again => Place::start(self.typed),
            What::Record(record) => Place {
                records: self.records.saturating_add(1),
                checked: record.check != Check::Unchecked,
                ..self
            },
            What::Expect(_) => Place {
                checked: true,
                ..self
            },
            What::Memory(_) | What::ExpectMemory(_) | What::Show(_) | What::Card(_) => Place {
                checked: false,
                ..self
            },
        }
    }
}
