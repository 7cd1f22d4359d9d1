// What is counted in a lesson, and told at its end.
use sentences::Message;
use sentences::which::Way;

#[derive(Clone, Copy, Default)]
pub struct Tally {
    records: u64,
    refused: u64,
    // bytes past the end of memory, to it and from it
    lost: u64,
    unread: u64,
    // answers that were expected, and those that came otherwise
    checks: u64,
    failed: u64,
    // guesses that are asked for: from the first on no more records are run
    pub questions: u64,
}

impl Tally {
    // A record that nothing was said of was to be done and no more: that it was not is a failure, and no check.
    pub fn count_record(&mut self, is_refused: bool, is_checked: bool, is_wrong: bool) {
        add(&mut self.records, 1);
        add(&mut self.refused, u8::from(is_refused));
        add(&mut self.checks, u8::from(is_checked));
        add(&mut self.failed, u8::from(is_wrong));
    }

    pub fn count_check(&mut self, is_wrong: bool) {
        add(&mut self.checks, 1);
        add(&mut self.failed, u8::from(is_wrong));
    }

    // Bytes that went a way, past the end of memory.
    pub fn count_lost(&mut self, way: Way, bytes: u8) {
        match way {
            Way::ToMemory => add(&mut self.lost, bytes),
            Way::FromMemory => add(&mut self.unread, bytes),
            _ => {}
        }
    }

    pub fn count_question(&mut self) {
        add(&mut self.questions, 1);
    }

    // All went well only if every check held, and none was left open.
    pub fn is_well(&self) -> bool {
        self.failed == 0 && self.questions == 0
    }

    pub fn print(&self) -> bool {
        let records = Message::Records {
            all: self.records,
            refused: self.refused,
        };
        let checks = Message::Checks {
            all: self.checks,
            failed: self.failed,
        };
        records.text().print_line()
            && print_some(self.checks, checks)
            && print_some(self.questions, Message::Questions(self.questions))
            && print_some(self.lost, Message::Lost(self.lost))
            && print_some(self.unread, Message::Unread(self.unread))
    }
}

fn add(count: &mut u64, more: u8) {
    *count = count.saturating_add(u64::from(more));
}

// A count that is told where it is not 0.
fn print_some(count: u64, message: Message) -> bool {
    count == 0 || message.text().print_line()
}
