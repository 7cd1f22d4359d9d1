// What is said beside the output, and what ends where something fails.
use report::{Exit, STDERR, STDOUT};
use sentences::Message;

// What did not go well, which was told.
#[derive(Clone, Copy, PartialEq, Eq)]
pub enum Stop {
    // A text, or a card: what comes after it is still done.
    Text,
    // The arguments, or standard output, which takes no more: the program ends at once.
    Program(Exit),
}

// Says something of a file, or of an argument.
pub fn tell(name: &[u8], message: Message) {
    report::print_name(STDERR, name);
    complain(message);
}

pub(crate) fn complain(message: Message) {
    message.text().put(b'\n').complain();
}

// What stands above the rows of a lesson.
pub fn print_title(path: &[u8]) -> bool {
    report::print_name(STDOUT, path) && io::write_all(STDOUT, b"\n") && sentences::print_heads()
}

// Whether it was is what a write to standard output just answered.
pub fn written(is_written: bool) -> Result<(), Stop> {
    if is_written {
        return Ok(());
    }
    Err(Stop::Program(report::fail_output(b"lesson: standard output")))
}
