// What is printed of a line beside its row: its comment, and a card.
use crate::output;
use crate::output::Stop;
use notation::line::Parsed;
use ports::NotPrinted;
use report::STDOUT;
use sentences::Message;

// The comment of a line, or an empty line, as it stands there.
pub fn print(line: &[u8], parsed: &Parsed) -> bool {
    if line.is_empty() {
        return io::write_all(STDOUT, b"\n");
    }
    let after_words = line.get(parsed.end..).unwrap_or(&[]);
    match after_words.iter().position(|x| *x == b'#') {
        Some(at) => report::print_name(STDOUT, &after_words[at..]) && io::write_all(STDOUT, b"\n"),
        None => true,
    }
}

// The card of a port, or the list of all cards where none is named; that there is none is told.
pub fn print_card(name: &[u8]) -> Result<(), Stop> {
    if name.is_empty() {
        return output::written(ports::print_index());
    }
    match ports::print_card(name) {
        Ok(()) => Ok(()),
        Err(NotPrinted::Unknown) => {
            output::tell(name, Message::NoSuchCard);
            Err(Stop::Text)
        }
        Err(NotPrinted::Unwritten) => output::written(false),
    }
}
