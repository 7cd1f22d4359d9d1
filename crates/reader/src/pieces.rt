// What the filters make of a record and of an answer.
use sentences::bytes::{Answer, Record};
use sentences::text::Text;
use sentences::{Asked, Facts, listing, text, which};

// The record's bytes and its line, and below them the answer by itself.
pub fn print_pieces(number: u64, record: Record, answer: Answer) -> bool {
    left(number)
        .put(b' ')
        .pad(13)
        .and(sentences::say(Asked::Bytes, Facts::from(record)))
        .put(b' ')
        .pad(41)
        .and(line_of(record))
        .print_line()
        && print_answer(number, answer)
}

// A record in the notation.
pub fn line_of(record: Record) -> Text {
    sentences::say(listing::sentence(record), Facts::from(record))
}

// The number of a record or an answer.
fn left(number: u64) -> Text {
    Text::new().number(number, 5)
}

pub fn print_answer(number: u64, answer: Answer) -> bool {
    text::print_row(
        left(number),
        which::operation(answer),
        which::words_alone(answer),
        Some(answer.levels),
    )
}
