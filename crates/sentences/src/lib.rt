// Every sentence of the program, and how a sentence is filled in.
//
// A sentence is asked for by its name, a variant of the enum of its table: what a record asks for (`requests`), what an answer says (`answers`), what came of a record (`outcomes`),
// the state of a chip (`states`), why a record was refused (`refusals`), what is wrong with a line (`faults`), and what is said of a lesson as a whole (`messages`). It is filled in
// from sixteen bytes, its facts. In what follows B is the place of a fact, S a bit of it and W a number of bits, a hexadecimal digit each:
//   $B    the fact, as two hexadecimal digits
//   =B    four facts from B on, little end first, as a decimal number
//   @B    the same as an address of six hexadecimal digits
//   ~B    the even address of the word that uses it
//   %BSW  the number that W bits of the fact make, from bit S on
//   *BSW  which of these bits are set
//   {BSWnone|one|two}  the words for that number, and nothing where there are none; a choice holds no other choice
//   &0 and &1  two numbers beside the facts
//   ^     a bar, which a sentence cannot have by itself
#![tactic(auto)]

mod answers;
pub mod bytes;
mod facts;
mod faults;
mod fill;
pub mod listing;
mod messages;
mod outcomes;
mod refusals;
mod requests;
mod states;
pub mod text;
pub mod which;

use crate::text::Text;
pub use answers::Answered;
pub use facts::Facts;
pub use messages::Message;
use notation::fault::Fault;
pub use outcomes::Happened;
pub use refusals::Refused;
use report::{STDERR, STDOUT};
pub use requests::Asked;
pub use states::Shown;

// A name that a sentence is asked for by.
pub trait Sentence {
    fn words(self) -> &'static str;
}

pub fn say<S: Sentence>(sentence: S, facts: Facts) -> Text {
    fill::fill(sentence.words(), facts)
}

// What is wrong with a line, after the name of its file, and the bytes that stand at the column.
pub fn bad_line(fault: Fault, line: u64, column: u64, found: [u8; 8]) -> Text {
    Text::new()
        .put(b':')
        .decimal(line)
        .put(b':')
        .decimal(column)
        .say(b": ")
        .and(say(fault, Facts::new().with_bytes(0, &found)))
}

pub fn print_heads() -> bool {
    io::write_all(
        STDOUT,
        b" line pulses asked                       answer                          OUT INT\n",
    )
}

// Of answers that stand by themselves.
pub fn print_answer_heads() -> bool {
    io::write_all(
        STDOUT,
        b"  no.        asked                       answer                          OUT INT\n",
    )
}

pub fn print_usage() {
    io::write_all(
        STDERR,
        b"usage: lesson FILE..              runs lessons
       lesson try [FILE]          a line in, its row out
       lesson card [PORT or WORD] what each bit of a port means
       lesson listing FILE..      runs lessons, and prints their comments too
       lesson pieces FILE..       a lesson's records and answers, one by one
       lesson assemble [FILE]     the notation as a tape
       lesson list [FILE]         a tape in the notation
       lesson explain [FILE]      answers in words
With no FILE, try, assemble, list and explain take standard input.
",
    );
}
