// What the program `lesson` does with a text, as far as it needs no chips: it is read line by line, checked, and made into a tape; tapes and answers are put into words; what was
// expected is held against what came, and counted.
#![tactic(auto)]

pub mod comments;
pub mod course;
pub mod expected;
pub mod filters;
pub mod held;
pub mod lines;
pub mod memory;
pub mod output;
pub mod pieces;
pub mod source;
pub mod tally;
pub mod usage;
