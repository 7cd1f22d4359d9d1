// The parts of the program `duel` that do not touch the first board: tapes for both boards, the counts and what is printed.
#![tactic(auto)]

pub mod counts;
pub mod modes;
pub mod places;
pub mod requests;
pub mod show;
pub mod slave;
pub mod stretch;
pub mod tapes;
