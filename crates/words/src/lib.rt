// What the program `lesson` says of the chips: what a record asks for, what came of it, why it was refused, and the state that they are in.
#![tactic(auto)]

pub mod asked;
pub mod chips;
pub mod happened;
pub mod refused;
pub mod shown;
