// The notation of lessons and charts: a line read. README.md and docs/LESSON.md describe it.
#![tactic(auto)]

pub mod check;
pub mod fault;
pub mod line;
pub mod place;
pub mod record;
pub mod word;
