//! Judges a printed run: whether a scenario has a run that prints so, and if not, which line is the first wrong one.
#![tactic(auto)]

mod ending;
mod judging;
mod lines;
mod output;
mod parts;
mod scripts;
mod verdict;

pub use judging::judge;
pub use output::verdict_output;
pub use parts::{line_count, split_input};
pub use verdict::Verdict;
