//! Runs that the crates of tests look at, over the machine that the program plays: the command of the program, over
//! devices in memory, and the machine of a text. It has no test of its own, and none of its calls stops a test: each
//! answers what it came to.
#![tactic(auto)]

mod machine;
mod program;

pub use machine::{opened, played};
pub use program::{replayed, run_over_trees};
