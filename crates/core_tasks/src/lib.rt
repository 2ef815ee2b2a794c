//! The state of a core and its tasks, over any queue of a sibling, and what is done to its tasks with no schedule:
//! how it starts, how a task comes and goes, the cookies that a `prctl` sets, and the guards that are loaded.
#![tactic(auto)]

mod bench;
mod cookies;
mod drain;
mod life;
mod start;
mod state;

pub use drain::next_to_schedule;
pub use state::State;
