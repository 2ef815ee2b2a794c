//! The fair class of one sibling (`fair_sched_class`): the queue of its tasks, their ranks, and their
//! weights.
#![tactic(auto)]

mod queue;
mod weights;

pub use queue::{FairQueue, rank};
pub use weights::{grow, weight};
