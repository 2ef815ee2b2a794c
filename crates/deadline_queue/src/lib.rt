//! The deadline class (`dl_sched_class`): the queue of its tasks on one sibling, and their ranks.
#![tactic(auto)]

mod queue;

pub use queue::{DeadlineQueue, rank};
