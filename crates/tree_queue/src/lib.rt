//! The queue of a sibling that the fast machine has: ordered trees, with the first task beside them.
#![tactic(auto)]

mod arrivals;
mod first;
mod queue;
mod renewed;
mod task;
mod told_tasks;

pub use queue::TreeQueue;
