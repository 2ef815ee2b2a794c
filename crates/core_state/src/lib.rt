//! The fast machine: the queues of its siblings are ordered trees.
#![tactic(auto)]

mod room;

pub use room::CoreState;
