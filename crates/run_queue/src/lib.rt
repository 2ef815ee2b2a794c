//! The run queue of one sibling (`struct rq`): the queues of its classes, as one, and its tasks with
//! cookies; and a task as it has it.
#![tactic(auto)]

mod classes;
mod queue;
mod queued;

pub use queue::RunQueue;
pub use queued::queued_of;
