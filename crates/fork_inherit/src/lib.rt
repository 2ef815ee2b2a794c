//! How a task is born and how one ends: what becomes of the table of the living and of the references
//! to their cookies. It queues no task and schedules nothing, which is left to a machine.
#![tactic(auto)]

mod ending;
mod forking;

pub use ending::{HasThreads, end, has_threads};
pub use forking::{ForkFault, fork};
