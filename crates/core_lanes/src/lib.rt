//! The siblings of a core, each with its queue, and the small changes that a schedule and the other events are
//! made of, the charge for forced idle among them. The queue is a parameter, so that one text serves every kind of it.
#![tactic(auto)]

mod account;
mod lane;
mod lanes;
mod moving;
mod order;
mod queue;
mod told;

pub use account::charge;
pub use lane::Lane;
pub use lanes::{Core, task_of};
pub use order::{goes_before, is_fair, is_higher, is_peer_of};
pub use queue::{MOST_TASKS, SiblingQueue, is_on};
pub use told::tell_by_stamp;
