//! The events of a core and its tasks, over any queue of a sibling, and the machine that they make: what both machines
//! share.
#![tactic(auto)]

mod events;
mod room;

pub use room::CoreRoom;
