//! The slow machine: the rules made to run, over a plain list of tasks.
#![tactic(auto)]

mod room;
mod walk;

pub use room::PlainRoom;
pub use walk::Walk;
