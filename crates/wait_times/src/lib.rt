//! How often and for how long each task of a run waited from a wake until a sibling ran it. It
//! stands on the contract of a machine alone.
#![tactic(auto)]

mod rows;
mod waits;
mod wakes;

pub use rows::TaskWaits;
pub use waits::RunWaits;
