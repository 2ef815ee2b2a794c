//! How a sibling leaves the core and comes back.
#![tactic(auto)]

mod away;
mod hotplug;
mod moves;

pub use away::is_smt_off;
pub use hotplug::{Hotplug, offline, online};
