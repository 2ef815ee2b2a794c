//! What held in a run, and for how long: what each sibling did, and how long tasks with distinct cookies, and tasks of
//! distinct thread groups, ran side by side. It stands on the contract of a machine alone.
#![tactic(auto)]

mod by;
mod doing;
mod looks;
mod siblings;
mod side_by_side;
mod times;

pub use by::By;
pub use doing::Doing;
pub use looks::{cookie_run, key_run, some_apart};
pub use siblings::SiblingTimes;
pub use side_by_side::SideBySide;
pub use times::{RunTimes, advance_of};
