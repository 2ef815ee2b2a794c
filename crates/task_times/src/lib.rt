//! For how long each task ran, waited and slept in a run, and the tasks of each cookie. It stands on the contract of
//! a machine alone.
#![tactic(auto)]

mod doing;
mod doing_times;
mod looks;
mod sums;
mod times;

pub use doing_times::DoingTimes;
pub use sums::RunTasks;
pub use times::{CookieTimes, TaskTimes};
