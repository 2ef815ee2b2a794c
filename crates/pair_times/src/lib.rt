//! For how long tasks that are told apart ran side by side in a run, pair by pair: for each two cookies, or each two
//! thread groups. It stands on the contract of a machine alone.
#![tactic(auto)]

mod keys;
mod pairs;
mod rows;

pub use pairs::PairTimes;
pub use rows::PairTime;
