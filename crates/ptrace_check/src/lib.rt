//! The check by which one task may access another, as `ptrace` and `prctl(PR_SCHED_CORE)` ask it; the guards that are
//! asked there, and how a machine is started on a scenario and its guards.
#![tactic(auto)]

mod access;
mod answer;
mod guards;
mod seat;

pub use access::may_access;
pub use answer::{LoadAnswer, TeachAnswer, UnloadAnswer};
pub use guards::Guards;
