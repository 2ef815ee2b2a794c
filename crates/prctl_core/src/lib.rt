//! The outcome of a call of `prctl(PR_SCHED_CORE, ..)` (`sched_core_share_pid`,
//! kernel/sched/core_sched.c): an answer, and if it succeeds, whose cookie becomes which. It
//! changes no task, so a machine makes the setting of a plan by its own means.
#![tactic(auto)]

mod admitted;
mod arguments;
mod decision;
mod members;
mod planning;

pub use decision::{Decision, Planned, Target};
pub use planning::plan;
