//! A try to steal: how a sibling that idles although a task is queued on it looks for one with the
//! core's cookie on another.
#![tactic(auto)]

mod search;
mod steal;

pub use steal::{Try, try_steal};
