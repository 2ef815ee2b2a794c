//! What reads the clock, or moves it: how a task is queued at its home, an advance, and a tick.
#![tactic(auto)]

mod queueing;
mod time;

pub use queueing::{online_home, rehome, wake_at_home};
pub use time::{advance, tick};
