//! What a run shows over time: its segments, each of which tells what one sibling did without a break, when tasks that
//! are told apart ran side by side, and how many waited. It stands on the contract of a machine alone.
#![tactic(auto)]

mod kept;
mod now;
mod queued;
mod recorder;
mod run;
mod segments;
mod waiting;

pub use run::recorded_run;
pub use segments::{RunSegments, Segment, Waiting, Window};
