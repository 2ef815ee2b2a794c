//! What is told of the times of a run. It knows no machine, only the times.
#![tactic(auto)]

mod lines;
mod task_lines;
mod texts;
mod wait_lines;

pub use texts::summary;
