//! The room behind a lock: one worker for each actor that has a script.
#![tactic(auto)]

mod actors;
mod racing;
mod working;

pub use actors::is_same;
pub use racing::race;
pub use working::work;
