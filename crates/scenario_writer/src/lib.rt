//! A scenario's text, written to a sink, and a scenario of either version made one of version 2.
#![tactic(auto)]

mod fields;
mod scenario;
mod users;
mod version;

pub use scenario::scenario_text;
pub use version::upgrade;
