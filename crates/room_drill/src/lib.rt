//! The drill: a scenario that is generated from a seed alone, for a quick look at a machine, and
//! what is written of its run. A generator draws the scenario, so it needs no input.
#![tactic(auto)]

mod events;
mod generator;
mod policies;
mod scenario;
mod size;
mod tally;
mod tasks;
mod texts;

pub use scenario::generate;
pub use texts::summary;
