//! The summary of a run for a person: aligned columns with a heading for each part, in milliseconds and per cent.
#![tactic(auto)]

mod cell;
mod parts;
mod whole;

pub use whole::table;
