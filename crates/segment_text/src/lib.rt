//! What is told of a run over time: a line for each segment, as a table or as JSON. It knows no machine, only the
//! segments.
#![tactic(auto)]

mod cells;
mod json;
mod table;

pub use json::segments_json;
pub use table::segments;
