//! What goes out of a run: the line of each entry, and the report of what the machine shows at the
//! end. Both are over the contract of a machine alone, so that they serve each of them.
#![tactic(auto)]

mod entry;
mod lines;
mod parts;
mod texts;

pub use entry::entry_text;
pub use texts::{output, output_from, report};
