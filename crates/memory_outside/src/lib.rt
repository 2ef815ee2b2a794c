//! The outside in memory: a source and a sink that fail at given calls, and a guard that takes memory for its pairs. No
//! program uses it. Other code that calls the product can, as its tests do.
#![tactic(auto)]

mod list_guard;
mod memory_sink;
mod memory_source;

pub use list_guard::ListGuard;
pub use memory_sink::MemSink;
pub use memory_source::MemSource;
