//! The outside: where bytes come from and where they go, each with a count of its faults.
#![tactic(auto)]

mod fault;
mod gate;
mod gathered;
mod guard;
mod null_guard;
mod pair_guard;
mod pairs;
mod retried;
mod sink;
mod source;
mod std_sink;
mod std_source;

pub use fault::Failed;
pub use gate::{Gate, NoGate};
pub use guard::{Guard, TeachFault};
pub use null_guard::NullGuard;
pub use pair_guard::PairGuard;
pub use pairs::lists;
pub use retried::{read_some, write_some};
pub use sink::{Sink, write_all};
pub use source::Source;
pub use std_sink::StdSink;
pub use std_source::StdSource;
