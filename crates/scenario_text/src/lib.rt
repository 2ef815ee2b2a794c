//! The texts that go in and come out.
#![tactic(auto)]

mod fault;
mod head;
pub mod limits;
mod line;
mod lines;
mod number;
mod pieces;
mod plan;
mod reading;
mod step;
mod task;
mod teach;
mod usual;
mod words;
mod writing;

pub use fault::{BadKind, ReadFault};
pub use number::{parse_number, parse_signed};
pub use reading::read;
pub use writing::Line;
