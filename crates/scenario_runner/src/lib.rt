//! The commands: from the words and the bytes that come in to the bytes that go out.
#![tactic(auto)]

mod checked;
mod command;
mod drilled;
mod played;
mod upgraded;

pub use command::{check, drill, replay, run, upgrade};
pub use played::opened;
pub use scenario_input::{GuardKind, Status, play};
