//! The commands of `coresched_view`: from the words and the bytes that come in to the bytes that go out.
#![tactic(auto)]

mod command;
mod explained;
mod played;
mod shown;

pub use command::run;
pub use scenario_input::Status;
