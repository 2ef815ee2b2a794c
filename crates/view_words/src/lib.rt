//! The words of the command line of `coresched_view`: which command they ask for. It is separate, since it
//! knows nothing of what the commands do.
#![tactic(auto)]

mod command;

pub use command::{Command, command_of};
