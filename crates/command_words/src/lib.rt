//! The words of a command line: how a program's commands are read, and which of its own `coresched` is asked for. It is
//! separate, since it knows nothing of what the commands do, and since no other crate calls the parser of words.
#![tactic(auto)]

mod command;
mod forms;
mod parser;
mod seed;

pub use command::{Command, check_json, command_of, drill_seed, is_replay, is_upgrade};
pub use forms::{CommandForm, Value, read_words};
