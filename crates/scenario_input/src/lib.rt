//! What the commands stand on: a scenario from the input, its steps played on any machine, and how a command
//! ends. It knows no machine, so that it is proved beside the largest of them.
#![tactic(auto)]

mod input;
mod playing;
mod program;
mod status;
mod stop;
mod teaching;

pub use input::{INPUT_BYTES, JUDGED_BYTES, read_and_keep, read_scenario, read_to_end};
pub use playing::play;
pub use program::{guards, words};
pub use status::Status;
pub use stop::{GuardKind, Stop};
pub use teaching::taught;
