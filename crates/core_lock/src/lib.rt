//! A ticket lock round a room. Whoever makes steps holds a pass with a list of them.
#![tactic(auto)]

mod board;
mod pass;
mod seats;
mod shared;
mod spent;
mod turns;
mod view;

pub use pass::Pass;
pub use shared::Shared;
pub use spent::Spent;
pub use view::Progress;
