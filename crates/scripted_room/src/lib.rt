//! A room that is played by turns: what lies under a `Mutex`, of a room and the scripts of its actors. The program
//! races at another lock (`core_lock`), so this is for callers with a lock of `std`.
#![tactic(auto)]

mod named;
mod script;
mod scripted;
mod scripts;
mod turn;

pub use named::Named;
pub use scripted::Scripted;
pub use turn::Turn;
