//! A schedule of a sibling: what forced idle is charged before it, what it chooses for the siblings of the core,
//! and what becomes of them. The queue of a sibling is a parameter.
#![tactic(auto)]

mod balance;
mod choice;
mod lead;
mod pick;
mod selection;
mod sibling;

pub use pick::{pick_and_balance, schedule};
