//! The order across the SMT siblings of a core (`prio_less` in kernel/sched/core.c), over what each of them
//! offers, and the lead of many. A selection compares what it keeps of its firsts by `Standing` too (`core_pick`).
#![tactic(auto)]

mod offer;
mod order;
mod standing;

pub use offer::{IDLE, Offer};
pub use order::{higher, lead};
pub use standing::{Standing, rank_across};
