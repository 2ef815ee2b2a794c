//! The account of forced idle of a core: the interval that is open.
#![tactic(auto)]

mod force_idle;

pub use force_idle::ForceIdle;
