//! The reference counts of core-scheduling cookies, apart from the tasks that have them.
#![tactic(auto)]

mod places;
mod refs;

pub use refs::{CookieFull, CookieRefs};
