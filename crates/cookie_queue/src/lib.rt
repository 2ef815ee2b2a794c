//! The tasks of one sibling that have a cookie, by cookie and then from the highest (`core_tree` of
//! `struct rq`).
#![tactic(auto)]

mod queue;

pub use queue::CookieQueue;
