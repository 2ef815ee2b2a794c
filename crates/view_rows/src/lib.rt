//! The commands of `coresched_view`: what they write of runs whose times were worked out by hand, and their words and
//! faults.
#![tactic(auto)]

#[cfg(test)]
mod views;
