//! What `coresched_view explain` says of texts that are no scenario, with a mistake each that somebody makes, and of one
//! that is.
#![tactic(auto)]

#[cfg(test)]
mod explanations;
#[cfg(test)]
mod tables;
