//! The command `check`: verdicts on printed runs, as lines and as JSON, inputs that are not judged, the limit of the
//! input on both sides, and devices that fail. It is tests alone.
#![tactic(auto)]

#[cfg(test)]
mod checks;
