//! The drill: the scenarios of some seeds, the summaries of worked examples, and what the command prints. Values are
//! those that `checks/reference/drill.py` draws.
#![tactic(auto)]

#[cfg(test)]
mod drills;
