//! Texts that are read as a scenario, and those that are refused, one for each rule of the grammar, with the line and
//! the kind of the fault.
#![tactic(auto)]

#[cfg(test)]
mod scenarios;
#[cfg(test)]
mod tables;
