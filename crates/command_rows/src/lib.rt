//! The commands of `coresched`: the stored run, words that ask for none, the limit of the input on both sides, and a
//! device that fails at each of its calls. The status is the wanted one, and so is each byte that is written.
//! Beside them scenarios are upgraded, and the worked examples of details are played.
#![tactic(auto)]

#[cfg(test)]
mod commands;
#[cfg(test)]
mod details;
#[cfg(test)]
mod upgrades;
