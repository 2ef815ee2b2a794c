//! Each guard that is handed in is dropped once, however the command ends: guards that somebody else wrote count their
//! drops.
#![tactic(auto)]

#[cfg(test)]
mod drops;
#[cfg(test)]
mod strangers;
