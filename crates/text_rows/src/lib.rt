//! The line of each entry, and what is written of a scenario. And the devices that texts come from and go to, even if
//! they fail in mid-stream.
#![tactic(auto)]

#[cfg(test)]
mod devices;
#[cfg(test)]
mod lines;
#[cfg(test)]
mod written;
