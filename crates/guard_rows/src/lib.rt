//! Guards: what the commands write of them, teach lines that cannot be carried out, and each public call.
#![tactic(auto)]

#[cfg(test)]
mod guards;
