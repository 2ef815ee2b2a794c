//! Both machines play the same scenarios, and make the same of them.
#![tactic(auto)]

#[cfg(test)]
mod machines;
