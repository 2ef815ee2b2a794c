//! Worked verdicts on printed runs: those that a scenario has in another order too, and texts with a wrong line, a
//! missing one, one too many, or one that is cut. It is tests alone.
#![tactic(auto)]

#[cfg(test)]
mod verdicts;
