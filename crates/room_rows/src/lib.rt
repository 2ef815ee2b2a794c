//! Worked rows: scenarios with their entries, their report and their views, worked out by hand. The command writes
//! them, and the machine shows them. So they show that the definitions come to what a reader expects, which no clause
//! can say. It is tests alone, as each crate `WORD_rows`: what they hand in stands in `row_inputs`, and the runs that
//! they look at in `row_runs`.
#![tactic(auto)]

#[cfg(test)]
mod examples;
