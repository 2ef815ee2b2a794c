//! What is wrong with a text that is no scenario, in words: its first bad line as it stands, which
//! word of it is wrong, and what may stand there. It is separate from the reading, which tells the
//! line and the kind of the fault alone.
#![tactic(auto)]

mod counts;
mod earlier;
mod explanation;
mod form;
mod lines;
mod number;
mod sentence;
mod shape;
mod spaces;
mod step;
mod table;
mod user;

pub use counts::counts_line;
pub use explanation::{Explanation, stop_explained};
