//! The least and the greatest numbers that a text may spell, and how many lines of a form it may have. They stand together
//! for those who tell what a text may say; each is said where it is read.

pub use crate::head::{
    LEAST_TOP, MOST_LIMIT, MOST_SIBLINGS_IN_FIRST, MOST_SIBLINGS_IN_SECOND, MOST_TOP,
};
pub use crate::plan::{MOST_STEPS, MOST_TEACHES};
pub use crate::step::{
    MOST_ADVANCE, MOST_CALLER, MOST_NAMED_PID, MOST_TARGET_ABOVE, MOST_TARGET_BELOW,
};
pub use crate::task::{
    MOST_DEADLINE, MOST_ID, MOST_NICE_ABOVE, MOST_NICE_BELOW, MOST_PID, MOST_PRIORITY, MOST_USER,
};
pub use crate::teach::MOST_GUARD;
