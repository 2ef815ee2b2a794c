//! A scenario: the core's size and limits, its tasks, and the steps of its actors.

use crate::event::Step;
use crate::list::List;
use crate::task::TaskSpec;

/// The most siblings of a core, a count.
pub const MOST_SIBLINGS: usize = 16;

/// A pair of real user ids that a guard is taught to refuse.
#[derive(Clone, Copy)]
pub struct Teach {
    /// The number of its line in the text, from 1.
    pub line: u32,
    /// The number of the guard, 0 to 15.
    pub guard: u8,
    /// The real user id of the caller, 0 to 65535.
    pub from: u32,
    /// The real user id of the target, 0 to 65535.
    pub to: u32,
}

/// What a scenario text says.
#[derive(Drop)]
pub struct Scenario {
    /// The version of its text, 1 or 2. No machine looks at it.
    pub version: u8,
    /// The SMT siblings of the core, a count: 1 to 16, and at most 8 in a text of version 1.
    pub siblings: u8,
    /// How many tasks may live at once, 1 to 256.
    pub task_limit: u16,
    /// How many cookies may live at once, 1 to 256.
    pub cookie_limit: u16,
    /// The end of a caller's address space, in bytes, 8192 to 9223372036854775807.
    pub user_top: u64,
    /// The tasks at the start, in the order of their lines.
    pub tasks: List<TaskSpec>,
    /// What the guards are taught, in the order of the lines.
    pub teaches: List<Teach>,
    /// The steps of all actors, in the order of their lines.
    pub steps: List<Step>,
}
