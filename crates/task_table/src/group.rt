//! Which tasks of a table are meant: all, the threads of a group, or a process group.

use cs_types::Pid;

/// Some of the tasks of a table.
#[derive(Clone, Copy)]
pub enum Group {
    /// Each task.
    All,
    /// The threads of the thread group with this number, its leader's pid.
    Threads(Pid),
    /// The tasks of the process group with this number.
    Process(u32),
}
