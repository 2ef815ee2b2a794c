//! Why a task was not added.

use cs_types::Pid;
use thiserror::Error;

/// What keeps a task out of a table.
#[derive(Debug, Drop, Error)]
pub enum AddFault {
    /// A task of the table has this pid. It comes at a full table too.
    #[error("there is a task {0} already")]
    Twice(Pid),
    /// No task has the pid, and the table has this many tasks, its limit.
    #[error("there are {0} tasks already, which is the limit")]
    Full(u16),
}
