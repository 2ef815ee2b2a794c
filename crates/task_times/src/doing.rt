//! What a task does.

/// What a living task does at a moment.
#[derive(Clone, Copy)]
pub enum TaskDoing {
    /// A sibling runs it.
    Runs,
    /// It is queued, and no sibling runs it.
    Waits,
    /// It is not queued.
    Sleeps,
}
