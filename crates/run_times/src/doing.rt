//! What a sibling does.

use cs_types::Cookie;

/// What a sibling does at a moment.
#[derive(Clone, Copy, PartialEq, Eq)]
pub enum Doing {
    /// It is offline.
    Offline,
    /// It runs a task with this cookie, 0 for none.
    Runs(Cookie),
    /// It runs idle, and no task is queued on it.
    Idles,
    /// It runs idle, and a task is queued on it. The core has this cookie, 0 for none.
    ForcedIdle(Cookie),
}
