//! What a sibling puts up for a selection. It is plain numbers, so that the order reads no task and
//! no queue.

use cs_types::{Cpu, Pid};

/// The class of a sibling that has no task (`idle_sched_class`), the lowest. A task has one of the classes of `Queued`,
/// whose numbers rise as the kernel's `__task_prio` does.
pub const IDLE: u8 = 4;

/// The first task of a sibling, as the order reads it.
#[derive(Clone, Copy, Default)]
pub struct Offer {
    /// The sibling.
    pub cpu: Cpu,
    /// The task, 0 for idle.
    pub pid: Pid,
    /// Its class, 0 to 4, the smaller the higher.
    pub class: u8,
    /// Its rank within the class, the smaller the higher: the absolute deadline in nanoseconds
    /// (`dl.deadline`), for a real-time task 99 minus the priority, for a fair one the virtual time
    /// in nanoseconds (`se.vruntime`). Nothing reads it for the stop task and for idle.
    pub rank: u128,
    /// The least virtual time of the sibling in nanoseconds, as it was last kept for comparisons
    /// (`min_vruntime_fi`). Fair tasks are compared against it.
    pub snapshot: u128,
}
