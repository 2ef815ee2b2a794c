//! What a machine shows of its core, its siblings, its tasks and its guards.

use crate::task::{Cookie, Cpu, Pid};

/// What the siblings of the core share.
#[derive(Clone, Copy)]
pub struct CoreView {
    /// The cookie that the core runs under, 0 for none.
    pub cookie: Cookie,
    /// How many siblings are forced idle, a count: as the last core-wide selection left it, and 0
    /// after a plain pick and after a sibling left.
    pub forced: u8,
    /// For how many siblings that selection chose a task, a count. 0 after a plain pick and after a
    /// sibling left.
    pub occupation: u8,
    /// How many intervals of forced idle were recorded, a count. One that is open is none of them.
    pub intervals: u64,
}

/// A sibling.
#[derive(Clone, Copy)]
pub struct CpuView {
    /// Whether it is online.
    pub online: bool,
    /// The running task, 0 for idle.
    pub run: Pid,
    /// The pick number at its last pick that was selected or adopted, 0 where there is none.
    pub number: u64,
    /// Whether it has a pending reschedule.
    pub pending: bool,
}

/// A living task.
#[derive(Clone, Copy)]
pub struct TaskView {
    /// Its number, from 1.
    pub pid: Pid,
    /// Its thread group, by the pid of that one's leader.
    pub tgid: Pid,
    /// The sibling on which it queues, its home.
    pub cpu: Cpu,
    /// Whether it is queued, as a running task is too, or asleep.
    pub queued: bool,
    /// Its cookie, 0 for none.
    pub cookie: Cookie,
    /// What it was charged for forced idle, in ns.
    pub forced: u64,
    /// Its virtual time, in ns, below 2^80.
    pub vtime: u128,
}

/// A task that ended.
#[derive(Clone, Copy)]
pub struct EndView {
    /// Its number, from 1.
    pub pid: Pid,
    /// What it was charged for forced idle, in ns.
    pub forced: u64,
}

/// Where a guard is.
#[derive(Clone, Copy)]
pub enum GuardPlace {
    /// It was not loaded yet, and is not asked.
    Bench,
    /// It is asked about each access that no rule before it decides. So it is not asked where the caller and the
    /// target are of one thread group, which is allowed, nor where a rule of the kernel or a guard that was loaded
    /// earlier refuses.
    Active,
    /// It was unloaded, and is gone.
    Dropped,
}

/// A guard.
#[derive(Clone, Copy)]
pub struct GuardView {
    /// Where it is.
    pub place: GuardPlace,
    /// How often it was asked, a count. Of a dropped one it is the count at its drop.
    pub asked: u64,
}
