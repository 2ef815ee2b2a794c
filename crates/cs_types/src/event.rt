//! What actors do to the core.

use crate::task::{Cpu, Pid, Policy};

/// Who makes a step.
#[derive(Clone, Copy)]
pub enum Actor {
    /// The sibling of this number, for what it does to itself.
    Sibling(u8),
    /// A caller from outside the core, 0 to 7.
    Caller(u8),
    /// The final drain of a run, which makes pending siblings schedule.
    End,
}

/// The arguments of `prctl(PR_SCHED_CORE, ..)`.
#[derive(Clone, Copy)]
pub struct Ask {
    /// The command: `GET`, `CREATE`, `SHARE_TO` or `SHARE_FROM`. No other is valid.
    pub cmd: u32,
    /// The target's pid, 0 for the caller. None below 0 is valid.
    pub pid: i32,
    /// The scope: 0 for the target alone, 1 for its thread group, 2 for its process group. No other
    /// is valid.
    pub scope: u32,
    /// The user address at which a GET writes its answer, in bytes. 0 for every other command.
    pub addr: u64,
}

/// The numbers of the commands (include/uapi/linux/prctl.h).
impl Ask {
    /// `PR_SCHED_CORE_GET`.
    pub const GET: u32 = 0;
    /// `PR_SCHED_CORE_CREATE`.
    pub const CREATE: u32 = 1;
    /// `PR_SCHED_CORE_SHARE_TO`.
    pub const SHARE_TO: u32 = 2;
    /// `PR_SCHED_CORE_SHARE_FROM`.
    pub const SHARE_FROM: u32 = 3;
}

/// One event of the core: what one step does, in one piece, under the core's lock.
#[derive(Clone, Copy)]
pub enum Event {
    /// The sibling takes its pending reschedule, if it has one. Else it tries to steal a task, if
    /// its last schedule left it a try.
    Turn(Cpu),
    /// The sibling schedules.
    Resched(Cpu),
    /// The sibling's running task goes to sleep.
    Block(Cpu),
    /// The sibling's running task ends.
    Exit(Cpu),
    /// The sibling's timer ticks.
    Tick(Cpu),
    /// The task, 1 to 999999, is woken.
    Wake(Pid),
    /// The clock goes on, by 1 to 1000000000 ns.
    Advance(u64),
    /// The task, 1 to 999999, makes a child: a thread of its own thread group, or a process.
    Fork { caller: Pid, thread: bool },
    /// The task, 1 to 999999, calls `prctl(PR_SCHED_CORE, ..)`.
    Prctl { caller: Pid, ask: Ask },
    /// The task, 1 to 999999, gets another policy.
    SetSched { pid: Pid, policy: Policy },
    /// The sibling leaves the core.
    Offline(Cpu),
    /// The sibling comes back.
    Online(Cpu),
    /// The guard of this number, 0 to 15, leaves the bench and is asked from now on.
    Load(u8),
    /// The guard of this number, 0 to 15, is asked no more, and is dropped.
    Unload(u8),
}

/// An event, and who makes it.
#[derive(Clone, Copy)]
pub struct Step {
    /// Who makes it.
    pub actor: Actor,
    /// What it does.
    pub event: Event,
}
