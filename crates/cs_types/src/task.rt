//! A task as a scenario describes it.

ghost use Rattle.std.specs.Prelude.{◌≡◌};

use crate::queue::Queued;

/// The number of a task. 0 is no task's: in a reply that names what a sibling runs, it is idle.
pub type Pid = u32;

/// A core-scheduling cookie, by its serial number. 0 is no cookie.
pub type Cookie = u64;

/// An SMT sibling of the core, counted from 0.
pub type Cpu = u8;

/// A task's scheduling policy.
#[derive(Clone, Copy)]
pub enum Policy {
    /// The class of the stop task (`stop_sched_class`), above every other. The kernel has one such task for each CPU;
    /// here any task can be one.
    Stop,
    /// `SCHED_DEADLINE` with a relative deadline, 1 to 1000000000 ns.
    Deadline(u64),
    /// `SCHED_FIFO` with a priority from 1 to 99, the greater the higher.
    Fifo(u8),
    /// `SCHED_RR` with a priority from 1 to 99, the greater the higher.
    Rr(u8),
    /// `SCHED_NORMAL` with a nice value from -20 to 19, the smaller the more weight.
    Fair(i8),
}

impl Policy {
    ghost use Rattle.cs_types.specs.Order.{class_number, class_of};

    /// The scheduling class of the policy (`__setscheduler_prio`, and for a stop task `sched_set_stop_task`).
    pub fn class(self) -> Class
        ensures { class_number result ≡ class_of self }
    {
        match self {
            Policy::Stop => Class::Stop,
            Policy::Deadline(_) => Class::Deadline,
            Policy::Fifo(_) | Policy::Rr(_) => Class::RealTime,
            Policy::Fair(_) => Class::Fair,
        }
    }
}

/// A scheduling class, from the highest. Idle is the absence of tasks, and no task's class.
#[derive(Clone, Copy)]
pub enum Class {
    /// The stop task's (`stop_sched_class`).
    Stop,
    /// Deadline tasks' (`dl_sched_class`).
    Deadline,
    /// FIFO and RR tasks' (`rt_sched_class`).
    RealTime,
    /// Fair tasks' (`fair_sched_class`).
    Fair,
}

impl Class {
    ghost use Rattle.cs_types.specs.Order.{class_number};

    /// Its number in a queued task and in an offer: 0 to 3, the smaller the higher.
    pub fn number(self) -> u8
        ensures { result ≡ class_number self }
    {
        match self {
            Class::Stop => Queued::STOP,
            Class::Deadline => Queued::DEADLINE,
            Class::RealTime => Queued::REAL_TIME,
            Class::Fair => Queued::FAIR,
        }
    }
}

/// A task's credentials, as the ptrace access check reads them.
#[derive(Clone, Copy)]
pub struct Creds {
    /// The real user id, 0 to 65535, as are all six.
    pub ruid: u32,
    /// The effective user id.
    pub euid: u32,
    /// The saved user id.
    pub suid: u32,
    /// The real group id.
    pub rgid: u32,
    /// The effective group id.
    pub egid: u32,
    /// The saved group id.
    pub sgid: u32,
    /// Whether it has CAP_SYS_PTRACE, permitted and effective.
    pub cap: bool,
    /// Whether it has a memory image.
    pub mm: bool,
    /// Whether that image may be dumped.
    pub dumpable: bool,
}

impl Creds {
    ghost use Rattle.cs_types.specs.Scenario.{is_user};

    /// Whether both are those of one user: each of the nine is the same.
    #[tactic(auto, unfolding(crate::specs::Scenario::is_user))]
    pub fn are_same(&self, other: &Creds) -> bool
        ensures { result ≡ is_user self.now other.now }
    {
        let users = self.ruid == other.ruid && self.euid == other.euid && self.suid == other.suid;
        let groups = self.rgid == other.rgid && self.egid == other.egid && self.sgid == other.sgid;
        let flags = self.cap == other.cap && self.mm == other.mm && self.dumpable == other.dumpable;
        users && groups && flags
    }
}

/// A task as its line in the scenario gives it, or a child as its caller's fork does.
#[derive(Clone, Copy)]
pub struct TaskSpec {
    /// Its number, 1 to 9999 in a scenario. A child's is the next one, above all of these.
    pub pid: Pid,
    /// Its thread group: the pid of the group's leader.
    pub tgid: Pid,
    /// Its process group, 1 to 9999 in a scenario.
    pub pgid: u32,
    /// The sibling on which it begins, its first home. Of a child it is its caller's home at the fork; if that was
    /// offline, the child's first home is the lowest online sibling.
    pub cpu: Cpu,
    /// Its scheduling policy, of a living task the one that was set last.
    pub policy: Policy,
    /// Its credentials, which no event changes.
    pub creds: Creds,
}

/// A living task.
#[derive(Clone, Copy)]
pub struct Task {
    /// What its line in the scenario gives, or its caller's fork.
    pub spec: TaskSpec,
    /// Its cookie, 0 for none (`core_cookie`).
    pub cookie: Cookie,
    /// The sibling on which it queues (`task_cpu`).
    pub home: Cpu,
    /// Whether it is queued, as a running task is too, or asleep (`on_rq`).
    pub queued: bool,
    /// Its virtual time, in ns, of a fair task (`se.vruntime`).
    pub vtime: u128,
    /// Its absolute deadline, in ns of the clock, of a deadline task (`dl.deadline`).
    pub deadline: u64,
    /// The stamp of its last enqueue or rotation (this project's).
    pub stamp: u64,
    /// How much of its slice it has used, in ns, of an RR task (`rt.time_slice` counts the rest, in
    /// ticks).
    pub used: u64,
    /// The occupation of the last core-wide selection that chose it, a count (`core_occupation`).
    pub occupation: u8,
}
