//! A sibling of the core, with its queue.

ghost use Rattle.std.specs.Prelude.{◌≡◌, Some};
ghost use Rattle.cs_types.specs.Selection.{is_run};
ghost use Rattle.core_lanes.specs.Lanes.{lane_start, lane_state, lane_view};
ghost use Rattle.core_lanes.specs.Account.{charged_for};

use cs_types::{CpuView, Pid};

/// A sibling of the core (`struct rq`).
#[derive(Drop)]
pub struct Lane<Q: Drop> {
    /// Whether it is online (`cpu_online_mask`).
    pub online: bool,
    /// The running task, none if the sibling runs idle (`rq->curr`).
    pub run: Option<Pid>,
    /// Whether it has a pending reschedule (`TIF_NEED_RESCHED` of `rq->curr`).
    pub pending: bool,
    /// What waits for it: nothing, idle or a task (`rq->core_pick`).
    pub waiting: Option<Option<Pid>>,
    /// Its balance place: how many siblings on from it the next one is from which it tries to steal, a
    /// count. 0 if it does not try (`core_balance_head`, and the loop of `steal_cookie_task`).
    pub place: u32,
    /// The least virtual time, as it was last kept for comparisons with other siblings, in ns
    /// (`cfs_rq->min_vruntime_fi`).
    pub snapshot: u128,
    /// The least virtual time of its queue, in ns (`cfs_rq->min_vruntime`). It never falls.
    pub least: u128,
    /// The occupation that its idle remembers, a count (`core_occupation` of `rq->idle`).
    pub idle_occupation: u8,
    /// The time since its last schedule, in ns (this project's).
    pub ran: u64,
    /// Its own number: the pick number at its last pick that was selected or adopted
    /// (`rq->core_sched_seq`).
    pub number: u64,
    /// Its queued tasks, the running one among them.
    pub queue: Q,
}

impl<Q: Drop> Lane<Q> {
    /// A sibling before the first step: online, and running idle.
    pub fn with_queue(queue: Q) -> Lane<Q>
        ensures { result ≡ lane_start queue }
    {
        Lane {
            online: true,
            run: None,
            pending: false,
            waiting: None,
            place: 0,
            snapshot: 0,
            least: 0,
            idle_occupation: 0,
            ran: 0,
            number: 0,
            queue,
        }
    }

    /// Whether it runs the task with the pid.
    pub fn runs(&self, pid: Pid) -> bool
        ensures { result ≡ is_run self.now.run (Some pid) }
    {
        self.run == Some(pid)
    }

    /// The pid that is charged for it, if a task has it: that of what waits for it, or, if nothing waits, of what it runs.
    /// None if that is idle, or if it is offline.
    pub fn charged(&self) -> Option<Pid>
        ensures { result ≡ charged_for (lane_state self.now) }
    {
        if !self.online {
            return None;
        }
        match self.waiting {
            Some(waiting) => waiting,
            None => self.run,
        }
    }

    /// What a machine shows of it.
    pub fn view(&self) -> CpuView
        ensures { result ≡ lane_view self.now }
    {
        CpuView {
            online: self.online,
            run: self.run.unwrap_or(0),
            number: self.number,
            pending: self.pending,
        }
    }
}
