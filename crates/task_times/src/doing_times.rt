//! For how long something ran, waited and slept.

ghost use Rattle.std.specs.Prelude.{◌≡◌, ◌+◌, ◌≤◌, Some, nat_lt};
ghost use Rattle.task_times.specs.DoingTimes.{doing_times, all_times, part, with_time};

use crate::doing::TaskDoing;

/// For how long a task ran, waited and slept, in ns, or the sum of that over several tasks.
#[derive(Clone, Copy)]
pub struct DoingTimes {
    /// A sibling ran it.
    pub ran: u64,
    /// It was queued, and no sibling ran it.
    pub waited: u64,
    /// It was not queued.
    pub slept: u64,
}

impl DoingTimes {
    /// No time.
    pub(crate) fn none() -> Self
        ensures { result ≡ doing_times (λ does. 0) }
    {
        DoingTimes {
            ran: 0,
            waited: 0,
            slept: 0,
        }
    }

    /// Adds a time in which a task did one thing.
    pub(crate) fn add(&mut self, doing: TaskDoing, time: u64)
        requires { part doing self.old + time ≤ u64.MAX }
        ensures { self.new ≡ with_time (Some doing) time self.old }
    {
        match doing {
            TaskDoing::Runs => self.ran += time,
            TaskDoing::Waits => self.waited += time,
            TaskDoing::Sleeps => self.slept += time,
        }
    }

    /// Whether it is some time.
    pub(crate) fn is_some(&self) -> bool
        ensures { result ≡ nat_lt 0 (all_times self.now) }
    {
        self.ran > 0 || self.waited > 0 || self.slept > 0
    }
}
