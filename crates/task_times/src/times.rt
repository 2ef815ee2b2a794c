//! The times of one task, and of the tasks of one cookie.

ghost use Rattle.std.specs.Prelude.{◌≡◌, ◌+◌, ◌^◌, ◌<◌, ◌≤◌, ◌||◌, [], nat_lt};
ghost use Rattle.task_times.specs.TaskSums.{task_times, cookie_times, lived, had, counted_for, with_charge, charged_more};

use crate::doing_times::DoingTimes;
use cs_types::Cookie;

/// What a task did, and for how long, in ns. What it ran, waited and slept add up to the time in which it lived.
#[derive(Clone, Copy)]
pub struct TaskTimes {
    /// For how long it ran, waited and slept.
    pub by_doing: DoingTimes,
    /// What it was charged for forced idle. It is 0 until that is noted at the end of a run.
    pub charged: u64,
    /// The cookie for which that counts: the one that it has at the end, or had when it ended, 0 for none. For a task
    /// that lives it is noted at the end of a run. A cookie is no greater than the number of entries, so 32 bits hold
    /// it.
    pub cookie: u32,
}

/// What the tasks of a cookie did, and for how long, in ns, added over these tasks: if two of them run side by side,
/// that counts twice. The times of a task count for the cookie that it has at the time, and all that it was charged
/// counts for the last one that it had.
#[derive(Clone, Copy)]
pub struct CookieTimes {
    /// For how long they ran, waited and slept.
    pub by_doing: DoingTimes,
    /// What the tasks whose last cookie it is were charged for forced idle. It is 0 until that is noted at the end of a
    /// run.
    pub charged: u128,
}

impl TaskTimes {
    /// The times before the first advance.
    pub(crate) fn none() -> Self
        ensures { (pid : _) → result ≡ task_times 0 0 [] pid }
    {
        TaskTimes {
            by_doing: DoingTimes::none(),
            charged: 0,
            cookie: 0,
        }
    }

    /// Notes the cookie for which it counts.
    pub(crate) fn count_for(&mut self, cookie: Cookie)
        requires { cookie < 2 ^ 32 }
        ensures { self.new ≡ counted_for cookie self.old }
    {
        self.cookie = cookie as u32;
    }

    /// Notes what it was charged.
    pub(crate) fn charge(&mut self, charged: u64)
        ensures { self.new ≡ with_charge charged self.old }
    {
        self.charged = charged;
    }

    /// Notes what it was charged, and the cookie for which that counts.
    pub(crate) fn charge_for(&mut self, charged: u64, cookie: Cookie)
        requires { cookie < 2 ^ 32 }
        ensures { self.new ≡ with_charge charged (counted_for cookie self.old) }
    {
        self.charge(charged);
        self.count_for(cookie);
    }

    /// Whether there is something to show of it: it lived for some time, or was charged something.
    pub fn is_shown(&self) -> bool
        ensures { result ≡ (nat_lt 0 (lived self.now) || nat_lt 0 self.now.charged) }
    {
        self.by_doing.is_some() || self.charged > 0
    }
}

impl CookieTimes {
    /// The times before the first advance.
    pub(crate) fn none() -> Self
        ensures { (cookie : _) → result ≡ cookie_times 0 [] cookie }
    {
        CookieTimes {
            by_doing: DoingTimes::none(),
            charged: 0,
        }
    }

    /// Adds what a task was charged. The most that it can be has to fit.
    pub(crate) fn charge(&mut self, charged: u64)
        requires { self.old.charged + u64.MAX ≤ u128.MAX }
        ensures sum { self.new ≡ charged_more charged self.old }
        ensures most { self.new.charged ≤ self.old.charged + u64.MAX }
    {
        self.charged += u128::from(charged);
    }

    /// Whether there is something to show of it: some task had the cookie for some time, or something was charged to
    /// it.
    pub fn is_shown(&self) -> bool
        ensures { result ≡ (nat_lt 0 (had self.now) || nat_lt 0 self.now.charged) }
    {
        self.by_doing.is_some() || self.charged > 0
    }
}
