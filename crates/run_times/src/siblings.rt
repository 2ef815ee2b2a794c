//! The times of one sibling.

ghost use Rattle.std.specs.Prelude.{◌≡◌, ◌+◌, ◌≤◌, []};
ghost use Rattle.run_times.specs.Sums.{sibling_times, did, with_span};

use crate::doing::Doing;
use crate::side_by_side::add_if;

/// What a sibling did, and for how long, in ns. What it ran, idled, was forced idle and was offline add up to all time.
#[derive(Clone, Copy)]
pub struct SiblingTimes {
    /// It ran a task.
    pub ran: u64,
    /// It ran idle, and no task was queued on it.
    pub idled: u64,
    /// It ran idle, a task was queued on it, and the core had a cookie.
    pub forced_by_cookie: u64,
    /// It ran idle, a task was queued on it, and the core had no cookie.
    pub forced_by_none: u64,
    /// It was offline.
    pub offline: u64,
    /// It was online and had a pending reschedule, whatever it ran.
    pub pending: u64,
}

impl SiblingTimes {
    /// The times before the first advance.
    pub(crate) fn none() -> Self
        ensures { (cpu : _) → result ≡ sibling_times [] cpu }
    {
        SiblingTimes {
            ran: 0,
            idled: 0,
            forced_by_cookie: 0,
            forced_by_none: 0,
            offline: 0,
            pending: 0,
        }
    }

    /// Adds the time of an advance, by what the sibling did before it.
    pub(crate) fn add(&mut self, doing: Doing, is_pending: bool, time: u64)
        requires did { did self.old + time ≤ u64.MAX }
        requires pending { self.old.pending + time ≤ u64.MAX }
        ensures { self.new ≡ with_span doing is_pending time self.old }
    {
        match doing {
            Doing::Offline => self.offline += time,
            Doing::Runs(_) => self.ran += time,
            Doing::Idles => self.idled += time,
            Doing::ForcedIdle(0) => self.forced_by_none += time,
            Doing::ForcedIdle(_) => self.forced_by_cookie += time,
        }
        add_if(&mut self.pending, is_pending, time);
    }
}
