//! The waits of one task, and of all of them.

ghost use Rattle.std.specs.Prelude.{◌≡◌, ◌<◌, ◌≤◌, ℕ, [], Some, length, All, IfSome, slice_index_or};
ghost use Rattle.cs_types.specs.Scenario.{IsPlayable};
ghost use Rattle.cs_types.specs.History.{fold_of, AreEvents};
ghost use Rattle.wait_times.specs.Waits.{woken_by, runs_task, wakes};
ghost use Rattle.wait_times.specs.Rows.{row_of, CanEnd, ended, ended_where, begun, begun_where};

use crate::wakes::woken_by;
use cs_types::{Entry, Room};

/// How often a task waited from a wake until a sibling ran it, and for how long, in ns.
#[derive(Clone, Copy)]
pub struct TaskWaits {
    /// How many waits there were, a count.
    pub count: u32,
    /// The longest of them, 0 if there was none.
    pub longest: u64,
    /// Their sum.
    pub sum: u64,
    /// When the wait that goes on began, by the clock. `None` if none does, as at the end of a run.
    pub(crate) since: Option<u64>,
}

impl TaskWaits {
    /// No wait.
    pub(crate) fn none() -> Self
        ensures { result ≡ row_of [] }
    {
        TaskWaits {
            count: 0,
            longest: 0,
            sum: 0,
            since: None,
        }
    }

    /// Ends the wait that goes on, if one does.
    pub(crate) fn end(&mut self, clock: u64)
        requires { CanEnd clock self.old }
        ensures { self.new ≡ ended clock self.old }
    {
        if let Some(since) = self.since {
            let wait = clock - since;
            self.count += 1;
            self.longest = self.longest.max(wait);
            self.sum += wait;
            self.since = None;
        }
    }

    /// Begins a wait. It ends the one that goes on, if one does.
    fn begin(&mut self, clock: u64)
        requires { CanEnd clock self.old }
        ensures { self.new ≡ begun clock self.old }
    {
        self.end(clock);
        self.since = Some(clock);
    }
}

/// Begins a wait of the task that an entry wakes, if it wakes one.
pub(crate) fn begin_woken(rows: &mut [TaskWaits], entry: Entry, clock: u64)
    requires row { IfSome (woken_by entry.event entry.reply) (λ pid. pid < length rows.old) }
    requires fits { All (CanEnd clock) rows.old }
    ensures { (pid : ℕ) (none : TaskWaits) → pid < length rows.old →
        slice_index_or rows.new pid none
        ≡ begun_where (wakes pid entry) clock (slice_index_or rows.old pid none) }
{
    if let Some(pid) = woken_by(entry) {
        rows[pid as usize].begin(clock);
    }
}

/// Ends the waits of the tasks that siblings run.
pub(crate) fn end_running<R: Room>(rows: &mut [TaskWaits], room: &R)
    requires playable { IsPlayable (R.opening room.now).scenario }
    requires events { AreEvents (R.opening room.now) (R.history room.now) }
    requires rows { (fold_of (R.opening room.now) (R.history room.now)).next_pid ≤ length rows.old }
    requires fits { let state = fold_of (R.opening room.now) (R.history room.now) in
        All (CanEnd state.clock) rows.old }
    ensures { let state = fold_of (R.opening room.now) (R.history room.now) in
        (pid : ℕ) (none : TaskWaits) → pid < length rows.old →
        slice_index_or rows.new pid none
        ≡ ended_where (runs_task state pid) state.clock (slice_index_or rows.old pid none) }
{
    let clock = room.clock();
    for cpu in 0..room.siblings() {
        if let Some(view) = room.cpu(cpu) {
            if view.run > 0 {
                rows[view.run as usize].end(clock);
            }
        }
    }
}

/// Ends all waits.
pub(crate) fn end_each(rows: &mut [TaskWaits], clock: u64)
    requires fits { All (CanEnd clock) rows.old }
    ensures { (pid : ℕ) (none : TaskWaits) → pid < length rows.old →
        slice_index_or rows.new pid none ≡ ended clock (slice_index_or rows.old pid none) }
{
    for row in rows.iter_mut() {
        row.end(clock);
    }
}
