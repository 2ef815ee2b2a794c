//! The waits of the tasks of a run, as it goes on.

ghost use Rattle.std.specs.Prelude.{◌≡◌, ◌+◌, ◌-◌, ◌^◌, ◌<◌, ◌≤◌, ℕ, [], length, IfOk, slice_index_or};
ghost use Rattle.cs_types.specs.Room.{Opening};
ghost use Rattle.cs_types.specs.Scenario.{IsPlayable};
ghost use Rattle.cs_types.specs.History.{AreEvents};
ghost use Rattle.run_times.specs.Times.{spans_of, time_in};
ghost use Rattle.task_times.specs.Living as living;
ghost use Rattle.task_times.specs.TaskSums.{does_so};
ghost use Rattle.wait_times.specs.Rows.{waits_of, AreWaitsSoFar, AreWaitsBefore, AreWaitsBeforeEnd};

use crate::rows::{TaskWaits, begin_woken, end_each, end_running};
use cs_types::{Entry, Room};
use run_times::advance_of;
use std::alloc::{AllocError, Global};
use std::marker::Model;

/// How often and for how long each task of a run waited from a wake until a sibling ran it. After
/// it is opened it takes no memory.
#[derive(Drop)]
pub struct RunWaits {
    /// By the pid.
    rows: Vec<TaskWaits>,
}

impl Model for RunWaits {
    ghost use Rattle.std.specs.Prelude.{◌-◌, ◌^◌, ◌<◌, length};
    ghost use Rattle.wait_times.specs.Rows.{Waits};

    ghost Value = { Waits };

    ghost view = { λ waits. record {
      entries = length waits.rows.items - 10000;
      rows = waits.rows.items;
    } };

    ghost invariant = { λ waits. length waits.rows.items < 2 ^ 32 };
}

impl RunWaits {
    /// The waits before the first entry, for this number of entries.
    pub fn open(alloc: Global, entries: usize) -> Result<Self, AllocError>
        requires { entries < 2 ^ 26 }
        ensures entries { IfOk result (λ waits. waits.entries ≡ entries) }
        ensures waits { IfOk result (λ waits.
            (opening : Opening) → AreWaitsSoFar opening [] waits) }
    {
        Ok(RunWaits {
            rows: vec![in alloc; TaskWaits::none(); entries + 10000]?,
        })
    }

    /// Takes in the entry that was just made in the room, whoever made it. The room has to be the
    /// one whose waits these are, and may have made as many entries as these were opened for.
    pub fn after<R: Room>(&mut self, room: &R, entry: Entry)
        requires playable { IsPlayable (R.opening room.now).scenario }
        requires events { AreEvents (R.opening room.now) (R.history room.now) }
        requires waits { AreWaitsBefore (R.opening room.now) (R.history room.now) entry self.old }
        requires few { length (R.history room.now) ≤ self.old.entries }
        requires fits { self.old.entries < 2 ^ 26 }
        ensures waits { AreWaitsSoFar (R.opening room.now) (R.history room.now) self.new }
        ensures entries { self.new.entries ≡ self.old.entries }
    {
        let rows = self.rows.as_mut_slice();
        begin_woken(rows, entry, room.clock());
        // At an advance each sibling runs on what it runs.
        if advance_of(entry.event).is_none() {
            end_running(rows, room);
        }
    }

    /// Ends the waits that go on, in a room whose run is over: the entries of the final drain are
    /// made. The room has to be the one whose waits these are, and may have made as many entries as
    /// these were opened for.
    pub fn close<R: Room>(&mut self, room: &R)
        requires playable { IsPlayable (R.opening room.now).scenario }
        requires events { AreEvents (R.opening room.now) (R.history room.now) }
        requires waits { AreWaitsBeforeEnd (R.opening room.now) (R.history room.now) self.old }
        requires few { length (R.history room.now) ≤ self.old.entries }
        requires fits { self.old.entries < 2 ^ 26 }
        ensures waits { self.new
            ≡ waits_of self.old.entries (R.opening room.now) (R.history room.now) }

        // In its waits a task is queued, and no sibling runs it. So together they are part of the
        // time that it waited.
        ensures waited { let spans = spans_of (R.opening room.now) (R.history room.now) in
            (pid : ℕ) (none : TaskWaits) → pid < length self.new.rows →
            (slice_index_or self.new.rows pid none).sum ≤ time_in (does_so living.waits pid) spans }
    {
        end_each(self.rows.as_mut_slice(), room.clock());
    }

    /// The waits of each task, by its pid.
    pub fn rows(&self) -> &[TaskWaits]
        ensures rows { result.now ≡ self.now.rows }
        ensures few { length result.now < 2 ^ 32 }
    {
        self.rows.as_slice()
    }
}
