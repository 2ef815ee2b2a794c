//! The parts of the summary, side by side. One more part is a field, a line in `open`, and in `before` or in `after`,
//! and a clause of `ArePartsOf` or one of its own.

ghost use Rattle.std.specs.Prelude.{◌≡◌, ◌+◌, ◌*◌, ◌^◌, ◌<◌, ◌≤◌, [], ◌∷◌, ◌++◌, true, ℕ, length, sum_by, All, IfOk, slice_index_or};
ghost use Rattle.cs_types.specs.declared.reply.Entry.{Entry};
ghost use Rattle.cs_types.specs.Scenario.{IsEvent, IsPlayable};
ghost use Rattle.cs_types.specs.Room.{Opening};
ghost use Rattle.cs_types.specs.History.{fold_of, AreEvents};
ghost use Rattle.pair_times.specs.Pairs.{most_rows};
ghost use Rattle.task_times.specs.declared.times.TaskTimes.{TaskTimes};
ghost use Rattle.task_times.specs.Living.{lives};
ghost use Rattle.task_times.specs.TaskSums.{all_charged, lived};
ghost use Rattle.wait_times.specs.declared.rows.TaskWaits.{TaskWaits};
ghost use Rattle.wait_times.specs.Rows.{AreWaitsSoFar, AreWaitsBefore, AreWaitsBeforeEnd};
ghost use Rattle.run_summary.specs.Summaries.{spare_rows, ArePartsOf, IsSummaryOf};

use crate::replies::ReplyCounts;
use cs_types::{Entry, Event, OutOfMemory, Room, Step};
use pair_times::{PairTime, PairTimes};
use run_times::{By, RunTimes};
use std::alloc::Global;
use std::marker::Model;
use task_times::RunTasks;
use wait_times::RunWaits;

/// What is told of a run. After it is opened it takes no memory.
#[derive(Drop)]
pub struct RunSummary {
    times: RunTimes,
    cookie_pairs: PairTimes,
    group_pairs: PairTimes,
    /// What each was charged is noted at the end.
    tasks: RunTasks,
    waits: RunWaits,
    /// They are counted at the end.
    replies: ReplyCounts,
}

impl Model for RunSummary {
    ghost use Rattle.wait_times.specs.declared.rows.TaskWaits.{TaskWaits};
    ghost use Rattle.wait_times.specs.Rows.{AreWaitsSoFar, AreWaitsBefore, AreWaitsBeforeEnd};
    ghost use Rattle.run_summary.specs.Summaries.{Summary};

    ghost Value = { Summary };

    ghost view = { λ summary. record {
      times = summary.times;
      cookie_pairs = summary.cookie_pairs;
      group_pairs = summary.group_pairs;
      tasks = summary.tasks;
      waits = summary.waits;
      replies = summary.replies;
    } };
}

impl RunSummary {
    /// The parts of a core with this number of siblings, before the first step. They take the memory for what these
    /// steps, and the final drain, can add.
    pub(crate) fn open(alloc: Global, siblings: u8, steps: &[Step]) -> Result<Self, OutOfMemory>
        requires few { length steps.now < 2 ^ 25 }
        ensures parts { IfOk result
            (λ summary. (opening : Opening) → opening.scenario.siblings ≡ siblings →
            ArePartsOf opening [] summary) }
        ensures spare { IfOk result (λ summary.
            sum_by (λ step. most_rows siblings step.event) steps.now ≤ spare_rows summary) }
        ensures entries { IfOk result
            (λ summary. summary.tasks.entries ≡ length steps.now + siblings * siblings) }
        ensures waits { IfOk result
            (λ summary. (opening : Opening) → AreWaitsSoFar opening [] summary.waits) }
        ensures each { IfOk result (λ summary. summary.waits.entries ≡ summary.tasks.entries) }
    {
        let most = usize::from(siblings);
        Ok(RunSummary {
            times: RunTimes::open(alloc, siblings)?,
            cookie_pairs: PairTimes::open(alloc, By::Cookie, siblings, steps)?,
            group_pairs: PairTimes::open(alloc, By::Group, siblings, steps)?,
            tasks: RunTasks::open(alloc, steps.len() + most * most)?,
            waits: RunWaits::open(alloc, steps.len() + most * most)?,
            replies: ReplyCounts::none(),
        })
    }

    /// Takes in an event that is to be made next in the room.
    pub(crate) fn before<R: Room>(&mut self, room: &R, event: Event)
        requires playable { IsPlayable (R.opening room.now).scenario }
        requires events { AreEvents (R.opening room.now) (R.history room.now) }
        requires event { IsEvent (R.opening room.now).scenario.siblings event }
        requires parts { ArePartsOf (R.opening room.now) (R.history room.now) self.old }
        requires spare { most_rows (R.opening room.now).scenario.siblings event
            ≤ spare_rows self.old }
        requires few { length (R.history room.now) ≤ self.old.tasks.entries }
        requires fits { self.old.tasks.entries < 2 ^ 26 }
        ensures parts { (entry : Entry) → entry.event ≡ event →
            ArePartsOf (R.opening room.now) (R.history room.now ++ entry ∷ []) self.new }
        ensures spare { spare_rows self.old
            ≤ spare_rows self.new + most_rows (R.opening room.now).scenario.siblings event }
        ensures entries { self.new.tasks.entries ≡ self.old.tasks.entries }
        ensures waits { self.new.waits ≡ self.old.waits }
    {
        self.times.before(room, event);
        self.cookie_pairs.before(room, event);
        self.group_pairs.before(room, event);
        self.tasks.before(room, event);
    }

    /// Takes in the entry that was just made in the room.
    pub(crate) fn after<R: Room>(&mut self, room: &R, entry: Entry)
        requires playable { IsPlayable (R.opening room.now).scenario }
        requires events { AreEvents (R.opening room.now) (R.history room.now) }
        requires waits { AreWaitsBefore (R.opening room.now)
            (R.history room.now) entry self.old.waits }
        requires few { length (R.history room.now) ≤ self.old.waits.entries }
        requires fits { self.old.waits.entries < 2 ^ 26 }
        ensures waits { AreWaitsSoFar (R.opening room.now) (R.history room.now) self.new.waits }
        ensures entries { self.new.waits.entries ≡ self.old.waits.entries }
        ensures rest { self.new ≡ record self.old { waits = self.new.waits } }
    {
        self.waits.after(room, entry);
    }

    /// Notes what each task was charged, ends the waits, and counts the replies, in a room whose run is over.
    pub(crate) fn end<R: Room>(&mut self, room: &R)
        requires playable { IsPlayable (R.opening room.now).scenario }
        requires parts { ArePartsOf (R.opening room.now) (R.history room.now) self.old }
        requires events { AreEvents (R.opening room.now) (R.history room.now) }
        requires waits { AreWaitsBeforeEnd (R.opening room.now)
            (R.history room.now) self.old.waits }
        requires each { self.old.waits.entries ≡ self.old.tasks.entries }
        requires few { length (R.history room.now) ≤ self.old.tasks.entries }
        requires fits { self.old.tasks.entries < 2 ^ 26 }
        ensures summary { IsSummaryOf (R.opening room.now) (R.history room.now) self.new }

        // What a task of the scenario that lives at the end ran, waited and slept adds up to what the clock shows.
        ensures clock { let state = fold_of (R.opening room.now) (R.history room.now) in
            All (λ spec. lives spec.pid state ≡ true → (none : TaskTimes) →
            lived (slice_index_or self.new.tasks.tasks spec.pid none) ≡ state.clock)
            (R.opening room.now).scenario.tasks }

        // The waits of a task from a wake to its run are part of the time that it waited.
        ensures waited { (pid : ℕ) (waits : TaskWaits) (times : TaskTimes) →
            pid < length self.new.waits.rows →
            (slice_index_or self.new.waits.rows pid waits).sum
            ≤ (slice_index_or self.new.tasks.tasks pid times).by_doing.waited }

        // What all cookies are charged adds up to what all tasks are.
        ensures charged { sum_by (λ times. times.charged) self.new.tasks.cookies
            ≡ all_charged self.new.tasks.tasks }
    {
        self.tasks.close(room);
        self.waits.close(room);
        self.replies = ReplyCounts::of(room);
    }

    /// What held, and for how long.
    pub fn times(&self) -> &RunTimes
        ensures { result.now ≡ self.now.times }
    {
        &self.times
    }

    /// The pairs of cookies whose tasks ran side by side, by rising lower cookie, and then by rising higher one.
    pub fn cookie_pairs(&self) -> &[PairTime]
        ensures { result.now ≡ self.now.cookie_pairs.rows }
    {
        self.cookie_pairs.rows()
    }

    /// The pairs of thread groups whose tasks ran side by side, by rising lower pid of their leaders, and then by
    /// rising higher one.
    pub fn group_pairs(&self) -> &[PairTime]
        ensures { result.now ≡ self.now.group_pairs.rows }
    {
        self.group_pairs.rows()
    }

    /// What each task and the tasks of each cookie did and for how long, and what they were charged.
    pub fn tasks(&self) -> &RunTasks
        ensures { result.now ≡ self.now.tasks }
    {
        &self.tasks
    }

    /// How often and for how long each task waited from a wake to its run.
    pub fn waits(&self) -> &RunWaits
        ensures { result.now ≡ self.now.waits }
    {
        &self.waits
    }

    /// How many steps were refused, and how. The final drain is among them.
    pub fn replies(&self) -> &ReplyCounts
        ensures { result.now ≡ self.now.replies }
    {
        &self.replies
    }
}
