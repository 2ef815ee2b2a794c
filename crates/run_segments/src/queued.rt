//! On which siblings a task is queued. It is asked seldom, and then of all siblings in one walk of the tasks.

ghost use Rattle.std.specs.Prelude.{◌≡◌, ◌<◌, ℕ, Bool, true, false, length, slice_index_or, IfOk, ◌==◌, ◌&&◌, ◌||◌};
ghost use Rattle.cs_types.specs.Scenario.{IsPlayable};
ghost use Rattle.cs_types.specs.Room.{RoomState};
ghost use Rattle.cs_types.specs.History.{fold_of};
ghost use Rattle.run_times.specs.Doing.{has_queued};
ghost use Rattle.run_segments.specs.Kept.{AreMarksOf};

use cs_types::{Cpu, Room, TaskView};
use std::alloc::{AllocError, Global};
use std::marker::Model;

/// On which siblings a task is queued, as far as that is known.
#[derive(Drop)]
pub(crate) struct Queued {
    /// For each sibling, as it was when this was last asked.
    marks: Vec<bool>,
    /// Whether that is still so.
    is_known: bool,
}

impl Model for Queued {
    ghost use Rattle.run_segments.specs.Kept.{Marks};

    ghost Value = { Marks };

    ghost view = { λ queued. record { marks = queued.marks.items; is_known = queued.is_known } };
}

/// Marks the home of a task that is queued.
fn mark_home(marks: &mut [bool], task: TaskView)
    ensures { (cpu : ℕ) (none : Bool) → cpu < length marks.old →
        slice_index_or marks.new cpu none
        ≡ (slice_index_or marks.old cpu none || (task.queued && (task.cpu == cpu))) }
{
    let home = usize::from(task.cpu);
    if task.queued && home < marks.len() {
        marks[home] = true;
    }
}

/// Marks the siblings on which a task is queued, and no other.
fn mark_queued<R: Room>(room: &R, marks: &mut [bool])
    requires { IsPlayable (R.opening room.now).scenario }
    ensures { (cpu : ℕ) (none : Bool) → cpu < length marks.old →
        slice_index_or marks.new cpu none
        ≡ has_queued (fold_of (R.opening room.now) (R.history room.now)) cpu }
{
    marks.fill(false);
    let mut pid = 0;
    while let Some(task) = room.task_after(pid) {
        mark_home(marks, task);
        pid = task.pid;
    }
}

impl Queued {
    /// Nothing is known yet of a core with this number of siblings.
    pub(crate) fn none(alloc: Global, siblings: u8) -> Result<Self, AllocError>
        ensures { IfOk result (λ queued. (room : RoomState) → AreMarksOf siblings room queued) }
    {
        Ok(Queued {
            marks: vec![in alloc; false; usize::from(siblings)]?,
            is_known: false,
        })
    }

    /// Whether a task is queued on a sibling.
    pub(crate) fn on<R: Room>(&mut self, room: &R, cpu: Cpu) -> bool
        requires playable { IsPlayable (R.opening room.now).scenario }
        requires cpu { cpu < (R.opening room.now).scenario.siblings }
        requires marks { let opening = R.opening room.now in
            AreMarksOf opening.scenario.siblings (fold_of opening (R.history room.now)) self.old }
        ensures queued { result
            ≡ has_queued (fold_of (R.opening room.now) (R.history room.now)) cpu }
        ensures marks { let opening = R.opening room.now in
            AreMarksOf opening.scenario.siblings (fold_of opening (R.history room.now)) self.new }
    {
        if !self.is_known {
            mark_queued(room, self.marks.as_mut_slice());
            self.is_known = true;
        }
        self.marks[usize::from(cpu)]
    }

    /// Takes in that tasks may be queued elsewhere from now on.
    pub(crate) fn forget(&mut self)
        ensures { (siblings : ℕ) (before now : RoomState) →
            AreMarksOf siblings before self.old → AreMarksOf siblings now self.new }
    {
        self.is_known = false;
    }
}
