//! What a machine shows of a task at a moment.

ghost use Rattle.std.specs.Prelude.{◌≡◌, Some};
ghost use Rattle.std.specs.Option.{option_map};
ghost use Rattle.cs_types.specs.Scenario.{IsPlayable};
ghost use Rattle.cs_types.specs.Room as rooms;
ghost use Rattle.cs_types.specs.Time as time;
ghost use Rattle.cs_types.specs.History.{fold_of, AreEvents};
ghost use Rattle.cs_types.specs.View.{task_view};
ghost use Rattle.task_times.specs.Living as living;

use crate::doing::TaskDoing;
use cs_types::{Room, TaskView};

/// Whether a sibling runs a living task, by what is shown of it. What a sibling runs is queued on it, so only the home
/// of the task can run it.
fn is_running<R: Room>(room: &R, task: TaskView) -> bool
    requires playable { IsPlayable (R.opening room.now).scenario }
    requires events { AreEvents (R.opening room.now) (R.history room.now) }
    requires shown { let state = fold_of (R.opening room.now) (R.history room.now) in
        Some task ≡ option_map (task_view state) (rooms.task_of state task.pid) }
    ensures { let state = fold_of (R.opening room.now) (R.history room.now) in
        Some result ≡ option_map (time.is_running state) (rooms.task_of state task.pid) }
{
    match room.cpu(task.cpu) {
        Some(home) => home.run == task.pid,
        None => false,
    }
}

/// What a living task does, by what is shown of it.
pub(crate) fn doing_of<R: Room>(room: &R, task: TaskView) -> TaskDoing
    requires playable { IsPlayable (R.opening room.now).scenario }
    requires events { AreEvents (R.opening room.now) (R.history room.now) }
    requires shown { let state = fold_of (R.opening room.now) (R.history room.now) in
        Some task ≡ option_map (task_view state) (rooms.task_of state task.pid) }
    ensures { Some result
        ≡ living.doing_at (fold_of (R.opening room.now) (R.history room.now)) task.pid }
{
    if is_running(room, task) {
        TaskDoing::Runs
    } else if task.queued {
        TaskDoing::Waits
    } else {
        TaskDoing::Sleeps
    }
}
