//! What the tasks that run side by side are told apart by.

ghost use Rattle.std.specs.Prelude.{◌≡◌};
ghost use Rattle.cs_types.specs.declared.task.Task.{Task};
ghost use Rattle.cs_types.specs.Room.{RoomState};
ghost use Rattle.cs_types.specs.View.{task_view};
ghost use Rattle.run_times.specs.Doing as now;

use cs_types::TaskView;

/// What the tasks that run side by side are told apart by.
#[derive(Clone, Copy)]
pub enum By {
    /// By the cookie, 0 for none.
    Cookie,
    /// By the thread group, which is a process: the whole of a guest, say.
    Group,
}

impl By {
    /// The number of what a task is told apart by: its cookie, or the pid that leads its thread group.
    pub(crate) fn key(self, task: TaskView) -> u64
        ensures { (room : RoomState) (of : Task) → task ≡ task_view room of →
            result ≡ now.key_of self of }
    {
        match self {
            By::Cookie => task.cookie,
            By::Group => u64::from(task.tgid),
        }
    }
}
