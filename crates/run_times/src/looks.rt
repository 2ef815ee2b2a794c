//! What a machine shows of its siblings at a moment.

ghost use Rattle.std.specs.Prelude.{◌≡◌};
ghost use Rattle.std.specs.Option.{option_map};
ghost use Rattle.cs_types.specs.Scenario.{IsPlayable};
ghost use Rattle.cs_types.specs.Room as rooms;
ghost use Rattle.cs_types.specs.History.{fold_of, AreEvents};
ghost use Rattle.cs_types.specs.View.{task_view};
ghost use Rattle.run_times.specs.Doing as now;

use crate::by::By;
use crate::doing::Doing;
use cs_types::{Cookie, Cpu, Pid, Room, TaskView};

/// The living task with this pid. `None` if there is none.
fn task_of<R: Room>(room: &R, pid: Pid) -> Option<TaskView>
    requires { IsPlayable (R.opening room.now).scenario }
    ensures { let state = fold_of (R.opening room.now) (R.history room.now) in
        result ≡ option_map (task_view state) (rooms.task_of state pid) }
{
    if pid == 0 {
        return None;
    }
    match room.task_after(pid - 1) {
        Some(task) if task.pid == pid => Some(task),
        Some(_) => None,
        None => None,
    }
}

/// What the living task that a sibling runs is told apart by: its cookie, or its thread group. `None` if the sibling is
/// offline or runs no such task.
pub fn key_run<R: Room>(room: &R, by: By, cpu: Cpu) -> Option<u64>
    requires { IsPlayable (R.opening room.now).scenario }
    ensures { result ≡ now.key_run by (fold_of (R.opening room.now) (R.history room.now)) cpu }
{
    match room.cpu(cpu) {
        Some(view) if view.online => match task_of(room, view.run) {
            Some(task) => Some(by.key(task)),
            None => None,
        },
        Some(_) => None,
        None => None,
    }
}

/// The cookie of the living task that a sibling runs. `None` if it is offline or runs no such task.
pub fn cookie_run<R: Room>(room: &R, cpu: Cpu) -> Option<Cookie>
    requires { IsPlayable (R.opening room.now).scenario }
    ensures { result ≡ now.cookie_run (fold_of (R.opening room.now) (R.history room.now)) cpu }
{
    key_run(room, By::Cookie, cpu)
}

/// Whether a task is queued on a sibling.
fn has_queued<R: Room>(room: &R, cpu: Cpu) -> bool
    requires { IsPlayable (R.opening room.now).scenario }
    ensures { result ≡ now.has_queued (fold_of (R.opening room.now) (R.history room.now)) cpu }
{
    let mut pid = 0;
    while let Some(task) = room.task_after(pid) {
        if task.queued && task.cpu == cpu {
            return true;
        }
        pid = task.pid;
    }
    false
}

/// What a sibling does.
pub(crate) fn doing_of<R: Room>(room: &R, cpu: Cpu) -> Doing
    requires playable { IsPlayable (R.opening room.now).scenario }
    requires events { AreEvents (R.opening room.now) (R.history room.now) }
    ensures { result ≡ now.doing_of (fold_of (R.opening room.now) (R.history room.now)) cpu }
{
    match room.cpu(cpu) {
        Some(view) if view.online => match cookie_run(room, cpu) {
            Some(cookie) => Doing::Runs(cookie),
            None if has_queued(room, cpu) => Doing::ForcedIdle(room.core().cookie),
            None => Doing::Idles,
        },
        Some(_) => Doing::Offline,
        None => Doing::Offline,
    }
}

/// Whether a sibling is online and has a pending reschedule.
pub(crate) fn is_pending<R: Room>(room: &R, cpu: Cpu) -> bool
    ensures { result ≡ now.is_pending (fold_of (R.opening room.now) (R.history room.now)) cpu }
{
    match room.cpu(cpu) {
        Some(view) => view.online && view.pending,
        None => false,
    }
}

/// Whether some sibling is online and has a pending reschedule.
pub(crate) fn some_pending<R: Room>(room: &R) -> bool
    ensures { result ≡ now.some_pending (fold_of (R.opening room.now) (R.history room.now)) }
{
    for cpu in 0..room.siblings() {
        if is_pending(room, cpu) {
            return true;
        }
    }
    false
}

/// Whether some two siblings that are online and do not run idle run tasks that are told apart.
pub fn some_apart<R: Room>(room: &R, by: By) -> bool
    requires playable { IsPlayable (R.opening room.now).scenario }
    requires events { AreEvents (R.opening room.now) (R.history room.now) }
    ensures { result ≡ now.some_apart by (fold_of (R.opening room.now) (R.history room.now)) }
{
    let mut shared = None;
    for cpu in 0..room.siblings() {
        if let Some(key) = key_run(room, by, cpu) {
            match shared {
                None => shared = Some(key),
                Some(other) if other == key => {}
                Some(_) => return true,
            }
        }
    }
    false
}
