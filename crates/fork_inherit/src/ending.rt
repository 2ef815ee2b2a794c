//! The end of a task.

ghost use Rattle.std.specs.Prelude.{◌≡◌, ℕ, ◌==◌, ◌&&◌, IsTrue, filter, find, not, false, Some, IfSome, IsSomeAnd, OnOk, OnErr, if◌then◌else◌};
ghost use Rattle.std.specs.List.{list_any};
ghost use Rattle.cs_types.specs.declared.task.Task.{Task as SomeTask};
ghost use Rattle.cs_types.specs.Room.{RoomState, has_pid};
ghost use Rattle.cs_types.specs.Step.{has_threads};
ghost use Rattle.task_table.specs.Table.{total_in, IsSound};
ghost use Rattle.cookie_refs.specs.Refs.{Agree};
ghost use Rattle.fork_inherit.specs.Answers.{end_answer};

use cookie_refs::CookieRefs;
use cs_types::{Pid, Task};
use task_table::{Group, TaskTable};
use thiserror::Error;

/// The task leads a thread group that has another member, so it does not end.
#[derive(Debug, Drop, Error)]
#[error("the task leads a thread group that has another member")]
pub struct HasThreads;

/// Whether the thread group has a member that is not its leader. It is seldom asked, and walks over the group.
#[inline(never)]
fn has_others(table: &TaskTable, leader: Pid) -> bool
    ensures { result ≡ list_any (λ (task : SomeTask). (task.spec.tgid == leader)
        && not (has_pid leader task)) table.now.tasks }
{
    table
        .members(Group::Threads(leader))
        .any(|other| other.spec.pid != leader)
}

/// Whether the task, which is one of the table, leads a thread group that has another member. It is one of its group
/// itself, so if the group has no more than one member, the others need not be looked for.
#[inline(always)]
pub fn has_threads(table: &TaskTable, task: &Task) -> bool
    requires { find (has_pid task.now.spec.pid) table.now.tasks ≡ Some task.now }
    ensures { (room : RoomState) → room.tasks ≡ table.now.tasks →
        result ≡ has_threads room task.now }
{
    let leader = task.spec.pid;
    if task.spec.tgid != leader {
        return false;
    }
    if table.most_in(Group::Threads(leader)) <= 1 {
        return false;
    }
    has_others(table, leader)
}

/// The task with the pid, which is asleep and leads no thread group that has another member, is no longer among
/// the living (`do_exit`, kernel/exit.c), and the reference to its cookie is given back (`sched_core_free`,
/// kernel/sched/core_sched.c). It gives the task and what it was charged for forced idle, in ns.
#[inline(always)]
fn end_alone(table: &mut TaskTable, refs: &mut CookieRefs, pid: Pid) -> (Task, u64)
    requires asleep { IsSomeAnd (find (has_pid pid) table.old.tasks) (λ task. task.queued ≡ false) }
    requires alone { (room : RoomState) → room.tasks ≡ table.old.tasks →
        IfSome (find (has_pid pid) table.old.tasks) (λ task. has_threads room task ≡ false) }
    requires agree { Agree refs.old table.old.tasks }

    ensures task { find (has_pid pid) table.old.tasks ≡ Some result.0 }
    ensures forced { result.1 ≡ total_in table.old pid }
    ensures ended { table.new ≡ record table.old {
      tasks = filter (λ other. not (has_pid pid other)) table.old.tasks;
      totals = table.new.totals;
    } }
    ensures totals { (other : ℕ) →
        total_in table.new other ≡ (if other == pid then 0 else total_in table.old other) }

    ensures agree { Agree refs.new table.new.tasks }
    ensures next { refs.new.next ≡ refs.old.next }
    ensures limit { refs.new.limit ≡ refs.old.limit }
    ensures sound { IsSound table.new }
{
    let (task, forced) = table.remove(pid).unwrap();
    refs.put(task.cookie);
    (task, forced)
}

/// The task with the pid, which is asleep, ends as `end_alone` says.
///
/// `HasThreads` comes exactly if the task leads a thread group that has another member: there are no
/// zombies. It changes nothing.
#[inline(always)]
pub fn end(
    table: &mut TaskTable,
    refs: &mut CookieRefs,
    pid: Pid,
) -> Result<(Task, u64), HasThreads>
    requires asleep { IsSomeAnd (find (has_pid pid) table.old.tasks) (λ task. task.queued ≡ false) }
    requires agree { Agree refs.old table.old.tasks }

    ensures answer { (room : RoomState) (task : SomeTask) → room.tasks ≡ table.old.tasks →
        find (has_pid pid) table.old.tasks ≡ Some task →
        result ≡ end_answer room task (total_in table.old pid) }
    ensures ended { OnOk result (table.new ≡ record table.old {
      tasks = filter (λ other. not (has_pid pid other)) table.old.tasks;
      totals = table.new.totals;
    }) }
    ensures totals { OnOk result ((other : ℕ) → total_in table.new other
        ≡ (if other == pid then 0 else total_in table.old other)) }
    ensures unchanged { OnErr result (table.new ≡ table.old) }
    ensures same_refs { OnErr result (refs.new ≡ refs.old) }

    ensures agree { Agree refs.new table.new.tasks }
    ensures next { refs.new.next ≡ refs.old.next }
    ensures limit { refs.new.limit ≡ refs.old.limit }
    ensures sound { IsSound table.new }
{
    let task = table.find(pid).unwrap();
    if has_threads(table, task) {
        return Err(HasThreads);
    }
    Ok(end_alone(table, refs, pid))
}
