//! A fork: a child with what it inherits.

ghost use Rattle.std.specs.Prelude.{◌≡◌, ℕ, ◌≢◌, ◌==◌, length, find, None, Some, OnOk, OnErr};
ghost use Rattle.cs_types.specs.declared.task.Task.{Task as SomeTask};
ghost use Rattle.cs_types.specs.Room.{asleep, has_pid, inserted};
ghost use Rattle.cs_types.specs.Order.{deadline_class, class_of};
ghost use Rattle.cs_types.specs.Step.{child_spec, child_of};
ghost use Rattle.task_table.specs.Table.{total_in, IsSound};
ghost use Rattle.cookie_refs.specs.Refs.{Agree};
ghost use Rattle.fork_inherit.specs.Answers.{fork_answer};

use cookie_refs::CookieRefs;
use cs_types::{Cookie, Pid, Policy, Task, TaskSpec};
use task_table::TaskTable;
use thiserror::Error;

/// Why there is no child.
#[derive(Debug, Drop, Error)]
pub enum ForkFault {
    /// No living task has the caller's pid.
    #[error("no living task has the caller's pid")]
    NoCaller,
    /// The caller is there, and as many tasks live as may, or the caller is a deadline task.
    #[error("as many tasks live as may, or the caller is a deadline task")]
    Eagain,
}

/// The line of a child as it is born: at home where its caller is, with its caller's policy, credentials and
/// process group. A thread is in its caller's thread group, and a process leads its own.
fn child_spec(caller: &Task, thread: bool, pid: Pid) -> TaskSpec
    ensures { result ≡ child_spec caller.now thread pid }
{
    TaskSpec {
        pid,
        tgid: if thread { caller.spec.tgid } else { pid },
        pgid: caller.spec.pgid,
        cpu: caller.home,
        policy: caller.spec.policy,
        creds: caller.spec.creds,
    }
}

/// Whether the policy is a deadline task's.
fn is_deadline(policy: Policy) -> bool
    ensures { result ≡ (class_of policy == deadline_class) }
{
    matches!(policy, Policy::Deadline(_))
}

/// Puts a task with the cookie, asleep and with all numbers 0, into a table that has a slot left and no task with its
/// pid.
fn insert(table: &mut TaskTable, spec: TaskSpec, cookie: Cookie)
    requires free { find (has_pid spec.pid) table.old.tasks ≡ None }
    requires spare { length table.old.tasks ≢ table.old.limit }
    ensures inserted { table.new ≡ record table.old {
      tasks = inserted (record (asleep spec) { cookie = cookie }) table.old.tasks;
      totals = table.new.totals;
    } }
    ensures totals { (pid : ℕ) → total_in table.new pid ≡ total_in table.old pid }
    ensures sound { IsSound table.new }
{
    table.add(spec).unwrap();
    table.give_cookie(spec.pid, cookie);
}

/// The task with the pid `caller` gets a child with the pid `child`, a thread of its group or a
/// process of its own (`copy_process`, kernel/fork.c). The child has its caller's cookie and one
/// reference to it (`sched_core_fork`, kernel/sched/core_sched.c), and was charged nothing.
///
/// `NoCaller` comes exactly if no living task has the pid of the caller, and else `Eagain` exactly if
/// there are `limit` tasks, 0 to 65535, or the caller is a deadline task (`sched_fork`,
/// kernel/sched/core.c). An `Err` changes nothing.
pub fn fork(
    table: &mut TaskTable,
    refs: &mut CookieRefs,
    limit: u16,
    caller: Pid,
    thread: bool,
    child: Pid,
) -> Result<(), ForkFault>
    requires limit { table.old.limit ≡ limit }
    requires unused { find (has_pid child) table.old.tasks ≡ None }
    requires agree { Agree refs.old table.old.tasks }

    ensures answer { result ≡ fork_answer table.old (find (has_pid caller) table.old.tasks) }
    ensures child { (by : SomeTask) → find (has_pid caller) table.old.tasks ≡ Some by →
        OnOk result (table.new ≡ record table.old {
          tasks = inserted (child_of by thread child) table.old.tasks;
          totals = table.new.totals;
        }) }
    ensures totals { (pid : ℕ) → total_in table.new pid ≡ total_in table.old pid }
    ensures unchanged { OnErr result (table.new ≡ table.old) }
    ensures same_refs { OnErr result (refs.new ≡ refs.old) }

    ensures agree { Agree refs.new table.new.tasks }
    ensures next { refs.new.next ≡ refs.old.next }
    ensures limit { refs.new.limit ≡ refs.old.limit }
    ensures sound { IsSound table.new }
{
    let Some(by) = table.find(caller).copied() else {
        return Err(ForkFault::NoCaller);
    };
    if table.len() == limit || is_deadline(by.spec.policy) {
        return Err(ForkFault::Eagain);
    }
    insert(table, child_spec(&by, thread, child), by.cookie);
    refs.get(by.cookie);
    Ok(())
}
