//! The first of the tasks of a queue, which is asked for more often than it changes: it stands beside the trees. It
//! is apart, since it knows these by their contract alone.

ghost use Rattle.std.specs.Prelude.{◌≡◌, ◌+◌, ◌≤◌, List, Some, All};
ghost use Rattle.std.specs.FinMap as map;
ghost use Rattle.std.specs.Option.{option_map};
ghost use Rattle.cs_types.specs.Comparisons.{most_comparisons};
ghost use Rattle.cs_types.specs.declared.queue.Queued.{Queued as SomeQueued};
ghost use Rattle.tree_queue.specs.Held.{seated, is_before, earlier, first_among, is_of, given_cookie, IsIn, IsInBut};

use cs_types::{Cookie, Pid, Queued, Steps};
use order_tree::{Closed, Key};
use run_queue::{RunQueue, queued_of};
use std::sync::ledger::Ledger;
use task_table::TaskTable;

/// The key of the task, as one tree of all tasks of its sibling would have it.
#[inline(always)]
fn key_of(task: &Queued) -> Key
    ensures { result ≡ record {
      group = 0;
      class = task.now.class;
      rank = task.now.rank;
      stamp = task.now.stamp;
    } }
{
    Key {
        group: 0,
        class: task.class,
        rank: task.rank,
        stamp: task.stamp,
    }
}

/// Whether the task stands before the other, as a tree has them: its class is smaller, or in one class its rank, or
/// at one rank its stamp.
#[inline(always)]
fn is_before(task: &Queued, other: &Queued) -> bool
    ensures { result ≡ is_before task.now other.now }
{
    key_of(task).is_below(&key_of(other))
}

/// A task enters: it is the first, unless the first is before it.
#[inline(always)]
pub fn enter<L: Ledger>(first: &mut Option<Queued>, task: Queued, comparisons: &mut Steps<L>)
    ensures first { first.new ≡ Some (earlier task first.old) }
    ensures counted { comparisons.new ≤ comparisons.old + 1 }
{
    if let Some(kept) = first {
        comparisons.tick();
        if is_before(kept, &task) {
            return;
        }
    }
    *first = Some(task);
}

/// Whether the first is the task with the pid.
#[inline(always)]
pub fn is_of(first: &Option<Queued>, pid: Pid) -> bool
    ensures { result ≡ is_of pid first.now }
{
    match first {
        Some(task) => task.pid == pid,
        None => false,
    }
}

/// The first has the cookie, if it is the task with the pid.
#[inline(always)]
pub fn give_cookie(first: &mut Option<Queued>, pid: Pid, cookie: Cookie)
    ensures { first.new ≡ option_map (given_cookie pid cookie) first.old }
{
    if let Some(task) = first {
        if task.pid == pid {
            task.cookie = cookie;
        }
    }
}

/// The first of the tasks that the trees hold, of which the table has what else a queue has.
pub fn find_first<L: Ledger>(
    run: &RunQueue<Closed>,
    table: &TaskTable,
    comparisons: &mut Steps<L>,
) -> Option<Queued>
    ensures first { (tasks : List SomeQueued) → run.now.tasks ≡ seated tasks →
        All (IsIn table.now.tasks) tasks → result ≡ first_among tasks }
    ensures counted { comparisons.new
        ≤ comparisons.old + most_comparisons (map.len run.now.tasks) + 6 }
{
    let task = table.find(run.first(comparisons)?)?;
    Some(queued_of(task))
}

/// The same if this is one of the tasks, which the table does not have so yet. It is not looked up.
pub fn find_first_with<L: Ledger>(
    run: &RunQueue<Closed>,
    task: Queued,
    table: &TaskTable,
    comparisons: &mut Steps<L>,
) -> Option<Queued>
    ensures first { (tasks : List SomeQueued) → run.now.tasks ≡ seated tasks →
        All (IsInBut table.now.tasks task) tasks → result ≡ first_among tasks }
    ensures counted { comparisons.new
        ≤ comparisons.old + most_comparisons (map.len run.now.tasks) + 6 }
{
    let pid = run.first(comparisons)?;
    if pid == task.pid {
        return Some(task);
    }
    let other = table.find(pid)?;
    Some(queued_of(other))
}
