//! What a sibling's queue is asked. It is a trait, so that one text of the events serves every kind of queue.

ghost use Rattle.std.specs.Prelude.{◌≡◌, ◌==◌, ◌&&◌, ℕ, ◌+◌, ◌*◌, ◌≤◌, List, [], length, map, IfOk};
ghost use Rattle.std.specs.Option.{option_map};
ghost use Rattle.cs_types.specs.declared.queue.Queued.{Queued as SomeQueued};
ghost use Rattle.cs_types.specs.Order.{first_of};
ghost use Rattle.cs_types.specs.Queue.{queued_of};
ghost use Rattle.cs_types.specs.Scenario.{IsPolicy};
ghost use Rattle.core_lanes.specs.Queued.{queued_among, queued_at, mover_of, AreTold, others, given_cookie, given_vtime, IsQueuedOn, IsFairOn, MayBePut, with_cookie, behind, smallest_vtime, has_peer, MaySearch, MayFind, MayCompare};
ghost use Rattle.core_lanes.specs.Moved.{MayRenew};

use cs_types::{Cookie, Cpu, OutOfMemory, Pid, Queued, Steps, Task};
use std::alloc::Global;
use std::sync::ledger::Ledger;
use task_table::TaskTable;

/// The most tasks that live at once.
pub const MOST_TASKS: usize = 256;

/// The queued tasks of one sibling (`struct rq`). The tasks themselves stand in a table, which each call is handed:
/// what the queue is asked is answered of the tasks that the table has queued on the sibling, and the queue has to hold
/// these. A call that looks for a task is handed a counter for its comparisons, and makes at most as many as the queue
/// says for its number of tasks.
pub trait SiblingQueue: Drop {
    /// That it holds these tasks, and can take this number in all.
    ghost holds: { Self → ℕ → List SomeQueued → Type 0 };

    /// The most comparisons of one call, by the number of queued tasks.
    ghost most_compared: { ℕ → ℕ };

    /// A queue with no task, which can take `most`, a count. This call alone takes memory.
    fn with_capacity(alloc: Global, most: u16) -> Result<Self, OutOfMemory>
        ensures { IfOk result (λ queue. holds queue most []) };

    /// The task, which the table has queued on the sibling, enters.
    fn put<L: Ledger>(
        &mut self,
        table: &TaskTable,
        cpu: Cpu,
        task: &Task,
        comparisons: &mut Steps<L>,
    )
        requires { MayBePut (holds self.old) cpu table.now task.now }
        ensures holds { holds self.new table.now.limit (queued_at table.now.tasks cpu) }
        ensures counted { comparisons.new ≤ comparisons.old
            + most_compared (length (queued_among table.now.tasks cpu)) };

    /// The task, which the table has queued on the sibling, leaves.
    fn take<L: Ledger>(
        &mut self,
        table: &TaskTable,
        cpu: Cpu,
        task: &Task,
        comparisons: &mut Steps<L>,
    )
        requires { IsQueuedOn (holds self.old) cpu table.now task.now }
        ensures holds { holds self.new table.now.limit
            (others task.now.spec.pid (queued_at table.now.tasks cpu)) }
        ensures counted { comparisons.new ≤ comparisons.old
            + most_compared (length (queued_among table.now.tasks cpu)) };

    /// The task, which the table has queued on the sibling, is about to have this cookie there
    /// (`sched_core_update_cookie`).
    fn set_cookie<L: Ledger>(
        &mut self,
        table: &TaskTable,
        cpu: Cpu,
        task: &Task,
        cookie: Cookie,
        comparisons: &mut Steps<L>,
    )
        requires { IsQueuedOn (holds self.old) cpu table.now task.now }
        ensures holds { holds self.new table.now.limit
            (queued_at (given_cookie task.now cookie table.now.tasks) cpu) }
        ensures counted { comparisons.new ≤ comparisons.old
            + most_compared (length (queued_among table.now.tasks cpu)) };

    /// The task, a fair one that the table has queued on the sibling, is about to have this virtual time there, in
    /// ns (`update_curr`). It may leave and enter, so it makes at most twice as many comparisons as another call.
    fn set_vtime<L: Ledger>(
        &mut self,
        table: &TaskTable,
        cpu: Cpu,
        task: &Task,
        vtime: u128,
        comparisons: &mut Steps<L>,
    )
        requires { IsFairOn (holds self.old) cpu table.now task.now }
        ensures holds { holds self.new table.now.limit
            (queued_at (given_vtime task.now vtime table.now.tasks) cpu) }
        ensures counted { comparisons.new ≤ comparisons.old
            + 2 * most_compared (length (queued_among table.now.tasks cpu)) };

    /// Every task leaves. It can take as many in all as before.
    fn clear(&mut self, table: &TaskTable, cpu: Cpu)
        requires { holds self.old table.now.limit (queued_at table.now.tasks cpu) }
        ensures { holds self.new table.now.limit [] };

    /// Writes the pid of each task, by rising stamp, into a list that has as many places.
    fn tell_into(&self, table: &TaskTable, cpu: Cpu, movers: &mut [Pid])
        requires each { length movers.old ≡ length (queued_among table.now.tasks cpu) }
        requires few { length (queued_among table.now.tasks cpu) ≤ 256 }
        requires holds { holds self.now table.now.limit (queued_at table.now.tasks cpu) }
        ensures told { AreTold (map mover_of (queued_among table.now.tasks cpu)) movers.new };

    /// All tasks that it holds have moved to the sibling in the table, in the order in which they stand. It holds them
    /// as they are now. It makes at most three times as many comparisons as another call. The list may show it in which
    /// order they moved; nothing that it promises rests on that.
    fn renew<L: Ledger>(
        &mut self,
        table: &TaskTable,
        cpu: Cpu,
        movers: &[Pid],
        comparisons: &mut Steps<L>,
    )
        requires { MayRenew (holds self.old table.now.limit) cpu table.now }
        ensures holds { holds self.new table.now.limit (queued_at table.now.tasks cpu) }
        ensures counted { comparisons.new ≤ comparisons.old
            + 3 * most_compared (length (queued_among table.now.tasks cpu)) };

    /// The first task, `None` if there is none (`pick_task`).
    fn first<L: Ledger>(
        &self,
        table: &TaskTable,
        cpu: Cpu,
        comparisons: &mut Steps<L>,
    ) -> Option<Queued>
        requires { MaySearch (holds self.now) cpu table.now }
        ensures answer { result ≡ option_map queued_of
            (first_of (queued_among table.now.tasks cpu)) }
        ensures counted { comparisons.new ≤ comparisons.old
            + most_compared (length (queued_among table.now.tasks cpu)) };

    /// The first task with the cookie, which is not 0 (`sched_core_find`).
    fn first_with<L: Ledger>(
        &self,
        cookie: Cookie,
        table: &TaskTable,
        cpu: Cpu,
        comparisons: &mut Steps<L>,
    ) -> Option<Queued>
        requires { MayFind (holds self.now) cpu table.now cookie }
        ensures answer { result ≡ option_map queued_of
            (first_of (with_cookie cookie (queued_among table.now.tasks cpu))) }
        ensures counted { comparisons.new ≤ comparisons.old
            + most_compared (length (queued_among table.now.tasks cpu)) };

    /// The first task with the cookie of this one, which is not 0, that stands after it (`sched_core_next`).
    fn next_with<L: Ledger>(
        &self,
        task: &Task,
        table: &TaskTable,
        cpu: Cpu,
        comparisons: &mut Steps<L>,
    ) -> Option<Task>
        requires policy { IsPolicy task.now.spec.policy }
        requires find { MayFind (holds self.now) cpu table.now task.now.cookie }
        ensures answer { result ≡ first_of
            (behind task.now (with_cookie task.now.cookie (queued_among table.now.tasks cpu))) }
        ensures counted { comparisons.new ≤ comparisons.old
            + most_compared (length (queued_among table.now.tasks cpu)) };

    /// The smallest virtual time of the fair tasks, in ns, `None` if there is none (`update_min_vruntime`).
    fn smallest_vtime<L: Ledger>(
        &self,
        table: &TaskTable,
        cpu: Cpu,
        comparisons: &mut Steps<L>,
    ) -> Option<u128>
        requires { MaySearch (holds self.now) cpu table.now }
        ensures answer { result ≡ smallest_vtime (queued_among table.now.tasks cpu) }
        ensures counted { comparisons.new ≤ comparisons.old
            + most_compared (length (queued_among table.now.tasks cpu)) };

    /// Whether there is another task of the class of this one, and among real-time tasks one of its priority.
    fn has_peer<L: Ledger>(
        &self,
        task: &Task,
        table: &TaskTable,
        cpu: Cpu,
        comparisons: &mut Steps<L>,
    ) -> bool
        requires { MayCompare (holds self.now) cpu table.now task.now }
        ensures answer { result ≡ has_peer task.now (queued_among table.now.tasks cpu) }
        ensures counted { comparisons.new ≤ comparisons.old
            + most_compared (length (queued_among table.now.tasks cpu)) };

    /// How many tasks there are (`nr_running`).
    fn count(&self, table: &TaskTable, cpu: Cpu) -> u32
        requires { holds self.now table.now.limit (queued_at table.now.tasks cpu) }
        ensures { result ≡ length (queued_among table.now.tasks cpu) };

    /// More tasks never lower the most comparisons.
    ghost rises: { (few many : ℕ) → few ≤ many → most_compared few ≤ most_compared many };
}

/// Whether the task is queued on the sibling.
pub fn is_on(task: &Task, cpu: Cpu) -> bool
    ensures { result ≡ (task.now.queued && task.now.home == cpu) }
{
    task.queued && task.home == cpu
}
