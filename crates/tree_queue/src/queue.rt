//! The queue with trees: each question is answered from the ordered trees of a run queue, and the table has the task of
//! a pid.

ghost use Rattle.std.specs.Prelude.{◌≡◌, ◌≤◌, [], length, map, IfOk};
ghost use Rattle.std.specs.FinMap.{entries, len};
ghost use Rattle.core_lanes.specs.Queued.{AreTold};
ghost use Rattle.run_queue.specs.Classes.{stamped};
ghost use Rattle.tree_queue.specs.Held.{Holds};

use crate::arrivals::Arrivals;
use crate::first::{enter, find_first, find_first_with, give_cookie, is_of};
use crate::renewed::Renewed;
use crate::task::{KINDS, LOTS, kind_of, lot_of};
use crate::told_tasks::ToldTasks;
use core_lanes::{SiblingQueue, is_on, task_of, tell_by_stamp};
use cs_types::{Cookie, Cpu, OutOfMemory, Pid, Queued, Steps, Task};
use order_tree::Closed;
use run_queue::{RunQueue, queued_of};
use std::alloc::Global;
use std::sync::ledger::Ledger;
use task_table::TaskTable;

/// The queued tasks of a sibling in ordered trees, the first of them, and how many there are of each kind and with
/// cookies of each lot. A cookie of which no task has the lot is not looked for.
#[derive(Drop)]
pub struct TreeQueue {
    run: RunQueue<Closed>,
    /// The first task, none if there is no task.
    first: Option<Queued>,
    kinds: [u16; KINDS],
    lots: [u16; LOTS],
    /// The tasks that came, of which some may have left.
    arrivals: Arrivals,
}

impl SiblingQueue for TreeQueue {
    ghost use Rattle.tree_queue.specs.Held.{Keeps};
    ghost use Rattle.tree_queue.specs.Comparisons.{most_of_call};
    ghost use Rattle.cs_types.proofs.Comparisons.{most_comparisons-le};
    ghost use Rattle.std.proofs.Math.Nat.{mul-le-mul_left};

    ghost holds = { λ queue most tasks. Keeps queue.run
        queue.first queue.kinds queue.lots most tasks };

    ghost most_compared = { most_of_call };

    fn with_capacity(alloc: Global, most: u16) -> Result<TreeQueue, OutOfMemory> {
        let arrivals = Arrivals::with_capacity(alloc, most)?;
        let run = run_with_capacity(alloc, most)?;
        Ok(TreeQueue {
            run,
            first: None,
            kinds: [0; KINDS],
            lots: [0; LOTS],
            arrivals,
        })
    }

    fn put<L: Ledger>(
        &mut self,
        _table: &TaskTable,
        _cpu: Cpu,
        task: &Task,
        comparisons: &mut Steps<L>,
    ) {
        let queued = queued_of(task);
        enter(&mut self.first, queued, comparisons);
        self.run.enqueue(queued, comparisons);
        self.kinds[kind_of(task)] += 1;
        self.lots[lot_of(task.cookie)] += 1;
        self.arrivals.note(task.stamp, task.spec.pid);
    }

    fn take<L: Ledger>(
        &mut self,
        table: &TaskTable,
        _cpu: Cpu,
        task: &Task,
        comparisons: &mut Steps<L>,
    ) {
        self.run.dequeue(&queued_of(task), comparisons);
        self.kinds[kind_of(task)] -= 1;
        self.lots[lot_of(task.cookie)] -= 1;
        if is_of(&self.first, task.spec.pid) {
            self.first = find_first(&self.run, table, comparisons);
        }
    }

    #[inline(always)]
    fn set_cookie<L: Ledger>(
        &mut self,
        _table: &TaskTable,
        _cpu: Cpu,
        task: &Task,
        cookie: Cookie,
        comparisons: &mut Steps<L>,
    ) {
        self.run.set_cookie(&queued_of(task), cookie, comparisons);
        give_cookie(&mut self.first, task.spec.pid, cookie);
        self.lots[lot_of(task.cookie)] -= 1;
        self.lots[lot_of(cookie)] += 1;
    }

    #[inline(always)]
    fn set_vtime<L: Ledger>(
        &mut self,
        table: &TaskTable,
        _cpu: Cpu,
        task: &Task,
        vtime: u128,
        comparisons: &mut Steps<L>,
    ) {
        let queued = queued_of(task);
        let rank = fair_queue::rank(vtime);
        self.run.set_fair_rank(&queued, rank, comparisons);
        let later = Queued { rank, ..queued };
        if is_of(&self.first, task.spec.pid) {
            self.first = find_first_with(&self.run, later, table, comparisons);
        } else {
            enter(&mut self.first, later, comparisons);
        }
    }

    fn clear(&mut self, _table: &TaskTable, _cpu: Cpu) {
        self.run.clear();
        self.arrivals.clear();
        self.first = None;
        self.kinds = [0; KINDS];
        self.lots = [0; LOTS];
    }

    fn tell_into(&self, table: &TaskTable, cpu: Cpu, movers: &mut [Pid]) {
        let count = self.run.count() as usize;
        if self.arrivals.tell(table, cpu, count, movers) {
            return;
        }
        tell_by_trees(&self.run, movers);
    }

    fn renew<L: Ledger>(
        &mut self,
        table: &TaskTable,
        _cpu: Cpu,
        movers: &[Pid],
        comparisons: &mut Steps<L>,
    ) {
        self.run.renew(&Renewed { table }, comparisons);
        self.first = find_first(&self.run, table, comparisons);
        self.arrivals.renew(table, movers);
    }

    #[inline(always)]
    fn first<L: Ledger>(
        &self,
        _table: &TaskTable,
        _cpu: Cpu,
        _comparisons: &mut Steps<L>,
    ) -> Option<Queued> {
        self.first
    }

    #[inline(always)]
    fn first_with<L: Ledger>(
        &self,
        cookie: Cookie,
        _table: &TaskTable,
        _cpu: Cpu,
        comparisons: &mut Steps<L>,
    ) -> Option<Queued> {
        if self.lots[lot_of(cookie)] == 0 {
            return None;
        }
        self.run.first_of(cookie, comparisons)
    }

    fn next_with<L: Ledger>(
        &self,
        task: &Task,
        table: &TaskTable,
        _cpu: Cpu,
        comparisons: &mut Steps<L>,
    ) -> Option<Task> {
        task_of(table, self.run.next_of(&queued_of(task), comparisons)?.pid)
    }

    #[inline(always)]
    fn smallest_vtime<L: Ledger>(
        &self,
        _table: &TaskTable,
        _cpu: Cpu,
        comparisons: &mut Steps<L>,
    ) -> Option<u128> {
        // A fair task that is the first of all is the first of the fair ones.
        if let Some(first) = &self.first {
            if first.class == Queued::FAIR {
                return Some(first.rank);
            }
        }
        self.run.least_fair(comparisons)
    }

    fn has_peer<L: Ledger>(
        &self,
        task: &Task,
        _table: &TaskTable,
        cpu: Cpu,
        _comparisons: &mut Steps<L>,
    ) -> bool {
        let own = u16::from(is_on(task, cpu));
        self.kinds[kind_of(task)] > own
    }

    fn count(&self, _table: &TaskTable, _cpu: Cpu) -> u32 {
        self.run.count()
    }

    ghost rises = { λ few many le. mul-le-mul_left 4 (most_comparisons-le few many le) };
}

/// A run queue with no task, which can take `most`. It is closed: an event that asks it for more does not compile.
fn run_with_capacity(alloc: Global, most: u16) -> Result<RunQueue<Closed>, OutOfMemory>
    ensures { IfOk result (λ run. Holds run most []) }
{
    let mut run = RunQueue::empty(alloc);
    if let Err(full) = run.reserve(u32::from(most)) {
        // By name, so that each part of it is dropped by a function of its own, and none in line here.
        drop(run);
        return Err(full);
    }
    Ok(run.close())
}

/// Writes the pids of the tasks of the trees by rising stamp, into a list that has as many places. It is seldom called,
/// since most are written by the arrivals.
#[cold]
#[inline(never)]
fn tell_by_trees(run: &RunQueue<Closed>, movers: &mut [Pid])
    requires each { length movers.old ≡ len run.now.tasks }
    requires few { len run.now.tasks ≤ 256 }
    ensures told { AreTold (map stamped (entries run.now.tasks)) movers.new }
{
    let mut told = ToldTasks::empty();
    run.tell_into(&mut told);
    tell_by_stamp(told.tasks.as_mut_slice(), movers);
}
