//! The queue that keeps nothing: each question is answered by a walk over the table.

ghost use Rattle.std.specs.Prelude.{◌≡◌, ◌+◌, ◌≤◌, ◌++◌, length, map, if◌then◌else◌};
ghost use Rattle.cs_types.specs.Order.{goes_before};
ghost use Rattle.core_lanes.specs.Queued.{queued_among, mover_of};

use arrayvec::ArrayVec;
use core_lanes::{
    MOST_TASKS, SiblingQueue, goes_before, is_fair, is_on, is_peer_of, tell_by_stamp,
};
use cs_types::{Cookie, Cpu, OutOfMemory, Pid, Queued, Steps, Task};
use run_queue::queued_of;
use std::alloc::Global;
use std::sync::ledger::Ledger;
use task_table::TaskTable;

/// Some tasks, each by its stamp and its pid.
type Stamped = ArrayVec<(u64, Pid), MOST_TASKS>;

/// It keeps nothing: the queued tasks of a sibling are those that the table has there. Its walks count none of
/// their comparisons.
#[derive(Drop)]
pub struct Walk;

/// The task that goes before the other, the first if they tie.
fn earlier(first: Task, task: Task) -> Task
    ensures { result ≡ (if goes_before task first then task else first) }
{
    if goes_before(&task, &first) {
        task
    } else {
        first
    }
}

/// Lists the tasks of the table that are queued on the sibling, each by its stamp and its pid.
fn tell(table: &TaskTable, cpu: Cpu, movers: &mut Stamped)
    requires places { length movers.old.items + length (queued_among table.now.tasks cpu) ≤ 256 }
    ensures told { movers.new.items
        ≡ movers.old.items ++ map mover_of (queued_among table.now.tasks cpu) }
{
    for task in table.iter() {
        if is_on(task, cpu) {
            movers.push((task.stamp, task.spec.pid));
        }
    }
}

impl SiblingQueue for Walk {
    ghost use Rattle.plain_room.specs.Comparisons.{most_of_walk};
    ghost use Rattle.std.proofs.Math.Nat.{mul-le-mul_left};

    ghost holds = { λ queue most tasks. Unit {0} };

    ghost most_compared = { most_of_walk };

    fn with_capacity(_alloc: Global, _most: u16) -> Result<Walk, OutOfMemory> {
        Ok(Walk)
    }

    fn put<L: Ledger>(
        &mut self,
        _table: &TaskTable,
        _cpu: Cpu,
        _task: &Task,
        _comparisons: &mut Steps<L>,
    ) {}

    fn take<L: Ledger>(
        &mut self,
        _table: &TaskTable,
        _cpu: Cpu,
        _task: &Task,
        _comparisons: &mut Steps<L>,
    ) {}

    fn set_cookie<L: Ledger>(
        &mut self,
        _table: &TaskTable,
        _cpu: Cpu,
        _task: &Task,
        _cookie: Cookie,
        _comparisons: &mut Steps<L>,
    ) {}

    fn set_vtime<L: Ledger>(
        &mut self,
        _table: &TaskTable,
        _cpu: Cpu,
        _task: &Task,
        _vtime: u128,
        _comparisons: &mut Steps<L>,
    ) {}

    fn clear(&mut self, _table: &TaskTable, _cpu: Cpu) {}

    fn tell_into(&self, table: &TaskTable, cpu: Cpu, movers: &mut [Pid]) {
        let mut tasks = Stamped::new();
        tell(table, cpu, &mut tasks);
        tell_by_stamp(tasks.as_mut_slice(), movers);
    }

    fn renew<L: Ledger>(
        &mut self,
        _table: &TaskTable,
        _cpu: Cpu,
        _movers: &[Pid],
        _comparisons: &mut Steps<L>,
    ) {}

    fn first<L: Ledger>(
        &self,
        table: &TaskTable,
        cpu: Cpu,
        _comparisons: &mut Steps<L>,
    ) -> Option<Queued> {
        let first = table
            .iter()
            .copied()
            .filter(|task| is_on(task, cpu))
            .reduce(|first, task| earlier(first, task))?;
        Some(queued_of(&first))
    }

    fn first_with<L: Ledger>(
        &self,
        cookie: Cookie,
        table: &TaskTable,
        cpu: Cpu,
        _comparisons: &mut Steps<L>,
    ) -> Option<Queued> {
        let first = table
            .iter()
            .copied()
            .filter(|task| is_on(task, cpu) && task.cookie == cookie)
            .reduce(|first, task| earlier(first, task))?;
        Some(queued_of(&first))
    }

    fn next_with<L: Ledger>(
        &self,
        task: &Task,
        table: &TaskTable,
        cpu: Cpu,
        _comparisons: &mut Steps<L>,
    ) -> Option<Task> {
        table
            .iter()
            .copied()
            .filter(|other| is_on(other, cpu)
                && other.cookie == task.cookie
                && goes_before(task, other))
            .reduce(|first, other| earlier(first, other))
    }

    fn smallest_vtime<L: Ledger>(
        &self,
        table: &TaskTable,
        cpu: Cpu,
        _comparisons: &mut Steps<L>,
    ) -> Option<u128> {
        table
            .iter()
            .copied()
            .filter(|task| is_on(task, cpu) && is_fair(task))
            .map(|task| task.vtime)
            .reduce(|smallest, vtime| if vtime < smallest { vtime } else { smallest })
    }

    fn has_peer<L: Ledger>(
        &self,
        task: &Task,
        table: &TaskTable,
        cpu: Cpu,
        _comparisons: &mut Steps<L>,
    ) -> bool {
        table.iter().any(|other| is_on(other, cpu)
            && other.spec.pid != task.spec.pid
            && is_peer_of(task, other))
    }

    fn count(&self, table: &TaskTable, cpu: Cpu) -> u32 {
        table.iter().filter(|task| is_on(task, cpu)).count() as u32
    }

    ghost rises = { λ few many le. mul-le-mul_left 2 le };
}
