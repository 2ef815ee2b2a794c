//! How the tasks of a sibling that leaves move to another. It is apart, since it alone gives them new stamps.

ghost use Rattle.std.specs.Prelude.{◌≢◌, ◌+◌, ◌*◌, [], length, IsTrue};
ghost use Rattle.cs_types.specs.Hotplug.{move_off};
ghost use Rattle.core_lanes.specs.Queued.{queued_among};
ghost use Rattle.core_lanes.specs.Lanes.{AgreesAt};
ghost use Rattle.core_lanes.specs.Changes.{Touches};
ghost use Rattle.core_lanes.specs.Comparisons.{ComparesFor};
ghost use Rattle.cpu_hotplug.specs.Leaves.{MayMoveOff, MayMoveAllTo, AreAhead, MovesWhole, IsQueuedAt, MayMovePast};

use crate::away::lowest_other;
use core_lanes::{Core, MOST_TASKS, SiblingQueue, task_of};
use cs_types::{Cpu, Pid, Steps, Task};
use std::sync::ledger::Ledger;
use task_table::TaskTable;

/// How many tasks are many, a count. From this number on they change siblings with their queue, if they can.
const MANY: u32 = 16;

/// How many times as many tasks have to come as stay, if their queue moves past those.
const TIMES: u32 = 8;

/// The tasks queued on the sibling move to the lowest other online one, in the order of their stamps.
pub fn move_off<Q: SiblingQueue, L: Ledger>(
    core: &mut Core<Q>,
    table: &mut TaskTable,
    cpu: Cpu,
    comparisons: &mut Steps<L>,
)
    requires { MayMoveOff cpu (core.old, table.old) }
    ensures touches { Touches (2 * length (queued_among table.old.tasks cpu))
        (core.old, table.old) (core.new, table.new) (λ room. move_off room cpu) }
    ensures counted { ComparesFor (length table.old.tasks + 1)
        (core.old, table.old) comparisons.old comparisons.new }
{
    let count = core.lanes[cpu as usize].queue.count(table, cpu);
    if count == 0 {
        return;
    }
    let to = lowest_other(core, cpu);
    let stay = core.lanes[to as usize].queue.count(table, to);
    let mut places = [0; MOST_TASKS];
    let movers = &mut places[..count as usize];
    if count >= MANY && stay <= count / TIMES && are_ahead(core, table, cpu, comparisons) {
        move_past(core, table, cpu, to, movers, stay, comparisons);
    } else {
        move_each(core, table, cpu, to, movers, comparisons);
    }
}

/// Whether no fair task that is queued on the sibling is below its least virtual time, so that all keep their order as
/// they move.
fn are_ahead<Q: SiblingQueue, L: Ledger>(
    core: &Core<Q>,
    table: &TaskTable,
    cpu: Cpu,
    comparisons: &mut Steps<L>,
) -> bool
    requires { AgreesAt cpu (core.now, table.now) }
    ensures ahead { IsTrue result → AreAhead cpu (core.now, table.now) }
    ensures counted { ComparesFor 1 (core.now, table.now) comparisons.old comparisons.new }
{
    let lane = &core.lanes[cpu as usize];
    match lane.queue.smallest_vtime(table, cpu, comparisons) {
        Some(smallest) => lane.least <= smallest,
        None => true,
    }
}

/// The first task that is queued on the sibling, which has one.
#[inline(always)]
fn first_task<Q: SiblingQueue, L: Ledger>(
    core: &Core<Q>,
    table: &TaskTable,
    cpu: Cpu,
    comparisons: &mut Steps<L>,
) -> Task
    requires at { AgreesAt cpu (core.now, table.now) }
    requires some { queued_among table.now.tasks cpu ≢ [] }
    ensures first { IsQueuedAt cpu table.now.tasks result }
    ensures counted { ComparesFor 1 (core.now, table.now) comparisons.old comparisons.new }
{
    let first = core.first_on(table, cpu, comparisons).unwrap();
    task_of(table, first.pid).unwrap()
}

/// The tasks move with their queue past those that stay on the other sibling, `stay` of them: these sleep meanwhile,
/// and are queued again as they were. The list, which has as many places, gets the pids of those that move.
fn move_past<Q: SiblingQueue, L: Ledger>(
    core: &mut Core<Q>,
    table: &mut TaskTable,
    cpu: Cpu,
    to: Cpu,
    movers: &mut [Pid],
    stay: u32,
    comparisons: &mut Steps<L>,
)
    requires { MayMovePast cpu to stay movers.old (core.old, table.old) }
    ensures touches { Touches (2 * length (queued_among table.old.tasks cpu))
        (core.old, table.old) (core.new, table.new) (λ room. move_off room cpu) }
    ensures counted { ComparesFor (5 * stay + 3) (core.old, table.old)
        comparisons.old comparisons.new }
{
    if stay == 0 {
        move_queue(core, table, cpu, to, movers, comparisons);
        return;
    }
    let task = first_task(core, table, to, comparisons);
    let mut asleep = task;
    asleep.queued = false;
    core.change(table, asleep, comparisons);
    move_past(core, table, cpu, to, movers, stay - 1, comparisons);
    core.change(table, task, comparisons);
}

/// The tasks move with their queue, which changes places with that of the other sibling. The list, which has as many
/// places, gets their pids.
fn move_queue<Q: SiblingQueue, L: Ledger>(
    core: &mut Core<Q>,
    table: &mut TaskTable,
    cpu: Cpu,
    to: Cpu,
    movers: &mut [Pid],
    comparisons: &mut Steps<L>,
)
    requires to { MayMoveAllTo cpu to movers.old (core.old, table.old) }
    requires whole { MovesWhole cpu to (core.old, table.old) }
    ensures touches { Touches (2 * length (queued_among table.old.tasks cpu))
        (core.old, table.old) (core.new, table.new) (λ room. move_off room cpu) }
    ensures counted { ComparesFor 3 (core.old, table.old) comparisons.old comparisons.new }
{
    core.tell_queued(table, cpu, movers);
    core.place(table, movers, cpu, to);
    core.exchange(table, cpu, to, movers, comparisons);
}

/// The tasks move one by one. The list, which has as many places, gets their pids.
fn move_each<Q: SiblingQueue, L: Ledger>(
    core: &mut Core<Q>,
    table: &mut TaskTable,
    cpu: Cpu,
    to: Cpu,
    movers: &mut [Pid],
    comparisons: &mut Steps<L>,
)
    requires { MayMoveAllTo cpu to movers.old (core.old, table.old) }
    ensures touches { Touches (2 * length (queued_among table.old.tasks cpu))
        (core.old, table.old) (core.new, table.new) (λ room. move_off room cpu) }
    ensures counted { ComparesFor (length table.old.tasks)
        (core.old, table.old) comparisons.old comparisons.new }
{
    core.empty_queue(table, cpu, movers);
    for mover in movers.iter() {
        core.enter(table, *mover, cpu, to, comparisons);
    }
}
