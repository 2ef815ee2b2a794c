//! How a task enters the queue of its home. It is apart since a wake, a fork and a new policy all queue a task there.

ghost use Rattle.std.specs.Prelude.{◌≡◌, ◌+◌, ◌^◌, ◌<◌, length};
ghost use Rattle.cs_types.specs.Room.{lowest_online};
ghost use Rattle.cs_types.specs.Queueing.{online_home, rehomed, preempts, refreshed, queue_at_home};
ghost use Rattle.task_table.specs.Table.{Table};
ghost use Rattle.core_lanes.specs.Lanes.{Beside, at, room_of, IsFit, CanMove};
ghost use Rattle.core_lanes.specs.Comparisons.{ComparesFor};
ghost use Rattle.core_clock.specs.Moments.{MayWakeAtHome, TouchesAt};

use core_lanes::{Core, SiblingQueue, is_higher};
use cs_types::{Cpu, Policy, Steps, Task};
use std::sync::ledger::Ledger;
use task_table::TaskTable;

/// The lowest sibling that is online.
fn lowest_online<Q: SiblingQueue>(core: &Core<Q>) -> Cpu
    requires some { 0 < length core.now.lanes.items }
    ensures lowest { (beside : Beside) (table : Table) →
        result ≡ lowest_online (room_of beside (core.now, table)) }
    ensures within { result < length core.now.lanes.items }
{
    for cpu in 0..core.lanes.len() {
        if core.lanes[cpu].online {
            return cpu as u8;
        }
    }
    0
}

/// Where a task of this sibling is at home: there, or on the lowest online one while that is offline.
pub fn online_home<Q: SiblingQueue>(core: &Core<Q>, cpu: Cpu) -> Cpu
    requires cpu { cpu < length core.now.lanes.items }
    ensures home { (beside : Beside) (table : Table) →
        result ≡ online_home (room_of beside (core.now, table)) cpu }
    ensures within { result < length core.now.lanes.items }
{
    if core.is_online(cpu) {
        cpu
    } else {
        lowest_online(core)
    }
}

/// The task stays at its home if that is online, and else moves to another sibling.
#[inline(always)]
pub fn rehome<Q: SiblingQueue>(core: &Core<Q>, task: &mut Task)
    requires { CanMove core.now task.old }
    ensures rehomed { (beside : Beside) (table : Table) →
        task.new ≡ rehomed (room_of beside (core.now, table)) task.old }
    ensures within { task.new.home < length core.now.lanes.items }
{
    if !core.is_online(task.home) {
        *task = core.moved_to(lowest_online(core), *task);
    }
}

/// Whether the task, once it is queued, asks its sibling to reschedule: that runs idle or a lower one.
#[inline(always)]
fn preempts<Q: SiblingQueue>(core: &Core<Q>, table: &TaskTable, task: &Task) -> bool
    requires { task.now.home < length core.now.lanes.items }
    ensures { (beside : Beside) →
        result ≡ preempts (room_of beside (core.now, table.now)) task.now }
{
    match core.runner(table, task.home) {
        None => true,
        Some(running) => is_higher(task, running),
    }
}

/// The task becomes what it is as it is queued anew: a deadline task has its next deadline, and a fair one is pulled
/// up to the least virtual time of its queue.
#[inline(always)]
fn refresh<Q: SiblingQueue>(core: &Core<Q>, task: &mut Task, now: u64)
    requires fits { IsFit (length core.now.lanes.items) task.old }
    requires clock { now + 1000000000 < 2 ^ 56 }
    ensures { (beside : Beside) (table : Table) →
        task.new ≡ refreshed (room_of (at now beside) (core.now, table)) task.old }
{
    match task.spec.policy {
        Policy::Deadline(relative) => task.deadline = now + relative,
        Policy::Fair(_) => task.vtime = task.vtime.max(core.lanes[task.home as usize].least),
        _ => {}
    }
}

/// The task, which sleeps in the table and is as it is there but for its home and its virtual time, is queued at its
/// home, which may become pending.
#[inline(always)]
pub fn wake_at_home<Q: SiblingQueue, L: Ledger>(
    core: &mut Core<Q>,
    table: &mut TaskTable,
    task: Task,
    now: u64,
    comparisons: &mut Steps<L>,
)
    requires { MayWakeAtHome now (core.old, table.old) task }
    ensures touches { TouchesAt now 1 (core.old, table.old) (core.new, table.new)
        (λ room. queue_at_home room task) }
    ensures counted { ComparesFor 1 (core.old, table.old) comparisons.old comparisons.new }
{
    let mut fresh = task;
    refresh(core, &mut fresh, now);
    let preempts = preempts(core, table, &fresh);
    core.wake(table, &fresh, comparisons);
    core.flag(task.home, preempts);
}
