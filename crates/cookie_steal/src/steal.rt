//! A try to steal, and how the task that it finds moves.

ghost use Rattle.std.specs.Prelude.{◌≡◌, ℕ, ◌+◌, ◌*◌, ◌^◌, ◌<◌, ◌≤◌, ◌&&◌, ◌==◌, length, not, is_none, All};
ghost use Rattle.cs_types.specs.Room.{sibling_of};
ghost use Rattle.cs_types.specs.Selection.{first_on};
ghost use Rattle.cs_types.specs.Steal.{source_of, steal, next_place};
ghost use Rattle.task_table.specs.Table.{Table};
ghost use Rattle.core_lanes.specs.Lanes.{Beside, room_of, AgreesAt};
ghost use Rattle.core_lanes.specs.Changes.{Touches};
ghost use Rattle.core_lanes.specs.Comparisons.{ComparesFor};
ghost use Rattle.cookie_steal.specs.Tries.{MayTry, MaySteal, TriesToSteal};

use crate::search::stolen;
use core_lanes::{Core, SiblingQueue};
use cs_types::{Cpu, Pid, Steps, Task};
use std::sync::ledger::Ledger;
use task_table::TaskTable;

/// What came of a try to steal.
#[derive(Clone, Copy)]
pub enum Try {
    /// The sibling stole the task with this pid from that one. The task queues on the thief now, which is pending. This
    /// comes if the core has a cookie, the thief runs idle, and a task with the cookie that it may take is queued on
    /// that one.
    Stole { pid: Pid, from: Cpu },
    /// The sibling found nothing to steal on that one, and tries the next one next, or none after the last.
    Missed(Cpu),
    /// The sibling does not try: its balance place is 0. Nothing changed.
    NoBalance,
}

/// The sibling from which this one tries to steal next.
fn source_of<Q: SiblingQueue>(core: &Core<Q>, cpu: Cpu) -> Cpu
    requires cpu { cpu < length core.now.lanes.items }
    ensures source { (beside : Beside) (table : Table) →
        result ≡ source_of (room_of beside (core.now, table)) cpu }
    ensures within { result < length core.now.lanes.items }
{
    let place = core.lanes[cpu as usize].place as usize;
    ((cpu as usize + place) % core.lanes.len()) as u8
}

/// Whether a sibling idles with no task queued on it while some sibling is forced idle.
fn is_left_idle<Q: SiblingQueue, L: Ledger>(
    core: &Core<Q>,
    table: &TaskTable,
    cpu: Cpu,
    comparisons: &mut Steps<L>,
) -> bool
    requires { AgreesAt cpu (core.now, table.now) }
    ensures idle { (beside : Beside) → let room = room_of beside (core.now, table.now) in
        result ≡ (is_none (first_on room cpu) && is_none (sibling_of room cpu).run
        && not (room.forced == 0)) }
    ensures counted { ComparesFor 1 (core.now, table.now) comparisons.old comparisons.new }
{
    core.first_on(table, cpu, comparisons).is_none()
        && core.lanes[cpu as usize].run.is_none()
        && core.account.count() != 0
}

/// The task moves from the source to the thief, which is pending.
fn steal<Q: SiblingQueue, L: Ledger>(
    core: &mut Core<Q>,
    table: &mut TaskTable,
    thief: Cpu,
    source: Cpu,
    task: Task,
    comparisons: &mut Steps<L>,
)
    requires { MaySteal thief source (core.old, table.old) task }
    ensures touches { Touches 2 (core.old, table.old) (core.new, table.new)
        (λ room. steal room thief task) }
    ensures counted { ComparesFor 3 (core.old, table.old) comparisons.old comparisons.new }
{
    let moved = core.moved_to(thief, task);
    core.touch();
    core.enqueue(table, moved, comparisons);
    core.set_place(thief, 0);
    core.flag(thief, true);
    let idles = is_left_idle(core, table, source, comparisons);
    core.flag(source, idles);
}

/// The place of the sibling's next try, if this one finds nothing.
fn next_place<Q: SiblingQueue>(core: &Core<Q>, cpu: Cpu) -> u32
    requires cpu { cpu < length core.now.lanes.items }
    requires places { All (λ lane. lane.place + 1 < 2 ^ 32) core.now.lanes.items }
    ensures { (beside : Beside) (table : Table) →
        result ≡ next_place (room_of beside (core.now, table)) cpu }
{
    let next = core.lanes[cpu as usize].place + 1;
    if next as usize == core.lanes.len() {
        0
    } else {
        next
    }
}

/// The sibling tries to steal a task, if its balance place says that it is to.
#[inline(always)]
pub fn try_steal<Q: SiblingQueue, L: Ledger>(
    core: &mut Core<Q>,
    table: &mut TaskTable,
    cpu: Cpu,
    comparisons: &mut Steps<L>,
) -> Try
    requires { MayTry cpu (core.old, table.old) }
    ensures tries { TriesToSteal (core.old, table.old) (core.new, table.new) cpu result }
    ensures counted { ComparesFor (length table.old.tasks + 4)
        (core.old, table.old) comparisons.old comparisons.new }
{
    if core.lanes[cpu as usize].place == 0 {
        return Try::NoBalance;
    }
    let source = source_of(core, cpu);
    match stolen(core, table, cpu, source, comparisons) {
        Some(task) => {
            steal(core, table, cpu, source, task, comparisons);
            Try::Stole {
                pid: task.spec.pid,
                from: source,
            }
        }
        None => {
            let place = next_place(core, cpu);
            core.set_place(cpu, place);
            Try::Missed(source)
        }
    }
}
