//! The two events of a sibling that leaves the core or comes back (`sched_core_cpu_deactivate` and
//! `sched_core_cpu_starting`).

ghost use Rattle.std.specs.Prelude.{◌+◌, ◌*◌, ◌<◌, length};
ghost use Rattle.cs_types.specs.Hotplug.{leave};
ghost use Rattle.task_table.specs.Table.{Table};
ghost use Rattle.core_lanes.specs.Queued.{queued_among};
ghost use Rattle.core_lanes.specs.Charges.{ChargesAndTouches};
ghost use Rattle.core_lanes.specs.Comparisons.{ComparesFor};
ghost use Rattle.cpu_hotplug.specs.Hotplugs.{MayLeave, MayLeaveAnother, TakesOffline, BringsOnline};

use crate::away::{back, online_count, set_one_away};
use crate::moves::move_off;
use core_lanes::{Core, SiblingQueue, charge};
use cs_types::{Cpu, Steps};
use std::sync::ledger::Ledger;
use task_table::TaskTable;

/// What came of it when a sibling was to leave the core, or to come back.
#[derive(Clone, Copy)]
pub enum Hotplug {
    /// The sibling has left the core, or has come back.
    Done,
    /// The sibling may not leave, since it is the last that is online. Nothing changed.
    Busy,
    /// The sibling is offline, or online, already. Nothing changed.
    Already,
}

/// The sibling leaves the core. The open interval is charged, and none stays open. The tasks move, and
/// each other online sibling is pending.
fn leave<Q: SiblingQueue, L: Ledger>(
    core: &mut Core<Q>,
    table: &mut TaskTable,
    cpu: Cpu,
    now: u64,
    comparisons: &mut Steps<L>,
)
    requires { MayLeaveAnother now cpu (core.old, table.old) }
    ensures touches { ChargesAndTouches now (2 * length (queued_among table.old.tasks cpu))
        (core.old, table.old) (core.new, table.new) (λ room. leave room cpu) }
    ensures counted { ComparesFor (length table.old.tasks + 1)
        (core.old, table.old) comparisons.old comparisons.new }
{
    charge(core, table, now);
    core.account.close();
    move_off(core, table, cpu, comparisons);
    set_one_away(&mut core.lanes, cpu);
}

/// The sibling leaves the core at `now`, in ns from the start, unless it is offline already or the last.
pub fn offline<Q: SiblingQueue, L: Ledger>(
    core: &mut Core<Q>,
    table: &mut TaskTable,
    cpu: Cpu,
    now: u64,
    comparisons: &mut Steps<L>,
) -> Hotplug
    requires { MayLeave now cpu (core.old, table.old) }
    ensures leaves { TakesOffline now (core.old, table.old) (core.new, table.new) cpu result }
    ensures counted { ComparesFor (length table.old.tasks + 1)
        (core.old, table.old) comparisons.old comparisons.new }
{
    if !core.is_online(cpu) {
        return Hotplug::Already;
    }
    if online_count(core) == 1 {
        return Hotplug::Busy;
    }
    leave(core, table, cpu, now, comparisons);
    Hotplug::Done
}

/// The sibling comes back, unless it is online already.
pub fn online<Q: SiblingQueue>(core: &mut Core<Q>, cpu: Cpu) -> Hotplug
    requires cpu { cpu < length core.old.lanes.items }
    ensures { (table : Table) → BringsOnline (core.old, table) (core.new, table) cpu result }
{
    if core.is_online(cpu) {
        return Hotplug::Already;
    }
    back(&mut core.lanes[cpu as usize]);
    Hotplug::Done
}
