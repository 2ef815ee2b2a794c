//! What a schedule leaves for later: whether the sibling is to try to steal. It is a file of its own since
//! every schedule ends with it.

ghost use Rattle.std.specs.Prelude.{◌≡◌, if◌then◌else◌};
ghost use Rattle.cs_types.specs.Selection.{is_to_steal};
ghost use Rattle.cs_types.specs.Steal.{set_place};
ghost use Rattle.core_lanes.specs.Lanes.{Beside, room_of, AgreesAt};
ghost use Rattle.core_lanes.specs.Changes.{Changes};

use core_lanes::{Core, SiblingQueue};
use cs_types::Cpu;
use task_table::TaskTable;

/// Whether a sibling is to try to steal: some sibling is forced idle, it runs idle itself, the core has
/// a cookie, and a task is queued on it.
fn is_to_steal<Q: SiblingQueue>(core: &Core<Q>, table: &TaskTable, cpu: Cpu) -> bool
    requires { AgreesAt cpu (core.now, table.now) }
    ensures { (beside : Beside) → result ≡ is_to_steal (room_of beside (core.now, table.now)) cpu }
{
    core.account.count() != 0
        && core.lanes[cpu as usize].run.is_none()
        && core.cookie != 0
        && core.has_queued(table, cpu)
}

/// After a schedule the sibling's tries begin at the next sibling, or it makes none
/// (`queue_core_balance`).
pub fn balance<Q: SiblingQueue>(core: &mut Core<Q>, table: &TaskTable, cpu: Cpu)
    requires { AgreesAt cpu (core.old, table.now) }
    ensures { Changes (core.old, table.now) (core.new, table.now)
        (λ room. set_place room cpu (if is_to_steal room cpu then 1 else 0)) }
{
    let place = u32::from(is_to_steal(core, table, cpu));
    core.set_place(cpu, place);
}
