//! Who schedules next in the final drain. It is a file of its own since it reads the core alone.

ghost use Rattle.std.specs.Prelude.{◌≡◌};
ghost use Rattle.task_table.specs.Table.{Table};
ghost use Rattle.core_lanes.specs.Lanes.{Beside, lane_state, room_of};
ghost use Rattle.core_lanes.specs.Numbers.{numbers_of, is_fresh_by};
ghost use Rattle.core_tasks.specs.Drain.{is_due, lowest_pending, next_by};

use core_lanes::{Core, Lane, SiblingQueue};
use cs_types::Cpu;

/// Whether a sibling is online and pending, and, if the test asks for it, something waits for it.
fn is_due<Q: Drop>(lane: &Lane<Q>, has_waiting: bool) -> bool
    ensures { result ≡ is_due has_waiting (lane_state lane.now) }
{
    lane.online && lane.pending && (!has_waiting || lane.waiting.is_some())
}

/// The lowest online sibling that is pending, and for which something waits if the test asks for it.
fn lowest_pending<Q: SiblingQueue>(core: &Core<Q>, has_waiting: bool) -> Option<Cpu>
    ensures { (beside : Beside) (table : Table) →
        result ≡ lowest_pending (room_of beside (core.now, table)) has_waiting }
{
    for cpu in 0..core.lanes.len() {
        if is_due(&core.lanes[cpu], has_waiting) {
            return Some(cpu as u8);
        }
    }
    None
}

/// Who schedules next in the final drain: the lowest pending sibling whose schedule would be an
/// adoption, and if there is none, the lowest pending one.
pub fn next_to_schedule<Q: SiblingQueue>(core: &Core<Q>) -> Option<Cpu>
    ensures { (beside : Beside) (table : Table) → result
        ≡ next_by (room_of beside (core.now, table)) (is_fresh_by (numbers_of (core.now, table))) }
{
    if core.is_fresh() {
        lowest_pending(core, true).or(lowest_pending(core, false))
    } else {
        lowest_pending(core, false)
    }
}
