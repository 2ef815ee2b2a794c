//! Which siblings are online, and what one that leaves or comes back makes of them. It is apart, since it
//! reads and changes siblings alone, and no task.

ghost use Rattle.std.specs.Prelude.{◌≡◌, ◌<◌, ◌≤◌, length, map, nat_lt};
ghost use Rattle.std.specs.List.{enumerate_from};
ghost use Rattle.cs_types.specs.Room.{online as siblings_online};
ghost use Rattle.cs_types.specs.Hotplug.{lowest_other, away, stand_by, left, back};
ghost use Rattle.task_table.specs.Table.{Table};
ghost use Rattle.core_lanes.specs.Lanes.{Beside, room_of};
ghost use Rattle.core_lanes.specs.Changes.{ChangesLanes};
ghost use Rattle.cpu_hotplug.specs.Leaves.{ChangesLane};

use core_lanes::{Core, Lane, SiblingQueue};
use cs_types::Cpu;

/// How many siblings are online.
pub fn online_count<Q: SiblingQueue>(core: &Core<Q>) -> u8
    ensures { (beside : Beside) (table : Table) →
        result ≡ length (siblings_online (room_of beside (core.now, table))) }
{
    // It counts in words, since the compiler makes a vector of a count in bytes, which takes longer for so few.
    let mut count: usize = 0;
    for lane in core.lanes.iter() {
        if lane.online {
            count += 1;
        }
    }
    count as u8
}

/// Whether SMT is off, as it is if fewer than two siblings are online (`sched_smt_present`). It looks at no more
/// siblings than it has to.
pub fn is_smt_off<Q: SiblingQueue>(core: &Core<Q>) -> bool
    ensures { (beside : Beside) (table : Table) →
        result ≡ nat_lt (length (siblings_online (room_of beside (core.now, table)))) 2 }
{
    let mut count: usize = 0;
    for lane in core.lanes.iter() {
        count += usize::from(lane.online);
        if count == 2 {
            return false;
        }
    }
    true
}

/// The lowest other sibling that is online.
pub fn lowest_other<Q: SiblingQueue>(core: &Core<Q>, cpu: Cpu) -> Cpu
    requires some { 0 < length core.now.lanes.items }
    ensures lowest { (beside : Beside) (table : Table) →
        result ≡ lowest_other (room_of beside (core.now, table)) cpu }
    ensures within { result < length core.now.lanes.items }
{
    for other in 0..core.lanes.len() {
        if core.lanes[other].online && other != cpu as usize {
            return other as u8;
        }
    }
    0
}

/// The sibling is offline, and runs idle while it is.
fn away<Q: Drop>(lane: &mut Lane<Q>)
    ensures { ChangesLane lane.old lane.new away }
{
    lane.online = false;
    lane.run = None;
    lane.pending = false;
    lane.waiting = None;
    lane.place = 0;
}

/// The sibling becomes pending if it is online, since another leaves.
fn stand_by<Q: Drop>(lane: &mut Lane<Q>)
    ensures { ChangesLane lane.old lane.new stand_by }
{
    lane.pending |= lane.online;
}

/// The sibling is away, and each other online one is pending.
pub fn set_one_away<Q: Drop>(lanes: &mut [Lane<Q>], cpu: Cpu)
    requires few { length lanes.old ≤ 16 }
    ensures { ChangesLanes lanes.old lanes.new
        (λ siblings. map (left cpu) (enumerate_from 0 siblings)) }
{
    for (other, lane) in lanes.iter_mut().enumerate() {
        if other == cpu as usize {
            away(lane);
        } else {
            stand_by(lane);
        }
    }
}

/// The sibling is online again, runs idle and is pending.
pub fn back<Q: Drop>(lane: &mut Lane<Q>)
    ensures { ChangesLane lane.old lane.new back }
{
    lane.online = true;
    lane.run = None;
    lane.pending = true;
    lane.waiting = None;
    lane.place = 0;
}
