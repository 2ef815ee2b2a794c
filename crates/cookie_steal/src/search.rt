//! What a thief finds on its source. It is apart, since it asks the source's queue and changes nothing.

ghost use Rattle.std.specs.Prelude.{◌≡◌, ◌≢◌, ℕ, ◌+◌, ◌*◌, ◌≤◌, length, filter};
ghost use Rattle.cs_types.specs.Room.{sibling_of};
ghost use Rattle.cs_types.specs.Order.{first_of};
ghost use Rattle.cs_types.specs.Selection.{queued_with};
ghost use Rattle.cs_types.specs.Steal.{may_steal, stolen};
ghost use Rattle.core_lanes.specs.Lanes.{Beside, lane_state, room_of};
ghost use Rattle.core_lanes.specs.Comparisons.{ComparesFor};
ghost use Rattle.core_lanes.specs.Queued.{queued_among, with_cookie, MayFind};
ghost use Rattle.cookie_steal.specs.Tries.{IsSourceOf};

use core_lanes::{Core, Lane, SiblingQueue, task_of};
use cs_types::{Cookie, Cpu, Steps, Task};
use std::sync::ledger::Ledger;
use task_table::TaskTable;

/// Whether the thief may take the task from the source: that neither is to run it nor runs it, and it was
/// chosen beside no more tasks than the thief's idle.
fn may_steal<Q: Drop>(thief: &Lane<Q>, source: &Lane<Q>, task: &Task) -> bool
    ensures { result ≡ may_steal (lane_state thief.now) (lane_state source.now) task.now }
{
    source.waiting != Some(Some(task.spec.pid))
        && !source.runs(task.spec.pid)
        && thief.idle_occupation >= task.occupation
}

/// The first of a sibling's tasks with the cookie, which is not 0.
fn first_with<Q: SiblingQueue, L: Ledger>(
    lane: &Lane<Q>,
    cookie: Cookie,
    table: &TaskTable,
    cpu: Cpu,
    comparisons: &mut Steps<L>,
) -> Option<Task>
    requires { MayFind (Q.holds lane.now.queue) cpu table.now cookie }
    ensures answer { result ≡ first_of (with_cookie cookie (queued_among table.now.tasks cpu)) }
    ensures counted { comparisons.new ≤ comparisons.old
        + Q.most_compared (length (queued_among table.now.tasks cpu)) }
{
    let first = lane.queue.first_with(cookie, table, cpu, comparisons)?;
    task_of(table, first.pid)
}

/// The first of the source's tasks with the core's cookie, which is not 0, that the thief may take
/// (`try_steal_cookie`).
fn first_to_steal<Q: SiblingQueue, L: Ledger>(
    core: &Core<Q>,
    table: &TaskTable,
    thief: Cpu,
    source: Cpu,
    comparisons: &mut Steps<L>,
) -> Option<Task>
    requires cookie { core.now.cookie ≢ 0 }
    requires source { IsSourceOf thief source (core.now, table.now) }
    ensures first { (beside : Beside) → let room = room_of beside (core.now, table.now) in
        result ≡ first_of (filter (may_steal (sibling_of room thief) (sibling_of room source))
        (queued_with room room.core_cookie source)) }
    ensures counted { ComparesFor (length table.now.tasks + 1)
        (core.now, table.now) comparisons.old comparisons.new }
{
    let idle = &core.lanes[thief as usize];
    let from = &core.lanes[source as usize];
    let mut next = first_with(from, core.cookie, table, source, comparisons);
    while let Some(task) = next {
        if may_steal(idle, from, &task) {
            return Some(task);
        }
        next = from.queue.next_with(&task, table, source, comparisons);
    }
    None
}

/// What the thief steals from the source, if there is something.
#[tactic(auto, unfolding(cs_types::specs::Steal::stolen))]
#[inline(always)]
pub fn stolen<Q: SiblingQueue, L: Ledger>(
    core: &Core<Q>,
    table: &TaskTable,
    thief: Cpu,
    source: Cpu,
    comparisons: &mut Steps<L>,
) -> Option<Task>
    requires { IsSourceOf thief source (core.now, table.now) }
    ensures stolen { (beside : Beside) →
        result ≡ stolen (room_of beside (core.now, table.now)) thief }
    ensures counted { ComparesFor (length table.now.tasks + 1)
        (core.now, table.now) comparisons.old comparisons.new }
{
    if core.cookie == 0 || core.lanes[thief as usize].run.is_some() {
        return None;
    }
    first_to_steal(core, table, thief, source, comparisons)
}
