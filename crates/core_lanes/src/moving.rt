//! How a queue moves to another sibling with all its tasks. It is apart, since it alone leaves tasks and queues for a
//! moment as they do not agree.

ghost use Rattle.std.specs.Prelude.{◌≡◌, ◌≢◌, ◌<◌, length, map};
ghost use Rattle.core_lanes.specs.Queued.{queued_among, mover_of, AreTold};
ghost use Rattle.core_lanes.specs.Exchanges.{Exchange};

use crate::lane::Lane;
use crate::lanes::Core;
use crate::queue::SiblingQueue;
use cs_types::{Cpu, Pid, Steps};
use std::mem;
use std::sync::ledger::Ledger;
use task_table::TaskTable;

/// Two siblings exchange their queues.
fn swap_queues<Q: Drop>(lanes: &mut [Lane<Q>], one: usize, other: usize)
    requires two { one ≢ other }
    requires within { (one < length lanes.old) × (other < length lanes.old) }
    ensures { Exchange one other lanes.old lanes.new }
{
    let (low, high) = if one < other {
        (one, other)
    } else {
        (other, one)
    };
    let (front, back) = lanes.split_at_mut(high);
    mem::swap(&mut front[low].queue, &mut back[0].queue);
}

impl<Q: SiblingQueue> Core<Q> {
    ghost use Rattle.core_lanes.specs.Exchanges.{MayPlace, PlacesFirst, MayExchange};
    ghost use Rattle.core_lanes.specs.Lanes.{MayTell, AreHeld, ChangesQueues};
    ghost use Rattle.core_lanes.specs.Comparisons.{ComparesFor};

    /// Writes the pids of the tasks queued on the sibling, by rising stamp, into a list that has as many places.
    pub fn tell_queued(&self, table: &TaskTable, cpu: Cpu, movers: &mut [Pid])
        requires { MayTell cpu (self.now, table.now) movers.old }
        ensures told { AreTold (map mover_of (queued_among table.now.tasks cpu)) movers.new }
    {
        self.lanes[cpu as usize].queue.tell_into(table, cpu, movers);
    }

    /// The tasks with these pids, one after another, are at home on the other sibling in the table, with the next
    /// stamps. Each keeps what it is ahead of the least virtual time of the one sibling. The queues are to follow.
    #[inline(always)]
    pub fn place(&mut self, table: &mut TaskTable, pids: &[Pid], from: Cpu, to: Cpu)
        requires { MayPlace (length pids.now) from to self.old }
        ensures placed { PlacesFirst (length pids.now) pids.now from to
            (self.old, table.old) (self.new, table.new) }
    {
        let behind = self.lanes[from as usize].least;
        let least = self.lanes[to as usize].least;
        table.move_to(pids, to, behind, least, self.next_stamp);
        let moved = pids.len() as u64;
        self.next_stamp += moved;
        self.task_number += 2 * moved;
    }

    /// The queues of the two siblings change places, and the one that moved has its tasks as they are now. The list may
    /// show it in which order they moved.
    pub fn exchange<L: Ledger>(
        &mut self,
        table: &TaskTable,
        from: Cpu,
        to: Cpu,
        movers: &[Pid],
        comparisons: &mut Steps<L>,
    )
        requires { MayExchange from to (self.old, table.now) }
        ensures queues { ChangesQueues self.old self.new (AreHeld (self.new, table.now)) }
        ensures counted { ComparesFor 3 (self.old, table.now) comparisons.old comparisons.new }
    {
        swap_queues(&mut self.lanes, from as usize, to as usize);
        self.lanes[to as usize]
            .queue
            .renew(table, to, movers, comparisons);
    }
}
