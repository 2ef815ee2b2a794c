//! The queue of the real-time tasks, and the rank by which they stand in it.

ghost use Rattle.std.specs.Prelude.{◌≡◌, ℕ, ◌<◌};
ghost use Rattle.cs_types.specs.declared.task.Policy.TheVariants.{Fifo, Rr};
ghost use Rattle.cs_types.specs.Queue.{rank_by};

use order_tree::RankTree;
use std::alloc::Global;

/// The real-time tasks of one sibling. The parameter is what the queue takes memory from, until it is closed.
pub type RtQueue<A = Global> = RankTree<A>;

/// The rank of a real-time task of this priority, 1 to 99: 98 to 0. The greater priority goes first, and
/// of equal ones the earlier enqueue.
pub fn rank(priority: u8) -> u128
    ensures fifo { (deadline vtime : ℕ) → result ≡ rank_by (Fifo priority) deadline vtime }
    ensures rr { (deadline vtime : ℕ) → result ≡ rank_by (Rr priority) deadline vtime }
    ensures few { result < 100 }
{
    u128::from(99u8.saturating_sub(priority))
}
