//! The queue of the deadline tasks, and the rank by which they stand in it.

ghost use Rattle.std.specs.Prelude.{◌≡◌, ℕ};
ghost use Rattle.cs_types.specs.declared.task.Policy.TheVariants.{Deadline};
ghost use Rattle.cs_types.specs.Queue.{rank_by};

use order_tree::RankTree;
use std::alloc::Global;

/// The deadline tasks of one sibling. The parameter is what the queue takes memory from, until it is closed.
pub type DeadlineQueue<A = Global> = RankTree<A>;

/// The rank of a deadline task: its absolute deadline, in ns of the clock. The earlier deadline goes
/// first, and of equal ones the earlier enqueue.
pub fn rank(deadline: u64) -> u128
    ensures { (relative vtime : ℕ) → result ≡ rank_by (Deadline relative) deadline vtime }
{
    u128::from(deadline)
}
