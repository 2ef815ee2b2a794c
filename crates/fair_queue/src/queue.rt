//! The queue of the fair tasks, and the rank by which they stand in it.

ghost use Rattle.std.specs.Prelude.{◌≡◌, ℕ};
ghost use Rattle.cs_types.specs.declared.task.Policy.TheVariants.{Fair};
ghost use Rattle.cs_types.specs.Queue.{rank_by};

use order_tree::RankTree;
use std::alloc::Global;

/// The fair tasks of one sibling. The parameter is what the queue takes memory from, until it is closed.
pub type FairQueue<A = Global> = RankTree<A>;

/// The rank of a fair task: its virtual time, in ns. The smaller one goes first, and of equal ones the
/// earlier enqueue.
pub fn rank(vtime: u128) -> u128
    ensures { (nice : _) → (deadline : ℕ) → result ≡ rank_by (Fair nice) deadline vtime }
{
    vtime
}
