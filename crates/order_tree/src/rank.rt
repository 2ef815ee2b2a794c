//! The queue of a scheduling class: an ordered tree in which all keys are of one group and one class. It is
//! apart since the classes keep their tasks alike.

ghost use Rattle.std.specs.Prelude.{◌≡◌, ◌+◌, ◌<◌, ◌≤◌, ◌++◌, length, map, if◌then◌else◌, None, IsTrue, IsPermutation};
ghost use Rattle.std.specs.FinMap.{empty, entries, len, get, contains_key, insert, remove, is_sorted};
ghost use Rattle.cs_types.specs.Comparisons.{most_comparisons};
ghost use Rattle.order_tree.specs.Rank.{key_at, least_rank, stamped};
ghost use Rattle.cs_types.specs.Queue.{key_cmp, top_of};
ghost use Rattle.order_tree.specs.Anew.{reranked};

use crate::key::Key;
use crate::movers::Movers;
use crate::order::Closed;
use crate::recent::RecentTree;
use crate::renewal::Renewal;
use cs_types::{ClassQueue, OutOfMemory, Pid, Steps};
use std::alloc::Global;
use std::marker::Model;
use std::sync::ledger::Ledger;

/// The tasks of a scheduling class on one sibling, by rising rank and then by rising stamp.
///
/// The parameter is what it takes memory from, until it is closed.
#[derive(Drop)]
pub struct RankTree<A = Global> {
    tree: RecentTree<A>,
}

impl<A> Model for RankTree<A> {
    ghost use Rattle.cs_types.specs.Queue.{Ranked};
    ghost use Rattle.cs_types.proofs.Codes.{ranked_code};

    ghost Value = { Ranked };

    ghost coded = { ranked_code };

    ghost use Rattle.order_tree.specs.Rank.{ranked_of, IsOfClass};

    ghost view = { λ queue. ranked_of queue.tree };

    ghost invariant = { λ queue. IsOfClass queue.tree.members };
}

impl RankTree {
    /// No task, and nothing reserved. It takes no memory.
    pub fn empty(alloc: Global) -> RankTree
        ensures members { result.members ≡ empty }
        ensures spare { result.spare ≡ 0 }
    {
        RankTree {
            tree: RecentTree::empty(alloc),
        }
    }

    /// The same queue, without its allocator: no call of it takes memory any more.
    pub fn close(self) -> RankTree<Closed>
        ensures { result ≡ self }
    {
        RankTree {
            tree: self.tree.close(),
        }
    }
}

impl<A> RankTree<A> {
    /// Puts a task at a key where none is.
    #[inline(always)]
    pub fn put<L: Ledger>(&mut self, rank: u128, stamp: u64, pid: Pid, comparisons: &mut Steps<L>)
        requires spare { 0 < self.old.spare }
        requires free { get self.old.members (rank, stamp) ≡ None }
        ensures members { self.new.members ≡ insert self.old.members (rank, stamp) pid }
        ensures spare { self.new.spare + 1 ≡ self.old.spare }
        ensures counted { comparisons.new
            ≤ comparisons.old + most_comparisons (len self.old.members) }
    {
        self.tree.insert(key(rank, stamp), pid, comparisons);
    }

    /// Takes the task at a key out. `false` comes exactly if none is there, and then nothing
    /// changes.
    pub fn take<L: Ledger>(&mut self, rank: u128, stamp: u64, comparisons: &mut Steps<L>) -> bool
        ensures found { result ≡ contains_key self.old.members (rank, stamp) }
        ensures members { self.new.members ≡ remove self.old.members (rank, stamp) }
        ensures spare { self.new.spare ≡ self.old.spare + (if result then 1 else 0) }
        ensures counted { comparisons.new
            ≤ comparisons.old + most_comparisons (len self.old.members) }
    {
        self.tree.remove(&key(rank, stamp), comparisons)
    }

    /// The task with the least rank, and among those with the least stamp. `None` exactly if there is
    /// no task.
    #[inline(always)]
    pub fn top<L: Ledger>(&self, comparisons: &mut Steps<L>) -> Option<Pid>
        ensures top { result ≡ top_of self.now.members }
        ensures counted { comparisons.new
            ≤ comparisons.old + most_comparisons (len self.now.members) }
    {
        let first = self.tree.first(comparisons)?;
        Some(first.1)
    }

    /// How many tasks there are.
    pub fn len(&self) -> u32
        ensures { result ≡ len self.now.members }
    {
        self.tree.len()
    }

    /// Every task leaves.
    pub fn clear(&mut self)
        ensures members { self.new.members ≡ empty }
        ensures spare { self.new.spare ≡ self.old.spare + len self.old.members }
    {
        self.tree.clear();
    }

    /// The task at a rank, which must be there, gets another rank, at which no task may have its stamp.
    #[inline(always)]
    pub fn set_rank<L: Ledger>(
        &mut self,
        rank: u128,
        later: u128,
        stamp: u64,
        pid: Pid,
        comparisons: &mut Steps<L>,
    )
        requires there { IsTrue (contains_key self.old.members (rank, stamp)) }
        requires free { get (remove self.old.members (rank, stamp)) (later, stamp) ≡ None }
        ensures members { self.new.members
            ≡ insert (remove self.old.members (rank, stamp)) (later, stamp) pid }
        ensures spare { self.new.spare ≡ self.old.spare }
        ensures counted { comparisons.new
            ≤ comparisons.old + most_comparisons (len self.old.members)
            + most_comparisons (len (remove self.old.members (rank, stamp))) }
    {
        self.tree
            .set_rank(&key(rank, stamp), later, pid, comparisons);
    }

    /// The least rank. `None` exactly if there is no task.
    #[inline(always)]
    pub fn least_rank<L: Ledger>(&self, comparisons: &mut Steps<L>) -> Option<u128>
        ensures least { result ≡ least_rank self.now.members }
        ensures counted { comparisons.new ≤ comparisons.old + 1 }
    {
        self.tree.least_rank(comparisons)
    }

    /// Hands over each task by its stamp and its pid, in any order.
    pub fn tell_into<M: Movers>(&self, movers: &mut M)
        requires fits { length (M.told movers.old) + len self.now.members ≤ 256 }
        ensures told { IsPermutation (M.told movers.old ++ map stamped (entries self.now.members))
            (M.told movers.new) }
    {
        self.tree.tell_into(movers);
    }

    /// Each task gets the rank and the stamp that it has now, with which they stand in the same order.
    pub fn renew<R: Renewal, L: Ledger>(&mut self, renewal: &R, comparisons: &mut Steps<L>)
        requires rising { IsTrue
            (is_sorted key_cmp (map (reranked (R.at renewal.now)) (entries self.old.members))) }
        ensures entries { entries self.new.members
            ≡ map (reranked (R.at renewal.now)) (entries self.old.members) }
        ensures spare { self.new.spare ≡ self.old.spare }
        ensures counted { comparisons.new
            ≤ comparisons.old + most_comparisons (len self.old.members) }
    {
        self.tree.renew(renewal, comparisons);
    }
}

impl ClassQueue for RankTree {
    ghost members = { λ queue. queue.members };

    ghost spare = { λ queue. queue.spare };

    fn reserve(&mut self, n: u32) -> Result<(), OutOfMemory> {
        self.tree.reserve(n)
    }

    #[inline(always)]
    fn put<L: Ledger>(&mut self, rank: u128, stamp: u64, pid: Pid, comparisons: &mut Steps<L>) {
        RankTree::put(self, rank, stamp, pid, comparisons);
    }

    fn take<L: Ledger>(&mut self, rank: u128, stamp: u64, comparisons: &mut Steps<L>) -> bool {
        RankTree::take(self, rank, stamp, comparisons)
    }

    #[inline(always)]
    fn top<L: Ledger>(&self, comparisons: &mut Steps<L>) -> Option<Pid> {
        RankTree::top(self, comparisons)
    }

    fn len(&self) -> u32 {
        RankTree::len(self)
    }
}

/// The key of a rank and a stamp.
fn key(rank: u128, stamp: u64) -> Key
    ensures { result ≡ key_at (rank, stamp) }
{
    Key {
        group: 0,
        class: 0,
        rank,
        stamp,
    }
}
