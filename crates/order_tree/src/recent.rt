//! A tree, and beside it the entry that was put last. It is apart, since it knows a tree by its contract alone.

ghost use Rattle.std.specs.Prelude as list;
ghost use Rattle.std.specs.Prelude.{◌≡◌, ◌+◌, ◌<◌, ◌≤◌, ◌++◌, length, max, true, None, OnOk, OnErr, if◌then◌else◌, IsPermutation, IsTrue};
ghost use Rattle.std.specs.FinMap as map;
ghost use Rattle.std.specs.Option.{option_map};
ghost use Rattle.cs_types.specs.Comparisons.{most_comparisons};
ghost use Rattle.order_tree.specs.Anew.{rekeyed};
ghost use Rattle.order_tree.specs.Order.{key_cmp, start_of, stamped, first_of, first_from, next_of};
ghost use Rattle.order_tree.specs.Rank.{IsOfClass};
ghost use Rattle.order_tree.specs.Recent.{lent, reaching, is_at, is_past};

use crate::key::Key;
use crate::movers::Movers;
use crate::order::{Closed, OrderTree, lesser, lesser_lent};
use crate::renewal::Renewal;
use crate::tree::reaches;
use cs_types::{OutOfMemory, Pid, Steps};
use std::alloc::Global;
use std::marker::Model;
use std::sync::ledger::Ledger;

/// Pids at keys, in rising order of the keys. To put a pid and then to take it out again changes no tree, so
/// that the key of a running task can change often. A call that looks for a key counts each comparison of two
/// keys, and among n keys makes at most twice the number of binary digits of n, and two more.
///
/// The parameter is that of the tree.
#[derive(Drop)]
pub struct RecentTree<A = Global> {
    tree: OrderTree<A>,
    /// What was put last, not counting what stands after it in order, if it was not taken out since.
    recent: Option<(Key, Pid)>,
}

impl<A> Model for RecentTree<A> {
    ghost use Rattle.order_tree.specs.Order.{Ordered};
    ghost use Rattle.order_tree.specs.Branch.{ordered_code};

    ghost Value = { Ordered };

    ghost coded = { ordered_code };

    ghost use Rattle.order_tree.specs.Recent.{ordered_with, StandsBeside};

    ghost view = { λ order. ordered_with order.recent order.tree };

    ghost invariant = { λ order. StandsBeside order.recent order.tree };
}

impl RecentTree {
    /// No key, and no spare node. It takes no memory.
    pub fn empty(alloc: Global) -> RecentTree
        ensures members { result.members ≡ map.empty }
        ensures spare { result.spare ≡ 0 }
    {
        RecentTree {
            tree: OrderTree::empty(alloc),
            recent: None,
        }
    }

    /// Raises `spare` to `n` keys if it is below. This call alone takes memory. An `Err`, for want of it or if there
    /// would be more than 4294967295 keys, changes nothing.
    pub fn reserve(&mut self, n: u32) -> Result<(), OutOfMemory>
        ensures members { self.new.members ≡ self.old.members }
        ensures spare { OnOk result (self.new.spare ≡ max n self.old.spare) }
        ensures err { OnErr result (self.new.spare ≡ self.old.spare) }
    {
        let Some(most) = n.checked_add(u32::from(self.recent.is_some())) else {
            return Err(OutOfMemory);
        };
        self.tree.reserve(most)
    }

    /// The same tree, without its allocator: no call of it takes memory any more.
    pub fn close(self) -> RecentTree<Closed>
        ensures { result ≡ self }
    {
        RecentTree {
            tree: self.tree.close(),
            recent: self.recent,
        }
    }
}

impl<A> RecentTree<A> {
    /// Puts a pid at a key where none is. If it stands after the one beside the tree in order, it goes into the tree:
    /// the other is the one that is likely to run, and then its key changes next.
    #[inline(always)]
    pub fn insert<L: Ledger>(&mut self, key: Key, pid: Pid, comparisons: &mut Steps<L>)
        requires spare { 0 < self.old.spare }
        requires free { map.get self.old.members key ≡ None }
        ensures members { self.new.members ≡ map.insert self.old.members key pid }
        ensures spare { self.new.spare + 1 ≡ self.old.spare }
        ensures counted { comparisons.new
            ≤ comparisons.old + most_comparisons (map.len self.old.members) }
    {
        if is_past(&self.recent, &key, comparisons) {
            self.tree.insert(key, pid, comparisons);
            return;
        }
        self.put_beside(key, pid, comparisons);
    }

    /// Puts a pid at a key where none is. It stands beside the tree then, and what stood there goes into it.
    #[inline(always)]
    fn put_beside<L: Ledger>(&mut self, key: Key, pid: Pid, comparisons: &mut Steps<L>)
        requires spare { 0 < self.old.spare }
        requires free { map.get self.old.members key ≡ None }
        ensures members { self.new.members ≡ map.insert self.old.members key pid }
        ensures spare { self.new.spare + 1 ≡ self.old.spare }
        ensures counted { comparisons.new + 1
            ≤ comparisons.old + most_comparisons (map.len self.old.members) }
    {
        let Some((last, other)) = &mut self.recent else {
            self.recent = Some((key, pid));
            return;
        };
        self.tree.insert(*last, *other, comparisons);
        last.set(&key);
        *other = pid;
    }

    /// Takes out the pid at a key. `false` comes exactly if none is there, and then nothing changes.
    #[inline(always)]
    pub fn remove<L: Ledger>(&mut self, key: &Key, comparisons: &mut Steps<L>) -> bool
        ensures found { result ≡ map.contains_key self.old.members key.now }
        ensures members { self.new.members ≡ map.remove self.old.members key.now }
        ensures spare { self.new.spare ≡ self.old.spare + (if result then 1 else 0) }
        ensures counted { comparisons.new
            ≤ comparisons.old + most_comparisons (map.len self.old.members) }
    {
        if is_at(&self.recent, key, comparisons) {
            self.recent = None;
            return true;
        }
        // The key is copied, so that the caller's own stays in registers if it is not looked for in the tree.
        self.tree.remove(&Key { ..*key }, comparisons)
    }

    /// The pid at a key, which must be there, gets another rank. No pid may be at that with the rest of its key. If it
    /// stands beside the tree, it stays there.
    #[inline(always)]
    pub fn set_rank<L: Ledger>(
        &mut self,
        key: &Key,
        rank: u128,
        pid: Pid,
        comparisons: &mut Steps<L>,
    )
        requires there { IsTrue (map.contains_key self.old.members key.now) }
        requires free { map.get (map.remove self.old.members key.now)
            (record key.now { rank = rank }) ≡ None }
        ensures members { self.new.members ≡ map.insert
            (map.remove self.old.members key.now) (record key.now { rank = rank }) pid }
        ensures spare { self.new.spare ≡ self.old.spare }
        ensures counted { comparisons.new
            ≤ comparisons.old + most_comparisons (map.len self.old.members)
            + most_comparisons (map.len (map.remove self.old.members key.now)) }
    {
        if is_at(&self.recent, key, comparisons) {
            let Some((last, other)) = &mut self.recent else {
                unreachable!()
            };
            last.rank = rank;
            *other = pid;
            return;
        }
        self.tree.remove(&Key { ..*key }, comparisons);
        self.put_beside(Key { rank, ..*key }, pid, comparisons);
    }

    /// Takes out all pids. It compares no key.
    pub fn clear(&mut self)
        ensures members { self.new.members ≡ map.empty }
        ensures spare { self.new.spare ≡ self.old.spare + map.len self.old.members }
    {
        self.recent = None;
        self.tree.clear();
    }

    /// Hands over all pids, each with the stamp of its key, in any order. It compares no key.
    pub fn tell_into<M: Movers>(&self, movers: &mut M)
        requires fits { length (M.told movers.old) + map.len self.now.members ≤ 256 }
        ensures told { IsPermutation (M.told movers.old
            ++ list.map stamped (map.entries self.now.members)) (M.told movers.new) }
    {
        if let Some((key, pid)) = self.recent {
            movers.push((key.stamp, pid));
        }
        self.tree.tell_into(movers);
    }

    /// Each key gets the rank and the stamp that its pid has now, with which the keys still rise.
    pub fn renew<R: Renewal, L: Ledger>(&mut self, renewal: &R, comparisons: &mut Steps<L>)
        requires rising { IsTrue (map.is_sorted key_cmp
            (list.map (rekeyed (R.at renewal.now)) (map.entries self.old.members))) }
        ensures entries { map.entries self.new.members
            ≡ list.map (rekeyed (R.at renewal.now)) (map.entries self.old.members) }
        ensures spare { self.new.spare ≡ self.old.spare }
        ensures counted { comparisons.new
            ≤ comparisons.old + most_comparisons (map.len self.old.members) }
    {
        if let Some((key, pid)) = self.recent.take() {
            self.tree.insert(key, pid, comparisons);
        }
        self.tree.renew(renewal);
    }

    /// The least key, and the pid there. `None` exactly if there is no key.
    #[inline(always)]
    pub fn first<L: Ledger>(&self, comparisons: &mut Steps<L>) -> Option<(Key, Pid)>
        ensures first { result ≡ first_of self.now.members }
        ensures counted { comparisons.new ≤ comparisons.old + 1 }
    {
        lesser(self.recent, self.tree.first(), comparisons)
    }

    /// The rank of the least key, if all keys are of one group and one class: the lesser one of two ranks, whatever the
    /// stamps are. `None` exactly if there is no key.
    #[inline(always)]
    pub fn least_rank<L: Ledger>(&self, comparisons: &mut Steps<L>) -> Option<u128>
        requires alike { IsOfClass self.now.members }
        ensures least { result ≡ option_map (λ entry. entry.0.rank) (first_of self.now.members) }
        ensures counted { comparisons.new ≤ comparisons.old + 1 }
    {
        let Some((key, _)) = &self.recent else {
            return self.tree.least_rank();
        };
        let Some(rank) = self.tree.least_rank() else {
            return Some(key.rank);
        };
        comparisons.tick();
        Some(key.rank.min(rank))
    }

    /// The least key that is not below this one, and the pid there. `None` exactly if each key is
    /// below it.
    pub fn first_from<L: Ledger>(&self, key: &Key, comparisons: &mut Steps<L>) -> Option<(Key, Pid)>
        ensures first { result ≡ first_from self.now.members key.now }
        ensures counted { comparisons.new
            ≤ comparisons.old + most_comparisons (map.len self.now.members) }
    {
        let found = self.tree.first_from(key, comparisons);
        lesser(
            reaching(self.recent, key, true, comparisons),
            found,
            comparisons,
        )
    }

    /// The least key that is of this group or of a greater one, and the pid there. `None` exactly if each key is of a
    /// lesser group.
    pub fn first_in<L: Ledger>(&self, group: u64, comparisons: &mut Steps<L>) -> Option<(Key, Pid)>
        ensures first { result ≡ first_from self.now.members (start_of group) }
        ensures counted { comparisons.new
            ≤ comparisons.old + most_comparisons (map.len self.now.members) }
    {
        let found = self.tree.first_in(group, comparisons);
        copied(lesser_lent(
            in_group(&self.recent, group, comparisons),
            found,
            comparisons,
        ))
    }

    /// The least key that is above this one, and the pid there. `None` exactly if no key is above it.
    pub fn next<L: Ledger>(&self, key: &Key, comparisons: &mut Steps<L>) -> Option<(Key, Pid)>
        ensures next { result ≡ next_of self.now.members key.now }
        ensures counted { comparisons.new
            ≤ comparisons.old + most_comparisons (map.len self.now.members) }
    {
        let found = self.tree.next(key, comparisons);
        lesser(
            reaching(self.recent, key, false, comparisons),
            found,
            comparisons,
        )
    }

    /// How many keys there are.
    pub fn len(&self) -> u32
        ensures { result ≡ map.len self.now.members }
    {
        self.tree.len() + u32::from(self.recent.is_some())
    }
}

/// Whether the entry, if there is one, is at this key.
fn is_at<L: Ledger>(entry: &Option<(Key, Pid)>, key: &Key, comparisons: &mut Steps<L>) -> bool
    ensures at { result ≡ is_at entry.now key.now }
    ensures counted { comparisons.new ≤ comparisons.old + 1 }
{
    let Some((other, _)) = entry else {
        return false;
    };
    comparisons.tick();
    key.cmp(other).is_eq()
}

/// Whether there is an entry, and the key is not below its.
#[inline(always)]
fn is_past<L: Ledger>(entry: &Option<(Key, Pid)>, key: &Key, comparisons: &mut Steps<L>) -> bool
    ensures past { result ≡ is_past entry.now key.now }
    ensures counted { comparisons.new ≤ comparisons.old + 1 }
{
    let Some((other, _)) = entry else {
        return false;
    };
    comparisons.tick();
    !key.is_below(other)
}

/// The entry, if its key is above this one, or also at it if `at` is true.
fn reaching<L: Ledger>(
    entry: Option<(Key, Pid)>,
    key: &Key,
    at: bool,
    comparisons: &mut Steps<L>,
) -> Option<(Key, Pid)>
    ensures reaching { result ≡ reaching at key.now entry }
    ensures counted { comparisons.new ≤ comparisons.old + 1 }
{
    let Some((other, _)) = &entry else {
        return None;
    };
    comparisons.tick();
    if reaches(other.cmp(key), at) {
        entry
    } else {
        None
    }
}

/// The entry, if its key is of this group or of a greater one.
#[inline(always)]
fn in_group<'a, L: Ledger>(
    entry: &'a Option<(Key, Pid)>,
    group: u64,
    comparisons: &mut Steps<L>,
) -> Option<(&'a Key, Pid)>
    ensures reaching { lent result ≡ reaching true (start_of group) entry.now }
    ensures counted { comparisons.new ≤ comparisons.old + 1 }
{
    let Some((key, pid)) = entry else {
        return None;
    };
    comparisons.tick();
    if key.is_below(&Key::start_of(group)) {
        return None;
    }
    Some((key, *pid))
}

/// A copy of an entry whose key is lent.
#[inline(always)]
fn copied(entry: Option<(&Key, Pid)>) -> Option<(Key, Pid)>
    ensures { result ≡ lent entry.entry }
{
    let (key, pid) = entry?;
    Some((*key, pid))
}
