//! The tree with the nodes that are spare. It is apart since here alone memory is taken, and that before the tree is
//! closed.

ghost use Rattle.std.specs.Prelude as list;
ghost use Rattle.std.specs.Prelude.{◌≡◌, ◌+◌, ◌*◌, ◌^◌, ◌<◌, ◌≤◌, max, None, IfOk, OnOk, OnErr, if◌then◌else◌, length, slice_get, ◌++◌, IsTrue};
ghost use Rattle.std.specs.FinMap as map;
ghost use Rattle.std.specs.Option.{option_map};
ghost use Rattle.cs_types.specs.Comparisons.{digits};
ghost use Rattle.order_tree.specs.Anew.{rekeyed};
ghost use Rattle.order_tree.specs.Order.{key_cmp, start_of, stamped, first_of, first_from, next_of};
ghost use Rattle.order_tree.specs.Balance.{entry_at};
ghost use Rattle.order_tree.specs.Recent.{lent, lesser, renewed};

use crate::key::Key;
use crate::movers::Movers;
use crate::renewal::Renewal;
use crate::tree::{Node, Tree};
use bounded_list::BoundedList;
use cs_types::{OutOfMemory, Pid, Steps};
use std::alloc::Global;
use std::marker::Model;
use std::mem;
use std::sync::ledger::Ledger;

/// Pids at keys, in rising order of the keys. A call that looks for a key counts each comparison of two
/// keys, and among n keys makes at most twice the number of binary digits of n.
///
/// The parameter is what it takes memory from. Once it is `Closed` there is no call that could take any.
#[derive(Drop)]
pub struct OrderTree<A = Global> {
    tree: Tree,
    /// Nodes that stand for no key, as many as are spare or more.
    nodes: BoundedList<Box<Node>>,
    /// How many keys there are.
    count: u32,
    /// How many more there may be.
    spare: u32,
    /// The entry of the least key, which is asked for more often than it changes.
    first: Option<(Key, Pid)>,
    /// What it takes memory from.
    memory: A,
}

/// What stands in the place of the allocator in a tree or a queue that takes no more memory.
#[derive(Drop)]
pub struct Closed;

impl<A> Model for OrderTree<A> {
    ghost use Rattle.order_tree.specs.Order.{Ordered};
    ghost use Rattle.order_tree.specs.Branch.{ordered_code};

    ghost Value = { Ordered };

    ghost coded = { ordered_code };

    ghost use Rattle.order_tree.specs.Inside.{ordered_of, IsSound};

    ghost view = { ordered_of };

    ghost invariant = { IsSound };
}

impl OrderTree {
    /// No key, and no spare node. It takes no memory.
    pub fn empty(alloc: Global) -> OrderTree
        ensures members { result.members ≡ map.empty }
        ensures spare { result.spare ≡ 0 }
    {
        OrderTree {
            tree: Tree::empty(),
            nodes: BoundedList::with_room(alloc, 0).unwrap(),
            count: 0,
            spare: 0,
            first: None,
            memory: alloc,
        }
    }

    /// Raises `spare` to `n` keys if it is below. This call alone takes memory. An `Err`, for want of it or if there
    /// would be more than 4294967295 keys, changes nothing.
    pub fn reserve(&mut self, n: u32) -> Result<(), OutOfMemory>
        ensures members { self.new.members ≡ self.old.members }
        ensures spare { OnOk result (self.new.spare ≡ max n self.old.spare) }
        ensures err { OnErr result (self.new.spare ≡ self.old.spare) }
    {
        if n <= self.spare {
            return Ok(());
        }
        let Some(places) = self.count.checked_add(n) else {
            return Err(OutOfMemory);
        };
        self.nodes = blank_nodes(self.memory, n as usize, places as usize)?;
        self.spare = n;
        Ok(())
    }

    /// The same tree, without its allocator: no call of it takes memory any more.
    pub fn close(self) -> OrderTree<Closed>
        ensures { result ≡ self }
    {
        OrderTree {
            tree: self.tree,
            nodes: self.nodes,
            count: self.count,
            spare: self.spare,
            first: self.first,
            memory: Closed,
        }
    }
}

impl<A> OrderTree<A> {
    /// Puts a pid at a key where none is.
    #[inline(always)]
    pub fn insert<L: Ledger>(&mut self, key: Key, pid: Pid, comparisons: &mut Steps<L>)
        requires spare { 0 < self.old.spare }
        requires free { map.get self.old.members key ≡ None }
        ensures members { self.new.members ≡ map.insert self.old.members key pid }
        ensures spare { self.new.spare + 1 ≡ self.old.spare }
        ensures counted { comparisons.new
            ≤ comparisons.old + 2 * digits (map.len self.old.members) }
    {
        take_lesser(&mut self.first, key, pid, comparisons);
        let mut node = self.nodes.pop().unwrap();
        node.hold(key, pid);
        self.tree.insert(node, comparisons);
        self.count += 1;
        self.spare -= 1;
    }

    /// Takes out the pid at a key. `false` comes exactly if none is there, and then nothing changes.
    pub fn remove<L: Ledger>(&mut self, key: &Key, comparisons: &mut Steps<L>) -> bool
        ensures found { result ≡ map.contains_key self.old.members key.now }
        ensures members { self.new.members ≡ map.remove self.old.members key.now }
        ensures spare { self.new.spare ≡ self.old.spare + (if result then 1 else 0) }
        ensures counted { comparisons.new
            ≤ comparisons.old + 2 * digits (map.len self.old.members) }
    {
        let mut taken = None;
        self.tree.remove(key, &mut taken, comparisons);
        let Some(node) = taken else {
            return false;
        };
        renew(&mut self.first, node.pid(), &self.tree);
        self.nodes.push(node);
        self.count -= 1;
        self.spare += 1;
        true
    }

    /// Takes out all pids. It compares no key.
    pub fn clear(&mut self)
        ensures members { self.new.members ≡ map.empty }
        ensures spare { self.new.spare ≡ self.old.spare + map.len self.old.members }
    {
        mem::replace(&mut self.tree, Tree::empty()).give(&mut self.nodes);
        self.first = None;
        free_all(&mut self.count, &mut self.spare);
    }

    /// Hands over all pids by rising key, each with the stamp of its key. It compares no key.
    pub fn tell_into<M: Movers>(&self, movers: &mut M)
        requires fits { length (M.told movers.old) + map.len self.now.members ≤ 256 }
        ensures told { M.told movers.new
            ≡ M.told movers.old ++ list.map stamped (map.entries self.now.members) }
    {
        self.tree.tell(movers);
    }

    /// Each key gets the rank and the stamp that its pid has now, with which the keys still rise. It compares no key.
    pub fn renew<R: Renewal>(&mut self, renewal: &R)
        requires rising { IsTrue (map.is_sorted key_cmp
            (list.map (rekeyed (R.at renewal.now)) (map.entries self.old.members))) }
        ensures entries { map.entries self.new.members
            ≡ list.map (rekeyed (R.at renewal.now)) (map.entries self.old.members) }
        ensures spare { self.new.spare ≡ self.old.spare }
    {
        self.tree.renew(renewal);
        look_anew(&mut self.first, &self.tree);
    }

    /// The least key, and the pid there. `None` exactly if there is no key.
    #[inline(always)]
    pub fn first(&self) -> Option<(Key, Pid)>
        ensures { result ≡ first_of self.now.members }
    {
        self.first
    }

    /// The rank of the least key. `None` exactly if there is no key.
    #[inline(always)]
    pub fn least_rank(&self) -> Option<u128>
        ensures { result ≡ option_map (λ entry. entry.0.rank) (first_of self.now.members) }
    {
        let Some((key, _)) = &self.first else {
            return None;
        };
        Some(key.rank)
    }

    /// The least key that is not below this one, and the pid there. `None` exactly if each key is
    /// below it.
    pub fn first_from<L: Ledger>(&self, key: &Key, comparisons: &mut Steps<L>) -> Option<(Key, Pid)>
        ensures first { result ≡ first_from self.now.members key.now }
        ensures counted { comparisons.new
            ≤ comparisons.old + 2 * digits (map.len self.now.members) }
    {
        entry_of(self.tree.seek(key, true, comparisons))
    }

    /// The least key that is of this group or of a greater one, and the pid there. `None` exactly if each key is of a
    /// lesser group.
    #[inline(always)]
    pub fn first_in<L: Ledger>(&self, group: u64, comparisons: &mut Steps<L>) -> Option<(&Key, Pid)>
        ensures first { lent result ≡ first_from self.now.members (start_of group) }
        ensures counted { comparisons.new
            ≤ comparisons.old + 2 * digits (map.len self.now.members) }
    {
        lend(self.tree.first_in(group, comparisons))
    }

    /// The least key that is above this one, and the pid there. `None` exactly if no key is above it.
    pub fn next<L: Ledger>(&self, key: &Key, comparisons: &mut Steps<L>) -> Option<(Key, Pid)>
        ensures next { result ≡ next_of self.now.members key.now }
        ensures counted { comparisons.new
            ≤ comparisons.old + 2 * digits (map.len self.now.members) }
    {
        entry_of(self.tree.seek(key, false, comparisons))
    }

    /// How many keys there are.
    pub fn len(&self) -> u32
        ensures count { result ≡ map.len self.now.members }
        ensures few { result + self.now.spare < 2 ^ 32 }
    {
        self.count
    }
}

/// Those that were counted are spare then, and none is counted.
#[inline(always)]
fn free_all(count: &mut u32, spare: &mut u32)
    requires few { count.old + spare.old < 2 ^ 32 }
    ensures count { count.new ≡ 0 }
    ensures spare { spare.new ≡ spare.old + count.old }
{
    *spare += *count;
    *count = 0;
}

/// The entry with the lesser key. If one is not there, it is the other.
#[inline(always)]
pub fn lesser<L: Ledger>(
    one: Option<(Key, Pid)>,
    other: Option<(Key, Pid)>,
    comparisons: &mut Steps<L>,
) -> Option<(Key, Pid)>
    ensures lesser { result ≡ lesser one other }
    ensures counted { comparisons.new ≤ comparisons.old + 1 }
    ensures alone { other ≡ None → comparisons.new ≡ comparisons.old }
{
    let Some(left) = one else {
        return other;
    };
    let Some(right) = other else {
        return one;
    };
    comparisons.tick();
    if left.0.is_below(&right.0) {
        one
    } else {
        other
    }
}

/// The same for entries whose keys are lent, so that the caller copies the one that it gets and no more.
#[inline(always)]
pub fn lesser_lent<'a, L: Ledger>(
    one: Option<(&'a Key, Pid)>,
    other: Option<(&'a Key, Pid)>,
    comparisons: &mut Steps<L>,
) -> Option<(&'a Key, Pid)>
    ensures lesser { lent result ≡ lesser (lent one.entry) (lent other.entry) }
    ensures counted { comparisons.new ≤ comparisons.old + 1 }
{
    let Some(left) = one else {
        return other;
    };
    let Some(right) = other else {
        return one;
    };
    comparisons.tick();
    if left.0.is_below(right.0) { one } else { other }
}

/// Writes an entry where none is, or over one with a greater key.
#[inline(always)]
fn take_lesser<L: Ledger>(
    first: &mut Option<(Key, Pid)>,
    key: Key,
    pid: Pid,
    comparisons: &mut Steps<L>,
)
    ensures lesser { first.new ≡ lesser (Some (key, pid)) first.old }
    ensures counted { comparisons.new ≤ comparisons.old + 1 }
    ensures alone { first.old ≡ None → comparisons.new ≡ comparisons.old }
{
    if let Some((least, _)) = first {
        comparisons.tick();
        if !key.is_below(least) {
            return;
        }
    }
    *first = Some((key, pid));
}

/// Looks in the tree for the first entry anew, if the old one had the pid that was taken out.
#[inline(always)]
fn renew(first: &mut Option<(Key, Pid)>, taken: Pid, tree: &Tree)
    ensures { first.new ≡ renewed first.old taken (slice_get tree.now.entries 0) }
{
    let Some((_, pid)) = first else {
        return;
    };
    if *pid == taken {
        look_anew(first, tree);
    }
}

/// Looks in the tree for the first entry.
#[inline(never)]
fn look_anew(first: &mut Option<(Key, Pid)>, tree: &Tree)
    ensures { first.new ≡ slice_get tree.now.entries 0 }
{
    *first = entry_of(tree.first());
}

/// The entry of a node, if there is one.
fn entry_of(node: Option<&Node>) -> Option<(Key, Pid)>
    ensures { result ≡ entry_at node.entry }
{
    let node = node?;
    Some(node.entry())
}

/// The entry of a node, if there is one, with its key lent.
#[inline(always)]
fn lend(node: Option<&Node>) -> Option<(&Key, Pid)>
    ensures { lent result ≡ entry_at node.entry }
{
    let node = node?;
    Some(node.lend())
}

/// `count` nodes that stand for no key, in a list that has room for `places`. Here alone nodes are made.
fn blank_nodes(
    alloc: Global,
    count: usize,
    places: usize,
) -> Result<BoundedList<Box<Node>>, OutOfMemory>
    requires fits { count ≤ places }
    ensures count { IfOk result (λ nodes. length nodes.items ≡ count) }
    ensures places { IfOk result (λ nodes. nodes.room ≡ places) }
{
    let mut nodes = BoundedList::with_room(alloc, places)?;
    while nodes.len() < count {
        nodes.push(Box::new(alloc, Node::blank())?);
    }
    Ok(nodes)
}
