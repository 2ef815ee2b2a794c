//! The tree: its nodes, and the walks that look for a key. How it keeps in balance stands in `balance`.

ghost use Rattle.std.specs.Prelude.{◌≡◌, ◌≢◌, ◌+◌, ◌*◌, ◌≤◌, true, [], ◌++◌, length, ◌↔◌, IsTrue, None, Some, MatchOption, if◌then◌else◌, slice_get, map};
ghost use Rattle.std.specs.List as list;
ghost use Rattle.std.specs.Option.{option_map, option_or};
ghost use Rattle.std.specs.FinMap.{find, put, is_sorted};
ghost use Rattle.cs_types.specs.Comparisons.{digits};
ghost use Rattle.order_tree.specs.Order.{key_cmp, start_of, stamped};
ghost use Rattle.order_tree.specs.Anew.{rekeyed};
ghost use Rattle.order_tree.specs.Branch.{without, reaches};
ghost use Rattle.order_tree.specs.Balance.{entry_in, entry_at, under, HasMany, IsEven, IsRoot, HasFirst};

mod balance;

use crate::key::Key;
use crate::movers::Movers;
use crate::renewal::Renewal;
use balance::{hand_out, lean_left, lean_right, plant, uproot};
use bounded_list::BoundedList;
use cs_types::{Pid, Steps};
use std::cmp::Ordering;
use std::marker::Model;
use std::mem;
use std::sync::ledger::Ledger;

/// A tree, or a part of one. The two sides of a node differ in height by one at most.
#[cycle(tree)]
#[derive(Drop)]
pub struct Tree {
    root: Option<Box<Node>>,
}

/// An entry, and the trees of the lesser and of the greater keys.
#[cycle(tree)]
#[derive(Drop)]
pub struct Node {
    left: Tree,
    key: Key,
    pid: Pid,
    /// How the height of the left side compares with that of the right.
    lean: Ordering,
    right: Tree,
}

/// A tree that was taken apart at its root. What the node holds beside its entry counts no more.
#[derive(Drop)]
pub struct Parts {
    left: Tree,
    node: Box<Node>,
    right: Tree,
}

impl Model for Tree {
    ghost use Rattle.order_tree.specs.Branch.{Branch, branch_code};

    ghost Value = { Branch };

    ghost coded = { branch_code };

    ghost use Rattle.order_tree.specs.Balance.{branch_of, IsBalanced};

    ghost view = { λ tree. branch_of tree.root };

    ghost invariant = { λ tree. IsBalanced tree.root };

    ghost use Rattle.std.specs.Prelude.{length};

    ghost size = { λ branch. length branch.entries };

    ghost use Rattle.std.proofs.Common.{arith, length-append};

    ghost size_decreases = { λ a h. Prim.grind (arith, length-append) };
}

impl Node {
    /// A node that stands in no tree.
    pub fn blank() -> Node {
        Node {
            left: Tree::empty(),
            key: Key::BLANK,
            pid: 0,
            lean: Ordering::Equal,
            right: Tree::empty(),
        }
    }

    /// Its entry.
    pub fn entry(&self) -> (Key, Pid)
        ensures { result ≡ entry_in self.now }
    {
        (self.key, self.pid)
    }

    /// Its entry, whose key is lent.
    pub fn lend(&self) -> (&Key, Pid)
        ensures { (result.0.now, result.1) ≡ entry_in self.now }
    {
        (&self.key, self.pid)
    }

    /// Its pid.
    pub fn pid(&self) -> Pid
        ensures { result ≡ self.now.pid }
    {
        self.pid
    }

    /// Its key, and those of the nodes below it, get the rank and the stamp that their pids have now, with which they
    /// still rise. So a walk calls no tree that is empty.
    fn renew<R: Renewal>(&mut self, renewal: &R)
        requires even { IsEven self.old }
        requires rising { IsTrue
            (is_sorted key_cmp (map (rekeyed (R.at renewal.now)) (under self.old).entries)) }
        ensures even { IsEven self.new }
        ensures entries { (under self.new).entries
            ≡ map (rekeyed (R.at renewal.now)) (under self.old).entries }
        ensures height { (under self.new).height ≡ (under self.old).height }
    {
        let Node {
            left,
            key,
            pid,
            right,
            ..
        } = self;
        if let Some(root) = &mut left.root {
            root.renew(renewal);
        }
        renewal.renew(*pid, &mut key.rank, &mut key.stamp);
        if let Some(root) = &mut right.root {
            root.renew(renewal);
        }
    }

    /// The node of the least key that is of this group or of a greater one, among its own key, which must be so, and
    /// the lesser ones.
    #[inline(always)]
    fn first_in<L: Ledger>(&self, group: u64, comparisons: &mut Steps<L>) -> &Node
        requires own { group ≤ self.now.key.group }
        ensures found { Some (entry_in result.now) ≡ option_or
            (list.find (λ entry. reaches true (key_cmp entry.0 (start_of group)))
            self.now.left.entries) (Some (entry_in self.now)) }
        ensures counted { comparisons.new ≤ comparisons.old + self.now.left.height }
    {
        let mut found = self;
        let mut tree = &self.left;
        while let Some(node) = &tree.root {
            comparisons.tick();
            if node.key.group < group {
                tree = &node.right;
            } else {
                found = node;
                tree = &node.left;
            }
        }
        found
    }

    /// Writes an entry over the node's.
    pub fn hold(&mut self, key: Key, pid: Pid)
        ensures { entry_in self.new ≡ (key, pid) }
    {
        self.key.set(&key);
        self.pid = pid;
    }
}

impl Tree {
    /// A tree with no entry. It takes no memory.
    pub fn empty() -> Tree
        ensures entries { result.entries ≡ [] }
        ensures height { result.height ≡ 0 }
    {
        Tree { root: None }
    }

    /// The two sides of the root, and the root.
    #[inline(always)]
    fn open(self) -> Option<Parts>
        ensures none { result ≡ None → self.height ≡ 0 }
        ensures shallow { self.height ≤ 2 * digits (length self.entries) }
        ensures parts { MatchOption result (self.entries ≡ [])
            (λ parts. IsRoot self parts.left (entry_in parts.node.value) parts.right) }
    {
        let mut node = self.root?;
        let left = mem::replace(&mut node.left, Tree::empty());
        let right = mem::replace(&mut node.right, Tree::empty());
        Some(Parts { left, node, right })
    }

    /// Whether it has no entry.
    fn is_empty(&self) -> bool
        ensures entries { IsTrue result ↔ self.now.entries ≡ [] }
        ensures height { IsTrue result → self.now.height ≡ 0 }
    {
        self.root.is_none()
    }

    /// The node of the first entry of all. It compares no key.
    pub fn first(&self) -> Option<&Node>
        ensures { entry_at result ≡ slice_get self.now.entries 0 }
    {
        let Some(root) = &self.root else {
            return None;
        };
        let mut node = &**root;
        while let Some(left) = &node.left.root {
            node = left;
        }
        Some(node)
    }

    /// The node of the first entry whose key is above this one, or also at it if `at` is true. It is out of line, since
    /// a loop within a caller keeps the compiler from seeing all that the caller writes.
    #[inline(never)]
    pub fn seek<L: Ledger>(&self, key: &Key, at: bool, comparisons: &mut Steps<L>) -> Option<&Node>
        ensures found { entry_at result
            ≡ list.find (λ entry. reaches at (key_cmp entry.0 key.now)) self.now.entries }
        ensures shallow { self.now.height ≤ 2 * digits (length self.now.entries) }
        ensures counted { comparisons.new ≤ comparisons.old + self.now.height }
    {
        let mut tree = self;
        let mut found = None;
        while let Some(node) = &tree.root {
            comparisons.tick();
            if reaches(node.key.cmp(key), at) {
                found = Some(&**node);
                tree = &node.left;
            } else {
                tree = &node.right;
            }
        }
        found
    }

    /// The same for the least key of a group, or at it. It reads the groups alone. Down to the first node of the group
    /// or of a greater one it has found none, and from there on it has one, so that neither walk keeps whether it has.
    #[inline(never)]
    pub fn first_in<L: Ledger>(&self, group: u64, comparisons: &mut Steps<L>) -> Option<&Node>
        ensures found { entry_at result ≡ list.find
            (λ entry. reaches true (key_cmp entry.0 (start_of group))) self.now.entries }
        ensures shallow { self.now.height ≤ 2 * digits (length self.now.entries) }
        ensures counted { comparisons.new ≤ comparisons.old + self.now.height }
    {
        let mut tree = self;
        while let Some(node) = &tree.root {
            comparisons.tick();
            if node.key.group >= group {
                return Some(node.first_in(group, comparisons));
            }
            tree = &node.right;
        }
        None
    }

    /// Puts the node in its place. No entry may have its key. The result tells whether the tree is a level higher then.
    /// It is inlined, so that a walk calls nothing for an empty side.
    #[cycle(insert)]
    #[inline(always)]
    pub fn insert<L: Ledger>(&mut self, node: Box<Node>, comparisons: &mut Steps<L>) -> bool
        requires free { find key_cmp node.value.key self.old.entries ≡ None }
        ensures entries { self.new.entries
            ≡ put key_cmp node.value.key node.value.pid self.old.entries }
        ensures height { self.new.height ≡ self.old.height + (if result then 1 else 0) }
        ensures many_before { HasMany self.old }
        ensures many { HasMany self.new }
        ensures counted { comparisons.new ≤ comparisons.old + self.old.height }
    {
        let Some(root) = &mut self.root else {
            return plant(&mut self.root, node);
        };
        Tree::insert_below(root, node, comparisons)
    }

    /// The same for a tree with this root.
    #[cycle(insert)]
    #[inline(never)]
    fn insert_below<L: Ledger>(
        root: &mut Box<Node>,
        node: Box<Node>,
        comparisons: &mut Steps<L>,
    ) -> bool
        requires even { IsEven root.old.value }
        requires free { find key_cmp node.value.key (under root.old.value).entries ≡ None }
        ensures even { IsEven root.new.value }
        ensures entries { (under root.new.value).entries
            ≡ put key_cmp node.value.key node.value.pid (under root.old.value).entries }
        ensures height { (under root.new.value).height
            ≡ (under root.old.value).height + (if result then 1 else 0) }
        ensures counted { comparisons.new ≤ comparisons.old + (under root.old.value).height }
    {
        let Node {
            left,
            key,
            right,
            ..
        } = &mut **root;
        comparisons.tick();
        if node.key.is_below(key) {
            if !left.insert(node, comparisons) {
                return false;
            }
            return lean_left(root);
        }
        if !right.insert(node, comparisons) {
            return false;
        }
        lean_right(root)
    }

    /// Takes out the node of the first entry, and puts it where none is. It compares no key. The result tells
    /// whether the tree is a level lower then.
    fn take_first(&mut self, taken: &mut Option<Box<Node>>) -> bool
        requires some { self.old.entries ≢ [] }
        requires none { taken.old ≡ None }
        ensures first { HasFirst self.old taken.new self.new result }
        ensures many_before { HasMany self.old }
        ensures many { HasMany self.new }
    {
        let Some(root) = &mut self.root else {
            unreachable!()
        };
        let Node { left, right, .. } = &mut **root;
        if left.is_empty() {
            let right = mem::replace(right, Tree::empty());
            hand_out(&mut self.root, right.root, taken);
            return true;
        }
        if !left.take_first(taken) {
            return false;
        }
        !lean_right(root)
    }

    /// Gives its nodes to the list, which has places for them. It compares no key.
    pub fn give(self, nodes: &mut BoundedList<Box<Node>>)
        requires places { length nodes.old.items + length self.entries ≤ nodes.old.room }
        ensures nodes { length nodes.new.items ≡ length nodes.old.items + length self.entries }
        ensures places { nodes.new.room ≡ nodes.old.room }
    {
        let Some(parts) = self.open() else {
            return;
        };
        parts.left.give(nodes);
        nodes.push(parts.node);
        parts.right.give(nodes);
    }

    /// Hands over its pids by rising key, each with the stamp of its key. It compares no key.
    pub fn tell<M: Movers>(&self, movers: &mut M)
        requires fits { length (M.told movers.old) + length self.now.entries ≤ 256 }
        ensures told { M.told movers.new ≡ M.told movers.old ++ map stamped self.now.entries }
    {
        let Some(node) = &self.root else {
            return;
        };
        node.left.tell(movers);
        movers.push((node.key.stamp, node.pid));
        node.right.tell(movers);
    }

    /// Each key gets the rank and the stamp that its pid has now, with which the keys still rise. It compares no key,
    /// and moves no node.
    #[inline(always)]
    pub fn renew<R: Renewal>(&mut self, renewal: &R)
        requires rising { IsTrue
            (is_sorted key_cmp (map (rekeyed (R.at renewal.now)) self.old.entries)) }
        ensures entries { self.new.entries ≡ map (rekeyed (R.at renewal.now)) self.old.entries }
        ensures height { self.new.height ≡ self.old.height }
    {
        if let Some(root) = &mut self.root {
            root.renew(renewal);
        }
    }

    /// Takes out the entry at the key, and puts the node that is spare then where none is. That place stays `None`
    /// exactly if no entry has the key. The result tells whether the tree is a level lower then.
    pub fn remove<L: Ledger>(
        &mut self,
        key: &Key,
        taken: &mut Option<Box<Node>>,
        comparisons: &mut Steps<L>,
    ) -> bool
        requires none { taken.old ≡ None }
        ensures entries { self.new.entries ≡ without key.now self.old.entries }
        ensures taken { option_map (λ node. node.value.pid) taken.new
            ≡ find key_cmp key.now self.old.entries }
        ensures height { self.old.height ≡ self.new.height + (if result then 1 else 0) }
        ensures many_before { HasMany self.old }
        ensures many { HasMany self.new }
        ensures counted { comparisons.new ≤ comparisons.old + self.old.height }
    {
        let Some(root) = &mut self.root else {
            return false;
        };
        let Node {
            left,
            key: own,
            right,
            ..
        } = &mut **root;
        comparisons.tick();
        match key.compare(own) {
            Ordering::Less => {
                if !left.remove(key, taken, comparisons) {
                    return false;
                }
                !lean_right(root)
            }
            Ordering::Equal => uproot(&mut self.root, taken),
            Ordering::Greater => {
                if !right.remove(key, taken, comparisons) {
                    return false;
                }
                !lean_left(root)
            }
        }
    }
}

/// Whether a key that compares so with another is above it, or at it if `at` is true.
pub fn reaches(order: Ordering, at: bool) -> bool
    ensures { result ≡ reaches at order }
{
    match order {
        Ordering::Less => false,
        Ordering::Equal => at,
        Ordering::Greater => true,
    }
}
