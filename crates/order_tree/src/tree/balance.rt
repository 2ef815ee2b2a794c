//! How a tree keeps in balance when a node comes or goes: what hangs nodes, turns them and takes out a root. It is
//! apart since it compares no key, so that nothing here depends on their order. It is a part of the tree's
//! module, since nobody else reads the fields of a node.

ghost use Rattle.std.specs.Prelude.{◌≡◌, ◌≢◌, ◌+◌, [], ◌∷◌, true, None, Some, MatchOption, if◌then◌else◌};
ghost use Rattle.order_tree.specs.Balance.{entry_in, branch_of, over, under, split, IsLeaning, CanSpread, IsEven, IsBalanced, IsNode, TiltsLeft, TiltsRight, IsHighLeft, IsHighRight, left_levels, right_levels, IsTakenIf, IsUprooted};

use super::{Node, Tree};
use std::cmp::Ordering;
use std::mem;

/// Puts a node where no tree is. The result tells that the height changed.
#[inline(always)]
pub fn plant(root: &mut Option<Box<Node>>, mut node: Box<Node>) -> bool
    requires none { root.old ≡ None }
    ensures balanced { IsBalanced root.new }
    ensures entries { (branch_of root.new).entries ≡ entry_in node.value ∷ [] }
    ensures height { (branch_of root.new).height ≡ 1 }
    ensures changed { result ≡ true }
{
    if !node.left.is_empty() || !node.right.is_empty() {
        return plant_pruned(root, node);
    }
    node.lean = Ordering::Equal;
    set_root(root, node);
    true
}

/// Puts a node where no tree is, without the sides that it has. A spare node has none, so this is apart, and a walk
/// that plants a node saves no registers for it.
#[cold]
#[inline(never)]
fn plant_pruned(root: &mut Option<Box<Node>>, mut node: Box<Node>) -> bool
    requires none { root.old ≡ None }
    ensures balanced { IsBalanced root.new }
    ensures entries { (branch_of root.new).entries ≡ entry_in node.value ∷ [] }
    ensures height { (branch_of root.new).height ≡ 1 }
    ensures changed { result ≡ true }
{
    let leaf = &mut *node;
    leaf.left = Tree::empty();
    leaf.right = Tree::empty();
    leaf.lean = Ordering::Equal;
    set_root(root, node);
    true
}

/// Takes out the root of a tree, with its sides, and leaves an empty tree.
#[inline(always)]
fn take_root(place: &mut Tree) -> Option<Box<Node>>
    ensures node { MatchOption result (place.old.height ≡ 0) (λ node. IsNode place.old node.value) }
    ensures empty { place.new.entries ≡ [] }
{
    let old = mem::replace(place, Tree::empty());
    old.root
}

/// Puts a node where none is. So nothing is dropped, and a caller saves no registers for that.
#[inline(always)]
fn set_root(root: &mut Option<Box<Node>>, node: Box<Node>)
    requires none { root.old ≡ None }
    ensures { root.new ≡ Some node }
{
    mem::forget(mem::replace(root, Some(node)));
}

/// Puts a side of a root in the place of the root, and the root where no node is. So nothing is dropped.
#[inline(always)]
pub fn hand_out(
    root: &mut Option<Box<Node>>,
    side: Option<Box<Node>>,
    taken: &mut Option<Box<Node>>,
)
    requires none { taken.old ≡ None }
    ensures root { root.new ≡ side }
    ensures taken { taken.new ≡ root.old }
{
    mem::forget(mem::replace(taken, mem::replace(root, side)));
}

/// Puts the tree of a node where an empty one is.
#[inline(always)]
fn hang(place: &mut Tree, node: Box<Node>)
    requires empty { place.old.entries ≡ [] }
    requires even { IsEven node.value }
    ensures { place.new ≡ branch_of (Some node) }
{
    mem::forget(mem::replace(place, Tree { root: Some(node) }));
}

/// The middle one of three nodes over the other two, which get its sides for those that they lack.
#[inline(always)]
fn spread(middle: &mut Box<Node>, mut low: Box<Node>, mut high: Box<Node>)
    requires lacking { (low.value.right.entries ≡ []) × (high.value.left.entries ≡ []) }
    requires sides { CanSpread low.value.left (entry_in low.value) middle.old.value
        (entry_in high.value) high.value.right }
    ensures even { IsEven middle.new.value }
    ensures tree { under middle.new.value ≡ over
        (over low.value.left (entry_in low.value) middle.old.value.left) (entry_in middle.old.value)
        (over middle.old.value.right (entry_in high.value) high.value.right) }
{
    let top = &mut **middle;
    let below = &mut *low;
    let above = &mut *high;
    (below.lean, above.lean) = split(top.lean);
    top.lean = Ordering::Equal;
    mem::swap(&mut below.right, &mut top.left);
    mem::swap(&mut above.left, &mut top.right);
    hang(&mut top.left, low);
    hang(&mut top.right, high);
}

/// The upper one of two nodes in the place of the lower, which is a root, and over it: the lower gets the right side of
/// the upper for the left one that it lacks. Then they lean so.
#[inline(always)]
fn raise_right(root: &mut Box<Node>, upper: Box<Node>, upper_lean: Ordering, lower_lean: Ordering)
    requires lacking { root.old.value.left.entries ≡ [] }
    requires below { IsLeaning upper.value.right
        (entry_in root.old.value) root.old.value.right lower_lean }
    requires above { IsLeaning upper.value.left (entry_in upper.value)
        (over upper.value.right (entry_in root.old.value) root.old.value.right) upper_lean }
    ensures even { IsEven root.new.value }
    ensures tree { under root.new.value ≡ over upper.value.left (entry_in upper.value)
        (over upper.value.right (entry_in root.old.value) root.old.value.right) }
{
    let mut lower = mem::replace(root, upper);
    let top = &mut **root;
    let below = &mut *lower;
    mem::swap(&mut below.left, &mut top.right);
    below.lean = lower_lean;
    hang(&mut top.right, lower);
    top.lean = upper_lean;
}

/// The same, but the lower gets the left side of the upper for the right one that it lacks.
#[inline(always)]
fn raise_left(root: &mut Box<Node>, upper: Box<Node>, upper_lean: Ordering, lower_lean: Ordering)
    requires lacking { root.old.value.right.entries ≡ [] }
    requires below { IsLeaning root.old.value.left
        (entry_in root.old.value) upper.value.left lower_lean }
    requires above { IsLeaning (over root.old.value.left (entry_in root.old.value) upper.value.left)
        (entry_in upper.value) upper.value.right upper_lean }
    ensures even { IsEven root.new.value }
    ensures tree { under root.new.value ≡ over (over root.old.value.left
        (entry_in root.old.value) upper.value.left) (entry_in upper.value) upper.value.right }
{
    let mut lower = mem::replace(root, upper);
    let top = &mut **root;
    let below = &mut *lower;
    mem::swap(&mut below.right, &mut top.left);
    below.lean = lower_lean;
    hang(&mut top.left, lower);
    top.lean = upper_lean;
}

/// Brings a root into balance whose left side is a level higher than the root says. The result tells whether
/// the sides then differ in height.
#[inline(always)]
pub fn lean_left(root: &mut Box<Node>) -> bool
    requires tilted { TiltsLeft root.old.value }
    ensures even { IsEven root.new.value }
    ensures entries { (under root.new.value).entries ≡ (under root.old.value).entries }
    ensures height { (under root.new.value).height
        ≡ left_levels root.old.value + (if result then 1 else 0) }
{
    let node = &mut **root;
    match node.lean {
        Ordering::Less => {
            node.lean = Ordering::Equal;
            false
        }
        Ordering::Equal => {
            node.lean = Ordering::Greater;
            true
        }
        Ordering::Greater => turn_right(root),
    }
}

/// The same for a root whose right side is a level higher than the root says.
#[inline(always)]
pub fn lean_right(root: &mut Box<Node>) -> bool
    requires tilted { TiltsRight root.old.value }
    ensures even { IsEven root.new.value }
    ensures entries { (under root.new.value).entries ≡ (under root.old.value).entries }
    ensures height { (under root.new.value).height
        ≡ right_levels root.old.value + (if result then 1 else 0) }
{
    let node = &mut **root;
    match node.lean {
        Ordering::Greater => {
            node.lean = Ordering::Equal;
            false
        }
        Ordering::Equal => {
            node.lean = Ordering::Less;
            true
        }
        Ordering::Less => turn_left(root),
    }
}

/// Turns up the left side of a root, which is two levels higher than the right. The result tells whether the
/// sides then differ in height.
#[inline(never)]
fn turn_right(root: &mut Box<Node>) -> bool
    requires high { IsHighLeft root.old.value }
    ensures even { IsEven root.new.value }
    ensures entries { (under root.new.value).entries ≡ (under root.old.value).entries }
    ensures height { (under root.new.value).height
        ≡ left_levels root.old.value + (if result then 1 else 0) }
{
    let Some(mut upper) = take_root(&mut root.left) else {
        unreachable!()
    };
    match upper.lean {
        Ordering::Less => {
            let Some(middle) = take_root(&mut upper.right) else {
                unreachable!()
            };
            let high = mem::replace(root, middle);
            spread(root, upper, high);
            false
        }
        Ordering::Equal => {
            raise_right(root, upper, Ordering::Less, Ordering::Greater);
            true
        }
        Ordering::Greater => {
            raise_right(root, upper, Ordering::Equal, Ordering::Equal);
            false
        }
    }
}

/// Turns up the right side of a root, which is two levels higher than the left. The result tells whether the
/// sides then differ in height.
#[inline(never)]
fn turn_left(root: &mut Box<Node>) -> bool
    requires high { IsHighRight root.old.value }
    ensures even { IsEven root.new.value }
    ensures entries { (under root.new.value).entries ≡ (under root.old.value).entries }
    ensures height { (under root.new.value).height
        ≡ right_levels root.old.value + (if result then 1 else 0) }
{
    let Some(mut upper) = take_root(&mut root.right) else {
        unreachable!()
    };
    match upper.lean {
        Ordering::Less => {
            raise_left(root, upper, Ordering::Equal, Ordering::Equal);
            false
        }
        Ordering::Equal => {
            raise_left(root, upper, Ordering::Greater, Ordering::Less);
            true
        }
        Ordering::Greater => {
            let Some(middle) = take_root(&mut upper.left) else {
                unreachable!()
            };
            let low = mem::replace(root, middle);
            spread(root, low, upper);
            false
        }
    }
}

/// How the nodes lean that take over the sides of one that leans so.
#[inline(always)]
fn split(lean: Ordering) -> (Ordering, Ordering)
    ensures { result ≡ split lean }
{
    match lean {
        Ordering::Less => (Ordering::Greater, Ordering::Equal),
        Ordering::Equal => (Ordering::Equal, Ordering::Equal),
        Ordering::Greater => (Ordering::Equal, Ordering::Less),
    }
}

/// Takes the root out of its tree, and puts the node that is spare then where none is. The result tells whether
/// the tree is a level lower then.
#[inline(always)]
pub fn uproot(root: &mut Option<Box<Node>>, taken: &mut Option<Box<Node>>) -> bool
    requires some { root.old ≢ None }
    requires balanced { IsBalanced root.old }
    requires none { taken.old ≡ None }
    ensures balanced { IsBalanced root.new }
    ensures uprooted { IsUprooted root.old taken.new (branch_of root.new) result }
{
    let Some(node) = root else { unreachable!() };
    let Node { left, right, .. } = &mut **node;
    if right.is_empty() {
        let left = mem::replace(left, Tree::empty());
        hand_out(root, left.root, taken);
        return true;
    }
    raise_first(node, taken)
}

/// The same if the root has a right side: it gets the first entry of that, whose node is spare then.
#[inline(never)]
fn raise_first(root: &mut Box<Node>, taken: &mut Option<Box<Node>>) -> bool
    requires right { root.old.value.right.entries ≢ [] }
    requires even { IsEven root.old.value }
    requires none { taken.old ≡ None }
    ensures even { IsEven root.new.value }
    ensures uprooted { IsTakenIf root.old.value taken.new (under root.new.value) result }
{
    let Node {
        key,
        pid,
        right,
        ..
    } = &mut **root;
    let lower = right.take_first(taken);
    let Some(first) = taken else { unreachable!() };
    *key = first.key;
    mem::swap(pid, &mut first.pid);
    if !lower {
        return false;
    }
    !lean_left(root)
}
