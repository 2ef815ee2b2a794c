//! The queues of a sibling: of each class, the run queue over them, and how much fair tasks weigh.

ghost use Rattle.std.specs.Prelude.{◌≡◌, ◌<◌, ◌≤◌};
ghost use Rattle.std.specs.FinMap.{empty};
ghost use Rattle.cs_types.specs.Order.{fair_class};
ghost use Rattle.cs_types.specs.Queue.{IsRanked};

use cs_types::{ClassQueue, Cookie, Pid, Queued, Steps};
use deadline_queue::DeadlineQueue;
use fair_queue::{FairQueue, grow, weight};
use order_tree::{Key, OrderTree, RankTree};
use rt_queue::RtQueue;
use run_queue::RunQueue;
use std::marker::Brand;
use std::process::Abort;
use std::sync::ledger::{Blank, Ledger};

// The outermost nice values, the middle, and one between.
#[test]
fn weights(rt: HostRuntime) {
    let found = [weight(-20), weight(0), weight(5), weight(19)];
    assert!(rt; found == [88761, 1024, 335, 15]);
}

// Rounded down, and at the greatest growth of all.
#[test]
fn growths(rt: HostRuntime) {
    let found = [
        grow(1000, 5),
        grow(1000, 0),
        grow(1, -20),
        grow(u64::MAX, 19),
    ];
    assert!(rt; found == [3056, 1000, 0, 1_259_297_728_765_238_723_584]);
}

// The greater priority, the earlier deadline and the smaller virtual time go first.
#[test]
fn ranks(rt: HostRuntime) {
    let found = [
        rt_queue::rank(99),
        rt_queue::rank(1),
        deadline_queue::rank(50),
        fair_queue::rank(3056),
    ];
    assert!(rt; found == [0, 98, 50, 3056]);
}

/// Puts two tasks in a queue without tasks, the one of the greater rank first.
fn put_two<L: Ledger, R: Abort, Q: ClassQueue>(rt: &R, queue: &mut Q, comparisons: &mut Steps<L>)
    requires { Q.members queue.old ≡ empty }
{
    queue.reserve(2).expect(rt, "room");
    queue.put(20, 1, 7, comparisons);
    queue.put(10, 2, 8, comparisons);
}

/// Expects that the task with this pid is the first, and takes it out from the key.
fn expect_top<L: Ledger, R: Abort, Q: ClassQueue>(
    rt: &R,
    queue: &mut Q,
    (rank, stamp): (u128, u64),
    pid: Pid,
    comparisons: &mut Steps<L>,
) {
    let is_top = queue.top(comparisons) == Some(pid);
    assert!(rt;
        is_top && queue.take(rank, stamp, comparisons) && !queue.take(rank, stamp, comparisons)
    );
}

/// Expects the two tasks of a queue, the one of the smaller rank before the earlier one, and takes both
/// out.
fn expect_both<L: Ledger, R: Abort, Q: ClassQueue>(
    rt: &R,
    queue: &mut Q,
    comparisons: &mut Steps<L>,
) {
    assert!(rt; queue.len() == 2);
    expect_top(rt, queue, (10, 2), 8, comparisons);
    expect_top(rt, queue, (20, 1), 7, comparisons);
    assert!(rt; queue.top(comparisons).is_none() && queue.len() == 0);
}

/// Expects that a queue without tasks takes two, has the one of the smaller rank before the earlier one,
/// and gives both back.
fn expect_two<L: Ledger, R: Abort, Q: ClassQueue>(rt: &R, mut queue: Q, comparisons: &mut Steps<L>)
    requires { Q.members queue ≡ empty }
{
    put_two(rt, &mut queue, comparisons);
    expect_both(rt, &mut queue, comparisons);
}

/// A task with this pid, of this class, at rank 0, whose stamp is its pid, with this cookie.
fn queued(pid: Pid, class: u8, cookie: Cookie) -> Queued
    requires { class ≤ fair_class }
    ensures is { result
        ≡ record { pid = pid; class = class; rank = 0; stamp = pid; cookie = cookie } }
    ensures ranked { IsRanked result }
{
    Queued {
        pid,
        class,
        rank: 0,
        stamp: pid as u64,
        cookie,
    }
}

/// A run queue with a task of each class, the lowest class first.
fn queue_of_each_class<L: Ledger, R: AllocGlobal + Abort>(
    rt: &R,
    comparisons: &mut Steps<L>,
) -> RunQueue
    ensures { result.cookies ≡ empty }
{
    let mut queue = RunQueue::empty(rt.alloc());
    queue.reserve(4).expect(rt, "room");
    queue.enqueue(queued(1, Queued::FAIR, 0), comparisons);
    queue.enqueue(queued(2, Queued::REAL_TIME, 0), comparisons);
    queue.enqueue(queued(3, Queued::DEADLINE, 0), comparisons);
    queue.enqueue(queued(4, Queued::STOP, 0), comparisons);
    queue
}

/// Expects that the task with this pid, of this class, is the first, and takes it out.
fn expect_first<L: Ledger, R: Abort>(
    rt: &R,
    queue: &mut RunQueue,
    pid: Pid,
    class: u8,
    comparisons: &mut Steps<L>,
)
    requires class { class ≤ fair_class }
    requires cookies { queue.old.cookies ≡ empty }
    ensures { queue.new.cookies ≡ empty }
{
    let task = queued(pid, class, 0);
    assert!(rt; queue.first(comparisons) == Some(pid));
    assert!(rt; queue.dequeue(&task, comparisons));
    assert!(rt; !queue.dequeue(&task, comparisons));
}

/// Expects the tasks of such a run queue, the highest class first, and takes them out.
fn expect_classes<L: Ledger, R: Abort>(rt: &R, queue: &mut RunQueue, comparisons: &mut Steps<L>)
    requires { queue.old.cookies ≡ empty }
{
    assert!(rt; queue.count() == 4);
    expect_first(rt, queue, 4, Queued::STOP, comparisons);
    expect_first(rt, queue, 3, Queued::DEADLINE, comparisons);
    expect_first(rt, queue, 2, Queued::REAL_TIME, comparisons);
    expect_first(rt, queue, 1, Queued::FAIR, comparisons);
    assert!(rt; queue.first(comparisons).is_none() && queue.count() == 0);
}

/// Expects that a run queue gives a task of each class back, the highest class first.
fn expect_each_class<L: Ledger, R: AllocGlobal + Abort>(rt: &R, comparisons: &mut Steps<L>) {
    let mut queue = queue_of_each_class(rt, comparisons);
    expect_classes(rt, &mut queue, comparisons);
    drop(queue);
}

/// Expects that a queue of two tasks, which have cookie 7, finds the higher first, and none of another cookie.
fn expect_told<L: Ledger, R: Abort>(
    rt: &R,
    queue: &RunQueue,
    low: &Queued,
    high: &Queued,
    comparisons: &mut Steps<L>,
)
    requires low { IsRanked low.now }
    requires high { IsRanked high.now }
{
    let found = [
        queue.first_of(7, comparisons),
        queue.next_of(high, comparisons),
        queue.next_of(low, comparisons),
        queue.first_of(6, comparisons),
        queue.first_of(8, comparisons),
    ];
    assert!(rt;
        matches!(
            found,
            [
                Some(Queued { pid: 2, .. }),
                Some(Queued { pid: 1, .. }),
                None,
                None,
                None,
            ]
        )
    );
}

/// Expects of a run queue that it finds the tasks of a cookie, the higher first, until they are taken out.
fn expect_cookies<L: Ledger, R: AllocGlobal + Abort>(rt: &R, comparisons: &mut Steps<L>) {
    let mut queue = RunQueue::empty(rt.alloc());
    queue.reserve(2).expect(rt, "room");
    let low = queued(1, Queued::FAIR, 7);
    let high = queued(2, Queued::REAL_TIME, 7);
    queue.enqueue(low, comparisons);
    queue.enqueue(high, comparisons);
    expect_told(rt, &queue, &low, &high, comparisons);
    assert!(rt; queue.dequeue(&high, comparisons));
    assert!(rt; matches!(queue.first_of(7, comparisons), Some(Queued { pid: 1, .. })));
    drop(queue);
}

/// Expects that a tree of two keys gives them in order.
fn expect_found<L: Ledger, R: Abort>(
    rt: &R,
    tree: &OrderTree,
    low: &Key,
    high: &Key,
    comparisons: &mut Steps<L>,
) {
    let found = [
        tree.first(),
        tree.first_from(&key(4), comparisons),
        tree.first_from(high, comparisons),
        tree.next(low, comparisons),
        tree.next(high, comparisons),
    ];
    let above = Some((*high, 50));
    assert!(rt; found == [Some((*low, 30)), above, above, above, None] && tree.len() == 2);
}

/// Expects of a tree that it shows its keys in order, and gives them back.
fn expect_keys<L: Ledger, R: AllocGlobal + Abort>(rt: &R, comparisons: &mut Steps<L>) {
    let mut tree = OrderTree::empty(rt.alloc());
    tree.reserve(2).expect(rt, "room");
    let low = key(3);
    let high = key(5);
    tree.insert(high, 50, comparisons);
    tree.insert(low, 30, comparisons);
    expect_found(rt, &tree, &low, &high, comparisons);
    assert!(rt; tree.remove(&low, comparisons) && !tree.remove(&low, comparisons));
    assert!(rt; tree.first() == Some((high, 50)) && tree.len() == 1);
}

/// The key of this stamp.
fn key(stamp: u64) -> Key
    ensures { result ≡ record { group = 1; class = 2; rank = 9; stamp = stamp } }
{
    Key {
        group: 1,
        class: 2,
        rank: 9,
        stamp,
    }
}

/// Expects this of each queue. The ledger of the blank is the one in which their comparisons are counted.
fn expect_queues<L: Ledger, R: AllocGlobal + Abort>(rt: &R, blank: Blank)
    requires name { blank.name ≡ L.name }
    requires parts { blank.parts ≡ L.parts }
    requires some { 0 < blank.parts }
{
    let mut comparisons = Steps::<L>::start(blank);
    expect_two(rt, RankTree::empty(rt.alloc()), &mut comparisons);
    expect_two(rt, RtQueue::empty(rt.alloc()), &mut comparisons);
    expect_two(rt, DeadlineQueue::empty(rt.alloc()), &mut comparisons);
    expect_two(rt, FairQueue::empty(rt.alloc()), &mut comparisons);
    expect_each_class(rt, &mut comparisons);
    expect_cookies(rt, &mut comparisons);
    expect_keys(rt, &mut comparisons);
}

#[test]
fn queues_in_order(rt: HostRuntime) {
    expect_queues::<Brand, _>(&rt, Blank::new(1));
}
