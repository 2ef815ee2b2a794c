//! The queue: an ordered tree, whose keys are grouped by cookie.

ghost use Rattle.std.specs.Prelude.{◌≡◌, ◌≢◌, ◌+◌, ◌<◌, ◌≤◌, ◌==◌, ◌&&◌, max, None, OnOk, OnErr, IfSome, IsTrue, if◌then◌else◌, List, All};
ghost use Rattle.std.specs.Prelude as list;
ghost use Rattle.std.specs.FinMap as map;
ghost use Rattle.std.specs.Option.{option_map};
ghost use Rattle.cs_types.specs.declared.task.Task.{Task};
ghost use Rattle.cs_types.specs.Comparisons.{most_comparisons};
ghost use Rattle.cs_types.specs.Order.{priority_of, first_of, goes_before};
ghost use Rattle.cs_types.specs.Queue.{IsRanked, spot_cmp, spot_of, queued_of, first_with, next_with};
ghost use Rattle.cookie_queue.specs.Anew.{respotted};
ghost use Rattle.cookie_queue.specs.Spotted.{spotted};
ghost use Rattle.cookie_queue.specs.Inside.{key_at, with_cookie};

use cs_types::{Cookie, OutOfMemory, Pid, Queued, Steps};
use order_tree::{Closed, Key, RecentTree, Renewal};
use std::alloc::Global;
use std::marker::Model;
use std::sync::ledger::Ledger;

/// The queued tasks of one sibling that have a cookie. A call that looks for a task counts its
/// comparisons, and among n tasks makes at most twice the number of binary digits of n, and two more.
///
/// The parameter is what it takes memory from, until it is closed.
#[derive(Drop)]
pub struct CookieQueue<A = Global> {
    tree: RecentTree<A>,
}

impl<A> Model for CookieQueue<A> {
    ghost use Rattle.cs_types.specs.Queue.{Spotted};
    ghost use Rattle.cs_types.proofs.Codes.{spotted_code};

    ghost Value = { Spotted };

    ghost coded = { spotted_code };

    ghost use Rattle.cookie_queue.specs.Inside.{spotted_of};

    ghost view = { λ queue. spotted_of queue.tree };
}

impl CookieQueue {
    /// No task, and nothing reserved. It takes no memory.
    pub fn empty(alloc: Global) -> CookieQueue
        ensures tasks { result.tasks ≡ map.empty }
        ensures spare { result.spare ≡ 0 }
    {
        CookieQueue {
            tree: RecentTree::empty(alloc),
        }
    }

    /// Raises `spare` to `n` tasks if it is below. This call alone takes memory. An `Err`, for want of it or if there
    /// would be more than 4294967295 tasks, changes nothing.
    pub fn reserve(&mut self, n: u32) -> Result<(), OutOfMemory>
        ensures tasks { self.new.tasks ≡ self.old.tasks }
        ensures spare { OnOk result (self.new.spare ≡ max n self.old.spare) }
        ensures err { OnErr result (self.new.spare ≡ self.old.spare) }
    {
        self.tree.reserve(n)
    }

    /// The same queue, without its allocator: no call of it takes memory any more.
    pub fn close(self) -> CookieQueue<Closed>
        ensures { result ≡ self }
    {
        CookieQueue {
            tree: self.tree.close(),
        }
    }
}

impl<A> CookieQueue<A> {
    /// Puts a task in, which must have a cookie (`sched_core_enqueue`). None may have its cookie,
    /// class, rank and stamp.
    #[inline(always)]
    pub fn put<L: Ledger>(&mut self, task: Queued, comparisons: &mut Steps<L>)
        requires spare { 0 < self.old.spare }
        requires ranked { IsRanked task }
        requires cookie { task.cookie ≢ 0 }
        requires free { map.get self.old.tasks (spot_of task) ≡ None }
        ensures tasks { self.new.tasks ≡ map.insert self.old.tasks (spot_of task) task.pid }
        ensures spare { self.new.spare + 1 ≡ self.old.spare }
        ensures counted { comparisons.new
            ≤ comparisons.old + most_comparisons (map.len self.old.tasks) }
    {
        self.tree.insert(key_of(&task), task.pid, comparisons);
    }

    /// Takes a task out (`sched_core_dequeue`). `false` comes exactly if it is not there, and then
    /// nothing changes.
    #[inline(always)]
    pub fn take<L: Ledger>(&mut self, task: &Queued, comparisons: &mut Steps<L>) -> bool
        requires ranked { IsRanked task.now }
        requires same { IfSome (map.get self.old.tasks (spot_of task.now))
            (λ pid. pid ≡ task.now.pid) }
        ensures found { result ≡ map.contains_key self.old.tasks (spot_of task.now) }
        ensures tasks { self.new.tasks ≡ map.remove self.old.tasks (spot_of task.now) }
        ensures spare { self.new.spare ≡ self.old.spare + (if result then 1 else 0) }
        ensures counted { comparisons.new
            ≤ comparisons.old + most_comparisons (map.len self.old.tasks) }
    {
        self.tree.remove(&key_of(task), comparisons)
    }

    /// The task, which must be there, gets another rank, at which none may have its cookie, class and stamp.
    #[inline(always)]
    pub fn set_rank<L: Ledger>(&mut self, task: &Queued, rank: u128, comparisons: &mut Steps<L>)
        requires there { IsTrue (map.contains_key self.old.tasks (spot_of task.now)) }
        requires free { map.get (map.remove self.old.tasks (spot_of task.now))
            (spot_of (record task.now { rank = rank })) ≡ None }
        ensures tasks { self.new.tasks
            ≡ map.insert (map.remove self.old.tasks (spot_of task.now))
            (spot_of (record task.now { rank = rank })) task.now.pid }
        ensures spare { self.new.spare ≡ self.old.spare }
        ensures counted { comparisons.new
            ≤ comparisons.old + most_comparisons (map.len self.old.tasks)
            + most_comparisons (map.len (map.remove self.old.tasks (spot_of task.now))) }
    {
        self.tree
            .set_rank(&key_of(task), rank, task.pid, comparisons);
    }

    /// Every task leaves.
    pub fn clear(&mut self)
        ensures tasks { self.new.tasks ≡ map.empty }
        ensures spare { self.new.spare ≡ self.old.spare + map.len self.old.tasks }
    {
        self.tree.clear();
    }

    /// Each task gets the rank and the stamp that it has now, with which they stand in the same order.
    pub fn renew<R: Renewal, L: Ledger>(&mut self, renewal: &R, comparisons: &mut Steps<L>)
        requires rising { IsTrue (map.is_sorted spot_cmp
            (list.map (respotted (R.at renewal.now)) (map.entries self.old.tasks))) }
        ensures entries { map.entries self.new.tasks
            ≡ list.map (respotted (R.at renewal.now)) (map.entries self.old.tasks) }
        ensures spare { self.new.spare ≡ self.old.spare }
        ensures counted { comparisons.new
            ≤ comparisons.old + most_comparisons (map.len self.old.tasks) }
    {
        self.tree.renew(renewal, comparisons);
    }

    /// The highest task with the cookie (`sched_core_find`, kernel/sched/core.c). `None` exactly if no task has it.
    pub fn first_of<L: Ledger>(&self, cookie: Cookie, comparisons: &mut Steps<L>) -> Option<Queued>
        ensures first { result ≡ first_with self.now.tasks cookie }

        // If these are the tasks with cookies of some of a room, it is the first of those with the cookie.
        ensures model { (tasks : List Task) → self.now.tasks ≡ spotted (list.map queued_of tasks) →
            All (λ task. priority_of task.spec.policy ≤ 99) tasks → cookie ≢ 0 →
            result
            ≡ option_map queued_of (first_of (list.filter (λ task. task.cookie == cookie) tasks)) }

        ensures counted { comparisons.new
            ≤ comparisons.old + most_comparisons (map.len self.now.tasks) }
    {
        queued_with(cookie, self.tree.first_in(cookie, comparisons))
    }

    /// The highest task with the cookie of this one that is lower than it (`sched_core_next`,
    /// kernel/sched/core.c). `None` exactly if no task with the cookie is lower.
    pub fn next_of<L: Ledger>(&self, task: &Queued, comparisons: &mut Steps<L>) -> Option<Queued>
        requires { IsRanked task.now }
        ensures next { result ≡ next_with self.now.tasks task.now }

        // If these are the tasks with cookies of some of a room, it is the first of those with the cookie after the
        // task.
        ensures model { (tasks : List Task) (above : Task) →
            self.now.tasks ≡ spotted (list.map queued_of tasks) →
            All (λ task. priority_of task.spec.policy ≤ 99) tasks → task.now ≡ queued_of above →
            priority_of above.spec.policy ≤ 99 → above.cookie ≢ 0 →
            result ≡ option_map queued_of (first_of (list.filter
            (λ other. (other.cookie == above.cookie) && goes_before above other) tasks)) }

        ensures counted { comparisons.new
            ≤ comparisons.old + most_comparisons (map.len self.now.tasks) }
    {
        queued_with(task.cookie, self.tree.next(&key_of(task), comparisons))
    }

    /// How many tasks there are.
    pub fn len(&self) -> u32
        ensures { result ≡ map.len self.now.tasks }
    {
        self.tree.len()
    }
}

/// The key of a task: its cookie, and then its class, its rank and its stamp.
fn key_of(task: &Queued) -> Key
    ensures { result ≡ key_at (spot_of task.now) }
{
    Key {
        group: task.cookie,
        class: task.class,
        rank: task.rank,
        stamp: task.stamp,
    }
}

/// The task of an entry, if that has the cookie.
fn queued_with(cookie: Cookie, entry: Option<(Key, Pid)>) -> Option<Queued>
    ensures { result ≡ with_cookie cookie entry }
{
    let (key, pid) = entry?;
    if key.group != cookie {
        return None;
    }
    Some(Queued {
        pid,
        class: key.class,
        rank: key.rank,
        stamp: key.stamp,
        cookie,
    })
}
