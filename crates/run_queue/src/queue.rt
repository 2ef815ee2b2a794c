//! The run queue: the queues of the classes, and beside them the tasks with cookies.

ghost use Rattle.std.specs.Prelude as list;
ghost use Rattle.std.specs.Prelude.{◌≡◌, ◌≢◌, ℕ, ◌+◌, ◌*◌, ◌<◌, ◌≤◌, ◌==◌, ◌&&◌, ◌++◌, length, max, if◌then◌else◌, None, OnOk, OnErr, IfSome, IsTrue, List, All, IsPermutation};
ghost use Rattle.std.specs.FinMap as map;
ghost use Rattle.std.specs.Option.{option_map};
ghost use Rattle.cs_types.specs.declared.task.Task.{Task};
ghost use Rattle.cs_types.specs.Comparisons.{most_comparisons};
ghost use Rattle.cs_types.specs.Order.{fair_class, priority_of, first_of, goes_before};
ghost use Rattle.cs_types.specs.Queue.{IsRanked, seat_of, spot_of, queue_of, queued_of, top_of, first_with, next_with, Seats, Spots, seat_cmp, spot_cmp};
ghost use Rattle.run_queue.specs.Fair.{least_rank_in};
ghost use Rattle.cookie_queue.specs.Spotted.{spotted};
ghost use Rattle.run_queue.specs.Run.{without, including, IsTied};
ghost use Rattle.cookie_queue.specs.Anew.{respotted};
ghost use Rattle.run_queue.specs.Anew.{reseated};
ghost use Rattle.run_queue.specs.Classes.{stamped};

use crate::classes::Classes;
use cookie_queue::CookieQueue;
use cs_types::{Cookie, OutOfMemory, Pid, Queued, Steps};
use order_tree::{Closed, Movers, Renewal};
use std::alloc::Global;
use std::marker::Model;
use std::sync::ledger::Ledger;

/// The queued tasks of one sibling, by class, in a class by rank, and at equal ranks by stamp, and those of them that
/// have a cookie. The sibling is idle if there is none.
///
/// With n tasks a call of the ordered tree makes at most twice the number of binary digits of n
/// comparisons, and two more. The calls here make a small multiple of that.
///
/// The parameter is what it takes memory from. Once it is `Closed` there is no call that could take any.
#[derive(Drop)]
pub struct RunQueue<A = Global> {
    classes: Classes<A>,
    cookies: CookieQueue<A>,
}

impl<A> Model for RunQueue<A> {
    ghost use Rattle.cs_types.specs.Queue.{RunQueued};
    ghost use Rattle.cs_types.proofs.Codes.{run_queued_code};

    ghost Value = { RunQueued };

    ghost coded = { run_queued_code };

    ghost use Rattle.run_queue.specs.Run.{run_of, IsSound};

    ghost view = { run_of };

    ghost invariant = { IsSound };
}

impl RunQueue {
    /// No task, and nothing reserved. It takes no memory.
    pub fn empty(alloc: Global) -> RunQueue
        ensures tasks { result.tasks ≡ map.empty }
        ensures cookies { result.cookies ≡ map.empty }
        ensures spare { result.spare ≡ 0 }
    {
        RunQueue {
            classes: Classes::empty(alloc),
            cookies: CookieQueue::empty(alloc),
        }
    }

    /// Raises `spare` to `n` tasks of any class if it is below. This call alone takes memory. An
    /// `Err`, for want of it or if there would be more than 4294967295 tasks, changes nothing.
    pub fn reserve(&mut self, n: u32) -> Result<(), OutOfMemory>
        ensures tasks { self.new.tasks ≡ self.old.tasks }
        ensures cookies { self.new.cookies ≡ self.old.cookies }
        ensures spare { OnOk result (self.new.spare ≡ max n self.old.spare) }
        ensures err { OnErr result (self.new.spare ≡ self.old.spare) }
    {
        let Some(limit) = self.classes.count().checked_add(n) else {
            return Err(OutOfMemory);
        };
        self.cookies.reserve(limit - self.cookies.len())?;
        self.classes.reserve(n)
    }

    /// The same queue, without its allocator: no call of it takes memory any more.
    pub fn close(self) -> RunQueue<Closed>
        ensures { result ≡ self }
    {
        RunQueue {
            classes: self.classes.close(),
            cookies: self.cookies.close(),
        }
    }
}

impl<A> RunQueue<A> {
    /// Puts a task at a seat where none is.
    pub fn enqueue<L: Ledger>(&mut self, task: Queued, comparisons: &mut Steps<L>)
        requires spare { 0 < self.old.spare }
        requires ranked { IsRanked task }
        requires free { map.get self.old.tasks (seat_of task) ≡ None }
        ensures tasks { self.new.tasks ≡ map.insert self.old.tasks (seat_of task) task.pid }
        ensures cookies { self.new.cookies ≡ including task self.old.cookies }
        ensures spare { self.new.spare + 1 ≡ self.old.spare }
        ensures counted { comparisons.new
            ≤ comparisons.old + 2 * most_comparisons (map.len self.old.tasks) }
    {
        self.classes.enqueue(task, comparisons);
        self.enter_cookies(task, comparisons);
    }

    /// Takes the task at the seat of this one out, which has its pid and its cookie. `false` comes exactly if none is
    /// there, and then nothing changes.
    pub fn dequeue<L: Ledger>(&mut self, task: &Queued, comparisons: &mut Steps<L>) -> bool
        requires ranked { IsRanked task.now }
        requires same { IfSome (map.get self.old.cookies (spot_of task.now))
            (λ pid. pid ≡ task.now.pid) }
        requires cookie { (cookie : ℕ) →
            IsTrue (map.contains_key self.old.cookies (cookie, seat_of task.now)) →
            cookie ≡ task.now.cookie }
        ensures found { result ≡ map.contains_key self.old.tasks (seat_of task.now) }
        ensures tasks { self.new.tasks ≡ map.remove self.old.tasks (seat_of task.now) }
        ensures cookies { self.new.cookies ≡ without task.now self.old.cookies }
        ensures spare { self.new.spare ≡ self.old.spare + (if result then 1 else 0) }
        ensures counted { comparisons.new
            ≤ comparisons.old + 2 * most_comparisons (map.len self.old.tasks) }
    {
        self.leave_cookies(task, comparisons);
        self.classes.dequeue(task, comparisons)
    }

    /// The task leaves the cookie order (`sched_core_dequeue`), if it has a cookie.
    #[inline(always)]
    fn leave_cookies<L: Ledger>(&mut self, task: &Queued, comparisons: &mut Steps<L>)
        requires ranked { IsRanked task.now }
        requires same { IfSome (map.get self.old.cookies (spot_of task.now))
            (λ pid. pid ≡ task.now.pid) }
        requires cookie { (cookie : ℕ) →
            IsTrue (map.contains_key self.old.cookies (cookie, seat_of task.now)) →
            cookie ≡ task.now.cookie }
        ensures tasks { self.new.tasks ≡ self.old.tasks }
        ensures cookies { self.new.cookies ≡ without task.now self.old.cookies }
        ensures free { (cookie : ℕ) → map.get self.new.cookies (cookie, seat_of task.now) ≡ None }
        ensures spare { self.new.spare ≡ self.old.spare }
        ensures counted { comparisons.new
            ≤ comparisons.old + most_comparisons (map.len self.old.tasks) }
    {
        if task.cookie != 0 {
            self.cookies.take(task, comparisons);
        }
    }

    /// The task, which is there, enters the cookie order (`sched_core_enqueue`), if it has a cookie.
    #[inline(always)]
    fn enter_cookies<L: Ledger>(&mut self, task: Queued, comparisons: &mut Steps<L>)
        requires ranked { IsRanked task }
        requires there { IsTrue (map.contains_key self.old.tasks (seat_of task)) }
        requires free { (cookie : ℕ) → map.get self.old.cookies (cookie, seat_of task) ≡ None }
        ensures tasks { self.new.tasks ≡ self.old.tasks }
        ensures cookies { self.new.cookies ≡ including task self.old.cookies }
        ensures spare { self.new.spare ≡ self.old.spare }
        ensures counted { comparisons.new
            ≤ comparisons.old + most_comparisons (map.len self.old.tasks) }

        // It is compared with tasks that have cookies alone.
        ensures few { comparisons.new
            ≤ comparisons.old + most_comparisons (map.len self.old.cookies) }
    {
        if task.cookie != 0 {
            self.cookies.put(task, comparisons);
        }
    }

    /// The task, which is there with its pid and its cookie, gets this cookie (`sched_core_update_cookie`,
    /// kernel/sched/core_sched.c): it leaves the cookie order at its old one and enters it at the new one, if these are
    /// not 0. The queue of its class is not touched.
    #[inline(always)]
    pub fn set_cookie<L: Ledger>(
        &mut self,
        task: &Queued,
        cookie: Cookie,
        comparisons: &mut Steps<L>,
    )
        requires ranked { IsRanked task.now }
        requires there { IsTrue (map.contains_key self.old.tasks (seat_of task.now)) }
        requires same { IfSome (map.get self.old.cookies (spot_of task.now))
            (λ pid. pid ≡ task.now.pid) }
        requires cookie { (cookie : ℕ) →
            IsTrue (map.contains_key self.old.cookies (cookie, seat_of task.now)) →
            cookie ≡ task.now.cookie }
        ensures tasks { self.new.tasks ≡ self.old.tasks }
        ensures cookies { self.new.cookies
            ≡ including (record task.now { cookie = cookie }) (without task.now self.old.cookies) }
        ensures spare { self.new.spare ≡ self.old.spare }
        ensures counted { comparisons.new
            ≤ comparisons.old + 2 * most_comparisons (map.len self.old.tasks) }
    {
        self.leave_cookies(task, comparisons);
        self.enter_cookies(Queued { cookie, ..*task }, comparisons);
    }

    /// The fair task, which is there with its pid and its cookie, gets another rank, at which none may have its stamp:
    /// it stands by that in its class, and in the cookie order, if it has a cookie.
    #[inline(always)]
    pub fn set_fair_rank<L: Ledger>(
        &mut self,
        task: &Queued,
        rank: u128,
        comparisons: &mut Steps<L>,
    )
        requires fair { task.now.class ≡ fair_class }
        requires there { IsTrue (map.contains_key self.old.tasks (seat_of task.now)) }
        requires entered { task.now.cookie ≢ 0 →
            IsTrue (map.contains_key self.old.cookies (spot_of task.now)) }
        requires cookie { (cookie : ℕ) →
            IsTrue (map.contains_key self.old.cookies (cookie, seat_of task.now)) →
            cookie ≡ task.now.cookie }
        requires free { map.get (map.remove self.old.tasks (seat_of task.now))
            (seat_of (record task.now { rank = rank })) ≡ None }
        ensures tasks { self.new.tasks
            ≡ map.insert (map.remove self.old.tasks (seat_of task.now))
            (seat_of (record task.now { rank = rank })) task.now.pid }
        ensures cookies { self.new.cookies
            ≡ including (record task.now { rank = rank }) (without task.now self.old.cookies) }
        ensures spare { self.new.spare ≡ self.old.spare }
        ensures counted { comparisons.new
            ≤ comparisons.old + 2 * most_comparisons (map.len self.old.tasks)
            + 2 * most_comparisons (map.len (map.remove self.old.tasks (seat_of task.now))) }
    {
        self.classes
            .set_fair_rank(task.rank, rank, task.stamp, task.pid, comparisons);
        if task.cookie != 0 {
            self.cookies.set_rank(task, rank, comparisons);
        }
    }

    /// Every task leaves.
    pub fn clear(&mut self)
        ensures tasks { self.new.tasks ≡ map.empty }
        ensures cookies { self.new.cookies ≡ map.empty }
        ensures spare { self.new.spare ≡ self.old.spare + map.len self.old.tasks }
    {
        self.classes.clear();
        self.cookies.clear();
    }

    /// Hands over each task by its stamp and its pid, in any order.
    pub fn tell_into<M: Movers>(&self, movers: &mut M)
        requires fits { length (M.told movers.old) + map.len self.now.tasks ≤ 256 }
        ensures told { IsPermutation (M.told movers.old
            ++ list.map stamped (map.entries self.now.tasks)) (M.told movers.new) }
    {
        self.classes.tell_into(movers);
    }

    /// Each task gets the rank and the stamp that it has now, with which they stand in the same order, and those with
    /// cookies among them are still theirs.
    pub fn renew<R: Renewal, L: Ledger>(&mut self, renewal: &R, comparisons: &mut Steps<L>)
        requires rising { IsTrue (map.is_sorted seat_cmp
            (list.map (reseated (R.at renewal.now)) (map.entries self.old.tasks))) }
        requires rising_with_cookies { IsTrue (map.is_sorted spot_cmp
            (list.map (respotted (R.at renewal.now)) (map.entries self.old.cookies))) }
        requires tied { (tasks : Seats) (cookies : Spots) →
            map.entries tasks
            ≡ list.map (reseated (R.at renewal.now)) (map.entries self.old.tasks) →
            map.entries cookies
            ≡ list.map (respotted (R.at renewal.now)) (map.entries self.old.cookies) →
            IsTied tasks cookies }
        ensures tasks { map.entries self.new.tasks
            ≡ list.map (reseated (R.at renewal.now)) (map.entries self.old.tasks) }
        ensures cookies { map.entries self.new.cookies
            ≡ list.map (respotted (R.at renewal.now)) (map.entries self.old.cookies) }
        ensures spare { self.new.spare ≡ self.old.spare }
        ensures counted { comparisons.new
            ≤ comparisons.old + 5 * most_comparisons (map.len self.old.tasks) }
    {
        self.classes.renew(renewal, comparisons);
        self.cookies.renew(renewal, comparisons);
    }

    /// The pid of the first task: the one of the highest class, in that of the least rank, and among
    /// those with the least stamp. `None` exactly if there is no task.
    pub fn first<L: Ledger>(&self, comparisons: &mut Steps<L>) -> Option<Pid>
        ensures first { result ≡ top_of self.now.tasks }

        // If this is the queue of some tasks of a room, it is the first of them.
        ensures model { (tasks : List Task) → self.now.tasks ≡ queue_of tasks →
            All (λ task. priority_of task.spec.policy ≤ 99) tasks →
            result ≡ option_map (λ task. task.spec.pid) (first_of tasks) }

        // Of the classes that are asked only the last can have a task. At most two comparisons show that another has
        // none.
        ensures counted { comparisons.new
            ≤ comparisons.old + most_comparisons (map.len self.now.tasks) + 6 }
    {
        self.classes.first(comparisons)
    }

    /// The highest task with the cookie (`sched_core_find`, kernel/sched/core.c). `None` exactly if no task has it.
    pub fn first_of<L: Ledger>(&self, cookie: Cookie, comparisons: &mut Steps<L>) -> Option<Queued>
        ensures first { result ≡ first_with self.now.cookies cookie }

        // If this is the queue of some tasks of a room, it is the first of those with the cookie.
        ensures model { (tasks : List Task) →
            self.now.cookies ≡ spotted (list.map queued_of tasks) →
            All (λ task. priority_of task.spec.policy ≤ 99) tasks → cookie ≢ 0 →
            result
            ≡ option_map queued_of (first_of (list.filter (λ task. task.cookie == cookie) tasks)) }

        ensures counted { comparisons.new
            ≤ comparisons.old + most_comparisons (map.len self.now.tasks) }
    {
        self.cookies.first_of(cookie, comparisons)
    }

    /// The highest task with the cookie of this one that is lower than it (`sched_core_next`,
    /// kernel/sched/core.c). `None` exactly if no task with the cookie is lower.
    pub fn next_of<L: Ledger>(&self, task: &Queued, comparisons: &mut Steps<L>) -> Option<Queued>
        requires { IsRanked task.now }
        ensures next { result ≡ next_with self.now.cookies task.now }

        // If this is the queue of some tasks of a room, it is the first of those with the cookie after the task.
        ensures model { (tasks : List Task) (above : Task) →
            self.now.cookies ≡ spotted (list.map queued_of tasks) →
            All (λ task. priority_of task.spec.policy ≤ 99) tasks → task.now ≡ queued_of above →
            priority_of above.spec.policy ≤ 99 → above.cookie ≢ 0 →
            result ≡ option_map queued_of (first_of (list.filter
            (λ other. (other.cookie == above.cookie) && goes_before above other) tasks)) }

        ensures counted { comparisons.new
            ≤ comparisons.old + most_comparisons (map.len self.now.tasks) }
    {
        self.cookies.next_of(task, comparisons)
    }

    /// The rank of the first fair task. `None` exactly if there is none.
    #[inline(always)]
    pub fn least_fair<L: Ledger>(&self, comparisons: &mut Steps<L>) -> Option<u128>
        ensures least { result ≡ least_rank_in fair_class self.now.tasks }
        ensures counted { comparisons.new ≤ comparisons.old + 1 }
    {
        self.classes.least_fair(comparisons)
    }

    /// How many tasks there are.
    pub fn count(&self) -> u32
        ensures { result ≡ map.len self.now.tasks }
    {
        self.classes.count()
    }
}
