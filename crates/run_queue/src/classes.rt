//! The queues of the classes, with one limit for all. They are apart since tasks with and without a cookie
//! stand in them alike.

ghost use Rattle.std.specs.Prelude as list;
ghost use Rattle.std.specs.Prelude.{◌≡◌, ◌+◌, ◌*◌, ◌<◌, ◌≤◌, ◌++◌, length, max, if◌then◌else◌, None, OnOk, OnErr, IsTrue, List, All, IsPermutation};
ghost use Rattle.std.specs.FinMap as map;
ghost use Rattle.std.specs.Option.{option_map};
ghost use Rattle.cs_types.specs.declared.task.Task.{Task};
ghost use Rattle.cs_types.specs.Comparisons.{most_comparisons};
ghost use Rattle.cs_types.specs.Order.{fair_class, priority_of, first_of};
ghost use Rattle.cs_types.specs.Queue.{seat_of, queue_of, top_of, seat_cmp};
ghost use Rattle.run_queue.specs.Fair.{first_in, least_rank_in};
ghost use Rattle.run_queue.specs.Anew.{reseated};
ghost use Rattle.run_queue.specs.Classes.{stamped};

use cs_types::{ClassQueue, OutOfMemory, Pid, Queued, Steps};
use deadline_queue::DeadlineQueue;
use fair_queue::FairQueue;
use order_tree::{Closed, Movers, RankTree, Renewal};
use rt_queue::RtQueue;
use std::alloc::Global;
use std::marker::Model;
use std::sync::ledger::Ledger;

/// The queued tasks of one sibling, by class, in a class by rank, and at equal ranks by stamp.
///
/// The parameter is what they take memory from, until they are closed.
#[derive(Drop)]
pub struct Classes<A = Global> {
    stop: RankTree<A>,
    deadline: DeadlineQueue<A>,
    real_time: RtQueue<A>,
    fair: FairQueue<A>,
    /// How many tasks it can take in all, whatever their classes are.
    limit: u32,
}

impl<A> Model for Classes<A> {
    ghost use Rattle.cs_types.specs.Queue.{Seated};
    ghost use Rattle.cs_types.proofs.Codes.{seated_code};

    ghost Value = { Seated };

    ghost coded = { seated_code };

    ghost use Rattle.run_queue.specs.Classes.{seated_of, IsSound};

    ghost view = { seated_of };

    ghost invariant = { IsSound };
}

impl Classes {
    /// No task, and nothing reserved. It takes no memory.
    pub fn empty(alloc: Global) -> Classes
        ensures tasks { result.tasks ≡ map.empty }
        ensures spare { result.spare ≡ 0 }
    {
        Classes {
            stop: RankTree::empty(alloc),
            deadline: DeadlineQueue::empty(alloc),
            real_time: RtQueue::empty(alloc),
            fair: FairQueue::empty(alloc),
            limit: 0,
        }
    }

    /// Raises `spare` to `n` tasks of any class if it is below. This call alone takes memory. An
    /// `Err`, for want of it or if there would be more than 4294967295 tasks, changes nothing.
    pub fn reserve(&mut self, n: u32) -> Result<(), OutOfMemory>
        ensures tasks { self.new.tasks ≡ self.old.tasks }
        ensures spare { OnOk result (self.new.spare ≡ max n self.old.spare) }
        ensures err { OnErr result (self.new.spare ≡ self.old.spare) }
    {
        let Some(limit) = self.count().checked_add(n) else {
            return Err(OutOfMemory);
        };
        self.stop.reserve(limit - self.stop.len())?;
        self.deadline.reserve(limit - self.deadline.len())?;
        self.real_time.reserve(limit - self.real_time.len())?;
        self.fair.reserve(limit - self.fair.len())?;
        self.limit = self.limit.max(limit);
        Ok(())
    }

    /// The same queues, without their allocator: no call of them takes memory any more.
    pub fn close(self) -> Classes<Closed>
        ensures { result ≡ self }
    {
        Classes {
            stop: self.stop.close(),
            deadline: self.deadline.close(),
            real_time: self.real_time.close(),
            fair: self.fair.close(),
            limit: self.limit,
        }
    }
}

impl<A> Classes<A> {
    /// Puts a task at a seat where none is.
    pub fn enqueue<L: Ledger>(&mut self, task: Queued, comparisons: &mut Steps<L>)
        requires spare { 0 < self.old.spare }
        requires class { task.class ≤ fair_class }
        requires free { map.get self.old.tasks (seat_of task) ≡ None }
        ensures tasks { self.new.tasks ≡ map.insert self.old.tasks (seat_of task) task.pid }
        ensures spare { self.new.spare + 1 ≡ self.old.spare }
        ensures counted { comparisons.new
            ≤ comparisons.old + most_comparisons (map.len self.old.tasks) }
    {
        match task.class {
            Queued::STOP => self.stop.put(task.rank, task.stamp, task.pid, comparisons),
            Queued::DEADLINE => self
                .deadline
                .put(task.rank, task.stamp, task.pid, comparisons),
            Queued::REAL_TIME => self
                .real_time
                .put(task.rank, task.stamp, task.pid, comparisons),
            _ => self.fair.put(task.rank, task.stamp, task.pid, comparisons),
        }
    }

    /// Takes the task at the seat of this one out. `false` comes exactly if none is there, and then
    /// nothing changes.
    pub fn dequeue<L: Ledger>(&mut self, task: &Queued, comparisons: &mut Steps<L>) -> bool
        requires class { task.now.class ≤ fair_class }
        ensures found { result ≡ map.contains_key self.old.tasks (seat_of task.now) }
        ensures tasks { self.new.tasks ≡ map.remove self.old.tasks (seat_of task.now) }
        ensures spare { self.new.spare ≡ self.old.spare + (if result then 1 else 0) }
        ensures counted { comparisons.new
            ≤ comparisons.old + most_comparisons (map.len self.old.tasks) }
    {
        match task.class {
            Queued::STOP => self.stop.take(task.rank, task.stamp, comparisons),
            Queued::DEADLINE => self.deadline.take(task.rank, task.stamp, comparisons),
            Queued::REAL_TIME => self.real_time.take(task.rank, task.stamp, comparisons),
            _ => self.fair.take(task.rank, task.stamp, comparisons),
        }
    }

    /// The fair task at a rank, which must be there, gets another rank, at which none may have its stamp.
    #[inline(always)]
    pub fn set_fair_rank<L: Ledger>(
        &mut self,
        rank: u128,
        later: u128,
        stamp: u64,
        pid: Pid,
        comparisons: &mut Steps<L>,
    )
        requires there { IsTrue (map.contains_key self.old.tasks (fair_class, (rank, stamp))) }
        requires free { map.get (map.remove self.old.tasks (fair_class, (rank, stamp)))
            (fair_class, (later, stamp)) ≡ None }
        ensures tasks { self.new.tasks
            ≡ map.insert (map.remove self.old.tasks (fair_class, (rank, stamp)))
            (fair_class, (later, stamp)) pid }
        ensures spare { self.new.spare ≡ self.old.spare }
        ensures counted { comparisons.new
            ≤ comparisons.old + most_comparisons (map.len self.old.tasks)
            + most_comparisons (map.len (map.remove self.old.tasks (fair_class, (rank, stamp)))) }
    {
        self.fair.set_rank(rank, later, stamp, pid, comparisons);
    }

    /// Every task leaves.
    pub fn clear(&mut self)
        ensures tasks { self.new.tasks ≡ map.empty }
        ensures spare { self.new.spare ≡ self.old.spare + map.len self.old.tasks }
    {
        self.stop.clear();
        self.deadline.clear();
        self.real_time.clear();
        self.fair.clear();
    }

    /// Hands over each task by its stamp and its pid, in any order.
    pub fn tell_into<M: Movers>(&self, movers: &mut M)
        requires fits { length (M.told movers.old) + map.len self.now.tasks ≤ 256 }
        ensures told { IsPermutation (M.told movers.old
            ++ list.map stamped (map.entries self.now.tasks)) (M.told movers.new) }
    {
        self.stop.tell_into(movers);
        self.deadline.tell_into(movers);
        self.real_time.tell_into(movers);
        self.fair.tell_into(movers);
    }

    /// Each task gets the rank and the stamp that it has now, with which they stand in the same order.
    pub fn renew<R: Renewal, L: Ledger>(&mut self, renewal: &R, comparisons: &mut Steps<L>)
        requires rising { IsTrue (map.is_sorted seat_cmp
            (list.map (reseated (R.at renewal.now)) (map.entries self.old.tasks))) }
        ensures entries { map.entries self.new.tasks
            ≡ list.map (reseated (R.at renewal.now)) (map.entries self.old.tasks) }
        ensures spare { self.new.spare ≡ self.old.spare }
        ensures counted { comparisons.new
            ≤ comparisons.old + 4 * most_comparisons (map.len self.old.tasks) }
    {
        self.stop.renew(renewal, comparisons);
        self.deadline.renew(renewal, comparisons);
        self.real_time.renew(renewal, comparisons);
        self.fair.renew(renewal, comparisons);
    }

    /// The pid of the first task: the one of the highest class, in that of the least rank, and among
    /// those with the least stamp. `None` exactly if there is no task.
    pub fn first<L: Ledger>(&self, comparisons: &mut Steps<L>) -> Option<Pid>
        ensures first { result ≡ top_of self.now.tasks }

        // If this is the queue of some tasks of a room, it is the first of them.
        ensures model { (tasks : List Task) → self.now.tasks ≡ queue_of tasks →
            All (λ task. priority_of task.spec.policy ≤ 99) tasks →
            result ≡ option_map (λ task. task.spec.pid) (first_of tasks) }

        // Of the classes that are asked only the last can have a task. At most two comparisons show that another has
        // none.
        ensures counted { comparisons.new
            ≤ comparisons.old + most_comparisons (map.len self.now.tasks) + 6 }
    {
        if let Some(pid) = self.stop.top(comparisons) {
            return Some(pid);
        }
        if let Some(pid) = self.deadline.top(comparisons) {
            return Some(pid);
        }
        if let Some(pid) = self.real_time.top(comparisons) {
            return Some(pid);
        }
        self.first_fair(comparisons)
    }

    /// The pid of the first fair task. `None` exactly if there is none.
    pub fn first_fair<L: Ledger>(&self, comparisons: &mut Steps<L>) -> Option<Pid>
        ensures first { result ≡ first_in fair_class self.now.tasks }
        ensures counted { comparisons.new
            ≤ comparisons.old + most_comparisons (map.len self.now.tasks) }
    {
        self.fair.top(comparisons)
    }

    /// The rank of the first fair task. `None` exactly if there is none.
    #[inline(always)]
    pub fn least_fair<L: Ledger>(&self, comparisons: &mut Steps<L>) -> Option<u128>
        ensures least { result ≡ least_rank_in fair_class self.now.tasks }
        ensures counted { comparisons.new ≤ comparisons.old + 1 }
    {
        self.fair.least_rank(comparisons)
    }

    /// How many tasks there are.
    pub fn count(&self) -> u32
        ensures { result ≡ map.len self.now.tasks }
    {
        self.stop.len() + self.deadline.len() + self.real_time.len() + self.fair.len()
    }
}
