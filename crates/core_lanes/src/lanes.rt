//! The core.

ghost use Rattle.std.specs.Prelude.{◌≡◌, ◌+◌, ◌^◌, ◌<◌, ◌≤◌, length, map, find, is_some, Some, IfOk, IfSome, IsSomeAnd, option_copied, IsTrue};
ghost use Rattle.std.specs.Option.{option_map};
ghost use Rattle.cs_types.specs.declared.task.Task.{Task as SomeTask};
ghost use Rattle.cs_types.specs.Room.{has_pid, is_online, running_on, with_task, flag};
ghost use Rattle.cs_types.specs.Order.{is_fair};
ghost use Rattle.cs_types.specs.Queue.{queued_of};
ghost use Rattle.cs_types.specs.Selection.{first_on};
ghost use Rattle.cs_types.specs.Step.{run_idle};
ghost use Rattle.cs_types.specs.Steal.{set_place};
ghost use Rattle.cs_types.specs.Queueing.{enqueue, dequeue, moved_to};
ghost use Rattle.task_table.specs.Table.{Table, IsSound as IsTable};
ghost use Rattle.core_lanes.specs.Queued.{IsOf, queued_among, mover_of, AreTold, given_cookie, given_vtime};

use crate::lane::Lane;
use crate::order::is_alike;
use crate::queue::SiblingQueue;
use bounded_list::BoundedList;
use cs_types::{Cookie, Cpu, OutOfMemory, Pid, Queued, Steps, Task};
use forceidle_account::ForceIdle;
use std::alloc::Global;
use std::sync::ledger::Ledger;
use task_table::TaskTable;

/// The living task with the pid.
#[inline(always)]
pub fn task_of(table: &TaskTable, pid: Pid) -> Option<Task>
    ensures task { result ≡ find (has_pid pid) table.now.tasks }
    ensures there { IfSome result (IsOf table.now.tasks) }
    ensures sound { IsTable table.now }
{
    table.find(pid).copied()
}

/// The siblings of a core, and its numbers (`rq->core`).
#[derive(Drop)]
pub struct Core<Q: SiblingQueue> {
    /// The cookie that the core runs under, 0 for none (`core_cookie`).
    pub cookie: Cookie,
    /// The task number: how often the queues were touched, a count (`core_task_seq`).
    pub task_number: u64,
    /// The pick number: how often they were touched up to the last core-wide selection and with it, a
    /// count (`core_pick_seq`).
    pub pick_number: u64,
    /// The stamp of the next enqueue or rotation (this project's).
    pub next_stamp: u64,
    /// How siblings are forced idle since the last core-wide selection (`core_forceidle_count`,
    /// `core_forceidle_occupation` and `core_forceidle_start`).
    pub account: ForceIdle,
    /// The siblings, by rising number.
    pub lanes: BoundedList<Lane<Q>>,
    ghost few: { length lanes.items ≤ 16 },
}

impl<Q: SiblingQueue> Core<Q> {
    ghost use Rattle.core_lanes.specs.Queued.{HasOwnStamp};
    ghost use Rattle.core_lanes.specs.Lanes.{Beside, room_of, Agree, AgreeAway, AgreesAt, AreHeld, AreHeldBut, ChangesQueues, Replaces, Knows, MayDequeue, MayEnqueue, MaySleep, MayWake, MayTell, IsFirstCore, IsAtHome, CanMove, MayEnter};
    ghost use Rattle.core_lanes.specs.Numbers.{numbers_of, is_fresh_by};
    ghost use Rattle.core_lanes.specs.Changes.{Changes, Touches, Enters};
    ghost use Rattle.core_lanes.specs.Comparisons.{ComparesFor};

    /// The siblings, which are 1 to 16, before the first step: each is online and runs idle, and no number is
    /// above 0. Each queue can take `tasks`, a count. This call alone takes memory.
    pub fn of(alloc: Global, siblings: u8, tasks: u16) -> Result<Core<Q>, OutOfMemory>
        requires { siblings ≤ 16 }
        ensures { IfOk result (IsFirstCore siblings tasks) }
    {
        let mut lanes = BoundedList::with_room(alloc, siblings as usize)?;
        for _ in 0..siblings {
            lanes.push(Lane::with_queue(Q::with_capacity(alloc, tasks)?));
        }
        Ok(Core {
            cookie: 0,
            task_number: 0,
            pick_number: 0,
            next_stamp: 0,
            account: ForceIdle::closed(),
            lanes,
        })
    }

    /// Whether the sibling is online.
    pub fn is_online(&self, cpu: Cpu) -> bool
        requires { cpu < length self.now.lanes.items }
        ensures { (beside : Beside) (table : Table) →
            result ≡ is_online (room_of beside (self.now, table)) cpu }
    {
        self.lanes[cpu as usize].online
    }

    /// The task that a sibling runs, as it stands in the table. None if the sibling runs idle.
    #[inline(always)]
    pub fn runner<'table>(&self, table: &'table TaskTable, cpu: Cpu) -> Option<&'table Task>
        requires { cpu < length self.now.lanes.items }
        ensures task { (beside : Beside) →
            option_copied result ≡ running_on (room_of beside (self.now, table.now)) cpu }
        ensures there { IfSome result (λ task. IsOf table.now.tasks task.now) }
    {
        table.find(self.lanes[cpu as usize].run?)
    }

    /// The first task queued on a sibling, as its queue has it, none for idle (`pick_task`).
    #[inline(always)]
    pub fn first_on<L: Ledger>(
        &self,
        table: &TaskTable,
        cpu: Cpu,
        comparisons: &mut Steps<L>,
    ) -> Option<Queued>
        requires { AgreesAt cpu (self.now, table.now) }
        ensures first { (beside : Beside) →
            result ≡ option_map queued_of (first_on (room_of beside (self.now, table.now)) cpu) }
        ensures counted { comparisons.new ≤ comparisons.old
            + Q.most_compared (length (queued_among table.now.tasks cpu)) }
    {
        self.lanes[cpu as usize]
            .queue
            .first(table, cpu, comparisons)
    }

    /// Whether a task is queued on a sibling. It compares nothing.
    pub fn has_queued(&self, table: &TaskTable, cpu: Cpu) -> bool
        requires { AgreesAt cpu (self.now, table.now) }
        ensures { (beside : Beside) →
            result ≡ is_some (first_on (room_of beside (self.now, table.now)) cpu) }
    {
        self.lanes[cpu as usize].queue.count(table, cpu) > 0
    }

    /// Whether there was a core-wide selection, and nothing was touched since the last one.
    pub fn is_fresh(&self) -> bool
        ensures { (table : Table) → result ≡ is_fresh_by (numbers_of (self.now, table)) }
    {
        self.pick_number > 0 && self.pick_number == self.task_number
    }

    /// The queues are touched once more.
    pub fn touch(&mut self)
        requires { self.old.task_number + 1 < 2 ^ 64 }
        ensures { (table : Table) → Touches 1 (self.old, table) (self.new, table) (λ room. room) }
    {
        self.task_number += 1;
    }

    /// The sibling runs idle.
    pub fn run_idle(&mut self, cpu: Cpu)
        requires { cpu < length self.old.lanes.items }
        ensures { (table : Table) → Changes (self.old, table) (self.new, table)
            (λ room. run_idle room cpu) }
    {
        self.lanes[cpu as usize].run = None;
    }

    /// The sibling is pending if it was before, or if the test says so (`resched_curr`).
    pub fn flag(&mut self, cpu: Cpu, test: bool)
        requires { cpu < length self.old.lanes.items }
        ensures { (table : Table) → Changes (self.old, table) (self.new, table)
            (λ room. flag room cpu test) }
    {
        self.lanes[cpu as usize].pending |= test;
    }

    /// The sibling's next try to steal is at this place.
    pub fn set_place(&mut self, cpu: Cpu, place: u32)
        requires { cpu < length self.old.lanes.items }
        ensures { (table : Table) → Changes (self.old, table) (self.new, table)
            (λ room. set_place room cpu place) }
    {
        self.lanes[cpu as usize].place = place;
    }

    /// The queue that the task stands in, if one, has it no longer.
    #[inline(always)]
    fn take<L: Ledger>(&mut self, table: &TaskTable, task: &Task, comparisons: &mut Steps<L>)
        requires { IsAtHome (AreHeld (self.old, table.now)) (self.old, table.now) task.now }
        ensures queues { ChangesQueues self.old self.new
            (AreHeldBut task.now.spec.pid (self.new, table.now)) }
        ensures counted { ComparesFor 1 (self.old, table.now) comparisons.old comparisons.new }
    {
        if task.queued {
            self.lanes[task.home as usize]
                .queue
                .take(table, task.home, task, comparisons);
        }
    }

    /// The queue that the task belongs in, if one, has it.
    fn put<L: Ledger>(&mut self, table: &TaskTable, task: &Task, comparisons: &mut Steps<L>)
        requires home { IsAtHome (AreHeldBut task.now.spec.pid (self.old, table.now))
            (self.old, table.now) task.now }
        requires stamp { IsTrue task.now.queued → HasOwnStamp table.now.tasks task.now }
        ensures queues { ChangesQueues self.old self.new (AreHeld (self.new, table.now)) }
        ensures counted { ComparesFor 1 (self.old, table.now) comparisons.old comparisons.new }
    {
        if task.queued {
            self.lanes[task.home as usize]
                .queue
                .put(table, task.home, task, comparisons);
        }
    }

    /// The task's numbers are these now, in the table and in the queues.
    #[inline(always)]
    pub fn change<L: Ledger>(
        &mut self,
        table: &mut TaskTable,
        task: Task,
        comparisons: &mut Steps<L>,
    )
        requires { Knows (self.old, table.old) task }
        ensures changes { Changes (self.old, table.old) (self.new, table.new)
            (λ room. with_task room task) }
        ensures counted { ComparesFor 2 (self.old, table.old) comparisons.old comparisons.new }
    {
        let old = table.find(task.spec.pid).unwrap();
        if is_alike(old, &task) {
            table.change(task);
            return;
        }
        self.take(table, old, comparisons);
        table.change(task);
        self.put(table, &task, comparisons);
    }

    /// The queue that the task stands in, if one, has it as it is with this cookie.
    #[inline(always)]
    fn set_cookie_in_queue<L: Ledger>(
        &mut self,
        table: &TaskTable,
        task: &Task,
        cookie: Cookie,
        comparisons: &mut Steps<L>,
    )
        requires { IsAtHome (AreHeld (self.old, table.now)) (self.old, table.now) task.now }
        ensures queues { ChangesQueues self.old self.new (AreHeld
            (self.new, record table.now { tasks = given_cookie task.now cookie table.now.tasks })) }
        ensures counted { ComparesFor 1 (self.old, table.now) comparisons.old comparisons.new }
    {
        if task.queued {
            self.lanes[task.home as usize]
                .queue
                .set_cookie(table, task.home, task, cookie, comparisons);
        }
    }

    /// The task has the cookie, in the table and in the queue that it stands in, if one.
    #[inline(always)]
    pub fn set_cookie<L: Ledger>(
        &mut self,
        table: &mut TaskTable,
        task: &Task,
        cookie: Cookie,
        comparisons: &mut Steps<L>,
    )
        requires there { IsOf table.old.tasks task.now }
        requires agree { Agree (self.old, table.old) }
        ensures replaces { Replaces (record task.now { cookie = cookie })
            (self.old, table.old) (self.new, table.new) }
        ensures counted { ComparesFor 1 (self.old, table.old) comparisons.old comparisons.new }
    {
        if task.cookie == cookie {
            return;
        }
        self.set_cookie_in_queue(table, task, cookie, comparisons);
        table.give_cookie(task.spec.pid, cookie);
    }

    /// The queue that the fair task stands in, if one, has it as it is with this virtual time, in ns (`update_curr`).
    /// The table is to follow.
    #[inline(always)]
    pub fn set_vtime_in_queue<L: Ledger>(
        &mut self,
        table: &TaskTable,
        task: &Task,
        vtime: u128,
        comparisons: &mut Steps<L>,
    )
        requires fair { IsTrue (is_fair task.now) }
        requires home { IsAtHome (AreHeld (self.old, table.now)) (self.old, table.now) task.now }
        ensures queues { ChangesQueues self.old self.new (AreHeld
            (self.new, record table.now { tasks = given_vtime task.now vtime table.now.tasks })) }
        ensures counted { ComparesFor 2 (self.old, table.now) comparisons.old comparisons.new }
    {
        if task.queued {
            self.lanes[task.home as usize]
                .queue
                .set_vtime(table, task.home, task, vtime, comparisons);
        }
    }

    /// The queue of a sibling, whose tasks are about to leave, is empty. The list, which has as many places, gets their
    /// pids by rising stamp.
    pub fn empty_queue(&mut self, table: &TaskTable, leaving: Cpu, movers: &mut [Pid])
        requires { MayTell leaving (self.old, table.now) movers.old }
        ensures away { ChangesQueues self.old self.new (AgreeAway leaving (self.new, table.now)) }
        ensures told { AreTold (map mover_of (queued_among table.now.tasks leaving)) movers.new }
    {
        self.tell_queued(table, leaving, movers);
        self.lanes[leaving as usize].queue.clear(table, leaving);
    }

    /// The task with the pid leaves the one sibling, whose queue is empty already, and enters the queue of the other
    /// with the next stamp. It keeps what it is ahead of the least virtual time of its queue.
    #[inline(always)]
    pub fn enter<L: Ledger>(
        &mut self,
        table: &mut TaskTable,
        pid: Pid,
        from: Cpu,
        to: Cpu,
        comparisons: &mut Steps<L>,
    )
        requires { MayEnter pid from to (self.old, table.old) }
        ensures enters { Enters pid from to (self.old, table.old) (self.new, table.new) }
        ensures counted { ComparesFor 1 (self.old, table.old) comparisons.old comparisons.new }
    {
        self.place(table, &[pid], from, to);
        let entered = table.find(pid).unwrap();
        self.lanes[to as usize]
            .queue
            .put(table, to, entered, comparisons);
    }

    /// The task is asleep (`dequeue_task`).
    #[inline(always)]
    pub fn dequeue<L: Ledger>(
        &mut self,
        table: &mut TaskTable,
        task: Task,
        comparisons: &mut Steps<L>,
    )
        requires { MayDequeue (self.old, table.old) task }
        ensures touches { Touches 1 (self.old, table.old) (self.new, table.new)
            (λ room. dequeue room task) }
        ensures counted { ComparesFor 2 (self.old, table.old) comparisons.old comparisons.new }
    {
        let mut asleep = task;
        asleep.queued = false;
        self.change(table, asleep, comparisons);
        self.touch();
    }

    /// The task with the pid is asleep (`dequeue_task`). It is changed where it stands in the table, since to copy a
    /// task takes longer.
    #[inline(always)]
    pub fn put_to_sleep<L: Ledger>(
        &mut self,
        table: &mut TaskTable,
        pid: Pid,
        comparisons: &mut Steps<L>,
    )
        requires { MaySleep pid (self.old, table.old) }
        ensures touches { (task : SomeTask) → find (has_pid pid) table.old.tasks ≡ Some task →
            Touches 1 (self.old, table.old) (self.new, table.new) (λ room. dequeue room task) }
        ensures counted { ComparesFor 1 (self.old, table.old) comparisons.old comparisons.new }
    {
        let task = table.find(pid).unwrap();
        self.take(table, task, comparisons);
        table.put_to_sleep(pid);
        self.touch();
    }

    /// The task, which sleeps in the table, is queued as it is here, with the next stamp (`enqueue_task`). What differs
    /// here, its home and its times, is changed where it stands in the table.
    #[inline(always)]
    pub fn wake<L: Ledger>(
        &mut self,
        table: &mut TaskTable,
        task: &Task,
        comparisons: &mut Steps<L>,
    )
        requires { MayWake (self.old, table.old) task.now }
        ensures touches { Touches 1 (self.old, table.old) (self.new, table.new)
            (λ room. enqueue room task.now) }
        ensures counted { ComparesFor 1 (self.old, table.old) comparisons.old comparisons.new }
    {
        let stamp = self.next_stamp;
        self.next_stamp += 1;
        let pid = task.spec.pid;
        table.queue_up(pid, task.home, task.vtime, task.deadline, stamp);
        let queued = table.find(pid).unwrap();
        self.put(table, queued, comparisons);
        self.touch();
    }

    /// The task is queued, with the next stamp (`enqueue_task`).
    #[inline(always)]
    pub fn enqueue<L: Ledger>(
        &mut self,
        table: &mut TaskTable,
        task: Task,
        comparisons: &mut Steps<L>,
    )
        requires { MayEnqueue (self.old, table.old) task }
        ensures touches { Touches 1 (self.old, table.old) (self.new, table.new)
            (λ room. enqueue room task) }
        ensures counted { ComparesFor 2 (self.old, table.old) comparisons.old comparisons.new }
    {
        let stamp = self.next_stamp;
        self.next_stamp += 1;
        let mut queued = task;
        queued.queued = true;
        queued.stamp = stamp;
        self.change(table, queued, comparisons);
        self.touch();
    }

    /// The task as it is once it has moved to the sibling: it keeps what it is ahead of the least virtual
    /// time of its queue.
    #[inline(always)]
    pub fn moved_to(&self, cpu: Cpu, task: Task) -> Task
        requires cpu { cpu < length self.now.lanes.items }
        requires can { CanMove self.now task }
        ensures { (beside : Beside) (table : Table) →
            result ≡ moved_to (room_of beside (self.now, table)) cpu task }
    {
        let ahead = task
            .vtime
            .saturating_sub(self.lanes[task.home as usize].least);
        Task {
            home: cpu,
            vtime: self.lanes[cpu as usize].least + ahead,
            ..task
        }
    }
}
