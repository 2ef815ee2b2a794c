//! The table, and what is found in it. It is apart since it alone keeps the slots and the index in step.

ghost use Rattle.std.specs.Prelude.{◌≡◌, ◌≤◌, ◌&&◌, nat_lt, [], ◌∷◌, length, drop, filter, find, IsTrue, Some, IfOk, IfSome, MatchResult, MatchOption, option_copied, slice_get};
ghost use Rattle.std.specs.Option.{option_map};
ghost use Rattle.cs_types.specs.Room.{has_pid};
ghost use Rattle.task_table.specs.Table.{Table, total_in, IsSound};
ghost use Rattle.task_table.specs.Inside.{IsKept};
ghost use Rattle.task_table.specs.Group.{is_in_group, group_above};
ghost use Rattle.task_table.specs.Walk.{WalksInOrder};
ghost use Rattle.std.specs.List.{AllByRecursion};
ghost use Rattle.task_table.specs.Positions.{IsAt, IsGap, IsAbove, IsSplit};

mod changes;

use crate::entry::{Entry, position_above, position_by, position_of};
use crate::group::Group;
use crate::places::Places;
use crate::slots::Slots;
use crate::spans::{Span, Spans};
use crate::tasks::Tasks;
use bounded_list::BoundedList;
use cs_types::{OutOfMemory, Pid, Task};
use std::alloc::Global;
use std::marker::Model;

/// The living tasks, no two with one pid, and at most as many as its limit, each with what it was
/// charged for forced idle.
#[derive(Drop)]
pub struct TaskTable {
    slots: Slots,
    /// An entry for each task, by rising pid.
    entries: BoundedList<Entry>,
    places: Places,
    /// The spans of the thread groups.
    threads: Spans,
    /// The spans of the process groups.
    processes: Spans,
    limit: u16,
}

impl Model for TaskTable {
    ghost use Rattle.task_table.specs.Table.{Table};
    ghost use Rattle.task_table.specs.Inside.{tasks_at, totals_of, IsKept};

    ghost Value = { Table };

    ghost view = { λ table. record {
      tasks = tasks_at table.slots table.entries.items;
      totals = totals_of table.entries.items;
      limit = table.limit;
    } };

    ghost invariant = { λ table. IsKept table.slots table.entries.items
        table.threads.all.items table.processes.all.items table.entries.room table.limit
        (tasks_at table.slots table.entries.items) };
}

impl TaskTable {
    /// An empty table that can take `limit` tasks. This call alone takes memory.
    pub fn with_limit(alloc: Global, limit: u16) -> Result<TaskTable, OutOfMemory>
        ensures empty { IfOk result
            (λ table. table ≡ record { tasks = []; totals = []; limit = limit }) }
        ensures sound { IfOk result IsSound }
    {
        Ok(TaskTable {
            slots: Slots::with_room(alloc, limit as usize)?,
            entries: BoundedList::with_room(alloc, limit as usize)?,
            places: Places::none(alloc)?,
            threads: Spans::none(alloc)?,
            processes: Spans::none(alloc)?,
            limit,
        })
    }

    /// The position of the task with the pid, or the position where it would go.
    #[inline(always)]
    fn position_of(&self, pid: Pid) -> Result<usize, usize>
        ensures position { MatchResult result (λ position. IsAt pid position self.now.tasks)
            (λ position. IsGap pid position self.now.tasks) }
        ensures sound { IsSound self.now }
    {
        match self.noted(pid) {
            Some(position) => Ok(position),
            None => position_by(&self.entries, self.places.of(pid), pid),
        }
    }

    /// The position of the task with the pid, if it is the one that was noted.
    #[inline(always)]
    fn noted(&self, pid: Pid) -> Option<usize>
        ensures { IfSome result (λ position. IsAt pid position self.now.tasks) }
    {
        let position = self.places.of(pid);
        let noted = self.entries.get(position)?;
        if noted.pid == pid {
            Some(position)
        } else {
            None
        }
    }

    /// The task with the pid. `None` exactly if there is none.
    #[inline(always)]
    pub fn find(&self, pid: Pid) -> Option<&Task>
        ensures task { option_copied result ≡ find (has_pid pid) self.now.tasks }
        ensures sound { IsSound self.now }
    {
        match self.in_noted_slot(pid) {
            Some(task) => Some(task),
            None => self.by_position(pid),
        }
    }

    /// The task with the pid, if it is in the slot that was noted.
    #[inline(always)]
    fn in_noted_slot(&self, pid: Pid) -> Option<&Task>
        ensures task { IfSome result (λ task. find (has_pid pid) self.now.tasks ≡ Some task.now) }
        ensures sound { IsSound self.now }
    {
        let task = self.slots.get(self.places.slot_of(pid))?;
        if task.spec.pid == pid {
            Some(task)
        } else {
            None
        }
    }

    /// The task with the pid, by a search. It is seldom called, since most slots are noted: mostly when there is none.
    #[cold]
    #[inline(never)]
    fn by_position(&self, pid: Pid) -> Option<&Task>
        ensures { option_copied result ≡ find (has_pid pid) self.now.tasks }
    {
        match position_of(&self.entries, pid) {
            Ok(position) => self.slots.get(self.entries[position].key),
            Err(_) => None,
        }
    }

    /// The task at a position, counted from 0 by rising pid. `None` exactly if the position is not below the number of
    /// tasks.
    #[inline(always)]
    pub fn at(&self, position: usize) -> Option<&Task>
        ensures task { option_copied result ≡ slice_get self.now.tasks position }
        ensures sound { IsSound self.now }
    {
        let entry = self.entries.get(position)?;
        self.slots.get(entry.key)
    }

    /// What the task with the pid was charged for forced idle, in ns: 0 if there is none.
    pub fn forced(&self, pid: Pid) -> u64
        ensures total { result ≡ total_in self.now pid }
        ensures sound { IsSound self.now }
    {
        match self.position_of(pid) {
            Ok(position) => self.entries[position].forced,
            Err(_) => 0,
        }
    }

    /// The position of the first task with a greater pid, or the number of tasks.
    fn position_above(&self, pid: Pid) -> usize
        ensures { IsAbove pid result self.now.tasks }
    {
        match self.noted(pid) {
            Some(position) => position + 1,
            None => position_above(&self.entries, self.places.of(pid), pid),
        }
    }

    /// The task of the group with the least pid above `after`. `None` exactly if there is none.
    #[inline(always)]
    pub fn next_in(&self, group: Group, after: Pid) -> Option<&Task>
        ensures next { option_copied result
            ≡ find (λ task. is_in_group group task && nat_lt after task.spec.pid) self.now.tasks }
        ensures rest { MatchOption result (group_above group after self.now.tasks ≡ [])
            (λ next. group_above group after self.now.tasks
            ≡ next.now ∷ group_above group next.now.spec.pid self.now.tasks) }
        ensures there { IfSome result
            (λ next. find (has_pid next.now.spec.pid) self.now.tasks ≡ Some next.now) }
        ensures sound { IsSound self.now }
    {
        self.members_from(group, self.position_above(after), self.entries.len())
            .next()
    }

    /// The task with the least pid above `after`, and what it was charged for forced idle, in ns. `None` exactly if
    /// there is none.
    pub fn next_charged(&self, after: Pid) -> Option<(&Task, u64)>
        ensures next { option_map (λ next. next.0.now) result
            ≡ find (λ task. nat_lt after task.spec.pid) self.now.tasks }
        ensures total { IfSome result (λ next. next.1 ≡ total_in self.now next.0.now.spec.pid) }
        ensures sound { IsSound self.now }
    {
        let position = self.position_above(after);
        let task = self.at(position)?;
        Some((task, self.entries[position].forced))
    }

    /// The span of the group. That of all tasks is counted anew.
    #[inline(always)]
    fn span_of(&self, group: Group) -> Span
        ensures count { length (filter (is_in_group group) self.now.tasks) ≤ result.count }
        ensures least { AllByRecursion (λ task. IsTrue (is_in_group group task) →
            result.least ≤ task.spec.pid) self.now.tasks }
    {
        match group {
            Group::All => Span {
                count: self.entries.len() as u16,
                least: 0,
            },
            Group::Threads(leader) => self.threads.of(leader),
            Group::Process(number) => self.processes.of(number),
        }
    }

    /// The position of the first task with this pid or a greater one, or the number of tasks.
    #[inline(always)]
    fn position_from(&self, pid: Pid) -> usize
        ensures { IsSplit pid pid result self.now.tasks }
    {
        match self.position_of(pid) {
            Ok(position) => position,
            Err(position) => position,
        }
    }

    /// How many tasks the group has at most, a count: maybe it has fewer. It compares none of them.
    pub fn most_in(&self, group: Group) -> u16
        ensures most { length (filter (is_in_group group) self.now.tasks) ≤ result }
    {
        self.span_of(group).count
    }

    /// A pid below those of all tasks of the group, or 0: a walk over the group can begin with the next one above it.
    pub fn below(&self, group: Group) -> Pid
        ensures members { group_above group result self.now.tasks
            ≡ group_above group 0 self.now.tasks }
    {
        self.span_of(group).least.saturating_sub(1)
    }

    /// How many tasks there are, 0 to the limit.
    pub fn len(&self) -> u16
        ensures len { result ≡ length self.now.tasks }
        ensures sound { IsSound self.now }
    {
        self.entries.len() as u16
    }

    /// The tasks by rising pid.
    pub fn iter(&self) -> Tasks<'_>
        ensures tasks { result ≡ self.now.tasks }
        ensures runs { WalksInOrder }
        ensures sound { IsSound self.now }
    {
        self.members(Group::All)
    }

    /// The tasks of the group by rising pid.
    pub fn members(&self, group: Group) -> Tasks<'_>
        ensures members { result ≡ filter (is_in_group group) self.now.tasks }
        ensures runs { WalksInOrder }
        ensures sound { IsSound self.now }
    {
        let span = self.span_of(group);
        self.members_from(group, self.position_from(span.least), span.count as usize)
    }

    /// The tasks of the group from a position on, by rising pid, which are `most` at most.
    #[inline(always)]
    fn members_from(&self, group: Group, position: usize, most: usize) -> Tasks<'_>
        requires within { position ≤ length self.now.tasks }
        requires most { length (filter (is_in_group group) (drop position self.now.tasks)) ≤ most }
        ensures members { result ≡ filter (is_in_group group) (drop position self.now.tasks) }
        ensures sound { IsSound self.now }
    {
        Tasks {
            group,
            most,
            entries: &self.entries.as_slice()[position..],
            slots: &self.slots,
        }
    }
}
