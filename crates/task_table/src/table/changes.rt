//! What changes the table: a task comes, is charged, is edited and goes. It is a part of the table's module, since
//! nobody else reads the fields of the table.

ghost use Rattle.std.specs.Prelude.{◌≡◌, ℕ, ◌+◌, ◌-◌, ◌<◌, ◌^◌, ◌==◌, true, false, length, map, filter, find, not, slice_set, List, if◌then◌else◌, IfNone, OnOk, OnErr, MatchOption, IsSome};
ghost use Rattle.std.specs.Option.{option_map};
ghost use Rattle.cs_types.specs.Room.{asleep, inserted, has_pid};
ghost use Rattle.cs_types.specs.declared.task.Task.{Task as SomeTask};
ghost use Rattle.task_table.specs.Table.{total_in, Rises, IsSound, add_answer};
ghost use Rattle.task_table.specs.Inside.{IsSlotOf, IsKept};
ghost use Rattle.task_table.specs.declared.spans.Span.{Span as SomeSpan};
ghost use Rattle.task_table.specs.Edit.{edited};
ghost use Rattle.task_table.specs.Moves.{with_first_moved};
ghost use Rattle.task_table.specs.Positions.{IsIndexOf, IsGap};
ghost use Rattle.task_table.specs.Grouping.{HasMember, Counts, AreSpans};

use super::TaskTable;
use crate::edit::Edit;
use crate::entry::{Entry, is_above_all, position_of};
use crate::fault::AddFault;
use crate::places::Places;
use crate::slots::Slots;
use crate::spans::Spans;
use bounded_list::BoundedList;
use cs_types::{Cookie, Cpu, Pid, Task, TaskSpec};

/// A task before its first wake.
fn asleep(spec: TaskSpec) -> Task
    ensures { result ≡ asleep spec }
{
    Task {
        spec,
        cookie: 0,
        home: spec.cpu,
        queued: false,
        vtime: 0,
        deadline: 0,
        stamp: 0,
        used: 0,
        occupation: 0,
    }
}

/// The entry gets the groups that the line of its task names, and the spans count it there. They are seldom others than
/// before.
#[inline(always)]
fn regroup(entry: &mut Entry, threads: &mut Spans, processes: &mut Spans, spec: &TaskSpec)
    requires threads { Counts threads.old.all.items entry.old.tgid entry.old.pid }
    requires processes { Counts processes.old.all.items entry.old.pgid entry.old.pid }
    ensures entry { entry.new ≡ record entry.old { tgid = spec.now.tgid; pgid = spec.now.pgid } }
    ensures threads { (members : List (ℕ × ℕ)) (position : ℕ) →
        HasMember members position (entry.old.tgid, entry.old.pid) →
        AreSpans threads.old.all.items members →
        AreSpans threads.new.all.items (slice_set members position (spec.now.tgid, entry.old.pid)) }
    ensures processes { (members : List (ℕ × ℕ)) (position : ℕ) →
        HasMember members position (entry.old.pgid, entry.old.pid) →
        AreSpans processes.old.all.items members → AreSpans processes.new.all.items
        (slice_set members position (spec.now.pgid, entry.old.pid)) }
{
    if entry.tgid == spec.tgid && entry.pgid == spec.pgid {
        return;
    }
    threads.move_between(entry.tgid, spec.tgid, entry.pid);
    processes.move_between(entry.pgid, spec.pgid, entry.pid);
    entry.tgid = spec.tgid;
    entry.pgid = spec.pgid;
}

/// The slot of the task with the pid. `None` exactly if there is none. It is handed the list of the entries, since to
/// read where these stand is a cost of its own, and only a search needs it.
#[inline(always)]
fn slot_of(slots: &Slots, entries: &BoundedList<Entry>, places: &Places, pid: Pid) -> Option<usize>
    ensures { (threads processes : List SomeSpan) (room limit : ℕ) (tasks : List SomeTask) →
        IsKept slots.now entries.now.items threads processes room limit tasks →
        MatchOption result (find (has_pid pid) tasks ≡ None)
        (λ key. IsSlotOf key pid entries.now.items tasks) }
{
    let key = places.slot_of(pid);
    match slots.get(key) {
        Some(task) if task.spec.pid == pid => Some(key),
        _ => searched(entries, pid),
    }
}

/// The slot of the entry with the pid. `None` exactly if there is none. It is seldom called, since most slots are
/// noted.
#[cold]
#[inline(never)]
fn searched(entries: &[Entry], pid: Pid) -> Option<usize>
    ensures { (tasks : List SomeTask) → IsIndexOf entries.now tasks → Rises tasks →
        MatchOption result (find (has_pid pid) tasks ≡ None)
        (λ key. IsSlotOf key pid entries.now tasks) }
{
    let Ok(position) = position_of(entries, pid) else {
        return None;
    };
    Some(entries.get(position)?.key)
}

impl TaskTable {
    /// Puts a task asleep into the table, charged nothing yet. `Twice` comes exactly if a task has its pid, and else
    /// `Full` exactly if the table has as many tasks as its limit. An `Err` changes nothing.
    pub fn add(&mut self, spec: TaskSpec) -> Result<(), AddFault>
        ensures answer { result ≡ add_answer self.old spec }
        ensures added { OnOk result (self.new ≡ record self.old {
          tasks = inserted (asleep spec) self.old.tasks;
          totals = self.new.totals;
        }) }
        ensures totals { (pid : ℕ) → total_in self.new pid ≡ total_in self.old pid }
        ensures unchanged { OnErr result (self.new ≡ self.old) }
        ensures sound { IsSound self.new }
    {
        let behind_all = self.entries.len();
        if is_above_all(&self.entries, spec.pid) {
            return self.insert(behind_all, spec);
        }
        match self.position_of(spec.pid) {
            Ok(_) => Err(AddFault::Twice(spec.pid)),
            Err(position) => self.insert(position, spec),
        }
    }

    /// Puts a task asleep at the position of its pid, unless the table is full.
    fn insert(&mut self, position: usize, spec: TaskSpec) -> Result<(), AddFault>
        requires { IsGap spec.pid position self.old.tasks }
        ensures answer { result ≡ add_answer self.old spec }
        ensures added { OnOk result (self.new ≡ record self.old {
          tasks = inserted (asleep spec) self.old.tasks;
          totals = self.new.totals;
        }) }
        ensures totals { (pid : ℕ) → total_in self.new pid ≡ total_in self.old pid }
        ensures unchanged { OnErr result (self.new ≡ self.old) }
        ensures sound { IsSound self.new }
    {
        if self.entries.len() == self.limit as usize {
            return Err(AddFault::Full(self.limit));
        }
        let key = self.slots.fill(asleep(spec));
        self.entries.insert(position, Entry::of(&spec, key));
        self.threads.add(spec.tgid, spec.pid);
        self.processes.add(spec.pgid, spec.pid);
        self.places.note(&self.entries, position);
        self.places.note_slot(spec.pid, key);
        Ok(())
    }

    /// Charges the task with the pid a share, in ns (`__sched_core_account_forceidle`). Its total stays below 2^64. If
    /// there is none, nothing changes.
    #[inline(always)]
    pub fn raise(&mut self, pid: Pid, share: u64)
        requires fits { total_in self.old pid + share < 2 ^ 64 }
        ensures rest { self.new ≡ record self.old { totals = self.new.totals } }
        ensures totals { IsSome (find (has_pid pid) self.old.tasks) → (other : ℕ) →
            total_in self.new other
            ≡ total_in self.old other + (if other == pid then share else 0) }
        ensures absent { find (has_pid pid) self.old.tasks ≡ None → self.new ≡ self.old }
        ensures sound { IsSound self.new }
    {
        if let Ok(position) = self.position_of(pid) {
            self.entries[position].forced += share;
        }
    }

    /// Puts the task in the position of the one with its pid, which it gives back. It has that one's total. `None`
    /// exactly if there is none, and then nothing changes. Mostly its groups stay, and then no entry is looked for.
    #[inline(always)]
    pub fn change(&mut self, task: Task) -> Option<Task>
        ensures old { result ≡ find (has_pid task.spec.pid) self.old.tasks }
        ensures changed { self.new ≡ record self.old {
          tasks = map (λ other. if has_pid task.spec.pid other then task else other) self.old.tasks;
        } }
        ensures absent { IfNone result (self.new ≡ self.old) }
        ensures sound { IsSound self.new }
    {
        let Some(key) = slot_of(&self.slots, &self.entries, &self.places, task.spec.pid) else {
            return None;
        };
        let old = self.slots[key];
        if old.spec.tgid != task.spec.tgid || old.spec.pgid != task.spec.pgid {
            return self.change_groups(task);
        }
        self.slots[key] = task;
        Some(old)
    }

    /// The same if its groups may be others.
    #[cold]
    #[inline(never)]
    fn change_groups(&mut self, task: Task) -> Option<Task>
        ensures old { result ≡ find (has_pid task.spec.pid) self.old.tasks }
        ensures changed { self.new ≡ record self.old {
          tasks = map (λ other. if has_pid task.spec.pid other then task else other) self.old.tasks;
        } }
        ensures absent { IfNone result (self.new ≡ self.old) }
        ensures sound { IsSound self.new }
    {
        let Ok(position) = self.position_of(task.spec.pid) else {
            return None;
        };
        let entry = &mut self.entries[position];
        let key = entry.key;
        regroup(entry, &mut self.threads, &mut self.processes, &task.spec);
        let slot = &mut self.slots[key];
        let old = *slot;
        *slot = task;
        Some(old)
    }

    /// The task with the pid, if there is one, is edited. Nothing else changes.
    #[inline(always)]
    fn edit(&mut self, pid: Pid, edit: Edit)
        ensures edited { self.new ≡ record self.old {
          tasks = map (λ task. if has_pid pid task then edited edit task else task) self.old.tasks;
        } }
        ensures sound { IsSound self.new }
    {
        let noted = self.places.slot_of(pid);
        let key = match self.slots.get(noted) {
            Some(task) if task.spec.pid == pid => noted,
            _ => match searched(&self.entries, pid) {
                Some(key) => key,
                None => return,
            },
        };
        edit.write(&mut self.slots[key]);
    }

    /// The task with the pid, if there is one, remembers this occupation (`core_occupation`). Nothing else changes.
    #[inline(always)]
    pub fn remember(&mut self, pid: Pid, occupation: u8)
        ensures remembered { self.new ≡ record self.old {
          tasks = map (λ (task : SomeTask). if has_pid pid task
              then record task { occupation = occupation } else task) self.old.tasks;
        } }
        ensures sound { IsSound self.new }
    {
        self.edit(pid, Edit::Occupation(occupation));
    }

    /// The task with the pid, if there is one, has this cookie. Nothing else changes.
    pub fn give_cookie(&mut self, pid: Pid, cookie: Cookie)
        ensures given { self.new ≡ record self.old {
          tasks = map (λ (task : SomeTask). if has_pid pid task
              then record task { cookie = cookie } else task) self.old.tasks;
        } }
        ensures sound { IsSound self.new }
    {
        self.edit(pid, Edit::Cookie(cookie));
    }

    /// The tasks with these pids, one after another, are at home on this sibling. The stamp is `first` for the first
    /// pid, and one more for each later one. The virtual time, in ns, is as far ahead of `to` as it was of `from`, or
    /// `to` itself if it was below `from`, modulo 2^128. Nothing else changes.
    #[inline(always)]
    pub fn move_to(&mut self, pids: &[Pid], home: Cpu, from: u128, to: u128, first: u64)
        requires { first + length pids.now < 2 ^ 64 }
        ensures moved { self.new ≡ record self.old {
          tasks = with_first_moved (length pids.now) pids.now home from to first self.old.tasks;
        } }
    {
        let mut stamp = first;
        for pid in pids.iter() {
            self.edit(
                *pid,
                Edit::Home {
                    home,
                    from,
                    to,
                    stamp,
                },
            );
            stamp += 1;
        }
    }

    /// The task with the pid, if there is one, has this virtual time, in ns. Nothing else changes.
    #[inline(always)]
    pub fn set_vtime(&mut self, pid: Pid, vtime: u128)
        ensures given { self.new ≡ record self.old {
          tasks = map (λ (task : SomeTask). if has_pid pid task
              then record task { vtime = vtime } else task) self.old.tasks;
        } }
        ensures sound { IsSound self.new }
    {
        self.edit(pid, Edit::Vtime(vtime));
    }

    /// The task with the pid, if there is one, has used this much of its slice, in ns. Nothing else changes.
    #[inline(always)]
    pub fn set_used(&mut self, pid: Pid, used: u64)
        ensures given { self.new ≡ record self.old {
          tasks = map (λ (task : SomeTask). if has_pid pid task
              then record task { used = used } else task) self.old.tasks;
        } }
        ensures sound { IsSound self.new }
    {
        self.edit(pid, Edit::Used(used));
    }

    /// The task with the pid, if there is one, is asleep (`on_rq`). Nothing else changes.
    #[inline(always)]
    pub fn put_to_sleep(&mut self, pid: Pid)
        ensures asleep { self.new ≡ record self.old {
          tasks = map (λ (task : SomeTask). if has_pid pid task
              then record task { queued = false } else task) self.old.tasks;
        } }
        ensures sound { IsSound self.new }
    {
        self.edit(pid, Edit::Asleep);
    }

    /// The task with the pid, if there is one, is queued on this sibling, with this virtual time and this deadline, in
    /// ns, and with this stamp. Nothing else changes.
    #[inline(always)]
    pub fn queue_up(&mut self, pid: Pid, cpu: Cpu, vtime: u128, deadline: u64, stamp: u64)
        ensures queued { self.new ≡ record self.old {
          tasks = map (λ (task : SomeTask). if has_pid pid task then record task {
            home = cpu;
            queued = true;
            vtime = vtime;
            deadline = deadline;
            stamp = stamp;
          } else task) self.old.tasks;
        } }
        ensures sound { IsSound self.new }
    {
        self.edit(
            pid,
            Edit::Queued {
                cpu,
                vtime,
                deadline,
                stamp,
            },
        );
    }

    /// Takes the task with the pid out, and gives it and what it was charged for forced idle, in ns. `None` exactly if
    /// there is none, and then nothing changes.
    #[inline(always)]
    pub fn remove(&mut self, pid: Pid) -> Option<(Task, u64)>
        ensures task { result ≡ option_map
            (λ task. (task, total_in self.old pid)) (find (has_pid pid) self.old.tasks) }
        ensures removed { self.new ≡ record self.old {
          tasks = filter (λ task. not (has_pid pid task)) self.old.tasks;
          totals = self.new.totals;
        } }
        ensures totals { (other : ℕ) →
            total_in self.new other ≡ (if other == pid then 0 else total_in self.old other) }
        ensures absent { IfNone result (self.new ≡ self.old) }
        ensures before { IsSound self.old }
        ensures sound { IsSound self.new }
    {
        let Ok(position) = self.position_of(pid) else {
            return None;
        };
        let entry = self.entries.remove(position);
        let task = self.slots.remove(entry.key);
        self.threads.remove(entry.tgid);
        self.processes.remove(entry.pgid);
        self.places.forget(&self.entries, position);
        Some((task, entry.forced))
    }
}
