//! Where the tasks are kept. It is apart, since it alone knows how an empty slot is found. A task keeps its slot as
//! long as it is in the table.

ghost use Rattle.std.specs.Prelude.{◌≡◌, ◌+◌, ◌<◌, [], None, Some, IfOk, IsSome, option_copied};
ghost use Rattle.std.specs.Borrow.{Lends, sem};
ghost use Rattle.cs_types.specs.contracts.task.Task.{the_row as task_row};
ghost use Rattle.task_table.specs.Slots.{get, IsFilled, filled_count, with_task, Updates};
ghost use Rattle.task_table.specs.Links.{task_of};

use bounded_list::BoundedList;
use cs_types::{OutOfMemory, Task};
use std::alloc::Global;
use std::marker::Model;
use std::ops::{Index, IndexMut};

/// A slot that was used.
#[derive(Clone, Copy)]
enum Slot {
    /// It has no task. The next such slot, or the number of slots if there is none.
    Empty(usize),
    /// It has this task.
    Filled(Task),
}

impl Slot {
    ghost use Rattle.task_table.specs.contracts.slots.Slot.{the_row};

    /// The task, lent to be changed.
    fn task_mut(&mut self) -> &mut Task
        requires { IsSome (task_of self.old) }
        ensures* writes_back { sem 𝓛 (Lends the_row task_row self.entry result Slot.Filled) }
        ensures value { task_of self.old ≡ Some result.now }
    {
        match self {
            Slot::Filled(task) => task,
            Slot::Empty(_) => unreachable!(),
        }
    }
}

/// Tasks in slots, and room for a fixed number of them.
#[derive(Drop)]
pub(crate) struct Slots {
    all: BoundedList<Slot>,
    /// The first slot that has no task, or the number of slots if each has one.
    first_empty: usize,
}

impl Model for Slots {
    ghost use Rattle.std.specs.Prelude.{map};
    ghost use Rattle.task_table.specs.Slots.{Slotted};
    ghost use Rattle.task_table.specs.Links.{task_of, AreLinked};

    ghost Value = { Slotted };

    ghost view = { λ slots. record { slots = map task_of slots.all.items; room = slots.all.room } };

    ghost invariant = { λ slots. AreLinked slots.all.items slots.first_empty };
}

impl Slots {
    /// No task, and room for `room` of them, a count. This call alone takes memory.
    pub fn with_room(alloc: Global, room: usize) -> Result<Slots, OutOfMemory>
        ensures empty { IfOk result (λ slots. slots.slots ≡ []) }
        ensures room { IfOk result (λ slots. slots.room ≡ room) }
    {
        let all = BoundedList::with_room(alloc, room)?;
        Ok(Slots {
            all,
            first_empty: 0,
        })
    }

    /// The task in the slot. `None` exactly if it has none.
    #[inline(always)]
    pub fn get(&self, key: usize) -> Option<&Task>
        ensures { option_copied result ≡ get self.now key }
    {
        match self.all.get(key) {
            Some(Slot::Filled(task)) => Some(task),
            _ => None,
        }
    }

    /// Puts the task into an empty slot, which it gives back. There must be room for it.
    pub fn fill(&mut self, task: Task) -> usize
        requires { filled_count self.old < self.old.room }
        ensures was_empty { get self.old result ≡ None }
        ensures updates { Updates self.old self.new result (Some task) }
        ensures count { filled_count self.new ≡ filled_count self.old + 1 }
        ensures room { self.new.room ≡ self.old.room }
    {
        let key = self.first_empty;
        if key == self.all.len() {
            self.all.push(Slot::Filled(task));
            self.first_empty = self.all.len();
            return key;
        }
        let Slot::Empty(next) = self.all[key] else {
            unreachable!()
        };
        self.all[key] = Slot::Filled(task);
        self.first_empty = next;
        key
    }

    /// Takes the task out of the slot, which must have one.
    pub fn remove(&mut self, key: usize) -> Task
        requires { IsFilled self.old key }
        ensures value { get self.old key ≡ Some result }
        ensures updates { Updates self.old self.new key None }
        ensures count { filled_count self.new + 1 ≡ filled_count self.old }
        ensures room { self.new.room ≡ self.old.room }
    {
        let Slot::Filled(task) = self.all[key] else {
            unreachable!()
        };
        self.all[key] = Slot::Empty(self.first_empty);
        self.first_empty = key;
        task
    }
}

impl Index<usize> for Slots {
    type Output = Task;

    ghost can_index = { IsFilled };

    ghost index_gives = { λ slots key task. get slots key ≡ Some task };

    #[inline(always)]
    fn index(&self, key: usize) -> &Task {
        self.get(key).unwrap()
    }
}

impl IndexMut<usize> for Slots {
    ghost use Rattle.task_table.specs.contracts.slots.Slots.{the_row};

    #[inline(always)]
    fn index_mut(&mut self, key: usize) -> &mut Task
        requires { IsFilled self.old key }
        ensures* writes_back { sem 𝓛
            (Lends the_row task_row self.entry result (with_task self.old key)) }
        ensures value { get self.old key ≡ Some result.now }
    {
        self.all[key].task_mut()
    }
}
