//! A walk over the tasks of a group.

ghost use Rattle.std.specs.Prelude.{◌≡◌, ◌+◌, ◌≤◌, MatchOption};
ghost use Rattle.std.specs.Iterator.{YieldsFirstRef, item_count};

use crate::entry::{Entry, first_in};
use crate::group::Group;
use crate::slots::Slots;
use cs_types::Task;
use std::marker::Model;

/// The tasks of a group that a walk has left, by rising pid.
#[derive(Drop)]
pub struct Tasks<'a> {
    pub(crate) group: Group,
    /// How many are left at most, a count.
    pub(crate) most: usize,
    pub(crate) entries: &'a [Entry],
    pub(crate) slots: &'a Slots,
}

impl<'a> Model for Tasks<'a> {
    ghost use Rattle.std.specs.Prelude.{List, filter};
    ghost use Rattle.cs_types.specs.declared.task.Task.{Task as SomeTask};
    ghost use Rattle.task_table.specs.Group.{is_in_group};
    ghost use Rattle.task_table.specs.Inside.{tasks_at, IsWalk};

    ghost Value = { List SomeTask };

    ghost view = { λ left. filter (is_in_group left.group)
        (tasks_at left.slots.now left.entries.now) };

    ghost invariant = { λ left. IsWalk left.slots.now left.entries.now left.group left.most };
}

/// How many are left after the next one at most. `None` if none was left. Those of all tasks are counted too, since to
/// tell these from a group takes longer.
#[inline(always)]
fn behind_next(most: usize) -> Option<usize>
    ensures { MatchOption result (most ≡ 0) (λ behind. most ≤ behind + 1) }
{
    most.checked_sub(1)
}

impl<'a> Iterator for Tasks<'a> {
    type Item = &'a Task;

    ghost next_gives = { YieldsFirstRef (λ left. left) };

    ghost remaining = { item_count (λ left. left) };

    #[inline(always)]
    fn next(&mut self) -> Option<&'a Task> {
        let behind = behind_next(self.most)?;
        let position = first_in(self.entries, self.group)?;
        self.most = behind;
        let key = self.entries[position].key;
        self.entries = &self.entries[position + 1..];
        self.slots.get(key)
    }
}
