//! The tasks that came to a queue, in the order in which they came. It is apart, since it is a hint: what it gives is
//! looked up in the table, and nothing that is promised rests on what it keeps.

ghost use Rattle.std.specs.Prelude.{◌≡◌, [], ℕ, ◌+◌, ◌^◌, ◌<◌, ◌≤◌, ◌++◌, length, take, drop, map, Contains, IsTrue};
ghost use Rattle.std.specs.List.{slice_index_or};
ghost use Rattle.core_lanes.specs.Queued.{queued_among, mover_of, AreTold};
ghost use Rattle.tree_queue.specs.Arrivals.{BeginsBelow};

use bounded_list::BoundedList;
use cs_types::{Cpu, OutOfMemory, Pid};
use std::alloc::Global;
use task_table::TaskTable;

/// Tasks that came to a queue, each in its turn. Those that left since are not taken out.
#[derive(Drop)]
pub struct Arrivals {
    /// A place for each task that the queue can take. In the first of them stand the pids of those that came all at
    /// once, by the last move.
    moved: BoundedList<Pid>,
    /// How many these are.
    count: usize,
    /// The stamp of the first of these. Those of the others follow in a row.
    base: u64,
    /// The stamps and the pids of those that came one by one since, by rising stamp. Of these the first may be lower
    /// than those of the moved ones: such a task was there before these, left and came back.
    entries: BoundedList<(u64, Pid)>,
}

impl Arrivals {
    /// None, with places for as many as the queue can take, which move to it, and for twice as many that come one by
    /// one. This call alone takes memory.
    pub fn with_capacity(alloc: Global, most: u16) -> Result<Arrivals, OutOfMemory> {
        Ok(Arrivals {
            moved: BoundedList::filled(alloc, 0, usize::from(most))?,
            count: 0,
            base: 0,
            entries: BoundedList::with_room(alloc, 2 * usize::from(most))?,
        })
    }

    /// A task came. If there is no place for it, none of those that came one by one is kept any more.
    #[inline(always)]
    pub fn note(&mut self, stamp: u64, pid: Pid) {
        if self.entries.len() < self.entries.room() {
            self.entries.push((stamp, pid));
            sift(&mut self.entries);
        } else {
            self.entries.clear();
        }
    }

    /// How many of those that came one by one have lower stamps than those that moved.
    fn behind(&self) -> usize
        ensures { result ≤ length self.now.entries.items }
    {
        let base = self.base;
        self.entries.partition_point(|entry| entry.0 < base)
    }

    /// Those that came all at once, by the last move.
    fn moved(&self) -> &[Pid] {
        &self.moved[..self.count.min(self.moved.len())]
    }

    /// None is kept any more.
    pub fn clear(&mut self) {
        self.count = 0;
        self.entries.clear();
    }

    /// The tasks of the list moved, in its order, and the stamps that they have in the table are in a row. None is kept
    /// if there are not places for all.
    pub fn renew(&mut self, table: &TaskTable, movers: &[Pid]) {
        self.clear();
        self.base = first_stamp(table, movers);
        if movers.len() <= self.moved.len() {
            copy_behind(&mut self.moved, 0, movers);
            self.count = movers.len();
        }
    }

    /// Writes the pids of the tasks that are queued on the sibling, `count` of them, by rising stamp, into a list that
    /// has as many places. `false` if these are not all among those that are kept, or if far more are kept than there
    /// are: to look these up would take longer than to ask the trees. Then the list may have got some of them.
    pub fn tell(&self, table: &TaskTable, cpu: Cpu, count: usize, movers: &mut [Pid]) -> bool
        requires each { length movers.old ≡ count }
        requires count { count ≡ length (queued_among table.now.tasks cpu) }
        ensures told { IsTrue result →
            AreTold (map mover_of (queued_among table.now.tasks cpu)) movers.new }
        ensures each { length movers.new ≡ length movers.old }
    {
        let moved = self.moved();
        let entries = self.entries.as_slice();
        if moved.len() + entries.len() > 2 * count + 16 {
            return false;
        }
        let Some(past) = self.base.checked_add(moved.len() as u64) else {
            return false;
        };
        let (back, new) = entries.split_at(self.behind());
        let told = tell_entries(back, 0, self.base, table, cpu, movers, 0);
        let told = tell_moved(moved, self.base, table, cpu, movers, told);
        let told = tell_entries(new, past, u64::MAX, table, cpu, movers, told);
        told == count
    }
}

/// The last entry goes before those that have greater stamps, which seldom are there.
#[inline(always)]
fn sift(entries: &mut [(u64, Pid)]) {
    let mut place = entries.len();
    while place > 1 && entries[place - 1].0 < entries[place - 2].0 {
        entries.swap(place - 2, place - 1);
        place -= 1;
    }
}

/// The stamp of the first task of the list, 0 if there is none.
fn first_stamp(table: &TaskTable, movers: &[Pid]) -> u64 {
    let Some(pid) = movers.first() else {
        return 0;
    };
    match table.find(*pid) {
        Some(task) => task.stamp,
        None => 0,
    }
}

/// Writes the pids of those of the tasks that are queued on the sibling since they moved, after the `before` that are
/// written already, whose stamps are below. The first got the stamp `base` then, and those of the others follow in a
/// row. The result is how many are written then. The list has a place for each task of the sibling.
fn tell_moved(
    moved: &[Pid],
    base: u64,
    table: &TaskTable,
    cpu: Cpu,
    movers: &mut [Pid],
    before: usize,
) -> usize
    requires each { length movers.old ≡ length (queued_among table.now.tasks cpu) }
    requires lower { BeginsBelow (map mover_of (queued_among table.now.tasks cpu))
        base before movers.old }
    requires low { base + length moved.now < 2 ^ 64 }
    ensures each { length movers.new ≡ length movers.old }
    ensures below { BeginsBelow (map mover_of (queued_among table.now.tasks cpu))
        (base + length moved.now) result movers.new }
{
    let mut told = before;
    let mut place = 0;
    while place < moved.len() {
        let rest = &moved[place..];
        let there = count_there(rest, base + place as u64, table, cpu);
        copy_behind(movers, told, &rest[..there]);
        told += there;
        // The task after these is not there.
        place = (place + there + 1).min(moved.len());
    }
    told
}

/// Writes these after the first `told` of a list, which has places for them.
#[inline(always)]
fn copy_behind(movers: &mut [Pid], told: usize, run: &[Pid])
    requires { told + length run.now ≤ length movers.old }
    ensures { movers.new ≡ take told movers.old ++ run.now
        ++ drop (told + length run.now) movers.old }
{
    movers[told..told + run.len()].copy_from_slice(run);
}

/// How many of the first of these tasks are queued on the sibling since the first got the stamp `base`, and the others
/// those that follow in a row. Most are, so that one call mostly counts all.
#[inline(never)]
fn count_there(moved: &[Pid], base: u64, table: &TaskTable, cpu: Cpu) -> usize
    requires low { base + length moved.now < 2 ^ 64 }
    ensures within { result ≤ length moved.now }
    ensures there { (place : ℕ) → place < result →
        Contains (map mover_of (queued_among table.now.tasks cpu))
        (base + place, slice_index_or moved.now place 0) }
{
    for (place, pid) in moved.iter().enumerate() {
        if !is_there(table, cpu, base + place as u64, *pid) {
            return place;
        }
    }
    moved.len()
}

/// Writes the pids of those of the entries that are tasks queued on the sibling since then, by rising stamp, after the
/// `before` that are written already, whose stamps are below `past`. It writes none with a stamp from `until` on. The
/// result is how many are written then. The list has a place for each task of the sibling.
fn tell_entries(
    entries: &[(u64, Pid)],
    past: u64,
    until: u64,
    table: &TaskTable,
    cpu: Cpu,
    movers: &mut [Pid],
    before: usize,
) -> usize
    requires each { length movers.old ≡ length (queued_among table.now.tasks cpu) }
    requires below { BeginsBelow (map mover_of (queued_among table.now.tasks cpu))
        past before movers.old }
    requires order { past ≤ until }
    ensures each { length movers.new ≡ length movers.old }
    ensures below { BeginsBelow (map mover_of (queued_among table.now.tasks cpu))
        until result movers.new }
{
    let mut told = before;
    let mut above = past;
    for entry in entries.iter() {
        let (stamp, pid) = *entry;
        let next = after(stamp);
        if above < next && next <= until && is_there(table, cpu, stamp, pid) {
            movers[told] = pid;
            told += 1;
            above = next;
        }
    }
    told
}

/// The stamp that comes after this one, 0 if none does.
#[inline(always)]
fn after(stamp: u64) -> u64
    ensures { 0 < result → result ≡ stamp + 1 }
{
    match stamp.checked_add(1) {
        Some(next) => next,
        None => 0,
    }
}

/// Whether there is a task with this pid that is queued on the sibling since it was given this stamp.
#[inline(always)]
fn is_there(table: &TaskTable, cpu: Cpu, stamp: u64, pid: Pid) -> bool
    ensures { IsTrue result →
        Contains (map mover_of (queued_among table.now.tasks cpu)) (stamp, pid) }
{
    let Some(task) = table.find(pid) else {
        return false;
    };
    if task.home != cpu || task.stamp != stamp {
        return false;
    }
    task.queued
}
