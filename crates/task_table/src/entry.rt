//! An entry of the index. The index alone knows the order of the pids.

ghost use Rattle.std.specs.Prelude.{◌≡◌, ◌<◌, ◌≤◌, IsTrue, IfSome, MatchResult, List, length, drop};
ghost use Rattle.cs_types.specs.declared.task.Task.{Task as SomeTask};
ghost use Rattle.task_table.specs.Table.{Rises};
ghost use Rattle.std.specs.List.{list_any, position, position_from};
ghost use Rattle.task_table.specs.Positions.{IsIndexOf, IsAt, IsGap, IsAbove};
ghost use Rattle.task_table.specs.Inside.{tells_group};

use crate::group::Group;
use crate::places::MOST_GONE;
use cs_types::{Pid, TaskSpec};

/// Where the task with a pid is kept, of which groups it is, and what it was charged. A walk over a group reads the
/// entries alone.
#[derive(Clone, Copy)]
pub(crate) struct Entry {
    pub pid: Pid,
    /// Its thread group, the pid of its leader.
    pub tgid: Pid,
    /// Its process group.
    pub pgid: u32,
    /// Its slot.
    pub key: usize,
    /// What it was charged for forced idle, in ns (`core_forceidle_sum`).
    pub forced: u64,
}

impl Entry {
    /// The entry of a task in this slot, which was charged nothing.
    pub fn of(spec: &TaskSpec, key: usize) -> Entry
        ensures { result ≡ record {
          pid = spec.now.pid;
          tgid = spec.now.tgid;
          pgid = spec.now.pgid;
          key = key;
          forced = 0;
        } }
    {
        Entry {
            pid: spec.pid,
            tgid: spec.tgid,
            pgid: spec.pgid,
            key,
            forced: 0,
        }
    }

    /// Whether its task is of the group.
    pub fn is_in(&self, group: Group) -> bool
        ensures { result ≡ tells_group group self.now }
    {
        match group {
            Group::All => true,
            Group::Threads(leader) => self.tgid == leader,
            Group::Process(number) => self.pgid == number,
        }
    }
}

/// How many entries are looked at one by one, before blocks are. The next member is mostly near.
const NEAR: usize = 4;

/// How many entries are compared at once.
const BLOCK: usize = 16;

/// Whether an entry is of the group. It looks at each, and so at several at once.
fn has_any(entries: &[Entry], group: Group) -> bool
    ensures { result ≡ list_any (tells_group group) entries.now }
{
    let mut any = false;
    for entry in entries {
        any |= entry.is_in(group);
    }
    any
}

/// The position from which on an entry of the group is looked for: the blocks from `from` up to it have none.
fn clear_to(entries: &[Entry], from: usize, group: Group) -> usize
    requires from { from ≤ length entries.now }
    ensures within { result ≤ length entries.now }
    ensures first { position_from (tells_group group) from (drop from entries.now)
        ≡ position_from (tells_group group) result (drop result entries.now) }
{
    let mut clear = from;
    for _ in 0..(entries.len() - from) / BLOCK {
        if has_any(&entries[clear..clear + BLOCK], group) {
            return clear;
        }
        clear += BLOCK;
    }
    clear
}

/// The position of the first entry of the group. It looks at each in turn.
fn first_among(entries: &[Entry], group: Group) -> Option<usize>
    ensures { result ≡ position (tells_group group) entries.now }
{
    entries.iter().position(|entry| entry.is_in(group))
}

/// The position of the first entry of the group, by blocks if none is near.
#[inline(never)]
fn search(entries: &[Entry], group: Group) -> Option<usize>
    ensures { result ≡ position (tells_group group) entries.now }
{
    let near = entries.len().min(NEAR);
    if let Some(position) = first_among(&entries[..near], group) {
        return Some(position);
    }
    let clear = clear_to(entries, near, group);
    let position = first_among(&entries[clear..], group)?;
    Some(clear + position)
}

/// The position of the first entry of the group. `None` exactly if there is none. In a walk over all tasks it is the
/// first of all.
#[inline(always)]
pub(crate) fn first_in(entries: &[Entry], group: Group) -> Option<usize>
    ensures { result ≡ position (tells_group group) entries.now }
{
    if entries.first()?.is_in(group) {
        Some(0)
    } else {
        search(entries, group)
    }
}

/// Whether the pid is above those of all entries, which rise by pid. A child's is.
#[inline(always)]
pub(crate) fn is_above_all(entries: &[Entry], pid: Pid) -> bool
    ensures { IsTrue result → (tasks : List SomeTask) → IsIndexOf entries.now tasks → Rises tasks →
        IsGap pid (length entries.now) tasks }
{
    match entries.last() {
        Some(last) => last.pid < pid,
        None => false,
    }
}

/// The position of the entry with the pid, if it is shortly before the one that was noted: some that stood before it
/// may have gone since then.
fn near(entries: &[Entry], noted: usize, pid: Pid) -> Option<usize>
    ensures within { IfSome result (λ position. position < length entries.now) }
    ensures at { (tasks : List SomeTask) → IsIndexOf entries.now tasks →
        Rises tasks → IfSome result (λ position. IsAt pid position tasks) }
{
    let end = entries.len().min(noted);
    for position in (end.saturating_sub(MOST_GONE)..end).rev() {
        if entries[position].pid == pid {
            return Some(position);
        }
    }
    None
}

/// The position of the entry with the pid, or the position where it would go. The entries rise by pid. It is
/// seldom called, since most positions are noted.
#[cold]
#[inline(never)]
pub(crate) fn position_of(entries: &[Entry], pid: Pid) -> Result<usize, usize>
    ensures { (tasks : List SomeTask) → IsIndexOf entries.now tasks → Rises tasks →
        MatchResult result (λ position. IsAt pid position tasks)
        (λ position. IsGap pid position tasks) }
{
    if is_above_all(entries, pid) {
        return Err(entries.len());
    }
    entries.binary_search_by_key(&pid, |entry| entry.pid)
}

/// The same, if it is not at the position that was noted. It is first looked for shortly before that.
#[cold]
#[inline(never)]
pub(crate) fn position_by(entries: &[Entry], noted: usize, pid: Pid) -> Result<usize, usize>
    ensures { (tasks : List SomeTask) → IsIndexOf entries.now tasks → Rises tasks →
        MatchResult result (λ position. IsAt pid position tasks)
        (λ position. IsGap pid position tasks) }
{
    match near(entries, noted, pid) {
        Some(position) => Ok(position),
        None => position_of(entries, pid),
    }
}

/// Whether the pid is below those of all entries, which rise by pid. So it is when a walk begins.
fn is_below_all(entries: &[Entry], pid: Pid) -> bool
    ensures { IsTrue result → (tasks : List SomeTask) →
        IsIndexOf entries.now tasks → Rises tasks → IsAbove pid 0 tasks }
{
    match entries.first() {
        Some(first) => pid < first.pid,
        None => true,
    }
}

/// The position of the first entry with a greater pid, or their number. The entries rise by pid. The one with the pid
/// is first looked for shortly before the position that was noted.
#[cold]
#[inline(never)]
pub(crate) fn position_above(entries: &[Entry], noted: usize, pid: Pid) -> usize
    ensures { (tasks : List SomeTask) → IsIndexOf entries.now tasks →
        Rises tasks → IsAbove pid result tasks }
{
    if is_below_all(entries, pid) {
        return 0;
    }
    match near(entries, noted, pid) {
        Some(position) => position + 1,
        None => entries.partition_point(|entry| entry.pid <= pid),
    }
}
