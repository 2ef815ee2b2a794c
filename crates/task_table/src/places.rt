//! Where to look for a pid first: in which slot, and at which position. It is apart since nothing that is promised
//! rests on it: a wrong place costs a search, and no more.

ghost use Rattle.std.specs.Prelude.{◌≡◌, length};

use crate::entry::Entry;
use bounded_list::BoundedList;
use cs_types::{OutOfMemory, Pid};
use std::alloc::Global;

/// How many places are noted, a count. Pids that differ by a multiple of it share one, so it is far above the
/// number of tasks that live at once.
const PLACES: usize = 8192;

/// How many entries may go before the positions of those after them are noted anew, a count.
pub(crate) const MOST_GONE: usize = 16;

/// After all entries.
const BEHIND_ALL: usize = 65536;

/// The positions of entries by their pids, as they were last noted, and the slots of their tasks.
#[derive(Drop)]
pub(crate) struct Places {
    noted: BoundedList<u16>,
    /// A task keeps its slot for life.
    slots: BoundedList<u16>,
    /// How many entries have gone since the positions were noted, a count.
    gone: usize,
    /// No entry before this position has gone since then.
    first_gone: usize,
    ghost all: { length noted.items ≡ 8192 },
    ghost each: { length slots.items ≡ 8192 },
}

impl Places {
    /// No position and no slot but 0. This call alone takes memory.
    pub fn none(alloc: Global) -> Result<Places, OutOfMemory> {
        let noted = BoundedList::filled(alloc, 0, PLACES)?;
        let slots = BoundedList::filled(alloc, 0, PLACES)?;
        Ok(Places {
            noted,
            slots,
            gone: 0,
            first_gone: BEHIND_ALL,
        })
    }

    /// The slot in which to look for the task with the pid.
    pub fn slot_of(&self, pid: Pid) -> usize {
        self.slots[pid as usize % PLACES] as usize
    }

    /// Notes the slot of the task with the pid.
    pub fn note_slot(&mut self, pid: Pid, key: usize) {
        if let Ok(key) = u16::try_from(key) {
            self.slots[pid as usize % PLACES] = key;
        }
    }

    /// The position at which to look for the pid.
    pub fn of(&self, pid: Pid) -> usize {
        self.noted[pid as usize % PLACES] as usize
    }

    /// The entry at the position has gone. The positions of those after it are noted anew once several have gone.
    #[inline(always)]
    pub fn forget(&mut self, entries: &[Entry], position: usize) {
        self.first_gone = self.first_gone.min(position);
        self.gone = self.gone.wrapping_add(1);
        if self.gone >= MOST_GONE {
            self.note_anew(entries);
        }
    }

    /// Notes the positions of all entries after the first that has gone.
    #[inline(never)]
    fn note_anew(&mut self, entries: &[Entry]) {
        self.note(entries, self.first_gone);
        self.gone = 0;
        self.first_gone = BEHIND_ALL;
    }

    /// Notes the positions of the entries from this one on.
    pub fn note(&mut self, entries: &[Entry], from: usize) {
        let Some(behind) = entries.get(from..) else {
            return;
        };
        let noted = self.noted.as_mut_slice();
        let mut position = (from % 65536) as u16;
        for entry in behind {
            noted[entry.pid as usize % PLACES] = position;
            position = position.wrapping_add(1);
        }
    }
}
