//! How many tasks wait on each sibling, kept while a run is played.

ghost use Rattle.std.specs.Prelude.{◌≡◌, ◌<◌, length};
ghost use Rattle.cs_types.specs.Scenario.{IsPlayable};

use crate::segments::Waiting;
use cs_types::{Cpu, Room, TaskView};
use std::alloc::{AllocError, Global};

/// How many tasks waited so far, and how many do now as far as that is known.
#[derive(Drop)]
pub(crate) struct KeptWaiting {
    waiting: Vec<Waiting>,
    /// The place of each sibling's last item, 0 if it has none yet.
    places: Vec<usize>,
    /// How many wait on each sibling, as when they were last counted.
    counts: Vec<u32>,
    /// Whether that is still so.
    is_known: bool,
}

/// Counts a task at its home if it waits there.
fn count_task<R: Room>(room: &R, counts: &mut [u32], task: TaskView) {
    let home = usize::from(task.cpu);
    let runs = match room.cpu(task.cpu) {
        Some(view) => view.run == task.pid,
        None => false,
    };
    if task.queued && !runs && home < counts.len() {
        counts[home] = counts[home].saturating_add(1);
    }
}

/// Counts the tasks that wait on each sibling, in one walk of them.
fn count_each<R: Room>(room: &R, counts: &mut [u32]) {
    counts.fill(0);
    let mut pid = 0;
    while let Some(task) = room.task_after(pid) {
        count_task(room, counts, task);
        pid = task.pid;
    }
}

impl KeptWaiting {
    /// Nothing yet, for a core with this number of siblings.
    pub(crate) fn none(alloc: Global, siblings: u8) -> Result<Self, AllocError> {
        Ok(KeptWaiting {
            waiting: Vec::new(alloc),
            places: vec![in alloc; 0; usize::from(siblings)]?,
            counts: vec![in alloc; 0; usize::from(siblings)]?,
            is_known: false,
        })
    }

    /// Takes in how many tasks wait on a sibling from one moment to another. Nothing is kept if none wait.
    fn keep(&mut self, next: Waiting) -> Result<(), AllocError> {
        let cpu = usize::from(next.cpu);
        if next.count == 0 || cpu >= self.places.len() {
            return Ok(());
        }
        let place = self.places[cpu];
        if place < self.waiting.len() {
            let last = self.waiting[place];
            if last.cpu == next.cpu && last.to == next.from && last.count == next.count {
                self.waiting[place].to = next.to;
                return Ok(());
            }
        }
        self.places[cpu] = self.waiting.len();
        self.waiting.push(next)?;
        Ok(())
    }

    /// Takes in how many wait on each sibling from one moment to another.
    pub(crate) fn keep_each<R: Room>(
        &mut self,
        room: &R,
        from: u64,
        to: u64,
    ) -> Result<(), AllocError> {
        if !self.is_known {
            count_each(room, self.counts.as_mut_slice());
            self.is_known = true;
        }
        for cpu in 0..room.siblings() {
            let count = self.counts.get(usize::from(cpu)).copied().unwrap_or(0);
            self.keep(Waiting {
                from,
                to,
                cpu,
                count,
            })?;
        }
        Ok(())
    }

    /// Takes in that other tasks may wait from now on.
    pub(crate) fn forget(&mut self) {
        self.is_known = false;
    }

    /// All of it.
    pub(crate) fn all(self) -> Vec<Waiting> {
        let KeptWaiting { waiting, .. } = self;
        waiting
    }
}
