//! The times of the pairs, as a run goes on.

ghost use Rattle.std.specs.Prelude.{◌≡◌, ◌+◌, ◌^◌, ◌<◌, ◌≤◌, [], ◌∷◌, ◌++◌, length, sum_by, IfOk};
ghost use Rattle.cs_types.specs.declared.reply.Entry.{Entry};
ghost use Rattle.cs_types.specs.Scenario.{IsEvent, IsPlayable};
ghost use Rattle.cs_types.specs.History.{AreEvents};
ghost use Rattle.cs_types.specs.Room.{Opening};
ghost use Rattle.pair_times.specs.Pairs.{ArePairsOf, pairs_among, most_rows};

use crate::keys::keys_run;
use crate::rows::{PairTime, add_each};
use cs_types::{Event, Room, Step};
use run_times::{By, advance_of};
use std::alloc::{AllocError, Global};
use std::marker::Model;

/// For each two cookies, or each two thread groups, how long their tasks ran side by side in a run. After it is opened
/// it takes no memory.
#[derive(Drop)]
pub struct PairTimes {
    by: By,
    rows: Vec<PairTime>,
}

impl Model for PairTimes {
    ghost use Rattle.std.specs.Prelude.{◌-◌, length, vec_capacity};
    ghost use Rattle.pair_times.specs.Pairs.{Pairs};

    ghost Value = { Pairs };

    ghost view = { λ pairs. record {
      by = pairs.by;
      rows = pairs.rows.items;
      spare = vec_capacity pairs.rows - length pairs.rows.items;
    } };
}

/// How many pairs this many siblings make.
fn pairs_among(siblings: u8) -> usize
    ensures { result ≡ pairs_among siblings }
{
    usize::from(siblings) * usize::from(siblings.saturating_sub(1)) / 2
}

/// How many rows these steps can make at most.
fn rows_for(siblings: u8, steps: &[Step]) -> usize
    requires few { length steps.now < 2 ^ 34 }
    ensures { result ≡ sum_by (λ step. most_rows siblings step.event) steps.now }
{
    let pairs = pairs_among(siblings);
    let mut rows = 0;
    for step in steps {
        if let Some(_) = advance_of(step.event) {
            rows += pairs;
        }
    }
    rows
}

impl PairTimes {
    /// The pairs of a core with this number of siblings, before the first advance. It takes the memory for what these
    /// steps can make. There have to be fewer than 2^34.
    pub fn open(alloc: Global, by: By, siblings: u8, steps: &[Step]) -> Result<Self, AllocError>
        requires few { length steps.now < 2 ^ 34 }
        ensures by { IfOk result (λ pairs. pairs.by ≡ by) }
        ensures none { IfOk result (λ pairs. (opening : Opening) → ArePairsOf opening [] pairs) }
        ensures spare { IfOk result
            (λ pairs. sum_by (λ step. most_rows siblings step.event) steps.now ≤ pairs.spare) }
    {
        Ok(PairTimes {
            by,
            rows: Vec::with_capacity(alloc, rows_for(siblings, steps))?,
        })
    }

    /// Takes in an event that is to be made next in the room, whoever makes it. The room has to be the one whose
    /// pairs these are, and its history has to be shorter than 2^34 entries, so that the sums fit.
    pub fn before<R: Room>(&mut self, room: &R, event: Event)
        requires playable { IsPlayable (R.opening room.now).scenario }
        requires events { AreEvents (R.opening room.now) (R.history room.now) }
        requires event { IsEvent (R.opening room.now).scenario.siblings event }
        requires pairs { ArePairsOf (R.opening room.now) (R.history room.now) self.old }
        requires few { length (R.history room.now) < 2 ^ 34 }
        requires spare { most_rows (R.opening room.now).scenario.siblings event ≤ self.old.spare }
        ensures by { self.new.by ≡ self.old.by }
        ensures pairs { (entry : Entry) → entry.event ≡ event →
            ArePairsOf (R.opening room.now) (R.history room.now ++ entry ∷ []) self.new }
        ensures spare { self.old.spare
            ≤ self.new.spare + most_rows (R.opening room.now).scenario.siblings event }
    {
        if let Some(time) = advance_of(event) {
            add_each(&mut self.rows, keys_run(room, self.by).as_slice(), time);
        }
    }

    /// The pairs that ran side by side, by rising lower cookie or thread group, and then by rising higher one.
    pub fn rows(&self) -> &[PairTime]
        ensures { result.now ≡ self.now.rows }
    {
        self.rows.as_slice()
    }
}
