//! A pass: the right to make the steps of one list, one at a time.

ghost use Rattle.std.specs.Prelude.{◌≡◌, slice_get};
ghost use Rattle.core_lock.specs.Passes.{list_of};

use crate::board::Place;
use cs_types::{List, Room, Step};
use std::marker::Model;

/// Holds a list of steps of one actor, and how many of them are made. Contracts see its lock, and what it knows
/// of its list: the number, how many steps are made, the history that it has seen, and the last length that it
/// read with the number of its readings.
#[derive(Drop)]
pub struct Pass<R: Room> {
    pub(crate) seat: Place<R>,
    pub(crate) steps: List<Step>,
    pub(crate) made: usize,
}

impl<R: Room> Model for Pass<R> {
    ghost use Rattle.core_lock.specs.Passes.{PassState, IsPass, pass_of};

    ghost Value = { PassState };

    ghost view = { λ pass. pass_of R.opening R.spare pass.seat.table_id pass.seat.me.0 };

    ghost invariant = { λ pass. IsPass R.opening pass.seat.me pass.steps pass.made };
}

impl<R: Room> Pass<R> {
    /// The step that the pass makes next. `None` exactly if it has made all its steps.
    pub fn next_step(&self) -> Option<Step>
        ensures { result ≡ slice_get (list_of self.now) self.now.progress.made }
    {
        self.steps.items().get(self.made).copied()
    }
}
