//! The table that the passes of a lock share: its words, its rule, and what each kind of step tells.
//!
//! Word 0 is the ticket that is drawn next, and word 1 the one that is served. The one slot has the room.

ghost use Rattle.core_lock.specs.Board.{IsKept, first_view, drawn, looked, passed, noted, kept_of, given_of, both_of};

use crate::view::{Beginning, View};
use atomic_table::{Join, Play, Seat, Split, Table, TableRule};
use cs_types::Room;
use std::alloc::Global;
use std::snapshot::Snapshot;

/// The word of the ticket that is drawn next.
pub(crate) const TICKET: usize = 0;

/// The word of the ticket that is served, which is the length of the history.
pub(crate) const SERVING: usize = 1;

/// The rule of the lock.
pub(crate) struct Rule;

impl<R: Room> TableRule<Option<R>, View<R>, Snapshot<Beginning<R>>> for Rule {
    ghost holds = { λ key. IsKept R.opening R.history R.spare key.value };

    ghost first = { λ key. first_view key.value };
}

pub(crate) type Board<R> = Table<Option<R>, View<R>, Snapshot<Beginning<R>>, Rule, Global>;

/// The words and the slot of a board, as its seats step on them.
pub(crate) type Top<R> = atomic_table::Shared<Option<R>, View<R>, Snapshot<Beginning<R>>, Rule>;

pub(crate) type Place<R> = Seat<Option<R>, View<R>>;

/// A ticket is drawn.
pub(crate) struct Draw;

impl<R: Room> Play<Option<R>, View<R>> for Draw {
    ghost then = { drawn };
}

/// The ticket that is served is looked at. If it is the seat's own, the seat takes the room.
pub(crate) struct Look;

impl<R: Room> Play<Option<R>, View<R>> for Look {
    ghost then = { looked R.opening R.history R.spare };
}

/// The room is given back with one entry more, and the next ticket is served.
pub(crate) struct PassOn;

impl<R: Room> Play<Option<R>, View<R>> for PassOn {
    ghost then = { passed R.history };
}

/// The length is read and noted.
pub(crate) struct Read;

impl<R: Room> Play<Option<R>, View<R>> for Read {
    ghost then = { noted };
}

/// The first list of a seat is given to a new seat.
pub(crate) struct Give;

impl<R: Room> Split<View<R>> for Give {
    ghost left = { kept_of };

    ghost right = { given_of };
}

/// The lists of two seats come to one of them.
pub(crate) struct Gather;

impl<R: Room> Join<View<R>> for Gather {
    ghost use Rattle.core_lock.specs.Board.{both_of};
    ghost use Rattle.core_lock.specs.declared.view.View.TheVariants.{Gone};

    ghost both = { both_of };

    ghost spent = { Gone };
}
