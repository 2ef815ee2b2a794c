//! How a seat lets others go first, comes to its turn, makes a step in the room, and passes the turn on.

ghost use Rattle.std.specs.Prelude.{◌≡◌, ℕ, ◌<◌, [], ◌∷◌, length, slice_get, Some};
ghost use Rattle.cs_types.specs.Scenario.{IsEvent};
ghost use Rattle.core_lock.specs.declared.view.Progress.{Progress};
ghost use Rattle.core_lock.specs.declared.view.Beginning.{Beginning};
ghost use Rattle.core_lock.specs.declared.view.View.TheVariants.{Idle, Waiting};
ghost use Rattle.core_lock.specs.Lists.{list_at};
ghost use Rattle.core_lock.specs.Board.{HasTurn, HasMade};

use crate::board::{Draw, Look, PassOn, Place, SERVING, TICKET, Top};
use crossbeam_utils::Backoff;
use cs_types::{Reply, Room, Step};
use std::sync::Wait;

/// How often a seat looks at most, before it draws a ticket, whether others have one.
const LOOKS: u32 = 16;

/// Waits for a bounded time while others have tickets. A ticket is served in its order, so all after it wait while the
/// system runs something else on its holder's processor. A seat without a ticket holds nobody up.
pub(crate) fn let_others_go<R: Room>(top: &Top<R>)
    requires words { top.now.table_id.words ≡ 2 }
{
    let backoff = Backoff::new();
    for _ in 0..LOOKS {
        if top.peek(TICKET) == top.peek(SERVING) {
            return;
        }
        backoff.snooze();
    }
}

/// Draws a ticket for the next step of the seat's list.
pub(crate) fn draw<R: Room>(top: &Top<R>, seat: &mut Place<R>) -> u64
    requires table { (seat.old.table_id ≡ top.now.table_id)
        × (seat.old.table_id.words ≡ 2) × (seat.old.table_id.slots ≡ 1) }
    requires ready { (begun : Beginning R) × (has : Progress)
        × (seat.old.me ≡ (Idle begun (has ∷ []), []))
        × (has.made < length (list_at begun.lists has.number)) }
    ensures table { seat.new.table_id ≡ seat.old.table_id }
    ensures drawn { (begun : Beginning R) (has : Progress) →
        seat.old.me ≡ (Idle begun (has ∷ []), []) → seat.new.me ≡ (Waiting begun has result, []) }
{
    top.fetch_add::<Draw>(seat, TICKET, 1)
}

/// Waits until the ticket is served, and takes the room. It spins for a while, and then yields the processor
/// between two looks.
pub(crate) fn take_turn<R: Room, W: Wait>(rt: &W, top: &Top<R>, seat: &mut Place<R>, ticket: u64)
    requires table { (seat.old.table_id ≡ top.now.table_id)
        × (seat.old.table_id.words ≡ 2) × (seat.old.table_id.slots ≡ 1) }
    requires waits { (begun : Beginning R) × (has : Progress)
        × (seat.old.me ≡ (Waiting begun has ticket, [])) }
    ensures table { seat.new.table_id ≡ seat.old.table_id }
    ensures turn { (begun : Beginning R) (has : Progress) →
        seat.old.me ≡ (Waiting begun has ticket, []) →
        (room : R) × HasTurn R.opening R.history R.spare begun has ticket room seat.new.me }
{
    let backoff = Backoff::new();
    for _ in rt.forever() {
        if top.load::<Look>(seat, SERVING) == ticket {
            return;
        }
        backoff.snooze();
    }
    unreachable!()
}

/// Makes the step in the room, gives the room back, and serves the next ticket.
pub(crate) fn make_step<R: Room>(top: &Top<R>, seat: &mut Place<R>, step: Step) -> Reply
    requires table { (seat.old.table_id ≡ top.now.table_id)
        × (seat.old.table_id.words ≡ 2) × (seat.old.table_id.slots ≡ 1) }
    requires turn { (begun : Beginning R) × (has : Progress) × (ticket : ℕ)
        × (room : R) × HasTurn R.opening R.history R.spare begun has ticket room seat.old.me
        × (slice_get (list_at begun.lists has.number) has.made ≡ Some step)
        × IsEvent (R.opening begun.room).scenario.siblings step.event }
    ensures table { seat.new.table_id ≡ seat.old.table_id }
    ensures made { (begun : Beginning R) (has : Progress) (ticket : ℕ) (room : R) →
        HasTurn R.opening R.history R.spare begun has ticket room seat.old.me →
        HasMade R.opening begun has (R.history room) step result seat.new.me }
{
    let mut room = top.exchange(seat, 0, None).unwrap();
    let reply = room.apply(step.actor, step.event);
    top.exchange(seat, 0, Some(room));
    top.fetch_add::<PassOn>(seat, SERVING, 1);
    reply
}
