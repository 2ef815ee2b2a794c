//! What lies under the lock: a room, with the scripts of its actors.

ghost use Rattle.std.specs.Prelude.{◌≡◌, ◌+◌, ◌*◌, ◌≤◌, [], length, IfOk};
ghost use Rattle.cs_types.specs.Scenario.{IsPlayable, script};
ghost use Rattle.cs_types.specs.History.{IsLegal, events_by};
ghost use Rattle.cs_types.specs.Shuffles.{KeepsScripts};
ghost use Rattle.scripted_room.specs.declared.turn.Turn.TheVariants.{Finished};
ghost use Rattle.scripted_room.specs.Turns.{IsTurn, count_made};

use crate::named::Named;
use crate::scripts::Scripts;
use crate::turn::Turn;
use cs_types::{Actor, OutOfMemory, Room, Scenario};
use std::alloc::Global;
use std::marker::{Model, PhantomData};

/// A room that is played by turns. Contracts see it as its room.
///
/// It is always the room of the opening that `N` names. So what holds each time its lock is taken is
/// known by its type: the history is legal, and the events of each actor's entries are the first of
/// its script, in the script's order.
#[derive(Drop)]
pub struct Scripted<R: Room, N: Named> {
    room: R,
    scripts: Scripts,
    of: PhantomData<N>,
}

impl<R: Room, N: Named> Model for Scripted<R, N> {
    ghost use Rattle.scripted_room.specs.Scripted.{IsScripted};

    ghost Value = { R };

    ghost view = { λ scripted. scripted.room };

    ghost invariant = { λ scripted. IsScripted N.opening
        (R.opening scripted.room) (R.history scripted.room)
        (R.spare scripted.room) scripted.scripts };
}

impl<R: Room, N: Named> Scripted<R, N> {
    /// The room before its first step, with the scripts of its scenario.
    ///
    /// The scenario can be played, and is the room's. The room has the opening that `N` names, and has
    /// made no step. It can take an entry for each step and, for the final drain, the square of the
    /// siblings.
    pub fn of(alloc: Global, room: R, scenario: &Scenario) -> Result<Scripted<R, N>, OutOfMemory>
        requires playable { IsPlayable scenario.now }
        requires scenario { (R.opening room).scenario ≡ scenario.now }
        requires opening { R.opening room ≡ N.opening }
        requires empty { R.history room ≡ [] }
        requires spare { length scenario.now.steps + scenario.now.siblings * scenario.now.siblings
            ≤ R.spare room }

        ensures { IfOk result (λ scripted. scripted ≡ room) }
    {
        let scripts = Scripts::of(alloc, scenario.steps.items())?;
        Ok(Scripted {
            room,
            scripts,
            of: PhantomData,
        })
    }

    /// Makes the actor's next step, and answers the room's reply. It answers `Finished`, and changes
    /// nothing, exactly if the actor has made its whole script, or has none. It takes no memory.
    pub fn turn(&mut self, actor: Actor) -> Turn
        ensures turn { IsTurn N.opening actor (R.history self.old) (R.history self.new) result }
        ensures unchanged { result ≡ Finished → self.new ≡ self.old }
        ensures spare { R.spare self.new + count_made result ≡ R.spare self.old }

        // Room is left for each step that is not made yet, and for the entries of the final drain.
        ensures left { length N.opening.scenario.steps
            + N.opening.scenario.siblings * N.opening.scenario.siblings
            ≤ length (R.history self.new) + R.spare self.new }

        // An actor that has made its whole script stays done.
        ensures made { (other : _) →
            events_by other (R.history self.old) ≡ script N.opening.scenario other →
            events_by other (R.history self.new) ≡ script N.opening.scenario other }

        // What holds of each value of this type.
        ensures playable { IsPlayable N.opening.scenario }
        ensures opening { R.opening self.new ≡ N.opening }
        ensures legal { IsLegal N.opening (R.history self.new) }
        ensures order { KeepsScripts N.opening.scenario (R.history self.new) }
    {
        match self.scripts.next(actor) {
            Some(event) => Turn::Made(self.room.apply(actor, event)),
            None => Turn::Finished,
        }
    }

    /// The room as it is. It can still take each step that is not made, and the entries of the
    /// final drain.
    pub fn into_room(self) -> R
        ensures room { result ≡ self }

        ensures playable { IsPlayable N.opening.scenario }
        ensures opening { R.opening result ≡ N.opening }
        ensures legal { IsLegal N.opening (R.history result) }
        ensures order { KeepsScripts N.opening.scenario (R.history result) }
        ensures spare { N.opening.scenario.siblings * N.opening.scenario.siblings ≤ R.spare result }
        ensures left { length N.opening.scenario.steps
            + N.opening.scenario.siblings * N.opening.scenario.siblings
            ≤ length (R.history result) + R.spare result }
    {
        let Scripted { room, .. } = self;
        room
    }
}
