//! The lock.

ghost use Rattle.std.specs.Prelude.{◌≡◌, ◌+◌, ◌<◌, ◌≤◌, ℕ, [], length, map, All, Contains, IfOk, IfErr};
ghost use mathlib.Core.List.{IsPrefix};
ghost use Rattle.cs_types.specs.History.{IsLegal, events_by};
ghost use Rattle.core_lock.specs.Lists.{AreLists, HasNoList, HasFirstSteps, steps_in};
ghost use Rattle.core_lock.specs.Passes.{IsSpent, MakesNext, HasOwn, fresh_passes};

use crate::board::{Board, Read, SERVING};
use crate::pass::Pass;
use crate::seats::{joined, passes_of};
use crate::spent::Spent;
use crate::turns::{draw, let_others_go, make_step, take_turn};
use crate::view::Beginning;
use cs_types::{List, OutOfMemory, Reply, Room, Step};
use std::alloc::Global;
use std::marker::Model;
use std::snapshot::Snapshot;
use std::sync::Wait;

/// A room that passes share. Contracts see which lock it is, and what it began with.
#[derive(Drop)]
pub struct Shared<R: Room> {
    board: Board<R>,
}

impl<R: Room> Model for Shared<R> {
    ghost use Rattle.std.specs.Prelude.{◌≡◌, ◌<◌, length};
    ghost use Rattle.core_lock.specs.Passes.{Lock, lock_of};

    ghost Value = { Lock };

    ghost view = { λ shared. lock_of R.opening R.spare
        shared.board.shared.table_id shared.board.shared.key.value };

    ghost invariant = { λ shared. (shared.board.shared.table_id.words ≡ 2)
        × (shared.board.shared.table_id.slots ≡ 1)
        × (0 < length shared.board.shared.key.value.lists) };
}

impl<R: Room> Shared<R> {
    /// A lock round the room, with a pass for each list of steps, by rising number of the lists from 0.
    ///
    /// The room has made no step, and can take an entry for each step of the lists. There is a list. Each list has
    /// a step, its steps are of one actor, and no two lists share an actor. What each event names keeps its limits.
    ///
    /// It alone takes memory. Without it nothing is made, and the room is dropped.
    pub fn start(
        alloc: Global,
        room: R,
        lists: List<List<Step>>,
    ) -> Result<(Shared<R>, List<Pass<R>>), OutOfMemory>
        requires empty { R.history room ≡ [] }
        requires lists { AreLists (R.opening room).scenario.siblings lists }
        requires spare { steps_in lists ≤ R.spare room }

        ensures opening { IfOk result (λ made. made.0.opening ≡ R.opening room) }
        ensures spare { IfOk result (λ made. made.0.spare ≡ R.spare room) }
        ensures lists { IfOk result (λ made. made.0.lists ≡ lists) }
        ensures passes { IfOk result (λ made. made.1 ≡ fresh_passes made.0) }
    {
        // Called for its clause alone: its answer, and so each ticket, fits a word of the table.
        let _fits = room.spare();
        let begun = Beginning { room, lists };
        let key = Snapshot::of(&begun);
        let Beginning { room, lists } = begun;
        let mut slots = Vec::with_capacity(alloc, 1)?;
        slots.push_reserved(Some(room));
        let Ok((board, seat)) = Board::new(alloc, &[0, 0], slots, &key) else {
            return Err(OutOfMemory);
        };
        let passes = passes_of(alloc, &board.shared, seat, lists)?;
        Ok((Shared { board }, passes))
    }

    /// Makes the next step of the pass, and answers the room's reply. `Spent` comes exactly if the pass has made all
    /// its steps, and nothing changes then.
    ///
    /// The pass is of this lock. Whoever calls waits until those who came before have made their steps: it looks
    /// for a while, and then yields the processor between two looks.
    pub fn call<W: Wait>(&self, rt: &W, pass: &mut Pass<R>) -> Result<Reply, Spent>
        requires lock { pass.old.lock ≡ self.now }

        ensures lock { pass.new.lock ≡ pass.old.lock }
        ensures number { pass.new.progress.number ≡ pass.old.progress.number }

        // What the pass sees grows by what others made, and then by its next step, which comes last.
        ensures made { IfOk result (λ reply. MakesNext pass.old reply pass.new) }
        ensures legal { IsLegal pass.new.lock.opening pass.new.progress.seen }

        // The actor's entries are the steps that the pass made, each once and in order.
        ensures own { HasOwn pass.new pass.new.progress.seen }

        // What the pass sees has the first steps of each list, each once and in order, and nothing else.
        ensures first_steps { HasFirstSteps pass.new.lock.lists pass.new.progress.seen }

        ensures spent { IfErr result (λ _. IsSpent pass.old × (pass.new ≡ pass.old)) }
    {
        let Some(step) = pass.next_step() else {
            return Err(Spent);
        };
        let top = &self.board.shared;
        let_others_go(top);
        let ticket = draw(top, &mut pass.seat);
        take_turn(rt, top, &mut pass.seat, ticket);
        let reply = make_step(top, &mut pass.seat, step);
        pass.made += 1;
        Ok(reply)
    }

    /// The length of the history, a count of entries, by one load. It waits for nobody, and takes no memory.
    ///
    /// The pass is of this lock. It notes what was read. The length is at least that of the history that the pass
    /// has seen, and at least what it read before.
    pub fn length(&self, pass: &mut Pass<R>) -> u64
        requires lock { pass.old.lock ≡ self.now }

        ensures seen { length pass.old.progress.seen ≤ result }
        ensures rises { pass.old.progress.note ≤ result }
        ensures noted { pass.new ≡ record pass.old {
          progress = record pass.old.progress {
            note = result;
            readings = pass.old.progress.readings + 1;
          };
        } }
    {
        self.board.shared.load::<Read>(&mut pass.seat, SERVING)
    }

    /// The room, once all passes are handed back, in any order. It takes no memory.
    ///
    /// The passes are of this lock, and the number of each list stands among them.
    pub fn finish(self, passes: List<Pass<R>>) -> R
        requires lock { All (λ pass. pass.lock ≡ self) passes }
        requires numbers { (number : ℕ) → number < length self.lists →
            Contains (map (λ pass. pass.progress.number) passes) number }

        ensures opening { R.opening result ≡ self.opening }
        ensures spare { R.spare result + length (R.history result) ≡ self.spare }
        ensures legal { IsLegal (R.opening result) (R.history result) }

        // What each pass has seen begins the history, and no length that it read is greater than that of the
        // history. Of each actor with a list the history has the steps that the pass made, each once and in
        // order, and it has no other entry.
        ensures seen { All (λ pass. IsPrefix pass.progress.seen (R.history result)) passes }
        ensures own { All (λ pass. HasOwn pass (R.history result)) passes }
        ensures noted { All (λ pass. pass.progress.note ≤ length (R.history result)) passes }
        ensures no_other { (actor : _) → HasNoList self.lists actor →
            events_by actor (R.history result) ≡ [] }
    {
        let Shared { board } = self;
        let seat = joined(&board.shared, passes);
        let mut closed = board.close_with(seat);
        let room = closed.take(0).unwrap();
        closed.free();
        room
    }
}
