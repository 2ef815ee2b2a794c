//! The guards of a core, which are asked after the rules of the kernel itself.

ghost use Rattle.std.specs.Prelude.{◌≡◌, ◌<◌, ◌≤◌, ◌^◌, [], ◌∷◌, All, not, length, map, filter, IsTrue, IfOk, vec_len, slice_set, ◌==◌};
ghost use Rattle.std.specs.List.{list_all};
ghost use Rattle.cs_types.specs.Guards.{guard_of, with_guard, guards_on_bench, load, unload, is_active, refuses, asked_once, asked_each, asked_until};
ghost use Rattle.cs_types.specs.View.{guard_view};
ghost use Rattle.ptrace_check.specs.Answers.{IsTeachAnswer, with_answer, load_answer, unload_answer, cap_without};
ghost use Rattle.ptrace_check.specs.Guards.{most_guards, AreFresh, cap_of};
ghost use Rattle.ptrace_check.specs.Inside.{guards_in};

use crate::answer::{LoadAnswer, TeachAnswer, UnloadAnswer};
use crate::seat::Seat;
use bounded_list::BoundedList;
use cs_outside::Guard;
use cs_types::{Bench, GuardView, OutOfMemory};
use std::alloc::Global;
use std::marker::Model;

/// The guards of a core, each by its number from 0, and the order in which those that are active are
/// asked. All room is taken at the start. Guards of several types are handed in as
/// `Box<dyn Guard + Send>`, which is a guard too.
#[derive(Drop)]
pub struct Guards<G: Guard> {
    seats: BoundedList<Seat<G>>,
    /// The numbers of those that are active, in the order of loading.
    active: BoundedList<u8>,
}

impl<G: Guard> Model for Guards<G> {
    ghost use Rattle.ptrace_check.specs.Guards.{Guarded};
    ghost use Rattle.ptrace_check.specs.Inside.{guards_in, kept, AreKept};

    ghost Value = { Guarded };

    ghost view = { λ guards. kept guards.seats.items guards.active.items };

    ghost invariant = { λ guards. AreKept
        (guards_in guards.seats.items guards.active.items) guards.active.room };
}

impl<G: Guard> Bench for Guards<G> {
    ghost guards = { λ guards. guards.guards };
}

/// Takes a number out of the order of loading.
fn take_out(active: &mut BoundedList<u8>, index: u8)
    ensures others { active.new.items ≡ filter (λ other. not (other == index)) active.old.items }
    ensures room { active.new.room ≡ active.old.room }
{
    active.retain(|other| *other != index);
}

/// Asks the guard in the seat of this number, which is active, whether it allows an access.
fn ask<G: Guard>(seats: &mut BoundedList<Seat<G>>, index: u8, from: u32, to: u32) -> bool
    requires active { IsTrue (is_active (guard_of (guards_in seats.old.items []) index).place) }
    requires count { (guard_of (guards_in seats.old.items []) index).asked < 2 ^ 63 }
    ensures decision { result
        ≡ not (refuses (guard_of (guards_in seats.old.items []) index) (from, to)) }
    ensures asked { guards_in seats.new.items [] ≡ asked_once (guards_in seats.old.items []) index }
    ensures caps { map (λ seat. seat.cap) seats.new.items ≡ map (λ seat. seat.cap) seats.old.items }
{
    seats[index as usize].allows(from, to)
}

impl<G: Guard> Guards<G> {
    /// Puts the guards of the list on the bench, at most 16, which refuse nobody yet and were never
    /// asked. No later call takes memory but what a guard takes when it is taught.
    pub fn of(alloc: Global, list: Vec<G>) -> Result<Guards<G>, OutOfMemory>
        requires fresh { AreFresh G.pairs G.asked list.items }
        ensures guards { IfOk result (λ guards. guards.guards ≡ guards_on_bench [] (vec_len list)) }
        ensures caps { IfOk result (λ guards. guards.caps ≡ map G.cap list.items) }
    {
        let active = BoundedList::with_room(alloc, list.len())?;
        let mut seats = BoundedList::with_room(alloc, list.len())?;
        for guard in list {
            seats.push(Seat::of(guard));
        }
        Ok(Guards { seats, active })
    }

    /// How many guards there are, 0 to 16, with those that were dropped.
    pub fn len(&self) -> u8
        ensures len { result ≡ length self.now.guards.all }
        ensures few { result ≤ most_guards }
    {
        self.seats.len() as u8
    }

    /// How many guards are active, 0 to 16.
    pub fn active_count(&self) -> u8
        ensures count { result ≡ length self.now.guards.active }
        ensures few { result ≤ most_guards }
    {
        self.active.len() as u8
    }

    /// What is shown of the guard of this number. `None` exactly if there is no such guard.
    pub fn view(&self, index: u8) -> Option<GuardView>
        ensures view { result ≡ guard_view self.now.guards index }
        ensures few { length self.now.guards.all ≤ most_guards }
    {
        let seat = self.seats.get(index as usize)?;
        Some(seat.view())
    }

    /// Teaches the guard of this number to refuse one more pair of real user ids, a caller's and a
    /// target's. `NoGuard` comes exactly if it does not stand on the bench. Only `Taught` changes
    /// anything.
    pub fn teach(&mut self, index: u8, from: u32, to: u32) -> TeachAnswer
        ensures answer { IsTeachAnswer (guard_of self.old.guards index)
            (cap_of self.old.caps index) result }
        ensures taught { self.new.guards ≡ with_guard self.old.guards index
            (with_answer result (from, to) (guard_of self.old.guards index)) }
        ensures caps { self.new.caps ≡ self.old.caps }
    {
        let Some(seat) = self.seats.get_mut(index as usize) else {
            return TeachAnswer::NoGuard;
        };
        seat.teach(from, to)
    }

    /// Makes the guard of this number active, the last to be asked. `NoGuard` comes exactly if it does not stand on the
    /// bench, and nothing changes then.
    pub fn load(&mut self, index: u8) -> LoadAnswer
        ensures answer { result ≡ load_answer (guard_of self.old.guards index) }
        ensures guards { self.new.guards ≡ load self.old.guards index }
        ensures caps { self.new.caps ≡ self.old.caps }
    {
        let Some(seat) = self.seats.get_mut(index as usize) else {
            return LoadAnswer::NoGuard;
        };
        let answer = seat.load();
        if let LoadAnswer::Loaded = answer {
            self.active.push(index);
        }
        answer
    }

    /// Drops the guard of this number, and keeps its count. `NoGuard` comes exactly if it is not
    /// active, and nothing changes then.
    pub fn unload(&mut self, index: u8) -> UnloadAnswer
        ensures answer { result ≡ unload_answer (guard_of self.old.guards index) }
        ensures guards { self.new.guards ≡ unload self.old.guards index }
        ensures caps { self.new.caps ≡ slice_set self.old.caps index
            (cap_without (guard_of self.old.guards index) (cap_of self.old.caps index)) }
    {
        let Some(seat) = self.seats.get_mut(index as usize) else {
            return UnloadAnswer::NoGuard;
        };
        let answer = seat.unload();
        if let UnloadAnswer::Dropped = answer {
            take_out(&mut self.active, index);
        }
        answer
    }

    /// Whether the active guards allow the caller with the one real user id to access the target with the
    /// other. They are asked in the order of loading, up to the first that refuses.
    #[inline(always)]
    pub(crate) fn allow(&mut self, from: u32, to: u32) -> bool
        requires asked { All (λ guard. guard.asked < 2 ^ 63) self.old.guards.all }
        ensures decision { result ≡ list_all (λ index.
            not (refuses (guard_of self.old.guards index) (from, to))) self.old.guards.active }
        ensures asked { self.new.guards ≡ asked_each self.old.guards (asked_until
            (map (λ index. (refuses (guard_of self.old.guards index) (from, to), index ∷ []))
            self.old.guards.active)) }
        ensures caps { self.new.caps ≡ self.old.caps }
    {
        for position in 0..self.active.len() {
            let index = self.active[position];
            if !ask(&mut self.seats, index, from, to) {
                return false;
            }
        }
        true
    }
}
