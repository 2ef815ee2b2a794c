//! A seat for one guard. It is apart since it alone drops a guard, and keeps its count from then on.

ghost use Rattle.std.specs.Prelude.{◌≡◌, ◌+◌, ◌<◌, ◌^◌, IsTrue, not};
ghost use Rattle.cs_types.specs.Guards.{is_active, refuses};
ghost use Rattle.cs_types.specs.declared.view.GuardPlace.TheVariants.{Bench};
ghost use Rattle.ptrace_check.specs.Answers.{IsTeachAnswer, with_answer, load_answer, loaded, unload_answer, unloaded, cap_without};

use crate::answer::{LoadAnswer, TeachAnswer, UnloadAnswer};
use cs_outside::{Guard, TeachFault};
use cs_types::{GuardPlace, GuardView};
use std::marker::Model;

/// A guard on the bench or an active one, until it is dropped.
#[derive(Drop)]
pub(crate) struct Seat<G: Guard> {
    guard: Option<G>,
    is_active: bool,
    /// How often it was asked, once it is dropped.
    asked: u64,
}

impl<G: Guard> Model for Seat<G> {
    ghost use Rattle.std.specs.Prelude.{[], if◌then◌else◌};
    ghost use Rattle.std.specs.Option.{option_map_or};
    ghost use Rattle.cs_types.specs.declared.view.GuardPlace.TheVariants.{Bench, Active, Dropped};
    ghost use Rattle.ptrace_check.specs.Guards.{Seated};

    ghost Value = { Seated };

    ghost view = { λ seat. record {
      guard = record {
        place = option_map_or (λ _. if seat.is_active then Active else Bench) seat.guard Dropped;
        pairs = option_map_or G.pairs seat.guard [];
        asked = option_map_or G.asked seat.guard seat.asked;
      };
      cap = option_map_or G.cap seat.guard 0;
    } };
}

impl<G: Guard> Seat<G> {
    /// Seats a guard on the bench.
    pub(crate) fn of(guard: G) -> Seat<G>
        ensures { result ≡ record {
          guard = record { place = Bench; pairs = G.pairs guard; asked = G.asked guard };
          cap = G.cap guard;
        } }
    {
        Seat {
            guard: Some(guard),
            is_active: false,
            asked: 0,
        }
    }

    /// Where the guard is.
    pub(crate) fn place(&self) -> GuardPlace
        ensures { result ≡ self.now.guard.place }
    {
        match self.guard {
            Some(_) if self.is_active => GuardPlace::Active,
            Some(_) => GuardPlace::Bench,
            None => GuardPlace::Dropped,
        }
    }

    /// How often the guard was asked.
    fn asked(&self) -> u64
        ensures { result ≡ self.now.guard.asked }
    {
        match &self.guard {
            Some(guard) => guard.asked(),
            None => self.asked,
        }
    }

    /// What is shown of the guard.
    pub(crate) fn view(&self) -> GuardView
        ensures { result ≡ record { place = self.now.guard.place; asked = self.now.guard.asked } }
    {
        GuardView {
            place: self.place(),
            asked: self.asked(),
        }
    }

    /// Teaches a guard on the bench one more pair of real user ids.
    pub(crate) fn teach(&mut self, from: u32, to: u32) -> TeachAnswer
        ensures answer { IsTeachAnswer self.old.guard self.old.cap result }
        ensures taught { self.new.guard ≡ with_answer result (from, to) self.old.guard }
        ensures cap { self.new.cap ≡ self.old.cap }
    {
        if self.is_active {
            return TeachAnswer::NoGuard;
        }
        let Some(guard) = &mut self.guard else {
            return TeachAnswer::NoGuard;
        };
        match guard.teach(from, to) {
            Ok(()) => TeachAnswer::Taught,
            Err(TeachFault::Full { cap }) => TeachAnswer::Full { cap },
            Err(TeachFault::OutOfMemory) => TeachAnswer::OutOfMemory,
        }
    }

    /// Makes a guard on the bench active.
    pub(crate) fn load(&mut self) -> LoadAnswer
        ensures answer { result ≡ load_answer self.old.guard }
        ensures guard { self.new.guard ≡ loaded self.old.guard }
        ensures cap { self.new.cap ≡ self.old.cap }
    {
        if self.is_active || self.guard.is_none() {
            return LoadAnswer::NoGuard;
        }
        self.is_active = true;
        LoadAnswer::Loaded
    }

    /// Drops an active guard, and keeps its count.
    pub(crate) fn unload(&mut self) -> UnloadAnswer
        ensures answer { result ≡ unload_answer self.old.guard }
        ensures guard { self.new.guard ≡ unloaded self.old.guard }
        ensures cap { self.new.cap ≡ cap_without self.old.guard self.old.cap }
    {
        let GuardPlace::Active = self.place() else {
            return UnloadAnswer::NoGuard;
        };
        self.asked = self.asked();
        self.guard = None;
        UnloadAnswer::Dropped
    }

    /// Asks an active guard whether it allows the caller with the one real user id to access the target
    /// with the other.
    pub(crate) fn allows(&mut self, from: u32, to: u32) -> bool
        requires active { IsTrue (is_active self.old.guard.place) }
        requires count { self.old.guard.asked < 2 ^ 63 }
        ensures decision { result ≡ not (refuses self.old.guard (from, to)) }
        ensures asked { self.new.guard
            ≡ record self.old.guard { asked = self.old.guard.asked + 1 } }
        ensures cap { self.new.cap ≡ self.old.cap }
    {
        let Some(guard) = &mut self.guard else {
            unreachable!()
        };
        guard.allows(from, to)
    }
}
