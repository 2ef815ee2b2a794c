//! The guard that holds its pairs in place.

ghost use Rattle.std.specs.Prelude.{◌≡◌, ◌+◌, ◌<◌, ◌^◌, [], ◌∷◌, ◌++◌, length, not, OnOk, OnErr, IfErr};
ghost use Rattle.std.specs.List.{list_any};
ghost use Rattle.cs_outside.specs.Guard.{is_pair, pair_guard_cap, fresh, lot_of};
ghost use Rattle.cs_outside.specs.declared.guard.TeachFault.TheVariants.{Full};

use crate::guard::{Guard, TeachFault};
use crate::pairs::lists;
use std::marker::Model;

/// How many pairs a guard of this type can be taught.
const MOST_PAIRS: usize = 16;

/// How many lots of callers there are. The real user ids of those of one lot differ by a multiple of it.
const LOTS: usize = 64;

/// A guard that holds its pairs in place, so that teaching takes no memory.
#[derive(Drop)]
pub struct PairGuard {
    places: [(u32, u32); MOST_PAIRS],
    /// How many pairs it was taught. They stand in the first places.
    count: usize,
    /// The lots that the callers of its pairs are of. Most callers are of none of these, and no pair is searched for
    /// them.
    lots: [bool; LOTS],
    asked: u64,
}

impl Model for PairGuard {
    ghost use Rattle.std.specs.Prelude.{◌≤◌, take};
    ghost use Rattle.cs_outside.specs.Guard.{PairGuardState, pair_guard_cap, AreOfLots};

    ghost Value = { PairGuardState };

    ghost view = { λ guard. record { pairs = take guard.count guard.places; asked = guard.asked } };

    ghost invariant = { λ guard. (guard.count ≤ pair_guard_cap)
        × AreOfLots guard.lots (take guard.count guard.places) };
}

/// The lot of the caller with this real user id.
fn lot_of(from: u32) -> usize
    ensures { result ≡ lot_of from }
{
    from as usize % LOTS
}

impl PairGuard {
    /// A guard that refuses nobody yet and was never asked. It takes no memory.
    pub fn empty() -> PairGuard
        ensures { result ≡ fresh }
    {
        PairGuard {
            places: [(0, 0); MOST_PAIRS],
            count: 0,
            lots: [false; LOTS],
            asked: 0,
        }
    }
}

impl Guard for PairGuard {
    ghost pairs = { λ guard. guard.pairs };

    ghost cap = { λ _. pair_guard_cap };

    ghost asked = { λ guard. guard.asked };

    /// Teaches it one more pair. `Full` comes exactly if it has as many pairs as it can be taught,
    /// and no other `Err` comes.
    fn teach(&mut self, from: u32, to: u32) -> Result<(), TeachFault>
        ensures below { OnOk result (length self.old.pairs < pair_guard_cap) }
        ensures full { IfErr result (λ fault. (fault ≡ Full pair_guard_cap)
            × (length self.old.pairs ≡ pair_guard_cap)) }
        ensures taught { OnOk result (self.new
            ≡ record self.old { pairs = self.old.pairs ++ (from, to) ∷ [] }) }
        ensures untaught { OnErr result (self.new ≡ self.old) }
    {
        if self.count == MOST_PAIRS {
            return Err(TeachFault::Full {
                cap: MOST_PAIRS as u32,
            });
        }
        self.places[self.count] = (from, to);
        self.lots[lot_of(from)] = true;
        self.count += 1;
        Ok(())
    }

    /// Whether the pair is not listed. It counts the question.
    fn allows(&mut self, from: u32, to: u32) -> bool
        requires { self.old.asked < 2 ^ 63 }
        ensures decision { result ≡ not (list_any (is_pair (from, to)) self.old.pairs) }
        ensures asked { self.new ≡ record self.old { asked = self.old.asked + 1 } }
    {
        self.asked += 1;
        if !self.lots[lot_of(from)] {
            return true;
        }
        !lists(&self.places[..self.count], from, to)
    }

    fn asked(&self) -> u64 {
        self.asked
    }
}
