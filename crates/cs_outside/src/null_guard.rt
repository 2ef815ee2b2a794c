//! The guard that refuses nobody.

ghost use Rattle.std.specs.Prelude.{◌≡◌, ◌+◌, ◌<◌, ◌^◌, [], true, Err};
ghost use Rattle.cs_outside.specs.declared.guard.TeachFault.TheVariants.{Full};

use crate::guard::{Guard, TeachFault};
use std::marker::Model;

/// A guard that refuses nobody and can be taught nothing. It only counts how often it is asked.
#[derive(Drop)]
pub struct NullGuard {
    asked: u64,
}

impl Model for NullGuard {
    ghost use Rattle.cs_outside.specs.Guard.{NullGuardState};

    ghost Value = { NullGuardState };

    ghost view = { λ guard. record { asked = guard.asked } };
}

impl NullGuard {
    /// A guard that was never asked.
    pub fn new() -> NullGuard
        ensures { result ≡ record { asked = 0 } }
    {
        NullGuard { asked: 0 }
    }
}

impl Guard for NullGuard {
    ghost pairs = { λ _. [] };

    ghost cap = { λ _. 0 };

    ghost asked = { λ guard. guard.asked };

    /// It is always full, of no pairs.
    fn teach(&mut self, _from: u32, _to: u32) -> Result<(), TeachFault>
        ensures answer { result ≡ Err (Full 0) }
        ensures same { self.new ≡ self.old }
    {
        Err(TeachFault::Full { cap: 0 })
    }

    /// It allows everybody, and counts the question.
    fn allows(&mut self, _from: u32, _to: u32) -> bool
        requires { self.old.asked < 2 ^ 63 }
        ensures decision { result ≡ true }
        ensures asked { self.new ≡ record { asked = self.old.asked + 1 } }
    {
        self.asked += 1;
        true
    }

    fn asked(&self) -> u64 {
        self.asked
    }
}
