//! The guard whose pairs take memory as they come.

ghost use Rattle.std.specs.Prelude.{◌≡◌, ◌+◌, ◌<◌, ◌^◌, [], ◌∷◌, ◌++◌, length, not, OnOk, OnErr, IfErr};
ghost use Rattle.std.specs.List.{list_any};
ghost use Rattle.cs_outside.specs.Guard.{is_pair};
ghost use Rattle.memory_outside.specs.Guard.{FullExactlyAt};

use cs_outside::{Guard, TeachFault, lists};
use std::alloc::Global;
use std::marker::Model;

/// A guard that holds its pairs in a vector, and takes memory as it is taught.
#[derive(Drop)]
pub struct ListGuard {
    pairs: Vec<(u32, u32)>,
    cap: u32,
    asked: u64,
}

impl Model for ListGuard {
    ghost use Rattle.std.specs.Prelude.{◌≤◌, vec_len};
    ghost use Rattle.memory_outside.specs.Guard.{ListGuardState};

    ghost Value = { ListGuardState };

    ghost view = { λ guard.
        record { pairs = guard.pairs.items; cap = guard.cap; asked = guard.asked } };

    ghost invariant = { λ guard. vec_len guard.pairs ≤ guard.cap };
}

impl ListGuard {
    /// A guard that can be taught this many pairs, refuses nobody yet and was never asked. It takes no
    /// memory.
    pub fn with_cap(alloc: Global, cap: u32) -> ListGuard
        ensures { result ≡ record { pairs = []; cap = cap; asked = 0 } }
    {
        ListGuard {
            pairs: Vec::new(alloc),
            cap,
            asked: 0,
        }
    }
}

impl Guard for ListGuard {
    ghost pairs = { λ guard. guard.pairs };

    ghost cap = { λ guard. guard.cap };

    ghost asked = { λ guard. guard.asked };

    /// Teaches it one more pair. `Full` comes exactly if it has as many pairs as it can be taught. Else it takes the
    /// pair, or `OutOfMemory` comes, which leaves it as it was.
    fn teach(&mut self, from: u32, to: u32) -> Result<(), TeachFault>
        ensures below { OnOk result (length self.old.pairs < self.old.cap) }
        ensures full { IfErr result (FullExactlyAt self.old.cap (length self.old.pairs)) }
        ensures taught { OnOk result (self.new
            ≡ record self.old { pairs = self.old.pairs ++ (from, to) ∷ [] }) }
        ensures untaught { OnErr result (self.new ≡ self.old) }
    {
        if self.pairs.len() == self.cap as usize {
            return Err(TeachFault::Full { cap: self.cap });
        }
        let pushed = self.pairs.push((from, to));
        pushed.map_err(|_| TeachFault::OutOfMemory)
    }

    /// Whether the pair is not listed. It counts the question.
    fn allows(&mut self, from: u32, to: u32) -> bool
        requires { self.old.asked < 2 ^ 63 }
        ensures decision { result ≡ not (list_any (is_pair (from, to)) self.old.pairs) }
        ensures asked { self.new ≡ record self.old { asked = self.old.asked + 1 } }
    {
        self.asked += 1;
        !lists(&self.pairs, from, to)
    }

    fn asked(&self) -> u64 {
        self.asked
    }
}
