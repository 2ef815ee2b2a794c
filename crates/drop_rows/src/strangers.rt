//! Guards that somebody else wrote, against the trait alone. They stand in a file of their own, as they would in a
//! crate of theirs.

ghost use Rattle.std.specs.Prelude.{◌≡◌, []};

use cs_outside::{Guard, TeachFault, lists};
use std::alloc::Global;
use std::sync::Arc;
use std::sync::atomic::{AtomicU64, Ordering};

/// A guard that can be taught as many pairs as there is memory for. Its drop is counted.
pub struct LongGuard {
    pairs: Vec<(u32, u32)>,
    asked: u64,
    drops: Arc<AtomicU64, Global>,
}

impl Drop for LongGuard {
    fn drop(self) {
        let LongGuard {
            pairs: _,
            asked: _,
            drops,
        } = self;
        drops.fetch_add(1, Ordering::SeqCst);
    }
}

impl LongGuard {
    /// One that refuses nobody yet and was never asked. Its drop is counted there.
    pub fn empty(alloc: Global, drops: Arc<AtomicU64, Global>) -> LongGuard
        ensures untaught { result.pairs.items ≡ [] }
        ensures unasked { result.asked ≡ 0 }
    {
        LongGuard {
            pairs: Vec::new(alloc),
            asked: 0,
            drops,
        }
    }
}

impl Guard for LongGuard {
    ghost use Rattle.std.specs.Prelude.{◌^◌};

    ghost pairs = { λ guard. guard.pairs.items };

    ghost cap = { λ _. 2 ^ 64 };

    ghost asked = { λ guard. guard.asked };

    fn teach(&mut self, from: u32, to: u32) -> Result<(), TeachFault> {
        match self.pairs.push((from, to)) {
            Ok(()) => Ok(()),
            Err(_) => Err(TeachFault::OutOfMemory),
        }
    }

    fn allows(&mut self, from: u32, to: u32) -> bool {
        self.asked += 1;
        !lists(&self.pairs, from, to)
    }

    fn asked(&self) -> u64 {
        self.asked
    }
}

/// A guard that never has memory for a pair. Its drop is counted.
pub struct PoorGuard {
    asked: u64,
    drops: Arc<AtomicU64, Global>,
}

impl Drop for PoorGuard {
    fn drop(self) {
        let PoorGuard { asked: _, drops } = self;
        drops.fetch_add(1, Ordering::SeqCst);
    }
}

impl PoorGuard {
    /// One that was never asked. Its drop is counted there.
    pub fn empty(drops: Arc<AtomicU64, Global>) -> PoorGuard
        ensures unasked { result.asked ≡ 0 }
    {
        PoorGuard { asked: 0, drops }
    }
}

impl Guard for PoorGuard {
    ghost pairs = { λ _. [] };

    ghost cap = { λ _. 1 };

    ghost asked = { λ guard. guard.asked };

    fn teach(&mut self, _from: u32, _to: u32) -> Result<(), TeachFault> {
        Err(TeachFault::OutOfMemory)
    }

    fn allows(&mut self, _from: u32, _to: u32) -> bool {
        self.asked += 1;
        true
    }

    fn asked(&self) -> u64 {
        self.asked
    }
}
