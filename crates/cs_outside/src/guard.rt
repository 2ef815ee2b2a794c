//! Guards: security modules that are asked about an access, and refuse listed pairs of real users.

ghost use Rattle.std.specs.Prelude.{◌≡◌, ℕ, ◌+◌, ◌<◌, ◌^◌, List, [], ◌∷◌, ◌++◌, length, not, OnOk, OnErr, IfErr};
ghost use Rattle.std.specs.List.{list_any};
ghost use Rattle.cs_outside.specs.Guard.{is_pair};

use thiserror::Error;

/// Why a guard was not taught a pair.
#[derive(Debug, Drop, Error)]
pub enum TeachFault {
    /// The guard refuses as many pairs as it can be taught, which are this many.
    #[error("the guard has {cap} pairs already, which is its limit")]
    Full { cap: u32 },
    /// There was no memory for one more pair.
    #[error("out of memory")]
    OutOfMemory,
}

/// A security module beside the capability module. It is asked about an access after the rules of the
/// kernel itself, as `security_ptrace_access_check` asks, and refuses listed pairs of real users.
pub trait Guard: Drop {
    ghost use Rattle.cs_outside.specs.Guard.{FullOnlyAt};

    /// The pairs of real user ids, of a caller and of a target, that it refuses, in the order of
    /// teaching.
    ghost pairs: { Self → List (ℕ × ℕ) };

    /// How many pairs it can be taught.
    ghost cap: { Self → ℕ };

    /// How often it was asked.
    ghost asked: { Self → ℕ };

    /// Teaches it to refuse one more pair of real user ids, a caller's and a target's. A pair that it
    /// refuses already counts again. `Full` comes only if it has as many pairs as it can be taught,
    /// and then no pair is taught. Memory can be lacking at any call. An `Err` changes nothing.
    fn teach(&mut self, from: u32, to: u32) -> Result<(), TeachFault>
        ensures taught { OnOk result (pairs self.new ≡ pairs self.old ++ (from, to) ∷ []) }
        ensures below { OnOk result (length (pairs self.old) < cap self.old) }
        ensures full { IfErr result (FullOnlyAt (cap self.old) (length (pairs self.old))) }
        ensures untaught { OnErr result (pairs self.new ≡ pairs self.old) }
        ensures cap { cap self.new ≡ cap self.old }
        ensures asked { asked self.new ≡ asked self.old };

    /// Whether it allows the caller with the one real user id to access the target with the other:
    /// unless the pair is listed. It counts the question, and takes no memory.
    fn allows(&mut self, from: u32, to: u32) -> bool
        requires { asked self.old < 2 ^ 63 }
        ensures decision { result ≡ not (list_any (is_pair (from, to)) (pairs self.old)) }
        ensures pairs { pairs self.new ≡ pairs self.old }
        ensures cap { cap self.new ≡ cap self.old }
        ensures asked { asked self.new ≡ asked self.old + 1 };

    /// How often it was asked, a count. It takes no memory.
    fn asked(&self) -> u64
        ensures { result ≡ asked self.now };
}

/// A boxed guard is the guard in the box.
impl Guard for Box<dyn Guard + Send> {
    ghost pairs = { λ boxed. (Guard-box boxed).pairs boxed.value };

    ghost cap = { λ boxed. (Guard-box boxed).cap boxed.value };

    ghost asked = { λ boxed. (Guard-box boxed).asked boxed.value };

    fn teach(&mut self, from: u32, to: u32) -> Result<(), TeachFault> {
        (**self).teach(from, to)
    }

    fn allows(&mut self, from: u32, to: u32) -> bool {
        (**self).allows(from, to)
    }

    fn asked(&self) -> u64 {
        (**self).asked()
    }
}
