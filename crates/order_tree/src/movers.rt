//! Who is handed the pids in a tree. It is a trait, so that a tree knows nothing of the lists of those who ask.

ghost use Rattle.std.specs.Prelude.{◌≡◌, ℕ, ◌<◌, ◌++◌, [], ◌∷◌, List, length};

use cs_types::Pid;

/// Who is handed pids, each with the stamp of its key. There are places for 256.
pub trait Movers {
    /// What was handed over, in the order of the calls.
    ghost told: { Self → List (ℕ × ℕ) };

    /// One more is handed over: the stamp of its key, and its pid.
    fn push(&mut self, mover: (u64, Pid))
        requires fits { length (told self.old) < 256 }
        ensures { told self.new ≡ told self.old ++ mover ∷ [] };
}
