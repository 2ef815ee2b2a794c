//! What the keys of a tree become when all are renewed at once.

ghost use Rattle.std.specs.Prelude.{◌≡◌, ℕ};

use cs_types::Pid;

/// New ranks and stamps for the keys of a tree, by the pids that stand there.
pub trait Renewal {
    /// The rank and the stamp that a pid's key gets in place of these.
    ghost at: { Self → ℕ → ℕ × ℕ → ℕ × ℕ };

    /// The pid's key gets its new rank and its new stamp.
    fn renew(&self, pid: Pid, rank: &mut u128, stamp: &mut u64)
        ensures { (rank.new, stamp.new) ≡ at self.now pid (rank.old, stamp.old) };
}
