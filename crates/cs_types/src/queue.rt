//! A queued task, and the contract of a scheduling class's queue on one sibling.

ghost use Rattle.std.specs.Prelude.{◌≡◌, ◌+◌, ◌<◌, ◌≤◌, ℕ, max, if◌then◌else◌, OnOk, OnErr};
ghost use Rattle.std.specs.FinMap as map;
ghost use Rattle.cs_types.specs.Comparisons.{most_comparisons};
ghost use Rattle.cs_types.specs.Queue.{Members, top_of};

use crate::memory::OutOfMemory;
use crate::steps::Steps;
use crate::task::{Cookie, Pid};
use std::sync::ledger::Ledger;

/// A task as a sibling's run queue takes it.
#[derive(Clone, Copy)]
pub struct Queued {
    /// Its number, from 1.
    pub pid: Pid,
    /// Its scheduling class: 0 stop, 1 deadline, 2 real-time, 3 fair.
    pub class: u8,
    /// Its rank in its class, the smaller the higher: 0 for stop, its absolute deadline in ns, 99 less
    /// its priority, its virtual time in ns.
    pub rank: u128,
    /// The stamp of its enqueue. Of equal ranks the smaller stamp goes first.
    pub stamp: u64,
    /// Its cookie, 0 for none.
    pub cookie: Cookie,
}

impl Queued {
    /// The class of the stop task.
    pub const STOP: u8 = 0;
    /// The deadline class.
    pub const DEADLINE: u8 = 1;
    /// The real-time class.
    pub const REAL_TIME: u8 = 2;
    /// The fair class.
    pub const FAIR: u8 = 3;
}

/// The queue of a scheduling class on one sibling. Whatever it keeps, it stands for the pids of its
/// tasks, each at the key that its rank and its stamp make, and how many more it can take.
///
/// A call that looks for a key counts its comparisons, and among n keys makes at most twice the number of
/// binary digits of n, and two more.
pub trait ClassQueue: Drop {
    /// The pid at each key.
    ghost members: { Self → Members };

    /// How many more tasks it can take.
    ghost spare: { Self → ℕ };

    /// Raises `spare` to `n` if it is below. This call alone takes memory. An `Err`, for want of it or
    /// if there would be more than 4294967295 tasks, changes nothing.
    fn reserve(&mut self, n: u32) -> Result<(), OutOfMemory>
        ensures members { members self.new ≡ members self.old }
        ensures spare { OnOk result (spare self.new ≡ max n (spare self.old)) }
        ensures err { OnErr result (spare self.new ≡ spare self.old) };

    /// Puts a task at a key where none is.
    fn put<L: Ledger>(&mut self, rank: u128, stamp: u64, pid: Pid, comparisons: &mut Steps<L>)
        requires spare { 0 < spare self.old }
        requires free { map.get (members self.old) (rank, stamp) ≡ None }
        ensures members { members self.new ≡ map.insert (members self.old) (rank, stamp) pid }
        ensures spare { spare self.new + 1 ≡ spare self.old }
        ensures counted { comparisons.new
            ≤ comparisons.old + most_comparisons (map.len (members self.old)) };

    /// Takes the task at a key out. `false` comes exactly if none is there, and then nothing
    /// changes.
    fn take<L: Ledger>(&mut self, rank: u128, stamp: u64, comparisons: &mut Steps<L>) -> bool
        ensures found { result ≡ map.contains_key (members self.old) (rank, stamp) }
        ensures members { members self.new ≡ map.remove (members self.old) (rank, stamp) }
        ensures spare { spare self.new ≡ spare self.old + (if result then 1 else 0) }
        ensures counted { comparisons.new
            ≤ comparisons.old + most_comparisons (map.len (members self.old)) };

    /// The task with the least rank, and among those with the least stamp. `None` exactly if there is
    /// no task.
    fn top<L: Ledger>(&self, comparisons: &mut Steps<L>) -> Option<Pid>
        ensures top { result ≡ top_of (members self.now) }
        ensures counted { comparisons.new
            ≤ comparisons.old + most_comparisons (map.len (members self.now)) };

    /// How many tasks there are.
    fn len(&self) -> u32
        ensures { result ≡ map.len (members self.now) };
}
