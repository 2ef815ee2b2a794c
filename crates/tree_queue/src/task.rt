//! What a queue counts its tasks by: the kind of a task, and the lot of its cookie.

ghost use Rattle.std.specs.Prelude.{◌≡◌, ◌%◌, ◌<◌};
ghost use Rattle.cs_types.specs.Queue.{queued_of};
ghost use Rattle.tree_queue.specs.Kinds.{kind_of};

use cs_types::{Cookie, Policy, Task};

/// The number of kinds: 4 classes, and 100 ranks of real-time tasks.
pub const KINDS: usize = 104;

/// The number of lots of cookies: those of one lot have one last byte.
pub const LOTS: usize = 256;

/// The kind of the task: its class, and of a real-time task its rank.
pub fn kind_of(task: &Task) -> usize
    ensures kind { result ≡ kind_of (queued_of task.now) }
    ensures few { result < 104 }
{
    match task.spec.policy {
        Policy::Stop => 0,
        Policy::Deadline(_) => 1,
        Policy::Fifo(priority) | Policy::Rr(priority) => 4 + rt_queue::rank(priority) as usize,
        Policy::Fair(_) => 3,
    }
}

/// The lot of the cookie.
#[inline(always)]
pub fn lot_of(cookie: Cookie) -> usize
    ensures lot { result ≡ cookie % 256 }
    ensures few { result < 256 }
{
    (cookie % 256) as usize
}
