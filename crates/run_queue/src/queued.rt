//! A task as a queue has it. It is apart, since it alone reads a rank off a task.

ghost use Rattle.std.specs.Prelude.{◌≡◌};
ghost use Rattle.cs_types.specs.Queue.{rank_by, queued_of};

use cs_types::{Policy, Queued, Task};

/// The rank of the task in its class, the smaller the higher, as its class has it. Stop tasks stand by their stamps
/// alone, so each has rank 0.
fn rank_of(task: &Task) -> u128
    ensures { result ≡ rank_by task.now.spec.policy task.now.deadline task.now.vtime }
{
    match task.spec.policy {
        Policy::Stop => 0,
        Policy::Deadline(_) => deadline_queue::rank(task.deadline),
        Policy::Fifo(priority) => rt_queue::rank(priority),
        Policy::Rr(priority) => rt_queue::rank(priority),
        Policy::Fair(_) => fair_queue::rank(task.vtime),
    }
}

/// The task as a queue has it.
pub fn queued_of(task: &Task) -> Queued
    ensures { result ≡ queued_of task.now }
{
    Queued {
        pid: task.spec.pid,
        class: task.spec.policy.class().number(),
        rank: rank_of(task),
        stamp: task.stamp,
        cookie: task.cookie,
    }
}
