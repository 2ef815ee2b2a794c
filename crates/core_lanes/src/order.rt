//! How two tasks compare that both queue on one sibling.

ghost use Rattle.std.specs.Prelude.{◌≡◌};
ghost use Rattle.cs_types.specs.Order.{priority_of, is_fair, goes_before, is_higher_here};
ghost use Rattle.core_lanes.specs.Queued.{is_peer_of, is_alike};

use cs_types::{Class, Policy, Task};

/// The priority of a real-time policy, 1 to 99, and 0 of every other.
fn priority_of(policy: Policy) -> u8
    ensures { result ≡ priority_of policy }
{
    match policy {
        Policy::Fifo(priority) => priority,
        Policy::Rr(priority) => priority,
        _ => 0,
    }
}

/// Whether the task is fair.
pub fn is_fair(task: &Task) -> bool
    ensures { result ≡ is_fair task.now }
{
    matches!(task.spec.policy, Policy::Fair(_))
}

/// Whether the task is higher than the other, if both queue on one sibling (`prio_less`,
/// kernel/sched/core.c).
#[inline(always)]
pub fn is_higher(task: &Task, other: &Task) -> bool
    ensures { result ≡ is_higher_here task.now other.now }
{
    let class = task.spec.policy.class();
    let other_class = other.spec.policy.class();
    if class.number() != other_class.number() {
        return class.number() < other_class.number();
    }
    match class {
        Class::Stop => false,
        Class::Deadline => task.deadline < other.deadline,
        Class::RealTime => priority_of(task.spec.policy) > priority_of(other.spec.policy),
        Class::Fair => task.vtime < other.vtime,
    }
}

/// Whether the task goes before the other on one sibling: it is higher, or they tie and its stamp is smaller.
pub fn goes_before(task: &Task, other: &Task) -> bool
    ensures { result ≡ goes_before task.now other.now }
{
    is_higher(task, other) || (!is_higher(other, task) && task.stamp < other.stamp)
}

/// Whether the other is of the class of the task, and among real-time tasks of its priority.
pub fn is_peer_of(task: &Task, other: &Task) -> bool
    ensures { result ≡ is_peer_of task.now other.now }
{
    other.spec.policy.class().number() == task.spec.policy.class().number()
        && priority_of(other.spec.policy) == priority_of(task.spec.policy)
}

/// Whether a queue has the task as it has the other with its pid: both are queued at one home, and stand at one
/// place there.
pub fn is_alike(task: &Task, other: &Task) -> bool
    ensures { result ≡ is_alike task.now other.now }
{
    task.queued
        && other.queued
        && task.home == other.home
        && task.stamp == other.stamp
        && task.cookie == other.cookie
        && task.deadline == other.deadline
        && task.vtime == other.vtime
        && is_peer_of(task, other)
}
