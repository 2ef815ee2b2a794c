//! What the machine answers to an event.

ghost use Rattle.std.specs.Prelude.{◌≡◌, pos};
ghost use Rattle.cs_types.specs.Errno.{errno_number};

use crate::event::{Actor, Event};
use crate::task::{Cookie, Cpu, Pid};

/// How a schedule came to its pick.
#[derive(Clone, Copy)]
pub enum Kind {
    /// The sibling made a core-wide selection.
    Selected,
    /// The sibling took what an earlier selection of another sibling had chosen for it.
    Adopted,
    /// The sibling chose for itself alone.
    Plain,
}

/// What a schedule chose, and for what core.
#[derive(Clone, Copy)]
pub struct Pick {
    /// How the schedule came to it.
    pub kind: Kind,
    /// The task that the sibling runs now, 0 for idle.
    pub run: Pid,
    /// The core's cookie after the schedule, 0 for none.
    pub core: Cookie,
    /// How many siblings the last core-wide selection forced idle, as it stands after the schedule.
    pub forced: u8,
}

/// The errors of `prctl` and `fork`, and of a sibling that is to leave the core.
#[derive(Clone, Copy)]
pub enum Errno {
    /// The caller may not access the target, or one of its group.
    Eperm,
    /// No living task has the target's pid.
    Esrch,
    /// As many tasks live as the scenario allows, or the caller of a fork is a deadline task.
    Eagain,
    /// As many cookies live as the scenario allows.
    Enomem,
    /// The address of the answer is none of the caller's.
    Efault,
    /// Fewer than two siblings are online.
    Enodev,
    /// An argument is not valid, or not valid with the command.
    Einval,
    /// The last sibling that is online may not leave the core.
    Ebusy,
}

impl Errno {
    /// Linux' number for the error (include/uapi/asm-generic/errno-base.h).
    pub fn number(self) -> i32
        ensures { result ≡ pos (errno_number self) }
    {
        match self {
            Errno::Eperm => 1,
            Errno::Esrch => 3,
            Errno::Eagain => 11,
            Errno::Enomem => 12,
            Errno::Efault => 14,
            Errno::Ebusy => 16,
            Errno::Enodev => 19,
            Errno::Einval => 22,
        }
    }
}

/// The answer to an event.
#[derive(Clone, Copy)]
pub enum Reply {
    /// The sibling scheduled, and this is what it took.
    Picked(Pick),
    /// The sibling had nothing to do.
    Nothing,
    /// The sibling stole this task from that one.
    Stole { pid: Pid, from: Cpu },
    /// The sibling found nothing to steal on that one.
    Missed(Cpu),
    /// Refused: the sibling is offline.
    Offline,
    /// The task went to sleep, and its sibling took this pick.
    Slept { pid: Pid, pick: Pick },
    /// The task ended, and its sibling took this pick.
    Ended { pid: Pid, pick: Pick },
    /// Refused: the sibling runs no task.
    Idle,
    /// Refused: the task leads a thread group that has another member.
    HasThreads,
    /// The task is queued now, on this sibling.
    Woken(Cpu),
    /// Refused: the task is queued already.
    Awake,
    /// Refused: no living task has the pid.
    NoTask,
    /// The clock is at this moment now, in ns.
    Now(u64),
    /// The sibling's timer ticked: whether it asked for a reschedule.
    Ticked(bool),
    /// This child was made, and is queued now.
    Child(Pid),
    /// The call of `prctl` returned 0.
    Zero,
    /// The call of `prctl` returned 0, and wrote this cookie for its caller.
    Value(Cookie),
    /// The task has the policy now.
    Set,
    /// The sibling has left the core, or has come back.
    Done,
    /// Refused: the sibling is offline, or online, already.
    Already,
    /// Refused: the call of `prctl` or `fork`, or the leaving of a sibling, failed with this error.
    Refused(Errno),
    /// Refused: no living task has the caller's pid.
    NoCaller,
    /// The guard is active now.
    Loaded,
    /// The guard was dropped.
    Dropped,
    /// Refused: no guard of this number stands on the bench, or none is active.
    NoGuard,
}

/// A step that was made, with its answer.
#[derive(Clone, Copy)]
pub struct Entry {
    /// Who made the step.
    pub actor: Actor,
    /// What it did.
    pub event: Event,
    /// What the machine answered.
    pub reply: Reply,
}
