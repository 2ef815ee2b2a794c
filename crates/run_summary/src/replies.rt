//! How many entries were refused, and how.

ghost use Rattle.std.specs.Prelude.{◌≡◌, ◌^◌, ◌<◌, [], length};
ghost use Rattle.run_summary.specs.Replies.{with_reply, AreBelow, replies_of};

use cs_types::{Reply, Room};

/// How many entries have each refusal as their reply. Together they are all entries that are refused.
#[derive(Clone, Copy)]
pub struct ReplyCounts {
    /// `NoTask`: no living task has the pid.
    pub no_task: u32,
    /// `Awake`: the task is queued already.
    pub awake: u32,
    /// `Idle`: the sibling runs no task.
    pub idle: u32,
    /// `NoCaller`: no living task has the caller's pid.
    pub no_caller: u32,
    /// `Offline`: the sibling is offline.
    pub offline: u32,
    /// Any other refusal: an error number of `prctl`, `fork` or a sibling's leaving, `HasThreads`, `Already` and
    /// `NoGuard`.
    pub errors: u32,
}

impl ReplyCounts {
    /// The counts before the first entry.
    pub(crate) fn none() -> Self
        ensures { result ≡ replies_of [] }
    {
        ReplyCounts {
            no_task: 0,
            awake: 0,
            idle: 0,
            no_caller: 0,
            offline: 0,
            errors: 0,
        }
    }

    /// Counts one more reply.
    fn add(&mut self, reply: Reply)
        requires { AreBelow u32.MAX self.old }
        ensures { self.new ≡ with_reply reply self.old }
    {
        match reply {
            Reply::NoTask => self.no_task += 1,
            Reply::Awake => self.awake += 1,
            Reply::Idle => self.idle += 1,
            Reply::NoCaller => self.no_caller += 1,
            Reply::Offline => self.offline += 1,
            Reply::Refused(_) | Reply::HasThreads | Reply::Already | Reply::NoGuard => {
                self.errors += 1
            }
            Reply::Picked(_)
            | Reply::Nothing
            | Reply::Stole { .. }
            | Reply::Missed(_)
            | Reply::Slept { .. }
            | Reply::Ended { .. }
            | Reply::Woken(_)
            | Reply::Now(_)
            | Reply::Ticked(_)
            | Reply::Child(_)
            | Reply::Zero
            | Reply::Value(_)
            | Reply::Set
            | Reply::Done
            | Reply::Loaded
            | Reply::Dropped => {}
        }
    }

    /// The counts of the entries of a room. There have to be fewer than 2^32.
    pub(crate) fn of<R: Room>(room: &R) -> Self
        requires { length (R.history room.now) < 2 ^ 32 }
        ensures { result ≡ replies_of (R.history room.now) }
    {
        let mut counts = ReplyCounts::none();
        for place in 0..room.length() {
            let entry = room.entry(place).unwrap();
            counts.add(entry.reply);
        }
        counts
    }
}
