//! What is written into a task in its slot. It is apart, since no edit touches the task's line.

ghost use Rattle.std.specs.Prelude.{◌≡◌};
ghost use Rattle.task_table.specs.Edit.{edited};

use cs_types::{Cookie, Cpu, Task};

/// A change of a task, which leaves its line.
#[derive(Drop)]
pub(crate) enum Edit {
    /// It remembers this occupation.
    Occupation(u8),
    /// It has this cookie.
    Cookie(Cookie),
    /// It is at home on this sibling, with this stamp, as far ahead of `to` as it was of `from`.
    Home {
        home: Cpu,
        from: u128,
        to: u128,
        stamp: u64,
    },
    /// It has this virtual time, in ns.
    Vtime(u128),
    /// It has used this much of its slice, in ns.
    Used(u64),
    /// It is asleep.
    Asleep,
    /// It is queued on this sibling, with this virtual time and this deadline, in ns, and this stamp.
    Queued {
        cpu: Cpu,
        vtime: u128,
        deadline: u64,
        stamp: u64,
    },
}

impl Edit {
    /// Writes it into the task.
    #[inline(always)]
    pub fn write(self, task: &mut Task)
        ensures { task.new ≡ edited self task.old }
    {
        match self {
            Edit::Occupation(occupation) => task.occupation = occupation,
            Edit::Cookie(cookie) => task.cookie = cookie,
            Edit::Home {
                home,
                from,
                to,
                stamp,
            } => {
                task.home = home;
                task.vtime = to.wrapping_add(task.vtime.saturating_sub(from));
                task.stamp = stamp;
            }
            Edit::Vtime(vtime) => task.vtime = vtime,
            Edit::Used(used) => task.used = used,
            Edit::Asleep => task.queued = false,
            Edit::Queued {
                cpu,
                vtime,
                deadline,
                stamp,
            } => {
                task.home = cpu;
                task.queued = true;
                task.vtime = vtime;
                task.deadline = deadline;
                task.stamp = stamp;
            }
        }
    }
}
