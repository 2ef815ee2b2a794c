//! The tasks that are drawn.

ghost use Rattle.std.specs.Prelude.{◌≡◌, ◌<◌};
ghost use Rattle.room_drill.specs.Drill.{drill_creds, drawn_task};

use crate::generator::Generator;
use crate::size::SIBLINGS;
use cs_types::{Creds, Pid, TaskSpec};

/// The user and the group of every task.
const ID: u32 = 1000;

/// The credentials of one user's task with a memory image that may be dumped.
fn creds() -> Creds
    ensures { result ≡ drill_creds }
{
    Creds {
        ruid: ID,
        euid: ID,
        suid: ID,
        rgid: ID,
        egid: ID,
        sgid: ID,
        cap: false,
        mm: true,
        dumpable: true,
    }
}

impl Generator {
    /// The task of this pid, which is above 0.
    pub fn task(&mut self, pid: Pid) -> TaskSpec
        requires { 0 < pid }
        ensures { (result, self.new) ≡ drawn_task pid self.old }
    {
        TaskSpec {
            pid,
            tgid: pid,
            pgid: pid,
            cpu: ((pid - 1) % SIBLINGS) as u8,
            policy: self.policy(),
            creds: creds(),
        }
    }
}
