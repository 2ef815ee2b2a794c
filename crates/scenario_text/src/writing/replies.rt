//! What the machine answers, put into the places of a line.

ghost use Rattle.std.specs.Prelude.{◌≡◌, ◌+◌, ◌≤◌, ◌∷◌, ◌++◌, length, take, decimal};
ghost use Rattle.scenario_text.specs.Words.{errno_word, reply_words, pick_words, kind_word, run_word};
ghost use Rattle.scenario_text.specs.Text.{line_bytes, spaced};

use super::places::Places;
use cs_types::{Cpu, Errno, Kind, Pick, Pid, Reply};

impl Places {
    /// What the machine answers.
    #[inline(always)]
    pub(super) fn reply(&mut self, at: usize, reply: &Reply) -> usize
        requires { at + 73 ≤ line_bytes }
        ensures text { take result self.new.bytes
            ≡ take at self.old.bytes ++ spaced (reply_words reply.now) }
        ensures longest { result ≤ at + 73 }
    {
        match *reply {
            Reply::Picked(ref pick) => self.pick(at, pick),
            Reply::Nothing => self.text(at, "Nothing"),
            Reply::Stole { pid, from } => self.stolen(at, pid, from),
            Reply::Missed(cpu) => self.small(at, "Missed ", cpu),
            Reply::Offline => self.text(at, "Offline"),
            Reply::Slept { pid, ref pick } => self.left(at, "Slept ", pid, pick),
            Reply::Ended { pid, ref pick } => self.left(at, "Ended ", pid, pick),
            Reply::Idle => self.text(at, "Idle"),
            Reply::HasThreads => self.text(at, "HasThreads"),
            Reply::Woken(cpu) => self.small(at, "Woken ", cpu),
            Reply::Awake => self.text(at, "Awake"),
            Reply::NoTask => self.text(at, "NoTask"),
            Reply::Now(clock) => self.wide(at, "Now ", clock),
            Reply::Ticked(true) => self.text(at, "Ticked yes"),
            Reply::Ticked(false) => self.text(at, "Ticked no"),
            Reply::Child(pid) => self.pid(at, "Child ", pid),
            Reply::Zero => self.text(at, "0"),
            Reply::Value(cookie) => self.wide(at, "0 value ", cookie),
            Reply::Set => self.text(at, "Set"),
            Reply::Done => self.text(at, "Done"),
            Reply::Already => self.text(at, "Already"),
            Reply::Refused(errno) => self.errno(at, errno),
            Reply::NoCaller => self.text(at, "NoCaller"),
            Reply::Loaded => self.text(at, "Loaded"),
            Reply::Dropped => self.text(at, "Dropped"),
            Reply::NoGuard => self.text(at, "NoGuard"),
        }
    }

    /// The task that was stolen, and the sibling that had it.
    #[inline(always)]
    fn stolen(&mut self, at: usize, pid: Pid, from: Cpu) -> usize
        requires { at + 25 ≤ line_bytes }
        ensures text { take result self.new.bytes
            ≡ take at self.old.bytes ++ spaced (reply_words (Reply.Stole pid from)) }
        ensures longest { result ≤ at + 25 }
    {
        let at = self.pid(at, "Stole ", pid);
        self.small(at, " from ", from)
    }

    /// How a task left its sibling, which task, and the pick that the sibling took.
    #[inline(always)]
    fn left(&mut self, at: usize, how: &str, pid: Pid, pick: &Pick) -> usize
        requires { at + length how.now + 67 ≤ line_bytes }
        ensures text { take result self.new.bytes
            ≡ take at self.old.bytes ++ (how.now ++ spaced (decimal pid ∷ pick_words pick.now)) }
        ensures longest { result ≤ at + length how.now + 67 }
    {
        let at = self.pid(at, how, pid);
        let at = self.text(at, " ");
        self.pick(at, pick)
    }

    #[inline(always)]
    fn pick(&mut self, at: usize, pick: &Pick) -> usize
        requires { at + 56 ≤ line_bytes }
        ensures text { take result self.new.bytes
            ≡ take at self.old.bytes ++ spaced (pick_words pick.now) }
        ensures longest { result ≤ at + 56 }
    {
        let at = self.kind(at, pick.kind);
        let at = self.text(at, " ");
        let at = self.run(at, pick.run);
        let at = self.wide(at, " core ", pick.core);
        self.small(at, " forced ", pick.forced)
    }

    #[inline(always)]
    fn kind(&mut self, at: usize, kind: Kind) -> usize
        requires { at + 8 ≤ line_bytes }
        ensures text { take result self.new.bytes ≡ take at self.old.bytes ++ kind_word kind }
        ensures longest { result ≤ at + 8 }
    {
        match kind {
            Kind::Selected => self.text(at, "Selected"),
            Kind::Adopted => self.text(at, "Adopted"),
            Kind::Plain => self.text(at, "Plain"),
        }
    }

    /// The pid of what a sibling runs, `idle` for 0.
    #[inline(always)]
    pub(super) fn run(&mut self, at: usize, pid: Pid) -> usize
        requires { at + 10 ≤ line_bytes }
        ensures text { take result self.new.bytes ≡ take at self.old.bytes ++ run_word pid }
        ensures longest { result ≤ at + 10 }
    {
        if pid == 0 {
            self.text(at, "idle")
        } else {
            self.medium(at, pid)
        }
    }

    /// The name of an error.
    #[inline(always)]
    fn errno(&mut self, at: usize, errno: Errno) -> usize
        requires { at + 6 ≤ line_bytes }
        ensures text { take result self.new.bytes ≡ take at self.old.bytes ++ errno_word errno }
        ensures longest { result ≤ at + 6 }
    {
        match errno {
            Errno::Eperm => self.text(at, "EPERM"),
            Errno::Esrch => self.text(at, "ESRCH"),
            Errno::Eagain => self.text(at, "EAGAIN"),
            Errno::Enomem => self.text(at, "ENOMEM"),
            Errno::Efault => self.text(at, "EFAULT"),
            Errno::Enodev => self.text(at, "ENODEV"),
            Errno::Einval => self.text(at, "EINVAL"),
            Errno::Ebusy => self.text(at, "EBUSY"),
        }
    }
}
