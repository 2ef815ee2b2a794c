//! What a step is, put into the places of a line: who makes it, and what is done.

ghost use Rattle.std.specs.Prelude.{◌≡◌, ◌+◌, ◌≤◌, ◌++◌, take};
ghost use Rattle.scenario_text.specs.Words.{policy_word, made_words, actor_word, ask_words, event_words, deed_words};
ghost use Rattle.scenario_text.specs.Text.{line_bytes, spaced};

use super::places::Places;
use cs_types::{Actor, Ask, Event, Pid, Policy};

impl Places {
    /// Who makes a step, and what is done.
    #[inline(always)]
    pub(super) fn made(&mut self, at: usize, actor: Actor, event: &Event) -> usize
        requires { at + 76 ≤ line_bytes }
        ensures text { take result self.new.bytes
            ≡ take at self.old.bytes ++ spaced (made_words actor event.now) }
        ensures longest { result ≤ at + 76 }
    {
        let at = self.actor(at, actor);
        let at = self.text(at, " ");
        self.deed(at, actor, event)
    }

    #[inline(always)]
    fn actor(&mut self, at: usize, actor: Actor) -> usize
        requires { at + 4 ≤ line_bytes }
        ensures text { take result self.new.bytes ≡ take at self.old.bytes ++ actor_word actor }
        ensures longest { result ≤ at + 4 }
    {
        match actor {
            Actor::Sibling(i) => self.small(at, "s", i),
            Actor::Caller(j) => self.small(at, "c", j),
            Actor::End => self.text(at, "end"),
        }
    }

    /// What the actor does. The final drain names the sibling that schedules.
    #[inline(always)]
    fn deed(&mut self, at: usize, actor: Actor, event: &Event) -> usize
        requires { at + 71 ≤ line_bytes }
        ensures text { take result self.new.bytes
            ≡ take at self.old.bytes ++ spaced (deed_words actor event.now) }
        ensures longest { result ≤ at + 71 }
    {
        match *event {
            Event::Turn(_) => self.text(at, "turn"),
            Event::Resched(cpu) => match actor {
                Actor::End => self.small(at, "resched ", cpu),
                _ => self.text(at, "resched"),
            },
            Event::Block(_) => self.text(at, "block"),
            Event::Exit(_) => self.text(at, "exit"),
            Event::Tick(_) => self.text(at, "tick"),
            Event::Wake(pid) => self.pid(at, "wake ", pid),
            Event::Advance(delta) => self.wide(at, "advance ", delta),
            Event::Fork { caller, thread } => self.fork(at, caller, thread),
            Event::Prctl { caller, ref ask } => self.prctl(at, caller, ask),
            Event::SetSched { pid, ref policy } => self.set_sched(at, pid, policy),
            Event::Offline(cpu) => self.small(at, "offline ", cpu),
            Event::Online(cpu) => self.small(at, "online ", cpu),
            Event::Load(index) => self.small(at, "load ", index),
            Event::Unload(index) => self.small(at, "unload ", index),
        }
    }

    #[inline(always)]
    fn fork(&mut self, at: usize, caller: Pid, thread: bool) -> usize
        requires { at + 23 ≤ line_bytes }
        ensures text { take result self.new.bytes
            ≡ take at self.old.bytes ++ spaced (event_words (Event.Fork caller thread)) }
        ensures longest { result ≤ at + 23 }
    {
        let at = self.pid(at, "fork ", caller);
        if thread {
            self.text(at, " thread")
        } else {
            self.text(at, " process")
        }
    }

    #[inline(always)]
    fn prctl(&mut self, at: usize, caller: Pid, ask: &Ask) -> usize
        requires { at + 71 ≤ line_bytes }
        ensures text { take result self.new.bytes
            ≡ take at self.old.bytes ++ spaced (event_words (Event.Prctl caller ask.now)) }
        ensures longest { result ≤ at + 71 }
    {
        let at = self.pid(at, "prctl ", caller);
        let at = self.text(at, " ");
        self.ask(at, ask)
    }

    #[inline(always)]
    fn ask(&mut self, at: usize, ask: &Ask) -> usize
        requires { at + 54 ≤ line_bytes }
        ensures text { take result self.new.bytes
            ≡ take at self.old.bytes ++ spaced (ask_words ask.now) }
        ensures longest { result ≤ at + 54 }
    {
        let at = self.medium(at, ask.cmd);
        let at = self.text(at, " ");
        let at = self.signed(at, ask.pid);
        let at = self.text(at, " ");
        let at = self.medium(at, ask.scope);
        let at = self.text(at, " ");
        self.long(at, ask.addr)
    }

    /// Apart, since it is rare. It takes the policy where it lies: so an entry that a room hands out is copied in one
    /// piece, which costs less than field by field.
    #[inline(never)]
    fn set_sched(&mut self, at: usize, pid: Pid, policy: &Policy) -> usize
        requires { at + 43 ≤ line_bytes }
        ensures text { take result self.new.bytes
            ≡ take at self.old.bytes ++ spaced (event_words (Event.SetSched pid policy.now)) }
        ensures longest { result ≤ at + 43 }
    {
        let at = self.pid(at, "setsched ", pid);
        let at = self.text(at, " ");
        self.policy(at, *policy)
    }

    /// A policy.
    pub(super) fn policy(&mut self, at: usize, policy: Policy) -> usize
        requires { at + 23 ≤ line_bytes }
        ensures text { take result self.new.bytes ≡ take at self.old.bytes ++ policy_word policy }
        ensures longest { result ≤ at + 23 }
    {
        match policy {
            Policy::Stop => self.text(at, "stop"),
            Policy::Deadline(relative) => self.wide(at, "dl:", relative),
            Policy::Fifo(priority) => self.small(at, "fifo:", priority),
            Policy::Rr(priority) => self.small(at, "rr:", priority),
            Policy::Fair(nice) => {
                let at = self.text(at, "fair:");
                self.signed(at, nice as i32)
            }
        }
    }
}
