//! The steps that are drawn: what is done, and who does it.

ghost use Rattle.std.specs.Prelude.{◌≡◌, ◌<◌};
ghost use Rattle.room_drill.specs.Draws.{made_of_two};
ghost use Rattle.room_drill.specs.Drill.{drawn_cpu, drawn_pid, drawn_event, drawn_step, asks, actor_of};

use crate::generator::Generator;
use crate::size::{SIBLINGS, TASKS};
use cs_types::{Actor, Ask, Cpu, Event, Pid, Step};

/// The longest advance of the clock, in ns.
const MOST_ADVANCE: u32 = 5_000_000;

/// A sibling makes what it does to itself, and a caller makes the others.
fn actor_of(event: Event) -> Actor
    ensures { result ≡ actor_of event }
{
    match event {
        Event::Turn(cpu)
        | Event::Resched(cpu)
        | Event::Tick(cpu)
        | Event::Block(cpu)
        | Event::Exit(cpu) => Actor::Sibling(cpu),
        _ => Actor::Caller(0),
    }
}

impl Generator {
    /// One of the siblings.
    fn cpu(&mut self) -> Cpu
        ensures { (result, self.new) ≡ drawn_cpu self.old }
    {
        self.below(SIBLINGS) as u8
    }

    /// One of the tasks that there are at the start.
    fn pid(&mut self) -> Pid
        ensures drawn { (result, self.new) ≡ drawn_pid self.old }
        ensures few { result < 25 }
    {
        1 + self.below(TASKS)
    }

    /// A call with this command, over another task alone.
    fn prctl(&mut self, cmd: u32) -> Event
        ensures { (result, self.new) ≡ made_of_two (asks cmd) drawn_pid drawn_pid self.old }
    {
        let caller = self.pid();
        let target = self.pid();
        Event::Prctl {
            caller,
            ask: Ask {
                cmd,
                pid: target as i32,
                scope: 0,
                addr: 0,
            },
        }
    }

    /// What is done next.
    fn event(&mut self) -> Event
        ensures { (result, self.new) ≡ drawn_event self.old }
    {
        match self.below(20) {
            0..=5 => Event::Turn(self.cpu()),
            6 => Event::Resched(self.cpu()),
            7 => Event::Tick(self.cpu()),
            8 => Event::Block(self.cpu()),
            9..=11 => Event::Wake(self.pid()),
            12 => Event::Advance(u64::from(1 + self.below(MOST_ADVANCE))),
            13 => self.prctl(Ask::CREATE),
            14 => self.prctl(Ask::SHARE_TO),
            15 => Event::SetSched {
                pid: self.pid(),
                policy: self.policy(),
            },
            16 => Event::Fork {
                caller: self.pid(),
                thread: false,
            },
            17 => Event::Exit(self.cpu()),
            18 => Event::Offline(self.cpu()),
            _ => Event::Online(self.cpu()),
        }
    }

    /// A step of one of the siblings, or of caller 0.
    pub fn step(&mut self) -> Step
        ensures { (result, self.new) ≡ drawn_step self.old }
    {
        let event = self.event();
        Step {
            actor: actor_of(event),
            event,
        }
    }
}
