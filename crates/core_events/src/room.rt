//! The machine over any queue of a sibling: its scenario, the state of the core and every entry. It is a file of
//! its own so that nothing else reads how a machine keeps these.

ghost use Rattle.std.specs.Prelude.{◌≡◌, ◌+◌, ◌*◌, ◌<◌, List, length, IfOk};
ghost use Rattle.cs_types.specs.Scenario.{IsPlayable};
ghost use Rattle.cs_types.specs.Room.{RoomState};
ghost use Rattle.cs_types.specs.View.{task_view, forced_of};
ghost use Rattle.core_tasks.specs.State.{room_with};
ghost use Rattle.core_tasks.specs.Steps.{Makes};
ghost use Rattle.cs_types.specs.Opened.{MayStart, HasStarted};
ghost use Rattle.core_events.specs.Ready.{IsReadyFor};

use crate::events::apply;
use bounded_list::BoundedList;
use core_lanes::SiblingQueue;
use core_tasks::{State, next_to_schedule};
use cs_outside::Guard;
use cs_types::{
    Actor, CoreView, Cpu, CpuView, EndView, Entry, Event, FromScenario, GuardView, OutOfMemory,
    Pid, Reply, Room, Scenario, Steps, Task, TaskView,
};
use ptrace_check::Guards;
use std::alloc::Global;
use std::marker::{Brand, Model};
use std::snapshot::Snapshot;
use std::sync::ledger::{Blank, Ledger};

/// A machine over any queue of a sibling. Contracts see what it stands for: its scenario, the steps that
/// were made, and how many more entries it can take.
#[derive(Drop)]
pub struct CoreRoom<Q: SiblingQueue, G: Guard> {
    /// The scenario as clauses see it. It has no bytes.
    scenario: Snapshot<Scenario>,
    /// How many siblings the core has, 1 to 16.
    siblings: u8,
    /// How many guards were handed in, 0 to 16. Clauses alone read it, as a part of what the machine began with.
    guards: u8,
    state: State<Q, G>,
    entries: BoundedList<Entry>,
}

impl<Q: SiblingQueue, G: Guard> Model for CoreRoom<Q, G> {
    ghost use Rattle.core_events.specs.Machine.{Machine};

    ghost Value = { Machine };

    ghost use Rattle.core_events.specs.Inside.{machine_of, IsFold};

    ghost view = { machine_of };

    ghost invariant = { IsFold };
}

/// How many entries a machine may make: the steps of the scenario, and the entries of the final drain.
fn most_entries(scenario: &Scenario) -> usize
    requires { IsPlayable scenario.now }
    ensures { result ≡ length scenario.now.steps + scenario.now.siblings * scenario.now.siblings }
{
    let siblings = scenario.siblings as usize;
    scenario.steps.items().len() + siblings * siblings
}

/// What a machine shows of the task, which was charged this for forced idle, in ns.
fn view(task: &Task, forced: u64) -> TaskView
    ensures { (room : RoomState) → forced ≡ forced_of room task.now.spec.pid →
        result ≡ task_view room task.now }
{
    TaskView {
        pid: task.spec.pid,
        tgid: task.spec.tgid,
        cpu: task.home,
        queued: task.queued,
        cookie: task.cookie,
        forced,
        vtime: task.vtime,
    }
}

/// Makes the step of an event. The ledger of the blank is the one in which its comparisons are counted.
#[inline(always)]
fn counted<Q: SiblingQueue, G: Guard, L: Ledger>(
    state: &mut State<Q, G>,
    event: Event,
    blank: Blank,
) -> Reply
    requires name { blank.name ≡ L.name }
    requires parts { blank.parts ≡ L.parts }
    requires some { 0 < blank.parts }
    requires may { IsReadyFor event state.old }
    ensures { Makes state.old state.new event result }
{
    let mut comparisons = Steps::<L>::start(blank);
    apply(state, event, &mut comparisons)
}

impl<Q: SiblingQueue, G: Guard> CoreRoom<Q, G> {
    ghost use Rattle.cs_types.specs.History.{history_of};

    /// The room of a scenario before its first step. The guards were taught what its lines teach, and none was loaded
    /// or asked yet. It takes memory for as many entries as the scenario has steps, and for those of the final drain,
    /// and no later call takes any. The core has 1 to 16 siblings.
    pub fn start(
        alloc: Global,
        scenario: &Scenario,
        guards: Guards<G>,
    ) -> Result<CoreRoom<Q, G>, OutOfMemory>
        requires { MayStart scenario.now guards.guards }
        ensures { IfOk result (λ room. HasStarted scenario.now guards.guards room.opening
            (history_of room.opening room.steps) room.spare) }
    {
        let most = most_entries(scenario);
        let entries = BoundedList::with_room(alloc, most)?;
        let count = guards.len();
        let state = State::start(alloc, scenario, most, guards)?;
        Ok(CoreRoom {
            scenario: Snapshot::of(scenario),
            siblings: scenario.siblings,
            guards: count,
            state,
            entries,
        })
    }
}

impl<Q: SiblingQueue, G: Guard> Room for CoreRoom<Q, G> {
    ghost use Rattle.cs_types.specs.History.{history_of};
    ghost use Rattle.cs_laws.proofs.Histories.{IsLegal-history_of};
    ghost use Rattle.cs_laws.proofs.Trust.{consistent-moment_of, settled-moment_of};

    ghost opening = { λ room. room.opening };

    ghost history = { λ room. history_of room.opening room.steps };

    ghost spare = { λ room. room.spare };

    #[inline(always)]
    fn apply(&mut self, actor: Actor, event: Event) -> Reply {
        // The entry is noted before its step is made, so that its event need not be kept meanwhile.
        let place = self.entries.len();
        self.entries.push(Entry {
            actor,
            event,
            reply: Reply::Nothing,
        });
        let reply = counted::<Q, G, Brand>(&mut self.state, event, Blank::new(1));
        self.entries[place].reply = reply;
        reply
    }

    fn drain(&mut self) -> u64 {
        let siblings = u64::from(self.siblings);
        let most = siblings * siblings;
        for entries in 0..most {
            let Some(cpu) = next_to_schedule(&self.state.core) else {
                return entries;
            };
            self.apply(Actor::End, Event::Resched(cpu));
        }
        most
    }

    fn spare(&self) -> u64 {
        (self.entries.room() - self.entries.len()) as u64
    }

    fn length(&self) -> u64 {
        self.entries.len() as u64
    }

    fn entry(&self, place: u64) -> Option<Entry> {
        self.entries.get(place as usize).copied()
    }

    fn siblings(&self) -> u8 {
        self.siblings
    }

    fn clock(&self) -> u64 {
        self.state.clock
    }

    fn numbers(&self) -> (u64, u64) {
        (self.state.core.task_number, self.state.core.pick_number)
    }

    fn core(&self) -> CoreView {
        let core = &self.state.core;
        CoreView {
            cookie: core.cookie,
            forced: core.account.count(),
            occupation: core.account.occupation(),
            intervals: core.account.intervals(),
        }
    }

    fn cpu(&self, cpu: Cpu) -> Option<CpuView> {
        self.state
            .core
            .lanes
            .get(cpu as usize)
            .map(|lane| lane.view())
    }

    fn task_after(&self, pid: Pid) -> Option<TaskView> {
        let next = self.state.tasks.next_charged(pid)?;
        Some(view(next.0, next.1))
    }

    fn ended(&self, place: u64) -> Option<EndView> {
        let (pid, forced) = *self.state.ended.get(place as usize)?;
        Some(EndView { pid, forced })
    }

    fn guard(&self, index: u8) -> Option<GuardView> {
        self.state.guards.view(index)
    }

    ghost legal = { λ room. IsLegal-history_of room.opening room.steps };

    ghost consistent = { λ room playable events. consistent-moment_of room.opening
        (history_of room.opening room.steps) playable events
        (IsLegal-history_of room.opening room.steps) };

    ghost settled = { λ room playable events. settled-moment_of room.opening
        (history_of room.opening room.steps) playable events
        (IsLegal-history_of room.opening room.steps) };
}

impl<Q: SiblingQueue, G: Guard> FromScenario<Guards<G>> for CoreRoom<Q, G> {
    ghost use Rattle.cs_types.specs.History.{history_of};

    fn from_scenario(
        alloc: Global,
        scenario: &Scenario,
        guards: Guards<G>,
    ) -> Result<CoreRoom<Q, G>, OutOfMemory> {
        CoreRoom::start(alloc, scenario, guards)
    }
}
