//! What each sibling gets in a core-wide selection. It is a file of its own since the selection
//! counts the choices before it changes siblings and tasks by them.

ghost use Rattle.std.specs.Prelude.{◌≡◌, ℕ, ◌+◌, ◌≤◌, ◌==◌, None, if◌then◌else◌, length, map};
ghost use Rattle.cs_types.specs.Room.{RoomState};
ghost use Rattle.cs_types.specs.Order.{fair_class, idle_class};
ghost use Rattle.task_table.specs.Table.{IsSound as IsTable};
ghost use Rattle.core_lanes.specs.Lanes.{lane_state};
ghost use Rattle.core_pick.specs.Choice.{IsPlan, MayCount, HandsOut, choice_of, kept_in_selection, run_of, task_after_choice};

use crate::sibling::hand;
use core_lanes::Lane;
use cs_types::{Cookie, Cpu, Pid, Queued};
use sibling_priority::IDLE;
use task_table::TaskTable;

/// A task that a sibling gets, or idle: first the first of its queue, then what it gets for the core cookie. Its
/// parts fill it, so that no copy of it moves bytes between them.
#[derive(Clone, Copy, Default)]
pub struct Choice {
    /// Its cookie, 0 for none.
    pub cookie: Cookie,
    /// Its class, the smaller the higher.
    pub class: u32,
    /// Its number, 0 for idle.
    pub pid: Pid,
}

impl Choice {
    /// Idle.
    pub fn idle() -> Choice
        ensures { result ≡ choice_of None }
    {
        Choice {
            cookie: 0,
            pid: 0,
            class: u32::from(IDLE),
        }
    }

    /// This task, as its queue has it.
    pub fn of(queued: &Queued) -> Choice
        ensures { result ≡ record {
          cookie = queued.now.cookie;
          pid = queued.now.pid;
          class = queued.now.class;
        } }
    {
        Choice {
            cookie: queued.cookie,
            pid: queued.pid,
            class: u32::from(queued.class),
        }
    }

    /// Whether it is idle.
    pub fn is_idle(&self) -> bool
        ensures { result ≡ (self.now.class == idle_class) }
    {
        self.class == u32::from(IDLE)
    }

    /// Whether it is a fair task.
    pub fn is_fair(&self) -> bool
        ensures { result ≡ (self.now.class == fair_class) }
    {
        self.class == u32::from(Queued::FAIR)
    }

    /// The task, none for idle.
    pub fn run(&self) -> Option<Pid>
        ensures { result ≡ run_of self.now }
    {
        if self.is_idle() { None } else { Some(self.pid) }
    }
}

/// What a selection counts.
#[derive(Clone, Copy)]
pub struct Counts {
    /// How many siblings are forced idle.
    pub forced: u8,
    /// For how many siblings a task is chosen.
    pub occupation: u8,
}

impl Counts {
    /// The counts with a sibling that is forced idle, which counts if it is online.
    pub fn with_forced(self, online: bool) -> Counts
        requires { MayCount self }
        ensures { result ≡ record self { forced = self.forced + (if online then 1 else 0) } }
    {
        Counts {
            forced: self.forced + u8::from(online),
            ..self
        }
    }

    /// The counts with a sibling for which a task is chosen, which counts if it is online.
    pub fn with_task(self, online: bool) -> Counts
        requires { MayCount self }
        ensures { result
            ≡ record self { occupation = self.occupation + (if online then 1 else 0) } }
    {
        Counts {
            occupation: self.occupation + u8::from(online),
            ..self
        }
    }
}

/// The task that is chosen for the sibling, if one is, remembers the occupation.
fn update_task(tasks: &mut TaskTable, choice: &Choice, occupation: u8)
    requires { IsTable tasks.old }
    ensures tasks { tasks.new ≡ record tasks.old {
      tasks = map (task_after_choice choice.now occupation) tasks.old.tasks;
    } }
    ensures sound { IsTable tasks.new }
{
    if let Some(pid) = choice.run() {
        tasks.remember(pid, occupation);
    }
}

/// Hands each online sibling its choice in a core-wide selection that the selector makes, and has each task that
/// is chosen remember the occupation. The test says whether snapshots are renewed.
pub fn update<Q: Drop>(
    lanes: &mut [Lane<Q>],
    tasks: &mut TaskTable,
    selector: Cpu,
    choices: &[Choice],
    occupation: u8,
    renews: bool,
)
    requires each { length choices.now ≡ length lanes.old }
    requires few { length lanes.old ≤ 16 }
    requires table { IsTable tasks.old }
    ensures hands { (room : RoomState) (cookie : ℕ) → room.siblings ≡ map lane_state lanes.old →
        IsPlan room cookie choices.now occupation renews →
        HandsOut room selector cookie lanes.new tasks.old tasks.new }
    ensures own { map kept_in_selection lanes.new ≡ map kept_in_selection lanes.old }
    ensures sound { IsTable tasks.new }
{
    for (cpu, lane) in lanes.iter_mut().enumerate() {
        if lane.online {
            let choice = choices[cpu];
            update_task(tasks, &choice, occupation);
            hand(lane, cpu as u8 == selector, &choice, occupation, renews);
        }
    }
}
