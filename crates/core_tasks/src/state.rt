//! The state of the core, and how it starts. It is a file of its own so that each event has its whole contract,
//! whatever the machine keeps beside.

ghost use Rattle.std.specs.Prelude.{IfOk};
ghost use Rattle.cs_types.specs.Opened.{MayStart, opened};

use crate::start::{core_and_tasks, first_pid};
use bounded_list::BoundedList;
use cookie_refs::CookieRefs;
use core_lanes::{Core, SiblingQueue};
use cs_outside::Guard;
use cs_types::{OutOfMemory, Pid, Scenario};
use ptrace_check::Guards;
use std::alloc::Global;
use task_table::TaskTable;

/// The core and its tasks, and what else the events keep.
#[derive(Drop)]
pub struct State<Q: SiblingQueue, G: Guard> {
    /// The siblings with their queues, and what they share.
    pub core: Core<Q>,
    /// The living tasks, each with what it was charged for forced idle.
    pub tasks: TaskTable,
    /// The living cookies, each with how many tasks have it (`refcnt` of `struct sched_core_cookie`).
    pub refs: CookieRefs,
    /// The guards that were handed in, each on the bench, active or dropped.
    pub guards: Guards<G>,
    /// How many tasks may live at once, 1 to 256.
    pub task_limit: u16,
    /// The end of the user addresses, in bytes (`TASK_SIZE_MAX`).
    pub user_top: u64,
    /// The tasks that ended, in the order of their ends, each with what it was charged for forced idle, in ns.
    pub ended: BoundedList<(Pid, u64)>,
    /// The pid of the next child (this project's). None is given twice.
    pub next_pid: Pid,
    /// The time since the start, in ns (`rq->clock`).
    pub clock: u64,
}

impl<Q: SiblingQueue, G: Guard> State<Q, G> {
    ghost use Rattle.core_tasks.specs.Start.{IsFirstState};

    /// The start of a scenario: all tasks asleep at home, all siblings idle. It can take `most` entries.
    pub fn start(
        alloc: Global,
        scenario: &Scenario,
        most: usize,
        guards: Guards<G>,
    ) -> Result<State<Q, G>, OutOfMemory>
        requires { MayStart scenario.now guards.guards }
        ensures { IfOk result (IsFirstState (opened scenario.now guards.guards) most) }
    {
        let ended = BoundedList::with_room(alloc, most)?;
        let refs = CookieRefs::with_limit(alloc, scenario.cookie_limit)?;
        let (core, tasks) = core_and_tasks(alloc, scenario)?;
        Ok(State {
            core,
            tasks,
            refs,
            guards,
            task_limit: scenario.task_limit,
            user_top: scenario.user_top,
            ended,
            next_pid: first_pid(scenario.tasks.items()),
            clock: 0,
        })
    }
}
