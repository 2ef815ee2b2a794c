//! How a task comes and goes. It is a file of its own since nothing else changes who lives.

ghost use Rattle.std.specs.Prelude.{ℕ, ◌+◌, ◌*◌, ◌≤◌, length};
ghost use Rattle.cs_types.specs.Step.{without};
ghost use Rattle.core_lanes.specs.Comparisons.{ComparesFor};
ghost use Rattle.core_tasks.specs.State.{both};
ghost use Rattle.core_tasks.specs.Steps.{Touches};
ghost use Rattle.core_tasks.specs.Life.{MayEnd, MayMakeChild, MakesChild};

use crate::state::State;
use core_lanes::{SiblingQueue, task_of};
use cs_outside::Guard;
use cs_types::{Pid, Steps, Task};
use fork_inherit::{ForkFault, end, fork};
use std::sync::ledger::Ledger;

impl<Q: SiblingQueue, G: Guard> State<Q, G> {
    /// The task is no longer among the living, and is the last of the ended, with what it was charged.
    #[inline(always)]
    pub fn end<L: Ledger>(&mut self, task: Task, comparisons: &mut Steps<L>)
        requires { MayEnd task self.old }
        ensures touches { Touches 1 self.old self.new (λ room. without room task) }
        ensures counted { ComparesFor 2 (both self.old) comparisons.old comparisons.new }
    {
        self.core
            .put_to_sleep(&mut self.tasks, task.spec.pid, comparisons);
        let (_, forced) = end(&mut self.tasks, &mut self.refs, task.spec.pid).unwrap();
        self.ended.push((task.spec.pid, forced));
    }

    /// A child of the caller is among the living, asleep at home.
    pub fn make_child(&mut self, caller: Pid, thread: bool) -> Result<Task, ForkFault>
        requires { MayMakeChild self.old }
        ensures { MakesChild self.old self.new caller thread result }
    {
        let child = self.next_pid;
        fork(
            &mut self.tasks,
            &mut self.refs,
            self.task_limit,
            caller,
            thread,
            child,
        )?;
        self.next_pid += 1;
        Ok(task_of(&self.tasks, child).unwrap())
    }
}
