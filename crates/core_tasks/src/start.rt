//! What a state begins with. It is apart since nothing of it is asked later.

ghost use Rattle.std.specs.Prelude.{◌≡◌, ◌≤◌, length, All, IfOk};
ghost use Rattle.cs_types.specs.Scenario.{AreDistinct, IsPlayable};
ghost use Rattle.cs_types.specs.Room.{first_pid};
ghost use Rattle.core_tasks.specs.Start.{AreAsleep, IsStartOf};

use core_lanes::{Core, SiblingQueue};
use cs_types::{OutOfMemory, Pid, Scenario, TaskSpec};
use std::alloc::Global;
use task_table::TaskTable;

/// One above the greatest pid of the lines, 1 if there is none.
pub fn first_pid(specs: &[TaskSpec]) -> Pid
    requires { All (λ spec. spec.pid ≤ 9999) specs.now }
    ensures { result ≡ first_pid specs.now }
{
    specs.iter().fold(0, |pid, spec| spec.pid.max(pid)) + 1
}

/// The tasks of a scenario before the first wake.
pub fn asleep_tasks(alloc: Global, limit: u16, specs: &[TaskSpec]) -> Result<TaskTable, OutOfMemory>
    requires distinct { AreDistinct specs.now }
    requires few { length specs.now ≤ limit }
    ensures { IfOk result (AreAsleep limit specs.now) }
{
    let mut tasks = TaskTable::with_limit(alloc, limit)?;
    for spec in specs {
        tasks.add(*spec).unwrap();
    }
    Ok(tasks)
}

/// The core and its tasks before the first step.
pub fn core_and_tasks<Q: SiblingQueue>(
    alloc: Global,
    scenario: &Scenario,
) -> Result<(Core<Q>, TaskTable), OutOfMemory>
    requires { IsPlayable scenario.now }
    ensures { IfOk result (IsStartOf scenario.now) }
{
    let tasks = asleep_tasks(alloc, scenario.task_limit, scenario.tasks.items())?;
    let core = Core::of(alloc, scenario.siblings, scenario.task_limit)?;
    Ok((core, tasks))
}
