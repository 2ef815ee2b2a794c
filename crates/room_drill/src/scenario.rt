//! The scenario of a seed.

ghost use Rattle.std.specs.Prelude.{◌≡◌, ◌<◌, IfOk};
ghost use Rattle.cs_types.specs.Scenario.{IsValid};
ghost use Rattle.room_drill.specs.Draws.{in_turn};
ghost use Rattle.room_drill.specs.Drill.{drawn_task, drawn_step, drill_scenario};

use crate::generator::Generator;
use crate::size::{SIBLINGS, STEPS, TASKS};
use cs_types::{List, OutOfMemory, Scenario, Step, TaskSpec};
use std::alloc::Global;

/// `count` tasks, with the pids from 1 on.
fn tasks(alloc: Global, count: u32, generator: &mut Generator) -> Result<Vec<TaskSpec>, OutOfMemory>
    requires { count < u32.MAX }
    ensures { IfOk result
        (λ tasks. (tasks.items, generator.new) ≡ in_turn 1 count drawn_task generator.old) }
{
    let mut tasks = Vec::with_capacity(alloc, count as usize)?;
    for index in 0..count {
        tasks.push(generator.task(index + 1))?;
    }
    Ok(tasks)
}

/// `count` steps.
fn steps(alloc: Global, count: u32, generator: &mut Generator) -> Result<Vec<Step>, OutOfMemory>
    ensures { IfOk result (λ steps. (steps.items, generator.new)
        ≡ in_turn 1 count (λ number. drawn_step) generator.old) }
{
    let mut steps = Vec::with_capacity(alloc, count as usize)?;
    for _ in 0..count {
        steps.push(generator.step())?;
    }
    Ok(steps)
}

/// The scenario of a seed: 24 tasks on 4 siblings, and 20000 steps. It is the same at each call, and it
/// is valid.
///
/// # Errors
///
/// Only if there is no memory for its tasks and its steps.
pub fn generate(alloc: Global, seed: u32) -> Result<Scenario, OutOfMemory>
    ensures scenario { IfOk result (λ scenario. scenario ≡ drill_scenario seed) }
    ensures valid { IfOk result IsValid }
{
    let mut generator = Generator::of(seed);
    let tasks = tasks(alloc, TASKS, &mut generator)?;
    let steps = steps(alloc, STEPS, &mut generator)?;
    Ok(Scenario {
        version: 1,
        siblings: SIBLINGS as u8,
        task_limit: 64,
        cookie_limit: 16,
        user_top: 1_048_576,
        tasks: List::of(tasks),
        teaches: List::of(Vec::new(alloc)),
        steps: List::of(steps),
    })
}
