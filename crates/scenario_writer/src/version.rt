//! A scenario of either version, made one of version 2.

ghost use Rattle.std.specs.Prelude.{◌≡◌, ◌+◌, ◌^◌, ◌<◌, ◌≤◌, length};
ghost use Rattle.cs_types.specs.Scenario.{user_lines, IsValid};
ghost use Rattle.scenario_text.specs.Upgrade.{renumbered, upgraded};

use crate::users::count_of;
use cs_types::{Scenario, TaskSpec, Teach};

/// How many lines stand before those of the users.
const HEAD_LINES: usize = 3;

/// Gives each teach the number of its line: `first`, and one more for each that follows.
fn renumber(teaches: &mut [Teach], first: u32)
    requires { first + length teaches.old < 2 ^ 32 }
    ensures { teaches.new ≡ renumbered first teaches.old }
{
    for place in 0..teaches.len() {
        teaches[place].line = first + place as u32;
    }
}

/// The number of the first line after those of the tasks, in version 2. There are at most 256 tasks.
fn line_after(tasks: &[TaskSpec]) -> u32
    requires { length tasks.now ≤ 256 }
    ensures { result ≡ user_lines 2 tasks.now + length tasks.now + 4 }
{
    (HEAD_LINES + count_of(tasks) + tasks.len() + 1) as u32
}

/// Makes a valid scenario one of version 2, which it stays valid as: its teaches get the numbers that their lines have
/// there, and all else stays.
pub fn upgrade(scenario: &mut Scenario)
    requires { IsValid scenario.old }
    ensures upgraded { scenario.new ≡ upgraded scenario.old }
    ensures valid { IsValid scenario.new }
{
    let first = line_after(scenario.tasks.items());
    scenario.version = 2;
    renumber(scenario.teaches.items_mut(), first);
}
