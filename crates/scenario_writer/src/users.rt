//! The users of a text of version 2: who is written when, and under which number. Nothing is kept of them, so a text is
//! written without memory, whatever its tasks are.

ghost use Rattle.std.specs.Prelude.{◌≡◌, not, length, map};
ghost use Rattle.std.specs.List.{list_any};
ghost use Rattle.cs_types.specs.Scenario.{is_user, users_of};
ghost use Rattle.scenario_text.specs.Text.{number_of};

use cs_types::{Creds, TaskSpec};

/// Whether none of these tasks has the credentials.
pub(crate) fn are_new(earlier: &[TaskSpec], creds: &Creds) -> bool
    ensures { result ≡ not (list_any (is_user creds.now) (map (λ task. task.creds) earlier.now)) }
{
    !earlier.iter().any(|task| creds.are_same(&task.creds))
}

/// The number of the user of these credentials among those of the tasks: how many come before.
pub(crate) fn number_of(tasks: &[TaskSpec], creds: &Creds) -> usize
    ensures { result ≡ number_of (users_of tasks.now) creds.now }
{
    let mut before = 0;
    for place in 0..tasks.len() {
        let user = &tasks[place].creds;
        if creds.are_same(user) {
            return before;
        }
        if are_new(&tasks[..place], user) {
            before += 1;
        }
    }
    before
}

/// How many users the tasks have.
pub(crate) fn count_of(tasks: &[TaskSpec]) -> usize
    ensures { result ≡ length (users_of tasks.now) }
{
    let mut count = 0;
    for place in 0..tasks.len() {
        if are_new(&tasks[..place], &tasks[place].creds) {
            count += 1;
        }
    }
    count
}
