//! Whose cookie a call sets, and whether its caller may access them all.

ghost use Rattle.std.specs.Prelude.{◌≡◌, ◌+◌, ◌<◌, ◌^◌, length, filter, All};
ghost use Rattle.cs_types.specs.Guards.{asked_each};
ghost use Rattle.std.specs.List.{list_all};
ghost use Rattle.cs_types.specs.Access.{may_access};
ghost use Rattle.task_table.specs.Group.{is_in_group};
ghost use Rattle.prctl_core.specs.Plan.{NamesMembers, NamesCaller, asked_about_all, asked_about_members_of};

use crate::admitted::Called;
use crate::arguments::Scope;
use crate::decision::Target;
use cs_outside::Guard;
use cs_types::{Errno, TaskSpec};
use ptrace_check::{Guards, may_access};
use task_table::{Group, TaskTable};

/// Whether the caller may access every member of the group. They are asked about by rising pid, up
/// to the first that is refused.
#[inline(always)]
fn may_access_all<G: Guard>(
    table: &TaskTable,
    guards: &mut Guards<G>,
    caller: &TaskSpec,
    group: Group,
) -> bool
    requires few { length table.now.tasks < 2 ^ 16 }
    requires asked { All (λ guard. guard.asked < 2 ^ 62 + 16) guards.old.guards.all }
    ensures all { result ≡ list_all (λ member. may_access guards.old.guards caller.now member.spec)
        (filter (is_in_group group) table.now.tasks) }
    ensures asked { guards.new.guards
        ≡ asked_each guards.old.guards (asked_about_all guards.old.guards caller.now
        (filter (is_in_group group) table.now.tasks)) }
    ensures caps { guards.new.caps ≡ guards.old.caps }
{
    for member in table.members(group) {
        if !may_access(caller, &member.spec, guards) {
            return false;
        }
    }
    true
}

/// The members of the call's scope, or EPERM if one of them may not be accessed.
#[inline(always)]
pub fn members<G: Guard>(
    table: &TaskTable,
    guards: &mut Guards<G>,
    called: &Called<'_>,
) -> Result<Target, Errno>
    requires few { length table.now.tasks < 2 ^ 16 }
    requires asked { All (λ guard. guard.asked < 2 ^ 62 + 16) guards.old.guards.all }
    ensures named { NamesMembers guards.old.guards table.now.tasks called.now result }
    ensures asked { guards.new.guards ≡ asked_each guards.old.guards
        (asked_about_members_of guards.old.guards table.now.tasks called.now) }
    ensures caps { guards.new.caps ≡ guards.old.caps }
{
    let target = called.target.spec;
    let (group, to) = match called.scope {
        Scope::Thread => return Ok(Target::One(target.pid)),
        Scope::ThreadGroup => (Group::Threads(target.tgid), Target::Threads(target.tgid)),
        Scope::ProcessGroup => (Group::Process(target.pgid), Target::Process(target.pgid)),
    };
    if may_access_all(table, guards, &called.caller.spec, group) {
        Ok(to)
    } else {
        Err(Errno::Eperm)
    }
}

/// The caller itself, or EINVAL if the scope is not the target alone.
pub fn itself(called: &Called<'_>) -> Result<Target, Errno>
    ensures { NamesCaller called.now result }
{
    match called.scope {
        Scope::Thread => Ok(Target::One(called.caller.spec.pid)),
        _ => Err(Errno::Einval),
    }
}
