//! Whether a call is admitted: what is asked of every command before it comes to its own conditions.

ghost use Rattle.std.specs.Prelude.{◌≡◌, ◌+◌, ◌<◌, ◌^◌, length, find, nat_lt, All, IfSome, Some, IfOk, IfErr, option_copied};
ghost use Rattle.cs_types.specs.Guards.{asked_each};
ghost use Rattle.cs_types.specs.Room.{RoomState, has_pid, online as siblings_online};
ghost use Rattle.cs_types.specs.Prctl.{named_by};
ghost use Rattle.prctl_core.specs.Plan.{Admits, asked_to_admit, IsRefusal, AreThere};

use crate::arguments::{Command, Scope, arguments};
use cs_outside::Guard;
use cs_types::{Ask, Errno, Pid, Reply, Task};
use ptrace_check::{Guards, may_access};
use task_table::TaskTable;

/// A call that is admitted: its caller and its target, which the caller may access, and what it asks
/// for.
#[derive(Clone, Copy)]
pub struct Called<'a> {
    pub caller: &'a Task,
    pub target: &'a Task,
    pub command: Command,
    pub scope: Scope,
}

/// The task that a pid names: the caller for 0, else the living task that has it.
#[inline(always)]
fn named_by<'a>(table: &'a TaskTable, caller: &'a Task, pid: i32) -> Option<&'a Task>
    requires there { find (has_pid caller.now.spec.pid) table.now.tasks ≡ Some caller.now }
    ensures named { (room : RoomState) → room.tasks ≡ table.now.tasks →
        option_copied result ≡ named_by room caller.now pid }
    ensures there { IfSome result
        (λ task. find (has_pid task.now.spec.pid) table.now.tasks ≡ Some task.now) }
{
    match u32::try_from(pid) {
        Ok(0) => Some(caller),
        Ok(pid) => table.find(pid),
        Err(_) => None,
    }
}

/// The call, if it is admitted, or its answer. It asks of `online` only whether it is below 2.
pub fn admit<'a, G: Guard>(
    table: &'a TaskTable,
    guards: &mut Guards<G>,
    online: u8,
    caller: Pid,
    ask: &Ask,
) -> Result<Called<'a>, Reply>
    requires asked { All (λ guard. guard.asked < 2 ^ 62) guards.old.guards.all }
    ensures admits { (room : RoomState) → room.tasks ≡ table.now.tasks →
        nat_lt (length (siblings_online room)) 2 ≡ nat_lt online 2 →
        room.guards ≡ guards.old.guards → Admits room caller ask.now result }
    ensures refused { IfErr result IsRefusal }
    ensures there { IfOk result (λ called. AreThere table.now called) }
    ensures asked { (room : RoomState) → room.tasks ≡ table.now.tasks →
        nat_lt (length (siblings_online room)) 2 ≡ nat_lt online 2 →
        room.guards ≡ guards.old.guards →
        guards.new.guards ≡ asked_each room.guards (asked_to_admit room caller ask.now result) }
    ensures counts { All (λ guard. guard.asked < 2 ^ 62 + 16) guards.new.guards.all }
    ensures caps { guards.new.caps ≡ guards.old.caps }
{
    let Some(by) = table.find(caller) else {
        return Err(Reply::NoCaller);
    };
    if online < 2 {
        return Err(Reply::Refused(Errno::Enodev));
    }
    let Some((command, scope)) = arguments(ask) else {
        return Err(Reply::Refused(Errno::Einval));
    };
    let Some(target) = named_by(table, by, ask.pid) else {
        return Err(Reply::Refused(Errno::Esrch));
    };
    if !may_access(&by.spec, &target.spec, guards) {
        return Err(Reply::Refused(Errno::Eperm));
    }
    Ok(Called {
        caller: by,
        target,
        command,
        scope,
    })
}
