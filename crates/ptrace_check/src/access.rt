//! The rules of access, in their order (`__ptrace_may_access`, kernel/ptrace.c, and
//! `cap_ptrace_access_check`, security/commoncap.c).

ghost use Rattle.std.specs.Prelude.{◌≡◌, ◌<◌, ◌≤◌, ◌^◌, length, find, All};
ghost use Rattle.std.specs.Option.{option_map};
ghost use Rattle.cs_types.specs.Access.{is_same_user, is_undumpable, kernel_rules, may_access, asked_about};
ghost use Rattle.cs_types.specs.Guards.{asked_each};
ghost use Rattle.ptrace_check.specs.Guards.{most_guards};

use crate::guards::Guards;
use cs_outside::Guard;
use cs_types::{Creds, TaskSpec};

/// Whether the caller's real user is the target's real, effective and saved user, and so for the
/// groups.
fn is_same_user(caller: &Creds, target: &Creds) -> bool
    ensures { result ≡ is_same_user caller.now target.now }
{
    target.ruid == caller.ruid
        && target.euid == caller.ruid
        && target.suid == caller.ruid
        && target.rgid == caller.rgid
        && target.egid == caller.rgid
        && target.sgid == caller.rgid
}

/// Whether the target has a memory image that may not be dumped.
fn is_undumpable(target: &Creds) -> bool
    ensures { result ≡ is_undumpable target.now }
{
    target.mm && !target.dumpable
}

/// What the rules of the kernel itself decide: the first that decides. `None` if none does. A task may access those of
/// its thread group. It may access another only with CAP_SYS_PTRACE if that is not the same user's, may not be dumped,
/// or has CAP_SYS_PTRACE itself.
fn kernel_decision(caller: &TaskSpec, target: &TaskSpec) -> Option<bool>
    ensures { result ≡ option_map (λ rule. rule.allows)
        (find (λ rule. rule.decides) (kernel_rules caller.now target.now)) }
{
    if caller.tgid == target.tgid {
        return Some(true);
    }
    if !is_same_user(&caller.creds, &target.creds) && !caller.creds.cap {
        return Some(false);
    }
    if is_undumpable(&target.creds) && !caller.creds.cap {
        return Some(false);
    }
    if target.creds.cap && !caller.creds.cap {
        return Some(false);
    }
    None
}

/// Whether the caller may access the target: what the rules of the kernel decide. If they decide nothing, the active
/// guards are asked about the two real users, in the order of loading, up to the first that refuses. Each counts that
/// it was asked. So no guard is asked about a task of the thread group, nor if the kernel refuses. It takes no memory.
#[inline(always)]
pub fn may_access<G: Guard>(caller: &TaskSpec, target: &TaskSpec, guards: &mut Guards<G>) -> bool
    requires asked { All (λ guard. guard.asked < 2 ^ 63) guards.old.guards.all }
    ensures decision { result ≡ may_access guards.old.guards caller.now target.now }
    ensures asked { guards.new.guards
        ≡ asked_each guards.old.guards (asked_about guards.old.guards caller.now target.now) }
    ensures few { length guards.old.guards.active ≤ most_guards }
    ensures caps { guards.new.caps ≡ guards.old.caps }
{
    let active = guards.active_count();
    match kernel_decision(caller, target) {
        Some(allowed) => allowed,
        None => active == 0 || guards.allow(caller.creds.ruid, target.creds.ruid),
    }
}
