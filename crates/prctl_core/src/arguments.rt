//! The arguments of a call by their names. They are read here alone, so that what comes after it knows a command and a
//! scope, and no number.

ghost use Rattle.std.specs.Prelude.{◌≡◌, ◌<◌, IfSome, IfNone, is_none};
ghost use Rattle.cs_types.specs.Prctl.{is_invalid};
ghost use Rattle.prctl_core.specs.Plan.{command_number, scope_number};

use cs_types::Ask;

/// What a call asks for.
#[derive(Clone, Copy)]
pub enum Command {
    /// The target's cookie is asked for (`PR_SCHED_CORE_GET`).
    Get,
    /// A new cookie is made for the members (`PR_SCHED_CORE_CREATE`).
    Create,
    /// The members get the caller's cookie (`PR_SCHED_CORE_SHARE_TO`).
    ShareTo,
    /// The caller gets the target's cookie (`PR_SCHED_CORE_SHARE_FROM`).
    ShareFrom,
}

impl Command {
    /// The command with this number. `None` exactly if there is none.
    fn of(number: u32) -> Option<Command>
        ensures some { IfSome result (λ command. command_number command ≡ number) }
        ensures none { IfNone result (3 < number) }
    {
        match number {
            Ask::GET => Some(Command::Get),
            Ask::CREATE => Some(Command::Create),
            Ask::SHARE_TO => Some(Command::ShareTo),
            Ask::SHARE_FROM => Some(Command::ShareFrom),
            _ => None,
        }
    }
}

/// Who is meant besides the target.
#[derive(Clone, Copy)]
pub enum Scope {
    /// The target alone (`PR_SCHED_CORE_SCOPE_THREAD`).
    Thread,
    /// Its thread group (`PR_SCHED_CORE_SCOPE_THREAD_GROUP`).
    ThreadGroup,
    /// Its process group (`PR_SCHED_CORE_SCOPE_PROCESS_GROUP`).
    ProcessGroup,
}

impl Scope {
    /// The scope with this number. `None` exactly if there is none.
    fn of(number: u32) -> Option<Scope>
        ensures some { IfSome result (λ scope. scope_number scope ≡ number) }
        ensures none { IfNone result (2 < number) }
    {
        match number {
            0 => Some(Scope::Thread),
            1 => Some(Scope::ThreadGroup),
            2 => Some(Scope::ProcessGroup),
            _ => None,
        }
    }
}

/// The command and the scope of a call. `None` exactly if an argument is not valid.
pub fn arguments(ask: &Ask) -> Option<(Command, Scope)>
    ensures invalid { is_none result ≡ is_invalid ask.now }
    ensures command { IfSome result (λ named. command_number named.0 ≡ ask.now.cmd) }
    ensures scope { IfSome result (λ named. scope_number named.1 ≡ ask.now.scope) }
{
    let command = Command::of(ask.cmd)?;
    let scope = Scope::of(ask.scope)?;
    if ask.pid < 0 || (ask.addr != 0 && !matches!(command, Command::Get)) {
        return None;
    }
    Some((command, scope))
}
