//! What a line says of a segment. It is separate since both forms say the same.

ghost use Rattle.std.specs.Prelude.{◌≡◌, ◌≤◌, length};
ghost use Rattle.segment_text.specs.Cells as told;

use cs_types::{Cookie, Pid};
use run_times::Doing;

/// The word of what a sibling does, without its cookie.
pub(crate) fn state_word(doing: Doing) -> &'static str
    ensures word { result.now ≡ told.state_word doing }
    ensures longest { length result.now ≤ 7 }
{
    match doing {
        Doing::Offline => "offline",
        Doing::Runs(_) => "running",
        Doing::Idles | Doing::ForcedIdle(_) => "idle",
    }
}

/// The cookie of the task that a sibling runs, or that of the core if it is forced idle.
pub(crate) fn cookie_of(doing: Doing) -> Option<Cookie>
    ensures { result ≡ told.cookie_of doing }
{
    match doing {
        Doing::Runs(cookie) | Doing::ForcedIdle(cookie) => Some(cookie),
        Doing::Offline | Doing::Idles => None,
    }
}

/// Whether a sibling is forced idle.
pub(crate) fn is_forced(doing: Doing) -> bool
    ensures { result ≡ told.is_forced doing }
{
    matches!(doing, Doing::ForcedIdle(_))
}

/// The pid of the task that a sibling runs, if it runs one.
pub(crate) fn pid_of(pid: Pid) -> Option<u64>
    ensures { result ≡ told.pid_of pid }
{
    if pid == 0 { None } else { Some(u64::from(pid)) }
}

/// The thread group of the task that a sibling runs, if it runs one.
pub(crate) fn group_of(group: u64) -> Option<u64>
    ensures { result ≡ told.group_of group }
{
    if group == 0 { None } else { Some(group) }
}
