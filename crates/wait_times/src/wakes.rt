//! Which task an entry wakes.

ghost use Rattle.std.specs.Prelude.{◌≡◌};
ghost use Rattle.wait_times.specs.Waits as waits;

use cs_types::{Entry, Event, Pid, Reply};

/// The task that an entry wakes. `None` if it wakes none.
pub(crate) fn woken_by(entry: Entry) -> Option<Pid>
    ensures { result ≡ waits.woken_by entry.event entry.reply }
{
    match (entry.event, entry.reply) {
        (Event::Wake(pid), Reply::Woken(_)) => Some(pid),
        (Event::Fork { .. }, Reply::Child(pid)) => Some(pid),
        _ => None,
    }
}
