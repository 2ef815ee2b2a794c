//! Why a text is no scenario.

ghost use Rattle.std.specs.Prelude.{◌≡◌, MatchResult, Ok, Err};

use std::alloc::AllocFailed;
use thiserror::Error;

/// What is wrong with a line. If more than one of these holds of a line, the first is named.
#[derive(Clone, Copy, Debug, PartialEq, Eq)]
pub enum BadKind {
    /// It stands after the `end` line.
    After,
    /// No line feed ends it, or the text ends before the `end` line: then it is the line after the last one.
    Cut,
    /// It has no form that may stand in its place.
    Shape,
    /// A word in a number's place is no canonical decimal, or out of its range.
    Number,
    /// It is a task line with the pid of an earlier one.
    Twice,
    /// It is a task line whose thread group is led neither by the task nor by an earlier one that has the
    /// same process group.
    Leader,
    /// It is one line of its form too many: a task above the limit, a 65th teach line or a 100,001st step.
    Full,
    /// It breaks a rule of users, in version 2: it is a user line whose number is not that of the next user, or with
    /// credentials that an earlier one has; or a task line with the number of no user, or of one that is not named yet
    /// and is not the next; or the first line after the tasks, and some user is named by none of them.
    User,
}

/// Why a text was not read.
#[derive(Debug, Drop, Error)]
pub enum ReadFault {
    /// It is no scenario's. This is its first bad line, counted from 1, and what is wrong with it.
    #[error("line {line}: {kind:?}")]
    Bad { line: u32, kind: BadKind },
    /// There was no memory for what it says.
    #[error("out of memory")]
    OutOfMemory,
}

/// What was read from the line of this number, or the line's fault.
pub(crate) fn on_line<T: Drop>(read: Result<T, BadKind>, line: u32) -> Result<T, ReadFault>
    ensures { MatchResult read (λ x. result ≡ Ok x)
        (λ kind. result ≡ Err (ReadFault.Bad line kind)) }
{
    match read {
        Ok(x) => Ok(x),
        Err(kind) => Err(ReadFault::Bad { line, kind }),
    }
}

impl<T: Drop> From<AllocFailed<T>> for ReadFault {
    ghost use Rattle.scenario_text.specs.declared.fault.ReadFault.TheVariants.{OutOfMemory};

    ghost from_gives = { λ _ e. e ≡ OutOfMemory };

    fn from(_: AllocFailed<T>) -> Self {
        ReadFault::OutOfMemory
    }
}
