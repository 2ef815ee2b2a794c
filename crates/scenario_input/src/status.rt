//! How a command ends.

ghost use Rattle.std.specs.Prelude.{◌≡◌, OnOk, OnErr};
ghost use Rattle.scenario_input.specs.Exit.{exit_code};

use crate::stop::GuardKind;
use cs_outside::Failed;
use scenario_text::BadKind;
use thiserror::Error;

/// How a command ended. Where more than one fits, the first in the order of the work counts: the
/// words, reading, the scenario, the guards, opening, the run, writing. Its text says what went wrong.
#[derive(Clone, Copy, Debug, PartialEq, Eq, Error)]
pub enum Status {
    /// All was read and all was written.
    #[error("done")]
    Done,
    /// The words are no command's. Nothing was read.
    #[error("bad words")]
    BadWords,
    /// The input was read to its end, and no valid scenario has this text, or if a printed run stands behind the scenario,
    /// that of its part. This is its first bad line, and what is wrong with it.
    #[error("line {line}: {kind:?}")]
    BadScenario { line: u32, kind: BadKind },
    /// The input is or begins with a scenario, and its first teach line that cannot be carried out is this one: it names
    /// a guard that was not handed in, or one that has as many pairs as it can be taught.
    #[error("line {line}: guard {kind:?}")]
    BadGuard { line: u32, kind: GuardKind },
    /// More bytes were read than an input may have: 16,777,216, or 33,554,432 if a printed run stands behind the
    /// scenario.
    #[error("input too long")]
    TooLong,
    /// The source failed.
    #[error("read fault")]
    ReadFault,
    /// The sink failed. A prefix of the output was written.
    #[error("write fault")]
    WriteFault,
    /// There was no memory, and nothing was written. A replay, a race, a drill and a summary end so before
    /// their first step. A check, and what is shown over time, may end so at any step, or after the last.
    #[error("out of memory")]
    OutOfMemory,
}

impl Status {
    /// How a command ended whose output was written, or whose sink failed at that.
    pub fn of_writing(written: Result<(), Failed>) -> Status
        ensures done { OnOk written (result ≡ Status.Done) }
        ensures fault { OnErr written (result ≡ Status.WriteFault) }
    {
        match written {
            Ok(()) => Status::Done,
            Err(_) => Status::WriteFault,
        }
    }

    /// The exit status of a program whose command ended so, 0 to 5.
    pub fn exit_code(self) -> u8
        ensures { result ≡ exit_code self }
    {
        match self {
            Status::Done => 0,
            Status::BadWords => 1,
            Status::BadScenario { .. } | Status::BadGuard { .. } | Status::TooLong => 2,
            Status::ReadFault => 3,
            Status::WriteFault => 4,
            Status::OutOfMemory => 5,
        }
    }
}
