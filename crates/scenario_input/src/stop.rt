//! Why an input is not played.

ghost use Rattle.std.specs.Prelude.{◌≡◌};
ghost use Rattle.scenario_input.specs.declared.stop.Stop.TheVariants.{OutOfMemory};

use crate::status::Status;
use cs_types::OutOfMemory;
use scenario_text::{BadKind, ReadFault};
use std::alloc::AllocError;

/// What is wrong with a teach line.
#[derive(Clone, Copy, Debug, PartialEq, Eq)]
pub enum GuardKind {
    /// It names a guard that was not handed in.
    NoGuard,
    /// It names a guard that has as many pairs as it can be taught.
    Full,
}

/// Why an input was not played.
#[derive(Clone, Copy)]
pub enum Stop {
    /// The source failed.
    ReadFault,
    /// More bytes were read than the input may have.
    TooLong,
    /// The input was read to its end, and no valid scenario has its text, or that of the part which is to be one. This is
    /// its first bad line.
    BadScenario { line: u32, kind: BadKind },
    /// The input is a scenario, or begins with one, and this is its first teach line that cannot be carried out.
    BadGuard { line: u32, kind: GuardKind },
    /// There was no memory.
    OutOfMemory,
}

impl From<AllocError> for Stop {
    ghost from_gives = { λ _ stop. stop ≡ OutOfMemory };

    fn from(_: AllocError) -> Self {
        Stop::OutOfMemory
    }
}

impl From<OutOfMemory> for Stop {
    ghost from_gives = { λ _ stop. stop ≡ OutOfMemory };

    fn from(_: OutOfMemory) -> Self {
        Stop::OutOfMemory
    }
}

impl From<ReadFault> for Stop {
    ghost use Rattle.scenario_input.specs.Stop.{stop_of};

    ghost from_gives = { λ fault stop. stop ≡ stop_of fault };

    fn from(fault: ReadFault) -> Self {
        match fault {
            ReadFault::Bad { line, kind } => Stop::BadScenario { line, kind },
            ReadFault::OutOfMemory => Stop::OutOfMemory,
        }
    }
}

impl From<Stop> for Status {
    ghost use Rattle.scenario_input.specs.Stop.{status_of};

    ghost from_gives = { λ stop status. status ≡ status_of stop };

    fn from(stop: Stop) -> Self {
        match stop {
            Stop::ReadFault => Status::ReadFault,
            Stop::TooLong => Status::TooLong,
            Stop::BadScenario { line, kind } => Status::BadScenario { line, kind },
            Stop::BadGuard { line, kind } => Status::BadGuard { line, kind },
            Stop::OutOfMemory => Status::OutOfMemory,
        }
    }
}
