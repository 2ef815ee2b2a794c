//! What every program does around its command: the words that it is called with, and the guards that it hands in.

ghost use Rattle.std.specs.Prelude.{◌≡◌, ◌⊎◌, [], ◌∷◌, IfErr, IfOk};
ghost use Rattle.cs_outside.specs.Guard.{fresh};

use crate::status::Status;
use cs_outside::PairGuard;
use std::env;
use std::io::ErrorKind;
use std::rt::Env;

/// The words of the command line, without the program's name. Which they are is the system's to say, and not promised.
/// Words that are no text are no command's.
pub fn words<R: Env + AllocGlobal>(rt: &R) -> Result<Vec<String>, Status>
    ensures { IfErr result (λ status. (status ≡ Status.BadWords) ⊎ (status ≡ Status.OutOfMemory)) }
{
    match env::args(rt) {
        Ok(args) => args
            .skip(1)
            .collect(rt.alloc())
            .map_err(|_| Status::OutOfMemory),
        Err(error) if error.kind() == ErrorKind::OutOfMemory => Err(Status::OutOfMemory),
        Err(_) => Err(Status::BadWords),
    }
}

/// The four guards that a scenario may teach, by their numbers. None refuses anybody yet.
pub fn guards<R: AllocGlobal>(rt: &R) -> Result<Vec<PairGuard>, Status>
    ensures some { IfOk result (λ guards. guards.items ≡ fresh ∷ fresh ∷ fresh ∷ fresh ∷ []) }
    ensures none { IfErr result (λ status. status ≡ Status.OutOfMemory) }
{
    let guards = [
        PairGuard::empty(),
        PairGuard::empty(),
        PairGuard::empty(),
        PairGuard::empty(),
    ];
    Vec::from_array(rt.alloc(), guards).map_err(|_| Status::OutOfMemory)
}
