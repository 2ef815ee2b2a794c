//! What a scenario teaches the guards that were handed in.

ghost use Rattle.std.specs.Prelude.{◌≡◌, List, None, OnOk, IfOk, IfErr, map, length, vec_len};
ghost use Rattle.cs_types.specs.declared.scenario.Teach.{Teach as SomeTeach};
ghost use Rattle.cs_types.specs.Guards.{guards_on_bench};
ghost use Rattle.ptrace_check.specs.Guards.{AreFresh};
ghost use Rattle.scenario_input.specs.Teaching.{bad_line, first_bad, Teaches, IsTeachStop};

use crate::stop::{GuardKind, Stop};
use cs_outside::Guard;
use cs_types::Teach;
use ptrace_check::{Guards, TeachAnswer};
use std::alloc::Global;

/// Teaches one line, after the earlier ones.
fn teach<G: Guard>(guards: &mut Guards<G>, teach: &Teach) -> Result<(), Stop>
    ensures taught { OnOk result ((earlier : List SomeTeach) →
        guards.old.guards ≡ guards_on_bench earlier (length guards.old.caps) →
        Teaches guards.old.caps earlier teach.now guards.new.guards) }
    ensures caps { guards.new.caps ≡ guards.old.caps }
    ensures stop { IfErr result (λ stop. (earlier : List SomeTeach) →
        guards.old.guards ≡ guards_on_bench earlier (length guards.old.caps) →
        IsTeachStop (bad_line guards.old.caps earlier teach.now) stop) }
{
    match guards.teach(teach.guard, teach.from, teach.to) {
        TeachAnswer::Taught => Ok(()),
        TeachAnswer::NoGuard => Err(Stop::BadGuard {
            line: teach.line,
            kind: GuardKind::NoGuard,
        }),
        TeachAnswer::Full { .. } => Err(Stop::BadGuard {
            line: teach.line,
            kind: GuardKind::Full,
        }),
        TeachAnswer::OutOfMemory => Err(Stop::OutOfMemory),
    }
}

/// The guards on the bench, each with the pairs of its lines. `BadGuard` names the first line that cannot be
/// carried out.
pub fn taught<G: Guard>(alloc: Global, list: Vec<G>, teaches: &[Teach]) -> Result<Guards<G>, Stop>
    requires fresh { AreFresh G.pairs G.asked list.items }

    ensures taught { IfOk result
        (λ guards. guards.guards ≡ guards_on_bench teaches.now (vec_len list)) }
    ensures all { IfOk result (λ guards. first_bad (map G.cap list.items) teaches.now ≡ None) }
    ensures stop { IfErr result (IsTeachStop (first_bad (map G.cap list.items) teaches.now)) }
{
    let mut guards = Guards::of(alloc, list)?;
    for line in teaches {
        if let Err(stop) = teach(&mut guards, line) {
            return Err(stop);
        }
    }
    Ok(guards)
}
