//! How the seats of a lock are made, one for each list, and how they come together at the end.

ghost use Rattle.std.specs.Prelude.{◌≡◌, ◌^◌, ◌<◌, List, [], All, length, IfOk, Contains};
ghost use Rattle.core_lock.specs.declared.view.Progress.{Progress};
ghost use Rattle.core_lock.specs.declared.view.Beginning.{Beginning};
ghost use Rattle.core_lock.specs.declared.view.View.TheVariants.{Idle};
ghost use Rattle.core_lock.specs.Lists.{AreLists, steps_in};
ghost use Rattle.core_lock.specs.Board.{first_view};
ghost use Rattle.core_lock.specs.Passes.{lock_of, fresh_passes};

use crate::board::{Gather, Give, Place, Top};
use crate::pass::Pass;
use cs_types::{List, OutOfMemory, Room, Step};
use std::alloc::Global;

/// A pass for each list, by rising number.
pub(crate) fn passes_of<R: Room>(
    alloc: Global,
    top: &Top<R>,
    mut seat: Place<R>,
    lists: List<List<Step>>,
) -> Result<List<Pass<R>>, OutOfMemory>
    requires table { (seat.table_id ≡ top.now.table_id) × (seat.table_id.words ≡ 2) }
    requires seat { seat.me ≡ (first_view top.now.key.value, []) }
    requires lists { lists ≡ top.now.key.value.lists }
    requires fair { AreLists (R.opening top.now.key.value.room).scenario.siblings lists }
    requires fits { steps_in lists < 2 ^ 64 }

    ensures { IfOk result (λ passes. passes
        ≡ fresh_passes (lock_of R.opening R.spare top.now.table_id top.now.key.value)) }
{
    let mut passes = Vec::new(alloc);
    for steps in lists.into_vec() {
        let given = top.split_seat::<Give>(&mut seat);
        passes.push(Pass {
            seat: given,
            steps,
            made: 0,
        })?;
    }
    Ok(List::of(passes))
}

/// The seat that has all lists of the passes.
pub(crate) fn joined<R: Room>(top: &Top<R>, passes: List<Pass<R>>) -> Place<R>
    requires words { top.now.table_id.words ≡ 2 }
    requires some { 0 < length passes }
    requires table { All (λ pass. pass.lock.table ≡ top.now.table_id) passes }

    ensures table { result.table_id ≡ top.now.table_id }
    ensures all { (begun : Beginning R) × (all : List Progress) × (result.me ≡ (Idle begun all, []))
        × All (λ pass. Contains all pass.progress) passes }
{
    let mut rest = passes.into_vec();
    let Some(last) = rest.pop() else {
        unreachable!()
    };
    let Pass { mut seat, .. } = last;
    while let Some(pass) = rest.pop() {
        let Pass { seat: other, .. } = pass;
        top.join_seat::<Gather>(&mut seat, other);
    }
    seat
}
