//! The run of a scenario on a machine. It is over the contract of a machine alone, so that it serves
//! each of them.

ghost use Rattle.std.specs.Prelude.{◌≡◌, ◌+◌, ◌≤◌, [], All, length};
ghost use Rattle.cs_types.specs.Scenario.{IsEvent};
ghost use Rattle.cs_types.specs.History.{history_of};

use cs_types::{Room, Step};

/// Makes the steps, in their order, in a room that has made none.
pub fn play<R: Room>(room: &mut R, steps: &[Step])
    requires empty { R.history room.old ≡ [] }
    requires spare { length steps.now ≤ R.spare room.old }
    requires events { All (λ step. IsEvent (R.opening room.old).scenario.siblings step.event)
        steps.now }

    ensures history { R.history room.new ≡ history_of (R.opening room.old) steps.now }
    ensures spare { R.spare room.new + length steps.now ≡ R.spare room.old }
    ensures opening { R.opening room.new ≡ R.opening room.old }
{
    for step in steps {
        room.apply(step.actor, step.event);
    }
}
