//! How a machine is started. What plays a scenario asks this alone, and stands on no machine.

ghost use Rattle.std.specs.Prelude.{IfOk};
ghost use Rattle.cs_types.specs.Guards.{GuardList};
ghost use Rattle.cs_types.specs.Opened.{MayStart, HasStarted};

use crate::memory::OutOfMemory;
use crate::room::Room;
use crate::scenario::Scenario;
use std::alloc::Global;

/// The guards that a machine is started with, whatever their type. `Guards` is the one kind of them.
pub trait Bench {
    /// These guards as clauses see them.
    ghost guards: { Self → GuardList };
}

/// A machine that can be started on a scenario, with guards of this type.
pub trait FromScenario<B: Bench>: Room {
    /// The room of a scenario before its first step. The guards were taught what its lines teach, and none was loaded
    /// or asked yet. It takes memory for as many entries as the scenario has steps, and for those of the final drain,
    /// and no later call takes any. The core has 1 to 16 siblings.
    fn from_scenario(alloc: Global, scenario: &Scenario, guards: B) -> Result<Self, OutOfMemory>
        requires { MayStart scenario.now (B.guards guards) }
        ensures { IfOk result (λ room. HasStarted scenario.now
            (B.guards guards) (Self.opening room) (Self.history room) (Self.spare room)) };
}
