//! The machine over trees of a text.

ghost use Rattle.std.specs.Prelude.{◌≡◌, ◌+◌, ◌*◌, ◌≤◌, [], length, IfSome};
ghost use Rattle.cs_types.specs.Scenario.{IsPlayable};

use core_state::CoreState;
use cs_outside::PairGuard;
use cs_types::Scenario;
use row_inputs::Script;
use scenario_input::taught;
use scenario_runner::play;
use scenario_text::read;
use std::alloc::Global;

/// The scenario of this text, and the machine of it before its first step. It has no guards. There is none of a text
/// that is no scenario's, of one that teaches a guard, and without memory.
pub fn opened(alloc: Global, text: &str) -> Option<(Scenario, CoreState<PairGuard>)>
    ensures playable { IfSome result (λ opened. IsPlayable opened.0) }
    ensures scenario { IfSome result (λ opened. opened.1.opening.scenario ≡ opened.0) }
    ensures empty { IfSome result (λ opened. opened.1.steps ≡ []) }
    ensures spare { IfSome result (λ opened.
        length opened.0.steps + opened.0.siblings * opened.0.siblings ≤ opened.1.spare) }
{
    let Ok(scenario) = read(alloc, text.as_bytes()) else {
        return None;
    };
    let list = Vec::<PairGuard>::new(alloc);
    let Ok(guards) = taught(alloc, list, scenario.teaches.items()) else {
        return None;
    };
    let Ok(room) = CoreState::start(alloc, &scenario, guards) else {
        return None;
    };
    Some((scenario, room))
}

/// The machine of a worked example after all its steps, before the entries of the final drain. It has no guards. There
/// is none without memory.
pub fn played(alloc: Global, script: &Script) -> Option<CoreState<PairGuard>>
    ensures { IfSome result (λ room. IsPlayable room.opening.scenario) }
{
    let (scenario, mut room) = opened(alloc, script.text)?;
    play(&mut room, scenario.steps.items());
    Some(room)
}
