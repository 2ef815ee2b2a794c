//! The command `drill`, once its words are read.

ghost use Rattle.std.specs.Prelude.{◌≡◌, ◌+◌, ◌-◌, ◌*◌, ◌^◌, ◌<◌, ◌≤◌, [], length, All, IfOk};
ghost use Rattle.cs_types.specs.Scenario.{IsEvent, IsValid};
ghost use Rattle.room_drill.specs.Drill.{drill_scenario};
ghost use Rattle.room_drill.specs.Summary.{summary_text};
ghost use Rattle.scenario_runner.specs.Outcomes.{drill_opening};
ghost use Rattle.scenario_runner.specs.Ends.{EndsAsDrill};
ghost use Rattle.scenario_runner.specs.Written.{IsWritten, WritesDrill};

use cs_outside::{Guard, Sink};
use cs_types::{FromScenario, OutOfMemory, Room, Scenario, Step};
use ptrace_check::Guards;
use room_drill::{generate, summary};
use scenario_input::{Status, play};
use std::alloc::Global;

/// The scenario of the seed, and the room of it before its first step. No guard is handed in.
fn opened<R: FromScenario<Guards<G>>, G: Guard>(
    alloc: Global,
    seed: u32,
) -> Result<(Scenario, R), OutOfMemory>
    ensures scenario { IfOk result (λ opened. opened.0 ≡ drill_scenario seed) }
    ensures valid { IfOk result (λ opened. IsValid opened.0) }
    ensures opening { IfOk result (λ opened. R.opening opened.1 ≡ drill_opening seed) }
    ensures empty { IfOk result (λ opened. R.history opened.1 ≡ []) }
    ensures spare { IfOk result (λ opened.
        R.spare opened.1 ≡ length opened.0.steps + opened.0.siblings * opened.0.siblings) }
{
    let scenario = generate(alloc, seed)?;
    let guards = Guards::<G>::of(alloc, Vec::new(alloc))?;
    let room = R::from_scenario(alloc, &scenario, guards)?;
    Ok((scenario, room))
}

/// Writes the summary and the report, and says how that ended.
fn write_summary<R: Room, K: Sink>(seed: u32, room: &R, sink: &mut K) -> Status
    ensures { IsWritten
        (record { bytes = K.written; faults = K.faults; before = sink.old; after = sink.new })
        (summary_text seed (R.opening room.now) (R.history room.now)) result }
{
    Status::of_writing(summary(seed, room, sink))
}

/// Makes the steps, in their order, in a room that has made none, and then the entries of the final drain, and writes
/// the summary and the report.
fn write_drill<R: Room, K: Sink>(seed: u32, mut room: R, steps: &[Step], sink: &mut K) -> Status
    requires empty { R.history room ≡ [] }
    requires spare { length steps.now
        + (R.opening room).scenario.siblings * (R.opening room).scenario.siblings
        ≤ R.spare room }
    requires events { All
        (λ step. IsEvent (R.opening room).scenario.siblings step.event) steps.now }

    ensures { WritesDrill seed (R.opening room) steps.now
        (record { bytes = K.written; faults = K.faults; before = sink.old; after = sink.new })
        result }
{
    play(&mut room, steps);
    room.drain();
    write_summary(seed, &room, sink)
}

/// Plays the seed's scenario in the order of its steps, and then the entries of the final drain, and writes the summary
/// and the report.
pub(crate) fn drilled<R: FromScenario<Guards<G>>, K: Sink, G: Guard>(
    alloc: Global,
    seed: u32,
    sink: &mut K,
) -> Status
    requires sink { K.faults sink.old < 2 ^ 64 - 1 }
    ensures { EndsAsDrill seed
        (record { bytes = K.written; faults = K.faults; before = sink.old; after = sink.new })
        result }
{
    match opened::<R, G>(alloc, seed) {
        Ok((scenario, room)) => write_drill(seed, room, scenario.steps.items(), sink),
        Err(_) => Status::OutOfMemory,
    }
}
