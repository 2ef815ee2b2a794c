//! The commands that show a run over time, once their words are read: what they write of its segments.

ghost use Rattle.std.specs.Prelude.{◌≡◌, ◌+◌, ◌-◌, ◌*◌, ◌^◌, ◌<◌, ◌≤◌, [], length, map, All};
ghost use Rattle.cs_types.specs.Scenario.{IsEvent};
ghost use Rattle.ptrace_check.specs.Guards.{AreFresh};
ghost use Rattle.segment_text.specs.Table.{segments_text};
ghost use Rattle.segment_text.specs.Json.{segments_json_text};
ghost use Rattle.scenario_runner.specs.Written.{IsWritten};
ghost use Rattle.view_runner.specs.Written.{IsShown, IsFormWritten, MayWriteForm, EndsInForm};

use cs_outside::{Guard, Sink, Source};
use cs_types::{FromScenario, Room, Step};
use ptrace_check::Guards;
use run_picture::picture;
use run_segments::{RunSegments, recorded_run};
use scenario_input::Status;
use scenario_runner::opened;
use segment_text::{segments, segments_json};
use std::alloc::Global;

/// In which form a run is shown over time.
#[derive(Clone, Copy)]
pub(crate) enum Form {
    /// A table with a line for each segment.
    Table,
    /// A line of JSON for each segment.
    Json,
    /// A picture.
    Picture,
}

/// Writes the table, and says how that ended.
fn write_table<K: Sink>(run: &RunSegments, sink: &mut K) -> Status
    ensures { IsWritten
        (record { bytes = K.written; faults = K.faults; before = sink.old; after = sink.new })
        (segments_text run.now) result }
{
    Status::of_writing(segments(run, sink))
}

/// Writes the picture, and says how that ended.
fn write_picture<K: Sink>(run: &RunSegments, sink: &mut K) -> Status
    ensures { IsShown
        (record { bytes = K.written; faults = K.faults; before = sink.old; after = sink.new })
        result }
{
    Status::of_writing(picture(run, sink))
}

/// Writes the lines of JSON, and says how that ended.
fn write_json<K: Sink>(run: &RunSegments, sink: &mut K) -> Status
    ensures { IsWritten
        (record { bytes = K.written; faults = K.faults; before = sink.old; after = sink.new })
        (segments_json_text run.now) result }
{
    Status::of_writing(segments_json(run, sink))
}

/// Writes what a run shows over time, in this form, and says how that ended.
fn write_form<K: Sink>(form: Form, run: &RunSegments, sink: &mut K) -> Status
    ensures { IsFormWritten form run.now
        (record { bytes = K.written; faults = K.faults; before = sink.old; after = sink.new })
        result }
{
    match form {
        Form::Table => write_table(run, sink),
        Form::Json => write_json(run, sink),
        Form::Picture => write_picture(run, sink),
    }
}

/// Makes the steps, in their order, in a room that has made none, and then the entries of the end, and writes what the run
/// shows over time.
fn write_shown<R: Room, K: Sink>(
    alloc: Global,
    form: Form,
    mut room: R,
    steps: &[Step],
    sink: &mut K,
) -> Status
    requires empty { R.history room ≡ [] }
    requires spare { length steps.now
        + (R.opening room).scenario.siblings * (R.opening room).scenario.siblings
        ≤ R.spare room }
    requires events { All (λ step. IsEvent (R.opening room).scenario.siblings step.event)
        steps.now }

    ensures { MayWriteForm form (R.opening room) steps.now
        (record { bytes = K.written; faults = K.faults; before = sink.old; after = sink.new })
        result }
{
    match recorded_run(alloc, &mut room, steps) {
        Ok(run) => write_form(form, &run, sink),
        Err(_) => Status::OutOfMemory,
    }
}

/// Reads a scenario to its end, makes its steps in the order of their lines and then the entries of the end, and
/// writes what the run shows over time.
pub(crate) fn shown<R: FromScenario<Guards<G>>, S: Source, K: Sink, G: Guard>(
    alloc: Global,
    form: Form,
    source: &mut S,
    sink: &mut K,
    guards: Vec<G>,
) -> Status
    requires source { S.faults source.old < 2 ^ 64 - 1 }
    requires sink { K.faults sink.old < 2 ^ 64 - 1 }
    requires fresh { AreFresh G.pairs G.asked guards.items }

    ensures { EndsInForm form (map G.cap guards.items)
        (record { bytes = S.left; faults = S.faults; before = source.old; after = source.new })
        (record { bytes = K.written; faults = K.faults; before = sink.old; after = sink.new })
        result }
{
    match opened::<R, S, G>(alloc, source, guards) {
        Ok((scenario, room)) => write_shown(alloc, form, room, scenario.steps.items(), sink),
        Err(stop) => Status::from(stop),
    }
}
