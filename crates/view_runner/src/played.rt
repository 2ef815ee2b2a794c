//! The command that tells the summary of a run, once its words are read.

ghost use Rattle.std.specs.Prelude.{◌≡◌, ◌+◌, ◌-◌, ◌*◌, ◌^◌, ◌<◌, ◌≤◌, [], length, map, All};
ghost use Rattle.cs_types.specs.Scenario.{IsEvent};
ghost use Rattle.ptrace_check.specs.Guards.{AreFresh};
ghost use Rattle.times_report.specs.Summary.{summary_text};
ghost use Rattle.scenario_runner.specs.Written.{IsWritten};
ghost use Rattle.view_runner.specs.Written.{IsShown, IsTellingOf, MayTell, EndsTelling};

use cs_outside::{Guard, Sink, Source};
use cs_types::{FromScenario, Room, Step};
use ptrace_check::Guards;
use run_summary::{RunSummary, summarized_run};
use scenario_input::Status;
use scenario_runner::opened;
use std::alloc::Global;
use summary_table::table;
use times_report::summary;

/// In which form the summary is told.
#[derive(Clone, Copy)]
pub(crate) enum SummaryForm {
    /// A line for each thing, for scripts.
    Lines,
    /// A table, for a person.
    Table,
}

/// Writes the table of the summary, and says how that ended.
fn write_table<K: Sink>(told: &RunSummary, sink: &mut K) -> Status
    ensures { IsShown
        (record { bytes = K.written; faults = K.faults; before = sink.old; after = sink.new })
        result }
{
    Status::of_writing(table(told, sink))
}

/// Writes the summary in this form, and says how that ended.
fn write_told<K: Sink>(form: SummaryForm, told: &RunSummary, sink: &mut K) -> Status
    ensures { IsTellingOf form told.now
        (record { bytes = K.written; faults = K.faults; before = sink.old; after = sink.new })
        result }
{
    match form {
        SummaryForm::Lines => write_summary(told, sink),
        SummaryForm::Table => write_table(told, sink),
    }
}

/// Writes the summary, line by line, and says how that ended.
fn write_summary<K: Sink>(told: &RunSummary, sink: &mut K) -> Status
    ensures { IsWritten
        (record { bytes = K.written; faults = K.faults; before = sink.old; after = sink.new })
        (summary_text told.now) result }
{
    Status::of_writing(summary(told, sink))
}

/// Makes the steps, in their order, in a room that has made none, and then the entries of the end, and writes the summary
/// of that run. Without memory for it nothing is written.
fn write_run<R: Room, K: Sink>(
    alloc: Global,
    form: SummaryForm,
    mut room: R,
    steps: &[Step],
    sink: &mut K,
) -> Status
    requires empty { R.history room ≡ [] }
    requires spare { length steps.now
        + (R.opening room).scenario.siblings * (R.opening room).scenario.siblings
        ≤ R.spare room }
    requires few { length steps.now < 2 ^ 25 }
    requires events { All (λ step. IsEvent (R.opening room).scenario.siblings step.event)
        steps.now }

    ensures { MayTell form (R.opening room) steps.now
        (record { bytes = K.written; faults = K.faults; before = sink.old; after = sink.new })
        result }
{
    match summarized_run(alloc, &mut room, steps) {
        Ok(told) => write_told(form, &told, sink),
        Err(_) => Status::OutOfMemory,
    }
}

/// Reads a scenario to its end, makes its steps in the order of their lines and then the entries of the end, and
/// writes the summary of that run.
pub(crate) fn summarized<R: FromScenario<Guards<G>>, S: Source, K: Sink, G: Guard>(
    alloc: Global,
    form: SummaryForm,
    source: &mut S,
    sink: &mut K,
    guards: Vec<G>,
) -> Status
    requires source { S.faults source.old < 2 ^ 64 - 1 }
    requires sink { K.faults sink.old < 2 ^ 64 - 1 }
    requires fresh { AreFresh G.pairs G.asked guards.items }

    ensures { EndsTelling form (map G.cap guards.items)
        (record { bytes = S.left; faults = S.faults; before = source.old; after = source.new })
        (record { bytes = K.written; faults = K.faults; before = sink.old; after = sink.new })
        result }
{
    match opened::<R, S, G>(alloc, source, guards) {
        Ok((scenario, room)) => write_run(alloc, form, room, scenario.steps.items(), sink),
        Err(stop) => Status::from(stop),
    }
}
