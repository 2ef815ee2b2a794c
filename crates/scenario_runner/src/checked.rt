//! The command `check`, once its words are read.

ghost use Rattle.std.specs.Prelude.{◌-◌, ◌^◌, ◌<◌, ◌≤◌, length, map, MatchResult};
ghost use Rattle.ptrace_check.specs.Guards.{AreFresh};
ghost use Rattle.scenario_input.specs.Input.{judged_limit};
ghost use Rattle.scenario_runner.specs.Checks.{IsJudged, IsUnjudged};
ghost use Rattle.scenario_runner.specs.Ends.{EndsAsCheck};
ghost use Rattle.scenario_runner.specs.Written.{IsWritten};

use cs_outside::{Guard, Sink, Source, write_all};
use cs_types::FromScenario;
use ptrace_check::Guards;
use scenario_input::{JUDGED_BYTES, Status, Stop, read_to_end, taught};
use scenario_text::read;
use std::alloc::Global;
use trace_check::{judge, line_count, split_input, verdict_output};

/// What is written of the run behind the scenario that the input begins with: the verdict on it, which a machine of one
/// kind finds, with the guards that the scenario teaches. At most 16 guards are handed in, which refuse nobody yet and
/// were never asked. An `Err` says why it is not judged.
fn judged<C: FromScenario<Guards<G>>, G: Guard>(
    alloc: Global,
    input: &[u8],
    guards: Vec<G>,
    json: bool,
) -> Result<Vec<u8>, Stop>
    requires fresh { AreFresh G.pairs G.asked guards.items }
    requires few { length input.now ≤ judged_limit }
    ensures { MatchResult result
        (λ text. IsJudged json (map G.cap guards.items) input.now text.items)
        (IsUnjudged (map G.cap guards.items) input.now) }
{
    let (text, run) = split_input(input);
    let scenario = read(alloc, text)?;
    let guards = taught(alloc, guards, scenario.teaches.items())?;
    let first = line_count(text) as u32 + 1;
    let verdict = judge::<C, Guards<G>>(alloc, &scenario, guards, first, run)?;
    let output = verdict_output(alloc, &verdict, json)?;
    Ok(output)
}

/// Writes a text that was made, and says how that ended.
fn write_text<K: Sink>(text: &[u8], sink: &mut K) -> Status
    ensures { IsWritten
        (record { bytes = K.written; faults = K.faults; before = sink.old; after = sink.new })
        text.now result }
{
    Status::of_writing(write_all(sink, text))
}

/// Reads a scenario and a run behind it to their end, judges the run, and writes the verdict, as JSON or as lines.
pub(crate) fn checked<C: FromScenario<Guards<G>>, S: Source, K: Sink, G: Guard>(
    alloc: Global,
    source: &mut S,
    sink: &mut K,
    guards: Vec<G>,
    json: bool,
) -> Status
    requires source { S.faults source.old < 2 ^ 64 - 1 }
    requires sink { K.faults sink.old < 2 ^ 64 - 1 }
    requires fresh { AreFresh G.pairs G.asked guards.items }

    ensures { EndsAsCheck json (map G.cap guards.items)
        (record { bytes = S.left; faults = S.faults; before = source.old; after = source.new })
        (record { bytes = K.written; faults = K.faults; before = sink.old; after = sink.new })
        result }
{
    let input = match read_to_end(alloc, source, JUDGED_BYTES) {
        Ok(input) => input,
        Err(stop) => return Status::from(stop),
    };
    match judged::<C, G>(alloc, &input, guards, json) {
        Ok(text) => write_text(&text, sink),
        Err(stop) => Status::from(stop),
    }
}
