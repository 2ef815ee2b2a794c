//! The command that explains an input, once its words are read.

ghost use Rattle.std.specs.Prelude.{◌≡◌, ◌≢◌, ◌⊎◌, ◌↔◌, ◌+◌, ◌-◌, ◌^◌, ◌<◌, ◌≤◌, length, map, Err, Some, None, IfOk, IfSome};
ghost use Rattle.cs_outside.specs.Device.{Rose};
ghost use Rattle.ptrace_check.specs.Guards.{AreFresh};
ghost use Rattle.scenario_text.specs.Faults.{lines_in, IsFirstBad};
ghost use Rattle.scenario_input.specs.Input.{Reads, IsBad, input_limit, count_read};
ghost use Rattle.scenario_input.specs.Stop.{status_of};
ghost use Rattle.scenario_input.specs.Teaching.{first_bad};
ghost use Rattle.fault_text.specs.Counts.{counts_text};
ghost use Rattle.scenario_runner.specs.Ends.{IsBadGuard};
ghost use Rattle.scenario_runner.specs.Written.{IsWritten};
ghost use Rattle.view_runner.specs.Ends.{EndsAsExplained};
ghost use Rattle.view_runner.specs.Written.{Says};

use cs_outside::{Guard, Sink, Source, write_all};
use cs_types::Scenario;
use fault_text::{counts_line, stop_explained};
use scenario_input::{Status, Stop, read_and_keep, taught};
use std::alloc::Global;

/// The scenario that the input spells, whose teach lines can all be carried out with these guards.
/// The bytes of the input are kept. At an `Err` it is told why the input is not played.
fn taken<S: Source, G: Guard>(
    alloc: Global,
    source: &mut S,
    guards: Vec<G>,
    kept: &mut Vec<u8>,
) -> Result<Scenario, Stop>
    requires fresh { AreFresh G.pairs G.asked guards.items }

    ensures reads { IfOk result
        (λ scenario. Reads scenario (S.left source.old) (S.left source.new)) }
    ensures taught { IfOk result
        (λ scenario. first_bad (map G.cap guards.items) scenario.teaches ≡ None) }

    ensures too_long { IfSome (S.left source.old) (λ _.
        (result ≡ Err Stop.TooLong)
        ↔ (input_limit < count_read (S.left source.old) (S.left source.new))) }
    ensures most { IfSome (S.left source.old) (λ _.
        count_read (S.left source.old) (S.left source.new) ≤ input_limit + 1) }
    ensures bad { (line : _) (kind : _) → result ≡ Err (Stop.BadScenario line kind) →
        IsBad line kind (S.left source.old) (S.left source.new) }
    ensures first { (bytes : _) (line : _) (kind : _) →
        S.left source.old ≡ Some bytes → length bytes ≤ input_limit →
        IsFirstBad (lines_in bytes) line kind → result ≢ Err Stop.ReadFault →
        (result ≡ Err (Stop.BadScenario line kind)) ⊎ (result ≡ Err Stop.OutOfMemory) }
    ensures bad_guard { (line : _) (kind : _) → result ≡ Err (Stop.BadGuard line kind) →
        IsBadGuard (map G.cap guards.items) line kind (S.left source.old) (S.left source.new) }
    ensures faultless { result ≢ Err Stop.ReadFault → S.faults source.new ≡ S.faults source.old }
    ensures failed { result ≡ Err Stop.ReadFault →
        Rose (S.faults source.old) (S.faults source.new) }
    ensures counted { S.faults source.old ≤ S.faults source.new }
{
    let scenario = read_and_keep(alloc, source, kept)?;
    taught(alloc, guards, scenario.teaches.items())?;
    Ok(scenario)
}

/// Writes what the scenario has, and says how that ended.
fn write_counts<K: Sink>(scenario: &Scenario, sink: &mut K) -> Status
    ensures { IsWritten
        (record { bytes = K.written; faults = K.faults; before = sink.old; after = sink.new })
        (counts_text scenario.now) result }
{
    Status::of_writing(write_all(sink, counts_line(scenario).as_bytes()))
}

/// Writes why the text is not played, where so many guards were handed in, and says how that ended.
fn write_explanation<K: Sink>(text: &[u8], stop: Stop, guards: usize, sink: &mut K) -> Status
    ensures { Says
        (record { bytes = K.written; faults = K.faults; before = sink.old; after = sink.new })
        (status_of stop) result }
{
    let status = Status::from(stop);
    let Some(said) = stop_explained(text, stop, guards) else {
        return status;
    };
    match said.write(sink) {
        Ok(()) => status,
        Err(_) => Status::WriteFault,
    }
}

/// Reads the input to its end, and writes what the scenario has that it spells, or why it is not
/// played.
pub(crate) fn explained<S: Source, K: Sink, G: Guard>(
    alloc: Global,
    source: &mut S,
    sink: &mut K,
    guards: Vec<G>,
) -> Status
    requires source { S.faults source.old < 2 ^ 64 - 1 }
    requires sink { K.faults sink.old < 2 ^ 64 - 1 }
    requires fresh { AreFresh G.pairs G.asked guards.items }

    ensures { EndsAsExplained (map G.cap guards.items)
        (record { bytes = S.left; faults = S.faults; before = source.old; after = source.new })
        (record { bytes = K.written; faults = K.faults; before = sink.old; after = sink.new })
        result }
{
    let count = guards.len();
    let mut text = Vec::new(alloc);
    match taken(alloc, source, guards, &mut text) {
        Ok(scenario) => write_counts(&scenario, sink),
        Err(stop) => write_explanation(&text, stop, count, sink),
    }
}
