//! The command `upgrade`, once its words are read.

ghost use Rattle.std.specs.Prelude.{◌-◌, ◌^◌, ◌<◌};
ghost use Rattle.cs_types.specs.Scenario.{IsValid};
ghost use Rattle.scenario_text.specs.Text.{scenario_text};
ghost use Rattle.scenario_text.specs.Upgrade.{upgraded};
ghost use Rattle.scenario_runner.specs.Ends.{EndsAsUpgrade};
ghost use Rattle.scenario_runner.specs.Written.{IsWritten};

use cs_outside::{Sink, Source};
use cs_types::Scenario;
use scenario_input::{Status, read_scenario};
use scenario_writer::{scenario_text, upgrade};
use std::alloc::Global;

/// Writes the text that a valid scenario has in version 2.
fn write_upgraded<K: Sink>(mut scenario: Scenario, sink: &mut K) -> Status
    requires { IsValid scenario }
    ensures { IsWritten
        (record { bytes = K.written; faults = K.faults; before = sink.old; after = sink.new })
        (scenario_text (upgraded scenario)) result }
{
    upgrade(&mut scenario);
    Status::of_writing(scenario_text(&scenario, sink))
}

/// Reads a scenario of either version to its end, and writes its text in version 2.
pub(crate) fn upgraded<S: Source, K: Sink>(alloc: Global, source: &mut S, sink: &mut K) -> Status
    requires source { S.faults source.old < 2 ^ 64 - 1 }
    requires sink { K.faults sink.old < 2 ^ 64 - 1 }

    ensures { EndsAsUpgrade
        (record { bytes = S.left; faults = S.faults; before = source.old; after = source.new })
        (record { bytes = K.written; faults = K.faults; before = sink.old; after = sink.new })
        result }
{
    match read_scenario(alloc, source) {
        Ok(scenario) => write_upgraded(scenario, sink),
        Err(stop) => Status::from(stop),
    }
}
