//! The commands that play an input, once their words are read.

ghost use Rattle.std.specs.Prelude.{◌≡◌, ◌≢◌, ◌⊎◌, ◌↔◌, ◌+◌, ◌-◌, ◌*◌, ◌^◌, ◌<◌, ◌≤◌, [], length, map, All, Err, None, IfOk, IfSome};
ghost use Rattle.cs_types.specs.Scenario.{IsEvent, IsPlayable};
ghost use Rattle.cs_outside.specs.Device.{Rose};
ghost use Rattle.ptrace_check.specs.Guards.{AreFresh};
ghost use Rattle.scenario_text.specs.Faults.{lines_in, IsFirstBad};
ghost use Rattle.scenario_input.specs.Input.{Reads, IsBad, input_limit, count_read};
ghost use Rattle.scenario_input.specs.Teaching.{first_bad};
ghost use Rattle.scenario_runner.specs.Outcomes.{opened_with};
ghost use Rattle.scenario_runner.specs.Ends.{IsBadGuard, EndsAsReplay, EndsAsRace};
ghost use Rattle.scenario_runner.specs.Written.{WritesOutput, WritesReplay, MayWriteRace};

use cs_outside::{Gate, Guard, Sink, Source};
use cs_types::{FromScenario, Room, Scenario, Step};
use ptrace_check::Guards;
use room_report::output;
use scenario_input::{Status, Stop, play, read_scenario, taught};
use std::alloc::Global;
use std::sync::Wait;
use std::thread::Threads;

/// The scenario that the input spells, and the room of it before its first step, in a machine of one kind, with the
/// guards that it teaches. At most 16 guards are handed in, which refuse nobody yet and were never asked. An `Err` says
/// why the input is not played.
pub fn opened<R: FromScenario<Guards<G>>, S: Source, G: Guard>(
    alloc: Global,
    source: &mut S,
    guards: Vec<G>,
) -> Result<(Scenario, R), Stop>
    requires fresh { AreFresh G.pairs G.asked guards.items }

    ensures reads { IfOk result (λ opened. Reads opened.0 (S.left source.old) (S.left source.new)) }
    ensures taught { IfOk result
        (λ opened. first_bad (map G.cap guards.items) opened.0.teaches ≡ None) }
    ensures opening { IfOk result
        (λ opened. R.opening opened.1 ≡ opened_with (map G.cap guards.items) opened.0) }
    ensures empty { IfOk result (λ opened. R.history opened.1 ≡ []) }
    ensures spare { IfOk result (λ opened.
        R.spare opened.1 ≡ length opened.0.steps + opened.0.siblings * opened.0.siblings) }

    ensures too_long { IfSome (S.left source.old) (λ _.
        (result ≡ Err Stop.TooLong)
        ↔ (input_limit < count_read (S.left source.old) (S.left source.new))) }
    ensures most { IfSome (S.left source.old) (λ _.
        count_read (S.left source.old) (S.left source.new) ≤ input_limit + 1) }
    ensures bad { (line : _) (kind : _) → result ≡ Err (Stop.BadScenario line kind) →
        IsBad line kind (S.left source.old) (S.left source.new) }
    ensures first { (bytes : _) (line : _) (kind : _) →
        S.left source.old ≡ Some bytes → length bytes ≤ input_limit →
        IsFirstBad (lines_in bytes) line kind → result ≢ Err Stop.ReadFault →
        (result ≡ Err (Stop.BadScenario line kind)) ⊎ (result ≡ Err Stop.OutOfMemory) }
    ensures bad_guard { (line : _) (kind : _) → result ≡ Err (Stop.BadGuard line kind) →
        IsBadGuard (map G.cap guards.items) line kind (S.left source.old) (S.left source.new) }
    ensures faultless { result ≢ Err Stop.ReadFault → S.faults source.new ≡ S.faults source.old }
    ensures failed { result ≡ Err Stop.ReadFault →
        Rose (S.faults source.old) (S.faults source.new) }
    ensures counted { S.faults source.old ≤ S.faults source.new }
{
    let scenario = read_scenario(alloc, source)?;
    let guards = taught(alloc, guards, scenario.teaches.items())?;
    let room = R::from_scenario(alloc, &scenario, guards)?;
    Ok((scenario, room))
}

/// Writes the line of each entry and the report, and says how that ended.
fn write_output<R: Room, K: Sink>(room: &R, sink: &mut K) -> Status
    ensures { WritesOutput
        (record { bytes = K.written; faults = K.faults; before = sink.old; after = sink.new })
        (R.opening room.now) (R.history room.now) result }
{
    Status::of_writing(output(room, sink))
}

/// Makes the steps, in their order, in a room that has made none, and then the entries of the final drain, and writes
/// the line of each entry and the report.
fn write_replay<R: Room, K: Sink>(mut room: R, steps: &[Step], sink: &mut K) -> Status
    requires empty { R.history room ≡ [] }
    requires spare { length steps.now
        + (R.opening room).scenario.siblings * (R.opening room).scenario.siblings
        ≤ R.spare room }
    requires events { All
        (λ step. IsEvent (R.opening room).scenario.siblings step.event) steps.now }

    ensures { WritesReplay (R.opening room) steps.now
        (record { bytes = K.written; faults = K.faults; before = sink.old; after = sink.new })
        result }
{
    play(&mut room, steps);
    room.drain();
    write_output(&room, sink)
}

/// Reads a scenario to its end, makes its steps in the order of their lines and then the entries of the final drain,
/// and writes the line of each entry and the report.
pub(crate) fn replayed<R: FromScenario<Guards<G>>, S: Source, K: Sink, G: Guard>(
    alloc: Global,
    source: &mut S,
    sink: &mut K,
    guards: Vec<G>,
) -> Status
    requires source { S.faults source.old < 2 ^ 64 - 1 }
    requires sink { K.faults sink.old < 2 ^ 64 - 1 }
    requires fresh { AreFresh G.pairs G.asked guards.items }

    ensures { EndsAsReplay (map G.cap guards.items)
        (record { bytes = S.left; faults = S.faults; before = source.old; after = source.new })
        (record { bytes = K.written; faults = K.faults; before = sink.old; after = sink.new })
        result }
{
    match opened::<R, S, G>(alloc, source, guards) {
        Ok((scenario, room)) => write_replay(room, scenario.steps.items(), sink),
        Err(stop) => Status::from(stop),
    }
}

/// Plays the scenario in the room, each actor in a worker of its own that passes the gate before each of its turns,
/// makes the entries of the final drain, and writes what a replay writes. The scenario is the room's, which has made no
/// step.
fn write_race<R: Room + Send, T: Threads + Wait + AllocGlobal + Sync, K: Sink, P: Gate + Sync>(
    rt: &T,
    room: R,
    scenario: &Scenario,
    sink: &mut K,
    gate: &P,
) -> Status
    requires playable { IsPlayable scenario.now }
    requires scenario { (R.opening room).scenario ≡ scenario.now }
    requires empty { R.history room ≡ [] }
    requires spare { length scenario.now.steps + scenario.now.siblings * scenario.now.siblings
        ≤ R.spare room }

    ensures { MayWriteRace (R.opening room)
        (record { bytes = K.written; faults = K.faults; before = sink.old; after = sink.new })
        result }
{
    match sibling_workers::race(rt, room, scenario, gate) {
        Ok(raced) => write_output(&raced, sink),
        Err(_) => Status::OutOfMemory,
    }
}

/// Reads a scenario to its end, lets its actors make their scripts beside each other, each in a worker of its own that
/// passes the gate before each of its turns, makes the entries of the final drain, and writes what a replay writes. It
/// may wait for the room, and at the gate.
pub(crate) fn raced<
    R: FromScenario<Guards<G>> + Send,
    T: Threads + Wait + AllocGlobal + Sync,
    S: Source,
    K: Sink,
    P: Gate + Sync,
    G: Guard,
>(rt: &T, source: &mut S, sink: &mut K, gate: &P, guards: Vec<G>) -> Status
    requires source { S.faults source.old < 2 ^ 64 - 1 }
    requires sink { K.faults sink.old < 2 ^ 64 - 1 }
    requires fresh { AreFresh G.pairs G.asked guards.items }

    ensures { EndsAsRace (map G.cap guards.items)
        (record { bytes = S.left; faults = S.faults; before = source.old; after = source.new })
        (record { bytes = K.written; faults = K.faults; before = sink.old; after = sink.new })
        result }
{
    match opened::<R, S, G>(rt.alloc(), source, guards) {
        Ok((scenario, room)) => write_race(rt, room, &scenario, sink, gate),
        Err(stop) => Status::from(stop),
    }
}
