//! Both machines play each worked example, the scenarios with guards, and the scenario of a seed. They make
//! the same entries and show the same.

ghost use Rattle.std.specs.Prelude.{◌≡◌, ◌+◌, ◌*◌, [], length};
ghost use Rattle.cs_types.specs.Scenario.{IsPlayable};

use core_state::CoreState;
use cs_outside::PairGuard;
use cs_types::{CpuView, Pid, Room, Scenario};
use memory_outside::MemSink;
use plain_room::PlainRoom;
use room_drill::{generate, summary};
use room_report::output;
use row_inputs::{GROUP, OF_SELECTIONS, OF_TASKS, WORKED};
use scenario_input::{guards, taught};
use scenario_runner::play;
use scenario_text::read;
use std::process::Abort;

/// More bytes than a machine writes here.
const MOST_BYTES: usize = 2_097_152;

/// A sink that takes all.
fn wide_sink<R: AllocGlobal + Abort>(rt: &R) -> MemSink {
    MemSink::of(rt.alloc(), MOST_BYTES, 4096, Vec::new(rt.alloc())).expect(rt, "room")
}

/// What the machine writes now: the line of each entry, and its report.
fn output_of<R: AllocGlobal + Abort, M: Room>(rt: &R, room: &M) -> MemSink {
    let mut sink = wide_sink(rt);
    output(room, &mut sink).expect(rt, "a sink that takes all");
    sink
}

/// What is written of the machine now, as of a drill.
fn summary_of<R: AllocGlobal + Abort, M: Room>(rt: &R, room: &M) -> MemSink {
    let mut sink = wide_sink(rt);
    summary(1, room, &mut sink).expect(rt, "a sink that takes all");
    sink
}

/// What a machine shows of a sibling.
fn shown(view: CpuView) -> (bool, Pid, u64, bool) {
    (view.online, view.run, view.number, view.pending)
}

/// Expects that both machines have made the same entries and show the same.
fn expect_same<R: AllocGlobal + Abort, A: Room, B: Room>(rt: &R, one: &A, other: &B) {
    assert!(rt; output_of(rt, one).bytes() == output_of(rt, other).bytes());
    assert!(rt; summary_of(rt, one).bytes() == summary_of(rt, other).bytes());
    assert!(rt; one.spare() == other.spare() && one.siblings() == other.siblings());
    for cpu in 0..one.siblings() {
        assert!(rt; one.cpu(cpu).map(shown) == other.cpu(cpu).map(shown));
    }
}

/// Plays the scenario in both machines, and expects the same before the entries of the final drain and after them.
fn expect_same_runs<R: AllocGlobal + Abort, A: Room, B: Room>(
    rt: &R,
    scenario: &Scenario,
    mut one: A,
    mut other: B,
)
    requires playable { IsPlayable scenario.now }
    requires scenario_of_one { (A.opening one).scenario ≡ scenario.now }
    requires scenario_of_other { (B.opening other).scenario ≡ scenario.now }
    requires first_of_one { A.history one ≡ [] }
    requires first_of_other { B.history other ≡ [] }
    requires spare_of_one { A.spare one
        ≡ length scenario.now.steps + scenario.now.siblings * scenario.now.siblings }
    requires spare_of_other { B.spare other
        ≡ length scenario.now.steps + scenario.now.siblings * scenario.now.siblings }
{
    play(&mut one, scenario.steps.items());
    play(&mut other, scenario.steps.items());
    expect_same(rt, &one, &other);
    assert!(rt; one.drain() == other.drain());
    expect_same(rt, &one, &other);
}

/// Expects that both machines, each with four guards, play the scenario in the same way.
fn expect_agreement<R: AllocGlobal + Abort>(rt: &R, scenario: &Scenario)
    requires { IsPlayable scenario.now }
{
    let alloc = rt.alloc();
    let four = guards(rt).expect(rt, "room");
    let bench = taught(alloc, four, scenario.teaches.items())
        .ok()
        .expect(rt, "room");
    let plain = PlainRoom::<PairGuard>::start(alloc, scenario, bench).expect(rt, "room");
    let four = guards(rt).expect(rt, "room");
    let bench = taught(alloc, four, scenario.teaches.items())
        .ok()
        .expect(rt, "room");
    let fast = CoreState::<PairGuard>::start(alloc, scenario, bench).expect(rt, "room");
    expect_same_runs(rt, scenario, plain, fast);
}

/// Expects it of the scenario that the text spells.
fn expect_text_agreement<R: AllocGlobal + Abort>(rt: &R, text: &str) {
    let scenario = read(rt.alloc(), text.as_bytes()).expect(rt, "a scenario");
    expect_agreement(rt, &scenario);
}

#[test]
fn machines_agree_on_selections(rt: HostRuntime) {
    for example in &OF_SELECTIONS {
        expect_text_agreement(&rt, example.text);
    }
}

#[test]
fn machines_agree_on_tasks(rt: HostRuntime) {
    for example in &OF_TASKS {
        expect_text_agreement(&rt, example.text);
    }
}

#[test]
fn machines_agree_on_guards(rt: HostRuntime) {
    expect_text_agreement(&rt, WORKED);
    expect_text_agreement(&rt, GROUP);
}

#[test]
fn machines_agree_on_a_drill(rt: HostRuntime) {
    let scenario = generate(rt.alloc(), 1).expect(&rt, "room");
    expect_agreement(&rt, &scenario);
}
