//! The drill: the scenarios of some seeds, by the lines of their texts, and the summaries of worked examples.

use core_state::CoreState;
use cs_outside::{NoGate, PairGuard};
use cs_types::Room;
use memory_outside::MemSink;
use room_drill::{generate, summary};
use row_inputs::{
    FORCED_IDLE, FORK_AND_EXIT, LAST_TASK_STOLEN, STEAL, Script, joined, sink_of, source_of,
    words_of,
};
use row_runs::{played, run_over_trees};
use scenario_runner::{Status, drill};
use scenario_writer::scenario_text;
use std::process::Abort;
use std::sync::Wait;
use std::thread::Threads;

/// The lines of seed 1328 up to its 18th step, by which each event has come.
const EVERY_EVENT: &str = concat!(
    "coresched 1\n",
    "siblings 4\n",
    "limits 64 16 1048576\n",
    "task 1 1 1 0 dl:23000000 1000 1000 1000 1000 1000 1000 0 1 1\n",
    "task 2 2 2 1 rr:82 1000 1000 1000 1000 1000 1000 0 1 1\n",
    "task 3 3 3 2 rr:67 1000 1000 1000 1000 1000 1000 0 1 1\n",
    "task 4 4 4 3 fair:-11 1000 1000 1000 1000 1000 1000 0 1 1\n",
    "task 5 5 5 0 dl:50000000 1000 1000 1000 1000 1000 1000 0 1 1\n",
    "task 6 6 6 1 fifo:66 1000 1000 1000 1000 1000 1000 0 1 1\n",
    "task 7 7 7 2 rr:20 1000 1000 1000 1000 1000 1000 0 1 1\n",
    "task 8 8 8 3 fifo:60 1000 1000 1000 1000 1000 1000 0 1 1\n",
    "task 9 9 9 0 rr:34 1000 1000 1000 1000 1000 1000 0 1 1\n",
    "task 10 10 10 1 fifo:10 1000 1000 1000 1000 1000 1000 0 1 1\n",
    "task 11 11 11 2 fifo:64 1000 1000 1000 1000 1000 1000 0 1 1\n",
    "task 12 12 12 3 rr:77 1000 1000 1000 1000 1000 1000 0 1 1\n",
    "task 13 13 13 0 fifo:17 1000 1000 1000 1000 1000 1000 0 1 1\n",
    "task 14 14 14 1 dl:13000000 1000 1000 1000 1000 1000 1000 0 1 1\n",
    "task 15 15 15 2 dl:32000000 1000 1000 1000 1000 1000 1000 0 1 1\n",
    "task 16 16 16 3 fair:-10 1000 1000 1000 1000 1000 1000 0 1 1\n",
    "task 17 17 17 0 dl:21000000 1000 1000 1000 1000 1000 1000 0 1 1\n",
    "task 18 18 18 1 fair:11 1000 1000 1000 1000 1000 1000 0 1 1\n",
    "task 19 19 19 2 dl:35000000 1000 1000 1000 1000 1000 1000 0 1 1\n",
    "task 20 20 20 3 dl:41000000 1000 1000 1000 1000 1000 1000 0 1 1\n",
    "task 21 21 21 0 dl:8000000 1000 1000 1000 1000 1000 1000 0 1 1\n",
    "task 22 22 22 1 fair:-19 1000 1000 1000 1000 1000 1000 0 1 1\n",
    "task 23 23 23 2 dl:15000000 1000 1000 1000 1000 1000 1000 0 1 1\n",
    "task 24 24 24 3 rr:59 1000 1000 1000 1000 1000 1000 0 1 1\n",
    "step c0 offline 3\n",
    "step s3 tick\n",
    "step s1 turn\n",
    "step s2 turn\n",
    "step s3 turn\n",
    "step s0 block\n",
    "step c0 online 2\n",
    "step c0 prctl 23 1 2 0 0\n",
    "step c0 fork 23 process\n",
    "step s0 exit\n",
    "step c0 advance 3289883\n",
    "step s2 turn\n",
    "step s1 turn\n",
    "step c0 setsched 10 fifo:38\n",
    "step c0 wake 8\n",
    "step s2 resched\n",
    "step c0 fork 14 process\n",
    "step c0 prctl 2 2 22 0 0\n",
);

/// What is expected of the scenario of a seed.
struct Drawn {
    seed: u32,
    /// The first lines of its text.
    first: &'static str,
    /// The last lines of its text.
    last: &'static str,
    /// How many bytes its text has.
    bytes: usize,
}

/// Seeds at both ends, and two others.
const DRAWN: [Drawn; 4] = [
    Drawn {
        seed: 0,
        first: concat!(
            "coresched 1\n",
            "siblings 4\n",
            "limits 64 16 1048576\n",
            "task 1 1 1 0 fair:4 1000 1000 1000 1000 1000 1000 0 1 1\n",
            "task 2 2 2 1 rr:20 1000 1000 1000 1000 1000 1000 0 1 1\n",
        ),
        last: concat!("step c0 wake 20\n", "step c0 wake 20\n", "end\n"),
        bytes: 342_529,
    },
    Drawn {
        seed: 1,
        first: concat!(
            "coresched 1\n",
            "siblings 4\n",
            "limits 64 16 1048576\n",
            "task 1 1 1 0 dl:4000000 1000 1000 1000 1000 1000 1000 0 1 1\n",
            "task 2 2 2 1 fifo:49 1000 1000 1000 1000 1000 1000 0 1 1\n",
        ),
        last: concat!("step s2 tick\n", "step s0 resched\n", "end\n"),
        bytes: 342_989,
    },
    Drawn {
        seed: 1_328,
        first: EVERY_EVENT,
        last: concat!("step c0 prctl 5 1 17 0 0\n", "step c0 wake 10\n", "end\n"),
        bytes: 344_347,
    },
    Drawn {
        seed: 4_294_967_295,
        first: concat!(
            "coresched 1\n",
            "siblings 4\n",
            "limits 64 16 1048576\n",
            "task 1 1 1 0 fair:16 1000 1000 1000 1000 1000 1000 0 1 1\n",
            "task 2 2 2 1 fifo:96 1000 1000 1000 1000 1000 1000 0 1 1\n",
        ),
        last: concat!("step s1 turn\n", "step s0 tick\n", "end\n"),
        bytes: 343_010,
    },
];

/// Expects this scenario of its seed.
fn expect_drawn<R: AllocGlobal + Abort>(rt: &R, wanted: &Drawn) {
    let scenario = generate(rt.alloc(), wanted.seed).expect(rt, "room");
    assert!(rt; scenario.tasks.items().len() == 24 && scenario.steps.items().len() == 20_000);
    let mut sink = MemSink::of(rt.alloc(), wanted.bytes, 4096, Vec::new(rt.alloc())).expect(
        rt, "room",
    );
    scenario_text(&scenario, &mut sink).expect(rt, "no fault");
    let text = sink.bytes();
    assert!(rt; text.len() == wanted.bytes);
    assert!(rt;
        text.starts_with(wanted.first.as_bytes()) && text.ends_with(wanted.last.as_bytes())
    );
}

#[test]
fn scenarios_are_drawn(rt: HostRuntime) {
    for wanted in &DRAWN {
        expect_drawn(&rt, wanted);
    }
}

/// Expects that the summary of the machine has these lines, after the entries of the final drain, and then the report.
fn expect_summary<R: AllocGlobal + Abort, M: Room>(rt: &R, mut room: M, lines: &str, report: &str) {
    let siblings = u64::from(room.siblings());
    assert!(rt; siblings * siblings <= room.spare());
    room.drain();
    let mut sink = sink_of(rt.alloc(), 7, &[]).expect(rt, "room");
    summary(7, &room, &mut sink).expect(rt, "a sink that takes all");
    let wanted = joined(rt.alloc(), &[lines, report]).expect(rt, "room");
    assert!(rt; sink.bytes() == wanted.as_slice());
}

/// Examples, each with the lines before its report.
const SUMMARIES: [(Script, &str); 4] = [
    (
        FORCED_IDLE,
        "drill 7 steps 20000 entries 10\npicks 2 0 0\nsteals 0 1\n",
    ),
    (
        STEAL,
        "drill 7 steps 20000 entries 23\npicks 4 4 0\nsteals 1 0\n",
    ),
    (
        LAST_TASK_STOLEN,
        "drill 7 steps 20000 entries 12\npicks 4 1 0\nsteals 1 0\n",
    ),
    (
        FORK_AND_EXIT,
        "drill 7 steps 20000 entries 12\npicks 4 0 1\nsteals 0 0\n",
    ),
];

#[test]
fn summaries_of_a_machine(rt: HostRuntime) {
    for (script, lines) in &SUMMARIES {
        expect_summary(
            &rt,
            played(rt.alloc(), script).expect(&rt, "a machine"),
            lines,
            script.report,
        );
    }
}

/// Expects a part of the summary of the machine: the sink fails at its second line.
fn expect_cut_summary<R: AllocGlobal + Abort, M: Room>(rt: &R, room: M) {
    let mut sink = sink_of(rt.alloc(), 4096, &[2]).expect(rt, "room");
    assert!(rt; summary(4_294_967_295, &room, &mut sink).is_err());
    assert!(rt; sink.bytes() == b"drill 4294967295 steps 20000 entries 10\n".as_slice());
}

#[test]
fn summary_that_is_cut(rt: HostRuntime) {
    expect_cut_summary(
        &rt,
        played(rt.alloc(), &FORCED_IDLE).expect(&rt, "a machine"),
    );
}

/// The first lines that the drill of seed 1 prints.
const FIRST_LINES: &str = "drill 1 steps 20000 entries 20000
picks 306 20 1174
steals 2 11
report
clock 2418059194
";

/// What `run` writes with the words `drill` and this seed, to a sink that fails at this call. It reads nothing, and
/// ends with this status.
fn drilled<R: Threads + Wait + AllocGlobal + Sync + Abort>(
    rt: &R,
    seed: &str,
    fails: u64,
    wanted: Status,
) -> MemSink {
    let words = words_of(rt.alloc(), &["drill", seed]).expect(rt, "room");
    let guards = Vec::<PairGuard>::new(rt.alloc());
    let mut source = source_of(rt.alloc(), b"coresched 1\n", 4096, &[]).expect(rt, "room");
    let fails = vec![in rt.alloc(); fails].expect(rt, "room");
    let mut sink = MemSink::of(rt.alloc(), 16_384, 4096, fails).expect(rt, "room");
    assert!(rt; run_over_trees(rt, &words, &mut source, &mut sink, &NoGate, guards) == wanted);
    assert!(rt; source.calls() == 0);
    sink
}

// The same at each run, and by the call of the command alone.
#[test]
fn command_drill(rt: HostRuntime) {
    let first = drilled(&rt, "1", 0, Status::Done);
    assert!(rt;
        first.bytes().starts_with(FIRST_LINES.as_bytes()) && first.bytes().ends_with(b"done\n")
    );
    let again = drilled(&rt, "1", 0, Status::Done);
    assert!(rt; again.bytes() == first.bytes());
    let words = words_of(rt.alloc(), &["drill", "1"]).expect(&rt, "room");
    let mut sink = MemSink::of(rt.alloc(), 16_384, 7, Vec::new(rt.alloc())).expect(&rt, "room");
    let status = drill::<CoreState<PairGuard>, MemSink, PairGuard>(rt.alloc(), &words, &mut sink);
    assert!(rt; status == Status::Done);
    assert!(rt; sink.bytes() == first.bytes());
    let last = drilled(&rt, "4294967295", 0, Status::Done);
    assert!(rt;
        last.bytes()
            .starts_with(b"drill 4294967295 steps 20000 entries ")
    );
    let cut = drilled(&rt, "1", 3, Status::WriteFault);
    assert!(rt;
        cut.bytes() == b"drill 1 steps 20000 entries 20000\npicks 306 20 1174\n".as_slice()
    );
}
