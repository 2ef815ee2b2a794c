//! A host as one would find it: two guests of four tasks each, each guest under one cookie, and a housekeeping task,
//! over 220 rounds in which each sibling ticks and takes its turn.

ghost use Rattle.std.specs.Prelude.{◌≡◌};

use crate::races::parts_of;
use cs_outside::{NoGate, PairGuard};
use memory_outside::{MemSink, MemSource};
use row_inputs::{next_after, source_of, words_of};
use row_runs::run_over_trees;
use scenario_runner::Status;
use std::alloc::{AllocError, Global};
use std::process::Abort;
use std::sync::Wait;
use std::thread::Threads;

/// The host, and its steps before the first round.
const HEAD: &str = concat!(
    "coresched 1\nsiblings 4\nlimits 64 8 1048576\n",
    "task 10 10 10 0 fair:0 1000 1000 1000 1000 1000 1000 0 1 1\n",
    "task 11 10 10 1 fair:0 1000 1000 1000 1000 1000 1000 0 1 1\n",
    "task 12 10 10 2 fair:0 1000 1000 1000 1000 1000 1000 0 1 1\n",
    "task 13 10 10 3 fair:0 1000 1000 1000 1000 1000 1000 0 1 1\n",
    "task 20 20 20 0 fair:0 1000 1000 1000 1000 1000 1000 0 1 1\n",
    "task 21 20 20 1 fair:0 1000 1000 1000 1000 1000 1000 0 1 1\n",
    "task 22 20 20 2 fair:0 1000 1000 1000 1000 1000 1000 0 1 1\n",
    "task 23 20 20 3 fair:0 1000 1000 1000 1000 1000 1000 0 1 1\n",
    "task 30 30 30 0 fifo:50 1000 1000 1000 1000 1000 1000 0 1 1\n",
    "step c0 prctl 10 1 0 1 0\nstep c0 prctl 20 1 0 1 0\n",
    "step c0 wake 10\nstep c0 wake 11\nstep c0 wake 12\nstep c0 wake 13\n",
    "step c0 wake 20\nstep c0 wake 21\nstep c0 wake 22\nstep c0 wake 23\n",
    "step c0 wake 30\nstep s0 turn\nstep s0 block\n",
);

/// The caller's lines up to the end of the first round, in whatever order the siblings come between.
const CALLS: [&str; 12] = [
    "c0 prctl 10 1 0 1 0: 0\n",
    "c0 prctl 20 1 0 1 0: 0\n",
    "c0 wake 10: Woken 0\n",
    "c0 wake 11: Woken 1\n",
    "c0 wake 12: Woken 2\n",
    "c0 wake 13: Woken 3\n",
    "c0 wake 20: Woken 0\n",
    "c0 wake 21: Woken 1\n",
    "c0 wake 22: Woken 2\n",
    "c0 wake 23: Woken 3\n",
    "c0 wake 30: Woken 0\n",
    "c0 advance 1000000: Now 1000000\n",
];

/// The first lines of sibling 0 after the wakes.
const FIRST_TURNS: [&str; 2] = [
    "s0 turn: Plain 30 core 0 forced 0\n",
    "s0 block: Slept 30 Selected 10 core 1 forced 0\n",
];

/// A millisecond, in which each sibling ticks and takes its turn.
const ROUND: &str = concat!(
    "step c0 advance 1000000\n",
    "step s0 tick\nstep s1 tick\nstep s2 tick\nstep s3 tick\n",
    "step s0 turn\nstep s1 turn\nstep s2 turn\nstep s3 turn\n",
);

/// The text of the host, of 1993 steps.
fn text_of_host(alloc: Global) -> Result<Vec<u8>, AllocError> {
    let mut text = HEAD.as_bytes().to_vec(alloc)?;
    for _ in 0..220 {
        text.extend_from_slice(ROUND.as_bytes())?;
    }
    text.extend_from_slice(b"end\n")?;
    Ok(text)
}

/// Expects the caller's first lines, these of sibling 0, and the first of the report.
fn expect_host(rt: &impl Abort, sink: &MemSink, turns: &[&str]) {
    let (entries, report) = parts_of(rt, sink);
    assert!(rt; next_after(entries, "c0 ", &CALLS).is_some());
    assert!(rt; next_after(entries, "s0 ", turns).is_some());
    assert!(rt; report.starts_with("clock 220000000\n"));
}

/// Expects that the command of this word is done over these devices.
fn expect_done<R: Threads + Wait + AllocGlobal + Sync + Abort>(
    rt: &R,
    word: &str,
    source: &mut MemSource,
    sink: &mut MemSink,
)
    requires source { source.old.faults ≡ 0 }
    requires sink { sink.old.faults ≡ 0 }
{
    let words = words_of(rt.alloc(), &[word]).expect(rt, "room");
    let guards = Vec::<PairGuard>::new(rt.alloc());
    assert!(rt; run_over_trees(rt, &words, source, sink, &NoGate, guards) == Status::Done);
}

/// The sink of the command of this word, after the host's text.
fn sink_after<R: Threads + Wait + AllocGlobal + Sync + Abort>(rt: &R, word: &str) -> MemSink {
    let text = text_of_host(rt.alloc()).expect(rt, "room");
    let mut source = source_of(rt.alloc(), &text, 65_536, &[]).expect(rt, "room");
    let mut sink = MemSink::of(rt.alloc(), 131_072, 131_072, Vec::new(rt.alloc())).expect(
        rt, "room",
    );
    expect_done(rt, word, &mut source, &mut sink);
    sink
}

#[test]
fn host_of_two_guests(rt: HostRuntime) {
    let sink = sink_after(&rt, "replay");
    expect_host(&rt, &sink, &FIRST_TURNS);
}

// Again and again, since two races may differ.
#[test]
fn race_of_two_guests(rt: HostRuntime) {
    for _ in 0..2 {
        let sink = sink_after(&rt, "race");
        expect_host(&rt, &sink, &[]);
    }
}
