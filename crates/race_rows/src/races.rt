//! Races. One actor alone makes what a replay makes. Two callers make each of their steps once, in some order.
//! Two siblings meet at a gate that neither passes alone, so a body that runs the actors one after another does
//! not get through it.

use cs_outside::{Gate, NoGate, PairGuard};
use cs_types::{Actor, Entry, Event, Reply, Room};
use memory_outside::MemSink;
use row_inputs::{next_after, sink_of, source_of, words_of};
use row_runs::{opened, run_over_trees};
use scenario_runner::Status;
use sibling_workers::race;
use std::process::Abort;
use std::sync::Wait;
use std::sync::atomic::{AtomicU64, Ordering};
use std::thread::Threads;
use std::{str, thread};

/// Two tasks, the first of the higher priority.
macro_rules! two_tasks {
    ($steps:literal) => {
        concat!(
            "coresched 1\nsiblings 2\nlimits 8 8 65536\n",
            "task 1 1 1 0 fifo:20 1000 1000 1000 1000 1000 1000 0 1 1\n",
            "task 2 2 2 0 fifo:10 1000 1000 1000 1000 1000 1000 0 1 1\n",
            $steps,
            "end\n"
        )
    };
}

const ONE_CALLER: &str = two_tasks!("step c0 wake 2\nstep c0 wake 1\nstep c0 wake 9\n");

const TWO_CALLERS: &str = two_tasks!("step c0 wake 1\nstep c0 wake 9\nstep c1 wake 2\n");

/// The lines of `ONE_CALLER`'s entries.
const ENTRIES: &str = "c0 wake 2: Woken 0
c0 wake 1: Woken 0
c0 wake 9: NoTask
end resched 0: Plain 1 core 0 forced 0
";

/// The report of both, in whatever order the tasks are woken.
const REPORT: &str = "clock 0
numbers 3 0
core 0 forced 0 occupation 0
intervals 0
cpu 0 online runs 1 number 0
cpu 1 online runs idle number 0
task 1 cpu 0 queued cookie 0 forced 0 vtime 0
task 2 cpu 0 queued cookie 0 forced 0 vtime 0
done
";

/// The sink of a race of this text, through this gate.
fn raced<R: Threads + Wait + AllocGlobal + Sync + Abort, G: Gate + Sync>(
    rt: &R,
    text: &str,
    gate: &G,
) -> MemSink {
    let mut source = source_of(rt.alloc(), text.as_bytes(), 4096, &[]).expect(rt, "room");
    let mut sink = sink_of(rt.alloc(), 4096, &[]).expect(rt, "room");
    let words = words_of(rt.alloc(), &["race"]).expect(rt, "room");
    let guards = Vec::<PairGuard>::new(rt.alloc());
    assert!(rt; run_over_trees(rt, &words, &mut source, &mut sink, gate, guards) == Status::Done);
    sink
}

/// The lines of the entries and of the report that the sink has.
pub fn parts_of<'a>(rt: &impl Abort, sink: &'a MemSink) -> (&'a str, &'a str) {
    let output = str::from_utf8(sink.bytes()).expect(rt, "a text");
    output.split_once("report\n").expect(rt, "a report")
}

#[test]
fn race_of_one_caller(rt: HostRuntime) {
    let sink = raced(&rt, ONE_CALLER, &NoGate);
    assert!(rt; parts_of(&rt, &sink) == (ENTRIES, REPORT));
}

/// How the lines of each actor of `TWO_CALLERS` begin, and these lines in their order.
const ORDERS: [(&'static str, &'static [&'static str]); 3] = [
    ("c0 ", &["c0 wake 1: Woken 0\n", "c0 wake 9: NoTask\n"]),
    ("c1 ", &["c1 wake 2: Woken 0\n"]),
    ("end ", &["end resched 0: Plain 1 core 0 forced 0\n"]),
];

#[test]
fn race_of_two_callers(rt: HostRuntime) {
    let sink = raced(&rt, TWO_CALLERS, &NoGate);
    let (entries, report) = parts_of(&rt, &sink);
    for (actor, lines) in &ORDERS {
        assert!(rt; next_after(entries, actor, lines) == Some(None));
    }
    assert!(rt; entries.lines().count() == 4 && report == REPORT);
}

/// Two siblings with nothing to run, and the steps of the first before those of the second.
const TWO_SIBLINGS: &str = concat!(
    "coresched 1\nsiblings 2\nlimits 8 8 65536\n",
    "step s0 turn\nstep s0 turn\nstep s0 turn\n",
    "step s1 turn\nstep s1 turn\nstep s1 turn\n",
    "end\n"
);

/// How often a worker looks at most whether the other has come.
const LOOKS: u64 = 100_000_000;

/// Where two workers of three steps each meet.
#[derive(Drop)]
struct Meeting {
    /// How often each of them came.
    first: AtomicU64,
    second: AtomicU64,
    /// How often a worker came out of its order, or waited in vain.
    faults: AtomicU64,
}

impl Meeting {
    /// Before a worker came.
    fn of_nobody() -> Meeting {
        Meeting {
            first: AtomicU64::new(0),
            second: AtomicU64::new(0),
            faults: AtomicU64::new(0),
        }
    }
}

/// Whether the worker comes for its second turn before the looks are used up.
fn comes_again(passes: &AtomicU64) -> bool {
    for _ in 0..LOOKS {
        if passes.load(Ordering::SeqCst) >= 2 {
            return true;
        }
        thread::yield_now();
    }
    false
}

impl Gate for Meeting {
    /// Holds the first turn of the first worker until the second worker comes for its second, and that one
    /// until the first worker comes for its second. So the second worker makes the first step, and the first
    /// worker the next.
    fn pass(&self, actor: u32, turn: u64) {
        let (own, other) = if actor == 0 {
            (&self.first, &self.second)
        } else {
            (&self.second, &self.first)
        };
        let is_next = own.fetch_add(1, Ordering::SeqCst) == turn;
        let is_held = turn == u64::from(actor);
        if !is_next || actor > 1 || is_held && !comes_again(other) {
            self.faults.fetch_add(1, Ordering::SeqCst);
        }
    }
}

/// Expects that each of the two workers came for its three steps, and once more.
fn expect_met(rt: &impl Abort, gate: Meeting) {
    assert!(rt; gate.faults.into_inner() == 0);
    assert!(rt; gate.first.into_inner() == 4 && gate.second.into_inner() == 4);
}

/// Whether an entry is a turn of this sibling, which finds nothing to do.
fn is_turn(entry: &Entry, place: u8) -> bool {
    matches!(entry.actor, Actor::Sibling(other) if other == place)
        && matches!(entry.event, Event::Turn(other) if other == place)
        && matches!(entry.reply, Reply::Nothing)
}

/// Expects that the siblings meet in a race of their machine, and who makes the first two steps.
fn expect_race<R: Threads + Wait + AllocGlobal + Sync + Abort>(rt: &R) {
    let (scenario, room) = opened(rt.alloc(), TWO_SIBLINGS).expect(rt, "a scenario");
    let gate = Meeting::of_nobody();
    let room = race(rt, room, &scenario, &gate).expect(rt, "room");
    expect_met(rt, gate);
    let first = room.entry(0).expect(rt, "an entry");
    let second = room.entry(1).expect(rt, "an entry");
    assert!(rt; room.length() == 6 && is_turn(&first, 1) && is_turn(&second, 0));
}

#[test]
fn race_of_two_siblings_that_meet(rt: HostRuntime) {
    expect_race(&rt);
}

#[test]
fn command_race_of_two_siblings_that_meet(rt: HostRuntime) {
    let gate = Meeting::of_nobody();
    let sink = raced(&rt, TWO_SIBLINGS, &gate);
    expect_met(&rt, gate);
    let output = str::from_utf8(sink.bytes()).expect(&rt, "a text");
    assert!(&rt; output.starts_with("s1 turn: Nothing\ns0 turn: Nothing\n"));
}
