//! Each guard that is handed in is dropped once, however the command ends: guards that count their drops, over each
//! status, for both commands.

ghost use Rattle.std.specs.Prelude.{◌≡◌, All, vec_len};
ghost use Rattle.ptrace_check.specs.Guards.{AreFresh};

use crate::strangers::{LongGuard, PoorGuard};
use core_state::CoreState;
use cs_outside::{Guard, NoGate};
use memory_outside::{MemSink, MemSource};
use ptrace_check::Guards;
use row_inputs::{WORKED, WORKED_OUTPUT, joined, sink_of, source_of, words_of};
use row_runs::run_over_trees;
use scenario_runner::{GuardKind, Status, replay};
use scenario_text::BadKind;
use std::alloc::Global;
use std::process::Abort;
use std::sync::atomic::{AtomicU64, Ordering};
use std::sync::{Arc, Wait};
use std::thread::Threads;

/// A counter of drops.
fn counter<R: AllocGlobal + Abort>(rt: &R) -> Arc<AtomicU64, Global> {
    Arc::new(rt.alloc(), AtomicU64::new(0)).expect(rt, "room")
}

/// Two guards of a stranger's, whose drops are counted there.
fn two_long<R: AllocGlobal + Abort>(rt: &R, drops: &Arc<AtomicU64, Global>) -> Vec<LongGuard>
    ensures two { vec_len result ≡ 2 }
    ensures fresh { AreFresh (λ guard. guard.pairs.items) (λ guard. guard.asked) result.items }
{
    let guards = [
        LongGuard::empty(rt.alloc(), Arc::try_clone(drops).expect(rt, "a reference")),
        LongGuard::empty(rt.alloc(), Arc::try_clone(drops).expect(rt, "a reference")),
    ];
    Vec::from_array(rt.alloc(), guards).expect(rt, "room")
}

/// Expects that this many guards were dropped.
fn expect_drops(rt: &impl Abort, drops: &Arc<AtomicU64, Global>, wanted: u64) {
    assert!(rt; drops.load(Ordering::SeqCst) == wanted);
}

/// A text, the calls of the source and of the sink that fail, with 0 for none, and how it ends.
#[derive(Drop)]
struct End {
    text: &'static str,
    read: u64,
    write: u64,
    status: Status,
}

/// A scenario whose second teach line cannot be carried out with two guards.
const THIRD_GUARD: &str =
    "coresched 1\nsiblings 2\nlimits 4 4 65536\nteach 1 1 2\nteach 2 1 2\nend\n";

/// An end for each status that a text and devices bring about.
const ENDS: [End; 5] = [
    // One of the two is loaded and unloaded, the other is active at the end.
    End {
        text: WORKED,
        read: 0,
        write: 0,
        status: Status::Done,
    },
    End {
        text: "coresched 1\n",
        read: 0,
        write: 0,
        status: Status::BadScenario {
            line: 2,
            kind: BadKind::Cut,
        },
    },
    End {
        text: THIRD_GUARD,
        read: 0,
        write: 0,
        status: Status::BadGuard {
            line: 5,
            kind: GuardKind::NoGuard,
        },
    },
    End {
        text: WORKED,
        read: 2,
        write: 0,
        status: Status::ReadFault,
    },
    End {
        text: WORKED,
        read: 0,
        write: 2,
        status: Status::WriteFault,
    },
];

// Both are dropped, the one by its unload and the other at the end.
#[test]
fn guards_of_a_stranger(rt: HostRuntime) {
    let drops = counter(&rt);
    let words = words_of(rt.alloc(), &["replay"]).expect(&rt, "room");
    let mut source = source_of(rt.alloc(), WORKED.as_bytes(), 65_536, &[]).expect(&rt, "room");
    let mut sink = sink_of(rt.alloc(), 4096, &[]).expect(&rt, "room");
    let guards = two_long(&rt, &drops);
    assert!(rt;
        run_over_trees(&rt, &words, &mut source, &mut sink, &NoGate, guards) == Status::Done
    );
    let output = joined(rt.alloc(), &[WORKED_OUTPUT, "done\n"]).expect(&rt, "room");
    assert!(rt; sink.bytes() == output.as_slice());
    expect_drops(&rt, &drops, 2);
}

// Nothing is left of a guard that is unloaded, even if others stay.
#[test]
fn guard_is_let_go_when_it_is_unloaded(rt: HostRuntime) {
    let drops = counter(&rt);
    let mut guards = Guards::of(rt.alloc(), two_long(&rt, &drops)).expect(&rt, "room");
    guards.load(1);
    expect_drops(&rt, &drops, 0);
    guards.unload(1);
    expect_drops(&rt, &drops, 1);
    drop(guards);
    expect_drops(&rt, &drops, 2);
}

/// Expects that `run` with these words and guards has this end.
fn expect_end<R: Threads + Wait + AllocGlobal + Sync + Abort, G: Guard + Send>(
    rt: &R,
    texts: &[&str],
    end: &End,
    guards: Vec<G>,
)
    requires fresh { AreFresh G.pairs G.asked guards.items }
{
    let words = words_of(rt.alloc(), texts).expect(rt, "room");
    let alloc = rt.alloc();
    let mut source = source_of(alloc, end.text.as_bytes(), 65_536, &[end.read]).expect(rt, "room");
    let mut sink = sink_of(alloc, 4096, &[end.write]).expect(rt, "room");
    assert!(rt; run_over_trees(rt, &words, &mut source, &mut sink, &NoGate, guards) == end.status);
}

/// Expects that two guards are dropped once each if `run` with these words has this end.
fn expect_let_go<R: Threads + Wait + AllocGlobal + Sync + Abort>(
    rt: &R,
    texts: &[&str],
    end: &End,
) {
    let drops = counter(rt);
    expect_end(rt, texts, end, two_long(rt, &drops));
    expect_drops(rt, &drops, 2);
}

#[test]
fn guards_at_each_end(rt: HostRuntime) {
    for end in &ENDS {
        expect_let_go(&rt, &["replay"], end);
        expect_let_go(&rt, &["race"], end);
    }
}

#[test]
fn guards_at_bad_words(rt: HostRuntime) {
    let end = End {
        text: WORKED,
        read: 0,
        write: 0,
        status: Status::BadWords,
    };
    expect_let_go(&rt, &[], &end);
    expect_let_go(&rt, &["replay", "race"], &end);
    let drops = counter(&rt);
    let words = words_of(rt.alloc(), &["race"]).expect(&rt, "room");
    let mut source = source_of(rt.alloc(), end.text.as_bytes(), 65_536, &[]).expect(&rt, "room");
    let mut sink = sink_of(rt.alloc(), 4096, &[]).expect(&rt, "room");
    let guards = two_long(&rt, &drops);
    let status = replay::<CoreState<LongGuard>, MemSource, MemSink, LongGuard>(
        rt.alloc(),
        &words,
        &mut source,
        &mut sink,
        guards,
    );
    assert!(rt; status == end.status);
    expect_drops(&rt, &drops, 2);
}

/// Expects that two guards are dropped once each if the input is a byte too long.
fn expect_let_go_of_long<R: Threads + Wait + AllocGlobal + Sync + Abort>(rt: &R, texts: &[&str]) {
    let drops = counter(rt);
    let text = vec![in rt.alloc(); b'x'; 16_777_217].expect(rt, "room");
    let words = words_of(rt.alloc(), texts).expect(rt, "room");
    let mut source = MemSource::of(text, 65_536, Vec::new(rt.alloc()));
    let mut sink = sink_of(rt.alloc(), 4096, &[]).expect(rt, "room");
    let guards = two_long(rt, &drops);
    assert!(rt;
        run_over_trees(rt, &words, &mut source, &mut sink, &NoGate, guards) == Status::TooLong
    );
    expect_drops(rt, &drops, 2);
}

#[test]
fn guards_at_too_long_an_input(rt: HostRuntime) {
    expect_let_go_of_long(&rt, &["replay"]);
    expect_let_go_of_long(&rt, &["race"]);
}

/// Two guards that never have memory for a pair, whose drops are counted there.
fn two_poor<R: AllocGlobal + Abort>(rt: &R, drops: &Arc<AtomicU64, Global>) -> Vec<PoorGuard>
    ensures two { vec_len result ≡ 2 }
    ensures unasked { All (λ guard. guard.asked ≡ 0) result.items }
{
    let guards = [
        PoorGuard::empty(Arc::try_clone(drops).expect(rt, "a reference")),
        PoorGuard::empty(Arc::try_clone(drops).expect(rt, "a reference")),
    ];
    Vec::from_array(rt.alloc(), guards).expect(rt, "room")
}

/// Expects that a guard that is out of memory ends the command, and that two guards are dropped once each.
fn expect_let_go_of_poor<R: Threads + Wait + AllocGlobal + Sync + Abort>(rt: &R, texts: &[&str]) {
    let drops = counter(rt);
    let end = End {
        text: WORKED,
        read: 0,
        write: 0,
        status: Status::OutOfMemory,
    };
    expect_end(rt, texts, &end, two_poor(rt, &drops));
    expect_drops(rt, &drops, 2);
}

#[test]
fn guards_at_want_of_memory(rt: HostRuntime) {
    expect_let_go_of_poor(&rt, &["replay"]);
    expect_let_go_of_poor(&rt, &["race"]);
}
