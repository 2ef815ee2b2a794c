//! Guards: what the commands write of them, teach lines that cannot be carried out, and each public call.

ghost use Rattle.std.specs.Prelude.{◌≡◌, All, vec_len};
ghost use Rattle.ptrace_check.specs.Guards.{AreFresh};

use core_state::CoreState;
use cs_outside::{Guard, NullGuard, PairGuard, TeachFault};
use cs_types::GuardPlace;
use memory_outside::{ListGuard, MemSink, MemSource};
use ptrace_check::{Guards, LoadAnswer, TeachAnswer, UnloadAnswer};
use row_inputs::{GROUP, WORKED, WORKED_OUTPUT, joined, report_of, sink_of, source_of, words_of};
use scenario_input::guards;
use scenario_runner::{GuardKind, Status, replay};
use std::process::Abort;

/// The four guards of the program.
fn four<R: AllocGlobal + Abort>(rt: &R) -> Vec<PairGuard>
    ensures four { vec_len result ≡ 4 }
    ensures fresh { AreFresh (λ guard. guard.pairs) (λ guard. guard.asked) result.items }
{
    guards(rt).expect(rt, "room")
}

/// Expects that `replay` with these guards ends with this status over the text, and writes these parts.
fn expect_guarded<R: AllocGlobal + Abort, G: Guard>(
    rt: &R,
    text: &[u8],
    guards: Vec<G>,
    wanted: Status,
    output: &[&str],
)
    requires fresh { AreFresh G.pairs G.asked guards.items }
{
    let mut source = source_of(rt.alloc(), text, 65_536, &[]).expect(rt, "room");
    let mut sink = sink_of(rt.alloc(), 4096, &[]).expect(rt, "room");
    let words = words_of(rt.alloc(), &["replay"]).expect(rt, "room");
    let status = replay::<CoreState<G>, MemSource, MemSink, G>(
        rt.alloc(),
        &words,
        &mut source,
        &mut sink,
        guards,
    );
    assert!(rt; status == wanted);
    assert!(rt; sink.bytes() == joined(rt.alloc(), output).expect(rt, "room").as_slice());
}

/// The report of a core on which nothing happened, with four guards.
const NOTHING: &str = report_of!(
    "clock 0",
    "numbers 0 0",
    "core 0 forced 0 occupation 0",
    "intervals 0",
    "cpu 0 online runs idle number 0",
    "cpu 1 online runs idle number 0",
    "guard 0 bench asked 0",
    "guard 1 bench asked 0",
    "guard 2 bench asked 0",
    "guard 3 bench asked 0",
);

#[test]
fn empty_scenario(rt: HostRuntime) {
    let text = b"coresched 1\nsiblings 2\nlimits 4 4 65536\nend\n";
    expect_guarded(&rt, text, four(&rt), Status::Done, &[NOTHING]);
}

/// The lines of two more guards, which stay on the bench.
const TWO_MORE: &str = "guard 2 bench asked 0\nguard 3 bench asked 0\n";

#[test]
fn guard_that_refuses(rt: HostRuntime) {
    let output = [WORKED_OUTPUT, TWO_MORE, "done\n"];
    expect_guarded(&rt, WORKED.as_bytes(), four(&rt), Status::Done, &output);
}

/// The first guard is asked about the target and then about both members. The second is asked about the
/// target and about the first member, which it refuses, and keeps that count. The cookie of the refused
/// call is used.
const GROUP_OUTPUT: &str = concat!(
    "c0 load 0: Loaded\nc0 prctl 1 1 3 2 0: 0\nc0 unload 0: Dropped\n",
    "c0 load 1: Loaded\nc0 prctl 1 1 3 2 0: EPERM\nc0 unload 1: Dropped\n",
    "c0 load 2: Loaded\nc0 prctl 1 0 3 0 4096: 0 value 1\n",
    "report\n",
    "clock 0\n",
    "numbers 0 0\n",
    "core 0 forced 0 occupation 0\n",
    "intervals 0\n",
    "cpu 0 online runs idle number 0\n",
    "cpu 1 online runs idle number 0\n",
    "task 1 cpu 0 asleep cookie 0 forced 0 vtime 0\n",
    "task 2 cpu 0 asleep cookie 1 forced 0 vtime 0\n",
    "task 3 cpu 0 asleep cookie 1 forced 0 vtime 0\n",
    "guard 0 dropped asked 3\n",
    "guard 1 dropped asked 2\n",
    "guard 2 active asked 1\n",
    "guard 3 bench asked 0\n",
    "done\n",
);

#[test]
fn group_asks_about_its_target_twice(rt: HostRuntime) {
    expect_guarded(
        &rt,
        GROUP.as_bytes(),
        four(&rt),
        Status::Done,
        &[GROUP_OUTPUT],
    );
}

/// The start of a scenario without tasks, its end, and four pairs of the first guard between them.
const HEAD: &str = "coresched 1\nsiblings 2\nlimits 4 4 65536\n";

const FOUR_PAIRS: &str = "teach 0 1 2\nteach 0 1 2\nteach 0 1 2\nteach 0 1 2\n";

const END: &str = "end\n";

/// Expects that four guards are taught sixteen pairs and these lines, and this status.
fn expect_taught<R: AllocGlobal + Abort>(rt: &R, lines: &str, wanted: Status, output: &str) {
    let parts = [
        HEAD, FOUR_PAIRS, FOUR_PAIRS, FOUR_PAIRS, FOUR_PAIRS, lines, END,
    ];
    let text = joined(rt.alloc(), &parts).expect(rt, "room");
    expect_guarded(rt, &text, four(rt), wanted, &[output]);
}

/// The line is the first that cannot be carried out.
fn bad_guard(line: u32, kind: GuardKind) -> Status
    ensures { result ≡ Status.BadGuard line kind }
{
    Status::BadGuard { line, kind }
}

// The first three lines are the head, and each line of a fault is counted from 1.
#[test]
fn teach_lines(rt: HostRuntime) {
    let full = bad_guard(20, GuardKind::Full);
    expect_taught(&rt, "", Status::Done, NOTHING);
    expect_taught(&rt, "teach 1 1 2\n", Status::Done, NOTHING);
    expect_taught(&rt, "teach 0 1 2\n", full, "");
    expect_taught(&rt, "teach 0 1 2\nteach 4 1 2\n", full, "");
    expect_taught(
        &rt,
        "teach 4 1 2\nteach 0 1 2\n",
        bad_guard(20, GuardKind::NoGuard),
        "",
    );
}

/// One guard that refuses nobody.
fn null<R: AllocGlobal + Abort>(rt: &R) -> Vec<NullGuard>
    ensures one { vec_len result ≡ 1 }
    ensures unasked { All (λ guard. guard.asked ≡ 0) result.items }
{
    Vec::from_array(rt.alloc(), [NullGuard::new()]).expect(rt, "room")
}

#[test]
fn null_guard_is_taught_nothing(rt: HostRuntime) {
    let full = bad_guard(6, GuardKind::Full);
    expect_guarded(&rt, WORKED.as_bytes(), null(&rt), full, &[]);
}

#[test]
fn pair_guard(rt: HostRuntime) {
    let mut guard = PairGuard::empty();
    assert!(rt; guard.teach(1, 2).is_ok());
    let are_allowed = (guard.allows(1, 2), guard.allows(2, 1));
    assert!(rt; are_allowed == (false, true) && guard.asked() == 2);
}

#[test]
fn null_guard(rt: HostRuntime) {
    let mut guard = NullGuard::new();
    assert!(rt; matches!(guard.teach(1, 2), Err(TeachFault::Full { cap: 0 })));
    assert!(rt; guard.allows(1, 2) && guard.asked() == 1);
}

/// One guard that takes memory for its pairs, and can be taught one.
fn listed<R: AllocGlobal + Abort>(rt: &R) -> Vec<ListGuard>
    ensures one { vec_len result ≡ 1 }
    ensures fresh { AreFresh (λ guard. guard.pairs) (λ guard. guard.asked) result.items }
{
    Vec::from_array(rt.alloc(), [ListGuard::with_cap(rt.alloc(), 1)]).expect(rt, "room")
}

/// The same scenario if there is no second guard.
const LISTED_OUTPUT: &str = concat!(
    "c0 prctl 1 2 2 0 0: 0\nc0 load 0: Loaded\nc0 load 0: NoGuard\nc0 load 1: NoGuard\n",
    "c0 prctl 1 2 2 0 0: EPERM\nc0 prctl 1 2 1 0 0: 0\nc0 unload 0: Dropped\n",
    "c0 prctl 1 2 2 0 0: 0\nc0 unload 0: NoGuard\nc0 load 7: NoGuard\n",
    "report\nclock 0\nnumbers 0 0\ncore 0 forced 0 occupation 0\nintervals 0\n",
    "cpu 0 online runs idle number 0\ncpu 1 online runs idle number 0\n",
    "task 1 cpu 0 asleep cookie 0 forced 0 vtime 0\n",
    "task 2 cpu 0 asleep cookie 0 forced 0 vtime 0\n",
    "guard 0 dropped asked 1\ndone\n",
);

// It is full with one pair, so a second teach line cannot be carried out.
#[test]
fn list_guard_of_one_pair(rt: HostRuntime) {
    let text = WORKED.as_bytes();
    expect_guarded(&rt, text, listed(&rt), Status::Done, &[LISTED_OUTPUT]);
    let (head, steps) = WORKED
        .split_once("teach 0 1000 1000\n")
        .expect(&rt, "a teach line");
    let line = "teach 0 1000 1000\n";
    let text = joined(rt.alloc(), &[head, line, line, steps]).expect(&rt, "room");
    let full = bad_guard(7, GuardKind::Full);
    expect_guarded(&rt, &text, listed(&rt), full, &[]);
}

#[test]
fn list_guard(rt: HostRuntime) {
    let mut guard = ListGuard::with_cap(rt.alloc(), 1);
    assert!(rt; guard.teach(1, 2).is_ok());
    assert!(rt; matches!(guard.teach(3, 4), Err(TeachFault::Full { cap: 1 })));
    let are_allowed = (guard.allows(1, 2), guard.allows(3, 4));
    assert!(rt; are_allowed == (false, true) && guard.asked() == 2);
}

/// Expects that the first guard is taught, and none that is not there.
fn expect_teach(rt: &impl Abort, guards: &mut Guards<PairGuard>) {
    let answers = (guards.teach(0, 1, 2), guards.teach(4, 1, 2));
    assert!(rt; matches!(answers, (TeachAnswer::Taught, TeachAnswer::NoGuard)));
}

/// Expects that the first guard is loaded once and dropped once.
fn expect_moves(rt: &impl Abort, guards: &mut Guards<PairGuard>) {
    let loads = (guards.load(0), guards.load(0));
    assert!(rt; matches!(loads, (LoadAnswer::Loaded, LoadAnswer::NoGuard)));
    assert!(rt; guards.active_count() == 1);
    let unloads = (guards.unload(0), guards.unload(0));
    assert!(rt; matches!(unloads, (UnloadAnswer::Dropped, UnloadAnswer::NoGuard)));
}

/// Expects four guards, of which the first was dropped and never asked.
fn expect_dropped(rt: &impl Abort, guards: &Guards<PairGuard>) {
    assert!(rt; guards.len() == 4 && guards.active_count() == 0);
    let first = guards.view(0).expect(rt, "a guard");
    let is_dropped = matches!(first.place, GuardPlace::Dropped) && first.asked == 0;
    assert!(rt; is_dropped && guards.view(4).is_none());
}

#[test]
fn guards_of_a_core(rt: HostRuntime) {
    let mut guards = Guards::of(rt.alloc(), four(&rt)).expect(&rt, "room");
    expect_teach(&rt, &mut guards);
    expect_moves(&rt, &mut guards);
    expect_dropped(&rt, &guards);
}

// Guards of two types are handed in as boxes, by a function that holds nothing else of them.
#[test]
fn guards_of_two_types(rt: HostRuntime) {
    let mut guards: Vec<Box<dyn Guard + Send>> = Vec::new(rt.alloc());
    let pairs = Box::new(rt.alloc(), PairGuard::empty()).expect(&rt, "room");
    guards.push(pairs).expect(&rt, "room");
    let null = Box::new(rt.alloc(), NullGuard::new()).expect(&rt, "room");
    guards.push(null).expect(&rt, "room");
    let output = [WORKED_OUTPUT, "done\n"];
    expect_guarded(&rt, WORKED.as_bytes(), guards, Status::Done, &output);
}
