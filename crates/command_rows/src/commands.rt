//! The commands: the stored run, words that are refused, the limit of the input on both sides, and a
//! device that fails at each of its calls.

ghost use Rattle.std.specs.Prelude.{◌<◌};

use command_words::{Command, check_json, command_of, drill_seed, is_replay, is_upgrade};
use core_state::CoreState;
use cs_outside::{NoGate, PairGuard};
use memory_outside::{MemSink, MemSource};
use plain_room::PlainRoom;
use row_inputs::{INPUT, OUTPUT_LINES, joined, sink_of, source_of, words_of};
use row_runs::{replayed, run_over_trees};
use scenario_runner::{Status, drill, replay};
use scenario_text::BadKind;
use std::process::Abort;
use std::sync::Wait;
use std::thread::Threads;

/// How many bytes the lines have.
const OUTPUT_BYTES: u64 = 437;

/// Expects that `run` without guards ends with this status over this text, and writes these bytes. The source gives
/// this many bytes at once, and the sink takes this many. They fail at these calls, if they come to them. It returns
/// how often each of them was called.
pub(crate) fn expect_run<R: Threads + Wait + AllocGlobal + Sync + Abort>(
    rt: &R,
    texts: &[&str],
    text: &[u8],
    most: (usize, usize),
    fails: (u64, u64),
    wanted: Status,
    output: &[u8],
) -> (u64, u64)
    requires gives { 0 < most.0 }
    requires takes { 0 < most.1 }
{
    let words = words_of(rt.alloc(), texts).expect(rt, "room");
    let alloc = rt.alloc();
    let mut source = source_of(alloc, text, most.0, &[fails.0]).expect(rt, "room");
    let mut sink = sink_of(alloc, most.1, &[fails.1]).expect(rt, "room");
    let guards = Vec::<PairGuard>::new(rt.alloc());
    assert!(rt; run_over_trees(rt, &words, &mut source, &mut sink, &NoGate, guards) == wanted);
    assert!(rt; sink.bytes() == output);
    (source.calls(), sink.calls())
}

/// The same for `replay`, over the plain machine.
fn expect_replay<R: AllocGlobal + Abort>(
    rt: &R,
    texts: &[&str],
    text: &[u8],
    most: (usize, usize),
    fails: (u64, u64),
    wanted: Status,
    output: &[u8],
) -> (u64, u64)
    requires gives { 0 < most.0 }
    requires takes { 0 < most.1 }
{
    let words = words_of(rt.alloc(), texts).expect(rt, "room");
    let alloc = rt.alloc();
    let mut source = source_of(alloc, text, most.0, &[fails.0]).expect(rt, "room");
    let mut sink = sink_of(alloc, most.1, &[fails.1]).expect(rt, "room");
    let guards = Vec::<PairGuard>::new(rt.alloc());
    let status = replay::<PlainRoom<PairGuard>, MemSource, MemSink, PairGuard>(
        rt.alloc(),
        &words,
        &mut source,
        &mut sink,
        guards,
    );
    assert!(rt; status == wanted);
    assert!(rt; sink.bytes() == output);
    (source.calls(), sink.calls())
}

/// Expects that `run` and `replay` end with this status over the stored input, and write these bytes, by as many calls.
fn expect_stored<R: Threads + Wait + AllocGlobal + Sync + Abort>(
    rt: &R,
    texts: &[&str],
    most: (usize, usize),
    fails: (u64, u64),
    wanted: Status,
    output: &[u8],
) -> (u64, u64)
    requires gives { 0 < most.0 }
    requires takes { 0 < most.1 }
{
    let text = INPUT.as_bytes();
    let calls = expect_run(rt, texts, text, most, fails, wanted, output);
    assert!(rt; expect_replay(rt, texts, text, most, fails, wanted, output) == calls);
    calls
}

// Each line in one piece, and again with the rest if only a byte was taken.
#[test]
fn stored_scenario_is_played(rt: HostRuntime) {
    let output = joined(rt.alloc(), &OUTPUT_LINES).expect(&rt, "room");
    let whole = expect_stored(
        &rt,
        &["replay"],
        (4096, 4096),
        (0, 0),
        Status::Done,
        &output,
    );
    assert!(rt; whole.1 == 17);
    let bytes = expect_stored(&rt, &["replay"], (4096, 1), (0, 0), Status::Done, &output);
    assert!(rt; bytes.1 == OUTPUT_BYTES);
}

/// Expects that `run` and `replay` end with this status over the stored input, and write these lines. The source gives
/// a byte at a time. It fails at the one call, and the sink at the other, if they come to it.
fn expect_faults<R: Threads + Wait + AllocGlobal + Sync + Abort>(
    rt: &R,
    fails: (u64, u64),
    wanted: Status,
    lines: &[&str],
) {
    let output = joined(rt.alloc(), lines).expect(rt, "room");
    expect_stored(rt, &["replay"], (1, 4096), fails, wanted, &output);
}

// A source gives a byte at a call, and then its end. What is set for a later call never comes.
#[test]
fn source_that_fails_at_each_call(rt: HostRuntime) {
    let bytes = INPUT.len() as u64;
    for call in 1..bytes + 2 {
        expect_faults(&rt, (call, 0), Status::ReadFault, &[]);
    }
    expect_faults(&rt, (bytes + 2, 0), Status::Done, &OUTPUT_LINES);
}

// A sink takes a line at a call.
#[test]
fn sink_that_fails_at_each_call(rt: HostRuntime) {
    for call in 1..18 {
        let lines = &OUTPUT_LINES[..call as usize - 1];
        expect_faults(&rt, (0, call), Status::WriteFault, lines);
    }
    expect_faults(&rt, (0, 18), Status::Done, &OUTPUT_LINES);
}

/// Lists of words that are no command's: other words, words too many and too few, an option, and seeds that are no
/// numbers or too large.
const OTHER_WORDS: [&'static [&'static str]; 21] = [
    &[],
    &[""],
    &["run"],
    &["Replay"],
    &["replay", "x"],
    &["race", "replay"],
    &["Upgrade"],
    &["upgrade", "2"],
    &["help"],
    &["--help"],
    &["-"],
    &["--", "replay"],
    &["json"],
    &["check", "text"],
    &["check", "json", "json"],
    &["check", "--json"],
    &["drill"],
    &["drill", "007"],
    &["drill", "+7"],
    &["drill", "4294967296"],
    &["drill", "1", "2"],
];

/// Expects that the words are not those of `drill` alone, and that nothing is written for them.
fn expect_no_drill<R: AllocGlobal + Abort>(rt: &R, texts: &[&str]) {
    let words = words_of(rt.alloc(), texts).expect(rt, "room");
    let mut sink = sink_of(rt.alloc(), 4096, &[]).expect(rt, "room");
    let status = drill::<CoreState<PairGuard>, MemSink, PairGuard>(rt.alloc(), &words, &mut sink);
    assert!(rt; status == Status::BadWords && sink.calls() == 0);
}

/// Expects that the words ask for this command.
fn expect_command<R: AllocGlobal + Abort>(rt: &R, texts: &[&str], wanted: Option<Command>) {
    let alloc = rt.alloc();
    let words = words_of(alloc, texts).expect(rt, "room");
    assert!(rt; command_of(alloc, &words) == wanted);
    assert!(rt; is_replay(alloc, &words) == (wanted == Some(Command::Replay)));
    assert!(rt; is_upgrade(alloc, &words) == (wanted == Some(Command::Upgrade)));
    let seed = match wanted {
        Some(Command::Drill { seed }) => Some(seed),
        _ => None,
    };
    assert!(rt; drill_seed(alloc, &words) == seed);
    let json = match wanted {
        Some(Command::Check { json }) => Some(json),
        _ => None,
    };
    assert!(rt; check_json(alloc, &words) == json);
}

// They are none of `run`, `replay` or `drill`, and nothing is read for them.
#[test]
fn other_words(rt: HostRuntime) {
    for texts in &OTHER_WORDS {
        expect_command(&rt, texts, None);
        let calls = expect_stored(&rt, texts, (4096, 4096), (0, 0), Status::BadWords, b"");
        assert!(rt; calls == (0, 0));
        expect_no_drill(&rt, texts);
    }
}

/// Words, each with the command that they ask for.
const COMMANDS: [(&'static [&'static str], Command); 8] = [
    (&["replay"], Command::Replay),
    (&["race"], Command::Race),
    (&["upgrade"], Command::Upgrade),
    (&["check"], Command::Check { json: false }),
    (&["check", "json"], Command::Check { json: true }),
    (&["drill", "0"], Command::Drill { seed: 0 }),
    (&["drill", "7"], Command::Drill { seed: 7 }),
    (
        &["drill", "4294967295"],
        Command::Drill {
            seed: 4_294_967_295,
        },
    ),
];

#[test]
fn words_of_the_commands(rt: HostRuntime) {
    for (texts, wanted) in &COMMANDS {
        expect_command(&rt, texts, Some(*wanted));
    }
}

/// Expects that the words are not those of `replay` alone, and that nothing is read for them.
fn expect_no_replay<R: AllocGlobal + Abort>(rt: &R, texts: &[&str]) {
    let text = INPUT.as_bytes();
    let calls = expect_replay(rt, texts, text, (4096, 4096), (0, 0), Status::BadWords, b"");
    assert!(rt; calls == (0, 0));
}

// The words of one call are not those of the other.
#[test]
fn words_of_another_call(rt: HostRuntime) {
    expect_no_drill(&rt, &["replay"]);
    expect_no_drill(&rt, &["race"]);
    expect_no_drill(&rt, &["upgrade"]);
    expect_no_replay(&rt, &["drill", "1"]);
    expect_no_replay(&rt, &["race"]);
    expect_no_replay(&rt, &["upgrade"]);
}

/// Expects this status for an input of this many bytes, which is no scenario.
fn expect_long<R: Threads + Wait + AllocGlobal + Sync + Abort>(
    rt: &R,
    bytes: usize,
    wanted: Status,
) {
    let text = vec![in rt.alloc(); b'x'; bytes].expect(rt, "room");
    let (status, sink) = replayed(rt, &text).expect(rt, "room");
    assert!(rt; status == wanted);
    assert!(rt; sink.bytes() == b"".as_slice());
}

#[test]
fn input_that_is_too_long(rt: HostRuntime) {
    let wanted = Status::BadScenario {
        line: 1,
        kind: BadKind::Cut,
    };
    expect_long(&rt, 16_777_216, wanted);
    expect_long(&rt, 16_777_217, Status::TooLong);
}
