//! What `check` writes of inputs, and with which status it ends.

ghost use Rattle.std.specs.Prelude.{◌<◌};

use cs_outside::{NoGate, PairGuard};
use memory_outside::{MemSink, MemSource};
use plain_room::PlainRoom;
use row_inputs::{
    INPUT, OUTPUT_LINES, WORKED, WORKED_OUTPUT, joined, sink_of, source_of, words_of,
};
use row_runs::run_over_trees;
use scenario_input::guards;
use scenario_runner::{GuardKind, Status, check};
use scenario_text::BadKind;
use std::process::Abort;
use std::sync::Wait;
use std::thread::Threads;

/// The words of the two forms of the command.
const PLAIN: [&str; 1] = ["check"];

const JSON: [&str; 2] = ["check", "json"];

/// Expects that `run` and `check` with these words end with this status over this input, and write this text, by as many
/// calls. No guard is handed in. The source gives this many bytes at once, and the sink takes this many. They fail at
/// these calls, if they come to them.
fn expect_check<R: Threads + Wait + AllocGlobal + Sync + Abort>(
    rt: &R,
    texts: &[&str],
    input: &[u8],
    most: (usize, usize),
    fails: (u64, u64),
    wanted: Status,
    output: &str,
)
    requires gives { 0 < most.0 }
    requires takes { 0 < most.1 }
{
    let alloc = rt.alloc();
    let words = words_of(alloc, texts).expect(rt, "room");
    let mut source = source_of(alloc, input, most.0, &[fails.0]).expect(rt, "room");
    let mut sink = sink_of(alloc, most.1, &[fails.1]).expect(rt, "room");
    let none = Vec::<PairGuard>::new(alloc);
    let status = check::<PlainRoom<PairGuard>, MemSource, MemSink, PairGuard>(
        alloc,
        &words,
        &mut source,
        &mut sink,
        none,
    );
    assert!(rt; status == wanted);
    assert!(rt; sink.bytes() == output.as_bytes());
    let mut again = source_of(alloc, input, most.0, &[fails.0]).expect(rt, "room");
    let mut its = sink_of(alloc, most.1, &[fails.1]).expect(rt, "room");
    let none = Vec::<PairGuard>::new(alloc);
    assert!(rt; run_over_trees(rt, &words, &mut again, &mut its, &NoGate, none) == wanted);
    assert!(rt; its.bytes() == output.as_bytes());
    assert!(rt; (again.calls(), its.calls()) == (source.calls(), sink.calls()));
}

/// A run of `INPUT`: as many of the first lines of its output, another text behind them, and what is written of it, as
/// lines and as JSON.
type Row = (usize, &'static str, &'static str, &'static str);

const ROWS: [Row; 8] = [
    (17, "", "yes\n", "{\"verdict\":\"yes\"}\n"),
    (
        0,
        "",
        "no line 14\nwant -\nfound -\n",
        "{\"found\":null,\"line\":14,\"verdict\":\"no\",\"want\":null}\n",
    ),
    (
        4,
        "s0 turn: Plain 1 core 0 forced 0\n",
        "no line 18\nwant s0 turn: Plain 3 core 0 forced 0\nfound s0 turn: Plain 1 core 0 forced 0\n",
        "{\"found\":\"s0 turn: Plain 1 core 0 forced 0\",\"line\":18,\"verdict\":\"no\",\"want\":\"s0 turn: Plain 3 core 0 forced 0\"}\n",
    ),
    (
        16,
        "done",
        "no line 30\nwant done\nfound done\n",
        "{\"found\":\"done\",\"line\":30,\"verdict\":\"no\",\"want\":\"done\"}\n",
    ),
    (
        17,
        "end\n",
        "no line 31\nwant -\nfound end\n",
        "{\"found\":\"end\",\"line\":31,\"verdict\":\"no\",\"want\":null}\n",
    ),
    (
        0,
        "coresched 1\n",
        "no line 14\nwant -\nfound coresched 1\n",
        "{\"found\":\"coresched 1\",\"line\":14,\"verdict\":\"no\",\"want\":null}\n",
    ),
    (
        0,
        "\"\\\u{7}\n",
        "no line 14\nwant -\nfound \"\\?\n",
        "{\"found\":\"\\\"\\\\?\",\"line\":14,\"verdict\":\"no\",\"want\":null}\n",
    ),
    (
        0,
        "\n",
        "no line 14\nwant -\nfound \n",
        "{\"found\":\"\",\"line\":14,\"verdict\":\"no\",\"want\":null}\n",
    ),
];

/// `INPUT`, as many of the first lines of its output, and another text behind them.
fn altered<R: AllocGlobal + Abort>(rt: &R, count: usize, other: &str) -> Vec<u8> {
    let mut input = joined(rt.alloc(), &[INPUT]).expect(rt, "room");
    let lines = joined(rt.alloc(), &OUTPUT_LINES[..count.min(17)]).expect(rt, "room");
    input.extend_from_slice(&lines).expect(rt, "room");
    input.extend_from_slice(other.as_bytes()).expect(rt, "room");
    input
}

#[test]
fn verdicts_on_runs(rt: HostRuntime) {
    for (count, other, text, json) in &ROWS {
        let input = altered(&rt, *count, other);
        expect_check(
            &rt,
            &PLAIN,
            &input,
            (4096, 4096),
            (0, 0),
            Status::Done,
            text,
        );
        expect_check(&rt, &JSON, &input, (1, 1), (0, 0), Status::Done, json);
    }
}

// The run behind a scenario with a guard, which is taught, and is in the report.
#[test]
fn guards_are_taught(rt: HostRuntime) {
    let alloc = rt.alloc();
    let rest = "guard 2 bench asked 0\nguard 3 bench asked 0\ndone\n";
    let input = joined(alloc, &[WORKED, WORKED_OUTPUT, rest]).expect(&rt, "room");
    let words = words_of(alloc, &PLAIN).expect(&rt, "room");
    let mut source = source_of(alloc, &input, 4096, &[0]).expect(&rt, "room");
    let mut sink = sink_of(alloc, 4096, &[0]).expect(&rt, "room");
    let four = guards(&rt).ok().expect(&rt, "room");
    let status = run_over_trees(&rt, &words, &mut source, &mut sink, &NoGate, four);
    assert!(rt; status == Status::Done);
    assert!(rt; sink.bytes() == b"yes\n".as_slice());
    let wanted = Status::BadGuard {
        line: 6,
        kind: GuardKind::NoGuard,
    };
    expect_check(&rt, &JSON, &input, (4096, 4096), (0, 0), wanted, "");
}

/// Expects that an input with these lines before a run of `INPUT` is refused at this line.
fn expect_refused<R: Threads + Wait + AllocGlobal + Sync + Abort>(
    rt: &R,
    before: &str,
    line: u32,
    kind: BadKind,
) {
    let run = joined(rt.alloc(), &OUTPUT_LINES).expect(rt, "room");
    let mut input = joined(rt.alloc(), &[before]).expect(rt, "room");
    input.extend_from_slice(&run).expect(rt, "room");
    let wanted = Status::BadScenario { line, kind };
    expect_check(rt, &PLAIN, &input, (4096, 4096), (0, 0), wanted, "");
}

// The scenario ends with the first line that is exactly `end`, and without one the whole input is the scenario.
#[test]
fn scenario_is_refused(rt: HostRuntime) {
    let none = "coresched 1\nsiblings 2\nlimits 4 4 65536\n";
    let spaced = "coresched 1\nsiblings 2\nlimits 4 4 65536\nend \nend\n";
    expect_refused(&rt, none, 4, BadKind::Shape);
    expect_refused(&rt, spaced, 4, BadKind::Shape);
    expect_refused(&rt, "coresched 1\nend\n", 2, BadKind::Shape);
    let (most, fails) = ((4096, 4096), (0, 0));
    let line = Status::BadScenario {
        line: 1,
        kind: BadKind::Cut,
    };
    expect_check(&rt, &PLAIN, b"", most, fails, line, "");
}

// One more byte than an input of this command may have.
#[test]
fn limit_of_the_input(rt: HostRuntime) {
    let alloc = rt.alloc();
    let mut input = altered(&rt, 0, "");
    let filler = vec![in alloc; b'x'; 33_554_432 - INPUT.len()].expect(&rt, "room");
    input.extend_from_slice(&filler).expect(&rt, "room");
    let xs = joined(alloc, &["x"; 200]).expect(&rt, "room");
    let mut output = joined(alloc, &["no line 14\nwant -\nfound "]).expect(&rt, "room");
    output.extend_from_slice(&xs).expect(&rt, "room");
    output.push(b'\n').expect(&rt, "room");
    let output = str::from_utf8(&output).ok().expect(&rt, "a text");
    let most = (65_536, 4096);
    expect_check(&rt, &PLAIN, &input, most, (0, 0), Status::Done, output);
    input.push(b'x').expect(&rt, "room");
    expect_check(&rt, &PLAIN, &input, most, (0, 0), Status::TooLong, "");
}

// The source gives a byte at a call, and then its end. The sink takes a byte at a call.
#[test]
fn devices_that_fail(rt: HostRuntime) {
    let input = altered(&rt, 17, "");
    let bytes = input.len() as u64;
    for call in [1, 2, bytes, bytes + 1] {
        expect_check(
            &rt,
            &PLAIN,
            &input,
            (1, 4096),
            (call, 0),
            Status::ReadFault,
            "",
        );
    }
    for call in 1..5 {
        let output = &"yes\n"[..call as usize - 1];
        expect_check(
            &rt,
            &PLAIN,
            &input,
            (4096, 1),
            (0, call),
            Status::WriteFault,
            output,
        );
    }
}

// The words of another command are refused, and nothing is read for them.
#[test]
fn words_of_another_command(rt: HostRuntime) {
    let alloc = rt.alloc();
    let words = words_of(alloc, &["replay"]).expect(&rt, "room");
    let mut source = source_of(alloc, INPUT.as_bytes(), 4096, &[0]).expect(&rt, "room");
    let mut sink = sink_of(alloc, 4096, &[0]).expect(&rt, "room");
    let none = Vec::<PairGuard>::new(alloc);
    let status = check::<PlainRoom<PairGuard>, MemSource, MemSink, PairGuard>(
        alloc,
        &words,
        &mut source,
        &mut sink,
        none,
    );
    assert!(rt; status == Status::BadWords);
    assert!(rt; (source.calls(), sink.calls()) == (0, 0));
}
