//! What the command `explain` writes.

use crate::tables::{
    HEAD, HEAD_OF_SECOND, IN_HEADS, IN_SPACES, IN_STEPS, IN_TASKS, IN_USERS, Mistake, TASK,
};
use cs_outside::PairGuard;
use memory_outside::MemSource;
use row_inputs::{joined, sink_of, source_of, words_of};
use scenario_input::{GuardKind, guards};
use scenario_text::BadKind;
use std::process::Abort;
use view_runner::{Status, run};

type Machine = core_state::CoreState<PairGuard>;

type Sink = memory_outside::MemSink;

/// Expects that the command ends so over this text, with the program's guards, and has written
/// this.
fn expect_output<R: AllocGlobal + Abort>(rt: &R, text: &[u8], wanted: Status, output: &[u8]) {
    let words = words_of(rt.alloc(), &["explain"]).expect(rt, "room");
    let mut source = source_of(rt.alloc(), text, 4096, &[]).expect(rt, "room");
    let mut sink = sink_of(rt.alloc(), 4096, &[]).expect(rt, "room");
    let Ok(guards) = guards(rt) else {
        panic!(rt; "room");
    };
    let status = run::<Machine, MemSource, Sink, PairGuard>(
        rt.alloc(),
        &words,
        &mut source,
        &mut sink,
        guards,
    );
    assert!(rt; status == wanted);
    assert!(rt; sink.bytes() == output);
}

/// Expects that the text is bad so, and that the line that tells that, the bad line and the
/// sentence are written.
fn expect_explained<R: AllocGlobal + Abort>(
    rt: &R,
    text: &[u8],
    wanted: Status,
    line: &str,
    sentence: &str,
) {
    let fault = format!(in rt.alloc(); "{wanted}\n").expect(rt, "room");
    let shown = if line.is_empty() {
        ["", "", ""]
    } else {
        ["  ", line, "\n"]
    };
    let output = joined(
        rt.alloc(),
        &[fault.as_str(), shown[0], shown[1], shown[2], sentence, "\n"],
    )
    .expect(rt, "room");
    expect_output(rt, text, wanted, &output);
}

/// Expects that of each of these mistakes, after this text.
fn expect_all<R: AllocGlobal + Abort>(rt: &R, before: &str, mistakes: &[Mistake]) {
    for (rest, line, kind, shown, sentence) in mistakes {
        let mut text = joined(rt.alloc(), &[before]).expect(rt, "room");
        text.extend_from_slice(rest.as_bytes()).expect(rt, "room");
        let wanted = Status::BadScenario {
            line: *line,
            kind: *kind,
        };
        expect_explained(rt, &text, wanted, shown, sentence);
    }
}

#[test]
fn explains_heads(rt: HostRuntime) {
    expect_all(&rt, "", &IN_HEADS);
}

#[test]
fn explains_steps(rt: HostRuntime) {
    expect_all(&rt, HEAD, &IN_STEPS);
}

#[test]
fn explains_spaces(rt: HostRuntime) {
    expect_all(&rt, HEAD, &IN_SPACES);
}

#[test]
fn explains_tasks(rt: HostRuntime) {
    expect_all(&rt, HEAD, &IN_TASKS);
}

#[test]
fn explains_users(rt: HostRuntime) {
    expect_all(&rt, HEAD_OF_SECOND, &IN_USERS);
}

#[test]
fn explains_guards(rt: HostRuntime) {
    let missing = joined(rt.alloc(), &[HEAD, "teach 4 0 0\nend\n"]).expect(&rt, "room");
    let wanted = Status::BadGuard {
        line: 5,
        kind: GuardKind::NoGuard,
    };
    let sentence = "word 2: K is \"4\"; the guards are 0 to 3";
    expect_explained(&rt, &missing, wanted, "teach 4 0 0", sentence);

    let lines = "teach 0 7 7\n".repeat(rt.alloc(), 17).expect(&rt, "room");
    let many = joined(rt.alloc(), &[HEAD, &lines, "end\n"]).expect(&rt, "room");
    let wanted = Status::BadGuard {
        line: 21,
        kind: GuardKind::Full,
    };
    let sentence = "word 2: K is \"0\"; that guard has 16 pairs already, and takes no more";
    expect_explained(&rt, &many, wanted, "teach 0 7 7", sentence);
}

#[test]
fn explains_a_line_too_many(rt: HostRuntime) {
    for (line, count, sentence) in [
        (
            "teach 9 0 0",
            65,
            "this is one teach line too many; a scenario has at most 64",
        ),
        (
            "step s0 tick",
            100_001,
            "this is one step line too many; a scenario has at most 100000",
        ),
    ] {
        let row = joined(rt.alloc(), &[line, "\n"]).expect(&rt, "room");
        let rows = row.repeat(rt.alloc(), count).expect(&rt, "room");
        let mut text = joined(rt.alloc(), &[HEAD]).expect(&rt, "room");
        text.extend_from_slice(&rows).expect(&rt, "room");
        let wanted = Status::BadScenario {
            line: count as u32 + 4,
            kind: BadKind::Full,
        };
        expect_explained(&rt, &text, wanted, line, sentence);
    }
}

#[test]
fn tells_what_a_scenario_has(rt: HostRuntime) {
    let text = joined(
        rt.alloc(),
        &[
            HEAD,
            TASK,
            "teach 0 1 2\nstep c0 wake 1\nstep s0 turn\nstep s1 turn\nend\n",
        ],
    )
    .expect(&rt, "room");
    let output = "a scenario: siblings 2, tasks 2, teach lines 1, steps 3\n";
    expect_output(&rt, &text, Status::Done, output.as_bytes());
}
