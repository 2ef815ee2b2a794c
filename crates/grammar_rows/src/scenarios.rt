//! Texts of scenarios: one that is read, texts that are no scenario's, one for each rule of the grammar with
//! its first bad line and kind, and the limit of steps on both sides.

use crate::tables::{
    HEAD, HEAD_OF_SECOND, POLICIES, READ_OF_SECOND, REFUSED_STEPS, REFUSED_TASKS, REFUSED_TEACHES,
    REFUSED_TEXTS, REFUSED_USERS, Refused, STEPS,
};
use cs_types::{Scenario, TaskSpec};
use row_inputs::{INPUT, joined};
use row_runs::replayed;
use scenario_runner::Status;
use scenario_text::{BadKind, ReadFault, read};
use std::process::Abort;
use std::sync::Wait;
use std::thread::Threads;

/// How many tasks and how many steps the scenario of a text has. The name says which text it is.
fn counts_of<R: AllocGlobal + Abort>(rt: &R, text: &[u8], name: &str) -> (usize, usize) {
    let scenario = read(rt.alloc(), text).expect(rt, name);
    (scenario.tasks.items().len(), scenario.steps.items().len())
}

// What is written to the items of a list stays in it.
#[test]
fn reads_a_scenario(rt: HostRuntime) {
    let mut scenario = read(rt.alloc(), INPUT.as_bytes()).expect(&rt, "a scenario");
    assert!(rt;
        matches!(
            &scenario,
            Scenario {
                version: 1,
                siblings: 2,
                task_limit: 8,
                cookie_limit: 8,
                user_top: 65536,
                ..
            }
        )
    );
    assert!(rt; (scenario.tasks.items().len(), scenario.steps.items().len()) == (3, 6));
    scenario.tasks.items_mut().reverse();
    assert!(rt;
        matches!(
            scenario.tasks.items().first(),
            Some(TaskSpec { pid: 3, .. })
        )
    );
}

/// How many tasks and how many steps the scenario of the head, one line and an end has.
fn counts_with<R: AllocGlobal + Abort>(rt: &R, line: &str) -> (usize, usize) {
    let text = joined(rt.alloc(), &[HEAD, line, "\nend\n"]).expect(rt, "room");
    counts_of(rt, &text, line)
}

#[test]
fn reads_steps(rt: HostRuntime) {
    for line in STEPS.lines() {
        assert!(rt; counts_with(&rt, line).1 == 1);
    }
}

#[test]
fn reads_policies(rt: HostRuntime) {
    for line in POLICIES.lines() {
        assert!(rt; counts_with(&rt, line).0 == 2);
    }
}

/// Expects that the text, which breaks this rule, is refused with this first bad line and what is wrong with it. The
/// command ends with that too, and writes nothing.
fn expect_bad<R: Threads + Wait + AllocGlobal + Sync + Abort>(
    rt: &R,
    rule: &str,
    text: &[u8],
    line: u32,
    kind: BadKind,
) {
    assert!(rt;
        matches!(
            read(rt.alloc(), text),
            Err(ReadFault::Bad { line: found, kind: what }) if found == line && what == kind
        ),
        "{rule}"
    );
    let (status, sink) = replayed(rt, text).expect(rt, "room");
    assert!(rt; status == Status::BadScenario { line, kind });
    assert!(rt; sink.bytes() == b"".as_slice());
}

/// The head, and after it this text.
fn text_of<R: AllocGlobal + Abort>(rt: &R, head: &str, rest: &str) -> Vec<u8> {
    joined(rt.alloc(), &[head, rest]).expect(rt, "room")
}

/// Expects that each of these texts is refused after the head.
fn expect_refused<R: Threads + Wait + AllocGlobal + Sync + Abort>(
    rt: &R,
    head: &str,
    texts: &[Refused],
) {
    for (rule, line, kind, rest) in texts {
        let text = text_of(rt, head, rest);
        expect_bad(rt, rule, &text, *line, *kind);
    }
}

#[test]
fn refuses_other_texts(rt: HostRuntime) {
    expect_refused(&rt, "", &REFUSED_TEXTS);
    expect_refused(&rt, HEAD, &REFUSED_STEPS);
    expect_refused(&rt, HEAD, &REFUSED_TASKS);
    expect_refused(&rt, HEAD, &REFUSED_TEACHES);
}

#[test]
fn refuses_other_texts_of_version_2(rt: HostRuntime) {
    expect_refused(&rt, HEAD_OF_SECOND, &REFUSED_USERS);
}

#[test]
fn reads_texts_of_version_2(rt: HostRuntime) {
    for (rest, tasks, steps) in READ_OF_SECOND {
        let text = text_of(&rt, HEAD_OF_SECOND, rest);
        assert!(rt; counts_of(&rt, &text, rest) == (tasks, steps));
    }
}

/// A text of a head, one task and this line `count` times.
fn text_of_lines<R: AllocGlobal + Abort>(rt: &R, line: &str, count: usize) -> Vec<u8> {
    let lines = line.repeat(rt.alloc(), count).expect(rt, "room");
    joined(rt.alloc(), &[HEAD, &lines, "end\n"]).expect(rt, "room")
}

/// A step.
const STEP: &str = "step s0 turn\n";

/// A teach line.
const TEACH: &str = "teach 15 0 65535\n";

#[test]
fn reads_100000_steps(rt: HostRuntime) {
    let text = text_of_lines(&rt, STEP, 100_000);
    assert!(rt; counts_of(&rt, &text, "a scenario").1 == 100_000);
}

// Each teach has the number of its own line: four lines stand before the first.
#[test]
fn reads_64_teaches(rt: HostRuntime) {
    let text = text_of_lines(&rt, TEACH, 64);
    let scenario = read(rt.alloc(), &text).expect(&rt, "a scenario");
    let teaches = scenario.teaches.items();
    assert!(rt; teaches.len() == 64);
    for place in 0..64 {
        assert!(rt; teaches[place].line as usize == place + 5);
    }
}

#[test]
fn refuses_a_line_too_many(rt: HostRuntime) {
    for (line, count, last) in [(STEP, 100_001, 100_005), (TEACH, 65, 69)] {
        let text = text_of_lines(&rt, line, count);
        expect_bad(&rt, "the limit of lines", &text, last, BadKind::Full);
    }
}
