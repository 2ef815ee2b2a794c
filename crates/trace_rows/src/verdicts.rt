//! Verdicts on runs of two scenarios, over the machine of lists.

use cs_outside::PairGuard;
use cs_types::List;
use plain_room::PlainRoom;
use row_inputs::{INPUT, joined};
use scenario_input::{guards, taught};
use scenario_text::read;
use std::process::Abort;
use trace_check::{Verdict, judge};

/// Nothing happens: there is no task.
const NOTHING: &str = "coresched 1\nsiblings 2\nlimits 4 4 65536\nend\n";

/// What a run of that writes, with four guards.
const NOTHING_RUN: [&str; 12] = [
    "report\n",
    "clock 0\n",
    "numbers 0 0\n",
    "core 0 forced 0 occupation 0\n",
    "intervals 0\n",
    "cpu 0 online runs idle number 0\n",
    "cpu 1 online runs idle number 0\n",
    "guard 0 bench asked 0\n",
    "guard 1 bench asked 0\n",
    "guard 2 bench asked 0\n",
    "guard 3 bench asked 0\n",
    "done\n",
];

/// The run of `INPUT` in the order of its lines.
const RUN: [&str; 21] = [
    "c0 wake 1: Woken 0\n",
    "c0 wake 2: Woken 0\n",
    "s0 turn: Plain 1 core 0 forced 0\n",
    "c0 wake 3: Woken 0\n",
    "s0 turn: Plain 3 core 0 forced 0\n",
    "s0 block: Slept 3 Plain 1 core 0 forced 0\n",
    "report\n",
    "clock 0\n",
    "numbers 7 0\n",
    "core 0 forced 0 occupation 0\n",
    "intervals 0\n",
    "cpu 0 online runs 1 number 0\n",
    "cpu 1 online runs idle number 0\n",
    "task 1 cpu 0 queued cookie 0 forced 0 vtime 0\n",
    "task 2 cpu 0 queued cookie 0 forced 0 vtime 0\n",
    "task 3 cpu 0 asleep cookie 0 forced 0 vtime 0\n",
    "guard 0 bench asked 0\n",
    "guard 1 bench asked 0\n",
    "guard 2 bench asked 0\n",
    "guard 3 bench asked 0\n",
    "done\n",
];

/// The verdict on a run whose first line has this number. It is these lines, with another text between them.
fn verdict_of<R: AllocGlobal + Abort>(
    rt: &R,
    text: &str,
    first: u32,
    before: &[&str],
    other: &str,
    behind: &[&str],
) -> Verdict {
    let alloc = rt.alloc();
    let mut run = joined(alloc, before).expect(rt, "room");
    let rest = joined(alloc, behind).expect(rt, "room");
    run.extend_from_slice(other.as_bytes()).expect(rt, "room");
    run.extend_from_slice(&rest).expect(rt, "room");
    let scenario = read(alloc, text.as_bytes()).expect(rt, "a scenario");
    let four = guards(rt).expect(rt, "room");
    let bench = taught(alloc, four, scenario.teaches.items())
        .ok()
        .expect(rt, "room");
    assert!(rt; first < 1000 && run.len() < 100_000);
    judge::<PlainRoom<PairGuard>, _>(alloc, &scenario, bench, first, &run).expect(rt, "room")
}

/// Whether this is told of a line, or nothing.
fn is_told(line: &Option<List<u8>>, wanted: Option<&str>) -> bool {
    match (line, wanted) {
        (Some(line), Some(wanted)) => line.items() == wanted.as_bytes(),
        (None, None) => true,
        _ => false,
    }
}

/// Expects that a run of `INPUT` with another text between these lines is refuted at this line, with what is wanted
/// there and what is found.
fn expect_no<R: AllocGlobal + Abort>(
    rt: &R,
    before: &[&str],
    other: &str,
    behind: &[&str],
    wrong: u32,
    told: (Option<&str>, Option<&str>),
) {
    match verdict_of(rt, INPUT, 14, before, other, behind) {
        Verdict::Yes => assert!(rt; false),
        Verdict::No { line, want, found } => {
            assert!(rt; line == wrong);
            assert!(rt; is_told(&want, told.0));
            assert!(rt; is_told(&found, told.1));
        }
    }
}

#[test]
fn run_of_nothing(rt: HostRuntime) {
    let verdict = verdict_of(&rt, NOTHING, 5, &NOTHING_RUN, "", &[]);
    assert!(&rt; matches!(verdict, Verdict::Yes));
}

#[test]
fn run_in_file_order(rt: HostRuntime) {
    let verdict = verdict_of(&rt, INPUT, 14, &RUN, "", &[]);
    assert!(&rt; matches!(verdict, Verdict::Yes));
}

// The line names the next step of its actor, and another reply.
#[test]
fn another_reply(rt: HostRuntime) {
    let found = "s0 turn: Plain 1 core 0 forced 0";
    let told = (Some("s0 turn: Plain 3 core 0 forced 0"), Some(found));
    let line = "s0 turn: Plain 1 core 0 forced 0\n";
    expect_no(&rt, &RUN[..4], line, &RUN[5..], 18, told);
}

// The second step of an actor before its first, and what names no step.
#[test]
fn lines_of_no_next_step(rt: HostRuntime) {
    let line = "c0 wake 2: Woken 0";
    expect_no(
        &rt,
        &[],
        "c0 wake 2: Woken 0\n",
        &RUN[2..],
        14,
        (None, Some(line)),
    );
    expect_no(
        &rt,
        &RUN[..6],
        "c0 wake 1: Woken 0\n",
        &RUN[6..],
        20,
        (Some("report"), Some("c0 wake 1: Woken 0")),
    );
    expect_no(
        &rt,
        &[],
        "s0 block\n",
        &RUN[..],
        14,
        (None, Some("s0 block")),
    );
}

#[test]
fn missing_lines(rt: HostRuntime) {
    expect_no(&rt, &[], "", &[], 14, (None, None));
    expect_no(&rt, &RUN[..5], "", &[], 19, (None, None));
    expect_no(&rt, &RUN[..20], "", &[], 34, (Some("done"), None));
}

// The last line without its line feed, and one behind it.
#[test]
fn wrong_ends(rt: HostRuntime) {
    expect_no(
        &rt,
        &RUN[..20],
        "done",
        &[],
        34,
        (Some("done"), Some("done")),
    );
    expect_no(&rt, &RUN, "done\n", &[], 35, (None, Some("done")));
    expect_no(&rt, &RUN, "\n", &[], 35, (None, Some("")));
}

// What is found is shown by its first 200 bytes, and `?` for each that cannot be printed.
#[test]
fn long_line(rt: HostRuntime) {
    let line = concat!(
        "\taaaaaaaaaaaaaaaaaaaaaaaaaaaaaaaaaaaaaaaaaaaaaaaaaaaaaaaaaaaaaaaaaaaaaaaaaaaaaaaaaaaaaaaaaaaaaaaaaaa",
        "aaaaaaaaaaaaaaaaaaaaaaaaaaaaaaaaaaaaaaaaaaaaaaaaaaaaaaaaaaaaaaaaaaaaaaaaaaaaaaaaaaaaaaaaaaaaaaaaaaaab\n",
    );
    let found = concat!(
        "?aaaaaaaaaaaaaaaaaaaaaaaaaaaaaaaaaaaaaaaaaaaaaaaaaaaaaaaaaaaaaaaaaaaaaaaaaaaaaaaaaaaaaaaaaaaaaaaaaaa",
        "aaaaaaaaaaaaaaaaaaaaaaaaaaaaaaaaaaaaaaaaaaaaaaaaaaaaaaaaaaaaaaaaaaaaaaaaaaaaaaaaaaaaaaaaaaaaaaaaaaaa",
    );
    expect_no(&rt, &[], line, &RUN, 14, (None, Some(found)));
}
