//! The command `upgrade`: texts of both versions, what their runs write, faults of users, and devices that fail.

ghost use Rattle.std.specs.Prelude.{◌<◌};

use crate::commands::expect_run;
use memory_outside::{MemSink, MemSource};
use row_inputs::{INPUT, OUTPUT_LINES, joined, sink_of, source_of, words_of};
use scenario_runner::{Status, upgrade};
use scenario_text::BadKind;
use std::process::Abort;
use std::sync::Wait;
use std::thread::Threads;

/// The lines of `INPUT` in version 2.
const UPGRADED: [&str; 14] = [
    "coresched 2\n",
    "siblings 2\n",
    "limits 8 8 65536\n",
    "user 0 1000 1000 1000 1000 1000 1000 0 1 1\n",
    "task 1 1 1 0 fifo:10 0\n",
    "task 2 2 2 0 fifo:10 0\n",
    "task 3 3 3 0 fifo:20 0\n",
    "step c0 wake 1\n",
    "step c0 wake 2\n",
    "step s0 turn\n",
    "step c0 wake 3\n",
    "step s0 turn\n",
    "step s0 block\n",
    "end\n",
];

/// Expects that `run` and `upgrade` end with this status over this text, and write these lines, by as many calls. The
/// source gives this many bytes at once. They fail at these calls, if they come to them.
fn expect_upgrade<R: Threads + Wait + AllocGlobal + Sync + Abort>(
    rt: &R,
    text: &[u8],
    most: usize,
    fails: (u64, u64),
    wanted: Status,
    lines: &[&str],
)
    requires { 0 < most }
{
    let alloc = rt.alloc();
    let output = joined(alloc, lines).expect(rt, "room");
    let words = words_of(alloc, &["upgrade"]).expect(rt, "room");
    let mut source = source_of(alloc, text, most, &[fails.0]).expect(rt, "room");
    let mut sink = sink_of(alloc, 4096, &[fails.1]).expect(rt, "room");
    let status = upgrade::<MemSource, MemSink>(alloc, &words, &mut source, &mut sink);
    assert!(rt; status == wanted);
    assert!(rt; sink.bytes() == output.as_slice());
    let calls = expect_run(rt, &["upgrade"], text, (most, 4096), fails, wanted, &output);
    assert!(rt; calls == (source.calls(), sink.calls()));
}

#[test]
fn upgrades_both_versions(rt: HostRuntime) {
    let second = joined(rt.alloc(), &UPGRADED).expect(&rt, "room");
    for text in [INPUT.as_bytes(), &second] {
        expect_upgrade(&rt, text, 4096, (0, 0), Status::Done, &UPGRADED);
    }
}

// What was upgraded plays as before.
#[test]
fn upgraded_text_is_played(rt: HostRuntime) {
    let second = joined(rt.alloc(), &UPGRADED).expect(&rt, "room");
    let output = joined(rt.alloc(), &OUTPUT_LINES).expect(&rt, "room");
    expect_run(
        &rt,
        &["replay"],
        &second,
        (4096, 4096),
        (0, 0),
        Status::Done,
        &output,
    );
}

/// The report of the run of those on 16 siblings, behind the same entries.
const WIDE_REPORT: [&str; 25] = [
    "report\n",
    "clock 0\n",
    "numbers 7 0\n",
    "core 0 forced 0 occupation 0\n",
    "intervals 0\n",
    "cpu 0 online runs 1 number 0\n",
    "cpu 1 online runs idle number 0\n",
    "cpu 2 online runs idle number 0\n",
    "cpu 3 online runs idle number 0\n",
    "cpu 4 online runs idle number 0\n",
    "cpu 5 online runs idle number 0\n",
    "cpu 6 online runs idle number 0\n",
    "cpu 7 online runs idle number 0\n",
    "cpu 8 online runs idle number 0\n",
    "cpu 9 online runs idle number 0\n",
    "cpu 10 online runs idle number 0\n",
    "cpu 11 online runs idle number 0\n",
    "cpu 12 online runs idle number 0\n",
    "cpu 13 online runs idle number 0\n",
    "cpu 14 online runs idle number 0\n",
    "cpu 15 online runs idle number 0\n",
    "task 1 cpu 0 queued cookie 0 forced 0 vtime 0\n",
    "task 2 cpu 0 queued cookie 0 forced 0 vtime 0\n",
    "task 3 cpu 0 asleep cookie 0 forced 0 vtime 0\n",
    "done\n",
];

#[test]
fn wide_core_makes_the_same_entries(rt: HostRuntime) {
    let mut text = joined(rt.alloc(), &["coresched 2\n", "siblings 16\n"]).expect(&rt, "room");
    let rest = joined(rt.alloc(), &UPGRADED[2..]).expect(&rt, "room");
    text.extend_from_slice(&rest).expect(&rt, "room");
    let mut output = joined(rt.alloc(), &OUTPUT_LINES[..6]).expect(&rt, "room");
    let report = joined(rt.alloc(), &WIDE_REPORT).expect(&rt, "room");
    output.extend_from_slice(&report).expect(&rt, "room");
    expect_run(
        &rt,
        &["replay"],
        &text,
        (4096, 4096),
        (0, 0),
        Status::Done,
        &output,
    );
}

// Users are numbered as the tasks first have them, a teach line gets another number, and its guard is not looked for.
#[test]
fn upgrades_users_and_teaches(rt: HostRuntime) {
    let text = "coresched 1\nsiblings 8\nlimits 4 4 65536\n\
                task 5 5 5 0 stop 7 7 7 7 7 7 1 0 0\n\
                task 2 2 2 7 dl:9 0 0 0 0 0 0 0 1 1\n\
                task 3 3 3 1 fair:-20 7 7 7 7 7 7 1 0 0\n\
                teach 15 1 2\nstep s7 tick\nend\n";
    let lines = [
        "coresched 2\n",
        "siblings 8\n",
        "limits 4 4 65536\n",
        "user 0 7 7 7 7 7 7 1 0 0\n",
        "user 1 0 0 0 0 0 0 0 1 1\n",
        "task 5 5 5 0 stop 0\n",
        "task 2 2 2 7 dl:9 1\n",
        "task 3 3 3 1 fair:-20 0\n",
        "teach 15 1 2\n",
        "step s7 tick\n",
        "end\n",
    ];
    expect_upgrade(&rt, text.as_bytes(), 4096, (0, 0), Status::Done, &lines);
}

/// Expects that `replay` and `upgrade` refuse the lines with another one between them for the users, at this line.
fn expect_refused<R: Threads + Wait + AllocGlobal + Sync + Abort>(
    rt: &R,
    before: &[&str],
    other: &str,
    behind: &[&str],
    line: u32,
) {
    let alloc = rt.alloc();
    let mut text = joined(alloc, before).expect(rt, "room");
    let rest = joined(alloc, behind).expect(rt, "room");
    text.extend_from_slice(other.as_bytes()).expect(rt, "room");
    text.extend_from_slice(&rest).expect(rt, "room");
    let wanted = Status::BadScenario {
        line,
        kind: BadKind::User,
    };
    expect_upgrade(rt, &text, 4096, (0, 0), wanted, &[]);
    expect_run(rt, &["replay"], &text, (4096, 4096), (0, 0), wanted, b"");
}

// A task of no user, and a user of no task, which is told at the first step line.
#[test]
fn refuses_wrong_users(rt: HostRuntime) {
    let task = "task 2 2 2 0 fifo:10 1\n";
    let user = "user 1 0 0 0 0 0 0 0 1 1\n";
    expect_refused(&rt, &UPGRADED[..5], task, &UPGRADED[6..], 6);
    expect_refused(&rt, &UPGRADED[..4], user, &UPGRADED[4..], 9);
}

// The source gives a byte at a call, and then its end. The sink takes a line at a call.
#[test]
fn upgrades_with_faults(rt: HostRuntime) {
    let text = INPUT.as_bytes();
    let bytes = INPUT.len() as u64;
    for call in [1, 2, bytes, bytes + 1] {
        expect_upgrade(&rt, text, 1, (call, 0), Status::ReadFault, &[]);
    }
    for call in 1..15 {
        let lines = &UPGRADED[..call as usize - 1];
        expect_upgrade(&rt, text, 4096, (0, call), Status::WriteFault, lines);
    }
}
