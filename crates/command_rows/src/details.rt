//! The worked examples of details: the command plays each, and writes its entries and its report.

use row_inputs::{OF_DETAILS, OF_REMEMBERED, Script, joined, other_line};
use row_runs::replayed;
use scenario_runner::Status;
use std::process::Abort;
use std::sync::Wait;
use std::thread::Threads;

/// Expects that the command plays the script, and writes its entries and its report.
fn expect_played<R: Threads + Wait + AllocGlobal + Sync + Abort>(rt: &R, script: &Script) {
    let output = joined(rt.alloc(), &[script.entries, script.report]).expect(rt, "room");
    let (status, sink) = replayed(rt, script.text.as_bytes()).expect(rt, "room");
    let name = script.name;
    assert!(rt; status == Status::Done, "{name}");
    if let Some(line) = other_line(sink.bytes(), &output) {
        panic!(rt; "{name}: another line {line}");
    }
}

#[test]
fn examples_of_details_are_played(rt: HostRuntime) {
    for script in &OF_DETAILS {
        expect_played(&rt, script);
    }
}

#[test]
fn examples_of_what_is_remembered_are_played(rt: HostRuntime) {
    for script in &OF_REMEMBERED {
        expect_played(&rt, script);
    }
}
