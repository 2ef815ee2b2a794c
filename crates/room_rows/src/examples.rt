//! Worked examples of core scheduling: from the text to the entries and the report, and what the machine
//! shows at the end.

ghost use Rattle.cs_types.specs.Scenario.{IsPlayable};

use cs_types::{Actor, Cookie, Cpu, Entry, Event, Kind, Pid, Reply, Room};
use room_report::{output, report};
use row_inputs::{
    CHARGED_AT_EXIT, FORCED_IDLE, FORCED_IDLE_TICK, FORK_AND_EXIT, OF_SELECTIONS, OF_TASKS, Script,
    joined, other_line, sink_of,
};
use row_runs::{played, replayed};
use scenario_runner::Status;
use std::process::Abort;
use std::sync::Wait;
use std::thread::Threads;

/// What the program writes for the script: its entries and its report.
fn output_of<R: AllocGlobal + Abort>(rt: &R, script: &Script) -> Vec<u8> {
    joined(rt.alloc(), &[script.entries, script.report]).expect(rt, "room")
}

/// Expects that the command plays the script, and writes its entries and its report.
fn expect_played<R: Threads + Wait + AllocGlobal + Sync + Abort>(rt: &R, script: &Script) {
    let output = output_of(rt, script);
    let (status, sink) = replayed(rt, script.text.as_bytes()).expect(rt, "room");
    let name = script.name;
    assert!(rt; status == Status::Done, "{name}");
    if let Some(line) = other_line(sink.bytes(), &output) {
        panic!(rt; "{name}: another line {line}");
    }
}

#[test]
fn examples_of_selections_are_played(rt: HostRuntime) {
    for script in &OF_SELECTIONS {
        expect_played(&rt, script);
    }
}

#[test]
fn examples_of_tasks_are_played(rt: HostRuntime) {
    for script in &OF_TASKS {
        expect_played(&rt, script);
    }
}

/// Expects the output of the first example, in pieces of 7 bytes at most, and a part of its report. The second
/// line of the report needs two pieces, and the other sink fails at the second of these.
fn expect_texts<R: AllocGlobal + Abort, M: Room>(rt: &R, room: M) {
    let mut sink = sink_of(rt.alloc(), 7, &[]).expect(rt, "room");
    output(&room, &mut sink).expect(rt, "a sink that takes all");
    assert!(rt; sink.bytes() == output_of(rt, &FORCED_IDLE).as_slice());
    let mut sink = sink_of(rt.alloc(), 7, &[3]).expect(rt, "room");
    assert!(rt; report(&room, &mut sink).is_err());
    assert!(rt; sink.bytes() == b"report\nclock 1".as_slice());
}

#[test]
fn texts_of_a_machine(rt: HostRuntime) {
    expect_texts(
        &rt,
        played(rt.alloc(), &FORCED_IDLE).expect(&rt, "a machine"),
    );
}

/// Expects a sibling that is online: what it runs, its own number, and whether it is pending.
fn expect_cpu<R: Abort, M: Room>(rt: &R, room: &M, place: Cpu, wanted: (Pid, u64, bool)) {
    let cpu = room.cpu(place).expect(rt, "a sibling");
    assert!(rt; cpu.online && (cpu.run, cpu.number, cpu.pending) == wanted);
}

/// Expects what is common to the siblings, and each of them.
fn expect_core<R: Abort, M: Room>(rt: &R, room: &M) {
    assert!(rt; room.clock() == 6_000_000 && room.numbers() == (7, 7));
    let core = room.core();
    assert!(rt; (core.cookie, core.forced, core.occupation, core.intervals) == (0, 1, 1, 1));
    expect_cpu(rt, room, 0, (0, 7, false));
    expect_cpu(rt, room, 1, (0, 6, true));
    assert!(rt; room.cpu(2).is_none());
}

/// Whether an entry is one of the final drain, in which this sibling adopts this task.
fn is_adoption_at_end(entry: &Entry, cpu: Cpu, run: Pid) -> bool {
    matches!(entry.actor, Actor::End)
        && matches!(entry.event, Event::Resched(other) if other == cpu)
        && matches!(entry.reply, Reply::Picked(pick) if matches!(pick.kind, Kind::Adopted) && pick.run == run)
}

/// Expects that sibling 1 alone is pending, and has adopted its task in the final drain.
fn expect_end<R: Abort, M: Room>(rt: &R, room: &mut M)
    requires { IsPlayable (M.opening room.old).scenario }
{
    assert!(rt; room.siblings() == 2 && 4 <= room.spare());
    assert!(rt; room.drain() == 1);
    assert!(rt; room.length() == 11);
    let entry = room.entry(10).expect(rt, "an entry");
    assert!(rt; is_adoption_at_end(&entry, 1, 2));
    expect_cpu(rt, room, 1, (2, 7, false));
}

/// Expects this task after the pid: its pid, its sibling, its cookie, its total of forced idle and its
/// virtual time, both in ns. It is queued or asleep.
fn expect_task<R: Abort, M: Room>(
    rt: &R,
    room: &M,
    after: Pid,
    is_queued: bool,
    wanted: (Pid, Cpu, Cookie, u64, u128),
) {
    let task = room.task_after(after).expect(rt, "a task");
    assert!(rt; task.queued == is_queued);
    assert!(rt; (task.pid, task.cpu, task.cookie, task.forced, task.vtime) == wanted);
}

/// Expects the siblings, the tasks in the order of their pids, and the end of an example.
fn expect_views<R: Abort, M: Room>(rt: &R, mut room: M)
    requires { IsPlayable (M.opening room).scenario }
{
    expect_core(rt, &room);
    expect_task(rt, &room, 0, true, (1, 0, 1, 6_000_000, 6_000_000));
    expect_task(rt, &room, 1, true, (2, 1, 0, 0, 0));
    assert!(rt; room.task_after(2).is_none());
    expect_end(rt, &mut room);
}

#[test]
fn views_of_a_machine(rt: HostRuntime) {
    expect_views(
        &rt,
        played(rt.alloc(), &FORCED_IDLE_TICK).expect(&rt, "a machine"),
    );
}

/// Expects that the tasks with these pids and totals of forced idle in ns have ended, in this order, and are no
/// tasks any more, and that this one lives, as `expect_task` does, and no other.
fn expect_one_alive<R: Abort, M: Room>(
    rt: &R,
    room: M,
    ended: &[(Pid, u64)],
    is_queued: bool,
    task: (Pid, Cpu, Cookie, u64, u128),
) {
    for (place, wanted) in ended.iter().enumerate() {
        let end = room.ended(place as u64).expect(rt, "an end");
        assert!(rt; (end.pid, end.forced) == *wanted);
    }
    assert!(rt; room.ended(ended.len() as u64).is_none());
    expect_task(rt, &room, 0, is_queued, task);
    assert!(rt; room.task_after(task.0).is_none());
}

// The one that lives has its cookie still.
#[test]
fn children_that_ended(rt: HostRuntime) {
    let room = played(rt.alloc(), &FORK_AND_EXIT).expect(&rt, "a machine");
    expect_one_alive(&rt, room, &[(2, 0), (3, 0)], false, (1, 0, 1, 0, 0));
}

#[test]
fn task_that_ended(rt: HostRuntime) {
    let room = played(rt.alloc(), &CHARGED_AT_EXIT).expect(&rt, "a machine");
    expect_one_alive(&rt, room, &[(1, 10)], true, (2, 1, 2, 0, 0));
}
