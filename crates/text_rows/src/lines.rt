//! The lines of entries: whole, in one piece, and up to a fault.

use cs_types::{Actor, Ask, Entry, Errno, Event, Kind, Pick, Policy, Reply};
use memory_outside::MemSink;
use room_report::entry_text;
use row_inputs::sink_of;
use scenario_text::Line;
use std::process::Abort;

/// An entry of a caller.
macro_rules! caller {
    ($caller:literal, $event:expr, $reply:expr) => {
        Entry {
            actor: Actor::Caller($caller),
            event: $event,
            reply: $reply,
        }
    };
}

/// An entry of a sibling, of an event of its own.
macro_rules! sibling {
    ($sibling:literal, $event:ident, $reply:expr) => {
        Entry {
            actor: Actor::Sibling($sibling),
            event: Event::$event($sibling),
            reply: $reply,
        }
    };
}

/// The call of this task.
macro_rules! prctl {
    ($caller:literal, $cmd:literal, $pid:literal, $scope:literal, $addr:literal) => {
        Event::Prctl {
            caller: $caller,
            ask: Ask {
                cmd: $cmd,
                pid: $pid,
                scope: $scope,
                addr: $addr,
            },
        }
    };
}

macro_rules! fork {
    ($caller:literal, $thread:literal) => {
        Event::Fork {
            caller: $caller,
            thread: $thread,
        }
    };
}

/// This task is given this policy.
macro_rules! setsched {
    ($pid:literal, $policy:expr) => {
        Event::SetSched {
            pid: $pid,
            policy: $policy,
        }
    };
}

macro_rules! pick {
    ($kind:ident, $run:literal, $core:literal, $forced:literal) => {
        Pick {
            kind: Kind::$kind,
            run: $run,
            core: $core,
            forced: $forced,
        }
    };
}

/// A task that sleeps, and what its sibling picks then.
macro_rules! slept {
    ($pid:literal, $pick:expr) => {
        Reply::Slept {
            pid: $pid,
            pick: $pick,
        }
    };
}

/// A task that ends, and what its sibling picks then.
macro_rules! ended {
    ($pid:literal, $pick:expr) => {
        Reply::Ended {
            pid: $pid,
            pick: $pick,
        }
    };
}

/// Entries, each with its line: of wakes, turns, tries to steal, schedules, blocks, exits, ticks, advances, forks,
/// calls, calls that answer with a value, policies, siblings that leave and come back, each error, and guards.
const LINES: [(Entry, &str); 48] = [
    (
        caller!(0, Event::Wake(1), Reply::Woken(0)),
        "c0 wake 1: Woken 0\n",
    ),
    (
        caller!(7, Event::Wake(42), Reply::Awake),
        "c7 wake 42: Awake\n",
    ),
    (
        caller!(1, Event::Wake(999999), Reply::NoTask),
        "c1 wake 999999: NoTask\n",
    ),
    (
        caller!(
            255,
            Event::Wake(4294967295),
            slept!(
                4294967295,
                pick!(Plain, 4294967295, 18446744073709551615, 255)
            )
        ),
        "c255 wake 4294967295: Slept 4294967295 Plain 4294967295 core 18446744073709551615 forced 255\n",
    ),
    (
        sibling!(0, Turn, Reply::Picked(pick!(Plain, 1, 0, 0))),
        "s0 turn: Plain 1 core 0 forced 0\n",
    ),
    (
        sibling!(1, Turn, Reply::Picked(pick!(Plain, 0, 7, 2))),
        "s1 turn: Plain idle core 7 forced 2\n",
    ),
    (
        sibling!(0, Turn, Reply::Picked(pick!(Plain, 0, 0, 0))),
        "s0 turn: Plain idle core 0 forced 0\n",
    ),
    (sibling!(2, Turn, Reply::Nothing), "s2 turn: Nothing\n"),
    (
        sibling!(
            7,
            Turn,
            Reply::Stole {
                pid: 4294967295,
                from: 255
            }
        ),
        "s7 turn: Stole 4294967295 from 255\n",
    ),
    (
        sibling!(0, Turn, Reply::Missed(255)),
        "s0 turn: Missed 255\n",
    ),
    (sibling!(1, Turn, Reply::Offline), "s1 turn: Offline\n"),
    (
        sibling!(7, Resched, Reply::Picked(pick!(Selected, 0, 2, 7))),
        "s7 resched: Selected idle core 2 forced 7\n",
    ),
    (
        sibling!(1, Resched, Reply::Picked(pick!(Adopted, 3, 1, 0))),
        "s1 resched: Adopted 3 core 1 forced 0\n",
    ),
    (
        sibling!(0, Block, slept!(3, pick!(Plain, 1, 0, 0))),
        "s0 block: Slept 3 Plain 1 core 0 forced 0\n",
    ),
    (sibling!(3, Block, Reply::Idle), "s3 block: Idle\n"),
    (
        sibling!(0, Exit, ended!(3, pick!(Plain, 1, 0, 0))),
        "s0 exit: Ended 3 Plain 1 core 0 forced 0\n",
    ),
    (
        sibling!(
            255,
            Exit,
            ended!(
                4294967295,
                pick!(Plain, 4294967295, 18446744073709551615, 255)
            )
        ),
        "s255 exit: Ended 4294967295 Plain 4294967295 core 18446744073709551615 forced 255\n",
    ),
    (
        sibling!(1, Exit, Reply::HasThreads),
        "s1 exit: HasThreads\n",
    ),
    (sibling!(7, Exit, Reply::Idle), "s7 exit: Idle\n"),
    (
        sibling!(0, Tick, Reply::Ticked(true)),
        "s0 tick: Ticked yes\n",
    ),
    (
        sibling!(7, Tick, Reply::Ticked(false)),
        "s7 tick: Ticked no\n",
    ),
    (
        caller!(
            0,
            Event::Advance(1000000000),
            Reply::Now(18446744073709551615)
        ),
        "c0 advance 1000000000: Now 18446744073709551615\n",
    ),
    (
        caller!(0, fork!(1, true), Reply::Child(2)),
        "c0 fork 1 thread: Child 2\n",
    ),
    (
        caller!(0, fork!(4294967295, false), Reply::Child(4294967295)),
        "c0 fork 4294967295 process: Child 4294967295\n",
    ),
    (
        caller!(0, fork!(1, false), Reply::Refused(Errno::Eagain)),
        "c0 fork 1 process: EAGAIN\n",
    ),
    (
        caller!(0, fork!(999999, true), Reply::NoCaller),
        "c0 fork 999999 thread: NoCaller\n",
    ),
    (
        caller!(0, prctl!(1, 1, 0, 0, 0), Reply::Zero),
        "c0 prctl 1 1 0 0 0: 0\n",
    ),
    (
        caller!(0, prctl!(999999, 2, 2147483647, 0, 0), Reply::NoCaller),
        "c0 prctl 999999 2 2147483647 0 0: NoCaller\n",
    ),
    (
        caller!(0, prctl!(1, 0, 0, 0, 0), Reply::Value(2)),
        "c0 prctl 1 0 0 0 0: 0 value 2\n",
    ),
    (
        caller!(
            255,
            prctl!(
                4294967295,
                4294967295,
                -2147483648,
                4294967295,
                18446744073709551615
            ),
            Reply::Value(18446744073709551615)
        ),
        "c255 prctl 4294967295 4294967295 -2147483648 4294967295 18446744073709551615: 0 value 18446744073709551615\n",
    ),
    (
        caller!(0, setsched!(1, Policy::Stop), Reply::Set),
        "c0 setsched 1 stop: Set\n",
    ),
    (
        caller!(
            0,
            setsched!(1, Policy::Deadline(18446744073709551615)),
            Reply::Set
        ),
        "c0 setsched 1 dl:18446744073709551615: Set\n",
    ),
    (
        caller!(0, setsched!(1, Policy::Fifo(99)), Reply::Set),
        "c0 setsched 1 fifo:99: Set\n",
    ),
    (
        caller!(0, setsched!(1, Policy::Rr(1)), Reply::Set),
        "c0 setsched 1 rr:1: Set\n",
    ),
    (
        caller!(0, setsched!(999999, Policy::Fair(-20)), Reply::NoTask),
        "c0 setsched 999999 fair:-20: NoTask\n",
    ),
    (
        caller!(0, Event::Offline(7), Reply::Done),
        "c0 offline 7: Done\n",
    ),
    (
        caller!(0, Event::Online(0), Reply::Already),
        "c0 online 0: Already\n",
    ),
    (
        caller!(0, Event::Offline(0), Reply::Refused(Errno::Ebusy)),
        "c0 offline 0: EBUSY\n",
    ),
    (
        caller!(0, prctl!(1, 2, 3, 0, 0), Reply::Refused(Errno::Eperm)),
        "c0 prctl 1 2 3 0 0: EPERM\n",
    ),
    (
        caller!(0, prctl!(1, 2, 3, 0, 0), Reply::Refused(Errno::Esrch)),
        "c0 prctl 1 2 3 0 0: ESRCH\n",
    ),
    (
        caller!(0, prctl!(1, 2, 3, 0, 0), Reply::Refused(Errno::Enomem)),
        "c0 prctl 1 2 3 0 0: ENOMEM\n",
    ),
    (
        caller!(0, prctl!(1, 2, 3, 0, 0), Reply::Refused(Errno::Efault)),
        "c0 prctl 1 2 3 0 0: EFAULT\n",
    ),
    (
        caller!(0, prctl!(1, 2, 3, 0, 0), Reply::Refused(Errno::Enodev)),
        "c0 prctl 1 2 3 0 0: ENODEV\n",
    ),
    (
        caller!(0, prctl!(1, 2, 3, 0, 0), Reply::Refused(Errno::Einval)),
        "c0 prctl 1 2 3 0 0: EINVAL\n",
    ),
    (
        caller!(0, Event::Load(0), Reply::Loaded),
        "c0 load 0: Loaded\n",
    ),
    (
        caller!(0, Event::Load(15), Reply::NoGuard),
        "c0 load 15: NoGuard\n",
    ),
    (
        caller!(0, Event::Unload(3), Reply::Dropped),
        "c0 unload 3: Dropped\n",
    ),
    (
        caller!(0, Event::Unload(0), Reply::NoGuard),
        "c0 unload 0: NoGuard\n",
    ),
];

// Each entry is written in one piece.
#[test]
fn lines_of_entries(rt: HostRuntime) {
    for (entry, line) in &LINES {
        let mut sink = sink_of(rt.alloc(), 128, &[]).expect(&rt, "room");
        entry_text(entry, &mut Line::new(), &mut sink).expect(&rt, line);
        assert!(rt; sink.bytes() == line.as_bytes() && sink.calls() == 1);
    }
}

/// Linux' numbers of the errors.
const NUMBERS: [(Errno, i32); 8] = [
    (Errno::Eperm, 1),
    (Errno::Esrch, 3),
    (Errno::Eagain, 11),
    (Errno::Enomem, 12),
    (Errno::Efault, 14),
    (Errno::Ebusy, 16),
    (Errno::Enodev, 19),
    (Errno::Einval, 22),
];

#[test]
fn numbers_of_errors(rt: HostRuntime) {
    for (errno, number) in &NUMBERS {
        assert!(rt; errno.number() == *number);
    }
}

/// Expects that the entry's line is written whole or not, and that the sink then has this text.
fn expect_written(
    rt: &impl Abort,
    sink: &mut MemSink,
    entry: &Entry,
    is_written: bool,
    text: &str,
) {
    let is_whole = entry_text(entry, &mut Line::new(), sink).is_ok();
    assert!(rt; is_whole == is_written && sink.bytes() == text.as_bytes());
}

#[test]
fn fails_where_the_sink_does(rt: HostRuntime) {
    let mut sink = sink_of(rt.alloc(), 7, &[2]).expect(&rt, "room");
    let entry = caller!(0, Event::Wake(1), Reply::Woken(0));
    expect_written(&rt, &mut sink, &entry, false, "c0 wake");
    expect_written(&rt, &mut sink, &entry, true, "c0 wakec0 wake 1: Woken 0\n");
}
