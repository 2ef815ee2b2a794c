//! Texts that the writer of scenarios makes: of one without tasks and steps, of one with a line of every
//! form, of one of version 2, and of one that no text is read as. They go line by line, and are read back.

use cs_types::{Actor, Ask, Creds, Event, List, Policy, Scenario, Step, TaskSpec, Teach};
use row_inputs::{joined, sink_of};
use scenario_text::read;
use scenario_writer::scenario_text;
use std::process::Abort;

/// The lines of a scenario without tasks and steps.
const NOTHING: [&str; 4] = [
    "coresched 1\n",
    "siblings 2\n",
    "limits 4 4 65536\n",
    "end\n",
];

/// The lines of a scenario with every policy, every event, and the least and the greatest of each number that
/// has a sign.
const EVERY_FORM: [&str; 33] = [
    "coresched 1\n",
    "siblings 8\n",
    "limits 256 1 9223372036854775807\n",
    "task 1 1 1 0 stop 0 0 0 0 0 0 1 1 0\n",
    "task 2 1 1 7 dl:1000000000 1 2 3 4 5 6 0 0 1\n",
    "task 3 3 1 1 fifo:1 65535 65535 65535 65535 65535 65535 0 1 0\n",
    "task 9999 9999 9999 2 rr:99 1000 1000 1000 1000 1000 1000 0 0 0\n",
    "task 5 9999 9999 3 fair:-20 1000 1000 1000 1000 1000 1000 1 0 0\n",
    "task 6 6 6 4 fair:19 1000 1000 1000 1000 1000 1000 1 1 1\n",
    "teach 0 1000 0\n",
    "teach 15 0 65535\n",
    "step s0 turn\n",
    "step s7 resched\n",
    "step s1 block\n",
    "step s2 exit\n",
    "step s3 tick\n",
    "step c0 wake 1\n",
    "step c7 wake 999999\n",
    "step c1 advance 1000000000\n",
    "step c2 fork 3 thread\n",
    "step c3 fork 4 process\n",
    "step c4 prctl 5 4294967295 -2147483648 4294967295 18446744073709551615\n",
    "step c5 prctl 1 0 2147483647 1 4096\n",
    "step c6 setsched 7 stop\n",
    "step c0 setsched 7 dl:1\n",
    "step c0 setsched 7 fifo:99\n",
    "step c0 setsched 7 rr:1\n",
    "step c0 setsched 7 fair:-1\n",
    "step c0 offline 7\n",
    "step c0 online 0\n",
    "step c0 load 15\n",
    "step c0 unload 0\n",
    "end\n",
];

/// The lines of one of version 2, whose first and third task have one user.
const OF_USERS: [&str; 12] = [
    "coresched 2\n",
    "siblings 16\n",
    "limits 8 8 65536\n",
    "user 0 0 0 0 0 0 0 1 1 0\n",
    "user 1 1 2 3 4 5 6 0 0 1\n",
    "task 1 1 1 0 stop 0\n",
    "task 2 1 1 7 dl:1000000000 1\n",
    "task 3 3 3 15 fifo:1 0\n",
    "teach 0 1000 0\n",
    "step s15 turn\n",
    "step c7 offline 15\n",
    "end\n",
];

/// The lines of one whose numbers are as great as they can be stored, which no text is read as.
const GREATEST: [&str; 7] = [
    "coresched 255\n",
    "siblings 255\n",
    "limits 65535 65535 18446744073709551615\n",
    "task 4294967295 4294967295 4294967295 255 dl:18446744073709551615 4294967295 4294967295 4294967295 4294967295 4294967295 4294967295 1 1 1\n",
    "teach 255 4294967295 4294967295\n",
    "step end prctl 4294967295 4294967295 -2147483648 4294967295 18446744073709551615\n",
    "end\n",
];

/// A task with credentials of one id throughout, and these flags.
macro_rules! task {
    ($pid:expr, $tgid:expr, $pgid:expr, $cpu:expr, $policy:expr, $id:expr, [$cap:expr, $mm:expr, $dumpable:expr]) => {
        TaskSpec {
            pid: $pid,
            tgid: $tgid,
            pgid: $pgid,
            cpu: $cpu,
            policy: $policy,
            creds: Creds {
                ruid: $id,
                euid: $id,
                suid: $id,
                rgid: $id,
                egid: $id,
                sgid: $id,
                cap: $cap,
                mm: $mm,
                dumpable: $dumpable,
            },
        }
    };
}

macro_rules! teach {
    ($line:expr, $guard:expr, $from:expr, $to:expr) => {
        Teach {
            line: $line,
            guard: $guard,
            from: $from,
            to: $to,
        }
    };
}

macro_rules! step {
    ($actor:expr, $event:expr) => {
        Step {
            actor: $actor,
            event: $event,
        }
    };
}

macro_rules! prctl {
    ($caller:expr, $cmd:expr, $pid:expr, $scope:expr, $addr:expr) => {
        Event::Prctl {
            caller: $caller,
            ask: Ask {
                cmd: $cmd,
                pid: $pid,
                scope: $scope,
                addr: $addr,
            },
        }
    };
}

/// The second task, whose ids differ.
const SECOND: TaskSpec = TaskSpec {
    pid: 2,
    tgid: 1,
    pgid: 1,
    cpu: 7,
    policy: Policy::Deadline(1_000_000_000),
    creds: Creds {
        ruid: 1,
        euid: 2,
        suid: 3,
        rgid: 4,
        egid: 5,
        sgid: 6,
        cap: false,
        mm: false,
        dumpable: true,
    },
};

/// The tasks of the scenario with every form.
const TASKS: [TaskSpec; 6] = [
    task!(1, 1, 1, 0, Policy::Stop, 0, [true, true, false]),
    SECOND,
    task!(3, 3, 1, 1, Policy::Fifo(1), 65535, [false, true, false]),
    task!(
        9999,
        9999,
        9999,
        2,
        Policy::Rr(99),
        1000,
        [false, false, false]
    ),
    task!(
        5,
        9999,
        9999,
        3,
        Policy::Fair(-20),
        1000,
        [true, false, false]
    ),
    task!(6, 6, 6, 4, Policy::Fair(19), 1000, [true, true, true]),
];

/// What it teaches.
const TEACHES: [Teach; 2] = [teach!(10, 0, 1000, 0), teach!(11, 15, 0, 65535)];

/// Its steps.
const STEPS: [Step; 21] = [
    step!(Actor::Sibling(0), Event::Turn(0)),
    step!(Actor::Sibling(7), Event::Resched(7)),
    step!(Actor::Sibling(1), Event::Block(1)),
    step!(Actor::Sibling(2), Event::Exit(2)),
    step!(Actor::Sibling(3), Event::Tick(3)),
    step!(Actor::Caller(0), Event::Wake(1)),
    step!(Actor::Caller(7), Event::Wake(999_999)),
    step!(Actor::Caller(1), Event::Advance(1_000_000_000)),
    step!(
        Actor::Caller(2),
        Event::Fork {
            caller: 3,
            thread: true
        }
    ),
    step!(
        Actor::Caller(3),
        Event::Fork {
            caller: 4,
            thread: false
        }
    ),
    step!(
        Actor::Caller(4),
        prctl!(
            5,
            4_294_967_295,
            -2_147_483_648,
            4_294_967_295,
            18_446_744_073_709_551_615
        )
    ),
    step!(Actor::Caller(5), prctl!(1, 0, 2_147_483_647, 1, 4096)),
    step!(
        Actor::Caller(6),
        Event::SetSched {
            pid: 7,
            policy: Policy::Stop
        }
    ),
    step!(
        Actor::Caller(0),
        Event::SetSched {
            pid: 7,
            policy: Policy::Deadline(1)
        }
    ),
    step!(
        Actor::Caller(0),
        Event::SetSched {
            pid: 7,
            policy: Policy::Fifo(99)
        }
    ),
    step!(
        Actor::Caller(0),
        Event::SetSched {
            pid: 7,
            policy: Policy::Rr(1)
        }
    ),
    step!(
        Actor::Caller(0),
        Event::SetSched {
            pid: 7,
            policy: Policy::Fair(-1)
        }
    ),
    step!(Actor::Caller(0), Event::Offline(7)),
    step!(Actor::Caller(0), Event::Online(0)),
    step!(Actor::Caller(0), Event::Load(15)),
    step!(Actor::Caller(0), Event::Unload(0)),
];

/// The tasks of the scenario of version 2.
const TASKS_OF_USERS: [TaskSpec; 3] = [
    task!(1, 1, 1, 0, Policy::Stop, 0, [true, true, false]),
    SECOND,
    task!(3, 3, 3, 15, Policy::Fifo(1), 0, [true, true, false]),
];

/// Its steps.
const STEPS_OF_USERS: [Step; 2] = [
    step!(Actor::Sibling(15), Event::Turn(15)),
    step!(Actor::Caller(7), Event::Offline(15)),
];

/// A task, a teach line and a step of the greatest numbers. No text has an end that calls `prctl`.
const GREAT_TASK: TaskSpec = task!(
    4_294_967_295,
    4_294_967_295,
    4_294_967_295,
    255,
    Policy::Deadline(18_446_744_073_709_551_615),
    4_294_967_295,
    [true, true, true]
);

const GREAT_TEACH: Teach = teach!(4_294_967_295, 255, 4_294_967_295, 4_294_967_295);

const GREAT_STEP: Step = step!(
    Actor::End,
    prctl!(
        4_294_967_295,
        4_294_967_295,
        -2_147_483_648,
        4_294_967_295,
        18_446_744_073_709_551_615
    )
);

/// The scenario of this version and this many siblings, of these limits of tasks and of cookies, of this end of the callers'
/// addresses, and of these lists.
fn scenario_of<R: AllocGlobal + Abort>(
    rt: &R,
    (version, siblings, task_limit, cookie_limit, user_top): (u8, u8, u16, u16, u64),
    tasks: &[TaskSpec],
    teaches: &[Teach],
    steps: &[Step],
) -> Scenario {
    let alloc = rt.alloc();
    Scenario {
        version,
        siblings,
        task_limit,
        cookie_limit,
        user_top,
        tasks: List::of(Vec::from_slice(alloc, tasks).expect(rt, "room")),
        teaches: List::of(Vec::from_slice(alloc, teaches).expect(rt, "room")),
        steps: List::of(Vec::from_slice(alloc, steps).expect(rt, "room")),
    }
}

/// The scenario with every form.
fn every_form<R: AllocGlobal + Abort>(rt: &R) -> Scenario {
    let limits = (1, 8, 256, 1, 9_223_372_036_854_775_807);
    scenario_of(rt, limits, &TASKS, &TEACHES, &STEPS)
}

/// The scenario of version 2. Its teach line is the ninth.
fn of_users<R: AllocGlobal + Abort>(rt: &R) -> Scenario {
    let limits = (2, 16, 8, 8, 65_536);
    scenario_of(
        rt,
        limits,
        &TASKS_OF_USERS,
        &[teach!(9, 0, 1000, 0)],
        &STEPS_OF_USERS,
    )
}

/// Expects that the scenario is written as these lines, each in one piece, whole or up to the call at which
/// the sink fails.
fn expect_written<R: AllocGlobal + Abort>(
    rt: &R,
    scenario: &Scenario,
    fails: u64,
    is_whole: bool,
    lines: &[&str],
) {
    let mut sink = sink_of(rt.alloc(), 4096, &[fails]).expect(rt, "room");
    assert!(rt; scenario_text(scenario, &mut sink).is_ok() == is_whole);
    assert!(rt; sink.bytes() == joined(rt.alloc(), lines).expect(rt, "room").as_slice());
    assert!(rt; !is_whole || sink.calls() == lines.len() as u64);
}

#[test]
fn scenarios_are_written(rt: HostRuntime) {
    let nothing = scenario_of(&rt, (1, 2, 4, 4, 65_536), &[], &[], &[]);
    expect_written(&rt, &nothing, 0, true, &NOTHING);
    expect_written(&rt, &every_form(&rt), 0, true, &EVERY_FORM);
    expect_written(&rt, &of_users(&rt), 0, true, &OF_USERS);
    let limits = (255, 255, 65_535, 65_535, 18_446_744_073_709_551_615);
    let greatest = scenario_of(&rt, limits, &[GREAT_TASK], &[GREAT_TEACH], &[GREAT_STEP]);
    expect_written(&rt, &greatest, 0, true, &GREATEST);
}

#[test]
fn scenarios_are_read_back(rt: HostRuntime) {
    for lines in [NOTHING.as_slice(), &EVERY_FORM, &OF_USERS] {
        let text = joined(rt.alloc(), lines).expect(&rt, "room");
        let scenario = read(rt.alloc(), &text).expect(&rt, "a scenario");
        expect_written(&rt, &scenario, 0, true, lines);
    }
}

#[test]
fn writer_that_meets_a_fault(rt: HostRuntime) {
    let scenario = every_form(&rt);
    for call in 1..34 {
        let lines = &EVERY_FORM[..call as usize - 1];
        expect_written(&rt, &scenario, call, false, lines);
    }
    let scenario = of_users(&rt);
    for call in 1..13 {
        let lines = &OF_USERS[..call as usize - 1];
        expect_written(&rt, &scenario, call, false, lines);
    }
}
