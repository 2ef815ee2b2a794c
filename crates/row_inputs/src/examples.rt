//! Worked examples of classes, of births and ends, and of refusals, and the lists of all. There are two, since one of
//! all is more than the prover reads at once.

use crate::moves::{
    CHARGED_AT_A_LEAVE, HOTPLUG, LAST_TASK_STOLEN, LEAVES_WITH_QUEUE, REFUSED_MOVES, SAME_POLICY,
    STEAL,
};
use crate::scripts::{
    CHARGED_AT_EXIT, CORE_COOKIE_0, FORCED_IDLE, FORCED_IDLE_TICK, LOWER_MATCH, NOTHING,
    STALE_PICK, Script, THREE_SHARES, TIE_OF_LEADS, TWO_SHARES, WAITING_IDLE_CHARGES_NOBODY,
    WAITING_TASK_CHARGED,
};

/// The earlier deadline goes first, a deadline task forks none, and a sibling that runs idle has no task
/// that could sleep or end. The running task becomes a fair one, and makes way.
const DEADLINES: Script = script!(
    "DEADLINES",
    2,
    "8 8 65536",
    [(1, "dl:50", 0), (2, "dl:20", 0)],
    [
        ("c0 wake 1", "Woken 0"),
        ("s0 turn", "Plain 1 core 0 forced 0"),
        ("c0 advance 10", "Now 10"),
        ("c0 wake 2", "Woken 0"),
        ("s0 turn", "Plain 2 core 0 forced 0"),
        ("c0 wake 1", "Awake"),
        ("c0 wake 9", "NoTask"),
        ("c0 fork 1 process", "EAGAIN"),
        ("c0 setsched 2 fair:0", "Set"),
        ("c0 setsched 9 fair:0", "NoTask"),
        ("s0 turn", "Plain 1 core 0 forced 0"),
        ("s1 block", "Idle"),
        ("s1 exit", "Idle"),
    ],
    [
        "clock 10",
        "numbers 7 0",
        "core 0 forced 0 occupation 0",
        "intervals 0",
        "cpu 0 online runs 1 number 0",
        "cpu 1 online runs idle number 0",
        "task 1 cpu 0 queued cookie 0 forced 0 vtime 0",
        "task 2 cpu 0 queued cookie 0 forced 0 vtime 0",
    ],
);

/// An RR task goes behind the other of its priority at the first tick after it has used its slice.
const ROUND_ROBIN: Script = script!(
    "ROUND_ROBIN",
    2,
    "8 8 65536",
    [(1, "rr:10", 0), (2, "rr:10", 0)],
    [
        ("c0 wake 1", "Woken 0"),
        ("c0 wake 2", "Woken 0"),
        ("s0 turn", "Plain 1 core 0 forced 0"),
        ("c0 advance 99999999", "Now 99999999"),
        ("s0 tick", "Ticked no"),
        ("c0 advance 1", "Now 100000000"),
        ("s0 tick", "Ticked yes"),
        ("s0 turn", "Plain 2 core 0 forced 0"),
    ],
    [
        "clock 100000000",
        "numbers 4 0",
        "core 0 forced 0 occupation 0",
        "intervals 0",
        "cpu 0 online runs 2 number 0",
        "cpu 1 online runs idle number 0",
        "task 1 cpu 0 queued cookie 0 forced 0 vtime 0",
        "task 2 cpu 0 queued cookie 0 forced 0 vtime 0",
    ],
);

/// The virtual time of a light task runs ahead of the clock.
const GROWTH: Script = script!(
    "GROWTH",
    2,
    "8 8 65536",
    [(1, "fair:5", 0)],
    [
        ("c0 wake 1", "Woken 0"),
        ("s0 turn", "Plain 1 core 0 forced 0"),
        ("c0 advance 1000", "Now 1000"),
    ],
    [
        "clock 1000",
        "numbers 2 0",
        "core 0 forced 0 occupation 0",
        "intervals 0",
        "cpu 0 online runs 1 number 0",
        "cpu 1 online runs idle number 0",
        "task 1 cpu 0 queued cookie 0 forced 0 vtime 3056",
    ],
);

/// A task forks up to the limit of tasks, under its cookie, and its children end.
pub const FORK_AND_EXIT: Script = script!(
    "FORK_AND_EXIT",
    2,
    "3 8 65536",
    [(1, "fair:0", 0)],
    [
        ("c0 wake 1", "Woken 0"),
        ("s0 turn", "Plain 1 core 0 forced 0"),
        ("c0 fork 1 thread", "Child 2"),
        ("c0 prctl 1 1 0 1 0", "0"),
        ("s0 exit", "HasThreads"),
        ("s0 turn", "Selected 1 core 1 forced 0"),
        ("c0 fork 1 process", "Child 3"),
        ("c0 fork 1 process", "EAGAIN"),
        ("s0 block", "Slept 1 Selected 2 core 1 forced 0"),
        ("s0 exit", "Ended 2 Selected 3 core 1 forced 0"),
        ("s0 exit", "Ended 3 Selected idle core 0 forced 0"),
        ("c0 fork 2 thread", "NoCaller"),
    ],
    [
        "clock 0",
        "numbers 13 13",
        "core 0 forced 0 occupation 0",
        "intervals 0",
        "cpu 0 online runs idle number 13",
        "cpu 1 online runs idle number 0",
        "task 1 cpu 0 asleep cookie 1 forced 0 vtime 0",
        "ended 2 forced 0",
        "ended 3 forced 0",
    ],
);

/// The refusals of calls, and who may access whom: 2 and 4 are another user's, 3 and 4 are one process
/// group, 5 may not be dumped, 6 has the capability, 7 too. The group's call that is refused uses
/// cookie 1. If only one sibling is online, each call is refused.
const REFUSALS: Script = Script {
    name: "REFUSALS",
    text: concat!(
        "coresched 1\nsiblings 2\nlimits 8 1 65536\n",
        "task 1 1 1 0 fair:0 1000 1000 1000 1000 1000 1000 0 1 1\n",
        "task 2 2 2 0 fair:0 2000 2000 2000 2000 2000 2000 0 1 1\n",
        "task 3 3 7 0 fair:0 1000 1000 1000 1000 1000 1000 0 1 1\n",
        "task 4 4 7 0 fair:0 2000 2000 2000 2000 2000 2000 0 1 1\n",
        "task 5 5 5 0 fair:0 1000 1000 1000 1000 1000 1000 0 1 0\n",
        "task 6 6 6 0 fair:0 0 0 0 0 0 0 1 1 1\n",
        "task 7 7 8 0 fair:0 1000 1000 1000 1000 1000 1000 1 1 1\n",
        "step c0 prctl 9 0 0 0 4096\nstep c0 prctl 1 4 0 0 0\nstep c0 prctl 1 1 -1 0 0\n",
        "step c0 prctl 1 1 99 3 0\nstep c0 prctl 1 1 0 0 8\nstep c0 prctl 1 1 99 0 0\n",
        "step c0 prctl 1 0 2 1 4096\nstep c0 prctl 1 0 1 1 4096\nstep c0 prctl 1 0 1 0 4097\n",
        "step c0 prctl 1 0 1 0 0\nstep c0 prctl 1 0 1 0 65528\nstep c0 prctl 1 0 1 0 65536\n",
        "step c0 prctl 1 3 1 1 0\nstep c0 prctl 1 1 3 2 0\nstep c0 prctl 1 1 0 0 0\n",
        "step c0 prctl 1 0 0 0 4096\nstep c0 prctl 1 1 3 2 0\nstep c0 prctl 1 2 5 0 0\n",
        "step c0 prctl 6 2 5 0 0\nstep c0 prctl 1 2 6 0 0\nstep c0 prctl 1 2 7 0 0\n",
        "step c0 offline 1\nstep c0 prctl 1 4 0 0 0\nend\n",
    ),
    entries: concat!(
        "c0 prctl 9 0 0 0 4096: NoCaller\nc0 prctl 1 4 0 0 0: EINVAL\nc0 prctl 1 1 -1 0 0: EINVAL\n",
        "c0 prctl 1 1 99 3 0: EINVAL\nc0 prctl 1 1 0 0 8: EINVAL\nc0 prctl 1 1 99 0 0: ESRCH\n",
        "c0 prctl 1 0 2 1 4096: EPERM\nc0 prctl 1 0 1 1 4096: EINVAL\nc0 prctl 1 0 1 0 4097: EINVAL\n",
        "c0 prctl 1 0 1 0 0: EFAULT\nc0 prctl 1 0 1 0 65528: 0 value 0\nc0 prctl 1 0 1 0 65536: EFAULT\n",
        "c0 prctl 1 3 1 1 0: EINVAL\nc0 prctl 1 1 3 2 0: EPERM\nc0 prctl 1 1 0 0 0: 0\n",
        "c0 prctl 1 0 0 0 4096: 0 value 2\nc0 prctl 1 1 3 2 0: ENOMEM\nc0 prctl 1 2 5 0 0: EPERM\n",
        "c0 prctl 6 2 5 0 0: 0\nc0 prctl 1 2 6 0 0: EPERM\nc0 prctl 1 2 7 0 0: EPERM\n",
        "c0 offline 1: Done\nc0 prctl 1 4 0 0 0: ENODEV\nend resched 0: Plain idle core 0 forced 0\n",
    ),
    report: crate::report_of!(
        "clock 0",
        "numbers 1 0",
        "core 0 forced 0 occupation 0",
        "intervals 0",
        "cpu 0 online runs idle number 0",
        "cpu 1 offline runs idle number 0",
        "task 1 cpu 0 asleep cookie 2 forced 0 vtime 0",
        "task 2 cpu 0 asleep cookie 0 forced 0 vtime 0",
        "task 3 cpu 0 asleep cookie 0 forced 0 vtime 0",
        "task 4 cpu 0 asleep cookie 0 forced 0 vtime 0",
        "task 5 cpu 0 asleep cookie 0 forced 0 vtime 0",
        "task 6 cpu 0 asleep cookie 0 forced 0 vtime 0",
        "task 7 cpu 0 asleep cookie 0 forced 0 vtime 0",
    ),
};

/// A last reference that is given back makes room under the limit.
const LAST_REFERENCE: Script = script!(
    "LAST_REFERENCE",
    2,
    "8 1 65536",
    [(1, "fair:0", 0), (2, "fair:0", 0)],
    [
        ("c0 prctl 1 1 0 0 0", "0"),
        ("c0 prctl 2 1 0 0 0", "ENOMEM"),
        ("c0 prctl 2 2 1 1 0", "0"),
        ("c0 prctl 2 1 0 0 0", "0"),
        ("c0 prctl 2 0 0 0 4096", "0 value 2"),
    ],
    [
        "clock 0",
        "numbers 0 0",
        "core 0 forced 0 occupation 0",
        "intervals 0",
        "cpu 0 online runs idle number 0",
        "cpu 1 online runs idle number 0",
        "task 1 cpu 0 asleep cookie 0 forced 0 vtime 0",
        "task 2 cpu 0 asleep cookie 2 forced 0 vtime 0",
    ],
);

/// The worked examples of selections and of accounts.
pub const OF_SELECTIONS: [Script; 12] = [
    NOTHING,
    FORCED_IDLE,
    LOWER_MATCH,
    CORE_COOKIE_0,
    TIE_OF_LEADS,
    STALE_PICK,
    FORCED_IDLE_TICK,
    TWO_SHARES,
    THREE_SHARES,
    WAITING_TASK_CHARGED,
    WAITING_IDLE_CHARGES_NOBODY,
    CHARGED_AT_EXIT,
];

/// The worked examples of classes, of births and ends, of refusals and of moves.
pub const OF_TASKS: [Script; 13] = [
    DEADLINES,
    ROUND_ROBIN,
    GROWTH,
    FORK_AND_EXIT,
    REFUSALS,
    LAST_REFERENCE,
    STEAL,
    LAST_TASK_STOLEN,
    HOTPLUG,
    LEAVES_WITH_QUEUE,
    CHARGED_AT_A_LEAVE,
    REFUSED_MOVES,
    SAME_POLICY,
];
