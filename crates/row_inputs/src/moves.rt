//! Worked examples of tasks that go to another sibling, by a steal or by hotplug, and of a policy that is
//! set.

use crate::scripts::Script;

/// Sibling 0 idles beside its own task of another cookie, and steals from the next one. There it passes over
/// a task that waits, one that runs, and one that was chosen beside more tasks than its idle was.
pub const STEAL: Script = script!(
    "STEAL",
    4,
    "8 8 65536",
    [
        (1, "fifo:40", 1),
        (2, "fifo:30", 1),
        (3, "fifo:25", 1),
        (4, "fifo:20", 1),
        (5, "fifo:50", 2),
        (6, "fifo:45", 3),
        (10, "fifo:10", 0)
    ],
    [
        ("c0 prctl 5 1 0 0 0", "0"),
        ("c0 prctl 5 2 1 0 0", "0"),
        ("c0 prctl 5 2 2 0 0", "0"),
        ("c0 prctl 5 2 3 0 0", "0"),
        ("c0 prctl 5 2 4 0 0", "0"),
        ("c0 prctl 5 2 6 0 0", "0"),
        ("c0 prctl 10 1 0 0 0", "0"),
        ("c0 wake 10", "Woken 0"),
        ("c0 wake 3", "Woken 1"),
        ("c0 wake 5", "Woken 2"),
        ("c0 wake 6", "Woken 3"),
        ("s2 turn", "Selected 5 core 1 forced 1"),
        ("s1 turn", "Adopted 3 core 1 forced 1"),
        ("s3 turn", "Adopted 6 core 1 forced 1"),
        ("c0 wake 2", "Woken 1"),
        ("s3 block", "Slept 6 Selected idle core 1 forced 1"),
        ("s1 turn", "Adopted 2 core 1 forced 1"),
        ("c0 wake 1", "Woken 1"),
        ("c0 wake 4", "Woken 1"),
        ("s0 turn", "Selected idle core 1 forced 1"),
        ("s0 turn", "Stole 4 from 1"),
        ("s0 turn", "Selected 4 core 1 forced 0"),
        ("s1 turn", "Adopted 1 core 1 forced 0"),
    ],
    [
        "clock 0",
        "numbers 14 14",
        "core 1 forced 0 occupation 3",
        "intervals 0",
        "cpu 0 online runs 4 number 14",
        "cpu 1 online runs 1 number 14",
        "cpu 2 online runs 5 number 5",
        "cpu 3 online runs idle number 8",
        "task 1 cpu 1 queued cookie 1 forced 0 vtime 0",
        "task 2 cpu 1 queued cookie 1 forced 0 vtime 0",
        "task 3 cpu 1 queued cookie 1 forced 0 vtime 0",
        "task 4 cpu 0 queued cookie 1 forced 0 vtime 0",
        "task 5 cpu 2 queued cookie 1 forced 0 vtime 0",
        "task 6 cpu 3 asleep cookie 1 forced 0 vtime 0",
        "task 10 cpu 0 queued cookie 2 forced 0 vtime 0",
    ],
);

/// The only task of an idle sibling is stolen, and so that sibling is to select anew.
pub const LAST_TASK_STOLEN: Script = script!(
    "LAST_TASK_STOLEN",
    3,
    "8 8 65536",
    [(1, "fifo:50", 0), (2, "fifo:10", 1), (3, "fifo:20", 2)],
    [
        ("c0 prctl 1 1 0 0 0", "0"),
        ("c0 prctl 2 1 0 0 0", "0"),
        ("c0 wake 1", "Woken 0"),
        ("c0 wake 2", "Woken 1"),
        ("c0 wake 3", "Woken 2"),
        ("s0 turn", "Selected 1 core 1 forced 2"),
        ("s2 turn", "Selected idle core 1 forced 2"),
        ("s1 turn", "Selected idle core 1 forced 2"),
        ("c0 prctl 1 2 3 0 0", "0"),
        ("s1 turn", "Stole 3 from 2"),
        ("s2 turn", "Selected idle core 1 forced 0"),
    ],
    end[(1, "Adopted 3 core 1 forced 0")],
    [
        "clock 0",
        "numbers 10 10",
        "core 1 forced 0 occupation 2",
        "intervals 0",
        "cpu 0 online runs 1 number 4",
        "cpu 1 online runs 3 number 10",
        "cpu 2 online runs idle number 10",
        "task 1 cpu 0 queued cookie 1 forced 0 vtime 0",
        "task 2 cpu 1 queued cookie 2 forced 0 vtime 0",
        "task 3 cpu 1 queued cookie 1 forced 0 vtime 0",
    ],
);

/// A sibling leaves while it runs a task, which runs on the other then. It comes back without it.
pub const HOTPLUG: Script = script!(
    "HOTPLUG",
    2,
    "8 8 65536",
    [(1, "fifo:10", 1)],
    [
        ("c0 wake 1", "Woken 1"),
        ("s1 turn", "Plain 1 core 0 forced 0"),
        ("c0 offline 1", "Done"),
        ("c0 offline 1", "Already"),
        ("c0 offline 0", "EBUSY"),
        ("c0 prctl 1 0 0 0 4096", "ENODEV"),
        ("s1 turn", "Offline"),
        ("s0 turn", "Plain 1 core 0 forced 0"),
        ("c0 online 1", "Done"),
        ("c0 online 1", "Already"),
        ("s1 turn", "Plain idle core 0 forced 0"),
        ("c0 prctl 1 0 0 0 4096", "0 value 0"),
    ],
    [
        "clock 0",
        "numbers 6 0",
        "core 0 forced 0 occupation 0",
        "intervals 0",
        "cpu 0 online runs 1 number 0",
        "cpu 1 online runs idle number 0",
        "task 1 cpu 0 queued cookie 0 forced 0 vtime 0",
    ],
);

/// A sibling that is forced idle leaves with two tasks of one priority: the interval is charged, they keep
/// their order, and a third one that sleeps there is woken on the other.
pub const LEAVES_WITH_QUEUE: Script = script!(
    "LEAVES_WITH_QUEUE",
    2,
    "8 8 65536",
    [
        (1, "fifo:50", 0),
        (2, "fifo:10", 1),
        (3, "fifo:10", 1),
        (4, "fifo:1", 1)
    ],
    [
        ("c0 prctl 1 1 0 0 0", "0"),
        ("c0 wake 1", "Woken 0"),
        ("c0 wake 3", "Woken 1"),
        ("c0 wake 2", "Woken 1"),
        ("s0 turn", "Selected 1 core 1 forced 1"),
        ("c0 advance 10", "Now 10"),
        ("c0 offline 1", "Done"),
        ("c0 wake 4", "Woken 0"),
        ("s0 turn", "Selected 1 core 1 forced 0"),
        ("s0 block", "Slept 1 Selected 3 core 0 forced 0"),
        ("c0 online 1", "Done"),
        ("s1 turn", "Plain idle core 0 forced 0"),
    ],
    [
        "clock 10",
        "numbers 13 12",
        "core 0 forced 0 occupation 0",
        "intervals 1",
        "cpu 0 online runs 3 number 12",
        "cpu 1 online runs idle number 0",
        "task 1 cpu 0 asleep cookie 1 forced 10 vtime 0",
        "task 2 cpu 0 queued cookie 0 forced 0 vtime 0",
        "task 3 cpu 0 queued cookie 0 forced 0 vtime 0",
        "task 4 cpu 0 queued cookie 0 forced 0 vtime 0",
    ],
);

/// Sibling 1 leaves with the task that it runs, which has no cookie, while sibling 0 is forced idle. The task
/// is charged before it moves.
pub const CHARGED_AT_A_LEAVE: Script = script!(
    "CHARGED_AT_A_LEAVE",
    2,
    "8 8 65536",
    [(1, "fifo:50", 1), (2, "fifo:40", 0)],
    [
        ("c0 prctl 2 1 0 0 0", "0"),
        ("c0 wake 1", "Woken 1"),
        ("s1 turn", "Plain 1 core 0 forced 0"),
        ("c0 wake 2", "Woken 0"),
        ("s0 turn", "Selected idle core 0 forced 1"),
        ("c0 advance 10", "Now 10"),
        ("c0 offline 1", "Done"),
        ("s0 turn", "Plain 1 core 0 forced 0"),
    ],
    [
        "clock 10",
        "numbers 7 4",
        "core 0 forced 0 occupation 0",
        "intervals 1",
        "cpu 0 online runs 1 number 4",
        "cpu 1 offline runs idle number 0",
        "task 1 cpu 0 queued cookie 0 forced 10 vtime 0",
        "task 2 cpu 0 queued cookie 1 forced 0 vtime 0",
    ],
);

/// What is refused of siblings that are offline or online already, and a policy for no task.
pub const REFUSED_MOVES: Script = script!(
    "REFUSED_MOVES",
    2,
    "8 8 65536",
    [(1, "fifo:10", 1)],
    [
        ("c0 online 1", "Already"),
        ("c0 offline 1", "Done"),
        ("s1 turn", "Offline"),
        ("s1 resched", "Offline"),
        ("s1 block", "Offline"),
        ("s1 exit", "Offline"),
        ("s1 tick", "Offline"),
        ("c0 offline 1", "Already"),
        ("c0 offline 0", "EBUSY"),
        ("c0 online 0", "Already"),
        ("c0 setsched 9 stop", "NoTask"),
    ],
    end[(0, "Plain idle core 0 forced 0")],
    [
        "clock 0",
        "numbers 1 0",
        "core 0 forced 0 occupation 0",
        "intervals 0",
        "cpu 0 online runs idle number 0",
        "cpu 1 offline runs idle number 0",
        "task 1 cpu 1 asleep cookie 0 forced 0 vtime 0",
    ],
);

/// A running task that is given the policy that it has goes behind the other of its priority.
pub const SAME_POLICY: Script = script!(
    "SAME_POLICY",
    2,
    "8 8 65536",
    [(1, "rr:10", 0), (2, "rr:10", 0)],
    [
        ("c0 wake 1", "Woken 0"),
        ("c0 wake 2", "Woken 0"),
        ("s0 turn", "Plain 1 core 0 forced 0"),
        ("c0 advance 99999999", "Now 99999999"),
        ("c0 setsched 1 rr:10", "Set"),
        ("s0 turn", "Plain 2 core 0 forced 0"),
        ("s0 block", "Slept 2 Plain 1 core 0 forced 0"),
        ("c0 advance 1", "Now 100000000"),
        ("s0 tick", "Ticked no"),
    ],
    [
        "clock 100000000",
        "numbers 8 0",
        "core 0 forced 0 occupation 0",
        "intervals 0",
        "cpu 0 online runs 1 number 0",
        "cpu 1 online runs idle number 0",
        "task 1 cpu 0 queued cookie 0 forced 0 vtime 0",
        "task 2 cpu 0 asleep cookie 0 forced 0 vtime 0",
    ],
);
