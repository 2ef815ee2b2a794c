//! Worked examples of what siblings and tasks remember: occupations, snapshots, virtual times, and what a child has of
//! its caller.

use crate::scripts::Script;

/// Task 1 was chosen when no other was, and sibling 0 was given idle when task 2 alone was chosen. Both remember 1, so the
/// sibling may steal the task.
const OCCUPATION_OF_IDLE: Script = script!(
    "OCCUPATION_OF_IDLE",
    2,
    "8 8 65536",
    [(1, "fifo:20", 1), (2, "fifo:50", 1), (3, "fifo:10", 0),],
    [
        ("c0 prctl 1 1 0 0 0", "0"),
        ("c0 prctl 1 2 2 0 0", "0"),
        ("c0 prctl 3 1 0 0 0", "0"),
        ("c0 wake 1", "Woken 1"),
        ("s1 turn", "Selected 1 core 1 forced 0"),
        ("c0 wake 3", "Woken 0"),
        ("c0 wake 2", "Woken 1"),
        ("s0 turn", "Selected idle core 1 forced 1"),
        ("s1 turn", "Adopted 2 core 1 forced 1"),
        ("s0 turn", "Stole 1 from 1"),
    ],
    end[(0, "Selected 1 core 1 forced 0")],
    [
        "clock 0",
        "numbers 8 8",
        "core 1 forced 0 occupation 2",
        "intervals 0",
        "cpu 0 online runs 1 number 8",
        "cpu 1 online runs 2 number 5",
        "task 1 cpu 0 queued cookie 1 forced 0 vtime 0",
        "task 2 cpu 1 queued cookie 1 forced 0 vtime 0",
        "task 3 cpu 0 queued cookie 2 forced 0 vtime 0",
    ],
);

/// Task 1 remembers that two were chosen, and sibling 0's idle that one was, so task 1 is not stolen. Its child remembers
/// 0, and is.
const OCCUPATION_OF_CHILD: Script = script!(
    "OCCUPATION_OF_CHILD",
    2,
    "8 8 65536",
    [
        (1, "fifo:20", 1),
        (2, "fifo:20", 0),
        (3, "fifo:50", 1),
        (4, "fifo:5", 0),
    ],
    [
        ("c0 prctl 1 1 0 0 0", "0"),
        ("c0 prctl 1 2 2 0 0", "0"),
        ("c0 prctl 1 2 3 0 0", "0"),
        ("c0 prctl 4 1 0 0 0", "0"),
        ("c0 wake 1", "Woken 1"),
        ("c0 wake 2", "Woken 0"),
        ("s0 turn", "Selected 2 core 1 forced 0"),
        ("s1 turn", "Adopted 1 core 1 forced 0"),
        ("c0 wake 4", "Woken 0"),
        ("c0 wake 3", "Woken 1"),
        ("s0 block", "Slept 2 Selected idle core 1 forced 1"),
        ("s1 turn", "Adopted 3 core 1 forced 1"),
        ("s0 turn", "Missed 1"),
        ("c0 fork 1 process", "Child 5"),
        ("s0 resched", "Selected idle core 1 forced 1"),
        ("s0 turn", "Stole 5 from 1"),
    ],
    end[(0, "Selected 5 core 1 forced 0")],
    [
        "clock 0",
        "numbers 12 12",
        "core 1 forced 0 occupation 2",
        "intervals 0",
        "cpu 0 online runs 5 number 12",
        "cpu 1 online runs 3 number 7",
        "task 1 cpu 1 queued cookie 1 forced 0 vtime 0",
        "task 2 cpu 0 asleep cookie 1 forced 0 vtime 0",
        "task 3 cpu 1 queued cookie 1 forced 0 vtime 0",
        "task 4 cpu 0 queued cookie 2 forced 0 vtime 0",
        "task 5 cpu 0 queued cookie 1 forced 0 vtime 0",
    ],
);

/// One task is chosen, and the sibling that selects leaves with none of its own. The other adopts the task, and the
/// occupation is 0.
const LEAVE_ZEROES_OCCUPATION: Script = script!(
    "LEAVE_ZEROES_OCCUPATION",
    2,
    "8 8 65536",
    [(1, "fifo:50", 0), (2, "fifo:10", 1)],
    [
        ("c0 prctl 1 1 0 0 0", "0"),
        ("c0 prctl 1 2 2 0 0", "0"),
        ("c0 wake 2", "Woken 1"),
        ("s1 turn", "Selected 2 core 1 forced 0"),
        ("c0 wake 1", "Woken 0"),
        ("s1 block", "Slept 2 Selected idle core 1 forced 0"),
        ("c0 offline 1", "Done"),
        ("s0 turn", "Adopted 1 core 1 forced 0"),
    ],
    [
        "clock 0",
        "numbers 5 5",
        "core 1 forced 0 occupation 0",
        "intervals 0",
        "cpu 0 online runs 1 number 5",
        "cpu 1 offline runs idle number 5",
        "task 1 cpu 0 queued cookie 1 forced 0 vtime 0",
        "task 2 cpu 1 asleep cookie 1 forced 0 vtime 0",
    ],
);

/// Task 1 ran for 10 ns, and the plain pick after that renews its sibling's snapshot to 10. So task 2, which never ran,
/// ties with it, and the selecting sibling takes its own.
const PLAIN_PICK_RENEWS_SNAPSHOT: Script = script!(
    "PLAIN_PICK_RENEWS_SNAPSHOT",
    2,
    "8 8 65536",
    [(1, "fair:0", 0), (2, "fair:0", 1)],
    [
        ("c0 wake 1", "Woken 0"),
        ("s0 turn", "Plain 1 core 0 forced 0"),
        ("c0 advance 10", "Now 10"),
        ("s0 resched", "Plain 1 core 0 forced 0"),
        ("c0 prctl 1 1 0 0 0", "0"),
        ("c0 prctl 2 1 0 0 0", "0"),
        ("c0 wake 2", "Woken 1"),
        ("s0 turn", "Selected 1 core 1 forced 1"),
    ],
    end[
        (1, "Selected 2 core 2 forced 1"),
        (0, "Adopted idle core 2 forced 1"),
    ],
    [
        "clock 10",
        "numbers 7 7",
        "core 2 forced 1 occupation 1",
        "intervals 0",
        "cpu 0 online runs idle number 7",
        "cpu 1 online runs 2 number 7",
        "task 1 cpu 0 queued cookie 1 forced 0 vtime 10",
        "task 2 cpu 1 queued cookie 2 forced 0 vtime 0",
    ],
);

/// The second selection renews sibling 0's snapshot to 10, since nobody is forced idle: task 2 ties. While a sibling is
/// forced idle before and after, none is renewed: so task 2 leads 10 ns later, ties after 10 more, and then task 1 leads.
const SELECTION_RENEWS_SNAPSHOT: Script = script!(
    "SELECTION_RENEWS_SNAPSHOT",
    2,
    "8 8 65536",
    [(1, "fair:0", 0), (2, "fair:0", 1)],
    [
        ("c0 prctl 1 1 0 0 0", "0"),
        ("c0 prctl 2 1 0 0 0", "0"),
        ("c0 wake 1", "Woken 0"),
        ("s0 turn", "Selected 1 core 1 forced 0"),
        ("c0 advance 10", "Now 10"),
        ("s0 resched", "Selected 1 core 1 forced 0"),
        ("c0 wake 2", "Woken 1"),
        ("s0 resched", "Selected 1 core 1 forced 1"),
        ("c0 advance 10", "Now 20"),
        ("s0 resched", "Selected idle core 2 forced 1"),
        ("s1 turn", "Adopted 2 core 2 forced 1"),
        ("c0 advance 10", "Now 30"),
        ("s1 resched", "Selected 2 core 2 forced 1"),
        ("c0 advance 10", "Now 40"),
        ("s1 resched", "Selected idle core 1 forced 1"),
    ],
    end[(0, "Adopted 1 core 1 forced 1")],
    [
        "clock 40",
        "numbers 8 8",
        "core 1 forced 1 occupation 1",
        "intervals 3",
        "cpu 0 online runs 1 number 8",
        "cpu 1 online runs idle number 8",
        "task 1 cpu 0 queued cookie 1 forced 10 vtime 20",
        "task 2 cpu 1 queued cookie 2 forced 20 vtime 20",
    ],
);

/// The least of sibling 0 is 10 after its only task sleeps, so task 2 wakes with that.
const LEAST_STAYS: Script = script!(
    "LEAST_STAYS",
    2,
    "8 8 65536",
    [(1, "fair:0", 0), (2, "fair:0", 0)],
    [
        ("c0 wake 1", "Woken 0"),
        ("s0 turn", "Plain 1 core 0 forced 0"),
        ("c0 advance 10", "Now 10"),
        ("s0 block", "Slept 1 Plain idle core 0 forced 0"),
        ("c0 wake 2", "Woken 0"),
        ("s0 turn", "Plain 2 core 0 forced 0"),
    ],
    [
        "clock 10",
        "numbers 6 0",
        "core 0 forced 0 occupation 0",
        "intervals 0",
        "cpu 0 online runs 2 number 0",
        "cpu 1 online runs idle number 0",
        "task 1 cpu 0 asleep cookie 0 forced 0 vtime 10",
        "task 2 cpu 0 queued cookie 0 forced 0 vtime 10",
    ],
);

/// Sibling 1 has its own number and its least still when it is back: task 2 wakes with 10.
const KEPT_WHILE_OFFLINE: Script = script!(
    "KEPT_WHILE_OFFLINE",
    2,
    "8 8 65536",
    [(1, "fair:0", 1), (2, "fair:0", 1)],
    [
        ("c0 prctl 1 1 0 0 0", "0"),
        ("c0 wake 1", "Woken 1"),
        ("s1 turn", "Selected 1 core 1 forced 0"),
        ("c0 advance 10", "Now 10"),
        ("s1 block", "Slept 1 Selected idle core 0 forced 0"),
        ("c0 offline 1", "Done"),
        ("c0 advance 10", "Now 20"),
        ("c0 online 1", "Done"),
        ("c0 wake 2", "Woken 1"),
        ("s1 turn", "Plain 2 core 0 forced 0"),
    ],
    end[(0, "Plain idle core 0 forced 0")],
    [
        "clock 20",
        "numbers 7 4",
        "core 0 forced 0 occupation 0",
        "intervals 0",
        "cpu 0 online runs idle number 0",
        "cpu 1 online runs 2 number 4",
        "task 1 cpu 1 asleep cookie 1 forced 0 vtime 10",
        "task 2 cpu 1 queued cookie 0 forced 0 vtime 10",
    ],
);

/// Sibling 1 is back with its snapshot 10, though its least is 20 by then. Task 1 is at 20, and so is as far ahead of 10
/// as task 2 is of the snapshot there: at first 10 of 0, and then 20 of 10. Each time the selecting sibling takes its own.
const SNAPSHOT_KEPT_WHILE_OFFLINE: Script = script!(
    "SNAPSHOT_KEPT_WHILE_OFFLINE",
    2,
    "8 8 65536",
    [(1, "fair:0", 1), (2, "fair:0", 0)],
    [
        ("c0 wake 1", "Woken 1"),
        ("s1 turn", "Plain 1 core 0 forced 0"),
        ("c0 advance 10", "Now 10"),
        ("s1 resched", "Plain 1 core 0 forced 0"),
        ("c0 wake 2", "Woken 0"),
        ("s0 turn", "Plain 2 core 0 forced 0"),
        ("c0 advance 10", "Now 20"),
        ("s1 block", "Slept 1 Plain idle core 0 forced 0"),
        ("c0 offline 1", "Done"),
        ("c0 online 1", "Done"),
        ("c0 prctl 1 1 0 0 0", "0"),
        ("c0 prctl 2 1 0 0 0", "0"),
        ("c0 wake 1", "Woken 1"),
        ("s0 turn", "Selected 2 core 2 forced 1"),
        ("c0 advance 10", "Now 30"),
        ("s1 turn", "Selected 1 core 1 forced 1"),
        ("s0 turn", "Adopted idle core 1 forced 1"),
    ],
    [
        "clock 30",
        "numbers 11 11",
        "core 1 forced 1 occupation 1",
        "intervals 1",
        "cpu 0 online runs idle number 11",
        "cpu 1 online runs 1 number 11",
        "task 1 cpu 1 queued cookie 1 forced 0 vtime 20",
        "task 2 cpu 0 queued cookie 2 forced 10 vtime 20",
    ],
);

/// A child is in its caller's process group, so a cookie for that group is the child's too.
const CHILD_IN_PROCESS_GROUP: Script = script!(
    "CHILD_IN_PROCESS_GROUP",
    2,
    "8 8 65536",
    [(1, "fifo:10", 0)],
    [
        ("c0 wake 1", "Woken 0"),
        ("s0 turn", "Plain 1 core 0 forced 0"),
        ("c0 fork 1 process", "Child 2"),
        ("c0 prctl 1 1 0 2 0", "0"),
    ],
    end[(0, "Selected 1 core 1 forced 0")],
    [
        "clock 0",
        "numbers 6 6",
        "core 1 forced 0 occupation 1",
        "intervals 0",
        "cpu 0 online runs 1 number 6",
        "cpu 1 online runs idle number 0",
        "task 1 cpu 0 queued cookie 1 forced 0 vtime 0",
        "task 2 cpu 0 queued cookie 1 forced 0 vtime 0",
    ],
);

/// Task 2 is another user's, and task 3 has the capability. So task 1 may access neither's child. The child of task 2 may
/// not access task 1 either, but its parent may access it. The child of task 3 may access another user's task.
const CREDENTIALS_OF_CHILD: Script = script!(
    "CREDENTIALS_OF_CHILD",
    2,
    "8 8 65536",
    [(1, "fifo:10", 0)],
    of_others[
        (2, "fifo:10", 0, "2000 2000 2000 2000 2000 2000 0"),
        (3, "fifo:10", 0, "1000 1000 1000 1000 1000 1000 1"),
    ],
    [
        ("c0 fork 2 process", "Child 4"),
        ("c0 fork 3 process", "Child 5"),
        ("c0 prctl 1 0 4 0 4096", "EPERM"),
        ("c0 prctl 4 0 1 0 4096", "EPERM"),
        ("c0 prctl 2 0 4 0 4096", "0 value 0"),
        ("c0 prctl 1 0 5 0 4096", "EPERM"),
        ("c0 prctl 5 0 2 0 4096", "0 value 0"),
        ("s0 turn", "Plain 4 core 0 forced 0"),
    ],
    [
        "clock 0",
        "numbers 3 0",
        "core 0 forced 0 occupation 0",
        "intervals 0",
        "cpu 0 online runs 4 number 0",
        "cpu 1 online runs idle number 0",
        "task 1 cpu 0 asleep cookie 0 forced 0 vtime 0",
        "task 2 cpu 0 asleep cookie 0 forced 0 vtime 0",
        "task 3 cpu 0 asleep cookie 0 forced 0 vtime 0",
        "task 4 cpu 0 queued cookie 0 forced 0 vtime 0",
        "task 5 cpu 0 queued cookie 0 forced 0 vtime 0",
    ],
);

/// Task 1 becomes fair while it is queued, and gets the least of its queue, 10.
const VTIME_AT_SETSCHED: Script = script!(
    "VTIME_AT_SETSCHED",
    2,
    "8 8 65536",
    [(1, "fifo:10", 0), (2, "fair:0", 0)],
    [
        ("c0 wake 2", "Woken 0"),
        ("s0 turn", "Plain 2 core 0 forced 0"),
        ("c0 advance 10", "Now 10"),
        ("c0 wake 1", "Woken 0"),
        ("c0 setsched 1 fair:0", "Set"),
        ("s0 turn", "Plain 2 core 0 forced 0"),
    ],
    [
        "clock 10",
        "numbers 6 0",
        "core 0 forced 0 occupation 0",
        "intervals 0",
        "cpu 0 online runs 2 number 0",
        "cpu 1 online runs idle number 0",
        "task 1 cpu 0 queued cookie 0 forced 0 vtime 10",
        "task 2 cpu 0 queued cookie 0 forced 0 vtime 10",
    ],
);

/// Task 1 keeps the virtual time 10 while it is a FIFO task, for which no more comes, and has it when it is fair again.
const VTIME_KEPT_BY_OTHER_CLASS: Script = script!(
    "VTIME_KEPT_BY_OTHER_CLASS",
    2,
    "8 8 65536",
    [(1, "fair:0", 0), (2, "fair:0", 0)],
    [
        ("c0 wake 1", "Woken 0"),
        ("s0 turn", "Plain 1 core 0 forced 0"),
        ("c0 advance 10", "Now 10"),
        ("c0 setsched 1 fifo:10", "Set"),
        ("s0 turn", "Plain 1 core 0 forced 0"),
        ("c0 advance 10", "Now 20"),
        ("c0 setsched 1 fair:0", "Set"),
        ("c0 wake 2", "Woken 0"),
        ("s0 turn", "Plain 1 core 0 forced 0"),
    ],
    [
        "clock 20",
        "numbers 9 0",
        "core 0 forced 0 occupation 0",
        "intervals 0",
        "cpu 0 online runs 1 number 0",
        "cpu 1 online runs idle number 0",
        "task 1 cpu 0 queued cookie 0 forced 0 vtime 10",
        "task 2 cpu 0 queued cookie 0 forced 0 vtime 10",
    ],
);

/// The worked examples of what is remembered.
pub const OF_REMEMBERED: [Script; 12] = [
    OCCUPATION_OF_IDLE,
    OCCUPATION_OF_CHILD,
    LEAVE_ZEROES_OCCUPATION,
    PLAIN_PICK_RENEWS_SNAPSHOT,
    SELECTION_RENEWS_SNAPSHOT,
    LEAST_STAYS,
    KEPT_WHILE_OFFLINE,
    SNAPSHOT_KEPT_WHILE_OFFLINE,
    CHILD_IN_PROCESS_GROUP,
    CREDENTIALS_OF_CHILD,
    VTIME_AT_SETSCHED,
    VTIME_KEPT_BY_OTHER_CLASS,
];
