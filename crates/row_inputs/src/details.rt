//! Worked examples of details that the others pass by, each of one rule: ties and classes across siblings, a cookie
//! that is given again, homes, steals and policies.

use crate::scripts::Script;

/// A deadline task of another sibling leads over the greatest priority, since its class is higher.
const CLASSES_ACROSS_SIBLINGS: Script = script!(
    "CLASSES_ACROSS_SIBLINGS",
    2,
    "8 8 65536",
    [(1, "fifo:99", 0), (2, "dl:50", 1)],
    [
        ("c0 prctl 1 1 0 0 0", "0"),
        ("c0 prctl 2 1 0 0 0", "0"),
        ("c0 wake 1", "Woken 0"),
        ("c0 wake 2", "Woken 1"),
        ("s0 turn", "Selected idle core 2 forced 1"),
        ("s1 turn", "Adopted 2 core 2 forced 1"),
    ],
    [
        "clock 0",
        "numbers 3 3",
        "core 2 forced 1 occupation 1",
        "intervals 0",
        "cpu 0 online runs idle number 3",
        "cpu 1 online runs 2 number 3",
        "task 1 cpu 0 queued cookie 1 forced 0 vtime 0",
        "task 2 cpu 1 queued cookie 2 forced 0 vtime 0",
    ],
);

/// Of two deadline tasks on two siblings the one with the earlier deadline leads.
const DEADLINES_ACROSS_SIBLINGS: Script = script!(
    "DEADLINES_ACROSS_SIBLINGS",
    2,
    "8 8 65536",
    [(1, "dl:50", 0), (2, "dl:20", 1)],
    [
        ("c0 prctl 1 1 0 0 0", "0"),
        ("c0 prctl 2 1 0 0 0", "0"),
        ("c0 wake 1", "Woken 0"),
        ("c0 wake 2", "Woken 1"),
        ("s0 turn", "Selected idle core 2 forced 1"),
        ("s1 turn", "Adopted 2 core 2 forced 1"),
    ],
    [
        "clock 0",
        "numbers 3 3",
        "core 2 forced 1 occupation 1",
        "intervals 0",
        "cpu 0 online runs idle number 3",
        "cpu 1 online runs 2 number 3",
        "task 1 cpu 0 queued cookie 1 forced 0 vtime 0",
        "task 2 cpu 1 queued cookie 2 forced 0 vtime 0",
    ],
);

/// Siblings 0 and 2 tie, and 2 is the next one after 1, which selects. At the end sibling 2 is ready and goes first,
/// though sibling 0 is lower: nothing waits for that.
const TIE_TO_NEXT_SIBLING: Script = script!(
    "TIE_TO_NEXT_SIBLING",
    3,
    "8 8 65536",
    [
        (1, "fifo:50", 0),
        (2, "fifo:10", 1),
        (3, "fifo:50", 2),
    ],
    [
        ("c0 prctl 1 1 0 0 0", "0"),
        ("c0 prctl 2 1 0 0 0", "0"),
        ("c0 prctl 3 1 0 0 0", "0"),
        ("c0 wake 1", "Woken 0"),
        ("c0 wake 2", "Woken 1"),
        ("c0 wake 3", "Woken 2"),
        ("s1 turn", "Selected idle core 3 forced 2"),
    ],
    end[
        (2, "Adopted 3 core 3 forced 2"),
        (0, "Selected 1 core 1 forced 2"),
        (2, "Adopted idle core 1 forced 2"),
    ],
    [
        "clock 0",
        "numbers 5 5",
        "core 1 forced 2 occupation 1",
        "intervals 0",
        "cpu 0 online runs 1 number 5",
        "cpu 1 online runs idle number 4",
        "cpu 2 online runs idle number 5",
        "task 1 cpu 0 queued cookie 1 forced 0 vtime 0",
        "task 2 cpu 1 queued cookie 2 forced 0 vtime 0",
        "task 3 cpu 2 queued cookie 3 forced 0 vtime 0",
    ],
);

/// A SHARE_FROM gives the caller the target's cookie.
const COOKIE_OF_TARGET: Script = script!(
    "COOKIE_OF_TARGET",
    2,
    "8 8 65536",
    [(1, "fair:0", 0), (2, "fair:0", 0)],
    [
        ("c0 prctl 1 1 0 0 0", "0"),
        ("c0 prctl 2 3 1 0 0", "0"),
        ("c0 prctl 2 0 0 0 4096", "0 value 1"),
    ],
    [
        "clock 0",
        "numbers 0 0",
        "core 0 forced 0 occupation 0",
        "intervals 0",
        "cpu 0 online runs idle number 0",
        "cpu 1 online runs idle number 0",
        "task 1 cpu 0 asleep cookie 1 forced 0 vtime 0",
        "task 2 cpu 0 asleep cookie 1 forced 0 vtime 0",
    ],
);

/// A running task that is given the cookie that it has is to reschedule. The old cookie touches, and the new one.
const SAME_COOKIE: Script = script!(
    "SAME_COOKIE",
    2,
    "8 8 65536",
    [(1, "fair:0", 0)],
    [
        ("c0 prctl 1 1 0 0 0", "0"),
        ("c0 wake 1", "Woken 0"),
        ("s0 turn", "Selected 1 core 1 forced 0"),
        ("c0 prctl 1 2 1 0 0", "0"),
        ("s0 turn", "Selected 1 core 1 forced 0"),
    ],
    [
        "clock 0",
        "numbers 5 5",
        "core 1 forced 0 occupation 1",
        "intervals 0",
        "cpu 0 online runs 1 number 5",
        "cpu 1 online runs idle number 0",
        "task 1 cpu 0 queued cookie 1 forced 0 vtime 0",
    ],
);

/// The caller's home is offline, and its child is at home on the lowest sibling that is online.
const CHILD_OF_OFFLINE_HOME: Script = script!(
    "CHILD_OF_OFFLINE_HOME",
    2,
    "8 8 65536",
    [(1, "fifo:10", 1)],
    [
        ("c0 offline 1", "Done"),
        ("c0 fork 1 process", "Child 2"),
        ("s0 turn", "Plain 2 core 0 forced 0"),
    ],
    [
        "clock 0",
        "numbers 2 0",
        "core 0 forced 0 occupation 0",
        "intervals 0",
        "cpu 0 online runs 2 number 0",
        "cpu 1 offline runs idle number 0",
        "task 1 cpu 1 asleep cookie 0 forced 0 vtime 0",
        "task 2 cpu 0 queued cookie 0 forced 0 vtime 0",
    ],
);

/// The task of a sibling that leaves moves to the lower of the two others.
const LOWEST_OTHER_SIBLING: Script = script!(
    "LOWEST_OTHER_SIBLING",
    3,
    "8 8 65536",
    [(1, "fifo:10", 2)],
    [
        ("c0 wake 1", "Woken 2"),
        ("c0 offline 2", "Done"),
        ("s0 turn", "Plain 1 core 0 forced 0"),
        ("s1 turn", "Plain idle core 0 forced 0"),
    ],
    [
        "clock 0",
        "numbers 5 0",
        "core 0 forced 0 occupation 0",
        "intervals 0",
        "cpu 0 online runs 1 number 0",
        "cpu 1 online runs idle number 0",
        "cpu 2 offline runs idle number 0",
        "task 1 cpu 0 queued cookie 0 forced 0 vtime 0",
    ],
);

/// Two tasks could be stolen, beside one that waits. The one with the greater priority is.
const FIRST_OF_SEVERAL_STOLEN: Script = script!(
    "FIRST_OF_SEVERAL_STOLEN",
    2,
    "8 8 65536",
    [
        (1, "fifo:50", 1),
        (2, "fifo:20", 1),
        (3, "fifo:30", 1),
        (4, "fifo:10", 0),
    ],
    [
        ("c0 prctl 1 1 0 0 0", "0"),
        ("c0 prctl 1 2 2 0 0", "0"),
        ("c0 prctl 1 2 3 0 0", "0"),
        ("c0 prctl 4 1 0 0 0", "0"),
        ("c0 wake 1", "Woken 1"),
        ("c0 wake 2", "Woken 1"),
        ("c0 wake 3", "Woken 1"),
        ("c0 wake 4", "Woken 0"),
        ("s0 turn", "Selected idle core 1 forced 1"),
        ("s0 turn", "Stole 3 from 1"),
        ("s0 turn", "Selected 3 core 1 forced 0"),
        ("s1 turn", "Adopted 1 core 1 forced 0"),
    ],
    [
        "clock 0",
        "numbers 8 8",
        "core 1 forced 0 occupation 2",
        "intervals 0",
        "cpu 0 online runs 3 number 8",
        "cpu 1 online runs 1 number 8",
        "task 1 cpu 1 queued cookie 1 forced 0 vtime 0",
        "task 2 cpu 1 queued cookie 1 forced 0 vtime 0",
        "task 3 cpu 0 queued cookie 1 forced 0 vtime 0",
        "task 4 cpu 0 queued cookie 2 forced 0 vtime 0",
    ],
);

/// The core's cookie is 0 when the try comes that was set while it was 2. So task 3, which has no cookie either, is not
/// stolen.
const NO_STEAL_UNDER_COOKIE_0: Script = script!(
    "NO_STEAL_UNDER_COOKIE_0",
    2,
    "8 8 65536",
    [(1, "fifo:10", 0), (2, "fifo:50", 1), (3, "fifo:20", 1)],
    [
        ("c0 prctl 1 1 0 0 0", "0"),
        ("c0 prctl 2 1 0 0 0", "0"),
        ("c0 wake 1", "Woken 0"),
        ("c0 wake 2", "Woken 1"),
        ("c0 wake 3", "Woken 1"),
        ("s0 turn", "Selected idle core 2 forced 1"),
        ("s1 turn", "Adopted 2 core 2 forced 1"),
        ("c0 prctl 3 2 2 0 0", "0"),
        ("s1 turn", "Selected 2 core 0 forced 1"),
        ("s0 turn", "Missed 1"),
    ],
    [
        "clock 0",
        "numbers 6 6",
        "core 0 forced 1 occupation 1",
        "intervals 0",
        "cpu 0 online runs idle number 4",
        "cpu 1 online runs 2 number 6",
        "task 1 cpu 0 queued cookie 1 forced 0 vtime 0",
        "task 2 cpu 1 queued cookie 0 forced 0 vtime 0",
        "task 3 cpu 1 queued cookie 0 forced 0 vtime 0",
    ],
);

/// An asleep task that is given a policy stays asleep, and nobody is to reschedule.
const POLICY_OF_ASLEEP: Script = script!(
    "POLICY_OF_ASLEEP",
    2,
    "8 8 65536",
    [(1, "fifo:10", 0)],
    [("c0 setsched 1 stop", "Set"), ("s0 turn", "Nothing")],
    [
        "clock 0",
        "numbers 0 0",
        "core 0 forced 0 occupation 0",
        "intervals 0",
        "cpu 0 online runs idle number 0",
        "cpu 1 online runs idle number 0",
        "task 1 cpu 0 asleep cookie 0 forced 0 vtime 0",
    ],
);

/// The running task's deadline becomes 10 + 10, and so it stays before the other one's 10 + 20.
const POLICY_RENEWS_DEADLINE: Script = script!(
    "POLICY_RENEWS_DEADLINE",
    2,
    "8 8 65536",
    [(1, "dl:50", 0), (2, "dl:20", 0)],
    [
        ("c0 wake 1", "Woken 0"),
        ("s0 turn", "Plain 1 core 0 forced 0"),
        ("c0 advance 10", "Now 10"),
        ("c0 wake 2", "Woken 0"),
        ("c0 setsched 1 dl:10", "Set"),
        ("s0 turn", "Plain 1 core 0 forced 0"),
    ],
    [
        "clock 10",
        "numbers 6 0",
        "core 0 forced 0 occupation 0",
        "intervals 0",
        "cpu 0 online runs 1 number 0",
        "cpu 1 online runs idle number 0",
        "task 1 cpu 0 queued cookie 0 forced 0 vtime 0",
        "task 2 cpu 0 queued cookie 0 forced 0 vtime 0",
    ],
);

/// The policy is set 1 ns before the slice is used, and so a tick after that 1 ns does not ask for a reschedule.
const POLICY_BEGINS_SLICE: Script = script!(
    "POLICY_BEGINS_SLICE",
    2,
    "8 8 65536",
    [(1, "rr:10", 0), (2, "rr:10", 0)],
    [
        ("c0 wake 1", "Woken 0"),
        ("s0 turn", "Plain 1 core 0 forced 0"),
        ("c0 advance 99999999", "Now 99999999"),
        ("c0 setsched 1 rr:10", "Set"),
        ("s0 turn", "Plain 1 core 0 forced 0"),
        ("c0 wake 2", "Woken 0"),
        ("c0 advance 1", "Now 100000000"),
        ("s0 tick", "Ticked no"),
    ],
    [
        "clock 100000000",
        "numbers 6 0",
        "core 0 forced 0 occupation 0",
        "intervals 0",
        "cpu 0 online runs 1 number 0",
        "cpu 1 online runs idle number 0",
        "task 1 cpu 0 queued cookie 0 forced 0 vtime 0",
        "task 2 cpu 0 queued cookie 0 forced 0 vtime 0",
    ],
);

/// A task waits for the sibling, and could be adopted. Since the running one goes to sleep, the sibling selects anew.
const BLOCK_ADOPTS_NOTHING: Script = script!(
    "BLOCK_ADOPTS_NOTHING",
    2,
    "8 8 65536",
    [(1, "fifo:50", 0), (2, "fifo:10", 1), (3, "fifo:20", 1)],
    [
        ("c0 prctl 1 1 0 0 0", "0"),
        ("c0 prctl 1 2 2 0 0", "0"),
        ("c0 prctl 1 2 3 0 0", "0"),
        ("c0 wake 1", "Woken 0"),
        ("c0 wake 2", "Woken 1"),
        ("s0 turn", "Selected 1 core 1 forced 0"),
        ("s1 turn", "Adopted 2 core 1 forced 0"),
        ("c0 wake 3", "Woken 1"),
        ("s0 resched", "Selected 1 core 1 forced 0"),
        ("s1 block", "Slept 2 Selected 3 core 1 forced 0"),
    ],
    [
        "clock 0",
        "numbers 7 7",
        "core 1 forced 0 occupation 2",
        "intervals 0",
        "cpu 0 online runs 1 number 5",
        "cpu 1 online runs 3 number 7",
        "task 1 cpu 0 queued cookie 1 forced 0 vtime 0",
        "task 2 cpu 1 asleep cookie 1 forced 0 vtime 0",
        "task 3 cpu 1 queued cookie 1 forced 0 vtime 0",
    ],
);

/// A task alone at its priority begins a new slice at a tick. So the next one comes 1 ns before that is used.
const SLICE_OF_LONE_TASK: Script = script!(
    "SLICE_OF_LONE_TASK",
    2,
    "8 8 65536",
    [(1, "rr:10", 0), (2, "rr:10", 0)],
    [
        ("c0 wake 1", "Woken 0"),
        ("s0 turn", "Plain 1 core 0 forced 0"),
        ("c0 advance 100000000", "Now 100000000"),
        ("s0 tick", "Ticked no"),
        ("c0 wake 2", "Woken 0"),
        ("c0 advance 99999999", "Now 199999999"),
        ("s0 tick", "Ticked no"),
    ],
    [
        "clock 199999999",
        "numbers 3 0",
        "core 0 forced 0 occupation 0",
        "intervals 0",
        "cpu 0 online runs 1 number 0",
        "cpu 1 online runs idle number 0",
        "task 1 cpu 0 queued cookie 0 forced 0 vtime 0",
        "task 2 cpu 0 queued cookie 0 forced 0 vtime 0",
    ],
);

/// The caller has used its slice but for 1 ns, and its child nothing.
const SLICE_OF_CHILD: Script = script!(
    "SLICE_OF_CHILD",
    2,
    "8 8 65536",
    [(1, "rr:10", 0)],
    [
        ("c0 wake 1", "Woken 0"),
        ("s0 turn", "Plain 1 core 0 forced 0"),
        ("c0 advance 99999999", "Now 99999999"),
        ("c0 fork 1 process", "Child 2"),
        ("c0 advance 1", "Now 100000000"),
        ("s0 tick", "Ticked yes"),
        ("s0 turn", "Plain 2 core 0 forced 0"),
        ("c0 advance 1", "Now 100000001"),
        ("s0 tick", "Ticked no"),
    ],
    [
        "clock 100000001",
        "numbers 4 0",
        "core 0 forced 0 occupation 0",
        "intervals 0",
        "cpu 0 online runs 2 number 0",
        "cpu 1 online runs idle number 0",
        "task 1 cpu 0 queued cookie 0 forced 0 vtime 0",
        "task 2 cpu 0 queued cookie 0 forced 0 vtime 0",
    ],
);

/// A real-time child begins at the least virtual time of its queue, and not at its caller's.
const VTIME_OF_CHILD: Script = script!(
    "VTIME_OF_CHILD",
    2,
    "8 8 65536",
    [(1, "fifo:10", 0), (2, "fair:0", 0)],
    [
        ("c0 wake 2", "Woken 0"),
        ("s0 turn", "Plain 2 core 0 forced 0"),
        ("c0 advance 10", "Now 10"),
        ("c0 fork 1 process", "Child 3"),
        ("s0 turn", "Plain 3 core 0 forced 0"),
    ],
    [
        "clock 10",
        "numbers 4 0",
        "core 0 forced 0 occupation 0",
        "intervals 0",
        "cpu 0 online runs 3 number 0",
        "cpu 1 online runs idle number 0",
        "task 1 cpu 0 asleep cookie 0 forced 0 vtime 0",
        "task 2 cpu 0 queued cookie 0 forced 0 vtime 10",
        "task 3 cpu 0 queued cookie 0 forced 0 vtime 10",
    ],
);

/// A sibling without a task leaves. What waits is adopted under the same core cookie, with a count of 0.
const LEAVE_ZEROES_COUNT: Script = script!(
    "LEAVE_ZEROES_COUNT",
    3,
    "8 8 65536",
    [(1, "fifo:50", 0), (2, "fifo:40", 1)],
    [
        ("c0 prctl 1 1 0 0 0", "0"),
        ("c0 prctl 2 1 0 0 0", "0"),
        ("c0 wake 1", "Woken 0"),
        ("c0 wake 2", "Woken 1"),
        ("s1 turn", "Selected idle core 1 forced 1"),
        ("c0 offline 2", "Done"),
        ("s0 turn", "Adopted 1 core 1 forced 0"),
        ("s1 turn", "Selected idle core 1 forced 1"),
    ],
    [
        "clock 0",
        "numbers 4 4",
        "core 1 forced 1 occupation 1",
        "intervals 0",
        "cpu 0 online runs 1 number 3",
        "cpu 1 online runs idle number 4",
        "cpu 2 offline runs idle number 0",
        "task 1 cpu 0 queued cookie 1 forced 0 vtime 0",
        "task 2 cpu 1 queued cookie 2 forced 0 vtime 0",
    ],
);

/// The worked examples of details.
pub const OF_DETAILS: [Script; 17] = [
    CLASSES_ACROSS_SIBLINGS,
    DEADLINES_ACROSS_SIBLINGS,
    TIE_TO_NEXT_SIBLING,
    COOKIE_OF_TARGET,
    SAME_COOKIE,
    CHILD_OF_OFFLINE_HOME,
    LOWEST_OTHER_SIBLING,
    FIRST_OF_SEVERAL_STOLEN,
    NO_STEAL_UNDER_COOKIE_0,
    POLICY_OF_ASLEEP,
    POLICY_RENEWS_DEADLINE,
    POLICY_BEGINS_SLICE,
    BLOCK_ADOPTS_NOTHING,
    SLICE_OF_LONE_TASK,
    SLICE_OF_CHILD,
    VTIME_OF_CHILD,
    LEAVE_ZEROES_COUNT,
];
