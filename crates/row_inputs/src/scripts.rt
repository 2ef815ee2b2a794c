//! What a worked example is, and those of core-wide selections and of forced idle.

/// A worked example: a text, and what the program writes for it.
#[derive(Clone, Copy)]
pub struct Script {
    /// The name of its constant.
    pub name: &'static str,
    /// The text of the scenario.
    pub text: &'static str,
    /// The lines of its entries.
    pub entries: &'static str,
    /// The report.
    pub report: &'static str,
}

/// No task and no step.
pub const NOTHING: Script = script!(
    "NOTHING",
    2,
    "4 4 65536",
    [],
    [],
    [
        "clock 0",
        "numbers 0 0",
        "core 0 forced 0 occupation 0",
        "intervals 0",
        "cpu 0 online runs idle number 0",
        "cpu 1 online runs idle number 0",
    ],
);

/// The other sibling's task has another cookie. That sibling looks once for one with the core's, and the
/// running task is charged at a tick.
pub const FORCED_IDLE: Script = script!(
    "FORCED_IDLE",
    2,
    "8 8 65536",
    [(1, "fifo:50", 0), (2, "fifo:40", 1)],
    [
        ("c0 prctl 1 1 0 0 0", "0"),
        ("c0 prctl 2 1 0 0 0", "0"),
        ("c0 wake 1", "Woken 0"),
        ("c0 wake 2", "Woken 1"),
        ("s0 turn", "Selected 1 core 1 forced 1"),
        ("s1 turn", "Selected idle core 1 forced 1"),
        ("s1 turn", "Missed 0"),
        ("c0 advance 10", "Now 10"),
        ("s0 tick", "Ticked no"),
        ("s1 turn", "Nothing"),
    ],
    [
        "clock 10",
        "numbers 4 4",
        "core 1 forced 1 occupation 1",
        "intervals 1",
        "cpu 0 online runs 1 number 3",
        "cpu 1 online runs idle number 4",
        "task 1 cpu 0 queued cookie 1 forced 10 vtime 0",
        "task 2 cpu 1 queued cookie 2 forced 0 vtime 0",
    ],
);

/// The other sibling adopts a lower task that has the core cookie.
pub const LOWER_MATCH: Script = script!(
    "LOWER_MATCH",
    2,
    "8 8 65536",
    [(1, "fifo:50", 0), (2, "fifo:40", 1), (3, "fifo:5", 1)],
    [
        ("c0 prctl 1 1 0 0 0", "0"),
        ("c0 prctl 2 1 0 0 0", "0"),
        ("c0 prctl 1 2 3 0 0", "0"),
        ("c0 wake 1", "Woken 0"),
        ("c0 wake 2", "Woken 1"),
        ("c0 wake 3", "Woken 1"),
        ("s0 turn", "Selected 1 core 1 forced 0"),
        ("s1 turn", "Adopted 3 core 1 forced 0"),
    ],
    [
        "clock 0",
        "numbers 4 4",
        "core 1 forced 0 occupation 2",
        "intervals 0",
        "cpu 0 online runs 1 number 4",
        "cpu 1 online runs 3 number 4",
        "task 1 cpu 0 queued cookie 1 forced 0 vtime 0",
        "task 2 cpu 1 queued cookie 2 forced 0 vtime 0",
        "task 3 cpu 1 queued cookie 1 forced 0 vtime 0",
    ],
);

/// For core cookie 0 a sibling whose first task has a cookie idles, though a lower one has none. The task
/// that runs is charged, although it has no cookie.
pub const CORE_COOKIE_0: Script = script!(
    "CORE_COOKIE_0",
    2,
    "8 8 65536",
    [(1, "fifo:50", 0), (2, "fifo:40", 1), (3, "fifo:5", 1)],
    [
        ("c0 prctl 2 1 0 0 0", "0"),
        ("c0 wake 1", "Woken 0"),
        ("c0 wake 2", "Woken 1"),
        ("c0 wake 3", "Woken 1"),
        ("s0 turn", "Plain 1 core 0 forced 0"),
        ("s1 turn", "Selected idle core 0 forced 1"),
        ("s1 turn", "Nothing"),
        ("c0 advance 10", "Now 10"),
        ("s0 tick", "Ticked no"),
    ],
    [
        "clock 10",
        "numbers 5 5",
        "core 0 forced 1 occupation 1",
        "intervals 1",
        "cpu 0 online runs 1 number 0",
        "cpu 1 online runs idle number 5",
        "task 1 cpu 0 queued cookie 0 forced 10 vtime 0",
        "task 2 cpu 1 queued cookie 1 forced 0 vtime 0",
        "task 3 cpu 1 queued cookie 0 forced 0 vtime 0",
    ],
);

/// Of two leads that are equal each sibling takes its own. At the end the other one leaves.
pub const TIE_OF_LEADS: Script = script!(
    "TIE_OF_LEADS",
    2,
    "8 8 65536",
    [(1, "fifo:50", 0), (2, "fifo:50", 1)],
    [
        ("c0 prctl 1 1 0 0 0", "0"),
        ("c0 prctl 2 1 0 0 0", "0"),
        ("c0 wake 1", "Woken 0"),
        ("c0 wake 2", "Woken 1"),
        ("s1 turn", "Selected 2 core 2 forced 1"),
        ("s0 turn", "Selected 1 core 1 forced 1"),
    ],
    end[(1, "Adopted idle core 1 forced 1")],
    [
        "clock 0",
        "numbers 4 4",
        "core 1 forced 1 occupation 1",
        "intervals 0",
        "cpu 0 online runs 1 number 4",
        "cpu 1 online runs idle number 4",
        "task 1 cpu 0 queued cookie 1 forced 0 vtime 0",
        "task 2 cpu 1 queued cookie 2 forced 0 vtime 0",
    ],
);

/// What waits is not adopted after a wake.
pub const STALE_PICK: Script = script!(
    "STALE_PICK",
    2,
    "8 8 65536",
    [
        (1, "fifo:50", 0),
        (2, "fifo:40", 1),
        (3, "fifo:5", 1),
        (4, "fair:0", 0)
    ],
    [
        ("c0 prctl 1 1 0 0 0", "0"),
        ("c0 prctl 2 1 0 0 0", "0"),
        ("c0 prctl 1 2 3 0 0", "0"),
        ("c0 wake 1", "Woken 0"),
        ("c0 wake 2", "Woken 1"),
        ("c0 wake 3", "Woken 1"),
        ("s0 turn", "Selected 1 core 1 forced 0"),
        ("c0 wake 4", "Woken 0"),
        ("s1 turn", "Selected 3 core 1 forced 0"),
    ],
    [
        "clock 0",
        "numbers 6 6",
        "core 1 forced 0 occupation 2",
        "intervals 0",
        "cpu 0 online runs 1 number 4",
        "cpu 1 online runs 3 number 6",
        "task 1 cpu 0 queued cookie 1 forced 0 vtime 0",
        "task 2 cpu 1 queued cookie 2 forced 0 vtime 0",
        "task 3 cpu 1 queued cookie 1 forced 0 vtime 0",
        "task 4 cpu 0 queued cookie 0 forced 0 vtime 0",
    ],
);

/// A fair task that is alone on its sibling, and has run for long enough while the other is forced
/// idle, is asked to leave. Then that one's task leads, whose virtual time has not grown.
pub const FORCED_IDLE_TICK: Script = script!(
    "FORCED_IDLE_TICK",
    2,
    "8 8 65536",
    [(1, "fair:0", 0), (2, "fair:0", 1)],
    [
        ("c0 wake 1", "Woken 0"),
        ("c0 wake 2", "Woken 1"),
        ("s0 turn", "Plain 1 core 0 forced 0"),
        ("s1 turn", "Plain 2 core 0 forced 0"),
        ("c0 prctl 1 1 0 0 0", "0"),
        ("s0 turn", "Selected 1 core 1 forced 1"),
        ("s1 turn", "Adopted idle core 1 forced 1"),
        ("c0 advance 6000000", "Now 6000000"),
        ("s0 tick", "Ticked yes"),
        ("s0 turn", "Selected idle core 0 forced 1"),
    ],
    end[(1, "Adopted 2 core 0 forced 1")],
    [
        "clock 6000000",
        "numbers 7 7",
        "core 0 forced 1 occupation 1",
        "intervals 1",
        "cpu 0 online runs idle number 7",
        "cpu 1 online runs 2 number 7",
        "task 1 cpu 0 queued cookie 1 forced 6000000 vtime 6000000",
        "task 2 cpu 1 queued cookie 0 forced 0 vtime 0",
    ],
);

/// Two siblings are forced idle beside two tasks, of which one only waits. Each gets 7 * 2 / 2.
pub const TWO_SHARES: Script = script!(
    "TWO_SHARES",
    4,
    "8 8 65536",
    [
        (1, "fifo:50", 0),
        (2, "fifo:40", 1),
        (3, "fifo:10", 2),
        (4, "fifo:10", 3)
    ],
    [
        ("c0 prctl 1 1 0 0 0", "0"),
        ("c0 prctl 1 2 2 0 0", "0"),
        ("c0 wake 1", "Woken 0"),
        ("c0 wake 2", "Woken 1"),
        ("c0 wake 3", "Woken 2"),
        ("c0 wake 4", "Woken 3"),
        ("s0 turn", "Selected 1 core 1 forced 2"),
        ("c0 advance 7", "Now 7"),
        ("s0 tick", "Ticked no"),
    ],
    end [
        (1, "Adopted 2 core 1 forced 2"),
        (2, "Selected idle core 1 forced 2"),
        (3, "Selected idle core 1 forced 2"),
    ],
    [
        "clock 7",
        "numbers 7 7",
        "core 1 forced 2 occupation 2",
        "intervals 1",
        "cpu 0 online runs 1 number 5",
        "cpu 1 online runs 2 number 5",
        "cpu 2 online runs idle number 6",
        "cpu 3 online runs idle number 7",
        "task 1 cpu 0 queued cookie 1 forced 7 vtime 0",
        "task 2 cpu 1 queued cookie 1 forced 7 vtime 0",
        "task 3 cpu 2 queued cookie 0 forced 0 vtime 0",
        "task 4 cpu 3 queued cookie 0 forced 0 vtime 0",
    ],
);

/// One sibling is forced idle beside three tasks. Each gets 10 / 3, rounded down.
pub const THREE_SHARES: Script = script!(
    "THREE_SHARES",
    4,
    "8 8 65536",
    [
        (1, "fifo:50", 0),
        (2, "fifo:40", 1),
        (3, "fifo:10", 2),
        (4, "fifo:10", 3)
    ],
    [
        ("c0 prctl 1 1 0 0 0", "0"),
        ("c0 prctl 1 2 2 0 0", "0"),
        ("c0 prctl 1 2 3 0 0", "0"),
        ("c0 wake 1", "Woken 0"),
        ("c0 wake 2", "Woken 1"),
        ("c0 wake 3", "Woken 2"),
        ("c0 wake 4", "Woken 3"),
        ("s0 turn", "Selected 1 core 1 forced 1"),
        ("c0 advance 10", "Now 10"),
        ("s0 tick", "Ticked no"),
    ],
    end [
        (1, "Adopted 2 core 1 forced 1"),
        (2, "Adopted 3 core 1 forced 1"),
        (3, "Selected idle core 1 forced 1"),
    ],
    [
        "clock 10",
        "numbers 6 6",
        "core 1 forced 1 occupation 3",
        "intervals 1",
        "cpu 0 online runs 1 number 5",
        "cpu 1 online runs 2 number 5",
        "cpu 2 online runs 3 number 5",
        "cpu 3 online runs idle number 6",
        "task 1 cpu 0 queued cookie 1 forced 3 vtime 0",
        "task 2 cpu 1 queued cookie 1 forced 3 vtime 0",
        "task 3 cpu 2 queued cookie 1 forced 3 vtime 0",
        "task 4 cpu 3 queued cookie 0 forced 0 vtime 0",
    ],
);

/// Task 2 has no cookie and waits for sibling 0, which still runs task 1. The one that waits is charged.
pub const WAITING_TASK_CHARGED: Script = script!(
    "WAITING_TASK_CHARGED",
    2,
    "8 8 65536",
    [(1, "fifo:10", 0), (2, "fifo:20", 0), (3, "fifo:15", 1)],
    [
        ("c0 prctl 3 1 0 0 0", "0"),
        ("c0 wake 1", "Woken 0"),
        ("s0 turn", "Plain 1 core 0 forced 0"),
        ("c0 wake 2", "Woken 0"),
        ("c0 wake 3", "Woken 1"),
        ("s1 turn", "Selected idle core 0 forced 1"),
        ("c0 advance 10", "Now 10"),
        ("s1 tick", "Ticked no"),
    ],
    end[(0, "Adopted 2 core 0 forced 1")],
    [
        "clock 10",
        "numbers 5 5",
        "core 0 forced 1 occupation 1",
        "intervals 1",
        "cpu 0 online runs 2 number 5",
        "cpu 1 online runs idle number 5",
        "task 1 cpu 0 queued cookie 0 forced 0 vtime 0",
        "task 2 cpu 0 queued cookie 0 forced 10 vtime 0",
        "task 3 cpu 1 queued cookie 1 forced 0 vtime 0",
    ],
);

/// Idle waits for sibling 1, which still runs task 2. So nobody is charged for that sibling.
pub const WAITING_IDLE_CHARGES_NOBODY: Script = script!(
    "WAITING_IDLE_CHARGES_NOBODY",
    2,
    "8 8 65536",
    [(1, "fifo:20", 0), (2, "fifo:10", 1)],
    [
        ("c0 prctl 1 1 0 0 0", "0"),
        ("c0 wake 2", "Woken 1"),
        ("s1 turn", "Plain 2 core 0 forced 0"),
        ("c0 wake 1", "Woken 0"),
        ("s0 turn", "Selected 1 core 1 forced 1"),
        ("c0 advance 10", "Now 10"),
        ("s0 tick", "Ticked no"),
    ],
    end[(1, "Adopted idle core 1 forced 1")],
    [
        "clock 10",
        "numbers 4 4",
        "core 1 forced 1 occupation 1",
        "intervals 1",
        "cpu 0 online runs 1 number 4",
        "cpu 1 online runs idle number 4",
        "task 1 cpu 0 queued cookie 1 forced 10 vtime 0",
        "task 2 cpu 1 queued cookie 0 forced 0 vtime 0",
    ],
);

/// A task is charged at its exit, and its total is kept.
pub const CHARGED_AT_EXIT: Script = script!(
    "CHARGED_AT_EXIT",
    2,
    "8 8 65536",
    [(1, "fifo:50", 0), (2, "fifo:40", 1)],
    [
        ("c0 prctl 1 1 0 0 0", "0"),
        ("c0 prctl 2 1 0 0 0", "0"),
        ("c0 wake 1", "Woken 0"),
        ("c0 wake 2", "Woken 1"),
        ("s0 turn", "Selected 1 core 1 forced 1"),
        ("c0 advance 10", "Now 10"),
        ("s0 exit", "Ended 1 Selected idle core 2 forced 0"),
        ("s1 turn", "Adopted 2 core 2 forced 0"),
    ],
    [
        "clock 10",
        "numbers 5 5",
        "core 2 forced 0 occupation 1",
        "intervals 1",
        "cpu 0 online runs idle number 5",
        "cpu 1 online runs 2 number 5",
        "task 2 cpu 1 queued cookie 2 forced 0 vtime 0",
        "ended 1 forced 10",
    ],
);
