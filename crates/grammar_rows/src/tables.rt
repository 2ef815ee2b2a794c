//! The lines and the texts that the tests read, each of those that are refused with the rule that it breaks, its first
//! bad line and what is wrong with it.

use scenario_text::BadKind;

/// A head and one task.
pub const HEAD: &str =
    "coresched 1\nsiblings 2\nlimits 8 8 65536\ntask 1 1 1 0 fifo:10 0 0 0 0 0 0 0 1 1\n";

/// A rule, the first bad line of a text that breaks it alone, what is wrong with that line, and the text.
pub type Refused = (&'static str, u32, BadKind, &'static str);

/// Texts that are no scenario's.
pub const REFUSED_TEXTS: [Refused; 18] = [
    ("some line", 1, BadKind::Cut, ""),
    ("a whole first line", 1, BadKind::Cut, "coresched 1"),
    (
        "the version",
        1,
        BadKind::Shape,
        "coresched 3\nsiblings 2\nlimits 8 8 65536\nend\n",
    ),
    (
        "users in version 2 alone",
        4,
        BadKind::Shape,
        "coresched 1\nsiblings 2\nlimits 8 8 65536\nuser 0 0 0 0 0 0 0 0 1 1\nend\n",
    ),
    (
        "the greatest number of siblings of version 2",
        2,
        BadKind::Number,
        "coresched 2\nsiblings 17\nlimits 8 8 65536\nend\n",
    ),
    (
        "the limit of tasks before their users",
        6,
        BadKind::Full,
        "coresched 2\nsiblings 2\nlimits 1 8 65536\nuser 0 0 0 0 0 0 0 0 1 1\ntask 1 1 1 0 stop 0\ntask 2 2 2 0 stop 5\nend\n",
    ),
    (
        "the first line's case",
        1,
        BadKind::Shape,
        "Coresched 1\nsiblings 2\nlimits 8 8 65536\nend\n",
    ),
    (
        "the second line",
        2,
        BadKind::Shape,
        "coresched 1\nlimits 8 8 65536\nend\n",
    ),
    (
        "the least number of siblings",
        2,
        BadKind::Number,
        "coresched 1\nsiblings 0\nlimits 8 8 65536\nend\n",
    ),
    (
        "the greatest number of siblings",
        2,
        BadKind::Number,
        "coresched 1\nsiblings 9\nlimits 8 8 65536\nend\n",
    ),
    (
        "no leading 0 of a number of siblings",
        2,
        BadKind::Number,
        "coresched 1\nsiblings 02\nlimits 4 4 65536\nend\n",
    ),
    (
        "the third line",
        3,
        BadKind::Shape,
        "coresched 1\nsiblings 2\nend\n",
    ),
    (
        "the least limit",
        3,
        BadKind::Number,
        "coresched 1\nsiblings 2\nlimits 0 8 65536\nend\n",
    ),
    (
        "the greatest limit",
        3,
        BadKind::Number,
        "coresched 1\nsiblings 2\nlimits 8 257 65536\nend\n",
    ),
    (
        "the least top",
        3,
        BadKind::Number,
        "coresched 1\nsiblings 2\nlimits 8 8 8191\nend\n",
    ),
    (
        "the greatest top",
        3,
        BadKind::Number,
        "coresched 1\nsiblings 2\nlimits 8 8 9223372036854775808\nend\n",
    ),
    (
        "the limit of tasks",
        5,
        BadKind::Full,
        "coresched 1\nsiblings 2\nlimits 1 8 65536\ntask 1 1 1 0 fifo:10 0 0 0 0 0 0 0 1 1\ntask 2 2 2 0 fifo:10 0 0 0 0 0 0 0 1 1\nend\n",
    ),
    (
        "the first of two bad lines",
        2,
        BadKind::Number,
        "coresched 1\nsiblings 9\nlimit\nend\n",
    ),
];

/// The same, after the head and the task, whose lines are four, with steps.
pub const REFUSED_STEPS: [Refused; 55] = [
    ("a last line feed", 5, BadKind::Cut, "end"),
    ("an end", 5, BadKind::Cut, ""),
    ("an end behind a step", 6, BadKind::Cut, "step s0 turn\n"),
    (
        "nothing after the end",
        6,
        BadKind::After,
        "end\nstep s0 turn\n",
    ),
    ("no line after the end", 6, BadKind::After, "end\n\n"),
    (
        "no part of a line after the end",
        6,
        BadKind::After,
        "end\nx",
    ),
    ("one end", 6, BadKind::After, "end\nend\n"),
    ("one space", 5, BadKind::Shape, "step  s0 turn\nend\n"),
    (
        "no space at the end",
        5,
        BadKind::Shape,
        "step s0 turn \nend\n",
    ),
    (
        "no space at the start",
        5,
        BadKind::Shape,
        " step s0 turn\nend\n",
    ),
    (
        "no empty word in a number's place",
        5,
        BadKind::Shape,
        "step c0 wake \nend\n",
    ),
    ("no blank line", 5, BadKind::Shape, "\nend\n"),
    ("a known word", 5, BadKind::Shape, "pause\nend\n"),
    ("no word more", 5, BadKind::Shape, "step s0 turn 1\nend\n"),
    ("an event", 5, BadKind::Shape, "step s0\nend\n"),
    ("no leading 0", 5, BadKind::Number, "step c0 wake 01\nend\n"),
    ("no sign", 5, BadKind::Number, "step c0 wake +1\nend\n"),
    ("digits", 5, BadKind::Number, "step c0 wake one\nend\n"),
    (
        "the greatest pid of a step",
        5,
        BadKind::Number,
        "step c0 wake 1000000\nend\n",
    ),
    ("the callers", 5, BadKind::Number, "step c8 wake 1\nend\n"),
    (
        "a caller's number",
        5,
        BadKind::Number,
        "step c wake 1\nend\n",
    ),
    (
        "a sibling's number",
        5,
        BadKind::Number,
        "step s turn\nend\n",
    ),
    (
        "an actor's letter",
        5,
        BadKind::Shape,
        "step x0 turn\nend\n",
    ),
    (
        "a sibling's own event",
        5,
        BadKind::Shape,
        "step c0 turn\nend\n",
    ),
    (
        "a caller's event",
        5,
        BadKind::Shape,
        "step s0 wake 1\nend\n",
    ),
    (
        "the form before a number",
        5,
        BadKind::Shape,
        "step s9 wake 1\nend\n",
    ),
    (
        "an actor's sibling",
        5,
        BadKind::Number,
        "step s2 turn\nend\n",
    ),
    (
        "the greatest command",
        5,
        BadKind::Number,
        "step c0 prctl 1 4294967296 0 0 0\nend\n",
    ),
    (
        "the greatest target",
        5,
        BadKind::Number,
        "step c0 prctl 1 2 2147483648 0 0\nend\n",
    ),
    (
        "the least target",
        5,
        BadKind::Number,
        "step c0 prctl 1 2 -2147483649 0 0\nend\n",
    ),
    (
        "no sign of a target 0",
        5,
        BadKind::Number,
        "step c0 prctl 1 2 -0 0 0\nend\n",
    ),
    (
        "a sign before digits",
        5,
        BadKind::Number,
        "step c0 prctl 1 2 - 0 0\nend\n",
    ),
    (
        "no leading 0 behind a sign",
        5,
        BadKind::Number,
        "step c0 prctl 1 2 -01 0 0\nend\n",
    ),
    (
        "no sign of a scope",
        5,
        BadKind::Number,
        "step c0 prctl 1 2 1 -1 0\nend\n",
    ),
    (
        "the greatest scope",
        5,
        BadKind::Number,
        "step c0 prctl 1 1 0 4294967296 0\nend\n",
    ),
    (
        "the greatest address",
        5,
        BadKind::Number,
        "step c0 prctl 1 0 0 0 18446744073709551616\nend\n",
    ),
    (
        "five arguments",
        5,
        BadKind::Shape,
        "step c0 prctl 1 1 0 0\nend\n",
    ),
    (
        "a call's own actor",
        5,
        BadKind::Shape,
        "step s0 prctl 1 1 0 0 0\nend\n",
    ),
    (
        "a fork's own actor",
        5,
        BadKind::Shape,
        "step s0 fork 1 thread\nend\n",
    ),
    (
        "an exit's own actor",
        5,
        BadKind::Shape,
        "step c0 exit\nend\n",
    ),
    (
        "a tick's own actor",
        5,
        BadKind::Shape,
        "step c0 tick\nend\n",
    ),
    (
        "an advance's own actor",
        5,
        BadKind::Shape,
        "step s0 advance 1\nend\n",
    ),
    (
        "the least advance",
        5,
        BadKind::Number,
        "step c0 advance 0\nend\n",
    ),
    (
        "the greatest advance",
        5,
        BadKind::Number,
        "step c0 advance 1000000001\nend\n",
    ),
    (
        "what a child is",
        5,
        BadKind::Shape,
        "step c0 fork 1 task\nend\n",
    ),
    (
        "what a child is before its parent's pid",
        5,
        BadKind::Shape,
        "step c0 fork 0 task\nend\n",
    ),
    (
        "the least pid of a fork",
        5,
        BadKind::Number,
        "step c0 fork 0 thread\nend\n",
    ),
    (
        "a schedule's own actor",
        5,
        BadKind::Shape,
        "step c0 resched\nend\n",
    ),
    (
        "a policy of a change",
        5,
        BadKind::Shape,
        "step c0 setsched 1\nend\n",
    ),
    (
        "a known policy of a change",
        5,
        BadKind::Shape,
        "step c0 setsched 0 nice:1\nend\n",
    ),
    (
        "the greatest priority of a change",
        5,
        BadKind::Number,
        "step c0 setsched 1 fifo:100\nend\n",
    ),
    (
        "the least pid of a change",
        5,
        BadKind::Number,
        "step c0 setsched 0 stop\nend\n",
    ),
    (
        "a change's own actor",
        5,
        BadKind::Shape,
        "step s0 setsched 1 stop\nend\n",
    ),
    (
        "a sibling that leaves",
        5,
        BadKind::Number,
        "step c0 offline 2\nend\n",
    ),
    (
        "a sibling that comes back",
        5,
        BadKind::Number,
        "step c0 online 01\nend\n",
    ),
];

/// The same, with tasks.
pub const REFUSED_TASKS: [Refused; 31] = [
    (
        "the greatest pid of a task",
        5,
        BadKind::Number,
        "task 10000 1 1 0 fifo:10 0 0 0 0 0 0 0 1 1\nend\n",
    ),
    (
        "the least thread group",
        5,
        BadKind::Number,
        "task 2 0 2 0 fifo:10 0 0 0 0 0 0 0 1 1\nend\n",
    ),
    (
        "the greatest thread group",
        5,
        BadKind::Number,
        "task 2 10000 2 0 fifo:10 0 0 0 0 0 0 0 1 1\nend\n",
    ),
    (
        "a task's sibling",
        5,
        BadKind::Number,
        "task 2 2 2 2 fifo:10 0 0 0 0 0 0 0 1 1\nend\n",
    ),
    (
        "the policy",
        5,
        BadKind::Shape,
        "task 2 2 2 0 nice:10 0 0 0 0 0 0 0 1 1\nend\n",
    ),
    (
        "the policy before a number",
        5,
        BadKind::Shape,
        "task 0 2 2 0 nice:10 0 0 0 0 0 0 0 1 1\nend\n",
    ),
    (
        "the stop task's lack of a number",
        5,
        BadKind::Shape,
        "task 2 2 2 0 stop:1 0 0 0 0 0 0 0 1 1\nend\n",
    ),
    (
        "a number of each other policy",
        5,
        BadKind::Shape,
        "task 2 2 2 0 fifo 0 0 0 0 0 0 0 1 1\nend\n",
    ),
    (
        "some number behind the colon",
        5,
        BadKind::Number,
        "task 2 2 2 0 fifo: 0 0 0 0 0 0 0 1 1\nend\n",
    ),
    (
        "one number behind the colon",
        5,
        BadKind::Number,
        "task 2 2 2 0 fifo:1:2 0 0 0 0 0 0 0 1 1\nend\n",
    ),
    (
        "the least relative deadline",
        5,
        BadKind::Number,
        "task 2 2 2 0 dl:0 0 0 0 0 0 0 0 1 1\nend\n",
    ),
    (
        "the greatest relative deadline",
        5,
        BadKind::Number,
        "task 2 2 2 0 dl:1000000001 0 0 0 0 0 0 0 1 1\nend\n",
    ),
    (
        "the least priority",
        5,
        BadKind::Number,
        "task 2 2 2 0 fifo:0 0 0 0 0 0 0 0 1 1\nend\n",
    ),
    (
        "the greatest priority",
        5,
        BadKind::Number,
        "task 2 2 2 0 fifo:100 0 0 0 0 0 0 0 1 1\nend\n",
    ),
    (
        "the least priority of RR",
        5,
        BadKind::Number,
        "task 2 2 2 0 rr:0 0 0 0 0 0 0 0 1 1\nend\n",
    ),
    (
        "the greatest priority of RR",
        5,
        BadKind::Number,
        "task 2 2 2 0 rr:100 0 0 0 0 0 0 0 1 1\nend\n",
    ),
    (
        "no leading 0 of a priority",
        5,
        BadKind::Number,
        "task 2 2 2 0 rr:07 0 0 0 0 0 0 0 1 1\nend\n",
    ),
    (
        "the least nice value",
        5,
        BadKind::Number,
        "task 2 2 2 0 fair:-21 0 0 0 0 0 0 0 1 1\nend\n",
    ),
    (
        "the greatest nice value",
        5,
        BadKind::Number,
        "task 2 2 2 0 fair:20 0 0 0 0 0 0 0 1 1\nend\n",
    ),
    (
        "no sign of a nice value 0",
        5,
        BadKind::Number,
        "task 2 2 2 0 fair:-0 0 0 0 0 0 0 0 1 1\nend\n",
    ),
    (
        "no other sign of a nice value",
        5,
        BadKind::Number,
        "task 2 2 2 0 fair:+5 0 0 0 0 0 0 0 1 1\nend\n",
    ),
    (
        "the greatest id",
        5,
        BadKind::Number,
        "task 2 2 2 0 fifo:10 0 0 0 0 0 65536 0 1 1\nend\n",
    ),
    (
        "a flag",
        5,
        BadKind::Number,
        "task 2 2 2 0 fifo:10 0 0 0 0 0 0 0 1 2\nend\n",
    ),
    (
        "all words of a task",
        5,
        BadKind::Shape,
        "task 2 2 2 0 fifo:10 0 0 0 0 0 0 0 1\nend\n",
    ),
    (
        "no sixteenth word",
        5,
        BadKind::Shape,
        "task 2 2 2 0 fifo:10 0 0 0 0 0 0 0 1 1 0\nend\n",
    ),
    (
        "distinct pids",
        5,
        BadKind::Twice,
        "task 1 1 1 0 fifo:10 0 0 0 0 0 0 0 1 1\nend\n",
    ),
    (
        "distinct pids before a leader",
        5,
        BadKind::Twice,
        "task 1 3 3 0 fifo:10 0 0 0 0 0 0 0 1 1\nend\n",
    ),
    (
        "an earlier leader",
        5,
        BadKind::Leader,
        "task 2 3 3 0 fifo:10 0 0 0 0 0 0 0 1 1\nend\n",
    ),
    (
        "the leader's process group",
        5,
        BadKind::Leader,
        "task 2 1 2 0 fifo:10 0 0 0 0 0 0 0 1 1\nend\n",
    ),
    (
        "a leader of its own group",
        6,
        BadKind::Leader,
        "task 2 1 1 0 fifo:10 0 0 0 0 0 0 0 1 1\ntask 3 2 1 0 fifo:10 0 0 0 0 0 0 0 1 1\nend\n",
    ),
    (
        "tasks before steps",
        6,
        BadKind::Shape,
        "step s0 turn\ntask 2 2 2 0 fifo:10 0 0 0 0 0 0 0 1 1\nend\n",
    ),
];

/// The same, with teach lines.
pub const REFUSED_TEACHES: [Refused; 11] = [
    (
        "the greatest guard",
        5,
        BadKind::Number,
        "teach 16 0 0\nend\n",
    ),
    (
        "the greatest user of a caller",
        5,
        BadKind::Number,
        "teach 0 65536 0\nend\n",
    ),
    (
        "the greatest user of a target",
        5,
        BadKind::Number,
        "teach 0 0 65536\nend\n",
    ),
    (
        "no leading 0 of a guard",
        5,
        BadKind::Number,
        "teach 00 0 0\nend\n",
    ),
    ("two users", 5, BadKind::Shape, "teach 0 0\nend\n"),
    (
        "tasks before teach lines",
        6,
        BadKind::Shape,
        "teach 0 0 0\ntask 2 2 2 0 stop 0 0 0 0 0 0 0 1 1\nend\n",
    ),
    (
        "teach lines before steps",
        6,
        BadKind::Shape,
        "step s0 turn\nteach 0 0 0\nend\n",
    ),
    (
        "the greatest guard of a load",
        5,
        BadKind::Number,
        "step c0 load 16\nend\n",
    ),
    (
        "a load's own actor",
        5,
        BadKind::Shape,
        "step s0 load 0\nend\n",
    ),
    (
        "the greatest guard of an unload",
        5,
        BadKind::Number,
        "step c0 unload 16\nend\n",
    ),
    (
        "a guard of an unload",
        5,
        BadKind::Shape,
        "step c0 unload\nend\n",
    ),
];

/// The three lines that a text of version 2 begins with.
pub const HEAD_OF_SECOND: &str = "coresched 2\nsiblings 16\nlimits 8 8 65536\n";

/// Texts of version 2 that are refused after those.
pub const REFUSED_USERS: [Refused; 31] = [
    (
        "the least user",
        4,
        BadKind::User,
        "user 1 0 0 0 0 0 0 0 1 1\nend\n",
    ),
    (
        "users in the order of their numbers",
        5,
        BadKind::User,
        "user 0 0 0 0 0 0 0 0 1 1\nuser 0 7 7 7 7 7 7 1 0 0\nend\n",
    ),
    (
        "no number left out",
        5,
        BadKind::User,
        "user 0 0 0 0 0 0 0 0 1 1\nuser 2 7 7 7 7 7 7 1 0 0\nend\n",
    ),
    (
        "each user once",
        5,
        BadKind::User,
        "user 0 0 0 0 0 0 0 0 1 1\nuser 1 0 0 0 0 0 0 0 1 1\nend\n",
    ),
    (
        "each user once, however far apart",
        6,
        BadKind::User,
        "user 0 0 0 0 0 0 0 0 1 1\nuser 1 7 7 7 7 7 7 1 0 0\nuser 2 0 0 0 0 0 0 0 1 1\nend\n",
    ),
    (
        "the greatest user",
        4,
        BadKind::Number,
        "user 256 0 0 0 0 0 0 0 1 1\nend\n",
    ),
    (
        "no leading 0 of a user",
        4,
        BadKind::Number,
        "user 00 0 0 0 0 0 0 0 1 1\nend\n",
    ),
    (
        "the greatest id of a user",
        4,
        BadKind::Number,
        "user 5 65536 0 0 0 0 0 0 1 1\nend\n",
    ),
    (
        "the greatest flag of a user",
        4,
        BadKind::Number,
        "user 0 0 0 0 0 0 0 2 1 1\nend\n",
    ),
    (
        "all words of a user",
        4,
        BadKind::Shape,
        "user 0 0 0 0 0 0 0 0 1\nend\n",
    ),
    (
        "no twelfth word of a user",
        4,
        BadKind::Shape,
        "user 0 0 0 0 0 0 0 0 1 1 0\nend\n",
    ),
    (
        "users before tasks",
        6,
        BadKind::Shape,
        "user 0 0 0 0 0 0 0 0 1 1\ntask 1 1 1 0 stop 0\nuser 1 7 7 7 7 7 7 1 0 0\nend\n",
    ),
    (
        "a user that is there",
        4,
        BadKind::User,
        "task 1 1 1 0 stop 0\nend\n",
    ),
    (
        "a user that is there, beside others",
        5,
        BadKind::User,
        "user 0 0 0 0 0 0 0 0 1 1\ntask 1 1 1 0 stop 1\nend\n",
    ),
    (
        "users named in the order of their numbers",
        6,
        BadKind::User,
        "user 0 0 0 0 0 0 0 0 1 1\nuser 1 7 7 7 7 7 7 1 0 0\ntask 1 1 1 0 stop 1\nend\n",
    ),
    (
        "the greatest user of a task",
        5,
        BadKind::Number,
        "user 0 0 0 0 0 0 0 0 1 1\ntask 1 1 1 0 stop 256\nend\n",
    ),
    (
        "no leading 0 of a task's user",
        5,
        BadKind::Number,
        "user 0 0 0 0 0 0 0 0 1 1\ntask 1 1 1 0 stop 00\nend\n",
    ),
    (
        "a user of a task",
        5,
        BadKind::Shape,
        "user 0 0 0 0 0 0 0 0 1 1\ntask 1 1 1 0 stop\nend\n",
    ),
    (
        "one user of a task",
        5,
        BadKind::Shape,
        "user 0 0 0 0 0 0 0 0 1 1\ntask 1 1 1 0 stop 0 0\nend\n",
    ),
    (
        "credentials in user lines alone",
        5,
        BadKind::Shape,
        "user 0 0 0 0 0 0 0 0 1 1\ntask 1 1 1 0 stop 0 0 0 0 0 0 0 1 1\nend\n",
    ),
    (
        "a task of each user, before the end",
        5,
        BadKind::User,
        "user 0 0 0 0 0 0 0 0 1 1\nend\n",
    ),
    (
        "a task of each user, before teach lines",
        7,
        BadKind::User,
        "user 0 0 0 0 0 0 0 0 1 1\nuser 1 7 7 7 7 7 7 1 0 0\ntask 1 1 1 0 stop 0\nteach 0 0 0\nend\n",
    ),
    (
        "a task of each user, before steps",
        7,
        BadKind::User,
        "user 0 0 0 0 0 0 0 0 1 1\nuser 1 7 7 7 7 7 7 1 0 0\ntask 1 1 1 0 stop 0\nstep s0 turn\nend\n",
    ),
    (
        "a whole line before the users",
        5,
        BadKind::Cut,
        "user 0 0 0 0 0 0 0 0 1 1\nend",
    ),
    (
        "a form before the users",
        5,
        BadKind::Shape,
        "user 0 0 0 0 0 0 0 0 1 1\npause\nend\n",
    ),
    (
        "a number before the users",
        5,
        BadKind::Number,
        "user 0 0 0 0 0 0 0 0 1 1\nstep c0 wake 0\nend\n",
    ),
    (
        "distinct pids before the users",
        6,
        BadKind::Twice,
        "user 0 0 0 0 0 0 0 0 1 1\ntask 1 1 1 0 stop 0\ntask 1 1 1 0 stop 5\nend\n",
    ),
    (
        "an earlier leader before the users",
        6,
        BadKind::Leader,
        "user 0 0 0 0 0 0 0 0 1 1\ntask 1 1 1 0 stop 0\ntask 2 3 3 0 stop 5\nend\n",
    ),
    (
        "the siblings of version 2",
        6,
        BadKind::Number,
        "user 0 0 0 0 0 0 0 0 1 1\ntask 1 1 1 0 stop 0\nstep s16 turn\nend\n",
    ),
    (
        "no leading 0 of a sibling",
        6,
        BadKind::Number,
        "user 0 0 0 0 0 0 0 0 1 1\ntask 1 1 1 0 stop 0\nstep s01 turn\nend\n",
    ),
    (
        "the sibling of an event in version 2",
        6,
        BadKind::Number,
        "user 0 0 0 0 0 0 0 0 1 1\ntask 1 1 1 0 stop 0\nstep c0 offline 16\nend\n",
    ),
];

/// Texts that are read after those, each with how many tasks and steps it has.
pub const READ_OF_SECOND: [(&str, usize, usize); 4] = [
    ("end\n", 0, 0),
    (
        "user 0 0 0 0 0 0 0 0 1 1\nuser 1 0 0 0 0 0 0 0 1 0\ntask 1 1 1 0 stop 0\ntask 2 2 2 15 stop 1\nend\n",
        2,
        0,
    ),
    (
        "user 0 0 0 0 0 0 0 0 1 1\nuser 1 7 7 7 7 7 7 1 0 0\ntask 1 1 1 0 stop 0\ntask 2 2 2 0 stop 0\ntask 3 3 3 0 stop 1\ntask 4 4 4 0 stop 0\nteach 0 0 0\nend\n",
        4,
        0,
    ),
    (
        "step s0 turn\nstep s9 tick\nstep s10 block\nstep s15 exit\nstep c7 offline 10\nstep c0 online 15\nend\n",
        0,
        6,
    ),
];

/// A tick, and for each argument of the other events the least and the greatest.
pub const STEPS: &str = "step c0 load 0
step c7 load 15
step c0 unload 0
step c7 unload 15
step c7 setsched 999999 fair:-20
step c0 setsched 1 stop
step c0 offline 0
step c7 online 1
step s1 tick
step c0 advance 1
step c7 advance 1000000000
step c0 prctl 1 0 -2147483648 0 0
step c7 prctl 999999 4294967295 2147483647 4294967295 18446744073709551615
step c0 prctl 1 3 -1 2 4096
step c0 prctl 1 2 0 1 1";

/// A task of each policy, with the least number and the greatest.
pub const POLICIES: &str = "task 2 2 2 0 stop 0 0 0 0 0 0 0 1 1
task 2 2 2 0 dl:1 0 0 0 0 0 0 0 1 1
task 2 2 2 0 dl:1000000000 0 0 0 0 0 0 0 1 1
task 2 2 2 0 fifo:1 0 0 0 0 0 0 0 1 1
task 2 2 2 0 fifo:99 0 0 0 0 0 0 0 1 1
task 2 2 2 0 rr:1 0 0 0 0 0 0 0 1 1
task 2 2 2 0 rr:99 0 0 0 0 0 0 0 1 1
task 2 2 2 0 fair:-20 0 0 0 0 0 0 0 1 1
task 2 2 2 0 fair:19 0 0 0 0 0 0 0 1 1";
