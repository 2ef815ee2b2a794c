//! The forms that a line of a scenario can have: the words that it takes, by the names that they
//! have in docs/formats.md, and what may stand in the place of each. All sentences are made from
//! these, so a new form is a row more here.

use scenario_text::limits::{
    LEAST_TOP, MOST_ADVANCE, MOST_CALLER, MOST_DEADLINE, MOST_GUARD, MOST_ID, MOST_LIMIT,
    MOST_NAMED_PID, MOST_NICE_ABOVE, MOST_NICE_BELOW, MOST_PID, MOST_PRIORITY,
    MOST_SIBLINGS_IN_FIRST, MOST_SIBLINGS_IN_SECOND, MOST_TARGET_ABOVE, MOST_TARGET_BELOW,
    MOST_TOP, MOST_USER,
};

/// The numbers that may stand in a place.
#[derive(Clone, Copy)]
pub(crate) enum Range {
    /// From `low` to `high`.
    Plain { low: u64, high: u64 },
    /// From `-below` to `above`.
    Signed { below: u32, above: u32 },
}

/// What may stand in the place of a word.
#[derive(Clone, Copy)]
pub(crate) enum Kind {
    /// One of these words.
    OneOf(&'static [&'static str]),
    /// A number of this range.
    Number(Range),
    /// The number of a sibling, below that of the siblings.
    Sibling,
    /// A policy, which is `stop` or one of `POLICIES`.
    Policy,
}

/// What a form takes in one place, and what that is called.
#[derive(Clone, Copy)]
pub(crate) struct Field {
    pub name: &'static str,
    pub kind: Kind,
}

/// The word that names a form, and what it takes after that.
#[derive(Clone, Copy)]
pub(crate) struct Form {
    pub name: &'static str,
    pub fields: &'static [Field],
}

/// A policy that has a number.
#[derive(Clone, Copy)]
pub(crate) struct PolicyForm {
    /// What stands before the number.
    pub mark: &'static str,
    /// What the number is called.
    pub number: &'static str,
    /// The same, in a sentence.
    pub says: &'static str,
    pub range: Range,
}

/// A number from `low` to `high`, by its name.
macro_rules! number {
    ($name:expr, $low:expr, $high:expr) => {
        Field {
            name: $name,
            kind: Kind::Number(Range::Plain {
                low: $low,
                high: $high as u64,
            }),
        }
    };
}

/// A user or a group, by its name.
macro_rules! id {
    ($name:expr) => {
        number!($name, 0, MOST_ID)
    };
}

/// What is 1 for yes and 0 for no, by its name.
macro_rules! flag {
    ($name:expr) => {
        number!($name, 0, 1)
    };
}

/// A sibling, by its name.
macro_rules! sibling {
    ($name:expr) => {
        Field {
            name: $name,
            kind: Kind::Sibling,
        }
    };
}

/// A form that takes these fields.
macro_rules! form {
    ($name:expr $(, $field:expr)*) => {
        Form {
            name: $name,
            fields: &[$($field),*],
        }
    };
}

/// A form that takes these fields, and after them credentials.
macro_rules! with_creds {
    ($name:expr $(, $field:expr)*) => {
        form!(
            $name,
            $($field,)*
            id!("RUID"),
            id!("EUID"),
            id!("SUID"),
            id!("RGID"),
            id!("EGID"),
            id!("SGID"),
            flag!("CAP"),
            flag!("MM"),
            flag!("DUMP")
        )
    };
}

/// The first three lines, each of which has a form of its own, where a core has at most so many siblings.
macro_rules! head {
    ($most_siblings:expr) => {
        [
            form!("coresched", VERSION),
            form!("siblings", number!("N", 1, $most_siblings)),
            form!(
                "limits",
                number!("TASKS", 1, MOST_LIMIT),
                number!("COOKIES", 1, MOST_LIMIT),
                number!("TOP", LEAST_TOP, MOST_TOP)
            ),
        ]
    };
}

/// A policy with a number, which is called so and is of this range.
macro_rules! policy {
    ($mark:expr, $number:expr, $says:expr, $range:expr) => {
        PolicyForm {
            mark: $mark,
            number: $number,
            says: $says,
            range: $range,
        }
    };
}

/// The policies that have a number.
pub(crate) const POLICIES: [PolicyForm; 4] = [
    policy!(
        "dl:",
        "R",
        "a relative deadline",
        Range::Plain {
            low: 1,
            high: MOST_DEADLINE
        }
    ),
    policy!("fifo:", "P", "a priority", PRIORITIES),
    policy!("rr:", "P", "a priority", PRIORITIES),
    policy!(
        "fair:",
        "NICE",
        "a nice value",
        Range::Signed {
            below: MOST_NICE_BELOW,
            above: MOST_NICE_ABOVE
        }
    ),
];

const PRIORITIES: Range = Range::Plain {
    low: 1,
    high: MOST_PRIORITY as u64,
};

/// The pid that a caller names.
const NAMED_PID: Field = number!("PID", 1, MOST_NAMED_PID);

/// A guard.
const GUARD: Field = number!("K", 0, MOST_GUARD);

const POLICY: Field = Field {
    name: "POLICY",
    kind: Kind::Policy,
};

const VERSION: Field = Field {
    name: "VERSION",
    kind: Kind::OneOf(&["1", "2"]),
};

/// What a child is.
const CHILD: Field = Field {
    name: "CHILD",
    kind: Kind::OneOf(&["thread", "process"]),
};

/// The target of a `prctl`.
const TARGET: Field = Field {
    name: "TARGET",
    kind: Kind::Number(Range::Signed {
        below: MOST_TARGET_BELOW,
        above: MOST_TARGET_ABOVE,
    }),
};

/// A user, by its number.
const USER: Field = number!("U", 0, MOST_USER);

const PID: Field = number!("PID", 1, MOST_PID);

const TGID: Field = number!("TGID", 1, MOST_PID);

const PGID: Field = number!("PGID", 1, MOST_PID);

const CPU: Field = sibling!("CPU");

/// The first word of a step line. What it takes is told by its actor and its event, which have
/// forms of their own.
pub(crate) const STEP: &str = "step";

const TEACH: Form = form!("teach", GUARD, id!("FROM"), id!("TO"));

/// The lines of a version of scenarios.
#[derive(Clone, Copy)]
pub(crate) struct Version {
    /// The first three lines, each of which has a form of its own.
    pub head: [Form; 3],
    /// The other lines, in the order in which they may stand.
    pub body: &'static [Form],
    /// The most siblings of a core.
    pub most_siblings: u8,
}

pub(crate) const FIRST: Version = Version {
    head: head!(MOST_SIBLINGS_IN_FIRST),
    body: &[
        with_creds!("task", PID, TGID, PGID, CPU, POLICY),
        TEACH,
        form!(STEP),
        form!("end"),
    ],
    most_siblings: MOST_SIBLINGS_IN_FIRST,
};

pub(crate) const SECOND: Version = Version {
    head: head!(MOST_SIBLINGS_IN_SECOND),
    body: &[
        with_creds!("user", USER),
        form!("task", PID, TGID, PGID, CPU, POLICY, USER),
        TEACH,
        form!(STEP),
        form!("end"),
    ],
    most_siblings: MOST_SIBLINGS_IN_SECOND,
};

/// Those who make steps: what their names begin with, which number follows, and what they do.
#[derive(Clone, Copy)]
pub(crate) struct ActorForm {
    pub letter: &'static str,
    pub says: &'static str,
    pub kind: Kind,
    pub events: &'static [Form],
}

const OF_SIBLINGS: [Form; 5] = [
    form!("turn"),
    form!("resched"),
    form!("block"),
    form!("exit"),
    form!("tick"),
];

const OF_CALLERS: [Form; 9] = [
    form!("wake", NAMED_PID),
    form!("advance", number!("D", 1, MOST_ADVANCE)),
    form!("fork", NAMED_PID, CHILD),
    form!(
        "prctl",
        NAMED_PID,
        number!("CMD", 0, u32::MAX),
        TARGET,
        number!("SCOPE", 0, u32::MAX),
        number!("ADDR", 0, u64::MAX)
    ),
    form!("setsched", NAMED_PID, POLICY),
    form!("offline", sibling!("I")),
    form!("online", sibling!("I")),
    form!("load", GUARD),
    form!("unload", GUARD),
];

/// The actors.
pub(crate) const ACTORS: [ActorForm; 2] = [
    ActorForm {
        letter: "s",
        says: "a sibling",
        kind: Kind::Sibling,
        events: &OF_SIBLINGS,
    },
    ActorForm {
        letter: "c",
        says: "a caller",
        kind: Kind::Number(Range::Plain {
            low: 0,
            high: MOST_CALLER as u64,
        }),
        events: &OF_CALLERS,
    },
];
