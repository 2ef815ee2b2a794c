//! What a run shows over time, once it is played.

ghost use Rattle.std.specs.Prelude.{◌≡◌};

use cs_types::{Cpu, Pid};
use run_times::Doing;
use std::marker::Model;

/// A segment: what one sibling did without a break, from one clock to another. What takes no time is no break.
#[derive(Clone, Copy)]
pub struct Segment {
    /// The clock when it begins, in ns.
    pub from: u64,
    /// The clock when it ends, in ns, later than it begins.
    pub to: u64,
    /// The sibling.
    pub cpu: Cpu,
    /// The task that it runs, 0 if it runs none.
    pub pid: Pid,
    /// The thread group of that task, by the pid of its leader, 0 if it runs none.
    pub group: u64,
    /// What it does.
    pub doing: Doing,
    /// Whether it is online and has a pending reschedule.
    pub pending: bool,
}

/// A time, from one clock to another, in which two online siblings run tasks that are told apart: with distinct
/// cookies, or of distinct thread groups.
#[derive(Clone, Copy)]
pub struct Window {
    /// The clock when it begins, in ns.
    pub from: u64,
    /// The clock when it ends, in ns, later than it begins.
    pub to: u64,
}

/// How many tasks wait on one sibling without a change, from one clock to another.
#[derive(Clone, Copy)]
pub struct Waiting {
    /// The clock when it begins, in ns.
    pub from: u64,
    /// The clock when it ends, in ns, later than it begins.
    pub to: u64,
    /// The sibling.
    pub cpu: Cpu,
    /// How many tasks are queued on it that it does not run.
    pub count: u32,
}

/// What a run shows over time.
#[derive(Drop)]
pub struct RunSegments {
    pub(crate) siblings: u8,
    pub(crate) total: u64,
    pub(crate) segments: Vec<Segment>,
    pub(crate) exposed: Vec<Window>,
    pub(crate) mixed: Vec<Window>,
    pub(crate) waiting: Vec<Waiting>,
    pub(crate) moments: Vec<u64>,
}

// It stands for what each sibling did over time.
impl Model for RunSegments {
    ghost use Rattle.std.specs.Prelude.{List};
    ghost use Rattle.run_segments.specs.declared.segments.Segment.{Segment};

    ghost Value = { List Segment };

    ghost view = { λ run. run.segments.items };
}

impl RunSegments {
    /// The siblings of the core, a count.
    pub fn siblings(&self) -> u8 {
        self.siblings
    }

    /// The clock at the end, in ns.
    pub fn total(&self) -> u64 {
        self.total
    }

    /// The segments by the time they begin, and those that begin at the same time by rising sibling. Those of a
    /// sibling follow one another without a gap, from 0 to the end.
    pub fn segments(&self) -> &[Segment]
        ensures { result.now ≡ self.now }
    {
        self.segments.as_slice()
    }

    /// When two online siblings ran tasks with distinct cookies, by rising time. No two of them touch.
    pub fn exposed(&self) -> &[Window] {
        self.exposed.as_slice()
    }

    /// When two online siblings ran tasks of distinct thread groups, by rising time. No two of them touch.
    pub fn mixed(&self) -> &[Window] {
        self.mixed.as_slice()
    }

    /// How many tasks waited on each sibling, by the time from which they did, and for one time by rising sibling.
    /// Nothing is listed for a time in which none wait.
    pub fn waiting(&self) -> &[Waiting] {
        self.waiting.as_slice()
    }

    /// The clock at the entries at which no time passes, in ns: at all events but an advance. The moments rise, and
    /// each is there once.
    pub fn moments(&self) -> &[u64] {
        self.moments.as_slice()
    }
}
