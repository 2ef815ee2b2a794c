//! The times of a run, as it goes on.

ghost use Rattle.std.specs.Prelude.{◌≡◌, ◌+◌, ◌^◌, ◌<◌, ◌≤◌, ℕ, [], ◌∷◌, ◌++◌, length, All, IfOk, slice_index_or, if◌then◌else◌};
ghost use Rattle.cs_types.specs.declared.reply.Entry.{Entry};
ghost use Rattle.cs_types.specs.Scenario.{IsEvent, IsPlayable};
ghost use Rattle.cs_types.specs.History.{fold_of, AreEvents};
ghost use Rattle.run_times.specs.Doing as now;
ghost use Rattle.run_times.specs.Times as span;
ghost use Rattle.run_times.specs.Sums.{did, with_span, times_in, times_of};

use crate::by::By;
use crate::looks::{doing_of, is_pending, some_apart, some_pending};
use crate::siblings::SiblingTimes;
use crate::side_by_side::{SideBySide, add_if};
use cs_types::{Event, Room};
use std::alloc::{AllocError, Global};
use std::marker::Model;

/// What held in a run, and for how long, in ns. After it is opened it takes no memory.
#[derive(Drop)]
pub struct RunTimes {
    siblings: Vec<SiblingTimes>,
    exposed: SideBySide,
    mixed: SideBySide,
    pending: u64,
    total: u64,
}

impl Model for RunTimes {
    ghost use Rattle.run_times.specs.Sums.{Times};

    ghost Value = { Times };

    ghost view = { λ times. record {
      siblings = times.siblings.items;
      exposed = times.exposed;
      mixed = times.mixed;
      pending = times.pending;
      total = times.total;
    } };
}

/// Adds the time of an advance to each sibling, by what it does in the room before it.
fn add_to_each<R: Room>(siblings: &mut [SiblingTimes], room: &R, time: u64)
    requires playable { IsPlayable (R.opening room.now).scenario }
    requires events { AreEvents (R.opening room.now) (R.history room.now) }
    requires each { length siblings.old ≡ (R.opening room.now).scenario.siblings }
    requires did { All (λ times. did times + time ≤ u64.MAX) siblings.old }
    requires pending { All (λ times. times.pending + time ≤ u64.MAX) siblings.old }
    ensures { let room = fold_of (R.opening room.now) (R.history room.now) in
        (cpu : ℕ) (none : SiblingTimes) → cpu < length siblings.old →
        slice_index_or siblings.new cpu none
        ≡ with_span (now.doing_of room cpu) (now.is_pending room cpu) time
        (slice_index_or siblings.old cpu none) }
{
    for cpu in 0..room.siblings() {
        let doing = doing_of(room, cpu);
        let is_pending = is_pending(room, cpu);
        siblings[usize::from(cpu)].add(doing, is_pending, time);
    }
}

/// How far an event moves the clock, in ns. `None` if it is no advance.
pub fn advance_of(event: Event) -> Option<u64>
    ensures { result ≡ span.advance_of event }
{
    match event {
        Event::Advance(time) => Some(time),
        Event::Turn(_)
        | Event::Resched(_)
        | Event::Block(_)
        | Event::Exit(_)
        | Event::Tick(_)
        | Event::Wake(_)
        | Event::Fork { .. }
        | Event::Prctl { .. }
        | Event::SetSched { .. }
        | Event::Offline(_)
        | Event::Online(_)
        | Event::Load(_)
        | Event::Unload(_) => None,
    }
}

impl RunTimes {
    /// The times of a core with this number of siblings, before the first advance.
    pub fn open(alloc: Global, siblings: u8) -> Result<Self, AllocError>
        ensures { IfOk result (λ times. times ≡ times_in siblings []) }
    {
        Ok(RunTimes {
            siblings: vec![in alloc; SiblingTimes::none(); usize::from(siblings)]?,
            exposed: SideBySide::none(),
            mixed: SideBySide::none(),
            pending: 0,
            total: 0,
        })
    }

    /// Adds the time of an advance, by what holds in the room before it.
    fn advance<R: Room>(&mut self, room: &R, time: u64)
        requires playable { IsPlayable (R.opening room.now).scenario }
        requires events { AreEvents (R.opening room.now) (R.history room.now) }
        requires times { self.old ≡ times_of (R.opening room.now) (R.history room.now) }
        requires fits { self.old.total + time ≤ u64.MAX }
        ensures { (entry : Entry) → span.advance_of entry.event ≡ Some time →
            self.new ≡ times_of (R.opening room.now) (R.history room.now ++ entry ∷ []) }
    {
        add_to_each(self.siblings.as_mut_slice(), room, time);
        self.exposed.add(some_apart(room, By::Cookie), time);
        self.mixed.add(some_apart(room, By::Group), time);
        add_if(&mut self.pending, some_pending(room), time);
        self.total += time;
    }

    /// Takes in an event that is to be made next in the room, whoever makes it. The room has to be the one whose
    /// times these are, and its history has to be shorter than 2^34 entries, so that the sums fit.
    pub fn before<R: Room>(&mut self, room: &R, event: Event)
        requires playable { IsPlayable (R.opening room.now).scenario }
        requires events { AreEvents (R.opening room.now) (R.history room.now) }
        requires event { IsEvent (R.opening room.now).scenario.siblings event }
        requires times { self.old ≡ times_of (R.opening room.now) (R.history room.now) }
        requires few { length (R.history room.now) < 2 ^ 34 }
        ensures { (entry : Entry) → entry.event ≡ event →
            self.new ≡ times_of (R.opening room.now) (R.history room.now ++ entry ∷ []) }
    {
        if let Some(time) = advance_of(event) {
            self.advance(room, time);
        }
    }

    /// The times of each sibling, by rising number.
    pub fn siblings(&self) -> &[SiblingTimes]
        ensures { result.now ≡ self.now.siblings }
    {
        self.siblings.as_slice()
    }

    /// For how long siblings that are online ran tasks with distinct cookies.
    pub fn exposed(&self) -> SideBySide
        ensures { result ≡ self.now.exposed }
    {
        self.exposed
    }

    /// For how long siblings that are online ran tasks of distinct thread groups, whatever their cookies.
    pub fn mixed(&self) -> SideBySide
        ensures { result ≡ self.now.mixed }
    {
        self.mixed
    }

    /// For how long some sibling was online and had a pending reschedule, in ns.
    pub fn pending(&self) -> u64
        ensures { result ≡ self.now.pending }
    {
        self.pending
    }

    /// How long all advances took, in ns.
    pub fn total(&self) -> u64
        ensures { result ≡ self.now.total }
    {
        self.total
    }
}
