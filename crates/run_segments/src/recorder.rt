//! Keeps what a run shows while it is played.

ghost use Rattle.std.specs.Prelude.{◌≡◌, ◌+◌, ◌<◌, ◌∷◌, ◌++◌, [], ℕ, List, length, IfOk, OnOk};
ghost use Rattle.cs_types.specs.declared.reply.Entry.{Entry};
ghost use Rattle.cs_types.specs.Scenario.{IsEvent, IsPlayable};
ghost use Rattle.cs_types.specs.Room.{Opening, RoomState};
ghost use Rattle.cs_types.specs.declared.event.Event.TheVariants.{Advance};
ghost use Rattle.cs_types.specs.History.{fold_of, AreEvents};
ghost use Rattle.run_times.specs.Times.{Span, total_time};
ghost use Rattle.run_segments.specs.Segments.{segments_of, IsGapless, segments_on};
ghost use Rattle.run_segments.specs.Kept.{AreMarksOf, AreKept, HasSegmentsOf, IsRecordOf};

use crate::kept::KeptSegments;
use crate::now::now_of;
use crate::queued::Queued;
use crate::segments::{RunSegments, Segment, Window};
use crate::waiting::KeptWaiting;
use cs_types::{Event, OutOfMemory, Room};
use run_times::{By, advance_of, some_apart};
use std::alloc::Global;

/// What a run showed so far.
#[derive(Drop)]
pub(crate) struct Recorder {
    segments: KeptSegments,
    queued: Queued,
    waiting: KeptWaiting,
    exposed: Vec<Window>,
    mixed: Vec<Window>,
    moments: Vec<u64>,
}

/// Takes in whether two siblings run tasks that are told apart from one moment to another.
fn keep_window(
    windows: &mut Vec<Window>,
    apart: bool,
    from: u64,
    to: u64,
) -> Result<(), OutOfMemory> {
    if !apart {
        return Ok(());
    }
    if let Some(window) = windows.last_mut()
        && window.to == from
    {
        window.to = to;
        return Ok(());
    }
    windows.push(Window { from, to })?;
    Ok(())
}

/// Takes in that an event that takes no time is made at this moment.
fn keep_moment(moments: &mut Vec<u64>, clock: u64) -> Result<(), OutOfMemory> {
    if moments.last().copied() != Some(clock) {
        moments.push(clock)?;
    }
    Ok(())
}

impl Recorder {
    /// What a run of a core with this number of siblings showed before its first step.
    pub(crate) fn none(alloc: Global, siblings: u8) -> Result<Self, OutOfMemory>
        ensures { IfOk result
            (λ recorder. (opening : Opening) → opening.scenario.siblings ≡ siblings →
            IsRecordOf opening [] recorder.segments recorder.queued) }
    {
        Ok(Recorder {
            segments: KeptSegments::none(alloc, siblings)?,
            queued: Queued::none(alloc, siblings)?,
            waiting: KeptWaiting::none(alloc, siblings)?,
            exposed: Vec::new(alloc),
            mixed: Vec::new(alloc),
            moments: Vec::new(alloc),
        })
    }

    /// Takes in what each sibling does from one moment to another.
    fn keep_each<R: Room>(&mut self, room: &R, from: u64, to: u64) -> Result<(), OutOfMemory>
        requires playable { IsPlayable (R.opening room.now).scenario }
        requires events { AreEvents (R.opening room.now) (R.history room.now) }
        requires each { length self.old.segments.places ≡ (R.opening room.now).scenario.siblings }
        requires marks { let opening = R.opening room.now in
            AreMarksOf opening.scenario.siblings
            (fold_of opening (R.history room.now)) self.old.queued }
        ensures each { OnOk result (length self.new.segments.places
            ≡ (R.opening room.now).scenario.siblings) }
        ensures marks { let opening = R.opening room.now in
            OnOk result (AreMarksOf opening.scenario.siblings
            (fold_of opening (R.history room.now)) self.new.queued) }
        ensures kept { let opening = R.opening room.now in
            OnOk result ((spans : List Span) (span : Span) →
            span.room ≡ fold_of opening (R.history room.now) →
            span.room.clock ≡ from → from + span.time ≡ to → 0 < span.time →
            total_time spans ≡ from →
            AreKept opening.scenario.siblings spans self.old.segments →
            AreKept opening.scenario.siblings (spans ++ span ∷ []) self.new.segments) }
    {
        for cpu in 0..room.siblings() {
            let now = now_of(room, cpu, &mut self.queued);
            self.segments.keep(Segment {
                from,
                to,
                cpu,
                pid: now.pid,
                group: now.group,
                doing: now.doing,
                pending: now.pending,
            })?;
        }
        Ok(())
    }

    /// Takes in an advance by this time, in ns, that is to be made next in the room.
    fn advance<R: Room>(&mut self, room: &R, time: u64) -> Result<(), OutOfMemory>
        requires playable { IsPlayable (R.opening room.now).scenario }
        requires events { AreEvents (R.opening room.now) (R.history room.now) }
        requires record { IsRecordOf (R.opening room.now)
            (R.history room.now) self.old.segments self.old.queued }
        requires time { 0 < time }
        ensures { OnOk result ((entry : Entry) → entry.event ≡ Advance time →
            IsRecordOf (R.opening room.now)
            (R.history room.now ++ entry ∷ []) self.new.segments self.new.queued) }
    {
        let from = room.clock();
        let to = from.saturating_add(time);
        self.keep_each(room, from, to)?;
        self.waiting.keep_each(room, from, to)?;
        keep_window(&mut self.exposed, some_apart(room, By::Cookie), from, to)?;
        keep_window(&mut self.mixed, some_apart(room, By::Group), from, to)?;
        Ok(())
    }

    /// Takes in an event that takes no time and is to be made next in the room, or the final drain.
    pub(crate) fn moment<R: Room>(&mut self, room: &R) -> Result<(), OutOfMemory>
        ensures segments { self.new.segments ≡ self.old.segments }
        ensures marks { OnOk result ((siblings : ℕ) (before now : RoomState) →
            AreMarksOf siblings before self.old.queued → AreMarksOf siblings now self.new.queued) }
    {
        keep_moment(&mut self.moments, room.clock())?;
        self.queued.forget();
        self.waiting.forget();
        Ok(())
    }

    /// Takes in an event that is to be made next in the room.
    pub(crate) fn before<R: Room>(&mut self, room: &R, event: Event) -> Result<(), OutOfMemory>
        requires playable { IsPlayable (R.opening room.now).scenario }
        requires events { AreEvents (R.opening room.now) (R.history room.now) }
        requires event { IsEvent (R.opening room.now).scenario.siblings event }
        requires record { IsRecordOf (R.opening room.now)
            (R.history room.now) self.old.segments self.old.queued }
        ensures { OnOk result ((entry : Entry) → entry.event ≡ event →
            IsRecordOf (R.opening room.now)
            (R.history room.now ++ entry ∷ []) self.new.segments self.new.queued) }
    {
        match advance_of(event) {
            Some(time) => self.advance(room, time),
            None => self.moment(room),
        }
    }

    /// What the run showed, in a room where it is over.
    pub(crate) fn close<R: Room>(self, room: &R) -> RunSegments
        requires { HasSegmentsOf (R.opening room.now) (R.history room.now) self.segments }
        ensures segments { result ≡ segments_of (R.opening room.now) (R.history room.now) }
        ensures gapless { (cpu : ℕ) → cpu < (R.opening room.now).scenario.siblings →
            IsGapless 0 (segments_on cpu result)
            (fold_of (R.opening room.now) (R.history room.now)).clock }
    {
        let Recorder {
            segments,
            waiting,
            exposed,
            mixed,
            moments,
            ..
        } = self;
        RunSegments {
            siblings: room.siblings(),
            total: room.clock(),
            segments: segments.all(),
            exposed,
            mixed,
            waiting: waiting.all(),
            moments,
        }
    }
}
