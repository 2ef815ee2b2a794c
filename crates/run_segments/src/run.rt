//! A run with what it shows over time.

ghost use Rattle.std.specs.Prelude.{◌≡◌, ◌+◌, ◌*◌, ◌<◌, ◌≤◌, ℕ, [], All, IfOk, OnOk, length};
ghost use Rattle.cs_types.specs.Scenario.{IsEvent, IsPlayable};
ghost use Rattle.cs_types.specs.History.{fold_of, history_of};
ghost use Rattle.cs_types.specs.Drain.{IsDrained};
ghost use Rattle.run_segments.specs.Segments.{segments_of, IsGapless, segments_on};
ghost use Rattle.run_segments.specs.Kept.{IsRecordOf};

use crate::recorder::Recorder;
use crate::segments::RunSegments;
use cs_types::{OutOfMemory, Room, Step};
use std::alloc::Global;

/// Makes the steps, in their order, in a room that has made none, and keeps what they show.
fn play<R: Room>(room: &mut R, steps: &[Step], recorder: &mut Recorder) -> Result<(), OutOfMemory>
    requires playable { IsPlayable (R.opening room.old).scenario }
    requires empty { R.history room.old ≡ [] }
    requires spare { length steps.now ≤ R.spare room.old }
    requires events { All (λ step.
        IsEvent (R.opening room.old).scenario.siblings step.event) steps.now }
    requires record { IsRecordOf (R.opening room.old)
        (R.history room.old) recorder.old.segments recorder.old.queued }

    ensures history { OnOk result (R.history room.new ≡ history_of (R.opening room.old) steps.now) }
    ensures spare { OnOk result (R.spare room.new + length steps.now ≡ R.spare room.old) }
    ensures opening { R.opening room.new ≡ R.opening room.old }
    ensures record { OnOk result
        (IsRecordOf (R.opening room.new)
        (R.history room.new) recorder.new.segments recorder.new.queued) }
{
    for step in steps {
        recorder.before(room, step.event)?;
        room.apply(step.actor, step.event);
    }
    Ok(())
}

/// Makes the steps, in their order, and then the final drain, in a room that has made no step yet. It answers what the
/// run shows over time. What holds right before an advance holds in all of it, and what takes no time is no segment. If
/// there is no memory to keep what it shows, the run is broken off.
pub fn recorded_run<R: Room>(
    alloc: Global,
    room: &mut R,
    steps: &[Step],
) -> Result<RunSegments, OutOfMemory>
    requires empty { R.history room.old ≡ [] }
    requires spare { length steps.now + (R.opening room.old).scenario.siblings
        * (R.opening room.old).scenario.siblings
        ≤ R.spare room.old }
    requires events { All (λ step.
        IsEvent (R.opening room.old).scenario.siblings step.event) steps.now }

    ensures history { IfOk result (λ _.
        IsDrained (R.opening room.old) (history_of (R.opening room.old) steps.now)
        (R.history room.new)) }
    ensures opening { R.opening room.new ≡ R.opening room.old }
    ensures segments { IfOk result
        (λ run. run ≡ segments_of (R.opening room.new) (R.history room.new)) }

    // Those of a sibling follow one another without a gap, from 0 to what the clock shows at the end.
    ensures gapless { IfOk result (λ run. (cpu : ℕ) → cpu < (R.opening room.new).scenario.siblings →
        IsGapless 0 (segments_on cpu run)
        (fold_of (R.opening room.new) (R.history room.new)).clock) }
{
    let mut recorder = Recorder::none(alloc, room.siblings())?;
    play(room, steps, &mut recorder)?;
    if room.drain() > 0 {
        recorder.moment(room)?;
    }
    Ok(recorder.close(room))
}
