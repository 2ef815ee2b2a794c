//! What a sibling does now.

ghost use Rattle.std.specs.Prelude.{◌≡◌, ◌<◌};
ghost use Rattle.cs_types.specs.Scenario.{IsPlayable};
ghost use Rattle.cs_types.specs.History.{fold_of, AreEvents};
ghost use Rattle.run_times.specs.Doing as doing;
ghost use Rattle.run_segments.specs.Segments as segments;
ghost use Rattle.run_segments.specs.Kept.{AreMarksOf};

use crate::queued::Queued;
use cs_types::{Cpu, Pid, Room};
use run_times::{By, Doing, cookie_run, key_run};

/// What a sibling does at a moment.
#[derive(Clone, Copy)]
pub(crate) struct Now {
    pub(crate) pid: Pid,
    pub(crate) group: u64,
    pub(crate) doing: Doing,
    pub(crate) pending: bool,
}

/// What an online sibling that runs idle does.
fn idling<R: Room>(room: &R, cpu: Cpu, queued: &mut Queued) -> Doing
    requires playable { IsPlayable (R.opening room.now).scenario }
    requires cpu { cpu < (R.opening room.now).scenario.siblings }
    requires marks { let opening = R.opening room.now in
        AreMarksOf opening.scenario.siblings (fold_of opening (R.history room.now)) queued.old }
    ensures doing { result ≡ doing.idling (fold_of (R.opening room.now) (R.history room.now)) cpu }
    ensures marks { let opening = R.opening room.now in
        AreMarksOf opening.scenario.siblings (fold_of opening (R.history room.now)) queued.new }
{
    if queued.on(room, cpu) {
        Doing::ForcedIdle(room.core().cookie)
    } else {
        Doing::Idles
    }
}

/// What a sibling does now.
pub(crate) fn now_of<R: Room>(room: &R, cpu: Cpu, queued: &mut Queued) -> Now
    requires playable { IsPlayable (R.opening room.now).scenario }
    requires events { AreEvents (R.opening room.now) (R.history room.now) }
    requires cpu { cpu < (R.opening room.now).scenario.siblings }
    requires marks { let opening = R.opening room.now in
        AreMarksOf opening.scenario.siblings (fold_of opening (R.history room.now)) queued.old }
    ensures pid { result.pid
        ≡ segments.pid_run (fold_of (R.opening room.now) (R.history room.now)) cpu }
    ensures group { result.group
        ≡ segments.group_run (fold_of (R.opening room.now) (R.history room.now)) cpu }
    ensures doing { result.doing
        ≡ doing.doing_of (fold_of (R.opening room.now) (R.history room.now)) cpu }
    ensures pending { result.pending
        ≡ doing.is_pending (fold_of (R.opening room.now) (R.history room.now)) cpu }
    ensures marks { let opening = R.opening room.now in
        AreMarksOf opening.scenario.siblings (fold_of opening (R.history room.now)) queued.new }
{
    let group = key_run(room, By::Group, cpu).unwrap_or(0);
    match room.cpu(cpu) {
        Some(view) if view.online => match cookie_run(room, cpu) {
            Some(cookie) => Now {
                pid: view.run,
                group,
                doing: Doing::Runs(cookie),
                pending: view.pending,
            },
            None => Now {
                pid: 0,
                group,
                doing: idling(room, cpu, queued),
                pending: view.pending,
            },
        },
        Some(_) | None => Now {
            pid: 0,
            group,
            doing: Doing::Offline,
            pending: false,
        },
    }
}
