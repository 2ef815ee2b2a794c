//! What a schedule makes of one sibling. It is a file of its own since it knows no other sibling.

ghost use Rattle.std.specs.Prelude.{◌≡◌, ℕ, if◌then◌else◌};
ghost use Rattle.cs_types.specs.Room.{RoomState};
ghost use Rattle.cs_types.specs.Selection.{pid_of, is_fair_task, choice};
ghost use Rattle.core_pick.specs.Choice.{choice_of, kept_in_selection, lane_running, IsHanded};

use crate::choice::Choice;
use core_lanes::Lane;
use cs_types::Pid;

/// It runs this from now on, nothing waits for it, and its reschedule is no longer pending
/// (`clear_tsk_need_resched`).
pub fn run<Q: Drop>(lane: &mut Lane<Q>, run: Option<Pid>)
    ensures { lane.new ≡ lane_running lane.old run }
{
    lane.run = run;
    lane.pending = false;
    lane.waiting = None;
    lane.ran = 0;
}

/// It runs its first task, which is fair if the test says so, or idle (`se_fi_update`).
pub fn run_first<Q: Drop>(lane: &mut Lane<Q>, first: Option<Pid>, is_fair: bool)
    ensures { lane.new ≡ record (lane_running lane.old first) {
      snapshot = if is_fair then lane.old.least else lane.old.snapshot;
    } }
{
    run(lane, first);
    if is_fair {
        lane.snapshot = lane.least;
    }
}

/// It gets this task, or none for idle, in a core-wide selection, if it is online. The tests say whether it makes the
/// selection itself, whether the task is fair, and whether snapshots are renewed.
#[inline(always)]
fn take<Q: Drop>(
    lane: &mut Lane<Q>,
    selects: bool,
    chosen: Option<Pid>,
    is_fair: bool,
    occupation: u8,
    renews: bool,
)
    ensures state { (room : RoomState) (cookie selector cpu : ℕ) →
        chosen ≡ pid_of (choice room cookie cpu) → is_fair ≡ is_fair_task (choice room cookie cpu) →
        IsHanded room cookie selector cpu selects occupation renews lane.old lane.new }
    ensures own { kept_in_selection lane.new ≡ kept_in_selection lane.old }
{
    let runs_it = lane.run == chosen;
    if selects {
        run(lane, chosen);
    } else if runs_it {
        lane.waiting = None;
    } else {
        lane.waiting = Some(chosen);
        lane.pending = true;
    }
    if chosen.is_none() {
        lane.idle_occupation = occupation;
    }
    if renews && is_fair {
        lane.snapshot = lane.least;
    }
}

/// It gets this in a core-wide selection, if it is online. The tests say whether it makes the selection itself, and
/// whether snapshots are renewed.
#[inline(always)]
pub fn hand<Q: Drop>(
    lane: &mut Lane<Q>,
    selects: bool,
    given: &Choice,
    occupation: u8,
    renews: bool,
)
    ensures state { (room : RoomState) (cookie selector cpu : ℕ) →
        given.now ≡ choice_of (choice room cookie cpu) →
        IsHanded room cookie selector cpu selects occupation renews lane.old lane.new }
    ensures own { kept_in_selection lane.new ≡ kept_in_selection lane.old }
{
    // Each call is for one of them alone, so that what it does for the other falls away.
    if given.is_idle() {
        take(lane, selects, None, false, occupation, renews);
    } else {
        let pid = given.pid;
        take(
            lane,
            selects,
            Some(pid),
            given.is_fair(),
            occupation,
            renews,
        );
    }
}
