//! A run with its summary.

ghost use Rattle.std.specs.Prelude.{◌≡◌, ◌+◌, ◌*◌, ◌^◌, ◌<◌, ◌≤◌, ℕ, [], true, All, IfOk, OnErr, length, sum_by, slice_index_or};
ghost use Rattle.cs_types.specs.Scenario.{IsEvent, IsPlayable};
ghost use Rattle.cs_types.specs.History.{fold_of, history_of, AreEvents};
ghost use Rattle.cs_types.specs.Drain.{IsDrained};
ghost use Rattle.cs_types.specs.Laws.{is_refused};
ghost use Rattle.run_times.specs.Sums.{did};
ghost use Rattle.pair_times.specs.Pairs.{most_rows};
ghost use Rattle.task_times.specs.declared.times.TaskTimes.{TaskTimes};
ghost use Rattle.task_times.specs.Living.{lives};
ghost use Rattle.task_times.specs.TaskSums.{all_charged, lived};
ghost use Rattle.wait_times.specs.declared.rows.TaskWaits.{TaskWaits};
ghost use Rattle.wait_times.specs.Rows.{AreWaitsSoFar};
ghost use Rattle.run_summary.specs.Replies.{count_of, all_refused};
ghost use Rattle.run_summary.specs.Summaries.{spare_rows, ArePartsOf, IsSummaryOf};

use crate::summary::RunSummary;
use cs_types::{Entry, OutOfMemory, Room, Step};
use std::alloc::Global;

/// Makes the steps, in their order, in a room that has made none, and keeps the parts of the summary.
fn play<R: Room>(room: &mut R, steps: &[Step], summary: &mut RunSummary)
    requires playable { IsPlayable (R.opening room.old).scenario }
    requires empty { R.history room.old ≡ [] }
    requires spare { length steps.now ≤ R.spare room.old }
    requires events { All (λ step.
        IsEvent (R.opening room.old).scenario.siblings step.event) steps.now }
    requires parts { ArePartsOf (R.opening room.old) (R.history room.old) summary.old }
    requires rows { sum_by (λ step.
        most_rows (R.opening room.old).scenario.siblings step.event) steps.now
        ≤ spare_rows summary.old }
    requires few { length steps.now ≤ summary.old.tasks.entries }
    requires fits { summary.old.tasks.entries < 2 ^ 26 }
    requires waits { AreWaitsSoFar (R.opening room.old) (R.history room.old) summary.old.waits }
    requires each { summary.old.waits.entries ≡ summary.old.tasks.entries }

    ensures history { R.history room.new ≡ history_of (R.opening room.old) steps.now }
    ensures spare { R.spare room.new + length steps.now ≡ R.spare room.old }
    ensures opening { R.opening room.new ≡ R.opening room.old }
    ensures events { AreEvents (R.opening room.new) (R.history room.new) }
    ensures parts { ArePartsOf (R.opening room.new) (R.history room.new) summary.new }
    ensures entries { summary.new.tasks.entries ≡ summary.old.tasks.entries }
    ensures waits { AreWaitsSoFar (R.opening room.new) (R.history room.new) summary.new.waits }
    ensures each { summary.new.waits.entries ≡ summary.old.waits.entries }
{
    for step in steps {
        summary.before(room, step.event);
        let reply = room.apply(step.actor, step.event);
        let Step { actor, event } = *step;
        summary.after(
            room,
            Entry {
                actor,
                event,
                reply,
            },
        );
    }
}

/// Makes the steps, in their order, in a room that has made none, and then the final drain. It answers what is
/// told of that run. All memory is taken before the first step, and at an `Err` none is made. There have to be fewer
/// than 2^25 steps, so that the counts and the sums fit.
pub fn summarized_run<R: Room>(
    alloc: Global,
    room: &mut R,
    steps: &[Step],
) -> Result<RunSummary, OutOfMemory>
    requires empty { R.history room.old ≡ [] }
    requires spare { length steps.now + (R.opening room.old).scenario.siblings
        * (R.opening room.old).scenario.siblings
        ≤ R.spare room.old }
    requires few { length steps.now < 2 ^ 25 }
    requires events { All (λ step.
        IsEvent (R.opening room.old).scenario.siblings step.event) steps.now }

    ensures history { IfOk result (λ _.
        IsDrained (R.opening room.old) (history_of (R.opening room.old) steps.now)
        (R.history room.new)) }
    ensures opening { R.opening room.new ≡ R.opening room.old }
    ensures unmade { OnErr result (room.new ≡ room.old) }
    ensures summary { IfOk result
        (λ summary. IsSummaryOf (R.opening room.new) (R.history room.new) summary) }

    // What a sibling ran, idled, was forced idle and was offline adds up to all time.
    ensures adds_up { IfOk result
        (λ summary. All (λ sibling. did sibling ≡ summary.times.total) summary.times.siblings) }

    // All time is what the clock shows at the end. What a task of the scenario that lives then ran, waited and slept
    // adds up to it.
    ensures clock { IfOk result
        (λ summary. summary.times.total
        ≡ (fold_of (R.opening room.new) (R.history room.new)).clock) }
    ensures lived { let state = fold_of (R.opening room.new) (R.history room.new) in
        IfOk result (λ summary. All (λ spec. lives spec.pid state ≡ true → (none : TaskTimes) →
        lived (slice_index_or summary.tasks.tasks spec.pid none) ≡ state.clock)
        (R.opening room.new).scenario.tasks) }

    // The waits of a task from a wake to its run are part of the time that it waited.
    ensures waited { IfOk result
        (λ summary. (pid : ℕ) (waits : TaskWaits) (times : TaskTimes) →
        pid < length summary.waits.rows →
        (slice_index_or summary.waits.rows pid waits).sum
        ≤ (slice_index_or summary.tasks.tasks pid times).by_doing.waited) }

    // What all cookies are charged adds up to what all tasks are. So no charge is lost, and none is counted twice.
    ensures charged { IfOk result (λ summary.
        sum_by (λ times. times.charged) summary.tasks.cookies ≡ all_charged summary.tasks.tasks) }

    // Tasks with distinct cookies ran side by side for no longer than some sibling was pending, and never if none
    // was at any advance.
    ensures exposed { IfOk result (λ summary. summary.times.exposed.all ≤ summary.times.pending) }

    // Those of one pair of cookies did for no longer than tasks with distinct cookies did at all, and those of one pair
    // of thread groups likewise.
    ensures cookie_pairs { IfOk result (λ summary.
        All (λ row. row.time ≤ summary.times.exposed.all) summary.cookie_pairs.rows) }
    ensures group_pairs { IfOk result (λ summary.
        All (λ row. row.time ≤ summary.times.mixed.all) summary.group_pairs.rows) }

    // The counts of the replies add up to the number of the entries that are refused.
    ensures refused { IfOk result
        (λ summary. all_refused summary.replies ≡ count_of is_refused (R.history room.new)) }
{
    let mut summary = RunSummary::open(alloc, room.siblings(), steps)?;
    play(room, steps, &mut summary);
    room.drain();
    summary.end(room);
    Ok(summary)
}
