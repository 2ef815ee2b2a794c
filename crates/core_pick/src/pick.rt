//! A schedule, in its three cases (`pick_next_task`, kernel/sched/core.c).

ghost use Rattle.std.specs.Prelude.{◌≡◌, ℕ, ◌+◌, ◌*◌, ◌^◌, ◌<◌, ◌≤◌, length, ◌==◌, ◌&&◌, ◌||◌, not, is_some, IfSome, IfNone};
ghost use Rattle.cs_types.specs.Room.{sibling_of, is_online};
ghost use Rattle.cs_types.specs.Selection.{is_plain, adopt, pick_plain, select, pick_anew, adopt_or_pick_anew, balance, schedule};
ghost use Rattle.task_table.specs.Table.{Table};
ghost use Rattle.core_lanes.specs.Lanes.{Beside, room_of};
ghost use Rattle.core_lanes.specs.Numbers.{numbers_of};
ghost use Rattle.core_pick.specs.Comparisons.{most_of_schedule, Compares, ComparesForSchedule};
ghost use Rattle.core_pick.specs.Questions.{KeepsFirst};
ghost use Rattle.core_pick.specs.Schedules.{may_adopt_by, adoptable_by, MayPick, MaySchedule, MaySelect, Selects, Schedules, SchedulesWithin, ChargesAndSchedules};

use crate::balance::balance;
use crate::choice::{Choice, Counts, update};
use crate::lead::First;
use crate::selection::{ask, choose, first_at};
use crate::sibling::{run, run_first};
use core_lanes::{Core, SiblingQueue, charge};
use cs_types::{Cookie, Cpu, Kind, MOST_SIBLINGS, Pick, Pid, Steps};
use std::sync::ledger::Ledger;
use task_table::TaskTable;

// ---- the fast path

/// Whether these numbers let a sibling adopt what waits for it: nothing was touched since the last selection for the
/// core, and the sibling took no pick of that.
fn may_adopt(task_number: u64, pick_number: u64, own_number: u64) -> bool
    ensures { result ≡ ((pick_number == task_number) && not (own_number == pick_number)) }
{
    pick_number == task_number && own_number != pick_number
}

/// What waits for the sibling, if its own number and those of the core let it adopt that.
fn adoptable<Q: SiblingQueue>(core: &Core<Q>, cpu: Cpu) -> Option<Option<Pid>>
    requires { cpu < length core.now.lanes.items }
    ensures { (beside : Beside) (table : Table) → result
        ≡ adoptable_by cpu (numbers_of (core.now, table)) (room_of beside (core.now, table)) }
{
    let lane = &core.lanes[cpu as usize];
    if may_adopt(core.task_number, core.pick_number, lane.number) {
        lane.waiting
    } else {
        None
    }
}

/// The sibling runs what waits for it.
fn adopt<Q: SiblingQueue>(core: &mut Core<Q>, cpu: Cpu, waiting: Option<Pid>) -> Pick
    requires { cpu < length core.old.lanes.items }
    ensures { (now : ℕ) (table : Table) → Schedules now
        (core.old, table) (core.new, table) cpu result (λ room. adopt room cpu waiting) }
{
    let lane = &mut core.lanes[cpu as usize];
    run(lane, waiting);
    lane.number = core.pick_number;
    Pick {
        kind: Kind::Adopted,
        run: waiting.unwrap_or(0),
        core: core.cookie,
        forced: core.account.count(),
    }
}

// ---- the plain pick

/// Whether neither the core nor a sibling's first task has a cookie, and none is forced idle.
fn is_cookieless(core: Cookie, forced: u8, first: Cookie) -> bool
    ensures { result ≡ ((core == 0) && (forced == 0) && (first == 0)) }
{
    core == 0 && forced == 0 && first == 0
}

/// Whether no cookie takes part in a schedule of the sibling with this first task.
fn is_plain<Q: SiblingQueue>(core: &Core<Q>, first: &First) -> bool
    ensures { (beside : Beside) (table : Table) (cpu : ℕ) →
        KeepsFirst cpu (core.now, table) first.now →
        result ≡ is_plain (room_of beside (core.now, table)) cpu }
{
    is_cookieless(core.cookie, core.account.count(), first.choice.cookie)
}

/// The sibling runs this, the first of its own queue.
fn pick_plain<Q: SiblingQueue>(core: &mut Core<Q>, cpu: Cpu, first: &First) -> Pick
    requires cpu { cpu < length core.old.lanes.items }
    requires touches { core.old.task_number + 1 < 2 ^ 64 }
    ensures { (now : ℕ) (table : Table) → KeepsFirst cpu (core.old, table) first.now →
        Schedules now (core.old, table) (core.new, table) cpu result (λ room. pick_plain room cpu) }
{
    core.account.close();
    let choice = &first.choice;
    run_first(
        &mut core.lanes[cpu as usize],
        choice.run(),
        choice.is_fair(),
    );
    core.touch();
    Pick {
        kind: Kind::Plain,
        run: choice.pid,
        core: 0,
        forced: 0,
    }
}

// ---- the selection

/// Whether a selection renews snapshots. It does not if some sibling was forced idle before it and some
/// is after it.
fn renews_snapshots(before: u8, after: u8) -> bool
    ensures { result ≡ ((before == 0) || (after == 0)) }
{
    before == 0 || after == 0
}

/// Gives each online sibling its choice for this core cookie, in a selection that the one sibling
/// makes. These are their first tasks. It answers what that one runs.
fn select_for<Q: SiblingQueue, L: Ledger>(
    core: &mut Core<Q>,
    table: &mut TaskTable,
    cpu: Cpu,
    choices: &mut [Choice],
    cookie: Cookie,
    now: u64,
    comparisons: &mut Steps<L>,
) -> Option<Pid>
    requires may { MaySelect now cpu cookie choices.old (core.old, table.old) }
    ensures selects { Selects now (core.old, table.old) (core.new, table.new) cpu cookie result }
    ensures counted { Compares (core.old, table.old)
        (λ most. comparisons.new ≤ comparisons.old + length core.old.lanes.items * most) }
{
    let Counts { forced, occupation } = choose(choices, core, table, cookie, comparisons);
    let renews = renews_snapshots(core.account.count(), forced);
    core.cookie = cookie;
    core.account.begin(forced, occupation, now);
    update(&mut core.lanes, table, cpu, choices, occupation, renews);
    choices[cpu as usize].run()
}

/// The sibling, whose first task this is, makes a core-wide selection, under the cookie of its lead.
fn select<Q: SiblingQueue, L: Ledger>(
    core: &mut Core<Q>,
    table: &mut TaskTable,
    cpu: Cpu,
    first: &First,
    now: u64,
    comparisons: &mut Steps<L>,
) -> Pick
    requires may { MayPick now cpu (core.old, table.old) }
    requires first { KeepsFirst cpu (core.old, table.old) first.now }
    ensures schedules { Schedules now (core.old, table.old) (core.new, table.new) cpu result
        (λ room. select room cpu) }

    // The first was asked before.
    ensures counted { Compares (core.old, table.old) (λ most. comparisons.new + most
        ≤ comparisons.old + most_of_schedule (length core.old.lanes.items) most) }
{
    let mut choices = [Choice::default(); MOST_SIBLINGS];
    let choices = &mut choices[..core.lanes.len()];
    let cookie = ask(choices, core, table, cpu, first, comparisons);
    let run = select_for(core, table, cpu, choices, cookie, now, comparisons);
    core.touch();
    core.pick_number = core.task_number;
    core.lanes[cpu as usize].number = core.pick_number;
    Pick {
        kind: Kind::Selected,
        run: run.unwrap_or(0),
        core: cookie,
        forced: core.account.count(),
    }
}

// ---- every case

/// The sibling runs its first, or makes a core-wide selection.
fn pick_anew<Q: SiblingQueue, L: Ledger>(
    core: &mut Core<Q>,
    table: &mut TaskTable,
    cpu: Cpu,
    now: u64,
    comparisons: &mut Steps<L>,
) -> Pick
    requires { MayPick now cpu (core.old, table.old) }
    ensures { SchedulesWithin now (core.old, table.old) (core.new, table.new) cpu result
        comparisons.old comparisons.new (λ room. pick_anew room cpu) }
{
    let first = first_at(core, table, cpu, comparisons);
    if is_plain(core, &first) {
        pick_plain(core, cpu, &first)
    } else {
        select(core, table, cpu, &first, now, comparisons)
    }
}

/// The sibling picks anew, at `now`, in ns from the start.
pub fn pick_and_balance<Q: SiblingQueue, L: Ledger>(
    core: &mut Core<Q>,
    table: &mut TaskTable,
    cpu: Cpu,
    now: u64,
    comparisons: &mut Steps<L>,
) -> Pick
    requires { MayPick now cpu (core.old, table.old) }
    ensures { SchedulesWithin now (core.old, table.old) (core.new, table.new) cpu result
        comparisons.old comparisons.new
        (λ room. balance cpu (pick_anew room cpu)) }
{
    let pick = pick_anew(core, table, cpu, now, comparisons);
    balance(core, table, cpu);
    pick
}

/// The sibling runs what waits for it if that may be adopted. Else the open interval is charged, and the sibling picks
/// anew.
fn adopt_or_pick_anew<Q: SiblingQueue, L: Ledger>(
    core: &mut Core<Q>,
    table: &mut TaskTable,
    cpu: Cpu,
    now: u64,
    comparisons: &mut Steps<L>,
) -> Pick
    requires { MaySchedule now cpu (core.old, table.old) }
    ensures schedules { ChargesAndSchedules now
        (core.old, table.old) (core.new, table.new) cpu result
        (λ room. adopt_or_pick_anew room (may_adopt_by cpu (numbers_of (core.old, table.old))) cpu
        (sibling_of room cpu).waiting) }
    ensures counted { ComparesForSchedule (core.old, table.old) comparisons.old comparisons.new }
{
    if let Some(waiting) = adoptable(core, cpu) {
        return adopt(core, cpu, waiting);
    }
    charge(core, table, now);
    pick_anew(core, table, cpu, now, comparisons)
}

/// The sibling schedules at `now`, in ns from the start (`pick_next_task`). `None` exactly if it is offline, and then
/// nothing changes. Each sibling is asked at most twice: for its first, and for its first with the core cookie.
#[inline(always)]
pub fn schedule<Q: SiblingQueue, L: Ledger>(
    core: &mut Core<Q>,
    table: &mut TaskTable,
    cpu: Cpu,
    now: u64,
    comparisons: &mut Steps<L>,
) -> Option<Pick>
    requires { MaySchedule now cpu (core.old, table.old) }
    ensures online { (beside : Beside) →
        is_some result ≡ is_online (room_of beside (core.old, table.old)) cpu }
    ensures unchanged { IfNone result ((core.new ≡ core.old) × (table.new ≡ table.old)) }
    ensures schedules { IfSome result
        (λ pick. ChargesAndSchedules now (core.old, table.old) (core.new, table.new) cpu pick
        (λ room. schedule room (may_adopt_by cpu (numbers_of (core.old, table.old))) cpu)) }

    // How many comparisons the queues make for it, by the most tasks that a queue has.
    ensures counted { ComparesForSchedule (core.old, table.old) comparisons.old comparisons.new }
{
    if !core.is_online(cpu) {
        return None;
    }
    let pick = adopt_or_pick_anew(core, table, cpu, now, comparisons);
    balance(core, table, cpu);
    Some(pick)
}
