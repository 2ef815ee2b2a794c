//! What a core-wide selection asks of the queues: the lead, and what each sibling gets for a core cookie.
//! It is a file of its own since it changes nothing.

ghost use Rattle.std.specs.Prelude.{◌≡◌, ◌+◌, ◌-◌, ◌*◌, ◌≤◌, ◌<◌, ◌==◌, length, None, if◌then◌else◌};
ghost use Rattle.task_table.specs.Table.{Table};
ghost use Rattle.core_lanes.specs.Lanes.{Beside, room_of, Agree, AgreesAt};
ghost use Rattle.std.specs.Option.{option_map};
ghost use Rattle.cs_types.specs.Order.{first_of};
ghost use Rattle.cs_types.specs.Queue.{queued_of};
ghost use Rattle.core_lanes.specs.Queued.{queued_among, with_cookie, MaySearch};
ghost use Rattle.core_pick.specs.Choice.{firsts_of, MayCount};
ghost use Rattle.core_pick.specs.Comparisons.{Compares};
ghost use Rattle.core_pick.specs.Questions.{MayAsk, AsksOnce, AsksOf, KeepsFirst, LeadsAlone, LeadsWith, GetsCounted, MayAskPart, AsksPart, AsksAll, GetAll};

use crate::choice::{Choice, Counts};
use crate::lead::{First, first_kept};
use core_lanes::{Core, Lane, SiblingQueue};
use cs_types::{Cookie, Cpu, Queued, Steps};
use std::sync::ledger::Ledger;
use task_table::TaskTable;

// ---- what each gets

/// The first task of a sibling with the core cookie (`sched_core_find`). None is there for cookie 0.
#[inline(always)]
fn search_on<Q: SiblingQueue, L: Ledger>(
    lane: &Lane<Q>,
    table: &TaskTable,
    cookie: Cookie,
    cpu: Cpu,
    comparisons: &mut Steps<L>,
) -> Option<Queued>
    requires { MaySearch (Q.holds lane.now.queue) cpu table.now }
    ensures { AsksOf Q.most_compared cpu table.now
        (result ≡ option_map queued_of (if cookie == 0 then None
        else first_of (with_cookie cookie (queued_among table.now.tasks cpu))))
        comparisons.old comparisons.new }
{
    if cookie == 0 {
        return None;
    }
    lane.queue.first_with(cookie, table, cpu, comparisons)
}

/// Puts what a sibling gets for a core cookie in the place of its first, and gives the counts with it: that first, if
/// it has the cookie, and else what a search finds. One whose first is idle gets that, and is not counted.
#[inline(always)]
fn settle<Q: SiblingQueue, L: Ledger>(
    lane: &Lane<Q>,
    table: &TaskTable,
    given: &mut Choice,
    counts: Counts,
    cookie: Cookie,
    cpu: Cpu,
    comparisons: &mut Steps<L>,
) -> Counts
    requires search { MaySearch (Q.holds lane.now.queue) cpu table.now }
    requires may { MayCount counts }
    ensures { AsksOf Q.most_compared cpu table.now
        (GetsCounted cpu cookie lane.now table.now counts result given.old given.new)
        comparisons.old comparisons.new }
{
    if given.is_idle() {
        return counts;
    }
    if given.cookie == cookie {
        return counts.with_task(lane.online);
    }
    match search_on(lane, table, cookie, cpu, comparisons) {
        Some(queued) => {
            *given = Choice::of(&queued);
            counts.with_task(lane.online)
        }
        None => {
            *given = Choice::idle();
            counts.with_forced(lane.online)
        }
    }
}

/// Puts what each sibling gets for a core cookie in the place of its first, and counts it.
pub fn choose<Q: SiblingQueue, L: Ledger>(
    choices: &mut [Choice],
    core: &Core<Q>,
    table: &TaskTable,
    cookie: Cookie,
    comparisons: &mut Steps<L>,
) -> Counts
    requires agree { Agree (core.now, table.now) }
    requires firsts { (beside : Beside) →
        choices.old ≡ firsts_of (room_of beside (core.now, table.now)) }
    ensures gets { GetAll cookie (core.now, table.now) choices.new result }
    ensures counted { Compares (core.now, table.now)
        (λ most. comparisons.new ≤ comparisons.old + length core.now.lanes.items * most) }
{
    let lanes = core.lanes.as_slice();
    let mut counts = Counts {
        forced: 0,
        occupation: 0,
    };
    for (cpu, choice) in choices.iter_mut().enumerate() {
        counts = settle(
            &lanes[cpu],
            table,
            choice,
            counts,
            cookie,
            cpu as u8,
            comparisons,
        );
    }
    counts
}

// ---- the firsts

/// What is kept of the first task of a sibling, which is asked for it.
#[inline(always)]
pub fn first_at<Q: SiblingQueue, L: Ledger>(
    core: &Core<Q>,
    table: &TaskTable,
    cpu: Cpu,
    comparisons: &mut Steps<L>,
) -> First
    requires { MayAsk cpu (core.now, table.now) }
    ensures { AsksOnce cpu (core.now, table.now) (KeepsFirst cpu (core.now, table.now) result)
        comparisons.old comparisons.new }
{
    let first = core.first_on(table, cpu, comparisons);
    first_kept(first.as_ref(), core.lanes[cpu as usize].snapshot)
}

/// The lead of one sibling alone, of whose first this is kept: that, and idle if it is offline.
#[inline(always)]
fn lead_alone<Q: SiblingQueue>(core: &Core<Q>, cpu: Cpu, first: &First) -> First
    requires { cpu < length core.now.lanes.items }
    ensures { (table : Table) → KeepsFirst cpu (core.now, table) first.now →
        LeadsAlone cpu (core.now, table) result }
{
    if core.is_online(cpu) {
        *first
    } else {
        First::idle()
    }
}

/// The lead of some siblings and of one more, of whose first this is kept. One that is offline puts up nothing, and
/// idle leads nobody.
#[inline(always)]
fn lead_with<Q: SiblingQueue>(core: &Core<Q>, cpu: Cpu, lead: First, first: First) -> First
    requires { cpu < length core.now.lanes.items }
    ensures { (table : Table) → MayAsk cpu (core.now, table) →
        KeepsFirst cpu (core.now, table) first → LeadsWith cpu (core.now, table) lead result }
{
    if first.choice.is_idle() {
        return lead;
    }
    if core.is_online(cpu) {
        lead.or_higher(first)
    } else {
        lead
    }
}

/// Puts the first of each sibling from one on up to another in its place. Each is asked once. It is handed the lead of
/// some siblings before, and gives the lead of all so far.
#[inline(always)]
fn ask_from<Q: SiblingQueue, L: Ledger>(
    firsts: &mut [Choice],
    core: &Core<Q>,
    table: &TaskTable,
    from: Cpu,
    to: Cpu,
    before: First,
    comparisons: &mut Steps<L>,
) -> First
    requires many { length firsts.old ≡ length core.now.lanes.items }
    requires part { MayAskPart from to (core.now, table.now) }
    ensures asks { AsksPart from to (core.now, table.now) firsts.old firsts.new before result }
    ensures counted { Compares (core.now, table.now)
        (λ most. comparisons.new ≤ comparisons.old + (to - from) * most) }
{
    let mut lead = before;
    for cpu in from..to {
        let first = first_at(core, table, cpu, comparisons);
        firsts[cpu as usize] = first.choice;
        lead = lead_with(core, cpu, lead, first);
    }
    lead
}

/// Puts the first of each sibling in its place. It is handed that of the one. Each of the others is asked once, in the
/// order in which they may lead: from the one on. It gives the cookie of the lead of a selection that the one makes, 0
/// for idle.
pub fn ask<Q: SiblingQueue, L: Ledger>(
    firsts: &mut [Choice],
    core: &Core<Q>,
    table: &TaskTable,
    own: Cpu,
    first: &First,
    comparisons: &mut Steps<L>,
) -> Cookie
    requires many { length firsts.old ≡ length core.now.lanes.items }
    requires may { MayAsk own (core.now, table.now) }
    requires first { KeepsFirst own (core.now, table.now) first.now }
    ensures asks { AsksAll own (core.now, table.now) firsts.new result }
    ensures counted { Compares (core.now, table.now)
        (λ most. comparisons.new + most ≤ comparisons.old + length core.now.lanes.items * most) }
{
    firsts[own as usize] = first.choice;
    let offer = lead_alone(core, own, first);
    let count = core.lanes.len() as u8;
    let behind = ask_from(firsts, core, table, own + 1, count, offer, comparisons);
    let lead = ask_from(firsts, core, table, 0, own, behind, comparisons);
    lead.choice.cookie
}
