//! Passes of the ticket lock: their replies on one thread, and a program of somebody else's that makes threads of its
//! own. And turns under a mutex, for those who want one. They play `INPUT`, over any machine.

ghost use Rattle.std.specs.Prelude.{◌≡◌, ◌+◌, ◌*◌, ◌≤◌, [], length};
ghost use Rattle.cs_types.specs.Scenario.{IsPlayable};
ghost use Rattle.core_lock.specs.Lists.{IsList, AreLists, actor_of, steps_in};
ghost use Rattle.core_lock.specs.Passes.{fresh_pass, fresh_passes};
ghost use Rattle.sibling_workers.specs.Working.{HasWorked};
ghost use Rattle.cs_types.specs.declared.event.Actor.TheVariants.{Sibling, Caller};

use core_lock::{Pass, Shared, Spent};
use cs_types::{Actor, Event, Kind, List, Pick, Pid, Reply, Room, Scenario, Step};
use room_report::output;
use row_inputs::{INPUT, next_after, sink_of};
use row_runs::opened;
use scripted_room::{Named, Scripted, Turn};
use std::marker::Brand;
use std::process::Abort;
use std::sync::{Mutex, Wait};
use std::thread::Threads;
use std::{str, thread};

/// What the caller does in `INPUT`.
fn wakes<R: AllocGlobal + Abort>(rt: &R) -> List<Step>
    ensures list { IsList 2 result }
    ensures actor { actor_of result ≡ Caller 0 }
    ensures count { length result ≡ 3 }
{
    let actor = Actor::Caller(0);
    let steps = [
        Step {
            actor,
            event: Event::Wake(1),
        },
        Step {
            actor,
            event: Event::Wake(2),
        },
        Step {
            actor,
            event: Event::Wake(3),
        },
    ];
    List::of(Vec::from_array(rt.alloc(), steps).expect(rt, "room"))
}

/// What the sibling does in `INPUT`.
fn turns<R: AllocGlobal + Abort>(rt: &R) -> List<Step>
    ensures list { IsList 2 result }
    ensures actor { actor_of result ≡ Sibling 0 }
    ensures count { length result ≡ 3 }
{
    let actor = Actor::Sibling(0);
    let steps = [
        Step {
            actor,
            event: Event::Turn(0),
        },
        Step {
            actor,
            event: Event::Turn(0),
        },
        Step {
            actor,
            event: Event::Block(0),
        },
    ];
    List::of(Vec::from_array(rt.alloc(), steps).expect(rt, "room"))
}

/// The caller's steps alone.
fn one_list<R: AllocGlobal + Abort>(rt: &R) -> List<List<Step>>
    ensures lists { AreLists 2 result }
    ensures count { length result ≡ 1 }
    ensures steps { steps_in result ≡ 3 }
{
    List::of(Vec::from_array(rt.alloc(), [wakes(rt)]).expect(rt, "room"))
}

/// The caller's steps, and the sibling's.
fn two_lists<R: AllocGlobal + Abort>(rt: &R) -> List<List<Step>>
    ensures lists { AreLists 2 result }
    ensures count { length result ≡ 2 }
    ensures steps { steps_in result ≡ 6 }
{
    List::of(Vec::from_array(rt.alloc(), [wakes(rt), turns(rt)]).expect(rt, "room"))
}

/// A lock round the machine, with a pass for each of the lists.
fn started<R: AllocGlobal + Abort, M: Room>(
    rt: &R,
    room: M,
    lists: List<List<Step>>,
) -> (Shared<M>, Vec<Pass<M>>)
    requires empty { M.history room ≡ [] }
    requires lists { AreLists 2 lists }
    requires steps { steps_in lists ≤ 6 }
    ensures lists { result.0.lists ≡ lists }
    ensures passes { result.1.items ≡ fresh_passes result.0 }
{
    assert!(rt; room.siblings() == 2 && 6 <= room.spare());
    let (shared, passes) = Shared::start(rt.alloc(), room, lists).expect(rt, "room");
    (shared, passes.into_vec())
}

/// The replies to the next three steps of the pass, which has as many.
fn three_replies<R: Wait + Abort, M: Room>(
    rt: &R,
    shared: &Shared<M>,
    pass: &mut Pass<M>,
) -> (Reply, Reply, Reply)
    requires lock { pass.old.lock ≡ shared.now }
    ensures lock { pass.new.lock ≡ pass.old.lock }
    ensures number { pass.new.progress.number ≡ pass.old.progress.number }
{
    let first = shared.call(rt, pass).expect(rt, "a step");
    let second = shared.call(rt, pass).expect(rt, "a step");
    let third = shared.call(rt, pass).expect(rt, "a step");
    (first, second, third)
}

/// Expects that no step of the pass is left.
fn expect_spent<R: Wait + Abort, M: Room>(rt: &R, shared: &Shared<M>, pass: &mut Pass<M>)
    requires lock { pass.old.lock ≡ shared.now }
    ensures lock { pass.new.lock ≡ pass.old.lock }
    ensures number { pass.new.progress.number ≡ pass.old.progress.number }
{
    assert!(rt; pass.next_step().is_none() && shared.call(rt, pass).is_err());
}

/// Makes the caller's steps, and expects that each wakes its task on sibling 0.
fn expect_wakes<R: Wait + Abort, M: Room>(rt: &R, shared: &Shared<M>, pass: &mut Pass<M>)
    requires lock { pass.old.lock ≡ shared.now }
    ensures lock { pass.new.lock ≡ pass.old.lock }
    ensures number { pass.new.progress.number ≡ pass.old.progress.number }
{
    let (first, second, third) = three_replies(rt, shared, pass);
    assert!(rt; matches!(first, Reply::Woken(0)));
    assert!(rt; matches!(second, Reply::Woken(0)) && matches!(third, Reply::Woken(0)));
}

/// Whether the sibling chose this task for itself alone, while the core had no cookie and no sibling was forced idle.
fn is_plain(pick: Pick, run: Pid) -> bool {
    matches!(pick.kind, Kind::Plain) && (pick.run, pick.core, pick.forced) == (run, 0, 0)
}

/// Makes the sibling's steps after all of the caller's, and expects their replies.
fn expect_turns<R: Wait + Abort, M: Room>(rt: &R, shared: &Shared<M>, pass: &mut Pass<M>)
    requires lock { pass.old.lock ≡ shared.now }
    ensures lock { pass.new.lock ≡ pass.old.lock }
    ensures number { pass.new.progress.number ≡ pass.old.progress.number }
{
    let (first, second, third) = three_replies(rt, shared, pass);
    assert!(rt; matches!(first, Reply::Picked(pick) if is_plain(pick, 3)));
    assert!(rt; matches!(second, Reply::Nothing));
    assert!(rt; matches!(third, Reply::Slept { pid: 3, pick } if is_plain(pick, 1)));
}

/// The only pass of a lock.
fn only_of<R: Abort, M: Room>(rt: &R, shared: &Shared<M>, mut passes: Vec<Pass<M>>) -> Pass<M>
    requires one { length shared.now.lists ≡ 1 }
    requires passes { passes.items ≡ fresh_passes shared.now }
    ensures { result ≡ fresh_pass shared.now 0 }
{
    passes.pop().expect(rt, "a pass")
}

/// Expects the replies of the only pass.
fn expect_one_pass<R: AllocGlobal + Wait + Abort, M: Room>(rt: &R, room: M)
    requires empty { M.history room ≡ [] }
{
    let (shared, passes) = started(rt, room, one_list(rt));
    let mut pass = only_of(rt, &shared, passes);
    expect_wakes(rt, &shared, &mut pass);
    expect_spent(rt, &shared, &mut pass);
    assert!(rt; shared.length(&mut pass) == 3);
    let passes = List::of(Vec::from_array(rt.alloc(), [pass]).expect(rt, "room"));
    assert!(rt; shared.finish(passes).length() == 3);
}

#[test]
fn one_pass_of_a_lock(rt: HostRuntime) {
    let (_, room) = opened(rt.alloc(), INPUT).expect(&rt, "a scenario");
    expect_one_pass(&rt, room);
}

/// The two passes of a lock.
fn two_of<R: Abort, M: Room>(
    rt: &R,
    shared: &Shared<M>,
    mut passes: Vec<Pass<M>>,
) -> (Pass<M>, Pass<M>)
    requires two { length shared.now.lists ≡ 2 }
    requires passes { passes.items ≡ fresh_passes shared.now }
    ensures first { result.0 ≡ fresh_pass shared.now 0 }
    ensures second { result.1 ≡ fresh_pass shared.now 1 }
{
    let second = passes.pop().expect(rt, "a pass");
    let first = passes.pop().expect(rt, "a pass");
    (first, second)
}

/// The room, once both passes are handed back.
fn finished<R: AllocGlobal + Abort, M: Room>(
    rt: &R,
    shared: Shared<M>,
    first: Pass<M>,
    second: Pass<M>,
) -> M
    requires two { length shared.lists ≡ 2 }
    requires first { (first.lock ≡ shared) × (first.progress.number ≡ 0) }
    requires second { (second.lock ≡ shared) × (second.progress.number ≡ 1) }
{
    let passes = Vec::from_array(rt.alloc(), [second, first]).expect(rt, "room");
    shared.finish(List::of(passes))
}

/// Expects the replies of two passes, of which one makes all its steps before the other.
fn expect_two_passes<R: AllocGlobal + Wait + Abort, M: Room>(rt: &R, room: M)
    requires empty { M.history room ≡ [] }
{
    let (shared, passes) = started(rt, room, two_lists(rt));
    let (mut first, mut second) = two_of(rt, &shared, passes);
    expect_wakes(rt, &shared, &mut first);
    expect_turns(rt, &shared, &mut second);
    assert!(rt; shared.length(&mut first) == 6);
    expect_spent(rt, &shared, &mut first);
    expect_spent(rt, &shared, &mut second);
    assert!(rt; finished(rt, shared, first, second).length() == 6);
}

#[test]
fn two_passes_of_a_lock(rt: HostRuntime) {
    let (_, room) = opened(rt.alloc(), INPUT).expect(&rt, "a scenario");
    expect_two_passes(&rt, room);
}

/// Makes all steps of a pass, and reads the length before each and after it. Answers the last length.
fn make_all<R: Wait, M: Room>(rt: &R, shared: &Shared<M>, mut pass: Pass<M>) -> (Pass<M>, u64)
    requires lock { pass.lock ≡ shared.now }
    ensures worked { HasWorked pass result.0 }
{
    let mut last = shared.length(&mut pass);
    loop {
        if let Err(Spent) = shared.call(rt, &mut pass) {
            return (pass, last);
        }
        // This step stands after all that was there before, whatever others do meanwhile.
        let now = shared.length(&mut pass);
        prove!(last < now);
        last = now;
    }
}

/// The caller's lines in what the machine writes, and how the sibling's begin.
const WAKES: [&str; 3] = [
    "c0 wake 1: Woken 0\n",
    "c0 wake 2: Woken 0\n",
    "c0 wake 3: Woken 0\n",
];

const TURNS: [&str; 3] = ["s0 turn: ", "s0 turn: ", "s0 block: "];

/// Expects the caller's steps in their order in what the machine writes, and the sibling's in theirs.
fn expect_orders<R: AllocGlobal + Abort, M: Room>(rt: &R, room: &M) {
    let mut sink = sink_of(rt.alloc(), 4096, &[]).expect(rt, "room");
    output(room, &mut sink).expect(rt, "a sink that takes all");
    let text = str::from_utf8(sink.bytes()).expect(rt, "a text");
    assert!(rt; next_after(text, "c0", &WAKES) == Some(None));
    assert!(rt; next_after(text, "s0", &TURNS) == Some(None));
}

/// Expects that two threads make the steps of a pass each.
fn expect_two_threads<R: Threads + Wait + AllocGlobal + Sync + Abort, M: Room + Send>(
    rt: &R,
    room: M,
)
    requires empty { M.history room ≡ [] }
{
    let (shared, passes) = started(rt, room, two_lists(rt));
    let (first, second) = two_of(rt, &shared, passes);
    let ((first, one), (second, other)) = thread::join(
        rt,
        || -> (Pass<M>, u64)
            requires { first.lock ≡ shared }
            ensures { HasWorked first result.0 }
        { make_all(rt, &shared, first) },
        || -> (Pass<M>, u64)
            requires { second.lock ≡ shared }
            ensures { HasWorked second result.0 }
        { make_all(rt, &shared, second) },
    );
    assert!(rt; one.max(other) == 6);
    let room = finished(rt, shared, first, second);
    assert!(rt; room.length() == 6);
    expect_orders(rt, &room);
}

#[test]
fn passes_in_threads_of_a_stranger(rt: HostRuntime) {
    let (_, room) = opened(rt.alloc(), INPUT).expect(&rt, "a scenario");
    expect_two_threads(&rt, room);
}

/// Makes turns of the actor under the mutex until its script is made, and answers how many these were.
fn turns_of<R: Wait, M: Room, N: Named>(rt: &R, lock: &Mutex<Scripted<M, N>>, actor: Actor) -> u64 {
    for made in 0..u64::MAX {
        if let Turn::Finished = lock.lock(rt).turn(actor) {
            return made;
        }
    }
    u64::MAX
}

/// Expects that two threads make their scripts in the room whose opening `N` names.
fn expect_scripts<
    N: Named + Send + Sync,
    R: Threads + Wait + AllocGlobal + Sync + Abort,
    M: Room + Send,
>(rt: &R, room: M, scenario: &Scenario)
    requires playable { IsPlayable scenario.now }
    requires scenario { (M.opening room).scenario ≡ scenario.now }
    requires opening { M.opening room ≡ N.opening }
    requires empty { M.history room ≡ [] }
    requires spare { length scenario.now.steps + scenario.now.siblings * scenario.now.siblings
        ≤ M.spare room }
{
    let lock = Mutex::new(Scripted::<M, N>::of(rt.alloc(), room, scenario).expect(rt, "room"));
    let made = thread::join(
        rt,
        || turns_of(rt, &lock, Actor::Caller(0)),
        || turns_of(rt, &lock, Actor::Sibling(0)),
    );
    assert!(rt; made == (3, 3));
    let room = lock.into_inner().into_room();
    assert!(rt; room.length() == 6);
    expect_orders(rt, &room);
}

/// Expects it of a machine of the scenario.
fn expect_scripted<R: Threads + Wait + AllocGlobal + Sync + Abort, M: Room + Send>(
    rt: &R,
    room: M,
    scenario: &Scenario,
)
    requires playable { IsPlayable scenario.now }
    requires scenario { (M.opening room).scenario ≡ scenario.now }
    requires empty { M.history room ≡ [] }
    requires spare { length scenario.now.steps + scenario.now.siblings * scenario.now.siblings
        ≤ M.spare room }
{
    expect_scripts::<Brand, R, M>(rt, room, scenario);
}

#[test]
fn scripts_under_a_mutex(rt: HostRuntime) {
    let (scenario, room) = opened(rt.alloc(), INPUT).expect(&rt, "a scenario");
    expect_scripted(&rt, room, &scenario);
}
