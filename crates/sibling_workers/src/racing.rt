//! A race: one worker for each actor that has a script, all at one room.

ghost use Rattle.std.specs.Prelude.{◌≡◌, ◌+◌, ◌*◌, ◌<◌, ◌≤◌, [], length, IfOk};
ghost use Rattle.cs_types.specs.Scenario.{IsPlayable};
ghost use Rattle.cs_types.specs.History.{IsLegal};
ghost use Rattle.core_lock.specs.Lists.{AreLists, steps_in};
ghost use Rattle.sibling_workers.specs.Race.{IsRaced};
ghost use Rattle.sibling_workers.specs.Working.{HasAll};

use crate::actors::lists_of;
use crate::working::work;
use core_lock::Shared;
use cs_outside::Gate;
use cs_types::{List, OutOfMemory, Room, Scenario, Step};
use std::alloc::Global;
use std::sync::Wait;
use std::thread::Threads;

/// Makes all steps of the lists in the room, each list in a worker of its own, under one ticket lock.
/// If there is no list, there is no lock.
fn play<T: Threads + Wait + Sync, R: Room + Send, G: Gate + Sync>(
    rt: &T,
    alloc: Global,
    room: R,
    lists: List<List<Step>>,
    gate: &G,
) -> Result<R, OutOfMemory>
    requires lists { 0 < length lists → AreLists (R.opening room).scenario.siblings lists }
    requires empty { R.history room ≡ [] }
    requires spare { steps_in lists ≤ R.spare room }

    ensures opening { IfOk result (λ played. R.opening played ≡ R.opening room) }
    ensures spare { IfOk result
        (λ played. R.spare played + length (R.history played) ≡ R.spare room) }
    ensures legal { IfOk result (λ played. IsLegal (R.opening played) (R.history played)) }
    ensures made { IfOk result (λ played. HasAll lists (R.history played)) }
{
    if lists.items().is_empty() {
        return Ok(room);
    }
    let (shared, mut passes) = Shared::start(alloc, room, lists)?;
    work(rt, &shared, &mut passes, gate);
    Ok(shared.finish(passes))
}

/// Plays the scenario in the room: each actor that has a step line makes its script in a worker of its own, and all
/// make their turns under one lock. Before each turn a worker passes the gate, even before the one that finds its
/// script done. When all have come back, the entries of the final drain are made.
///
/// The scenario can be played, and is the room's. The room has made no step. It can take an entry for each step and,
/// for the final drain, the square of the siblings.
///
/// At `Ok` the room has the opening that it had. Its history is a shuffle of all scripts, in which each reply is the
/// one that the rules give at its place, and after it come the entries of the final drain. Memory is taken before the
/// first turn alone; without it no turn is made, and the room is dropped.
pub fn race<T: Threads + Wait + AllocGlobal + Sync, R: Room + Send, G: Gate + Sync>(
    rt: &T,
    room: R,
    scenario: &Scenario,
    gate: &G,
) -> Result<R, OutOfMemory>
    requires playable { IsPlayable scenario.now }
    requires scenario { (R.opening room).scenario ≡ scenario.now }
    requires empty { R.history room ≡ [] }
    requires spare { length scenario.now.steps + scenario.now.siblings * scenario.now.siblings
        ≤ R.spare room }

    ensures opening { IfOk result (λ raced. R.opening raced ≡ R.opening room) }
    ensures raced { IfOk result (λ raced. IsRaced (R.opening room) (R.history raced)) }
{
    let lists = lists_of(rt.alloc(), scenario.steps.items())?;
    let mut room = play(rt, rt.alloc(), room, lists, gate)?;
    room.drain();
    Ok(room)
}
