//! The actors in their order, and the steps of each.

ghost use Rattle.std.specs.Prelude.{◌≡◌, ◌<◌, IfOk};
ghost use Rattle.cs_types.specs.Scenario.{is_actor};
ghost use Rattle.sibling_workers.specs.Race.{actor_at, has_step, steps_by, lists_of};

use cs_types::{Actor, List, MOST_SIBLINGS, OutOfMemory, Step};
use std::alloc::Global;

/// How many siblings a core may have. The callers stand after them in the order.
const SIBLINGS: u8 = MOST_SIBLINGS as u8;

/// How many actors there can be, the callers among them.
const ACTORS: u8 = 24;

/// Whether two actors are one.
pub fn is_same(one: Actor, other: Actor) -> bool
    ensures { result ≡ is_actor one other }
{
    match (one, other) {
        (Actor::Sibling(i), Actor::Sibling(j)) => i == j,
        (Actor::Caller(i), Actor::Caller(j)) => i == j,
        (Actor::End, Actor::End) => true,
        _ => false,
    }
}

/// The actor at a place of the order, from 0.
fn actor_at(place: u8) -> Actor
    requires { place < 24 }
    ensures { result ≡ actor_at place }
{
    if place < SIBLINGS {
        Actor::Sibling(place)
    } else {
        Actor::Caller(place - SIBLINGS)
    }
}

/// Whether one of the steps is the actor's.
fn has_step(steps: &[Step], actor: Actor) -> bool
    ensures { result ≡ has_step steps.now actor }
{
    steps.iter().any(|step| is_same(step.actor, actor))
}

/// The steps of an actor, in their order.
fn steps_by(alloc: Global, steps: &[Step], actor: Actor) -> Result<List<Step>, OutOfMemory>
    ensures { IfOk result (λ own. own ≡ steps_by steps.now actor) }
{
    let mut own = Vec::new(alloc);
    for step in steps {
        if is_same(step.actor, actor) {
            own.push(*step)?;
        }
    }
    Ok(List::of(own))
}

/// A list of steps for each actor that has one, in the order of the actors.
pub(crate) fn lists_of(alloc: Global, steps: &[Step]) -> Result<List<List<Step>>, OutOfMemory>
    ensures { IfOk result (λ lists. lists ≡ lists_of steps.now) }
{
    let mut lists = Vec::new(alloc);
    for place in 0..ACTORS {
        let actor = actor_at(place);
        if has_step(steps, actor) {
            let own = steps_by(alloc, steps, actor)?;
            lists.push(own)?;
        }
    }
    Ok(List::of(lists))
}
