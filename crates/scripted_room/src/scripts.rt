//! The script of each actor, and how far it is made. They stand apart from the room, so that what is left
//! of them is one list of steps.

ghost use Rattle.std.specs.Prelude.{◌≡◌, ◌+◌, ◌<◌, ◌∷◌, ◌++◌, [], true, length, take, drop, slice_get, IfOk, OnOk, IfSome, IfNone, MatchBool};
ghost use Rattle.cs_types.specs.declared.event.Actor.{Actor};
ghost use Rattle.cs_types.specs.Scenario.{is_actor};
ghost use Rattle.sibling_workers.specs.Race.{events_in};
ghost use Rattle.scripted_room.specs.Scripts.{step_of, steps_from, steps_left};

use crate::script::Script;
use cs_types::{Actor, Event, OutOfMemory, Step};
use sibling_workers::is_same;
use std::alloc::Global;
use std::marker::Model;

impl Script {
    /// Puts one more event at the end of the script.
    fn push(&mut self, event: Event) -> Result<(), OutOfMemory>
        ensures steps { OnOk result (steps_from self.new
            ≡ steps_from self.old ++ step_of self.old.actor event ∷ []) }
    {
        self.events.push(event)?;
        Ok(())
    }

    /// Takes the next event, and moves the place by one.
    fn next(&mut self) -> Event
        requires { self.old.place < length self.old.events.items }
        ensures { steps_from self.old ≡ step_of self.old.actor result ∷ steps_from self.new }
    {
        let event = self.events[self.place];
        self.place += 1;
        event
    }
}

/// The place of the last script of the actor. `None` if it has none.
fn last_of(scripts: &[Script], actor: Actor) -> Option<usize>
    ensures within { IfSome result (λ k. k < length scripts.now) }
    ensures same { IfSome result
        (λ k. IfSome (slice_get scripts.now k) (λ script. is_actor script.actor actor ≡ true)) }
    ensures last { IfSome result
        (λ k. events_in actor (steps_left (drop (k + 1) scripts.now)) ≡ []) }
    ensures none { IfNone result (events_in actor (steps_left scripts.now) ≡ []) }
{
    let mut end = scripts.len();
    while 0 < end {
        if is_same(scripts[end - 1].actor, actor) {
            return Some(end - 1);
        }
        end -= 1;
    }
    None
}

/// Whether the next step of the actor is the script's.
fn has_next(script: &Script, actor: Actor) -> bool
    ensures { MatchBool result ((is_actor script.now.actor actor ≡ true)
        × (script.now.place < length script.now.events.items))
        (events_in actor (steps_from script.now) ≡ []) }
{
    is_same(script.actor, actor) && script.place < script.events.len()
}

/// The place of the first script of the actor that is not made to its end. `None` if there is none.
fn next_of(scripts: &[Script], actor: Actor) -> Option<usize>
    ensures within { IfSome result (λ k. k < length scripts.now) }
    ensures same { IfSome result
        (λ k. IfSome (slice_get scripts.now k) (λ script. (is_actor script.actor actor ≡ true)
        × (script.place < length script.events.items))) }
    ensures first { IfSome result (λ k. events_in actor (steps_left (take k scripts.now)) ≡ []) }
    ensures none { IfNone result (events_in actor (steps_left scripts.now) ≡ []) }
{
    for place in 0..scripts.len() {
        if has_next(&scripts[place], actor) {
            return Some(place);
        }
    }
    None
}

/// The scripts of all actors. Contracts see them as the steps that are left to be made, actor by actor.
#[derive(Drop)]
pub(crate) struct Scripts {
    scripts: Vec<Script>,
}

impl Model for Scripts {
    ghost use Rattle.std.specs.Prelude.{List};
    ghost use Rattle.cs_types.specs.declared.event.Step.{Step};
    ghost use Rattle.scripted_room.specs.Scripts.{steps_left};

    ghost Value = { List Step };

    ghost view = { λ all. steps_left all.scripts.items };
}

/// Puts one more step at the end of its actor's script.
fn add(alloc: Global, scripts: &mut Vec<Script>, step: Step) -> Result<(), OutOfMemory>
    ensures steps { OnOk result ((actor : Actor) → events_in actor (steps_left scripts.new.items)
        ≡ events_in actor (steps_left scripts.old.items) ++ events_in actor (step ∷ [])) }
    ensures count { OnOk result (length (steps_left scripts.new.items)
        ≡ length (steps_left scripts.old.items) + 1) }
{
    match last_of(scripts.as_slice(), step.actor) {
        Some(place) => scripts[place].push(step.event)?,
        None => {
            let mut events = Vec::new(alloc);
            events.push(step.event)?;
            scripts.push(Script {
                actor: step.actor,
                events,
                place: 0,
            })?;
        }
    }
    Ok(())
}

impl Scripts {
    /// The scripts of these steps, of which none is made.
    pub(crate) fn of(alloc: Global, steps: &[Step]) -> Result<Scripts, OutOfMemory>
        ensures steps { IfOk result (λ all. (actor : Actor) →
            events_in actor all ≡ events_in actor steps.now) }
        ensures count { IfOk result (λ all. length all ≡ length steps.now) }
    {
        let mut scripts = Vec::new(alloc);
        for step in steps {
            add(alloc, &mut scripts, *step)?;
        }
        Ok(Scripts { scripts })
    }

    /// Takes the actor's next event, and moves its place by one. `None` exactly if no step of the actor is left.
    pub(crate) fn next(&mut self, actor: Actor) -> Option<Event>
        ensures some { IfSome result (λ event. (a : Actor) →
            events_in a self.old ≡ events_in a (step_of actor event ∷ []) ++ events_in a self.new) }
        ensures count { IfSome result (λ _. length self.old ≡ length self.new + 1) }
        ensures none { IfNone result ((self.new ≡ self.old) × (events_in actor self.old ≡ [])) }
    {
        let place = next_of(self.scripts.as_slice(), actor)?;
        Some(self.scripts[place].next())
    }
}
