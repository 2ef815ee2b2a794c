//! How far each actor has come in its script.

ghost use Rattle.std.specs.Prelude.{◌≡◌, ◌<◌, ◌∷◌, [], false, MatchOption};
ghost use Rattle.cs_types.specs.Scenario.{is_actor};
ghost use Rattle.sibling_workers.specs.Race.{events_in};
ghost use Rattle.trace_check.specs.Scripts.{rank, left_to};

use cs_types::{Actor, Event, MOST_SIBLINGS, Step};
use sibling_workers::is_same;
use std::marker::Model;

/// How many actors a scenario can have: its siblings, and 8 callers.
const ACTORS: usize = MOST_SIBLINGS + 8;

/// Where an actor of a scenario stands in the order of the actors.
fn rank(actor: Actor) -> usize
    requires { rank actor < 24 }
    ensures { result ≡ rank actor }
{
    match actor {
        Actor::Sibling(cpu) => cpu as usize,
        Actor::Caller(caller) => MOST_SIBLINGS + caller as usize,
        Actor::End => ACTORS,
    }
}

/// From which place on in the steps of a scenario the next one of each actor stands.
#[derive(Drop)]
pub(crate) struct Places {
    /// In the order of the actors.
    next: [usize; ACTORS],
}

impl Model for Places {
    ghost use Rattle.std.specs.Prelude.{ℕ, List};

    ghost Value = { List ℕ };

    ghost view = { λ places. places.next };
}

impl Places {
    /// No actor has made a step.
    pub fn new() -> Self
        ensures { (steps : _) (actor : _) → left_to steps result actor ≡ events_in actor steps }
    {
        Places { next: [0; ACTORS] }
    }

    /// The event of the actor's next step. `None` if it has none, and then nothing is changed.
    pub fn advance(&mut self, steps: &[Step], actor: Actor) -> Option<Event>
        requires { rank actor < 24 }
        ensures next { MatchOption result (left_to steps.now self.old actor ≡ [])
            (λ event. left_to steps.now self.old actor ≡ event ∷ left_to steps.now self.new actor) }
        ensures others { (other : Actor) → is_actor actor other ≡ false →
            left_to steps.now self.new other ≡ left_to steps.now self.old other }
    {
        let rank = rank(actor);
        for place in self.next[rank]..steps.len() {
            if is_same(steps[place].actor, actor) {
                self.next[rank] = place + 1;
                return Some(steps[place].event);
            }
        }
        None
    }
}
