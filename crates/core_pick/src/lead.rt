//! The first task of a sibling, and which of two is higher. It is a file of its own since it alone knows by what
//! tasks of distinct siblings are compared.

ghost use Rattle.std.specs.Prelude.{◌≡◌, None, Option, Some, option_copied, if◌then◌else◌};
ghost use Rattle.std.specs.Option.{option_map};
ghost use Rattle.cs_types.specs.declared.task.Task.{Task};
ghost use Rattle.cs_types.specs.Queue.{queued_of};
ghost use Rattle.core_pick.specs.Choice.{first_kept, standing_of, is_above};
ghost use Rattle.core_pick.specs.Schedules.{MayKeep};

use crate::choice::Choice;
use cs_types::Queued;
use sibling_priority::{Standing, rank_across};

/// What a selection keeps of the first task of a sibling, which is less than the task, or of idle.
#[derive(Clone, Copy)]
pub struct First {
    /// Its rank among the firsts of its class on all siblings, the smaller the higher: its own, from which the snapshot
    /// of its sibling is taken if it is fair. 0 for idle.
    pub rank_across: u128,
    /// The task, as a sibling gets it.
    pub choice: Choice,
}

impl First {
    /// What is kept of idle.
    pub fn idle() -> First
        ensures { result ≡ first_kept 0 None }
    {
        First {
            rank_across: 0,
            choice: Choice::idle(),
        }
    }

    /// How it stands among the firsts of all siblings.
    #[inline(always)]
    fn standing(&self) -> Standing
        ensures { result ≡ standing_of self.now }
    {
        Standing {
            class: self.choice.class,
            rank: self.rank_across,
        }
    }

    /// The higher of the two, this one if they tie.
    #[inline(always)]
    pub fn or_higher(self, other: First) -> First
        ensures { result ≡ (if is_above other self then other else self) }
    {
        if other.standing().is_above(&self.standing()) {
            other
        } else {
            self
        }
    }
}

/// What is kept of this first task, under the snapshot of its sibling.
#[inline(always)]
pub fn first_kept(first: Option<&Queued>, snapshot: u128) -> First
    requires { MayKeep snapshot (option_copied first) }
    ensures { (task : Option Task) → option_copied first.entry ≡ option_map queued_of task →
        result ≡ first_kept snapshot task }
{
    match first {
        None => First::idle(),
        Some(queued) => First {
            rank_across: rank_across(queued.class, queued.rank, snapshot),
            choice: Choice::of(queued),
        },
    }
}
