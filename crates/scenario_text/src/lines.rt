//! The lines of a text, taken one after the other, each as its words. It is separate so that what reads
//! lines speaks of their words alone, and of no line feeds.

ghost use Rattle.std.specs.Prelude.{◌≡◌, [], ◌∷◌, ◌++◌, MatchResult};
ghost use Rattle.cs_types.specs.Scenario.{IsWithin};
ghost use Rattle.scenario_text.specs.Faults.{lines_in, is_nothing};
ghost use Rattle.scenario_text.specs.Reading.{texts, Takes, TakesSteps, line_at};

use crate::fault::{BadKind, ReadFault};
use crate::pieces::cut;
use crate::plan::MOST_STEPS;
use crate::usual::{usual_step, wide_step};
use crate::words::{Slots, words_of};
use cs_types::{Actor, Event, Step};
use std::marker::Model;

/// Pushes the step. It is made here, since then it is not copied before it is pushed.
#[inline(always)]
fn push_step(steps: &mut Vec<Step>, actor: Actor, event: Event) -> Result<(), ReadFault>
    ensures { MatchResult result
        (λ _. steps.new.items ≡ steps.old.items ++ record { actor = actor; event = event } ∷ [])
        (λ fault. fault ≡ ReadFault.OutOfMemory) }
{
    steps.push(Step { actor, event })?;
    Ok(())
}

/// The lines of a text that are still to be taken.
#[derive(Drop)]
pub(crate) struct Lines<'a> {
    rest: &'a [u8],
}

impl<'a> Model for Lines<'a> {
    ghost use Rattle.std.specs.Prelude.{List, ℕ};
    ghost use Rattle.scenario_text.specs.Faults.{lines_in};

    ghost Value = { List (List (List ℕ)) };

    ghost view = { λ lines. lines_in lines.rest.now };
}

impl<'a> Lines<'a> {
    /// The lines of the text.
    pub fn of(text: &'a [u8]) -> Self
        ensures { result ≡ lines_in text.now }
    {
        Lines { rest: text }
    }

    /// The words of the next line, which a line feed has to end. They are put into the slots, in place of
    /// another line's.
    #[tactic(auto, unfolding(crate::specs::Faults::lines_in))]
    #[inline(always)]
    pub fn next_line<'r>(&mut self, slots: &'r mut Slots<'a>) -> Result<&'r [&'a [u8]], BadKind>
        ensures { Takes (λ words. texts words.now) result self.new (line_at self.old) }
    {
        let Some((line, rest)) = cut(self.rest, b'\n') else {
            return Err(BadKind::Cut);
        };
        self.rest = rest;
        words_of(line, slots)
    }

    /// Takes the next lines as `take_usual_steps` does, up to a step of a sibling whose number has two digits. It is a
    /// function of its own so that what its loop goes over stays in registers.
    #[inline(never)]
    fn take_narrow_steps(
        &mut self,
        siblings: u8,
        named: bool,
        steps: &mut Vec<Step>,
    ) -> Result<(), ReadFault>
        requires { IsWithin 1 16 siblings }
        ensures { MatchResult result
            (λ _. TakesSteps siblings named steps.old.items self.old steps.new.items self.new)
            (λ fault. fault ≡ ReadFault.OutOfMemory) }
    {
        let mut rest = self.rest;
        while named && steps.len() < MOST_STEPS {
            let Some((actor, event, behind)) = usual_step(rest, siblings) else {
                break;
            };
            push_step(steps, actor, event)?;
            rest = behind;
        }
        self.rest = rest;
        Ok(())
    }

    /// Takes the next lines into the steps, if each user is named, as long as each is one of the usual step lines and
    /// the steps are not too many. No line's end is searched for.
    pub fn take_usual_steps(
        &mut self,
        siblings: u8,
        named: bool,
        steps: &mut Vec<Step>,
    ) -> Result<(), ReadFault>
        requires { IsWithin 1 16 siblings }
        ensures { MatchResult result
            (λ _. TakesSteps siblings named steps.old.items self.old steps.new.items self.new)
            (λ fault. fault ≡ ReadFault.OutOfMemory) }
    {
        loop {
            self.take_narrow_steps(siblings, named, steps)?;
            if !named || steps.len() >= MOST_STEPS {
                return Ok(());
            }
            let Some((actor, event, behind)) = wide_step(self.rest, siblings) else {
                return Ok(());
            };
            push_step(steps, actor, event)?;
            self.rest = behind;
        }
    }

    /// Whether no byte is left.
    pub fn is_empty(&self) -> bool
        ensures { result ≡ is_nothing self.now }
    {
        self.rest.is_empty()
    }
}
