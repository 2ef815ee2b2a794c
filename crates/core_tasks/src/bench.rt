//! How a guard is loaded and dropped. It is a file of its own since nothing else changes which guards are active.

ghost use Rattle.cs_types.specs.declared.event.Event.TheVariants.{Load, Unload};
ghost use Rattle.core_tasks.specs.Steps.{Makes};

use crate::state::State;
use core_lanes::SiblingQueue;
use cs_outside::Guard;
use cs_types::Reply;
use ptrace_check::{LoadAnswer, UnloadAnswer};

impl<Q: SiblingQueue, G: Guard> State<Q, G> {
    /// The guard leaves the bench and is asked from now on, after those that are active.
    pub fn load(&mut self, index: u8) -> Reply
        ensures { Makes self.old self.new (Load index) result }
    {
        match self.guards.load(index) {
            LoadAnswer::Loaded => Reply::Loaded,
            LoadAnswer::NoGuard => Reply::NoGuard,
        }
    }

    /// The guard is dropped and asked no more.
    pub fn unload(&mut self, index: u8) -> Reply
        ensures { Makes self.old self.new (Unload index) result }
    {
        match self.guards.unload(index) {
            UnloadAnswer::Dropped => Reply::Dropped,
            UnloadAnswer::NoGuard => Reply::NoGuard,
        }
    }
}
