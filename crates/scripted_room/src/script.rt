//! An actor's script. Its definition stands in a file of its own, since the definitions over scripts name it.

ghost use Rattle.std.specs.Prelude.{◌≤◌, vec_len};

use cs_types::{Actor, Event};

/// An actor's events, and how many of them are made.
#[derive(Drop)]
pub(crate) struct Script {
    pub(crate) actor: Actor,
    pub(crate) events: Vec<Event>,
    pub(crate) place: usize,
    pub(crate) ghost within: { place ≤ vec_len events },
}
