//! What a mark is filled with.

use crate::gathered::Keys;
use crate::look::{Hatch, Look};
use crate::shades::Shades;

/// What a mark is filled with.
#[derive(Clone, Copy)]
pub(crate) enum Paint {
    /// What runs with one cookie or with none, or is of one thread group.
    Runs(Look),
    /// What runs with several cookies, or is of several thread groups, one after another.
    RunsSeveral,
    /// What is forced idle under one core cookie, or under none.
    Forced(Hatch),
    /// What is forced idle under several core cookies, one after another.
    ForcedSeveral,
    /// What is offline.
    Offline,
    /// What is idle, which shows nothing and still has a title.
    Clear,
}

impl Paint {
    /// The paint of what ran with these cookies, or was of these thread groups.
    pub(crate) fn of_ran(keys: Keys, shades: &Shades) -> Paint {
        match keys {
            Keys::Unknown => Paint::Clear,
            Keys::One(key) => Paint::Runs(shades.look(key)),
            Keys::Several => Paint::RunsSeveral,
        }
    }

    /// The paint of what was forced idle under these core cookies.
    pub(crate) fn of_forced(cookies: Keys) -> Paint {
        match cookies {
            Keys::Unknown => Paint::Clear,
            Keys::One(cookie) => Paint::Forced(Hatch::of(cookie)),
            Keys::Several => Paint::ForcedSeveral,
        }
    }
}
