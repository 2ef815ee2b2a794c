//! The machine over plain lists.

use crate::walk::Walk;
use core_events::CoreRoom;

/// A machine that keeps plain lists. Contracts see what it stands for: what it began with, the steps that
/// were made, and how many more entries it can take. Its guards are of one type.
pub type PlainRoom<G> = CoreRoom<Walk, G>;
