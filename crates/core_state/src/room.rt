//! The machine over trees.

use core_events::CoreRoom;
use tree_queue::TreeQueue;

/// A machine that keeps ordered trees. Contracts see what it stands for: what it began with, the steps that
/// were made, and how many more entries it can take. Its guards are of one type.
pub type CoreState<G> = CoreRoom<TreeQueue, G>;
