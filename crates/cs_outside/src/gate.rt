//! The gate that a worker passes before each turn.

/// What stands before each turn of a worker. It answers nothing and changes nothing that a clause
/// speaks of. It may wait; a gate that waits keeps the runtime value that it needs for that.
pub trait Gate {
    /// Lets the worker of this number pass, before its turn of this number. Workers are counted from 0
    /// over the actors that have a step line: siblings first, then callers, each in rising order. A
    /// worker's turns are counted from 0, and the last is the one that finds its script done.
    fn pass(&self, actor: u32, turn: u64);
}

/// The gate that stands open.
#[derive(Clone, Copy)]
pub struct NoGate;

impl Gate for NoGate {
    /// Returns at once.
    fn pass(&self, _actor: u32, _turn: u64) {}
}
