//! What the threads at a lock know. Contracts and proofs alone speak of these: no value of them is made.

use cs_types::{Entry, List, Step};

/// What is known of one list of steps.
pub struct Progress {
    /// The list's number, from 0.
    pub number: u64,
    /// How many of its steps are made, a count.
    pub made: u64,
    /// The history as it was seen last.
    pub seen: List<Entry>,
    /// The length that was read last, a count of entries.
    pub note: u64,
    /// How often a length was read, a count.
    pub readings: u64,
}

/// What a lock began with: the room, and the lists by their numbers.
pub(crate) struct Beginning<R> {
    pub(crate) room: R,
    pub(crate) lists: List<List<Step>>,
}

/// What a seat at the table knows.
pub(crate) enum View<R> {
    /// Nothing: its lists are another seat's now.
    Gone,
    /// Of lists of which no step has a ticket.
    Idle(Beginning<R>, List<Progress>),
    /// Of a list whose next step has this ticket.
    Waiting(Beginning<R>, Progress, u64),
    /// Of a list whose next step has this ticket, which is served: the room is out with this seat.
    Holding(Beginning<R>, Progress, u64),
}
