//! A time from one moment to another, whatever holds in it.

use run_segments::{Segment, Waiting, Window};

/// The time from one moment to another.
#[derive(Clone, Copy)]
pub(crate) struct Span {
    /// The clock when it begins, in ns.
    pub from: u64,
    /// The clock when it ends, in ns.
    pub to: u64,
}

impl Span {
    pub(crate) fn of_segment(segment: &Segment) -> Span {
        Span {
            from: segment.from,
            to: segment.to,
        }
    }

    pub(crate) fn of_window(window: &Window) -> Span {
        Span {
            from: window.from,
            to: window.to,
        }
    }

    pub(crate) fn of_waiting(waiting: &Waiting) -> Span {
        Span {
            from: waiting.from,
            to: waiting.to,
        }
    }

    /// A moment, which takes no time.
    pub(crate) fn of_moment(clock: u64) -> Span {
        Span {
            from: clock,
            to: clock,
        }
    }

    /// How long it is, in ns.
    pub(crate) fn length(self) -> u64 {
        self.to.saturating_sub(self.from)
    }

    /// This span and a later one, with what lies between them.
    pub(crate) fn up_to(self, later: Span) -> Span {
        Span {
            from: self.from,
            to: later.to,
        }
    }
}
