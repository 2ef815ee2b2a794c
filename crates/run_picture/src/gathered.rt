//! What is too narrow for marks of its own, gathered for one.

use crate::shades::Shades;
use crate::span::Span;
use run_segments::Segment;
use run_times::Doing;

/// Which cookies, or which thread groups, there were.
#[derive(Clone, Copy)]
pub(crate) enum Keys {
    /// None was looked at.
    Unknown,
    /// This one alone, 0 for none.
    One(u64),
    /// Several.
    Several,
}

/// For how long something was so, and with which cookies or thread groups.
#[derive(Clone, Copy)]
pub(crate) struct Part {
    /// In ns.
    pub time: u64,
    pub keys: Keys,
}

/// Segments of one lane that follow one another, at least one, and are drawn as one mark.
#[derive(Clone, Copy)]
pub(crate) struct Gathered {
    pub first: Segment,
    pub span: Span,
    /// How many there are.
    pub count: u64,
    /// For how long a task ran.
    pub ran: Part,
    /// For how long the sibling was forced idle.
    pub forced: Part,
    /// For how long it was offline, in ns.
    pub offline: u64,
    /// For how long it had a pending reschedule, in ns.
    pub pending: u64,
}

impl Keys {
    fn and(self, key: u64) -> Keys {
        match self {
            Keys::Unknown => Keys::One(key),
            Keys::One(other) if other == key => self,
            Keys::One(_) => Keys::Several,
            Keys::Several => Keys::Several,
        }
    }
}

impl Part {
    fn none() -> Part {
        Part {
            time: 0,
            keys: Keys::Unknown,
        }
    }

    fn add(&mut self, time: u64, key: u64) {
        self.time = self.time.saturating_add(time);
        self.keys = self.keys.and(key);
    }
}

impl Gathered {
    /// What one segment comes to.
    pub(crate) fn of(segment: &Segment, shades: &Shades) -> Gathered {
        let mut gathered = Gathered {
            first: *segment,
            span: Span::of_segment(segment),
            count: 0,
            ran: Part::none(),
            forced: Part::none(),
            offline: 0,
            pending: 0,
        };
        gathered.add(segment, shades);
        gathered
    }

    /// Takes in the next segment of the lane.
    pub(crate) fn add(&mut self, segment: &Segment, shades: &Shades) {
        let span = Span::of_segment(segment);
        let time = span.length();
        self.span = self.span.up_to(span);
        self.count = self.count.saturating_add(1);
        if segment.pending {
            self.pending = self.pending.saturating_add(time);
        }
        match segment.doing {
            Doing::Offline => self.offline = self.offline.saturating_add(time),
            Doing::Runs(_) => self.ran.add(time, shades.key(segment)),
            Doing::Idles => {}
            Doing::ForcedIdle(cookie) => self.forced.add(time, cookie),
        }
    }
}
