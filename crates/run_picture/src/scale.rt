//! Where a moment lies on the page. All places and lengths are in thousandths of a unit of the page.

ghost use Rattle.std.specs.Prelude.{◌^◌, ◌≤◌};

use crate::frame::{LANES_WIDTH, LEFT};
use crate::span::Span;

/// A unit of the page: about a pixel.
pub(crate) const UNIT: u64 = 1_000;

/// Where something is drawn from, and how wide.
#[derive(Clone, Copy)]
pub(crate) struct Strip {
    pub place: u64,
    pub width: u64,
}

/// The scale of a run's time.
#[derive(Clone, Copy)]
pub(crate) struct Scale {
    /// All time, in ns.
    total: u64,
    /// How narrow a segment may be and still get a mark of its own.
    grain: u64,
    ghost small: { grain ≤ 2 ^ 20 },
}

/// Which part of a whole this is, if the whole counts as `counts`, rounded down. Nothing of a whole that is nothing.
pub(crate) fn part_of(part: u64, whole: u64, counts: u64) -> u64
    ensures { result ≤ counts }
{
    if whole == 0 {
        return 0;
    }
    let place = u128::from(part) * u128::from(counts) / u128::from(whole);
    u64::try_from(place).unwrap_or(counts).min(counts)
}

impl Scale {
    /// The scale of a run of a core with this number of siblings. The more lanes there are, the more is joined in each,
    /// so that a picture has a bound: what is wider than a unit, and than two fifths of a unit for each lane, has a
    /// mark of its own.
    pub(crate) fn of(total: u64, siblings: u8) -> Scale {
        Scale {
            total,
            grain: UNIT.max(u64::from(siblings) * (2 * UNIT / 5)),
        }
    }

    /// The place of a moment, from the left edge of the page.
    pub(crate) fn place(self, clock: u64) -> u64 {
        LEFT * UNIT + part_of(clock, self.total, LANES_WIDTH * UNIT)
    }

    /// Where a span is drawn, by its width.
    pub(crate) fn strip(self, span: Span) -> Strip {
        let place = self.place(span.from);
        Strip {
            place,
            width: self.place(span.to).saturating_sub(place),
        }
    }

    /// Where a span is drawn that must be seen: a unit wide at least. What it is widened by lies before it, since what
    /// comes after it is drawn over it.
    pub(crate) fn seen_strip(self, span: Span) -> Strip {
        let width = self.strip(span).width.max(UNIT);
        Strip {
            place: self.place(span.to).saturating_sub(width),
            width,
        }
    }

    /// Whether a span is wide enough for a mark of its own.
    pub(crate) fn is_wide(self, span: Span) -> bool {
        self.strip(span).width > self.grain
    }

    /// Whether a later span is drawn as one with this one: if there is little between them, and this one is not broad.
    pub(crate) fn joins(self, earlier: Span, later: Span) -> bool {
        let between = self
            .place(later.from)
            .saturating_sub(self.place(earlier.to));
        between <= self.grain && self.strip(earlier).width <= 2 * self.grain
    }

    /// What this time is of all time, in thousandths.
    pub(crate) fn share(self, time: u64) -> u64 {
        part_of(time, self.total, 1_000)
    }
}
