//! The segments of a run, as it goes on.

ghost use Rattle.std.specs.Prelude.{◌≡◌, ◌<◌, IfOk, OnOk, [], length, replicate};
ghost use Rattle.run_segments.specs.Kept as kept;

use crate::segments::Segment;
use std::alloc::{AllocError, Global};
use std::marker::Model;

/// The segments so far. It takes memory for each segment that begins, and none for one that goes on.
#[derive(Drop)]
pub(crate) struct KeptSegments {
    segments: Vec<Segment>,
    /// The place of each sibling's last segment, 0 if it has none yet.
    places: Vec<usize>,
}

impl Model for KeptSegments {
    ghost use Rattle.run_segments.specs.Kept.{Kept};

    ghost Value = { Kept };

    ghost view = { λ kept. record { segments = kept.segments.items; places = kept.places.items } };
}

/// Whether a segment goes on with the next one of its sibling.
fn goes_on_with(segment: Segment, next: Segment) -> bool
    ensures { result ≡ kept.goes_on_with segment next }
{
    segment.cpu == next.cpu
        && segment.to == next.from
        && segment.pid == next.pid
        && segment.doing == next.doing
        && segment.pending == next.pending
}

impl KeptSegments {
    /// The segments of a core with this number of siblings, before the first advance.
    pub(crate) fn none(alloc: Global, siblings: u8) -> Result<Self, AllocError>
        ensures { IfOk result
            (λ none. none ≡ record { segments = []; places = replicate siblings 0 }) }
    {
        Ok(KeptSegments {
            segments: Vec::new(alloc),
            places: vec![in alloc; 0; usize::from(siblings)]?,
        })
    }

    /// Takes in the next segment of a sibling, for as long as that is known.
    pub(crate) fn keep(&mut self, next: Segment) -> Result<(), AllocError>
        requires { next.cpu < length self.old.places }
        ensures { OnOk result (self.new ≡ kept.kept_with next self.old) }
    {
        let place = self.places[usize::from(next.cpu)];
        if place < self.segments.len() && goes_on_with(self.segments[place], next) {
            self.segments[place].to = next.to;
        } else {
            self.places[usize::from(next.cpu)] = self.segments.len();
            self.segments.push(next)?;
        }
        Ok(())
    }

    /// All of them.
    pub(crate) fn all(self) -> Vec<Segment>
        ensures { result.items ≡ self.segments }
    {
        let KeptSegments { segments, .. } = self;
        segments
    }
}
