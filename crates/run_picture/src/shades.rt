//! What the tasks of a run are coloured by: their cookies, or their thread groups if no segment shows a cookie.

ghost use Rattle.std.specs.Prelude.{◌^◌, ◌<◌, ◌≤◌};

use crate::look::Look;
use cs_types::Cookie;
use run_segments::Segment;
use run_times::{By, Doing};

/// In how many columns the looks stand in the legend.
pub(crate) const COLUMNS: u64 = 6;

/// How many lines they take at most.
const MOST_LINES: u64 = 3;

/// How many cookies or groups the legend can show.
pub(crate) const MOST_LISTED: u64 = COLUMNS * MOST_LINES;

/// What the tasks of a run are coloured by.
#[derive(Clone, Copy)]
pub(crate) struct Shades {
    pub by: By,
    /// The least cookies, or thread groups, that the run shows, in rising order, and 0 after the last.
    pub listed: [u64; MOST_LISTED as usize],
}

/// The cookie that a segment shows, 0 for none.
fn cookie_of(segment: &Segment) -> Cookie {
    match segment.doing {
        Doing::Runs(cookie) => cookie,
        Doing::ForcedIdle(cookie) => cookie,
        Doing::Offline | Doing::Idles => 0,
    }
}

/// The cookie, or the thread group, that a segment shows, 0 for none.
fn shown_by(by: By, segment: &Segment) -> u64 {
    match by {
        By::Cookie => cookie_of(segment),
        By::Group => segment.group,
    }
}

/// The least one above this that a segment shows. `None` if there is none.
fn shown_above(by: By, segments: &[Segment], above: u64) -> Option<u64> {
    let mut least = None;
    for segment in segments {
        let key = shown_by(by, segment);
        if key > above {
            least = match least {
                Some(other) if other < key => Some(other),
                _ => Some(key),
            };
        }
    }
    least
}

impl Shades {
    /// Those of these segments, as many as the legend can show.
    pub(crate) fn of(segments: &[Segment]) -> Shades {
        let by = match shown_above(By::Cookie, segments, 0) {
            Some(_) => By::Cookie,
            None => By::Group,
        };
        let mut listed = [0; MOST_LISTED as usize];
        let mut last = 0;
        for number in 0..MOST_LISTED {
            let Some(key) = shown_above(by, segments, last) else {
                return Shades { by, listed };
            };
            listed[number as usize] = key;
            last = key;
        }
        Shades { by, listed }
    }

    /// What the task of a segment is coloured by: its cookie, or its thread group.
    pub(crate) fn key(&self, segment: &Segment) -> u64 {
        match (self.by, segment.doing) {
            (By::Cookie, Doing::Runs(cookie)) => cookie,
            (By::Group, Doing::Runs(_)) => segment.group,
            (_, Doing::Offline | Doing::Idles | Doing::ForcedIdle(_)) => 0,
        }
    }

    /// The look of that: a cookie's is by its number, and a group's by its place in the list if it is there.
    pub(crate) fn look(&self, key: u64) -> Look {
        if let By::Group = self.by {
            for place in 0..MOST_LISTED {
                if self.listed[place as usize] == key {
                    return Look::of(place + 1);
                }
            }
        }
        Look::of(key)
    }

    /// How many lines the list takes.
    pub(crate) fn lines(&self) -> u64
        ensures { result ≤ 3 }
    {
        for line in 0..MOST_LINES {
            if self.listed[(line * COLUMNS) as usize] == 0 {
                return line;
            }
        }
        MOST_LINES
    }
}
