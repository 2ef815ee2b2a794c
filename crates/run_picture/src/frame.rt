//! Where things stand on the page, from its top to its foot. All places are in units of the page.

ghost use Rattle.std.specs.Prelude.{◌^◌, ◌<◌, ◌≤◌};

use cs_types::Cpu;

/// Where the lanes begin, from the left edge.
pub(crate) const LEFT: u64 = 76;

/// Where the names of the lanes end.
pub(crate) const NAMES_END: u64 = LEFT - 10;

/// How wide the lanes are.
pub(crate) const LANES_WIDTH: u64 = 1_200;

/// Where the lanes end.
pub(crate) const RIGHT: u64 = LEFT + LANES_WIDTH;

/// Where the shares of a lane begin.
pub(crate) const SHARES_LEFT: u64 = RIGHT + 8;

/// How wide the page is.
pub(crate) const PAGE_WIDTH: u64 = RIGHT + 134;

/// How high a lane is.
pub(crate) const LANE_HEIGHT: u64 = 30;

/// How far the start of a lane is from that of the next.
const LANE_STEP: u64 = 54;

/// Where the row of exposure begins, and how high it is.
pub(crate) const EXPOSED_TOP: u64 = 66;

pub(crate) const EXPOSED_HEIGHT: u64 = 18;

/// Where the row of thread groups side by side begins, and how high it is.
pub(crate) const MIXED_TOP: u64 = EXPOSED_TOP + EXPOSED_HEIGHT + 6;

pub(crate) const MIXED_HEIGHT: u64 = 10;

/// How far below its begin a lane's row of waiting tasks begins.
pub(crate) const WAITING_TOP: u64 = LANE_HEIGHT + 6;

/// How high a mark of one waiting task is, in thousandths of a unit, and how many are drawn at most.
pub(crate) const WAITING_HEIGHT: u64 = 1_500;

pub(crate) const WAITING_MOST: u64 = 4;

/// How high the marks of events are.
pub(crate) const EVENTS_HEIGHT: u64 = 9;

/// How far the outline of a pending reschedule stands out of the lane.
pub(crate) const PENDING_RIM: u64 = 4;

/// How high the bar above a lane is that tells of pending reschedules.
pub(crate) const PENDING_BAR: u64 = 7;

/// Where the first lane begins.
const LANES_TOP: u64 = MIXED_TOP + MIXED_HEIGHT + 14;

/// How high a line of the legend is.
pub(crate) const LEGEND_STEP: u64 = 23;

/// The frame of a page with this number of lanes.
#[derive(Clone, Copy)]
pub(crate) struct Frame {
    lanes: u8,
}

impl Frame {
    pub(crate) fn of(siblings: u8) -> Frame {
        Frame { lanes: siblings }
    }

    /// Where a lane begins.
    pub(crate) fn lane(self, cpu: Cpu) -> u64
        ensures above { 64 ≤ result }
        ensures small { result < 2 ^ 20 }
    {
        LANES_TOP + u64::from(cpu) * LANE_STEP
    }

    /// How high the rows above the lanes and all lanes are.
    pub(crate) fn lanes_height(self) -> u64
        ensures { result < 2 ^ 20 }
    {
        self.events() - EXPOSED_TOP
    }

    /// Where the row of events begins.
    pub(crate) fn events(self) -> u64
        ensures above { 84 ≤ result }
        ensures small { result < 2 ^ 20 }
    {
        LANES_TOP + u64::from(self.lanes) * LANE_STEP
    }

    /// Where the time axis is.
    pub(crate) fn axis(self) -> u64
        ensures { result < 2 ^ 21 }
    {
        self.events() + 20
    }

    /// Where the legend begins.
    pub(crate) fn legend(self) -> u64
        ensures { result < 2 ^ 22 }
    {
        self.axis() + 52
    }

    /// How high the page is, with this number of lines in the legend.
    pub(crate) fn height(self, legend_lines: u64) -> u64
        requires { legend_lines < 2 ^ 32 }
    {
        self.legend() + legend_lines * LEGEND_STEP + 12
    }
}
