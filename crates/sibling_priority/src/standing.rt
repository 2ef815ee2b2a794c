//! How a first task stands among those of all siblings, as two numbers, and which of two stands above the other. It is
//! apart since a selection keeps this much of a first and no more.

ghost use Rattle.std.specs.Prelude.{◌≡◌, ◌^◌, ◌<◌};
ghost use Rattle.cs_types.specs.Order.{fair_class};
ghost use Rattle.sibling_priority.specs.Offers.{rank_across, is_above};

use cs_types::Queued;

/// Above each snapshot, in ns: it is added before one is taken off.
const ABOVE_SNAPSHOTS: u128 = 1 << 127;

/// How a first task stands among those of all siblings, or idle.
#[derive(Clone, Copy)]
pub struct Standing {
    /// Its class, the smaller the higher.
    pub class: u32,
    /// Its rank across siblings (`rank_across`), the smaller the higher. 0 if the class has no ranks.
    pub rank: u128,
}

impl Standing {
    /// Whether it stands above another: its class is higher, or both are of one class and its rank is.
    #[inline(always)]
    pub fn is_above(&self, other: &Standing) -> bool
        ensures { result ≡ is_above self.now other.now }
    {
        self.class < other.class || (self.class == other.class && self.rank < other.rank)
    }
}

/// The rank of a first task of this class and this rank among those of its class on all siblings, under the snapshot of
/// its own sibling in ns. That of a fair task is measured from its snapshot, as are all times that are compared across
/// siblings (`cfs_prio_less` in kernel/sched/fair.c).
#[inline(always)]
pub fn rank_across(class: u8, rank: u128, snapshot: u128) -> u128
    requires rank { class ≡ fair_class → rank < 2 ^ 127 }
    requires snapshot { class ≡ fair_class → snapshot < 2 ^ 127 }
    ensures { result ≡ rank_across snapshot class rank }
{
    if class == Queued::FAIR {
        rank + ABOVE_SNAPSHOTS - snapshot
    } else {
        rank
    }
}
