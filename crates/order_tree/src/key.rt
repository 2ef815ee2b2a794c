//! The keys of the tree.

ghost use Rattle.std.specs.Prelude.{◌≡◌};
ghost use Rattle.std.specs.Ordering.{is_lt};
ghost use Rattle.order_tree.specs.Order.{key_cmp, start_of};

use std::cmp::Ordering;

/// A key. Keys compare by group, then by class, then by rank, then by stamp.
#[derive(Clone, Copy, PartialEq, Eq, PartialOrd, Ord)]
pub struct Key {
    /// What a holder sorts by first: a cookie, or 0 for all.
    pub group: u64,
    /// A scheduling class, the smaller the higher.
    pub class: u8,
    /// A rank in the class, the smaller the higher.
    pub rank: u128,
    /// The stamp of an enqueue. The smaller is the earlier.
    pub stamp: u64,
}

impl Key {
    /// What a node holds that stands for no key.
    pub const BLANK: Key = Key {
        group: 0,
        class: 0,
        rank: 0,
        stamp: 0,
    };

    /// The least key of a group.
    #[inline(always)]
    pub fn start_of(group: u64) -> Key
        ensures { result ≡ start_of group }
    {
        Key {
            group,
            class: 0,
            rank: 0,
            stamp: 0,
        }
    }

    /// Writes another key over it. It writes the parts alone, and not the bytes between them.
    #[inline(always)]
    pub fn set(&mut self, other: &Key)
        ensures { self.new ≡ other.now }
    {
        self.group = other.group;
        self.class = other.class;
        self.rank = other.rank;
        self.stamp = other.stamp;
    }

    /// Whether it stands before the other.
    #[inline(always)]
    pub fn is_below(&self, other: &Key) -> bool
        ensures { result ≡ is_lt (key_cmp self.now other.now) }
    {
        self.compare(other).is_lt()
    }

    /// How it compares with the other. It says what `cmp` says, in the fewest tests: a walk asks it at each step.
    #[inline(always)]
    pub fn compare(&self, other: &Key) -> Ordering
        ensures { result ≡ key_cmp self.now other.now }
    {
        if self.group != other.group {
            return self.group.cmp(&other.group);
        }
        if self.class != other.class {
            return self.class.cmp(&other.class);
        }
        if self.rank != other.rank {
            return self.rank.cmp(&other.rank);
        }
        self.stamp.cmp(&other.stamp)
    }
}
