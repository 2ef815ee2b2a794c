//! Which of two offers is higher, and the lead of many: the order across siblings, as the kernel has it.

ghost use Rattle.std.specs.Prelude.{◌≡◌, ℕ, ◌<◌, length, All, List, [], ◌∷◌, Option, Some, None, position, slice_index_or};
ghost use Rattle.cs_types.specs.declared.task.Task.{Task};
ghost use Rattle.cs_types.specs.Order.{foremost, outranks};
ghost use Rattle.sibling_priority.specs.Offers.{is_higher_offer, is_highest, standing_of, IsInRange, AreOffersOf};

use crate::offer::Offer;
use crate::standing::{Standing, rank_across};
use cs_types::Queued;

/// How an offer stands. Nothing reads the rank of the stop task and of idle.
fn standing_of(offer: &Offer) -> Standing
    requires { IsInRange offer.now }
    ensures { result ≡ standing_of offer.now }
{
    let rank = match offer.class {
        Queued::DEADLINE | Queued::REAL_TIME | Queued::FAIR => {
            rank_across(offer.class, offer.rank, offer.snapshot)
        }
        _ => 0,
    };
    Standing {
        class: u32::from(offer.class),
        rank,
    }
}

/// Whether one offer is higher than another; every pair that this leaves open is a tie (`prio_less`
/// in kernel/sched/core.c with its sides swapped, and `cfs_prio_less` in kernel/sched/fair.c for
/// two fair tasks). Two equal deadlines tie here, while `prio_less` answers of each that it is
/// lower.
pub fn higher(a: &Offer, b: &Offer) -> bool
    requires a_in_range { IsInRange a.now }
    requires b_in_range { IsInRange b.now }
    ensures order { result ≡ is_higher_offer a.now b.now }

    // The offers of two first tasks stand in the order of those tasks.
    ensures model { (snapshot : ℕ → ℕ) (first second : Option Task) →
        AreOffersOf snapshot (first ∷ second ∷ []) (a.now ∷ b.now ∷ []) →
        result ≡ outranks snapshot first second }
{
    standing_of(a).is_above(&standing_of(b))
}

/// The index of the lead: the first offer than which no other is higher (`max` in `pick_next_task`,
/// kernel/sched/core.c; there the last of equal deadlines leads).
pub fn lead(offers: &[Offer]) -> usize
    requires some { 0 < length offers.now }
    requires in_range { All IsInRange offers.now }
    ensures index { result < length offers.now }
    ensures first { position (is_highest offers.now) offers.now ≡ Some result }

    // The lead of the siblings' offers is at the index of the lead of their first tasks.
    ensures model { (snapshot : ℕ → ℕ) (firsts : List (Option Task)) →
        AreOffersOf snapshot firsts offers.now →
        foremost (outranks snapshot) firsts ≡ Some (slice_index_or firsts result None) }
{
    let mut best = 0;
    for index in 1..offers.len() {
        if higher(&offers[index], &offers[best]) {
            best = index;
        }
    }
    best
}
