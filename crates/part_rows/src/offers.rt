//! The order across siblings: which of two offers is higher, and which of more leads.

ghost use Rattle.std.specs.Prelude.{All};
ghost use Rattle.sibling_priority.specs.Offers.{IsInRange};

use cs_types::{Policy, Queued};
use sibling_priority::{IDLE, Offer, higher, lead};

/// The offer of a real-time task.
fn real_time(rank: u128) -> Offer
    ensures { IsInRange result }
{
    Offer {
        class: Queued::REAL_TIME,
        rank,
        ..Offer::default()
    }
}

/// The offer of a sibling that runs idle.
fn idle() -> Offer
    ensures { IsInRange result }
{
    Offer {
        class: IDLE,
        ..Offer::default()
    }
}

#[test]
fn classes_from_the_highest(rt: HostRuntime) {
    let found = [
        Policy::Stop.class().number(),
        Policy::Deadline(1).class().number(),
        Policy::Fifo(1).class().number(),
        Policy::Rr(1).class().number(),
        Policy::Fair(0).class().number(),
    ];
    assert!(rt; found == [0, 1, 2, 2, 3]);
}

#[test]
fn higher_offers(rt: HostRuntime) {
    let found = [
        higher(&real_time(10), &real_time(20)),
        higher(&real_time(20), &real_time(20)),
        higher(&real_time(99), &idle()),
    ];
    assert!(rt; found == [true, false, true]);
}

/// Two offers, the second one higher.
fn second_higher() -> [Offer; 2]
    ensures { All IsInRange result }
{
    [real_time(20), real_time(10)]
}

#[test]
fn highest_offer_leads(rt: HostRuntime) {
    assert!(rt; lead(&second_higher()) == 1);
}
