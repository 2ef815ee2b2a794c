//! How much a fair task weighs, and how fast its virtual time grows.

ghost use Rattle.std.specs.Prelude.{◌≡◌, ◌<◌, ◌≤◌};
ghost use Rattle.cs_types.specs.Scenario.{IsNice};
ghost use Rattle.cs_types.specs.Time.{weight_index, weight_of, growth};

/// The weights of the nice values from -20 to 19 (`sched_prio_to_weight`, kernel/sched/core.c).
const WEIGHTS: [u32; 40] = [
    88761, 71755, 56483, 46273, 36291, 29154, 23254, 18705, 14949, 11916, 9548, 7620, 6100, 4904,
    3906, 3121, 2501, 1991, 1586, 1277, 1024, 820, 655, 526, 423, 335, 272, 215, 172, 137, 110, 87,
    70, 56, 45, 36, 29, 23, 18, 15,
];

/// The index of a nice value among the weights.
fn weight_index(nice: i8) -> usize
    requires { IsNice nice }
    ensures index { result ≡ weight_index nice }
    ensures below { result < 40 }
{
    if nice < 0 {
        20 - usize::from(nice.unsigned_abs())
    } else {
        20 + usize::from(nice.unsigned_abs())
    }
}

/// The weight of a nice value, which is from -20 to 19: 88761 down to 15.
#[tactic(auto, unfolding(cs_types::specs::Time::weight_of))]
pub fn weight(nice: i8) -> u32
    requires { IsNice nice }
    ensures weight { result ≡ weight_of nice }
    ensures least { 15 ≤ result }
{
    WEIGHTS[weight_index(nice)]
}

/// How far the virtual time of a running fair task of this nice value, from -20 to 19, grows in
/// `delta` ns of the clock, rounded down, in ns (`calc_delta_fair`, kernel/sched/fair.c; that it is
/// exact is this project's rule).
#[tactic(auto, unfolding(cs_types::specs::Time::growth))]
pub fn grow(delta: u64, nice: i8) -> u128
    requires { IsNice nice }
    ensures { result ≡ growth delta nice }
{
    // If the product fits 64 bits, as it does for each advance of a scenario, so does its division.
    match delta.checked_mul(1024) {
        Some(scaled) => u128::from(scaled / u64::from(weight(nice))),
        None => u128::from(delta) * 1024 / u128::from(weight(nice)),
    }
}
