//! What the tasks that run are told apart by.

ghost use Rattle.std.specs.Prelude.{◌≡◌, ◌≢◌, ℕ, ◌≤◌, length, AllPairs};
ghost use Rattle.cs_types.specs.Scenario.{IsPlayable};
ghost use Rattle.cs_types.specs.History.{fold_of};
ghost use Rattle.pair_times.specs.Pairs.{runs_key};
ghost use Rattle.pair_times.specs.Added.{has};

use arrayvec::ArrayVec;
use cs_types::{MOST_SIBLINGS, Room};
use run_times::{By, key_run};

/// The cookies, or the thread groups, of the tasks that online siblings run, each once.
pub(crate) fn keys_run<R: Room>(room: &R, by: By) -> ArrayVec<u64, MOST_SIBLINGS>
    requires { IsPlayable (R.opening room.now).scenario }
    ensures run { (key : ℕ) → has key result.items
        ≡ runs_key by (fold_of (R.opening room.now) (R.history room.now)) key }
    ensures distinct { AllPairs (λ key other. key ≢ other) result.items }
    ensures few { length result.items ≤ (R.opening room.now).scenario.siblings }
{
    let mut keys = ArrayVec::new();
    for cpu in 0..room.siblings() {
        if let Some(key) = key_run(room, by, cpu) {
            if !keys.contains(&key) {
                keys.push(key);
            }
        }
    }
    keys
}
