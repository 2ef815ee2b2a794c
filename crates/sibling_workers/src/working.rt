//! Passes of a lock, each in a worker of its own.

ghost use Rattle.std.specs.Prelude.{◌≡◌, ℕ, ◌<◌, All, length, slice_index_or};
ghost use Rattle.std.specs.List.{AllZip};
ghost use Rattle.core_lock.specs.Passes.{PassState};
ghost use Rattle.sibling_workers.specs.Working.{HasWorked};

use core_lock::{Pass, Shared, Spent};
use cs_outside::Gate;
use cs_types::{List, Room};
use std::sync::Wait;
use std::thread;
use std::thread::Threads;

/// Passes the gate and makes a step of the pass, until it has made all its steps.
fn make_all<W: Wait, R: Room, G: Gate>(
    rt: &W,
    shared: &Shared<R>,
    gate: &G,
    number: u32,
    pass: &mut Pass<R>,
)
    requires lock { pass.old.lock ≡ shared.now }
    ensures worked { HasWorked pass.old pass.new }
{
    let mut turn: u64 = 0;
    loop {
        gate.pass(number, turn);
        if let Err(Spent) = shared.call(rt, pass) {
            return;
        }
        turn = turn.wrapping_add(1);
    }
}

/// Makes all steps of the passes, each pass in a worker of its own.
fn work_each<T: Threads + Wait + Sync, R: Room + Send, G: Gate + Sync>(
    rt: &T,
    shared: &Shared<R>,
    passes: &mut [Pass<R>],
    gate: &G,
)
    requires lock { All (λ pass. pass.lock ≡ shared.now) passes.old }
    ensures worked { (place : ℕ) (d : PassState) → place < length passes.old →
        HasWorked (slice_index_or passes.old place d) (slice_index_or passes.new place d) }
{
    let workers = passes.len().max(1);
    thread::for_each_mut(
        rt,
        passes,
        workers,
        &|place: usize, pass: &mut Pass<R>|
            requires { pass.old.lock ≡ shared.now }
            ensures { HasWorked pass.old pass.new }
        {
            make_all(
                rt,
                shared,
                gate,
                u32::try_from(place).unwrap_or(u32::MAX),
                pass,
            )
        },
    );
}

/// Makes all steps of the passes, each pass in a worker of its own. Before each step a worker passes the gate, even
/// before the call that finds the pass spent. Its number there is the place of its pass in the list, from 0.
///
/// The passes are of this lock. Afterwards each still is, stands at its place with its list, and has made all its
/// steps. It takes no memory.
pub fn work<T: Threads + Wait + Sync, R: Room + Send, G: Gate + Sync>(
    rt: &T,
    shared: &Shared<R>,
    passes: &mut List<Pass<R>>,
    gate: &G,
)
    requires lock { All (λ pass. pass.lock ≡ shared.now) passes.old }
    ensures worked { AllZip HasWorked passes.old passes.new }
{
    work_each(rt, shared, passes.items_mut(), gate);
}
