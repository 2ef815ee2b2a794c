//! What an advance of the clock and a tick of a sibling's timer do. It is a file of its own since these
//! alone move time.

ghost use Rattle.std.specs.Prelude.{if◌then◌else◌, ◌≡◌, ℕ, ◌+◌, ◌*◌, ◌^◌, ◌<◌, max, map, length, All, find, Some};
ghost use Rattle.cs_types.specs.declared.task.Task.{Task as SomeTask};
ghost use Rattle.cs_types.specs.Room.{has_pid};
ghost use Rattle.cs_types.specs.Time as time;
ghost use Rattle.cs_types.specs.Time.{grown, with_leasts, has_used_slice, rotates, is_overtaken, is_to_yield, asks_at_tick, begin_slice};
ghost use Rattle.core_lanes.specs.Lanes.{Beside, lane_state, room_of, Agree, AgreesAt};
ghost use Rattle.core_lanes.specs.Changes.{Changes};
ghost use Rattle.core_lanes.specs.Comparisons.{ComparesFor};
ghost use Rattle.core_clock.specs.Moments.{MayAsk, MayBeginSlice, AreTests, MayTick, Ticks, Advances};
ghost use Rattle.core_clock.specs.Time.{MayAdvance, MayGrow, CanGrow, with_grown, with_ages};

use core_lanes::{Core, SiblingQueue, charge, is_fair, task_of};
use cs_types::{Cpu, Pid, Policy, Steps, Task};
use fair_queue::grow;
use std::sync::ledger::Ledger;
use task_table::TaskTable;

/// The slice of an RR task, in ns (`RR_TIMESLICE`, which the kernel counts in ticks).
const SLICE: u64 = 100_000_000;

/// How long a fair task that is alone may run while a sibling is forced idle, in ns.
const PATIENCE: u64 = 6_000_000;

/// The task that the sibling runs, if one, is `delta` ns later: an RR task used its slice, and the virtual time of a
/// fair one grew (`update_curr`).
#[inline(always)]
fn grow_on<Q: SiblingQueue, L: Ledger>(
    core: &mut Core<Q>,
    table: &mut TaskTable,
    cpu: Cpu,
    delta: u64,
    comparisons: &mut Steps<L>,
)
    requires at { AgreesAt cpu (core.old, table.old) }
    requires can { CanGrow delta table.old.tasks }
    ensures changes { Changes (core.old, table.old) (core.new, table.new) (with_grown cpu delta) }
    ensures counted { ComparesFor 2 (core.old, table.old) comparisons.old comparisons.new }
{
    let Some(task) = core.runner(table, cpu) else {
        return;
    };
    let pid = task.spec.pid;
    match task.spec.policy {
        Policy::Rr(_) => {
            let used = task.used + delta;
            table.set_used(pid, used);
        }
        Policy::Fair(nice) => {
            let vtime = task.vtime + grow(delta, nice);
            core.set_vtime_in_queue(table, task, vtime, comparisons);
            table.set_vtime(pid, vtime);
        }
        _ => {}
    }
}

/// The running tasks grow by `delta` ns. No two siblings run one task.
fn grow_tasks<Q: SiblingQueue, L: Ledger>(
    core: &mut Core<Q>,
    table: &mut TaskTable,
    delta: u64,
    comparisons: &mut Steps<L>,
)
    requires { MayGrow delta (core.old, table.old) }
    ensures changes { Changes (core.old, table.old) (core.new, table.new)
        (λ room. record room { tasks = map (grown room delta) room.tasks }) }
    ensures counted { ComparesFor (2 * length core.old.lanes.items)
        (core.old, table.old) comparisons.old comparisons.new }
{
    for cpu in 0..core.lanes.len() {
        grow_on(core, table, cpu as u8, delta, comparisons);
    }
}

/// The least virtual time rises to the smallest one, if it is below that. Mostly it is not, and then nothing is
/// written.
fn raise(least: &mut u128, smallest: u128)
    ensures { least.new ≡ max least.old smallest }
{
    if *least < smallest {
        *least = smallest;
    }
}

/// The siblings have run `delta` ns longer, and the least virtual time of each becomes the greater of itself
/// and the smallest of the fair tasks that are queued there.
fn renew_siblings<Q: SiblingQueue, L: Ledger>(
    core: &mut Core<Q>,
    table: &TaskTable,
    delta: u64,
    comparisons: &mut Steps<L>,
)
    requires agree { Agree (core.old, table.now) }
    requires ran { All (λ sibling. sibling.ran + delta < 2 ^ 64)
        (map lane_state core.old.lanes.items) }
    ensures changes { Changes (core.old, table.now) (core.new, table.now)
        (λ room. with_leasts (with_ages delta room)) }
    ensures counted { ComparesFor (length core.old.lanes.items)
        (core.old, table.now) comparisons.old comparisons.new }
{
    for cpu in 0..core.lanes.len() {
        let lane = &mut core.lanes[cpu];
        lane.ran += delta;
        if let Some(smallest) = lane.queue.smallest_vtime(table, cpu as u8, comparisons) {
            raise(&mut lane.least, smallest);
        }
    }
}

/// The clock goes on by `delta` ns. The result is the new clock, in ns.
pub fn advance<Q: SiblingQueue, L: Ledger>(
    core: &mut Core<Q>,
    table: &mut TaskTable,
    delta: u64,
    now: u64,
    comparisons: &mut Steps<L>,
) -> u64
    requires { MayAdvance now delta (core.old, table.old) }
    ensures advances { Advances now delta (core.old, table.old) (core.new, table.new) result }
    ensures counted { ComparesFor (3 * length core.old.lanes.items)
        (core.old, table.old) comparisons.old comparisons.new }
{
    grow_tasks(core, table, delta, comparisons);
    renew_siblings(core, table, delta, comparisons);
    now + delta
}

/// Whether an RR task has used its slice.
fn has_used_slice(task: &Task) -> bool
    ensures { result ≡ has_used_slice task.now }
{
    match task.spec.policy {
        Policy::Rr(_) => task.used >= SLICE,
        _ => false,
    }
}

/// Whether the running task goes after the others of its priority.
fn rotates<Q: SiblingQueue, L: Ledger>(
    core: &Core<Q>,
    table: &TaskTable,
    cpu: Cpu,
    task: &Task,
    comparisons: &mut Steps<L>,
) -> bool
    requires { MayAsk cpu (core.now, table.now) task.now }
    ensures rotates { (beside : Beside) →
        result ≡ rotates (room_of beside (core.now, table.now)) cpu task.now }
    ensures counted { ComparesFor 1 (core.now, table.now) comparisons.old comparisons.new }
{
    has_used_slice(task)
        && core.lanes[cpu as usize]
            .queue
            .has_peer(task, table, cpu, comparisons)
}

/// Whether another fair task on the sibling has a smaller virtual time than the running fair one.
fn is_overtaken<Q: SiblingQueue, L: Ledger>(
    core: &Core<Q>,
    table: &TaskTable,
    cpu: Cpu,
    task: &Task,
    comparisons: &mut Steps<L>,
) -> bool
    requires { MayAsk cpu (core.now, table.now) task.now }
    ensures overtaken { (beside : Beside) →
        result ≡ is_overtaken (room_of beside (core.now, table.now)) cpu task.now }
    ensures counted { ComparesFor 1 (core.now, table.now) comparisons.old comparisons.new }
{
    if !is_fair(task) {
        return false;
    }
    match core.lanes[cpu as usize]
        .queue
        .smallest_vtime(table, cpu, comparisons)
    {
        Some(smallest) => smallest < task.vtime,
        None => false,
    }
}

/// Whether the running task is to yield: it is fair, no other fair one is queued beside it, and it has run
/// for so long while a sibling is forced idle.
fn is_to_yield<Q: SiblingQueue, L: Ledger>(
    core: &Core<Q>,
    table: &TaskTable,
    cpu: Cpu,
    task: &Task,
    comparisons: &mut Steps<L>,
) -> bool
    requires { MayAsk cpu (core.now, table.now) task.now }
    ensures yields { (beside : Beside) →
        result ≡ is_to_yield (room_of beside (core.now, table.now)) cpu task.now }
    ensures counted { ComparesFor 1 (core.now, table.now) comparisons.old comparisons.new }
{
    let lane = &core.lanes[cpu as usize];
    is_fair(task)
        && core.account.count() != 0
        && lane.ran >= PATIENCE
        && !lane.queue.has_peer(task, table, cpu, comparisons)
}

/// Whether the tick asks for a reschedule. The test says whether the running task goes after the others
/// of its priority.
fn asks_at_tick<Q: SiblingQueue, L: Ledger>(
    core: &Core<Q>,
    table: &TaskTable,
    cpu: Cpu,
    task: &Task,
    rotates: bool,
    comparisons: &mut Steps<L>,
) -> bool
    requires may { MayAsk cpu (core.now, table.now) task.now }
    requires rotates { (beside : Beside) →
        rotates ≡ time.rotates (room_of beside (core.now, table.now)) cpu task.now }
    ensures asks { (beside : Beside) →
        result ≡ asks_at_tick (room_of beside (core.now, table.now)) cpu task.now }
    ensures counted { ComparesFor (if rotates then 0 else 2)
        (core.now, table.now) comparisons.old comparisons.new }
{
    if rotates {
        return true;
    }
    is_overtaken(core, table, cpu, task, comparisons)
        || is_to_yield(core, table, cpu, task, comparisons)
}

/// The task with the pid, if it is an RR one that has used its slice, begins a new one, with the next stamp if it goes
/// after the others of its priority.
fn begin_slice<Q: SiblingQueue, L: Ledger>(
    core: &mut Core<Q>,
    table: &mut TaskTable,
    pid: Pid,
    used: bool,
    rotates: bool,
    comparisons: &mut Steps<L>,
)
    requires { MayBeginSlice pid (core.old, table.old) }
    ensures changes { (cpu : ℕ) (task : SomeTask) → find (has_pid pid) table.old.tasks ≡ Some task →
        AreTests cpu (core.old, table.old) task used rotates →
        Changes (core.old, table.old) (core.new, table.new) (λ room. begin_slice room cpu task) }
    ensures counted { ComparesFor (if rotates then 2 else 0)
        (core.old, table.old) comparisons.old comparisons.new }
{
    if rotates {
        let task = task_of(table, pid).unwrap();
        let stamp = core.next_stamp;
        core.next_stamp += 1;
        let last = Task {
            used: 0,
            stamp,
            ..task
        };
        core.change(table, last, comparisons);
    } else if used {
        table.set_used(pid, 0);
    }
}

/// The timer of the sibling, which is online, ticks. The open interval is charged first. The result says
/// whether the tick asks for a reschedule.
pub fn tick<Q: SiblingQueue, L: Ledger>(
    core: &mut Core<Q>,
    table: &mut TaskTable,
    cpu: Cpu,
    now: u64,
    comparisons: &mut Steps<L>,
) -> bool
    requires { MayTick now cpu (core.old, table.old) }
    ensures ticks { Ticks now (core.old, table.old) (core.new, table.new) cpu result }
    ensures counted { ComparesFor 3 (core.old, table.old) comparisons.old comparisons.new }
{
    charge(core, table, now);
    let Some(task) = core.runner(table, cpu) else {
        return false;
    };
    let pid = task.spec.pid;
    let used = has_used_slice(task);
    let rotates = rotates(core, table, cpu, task, comparisons);
    let asks = asks_at_tick(core, table, cpu, task, rotates, comparisons);
    begin_slice(core, table, pid, used, rotates, comparisons);
    core.flag(cpu, asks);
    asks
}
