//! What each event does to the state.

ghost use Rattle.std.specs.Prelude.{◌≡◌, ◌+◌, ◌<◌, length};
ghost use Rattle.cs_types.specs.declared.reply.Pick.{Pick};
ghost use Rattle.cs_types.specs.Step.{child_at_home, requeue, with_policy};
ghost use Rattle.task_table.specs.Table.{Table};
ghost use Rattle.core_lanes.specs.Lanes.{Beside, room_of};
ghost use Rattle.core_clock.specs.Moments.{MayQueue, TouchesAt};
ghost use Rattle.cookie_steal.specs.Tries.{MayTry, reply_of as steal_reply};
ghost use Rattle.cpu_hotplug.specs.Hotplugs.{reply_of as hotplug_reply};
ghost use Rattle.core_pick.specs.Comparisons.{ComparesForSchedule};
ghost use Rattle.core_tasks.specs.Steps.{Makes};
ghost use Rattle.core_lanes.specs.Comparisons.{ComparesFor};
ghost use Rattle.core_events.specs.Ready.{IsReady, IsReadyAt, IsReadyFor};
ghost use Rattle.core_events.specs.Comparisons.{ComparesForEvent};
ghost use Rattle.core_events.specs.Tried.{AnswersTry};

use cookie_steal::{Try, try_steal};
use core_clock::{online_home, rehome, wake_at_home};
use core_lanes::{Core, SiblingQueue, charge, task_of};
use core_pick::{pick_and_balance, schedule};
use core_tasks::State;
use cpu_hotplug::{Hotplug, is_smt_off, offline, online};
use cs_outside::Guard;
use cs_types::{Ask, Cpu, Errno, Event, Pid, Policy, Reply, Steps, Task, TaskSpec};
use fork_inherit::{ForkFault, has_threads};
use std::sync::ledger::Ledger;
use task_table::TaskTable;

/// The task with this policy. It has used nothing of its slice.
fn with_policy(policy: Policy, task: Task) -> Task
    ensures { result ≡ with_policy policy task }
{
    Task {
        spec: TaskSpec {
            policy,
            ..task.spec
        },
        used: 0,
        ..task
    }
}

/// What is answered to a try to steal.
fn steal_reply(made: Try) -> Reply
    ensures { result ≡ steal_reply made }
{
    match made {
        Try::Stole { pid, from } => Reply::Stole { pid, from },
        Try::Missed(from) => Reply::Missed(from),
        Try::NoBalance => Reply::Nothing,
    }
}

/// What is answered when a sibling is to leave or to come back.
fn hotplug_reply(made: Hotplug) -> Reply
    ensures { result ≡ hotplug_reply made }
{
    match made {
        Hotplug::Done => Reply::Done,
        Hotplug::Busy => Reply::Refused(Errno::Ebusy),
        Hotplug::Already => Reply::Already,
    }
}

/// The child is at home where its caller is, or on another sibling if that is offline, and has the least virtual time
/// of its queue, whatever its class.
fn child_at_home<Q: SiblingQueue>(core: &Core<Q>, child: Task) -> Task
    requires { child.home < length core.now.lanes.items }
    ensures child_at_home { (beside : Beside) (table : Table) →
        result ≡ child_at_home (room_of beside (core.now, table)) child }
    ensures within { result.home < length core.now.lanes.items }
{
    let home = online_home(core, child.home);
    Task {
        home,
        vtime: core.lanes[home as usize].least,
        ..child
    }
}

/// A queued task leaves its queue and enters it again, and its sibling becomes pending if it runs.
fn requeue<Q: SiblingQueue, L: Ledger>(
    core: &mut Core<Q>,
    table: &mut TaskTable,
    task: Task,
    now: u64,
    comparisons: &mut Steps<L>,
)
    requires { MayQueue now 2 (core.old, table.old) task }
    ensures touches { TouchesAt now 2 (core.old, table.old) (core.new, table.new)
        (λ room. requeue room task) }
    ensures counted { ComparesFor 3 (core.old, table.old) comparisons.old comparisons.new }
{
    let runs = core.lanes[task.home as usize].runs(task.spec.pid);
    core.dequeue(table, task, comparisons);
    wake_at_home(core, table, task, now, comparisons);
    core.flag(task.home, runs);
}

/// The sibling schedules.
#[inline(never)]
fn resched<Q: SiblingQueue, G: Guard, L: Ledger>(
    state: &mut State<Q, G>,
    cpu: Cpu,
    comparisons: &mut Steps<L>,
) -> Reply
    requires { IsReadyAt cpu state.old }
    ensures makes { Makes state.old state.new (Event.Resched cpu) result }
    ensures scheduled { ComparesForSchedule (state.old.core, state.old.tasks)
        comparisons.old comparisons.new }
    ensures counted { ComparesForEvent state.old (Event.Resched cpu)
        comparisons.old comparisons.new }
{
    match schedule(
        &mut state.core,
        &mut state.tasks,
        cpu,
        state.clock,
        comparisons,
    ) {
        Some(pick) => Reply::Picked(pick),
        None => Reply::Offline,
    }
}

/// The sibling tries to steal. It is never a part of the turn, which mostly finds nothing to do and is to stay small.
#[inline(never)]
fn answer_try<Q: SiblingQueue, L: Ledger>(
    core: &mut Core<Q>,
    table: &mut TaskTable,
    cpu: Cpu,
    comparisons: &mut Steps<L>,
) -> Reply
    requires { MayTry cpu (core.old, table.old) }
    ensures tries { AnswersTry (core.old, table.old) (core.new, table.new) cpu result }
    ensures counted { ComparesFor (length table.old.tasks + 4)
        (core.old, table.old) comparisons.old comparisons.new }
{
    steal_reply(try_steal(core, table, cpu, comparisons))
}

/// A pending reschedule is taken. Else the sibling tries to steal, if it is to.
#[inline(always)]
fn turn<Q: SiblingQueue, G: Guard, L: Ledger>(
    state: &mut State<Q, G>,
    cpu: Cpu,
    comparisons: &mut Steps<L>,
) -> Reply
    requires { IsReadyAt cpu state.old }
    ensures makes { Makes state.old state.new (Event.Turn cpu) result }
    ensures scheduled { (pick : Pick) → result ≡ Reply.Picked pick →
        ComparesForSchedule (state.old.core, state.old.tasks) comparisons.old comparisons.new }
    ensures counted { ComparesForEvent state.old (Event.Turn cpu) comparisons.old comparisons.new }
{
    if !state.core.is_online(cpu) {
        return Reply::Offline;
    }
    let lane = &state.core.lanes[cpu as usize];
    if lane.pending {
        return resched(state, cpu, comparisons);
    }
    if lane.place == 0 {
        return Reply::Nothing;
    }
    answer_try(&mut state.core, &mut state.tasks, cpu, comparisons)
}

/// The running task goes to sleep, and its sibling takes the next. The open interval is charged while the
/// task still runs. The charge of a schedule, at the same moment, would record nothing, so the sibling only
/// picks anew.
fn block<Q: SiblingQueue, G: Guard, L: Ledger>(
    state: &mut State<Q, G>,
    cpu: Cpu,
    comparisons: &mut Steps<L>,
) -> Reply
    requires { IsReadyAt cpu state.old }
    ensures makes { Makes state.old state.new (Event.Block cpu) result }
    ensures counted { ComparesForEvent state.old (Event.Block cpu) comparisons.old comparisons.new }
{
    if !state.core.is_online(cpu) {
        return Reply::Offline;
    }
    let Some(task) = state.core.runner(&state.tasks, cpu).copied() else {
        return Reply::Idle;
    };
    charge(&mut state.core, &mut state.tasks, state.clock);
    state
        .core
        .put_to_sleep(&mut state.tasks, task.spec.pid, comparisons);
    state.core.run_idle(cpu);
    Reply::Slept {
        pid: task.spec.pid,
        pick: pick_and_balance(
            &mut state.core,
            &mut state.tasks,
            cpu,
            state.clock,
            comparisons,
        ),
    }
}

/// The running task ends, unless it leads others, and its sibling takes the next. The open interval is
/// charged as at a block.
fn exit<Q: SiblingQueue, G: Guard, L: Ledger>(
    state: &mut State<Q, G>,
    cpu: Cpu,
    comparisons: &mut Steps<L>,
) -> Reply
    requires { IsReadyAt cpu state.old }
    ensures makes { Makes state.old state.new (Event.Exit cpu) result }
    ensures counted { ComparesForEvent state.old (Event.Exit cpu) comparisons.old comparisons.new }
{
    if !state.core.is_online(cpu) {
        return Reply::Offline;
    }
    let Some(task) = state.core.runner(&state.tasks, cpu).copied() else {
        return Reply::Idle;
    };
    if has_threads(&state.tasks, &task) {
        return Reply::HasThreads;
    }
    charge(&mut state.core, &mut state.tasks, state.clock);
    state.end(task, comparisons);
    state.core.run_idle(cpu);
    Reply::Ended {
        pid: task.spec.pid,
        pick: pick_and_balance(
            &mut state.core,
            &mut state.tasks,
            cpu,
            state.clock,
            comparisons,
        ),
    }
}

/// The sibling's timer ticks. The open interval is charged first.
fn tick<Q: SiblingQueue, G: Guard, L: Ledger>(
    state: &mut State<Q, G>,
    cpu: Cpu,
    comparisons: &mut Steps<L>,
) -> Reply
    requires { IsReadyAt cpu state.old }
    ensures makes { Makes state.old state.new (Event.Tick cpu) result }
    ensures counted { ComparesForEvent state.old (Event.Tick cpu) comparisons.old comparisons.new }
{
    if !state.core.is_online(cpu) {
        return Reply::Offline;
    }
    Reply::Ticked(core_clock::tick(
        &mut state.core,
        &mut state.tasks,
        cpu,
        state.clock,
        comparisons,
    ))
}

/// A sleeping task is queued at its home.
fn wake<Q: SiblingQueue, G: Guard, L: Ledger>(
    state: &mut State<Q, G>,
    pid: Pid,
    comparisons: &mut Steps<L>,
) -> Reply
    requires ready { IsReady state.old }
    ensures makes { Makes state.old state.new (Event.Wake pid) result }
    ensures counted { ComparesForEvent state.old (Event.Wake pid) comparisons.old comparisons.new }
{
    let Some(task) = state.tasks.find(pid) else {
        return Reply::NoTask;
    };
    if task.queued {
        return Reply::Awake;
    }
    let mut task = *task;
    rehome(&state.core, &mut task);
    wake_at_home(
        &mut state.core,
        &mut state.tasks,
        task,
        state.clock,
        comparisons,
    );
    Reply::Woken(task.home)
}

/// The clock goes on by `delta` ns.
fn advance<Q: SiblingQueue, G: Guard, L: Ledger>(
    state: &mut State<Q, G>,
    delta: u64,
    comparisons: &mut Steps<L>,
) -> Reply
    requires { IsReadyFor (Event.Advance delta) state.old }
    ensures makes { Makes state.old state.new (Event.Advance delta) result }
    ensures counted { ComparesForEvent state.old (Event.Advance delta)
        comparisons.old comparisons.new }
{
    state.clock = core_clock::advance(
        &mut state.core,
        &mut state.tasks,
        delta,
        state.clock,
        comparisons,
    );
    Reply::Now(state.clock)
}

/// A task makes a child, which is queued at its home.
fn fork<Q: SiblingQueue, G: Guard, L: Ledger>(
    state: &mut State<Q, G>,
    caller: Pid,
    thread: bool,
    comparisons: &mut Steps<L>,
) -> Reply
    requires ready { IsReady state.old }
    ensures makes { Makes state.old state.new (Event.Fork caller thread) result }
    ensures counted { ComparesForEvent state.old (Event.Fork caller thread)
        comparisons.old comparisons.new }
{
    match state.make_child(caller, thread) {
        Ok(child) => {
            let task = child_at_home(&state.core, child);
            wake_at_home(
                &mut state.core,
                &mut state.tasks,
                task,
                state.clock,
                comparisons,
            );
            Reply::Child(child.spec.pid)
        }
        Err(ForkFault::NoCaller) => Reply::NoCaller,
        Err(ForkFault::Eagain) => Reply::Refused(Errno::Eagain),
    }
}

/// A task gets another policy, and has used nothing of its slice.
fn set_policy<Q: SiblingQueue, G: Guard, L: Ledger>(
    state: &mut State<Q, G>,
    pid: Pid,
    policy: Policy,
    comparisons: &mut Steps<L>,
) -> Reply
    requires { IsReadyFor (Event.SetSched pid policy) state.old }
    ensures makes { Makes state.old state.new (Event.SetSched pid policy) result }
    ensures counted { ComparesForEvent state.old (Event.SetSched pid policy)
        comparisons.old comparisons.new }
{
    let Some(task) = task_of(&state.tasks, pid) else {
        return Reply::NoTask;
    };
    let changed = with_policy(policy, task);
    if task.queued {
        requeue(
            &mut state.core,
            &mut state.tasks,
            changed,
            state.clock,
            comparisons,
        );
    } else {
        state.core.change(&mut state.tasks, changed, comparisons);
    }
    Reply::Set
}

/// The sibling leaves the core, unless it is offline already or the last.
fn take_offline<Q: SiblingQueue, G: Guard, L: Ledger>(
    state: &mut State<Q, G>,
    cpu: Cpu,
    comparisons: &mut Steps<L>,
) -> Reply
    requires { IsReadyAt cpu state.old }
    ensures makes { Makes state.old state.new (Event.Offline cpu) result }
    ensures counted { ComparesForEvent state.old (Event.Offline cpu)
        comparisons.old comparisons.new }
{
    hotplug_reply(offline(
        &mut state.core,
        &mut state.tasks,
        cpu,
        state.clock,
        comparisons,
    ))
}

/// The sibling comes back, unless it is online already.
fn bring_online<Q: SiblingQueue, G: Guard>(state: &mut State<Q, G>, cpu: Cpu) -> Reply
    requires cpu { cpu < length state.old.core.lanes.items }
    ensures { Makes state.old state.new (Event.Online cpu) result }
{
    hotplug_reply(online(&mut state.core, cpu))
}

/// A call of `prctl(PR_SCHED_CORE, ..)` by the task with the pid.
fn prctl<Q: SiblingQueue, G: Guard, L: Ledger>(
    state: &mut State<Q, G>,
    pid: Pid,
    ask: Ask,
    comparisons: &mut Steps<L>,
) -> Reply
    requires ready { IsReady state.old }
    ensures makes { Makes state.old state.new (Event.Prctl pid ask) result }
    ensures counted { ComparesForEvent state.old (Event.Prctl pid ask)
        comparisons.old comparisons.new }
{
    let smt_off = is_smt_off(&state.core);
    state.prctl(smt_off, pid, ask, comparisons)
}

/// Makes the step of an event, and answers what the rules answer. It compares no more keys than the event's calls of a
/// queue may.
#[inline(always)]
pub fn apply<Q: SiblingQueue, G: Guard, L: Ledger>(
    state: &mut State<Q, G>,
    event: Event,
    comparisons: &mut Steps<L>,
) -> Reply
    requires { IsReadyFor event state.old }
    ensures makes { Makes state.old state.new event result }
    ensures counted { ComparesForEvent state.old event comparisons.old comparisons.new }
{
    match event {
        Event::Turn(cpu) => turn(state, cpu, comparisons),
        Event::Resched(cpu) => resched(state, cpu, comparisons),
        Event::Block(cpu) => block(state, cpu, comparisons),
        Event::Exit(cpu) => exit(state, cpu, comparisons),
        Event::Tick(cpu) => tick(state, cpu, comparisons),
        Event::Wake(pid) => wake(state, pid, comparisons),
        Event::Advance(delta) => advance(state, delta, comparisons),
        Event::Fork { caller, thread } => fork(state, caller, thread, comparisons),
        Event::Prctl { caller, ask } => prctl(state, caller, ask, comparisons),
        Event::SetSched { pid, policy } => set_policy(state, pid, policy, comparisons),
        Event::Offline(cpu) => take_offline(state, cpu, comparisons),
        Event::Online(cpu) => bring_online(state, cpu),
        Event::Load(index) => state.load(index),
        Event::Unload(index) => state.unload(index),
    }
}
