//! The parts of a machine: the table of tasks, the references of cookies, the access check, the plan of a
//! call, how a task is born and ends, and the accounts of forced idle.

ghost use Rattle.std.specs.Prelude.{◌≡◌, ◌+◌, ◌^◌, ◌<◌, [], All, OnErr};
ghost use Rattle.cookie_refs.specs.Refs.{Agree, count_of};
ghost use Rattle.cs_types.specs.Guards.{guards_on_bench};

use cookie_refs::{CookieFull, CookieRefs};
use cs_outside::PairGuard;
use cs_types::{Ask, Creds, Errno, Pid, Policy, Reply, Task, TaskSpec};
use forceidle_account::ForceIdle;
use fork_inherit::{ForkFault, HasThreads, end, fork};
use prctl_core::{Decision, Planned, Target, plan};
use ptrace_check::{Guards, may_access};
use std::fmt::Display;
use std::process::Abort;
use task_table::{AddFault, Group, TaskTable, Tasks};

/// A user's task, which may be dumped.
const USER: Creds = Creds {
    ruid: 1000,
    euid: 1000,
    suid: 1000,
    rgid: 1000,
    egid: 1000,
    sgid: 1000,
    cap: false,
    mm: true,
    dumpable: true,
};

/// No two ids are one, and none is the user's.
const OTHER_USER: Creds = Creds {
    ruid: 1,
    euid: 2,
    suid: 3,
    rgid: 4,
    egid: 5,
    sgid: 6,
    ..USER
};

/// A task with these credentials, in this thread group and this process group.
fn task_with(pid: Pid, tgid: Pid, pgid: u32, creds: Creds) -> TaskSpec {
    TaskSpec {
        pid,
        tgid,
        pgid,
        cpu: 1,
        policy: Policy::Fifo(1),
        creds,
    }
}

/// A task of the user, in this thread group and this process group.
fn spec(pid: Pid, tgid: Pid, pgid: u32) -> TaskSpec {
    task_with(pid, tgid, pgid, USER)
}

/// The tasks 1 to 3 of the user, of which 1 leads 2. They are added in another order.
fn three_tasks<R: AllocGlobal + Abort>(rt: &R) -> TaskTable
    ensures cookies { All (λ task. task.cookie ≡ 0) result.tasks }
    ensures limit { result.limit ≡ 3 }
{
    let mut table = TaskTable::with_limit(rt.alloc(), 3).expect(rt, "room");
    for spec in &[spec(3, 3, 3), spec(1, 1, 1), spec(2, 1, 1)] {
        table.add(*spec).expect(rt, "a task more");
    }
    table
}

/// The pid of a task, if there is one.
fn pid_of(task: Option<&Task>) -> Option<Pid> {
    task.map(|task| task.spec.pid)
}

/// The pids of the next four tasks, as far as there are so many.
fn pids_of(mut tasks: Tasks<'_>) -> [Option<Pid>; 4] {
    [
        pid_of(tasks.next()),
        pid_of(tasks.next()),
        pid_of(tasks.next()),
        pid_of(tasks.next()),
    ]
}

/// Expects the pids of the three tasks, in their order, and of the two in the group of task 1.
fn expect_pids(rt: &impl Abort, table: &TaskTable) {
    let all = pids_of(table.iter());
    assert!(rt; all == [Some(1), Some(2), Some(3), None] && table.len() == 3);
    let threads = pids_of(table.members(Group::Threads(1)));
    assert!(rt; threads == [Some(1), Some(2), None, None]);
}

/// Expects task 2 as it was added.
fn expect_added(rt: &impl Abort, table: &TaskTable) {
    let task = table.find(2).expect(rt, "a task");
    let parts = (task.spec.tgid, task.home, task.queued);
    assert!(rt;
        parts == (1, 1, false) && task.cookie == 0 && task.stamp == 0 && task.occupation == 0
    );
}

/// Expects that the last place is the third.
fn expect_last(rt: &impl Abort, table: &TaskTable) {
    assert!(rt; pid_of(table.at(2)) == Some(3) && table.at(3).is_none());
}

/// Expects the next task of each group.
fn expect_groups(rt: &impl Abort, table: &TaskTable) {
    let found = [
        pid_of(table.next_in(Group::All, 0)),
        pid_of(table.next_in(Group::All, 2)),
        pid_of(table.next_in(Group::All, 3)),
        pid_of(table.next_in(Group::Threads(1), 1)),
        pid_of(table.next_in(Group::Threads(1), 2)),
        pid_of(table.next_in(Group::Process(3), 0)),
    ];
    assert!(rt; found == [Some(1), Some(3), None, Some(2), None, Some(3)]);
}

/// Expects how many tasks each group has at most, and below which pid none of its tasks is.
fn expect_spans(rt: &impl Abort, table: &TaskTable) {
    let most = [
        table.most_in(Group::All),
        table.most_in(Group::Threads(1)),
        table.most_in(Group::Threads(2)),
        table.most_in(Group::Process(3)),
    ];
    assert!(rt; most == [3, 2, 0, 1]);
    let below = [
        table.below(Group::All),
        table.below(Group::Threads(1)),
        table.below(Group::Process(3)),
    ];
    assert!(rt; below == [0, 0, 2]);
}

#[test]
fn tasks_of_a_table(rt: HostRuntime) {
    let table = three_tasks(&rt);
    expect_pids(&rt, &table);
    expect_added(&rt, &table);
    expect_last(&rt, &table);
    expect_groups(&rt, &table);
    expect_spans(&rt, &table);
}

/// Expects that no second task 2 is added, and none beyond the limit.
fn expect_not_added(rt: &impl Abort, table: &mut TaskTable) {
    let twice = table.add(spec(2, 2, 2));
    let full = table.add(spec(4, 4, 4));
    let are_refused = matches!(twice, Err(AddFault::Twice(2)))
        && matches!(full, Err(AddFault::Full(3)));
    assert!(rt; are_refused && table.len() == 3);
}

/// Expects that task 2 changes, and remembers an occupation.
fn expect_changed(rt: &impl Abort, table: &mut TaskTable) {
    let task = *table.find(2).expect(rt, "a task");
    let old = table.change(Task { cookie: 7, ..task });
    assert!(rt; matches!(old, Some(Task { cookie: 0, .. })));
    table.remember(2, 3);
    let task = table.find(2).expect(rt, "a task");
    assert!(rt; (task.cookie, task.occupation) == (7, 3));
}

/// Expects that task 2 is removed as it was changed.
fn expect_removed(rt: &impl Abort, table: &mut TaskTable) {
    let removed = table.remove(2);
    assert!(rt; matches!(removed, Some((Task { cookie: 7, .. }, 0))));
    assert!(rt; table.find(2).is_none() && table.remove(2).is_none() && table.len() == 2);
}

#[test]
fn tasks_that_change(rt: HostRuntime) {
    let mut table = three_tasks(&rt);
    expect_not_added(&rt, &mut table);
    expect_changed(&rt, &mut table);
    expect_removed(&rt, &mut table);
}

/// Charges task 3 a share, in ns, and expects that it was charged so much before.
fn charge_third(rt: &impl Abort, table: &mut TaskTable, share: u64, before: u64)
    requires { before + share < 2 ^ 64 }
{
    assert!(rt; table.find(3).is_some() && table.forced(3) == before);
    table.raise(3, share);
}

#[test]
fn totals_of_tasks(rt: HostRuntime) {
    let mut table = three_tasks(&rt);
    charge_third(&rt, &mut table, 7, 0);
    charge_third(&rt, &mut table, 5, 7);
    let totals = (table.forced(1), table.forced(3), table.forced(4));
    assert!(rt; totals == (0, 12, 0));
    assert!(rt; matches!(table.remove(3), Some((_, 12))));
}

/// Expects that the fault has this text.
fn expect_told<R: AllocGlobal + Abort, F: Display>(rt: &R, fault: &F, wanted: &str) {
    let told = format!(in rt.alloc(); "{fault}").expect(rt, "room");
    assert!(rt; told.as_str() == wanted);
}

#[test]
fn faults_are_told(rt: HostRuntime) {
    expect_told(&rt, &AddFault::Twice(2), "there is a task 2 already");
    expect_told(
        &rt,
        &AddFault::Full(3),
        "there are 3 tasks already, which is the limit",
    );
    expect_told(
        &rt,
        &CookieFull { limit: 1 },
        "1 cookies are live, and no more may be",
    );
    expect_told(
        &rt,
        &ForkFault::NoCaller,
        "no living task has the caller's pid",
    );
    expect_told(
        &rt,
        &ForkFault::Eagain,
        "as many tasks live as may, or the caller is a deadline task",
    );
    expect_told(
        &rt,
        &HasThreads,
        "the task leads a thread group that has another member",
    );
}

/// Expects as many live cookies, and as many references to cookie 1.
fn expect_counts(rt: &impl Abort, refs: &CookieRefs, live: u16, references: u32)
    ensures { count_of refs.now 1 ≡ references }
{
    assert!(rt; refs.live() == live && refs.count(1) == references);
}

#[test]
fn references_of_a_cookie(rt: HostRuntime) {
    let mut refs = CookieRefs::with_limit(rt.alloc(), 1).expect(&rt, "room");
    assert!(rt; matches!(refs.make(), Ok(1)));
    expect_counts(&rt, &refs, 1, 1);
    assert!(rt; matches!(refs.make(), Err(CookieFull { limit: 1 })));
    refs.get(1);
    expect_counts(&rt, &refs, 1, 2);
    refs.put(1);
    expect_counts(&rt, &refs, 1, 1);
    refs.put(1);
    expect_counts(&rt, &refs, 0, 0);
    assert!(rt; matches!(refs.make(), Ok(2)));
}

#[test]
fn no_references_of_cookie_0(rt: HostRuntime) {
    let mut refs = CookieRefs::with_limit(rt.alloc(), 1).expect(&rt, "room");
    refs.get(0);
    refs.put(0);
    assert!(rt; refs.live() == 0 && refs.count(0) == 0);
}

/// No guards.
fn no_guards<R: AllocGlobal + Abort>(rt: &R) -> Guards<PairGuard>
    ensures { result.guards ≡ guards_on_bench [] 0 }
{
    Guards::of(rt.alloc(), Vec::new(rt.alloc())).expect(rt, "room")
}

/// Whether the caller may access the target, if there are no guards.
fn may<R: AllocGlobal + Abort>(rt: &R, caller: &TaskSpec, target: &TaskSpec) -> bool {
    let mut guards = no_guards(rt);
    may_access(caller, target, &mut guards)
}

#[test]
fn tasks_that_may_be_accessed(rt: HostRuntime) {
    let other_saved = Creds { suid: 1001, ..USER };
    let capable = Creds { cap: true, ..USER };
    for (caller, target, wanted) in &[
        (spec(1, 1, 1), task_with(2, 1, 1, OTHER_USER), true),
        (spec(1, 1, 1), spec(2, 2, 2), true),
        (spec(1, 1, 1), task_with(2, 2, 2, other_saved), false),
        (
            task_with(1, 1, 1, capable),
            task_with(2, 2, 2, other_saved),
            true,
        ),
    ] {
        assert!(rt; may(&rt, caller, target) == *wanted);
    }
}

/// The three tasks, and no cookie yet.
fn parts<R: AllocGlobal + Abort>(rt: &R) -> (TaskTable, CookieRefs)
    ensures agree { Agree result.1 result.0.tasks }
    ensures next { result.1.next ≡ 1 }
    ensures limit { result.0.limit ≡ 3 }
{
    let table = three_tasks(rt);
    let refs = CookieRefs::with_limit(rt.alloc(), 8).expect(rt, "room");
    (table, refs)
}

/// The plan of a call of task 1 if no cookie lives yet, how many live then, and the references to
/// cookie 1.
fn planned<R: AllocGlobal + Abort>(rt: &R, ask: Ask) -> (Planned, u16, u32) {
    let (table, mut refs) = parts(rt);
    let mut guards = no_guards(rt);
    let planned = plan(&table, &mut refs, &mut guards, 2, 65_536, 1, &ask);
    (planned, refs.live(), refs.count(1))
}

#[test]
fn plan_of_a_create(rt: HostRuntime) {
    let ask = Ask {
        cmd: 1,
        pid: 0,
        scope: 1,
        addr: 0,
    };
    let (planned, _, references) = planned(&rt, ask);
    assert!(rt;
        matches!(
            planned,
            Planned::Go(Decision {
                to: Target::Threads(1),
                cookie: 1,
                reply: Reply::Zero,
            })
        )
    );
    assert!(rt; references == 1);
}

#[test]
fn plan_of_a_get(rt: HostRuntime) {
    let ask = Ask {
        cmd: 0,
        pid: 3,
        scope: 0,
        addr: 4096,
    };
    let (planned, ..) = planned(&rt, ask);
    assert!(rt;
        matches!(
            planned,
            Planned::Go(Decision {
                to: Target::Nobody,
                cookie: 0,
                reply: Reply::Value(0),
            })
        )
    );
}

#[test]
fn plan_without_a_target(rt: HostRuntime) {
    let ask = Ask {
        cmd: 1,
        pid: 9,
        scope: 0,
        addr: 0,
    };
    let (planned, live, _) = planned(&rt, ask);
    assert!(rt; matches!(planned, Planned::Answer(Reply::Refused(Errno::Esrch))));
    assert!(rt; live == 0);
}

/// What comes of a fork of a thread with this pid, which no task has.
fn fork_thread<R: AllocGlobal + Abort>(
    rt: &R,
    table: &mut TaskTable,
    refs: &mut CookieRefs,
    caller: Pid,
    child: Pid,
) -> Result<(), ForkFault>
    requires agree { Agree refs.old table.old.tasks }
    requires limit { table.old.limit ≡ 3 }
    ensures agree { Agree refs.new table.new.tasks }
    ensures limit { OnErr result (table.new.limit ≡ 3) }
{
    let None = table.find(child) else {
        panic!(rt; "the pid is used already");
    };
    fork(table, refs, 3, caller, true, child)
}

/// What comes of the end of a task, which is there and asleep.
fn end_task<R: AllocGlobal + Abort>(
    rt: &R,
    table: &mut TaskTable,
    refs: &mut CookieRefs,
    pid: Pid,
) -> Result<(Task, u64), HasThreads>
    requires agree { Agree refs.old table.old.tasks }
    requires limit { table.old.limit ≡ 3 }
    ensures agree { Agree refs.new table.new.tasks }
    ensures limit { table.new.limit ≡ 3 }
{
    let Some(Task { queued: false, .. }) = table.find(pid) else {
        panic!(rt; "there is no such task, or it is queued");
    };
    end(table, refs, pid)
}

/// Expects that task 1 forks none at the limit and does not end, and that task 3 does.
fn expect_end<R: AllocGlobal + Abort>(rt: &R, table: &mut TaskTable, refs: &mut CookieRefs)
    requires agree { Agree refs.old table.old.tasks }
    requires limit { table.old.limit ≡ 3 }
    ensures agree { Agree refs.new table.new.tasks }
    ensures limit { table.new.limit ≡ 3 }
{
    let full = fork_thread(rt, table, refs, 1, 4);
    assert!(rt; matches!(full, Err(ForkFault::Eagain)));
    let led = end_task(rt, table, refs, 1);
    assert!(rt; matches!(led, Err(HasThreads)));
    let (ended, forced) = end_task(rt, table, refs, 3).expect(rt, "an end");
    assert!(rt; ended.spec.pid == 3 && forced == 0 && table.len() == 2);
}

/// Expects that task 3, which has ended, forks none, and that task 2 does.
fn expect_child<R: AllocGlobal + Abort>(rt: &R, table: &mut TaskTable, refs: &mut CookieRefs)
    requires agree { Agree refs.old table.old.tasks }
    requires limit { table.old.limit ≡ 3 }
{
    let nobody = fork_thread(rt, table, refs, 3, 4);
    assert!(rt; matches!(nobody, Err(ForkFault::NoCaller)));
    fork_thread(rt, table, refs, 2, 4).expect(rt, "a child");
    let child = table.find(4).expect(rt, "the child");
    assert!(rt; (child.spec.tgid, child.home, child.queued) == (1, 1, false));
}

#[test]
fn tasks_that_end_and_fork(rt: HostRuntime) {
    let (mut table, mut refs) = parts(&rt);
    expect_end(&rt, &mut table, &mut refs);
    expect_child(&rt, &mut table, &mut refs);
}

/// Expects this account: how many siblings are forced idle, and how many run a task.
fn expect_account(rt: &impl Abort, account: &ForceIdle, count: u8, occupation: u8) {
    assert!(rt; account.count() == count && account.occupation() == occupation);
}

/// Expects this share of an interval that begins at 0 and is charged at `now`, in ns. None is charged
/// after it is closed.
fn expect_share(rt: &impl Abort, count: u8, occupation: u8, now: u64, wanted: Option<u64>)
    requires occupied { 0 < count → 0 < occupation }
    requires now { now < 2 ^ 56 }
{
    let mut account = ForceIdle::closed();
    account.begin(count, occupation, 0);
    expect_account(rt, &account, count, occupation);
    assert!(rt; account.charge(now) == wanted);
    assert!(rt; account.intervals() == wanted.is_some() as u64);
    account.close();
    expect_account(rt, &account, 0, 0);
    assert!(rt; account.charge(now).is_none());
}

// Of the whole time, of two siblings for two tasks, of one for three rounded down, and of none: if no
// sibling is forced idle, and if no time has passed.
#[test]
fn shares_of_an_interval(rt: HostRuntime) {
    expect_share(&rt, 1, 1, 10, Some(10));
    expect_share(&rt, 2, 2, 7, Some(7));
    expect_share(&rt, 1, 3, 10, Some(3));
    expect_share(&rt, 0, 2, 10, None);
    expect_share(&rt, 1, 1, 0, None);
}
