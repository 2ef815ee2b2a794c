//! Cookies: what a plan of `prctl` sets. It is a file of its own since no other event sets one.

ghost use Rattle.std.specs.Prelude.{◌≡◌, ◌+◌, ◌*◌, ◌<◌, ◌≤◌, ◌∷◌, [], length, map, nat_lt};
ghost use Rattle.cs_types.specs.declared.event.Event.TheVariants.{Prctl};
ghost use Rattle.cs_types.specs.Touches.{cookie_touches};
ghost use Rattle.task_table.specs.Group.{group_above};
ghost use Rattle.prctl_core.specs.Plan.{named};
ghost use Rattle.core_lanes.specs.Lanes.{lane_state};
ghost use Rattle.core_lanes.specs.Changes.{ChangesLanes};
ghost use Rattle.core_lanes.specs.Comparisons.{ComparesFor};
ghost use Rattle.core_tasks.specs.State.{both};
ghost use Rattle.core_tasks.specs.Steps.{Makes};
ghost use Rattle.core_tasks.specs.Cookies.{flagged_for, RunsAtMostAt, MaySet, MaySetOne, MayCall, SetsCookies};

use crate::state::State;
use core_lanes::{Lane, SiblingQueue, task_of};
use cs_outside::Guard;
use cs_types::{Ask, Cookie, Cpu, Pid, Reply, Steps, Task};
use prctl_core::{Planned, Target, plan};
use std::sync::ledger::Ledger;
use task_table::Group;

/// A number of siblings that are online, one if SMT is off, and else two: a plan asks no more of it.
fn siblings_where(smt_off: bool) -> u8
    ensures { nat_lt result 2 ≡ smt_off }
{
    if smt_off { 1 } else { 2 }
}

/// The home of the task with the pid becomes pending if it runs it. No other sibling does.
fn flag_home<Q: Drop>(lanes: &mut [Lane<Q>], home: Cpu, pid: Pid)
    requires home { home < length lanes.old }
    requires alone { RunsAtMostAt home pid (map lane_state lanes.old) }
    ensures { ChangesLanes lanes.old lanes.new (map (flagged_for pid)) }
{
    let lane = &mut lanes[home as usize];
    if lane.runs(pid) {
        lane.pending = true;
    }
}

/// How often the queues are touched if the task gets the cookie.
fn touches(task: &Task, cookie: Cookie) -> u64
    ensures touches { result ≡ cookie_touches cookie task.now }
    ensures few { result ≤ 2 }
{
    if !task.queued {
        return 0;
    }
    u64::from(task.cookie != 0) + u64::from(cookie != 0)
}

impl<Q: SiblingQueue, G: Guard> State<Q, G> {
    /// The task has the cookie, with a reference of its own, and if it runs, its sibling becomes
    /// pending.
    #[inline(always)]
    fn set_cookie<L: Ledger>(&mut self, task: &Task, cookie: Cookie, comparisons: &mut Steps<L>)
        requires { MaySetOne cookie self.old task.now }
        ensures sets { SetsCookies self.old self.new (task.now ∷ []) cookie }
        ensures counted { ComparesFor 1 (both self.old) comparisons.old comparisons.new }
    {
        self.refs.exchange(task.cookie, cookie);
        self.core
            .set_cookie(&mut self.tasks, task, cookie, comparisons);
        self.core.task_number += touches(task, cookie);
        flag_home(&mut self.core.lanes, task.home, task.spec.pid);
    }

    /// The members of the group have the cookie, by rising pid.
    fn set_group<L: Ledger>(&mut self, group: Group, cookie: Cookie, comparisons: &mut Steps<L>)
        requires { MaySet cookie (2 * length self.old.tasks.tasks + 2) self.old }
        ensures sets { SetsCookies self.old self.new
            (group_above group 0 self.old.tasks.tasks) cookie }
        ensures counted { ComparesFor (length self.old.tasks.tasks)
            (both self.old) comparisons.old comparisons.new }
    {
        let mut after = self.tasks.below(group);
        for _ in 0..self.tasks.most_in(group) {
            let Some(task) = self.tasks.next_in(group, after).copied() else {
                return;
            };
            self.set_cookie(&task, cookie, comparisons);
            after = task.spec.pid;
        }
    }

    /// The tasks that the target names have the cookie.
    fn set_cookies<L: Ledger>(&mut self, to: Target, cookie: Cookie, comparisons: &mut Steps<L>)
        requires { MaySet cookie (2 * length self.old.tasks.tasks + 2) self.old }
        ensures sets { SetsCookies self.old self.new (named to self.old.tasks.tasks) cookie }
        ensures counted { ComparesFor (length self.old.tasks.tasks)
            (both self.old) comparisons.old comparisons.new }
    {
        match to {
            Target::Nobody => {}
            Target::One(pid) => {
                if let Some(task) = task_of(&self.tasks, pid) {
                    self.set_cookie(&task, cookie, comparisons);
                }
            }
            Target::Threads(tgid) => self.set_group(Group::Threads(tgid), cookie, comparisons),
            Target::Process(pgid) => self.set_group(Group::Process(pgid), cookie, comparisons),
        }
    }

    /// A call of `prctl(PR_SCHED_CORE, ..)` by the task with the pid. The test says whether SMT is off.
    pub fn prctl<L: Ledger>(
        &mut self,
        smt_off: bool,
        pid: Pid,
        ask: Ask,
        comparisons: &mut Steps<L>,
    ) -> Reply
        requires { MayCall smt_off self.old }
        ensures makes { Makes self.old self.new (Prctl pid ask) result }
        ensures counted { ComparesFor (length self.old.tasks.tasks)
            (both self.old) comparisons.old comparisons.new }
    {
        let planned = plan(
            &self.tasks,
            &mut self.refs,
            &mut self.guards,
            siblings_where(smt_off),
            self.user_top,
            pid,
            &ask,
        );
        match planned {
            Planned::Answer(reply) => reply,
            Planned::Go(decision) => {
                self.set_cookies(decision.to, decision.cookie, comparisons);
                self.refs.put(decision.cookie);
                decision.reply
            }
        }
    }
}
