//! The plan of a scenario: its users, its tasks, its teach lines and its steps, as they are read line by line. Here
//! are the rules that take more than one line: distinct pids, leaders, how many there may be, and who names which user.

ghost use Rattle.std.specs.Prelude.{◌≡◌};
ghost use Rattle.scenario_text.specs.Reading.{has_fresh_pid, has_leader, is_next_user};

use crate::fault::{BadKind, ReadFault};
use crate::head::Head;
use crate::line::{Place, ScenarioLine};
use crate::task::{TaskLine, UserLine};
use cs_types::{Creds, Step, TaskSpec, Teach};
use std::alloc::Global;

/// How many lines stand before the first task line.
const HEAD_LINES: usize = 3;

/// How many teach lines a scenario has at most.
pub const MOST_TEACHES: usize = 64;

/// How many steps a scenario has at most.
pub const MOST_STEPS: usize = 100_000;

/// The users, the tasks, the teach lines and the steps that are read.
#[derive(Drop)]
pub(crate) struct Plan {
    /// The credentials of the users, by their numbers, in version 2.
    pub users: Vec<Creds>,
    /// How many of them the tasks name.
    pub named: usize,
    pub tasks: Vec<TaskSpec>,
    pub teaches: Vec<Teach>,
    pub steps: Vec<Step>,
}

/// Whether none of the tasks has the task's pid.
#[tactic(auto, unfolding(crate::specs::Reading::has_fresh_pid))]
fn has_fresh_pid(tasks: &[TaskSpec], task: &TaskSpec) -> bool
    ensures { result ≡ has_fresh_pid tasks.now task.now }
{
    !tasks.iter().any(|other| other.pid == task.pid)
}

/// Whether the task leads its own thread group, or one of the tasks leads it and has the same
/// process group.
#[tactic(auto, unfolding(crate::specs::Reading::has_leader))]
fn has_leader(tasks: &[TaskSpec], task: &TaskSpec) -> bool
    ensures { result ≡ has_leader tasks.now task.now }
{
    task.tgid == task.pid
        || tasks.iter().any(|leader| {
            leader.pid == task.tgid && leader.tgid == leader.pid && leader.pgid == task.pgid
        })
}

/// Whether the user is the next one, with credentials that no user before has.
#[tactic(auto, unfolding(crate::specs::Reading::is_next_user))]
fn is_next_user(users: &[Creds], user: &UserLine) -> bool
    ensures { result ≡ is_next_user users.now user.now }
{
    user.number as usize == users.len() && !users.iter().any(|other| user.creds.are_same(other))
}

impl Plan {
    ghost use Rattle.std.specs.Prelude.{ℕ, MatchResult};
    ghost use Rattle.scenario_text.specs.declared.fault.BadKind.TheVariants.{User};
    ghost use Rattle.scenario_text.specs.declared.line.ScenarioLine.TheVariants as forms;
    ghost use Rattle.scenario_text.specs.Reading.{contents, nothing_planned, HasFewLines, Counts, with_task, named_after, place_after, check, count_check, line_check, may_name, are_named};

    /// A plan of no user, no task, no teach line and no step.
    pub fn new(alloc: Global) -> Self
        ensures { (contents result ≡ nothing_planned) × (result.named ≡ 0) }
    {
        Plan {
            users: Vec::new(alloc),
            named: 0,
            tasks: Vec::new(alloc),
            teaches: Vec::new(alloc),
            steps: Vec::new(alloc),
        }
    }

    /// Where the line after those of the head and of the plan stands. The plan has at most 256 users, 65535 tasks,
    /// 64 teach lines and 100000 steps.
    pub fn place(&self) -> Place
        requires { HasFewLines (contents self.now) }
        ensures { result ≡ place_after (contents self.now) }
    {
        let tasks = HEAD_LINES + self.users.len() + self.tasks.len();
        let before = tasks + self.teaches.len() + self.steps.len();
        Place {
            number: before as u32 + 1,
            is_after_task: !self.tasks.is_empty(),
            is_after_teach: !self.teaches.is_empty(),
            is_after_step: !self.steps.is_empty(),
        }
    }

    /// Whether each user is named by some task, in a text of this version.
    #[tactic(auto, unfolding(crate::specs::Reading::are_named))]
    pub fn are_named(&self) -> bool
        ensures { (version : ℕ) → Counts version self.now →
            result ≡ are_named version (contents self.now) }
    {
        self.users.len() <= self.named
    }

    /// Whether a task of this user may follow, in a text of this version.
    #[tactic(auto, unfolding(crate::specs::Reading::may_name))]
    fn may_name(&self, user: u8, version: u8) -> bool
        requires { Counts version self.now }
        ensures { result ≡ may_name version user (contents self.now) }
    {
        let user = user as usize;
        version != 2 || user < self.users.len() && user <= self.named
    }

    /// Whether the task may follow: with a pid of its own, led, as one of the tasks that may live at once, and with a
    /// user that may be named.
    #[tactic(auto, unfolding(crate::specs::Reading::line_check))]
    fn check_task(&self, task: &TaskLine, head: Head) -> Result<(), BadKind>
        requires { Counts head.version self.now }
        ensures { result
            ≡ line_check head.version head.task_limit (forms.Task task.now) (contents self.now) }
    {
        if !has_fresh_pid(&self.tasks, &task.spec) {
            return Err(BadKind::Twice);
        }
        if !has_leader(&self.tasks, &task.spec) {
            return Err(BadKind::Leader);
        }
        if self.tasks.len() >= head.task_limit as usize {
            return Err(BadKind::Full);
        }
        if !self.may_name(task.user, head.version) {
            return Err(BadKind::User);
        }
        Ok(())
    }

    /// Whether one more line of a form of which the plan has this many may follow the tasks.
    fn check_count(&self, count: usize, most: usize) -> Result<(), BadKind>
        ensures { (version : ℕ) → Counts version self.now →
            result ≡ count_check count most (are_named version (contents self.now)) }
    {
        if count >= most {
            return Err(BadKind::Full);
        }
        self.check_named()
    }

    /// Whether the tasks may end here.
    fn check_named(&self) -> Result<(), BadKind>
        ensures { (version : ℕ) → Counts version self.now →
            result ≡ check User (are_named version (contents self.now)) }
    {
        if !self.are_named() {
            return Err(BadKind::User);
        }
        Ok(())
    }

    /// Whether the line may follow those of the head and of the plan.
    #[tactic(auto, unfolding(crate::specs::Reading::line_check))]
    pub fn check(&self, line: &ScenarioLine, head: Head) -> Result<(), BadKind>
        requires { Counts head.version self.now }
        ensures { result
            ≡ line_check head.version head.task_limit line.now (contents self.now) }
    {
        match line {
            ScenarioLine::User(user) if is_next_user(&self.users, user) => Ok(()),
            ScenarioLine::User(_) => Err(BadKind::User),
            ScenarioLine::Task(task) => self.check_task(task, head),
            ScenarioLine::Teach(_) => self.check_count(self.teaches.len(), MOST_TEACHES),
            ScenarioLine::Step(_) => self.check_count(self.steps.len(), MOST_STEPS),
            ScenarioLine::End => self.check_named(),
        }
    }

    /// Takes the task, whose user is named then.
    pub fn push_task(&mut self, task: TaskLine, version: u8) -> Result<(), ReadFault>
        requires few { HasFewLines (contents self.old) }
        ensures { MatchResult result
            (λ _. (contents self.new ≡ with_task task.spec (contents self.old))
            × (self.new.named ≡ named_after version task.user self.old.named))
            (λ fault. fault ≡ ReadFault.OutOfMemory) }
    {
        self.tasks.push(task.spec)?;
        if version == 2 && task.user as usize == self.named {
            self.named += 1;
        }
        Ok(())
    }
}
