//! The reader of scenario texts: the public call, over lines and the plan.

ghost use Rattle.std.specs.Prelude.{ℕ, ◌≡◌, ◌⊎◌, ◌≤◌, ◌++◌, length, MatchResult, IfOk, IfErr, IsErrAnd};
ghost use Rattle.cs_types.specs.declared.scenario.Scenario.{Scenario};
ghost use Rattle.scenario_text.specs.Faults.{lines_in, IsFirstBad};
ghost use Rattle.scenario_text.specs.Reader.{IsTextOf, HasNoScenario, HasOneScenario, Tells};
ghost use Rattle.scenario_text.specs.Reading.{Takes, contents, HasFewLines, Counts, next_of, IsHead, head_lines, AreGood, ReadsPlan, ReadsLines};

use crate::fault::{BadKind, ReadFault};
use crate::head::{Head, next_head};
use crate::line::{ScenarioLine, parse_line};
use crate::lines::Lines;
use crate::plan::Plan;
use crate::words::{Slots, slots};
use cs_types::{List, Scenario};
use std::alloc::Global;

/// The next line, which may follow those of the plan. Its words are put into the slots, in place of
/// another line's.
fn next_line<'a>(
    lines: &mut Lines<'a>,
    slots: &mut Slots<'a>,
    head: Head,
    plan: &Plan,
) -> Result<ScenarioLine, BadKind>
    requires head { IsHead head }
    requires few { HasFewLines (contents plan.now) }
    requires counted { Counts head.version plan.now }
    ensures { Takes (λ line. line) result lines.new (next_of head (contents plan.now) lines.old) }
{
    let words = lines.next_line(slots)?;
    let line = parse_line(
        words,
        head.version,
        head.siblings,
        &plan.users,
        plan.place(),
    )?;
    plan.check(&line, head)?;
    Ok(line)
}

/// The users, the tasks, the teach lines and the steps of the lines up to `end`, after which nothing stands.
fn read_plan(alloc: Global, lines: &mut Lines<'_>, head: Head) -> Result<Plan, ReadFault>
    requires head { IsHead head }
    requires some { 1 ≤ length lines.old }
    requires good { AreGood (head_lines head ++ lines.old) 3 }
    ensures { ReadsPlan head lines.old result }
{
    let mut plan = Plan::new(alloc);
    let mut slots = slots();
    loop {
        lines.take_usual_steps(head.siblings, plan.are_named(), &mut plan.steps)?;
        let line = match next_line(lines, &mut slots, head, &plan) {
            Ok(line) => line,
            Err(kind) => {
                let line = plan.place().number;
                return Err(ReadFault::Bad { line, kind });
            }
        };
        match line {
            ScenarioLine::User(user) => plan.users.push(user.creds)?,
            ScenarioLine::Task(task) => plan.push_task(task, head.version)?,
            ScenarioLine::Teach(teach) => plan.teaches.push(teach)?,
            ScenarioLine::Step(step) => plan.steps.push(step)?,
            ScenarioLine::End => break,
        }
    }
    if !lines.is_empty() {
        return Err(ReadFault::Bad {
            line: plan.place().number + 1,
            kind: BadKind::After,
        });
    }
    Ok(plan)
}

/// The scenario of the lines, after which nothing stands.
fn read_lines(alloc: Global, mut lines: Lines<'_>) -> Result<Scenario, ReadFault>
    requires { 1 ≤ length lines }
    ensures { ReadsLines lines.entry result }
{
    let head = next_head(&mut lines)?;
    let plan = read_plan(alloc, &mut lines, head)?;
    Ok(Scenario {
        version: head.version,
        siblings: head.siblings,
        task_limit: head.task_limit,
        cookie_limit: head.cookie_limit,
        user_top: head.user_top,
        tasks: List::of(plan.tasks),
        teaches: List::of(plan.teaches),
        steps: List::of(plan.steps),
    })
}

/// The scenario of a text.
///
/// A text is the lines `coresched` VERSION, `siblings` COUNT and `limits` TASKS COOKIES TOP, then in version 2 the user
/// lines, then the task lines, the teach lines, the step lines and the line `end`. Each line ends with a line feed, and
/// one space stands between two of its words.
///
/// # Errors
///
/// [`ReadFault::Bad`] exactly if the bytes are the text of no valid scenario: with the first line that is
/// bad, counted from 1, and the first of the kinds of [`BadKind`](crate::BadKind) that hold of it.
/// [`ReadFault::OutOfMemory`] if there is no memory for its users, tasks, teach lines and steps.
pub fn read(alloc: Global, bytes: &[u8]) -> Result<Scenario, ReadFault>
    // What is read is the scenario of the text.
    ensures found { IfOk result (IsTextOf bytes.now) }

    // The text of a scenario is read as that scenario, unless memory runs out.
    ensures only { (scenario : Scenario) → IsTextOf bytes.now scenario →
        MatchResult result (λ read. read ≡ scenario) (λ fault. fault ≡ ReadFault.OutOfMemory) }

    // A text has one scenario at most.
    ensures one { HasOneScenario bytes.now }

    // A fault names the first bad line and its first kind, unless memory ran out.
    ensures told { IfErr result (Tells (lines_in bytes.now)) }

    // If there is a first bad line, it is named, unless memory runs out.
    ensures bad { (line : ℕ) (kind : BadKind) → IsFirstBad (lines_in bytes.now) line kind →
        IsErrAnd result (λ fault. (fault ≡ ReadFault.Bad line kind)
        ⊎ (fault ≡ ReadFault.OutOfMemory)) }

    // A text with a bad line is no scenario's.
    ensures none { (line : ℕ) (kind : BadKind) → IsFirstBad (lines_in bytes.now) line kind →
        HasNoScenario bytes.now }
{
    read_lines(alloc, Lines::of(bytes))
}
