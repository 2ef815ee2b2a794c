//! The text of a scenario, given to a sink line by line. Each line is put together without the sink,
//! so that only the sink can fail, and gets the line whole.

ghost use Rattle.std.specs.Prelude.{◌≡◌, ◌==◌, ◌+◌, ◌≤◌, if◌then◌else◌, [], ◌∷◌, ◌++◌, List, OnOk, OnErr, length, map, decimal};
ghost use Rattle.std.specs.List.{flat_map};
ghost use Rattle.cs_types.specs.declared.scenario.Scenario.{Scenario};
ghost use Rattle.cs_types.specs.Scenario.{IsValid};
ghost use Rattle.cs_outside.specs.Device.{appended, Rose, WritesPrefix};
ghost use Rattle.scenario_text.specs.Words.{Word, creds_words, user_words, teach_words};
ghost use Rattle.scenario_text.specs.Text.{line, line_bytes, spaced, version_words, siblings_words, limits_words, users_words, number_of, users_in, task_words_in, step_words, scenario_text};
ghost use Rattle.scenario_text.specs.Reader.{IsTextOf};

use crate::fields::{creds, further};
use crate::users::{are_new, number_of};
use cs_outside::{Failed, Sink, write_all};
use cs_types::{Creds, Scenario, Step, TaskSpec, Teach};
use scenario_text::Line;

/// What a scenario has a line for.
trait Lined {
    /// The words of its line.
    ghost words: { Self → List Word };

    /// Its line, with its line feed.
    fn line(&self) -> Line
        ensures { result ≡ line (words self.now) };
}

impl Lined for Teach {
    ghost words = { teach_words };

    fn line(&self) -> Line {
        let mut line = Line::new();
        line.named("teach", self.guard);
        further(&mut line, self.from);
        further(&mut line, self.to);
        line.text("\n");
        line
    }
}

impl Lined for Step {
    ghost words = { step_words };

    fn line(&self) -> Line {
        let mut line = Line::new();
        line.text("step ");
        line.made(self.actor, &self.event);
        line.text("\n");
        line
    }
}

fn version_line(scenario: &Scenario) -> Line
    ensures { result ≡ line (version_words scenario.now.version) }
{
    let mut line = Line::new();
    line.named("coresched", scenario.version);
    line.text("\n");
    line
}

fn siblings_line(scenario: &Scenario) -> Line
    ensures { result ≡ line (siblings_words scenario.now) }
{
    let mut line = Line::new();
    line.named("siblings", scenario.siblings);
    line.text("\n");
    line
}

fn limits_line(scenario: &Scenario) -> Line
    ensures { result ≡ line (limits_words scenario.now) }
{
    let mut line = Line::new();
    line.named("limits", scenario.task_limit);
    further(&mut line, scenario.cookie_limit);
    further(&mut line, scenario.user_top);
    line.text("\n");
    line
}

/// The line of the user of this number.
fn user_line(number: usize, user: &Creds) -> Line
    ensures { result ≡ line (user_words number user.now) }
{
    let mut line = Line::new();
    line.named("user", number);
    line.text(" ");
    creds(&mut line, *user);
    line.text("\n");
    line
}

/// Whose credentials one of these tasks has, in a text of this version: the number of the user, or the credentials.
fn owner(line: &mut Line, user: &Creds, version: u8, tasks: &[TaskSpec])
    requires { length line.old + 71 ≤ line_bytes }
    ensures text { line.new ≡ line.old ++ spaced (if version == 2
        then decimal (number_of (users_in version tasks.now) user.now) ∷ []
        else creds_words user.now) }
    ensures longest { length line.new ≤ length line.old + 71 }
{
    if version == 2 {
        line.number(number_of(tasks, user));
    } else {
        creds(line, *user);
    }
}

/// The line of one of these tasks, in a text of this version.
fn task_line(task: &TaskSpec, version: u8, tasks: &[TaskSpec]) -> Line
    ensures { result ≡ line (task_words_in version (users_in version tasks.now) task.now) }
{
    let mut line = Line::new();
    line.named("task", task.pid);
    further(&mut line, task.tgid);
    further(&mut line, task.pgid);
    further(&mut line, task.cpu);
    line.text(" ");
    line.policy(task.policy);
    line.text(" ");
    owner(&mut line, &task.creds, version, tasks);
    line.text("\n");
    line
}

/// The three lines that each text begins with.
fn write_head<K: Sink>(scenario: &Scenario, sink: &mut K) -> Result<(), Failed>
    ensures ok { OnOk result (K.written sink.new ≡ appended (K.written sink.old) (flat_map line
        (version_words scenario.now.version ∷ siblings_words scenario.now ∷ limits_words scenario.now ∷ []))) }
    ensures prefix { WritesPrefix (K.written sink.old) (flat_map line (version_words scenario.now.version
        ∷ siblings_words scenario.now ∷ limits_words scenario.now ∷ [])) (K.written sink.new) }

    ensures faultless { OnOk result (K.faults sink.new ≡ K.faults sink.old) }
    ensures failed { OnErr result (Rose (K.faults sink.old) (K.faults sink.new)) }
    ensures counted { K.faults sink.old ≤ K.faults sink.new }
{
    write_all(sink, version_line(scenario).as_bytes())?;
    write_all(sink, siblings_line(scenario).as_bytes())?;
    write_all(sink, limits_line(scenario).as_bytes())
}

/// The line of each user of the tasks that has one in a text of this version.
fn write_users<K: Sink>(tasks: &[TaskSpec], version: u8, sink: &mut K) -> Result<(), Failed>
    ensures ok { OnOk result (K.written sink.new
        ≡ appended (K.written sink.old) (flat_map line (users_words (users_in version tasks.now)))) }
    ensures prefix { WritesPrefix (K.written sink.old)
        (flat_map line (users_words (users_in version tasks.now))) (K.written sink.new) }

    ensures faultless { OnOk result (K.faults sink.new ≡ K.faults sink.old) }
    ensures failed { OnErr result (Rose (K.faults sink.old) (K.faults sink.new)) }
    ensures counted { K.faults sink.old ≤ K.faults sink.new }
{
    if version != 2 {
        return Ok(());
    }
    let mut number = 0;
    for place in 0..tasks.len() {
        let user = &tasks[place].creds;
        if are_new(&tasks[..place], user) {
            write_all(sink, user_line(number, user).as_bytes())?;
            number += 1;
        }
    }
    Ok(())
}

/// The line of each task, in a text of this version.
fn write_tasks<K: Sink>(tasks: &[TaskSpec], version: u8, sink: &mut K) -> Result<(), Failed>
    ensures ok { OnOk result (K.written sink.new ≡ appended (K.written sink.old)
        (flat_map line (map (task_words_in version (users_in version tasks.now)) tasks.now))) }
    ensures prefix { WritesPrefix (K.written sink.old)
        (flat_map line (map (task_words_in version (users_in version tasks.now)) tasks.now))
        (K.written sink.new) }

    ensures faultless { OnOk result (K.faults sink.new ≡ K.faults sink.old) }
    ensures failed { OnErr result (Rose (K.faults sink.old) (K.faults sink.new)) }
    ensures counted { K.faults sink.old ≤ K.faults sink.new }
{
    for task in tasks {
        write_all(sink, task_line(task, version, tasks).as_bytes())?;
    }
    Ok(())
}

/// The line of each item.
fn write_lines<T: Lined, K: Sink>(items: &[T], sink: &mut K) -> Result<(), Failed>
    ensures ok { OnOk result (K.written sink.new
        ≡ appended (K.written sink.old) (flat_map line (map T.words items.now))) }
    ensures prefix { WritesPrefix (K.written sink.old)
        (flat_map line (map T.words items.now)) (K.written sink.new) }

    ensures faultless { OnOk result (K.faults sink.new ≡ K.faults sink.old) }
    ensures failed { OnErr result (Rose (K.faults sink.old) (K.faults sink.new)) }
    ensures counted { K.faults sink.old ≤ K.faults sink.new }
{
    for item in items {
        write_all(sink, item.line().as_bytes())?;
    }
    Ok(())
}

/// Writes the text of the scenario to the sink: each line in one piece, and again with the rest if
/// the sink took only a part. It takes no memory.
///
/// At an `Err` the sink has failed, and a prefix of the text is written.
pub fn scenario_text<K: Sink>(scenario: &Scenario, sink: &mut K) -> Result<(), Failed>
    ensures ok { OnOk result (K.written sink.new
        ≡ appended (K.written sink.old) (scenario_text scenario.now)) }
    ensures prefix { WritesPrefix (K.written sink.old)
        (scenario_text scenario.now) (K.written sink.new) }

    ensures faultless { OnOk result (K.faults sink.new ≡ K.faults sink.old) }
    ensures failed { OnErr result (Rose (K.faults sink.old) (K.faults sink.new)) }
    ensures counted { K.faults sink.old ≤ K.faults sink.new }

    // The text of a valid scenario is that of no other, so it is read back as that scenario.
    ensures read_back { IsValid scenario.now → (other : Scenario) →
        IsTextOf (scenario_text scenario.now) other → other ≡ scenario.now }
{
    let tasks = scenario.tasks.items();
    write_head(scenario, sink)?;
    write_users(tasks, scenario.version, sink)?;
    write_tasks(tasks, scenario.version, sink)?;
    write_lines(scenario.teaches.items(), sink)?;
    write_lines(scenario.steps.items(), sink)?;
    write_all(sink, b"end\n")
}
