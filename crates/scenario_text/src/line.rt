//! The lines after the head, each in the form that follows from its first word and the number of its
//! words. It is separate from the forms: a new form is one more variant here.

ghost use Rattle.std.specs.Prelude.{◌≡◌, true, codes};
ghost use Rattle.scenario_text.specs.Grammar.{is_word};
ghost use Rattle.scenario_text.specs.Reading.{lent, user_line, task_line, teach_line, line_of};

use crate::fault::BadKind;
use crate::step::parse_step;
use crate::task::{TaskLine, UserLine, parse_task, parse_user};
use crate::teach::parse_teach;
use crate::words::is_word;
use cs_types::{Creds, Step, Teach};

/// What a line after the head says.
#[derive(Drop)]
pub(crate) enum ScenarioLine {
    User(UserLine),
    Task(TaskLine),
    Teach(Teach),
    Step(Step),
    End,
}

/// Where a line stands.
#[derive(Clone, Copy)]
pub(crate) struct Place {
    /// Its number in the text, from 1.
    pub number: u32,
    /// Whether a task line stands before it.
    pub is_after_task: bool,
    /// Whether a teach line stands before it.
    pub is_after_teach: bool,
    /// Whether a step line stands before it.
    pub is_after_step: bool,
}

/// A user line, in a text of this version. It may not stand after a task line, a teach line or a step line.
fn parse_user_line(words: &[&[u8]], version: u8, place: Place) -> Result<ScenarioLine, BadKind>
    requires { is_word ((lent words.now).at 0) (codes "user") ≡ true }
    ensures { result ≡ user_line version place (lent words.now) }
{
    if version != 2 || place.is_after_task || place.is_after_teach || place.is_after_step {
        return Err(BadKind::Shape);
    }
    parse_user(words).map(ScenarioLine::User)
}

/// A task line, beside these users. None may stand after a teach line or a step line.
fn parse_task_line(
    words: &[&[u8]],
    version: u8,
    siblings: u8,
    users: &[Creds],
    place: Place,
) -> Result<ScenarioLine, BadKind>
    requires { is_word ((lent words.now).at 0) (codes "task") ≡ true }
    ensures { result ≡ task_line version siblings users.now place (lent words.now) }
{
    if place.is_after_teach || place.is_after_step {
        return Err(BadKind::Shape);
    }
    parse_task(words, version, siblings, users).map(ScenarioLine::Task)
}

/// A teach line. It may not stand after a step line.
fn parse_teach_line(words: &[&[u8]], place: Place) -> Result<ScenarioLine, BadKind>
    requires { is_word ((lent words.now).at 0) (codes "teach") ≡ true }
    ensures { result ≡ teach_line place (lent words.now) }
{
    if place.is_after_step {
        return Err(BadKind::Shape);
    }
    parse_teach(words, place.number).map(ScenarioLine::Teach)
}

/// The line that the words spell at this place, in a text of this version, beside these users and in a core with this
/// number of siblings.
#[tactic(auto, unfolding(crate::specs::Reading::line_of))]
pub(crate) fn parse_line(
    words: &[&[u8]],
    version: u8,
    siblings: u8,
    users: &[Creds],
    place: Place,
) -> Result<ScenarioLine, BadKind>
    ensures { result ≡ line_of version siblings users.now place (lent words.now) }
{
    let [name, ..] = *words else {
        return Err(BadKind::Shape);
    };
    if is_word(name, "step") {
        parse_step(words, siblings).map(ScenarioLine::Step)
    } else if is_word(name, "task") {
        parse_task_line(words, version, siblings, users, place)
    } else if is_word(name, "teach") {
        parse_teach_line(words, place)
    } else if is_word(name, "user") {
        parse_user_line(words, version, place)
    } else if is_word(name, "end") && words.len() == 1 {
        Ok(ScenarioLine::End)
    } else {
        Err(BadKind::Shape)
    }
}
