//! The commands, each by its word.

ghost use Rattle.std.specs.Prelude.{◌≡◌, ◌↔◌, [], ◌∷◌, Some, option_map};
ghost use Rattle.command_words.specs.Forms.{words_by};
ghost use Rattle.view_words.specs.Asks.{Asks, word_of};

use command_words::{CommandForm, Value, read_words};
use std::alloc::Global;

/// What the program is asked to show of a run, or of a text.
#[derive(Clone, Copy)]
pub enum Command {
    /// `summary`: for how long what was so.
    Summary,
    /// `table`: the same, for a person.
    Table,
    /// `segments`: what each sibling did when, as a table.
    Segments,
    /// `segments-json`: the same, as lines of JSON.
    SegmentsJson,
    /// `picture`: the same, drawn.
    Picture,
    /// `explain`: nothing of a run, but what is wrong with the text.
    Explain,
}

/// The forms of the commands.
const FORMS: [CommandForm<'static>; 6] = [
    CommandForm {
        name: "summary",
        value: Value::Absent,
    },
    CommandForm {
        name: "table",
        value: Value::Absent,
    },
    CommandForm {
        name: "segments",
        value: Value::Absent,
    },
    CommandForm {
        name: "segments-json",
        value: Value::Absent,
    },
    CommandForm {
        name: "picture",
        value: Value::Absent,
    },
    CommandForm {
        name: "explain",
        value: Value::Absent,
    },
];

/// The command of this name, where no value follows it.
fn named(name: &str, value: Option<&str>) -> Option<Command>
    ensures { (command : Command) → (result ≡ Some command)
        ↔ (words_by name.now (option_map (λ text. text.now) value.entry) ≡ word_of command ∷ []) }
{
    match (name, value) {
        ("summary", None) => Some(Command::Summary),
        ("table", None) => Some(Command::Table),
        ("segments", None) => Some(Command::Segments),
        ("segments-json", None) => Some(Command::SegmentsJson),
        ("picture", None) => Some(Command::Picture),
        ("explain", None) => Some(Command::Explain),
        _ => None,
    }
}

/// The command that the words ask for, or `None` where they are no command's. A command has one word. Where there is no
/// memory to parse the words, they are looked at letter by letter, so the answer is the same with little memory and with
/// much.
pub fn command_of(alloc: Global, words: &[String]) -> Option<Command>
    ensures asked { (command : Command) → (result ≡ Some command) ↔ Asks command words.now }
{
    let (name, value) = read_words(alloc, "coresched_view", &FORMS, words)?;
    named(name, value)
}
