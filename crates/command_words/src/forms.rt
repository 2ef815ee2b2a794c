//! The commands of a program, each by its form, and the words read by these.

ghost use Rattle.std.specs.Prelude.{◌≡◌, map, option_map};
ghost use Rattle.std.specs.Bool.{then_some};
ghost use Rattle.std.specs.List.{list_any};
ghost use Rattle.std.specs.String.{string_bytes};
ghost use Rattle.command_words.specs.Forms.{form_named, is_command, is_option, is_plain_command, words_of};

use crate::parser::parsed;
use std::alloc::Global;

/// Whether a value, which is one word, follows the name of a command.
#[derive(Clone, Copy)]
pub enum Value {
    /// No word may follow.
    Absent,
    /// Exactly one word has to follow.
    Required,
    /// At most one word may follow.
    Optional,
}

/// The form of a command's words.
#[derive(Clone, Copy)]
pub struct CommandForm<'a> {
    /// The first word.
    pub name: &'a str,
    /// Whether a value follows it.
    pub value: Value,
}

/// Whether the word begins with `-`.
fn is_option(word: &str) -> bool
    ensures { result ≡ is_option word.now }
{
    matches!(word.as_bytes(), [b'-', ..])
}

/// Whether one of the words begins with `-`.
fn has_option(words: &[String]) -> bool
    ensures { result ≡ list_any is_option (map string_bytes words.now) }
{
    words.iter().any(|word| is_option(word))
}

/// The first form of this name.
fn form_of<'a>(forms: &[CommandForm<'a>], name: &str) -> Option<CommandForm<'a>>
    ensures { result ≡ form_named name.now forms.entry.now }
{
    forms.iter().find(|form| form.name == name).copied()
}

/// The name and the value, by a look at the words letter by letter. It takes no memory.
fn spelled<'a>(forms: &[CommandForm], words: &'a [String]) -> Option<(&'a str, Option<&'a str>)>
    ensures { option_map words_of result ≡ then_some
        (is_command forms.now (map string_bytes words.now)) (map string_bytes words.now) }
{
    let (name, values) = words.split_first()?;
    let name = name.as_str();
    let form = form_of(forms, name)?;
    match (form.value, values) {
        (Value::Absent | Value::Optional, []) => Some((name, None)),
        (Value::Required | Value::Optional, [value]) => Some((name, Some(value.as_str()))),
        _ => None,
    }
}

/// The name of the command that the words are, and its value, or `None` if they are no command's. No word of a command
/// begins with `-`. If there is no memory to parse the words, they are looked at letter by letter, so the answer is the
/// same with little memory and with much.
pub fn read_words<'a>(
    alloc: Global,
    program: &'a str,
    forms: &[CommandForm<'a>],
    words: &'a [String],
) -> Option<(&'a str, Option<&'a str>)>
    ensures { option_map words_of result ≡ then_some
        (is_plain_command forms.now (map string_bytes words.now)) (map string_bytes words.now) }
{
    if has_option(words) {
        return None;
    }
    match parsed(alloc, program, forms, words) {
        Ok(read) => read,
        Err(_) => spelled(forms, words),
    }
}
