//! The parser of the words: one program with one level of subcommands.

ghost use Rattle.std.specs.Prelude.{◌≡◌, IfOk, false, [], map, option_map};
ghost use Rattle.std.specs.Bool.{then_some};
ghost use Rattle.std.specs.List.{list_any};
ghost use Rattle.std.specs.String.{string_bytes};
ghost use Rattle.clap.specs.declared.builder.command.Command.TheViews.{out-Command as fields_of};
ghost use Rattle.clap.specs.Simple.{app_of, subcommand_rows_of};
ghost use Rattle.clap.specs.Walk.{is_empty};
ghost use Rattle.command_words.specs.Forms.{is_command, is_option, words_of};
ghost use Rattle.command_words.specs.Program.{command_of, program as grammar_of, words_met};

use crate::forms::{CommandForm, Value};
use clap::error::ErrorKind;
use clap::{Arg, ArgMatches, Command};
use std::alloc::{AllocError, Global};

/// A command of this form.
fn command<'a>(alloc: Global, form: CommandForm<'a>) -> Result<Command<'a>, AllocError>
    ensures { IfOk result (λ command. (app_of command
        ≡ record { top = command_of form.entry.name.now form.entry.value; subs = [] })
        × ((fields_of command).has_globals ≡ false)) }
{
    let command = Command::new(alloc, form.name);
    match form.value {
        Value::Absent => Ok(command),
        Value::Required => command.arg(Arg::new(alloc, "value").required(true)),
        Value::Optional => command.arg(Arg::new(alloc, "value")),
    }
}

/// The program's grammar: all words are its own, none asks for help or for a version, and a command has to be named.
fn grammar<'a>(
    alloc: Global,
    program: &'a str,
    forms: &[CommandForm<'a>],
) -> Result<Command<'a>, AllocError>
    ensures { IfOk result
        (λ grammar. app_of grammar ≡ grammar_of (is_empty forms.now) program.now forms.now) }
{
    let mut grammar = Command::new(alloc, program)
        .no_binary_name(true)
        .disable_help_flag(true)
        .disable_help_subcommand(true)
        .disable_version_flag(true)
        .subcommand_required(true);
    for form in forms {
        grammar = grammar.subcommand(command(alloc, *form)?)?;
    }
    Ok(grammar)
}

/// The name and the value of these matches.
fn matched<'a>(matches: &ArgMatches<'a>) -> Option<(&'a str, Option<&'a str>)>
    ensures { option_map words_of result ≡ option_map words_met (subcommand_rows_of matches.now) }
{
    let (name, values) = matches.subcommand()?;
    Some((name, values.get_str("value")))
}

/// The name and the value that the parser finds in words of which none begins with `-`.
pub(crate) fn parsed<'a>(
    alloc: Global,
    program: &'a str,
    forms: &[CommandForm<'a>],
    words: &'a [String],
) -> Result<Option<(&'a str, Option<&'a str>)>, AllocError>
    requires { list_any is_option (map string_bytes words.now) ≡ false }
    ensures { IfOk result (λ read. option_map words_of read ≡ then_some
        (is_command forms.now (map string_bytes words.now)) (map string_bytes words.now)) }
{
    let grammar = grammar(alloc, program, forms)?;
    match grammar.try_get_matches_from(words) {
        Ok(matches) => Ok(matched(&matches)),
        Err(error) if error.kind() == ErrorKind::OutOfMemory => Err(AllocError),
        Err(_) => Ok(None),
    }
}
