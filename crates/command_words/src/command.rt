//! The commands, each by its words.

ghost use Rattle.std.specs.Prelude.{◌≡◌, ◌↔◌, ℕ, Bool, IsTrue, Some, option_map};
ghost use Rattle.command_words.specs.declared.command.Command.TheVariants.{Replay, Upgrade, Check, Drill};
ghost use Rattle.command_words.specs.Asks.{Asks, HasSeed, words_of};
ghost use Rattle.command_words.specs.Forms.{words_by};

use crate::forms::{CommandForm, Value, read_words};
use crate::seed::canonical;
use std::alloc::Global;

/// What the program is asked to do.
#[derive(Clone, Copy, Debug, PartialEq, Eq)]
pub enum Command {
    /// `replay`: a scenario is played in the order of its lines.
    Replay,
    /// `race`: each actor of a scenario makes its script in a worker of its own.
    Race,
    /// `upgrade`: a scenario of either version is written in version 2.
    Upgrade,
    /// `check` or `check json`: it is said, as text or in JSON, whether a printed run that follows a scenario is one of
    /// it.
    Check { json: bool },
    /// `drill` and a seed: the scenario that is generated from the seed is played.
    Drill { seed: u32 },
}

/// The forms of the commands.
const FORMS: [CommandForm<'static>; 5] = [
    CommandForm {
        name: "replay",
        value: Value::Absent,
    },
    CommandForm {
        name: "race",
        value: Value::Absent,
    },
    CommandForm {
        name: "upgrade",
        value: Value::Absent,
    },
    CommandForm {
        name: "check",
        value: Value::Optional,
    },
    CommandForm {
        name: "drill",
        value: Value::Required,
    },
];

/// The command of this name and value, if there is one.
fn named(name: &str, value: Option<&str>) -> Option<Command>
    ensures { (command : Command) → (result ≡ Some command)
        ↔ ((words_by name.now (option_map (λ text. text.now) value.entry) ≡ words_of command)
        × HasSeed command) }
{
    match (name, value) {
        ("replay", None) => Some(Command::Replay),
        ("race", None) => Some(Command::Race),
        ("upgrade", None) => Some(Command::Upgrade),
        ("check", None) => Some(Command::Check { json: false }),
        ("check", Some("json")) => Some(Command::Check { json: true }),
        ("drill", Some(seed)) => canonical(seed).map(|seed| Command::Drill { seed }),
        _ => None,
    }
}

/// The command that the words ask for, or `None` if they are no command's. A seed is a decimal number below
/// 4,294,967,296, with no sign and no leading 0 but in `0` itself. If there is no memory to parse the words, they are
/// looked at letter by letter, so the answer is the same with little memory and with much.
#[tactic(auto, using(crate::proofs::Seeds::plain_decimal))]
pub fn command_of(alloc: Global, words: &[String]) -> Option<Command>
    ensures asked { (command : Command) → (result ≡ Some command) ↔ Asks command words.now }
{
    let (name, value) = read_words(alloc, "coresched", &FORMS, words)?;
    named(name, value)
}

/// Whether the words ask for a replay.
pub fn is_replay(alloc: Global, words: &[String]) -> bool
    ensures { IsTrue result ↔ Asks Replay words.now }
{
    match command_of(alloc, words) {
        Some(Command::Replay) => true,
        Some(Command::Race) => false,
        Some(Command::Upgrade) => false,
        Some(Command::Check { .. }) => false,
        Some(Command::Drill { .. }) => false,
        None => false,
    }
}

/// Whether the words ask for an upgrade.
pub fn is_upgrade(alloc: Global, words: &[String]) -> bool
    ensures { IsTrue result ↔ Asks Upgrade words.now }
{
    match command_of(alloc, words) {
        Some(Command::Upgrade) => true,
        Some(Command::Replay) => false,
        Some(Command::Race) => false,
        Some(Command::Check { .. }) => false,
        Some(Command::Drill { .. }) => false,
        None => false,
    }
}

/// Whether the check that the words ask for is told in JSON, or `None` if they ask for none.
pub fn check_json(alloc: Global, words: &[String]) -> Option<bool>
    ensures { (json : Bool) → (result ≡ Some json) ↔ Asks (Check json) words.now }
{
    match command_of(alloc, words) {
        Some(Command::Check { json }) => Some(json),
        Some(Command::Replay) => None,
        Some(Command::Race) => None,
        Some(Command::Upgrade) => None,
        Some(Command::Drill { .. }) => None,
        None => None,
    }
}

/// The seed of the drill that the words ask for, or `None` if they ask for none.
pub fn drill_seed(alloc: Global, words: &[String]) -> Option<u32>
    ensures { (seed : ℕ) → (result ≡ Some seed) ↔ Asks (Drill seed) words.now }
{
    match command_of(alloc, words) {
        Some(Command::Drill { seed }) => Some(seed),
        Some(Command::Replay) => None,
        Some(Command::Race) => None,
        Some(Command::Upgrade) => None,
        Some(Command::Check { .. }) => None,
        None => None,
    }
}
