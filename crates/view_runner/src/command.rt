//! The commands, each by its word.

ghost use Rattle.std.specs.Prelude.{◌≡◌, ◌↔◌, ◌-◌, ◌^◌, ◌<◌, map};
ghost use Rattle.view_words.specs.declared.command.Command.{Command as SomeCommand};
ghost use Rattle.view_words.specs.Asks.{Asks};
ghost use Rattle.ptrace_check.specs.Guards.{AreFresh};
ghost use Rattle.view_runner.specs.Ends.{EndsBy};

use crate::explained::explained;
use crate::played::{SummaryForm, summarized};
use crate::shown::{Form, shown};
use cs_outside::{Guard, Sink, Source};
use cs_types::FromScenario;
use ptrace_check::Guards;
use scenario_input::Status;
use std::alloc::Global;
use view_words::{Command, command_of};

/// Reads a scenario to its end, makes its steps in the order of their lines and then the entries of the end, as
/// `coresched replay` does, and writes what the command of the words shows of the run. It waits for nobody and always
/// returns.
///
/// With the word `summary` it writes for how long what was so, with `table` the same for a person, with `segments` and
/// `segments-json` what each sibling did when, as a table and as lines of JSON, and with `picture` the same, drawn. With
/// `explain` it plays nothing: it writes what a scenario has, or what is wrong with the text. Other words are refused.
/// Both counts of faults have to be below 2^64 - 1. At most 16 guards are handed in, which refuse nobody yet and were never
/// asked. The scenario teaches them before it is played, and they are dropped at the end. `R` is the machine that plays
/// it.
pub fn run<R: FromScenario<Guards<G>>, S: Source, K: Sink, G: Guard>(
    alloc: Global,
    words: &[String],
    source: &mut S,
    sink: &mut K,
    guards: Vec<G>,
) -> Status
    requires source { S.faults source.old < 2 ^ 64 - 1 }
    requires sink { K.faults sink.old < 2 ^ 64 - 1 }
    requires fresh { AreFresh G.pairs G.asked guards.items }

    // When each status comes, what was read for it, and what was written, by the command of the words.
    ensures ends { (command : SomeCommand) → Asks command words.now →
        EndsBy command (map G.cap guards.items)
        (record { bytes = S.left; faults = S.faults; before = source.old; after = source.new })
        (record { bytes = K.written; faults = K.faults; before = sink.old; after = sink.new })
        result }

    // Other words are refused, and no other. Nothing is read for them and nothing written.
    ensures bad_words { (result ≡ Status.BadWords)
        ↔ ((command : SomeCommand) → ¬ Asks command words.now) }
    ensures unread { result ≡ Status.BadWords → source.new ≡ source.old }
    ensures unwritten { result ≡ Status.BadWords → sink.new ≡ sink.old }
{
    match command_of(alloc, words) {
        Some(Command::Summary) => {
            summarized::<R, S, K, G>(alloc, SummaryForm::Lines, source, sink, guards)
        }
        Some(Command::Table) => {
            summarized::<R, S, K, G>(alloc, SummaryForm::Table, source, sink, guards)
        }
        Some(Command::Segments) => shown::<R, S, K, G>(alloc, Form::Table, source, sink, guards),
        Some(Command::SegmentsJson) => shown::<R, S, K, G>(alloc, Form::Json, source, sink, guards),
        Some(Command::Picture) => shown::<R, S, K, G>(alloc, Form::Picture, source, sink, guards),
        Some(Command::Explain) => explained::<S, K, G>(alloc, source, sink, guards),
        None => Status::BadWords,
    }
}
