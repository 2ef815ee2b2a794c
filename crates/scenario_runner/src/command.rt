//! The commands, each by its words.

ghost use Rattle.std.specs.Prelude.{◌≡◌, ◌↔◌, ℕ, Bool, ◌-◌, ◌^◌, ◌<◌, map};
ghost use Rattle.command_words.specs.declared.command.Command.{Command as SomeCommand};
ghost use Rattle.command_words.specs.declared.command.Command.TheVariants.{Replay, Upgrade, Check, Drill};
ghost use Rattle.command_words.specs.Asks.{Asks};
ghost use Rattle.ptrace_check.specs.Guards.{AreFresh};
ghost use Rattle.scenario_runner.specs.Ends.{EndsAsReplay, EndsAsUpgrade, EndsAsCheck, EndsAsDrill, EndsBy};

use crate::checked::checked;
use crate::drilled::drilled;
use crate::played::{raced, replayed};
use crate::upgraded::upgraded;
use command_words::{Command, check_json, command_of, drill_seed, is_replay, is_upgrade};
use cs_outside::{Gate, Guard, Sink, Source};
use cs_types::FromScenario;
use ptrace_check::Guards;
use scenario_input::Status;
use std::alloc::Global;
use std::sync::Wait;
use std::thread::Threads;

/// Reads a scenario to its end, makes its steps in the order of their lines and then the entries of the final drain,
/// and writes the line of each entry and the report, each line in one piece. It waits for nobody and always returns.
///
/// The word is `replay`; other words are refused. Both counts of faults have to be below 2^64 - 1. At most 16 guards
/// are handed in, which refuse nobody yet and were never asked. The scenario teaches them before it is played, and they
/// are dropped at the end. `R` is the machine that plays it.
pub fn replay<R: FromScenario<Guards<G>>, S: Source, K: Sink, G: Guard>(
    alloc: Global,
    words: &[String],
    source: &mut S,
    sink: &mut K,
    guards: Vec<G>,
) -> Status
    requires source { S.faults source.old < 2 ^ 64 - 1 }
    requires sink { K.faults sink.old < 2 ^ 64 - 1 }
    requires fresh { AreFresh G.pairs G.asked guards.items }

    // When each status comes, what was read for it, and what was written.
    ensures ends { Asks Replay words.now → EndsAsReplay (map G.cap guards.items)
        (record { bytes = S.left; faults = S.faults; before = source.old; after = source.new })
        (record { bytes = K.written; faults = K.faults; before = sink.old; after = sink.new })
        result }

    // Other words are refused, and no other. Nothing is read for them and nothing written.
    ensures bad_words { (result ≡ Status.BadWords) ↔ ¬ Asks Replay words.now }
    ensures unread { result ≡ Status.BadWords → source.new ≡ source.old }
    ensures unwritten { result ≡ Status.BadWords → sink.new ≡ sink.old }
{
    if !is_replay(alloc, words) {
        return Status::BadWords;
    }
    replayed::<R, S, K, G>(alloc, source, sink, guards)
}

/// Reads a scenario of either version to its end, and writes its text in version 2, each line in one piece. A run of
/// that has the output of the same run of what was read. It waits for nobody and always returns.
///
/// The word is `upgrade`; other words are refused. Both counts of faults have to be below 2^64 - 1.
pub fn upgrade<S: Source, K: Sink>(
    alloc: Global,
    words: &[String],
    source: &mut S,
    sink: &mut K,
) -> Status
    requires source { S.faults source.old < 2 ^ 64 - 1 }
    requires sink { K.faults sink.old < 2 ^ 64 - 1 }

    // When each status comes, what was read for it, and what was written.
    ensures ends { Asks Upgrade words.now → EndsAsUpgrade
        (record { bytes = S.left; faults = S.faults; before = source.old; after = source.new })
        (record { bytes = K.written; faults = K.faults; before = sink.old; after = sink.new })
        result }

    // Other words are refused, and no other. Nothing is read for them and nothing written.
    ensures bad_words { (result ≡ Status.BadWords) ↔ ¬ Asks Upgrade words.now }
    ensures unread { result ≡ Status.BadWords → source.new ≡ source.old }
    ensures unwritten { result ≡ Status.BadWords → sink.new ≡ sink.old }
{
    if !is_upgrade(alloc, words) {
        return Status::BadWords;
    }
    upgraded(alloc, source, sink)
}

/// Reads a scenario of either version, and behind it a printed run, to their end, and writes the verdict on the run:
/// whether `race` or `replay` may write it of that scenario, and if not, its first wrong line. The scenario ends with
/// the first line that is exactly `end`, and what stands behind that line is the run. It waits for nobody and always
/// returns.
///
/// The words are `check`, and the verdict is told in lines, or `check json`, and it is one line of JSON; other words
/// are refused. Both counts of faults have to be below 2^64 - 1. The guards are those of a replay. The verdict is made
/// in memory before any of it is written, so nothing is written if there is none. `C` is the machine that judges.
pub fn check<C: FromScenario<Guards<G>>, S: Source, K: Sink, G: Guard>(
    alloc: Global,
    words: &[String],
    source: &mut S,
    sink: &mut K,
    guards: Vec<G>,
) -> Status
    requires source { S.faults source.old < 2 ^ 64 - 1 }
    requires sink { K.faults sink.old < 2 ^ 64 - 1 }
    requires fresh { AreFresh G.pairs G.asked guards.items }

    // When each status comes, what was read for it, and what was written.
    ensures ends { (json : Bool) → Asks (Check json) words.now →
        EndsAsCheck json (map G.cap guards.items)
        (record { bytes = S.left; faults = S.faults; before = source.old; after = source.new })
        (record { bytes = K.written; faults = K.faults; before = sink.old; after = sink.new })
        result }

    // Other words are refused, and no other. Nothing is read for them and nothing written.
    ensures bad_words { (result ≡ Status.BadWords)
        ↔ ((json : Bool) → ¬ Asks (Check json) words.now) }
    ensures unread { result ≡ Status.BadWords → source.new ≡ source.old }
    ensures unwritten { result ≡ Status.BadWords → sink.new ≡ sink.old }
{
    match check_json(alloc, words) {
        Some(json) => checked::<C, S, K, G>(alloc, source, sink, guards, json),
        None => Status::BadWords,
    }
}

/// Draws the scenario of a seed, makes its steps in their order and then the entries of the final drain, and writes how
/// many entries, picks and tries to steal there were, and the report, each line in one piece. It reads nothing, waits
/// for nobody and always returns.
///
/// The words are `drill` and the seed, a decimal number from 0 to 4294967295 with no sign and no leading 0 but in `0`
/// itself; other words are refused. The sink's count of faults has to be below 2^64 - 1. `R` is the machine that plays
/// it. No guard is handed in; `G` is the type that they would have.
pub fn drill<R: FromScenario<Guards<G>>, K: Sink, G: Guard>(
    alloc: Global,
    words: &[String],
    sink: &mut K,
) -> Status
    requires sink { K.faults sink.old < 2 ^ 64 - 1 }

    // When each status comes, and what was written.
    ensures ends { (seed : ℕ) → Asks (Drill seed) words.now → EndsAsDrill seed
        (record { bytes = K.written; faults = K.faults; before = sink.old; after = sink.new })
        result }

    // Other words are refused, and no other. Nothing is written for them.
    ensures bad_words { (result ≡ Status.BadWords) ↔ ((seed : ℕ) → ¬ Asks (Drill seed) words.now) }
    ensures unwritten { result ≡ Status.BadWords → sink.new ≡ sink.old }
{
    match drill_seed(alloc, words) {
        Some(seed) => drilled::<R, K, G>(alloc, seed, sink),
        None => Status::BadWords,
    }
}

/// Runs the command of the words. The words of `replay`, of `upgrade`, of `check` and of `drill` are those of these
/// calls, and it does what they do. With the word `race` a scenario is read as for `replay`. Each actor that has a step
/// line makes its script in a worker of its own, and the order of the entries is that in which the workers come to the
/// room. A worker passes the gate before each of its turns, even before the one that finds its script done. Other words
/// are no command's.
///
/// Else it asks for what `replay` asks for. With the word `race` it may wait, so its return is not promised. `R` is the
/// machine that plays, and `C` the one that judges a printed run. A drill and an upgrade have no guards, so those that
/// are handed in are dropped.
pub fn run<
    R: FromScenario<Guards<G>> + Send,
    C: FromScenario<Guards<G>>,
    T: Threads + Wait + AllocGlobal + Sync,
    S: Source,
    K: Sink,
    P: Gate + Sync,
    G: Guard,
>(rt: &T, words: &[String], source: &mut S, sink: &mut K, gate: &P, guards: Vec<G>) -> Status
    requires source { S.faults source.old < 2 ^ 64 - 1 }
    requires sink { K.faults sink.old < 2 ^ 64 - 1 }
    requires fresh { AreFresh G.pairs G.asked guards.items }

    // When each status comes, what was read for it, and what was written, by the command of the words.
    ensures ends { (command : SomeCommand) → Asks command words.now →
        EndsBy command (map G.cap guards.items)
        (record { bytes = S.left; faults = S.faults; before = source.old; after = source.new })
        (record { bytes = K.written; faults = K.faults; before = sink.old; after = sink.new })
        result }

    // Other words are refused, and no other. Nothing is read for them and nothing written.
    ensures bad_words { (result ≡ Status.BadWords)
        ↔ ((command : SomeCommand) → ¬ Asks command words.now) }
    ensures unread { result ≡ Status.BadWords → source.new ≡ source.old }
    ensures unwritten { result ≡ Status.BadWords → sink.new ≡ sink.old }
{
    match command_of(rt.alloc(), words) {
        Some(Command::Replay) => replayed::<R, S, K, G>(rt.alloc(), source, sink, guards),
        Some(Command::Race) => raced::<R, T, S, K, P, G>(rt, source, sink, gate, guards),
        Some(Command::Upgrade) => upgraded(rt.alloc(), source, sink),
        Some(Command::Check { json }) => {
            checked::<C, S, K, G>(rt.alloc(), source, sink, guards, json)
        }
        Some(Command::Drill { seed }) => drilled::<R, K, G>(rt.alloc(), seed, sink),
        None => Status::BadWords,
    }
}
