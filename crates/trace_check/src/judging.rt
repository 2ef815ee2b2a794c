//! The judge: it makes the steps that the lines of a text name, and compares each line with that of the entry.

ghost use Rattle.std.specs.Prelude.{◌≡◌, ◌↔◌, ◌+◌, ◌*◌, ◌^◌, ◌<◌, ◌≤◌, [], length, All, IfOk, IfErr, IfSome, IsTrue, MatchOption};
ghost use Rattle.cs_types.specs.Room.{Opening};
ghost use Rattle.cs_types.specs.Scenario.{IsEvent, IsPlayable};
ghost use Rattle.cs_types.specs.Opened.{MayStart, opened};
ghost use Rattle.trace_check.specs.Following.{IsStuck, HasStepped, HasLine, HasFollowed, IsWrongStep, IsWantedLine};
ghost use Rattle.trace_check.specs.Verdicts.{IsPrinted, IsVerdict};

use crate::ending::printed_end;
use crate::lines::{actor_of, behind_common, first_line};
use crate::scripts::Places;
use crate::verdict::Verdict;
use cs_types::{Bench, Entry, FromScenario, OutOfMemory, Room, Scenario, Step};
use scenario_text::Line;
use std::alloc::Global;

/// A line that is not that of the step in its place.
pub(crate) struct Wrong<'a> {
    /// How many lines stand before it. Each is that of an entry.
    place: usize,
    /// The line. Empty if there is none.
    line: &'a [u8],
    /// The entry of the next step of the actor that it begins with, if it begins with one that has a step left.
    entry: Option<Entry>,
}

/// Makes the next step of the actor that the line begins with, and answers its entry. `None` if it begins with none that
/// has a step left, and then none is made.
fn make_step<R: Room>(
    room: &mut R,
    steps: &[Step],
    places: &mut Places,
    line: &[u8],
) -> Option<Entry>
    requires spare { 0 < R.spare room.old }
    requires events { All
        (λ step. IsEvent (R.opening room.old).scenario.siblings step.event) steps.now }
    ensures opening { R.opening room.new ≡ R.opening room.old }
    ensures spare { IfSome result (λ _. R.spare room.new + 1 ≡ R.spare room.old) }
    ensures made { MatchOption result (IsStuck steps.now places.old line.now) (λ entry. HasStepped
        (R.opening room.old) steps.now places.old places.new
        (R.history room.old) (R.history room.new) line.now entry) }
{
    let actor = actor_of(line)?;
    let event = places.advance(steps, actor)?;
    let reply = room.apply(actor, event);
    Some(Entry {
        actor,
        event,
        reply,
    })
}

/// Whether there is an entry and this is its line, which is put on `on`.
fn has_line(on: &mut Line, entry: &Option<Entry>, line: &[u8]) -> bool
    ensures { IsTrue result ↔ HasLine entry.now line.now }
{
    let Some(entry) = entry else {
        return false;
    };
    on.entry(entry);
    on.as_bytes() == line
}

/// Makes all steps of a scenario, in the order in which the lines of the text name them, in a room that has made none,
/// and answers what stands behind these lines. At an `Err` a line is not that of the step in its place.
fn make_all<'a, R: Room>(
    room: &mut R,
    steps: &[Step],
    text: &'a [u8],
) -> Result<&'a [u8], Wrong<'a>>
    requires empty { R.history room.old ≡ [] }
    requires playable { IsPlayable (R.opening room.old).scenario }
    requires steps { steps.now ≡ (R.opening room.old).scenario.steps }
    requires spare { length steps.now ≤ R.spare room.old }
    ensures opening { R.opening room.new ≡ R.opening room.old }
    ensures spare { IfOk result (λ _. R.spare room.new + length steps.now ≡ R.spare room.old) }
    ensures ok { IfOk result (λ rest. HasFollowed
        (R.opening room.old) (R.history room.new) text.now rest.now) }
    ensures err { IfErr result (IsWrongStep (R.opening room.old) text.now) }
{
    let mut places = Places::new();
    let mut on = Line::new();
    let mut rest = text;
    for place in 0..steps.len() {
        let (line, more) = first_line(rest);
        let entry = make_step(room, steps, &mut places, line);
        if !has_line(&mut on, &entry, line) {
            return Err(Wrong { place, line, entry });
        }
        rest = more;
    }
    Ok(rest)
}

/// What is wanted in the place of a line: that of the entry, if the line names its step, and else nothing.
fn wanted(entry: Option<Entry>, line: &[u8]) -> Line
    ensures { IsWantedLine entry line.now result }
{
    let mut text = Line::new();
    let Some(entry) = entry else {
        return text;
    };
    text.made(entry.actor, &entry.event);
    text.text(": ");
    if line.starts_with(text.as_bytes()) {
        text.entry(&entry);
    } else {
        text.clear();
    }
    text
}

/// Judges what stands behind the lines of all steps, which the room has made. Its first line has the number `first`.
fn judge_end<R: Room>(
    alloc: Global,
    mut room: R,
    first: u32,
    text: &[u8],
) -> Result<Verdict, OutOfMemory>
    requires playable { IsPlayable (R.opening room).scenario }
    requires spare { (R.opening room).scenario.siblings * (R.opening room).scenario.siblings
        ≤ R.spare room }
    requires lines { first + length text.now < 2 ^ 32 }
    ensures verdict { IfOk result (λ verdict. (before : _) (whole : _) →
        HasFollowed (R.opening room) (R.history room) whole text.now →
        first ≡ before + length (R.history room) →
        IsVerdict (R.opening room) before whole verdict) }
{
    let from = room.length();
    room.drain();
    let end = printed_end(alloc, &room, from)?;
    let (count, wanted, found) = behind_common(&end, text);
    if wanted.is_empty() && found.is_empty() {
        return Ok(Verdict::Yes);
    }
    let (want, _) = first_line(wanted);
    let (line, _) = first_line(found);
    Verdict::no(alloc, first + count as u32, want, line)
}

/// Says whether the text is a printed run of the scenario: what `race` and `replay` write of it. It is so exactly if each
/// actor's entries are its script in its order, each reply is the one that the rules give at its place, and the entries
/// of the final drain and the report follow. If it is not, the verdict tells the first wrong line.
///
/// A run is judged in the order of its own lines, in a room of the machine `R` that is started for it. The guards were
/// taught what the scenario's lines teach, and none was loaded or asked yet. `first` is the number of the text's first
/// line, and with the length of the text in bytes it has to be below 2^32. It takes memory for that room, for what is
/// written behind the lines of all steps, and for the verdict.
pub fn judge<R: FromScenario<B>, B: Bench>(
    alloc: Global,
    scenario: &Scenario,
    guards: B,
    first: u32,
    text: &[u8],
) -> Result<Verdict, OutOfMemory>
    requires start { MayStart scenario.now (B.guards guards) }
    requires lines { first + length text.now < 2 ^ 32 }

    // Which texts are printed runs, which line of another is the first wrong one, what is wanted there and what is found.
    ensures verdict { IfOk result
        (IsVerdict (opened scenario.now (B.guards guards)) first text.now) }

    // It is `Yes` exactly for the printed runs.
    ensures exact { IfOk result (λ verdict. (verdict ≡ Verdict.Yes)
        ↔ IsPrinted (opened scenario.now (B.guards guards)) text.now) }
{
    let mut room = R::from_scenario(alloc, scenario, guards)?;
    let steps = scenario.steps.items();
    match make_all(&mut room, steps, text) {
        Ok(rest) => judge_end(alloc, room, first + steps.len() as u32, rest),
        Err(Wrong { place, line, entry }) => {
            let want = wanted(entry, line);
            Verdict::no(alloc, first + place as u32, want.as_bytes(), line)
        }
    }
}
