//! The lines of a text.

ghost use Rattle.std.specs.Prelude.{◌≡◌, ◌+◌, ◌<◌, ◌≤◌, ◌∷◌, ◌++◌, [], length, map, take, drop, IfSome, Some, None, slice_get, IfOk};
ghost use Rattle.cs_types.specs.declared.event.Actor.{Actor};
ghost use Rattle.trace_check.specs.Lines.{lines_of, without_feed, shown};
ghost use Rattle.trace_check.specs.Scripts.{rank, named_actor, BeginsWith};

use cs_types::{Actor, MOST_SIBLINGS};
use memchr::memchr;
use scenario_text::parse_number;

/// The greatest number of a sibling.
const MOST_CPU: u64 = MOST_SIBLINGS as u64 - 1;

/// The greatest number of a caller.
const MOST_CALLER: u64 = 7;

/// The actor of a scenario that has this word.
fn named_actor(word: &[u8]) -> Option<Actor>
    ensures named { result ≡ named_actor word.now }
    ensures known { IfSome result (λ actor. rank actor < 24) }
{
    match word {
        [b's', number @ ..] => {
            let cpu = parse_number(number, 0, MOST_CPU).ok()?;
            Some(Actor::Sibling(cpu as u8))
        }
        [b'c', number @ ..] => {
            let caller = parse_number(number, 0, MOST_CALLER).ok()?;
            Some(Actor::Caller(caller as u8))
        }
        _ => None,
    }
}

/// The actor of a scenario that the line begins with, before its first space.
pub(crate) fn actor_of(line: &[u8]) -> Option<Actor>
    ensures known { IfSome result (λ actor. rank actor < 24) }
    ensures begins { (actor : Actor) → rank actor < 24 → BeginsWith actor line.now →
        result ≡ Some actor }
{
    let end = memchr(b' ', line)?;
    named_actor(&line[..end])
}

/// The first line of the text, with its line feed if it has one, and what stands behind it. Both are empty if the text
/// is.
pub(crate) fn first_line(text: &[u8]) -> (&[u8], &[u8])
    ensures cut { text.now ≡ result.0.now ++ result.1.now }
    ensures some { 0 < length result.0.now →
        lines_of text.now ≡ result.0.now ∷ lines_of result.1.now }
    ensures none { result.0.now ≡ [] → text.now ≡ [] }
{
    match memchr(b'\n', text) {
        Some(end) => text.split_at(end + 1),
        None => text.split_at(text.len()),
    }
}

/// What stands on a line before its line feed.
pub(crate) fn before_feed(line: &[u8]) -> &[u8]
    ensures { result.now ≡ without_feed line.now }
{
    match memchr(b'\n', line) {
        Some(end) => &line[..end],
        None => line,
    }
}

/// A byte as it is shown.
pub(crate) fn shown(byte: u8) -> u8
    ensures { result ≡ shown byte }
{
    if (b' '..=b'~').contains(&byte) {
        byte
    } else {
        b'?'
    }
}

/// How many first lines two texts share, and what stands behind these in each.
pub(crate) fn behind_common<'a>(one: &'a [u8], other: &'a [u8]) -> (usize, &'a [u8], &'a [u8])
    ensures count { result.0 ≤ length (lines_of one.now) }
    ensures one { lines_of one.now
        ≡ take result.0 (lines_of one.now) ++ lines_of result.1.now }
    ensures other { lines_of other.now
        ≡ take result.0 (lines_of one.now) ++ lines_of result.2.now }
    ensures differ { slice_get (lines_of result.1.now) 0 ≡ slice_get (lines_of result.2.now) 0 →
        (result.1.now ≡ []) × (result.2.now ≡ []) }
{
    let mut behind_one = one;
    let mut behind_other = other;
    let mut count = 0;
    loop {
        let (line, more) = first_line(behind_one);
        let (same, rest) = first_line(behind_other);
        if line.is_empty() || line != same {
            return (count, behind_one, behind_other);
        }
        behind_one = more;
        behind_other = rest;
        count += 1;
    }
}
