//! The usual step lines, which most lines of a text are, read from its bytes with no search for words: those of
//! siblings, and `wake`, `advance`, `prctl`, `fork`, `setsched`, `offline` and `online`. It is separate from the
//! forms of lines, which say the same of these and have all the others.

ghost use Rattle.std.specs.Prelude.{◌≡◌, ℕ, ◌<◌, ◌≤◌, ◌-◌, [], ◌∷◌, ◌++◌, length, take, codes, IfSome, IsTrue};
ghost use Rattle.std.specs.Int.{w32, to_le_bytes};
ghost use Rattle.cs_types.specs.declared.event.Actor.TheVariants.{Sibling};
ghost use Rattle.cs_types.specs.Scenario.{IsWithin};
ghost use Rattle.scenario_text.specs.Words.{child_word};
ghost use Rattle.scenario_text.specs.Text.{line};
ghost use Rattle.scenario_text.specs.Reading.{BeginsStep, BeginsActor, BeginsEvent, BeginsCall, BeginsAsk, BeginsPolicy, BeginsNumber};

use crate::number::{MOST_DIGITS, first_digits};
use crate::pieces::cut;
use crate::step::{MOST_ADVANCE, MOST_CALLER, MOST_NAMED_PID, MOST_TARGET_ABOVE};
use crate::task::parse_policy;
use cs_types::{Actor, Ask, Cpu, Event, Policy};

/// A text of fewer bytes is read the general way. In one of at least this many, no word and no number of a line that
/// is read here reaches past the end, so the compiler leaves out most tests of whether a byte is there.
const LONGEST: usize = 80;

/// The first four bytes as one number, which is compared at once.
#[inline(always)]
fn four(bytes: &[u8]) -> u32
    requires { 4 ≤ length bytes.now }
    ensures { to_le_bytes w32 result ≡ take 4 bytes.now }
{
    u32::from_le_bytes([bytes[0], bytes[1], bytes[2], bytes[3]])
}

/// Whether these bytes are those of the word, one by one: they are few, and a comparison of slices is a call.
#[inline(always)]
fn are_same(bytes: &[u8], word: &[u8]) -> bool
    requires { length bytes.now ≡ length word.now }
    ensures { IsTrue result → bytes.now ≡ word.now }
{
    for place in 0..word.len() {
        if bytes[place] != word[place] {
            return false;
        }
    }
    true
}

/// What stands after this word of four bytes or more, if the text begins with it.
#[inline(always)]
fn behind<'a>(text: &'a [u8], word: &[u8]) -> Option<&'a [u8]>
    requires { 4 ≤ length word.now }
    ensures { IfSome result (λ rest. text.now ≡ word.now ++ rest.now) }
{
    let (front, rest) = text.split_at_checked(word.len())?;
    if four(front) != four(word) || !are_same(&front[4..], &word[4..]) {
        return None;
    }
    Some(rest)
}

/// What the sibling does, to itself, if the text begins with that, and what stands after its line.
#[inline(always)]
fn sibling_event(text: &[u8], cpu: Cpu) -> Option<(Event, &[u8])>
    ensures { IfSome result (λ read. (siblings : ℕ) → cpu < siblings →
        BeginsEvent siblings (Sibling cpu) text.now read.0 read.1.now) }
{
    // Most are turns, so whether it is one is asked first.
    if let Some(rest) = behind(text, b"turn\n") {
        Some((Event::Turn(cpu), rest))
    } else if let Some(rest) = behind(text, b"block\n") {
        Some((Event::Block(cpu), rest))
    } else if let Some(rest) = behind(text, b"tick\n") {
        Some((Event::Tick(cpu), rest))
    } else if let Some(rest) = behind(text, b"resched\n") {
        Some((Event::Resched(cpu), rest))
    } else if let Some(rest) = behind(text, b"exit\n") {
        Some((Event::Exit(cpu), rest))
    } else {
        None
    }
}

/// The number of one digit, up to `most`, that stands before the byte `end`, and what stands after that byte.
#[inline(always)]
fn digit_before(text: &[u8], end: u8, most: u8) -> Option<(u8, &[u8])>
    requires { most ≤ 9 }
    ensures { IfSome result (λ read. BeginsNumber 0 most text.now read.0 end read.1.now) }
{
    let [byte, next, ref rest @ ..] = *text else {
        return None;
    };
    let digit = byte.wrapping_sub(b'0');
    if next == end && digit <= most {
        Some((digit, rest))
    } else {
        None
    }
}

/// The number from `low`, which is 0 or 1, to `high` that stands before the byte `end`, and what stands after that
/// byte.
#[inline(always)]
fn number_before(text: &[u8], end: u8, low: u64, high: u64) -> Option<(u64, &[u8])>
    requires { low ≤ 1 }
    ensures { IfSome result (λ read. BeginsNumber low high text.now read.0 end read.1.now) }
{
    if text.len() <= MOST_DIGITS {
        return None;
    }
    if low == 0 && text[0] == b'0' {
        let (zero, rest) = digit_before(text, end, 0)?;
        return Some((zero as u64, rest));
    }
    if text[0] < b'1' || text[0] > b'9' {
        return None;
    }
    let (number, count) = first_digits(text);
    let (_, more) = text.split_at(count);
    match *more {
        [byte, ref rest @ ..] if byte == end && number <= high => Some((number, rest)),
        _ => None,
    }
}

/// The `wake` whose arguments the text begins with, and what stands after its line.
#[inline(always)]
fn wake_event(text: &[u8]) -> Option<(Event, &[u8])>
    ensures { (siblings : ℕ) →
        IfSome result (λ read. BeginsCall siblings (codes "wake " ++ text.now) read.0 read.1.now) }
{
    let (pid, rest) = number_before(text, b'\n', 1, MOST_NAMED_PID as u64)?;
    Some((Event::Wake(pid as u32), rest))
}

/// The `advance` whose arguments the text begins with, and what stands after its line.
#[inline(always)]
fn advance_event(text: &[u8]) -> Option<(Event, &[u8])>
    ensures { (siblings : ℕ) →
        IfSome result
        (λ read. BeginsCall siblings (codes "advance " ++ text.now) read.0 read.1.now) }
{
    let (delta, rest) = number_before(text, b'\n', 1, MOST_ADVANCE)?;
    Some((Event::Advance(delta), rest))
}

/// Whether the child that ends the first line is a thread, and what stands after the line.
#[inline(always)]
fn last_child(text: &[u8]) -> Option<(bool, &[u8])>
    ensures { IfSome result (λ read. text.now ≡ line (child_word read.0 ∷ []) ++ read.1.now) }
{
    if let Some(rest) = behind(text, b"thread\n") {
        Some((true, rest))
    } else if let Some(rest) = behind(text, b"process\n") {
        Some((false, rest))
    } else {
        None
    }
}

/// The `fork` whose arguments the text begins with, and what stands after its line.
#[inline(always)]
fn fork_event(text: &[u8]) -> Option<(Event, &[u8])>
    ensures { (siblings : ℕ) →
        IfSome result (λ read. BeginsCall siblings (codes "fork " ++ text.now) read.0 read.1.now) }
{
    let (caller, child) = number_before(text, b' ', 1, MOST_NAMED_PID as u64)?;
    let (thread, rest) = last_child(child)?;
    let caller = caller as u32;
    Some((Event::Fork { caller, thread }, rest))
}

/// The arguments of a `prctl` that the first line ends with, and what stands after the line.
#[inline(always)]
fn last_ask(text: &[u8]) -> Option<(Ask, &[u8])>
    ensures { IfSome result (λ read. BeginsAsk text.now read.0 read.1.now) }
{
    // The commands and the scopes that are valid have one digit, and no valid target has a sign.
    let (cmd, text) = digit_before(text, b' ', 9)?;
    let (pid, text) = number_before(text, b' ', 0, MOST_TARGET_ABOVE as u64)?;
    let (scope, text) = digit_before(text, b' ', 9)?;
    let (addr, rest) = number_before(text, b'\n', 0, u64::MAX)?;
    let ask = Ask {
        cmd: cmd as u32,
        pid: pid as i32,
        scope: scope as u32,
        addr,
    };
    Some((ask, rest))
}

/// The `prctl` whose arguments the text begins with, and what stands after its line.
#[inline(always)]
fn prctl_event(text: &[u8]) -> Option<(Event, &[u8])>
    ensures { (siblings : ℕ) →
        IfSome result (λ read. BeginsCall siblings (codes "prctl " ++ text.now) read.0 read.1.now) }
{
    let (caller, asked) = number_before(text, b' ', 1, MOST_NAMED_PID as u64)?;
    let (ask, rest) = last_ask(asked)?;
    let caller = caller as u32;
    Some((Event::Prctl { caller, ask }, rest))
}

/// The policy that ends the first line, and what stands after the line.
#[inline(always)]
fn last_policy(text: &[u8]) -> Option<(Policy, &[u8])>
    ensures { IfSome result (λ read. BeginsPolicy text.now read.0 read.1.now) }
{
    let (word, rest) = cut(text, b'\n')?;
    let policy = parse_policy(word).ok()?;
    Some((policy, rest))
}

/// The `setsched` whose arguments the text begins with, and what stands after its line.
#[inline(always)]
fn setsched_event(text: &[u8]) -> Option<(Event, &[u8])>
    ensures { (siblings : ℕ) →
        IfSome result
        (λ read. BeginsCall siblings (codes "setsched " ++ text.now) read.0 read.1.now) }
{
    let (pid, said) = number_before(text, b' ', 1, MOST_NAMED_PID as u64)?;
    let (policy, rest) = last_policy(said)?;
    let pid = pid as u32;
    Some((Event::SetSched { pid, policy }, rest))
}

/// The number of one digit or two, up to `most`, that stands before the byte `end`, and what stands after that byte.
#[inline(always)]
fn small_before(text: &[u8], end: u8, most: u8) -> Option<(u8, &[u8])>
    requires { most ≤ 19 }
    ensures { IfSome result (λ read. BeginsNumber 0 most text.now read.0 end read.1.now) }
{
    // Most are one digit, so this is asked first. Two begin with 1.
    if let Some(read) = digit_before(text, end, most.min(9)) {
        return Some(read);
    }
    let [b'1', ref units @ ..] = *text else {
        return None;
    };
    let (unit, rest) = digit_before(units, end, 9)?;
    let number = 10 + unit;
    (number <= most).then_some((number, rest))
}

/// What a caller does, in a core with this number of siblings, if the text begins with that, and what stands after its
/// line.
#[inline(always)]
fn caller_event(text: &[u8], siblings: u8) -> Option<(Event, &[u8])>
    requires { IsWithin 1 16 siblings }
    ensures { IfSome result (λ read. BeginsCall siblings text.now read.0 read.1.now) }
{
    if let Some(words) = behind(text, b"wake ") {
        wake_event(words)
    } else if let Some(words) = behind(text, b"advance ") {
        advance_event(words)
    } else if let Some(words) = behind(text, b"prctl ") {
        prctl_event(words)
    } else if let Some(words) = behind(text, b"fork ") {
        fork_event(words)
    } else if let Some(words) = behind(text, b"online ") {
        let (cpu, rest) = small_before(words, b'\n', siblings - 1)?;
        Some((Event::Online(cpu), rest))
    } else if let Some(words) = behind(text, b"offline ") {
        let (cpu, rest) = small_before(words, b'\n', siblings - 1)?;
        Some((Event::Offline(cpu), rest))
    } else if let Some(words) = behind(text, b"sets") {
        setsched_event(behind(words, b"ched ")?)
    } else {
        None
    }
}

/// The actor that the text begins with, a caller or one of this number of siblings whose own number is one digit, and
/// what stands after the space that follows it.
#[inline(always)]
fn first_actor(text: &[u8], siblings: u8) -> Option<(Actor, &[u8])>
    requires { IsWithin 1 16 siblings }
    ensures { IfSome result (λ read. BeginsActor siblings text.now read.0 read.1.now) }
{
    let [letter, digit, b' ', ref rest @ ..] = *text else {
        return None;
    };
    let number = digit.wrapping_sub(b'0');
    if letter == b's' && number < siblings.min(10) {
        Some((Actor::Sibling(number), rest))
    } else if letter == b'c' && number <= MOST_CALLER {
        Some((Actor::Caller(number), rest))
    } else {
        None
    }
}

/// Who makes the step of the first line, if it is one of these, and what they do, and what stands after the line. A
/// sibling whose number has two digits is left to `wide_step`.
#[inline(always)]
pub(crate) fn usual_step(text: &[u8], siblings: u8) -> Option<(Actor, Event, &[u8])>
    requires { IsWithin 1 16 siblings }
    ensures { IfSome result
        (λ read. BeginsStep siblings text.now
        (record { actor = read.0; event = read.1 }) read.2.now) }
{
    if text.len() < LONGEST {
        return None;
    }
    let (actor, text) = first_actor(behind(text, b"step ")?, siblings)?;
    let (event, rest) = match actor {
        Actor::Sibling(cpu) => sibling_event(text, cpu)?,
        Actor::Caller(_) => caller_event(text, siblings)?,
        Actor::End => return None,
    };
    Some((actor, event, rest))
}

/// The same for a step of a sibling whose number has two digits. It is apart, so that a test for it costs no other step.
pub(crate) fn wide_step(text: &[u8], siblings: u8) -> Option<(Actor, Event, &[u8])>
    requires { IsWithin 1 16 siblings }
    ensures { IfSome result
        (λ read. BeginsStep siblings text.now
        (record { actor = read.0; event = read.1 }) read.2.now) }
{
    let [b's', ref number @ ..] = *behind(text, b"step ")? else {
        return None;
    };
    let (cpu, text) = small_before(number, b' ', siblings - 1)?;
    let (event, rest) = sibling_event(text, cpu)?;
    Some((Actor::Sibling(cpu), event, rest))
}
