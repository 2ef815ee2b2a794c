//! Steps, as the words of a step line spell them: an actor and what it does. It is separate from tasks,
//! with which it shares no more than siblings.

ghost use Rattle.std.specs.Prelude.{◌≡◌, ◌&&◌, [], ◌∷◌, true, false, codes, MatchResult};
ghost use Rattle.cs_types.specs.declared.event.Event.TheVariants.{Fork, Prctl, SetSched};
ghost use Rattle.scenario_text.specs.declared.fault.BadKind.TheVariants.{Number};
ghost use Rattle.scenario_text.specs.Grammar.{is_word, value, named_pid, child, policy};
ghost use Rattle.scenario_text.specs.Reading.{parts, lent, read_in, policy_value, is_ask, ask_said, joined, sibling_readings, caller_readings, sibling_step, caller_step, step_line};

use crate::fault::BadKind;
use crate::number::{parse_cpu, parse_number, parse_signed, parse_u8, parse_u32};
use crate::task::{has_policy_shape, parse_policy};
use crate::teach::MOST_GUARD;
use crate::words::is_word;
use cs_types::{Actor, Ask, Cpu, Event, Step};

/// The greatest number of a caller. The least is 0.
pub const MOST_CALLER: u8 = 7;

/// The greatest pid that a caller may name, of a task or of none. The least is 1.
pub const MOST_NAMED_PID: u32 = 999_999;

/// How far below 0 the target of a `prctl` may be, a number of 32 bits with a sign.
pub const MOST_TARGET_BELOW: u32 = 2_147_483_648;

/// How far above 0 the target of a `prctl` may be.
pub const MOST_TARGET_ABOVE: u32 = 2_147_483_647;

/// The greatest advance of the clock, in ns. The least is 1.
pub const MOST_ADVANCE: u64 = 1_000_000_000;

/// Whether the word says what a child is to be.
fn has_child_shape(word: &[u8]) -> bool
    ensures { result ≡ child.has_shape word.now }
{
    is_word(word, "thread") || is_word(word, "process")
}

/// A fork.
fn parse_fork(caller: &[u8], child: &[u8]) -> Result<Event, BadKind>
    ensures { MatchResult result
        (λ event. (named_pid.is_right caller.now ≡ true)
        × (event ≡ Fork (value caller.now) (is_word child.now (codes "thread"))))
        (λ kind. (named_pid.is_right caller.now ≡ false) × (kind ≡ Number)) }
{
    let caller = parse_u32(caller, 1, MOST_NAMED_PID)?;
    let thread = is_word(child, "thread");
    Ok(Event::Fork { caller, thread })
}

/// A change of a task's policy.
fn parse_setsched(pid: &[u8], said: &[u8]) -> Result<Event, BadKind>
    ensures { MatchResult result
        (λ event. (named_pid.is_right pid.now && policy.is_right said.now ≡ true)
        × (event ≡ SetSched (value pid.now) (policy_value said.now)))
        (λ kind. (named_pid.is_right pid.now && policy.is_right said.now ≡ false)
        × (kind ≡ Number)) }
{
    let (Ok(pid), Ok(policy)) = (parse_u32(pid, 1, MOST_NAMED_PID), parse_policy(said)) else {
        return Err(BadKind::Number);
    };
    Ok(Event::SetSched { pid, policy })
}

/// The arguments of `prctl`.
fn parse_ask(cmd: &[u8], target: &[u8], scope: &[u8], addr: &[u8]) -> Result<Ask, BadKind>
    ensures { MatchResult result
        (λ ask. (is_ask cmd.now target.now scope.now addr.now ≡ true)
        × (ask ≡ ask_said cmd.now target.now scope.now addr.now))
        (λ kind. (is_ask cmd.now target.now scope.now addr.now ≡ false) × (kind ≡ Number)) }
{
    let (Ok(cmd), Ok(pid), Ok(scope), Ok(addr)) = (
        parse_u32(cmd, 0, u32::MAX),
        parse_signed(target, MOST_TARGET_BELOW, MOST_TARGET_ABOVE),
        parse_u32(scope, 0, u32::MAX),
        parse_number(addr, 0, u64::MAX),
    ) else {
        return Err(BadKind::Number);
    };
    Ok(Ask {
        cmd,
        pid: pid as i32,
        scope,
        addr,
    })
}

/// A call of `prctl`.
fn parse_prctl(
    caller: &[u8],
    cmd: &[u8],
    target: &[u8],
    scope: &[u8],
    addr: &[u8],
) -> Result<Event, BadKind>
    ensures { MatchResult result
        (λ event. (named_pid.is_right caller.now
        && is_ask cmd.now target.now scope.now addr.now ≡ true)
        × (event ≡ Prctl (value caller.now) (ask_said cmd.now target.now scope.now addr.now)))
        (λ kind. (named_pid.is_right caller.now
        && is_ask cmd.now target.now scope.now addr.now ≡ false) × (kind ≡ Number)) }
{
    let (Ok(caller), Ok(ask)) = (
        parse_u32(caller, 1, MOST_NAMED_PID),
        parse_ask(cmd, target, scope, addr),
    ) else {
        return Err(BadKind::Number);
    };
    Ok(Event::Prctl { caller, ask })
}

/// What a caller does to the one task, sibling or guard, or for the one time, that it names.
fn parse_short_call(name: &[u8], word: &[u8], siblings: u8) -> Result<Event, BadKind>
    ensures { result ≡ read_in (caller_readings siblings) (parts (name.now ∷ word.now ∷ [])) }
{
    if is_word(name, "wake") {
        Ok(Event::Wake(parse_u32(word, 1, MOST_NAMED_PID)?))
    } else if is_word(name, "advance") {
        Ok(Event::Advance(parse_number(word, 1, MOST_ADVANCE)?))
    } else if is_word(name, "offline") {
        Ok(Event::Offline(parse_cpu(word, siblings)?))
    } else if is_word(name, "online") {
        Ok(Event::Online(parse_cpu(word, siblings)?))
    } else if is_word(name, "load") {
        Ok(Event::Load(parse_u8(word, 0, MOST_GUARD)?))
    } else if is_word(name, "unload") {
        Ok(Event::Unload(parse_u8(word, 0, MOST_GUARD)?))
    } else {
        Err(BadKind::Shape)
    }
}

/// What a caller does, in a core with this number of siblings.
fn parse_caller_event(words: &[&[u8]], siblings: u8) -> Result<Event, BadKind>
    ensures { result ≡ read_in (caller_readings siblings) (lent words.now) }
{
    match *words {
        [name, word] => parse_short_call(name, word, siblings),
        [name, caller, child] if is_word(name, "fork") && has_child_shape(child) => {
            parse_fork(caller, child)
        }
        [name, pid, policy] if is_word(name, "setsched") && has_policy_shape(policy) => {
            parse_setsched(pid, policy)
        }
        [name, caller, cmd, target, scope, addr] if is_word(name, "prctl") => {
            parse_prctl(caller, cmd, target, scope, addr)
        }
        _ => Err(BadKind::Shape),
    }
}

/// What the sibling does, to itself.
fn parse_sibling_event(name: &[u8], cpu: Cpu) -> Result<Event, BadKind>
    ensures { result ≡ joined (read_in sibling_readings (parts (name.now ∷ []))) true
        (λ make. make cpu) }
{
    if is_word(name, "turn") {
        Ok(Event::Turn(cpu))
    } else if is_word(name, "resched") {
        Ok(Event::Resched(cpu))
    } else if is_word(name, "block") {
        Ok(Event::Block(cpu))
    } else if is_word(name, "exit") {
        Ok(Event::Exit(cpu))
    } else if is_word(name, "tick") {
        Ok(Event::Tick(cpu))
    } else {
        Err(BadKind::Shape)
    }
}

/// What the sibling of this number does, to itself, if the event is one word. Whether it is an event is asked first.
fn parse_sibling_step(digits: &[u8], name: &[u8], siblings: u8) -> Result<Step, BadKind>
    ensures { result ≡ sibling_step siblings digits.now (parts (name.now ∷ [])) }
{
    let cpu = parse_cpu(digits, siblings);
    let event = parse_sibling_event(name, cpu.unwrap_or(0))?;
    let actor = Actor::Sibling(cpu?);
    Ok(Step { actor, event })
}

/// What the caller of this number does, in a core with this number of siblings.
fn parse_caller_step(digits: &[u8], event: &[&[u8]], siblings: u8) -> Result<Step, BadKind>
    ensures { result ≡ caller_step siblings digits.now (lent event.now) }
{
    let event = parse_caller_event(event, siblings)?;
    let caller = parse_u8(digits, 0, MOST_CALLER)?;
    Ok(Step {
        actor: Actor::Caller(caller),
        event,
    })
}

/// The words of a step line, in a core with this number of siblings. The letter of the actor says whose
/// event it is.
pub(crate) fn parse_step(words: &[&[u8]], siblings: u8) -> Result<Step, BadKind>
    ensures { result ≡ step_line siblings (lent words.now) }
{
    let [_, actor, ref event @ ..] = *words else {
        return Err(BadKind::Shape);
    };
    if let Some(digits) = actor.strip_prefix(b"s") {
        let [name] = *event else {
            return Err(BadKind::Shape);
        };
        parse_sibling_step(digits, name, siblings)
    } else if let Some(digits) = actor.strip_prefix(b"c") {
        parse_caller_step(digits, event, siblings)
    } else {
        Err(BadKind::Shape)
    }
}
