//! The head of a scenario: its first three lines, each of which stands once and in its place. The
//! lines after it, which come in any number, are separate.

ghost use Rattle.std.specs.Prelude.{◌≡◌, ◌≤◌, length};
ghost use Rattle.cs_types.specs.Scenario.{most_siblings};
ghost use Rattle.scenario_text.specs.Reading.{lent, read_in, Takes, line_as, version_reading, siblings_reading, limits_reading, ReadsHead};

use crate::fault::{BadKind, ReadFault, on_line};
use crate::lines::Lines;
use crate::number::{parse_number, parse_u8};
use crate::words::{is_word, slots};

/// The greatest number of SMT siblings of a core in a text of version 1. The least is 1.
pub const MOST_SIBLINGS_IN_FIRST: u8 = 8;

/// The same in a text of version 2.
pub const MOST_SIBLINGS_IN_SECOND: u8 = 16;

/// The greatest limit of tasks or cookies that live at once. The least is 1.
pub const MOST_LIMIT: u64 = 256;

/// The least end of a caller's address space, in bytes.
pub const LEAST_TOP: u64 = 8192;

/// The greatest end of a caller's address space, in bytes.
pub const MOST_TOP: u64 = 9_223_372_036_854_775_807;

/// What the first three lines say: a scenario's numbers, without its tasks and steps.
#[derive(Clone, Copy)]
pub(crate) struct Head {
    pub version: u8,
    pub siblings: u8,
    pub task_limit: u16,
    pub cookie_limit: u16,
    pub user_top: u64,
}

/// `coresched` and the version, 1 or 2.
fn parse_version(words: &[&[u8]]) -> Result<u8, BadKind>
    ensures { result ≡ read_in version_reading (lent words.now) }
{
    match *words {
        [name, version] if is_word(name, "coresched") && is_word(version, "1") => Ok(1),
        [name, version] if is_word(name, "coresched") && is_word(version, "2") => Ok(2),
        _ => Err(BadKind::Shape),
    }
}

/// The most siblings of a core in a text of this version.
fn most_siblings(version: u8) -> u8
    ensures { result ≡ most_siblings version }
{
    if version == 2 {
        MOST_SIBLINGS_IN_SECOND
    } else {
        MOST_SIBLINGS_IN_FIRST
    }
}

/// `siblings` and their count, in a text of this version.
fn parse_siblings(words: &[&[u8]], version: u8) -> Result<u8, BadKind>
    ensures { result ≡ read_in (siblings_reading version) (lent words.now) }
{
    match *words {
        [name, count] if is_word(name, "siblings") => parse_u8(count, 1, most_siblings(version)),
        _ => Err(BadKind::Shape),
    }
}

/// `limits` and the limits, in a text of this version and a core with this number of siblings.
fn parse_limits(words: &[&[u8]], version: u8, siblings: u8) -> Result<Head, BadKind>
    ensures { result ≡ read_in (limits_reading version siblings) (lent words.now) }
{
    match *words {
        [name, tasks, cookies, top] if is_word(name, "limits") => Ok(Head {
            version,
            siblings,
            task_limit: parse_number(tasks, 1, MOST_LIMIT)? as u16,
            cookie_limit: parse_number(cookies, 1, MOST_LIMIT)? as u16,
            user_top: parse_number(top, LEAST_TOP, MOST_TOP)?,
        }),
        _ => Err(BadKind::Shape),
    }
}

/// The first line.
#[tactic(auto, using(crate::proofs::Cuts::lent_is), unfolding(crate::specs::Reading::line_as))]
fn next_version(lines: &mut Lines<'_>) -> Result<u8, BadKind>
    ensures { Takes (λ version. version) result lines.new (line_as version_reading lines.old) }
{
    parse_version(lines.next_line(&mut slots())?)
}

/// The second line, in a text of this version.
#[tactic(auto, using(crate::proofs::Cuts::lent_is), unfolding(crate::specs::Reading::line_as))]
fn next_siblings(lines: &mut Lines<'_>, version: u8) -> Result<u8, BadKind>
    ensures { Takes (λ siblings. siblings) result lines.new
        (line_as (siblings_reading version) lines.old) }
{
    parse_siblings(lines.next_line(&mut slots())?, version)
}

/// The third line, in a text of this version and a core with this number of siblings.
#[tactic(auto, using(crate::proofs::Cuts::lent_is), unfolding(crate::specs::Reading::line_as))]
fn next_limits(lines: &mut Lines<'_>, version: u8, siblings: u8) -> Result<Head, BadKind>
    ensures { Takes (λ head. head) result lines.new
        (line_as (limits_reading version siblings) lines.old) }
{
    parse_limits(lines.next_line(&mut slots())?, version, siblings)
}

/// What the next three lines say, which are the first of a text.
#[inline(never)]
pub(crate) fn next_head(lines: &mut Lines<'_>) -> Result<Head, ReadFault>
    requires { 1 ≤ length lines.old }
    ensures { ReadsHead lines.old result lines.new }
{
    let version = on_line(next_version(lines), 1)?;
    let siblings = on_line(next_siblings(lines, version), 2)?;
    on_line(next_limits(lines, version, siblings), 3)
}
