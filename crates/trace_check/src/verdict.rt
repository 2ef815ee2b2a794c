//! What is said of a printed run.

ghost use Rattle.std.specs.Prelude.{◌≡◌, IfOk};
ghost use Rattle.std.specs.Option.{option_map};
ghost use Rattle.trace_check.specs.Lines.{if_any, without_feed, told};

use crate::lines::{before_feed, shown};
use cs_types::{List, OutOfMemory};
use std::alloc::Global;

/// How many bytes of a line are told at most.
const MOST_TOLD: usize = 200;

/// What is said of a text: whether it is a printed run of a scenario.
#[derive(Drop)]
pub enum Verdict {
    /// It is one.
    Yes,
    /// It is none.
    No {
        /// The number of its first wrong line, counted on from that of its first line.
        line: u32,
        /// What is wanted in its place, without the line feed. While steps are left it is the entry of the step that
        /// the line names, if that is the next one of its actor. Once all scripts are made it is the one line that
        /// must come, and `None` past the last.
        want: Option<List<u8>>,
        /// The first 200 bytes of the line that stands there, without the line feed, and `?` for each that cannot be
        /// printed. `None` if no line does.
        found: Option<List<u8>>,
    },
}

/// A copy of what stands on a line before its line feed. `None` if there is no line.
fn copied(alloc: Global, line: &[u8]) -> Result<Option<List<u8>>, OutOfMemory>
    ensures { IfOk result (λ copy. copy ≡ option_map without_feed (if_any line.now)) }
{
    if line.is_empty() {
        return Ok(None);
    }
    let mut bytes = Vec::new(alloc);
    bytes.extend_from_slice(before_feed(line))?;
    Ok(Some(List::of(bytes)))
}

/// What is told of a line that was found. `None` if there is none.
fn told(alloc: Global, line: &[u8]) -> Result<Option<List<u8>>, OutOfMemory>
    ensures { IfOk result (λ bytes. bytes ≡ option_map told (if_any line.now)) }
{
    if line.is_empty() {
        return Ok(None);
    }
    let line = before_feed(line);
    let mut bytes = Vec::new(alloc);
    for byte in &line[..line.len().min(MOST_TOLD)] {
        bytes.push(shown(*byte))?;
    }
    Ok(Some(List::of(bytes)))
}

impl Verdict {
    /// The line with this number is wrong. `want` is the line that is wanted in its place, and `found` the one that
    /// stands there; each is empty if there is none.
    pub(crate) fn no(
        alloc: Global,
        line: u32,
        want: &[u8],
        found: &[u8],
    ) -> Result<Verdict, OutOfMemory>
        ensures { IfOk result (λ verdict. verdict ≡ Verdict.No line
            (option_map without_feed (if_any want.now)) (option_map told (if_any found.now))) }
    {
        Ok(Verdict::No {
            line,
            want: copied(alloc, want)?,
            found: told(alloc, found)?,
        })
    }
}
