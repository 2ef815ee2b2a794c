//! The parts of an input that is a scenario, and behind it a printed run.

ghost use Rattle.std.specs.Prelude.{◌≡◌, length};
ghost use Rattle.trace_check.specs.Lines.{lines_of};
ghost use Rattle.trace_check.specs.Parts.{scenario_part, run_part};

use crate::lines::first_line;

/// The line that a scenario ends with.
const END: &[u8] = b"end\n";

/// The scenario that the input begins with, up to and with its first line that is exactly `end`, and the run behind that
/// line. Without such a line all of it is the scenario's, and the run is empty.
pub fn split_input(input: &[u8]) -> (&[u8], &[u8])
    ensures scenario { result.0.now ≡ scenario_part input.now }
    ensures run { result.1.now ≡ run_part input.now }
{
    let mut count = 0;
    let mut rest = input;
    loop {
        let (line, more) = first_line(rest);
        count += line.len();
        if line.is_empty() || line == END {
            return input.split_at(count);
        }
        rest = more;
    }
}

/// How many lines the text has. The last needs no line feed.
pub fn line_count(text: &[u8]) -> usize
    ensures { result ≡ length (lines_of text.now) }
{
    let mut count = 0;
    let mut rest = text;
    loop {
        let (line, more) = first_line(rest);
        if line.is_empty() {
            return count;
        }
        count += 1;
        rest = more;
    }
}
