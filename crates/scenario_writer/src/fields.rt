//! Fields that only the lines of a scenario have.

ghost use Rattle.std.specs.Prelude.{◌≡◌, ◌+◌, ◌≤◌, ◌++◌, length, codes};
ghost use Rattle.scenario_text.specs.Words.{flag_word, creds_words};
ghost use Rattle.scenario_text.specs.Text.{line_bytes, spaced};

use cs_types::Creds;
use itoa::Integer;
use scenario_text::Line;

/// A space, and one more number.
pub(crate) fn further<N: Integer>(line: &mut Line, number: N)
    requires { length line.old + 1 + N.MAX_STR_LEN ≤ line_bytes }
    ensures text { line.new ≡ line.old ++ (codes " " ++ N.text number) }
    ensures longest { length line.new ≤ length line.old + 1 + N.MAX_STR_LEN }
{
    line.text(" ");
    line.number(number);
}

/// A task's credentials.
pub(crate) fn creds(line: &mut Line, creds: Creds)
    requires { length line.old + 71 ≤ line_bytes }
    ensures text { line.new ≡ line.old ++ spaced (creds_words creds) }
    ensures longest { length line.new ≤ length line.old + 71 }
{
    line.number(creds.ruid);
    further(line, creds.euid);
    further(line, creds.suid);
    further(line, creds.rgid);
    further(line, creds.egid);
    further(line, creds.sgid);
    flag(line, creds.cap);
    flag(line, creds.mm);
    flag(line, creds.dumpable);
}

/// A space, and 1 for yes, 0 for no.
fn flag(line: &mut Line, flag: bool)
    requires { length line.old + 2 ≤ line_bytes }
    ensures text { line.new ≡ line.old ++ (codes " " ++ flag_word flag) }
    ensures longest { length line.new ≤ length line.old + 2 }
{
    line.text(if flag { " 1" } else { " 0" });
}
