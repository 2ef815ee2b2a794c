//! The table. Each line is put together without a sink, so that a sink gets it whole.

ghost use Rattle.std.specs.Prelude.{◌≡◌, ◌+◌, ◌≤◌, ◌++◌, OnOk, OnErr, length};
ghost use Rattle.cs_outside.specs.Device.{appended, Rose, WritesPrefix};
ghost use Rattle.scenario_text.specs.Words.{answer_word};
ghost use Rattle.scenario_text.specs.Text.{line_bytes};
ghost use Rattle.segment_text.specs.Table.{number_cell, row_text, segments_text};

use crate::cells::{cookie_of, group_of, is_forced, pid_of, state_word};
use cs_outside::{Failed, Sink, write_all};
use run_segments::{RunSegments, Segment};
use scenario_text::Line;

/// The names of the columns.
const HEAD: &str = "from\tto\tsibling\tstate\tcookie\tpending\tforced\tpid\tgroup\n";

/// Puts a number on the line, or nothing if there is none.
fn put_number(line: &mut Line, number: Option<u64>)
    requires { length line.old + 20 ≤ line_bytes }
    ensures text { line.new ≡ line.old ++ number_cell number }
    ensures longest { length line.new ≤ length line.old + 20 }
{
    if let Some(number) = number {
        line.number(number);
    }
}

/// Puts the answer to a question on the line.
fn put_answer(line: &mut Line, holds: bool)
    requires { length line.old + 3 ≤ line_bytes }
    ensures text { line.new ≡ line.old ++ answer_word holds }
    ensures longest { length line.new ≤ length line.old + 3 }
{
    line.text(if holds { "yes" } else { "no" });
}

/// The line of a segment.
fn row_of(segment: &Segment) -> Line
    ensures { result ≡ row_text segment.now }
{
    let mut line = Line::new();
    line.number(segment.from);
    line.text("\t");
    line.number(segment.to);
    line.text("\t");
    line.number(segment.cpu);
    line.text("\t");
    line.text(state_word(segment.doing));
    line.text("\t");
    put_number(&mut line, cookie_of(segment.doing));
    line.text("\t");
    put_answer(&mut line, segment.pending);
    line.text("\t");
    put_answer(&mut line, is_forced(segment.doing));
    line.text("\t");
    put_number(&mut line, pid_of(segment.pid));
    line.text("\t");
    put_number(&mut line, group_of(segment.group));
    line.text("\n");
    line
}

/// Writes the table of a run's segments: the names of the columns, and a line for each segment. The cells of a line are
/// separated by tabs. Each line goes to the sink in one piece, and again with the rest if the sink took only a part. At
/// an `Err` the sink has failed, and a prefix of the table is written. It takes no memory.
pub fn segments<K: Sink>(run: &RunSegments, sink: &mut K) -> Result<(), Failed>
    ensures ok { OnOk result (K.written sink.new
        ≡ appended (K.written sink.old) (segments_text run.now)) }
    ensures prefix { WritesPrefix (K.written sink.old) (segments_text run.now)
        (K.written sink.new) }

    ensures faultless { OnOk result (K.faults sink.new ≡ K.faults sink.old) }
    ensures failed { OnErr result (Rose (K.faults sink.old) (K.faults sink.new)) }
    ensures counted { K.faults sink.old ≤ K.faults sink.new }
{
    write_all(sink, HEAD.as_bytes())?;
    for segment in run.segments() {
        write_all(sink, row_of(segment).as_bytes())?;
    }
    Ok(())
}
