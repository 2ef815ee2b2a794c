//! The lines of JSON. With the longest numbers an object is longer than what a `Line` can take, so a sink gets it in
//! two pieces.

ghost use Rattle.std.specs.Prelude.{◌≡◌, ◌+◌, ◌≤◌, ◌++◌, OnOk, OnErr, length};
ghost use Rattle.cs_outside.specs.Device.{appended, Rose, WritesPrefix};
ghost use Rattle.scenario_text.specs.Text.{line_bytes};
ghost use Rattle.segment_text.specs.Json.{number_or_null, truth_value, object_line, segments_json_text};

use crate::cells::{cookie_of, group_of, is_forced, pid_of, state_word};
use cs_outside::{Failed, Sink, write_all};
use run_segments::{RunSegments, Segment};
use scenario_text::Line;

/// Puts a number on the line, or `null` if there is none.
fn put_number(line: &mut Line, number: Option<u64>)
    requires { length line.old + 20 ≤ line_bytes }
    ensures text { line.new ≡ line.old ++ number_or_null number }
    ensures longest { length line.new ≤ length line.old + 20 }
{
    match number {
        Some(number) => line.number(number),
        None => line.text("null"),
    }
}

/// Puts on the line whether something is so.
fn put_truth(line: &mut Line, holds: bool)
    requires { length line.old + 5 ≤ line_bytes }
    ensures text { line.new ≡ line.old ++ truth_value holds }
    ensures longest { length line.new ≤ length line.old + 5 }
{
    line.text(if holds { "true" } else { "false" });
}

/// Writes the object of a segment, and a line feed. At an `Err` the sink has failed, and a prefix of it is written.
fn write_object<K: Sink>(segment: &Segment, sink: &mut K) -> Result<(), Failed>
    ensures ok { OnOk result (K.written sink.new
        ≡ appended (K.written sink.old) (object_line segment.now)) }
    ensures prefix { WritesPrefix (K.written sink.old) (object_line segment.now)
        (K.written sink.new) }

    ensures faultless { OnOk result (K.faults sink.new ≡ K.faults sink.old) }
    ensures failed { OnErr result (Rose (K.faults sink.old) (K.faults sink.new)) }
    ensures counted { K.faults sink.old ≤ K.faults sink.new }
{
    let mut line = Line::new();
    line.text("{\"from\":");
    line.number(segment.from);
    line.text(",\"to\":");
    line.number(segment.to);
    line.text(",\"sibling\":");
    line.number(segment.cpu);
    line.text(",\"state\":\"");
    line.text(state_word(segment.doing));
    line.text("\",\"cookie\":");
    put_number(&mut line, cookie_of(segment.doing));
    write_all(sink, line.as_bytes())?;
    line.clear();
    line.text(",\"pending\":");
    put_truth(&mut line, segment.pending);
    line.text(",\"forced\":");
    put_truth(&mut line, is_forced(segment.doing));
    line.text(",\"pid\":");
    put_number(&mut line, pid_of(segment.pid));
    line.text(",\"group\":");
    put_number(&mut line, group_of(segment.group));
    line.text("}\n");
    write_all(sink, line.as_bytes())
}

/// Writes a run's segments as lines of JSON: an object for each segment, with the columns of the table as its members.
/// At an `Err` the sink has failed, and a prefix of the lines is written. It takes no memory.
pub fn segments_json<K: Sink>(run: &RunSegments, sink: &mut K) -> Result<(), Failed>
    ensures ok { OnOk result (K.written sink.new
        ≡ appended (K.written sink.old) (segments_json_text run.now)) }
    ensures prefix { WritesPrefix (K.written sink.old) (segments_json_text run.now)
        (K.written sink.new) }

    ensures faultless { OnOk result (K.faults sink.new ≡ K.faults sink.old) }
    ensures failed { OnErr result (Rose (K.faults sink.old) (K.faults sink.new)) }
    ensures counted { K.faults sink.old ≤ K.faults sink.new }
{
    for segment in run.segments() {
        write_object(segment, sink)?;
    }
    Ok(())
}
