//! The line of an entry. It is put together without the sink, so that only the sink can fail, and gets the line whole.

ghost use Rattle.std.specs.Prelude.{◌≡◌, ◌≤◌, OnOk, OnErr};
ghost use Rattle.cs_outside.specs.Device.{appended, Rose, WritesPrefix};
ghost use Rattle.scenario_text.specs.Text.{entry_text};

use cs_outside::{Failed, Sink, write_all};
use cs_types::Entry;
use scenario_text::Line;

/// Writes the line of an entry to the sink, with its line feed, in one piece, and again with the rest if the sink took
/// only a part. It takes no memory: the entry is put on `line`, in place of what is there.
///
/// At an `Err` the sink has failed, and a prefix of the line is written.
pub fn entry_text<K: Sink>(entry: &Entry, line: &mut Line, sink: &mut K) -> Result<(), Failed>
    ensures ok { OnOk result (K.written sink.new
        ≡ appended (K.written sink.old) (entry_text entry.now)) }
    ensures prefix { WritesPrefix (K.written sink.old) (entry_text entry.now) (K.written sink.new) }

    ensures faultless { OnOk result (K.faults sink.new ≡ K.faults sink.old) }
    ensures failed { OnErr result (Rose (K.faults sink.old) (K.faults sink.new)) }
    ensures counted { K.faults sink.old ≤ K.faults sink.new }
{
    line.entry(entry);
    write_all(sink, line.as_bytes())
}
