//! The whole texts, part by part.

ghost use Rattle.std.specs.Prelude.{◌≡◌, ◌≤◌, drop, All, OnOk, OnErr};
ghost use Rattle.cs_types.specs.Room.{Opening};
ghost use Rattle.cs_types.specs.History.{History, moment_of};
ghost use Rattle.cs_outside.specs.Device.{appended, Rose, WritesPrefix};
ghost use Rattle.scenario_text.specs.Entry.{FitsReply, IsEntry};
ghost use Rattle.room_report.specs.Report.{output_text, output_from, report_text};

use crate::parts::{
    write_core, write_ended, write_entries, write_guards, write_siblings, write_tasks,
};
use cs_outside::{Failed, Sink, write_all};
use cs_types::Room;

/// Writes the line of each entry, and then the report. Each line goes to the sink in one piece, and
/// again with the rest if the sink took only a part. At an `Err` the sink has failed, and a prefix
/// of the text is written. It takes no memory.
pub fn output<R: Room, K: Sink>(room: &R, sink: &mut K) -> Result<(), Failed>
    ensures ok { OnOk result (K.written sink.new
        ≡ appended (K.written sink.old) (output_text (R.opening room.now) (R.history room.now))) }
    ensures prefix { WritesPrefix (K.written sink.old)
        (output_text (R.opening room.now) (R.history room.now)) (K.written sink.new) }

    ensures faultless { OnOk result (K.faults sink.new ≡ K.faults sink.old) }
    ensures failed { OnErr result (Rose (K.faults sink.old) (K.faults sink.new)) }
    ensures counted { K.faults sink.old ≤ K.faults sink.new }

    // No other history has this text, whatever it began with.
    ensures one { (opening : Opening) (history : History) →
        All IsEntry history → All IsEntry (R.history room.now) →
        output_text opening history ≡ output_text (R.opening room.now) (R.history room.now) →
        history ≡ R.history room.now }

    // The numbers of the replies that were written have 64 bits.
    ensures numbers { OnOk result (All (λ entry. FitsReply entry.reply) (R.history room.now)) }
{
    output_from(room, 0, sink)
}

/// Writes the line of each entry from a place on, and then the report, in the same way as `output`.
pub fn output_from<R: Room, K: Sink>(room: &R, from: u64, sink: &mut K) -> Result<(), Failed>
    ensures ok { OnOk result (K.written sink.new ≡ appended (K.written sink.old)
        (output_from (R.opening room.now) from (R.history room.now))) }
    ensures prefix { WritesPrefix (K.written sink.old)
        (output_from (R.opening room.now) from (R.history room.now)) (K.written sink.new) }

    ensures faultless { OnOk result (K.faults sink.new ≡ K.faults sink.old) }
    ensures failed { OnErr result (Rose (K.faults sink.old) (K.faults sink.new)) }
    ensures counted { K.faults sink.old ≤ K.faults sink.new }

    // The numbers of the replies that were written have 64 bits.
    ensures numbers { OnOk result (All
        (λ entry. FitsReply entry.reply) (drop from (R.history room.now))) }
{
    write_entries(room, from, sink)?;
    report(room, sink)
}

/// Writes the report alone, in the same way as `output`: what the machine shows now.
pub fn report<R: Room, K: Sink>(room: &R, sink: &mut K) -> Result<(), Failed>
    ensures ok { OnOk result (K.written sink.new ≡ appended
        (K.written sink.old) (report_text (moment_of (R.opening room.now) (R.history room.now)))) }
    ensures prefix { WritesPrefix (K.written sink.old)
        (report_text (moment_of (R.opening room.now) (R.history room.now))) (K.written sink.new) }

    ensures faultless { OnOk result (K.faults sink.new ≡ K.faults sink.old) }
    ensures failed { OnErr result (Rose (K.faults sink.old) (K.faults sink.new)) }
    ensures counted { K.faults sink.old ≤ K.faults sink.new }
{
    write_core(room, sink)?;
    write_siblings(room, sink)?;
    write_tasks(room, sink)?;
    write_ended(room, sink)?;
    write_guards(room, sink)?;
    write_all(sink, b"done\n")
}
