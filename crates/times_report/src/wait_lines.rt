//! What is told of the waits of the tasks of a run. Each line is put together without a sink, so that a sink gets it
//! whole.

ghost use Rattle.std.specs.Prelude.{◌≡◌, ◌^◌, ◌<◌, ◌≤◌, OnOk, OnErr, length, nat_lt};
ghost use Rattle.std.specs.List.{flat_map};
ghost use Rattle.cs_outside.specs.Device.{appended, Rose, WritesPrefix};
ghost use Rattle.scenario_text.specs.Text.{line};
ghost use Rattle.times_report.specs.WaitLines.{wait_words, line_of_waits, wait_lines};

use cs_outside::{Failed, Sink, write_all};
use scenario_text::Line;
use wait_times::TaskWaits;

/// The line of a task that waited.
fn wait_line(pid: u32, waits: &TaskWaits) -> Line
    ensures { result ≡ line (wait_words pid waits.now) }
{
    let mut line = Line::new();
    line.text("waits ");
    line.number(pid);
    line.text(" count ");
    line.number(waits.count);
    line.text(" longest ");
    line.number(waits.longest);
    line.text(" sum ");
    line.number(waits.sum);
    line.text("\n");
    line
}

/// Whether there was a wait.
fn has_waited(waits: &TaskWaits) -> bool
    ensures { result ≡ nat_lt 0 waits.now.count }
{
    waits.count > 0
}

/// The line of a task, if it waited.
fn write_task_waits<K: Sink>(pid: u32, waits: &TaskWaits, sink: &mut K) -> Result<(), Failed>
    ensures ok { OnOk result (K.written sink.new
        ≡ appended (K.written sink.old) (flat_map line (line_of_waits (pid, waits.now)))) }
    ensures prefix { WritesPrefix (K.written sink.old)
        (flat_map line (line_of_waits (pid, waits.now)))
        (K.written sink.new) }

    ensures faultless { OnOk result (K.faults sink.new ≡ K.faults sink.old) }
    ensures failed { OnErr result (Rose (K.faults sink.old) (K.faults sink.new)) }
    ensures counted { K.faults sink.old ≤ K.faults sink.new }
{
    if has_waited(waits) {
        write_all(sink, wait_line(pid, waits).as_bytes())
    } else {
        Ok(())
    }
}

/// Writes a line for each task that waited from a wake to its run, by rising pid. At an `Err` the sink has failed, and
/// a prefix of them is written.
pub(crate) fn write_waits<K: Sink>(tasks: &[TaskWaits], sink: &mut K) -> Result<(), Failed>
    requires few { length tasks.now < 2 ^ 32 }
    ensures ok { OnOk result (K.written sink.new
        ≡ appended (K.written sink.old) (flat_map line (wait_lines tasks.now))) }
    ensures prefix { WritesPrefix (K.written sink.old) (flat_map line (wait_lines tasks.now))
        (K.written sink.new) }

    ensures faultless { OnOk result (K.faults sink.new ≡ K.faults sink.old) }
    ensures failed { OnErr result (Rose (K.faults sink.old) (K.faults sink.new)) }
    ensures counted { K.faults sink.old ≤ K.faults sink.new }
{
    for pid in 0..tasks.len() {
        write_task_waits(pid as u32, &tasks[pid], sink)?;
    }
    Ok(())
}
