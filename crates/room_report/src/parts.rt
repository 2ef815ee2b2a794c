//! The parts of the output, each with one loop at most. Each line goes to the sink in one piece, and
//! again with the rest if the sink took only a part. At an `Err` the sink has failed, and a prefix
//! of the part is written.

ghost use Rattle.std.specs.Prelude.{◌≡◌, ◌≤◌, drop, All, OnOk, OnErr};
ghost use Rattle.std.specs.List.{flat_map};
ghost use Rattle.cs_types.specs.Scenario.{IsPlayable};
ghost use Rattle.cs_outside.specs.Device.{appended, Rose, WritesPrefix};
ghost use Rattle.scenario_text.specs.Text.{entry_text};
ghost use Rattle.scenario_text.specs.Entry.{FitsReply};
ghost use Rattle.room_report.specs.Report.{core_lines, cpu_lines, task_lines, ended_lines, guard_lines, part_text};

use crate::entry::entry_text;
use crate::lines::{
    clock_line, core_line, cpu_line, guard_line, intervals_line, numbers_line, put_ended, task_line,
};
use cs_outside::{Failed, Sink, write_all};
use cs_types::Room;
use scenario_text::Line;

/// The line of each entry from a place on.
pub(crate) fn write_entries<R: Room, K: Sink>(
    room: &R,
    from: u64,
    sink: &mut K,
) -> Result<(), Failed>
    ensures ok { OnOk result (K.written sink.new ≡ appended
        (K.written sink.old) (flat_map entry_text (drop from (R.history room.now)))) }
    ensures prefix { WritesPrefix (K.written sink.old)
        (flat_map entry_text (drop from (R.history room.now))) (K.written sink.new) }

    ensures faultless { OnOk result (K.faults sink.new ≡ K.faults sink.old) }
    ensures failed { OnErr result (Rose (K.faults sink.old) (K.faults sink.new)) }
    ensures counted { K.faults sink.old ≤ K.faults sink.new }

    // The numbers of the replies that were written have 64 bits.
    ensures numbers { OnOk result (All (λ entry. FitsReply entry.reply) (drop from (R.history room.now))) }
{
    let mut line = Line::new();
    for index in from..room.length() {
        // Each is there. To unwrap it would copy it a second time.
        if let Some(entry) = &room.entry(index) {
            entry_text(entry, &mut line, sink)?;
        }
    }
    Ok(())
}

/// The first lines of the report, on the whole core.
pub(crate) fn write_core<R: Room, K: Sink>(room: &R, sink: &mut K) -> Result<(), Failed>
    ensures ok { OnOk result (K.written sink.new ≡ appended
        (K.written sink.old) (part_text core_lines (R.opening room.now) (R.history room.now))) }
    ensures prefix { WritesPrefix (K.written sink.old)
        (part_text core_lines (R.opening room.now) (R.history room.now)) (K.written sink.new) }

    ensures faultless { OnOk result (K.faults sink.new ≡ K.faults sink.old) }
    ensures failed { OnErr result (Rose (K.faults sink.old) (K.faults sink.new)) }
    ensures counted { K.faults sink.old ≤ K.faults sink.new }
{
    let (task_number, pick_number) = room.numbers();
    let core = room.core();
    write_all(sink, b"report\n")?;
    write_all(sink, clock_line(room.clock()).as_bytes())?;
    write_all(sink, numbers_line(task_number, pick_number).as_bytes())?;
    write_all(sink, core_line(core).as_bytes())?;
    write_all(sink, intervals_line(core).as_bytes())
}

/// The line of each sibling.
pub(crate) fn write_siblings<R: Room, K: Sink>(room: &R, sink: &mut K) -> Result<(), Failed>
    ensures ok { OnOk result (K.written sink.new ≡ appended
        (K.written sink.old) (part_text cpu_lines (R.opening room.now) (R.history room.now))) }
    ensures prefix { WritesPrefix (K.written sink.old)
        (part_text cpu_lines (R.opening room.now) (R.history room.now)) (K.written sink.new) }

    ensures faultless { OnOk result (K.faults sink.new ≡ K.faults sink.old) }
    ensures failed { OnErr result (Rose (K.faults sink.old) (K.faults sink.new)) }
    ensures counted { K.faults sink.old ≤ K.faults sink.new }

    // What the next part asks for.
    ensures playable { IsPlayable (R.opening room.now).scenario }
{
    for cpu in 0..room.siblings() {
        let view = room.cpu(cpu).unwrap();
        write_all(sink, cpu_line(cpu, view).as_bytes())?;
    }
    Ok(())
}

/// The line of each living task, by rising pid.
pub(crate) fn write_tasks<R: Room, K: Sink>(room: &R, sink: &mut K) -> Result<(), Failed>
    requires { IsPlayable (R.opening room.now).scenario }

    ensures ok { OnOk result (K.written sink.new ≡ appended
        (K.written sink.old) (part_text task_lines (R.opening room.now) (R.history room.now))) }
    ensures prefix { WritesPrefix (K.written sink.old)
        (part_text task_lines (R.opening room.now) (R.history room.now)) (K.written sink.new) }

    ensures faultless { OnOk result (K.faults sink.new ≡ K.faults sink.old) }
    ensures failed { OnErr result (Rose (K.faults sink.old) (K.faults sink.new)) }
    ensures counted { K.faults sink.old ≤ K.faults sink.new }
{
    let mut pid = 0;
    while let Some(task) = room.task_after(pid) {
        write_all(sink, task_line(task).as_bytes())?;
        pid = task.pid;
    }
    Ok(())
}

/// The line of each task that ended. None ended without an entry.
pub(crate) fn write_ended<R: Room, K: Sink>(room: &R, sink: &mut K) -> Result<(), Failed>
    ensures ok { OnOk result (K.written sink.new ≡ appended
        (K.written sink.old) (part_text ended_lines (R.opening room.now) (R.history room.now))) }
    ensures prefix { WritesPrefix (K.written sink.old)
        (part_text ended_lines (R.opening room.now) (R.history room.now)) (K.written sink.new) }

    ensures faultless { OnOk result (K.faults sink.new ≡ K.faults sink.old) }
    ensures failed { OnErr result (Rose (K.faults sink.old) (K.faults sink.new)) }
    ensures counted { K.faults sink.old ≤ K.faults sink.new }
{
    for index in 0..room.length() {
        match room.ended(index) {
            Some(task) => {
                let mut line = Line::new();
                put_ended(&mut line, task);
                write_all(sink, line.as_bytes())?;
            }
            None => return Ok(()),
        }
    }
    Ok(())
}

/// The line of each guard.
pub(crate) fn write_guards<R: Room, K: Sink>(room: &R, sink: &mut K) -> Result<(), Failed>
    ensures ok { OnOk result (K.written sink.new ≡ appended
        (K.written sink.old) (part_text guard_lines (R.opening room.now) (R.history room.now))) }
    ensures prefix { WritesPrefix (K.written sink.old)
        (part_text guard_lines (R.opening room.now) (R.history room.now)) (K.written sink.new) }

    ensures faultless { OnOk result (K.faults sink.new ≡ K.faults sink.old) }
    ensures failed { OnErr result (Rose (K.faults sink.old) (K.faults sink.new)) }
    ensures counted { K.faults sink.old ≤ K.faults sink.new }
{
    let mut index = 0;
    while let Some(guard) = room.guard(index) {
        write_all(sink, guard_line(index, guard).as_bytes())?;
        index += 1;
    }
    Ok(())
}
