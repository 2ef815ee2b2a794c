//! The whole summary.

ghost use Rattle.std.specs.Prelude.{◌≡◌, ◌≤◌, OnOk, OnErr};
ghost use Rattle.std.specs.List.{flat_map};
ghost use Rattle.cs_outside.specs.Device.{appended, Rose, WritesPrefix};
ghost use Rattle.scenario_text.specs.Text.{line};
ghost use Rattle.times_report.specs.Summary.{sibling_lines, pair_lines, side_lines, end_lines, summary_text};

use crate::lines::{
    cpu_line, forced_line, pair_line, pending_line, replies_line, side_line, total_line,
};
use crate::task_lines::task_summary;
use crate::wait_lines::write_waits;
use cs_outside::{Failed, Sink, write_all};
use pair_times::PairTime;
use run_summary::{ReplyCounts, RunSummary};
use run_times::{By, RunTimes, SiblingTimes, SideBySide};

/// The two lines of each sibling. At an `Err` the sink has failed, and a prefix of them is written.
fn write_siblings<K: Sink>(siblings: &[SiblingTimes], sink: &mut K) -> Result<(), Failed>
    ensures ok { OnOk result (K.written sink.new
        ≡ appended (K.written sink.old) (flat_map line (sibling_lines siblings.now))) }
    ensures prefix { WritesPrefix (K.written sink.old) (flat_map line (sibling_lines siblings.now))
        (K.written sink.new) }

    ensures faultless { OnOk result (K.faults sink.new ≡ K.faults sink.old) }
    ensures failed { OnErr result (Rose (K.faults sink.old) (K.faults sink.new)) }
    ensures counted { K.faults sink.old ≤ K.faults sink.new }
{
    for cpu in 0..siblings.len() {
        let times = &siblings[cpu];
        write_all(sink, cpu_line(cpu, times).as_bytes())?;
        write_all(sink, forced_line(cpu, times).as_bytes())?;
    }
    Ok(())
}

/// The line of each pair. At an `Err` the sink has failed, and a prefix of them is written.
fn write_pairs<K: Sink>(by: By, pairs: &[PairTime], sink: &mut K) -> Result<(), Failed>
    ensures ok { OnOk result (K.written sink.new
        ≡ appended (K.written sink.old) (flat_map line (pair_lines by pairs.now))) }
    ensures prefix { WritesPrefix (K.written sink.old) (flat_map line (pair_lines by pairs.now))
        (K.written sink.new) }

    ensures faultless { OnOk result (K.faults sink.new ≡ K.faults sink.old) }
    ensures failed { OnErr result (Rose (K.faults sink.old) (K.faults sink.new)) }
    ensures counted { K.faults sink.old ≤ K.faults sink.new }
{
    for index in 0..pairs.len() {
        write_all(sink, pair_line(by, &pairs[index]).as_bytes())?;
    }
    Ok(())
}

/// For how long tasks that are told apart ran side by side, and then which. At an `Err` the sink has failed, and a
/// prefix of these lines is written.
fn write_side<K: Sink>(
    by: By,
    times: SideBySide,
    pairs: &[PairTime],
    sink: &mut K,
) -> Result<(), Failed>
    ensures ok { OnOk result (K.written sink.new
        ≡ appended (K.written sink.old) (flat_map line (side_lines by times pairs.now))) }
    ensures prefix { WritesPrefix (K.written sink.old)
        (flat_map line (side_lines by times pairs.now)) (K.written sink.new) }

    ensures faultless { OnOk result (K.faults sink.new ≡ K.faults sink.old) }
    ensures failed { OnErr result (Rose (K.faults sink.old) (K.faults sink.new)) }
    ensures counted { K.faults sink.old ≤ K.faults sink.new }
{
    write_all(sink, side_line(by, times).as_bytes())?;
    write_pairs(by, pairs, sink)
}

/// The last three lines. At an `Err` the sink has failed, and a prefix of them is written.
fn write_end<K: Sink>(times: &RunTimes, replies: &ReplyCounts, sink: &mut K) -> Result<(), Failed>
    ensures ok { OnOk result (K.written sink.new
        ≡ appended (K.written sink.old) (flat_map line (end_lines times.now replies.now))) }
    ensures prefix { WritesPrefix (K.written sink.old)
        (flat_map line (end_lines times.now replies.now)) (K.written sink.new) }

    ensures faultless { OnOk result (K.faults sink.new ≡ K.faults sink.old) }
    ensures failed { OnErr result (Rose (K.faults sink.old) (K.faults sink.new)) }
    ensures counted { K.faults sink.old ≤ K.faults sink.new }
{
    write_all(sink, pending_line(times).as_bytes())?;
    write_all(sink, replies_line(replies).as_bytes())?;
    write_all(sink, total_line(times).as_bytes())
}

/// Writes what is told of a run: what each sibling, each task and the tasks of each cookie did and for how long; how
/// often and for how long each task waited from a wake to its run; for how long tasks with distinct cookies ran side by
/// side, and which; for how long tasks of distinct thread groups did, and which; for how long a reschedule was pending,
/// how many steps were refused, and all time. Each line goes to the sink in one piece, and again with the rest if the
/// sink took only a part. At an `Err` the sink has failed, and a prefix of the text is written. It takes no memory.
pub fn summary<K: Sink>(summary: &RunSummary, sink: &mut K) -> Result<(), Failed>
    ensures ok { OnOk result (K.written sink.new
        ≡ appended (K.written sink.old) (summary_text summary.now)) }
    ensures prefix { WritesPrefix (K.written sink.old) (summary_text summary.now)
        (K.written sink.new) }

    ensures faultless { OnOk result (K.faults sink.new ≡ K.faults sink.old) }
    ensures failed { OnErr result (Rose (K.faults sink.old) (K.faults sink.new)) }
    ensures counted { K.faults sink.old ≤ K.faults sink.new }
{
    let times = summary.times();
    write_siblings(times.siblings(), sink)?;
    task_summary(summary.tasks(), sink)?;
    write_waits(summary.waits().rows(), sink)?;
    write_side(By::Cookie, times.exposed(), summary.cookie_pairs(), sink)?;
    write_side(By::Group, times.mixed(), summary.group_pairs(), sink)?;
    write_end(times, summary.replies(), sink)
}
