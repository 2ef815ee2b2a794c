//! The parts of the table, each with its heading.

ghost use Rattle.std.specs.Prelude.{◌≡◌, OnOk, OnErr};
ghost use Rattle.cs_outside.specs.Device.{Rose};

use crate::cell::{Cell, Side, write_line};
use cs_outside::{Failed, Sink};
use pair_times::PairTime;
use run_summary::ReplyCounts;
use run_times::{SiblingTimes, SideBySide};
use task_times::{CookieTimes, TaskTimes};
use wait_times::TaskWaits;

/// How wide the columns are: the first, a time, a share, and a count.
const FIRST: Side = Side::Left(10);

const TIME: Side = Side::Right(13);

const SHARE: Side = Side::Right(7);

const COUNT: Side = Side::Right(10);

/// The width of the first column of what ran side by side.
const NAMES: Side = Side::Left(43);

/// Writes a heading and the names of the columns.
fn write_heading<K: Sink>(sink: &mut K, cells: &[(Cell, Side)]) -> Result<(), Failed>
    ensures faultless { OnOk result (K.faults sink.new ≡ K.faults sink.old) }
    ensures failed { OnErr result (Rose (K.faults sink.old) (K.faults sink.new)) }
{
    write_line(sink, &[])?;
    write_line(sink, cells)
}

/// Writes what each sibling did.
pub(crate) fn write_siblings<K: Sink>(
    sink: &mut K,
    siblings: &[SiblingTimes],
    total: u64,
) -> Result<(), Failed>
    ensures faultless { OnOk result (K.faults sink.new ≡ K.faults sink.old) }
    ensures failed { OnErr result (Rose (K.faults sink.old) (K.faults sink.new)) }
{
    write_heading(
        sink,
        &[
            (Cell::Text("SIBLING"), FIRST),
            (Cell::Text("ran ms"), TIME),
            (Cell::Text("%"), SHARE),
            (Cell::Text("idle ms"), TIME),
            (Cell::Text("%"), SHARE),
            (Cell::Text("forced ms"), TIME),
            (Cell::Text("%"), SHARE),
            (Cell::Text("offline ms"), TIME),
            (Cell::Text("%"), SHARE),
            (Cell::Text("pending ms"), TIME),
            (Cell::Text("%"), SHARE),
        ],
    )?;
    for cpu in 0..siblings.len() {
        let times = siblings[cpu];
        let forced = times.forced_by_cookie.saturating_add(times.forced_by_none);
        write_line(
            sink,
            &[
                (Cell::Sibling(cpu as u64), FIRST),
                (Cell::Time(times.ran), TIME),
                (Cell::Share(times.ran, total), SHARE),
                (Cell::Time(times.idled), TIME),
                (Cell::Share(times.idled, total), SHARE),
                (Cell::Time(forced), TIME),
                (Cell::Share(forced, total), SHARE),
                (Cell::Time(times.offline), TIME),
                (Cell::Share(times.offline, total), SHARE),
                (Cell::Time(times.pending), TIME),
                (Cell::Share(times.pending, total), SHARE),
            ],
        )?;
    }
    Ok(())
}

/// Writes the line of a task.
fn write_task<K: Sink>(sink: &mut K, pid: u64, times: TaskTimes, total: u64) -> Result<(), Failed>
    ensures faultless { OnOk result (K.faults sink.new ≡ K.faults sink.old) }
    ensures failed { OnErr result (Rose (K.faults sink.old) (K.faults sink.new)) }
{
    let doing = times.by_doing;
    write_line(
        sink,
        &[
            (Cell::Number(pid), FIRST),
            (Cell::Time(doing.ran), TIME),
            (Cell::Share(doing.ran, total), SHARE),
            (Cell::Time(doing.waited), TIME),
            (Cell::Share(doing.waited, total), SHARE),
            (Cell::Time(doing.slept), TIME),
            (Cell::Share(doing.slept, total), SHARE),
            (Cell::Time(times.charged), TIME),
            (Cell::Number(u64::from(times.cookie)), COUNT),
        ],
    )
}

/// Writes what each task did: of those that lived for some time or were charged something, by rising pid.
pub(crate) fn write_tasks<K: Sink>(
    sink: &mut K,
    tasks: &[TaskTimes],
    total: u64,
) -> Result<(), Failed>
    ensures faultless { OnOk result (K.faults sink.new ≡ K.faults sink.old) }
    ensures failed { OnErr result (Rose (K.faults sink.old) (K.faults sink.new)) }
{
    write_heading(
        sink,
        &[
            (Cell::Text("TASK"), FIRST),
            (Cell::Text("ran ms"), TIME),
            (Cell::Text("%"), SHARE),
            (Cell::Text("waited ms"), TIME),
            (Cell::Text("%"), SHARE),
            (Cell::Text("slept ms"), TIME),
            (Cell::Text("%"), SHARE),
            (Cell::Text("charged ms"), TIME),
            (Cell::Text("cookie"), COUNT),
        ],
    )?;
    for pid in 0..tasks.len() {
        let times = tasks[pid];
        if times.is_shown() {
            write_task(sink, pid as u64, times, total)?;
        }
    }
    Ok(())
}

/// Writes the line of a cookie.
fn write_cookie<K: Sink>(sink: &mut K, cookie: u64, times: CookieTimes) -> Result<(), Failed>
    ensures faultless { OnOk result (K.faults sink.new ≡ K.faults sink.old) }
    ensures failed { OnErr result (Rose (K.faults sink.old) (K.faults sink.new)) }
{
    let doing = times.by_doing;
    let charged = u64::try_from(times.charged).unwrap_or(u64::MAX);
    write_line(
        sink,
        &[
            (Cell::Number(cookie), FIRST),
            (Cell::Time(doing.ran), TIME),
            (Cell::Text(""), SHARE),
            (Cell::Time(doing.waited), TIME),
            (Cell::Text(""), SHARE),
            (Cell::Time(doing.slept), TIME),
            (Cell::Text(""), SHARE),
            (Cell::Time(charged), TIME),
        ],
    )
}

/// Writes what the tasks of each cookie did, added up: of the cookies that some task had for some time or to which
/// something was charged.
pub(crate) fn write_cookies<K: Sink>(sink: &mut K, cookies: &[CookieTimes]) -> Result<(), Failed>
    ensures faultless { OnOk result (K.faults sink.new ≡ K.faults sink.old) }
    ensures failed { OnErr result (Rose (K.faults sink.old) (K.faults sink.new)) }
{
    write_heading(
        sink,
        &[
            (Cell::Text("COOKIE"), FIRST),
            (Cell::Text("ran ms"), TIME),
            (Cell::Text(""), SHARE),
            (Cell::Text("waited ms"), TIME),
            (Cell::Text(""), SHARE),
            (Cell::Text("slept ms"), TIME),
            (Cell::Text(""), SHARE),
            (Cell::Text("charged ms"), TIME),
        ],
    )?;
    for cookie in 0..cookies.len() {
        let times = cookies[cookie];
        if times.is_shown() {
            write_cookie(sink, cookie as u64, times)?;
        }
    }
    Ok(())
}

/// Writes the waits of a task.
fn write_task_waits<K: Sink>(sink: &mut K, pid: u64, waits: TaskWaits) -> Result<(), Failed>
    ensures faultless { OnOk result (K.faults sink.new ≡ K.faults sink.old) }
    ensures failed { OnErr result (Rose (K.faults sink.old) (K.faults sink.new)) }
{
    let count = u64::from(waits.count);
    if count == 0 {
        return Ok(());
    }
    write_line(
        sink,
        &[
            (Cell::Number(pid), FIRST),
            (Cell::Number(count), COUNT),
            (Cell::Time(waits.sum / count), TIME),
            (Cell::Time(waits.longest), TIME),
            (Cell::Time(waits.sum), TIME),
        ],
    )
}

/// Writes how often and for how long each task waited from a wake to its run: of those that did, by rising pid.
pub(crate) fn write_waits<K: Sink>(sink: &mut K, tasks: &[TaskWaits]) -> Result<(), Failed>
    ensures faultless { OnOk result (K.faults sink.new ≡ K.faults sink.old) }
    ensures failed { OnErr result (Rose (K.faults sink.old) (K.faults sink.new)) }
{
    write_heading(
        sink,
        &[
            (Cell::Text("WOKEN"), FIRST),
            (Cell::Text("waits"), COUNT),
            (Cell::Text("mean ms"), TIME),
            (Cell::Text("longest ms"), TIME),
            (Cell::Text("sum ms"), TIME),
        ],
    )?;
    for pid in 0..tasks.len() {
        write_task_waits(sink, pid as u64, tasks[pid])?;
    }
    Ok(())
}

/// Writes the heading of what ran side by side.
pub(crate) fn write_side_heading<K: Sink>(sink: &mut K) -> Result<(), Failed>
    ensures faultless { OnOk result (K.faults sink.new ≡ K.faults sink.old) }
    ensures failed { OnErr result (Rose (K.faults sink.old) (K.faults sink.new)) }
{
    write_heading(
        sink,
        &[
            (Cell::Text("SIDE BY SIDE"), NAMES),
            (Cell::Text("in all ms"), TIME),
            (Cell::Text("%"), SHARE),
            (Cell::Text("longest ms"), TIME),
        ],
    )
}

/// Writes for how long tasks that are told apart ran side by side.
pub(crate) fn write_side<K: Sink>(
    sink: &mut K,
    name: &str,
    times: SideBySide,
    total: u64,
) -> Result<(), Failed>
    ensures faultless { OnOk result (K.faults sink.new ≡ K.faults sink.old) }
    ensures failed { OnErr result (Rose (K.faults sink.old) (K.faults sink.new)) }
{
    write_line(
        sink,
        &[
            (Cell::Text(name), NAMES),
            (Cell::Time(times.all), TIME),
            (Cell::Share(times.all, total), SHARE),
            (Cell::Time(times.longest), TIME),
        ],
    )
}

/// Writes for how long those of each pair did.
pub(crate) fn write_pairs<K: Sink>(
    sink: &mut K,
    name: &str,
    pairs: &[PairTime],
    total: u64,
) -> Result<(), Failed>
    ensures faultless { OnOk result (K.faults sink.new ≡ K.faults sink.old) }
    ensures failed { OnErr result (Rose (K.faults sink.old) (K.faults sink.new)) }
{
    for pair in pairs {
        write_line(
            sink,
            &[
                (Cell::Text(name), Side::Left(16)),
                (Cell::Number(pair.low), Side::Right(10)),
                (Cell::Text(" and "), Side::Left(5)),
                (Cell::Number(pair.high), Side::Left(12)),
                (Cell::Time(pair.time), TIME),
                (Cell::Share(pair.time, total), SHARE),
            ],
        )?;
    }
    Ok(())
}

/// Writes how many entries were refused, and how.
pub(crate) fn write_replies<K: Sink>(sink: &mut K, replies: &ReplyCounts) -> Result<(), Failed>
    ensures faultless { OnOk result (K.faults sink.new ≡ K.faults sink.old) }
    ensures failed { OnErr result (Rose (K.faults sink.old) (K.faults sink.new)) }
{
    write_heading(
        sink,
        &[
            (Cell::Text("REFUSED"), FIRST),
            (Cell::Text("NoTask"), COUNT),
            (Cell::Text("Awake"), COUNT),
            (Cell::Text("Idle"), COUNT),
            (Cell::Text("NoCaller"), COUNT),
            (Cell::Text("Offline"), COUNT),
            (Cell::Text("others"), COUNT),
        ],
    )?;
    write_line(
        sink,
        &[
            (Cell::Text("entries"), FIRST),
            (Cell::Number(u64::from(replies.no_task)), COUNT),
            (Cell::Number(u64::from(replies.awake)), COUNT),
            (Cell::Number(u64::from(replies.idle)), COUNT),
            (Cell::Number(u64::from(replies.no_caller)), COUNT),
            (Cell::Number(u64::from(replies.offline)), COUNT),
            (Cell::Number(u64::from(replies.errors)), COUNT),
        ],
    )
}
