//! The whole table.

ghost use Rattle.std.specs.Prelude.{◌≡◌, OnOk, OnErr};
ghost use Rattle.cs_outside.specs.Device.{Rose};

use crate::cell::{Cell, Side, write_line};
use crate::parts::{
    write_cookies, write_pairs, write_replies, write_siblings, write_side, write_side_heading,
    write_tasks, write_waits,
};
use cs_outside::{Failed, Sink};
use run_summary::RunSummary;

/// Writes which run the table is about.
fn write_title<K: Sink>(sink: &mut K, summary: &RunSummary) -> Result<(), Failed>
    ensures faultless { OnOk result (K.faults sink.new ≡ K.faults sink.old) }
    ensures failed { OnErr result (Rose (K.faults sink.old) (K.faults sink.new)) }
{
    let times = summary.times();
    let none = Side::Left(0);
    write_line(
        sink,
        &[
            (Cell::Text("One core with "), none),
            (Cell::Number(times.siblings().len() as u64), none),
            (Cell::Text(" siblings over "), none),
            (Cell::Time(times.total()), none),
            (
                Cell::Text(" ms. A reschedule was pending on some sibling for "),
                none,
            ),
            (Cell::Time(times.pending()), none),
            (Cell::Text(" ms ("), none),
            (Cell::Share(times.pending(), times.total()), none),
            (Cell::Text(" %)."), none),
        ],
    )
}

/// Writes the summary of a run for a person: a title, and for each part a heading and aligned lines, with times in ms
/// and shares of all time in per cent, both rounded down. What `times_report::summary` says for scripts is said here
/// too. It takes no memory. At an `Err` the sink has failed.
pub fn table<K: Sink>(summary: &RunSummary, sink: &mut K) -> Result<(), Failed>
    ensures faultless { OnOk result (K.faults sink.new ≡ K.faults sink.old) }
    ensures failed { OnErr result (Rose (K.faults sink.old) (K.faults sink.new)) }
{
    let times = summary.times();
    let total = times.total();
    write_title(sink, summary)?;
    write_siblings(sink, times.siblings(), total)?;
    write_tasks(sink, summary.tasks().tasks(), total)?;
    write_cookies(sink, summary.tasks().cookies())?;
    write_waits(sink, summary.waits().rows())?;
    write_side_heading(sink)?;
    write_side(
        sink,
        "tasks with distinct cookies (exposed)",
        times.exposed(),
        total,
    )?;
    write_pairs(sink, "  cookies", summary.cookie_pairs(), total)?;
    write_side(
        sink,
        "tasks of distinct thread groups (mixed)",
        times.mixed(),
        total,
    )?;
    write_pairs(sink, "  thread groups", summary.group_pairs(), total)?;
    write_replies(sink, summary.replies())
}
