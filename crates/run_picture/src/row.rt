//! What is shown beside what the siblings did: when tasks that are told apart ran side by side, how many wait on a
//! sibling, when it had a pending reschedule, and when something happened at which no time passes. Spans that are near
//! are drawn as one, and each is seen.

ghost use Rattle.std.specs.Prelude.{◌≡◌, ◌^◌, ◌<◌, ◌≤◌, OnOk, OnErr};
ghost use Rattle.cs_outside.specs.Device.{Rose};

use crate::frame::{
    EVENTS_HEIGHT, EXPOSED_HEIGHT, EXPOSED_TOP, Frame, LANES_WIDTH, LEFT, MIXED_HEIGHT, MIXED_TOP,
    NAMES_END, WAITING_HEIGHT, WAITING_MOST, WAITING_TOP,
};
use crate::joined::{
    Joined, write_events, write_pending_mark, write_rect, write_side, write_waits,
};
use crate::piece::{Piece, write_pieces};
use crate::scale::{Scale, UNIT};
use crate::span::Span;
use cs_outside::{Failed, Sink};
use cs_types::Cpu;
use run_segments::{RunSegments, Segment, Waiting, Window};

/// What the spans are of.
#[derive(Clone, Copy)]
enum Row {
    /// The core is exposed.
    Exposed,
    /// The core is exposed, drawn through the lanes if it is so without a break.
    Behind,
    /// Thread groups run side by side.
    Mixed,
    /// Tasks wait on this sibling.
    Waiting(Cpu),
    /// This sibling has a pending reschedule.
    Pending(Cpu),
    /// Something happened at which no time passes.
    Events,
}

/// Where the spans go.
#[derive(Clone, Copy)]
struct Sheet {
    row: Row,
    scale: Scale,
    frame: Frame,
}

impl Sheet {
    /// Writes the mark of spans that are drawn as one.
    fn write<K: Sink>(self, sink: &mut K, joined: &Joined) -> Result<(), Failed>
        ensures faultless { OnOk result (K.faults sink.new ≡ K.faults sink.old) }
        ensures failed { OnErr result (Rose (K.faults sink.old) (K.faults sink.new)) }
    {
        let strip = self.scale.seen_strip(joined.span);
        let frame = self.frame;
        match self.row {
            Row::Exposed => {
                let high = EXPOSED_HEIGHT * UNIT;
                write_rect(sink, strip, EXPOSED_TOP * UNIT + high, joined.height(high))?;
                write_side(sink, "exposed", joined)
            }
            Row::Mixed => {
                let high = MIXED_HEIGHT * UNIT;
                write_rect(sink, strip, MIXED_TOP * UNIT + high, joined.height(high))?;
                write_side(sink, "thread groups side by side", joined)
            }
            Row::Waiting(cpu) => {
                let high = u64::from(joined.most).min(WAITING_MOST) * WAITING_HEIGHT;
                let top = (frame.lane(cpu) + WAITING_TOP) * UNIT;
                write_rect(sink, strip, top + high, high)?;
                write_waits(sink, cpu, joined)
            }
            Row::Behind if joined.count > 1 => Ok(()),
            Row::Behind => {
                write_rect(
                    sink,
                    strip,
                    frame.events() * UNIT,
                    frame.lanes_height() * UNIT,
                )?;
                write_pieces(sink, &[Piece::Text("/>\n")])
            }
            Row::Pending(cpu) => write_pending_mark(sink, frame.lane(cpu), strip, joined),
            Row::Events => {
                let foot = frame.events() + EVENTS_HEIGHT;
                write_rect(sink, strip, foot * UNIT, EVENTS_HEIGHT * UNIT)?;
                write_events(sink, joined)
            }
        }
    }

    /// Takes what comes next: joins it to what was put aside if it is near, and else writes that. It answers what is
    /// put aside then.
    fn take<K: Sink>(
        self,
        sink: &mut K,
        aside: Option<Joined>,
        next: Joined,
    ) -> Result<Option<Joined>, Failed>
        ensures faultless { OnOk result (K.faults sink.new ≡ K.faults sink.old) }
        ensures failed { OnErr result (Rose (K.faults sink.old) (K.faults sink.new)) }
    {
        let Some(joined) = aside else {
            return Ok(Some(next));
        };
        let goes_on = joined.is_whole()
            && next.span.from == joined.span.to
            && next.most == joined.most;
        if goes_on || self.scale.joins(joined.span, next.span) {
            return Ok(Some(joined.and(next)));
        }
        self.write(sink, &joined)?;
        Ok(Some(next))
    }

    /// Writes what is put aside at the end.
    fn close<K: Sink>(self, sink: &mut K, aside: Option<Joined>) -> Result<(), Failed>
        ensures faultless { OnOk result (K.faults sink.new ≡ K.faults sink.old) }
        ensures failed { OnErr result (Rose (K.faults sink.old) (K.faults sink.new)) }
    {
        match aside {
            Some(joined) => self.write(sink, &joined)?,
            None => {}
        }
        write_pieces(sink, &[Piece::Text("</g>\n")])
    }

    /// Writes when tasks ran side by side.
    fn write_windows<K: Sink>(self, sink: &mut K, windows: &[Window]) -> Result<(), Failed>
        ensures faultless { OnOk result (K.faults sink.new ≡ K.faults sink.old) }
        ensures failed { OnErr result (Rose (K.faults sink.old) (K.faults sink.new)) }
    {
        let mut aside = None;
        for window in windows {
            aside = self.take(sink, aside, Joined::of(Span::of_window(window)))?;
        }
        self.close(sink, aside)
    }

    /// Writes when a sibling had a pending reschedule.
    fn write_pending<K: Sink>(
        self,
        sink: &mut K,
        segments: &[Segment],
        cpu: Cpu,
    ) -> Result<(), Failed>
        ensures faultless { OnOk result (K.faults sink.new ≡ K.faults sink.old) }
        ensures failed { OnErr result (Rose (K.faults sink.old) (K.faults sink.new)) }
    {
        let mut aside = None;
        for segment in segments {
            if segment.cpu == cpu && segment.pending {
                aside = self.take(sink, aside, Joined::of(Span::of_segment(segment)))?;
            }
        }
        self.close(sink, aside)
    }

    /// Writes how many tasks wait on a sibling.
    fn write_waiting<K: Sink>(
        self,
        sink: &mut K,
        waiting: &[Waiting],
        cpu: Cpu,
    ) -> Result<(), Failed>
        ensures faultless { OnOk result (K.faults sink.new ≡ K.faults sink.old) }
        ensures failed { OnErr result (Rose (K.faults sink.old) (K.faults sink.new)) }
    {
        let mut aside = None;
        for item in waiting {
            if item.cpu == cpu {
                aside = self.take(sink, aside, Joined::of_waiting(item))?;
            }
        }
        self.close(sink, aside)
    }

    /// Writes when something happened at which no time passes.
    fn write_moments<K: Sink>(self, sink: &mut K, moments: &[u64]) -> Result<(), Failed>
        ensures faultless { OnOk result (K.faults sink.new ≡ K.faults sink.old) }
        ensures failed { OnErr result (Rose (K.faults sink.old) (K.faults sink.new)) }
    {
        let mut aside = None;
        for moment in moments {
            aside = self.take(sink, aside, Joined::of(Span::of_moment(*moment)))?;
        }
        self.close(sink, aside)
    }
}

/// The sheet of a row in the picture of a run.
fn sheet_of(run: &RunSegments, row: Row) -> Sheet {
    Sheet {
        row,
        scale: Scale::of(run.total(), run.siblings()),
        frame: Frame::of(run.siblings()),
    }
}

/// Writes the start of a row above the lanes: its name, whose foot is here, and its frame.
fn write_row<K: Sink>(
    sink: &mut K,
    name: &str,
    foot: u64,
    top: u64,
    height: u64,
) -> Result<(), Failed>
    ensures faultless { OnOk result (K.faults sink.new ≡ K.faults sink.old) }
    ensures failed { OnErr result (Rose (K.faults sink.old) (K.faults sink.new)) }
{
    write_pieces(
        sink,
        &[
            Piece::Text("<text class=\"n\" x=\""),
            Piece::Number(NAMES_END),
            Piece::Text("\" y=\""),
            Piece::Number(foot),
            Piece::Text("\">"),
            Piece::Text(name),
            Piece::Text("</text>\n<rect class=\"f\" x=\""),
            Piece::Number(LEFT),
            Piece::Text("\" y=\""),
            Piece::Number(top),
            Piece::Text("\" width=\""),
            Piece::Number(LANES_WIDTH),
            Piece::Text("\" height=\""),
            Piece::Number(height),
            Piece::Text("\"/>\n"),
        ],
    )
}

/// Writes when tasks that are told apart ran side by side: in a row for cookies and one for thread groups, and for
/// cookies behind the lanes too. At an `Err` the sink has failed.
pub(crate) fn write_side_by_side<K: Sink>(sink: &mut K, run: &RunSegments) -> Result<(), Failed>
    ensures faultless { OnOk result (K.faults sink.new ≡ K.faults sink.old) }
    ensures failed { OnErr result (Rose (K.faults sink.old) (K.faults sink.new)) }
{
    write_pieces(sink, &[Piece::Text("<g class=\"b\">\n")])?;
    sheet_of(run, Row::Behind).write_windows(sink, run.exposed())?;
    write_row(sink, "exposed", 80, EXPOSED_TOP, EXPOSED_HEIGHT)?;
    write_pieces(sink, &[Piece::Text("<g class=\"e\">\n")])?;
    sheet_of(run, Row::Exposed).write_windows(sink, run.exposed())?;
    write_row(sink, "groups", 99, MIXED_TOP, MIXED_HEIGHT)?;
    write_pieces(sink, &[Piece::Text("<g class=\"u\">\n")])?;
    sheet_of(run, Row::Mixed).write_windows(sink, run.mixed())
}

/// Writes how many tasks wait on each sibling, below its lane. At an `Err` the sink has failed.
pub(crate) fn write_waiting<K: Sink>(sink: &mut K, run: &RunSegments) -> Result<(), Failed>
    ensures faultless { OnOk result (K.faults sink.new ≡ K.faults sink.old) }
    ensures failed { OnErr result (Rose (K.faults sink.old) (K.faults sink.new)) }
{
    for cpu in 0..run.siblings() {
        write_pieces(sink, &[Piece::Text("<g class=\"w\">\n")])?;
        sheet_of(run, Row::Waiting(cpu)).write_waiting(sink, run.waiting(), cpu)?;
    }
    Ok(())
}

/// Writes when the siblings had a pending reschedule, over their lanes. At an `Err` the sink has failed.
pub(crate) fn write_pending<K: Sink>(sink: &mut K, run: &RunSegments) -> Result<(), Failed>
    ensures faultless { OnOk result (K.faults sink.new ≡ K.faults sink.old) }
    ensures failed { OnErr result (Rose (K.faults sink.old) (K.faults sink.new)) }
{
    for cpu in 0..run.siblings() {
        write_pieces(sink, &[Piece::Text("<g class=\"p\">\n")])?;
        sheet_of(run, Row::Pending(cpu)).write_pending(sink, run.segments(), cpu)?;
    }
    Ok(())
}

/// Writes when something happened at which no time passes, below the lanes. At an `Err` the sink has failed.
pub(crate) fn write_moments<K: Sink>(sink: &mut K, run: &RunSegments) -> Result<(), Failed>
    ensures faultless { OnOk result (K.faults sink.new ≡ K.faults sink.old) }
    ensures failed { OnErr result (Rose (K.faults sink.old) (K.faults sink.new)) }
{
    let frame = Frame::of(run.siblings());
    write_pieces(
        sink,
        &[
            Piece::Text("<text class=\"n\" x=\""),
            Piece::Number(NAMES_END),
            Piece::Text("\" y=\""),
            Piece::Number(frame.events() + 8),
            Piece::Text("\">events</text>\n<g class=\"t\">\n"),
        ],
    )?;
    sheet_of(run, Row::Events).write_moments(sink, run.moments())
}
