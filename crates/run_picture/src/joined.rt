//! Spans that are drawn as one, and the mark of them: where it stands, how high it is, and what it says.

ghost use Rattle.std.specs.Prelude.{◌≡◌, ◌^◌, ◌<◌, OnOk, OnErr};
ghost use Rattle.cs_outside.specs.Device.{Rose};

use crate::frame::{LANE_HEIGHT, PENDING_BAR, PENDING_RIM};
use crate::piece::{Piece, write_pieces};
use crate::scale::{Strip, UNIT, part_of};
use crate::span::Span;
use crate::title::write_span;
use cs_outside::{Failed, Sink};
use cs_types::Cpu;
use run_segments::Waiting;

/// How high what must be seen is at least, in thousandths of a unit.
const SEEN: u64 = 2 * UNIT;

/// Spans that are drawn as one, at least one.
#[derive(Clone, Copy)]
pub(crate) struct Joined {
    /// From the start of the first to the end of the last.
    pub span: Span,
    /// How many there are.
    pub count: u64,
    /// How long they are together, in ns.
    pub time: u64,
    /// The most tasks that wait in one of them, 0 if the spans are not of waiting tasks.
    pub most: u32,
}

impl Joined {
    pub fn of(span: Span) -> Joined {
        Joined {
            span,
            count: 1,
            time: span.length(),
            most: 0,
        }
    }

    /// How many tasks wait for some time.
    pub fn of_waiting(waiting: &Waiting) -> Joined {
        let mut joined = Joined::of(Span::of_waiting(waiting));
        joined.most = waiting.count;
        joined
    }

    /// Whether there is no time between them.
    pub fn is_whole(self) -> bool {
        self.time == self.span.length()
    }

    /// How high a mark of them is, of this height: their share of the time, and enough to be seen.
    pub fn height(self, whole: u64) -> u64 {
        if self.is_whole() {
            whole
        } else {
            part_of(self.time, self.span.length(), whole).max(SEEN)
        }
    }

    /// These, and later ones.
    pub fn and(self, later: Joined) -> Joined {
        Joined {
            span: self.span.up_to(later.span),
            count: self.count.saturating_add(later.count),
            time: self.time.saturating_add(later.time),
            most: self.most.max(later.most),
        }
    }
}

/// Writes the start of a mark: a rectangle with this foot and this height, in thousandths of a unit.
pub(crate) fn write_rect<K: Sink>(
    sink: &mut K,
    strip: Strip,
    foot: u64,
    height: u64,
) -> Result<(), Failed>
    ensures faultless { OnOk result (K.faults sink.new ≡ K.faults sink.old) }
    ensures failed { OnErr result (Rose (K.faults sink.old) (K.faults sink.new)) }
{
    write_pieces(
        sink,
        &[
            Piece::Text("<rect x=\""),
            Piece::Length(strip.place),
            Piece::Text("\" y=\""),
            Piece::Length(foot.saturating_sub(height)),
            Piece::Text("\" width=\""),
            Piece::Length(strip.width),
            Piece::Text("\" height=\""),
            Piece::Length(height),
            Piece::Text("\""),
        ],
    )
}

/// Writes the words of a mark of tasks side by side, and its end.
pub(crate) fn write_side<K: Sink>(sink: &mut K, words: &str, joined: &Joined) -> Result<(), Failed>
    ensures faultless { OnOk result (K.faults sink.new ≡ K.faults sink.old) }
    ensures failed { OnErr result (Rose (K.faults sink.old) (K.faults sink.new)) }
{
    if joined.count == 1 {
        write_pieces(sink, &[Piece::Text("><title>"), Piece::Text(words)])?;
    } else {
        write_pieces(
            sink,
            &[
                Piece::Text("><title>"),
                Piece::Text(words),
                Piece::Text(" "),
                Piece::Number(joined.count),
                Piece::Text(" times, for "),
                Piece::Time(joined.time),
                Piece::Text(" in all"),
            ],
        )?;
    }
    write_span(sink, joined.span)?;
    write_pieces(sink, &[Piece::Text("</rect>\n")])
}

/// Writes the words of a mark of waiting tasks, and its end.
pub(crate) fn write_waits<K: Sink>(sink: &mut K, cpu: Cpu, joined: &Joined) -> Result<(), Failed>
    ensures faultless { OnOk result (K.faults sink.new ≡ K.faults sink.old) }
    ensures failed { OnErr result (Rose (K.faults sink.old) (K.faults sink.new)) }
{
    write_pieces(
        sink,
        &[
            Piece::Text("><title>s"),
            Piece::Number(u64::from(cpu)),
            Piece::Text(if joined.count == 1 {
                ", tasks that wait: "
            } else {
                ", tasks that wait at most: "
            }),
            Piece::Number(u64::from(joined.most)),
        ],
    )?;
    write_span(sink, joined.span)?;
    write_pieces(sink, &[Piece::Text("</rect>\n")])
}

/// Writes the words of a mark of events, and its end.
pub(crate) fn write_events<K: Sink>(sink: &mut K, joined: &Joined) -> Result<(), Failed>
    ensures faultless { OnOk result (K.faults sink.new ≡ K.faults sink.old) }
    ensures failed { OnErr result (Rose (K.faults sink.old) (K.faults sink.new)) }
{
    if joined.count == 1 {
        return write_pieces(
            sink,
            &[
                Piece::Text("><title>events at "),
                Piece::Time(joined.span.from),
                Piece::Text("</title></rect>\n"),
            ],
        );
    }
    write_pieces(
        sink,
        &[
            Piece::Text("><title>events at "),
            Piece::Number(joined.count),
            Piece::Text(" moments"),
        ],
    )?;
    write_span(sink, joined.span)?;
    write_pieces(sink, &[Piece::Text("</rect>\n")])
}

/// Writes the mark of pending reschedules on a lane with this top: an outline of the lane, and a bar above it if there
/// is other time between them.
pub(crate) fn write_pending_mark<K: Sink>(
    sink: &mut K,
    top: u64,
    strip: Strip,
    joined: &Joined,
) -> Result<(), Failed>
    requires above { 0 < top }
    requires small { top < 2 ^ 32 }
    ensures faultless { OnOk result (K.faults sink.new ≡ K.faults sink.old) }
    ensures failed { OnErr result (Rose (K.faults sink.old) (K.faults sink.new)) }
{
    if joined.is_whole() {
        let foot = top + LANE_HEIGHT + PENDING_RIM;
        write_rect(
            sink,
            strip,
            foot * UNIT,
            (LANE_HEIGHT + 2 * PENDING_RIM) * UNIT,
        )?;
        return write_pieces(sink, &[Piece::Text("/>\n")]);
    }
    write_rect(
        sink,
        strip,
        (top - 1) * UNIT,
        joined.height(PENDING_BAR * UNIT),
    )?;
    write_pieces(sink, &[Piece::Text(" class=\"q\"/>\n")])
}
