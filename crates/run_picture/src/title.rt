//! The words of a mark: what one reads when the pointer rests on it.

ghost use Rattle.std.specs.Prelude.{◌≡◌, OnOk, OnErr};
ghost use Rattle.cs_outside.specs.Device.{Rose};

use crate::gathered::Gathered;
use crate::piece::{Piece, write_pieces};
use crate::span::Span;
use cs_outside::{Failed, Sink};
use cs_types::Cookie;
use run_segments::Segment;
use run_times::Doing;

/// Writes which task runs.
fn write_task<K: Sink>(sink: &mut K, segment: &Segment) -> Result<(), Failed>
    ensures faultless { OnOk result (K.faults sink.new ≡ K.faults sink.old) }
    ensures failed { OnErr result (Rose (K.faults sink.old) (K.faults sink.new)) }
{
    write_pieces(
        sink,
        &[
            Piece::Text("runs task "),
            Piece::Number(u64::from(segment.pid)),
            Piece::Text(" of thread group "),
            Piece::Number(segment.group),
        ],
    )
}

/// Writes with which cookie it does.
fn write_cookie<K: Sink>(sink: &mut K, cookie: Cookie) -> Result<(), Failed>
    ensures faultless { OnOk result (K.faults sink.new ≡ K.faults sink.old) }
    ensures failed { OnErr result (Rose (K.faults sink.old) (K.faults sink.new)) }
{
    if cookie == 0 {
        return write_pieces(sink, &[Piece::Text(" without a cookie")]);
    }
    write_pieces(sink, &[Piece::Text(" with cookie "), Piece::Number(cookie)])
}

/// Writes what a sibling does, in words.
fn write_doing<K: Sink>(sink: &mut K, segment: &Segment) -> Result<(), Failed>
    ensures faultless { OnOk result (K.faults sink.new ≡ K.faults sink.old) }
    ensures failed { OnErr result (Rose (K.faults sink.old) (K.faults sink.new)) }
{
    match segment.doing {
        Doing::Offline => write_pieces(sink, &[Piece::Text("is offline")]),
        Doing::Runs(cookie) => {
            write_task(sink, segment)?;
            write_cookie(sink, cookie)
        }
        Doing::Idles => write_pieces(sink, &[Piece::Text("idles")]),
        Doing::ForcedIdle(0) => write_pieces(
            sink,
            &[Piece::Text("is forced idle while the core has no cookie")],
        ),
        Doing::ForcedIdle(cookie) => write_pieces(
            sink,
            &[
                Piece::Text("is forced idle by cookie "),
                Piece::Number(cookie),
            ],
        ),
    }
}

/// Writes from when to when something was so, and for how long.
pub(crate) fn write_span<K: Sink>(sink: &mut K, span: Span) -> Result<(), Failed>
    ensures faultless { OnOk result (K.faults sink.new ≡ K.faults sink.old) }
    ensures failed { OnErr result (Rose (K.faults sink.old) (K.faults sink.new)) }
{
    write_pieces(
        sink,
        &[
            Piece::Text(", "),
            Piece::Time(span.from),
            Piece::Text(" to "),
            Piece::Time(span.to),
            Piece::Text(" ("),
            Piece::Time(span.length()),
            Piece::Text(")</title>"),
        ],
    )
}

/// Writes the title of one segment.
pub(crate) fn write_title<K: Sink>(sink: &mut K, segment: &Segment) -> Result<(), Failed>
    ensures faultless { OnOk result (K.faults sink.new ≡ K.faults sink.old) }
    ensures failed { OnErr result (Rose (K.faults sink.old) (K.faults sink.new)) }
{
    let cpu = Piece::Number(u64::from(segment.cpu));
    write_pieces(sink, &[Piece::Text("<title>s"), cpu, Piece::Text(" ")])?;
    write_doing(sink, segment)?;
    if segment.pending {
        write_pieces(sink, &[Piece::Text(", reschedule pending")])?;
    }
    write_span(sink, Span::of_segment(segment))
}

/// Writes for how long something was so in a mark, if it was.
fn write_part<K: Sink>(sink: &mut K, word: &str, time: u64) -> Result<(), Failed>
    ensures faultless { OnOk result (K.faults sink.new ≡ K.faults sink.old) }
    ensures failed { OnErr result (Rose (K.faults sink.old) (K.faults sink.new)) }
{
    if time == 0 {
        return Ok(());
    }
    write_pieces(sink, &[Piece::Text(word), Piece::Time(time)])
}

/// Writes the title of a mark of several segments.
pub(crate) fn write_gathered_title<K: Sink>(sink: &mut K, gathered: &Gathered) -> Result<(), Failed>
    ensures faultless { OnOk result (K.faults sink.new ≡ K.faults sink.old) }
    ensures failed { OnErr result (Rose (K.faults sink.old) (K.faults sink.new)) }
{
    write_pieces(
        sink,
        &[
            Piece::Text("<title>s"),
            Piece::Number(u64::from(gathered.first.cpu)),
            Piece::Text(", "),
            Piece::Number(gathered.count),
            Piece::Text(" segments"),
        ],
    )?;
    write_part(sink, ", ran ", gathered.ran.time)?;
    write_part(sink, ", forced idle ", gathered.forced.time)?;
    write_part(sink, ", offline ", gathered.offline)?;
    write_part(sink, ", reschedule pending ", gathered.pending)?;
    write_span(sink, gathered.span)
}
