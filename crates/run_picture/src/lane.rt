//! The lane of a sibling: its name, what it did over time, and what that came to.

ghost use Rattle.std.specs.Prelude.{◌≡◌, OnOk, OnErr};
ghost use Rattle.cs_outside.specs.Device.{Rose};

use crate::frame::{Frame, LANE_HEIGHT, LANES_WIDTH, LEFT, NAMES_END, SHARES_LEFT};
use crate::gathered::Gathered;
use crate::mark::{write_gathered, write_segment};
use crate::piece::{Piece, write_pieces};
use crate::scale::Scale;
use crate::shades::Shades;
use crate::span::Span;
use cs_outside::{Failed, Sink};
use cs_types::Cpu;
use run_segments::{RunSegments, Segment};

/// What waits for the next segment, with it.
fn with_next(waiting: Option<Gathered>, segment: &Segment, shades: &Shades) -> Gathered {
    match waiting {
        Some(gathered) => {
            let mut gathered = gathered;
            gathered.add(segment, shades);
            gathered
        }
        None => Gathered::of(segment, shades),
    }
}

/// Writes the mark of what was gathered, if there is any.
fn write_waiting<K: Sink>(
    sink: &mut K,
    scale: Scale,
    shades: &Shades,
    waiting: Option<Gathered>,
) -> Result<(), Failed>
    ensures faultless { OnOk result (K.faults sink.new ≡ K.faults sink.old) }
    ensures failed { OnErr result (Rose (K.faults sink.old) (K.faults sink.new)) }
{
    match waiting {
        Some(gathered) => write_gathered(sink, scale, shades, &gathered),
        None => Ok(()),
    }
}

/// Writes the next segment of a lane if it is wide, and gathers it if it is not. It answers what waits for the one
/// after it: what is gathered and not yet as wide as a mark.
fn write_next<K: Sink>(
    sink: &mut K,
    scale: Scale,
    shades: &Shades,
    waiting: Option<Gathered>,
    segment: &Segment,
) -> Result<Option<Gathered>, Failed>
    ensures faultless { OnOk result (K.faults sink.new ≡ K.faults sink.old) }
    ensures failed { OnErr result (Rose (K.faults sink.old) (K.faults sink.new)) }
{
    if scale.is_wide(Span::of_segment(segment)) {
        write_waiting(sink, scale, shades, waiting)?;
        write_segment(sink, scale, shades, segment)?;
        return Ok(None);
    }
    let gathered = with_next(waiting, segment, shades);
    if scale.is_wide(gathered.span) {
        write_gathered(sink, scale, shades, &gathered)?;
        return Ok(None);
    }
    Ok(Some(gathered))
}

/// Writes the marks of a sibling.
fn write_marks<K: Sink>(
    sink: &mut K,
    scale: Scale,
    shades: &Shades,
    segments: &[Segment],
    cpu: Cpu,
) -> Result<(), Failed>
    ensures faultless { OnOk result (K.faults sink.new ≡ K.faults sink.old) }
    ensures failed { OnErr result (Rose (K.faults sink.old) (K.faults sink.new)) }
{
    let mut waiting = None;
    for segment in segments {
        if segment.cpu == cpu {
            waiting = write_next(sink, scale, shades, waiting, segment)?;
        }
    }
    write_waiting(sink, scale, shades, waiting)
}

/// All that a sibling did. `None` if it has no segment.
fn all_of(segments: &[Segment], shades: &Shades, cpu: Cpu) -> Option<Gathered> {
    let mut all = None;
    for segment in segments {
        if segment.cpu == cpu {
            all = Some(with_next(all, segment, shades));
        }
    }
    all
}

/// Writes which share of all time something took, at this height beside the lane, if it took any.
fn write_share<K: Sink>(
    sink: &mut K,
    scale: Scale,
    height: u64,
    word: &str,
    time: u64,
) -> Result<(), Failed>
    ensures faultless { OnOk result (K.faults sink.new ≡ K.faults sink.old) }
    ensures failed { OnErr result (Rose (K.faults sink.old) (K.faults sink.new)) }
{
    if time == 0 {
        return Ok(());
    }
    write_pieces(
        sink,
        &[
            Piece::Text("<text class=\"r\" x=\""),
            Piece::Number(SHARES_LEFT),
            Piece::Text("\" y=\""),
            Piece::Number(height),
            Piece::Text("\">"),
            Piece::Text(word),
            Piece::Share(scale.share(time)),
            Piece::Text(" %</text>\n"),
        ],
    )
}

/// Writes what a sibling's time came to, beside its lane.
fn write_shares<K: Sink>(sink: &mut K, scale: Scale, all: &Gathered) -> Result<(), Failed>
    ensures faultless { OnOk result (K.faults sink.new ≡ K.faults sink.old) }
    ensures failed { OnErr result (Rose (K.faults sink.old) (K.faults sink.new)) }
{
    write_share(sink, scale, 7, "ran ", all.ran.time)?;
    write_share(sink, scale, 19, "forced idle ", all.forced.time)?;
    write_share(sink, scale, 31, "pending ", all.pending)
}

/// Writes the lane of a sibling. At an `Err` the sink has failed.
pub(crate) fn write_lane<K: Sink>(
    sink: &mut K,
    scale: Scale,
    shades: &Shades,
    run: &RunSegments,
    cpu: Cpu,
) -> Result<(), Failed>
    ensures faultless { OnOk result (K.faults sink.new ≡ K.faults sink.old) }
    ensures failed { OnErr result (Rose (K.faults sink.old) (K.faults sink.new)) }
{
    let number = Piece::Number(u64::from(cpu));
    write_pieces(
        sink,
        &[
            Piece::Text("<g class=\"l\" transform=\"translate(0,"),
            Piece::Number(Frame::of(run.siblings()).lane(cpu)),
            Piece::Text(")\"><text class=\"n\" x=\""),
            Piece::Number(NAMES_END),
            Piece::Text("\" y=\"20\">s"),
            number,
            Piece::Text("</text>\n<rect class=\"f\" x=\""),
            Piece::Number(LEFT),
            Piece::Text("\" width=\""),
            Piece::Number(LANES_WIDTH),
            Piece::Text("\" height=\""),
            Piece::Number(LANE_HEIGHT),
            Piece::Text("\"/>\n"),
        ],
    )?;
    write_marks(sink, scale, shades, run.segments(), cpu)?;
    if let Some(all) = all_of(run.segments(), shades, cpu) {
        write_shares(sink, scale, &all)?;
    }
    write_pieces(sink, &[Piece::Text("</g>\n")])
}
