//! The whole page.

ghost use Rattle.std.specs.Prelude.{◌≡◌, OnOk, OnErr};
ghost use Rattle.cs_outside.specs.Device.{Rose};

use crate::axis::write_axis;
use crate::frame::{Frame, LEFT};
use crate::head::{write_begin, write_head};
use crate::lane::write_lane;
use crate::legend::write_legend;
use crate::piece::{Piece, write_pieces};
use crate::row::{write_moments, write_pending, write_side_by_side, write_waiting};
use crate::scale::Scale;
use crate::shades::Shades;
use crate::tiles::write_tiles;
use cs_outside::{Failed, Sink};
use run_segments::RunSegments;

/// The height of the page of a run in which no time passed.
const EMPTY_HEIGHT: u64 = 80;

/// Writes the lanes of all siblings.
fn write_lanes<K: Sink>(
    sink: &mut K,
    scale: Scale,
    shades: &Shades,
    run: &RunSegments,
) -> Result<(), Failed>
    ensures faultless { OnOk result (K.faults sink.new ≡ K.faults sink.old) }
    ensures failed { OnErr result (Rose (K.faults sink.old) (K.faults sink.new)) }
{
    for cpu in 0..run.siblings() {
        write_lane(sink, scale, shades, run, cpu)?;
    }
    Ok(())
}

/// Writes the page of a run in which no time passed.
fn write_empty<K: Sink>(sink: &mut K, run: &RunSegments) -> Result<(), Failed>
    ensures faultless { OnOk result (K.faults sink.new ≡ K.faults sink.old) }
    ensures failed { OnErr result (Rose (K.faults sink.old) (K.faults sink.new)) }
{
    write_begin(sink, EMPTY_HEIGHT)?;
    let left = Piece::Number(LEFT);
    write_pieces(
        sink,
        &[
            Piece::Text("<text class=\"h\" x=\""),
            left,
            Piece::Text("\" y=\"26\">"),
            Piece::Number(u64::from(run.siblings())),
            Piece::Text(" siblings of one core</text>\n<text x=\""),
            left,
            Piece::Text("\" y=\"48\">No time passed in this run,"),
            Piece::Text(" so there is nothing to show over time.</text>\n</svg>\n"),
        ],
    )
}

/// Writes the picture of a run: an SVG without scripts and without references to anything else. Each sibling has a lane
/// over time, and below it how many tasks wait there. Above the lanes it shows when tasks with distinct cookies, and
/// tasks of distinct thread groups, ran side by side, and below them when something happened at which no time passes.
/// Tasks are coloured by their cookies, or by their thread groups if no segment shows a cookie. A legend says what each
/// mark means. What is too narrow to be seen is joined, so the size of a picture has a bound, however long the run is.
/// It takes no memory. At an `Err` the sink has failed.
pub fn picture<K: Sink>(run: &RunSegments, sink: &mut K) -> Result<(), Failed>
    ensures faultless { OnOk result (K.faults sink.new ≡ K.faults sink.old) }
    ensures failed { OnErr result (Rose (K.faults sink.old) (K.faults sink.new)) }
{
    if run.total() == 0 {
        return write_empty(sink, run);
    }
    let scale = Scale::of(run.total(), run.siblings());
    let shades = Shades::of(run.segments());
    write_begin(
        sink,
        Frame::of(run.siblings()).height(shades.legend_lines()),
    )?;
    write_tiles(sink)?;
    write_head(sink, scale, run)?;
    write_side_by_side(sink, run)?;
    write_axis(sink, scale, run)?;
    write_lanes(sink, scale, &shades, run)?;
    write_waiting(sink, run)?;
    write_pending(sink, run)?;
    write_moments(sink, run)?;
    write_legend(sink, run.siblings(), &shades)?;
    write_pieces(sink, &[Piece::Text("</svg>\n")])
}
