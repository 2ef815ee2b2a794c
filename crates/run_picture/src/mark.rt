//! The marks on a lane. Their heights are from where the lane begins.

ghost use Rattle.std.specs.Prelude.{◌≡◌, OnOk, OnErr};
ghost use Rattle.cs_outside.specs.Device.{Rose};

use crate::frame::LANE_HEIGHT;
use crate::gathered::Gathered;
use crate::label::write_label;
use crate::look::Hatch;
use crate::paint::Paint;
use crate::piece::{Piece, write_pieces};
use crate::scale::{Scale, Strip, UNIT, part_of};
use crate::shades::Shades;
use crate::span::Span;
use crate::title::{write_gathered_title, write_title};
use cs_outside::{Failed, Sink};
use run_segments::Segment;
use run_times::Doing;

/// How high a lane is, and how high what must be seen is at least, in thousandths of a unit.
const HIGH: u64 = LANE_HEIGHT * UNIT;

const SEEN: u64 = 4 * UNIT;

/// How wide a mark has to be to have an outline, in thousandths of a unit. An outline would hide a narrower one.
const OUTLINED: u64 = 3 * UNIT;

/// A rectangle on a lane, in thousandths of a unit.
#[derive(Clone, Copy)]
struct Area {
    strip: Strip,
    top: u64,
    height: u64,
}

/// What one segment is filled with.
fn paint_of(segment: &Segment, shades: &Shades) -> Paint {
    match segment.doing {
        Doing::Offline => Paint::Offline,
        Doing::Runs(_) => Paint::Runs(shades.look(shades.key(segment))),
        Doing::Idles => Paint::Clear,
        Doing::ForcedIdle(cookie) => Paint::Forced(Hatch::of(cookie)),
    }
}

/// Where one segment is drawn. What is forced idle must be seen.
fn strip_of(scale: Scale, segment: &Segment) -> Strip {
    let span = Span::of_segment(segment);
    match segment.doing {
        Doing::ForcedIdle(_) => scale.seen_strip(span),
        Doing::Offline | Doing::Runs(_) | Doing::Idles => scale.strip(span),
    }
}

/// Writes the start of a mark that is as high as the lane.
fn write_rect<K: Sink>(sink: &mut K, strip: Strip, paint: Paint) -> Result<(), Failed>
    ensures faultless { OnOk result (K.faults sink.new ≡ K.faults sink.old) }
    ensures failed { OnErr result (Rose (K.faults sink.old) (K.faults sink.new)) }
{
    write_pieces(
        sink,
        &[
            Piece::Text("<rect x=\""),
            Piece::Length(strip.place),
            Piece::Text("\" width=\""),
            Piece::Length(strip.width),
            Piece::Text("\" height=\""),
            Piece::Number(LANE_HEIGHT),
            Piece::Text(if strip.width < OUTLINED {
                "\" style=\"stroke:none\""
            } else {
                "\""
            }),
            Piece::Fill(paint),
            Piece::Text(">"),
        ],
    )
}

/// Writes the thin cross over what is offline.
fn write_cross<K: Sink>(sink: &mut K, strip: Strip) -> Result<(), Failed>
    ensures faultless { OnOk result (K.faults sink.new ≡ K.faults sink.old) }
    ensures failed { OnErr result (Rose (K.faults sink.old) (K.faults sink.new)) }
{
    let left = Piece::Length(strip.place);
    let foot = Piece::Number(LANE_HEIGHT);
    let right = Piece::Length(strip.place.saturating_add(strip.width));
    write_pieces(
        sink,
        &[
            Piece::Text("<path class=\"x\" d=\"M"),
            left,
            Piece::Text(" 0L"),
            right,
            Piece::Text(" "),
            foot,
            Piece::Text("M"),
            left,
            Piece::Text(" "),
            foot,
            Piece::Text("L"),
            right,
            Piece::Text(" 0\"/>\n"),
        ],
    )
}

/// Writes the mark of one segment. What is so narrow that nothing of it would show gets none.
pub(crate) fn write_segment<K: Sink>(
    sink: &mut K,
    scale: Scale,
    shades: &Shades,
    segment: &Segment,
) -> Result<(), Failed>
    ensures faultless { OnOk result (K.faults sink.new ≡ K.faults sink.old) }
    ensures failed { OnErr result (Rose (K.faults sink.old) (K.faults sink.new)) }
{
    let strip = strip_of(scale, segment);
    if strip.width == 0 {
        return Ok(());
    }
    write_rect(sink, strip, paint_of(segment, shades))?;
    write_title(sink, segment)?;
    write_pieces(sink, &[Piece::Text("</rect>\n")])?;
    if let Doing::Offline = segment.doing {
        write_cross(sink, strip)?;
    }
    write_label(sink, shades, segment, strip)
}

/// Writes a part of a mark of several segments, if it has a height.
fn write_part<K: Sink>(sink: &mut K, area: Area, paint: Paint) -> Result<(), Failed>
    ensures faultless { OnOk result (K.faults sink.new ≡ K.faults sink.old) }
    ensures failed { OnErr result (Rose (K.faults sink.old) (K.faults sink.new)) }
{
    if area.height == 0 {
        return Ok(());
    }
    write_pieces(
        sink,
        &[
            Piece::Text("<path d=\"M"),
            Piece::Length(area.strip.place),
            Piece::Text(" "),
            Piece::Length(area.top),
            Piece::Text("h"),
            Piece::Length(area.strip.width),
            Piece::Text("v"),
            Piece::Length(area.height),
            Piece::Text("h-"),
            Piece::Length(area.strip.width),
            Piece::Text("z\""),
            Piece::Fill(paint),
            Piece::Text("/>"),
        ],
    )
}

/// How much of the height of a lane what was forced idle gets in a mark: its share of the time, and enough to be seen
/// if there is any.
fn forced_height(gathered: &Gathered) -> u64 {
    if gathered.forced.time == 0 {
        return 0;
    }
    part_of(gathered.forced.time, gathered.span.length(), HIGH).max(SEEN)
}

/// Where several segments are drawn.
fn column_strip(scale: Scale, gathered: &Gathered) -> Strip {
    if gathered.forced.time == 0 {
        scale.strip(gathered.span)
    } else {
        scale.seen_strip(gathered.span)
    }
}

/// How a lane's height is shared in a mark of several segments, in thousandths of a unit.
#[derive(Clone, Copy)]
struct Shares {
    forced: u64,
    offline: u64,
    ran: u64,
    /// The whole height if there is nothing else, and else 0.
    idle: u64,
}

/// How the height is shared in a mark.
fn shares_of(gathered: &Gathered) -> Shares {
    let time = gathered.span.length();
    let forced = forced_height(gathered);
    let offline = part_of(gathered.offline, time, HIGH);
    let ran = part_of(gathered.ran.time, time, HIGH).min(HIGH.saturating_sub(forced));
    Shares {
        forced,
        offline,
        ran,
        idle: if forced == 0 && offline == 0 && ran == 0 {
            HIGH
        } else {
            0
        },
    }
}

/// Writes the parts of a mark of several segments: from the top how much of the time the sibling was forced idle and
/// offline, and from the foot how much of it a task ran.
fn write_parts<K: Sink>(
    sink: &mut K,
    shades: &Shades,
    strip: Strip,
    gathered: &Gathered,
) -> Result<(), Failed>
    ensures faultless { OnOk result (K.faults sink.new ≡ K.faults sink.old) }
    ensures failed { OnErr result (Rose (K.faults sink.old) (K.faults sink.new)) }
{
    let shares = shares_of(gathered);
    let idle = Area {
        strip,
        top: 0,
        height: shares.idle,
    };
    write_part(sink, idle, Paint::Clear)?;
    let ran = Area {
        strip,
        top: HIGH.saturating_sub(shares.ran),
        height: shares.ran,
    };
    write_part(sink, ran, Paint::of_ran(gathered.ran.keys, shades))?;
    let offline = Area {
        strip,
        top: shares.forced,
        height: shares.offline,
    };
    write_part(sink, offline, Paint::Offline)?;
    let forced = Area {
        strip,
        top: 0,
        height: shares.forced,
    };
    write_part(sink, forced, Paint::of_forced(gathered.forced.keys))
}

/// Writes the mark of several segments. What is so narrow that nothing of it would show gets none.
fn write_column<K: Sink>(
    sink: &mut K,
    scale: Scale,
    shades: &Shades,
    gathered: &Gathered,
) -> Result<(), Failed>
    ensures faultless { OnOk result (K.faults sink.new ≡ K.faults sink.old) }
    ensures failed { OnErr result (Rose (K.faults sink.old) (K.faults sink.new)) }
{
    let strip = column_strip(scale, gathered);
    if strip.width == 0 {
        return Ok(());
    }
    write_pieces(sink, &[Piece::Text("<g>")])?;
    write_gathered_title(sink, gathered)?;
    write_parts(sink, shades, strip, gathered)?;
    write_pieces(sink, &[Piece::Text("</g>\n")])
}

/// Writes the mark of what was gathered.
pub(crate) fn write_gathered<K: Sink>(
    sink: &mut K,
    scale: Scale,
    shades: &Shades,
    gathered: &Gathered,
) -> Result<(), Failed>
    ensures faultless { OnOk result (K.faults sink.new ≡ K.faults sink.old) }
    ensures failed { OnErr result (Rose (K.faults sink.old) (K.faults sink.new)) }
{
    if gathered.count == 1 {
        write_segment(sink, scale, shades, &gathered.first)
    } else {
        write_column(sink, scale, shades, gathered)
    }
}
