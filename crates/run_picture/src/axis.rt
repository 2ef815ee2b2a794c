//! The time axis: lines through the lanes at round times, and what time they are.

ghost use Rattle.std.specs.Prelude.{◌≡◌, OnOk, OnErr};
ghost use Rattle.cs_outside.specs.Device.{Rose};

use crate::frame::{EXPOSED_TOP, Frame, LEFT, NAMES_END, RIGHT};
use crate::piece::{Piece, write_pieces};
use crate::scale::Scale;
use crate::unit::{TimeUnit, power_of_ten};
use cs_outside::{Failed, Sink};
use run_segments::RunSegments;

/// How many steps an axis has at most.
const STEPS: u64 = 12;

/// Whether the axis is not too full with steps of this length.
fn is_sparse(total: u64, step: u64) -> bool {
    total / STEPS < step
}

/// The least of this power of ten, its fifth and its half that is a step, if the power is one.
fn finest(total: u64, power: u64) -> u64 {
    if is_sparse(total, power / 5) {
        power / 5
    } else if is_sparse(total, power / 2) {
        power / 2
    } else {
        power
    }
}

/// How far the lines are apart, in ns: 1, 2 or 5 times a power of ten, and as little as leaves room for what is
/// written.
fn step_of(total: u64) -> u64 {
    for power in 0..19 {
        let step = power_of_ten(power);
        if is_sparse(total, step) {
            return finest(total, step);
        }
    }
    power_of_ten(19)
}

/// What is written at a time, in a unit. The start needs none.
fn words(time: u64, unit: TimeUnit) -> Piece<'static> {
    if time == 0 {
        Piece::Number(0)
    } else {
        Piece::TimeIn(time, unit)
    }
}

/// Writes the line at a time, and what time it is, in a unit.
fn write_line<K: Sink>(
    sink: &mut K,
    frame: Frame,
    place: u64,
    time: u64,
    unit: TimeUnit,
) -> Result<(), Failed>
    ensures faultless { OnOk result (K.faults sink.new ≡ K.faults sink.old) }
    ensures failed { OnErr result (Rose (K.faults sink.old) (K.faults sink.new)) }
{
    write_pieces(
        sink,
        &[
            Piece::Text("<path d=\"M"),
            Piece::Length(place),
            Piece::Text(" "),
            Piece::Number(EXPOSED_TOP),
            Piece::Text("V"),
            Piece::Number(frame.axis() + 5),
            Piece::Text("\"/><text x=\""),
            Piece::Length(place),
            Piece::Text("\" y=\""),
            Piece::Number(frame.axis() + 19),
            Piece::Text("\">"),
            words(time, unit),
            Piece::Text("</text>\n"),
        ],
    )
}

/// Writes the time axis. At an `Err` the sink has failed.
pub(crate) fn write_axis<K: Sink>(
    sink: &mut K,
    scale: Scale,
    run: &RunSegments,
) -> Result<(), Failed>
    ensures faultless { OnOk result (K.faults sink.new ≡ K.faults sink.old) }
    ensures failed { OnErr result (Rose (K.faults sink.old) (K.faults sink.new)) }
{
    let frame = Frame::of(run.siblings());
    let step = step_of(run.total());
    write_pieces(
        sink,
        &[
            Piece::Text("<g class=\"a\">\n<path class=\"g\" d=\"M"),
            Piece::Number(LEFT),
            Piece::Text(" "),
            Piece::Number(frame.axis()),
            Piece::Text("H"),
            Piece::Number(RIGHT),
            Piece::Text("\"/>\n<text class=\"n\" x=\""),
            Piece::Number(NAMES_END),
            Piece::Text("\" y=\""),
            Piece::Number(frame.axis() + 19),
            Piece::Text("\">time</text>\n"),
        ],
    )?;
    for number in 0..=STEPS {
        let time = step.saturating_mul(number);
        if time <= run.total() {
            let unit = TimeUnit::fitting(run.total());
            write_line(sink, frame, scale.place(time), time, unit)?;
        }
    }
    write_pieces(sink, &[Piece::Text("</g>\n")])
}
