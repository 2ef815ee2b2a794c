//! The text in a mark, if there is room for one. It is laid out by a guess of how wide a text is, which holds even
//! for a wide font, such as DejaVu Sans or Verdana, since a page does not know its font.

ghost use Rattle.std.specs.Prelude.{◌≡◌, ◌≤◌, OnOk, OnErr};
ghost use Rattle.cs_outside.specs.Device.{Rose};

use crate::frame::LANE_HEIGHT;
use crate::piece::{Piece, write_pieces};
use crate::scale::{Strip, UNIT};
use crate::shades::Shades;
use cs_outside::{Failed, Sink};
use cs_types::{Cookie, Pid};
use itoa::Buffer;
use run_segments::Segment;
use run_times::{By, Doing};

/// About how wide a letter of words is in a wide font, in thousandths of a unit.
const LETTER: u64 = 6_200;

/// How wide a digit is in a wide font, in thousandths of a unit.
const DIGIT: u64 = 7_700;

/// How wide a digit is in small type.
const SMALL_DIGIT: u64 = 5_800;

/// What stays free beside a text, on its two sides together, in thousandths of a unit.
const MARGIN: u64 = 4 * UNIT;

/// How wide a mark has to be for a pid to stand upright in it.
const UPRIGHT: u64 = 12 * UNIT;

/// The text in a mark.
#[derive(Clone, Copy)]
enum Label {
    /// The task and its cookie.
    Task(Pid, Cookie),
    /// The task and its thread group.
    Member(Pid, u64),
    /// The task alone.
    Pid(Pid),
    /// The task alone, in small type.
    SmallPid(Pid),
    /// The task alone, in small type, read from the foot of the lane to its top.
    UprightPid(Pid),
    /// It is forced idle, and the core has this cookie.
    Forced(Cookie),
    /// It is forced idle.
    ForcedAlone,
    Offline,
    Nothing,
}

/// How many digits a number has.
fn digits(number: u64) -> u64
    ensures { result ≤ 20 }
{
    let mut buffer = Buffer::new();
    buffer.format(number).len() as u64
}

impl Label {
    /// How wide it is with what stays free beside it, in thousandths of a unit.
    fn width(self) -> u64 {
        match self {
            Label::Task(pid, 0) => MARGIN + 16 * LETTER + digits(u64::from(pid)) * DIGIT,
            Label::Task(pid, cookie) => {
                MARGIN + 14 * LETTER + (digits(u64::from(pid)) + digits(cookie)) * DIGIT
            }
            Label::Member(pid, group) => {
                MARGIN + 13 * LETTER + (digits(u64::from(pid)) + digits(group)) * DIGIT
            }
            Label::Pid(pid) => MARGIN + digits(u64::from(pid)) * DIGIT,
            Label::SmallPid(pid) => MARGIN + digits(u64::from(pid)) * SMALL_DIGIT,
            Label::UprightPid(_) => UPRIGHT,
            Label::Forced(0) => MARGIN + 31 * LETTER,
            Label::Forced(cookie) => MARGIN + 22 * LETTER + digits(cookie) * DIGIT,
            Label::ForcedAlone => MARGIN + 11 * LETTER,
            Label::Offline => MARGIN + 7 * LETTER,
            Label::Nothing => 0,
        }
    }

    /// Whether it is no higher than a lane.
    fn is_low(self) -> bool {
        match self {
            Label::UprightPid(pid) => digits(u64::from(pid)) * SMALL_DIGIT < LANE_HEIGHT * UNIT,
            _ => true,
        }
    }
}

/// The first of these labels that fits in a mark of this width, in thousandths of a unit.
fn first_fitting(width: u64, labels: &[Label]) -> Label {
    for label in labels {
        if label.width() <= width && label.is_low() {
            return *label;
        }
    }
    Label::Nothing
}

/// The label of a segment whose mark has this width, in thousandths of a unit.
fn label_of(by: By, segment: &Segment, width: u64) -> Label {
    let pid = segment.pid;
    match segment.doing {
        Doing::Runs(cookie) => first_fitting(
            width,
            &[
                match by {
                    By::Cookie => Label::Task(pid, cookie),
                    By::Group => Label::Member(pid, segment.group),
                },
                Label::Pid(pid),
                Label::SmallPid(pid),
                Label::UprightPid(pid),
            ],
        ),
        Doing::ForcedIdle(cookie) => {
            first_fitting(width, &[Label::Forced(cookie), Label::ForcedAlone])
        }
        Doing::Offline => first_fitting(width, &[Label::Offline]),
        Doing::Idles => Label::Nothing,
    }
}

/// Writes the words of a label.
fn write_words<K: Sink>(sink: &mut K, label: Label) -> Result<(), Failed>
    ensures faultless { OnOk result (K.faults sink.new ≡ K.faults sink.old) }
    ensures failed { OnErr result (Rose (K.faults sink.old) (K.faults sink.new)) }
{
    match label {
        Label::Task(pid, cookie) => write_pieces(
            sink,
            &[
                Piece::Text("task "),
                Piece::Number(u64::from(pid)),
                Piece::Text(if cookie == 0 {
                    ", no cookie"
                } else {
                    ", cookie "
                }),
                if cookie == 0 {
                    Piece::Text("")
                } else {
                    Piece::Number(cookie)
                },
            ],
        ),
        Label::Member(pid, group) => write_pieces(
            sink,
            &[
                Piece::Text("task "),
                Piece::Number(u64::from(pid)),
                Piece::Text(", group "),
                Piece::Number(group),
            ],
        ),
        Label::Pid(pid) | Label::SmallPid(pid) | Label::UprightPid(pid) => {
            write_pieces(sink, &[Piece::Number(u64::from(pid))])
        }
        Label::Forced(0) => write_pieces(sink, &[Piece::Text("forced idle, core has no cookie")]),
        Label::Forced(cookie) => write_pieces(
            sink,
            &[Piece::Text("forced idle by cookie "), Piece::Number(cookie)],
        ),
        Label::ForcedAlone => write_pieces(sink, &[Piece::Text("forced idle")]),
        Label::Offline => write_pieces(sink, &[Piece::Text("offline")]),
        Label::Nothing => Ok(()),
    }
}

/// Writes the start of a label in the middle of a mark.
fn write_begin<K: Sink>(sink: &mut K, label: Label, strip: Strip) -> Result<(), Failed>
    ensures faultless { OnOk result (K.faults sink.new ≡ K.faults sink.old) }
    ensures failed { OnErr result (Rose (K.faults sink.old) (K.faults sink.new)) }
{
    let middle = Piece::Length(strip.place.saturating_add(strip.width / 2));
    match label {
        Label::SmallPid(_) => write_pieces(
            sink,
            &[
                Piece::Text("<text class=\"m s\" x=\""),
                middle,
                Piece::Text("\" y=\"18.3\">"),
            ],
        ),
        Label::UprightPid(_) => write_pieces(
            sink,
            &[
                Piece::Text("<text class=\"m s\" transform=\"translate("),
                middle,
                Piece::Text(",15) rotate(-90)\" y=\"3.3\">"),
            ],
        ),
        _ => write_pieces(
            sink,
            &[
                Piece::Text("<text class=\"m\" x=\""),
                middle,
                Piece::Text("\" y=\"19.5\">"),
            ],
        ),
    }
}

/// Writes the label of a segment whose mark stands here.
pub(crate) fn write_label<K: Sink>(
    sink: &mut K,
    shades: &Shades,
    segment: &Segment,
    strip: Strip,
) -> Result<(), Failed>
    ensures faultless { OnOk result (K.faults sink.new ≡ K.faults sink.old) }
    ensures failed { OnErr result (Rose (K.faults sink.old) (K.faults sink.new)) }
{
    let label = label_of(shades.by, segment, strip.width);
    if let Label::Nothing = label {
        return Ok(());
    }
    write_begin(sink, label, strip)?;
    write_words(sink, label)?;
    write_pieces(sink, &[Piece::Text("</text>\n")])
}
