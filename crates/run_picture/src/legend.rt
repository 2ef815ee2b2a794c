//! The legend: the look of each cookie or thread group, and what each mark means, in words. Nothing stands beside the
//! words, which may be as wide as the font makes them.

ghost use Rattle.std.specs.Prelude.{◌≡◌, ◌^◌, ◌<◌, ◌≤◌, OnOk, OnErr};
ghost use Rattle.cs_outside.specs.Device.{Rose};

use crate::frame::{Frame, LEFT, LEGEND_STEP};
use crate::look::{Hatch, Look};
use crate::paint::Paint;
use crate::piece::{Piece, write_pieces};
use crate::shades::{COLUMNS, MOST_LISTED, Shades};
use cs_outside::{Failed, Sink};
use cs_types::Cookie;
use run_times::By;

/// How wide a column of the looks of the cookies or groups is.
const COLUMN_WIDTH: u64 = 200;

/// What a line of the legend explains.
#[derive(Clone, Copy)]
enum Entry {
    Runs,
    Forced,
    Idles,
    Offline,
    Pending,
    Exposed,
    Mixed,
    Waiting,
    Events,
    Several,
    Pointer,
}

/// The entries, from the first line on.
const ENTRIES: [Entry; 11] = [
    Entry::Runs,
    Entry::Forced,
    Entry::Idles,
    Entry::Offline,
    Entry::Pending,
    Entry::Exposed,
    Entry::Mixed,
    Entry::Waiting,
    Entry::Events,
    Entry::Several,
    Entry::Pointer,
];

/// How many lines they take.
const ENTRY_LINES: u64 = ENTRIES.len() as u64;

impl Entry {
    /// What is said of the mark.
    fn words(self, by: By) -> &'static str {
        match self {
            Entry::Runs => match by {
                By::Cookie =>
                    "A task without a cookie runs. Tasks with a cookie are drawn in the look of their cookie, as listed above.",
                By::Group =>
                    "A task runs. This run shows no cookie, so each is drawn in the look of its thread group, as listed above.",
            },
            Entry::Forced =>
                "Forced idle: a task waits on this sibling, but has not the cookie that the core is given to. The hatch has the colour of that cookie, grey for none.",
            Entry::Idles => "Idle: no task waits on this sibling.",
            Entry::Offline => "Offline: the sibling is not part of the core.",
            Entry::Pending =>
                "Reschedule pending: the sibling has been told to pick anew, and until it does it goes on with what it did.",
            Entry::Exposed =>
                "Exposed: tasks with distinct cookies run side by side on two siblings, in the band below it. A lower mark: on and off, as high as its share of the time.",
            Entry::Mixed =>
                "Groups side by side: tasks of distinct thread groups run on two siblings, whatever their cookies. It is drawn as exposure is.",
            Entry::Waiting =>
                "Tasks wait on the sibling above: one, two, three, and four or more. Rest the pointer on the mark to read how many.",
            Entry::Events =>
                "Something happened that takes no time: a task woke, a sibling picked, a cookie changed, and the like.",
            Entry::Several =>
                "Many short segments in one mark: filled as far as tasks ran, hatched as far as it was forced idle. The bar above: a reschedule was pending on and off.",
            Entry::Pointer => "Rest the pointer on a mark to read what it is, from when to when.",
        }
    }

    /// What its sample is made of.
    fn sample(self) -> &'static [Piece<'static>] {
        match self {
            Entry::Runs => &[Piece::Text("<rect width=\"44\" height=\"16\" fill=\"url(#c0)\"/>")],
            Entry::Forced => &[Piece::Text(
                "<rect class=\"f\" width=\"44\" height=\"16\"/><rect width=\"44\" height=\"16\" fill=\"url(#h1)\"/>",
            )],
            Entry::Idles => &[Piece::Text("<rect class=\"f\" width=\"44\" height=\"16\"/>")],
            Entry::Offline => &[Piece::Text(
                "<rect width=\"44\" height=\"16\" fill=\"#dcdcdc\"/><path class=\"x\" d=\"M0 0L44 16M0 16L44 0\"/>",
            )],
            Entry::Pending => &[Piece::Text("<rect class=\"p\" width=\"44\" height=\"16\"/>")],
            Entry::Exposed => &[Piece::Text("<rect class=\"e\" width=\"44\" height=\"16\"/>")],
            Entry::Mixed => &[Piece::Text("<rect class=\"u\" width=\"44\" height=\"16\"/>")],
            Entry::Waiting => &[Piece::Text(
                "<path class=\"w\" d=\"M0 5h11v1.5h-11zM11 5h11v3h-11zM22 5h11v4.5h-11zM33 5h11v6h-11z\"/>",
            )],
            Entry::Events => &[Piece::Text(
                "<path class=\"t\" d=\"M10 4h1v8h-1zM22 4h1v8h-1zM34 4h1v8h-1z\"/>",
            )],
            Entry::Several => &[Piece::Text(
                "<rect class=\"f\" width=\"44\" height=\"16\"/><rect y=\"7\" width=\"44\" height=\"9\" fill=\"url(#cs)\"/><rect width=\"44\" height=\"5\" fill=\"url(#hs)\"/><rect class=\"q\" y=\"-4\" width=\"44\" height=\"3\"/>",
            )],
            Entry::Pointer => &[],
        }
    }
}

impl Shades {
    /// How many lines the legend has.
    pub(crate) fn legend_lines(&self) -> u64
        ensures { result < 2 ^ 32 }
    {
        self.lines() + ENTRY_LINES
    }
}

/// Writes the start of an entry: where it stands, in units.
fn write_place<K: Sink>(sink: &mut K, left: u64, top: u64) -> Result<(), Failed>
    ensures faultless { OnOk result (K.faults sink.new ≡ K.faults sink.old) }
    ensures failed { OnErr result (Rose (K.faults sink.old) (K.faults sink.new)) }
{
    write_pieces(
        sink,
        &[
            Piece::Text("<g transform=\"translate("),
            Piece::Number(left),
            Piece::Text(","),
            Piece::Number(top),
            Piece::Text(")\">"),
        ],
    )
}

/// Writes what each mark means.
fn write_entries<K: Sink>(sink: &mut K, top: u64, by: By) -> Result<(), Failed>
    requires { top < 2 ^ 32 }
    ensures faultless { OnOk result (K.faults sink.new ≡ K.faults sink.old) }
    ensures failed { OnErr result (Rose (K.faults sink.old) (K.faults sink.new)) }
{
    for line in 0..ENTRY_LINES {
        let entry = ENTRIES[line as usize];
        write_place(sink, LEFT, top + line * LEGEND_STEP)?;
        write_pieces(sink, entry.sample())?;
        write_pieces(
            sink,
            &[
                Piece::Text("<text x=\"54\" y=\"12\">"),
                Piece::Text(entry.words(by)),
                Piece::Text("</text></g>\n"),
            ],
        )?;
    }
    Ok(())
}

/// Writes the look of a cookie, and the hatch under it.
fn write_cookie<K: Sink>(sink: &mut K, cookie: Cookie) -> Result<(), Failed>
    ensures faultless { OnOk result (K.faults sink.new ≡ K.faults sink.old) }
    ensures failed { OnErr result (Rose (K.faults sink.old) (K.faults sink.new)) }
{
    write_pieces(
        sink,
        &[
            Piece::Text("<rect width=\"44\" height=\"16\""),
            Piece::Fill(Paint::Runs(Look::of(cookie))),
            Piece::Text("/><rect x=\"48\" width=\"22\" height=\"16\""),
            Piece::Fill(Paint::Forced(Hatch::of(cookie))),
            Piece::Text("/><text x=\"78\" y=\"12\">cookie "),
            Piece::Number(cookie),
            Piece::Text("</text></g>\n"),
        ],
    )
}

/// Writes the look of a thread group.
fn write_group<K: Sink>(sink: &mut K, look: Look, group: u64) -> Result<(), Failed>
    ensures faultless { OnOk result (K.faults sink.new ≡ K.faults sink.old) }
    ensures failed { OnErr result (Rose (K.faults sink.old) (K.faults sink.new)) }
{
    write_pieces(
        sink,
        &[
            Piece::Text("<rect width=\"44\" height=\"16\""),
            Piece::Fill(Paint::Runs(look)),
            Piece::Text("/><text x=\"54\" y=\"12\">thread group "),
            Piece::Number(group),
            Piece::Text("</text></g>\n"),
        ],
    )
}

/// Writes the looks of what is listed.
fn write_listed<K: Sink>(sink: &mut K, top: u64, shades: &Shades) -> Result<(), Failed>
    requires { top < 2 ^ 32 }
    ensures faultless { OnOk result (K.faults sink.new ≡ K.faults sink.old) }
    ensures failed { OnErr result (Rose (K.faults sink.old) (K.faults sink.new)) }
{
    for number in 0..MOST_LISTED {
        let key = shades.listed[number as usize];
        if key == 0 {
            return Ok(());
        }
        let left = LEFT + number % COLUMNS * COLUMN_WIDTH;
        write_place(sink, left, top + number / COLUMNS * LEGEND_STEP)?;
        match shades.by {
            By::Cookie => write_cookie(sink, key)?,
            By::Group => write_group(sink, shades.look(key), key)?,
        }
    }
    Ok(())
}

/// Writes the legend of a page with this number of lanes. At an `Err` the sink has failed.
pub(crate) fn write_legend<K: Sink>(
    sink: &mut K,
    siblings: u8,
    shades: &Shades,
) -> Result<(), Failed>
    ensures faultless { OnOk result (K.faults sink.new ≡ K.faults sink.old) }
    ensures failed { OnErr result (Rose (K.faults sink.old) (K.faults sink.new)) }
{
    let top = Frame::of(siblings).legend();
    write_listed(sink, top, shades)?;
    write_entries(sink, top + shades.lines() * LEGEND_STEP, shades.by)
}
