//! The head of the page: how marks are drawn, and the lines that say what is shown.

ghost use Rattle.std.specs.Prelude.{◌≡◌, OnOk, OnErr};
ghost use Rattle.cs_outside.specs.Device.{Rose};

use crate::frame::{LEFT, PAGE_WIDTH};
use crate::piece::{Piece, write_pieces};
use crate::scale::Scale;
use cs_outside::{Failed, Sink};
use run_segments::{RunSegments, Window};

/// How marks are drawn, by their classes: b behind the lanes, e exposed, u thread groups side by side, w waiting, p and
/// q pending, t events, l lanes, m and s labels, i idle, x offline, f frames, a the axis, n names, r shares, h and k
/// the head. A mark of exposure has an outline of its own colour, so that a short one is orange too.
const STYLE: &str = "<style>\n\
text{font:12px sans-serif;fill:#222}\n\
.h{font-size:17px;font-weight:bold}\n\
.k{font-size:13px;font-weight:bold}\n\
.n{font-size:13px;font-weight:bold;text-anchor:end}\n\
.r{font-size:10px;text-anchor:start}\n\
.m{text-anchor:middle;pointer-events:none;paint-order:stroke;stroke:#fff;stroke-width:3px}\n\
.s{font-size:9px;stroke-width:2px}\n\
.l>rect[fill]{stroke:#fff;stroke-width:.8}\n\
.f{fill:none;stroke:#bbb}\n\
.i{fill:#fff;fill-opacity:0}\n\
.x{fill:none;stroke:#777;stroke-width:.7;pointer-events:none}\n\
.b{fill:#d55e00;fill-opacity:.13}\n\
.e{fill:#d55e00;stroke:#d55e00;stroke-width:.6}\n\
.u{fill:#6b4c9a;stroke:#6b4c9a;stroke-width:.6}\n\
.w{fill:#444;stroke:none}\n\
.p{fill:none;stroke:#000;stroke-width:1.6;stroke-dasharray:5 3;pointer-events:none}\n\
.q{fill:#000;stroke:none}\n\
.t{fill:#444}\n\
.a{fill:none;stroke:#000;stroke-opacity:.13}\n\
.a text{stroke:none;text-anchor:middle}\n\
.a .n{text-anchor:end}\n\
.g{stroke-opacity:1}\n\
</style>\n";

/// How long these are in all, in ns.
fn time_of(windows: &[Window]) -> u64 {
    let mut time: u64 = 0;
    for window in windows {
        time = time.saturating_add(window.to.saturating_sub(window.from));
    }
    time
}

/// How long the longest of these is, in ns, 0 if there is none.
fn longest_of(windows: &[Window]) -> u64 {
    let mut longest: u64 = 0;
    for window in windows {
        longest = longest.max(window.to.saturating_sub(window.from));
    }
    longest
}

/// Writes the start of a page of this height: how marks are drawn.
pub(crate) fn write_begin<K: Sink>(sink: &mut K, height: u64) -> Result<(), Failed>
    ensures faultless { OnOk result (K.faults sink.new ≡ K.faults sink.old) }
    ensures failed { OnErr result (Rose (K.faults sink.old) (K.faults sink.new)) }
{
    let width = Piece::Number(PAGE_WIDTH);
    let height = Piece::Number(height);
    write_pieces(
        sink,
        &[
            Piece::Text("<svg xmlns=\"http://www.w3.org/2000/svg\" viewBox=\"0 0 "),
            width,
            Piece::Text(" "),
            height,
            Piece::Text("\" width=\""),
            width,
            Piece::Text("\" height=\""),
            height,
            Piece::Text("\">\n"),
            Piece::Text(STYLE),
            Piece::Text("<rect width=\""),
            width,
            Piece::Text("\" height=\""),
            height,
            Piece::Text("\" fill=\"#fff\"/>\n"),
        ],
    )
}

/// Writes for how long tasks that are told apart ran side by side, after these words, or the other words if they never
/// did.
fn write_side<K: Sink>(
    sink: &mut K,
    scale: Scale,
    windows: &[Window],
    words: &str,
    never: &str,
) -> Result<(), Failed>
    ensures faultless { OnOk result (K.faults sink.new ≡ K.faults sink.old) }
    ensures failed { OnErr result (Rose (K.faults sink.old) (K.faults sink.new)) }
{
    let time = time_of(windows);
    if time == 0 {
        return write_pieces(sink, &[Piece::Text(never)]);
    }
    write_pieces(
        sink,
        &[
            Piece::Text(words),
            Piece::Time(time),
            Piece::Text(" in all ("),
            Piece::Share(scale.share(time)),
            Piece::Text(" %), at most "),
            Piece::Time(longest_of(windows)),
            Piece::Text(" at a time"),
        ],
    )
}

/// Writes the lines that say what is shown.
pub(crate) fn write_head<K: Sink>(
    sink: &mut K,
    scale: Scale,
    run: &RunSegments,
) -> Result<(), Failed>
    ensures faultless { OnOk result (K.faults sink.new ≡ K.faults sink.old) }
    ensures failed { OnErr result (Rose (K.faults sink.old) (K.faults sink.new)) }
{
    let left = Piece::Number(LEFT);
    write_pieces(
        sink,
        &[
            Piece::Text("<text class=\"h\" x=\""),
            left,
            Piece::Text("\" y=\"22\">"),
            Piece::Number(u64::from(run.siblings())),
            Piece::Text(" siblings of one core over "),
            Piece::Time(run.total()),
            Piece::Text("</text>\n<text class=\"k\" x=\""),
            left,
            Piece::Text("\" y=\"40\">"),
        ],
    )?;
    write_side(
        sink,
        scale,
        run.exposed(),
        "Cookies exposed for ",
        "Cookies never exposed",
    )?;
    write_side(
        sink,
        scale,
        run.mixed(),
        "; thread groups side by side for ",
        "; thread groups never side by side",
    )?;
    write_pieces(
        sink,
        &[
            Piece::Text("</text>\n<text x=\""),
            left,
            Piece::Text(
                "\" y=\"57\">Each lane is a sibling, a hardware thread of the core. Tasks with distinct cookies",
            ),
            Piece::Text(
                " distrust each other and must not run at once: a sibling that has only others to run is forced idle.</text>\n",
            ),
        ],
    )
}
