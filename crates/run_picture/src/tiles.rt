//! The tiles that the marks are filled with: for each look of a cookie its colour with its pattern, and for each colour
//! the hatch of what is forced idle.

ghost use Rattle.std.specs.Prelude.{◌≡◌, OnOk, OnErr};
ghost use Rattle.cs_outside.specs.Device.{Rose};

use crate::look::{HATCHES, Hatch, LOOKS, Look};
use crate::piece::{Piece, write_pieces};
use cs_outside::{Failed, Sink};

/// The tile of what runs with several cookies, and that of what is forced idle under several.
const SEVERAL: &str = "<pattern id=\"cs\" width=\"4\" height=\"4\" patternUnits=\"userSpaceOnUse\">\
<rect width=\"4\" height=\"4\" fill=\"#8a8a8a\"/><path d=\"M0 2h2M2 0h2\" stroke=\"#444\"/></pattern>\n\
<pattern id=\"hs\" width=\"7\" height=\"7\" patternUnits=\"userSpaceOnUse\">\
<rect width=\"7\" height=\"7\" fill=\"#fff\"/><path d=\"M0 7l7-7M0 0l7 7\" stroke=\"#999\"/></pattern>\n";

/// Writes the tile of a look.
fn write_look<K: Sink>(sink: &mut K, look: Look) -> Result<(), Failed>
    ensures faultless { OnOk result (K.faults sink.new ≡ K.faults sink.old) }
    ensures failed { OnErr result (Rose (K.faults sink.old) (K.faults sink.new)) }
{
    let colour = look.colour();
    write_pieces(
        sink,
        &[
            Piece::Text("<pattern id=\"c"),
            Piece::Number(look.number()),
            Piece::Text(
                "\" width=\"8\" height=\"8\" patternUnits=\"userSpaceOnUse\"><rect width=\"8\" height=\"8\" fill=\"",
            ),
            Piece::Text(colour.code()),
            Piece::Text("\"/><g opacity=\".45\" fill=\""),
            Piece::Text(colour.ink()),
            Piece::Text("\" stroke=\""),
            Piece::Text(colour.ink()),
            Piece::Text("\">"),
            Piece::Text(look.pattern().shapes()),
            Piece::Text("</g></pattern>\n"),
        ],
    )
}

/// Writes the tiles of all looks.
fn write_looks<K: Sink>(sink: &mut K) -> Result<(), Failed>
    ensures faultless { OnOk result (K.faults sink.new ≡ K.faults sink.old) }
    ensures failed { OnErr result (Rose (K.faults sink.old) (K.faults sink.new)) }
{
    for number in 0..=LOOKS {
        write_look(sink, Look::at(number))?;
    }
    Ok(())
}

/// Writes the tile of a hatch.
fn write_hatch<K: Sink>(sink: &mut K, hatch: Hatch) -> Result<(), Failed>
    ensures faultless { OnOk result (K.faults sink.new ≡ K.faults sink.old) }
    ensures failed { OnErr result (Rose (K.faults sink.old) (K.faults sink.new)) }
{
    write_pieces(
        sink,
        &[
            Piece::Text("<pattern id=\"h"),
            Piece::Number(hatch.number()),
            Piece::Text(
                "\" width=\"7\" height=\"7\" patternUnits=\"userSpaceOnUse\"><rect width=\"7\" height=\"7\" fill=\"#fff\"/>",
            ),
            Piece::Text("<path d=\"M-2 2l4-4M0 7l7-7M5 9l4-4\" stroke-width=\"2\" stroke=\""),
            Piece::Text(hatch.colour().line()),
            Piece::Text("\"/></pattern>\n"),
        ],
    )
}

/// Writes the tiles of all hatches.
fn write_hatches<K: Sink>(sink: &mut K) -> Result<(), Failed>
    ensures faultless { OnOk result (K.faults sink.new ≡ K.faults sink.old) }
    ensures failed { OnErr result (Rose (K.faults sink.old) (K.faults sink.new)) }
{
    for number in 0..=HATCHES {
        write_hatch(sink, Hatch::at(number))?;
    }
    Ok(())
}

/// Writes all tiles. At an `Err` the sink has failed.
pub(crate) fn write_tiles<K: Sink>(sink: &mut K) -> Result<(), Failed>
    ensures faultless { OnOk result (K.faults sink.new ≡ K.faults sink.old) }
    ensures failed { OnErr result (Rose (K.faults sink.old) (K.faults sink.new)) }
{
    write_pieces(sink, &[Piece::Text("<defs>\n")])?;
    write_looks(sink)?;
    write_hatches(sink)?;
    write_pieces(sink, &[Piece::Text(SEVERAL), Piece::Text("</defs>\n")])
}
