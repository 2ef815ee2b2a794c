//! The pieces that the text of a picture is put together of, and how they go to a sink.

ghost use Rattle.std.specs.Prelude.{◌≡◌, OnOk, OnErr};
ghost use Rattle.cs_outside.specs.Device.{Rose};

use crate::paint::Paint;
use crate::unit::{TimeUnit, power_of_ten};
use cs_outside::{Failed, Sink, write_all};
use itoa::Buffer;

/// A piece of the text.
#[derive(Clone, Copy)]
pub(crate) enum Piece<'a> {
    /// A text as it is.
    Text(&'a str),
    /// A number.
    Number(u64),
    /// A place or a length on the page, in thousandths of a unit of it.
    Length(u64),
    /// A time in ns, in the unit that fits it.
    Time(u64),
    /// A time in ns, in this unit.
    TimeIn(u64, TimeUnit),
    /// A share of a whole, in thousandths, as per cent.
    Share(u64),
    /// The attribute that fills a mark.
    Fill(Paint),
}

fn write_number<K: Sink>(sink: &mut K, number: u64) -> Result<(), Failed>
    ensures faultless { OnOk result (K.faults sink.new ≡ K.faults sink.old) }
    ensures failed { OnErr result (Rose (K.faults sink.old) (K.faults sink.new)) }
{
    let mut buffer = Buffer::new();
    write_all(sink, buffer.format(number).as_bytes())
}

/// Writes the decimals of a fraction that is in units of the last one, without the zeros at their end.
fn write_decimals<K: Sink>(sink: &mut K, fraction: u64, decimals: u32) -> Result<(), Failed>
    ensures faultless { OnOk result (K.faults sink.new ≡ K.faults sink.old) }
    ensures failed { OnErr result (Rose (K.faults sink.old) (K.faults sink.new)) }
{
    let mut left = fraction;
    for place in (0..decimals).rev() {
        if left == 0 {
            return Ok(());
        }
        let worth = power_of_ten(place);
        write_number(sink, left / worth)?;
        left %= worth;
    }
    Ok(())
}

/// Writes a number that is in units of its last decimal, with as many decimals as it needs.
fn write_decimal<K: Sink>(sink: &mut K, number: u64, decimals: u32) -> Result<(), Failed>
    ensures faultless { OnOk result (K.faults sink.new ≡ K.faults sink.old) }
    ensures failed { OnErr result (Rose (K.faults sink.old) (K.faults sink.new)) }
{
    let whole = power_of_ten(decimals);
    write_number(sink, number / whole)?;
    if number % whole == 0 {
        return Ok(());
    }
    write_all(sink, b".")?;
    write_decimals(sink, number % whole, decimals)
}

fn write_time<K: Sink>(sink: &mut K, time: u64, unit: TimeUnit) -> Result<(), Failed>
    ensures faultless { OnOk result (K.faults sink.new ≡ K.faults sink.old) }
    ensures failed { OnErr result (Rose (K.faults sink.old) (K.faults sink.new)) }
{
    write_decimal(sink, time, unit.decimals())?;
    write_all(sink, unit.sign().as_bytes())
}

/// Writes the reference to a tile of the page, by the letter of its kind and its number.
fn write_tile<K: Sink>(sink: &mut K, kind: &str, number: u64) -> Result<(), Failed>
    ensures faultless { OnOk result (K.faults sink.new ≡ K.faults sink.old) }
    ensures failed { OnErr result (Rose (K.faults sink.old) (K.faults sink.new)) }
{
    write_all(sink, b" fill=\"url(#")?;
    write_all(sink, kind.as_bytes())?;
    write_number(sink, number)?;
    write_all(sink, b")\"")
}

fn write_fill<K: Sink>(sink: &mut K, paint: Paint) -> Result<(), Failed>
    ensures faultless { OnOk result (K.faults sink.new ≡ K.faults sink.old) }
    ensures failed { OnErr result (Rose (K.faults sink.old) (K.faults sink.new)) }
{
    match paint {
        Paint::Runs(look) => write_tile(sink, "c", look.number()),
        Paint::RunsSeveral => write_all(sink, b" fill=\"url(#cs)\""),
        Paint::Forced(hatch) => write_tile(sink, "h", hatch.number()),
        Paint::ForcedSeveral => write_all(sink, b" fill=\"url(#hs)\""),
        Paint::Offline => write_all(sink, b" fill=\"#dcdcdc\""),
        Paint::Clear => write_all(sink, b" class=\"i\""),
    }
}

impl Piece<'_> {
    fn write<K: Sink>(self, sink: &mut K) -> Result<(), Failed>
        ensures faultless { OnOk result (K.faults sink.new ≡ K.faults sink.old) }
        ensures failed { OnErr result (Rose (K.faults sink.old) (K.faults sink.new)) }
    {
        match self {
            Piece::Text(text) => write_all(sink, text.as_bytes()),
            Piece::Number(number) => write_number(sink, number),
            Piece::Length(length) => write_decimal(sink, length, 3),
            Piece::Time(time) => write_time(sink, time, TimeUnit::fitting(time)),
            Piece::TimeIn(time, unit) => write_time(sink, time, unit),
            Piece::Share(share) => write_decimal(sink, share, 1),
            Piece::Fill(paint) => write_fill(sink, paint),
        }
    }
}

/// Writes the pieces one after another. At an `Err` the sink has failed.
pub(crate) fn write_pieces<K: Sink>(sink: &mut K, pieces: &[Piece]) -> Result<(), Failed>
    ensures faultless { OnOk result (K.faults sink.new ≡ K.faults sink.old) }
    ensures failed { OnErr result (Rose (K.faults sink.old) (K.faults sink.new)) }
{
    for piece in pieces {
        piece.write(sink)?;
    }
    Ok(())
}
