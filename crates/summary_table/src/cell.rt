//! The cells of a line, and how they are aligned.

ghost use Rattle.std.specs.Prelude.{◌≡◌, ◌≤◌, OnOk, OnErr};
ghost use Rattle.cs_outside.specs.Device.{Rose};

use cs_outside::{Failed, Sink, write_all};
use itoa::Buffer;

/// What stands in a cell.
#[derive(Clone, Copy)]
pub(crate) enum Cell<'a> {
    /// A text as it is.
    Text(&'a str),
    /// A sibling, by its number.
    Sibling(u64),
    /// A number.
    Number(u64),
    /// A time in ns, in ms with three decimals, rounded down.
    Time(u64),
    /// Which part of a whole this is, in per cent with one decimal, rounded down.
    Share(u64, u64),
}

/// On which side of its column a cell stands, and how wide the column is.
#[derive(Clone, Copy)]
pub(crate) enum Side {
    Left(u64),
    Right(u64),
}

const SPACES: [u8; 48] = [b' '; 48];

fn write_text<K: Sink>(sink: &mut K, text: &str) -> Result<(), Failed>
    ensures faultless { OnOk result (K.faults sink.new ≡ K.faults sink.old) }
    ensures failed { OnErr result (Rose (K.faults sink.old) (K.faults sink.new)) }
{
    write_all(sink, text.as_bytes())
}

fn write_number<K: Sink>(sink: &mut K, number: u64) -> Result<(), Failed>
    ensures faultless { OnOk result (K.faults sink.new ≡ K.faults sink.old) }
    ensures failed { OnErr result (Rose (K.faults sink.old) (K.faults sink.new)) }
{
    let mut buffer = Buffer::new();
    write_all(sink, buffer.format(number).as_bytes())
}

/// Writes this many spaces, at most 48.
fn write_spaces<K: Sink>(sink: &mut K, count: u64) -> Result<(), Failed>
    ensures faultless { OnOk result (K.faults sink.new ≡ K.faults sink.old) }
    ensures failed { OnErr result (Rose (K.faults sink.old) (K.faults sink.new)) }
{
    let count = count.min(48) as usize;
    write_all(sink, &SPACES[..count])
}

/// How many digits a number has.
fn digits(number: u64) -> u64
    ensures { result ≤ 20 }
{
    let mut buffer = Buffer::new();
    buffer.format(number).len() as u64
}

/// Which part of a whole this is, in thousandths, rounded down. Nothing of a whole that is nothing.
fn thousandths(part: u64, whole: u64) -> u64 {
    if whole == 0 {
        return 0;
    }
    let share = u128::from(part) * 1_000 / u128::from(whole);
    u64::try_from(share).unwrap_or(u64::MAX)
}

/// Writes three digits.
fn write_three<K: Sink>(sink: &mut K, number: u64) -> Result<(), Failed>
    ensures faultless { OnOk result (K.faults sink.new ≡ K.faults sink.old) }
    ensures failed { OnErr result (Rose (K.faults sink.old) (K.faults sink.new)) }
{
    write_number(sink, number / 100 % 10)?;
    write_number(sink, number / 10 % 10)?;
    write_number(sink, number % 10)
}

impl Cell<'_> {
    /// How many columns of a screen it takes.
    fn width(self) -> u64 {
        match self {
            Cell::Text(text) => text.len() as u64,
            Cell::Sibling(number) => digits(number) + 1,
            Cell::Number(number) => digits(number),
            Cell::Time(time) => digits(time / 1_000_000) + 4,
            Cell::Share(part, whole) => digits(thousandths(part, whole) / 10) + 2,
        }
    }

    /// Writes what stands in it.
    fn write<K: Sink>(self, sink: &mut K) -> Result<(), Failed>
        ensures faultless { OnOk result (K.faults sink.new ≡ K.faults sink.old) }
        ensures failed { OnErr result (Rose (K.faults sink.old) (K.faults sink.new)) }
    {
        match self {
            Cell::Text(text) => write_text(sink, text),
            Cell::Sibling(number) => {
                write_text(sink, "s")?;
                write_number(sink, number)
            }
            Cell::Number(number) => write_number(sink, number),
            Cell::Time(time) => {
                write_number(sink, time / 1_000_000)?;
                write_text(sink, ".")?;
                write_three(sink, time / 1_000 % 1_000)
            }
            Cell::Share(part, whole) => {
                let share = thousandths(part, whole);
                write_number(sink, share / 10)?;
                write_text(sink, ".")?;
                write_number(sink, share % 10)
            }
        }
    }

    /// Writes it in its column.
    fn write_aligned<K: Sink>(self, sink: &mut K, side: Side) -> Result<(), Failed>
        ensures faultless { OnOk result (K.faults sink.new ≡ K.faults sink.old) }
        ensures failed { OnErr result (Rose (K.faults sink.old) (K.faults sink.new)) }
    {
        match side {
            Side::Left(width) => {
                self.write(sink)?;
                write_spaces(sink, width.saturating_sub(self.width()))
            }
            Side::Right(width) => {
                write_spaces(sink, width.saturating_sub(self.width()))?;
                self.write(sink)
            }
        }
    }
}

/// Writes a line of these cells, each in its column.
pub(crate) fn write_line<K: Sink>(sink: &mut K, cells: &[(Cell, Side)]) -> Result<(), Failed>
    ensures faultless { OnOk result (K.faults sink.new ≡ K.faults sink.old) }
    ensures failed { OnErr result (Rose (K.faults sink.old) (K.faults sink.new)) }
{
    for (cell, side) in cells {
        cell.write_aligned(sink, *side)?;
    }
    write_text(sink, "\n")
}
