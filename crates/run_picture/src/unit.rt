//! The units of time in which a person reads a number of nanoseconds.

ghost use Rattle.std.specs.Prelude.{◌<◌};

/// A unit of time.
#[derive(Clone, Copy)]
pub(crate) enum TimeUnit {
    Nanosecond,
    Microsecond,
    Millisecond,
    Second,
}

impl TimeUnit {
    /// The largest unit of which this time, in ns, has one, and else the nanosecond.
    pub(crate) fn fitting(time: u64) -> TimeUnit {
        if time < 1_000 {
            TimeUnit::Nanosecond
        } else if time < 1_000_000 {
            TimeUnit::Microsecond
        } else if time < 1_000_000_000 {
            TimeUnit::Millisecond
        } else {
            TimeUnit::Second
        }
    }

    /// How many decimals its numbers have if they are exact to the nanosecond.
    pub(crate) fn decimals(self) -> u32 {
        match self {
            TimeUnit::Nanosecond => 0,
            TimeUnit::Microsecond => 3,
            TimeUnit::Millisecond => 6,
            TimeUnit::Second => 9,
        }
    }

    /// Its sign, after the space that follows a number.
    pub(crate) fn sign(self) -> &'static str {
        match self {
            TimeUnit::Nanosecond => " ns",
            TimeUnit::Microsecond => " us",
            TimeUnit::Millisecond => " ms",
            TimeUnit::Second => " s",
        }
    }
}

/// A power of ten, up to 10^19, the greatest that fits.
pub(crate) fn power_of_ten(power: u32) -> u64
    ensures { 0 < result }
{
    10u64.pow(power.min(19))
}
