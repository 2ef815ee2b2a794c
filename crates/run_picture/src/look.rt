//! How a cookie is drawn: in a colour and with a pattern, so that it reads in grey too. The colours are those that
//! Okabe and Ito chose, which the colour-blind tell apart. Their vermilion is not among them: it marks exposure alone.

ghost use Rattle.std.specs.Prelude.{◌<◌};

use cs_types::Cookie;

/// How many colours there are for cookies.
const COLOURS: u64 = 6;

/// How many patterns there are for cookies. It shares no factor with the number of colours, so each pair of a colour
/// and a pattern comes up before one comes again.
const PATTERNS: u64 = 7;

/// How many looks there are for cookies.
pub(crate) const LOOKS: u64 = COLOURS * PATTERNS;

/// How many hatches there are for cookies.
pub(crate) const HATCHES: u64 = COLOURS;

/// A colour.
#[derive(Clone, Copy)]
pub(crate) enum Colour {
    /// A plain grey, for what has no cookie.
    Neutral,
    SkyBlue,
    Orange,
    Green,
    Yellow,
    Blue,
    Purple,
}

/// The pattern on a colour.
#[derive(Clone, Copy)]
pub(crate) enum Pattern {
    /// The colour alone, for what has no cookie.
    Plain,
    Dots,
    Rising,
    Level,
    Crosses,
    Falling,
    Upright,
    Rings,
}

/// The look of what runs with a cookie.
#[derive(Clone, Copy)]
pub(crate) struct Look {
    /// 0 for no cookie, and else 1 to `LOOKS`.
    number: u64,
}

/// The hatch of what is forced idle.
#[derive(Clone, Copy)]
pub(crate) struct Hatch {
    /// 0 for no cookie, and else 1 to `HATCHES`.
    number: u64,
}

impl Colour {
    /// Its code.
    pub(crate) fn code(self) -> &'static str {
        match self {
            Colour::Neutral => "#c4c4c4",
            Colour::SkyBlue => "#56b4e9",
            Colour::Orange => "#e69f00",
            Colour::Green => "#009e73",
            Colour::Yellow => "#f0e442",
            Colour::Blue => "#0072b2",
            Colour::Purple => "#cc79a7",
        }
    }

    /// The colour of a pattern that is drawn on it.
    pub(crate) fn ink(self) -> &'static str {
        match self {
            Colour::Green | Colour::Blue => "#fff",
            Colour::Neutral | Colour::SkyBlue | Colour::Orange | Colour::Yellow | Colour::Purple =>
                "#000",
        }
    }

    /// The colour of lines on white.
    pub(crate) fn line(self) -> &'static str {
        match self {
            Colour::Neutral => "#666",
            Colour::Yellow => "#c0b000",
            Colour::SkyBlue | Colour::Orange | Colour::Green | Colour::Blue | Colour::Purple => {
                self.code()
            }
        }
    }
}

impl Pattern {
    /// Its tile of 8 by 8 units, as the shapes on it.
    pub(crate) fn shapes(self) -> &'static str {
        match self {
            Pattern::Plain => "",
            Pattern::Dots =>
                "<circle cx=\"2\" cy=\"2\" r=\"1.1\"/><circle cx=\"6\" cy=\"6\" r=\"1.1\"/>",
            Pattern::Rising => "<path d=\"M-1 1l2-2M0 8l8-8M7 9l2-2\"/>",
            Pattern::Level => "<path d=\"M0 2h8M0 6h8\"/>",
            Pattern::Crosses => "<path d=\"M2 2l4 4M2 6l4-4\"/>",
            Pattern::Falling => "<path d=\"M-1 7l2 2M0 0l8 8M7-1l2 2\"/>",
            Pattern::Upright => "<path d=\"M2 0v8M6 0v8\"/>",
            Pattern::Rings => "<circle cx=\"4\" cy=\"4\" r=\"2.4\" fill=\"none\"/>",
        }
    }
}

/// The colour of a hatch with this number.
fn colour_at(number: u64) -> Colour {
    match number {
        0 => Colour::Neutral,
        1 => Colour::SkyBlue,
        2 => Colour::Orange,
        3 => Colour::Green,
        4 => Colour::Yellow,
        5 => Colour::Blue,
        _ => Colour::Purple,
    }
}

/// Where a number comes in a list of this length that is gone through again and again, from 1 on. 0 stays 0.
fn turn(number: u64, of: u64) -> u64
    requires { 0 < of }
{
    if number == 0 {
        0
    } else {
        (number - 1) % of + 1
    }
}

impl Look {
    /// The look of tasks with this cookie. It comes again after as many cookies as there are looks.
    pub(crate) fn of(cookie: Cookie) -> Look {
        Look::at(turn(cookie, LOOKS))
    }

    /// The look with this number: 0 for no cookie.
    pub(crate) fn at(number: u64) -> Look {
        Look { number }
    }

    pub(crate) fn number(self) -> u64 {
        self.number
    }

    pub(crate) fn colour(self) -> Colour {
        colour_at(turn(self.number, COLOURS))
    }

    pub(crate) fn pattern(self) -> Pattern {
        match turn(self.number, PATTERNS) {
            0 => Pattern::Plain,
            1 => Pattern::Dots,
            2 => Pattern::Rising,
            3 => Pattern::Level,
            4 => Pattern::Crosses,
            5 => Pattern::Falling,
            6 => Pattern::Upright,
            _ => Pattern::Rings,
        }
    }
}

impl Hatch {
    /// The hatch of what is forced idle while the core has this cookie, in the colour of the cookie's look.
    pub(crate) fn of(cookie: Cookie) -> Hatch {
        Hatch::at(turn(cookie, HATCHES))
    }

    /// The hatch with this number: 0 for no cookie.
    pub(crate) fn at(number: u64) -> Hatch {
        Hatch { number }
    }

    pub(crate) fn number(self) -> u64 {
        self.number
    }

    pub(crate) fn colour(self) -> Colour {
        colour_at(self.number)
    }
}
