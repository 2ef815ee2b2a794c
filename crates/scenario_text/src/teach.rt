//! What guards are taught, as the words of a teach line spell it.

ghost use Rattle.std.specs.Prelude.{◌≡◌, [], ◌∷◌, true, codes};
ghost use Rattle.scenario_text.specs.Grammar.{is_word, teach_form};
ghost use Rattle.scenario_text.specs.Reading.{lent, read_in, teach_value};

use crate::fault::BadKind;
use crate::number::{parse_u8, parse_u32};
use crate::task::MOST_ID;
use cs_types::Teach;

/// The greatest number of a guard. The least is 0.
pub const MOST_GUARD: u8 = 15;

/// The words of a teach line, which is the line of this number. The first of them is `teach`.
pub(crate) fn parse_teach(words: &[&[u8]], line: u32) -> Result<Teach, BadKind>
    requires { is_word ((lent words.now).at 0) (codes "teach") ≡ true }
    ensures { result ≡ read_in ((teach_form, teach_value line) ∷ []) (lent words.now) }
{
    let [_, guard, from, to] = *words else {
        return Err(BadKind::Shape);
    };
    let (Ok(guard), Ok(from), Ok(to)) = (
        parse_u8(guard, 0, MOST_GUARD),
        parse_u32(from, 0, MOST_ID),
        parse_u32(to, 0, MOST_ID),
    ) else {
        return Err(BadKind::Number);
    };
    Ok(Teach {
        line,
        guard,
        from,
        to,
    })
}
