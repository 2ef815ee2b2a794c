//! Where bytes are cut at a separator. It is separate since a text is cut into lines at line feeds just
//! as a line is cut into words at spaces.

ghost use Rattle.std.specs.Prelude.{◌≡◌, ◌<◌, [], ◌∷◌, length, MatchOption, IfSome};
ghost use Rattle.scenario_text.specs.Faults.{pieces};

use memchr::memchr;

/// What stands before the first separator, and what stands after it. `None` if there is none.
#[inline(always)]
pub(crate) fn cut(bytes: &[u8], separator: u8) -> Option<(&[u8], &[u8])>
    ensures pieces { MatchOption result (pieces separator bytes.now ≡ bytes.now ∷ [])
        (λ parts. pieces separator bytes.now ≡ parts.0.now ∷ pieces separator parts.1.now) }
    ensures shorter { IfSome result (λ parts. length parts.1.now < length bytes.now) }
{
    let end = memchr(separator, bytes)?;
    Some((&bytes[..end], &bytes[end + 1..]))
}
