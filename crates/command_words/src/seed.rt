//! The seed of a drill, as a word spells it.

ghost use Rattle.std.specs.Prelude.{◌≡◌, ◌↔◌, ℕ, ◌<◌, ◌^◌, Some, decimal};

use itoa::Buffer;

/// The number below 2^32 that the word spells in decimal: with no sign, and with no leading 0 but in `0` itself.
pub(crate) fn canonical(word: &str) -> Option<u32>
    ensures spelled { (seed : ℕ) → (result ≡ Some seed)
        ↔ ((word.now ≡ decimal seed) × (seed < 2 ^ 32)) }
{
    let number = word.parse::<u32>().ok()?;
    let mut buffer = Buffer::new();
    (buffer.format(number) == word).then_some(number)
}
