//! Numbers, as words spell them: decimal digits with no leading 0, and no sign but the `-` of a negative
//! number. It is separate since every form of a line but the last has them.

ghost use Rattle.std.specs.Prelude.{◌≡◌, ◌⊎◌, ◌-◌, ◌^◌, ◌≤◌, length, take, slice_index, true, false, MatchOption, MatchResult, IfOk, pos, neg_ℤ, ◌≤ℤ◌};
ghost use Rattle.std.specs.Str.{all_ascii_digits};
ghost use Rattle.cs_types.specs.Scenario.{IsWithin};
ghost use Rattle.scenario_text.specs.declared.fault.BadKind.TheVariants.{Number};
ghost use Rattle.scenario_text.specs.Grammar.{is_canonical, is_number, is_signed, value};
ghost use Rattle.scenario_text.specs.Reading.{signed_value, flag_value};

use crate::fault::BadKind;
use cs_types::Cpu;

/// How many digits of a number are taken at once. No number of that many has more than 64 bits.
pub(crate) const MOST_DIGITS: usize = 19;

/// Whether the word begins with a digit, and with 0 only if it is `0`.
pub(crate) fn is_canonical(word: &[u8]) -> bool
    ensures { result ≡ is_canonical word.now }
{
    matches!(word, [b'0'] | [b'1'..=b'9', ..])
}

/// The number that the digits spell. `None` if one of the bytes is no digit, or the number has more than 64 bits.
fn parse_digits(digits: &[u8]) -> Option<u64>
    ensures { MatchOption result ((all_ascii_digits digits.now ≡ false)
        ⊎ (2 ^ 64 ≤ value digits.now))
        (λ n. (all_ascii_digits digits.now ≡ true) × (n ≡ value digits.now)) }
{
    let mut number: u64 = 0;
    for digit in digits {
        if !digit.is_ascii_digit() {
            return None;
        }
        number = number.checked_mul(10)?.checked_add((*digit - b'0') as u64)?;
    }
    Some(number)
}

/// The number that the digits at the front of the text spell, and how many they are. The first byte is a digit, and at
/// most 19 digits are taken.
#[inline(always)]
pub(crate) fn first_digits(text: &[u8]) -> (u64, usize)
    requires long { 19 ≤ length text.now }
    requires digit { IsWithin 48 57 (slice_index text.now 0) }
    ensures some { 1 ≤ result.1 }
    ensures inside { result.1 ≤ 19 }
    ensures digits { all_ascii_digits (take result.1 text.now) ≡ true }
    ensures spelled { result.0 ≡ value (take result.1 text.now) }
    ensures least { slice_index text.now 0 - 48 ≤ result.0 }
{
    let mut number = text[0] as u64 - b'0' as u64;
    let mut count = 1;
    while count < MOST_DIGITS {
        // For a byte that is no digit this is more than 9.
        let digit = (text[count] as u64).wrapping_sub(b'0' as u64);
        if digit > 9 {
            break;
        }
        number = number * 10 + digit;
        count += 1;
    }
    (number, count)
}

/// The number from `low` to `high` that the word spells.
pub fn parse_number(word: &[u8], low: u64, high: u64) -> Result<u64, BadKind>
    ensures spelled { MatchResult result
        (λ n. (is_number low high word.now ≡ true) × (n ≡ value word.now))
        (λ kind. (is_number low high word.now ≡ false) × (kind ≡ Number)) }
    ensures within { IfOk result (λ n. IsWithin low high n) }
{
    if !is_canonical(word) {
        return Err(BadKind::Number);
    }
    let Some(number) = parse_digits(word) else {
        return Err(BadKind::Number);
    };
    if !(low..=high).contains(&number) {
        return Err(BadKind::Number);
    }
    Ok(number)
}

/// The same for a number of 32 bits.
pub(crate) fn parse_u32(word: &[u8], low: u32, high: u32) -> Result<u32, BadKind>
    ensures { MatchResult result (λ n. (is_number low high word.now ≡ true) × (n ≡ value word.now))
        (λ kind. (is_number low high word.now ≡ false) × (kind ≡ Number)) }
{
    Ok(parse_number(word, low as u64, high as u64)? as u32)
}

/// And for one of 8 bits.
pub(crate) fn parse_u8(word: &[u8], low: u8, high: u8) -> Result<u8, BadKind>
    ensures { MatchResult result (λ n. (is_number low high word.now ≡ true) × (n ≡ value word.now))
        (λ kind. (is_number low high word.now ≡ false) × (kind ≡ Number)) }
{
    Ok(parse_number(word, low as u64, high as u64)? as u8)
}

/// The number from `-below` to `above` that the word spells: if it is negative, `-` and the digits of
/// its magnitude.
#[tactic(auto, unfolding(crate::specs::Grammar::is_signed))]
pub fn parse_signed(word: &[u8], below: u32, above: u32) -> Result<i64, BadKind>
    ensures spelled { MatchResult result
        (λ n. (is_signed below above word.now ≡ true) × (n ≡ signed_value word.now))
        (λ kind. (is_signed below above word.now ≡ false) × (kind ≡ Number)) }
    ensures least { IfOk result (λ number. neg_ℤ (pos below) ≤ℤ number) }
    ensures most { IfOk result (λ number. number ≤ℤ pos above) }
{
    match word {
        [b'-', digits @ ..] => Ok(-(parse_number(digits, 1, below as u64)? as i64)),
        _ => Ok(parse_number(word, 0, above as u64)? as i64),
    }
}

/// 1 for yes and 0 for no.
pub(crate) fn parse_flag(word: &[u8]) -> Result<bool, BadKind>
    ensures { MatchResult result
        (λ is. (is_number 0 1 word.now ≡ true) × (is ≡ flag_value word.now))
        (λ kind. (is_number 0 1 word.now ≡ false) × (kind ≡ Number)) }
{
    Ok(parse_number(word, 0, 1)? == 1)
}

/// One of the siblings of a core, which has this number of them.
pub(crate) fn parse_cpu(word: &[u8], siblings: u8) -> Result<Cpu, BadKind>
    ensures { MatchResult result
        (λ cpu. (is_number 0 (siblings - 1) word.now ≡ true) × (cpu ≡ value word.now))
        (λ kind. (is_number 0 (siblings - 1) word.now ≡ false) × (kind ≡ Number)) }
{
    parse_u8(word, 0, siblings.saturating_sub(1))
}
