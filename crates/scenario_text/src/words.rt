//! The words of a line, cut before any of them is looked at, since it takes all of them to know the line's form.

ghost use Rattle.std.specs.Prelude.{◌≡◌, ◌≢◌, ◌⊎◌, ◌+◌, ◌<◌, ◌≤◌, [], ◌∷◌, ◌++◌, length, take, MatchResult};
ghost use Rattle.scenario_text.specs.declared.fault.BadKind.TheVariants.{Shape};
ghost use Rattle.scenario_text.specs.Faults.{words_in};
ghost use Rattle.scenario_text.specs.Grammar.{is_word};
ghost use Rattle.scenario_text.specs.Reading.{texts, Reads, used};

use crate::fault::BadKind;
use crate::pieces::cut;

/// How many words a line has at most: as many as the longest form, a task.
const MOST_WORDS: usize = 15;

/// Where the words of a line are put. It lies on the stack, and one serves all lines.
pub(crate) type Slots<'a> = [&'a [u8]; MOST_WORDS];

/// Slots in which no word is yet.
pub(crate) fn slots<'a>() -> Slots<'a> {
    [&[]; MOST_WORDS]
}

/// Puts one more word after the first `count`. A line of more words than any form has is refused, and so is
/// an empty word.
fn put<'a>(slots: &mut Slots<'a>, count: usize, word: &'a [u8]) -> Result<(), BadKind>
    requires { count ≤ 15 }
    ensures { MatchResult result
        (λ _. (take (count + 1) slots.new ≡ take count slots.old ++ word.entry ∷ [])
        × (length word.now ≢ 0) × (count < 15))
        (λ kind. (kind ≡ Shape) × ((length word.now ≡ 0) ⊎ (count ≡ 15))) }
{
    if word.is_empty() || count == MOST_WORDS {
        return Err(BadKind::Shape);
    }
    slots[count] = word;
    Ok(())
}

/// The words of the line, between which single spaces stand. They are put into the slots, in place of another
/// line's.
#[inline(always)]
pub(crate) fn words_of<'r, 'a>(
    line: &'a [u8],
    slots: &'r mut Slots<'a>,
) -> Result<&'r [&'a [u8]], BadKind>
    ensures { Reads (λ words. texts words.now) result (used (words_in line.now)) }
{
    let (mut count, mut rest) = (0, line);
    while let Some((word, more)) = cut(rest, b' ') {
        put(slots, count, word)?;
        count += 1;
        rest = more;
    }
    put(slots, count, rest)?;
    Ok(&slots[..count + 1])
}

/// Whether the word is this keyword.
pub(crate) fn is_word(word: &[u8], keyword: &str) -> bool
    ensures { result ≡ is_word word.now keyword.now }
{
    // A comparison of beginnings costs no call.
    word.len() == keyword.len() && keyword.as_bytes().starts_with(word)
}
