//! Words in the place of a number: whether they are right, and what is said if they are not.

use crate::lines::is_word;
use crate::sentence::{Piece, Sentence};
use crate::table::{Field, Kind, POLICIES, PolicyForm, Range};
use scenario_text::{parse_number, parse_signed};

/// What a word is looked at with.
#[derive(Clone, Copy)]
pub(crate) struct Place<'a> {
    /// The number of the word in its line, from 1.
    pub number: usize,
    pub word: &'a [u8],
    /// How many siblings the core has.
    pub siblings: u64,
}

/// The numbers of the siblings of a core.
fn of_siblings(siblings: u64) -> Range {
    Range::Plain {
        low: 0,
        high: siblings.saturating_sub(1),
    }
}

impl Range {
    /// Whether the word spells one of these numbers.
    fn has(self, word: &[u8]) -> bool {
        match self {
            Range::Plain { low, high } => parse_number(word, low, high).is_ok(),
            Range::Signed { below, above } => parse_signed(word, below, above).is_ok(),
        }
    }

    /// Says from where to where they go, of what is called so.
    fn explain(self, said: &mut Sentence, called: &str) {
        match self {
            Range::Plain { low, high } if low == high => said.pieces(&[Piece::Number(low)]),
            Range::Plain { low, high } => said.pieces(&[
                Piece::Text(called),
                Piece::Text(" from "),
                Piece::Number(low),
                Piece::Text(" to "),
                Piece::Number(high),
            ]),
            Range::Signed { below, above } => said.pieces(&[
                Piece::Text(called),
                Piece::Text(" from -"),
                Piece::Number(below as u64),
                Piece::Text(" to "),
                Piece::Number(above as u64),
            ]),
        }
    }
}

/// The policy that the word begins like, which has a number, and what stands after its colon.
fn policy_of(word: &[u8]) -> Option<(PolicyForm, &[u8])> {
    for policy in POLICIES {
        if let Some(digits) = word.strip_prefix(policy.mark.as_bytes()) {
            return Some((policy, digits));
        }
    }
    None
}

/// Whether the word has the shape of what may stand there.
pub(crate) fn has_shape(kind: Kind, word: &[u8]) -> bool {
    match kind {
        Kind::OneOf(words) => is_one_of(word, words),
        Kind::Policy => is_word(word, "stop") || policy_of(word).is_some(),
        Kind::Number(_) | Kind::Sibling => true,
    }
}

/// Whether the word is one of these.
fn is_one_of(word: &[u8], words: &[&str]) -> bool {
    for name in words {
        if is_word(word, name) {
            return true;
        }
    }
    false
}

/// Whether the word, which has the shape of what may stand there, may.
pub(crate) fn is_right(kind: Kind, word: &[u8], siblings: u64) -> bool {
    match kind {
        Kind::OneOf(_) => true,
        Kind::Number(range) => range.has(word),
        Kind::Sibling => of_siblings(siblings).has(word),
        Kind::Policy => match policy_of(word) {
            Some((policy, digits)) => policy.range.has(digits),
            None => true,
        },
    }
}

/// Says which word is wrong, and what its place is called.
pub(crate) fn explain_word<'a>(said: &mut Sentence, number: usize, name: &'a str, word: &'a [u8]) {
    said.pieces(&[
        Piece::Text("word "),
        Piece::Number(number as u64),
        Piece::Text(": "),
        Piece::Text(name),
        Piece::Text(" is "),
        Piece::Word(word),
        Piece::Text("; "),
    ]);
}

/// Whether all bytes are digits, and there is one.
fn are_digits(bytes: &[u8]) -> bool {
    for byte in bytes {
        if !byte.is_ascii_digit() {
            return false;
        }
    }
    !bytes.is_empty()
}

/// Says how a number is not written, if it is written so.
fn explain_digits(said: &mut Sentence, digits: &[u8]) {
    match digits {
        b"-0" => said.text(", and 0 has no sign"),
        [b'+', rest @ ..] if are_digits(rest) => said.text(", and has no + in front"),
        [b'0', rest @ ..] | [b'-', b'0', rest @ ..] if are_digits(rest) => {
            said.text(", and has no 0 in front");
        }
        _ => {}
    }
}

/// Says which number of this range has to stand there, by what it is called.
fn explain_range(said: &mut Sentence, called: &str, range: Range, digits: &[u8]) {
    range.explain(said, called);
    explain_digits(said, digits);
}

/// Says which words may stand there.
fn explain_words(said: &mut Sentence, words: &[&str]) {
    for place in 0..words.len() {
        said.before_choice(place, words.len());
        said.text(words[place]);
    }
}

/// Says which policies there are.
fn explain_policies(said: &mut Sentence) {
    said.text("stop");
    for place in 0..POLICIES.len() {
        said.before_choice(place + 1, POLICIES.len() + 1);
        said.pieces(&[
            Piece::Text(POLICIES[place].mark),
            Piece::Text(POLICIES[place].number),
        ]);
    }
}

/// Says which policy has to stand there, in place of this word.
fn explain_policy(said: &mut Sentence, word: &[u8]) {
    let Some((policy, digits)) = policy_of(word) else {
        return explain_policies(said);
    };
    said.pieces(&[Piece::Text(policy.mark), Piece::Text(" and ")]);
    explain_range(said, policy.says, policy.range, digits);
}

/// Says what has to stand there, in place of this word.
pub(crate) fn explain_kind(said: &mut Sentence, kind: Kind, word: &[u8], siblings: u64) {
    match kind {
        Kind::OneOf(words) => explain_words(said, words),
        Kind::Number(range) => explain_range(said, "a number", range, word),
        Kind::Policy => explain_policy(said, word),
        Kind::Sibling => {
            explain_range(said, "a number", of_siblings(siblings), word);
            said.pieces(&[
                Piece::Text(", since line 2 says siblings "),
                Piece::Number(siblings),
            ]);
        }
    }
}

/// Says which word is wrong, and what has to stand in its place.
pub(crate) fn explain_field(said: &mut Sentence, field: Field, place: Place) {
    explain_word(said, place.number, field.name, place.word);
    said.text("it has to be ");
    explain_kind(said, field.kind, place.word, place.siblings);
    said.text("\n");
}
