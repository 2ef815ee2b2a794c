//! What is wrong between the words of a line, whatever its form is: blank lines, comments, tabs,
//! spaces, and bytes that are not seen on a screen.

ghost use Rattle.std.specs.Prelude.{◌≤◌, IfSome};

use crate::lines::{count_of_words, is_space};
use crate::sentence::{Piece, Sentence};

/// What a text begins with that some editors mark as UTF-8.
const BYTE_ORDER_MARK: &[u8; 3] = b"\xef\xbb\xbf";

/// Whether the word begins what other languages take for a comment.
fn begins_comment(word: &[u8]) -> bool {
    word.starts_with(b"#") || word.starts_with(b"//")
}

/// The number of the first word that begins a comment, from 1.
fn comment_in(line: &[u8]) -> Option<usize> {
    for (before, word) in line.split(is_space).enumerate() {
        if begins_comment(word) {
            return Some(before.saturating_add(1));
        }
    }
    None
}

/// The number of the first word that is empty, from 1.
fn gap_in(line: &[u8]) -> Option<usize>
    ensures { IfSome result (λ number. 1 ≤ number) }
{
    for (before, word) in line.split(is_space).enumerate() {
        if word.is_empty() {
            return Some(before.saturating_add(1));
        }
    }
    None
}

/// Says which comment stands in the line.
fn explain_comment(said: &mut Sentence, number: usize) {
    if number == 1 {
        said.text("the line is a comment; a scenario has no comments\n");
    } else {
        said.pieces(&[
            Piece::Text("word "),
            Piece::Number(number as u64),
            Piece::Text(" begins a comment; a scenario has no comments\n"),
        ]);
    }
}

/// Says where the line has a space too many: the word of this number is empty.
fn explain_gap(said: &mut Sentence, line: &[u8], number: usize)
    requires { 1 ≤ number }
{
    if number == 1 {
        said.text("the line begins with a space; it begins with its first word\n");
    } else if number == count_of_words(line) {
        said.text("the line ends with a space; it ends with its last word\n");
    } else {
        said.pieces(&[
            Piece::Text("two spaces stand after word "),
            Piece::Number(number as u64 - 1),
            Piece::Text("; one space stands between two words\n"),
        ]);
    }
}

/// What is wrong with the bytes of the line, where one sentence says all.
fn fault_in_bytes(line: &[u8]) -> Option<&'static str> {
    if line.is_empty() {
        Some("the line is blank; a scenario has no blank lines\n")
    } else if line.starts_with(BYTE_ORDER_MARK) {
        Some(
            "the line begins with a byte order mark, which is not seen; a scenario is plain ASCII\n",
        )
    } else if line.ends_with(b"\r") {
        Some(
            "the line ends with a carriage return, which is not seen; it ends with a line feed alone\n",
        )
    } else if line.contains(&b'\t') {
        Some("the line has a tab; one space stands between two words\n")
    } else {
        None
    }
}

/// Says what is wrong between the words of the line, and whether anything is.
pub(crate) fn explain_spaces(said: &mut Sentence, line: &[u8]) -> bool {
    if let Some(number) = comment_in(line) {
        explain_comment(said, number);
    } else if let Some(fault) = fault_in_bytes(line) {
        said.text(fault);
    } else if let Some(number) = gap_in(line) {
        explain_gap(said, line, number);
    } else {
        return false;
    }
    true
}
