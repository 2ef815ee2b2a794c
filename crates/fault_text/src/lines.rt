//! The lines of a text and the words of a line, by their numbers.

/// Whether the byte ends a line.
pub(crate) fn is_line_feed(byte: &u8) -> bool {
    *byte == b'\n'
}

/// Whether the byte stands between two words.
pub(crate) fn is_space(byte: &u8) -> bool {
    *byte == b' '
}

/// The line of this number, from 1. It is empty if there is none.
pub(crate) fn line_at(text: &[u8], number: u32) -> &[u8] {
    let before = number.saturating_sub(1) as usize;
    text.split(is_line_feed).nth(before).unwrap_or(&[])
}

/// The word of this number of a line, from 1. It is empty if there is none.
pub(crate) fn word_at(line: &[u8], number: usize) -> &[u8] {
    line.split(is_space)
        .nth(number.saturating_sub(1))
        .unwrap_or(&[])
}

/// How many words a line has.
pub(crate) fn count_of_words(line: &[u8]) -> usize {
    line.split(is_space).count()
}

/// Whether the word is this one.
pub(crate) fn is_word(word: &[u8], name: &str) -> bool {
    *word == *name.as_bytes()
}
