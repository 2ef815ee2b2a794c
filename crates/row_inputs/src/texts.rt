//! Texts and words, put together.

use std::alloc::{AllocError, Global};

/// The text of these lines.
pub fn joined(alloc: Global, lines: &[&str]) -> Result<Vec<u8>, AllocError> {
    let mut text = Vec::new(alloc);
    for line in lines {
        text.extend_from_slice(line.as_bytes())?;
    }
    Ok(text)
}

/// The words of a command line.
pub fn words_of(alloc: Global, texts: &[&str]) -> Result<Vec<String>, AllocError> {
    let mut words = Vec::new(alloc);
    for text in texts {
        words.push(String::from_str(alloc, text)?)?;
    }
    Ok(words)
}

/// The actor's next line after its first ones, if these begin so, in their order, and `Some(None)` if it has no more.
/// `None` if one of them does not begin so, or is not there.
pub fn next_after<'a>(text: &'a str, actor: &str, starts: &[&str]) -> Option<Option<&'a str>> {
    let mut lines = text
        .split_inclusive('\n')
        .filter(|line| line.starts_with(actor));
    for start in starts {
        if !lines.next()?.starts_with(*start) {
            return None;
        }
    }
    Some(lines.next())
}

/// The number of the first line, from 1, in which a text differs from the one that is wanted. `None` if they are the
/// same.
pub fn other_line(text: &[u8], wanted: &[u8]) -> Option<usize> {
    if text == wanted {
        return None;
    }
    let same = text
        .iter()
        .zip(wanted)
        .take_while(|(byte, other)| byte == other);
    Some(1 + same.filter(|(byte, _)| **byte == b'\n').count())
}
