//! A text while it is put together. It lies on the stack, so it takes no memory and cannot fail.

ghost use Rattle.std.specs.Prelude.{◌≡◌, ◌<◌};

use itoa::Buffer;
use std::marker::Model;

/// How many bytes can be said. All sentences are shorter.
const SENTENCE_BYTES: usize = 2048;

/// How many bytes of a word are shown at most.
const WORD_BYTES: usize = 40;

/// How many bytes of a line are shown at most.
const LINE_BYTES: usize = 120;

/// The digits of a byte that is shown by its number.
const DIGITS: &[u8; 16] = b"0123456789abcdef";

/// A piece of a sentence.
#[derive(Clone, Copy)]
pub(crate) enum Piece<'a> {
    /// A text as it is.
    Text(&'a str),
    /// A number.
    Number(u64),
    /// A word of the scenario, between quotes.
    Word(&'a [u8]),
}

/// What was said so far.
#[derive(Drop)]
pub(crate) struct Sentence {
    bytes: [u8; SENTENCE_BYTES],
    /// How many bytes were said. They stand in the first places.
    count: usize,
}

impl Model for Sentence {
    ghost use Rattle.std.specs.Prelude.{ℕ, List, take, ◌≤◌};

    ghost Value = { List ℕ };

    ghost view = { λ said. take said.count said.bytes };

    ghost invariant = { λ said. said.count ≤ 2048 };
}

impl Sentence {
    /// Nothing was said.
    pub fn new() -> Sentence {
        Sentence {
            bytes: [0; SENTENCE_BYTES],
            count: 0,
        }
    }

    /// What was said.
    pub fn as_bytes(&self) -> &[u8]
        ensures { result.now ≡ self.now }
    {
        &self.bytes[..self.count]
    }

    /// These bytes, as far as there is room.
    fn put(&mut self, bytes: &[u8]) {
        let count = bytes.len().min(SENTENCE_BYTES - self.count);
        let end = self.count + count;
        self.bytes[self.count..end].copy_from_slice(&bytes[..count]);
        self.count = end;
    }

    /// One byte of the scenario: as it is if it can be read, else by its number.
    fn put_shown(&mut self, byte: u8) {
        match byte {
            b' '..=b'~' => self.put(&[byte]),
            b'\t' => self.put(b"\\t"),
            b'\r' => self.put(b"\\r"),
            _ => {
                let high = DIGITS[(byte / 16) as usize];
                let low = DIGITS[(byte % 16) as usize];
                self.put(&[b'\\', b'x', high, low]);
            }
        }
    }

    /// Bytes of the scenario, at most this many. Two dots stand for the others.
    fn put_all_shown(&mut self, bytes: &[u8], most: usize) {
        for byte in &bytes[..bytes.len().min(most)] {
            self.put_shown(*byte);
        }
        if bytes.len() > most {
            self.put(b"..");
        }
    }

    /// A line of the scenario, on a line of its own, two columns to the right.
    pub fn line(&mut self, line: &[u8]) {
        self.put(b"  ");
        self.put_all_shown(line, LINE_BYTES);
        self.put(b"\n");
    }

    /// A text as it is.
    pub fn text(&mut self, text: &str) {
        self.put(text.as_bytes());
    }

    /// One more piece.
    fn piece(&mut self, piece: Piece) {
        match piece {
            Piece::Text(text) => self.text(text),
            Piece::Number(number) => {
                let mut buffer = Buffer::new();
                self.text(buffer.format(number));
            }
            Piece::Word(word) => {
                self.put(b"\"");
                self.put_all_shown(word, WORD_BYTES);
                self.put(b"\"");
            }
        }
    }

    /// The pieces, one after another.
    pub fn pieces(&mut self, pieces: &[Piece]) {
        for piece in pieces {
            self.piece(*piece);
        }
    }

    /// What stands before this one, from 0, of so many that are told in a row: `or` before the
    /// last.
    pub fn before_choice(&mut self, place: usize, count: usize)
        requires { place < count }
    {
        if place == 0 {
            return;
        }
        self.text(if place + 1 == count { " or " } else { ", " });
    }
}
