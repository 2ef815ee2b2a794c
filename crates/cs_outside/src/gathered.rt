//! Bytes that wait for their way to a writer.

ghost use Rattle.std.specs.Prelude.{◌≡◌, ◌+◌, ◌<◌, ◌≤◌, ◌++◌, [], length, take, OnOk, OnErr};
ghost use Rattle.std.specs.Io.KnownBytes.{Appends};
ghost use Rattle.cs_outside.specs.Stream.{LosesPrefix, buffer_bytes};

use crate::fault::Failed;
use crate::retried::write_some;
use std::io::Write;
use std::marker::Model;

/// How many bytes a sink over standard output can gather before it needs the device.
pub(crate) const BUFFER_BYTES: usize = 8192;

/// Bytes in the order in which they came.
#[derive(Drop)]
pub(crate) struct Gathered {
    bytes: [u8; BUFFER_BYTES],
    len: usize,
}

impl Model for Gathered {
    ghost use Rattle.std.specs.Prelude.{◌≤◌, List, ℕ, take};
    ghost use Rattle.cs_outside.specs.Stream.{buffer_bytes};

    ghost Value = { List ℕ };

    ghost view = { λ g. take g.len g.bytes };

    ghost invariant = { λ g. g.len ≤ buffer_bytes };
}

impl Gathered {
    /// No bytes.
    pub fn new() -> Gathered
        ensures { result ≡ [] }
    {
        Gathered {
            bytes: [0; BUFFER_BYTES],
            len: 0,
        }
    }

    /// How many more bytes it can take.
    pub fn spare(&self) -> usize
        ensures { result + length self.now ≡ buffer_bytes }
    {
        BUFFER_BYTES - self.len
    }

    /// Puts a piece after the others.
    pub fn put(&mut self, piece: &[u8])
        requires { length self.old + length piece.now ≤ buffer_bytes }
        ensures { self.new ≡ self.old ++ piece.now }
    {
        let end = self.len + piece.len();
        self.bytes[self.len..end].copy_from_slice(piece);
        self.len = end;
    }

    /// Gives all bytes to the writer. At an `Err` the writer failed, and those that it did not take
    /// are still here.
    pub fn empty_to<W: Write>(&mut self, output: &mut W) -> Result<(), Failed>
        ensures emptied { OnOk result (self.new ≡ []) }
        ensures left { OnErr result (0 < length self.new) }
        ensures given { LosesPrefix self.old self.new
            (λ prefix. Appends (W.contents output.old) (W.contents output.new) prefix) }
    {
        let given = give(output, &self.bytes[..self.len]);
        self.bytes.copy_within(given..self.len, 0);
        self.len -= given;
        if self.len > 0 {
            return Err(Failed);
        }
        Ok(())
    }
}

/// Gives the bytes to the writer until all are given or it fails, and answers how many it took.
fn give<W: Write>(output: &mut W, bytes: &[u8]) -> usize
    ensures within { result ≤ length bytes.now }
    ensures given { Appends (W.contents output.old)
        (W.contents output.new) (take result bytes.now) }
{
    let mut given = 0;
    while given < bytes.len() {
        match write_some(output, &bytes[given..]) {
            Ok(count) => given += count,
            Err(Failed) => return given,
        }
    }
    given
}
