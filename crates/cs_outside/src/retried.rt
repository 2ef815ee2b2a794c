//! One read and one write of std's, made again if they were interrupted.

ghost use Rattle.std.specs.Prelude.{◌≡◌, ◌<◌, ◌≤◌, length, take, IfOk, OnErr};
ghost use Rattle.std.specs.Io.KnownBytes.{Appends, Consumes, IsAtEnd, Keeps};

use crate::fault::Failed;
use std::io::{ErrorKind, Read, Write};

/// Reads the next bytes into the start of the buffer, and answers how many, 0 at the end. A read that
/// was interrupted before it took any is made again, up to 2^64 - 1 times.
pub fn read_some<R: Read>(input: &mut R, buf: &mut [u8]) -> Result<usize, Failed>
    ensures within { IfOk result (λ n. n ≤ length buf.old) }
    ensures taken { IfOk result
        (λ n. Consumes (R.remaining input.old) (R.remaining input.new) (take n buf.new)) }
    ensures end { IfOk result (λ n. n ≡ 0 → 0 < length buf.old → IsAtEnd (R.remaining input.new)) }
    ensures untaken { OnErr result (Keeps (R.remaining input.old) (R.remaining input.new)) }
{
    for _ in 0..u64::MAX {
        match input.read(buf) {
            Ok(count) => return Ok(count),
            Err(error) if error.kind() == ErrorKind::Interrupted => {}
            Err(_) => return Err(Failed),
        }
    }
    Err(Failed)
}

/// Gives one or more bytes from the start of the piece to the writer, and answers how many. A write
/// that was interrupted before it took any is made again, up to 2^64 - 1 times. One that takes
/// nothing has failed.
// Apart from its callers, so that a sink that only gathers is small enough to stand in the loop of a caller.
#[inline(never)]
pub fn write_some<W: Write>(output: &mut W, piece: &[u8]) -> Result<usize, Failed>
    ensures some { IfOk result (λ n. 0 < n) }
    ensures within { IfOk result (λ n. n ≤ length piece.now) }
    ensures appended { IfOk result
        (λ n. Appends (W.contents output.old) (W.contents output.new) (take n piece.now)) }
    ensures unwritten { OnErr result (Keeps (W.contents output.old) (W.contents output.new)) }
{
    for _ in 0..u64::MAX {
        match output.write(piece) {
            Ok(0) => return Err(Failed),
            Ok(count) => return Ok(count),
            Err(error) if error.kind() == ErrorKind::Interrupted => {}
            Err(_) => return Err(Failed),
        }
    }
    Err(Failed)
}
