//! Where bytes go.

ghost use Rattle.std.specs.Prelude.{◌≡◌, ◌<◌, ◌≤◌, ℕ, List, Option, length, take, IfOk, OnOk, OnErr};
ghost use Rattle.cs_outside.specs.Device.{appended, Rose, WritesPrefix};

use crate::fault::Failed;

/// A sink of bytes.
pub trait Sink {
    /// The bytes that were written, if they are known.
    ghost written: { Self → Option (List ℕ) };

    /// How often it failed, up to 2^64 - 1, where the count stays.
    ghost faults: { Self → ℕ };

    /// Takes one or more bytes from the start of the piece, and answers how many. A device that
    /// takes nothing has failed.
    fn write(&mut self, piece: &[u8]) -> Result<usize, Failed>
        requires { 0 < length piece.now }

        ensures some { IfOk result (λ n. 0 < n) }
        ensures within { IfOk result (λ n. n ≤ length piece.now) }
        ensures appended { IfOk result
            (λ n. written self.new ≡ appended (written self.old) (take n piece.now)) }

        ensures faultless { OnOk result (faults self.new ≡ faults self.old) }
        ensures failed { OnErr result (Rose (faults self.old) (faults self.new)) }
        ensures unwritten { OnErr result (written self.new ≡ written self.old) }
        ensures counted { faults self.old ≤ faults self.new };
}

/// Gives the whole piece to the sink in one piece, and again the rest if it took only a part. At an
/// `Err` the sink failed, and a prefix of the piece was written. It takes no memory, and always
/// returns, since each write takes a byte or fails.
pub fn write_all<K: Sink>(sink: &mut K, piece: &[u8]) -> Result<(), Failed>
    ensures ok { OnOk result (K.written sink.new ≡ appended (K.written sink.old) piece.now) }
    ensures prefix { WritesPrefix (K.written sink.old) piece.now (K.written sink.new) }

    ensures faultless { OnOk result (K.faults sink.new ≡ K.faults sink.old) }
    ensures failed { OnErr result (Rose (K.faults sink.old) (K.faults sink.new)) }
    ensures counted { K.faults sink.old ≤ K.faults sink.new }
{
    let mut given = 0;
    while given < piece.len() {
        given += sink.write(&piece[given..])?;
    }
    Ok(())
}
