//! The sink over standard output, which gathers lines.

ghost use Rattle.std.specs.Prelude.{◌≡◌, ◌+◌, ◌<◌, ◌≤◌, ◌++◌, [], None, Ok, length, IfOk, OnOk, OnErr};
ghost use Rattle.cs_outside.specs.Device.{raised, Rose};
ghost use Rattle.cs_outside.specs.Stream.{IsRest, buffer_bytes};

use crate::fault::{Failed, counted};
use crate::gathered::{BUFFER_BYTES, Gathered};
use crate::retried::write_some;
use crate::sink::Sink;
use std::io::Stdout;
use std::marker::Model;

/// Standard output. Clauses do not know its bytes. It gathers them and takes no memory, so `flush`
/// has to be called after the last write: what is gathered at the end is lost.
#[derive(Drop)]
pub struct StdSink {
    output: Stdout,
    gathered: Gathered,
    faults: u64,
}

impl Model for StdSink {
    ghost use Rattle.cs_outside.specs.Stream.{OutputState};

    ghost Value = { OutputState };

    ghost view = { λ sink. record { gathered = sink.gathered; faults = sink.faults } };
}

impl StdSink {
    /// The sink over standard output, with nothing gathered and no fault so far.
    pub fn over(output: Stdout) -> StdSink
        ensures { result ≡ record { gathered = []; faults = 0 } }
    {
        StdSink {
            output,
            gathered: Gathered::new(),
            faults: 0,
        }
    }

    /// Gives all that is gathered to the device. At an `Err` the device failed, and what it did not
    /// take is still gathered.
    // Apart from `write`, which mostly only gathers.
    #[inline(never)]
    pub fn flush(&mut self) -> Result<(), Failed>
        ensures ok { OnOk result (self.new ≡ record self.old { gathered = [] }) }
        ensures kept { IsRest self.old.gathered self.new.gathered }
        ensures left { OnErr result (0 < length self.new.gathered) }

        ensures failed { OnErr result (Rose self.old.faults self.new.faults) }
        ensures counted { self.old.faults ≤ self.new.faults }
        ensures err { OnErr result (self.new.faults ≡ raised self.old.faults) }
    {
        let answer = self.gathered.empty_to(&mut self.output);
        counted(&mut self.faults, answer)
    }
}

impl Sink for StdSink {
    ghost written = { λ _. None };

    ghost faults = { λ sink. sink.faults };

    /// Gathers the whole piece, after what is gathered. If it does not fit there, what is gathered
    /// goes to the device first. A piece longer than the buffer then goes there too, maybe only a
    /// part of it.
    fn write(&mut self, piece: &[u8]) -> Result<usize, Failed>
        requires { 0 < length piece.now }

        ensures some { IfOk result (λ n. 0 < n) }
        ensures within { IfOk result (λ n. n ≤ length piece.now) }
        ensures faultless { OnOk result (self.new.faults ≡ self.old.faults) }
        ensures failed { OnErr result (Rose self.old.faults self.new.faults) }
        ensures counted { self.old.faults ≤ self.new.faults }

        // What fits is gathered, and nothing fails.
        ensures fits { length self.old.gathered + length piece.now ≤ buffer_bytes →
            (result ≡ Ok (length piece.now))
            × (self.new ≡ record self.old { gathered = self.old.gathered ++ piece.now }) }

        ensures whole { length piece.now ≤ buffer_bytes → IfOk result (λ n. n ≡ length piece.now) }
        ensures emptied { buffer_bytes < length self.old.gathered + length piece.now →
            length piece.now ≤ buffer_bytes →
            OnOk result (self.new ≡ record self.old { gathered = piece.now }) }
        ensures long { buffer_bytes < length piece.now →
            OnOk result (self.new ≡ record self.old { gathered = [] }) }

        // At an `Err` no byte of the piece is gathered or written.
        ensures kept { OnErr result (IsRest self.old.gathered self.new.gathered) }
        ensures err { OnErr result (self.new.faults ≡ raised self.old.faults) }
    {
        if self.gathered.spare() < piece.len() {
            self.flush()?;
        }
        if piece.len() <= BUFFER_BYTES {
            self.gathered.put(piece);
            return Ok(piece.len());
        }
        let answer = write_some(&mut self.output, piece);
        counted(&mut self.faults, answer)
    }
}
