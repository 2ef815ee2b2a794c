//! The source over standard input.

ghost use Rattle.std.specs.Prelude.{◌≡◌, ◌<◌, ◌≤◌, None, length, IfOk, OnOk, OnErr};
ghost use Rattle.cs_outside.specs.Device.{raised, Rose};

use crate::fault::{Failed, counted};
use crate::retried::read_some;
use crate::source::Source;
use std::io::Stdin;
use std::marker::Model;

/// Standard input. Clauses do not know its bytes.
#[derive(Drop)]
pub struct StdSource {
    input: Stdin,
    faults: u64,
}

impl Model for StdSource {
    ghost use Rattle.cs_outside.specs.Stream.{InputState};

    ghost Value = { InputState };

    ghost view = { λ source. record { faults = source.faults } };
}

impl StdSource {
    /// The source over standard input, with no fault so far.
    pub fn over(input: Stdin) -> StdSource
        ensures { result ≡ record { faults = 0 } }
    {
        StdSource { input, faults: 0 }
    }
}

impl Source for StdSource {
    ghost left = { λ _. None };

    ghost faults = { λ source. source.faults };

    /// Reads once from standard input, and waits there until bytes come or it ends. A read that was
    /// interrupted before it took any is made again, and is no fault.
    fn read(&mut self, buf: &mut [u8]) -> Result<usize, Failed>
        requires { 0 < length buf.old }

        ensures within { IfOk result (λ n. n ≤ length buf.old) }
        ensures failed { OnErr result (Rose self.old.faults self.new.faults) }
        ensures counted { self.old.faults ≤ self.new.faults }

        ensures ok { OnOk result (self.new ≡ self.old) }
        ensures err { OnErr result (self.new.faults ≡ raised self.old.faults) }
    {
        let answer = read_some(&mut self.input, buf);
        counted(&mut self.faults, answer)
    }
}
