//! A sink in memory, which fails at given calls.

ghost use Rattle.std.specs.Prelude.{◌≡◌, ◌⊎◌, ◌-◌, ◌<◌, ◌≤◌, ◌↔◌, ◌++◌, [], length, min, take, Contains, Some, IsOk, IsErr, IfOk, OnErr};
ghost use Rattle.cs_outside.specs.Device.{raised, Rose};

use cs_outside::{Failed, Sink};
use cs_types::OutOfMemory;
use std::alloc::Global;
use std::marker::Model;

/// Bytes that are written in pieces of a length of their own, as many as there is memory for from the
/// start. Its calls are counted from 1, and those with the numbers that it was given fail.
#[derive(Drop)]
pub struct MemSink {
    bytes: Vec<u8>,
    spare: usize,
    most: usize,
    fails: Vec<u64>,
    calls: u64,
    faults: u64,
}

impl Model for MemSink {
    ghost use Rattle.std.specs.Prelude.{◌+◌, ◌<◌, ◌≤◌, vec_len, vec_capacity};
    ghost use Rattle.memory_outside.specs.Memory.{SinkState};

    ghost Value = { SinkState };

    ghost view = { λ s. record {
      written = s.bytes.items;
      spare = s.spare;
      most = s.most;
      fails = s.fails.items;
      calls = s.calls;
      faults = s.faults;
    } };

    ghost invariant = { λ s. (vec_len s.bytes + s.spare ≤ vec_capacity s.bytes) × (0 < s.most) };
}

impl MemSink {
    /// A sink that can take `spare` bytes, and has taken memory for them. A call takes at most
    /// `most` of them, and fails if its number, counted from 1, is one of `fails`.
    pub fn of(
        alloc: Global,
        spare: usize,
        most: usize,
        fails: Vec<u64>,
    ) -> Result<MemSink, OutOfMemory>
        requires { 0 < most }
        ensures ok { IfOk result (λ sink. sink ≡ record {
          written = [];
          spare = spare;
          most = most;
          fails = fails.items;
          calls = 0;
          faults = 0;
        }) }
        ensures empty { spare ≡ 0 → IsOk result }
    {
        let bytes = Vec::with_capacity(alloc, spare)?;
        Ok(MemSink {
            bytes,
            spare,
            most,
            fails,
            calls: 0,
            faults: 0,
        })
    }

    /// The bytes that were written, in their order.
    pub fn bytes(&self) -> &[u8]
        ensures { result.now ≡ self.now.written }
    {
        &self.bytes
    }

    /// How often it was written to, failed calls too, up to 2^64 - 1, where the count stays.
    pub fn calls(&self) -> u64
        ensures { result ≡ self.now.calls }
    {
        self.calls
    }
}

impl Sink for MemSink {
    ghost written = { λ sink. Some sink.written };

    ghost faults = { λ sink. sink.faults };

    /// Takes the least of the most bytes of a call, the piece's length and the bytes that it can still take. It fails
    /// exactly if its number is one of those that fail or it can take none, and then takes nothing. It takes no memory.
    fn write(&mut self, piece: &[u8]) -> Result<usize, Failed>
        requires { 0 < length piece.now }

        ensures some { IfOk result (λ n. 0 < n) }
        ensures within { IfOk result (λ n. n ≤ length piece.now) }
        ensures appended { IfOk result
            (λ n. self.new.written ≡ self.old.written ++ take n piece.now) }
        ensures failed { OnErr result (Rose self.old.faults self.new.faults) }
        ensures unwritten { OnErr result (self.new.written ≡ self.old.written) }
        ensures counted { self.old.faults ≤ self.new.faults }

        ensures fails { IsErr result
            ↔ (Contains self.old.fails (raised self.old.calls) ⊎ (self.old.spare ≡ 0)) }
        ensures count { IfOk result
            (λ n. n ≡ min (min (length piece.now) self.old.spare) self.old.most) }
        ensures ok { IfOk result (λ n. self.new ≡ record self.old {
          written = self.old.written ++ take n piece.now;
          spare = self.old.spare - n;
          calls = raised self.old.calls;
        }) }
        ensures err { OnErr result (self.new ≡ record self.old {
          calls = raised self.old.calls;
          faults = raised self.old.faults;
        }) }
    {
        self.calls = self.calls.saturating_add(1);
        if self.spare == 0 || self.fails.contains(&self.calls) {
            self.faults = self.faults.saturating_add(1);
            return Err(Failed);
        }
        let count = piece.len().min(self.spare).min(self.most);
        self.bytes.extend_from_slice(&piece[..count]).unwrap();
        self.spare -= count;
        Ok(count)
    }
}
