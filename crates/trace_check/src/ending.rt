//! How a printed run ends, once all scripts are made: the lines of the entries of the final drain, and the report.

ghost use Rattle.std.specs.Prelude.{◌≡◌, ◌≤◌, ◌<◌, ◌++◌, length, take, Some, OnOk, OnErr, IfOk};
ghost use Rattle.cs_outside.specs.Device.{Rose};
ghost use Rattle.room_report.specs.Report.{output_from};

use cs_outside::{Failed, Sink};
use cs_types::{OutOfMemory, Room};
use room_report::output_from;
use std::alloc::Global;

/// A text that is put together in memory.
#[derive(Drop)]
struct Printed {
    bytes: Vec<u8>,
    /// How often there was no memory for a piece.
    faults: u64,
}

impl Sink for Printed {
    ghost written = { λ sink. Some sink.bytes.items };

    ghost faults = { λ sink. sink.faults };

    /// Takes the whole piece. It fails if there is no memory for it.
    fn write(&mut self, piece: &[u8]) -> Result<usize, Failed>
        requires { 0 < length piece.now }

        ensures some { IfOk result (λ n. 0 < n) }
        ensures within { IfOk result (λ n. n ≤ length piece.now) }
        ensures appended { IfOk result
            (λ n. self.new.bytes.items ≡ self.old.bytes.items ++ take n piece.now) }
        ensures faultless { OnOk result (self.new.faults ≡ self.old.faults) }
        ensures failed { OnErr result (Rose self.old.faults self.new.faults) }
        ensures unwritten { OnErr result (self.new.bytes.items ≡ self.old.bytes.items) }
        ensures counted { self.old.faults ≤ self.new.faults }
    {
        if self.bytes.extend_from_slice(piece).is_err() {
            self.faults = self.faults.saturating_add(1);
            return Err(Failed);
        }
        Ok(piece.len())
    }
}

/// The lines of the entries from a place on, and the report.
pub(crate) fn printed_end<R: Room>(
    alloc: Global,
    room: &R,
    from: u64,
) -> Result<Vec<u8>, OutOfMemory>
    ensures { IfOk result (λ text. text.items
        ≡ output_from (R.opening room.now) from (R.history room.now)) }
{
    let mut sink = Printed {
        bytes: Vec::new(alloc),
        faults: 0,
    };
    match output_from(room, from, &mut sink) {
        Ok(()) => Ok(sink.bytes),
        Err(Failed) => Err(OutOfMemory),
    }
}
