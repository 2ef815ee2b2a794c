//! A source and a sink in memory, made in one call.

ghost use Rattle.std.specs.Prelude.{◌≡◌, ◌<◌, IfOk};

use cs_types::OutOfMemory;
use memory_outside::{MemSink, MemSource};
use std::alloc::{AllocError, Global};

/// A source of this text, which gives `most` bytes at once, and fails at these calls. They are counted from 1.
pub fn source_of(
    alloc: Global,
    text: &[u8],
    most: usize,
    fails: &[u64],
) -> Result<MemSource, AllocError>
    requires { 0 < most }
    ensures { IfOk result (λ source. source.faults ≡ 0) }
{
    let bytes = text.to_vec(alloc)?;
    let fails = fails.to_vec(alloc)?;
    Ok(MemSource::of(bytes, most, fails))
}

/// A sink without bytes, with room for 4,096, which takes `most` bytes at once, and fails at these calls. They are
/// counted from 1.
pub fn sink_of(alloc: Global, most: usize, fails: &[u64]) -> Result<MemSink, OutOfMemory>
    requires { 0 < most }
    ensures { IfOk result (λ sink. sink.faults ≡ 0) }
{
    let fails = fails.to_vec(alloc)?;
    MemSink::of(alloc, 4096, most, fails)
}
