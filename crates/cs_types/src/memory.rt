//! Out of memory, the one answer that no clause rules out.

use std::alloc::{AllocError, AllocFailed};
use thiserror::Error;

/// The allocator had no memory for the call, and nothing was made.
#[derive(Debug, Drop, Error)]
#[error("out of memory")]
pub struct OutOfMemory;

impl From<AllocError> for OutOfMemory {
    fn from(_: AllocError) -> Self {
        OutOfMemory
    }
}

impl<T: Drop> From<AllocFailed<T>> for OutOfMemory {
    fn from(_: AllocFailed<T>) -> Self {
        OutOfMemory
    }
}
