//! The answer of a pass with no step left.

use thiserror::Error;

/// The pass has made all its steps. Nothing changed.
#[derive(Debug, Drop, Error)]
#[error("the pass has made all its steps")]
pub struct Spent;
