//! How large the drill is.

/// The SMT siblings of its core.
pub(crate) const SIBLINGS: u32 = 4;

/// Its tasks at the start, which have the pids from 1 on.
pub(crate) const TASKS: u32 = 24;

/// Its steps.
pub(crate) const STEPS: u32 = 20_000;
