//! What a call about a guard answers.

/// The answer to a pair that is to be taught.
#[derive(Clone, Copy)]
pub enum TeachAnswer {
    /// The guard refuses the pair from now on.
    Taught,
    /// The guard is not on the bench.
    NoGuard,
    /// The guard refuses as many pairs as it can be taught, which are this many.
    Full { cap: u32 },
    /// There was no memory for one more pair.
    OutOfMemory,
}

/// The answer to a guard that is to be loaded.
#[derive(Clone, Copy)]
pub enum LoadAnswer {
    /// The guard is asked from now on, after those that were loaded before it.
    Loaded,
    /// The guard is not on the bench.
    NoGuard,
}

/// The answer to a guard that is to be unloaded.
#[derive(Clone, Copy)]
pub enum UnloadAnswer {
    /// The guard is gone.
    Dropped,
    /// The guard is not active.
    NoGuard,
}
