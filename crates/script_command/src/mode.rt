//! The ways in which a script is run.

/// How a script is run.
#[derive(Clone, Copy, PartialEq, Eq)]
pub enum RunMode {
    /// In one thread, in which the workers take turns.
    Turns,
    /// Each thread of the script and each worker has a thread of its own.
    Threads,
}
