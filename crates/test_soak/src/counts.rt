//! What threads did.
use std::fmt;

/// How often a thread did what.
#[derive(Clone, Copy, Default)]
pub(crate) struct Counts {
    /// Calls that were put to a manager.
    pub(crate) calls: u32,
    /// Calls that found no handle or no place in the queue: `XAER_ASYNC`.
    pub(crate) no_handle: u32,
    /// Calls to a manager that the thread had learnt to be shut, and late ones: `XAER_RMFAIL`.
    pub(crate) shut: u32,
    pub(crate) collected: u32,
    pub(crate) commits: u32,
    pub(crate) aborts: u32,
    /// Transactions that were over a manager without handles or requests left.
    pub(crate) not_begun: u32,
}

impl Counts {
    /// Adds what another thread did.
    pub(crate) fn add(&mut self, other: &Counts) {
        self.calls = self.calls.saturating_add(other.calls);
        self.no_handle = self.no_handle.saturating_add(other.no_handle);
        self.shut = self.shut.saturating_add(other.shut);
        self.collected = self.collected.saturating_add(other.collected);
        self.commits = self.commits.saturating_add(other.commits);
        self.aborts = self.aborts.saturating_add(other.aborts);
        self.not_begun = self.not_begun.saturating_add(other.not_begun);
    }
}

impl fmt::Display for Counts {
    fn fmt<W: fmt::Write>(&self, f: &mut fmt::Formatter<W>) -> fmt::Result {
        write!(
            f,
            "{} calls, {} without a handle or a place, {} at a shut manager, {} collected, ",
            self.calls, self.no_handle, self.shut, self.collected
        )?;
        write!(
            f,
            "{} commits, {} aborts, {} not begun",
            self.commits, self.aborts, self.not_begun
        )
    }
}
