//! The limits of an opening.

/// Threads of control of an opening.
pub const MOST_THREADS: usize = 8;

/// Resource managers of an opening.
pub const MOST_MANAGERS: usize = 8;

/// Senders of a lane: the threads of an opening, or its managers.
pub const MOST_SENDERS: usize = 8;

/// Operations that a thread has outstanding by handle.
pub const MOST_HANDLES: usize = 32;

/// Requests that a manager's queue holds.
pub const MOST_QUEUED: usize = 64;

/// Requests that a thread puts to a manager.
pub const MOST_REQUESTS: usize = 4096;

/// Requests that a manager's threads put to it together.
pub const MOST_JOURNALED: usize = MOST_THREADS * MOST_REQUESTS;

/// Keys that are declared for a manager.
pub const MOST_KEYS: usize = 256;

/// A key's value, and an addition either way.
pub const MOST_VALUE: u64 = 1_000_000_000_000;
