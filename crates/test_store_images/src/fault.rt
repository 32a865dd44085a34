//! What stops a part.
use std::alloc::{AllocError, AllocFailed};
use xa_store_sqlite::StoreOpenFault;

/// What stops a part.
#[derive(Clone, Copy, Debug)]
pub(crate) enum Fault {
    /// There was no memory.
    NoMemory,
    /// The manager refused a request of the script.
    Refused,
    /// The files weren't opened, and no call of them had failed.
    Unopened(StoreOpenFault),
    /// A settle failed, and no call of the files had failed.
    Unsettled,
    /// A settle failed, and then one succeeded.
    Settled,
    /// An opening found other contents than the last settle has left, and the one under way.
    Other,
    /// Files were refused, and yet the database file was written.
    Written,
}

impl From<AllocError> for Fault {
    fn from(_: AllocError) -> Fault {
        Fault::NoMemory
    }
}

impl<T: Drop> From<AllocFailed<T>> for Fault {
    fn from(_: AllocFailed<T>) -> Fault {
        Fault::NoMemory
    }
}
