//! Why a table isn't read.
ghost use Rattle.std.specs.Prelude.{◌≡◌};
ghost use Rattle.xa_slots.specs.declared.fault.TableReadFault.TheVariants.{Failed};
ghost use Rattle.sqlite_trees.specs.declared.error.StoreError.TheVariants.{OutOfMemory};

use sqlite_trees::error::StoreError;
use std::alloc::{AllocError, AllocFailed};

/// Why a table isn't read.
#[derive(Clone, Copy, Debug, PartialEq, Eq)]
pub enum TableReadFault {
    /// A call of the store failed, or there was no memory.
    Failed(StoreError),
    /// The table has a row that is none of the slots, by its rowid.
    NotSlots,
}

impl From<StoreError> for TableReadFault {
    ghost from_gives = { λ error fault. fault ≡ Failed error };

    fn from(error: StoreError) -> TableReadFault {
        TableReadFault::Failed(error)
    }
}

impl From<AllocError> for TableReadFault {
    ghost from_gives = { λ _ fault. fault ≡ Failed OutOfMemory };

    fn from(_: AllocError) -> TableReadFault {
        TableReadFault::Failed(StoreError::OutOfMemory)
    }
}

impl<T: Drop> From<AllocFailed<T>> for TableReadFault {
    ghost from_gives = { λ _ fault. fault ≡ Failed OutOfMemory };

    fn from(_: AllocFailed<T>) -> TableReadFault {
        TableReadFault::Failed(StoreError::OutOfMemory)
    }
}
