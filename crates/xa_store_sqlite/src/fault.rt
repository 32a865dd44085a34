//! Why a store isn't opened.
ghost use Rattle.std.specs.Prelude.{◌≡◌, ◌≢◌, ◌⊎◌};
ghost use Rattle.xa_tables.specs.declared.restored.RestoreFault.TheVariants as restore;
ghost use Rattle.xa_store_sqlite.specs.declared.fault.StoreOpenFault.TheVariants.{NoMemory, NotRestored};
ghost use Rattle.xa_store_sqlite.specs.Images.{table_number};
ghost use Rattle.xa_store_sqlite.specs.Refusals.{fault_of_error, fault_of_opening, fault_of_reading};

use crate::mirror::{ACCOUNTS, BRANCHES, CHANGES, STORE};
use sqlite_store::OpenError;
use sqlite_trees::error::StoreError;
use std::alloc::{AllocError, AllocFailed};
use std::fmt;
use thiserror::Error;
use xa_slots::TableReadFault;
use xa_tables::RestoreFault;

/// A table of the file.
#[derive(Clone, Copy, Debug, PartialEq, Eq)]
pub enum Table {
    Accounts,
    Branches,
    Changes,
    Store,
}

impl Table {
    /// Its number among the trees of the file.
    pub(crate) fn number(self) -> u32
        ensures { result ≡ table_number self }
    {
        match self {
            Table::Accounts => ACCOUNTS,
            Table::Branches => BRANCHES,
            Table::Changes => CHANGES,
            Table::Store => STORE,
        }
    }

    fn name(self) -> &'static str {
        match self {
            Table::Accounts => "accounts",
            Table::Branches => "branches",
            Table::Changes => "changes",
            Table::Store => "store",
        }
    }
}

impl fmt::Display for Table {
    fn fmt<W: fmt::Write>(&self, f: &mut fmt::Formatter<W>) -> fmt::Result {
        f.write_str(self.name())
    }
}

/// What is wrong with a row that no store writes.
#[derive(Clone, Copy, Debug, PartialEq, Eq, Error)]
pub enum RowFault {
    /// It has other columns, or a value of another type.
    #[error("it has other columns, or a value of another type")]
    Form,
    /// Its name is none of a key, or of a branch.
    #[error("its name is none of an account or of a branch")]
    Name,
    /// A value is below 0 or above 1,000,000,000,000, or a change is beyond that either way.
    #[error("its value is below 0 or above 1,000,000,000,000, or its change is beyond that either way")]
    Limit,
    /// Its state is none of a branch that an opening leaves.
    #[error("its state is none of a branch that is left")]
    State,
    /// It is a change of no branch.
    #[error("it is a change of no branch")]
    Unknown,
    /// A row before it is missing: accounts have no gaps.
    #[error("a row before it is missing")]
    Gap,
}

// The id of the row in a slot.
fn id_of(slot: u32) -> u64 {
    u64::from(slot) + 1
}

// Why rows make no manager.
fn text_of(fault: RestoreFault) -> &'static str {
    match fault {
        RestoreFault::BadAccounts => "an account stands twice",
        RestoreFault::BranchTwice => "a branch stands twice",
        RestoreFault::NotLeft => "a branch is in a state that no opening leaves",
        RestoreFault::UnknownKey => "a change is of no account",
        RestoreFault::NotPrepared => "a change is of a branch that isn't prepared",
        RestoreFault::KeyTwice => "two changes are of one account",
        RestoreFault::OutOfLimits => {
            "a change takes its account below 0 or above 1,000,000,000,000"
        }
        RestoreFault::NoMemory => "out of memory",
    }
}

/// Why a store isn't opened. The database file is left as it was, unless it was new. An empty log may have been begun.
#[derive(Clone, Copy, Debug, PartialEq, Eq, Error)]
pub enum StoreOpenFault {
    /// There was no memory.
    #[error("out of memory")]
    NoMemory,
    /// A read, a write or a sync failed.
    #[error("it can't be read, written or synced")]
    Failed,
    /// The disk has no room for the rows of a new file, or the file has met a limit of its format.
    #[error("the disk has no room")]
    NoRoom,
    /// It is no SQLite database and no beginning of one, or its pages haven't the checksums of a store: it is damaged,
    /// or sqlite3 has written to it.
    #[error("it is no SQLite database, or it is damaged, or sqlite3 has written to it")]
    NotADatabase,
    /// It is a database whose tables aren't those of a store, byte for byte as they were created.
    #[error("it is a database with other tables")]
    OtherTables,
    /// Its list of tables is that of a store, and yet it can't be opened or read as one.
    #[error("it is damaged")]
    Damaged,
    /// It has rows, and none that says what it is.
    #[error("it has rows, and none that says what it is")]
    NotAStore,
    /// It has another version of this layout, as of a newer program.
    #[error("it has another version, as of a newer program")]
    OtherVersion,
    /// It has another number than was asked for: it belongs to another set of files.
    #[error("it has another number: it belongs to another set of files")]
    OtherNumber,
    /// A table has a row with an id below 1, or above the most that there may be: 256 accounts, a change for each
    /// account, and 65,536 branches with those that are to come.
    #[error("the table {0} has too many rows, or one with an id below 1")]
    TooMany(Table),
    /// A row, by its slot, is none that a store writes. Its id is one more.
    #[error("the table {0} has a row with the id {id} that no store writes: {2}", id = id_of(*.1))]
    BadRow(Table, u32, RowFault),
    /// Its rows make no manager.
    #[error("its rows make no manager: {}", text_of(*.0))]
    NotRestored(RestoreFault),
}

impl From<AllocError> for StoreOpenFault {
    ghost from_gives = { λ _ fault. fault ≡ NoMemory };

    fn from(_: AllocError) -> StoreOpenFault {
        StoreOpenFault::NoMemory
    }
}

impl<T: Drop> From<AllocFailed<T>> for StoreOpenFault {
    ghost from_gives = { λ _ fault. fault ≡ NoMemory };

    fn from(_: AllocFailed<T>) -> StoreOpenFault {
        StoreOpenFault::NoMemory
    }
}

impl From<RestoreFault> for StoreOpenFault {
    ghost from_gives = { λ error fault. ((error ≡ restore.NoMemory) × (fault ≡ NoMemory))
        ⊎ ((error ≢ restore.NoMemory) × (fault ≡ NotRestored error)) };

    fn from(fault: RestoreFault) -> StoreOpenFault {
        match fault {
            RestoreFault::NoMemory => StoreOpenFault::NoMemory,
            fault => StoreOpenFault::NotRestored(fault),
        }
    }
}

impl From<StoreError> for StoreOpenFault {
    ghost from_gives = { λ error fault. fault ≡ fault_of_error error };

    fn from(error: StoreError) -> StoreOpenFault {
        match error {
            StoreError::OutOfMemory => StoreOpenFault::NoMemory,
            StoreError::Full => StoreOpenFault::NoRoom,
            StoreError::Corrupt => StoreOpenFault::Damaged,
            StoreError::Io | StoreError::Broken | StoreError::Unstorable => StoreOpenFault::Failed,
        }
    }
}

// Why a table with too many rows, or another fault, isn't read.
pub(crate) fn unread(table: Table, fault: TableReadFault) -> StoreOpenFault
    ensures { result ≡ fault_of_reading table fault }
{
    match fault {
        TableReadFault::Failed(error) => StoreOpenFault::from(error),
        TableReadFault::NotSlots => StoreOpenFault::TooMany(table),
    }
}

// What a failed opening of a file is, where a refusal means this.
pub(crate) fn unopened(error: OpenError, refused: StoreOpenFault) -> StoreOpenFault
    ensures { result ≡ fault_of_opening refused error }
{
    match error {
        OpenError::OutOfMemory => StoreOpenFault::NoMemory,
        OpenError::Io => StoreOpenFault::Failed,
        OpenError::Full => StoreOpenFault::NoRoom,
        OpenError::Refused => refused,
    }
}
