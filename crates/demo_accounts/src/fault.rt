//! Why the program ends early.
ghost use Rattle.std.specs.Prelude.{◌≢◌};

use std::alloc::{AllocError, AllocFailed, Global};
use xa_log_file::FolderFault;

/// What a fault is of.
#[derive(Clone, Copy, Debug, PartialEq, Eq)]
pub enum Place {
    /// The folder itself.
    Folder,
    /// The log of this teller.
    Log(u32),
    /// The number of the next day.
    NextDay,
}

/// Why the program ends early.
#[derive(Clone, Copy, Debug, PartialEq, Eq)]
pub enum Fault {
    /// The words aren't a folder, and perhaps a number of days.
    Usage,
    /// Memory was refused, or a thread.
    NoMemory,
    /// Standard output took no more.
    Output,
    /// The folder, or a file there, can't be made, opened, read or written.
    File(Place, FolderFault),
    /// The teller's log takes no more records: a write or a sync of it has failed.
    Halted(u32),
    /// The teller's log has lost a record: nobody knows whether it has it, before it is opened again.
    Undecided(u32),
    /// All slots of the teller's log are taken.
    Full(u32),
    /// A teller's log took no record. Its condition says why.
    Unrecorded,
    /// The folder has had all its days.
    Worn,
    /// The stores of a day can't be opened as they are planned, or one didn't do what it was asked.
    Stores,
}

// The exit status where the folder or a file can't be used.
fn file_status(fault: FolderFault) -> u8
    ensures { result ≢ 0 }
{
    match fault {
        FolderFault::Memory => 3,
        FolderFault::NoFolder | FolderFault::NoPermission | FolderFault::BadName => 4,
        FolderFault::Exists => 4,
        FolderFault::Missing | FolderFault::NotALog | FolderFault::Damaged => 5,
        FolderFault::InUse => 9,
        FolderFault::NoRoom => 10,
        FolderFault::Failed => 11,
        FolderFault::NoStream => 13,
    }
}

// What is told of a folder or a file that can't be used.
fn file_cause(fault: FolderFault) -> &'static str {
    match fault {
        FolderFault::InUse => "another program has it open",
        FolderFault::NoFolder => "there is no such folder",
        FolderFault::NoPermission => "permission denied",
        FolderFault::NoRoom => "the disk has no room",
        FolderFault::Exists => "there is another file of this name",
        FolderFault::Missing => "the file is missing, though the folder has had it",
        FolderFault::NotALog => "it isn't a decision log",
        FolderFault::Damaged => "it is damaged",
        FolderFault::Memory => "out of memory",
        FolderFault::BadName => "no file may have this name",
        FolderFault::NoStream => "standard input, output and error have to be open",
        FolderFault::Failed => "it can't be opened, read or written",
    }
}

impl Fault {
    /// The exit status: 0 is for no fault.
    pub fn status(self) -> u8
        ensures { result ≢ 0 }
    {
        match self {
            Fault::Usage => 2,
            Fault::NoMemory => 3,
            Fault::File(_, fault) => file_status(fault),
            Fault::Undecided(_) => 6,
            Fault::Worn => 7,
            Fault::Stores => 8,
            Fault::Halted(_) | Fault::Unrecorded => 11,
            Fault::Full(_) => 12,
            Fault::Output => 13,
        }
    }

    // What it is of, if it is of a file.
    fn place(self) -> Option<Place> {
        match self {
            Fault::File(place, _) => Some(place),
            Fault::Halted(teller) | Fault::Undecided(teller) | Fault::Full(teller) => {
                Some(Place::Log(teller))
            }
            Fault::Worn => Some(Place::NextDay),
            Fault::Usage | Fault::NoMemory | Fault::Output => None,
            Fault::Unrecorded | Fault::Stores => None,
        }
    }

    fn cause(self) -> &'static str {
        match self {
            Fault::Usage => "the words have to be FOLDER [DAYS], as demo_accounts --help says",
            Fault::NoMemory => "out of memory",
            Fault::Output => "standard output takes no more",
            Fault::File(_, fault) => file_cause(fault),
            Fault::Halted(_) => "a write or a sync failed, so it takes no more records",
            Fault::Undecided(_) => "a write or a sync failed, and a record may be there or not",
            Fault::Full(_) => "all its slots are taken",
            Fault::Unrecorded => "a log took no record",
            Fault::Worn => "the folder has had all its days",
            Fault::Stores => "the stores can't be opened or used",
        }
    }

    /// What is told of it, in one line: `demo_accounts: teller-2.log: it is damaged`. The folder is named as it was
    /// given.
    pub fn line(self, alloc: Global, folder: &str) -> Result<String, AllocError> {
        let cause = self.cause();
        match self.place() {
            None => format!(in alloc; "demo_accounts: {cause}\n"),
            Some(Place::Folder) => format!(in alloc; "demo_accounts: {folder}: {cause}\n"),
            Some(Place::Log(teller)) => {
                format!(in alloc; "demo_accounts: teller-{teller}.log: {cause}\n")
            }
            Some(Place::NextDay) => format!(in alloc; "demo_accounts: next-day: {cause}\n"),
        }
    }
}

impl From<AllocError> for Fault {
    fn from(_error: AllocError) -> Fault {
        Fault::NoMemory
    }
}

impl<T: Drop> From<AllocFailed<T>> for Fault {
    fn from(_error: AllocFailed<T>) -> Fault {
        Fault::NoMemory
    }
}
