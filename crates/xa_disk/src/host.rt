//! A file of the operating system.
ghost use Rattle.std.specs.Prelude.{◌≡◌, IsTrue, OnOk};
ghost use Rattle.xa_disk.specs.{device_fault, found_by, given_by, kept_by, kind_fault, of_disk, of_opening, told_by};
ghost use Rattle.xa_disk.specs.declared.backing.ReadFault.TheVariants as read;

use crate::backing::{Backing, DeviceFault, ReadFault};
use crate::notes::Notes;
use crate::write_through::DiskOpenFault;
use sqlite_disk::{Disk, is_no_room};
use sqlite_std_file::{File, OpenError};
use std::alloc::Global;
use std::io;
use thiserror::Error;

/// Why the files of a database aren't opened.
#[derive(Clone, Copy, Debug, PartialEq, Eq, Error)]
pub enum FileFault {
    /// Another program has one of them open, or another handle of this one.
    #[error("another program has it open")]
    InUse,
    /// Their folder isn't there.
    #[error("there is no such folder")]
    NoFolder,
    /// The program may not open or make one of them.
    #[error("permission denied")]
    NoPermission,
    /// The disk has no room, or the user's part of it.
    #[error("the disk has no room")]
    NoRoom,
    /// One of them is a folder or a device, or has several names, or the log's name is that of a link.
    #[error("it is a folder, a device or a link, or has several names")]
    NotAFile,
    /// SQLite left a rollback journal beside them, which only SQLite can play back, or its name is that of no file.
    #[error("SQLite left a rollback journal beside it, which sqlite3 plays back")]
    HotJournal,
    /// One of them has more bytes than may be read.
    #[error("it has too many bytes")]
    TooLarge,
    /// Memory was refused.
    #[error("out of memory")]
    Memory,
    /// One of them can't be opened, locked, read, written or synced for another reason: perhaps the disk has failed.
    #[error("it can't be opened, locked, read, written or synced")]
    Failed,
}

impl From<OpenError> for FileFault {
    ghost from_gives = { λ error fault. fault ≡ of_opening error };

    fn from(error: OpenError) -> FileFault {
        match error {
            OpenError::Io(error) => of_kind(error.kind()),
            OpenError::OutOfMemory => FileFault::Memory,
            OpenError::Busy => FileFault::InUse,
            OpenError::HotJournal => FileFault::HotJournal,
        }
    }
}

impl From<DiskOpenFault> for FileFault {
    ghost from_gives = { λ of_file fault. fault ≡ of_disk of_file };

    fn from(fault: DiskOpenFault) -> FileFault {
        match fault {
            DiskOpenFault::Memory => FileFault::Memory,
            DiskOpenFault::TooLarge => FileFault::TooLarge,
            DiskOpenFault::Failed(DeviceFault::NoRoom) => FileFault::NoRoom,
            DiskOpenFault::Failed(DeviceFault::Failed) => FileFault::Failed,
        }
    }
}

// Why the files aren't opened, where a call of the system failed so.
fn of_kind(kind: io::ErrorKind) -> FileFault
    ensures { result ≡ kind_fault kind }
{
    match kind {
        io::ErrorKind::NotFound | io::ErrorKind::NotADirectory => FileFault::NoFolder,
        io::ErrorKind::PermissionDenied | io::ErrorKind::ReadOnlyFilesystem => {
            FileFault::NoPermission
        }
        io::ErrorKind::StorageFull | io::ErrorKind::QuotaExceeded => FileFault::NoRoom,
        io::ErrorKind::IsADirectory | io::ErrorKind::Unsupported => FileFault::NotAFile,
        io::ErrorKind::OutOfMemory => FileFault::Memory,
        _ => FileFault::Failed,
    }
}

// Why a call of a file failed.
impl From<io::Error> for DeviceFault {
    ghost from_gives = { λ error fault. fault ≡ device_fault error };

    fn from(error: io::Error) -> DeviceFault {
        if is_no_room(&error) {
            return DeviceFault::NoRoom;
        }
        DeviceFault::Failed
    }
}

impl From<io::Error> for ReadFault {
    ghost from_gives = { λ _ fault. fault ≡ read.Failed };

    fn from(_: io::Error) -> ReadFault {
        ReadFault::Failed
    }
}

impl From<DeviceFault> for ReadFault {
    ghost from_gives = { λ _ fault. fault ≡ read.Failed };

    fn from(_: DeviceFault) -> ReadFault {
        ReadFault::Failed
    }
}

/// An open file of a database, which no other handle has open, of this process or another: it holds the lock that
/// SQLite asks for, so that sqlite3 finds the database locked.
#[derive(Drop)]
pub struct HostFile {
    file: File,
    // What succeeded: that each call is noted as it was is trusted.
    notes: Notes,
}

impl HostFile {
    /// The file, of which nothing was asked yet.
    pub(crate) fn over(alloc: Global, file: File) -> HostFile {
        HostFile {
            file,
            notes: Notes::new(alloc),
        }
    }

    // Fails once a sync has failed: nothing more is asked of the file then.
    fn test(&self) -> Result<(), DeviceFault>
        ensures { OnOk result (IsTrue (⟦<File as Disk>⟧.is_usable self.now.file)) }
    {
        if !self.file.may_be_used() {
            return Err(DeviceFault::Failed);
        }
        Ok(())
    }
}

impl Backing for HostFile {
    ghost told = { λ f. told_by f.notes.sizes.items };

    ghost found = { λ f. found_by f.notes.calls.items };

    ghost given = { λ f. given_by f.notes.calls.items };

    ghost kept = { λ f. kept_by f.notes.syncs.items };

    fn size(&mut self) -> Result<u64, DeviceFault> {
        self.test()?;
        let size = self.file.len()? as u64;
        self.notes.add_size(size);
        Ok(size)
    }

    fn read_all(&mut self, alloc: Global, len: usize) -> Result<Vec<u8>, ReadFault> {
        let mut bytes = vec![in alloc; 0; len]?;
        self.test()?;
        self.file.read_at(0, &mut bytes)?;
        self.notes.add_read(&bytes);
        Ok(bytes)
    }

    fn rewrite(&mut self, bytes: &Vec<u8>) -> Result<(), DeviceFault> {
        self.test()?;
        self.file.write_at(0, bytes)?;
        self.notes.add_rewrite(bytes);
        Ok(())
    }

    fn write_part(&mut self, copy: &Vec<u8>, at: usize, len: usize) -> Result<(), DeviceFault> {
        self.test()?;
        self.file.write_at(at, &copy[at..at + len])?;
        self.notes.add_write(copy, at, len);
        Ok(())
    }

    fn resize(&mut self, len: usize) -> Result<(), DeviceFault> {
        self.test()?;
        self.file.set_len(len)?;
        self.notes.add_resize(len);
        Ok(())
    }

    fn sync_all(&mut self) -> Result<(), DeviceFault> {
        self.test()?;
        self.file.sync()?;
        self.notes.add_sync();
        Ok(())
    }
}
