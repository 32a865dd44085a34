//! A folder of logs, which one program at a time has.
//!
//! A log is made under another name, `NAME.new`, and has its own once it is whole and on the disk. So a file with a
//! log's name is whole, and what a program left that was killed as it made one is in nobody's way.
ghost use Rattle.std.specs.Prelude.{◌≡◌, ◌≤◌, IfOk, replicate};
ghost use Rattle.xa_log.specs.Log.{Records};
ghost use Rattle.xa_log_file.specs.declared.slot.LogSlot.TheVariants.{Free};
ghost use Rattle.xa_log_file.specs.declared.condition.Condition.TheVariants.{Ready};
ghost use Rattle.xa_log_file.specs.Device.{Only};
ghost use Rattle.xa_log_file.specs.DeviceHistories.{leaves};
ghost use Rattle.xa_log_file.specs.Slots.{StandsFor, HasRecords, free_slots};
ghost use Rattle.xa_log_file.specs.Memory.{HasNoneForgotten, table_of, records_in};

use crate::creating::{CreateFault, create};
use crate::file_log::FileLog;
use crate::host::{LogHostFile, beside_streams};
use crate::mirrored::Mirrored;
use crate::opening::{LogOpenFault, open};
use std::alloc::{AllocError, AllocFailed, Global};
use std::fs::OpenOptions;
use std::{fs, io};

/// A log in a file of the operating system.
pub type DiskLog = FileLog<Mirrored<LogHostFile>>;

/// Why a folder or a log isn't opened, or a log isn't made.
#[derive(Clone, Copy, Debug, PartialEq, Eq)]
pub enum FolderFault {
    /// Another program has it open, or another handle of this one.
    InUse,
    /// There is no such folder.
    NoFolder,
    /// The program may not open or make it.
    NoPermission,
    /// The disk has no room, or the user's part of it.
    NoRoom,
    /// There is a file of the log's name already.
    Exists,
    /// There is no file of the log's name.
    Missing,
    /// The file isn't a log, by its head or its size.
    NotALog,
    /// The file is a log of which a part is damaged.
    Damaged,
    /// Memory was refused.
    Memory,
    /// No log may have the name: it is empty, `.`, `..` or `lock`, has a `/`, or ends with `.new`.
    BadName,
    /// Standard input, output or error is closed. A file would take its place, and what is printed would go there.
    NoStream,
    /// It can't be opened, read or written for another reason: perhaps the disk has failed.
    Failed,
}

impl From<AllocError> for FolderFault {
    fn from(_: AllocError) -> FolderFault {
        FolderFault::Memory
    }
}

impl<T: Drop> From<AllocFailed<T>> for FolderFault {
    fn from(_: AllocFailed<T>) -> FolderFault {
        FolderFault::Memory
    }
}

impl From<io::ErrorKind> for FolderFault {
    fn from(kind: io::ErrorKind) -> FolderFault {
        match kind {
            io::ErrorKind::WouldBlock => FolderFault::InUse,
            io::ErrorKind::NotADirectory => FolderFault::NoFolder,
            io::ErrorKind::PermissionDenied | io::ErrorKind::ReadOnlyFilesystem => {
                FolderFault::NoPermission
            }
            io::ErrorKind::StorageFull | io::ErrorKind::QuotaExceeded => FolderFault::NoRoom,
            io::ErrorKind::AlreadyExists => FolderFault::Exists,
            io::ErrorKind::NotFound => FolderFault::Missing,
            io::ErrorKind::OutOfMemory => FolderFault::Memory,
            io::ErrorKind::NotConnected => FolderFault::NoStream,
            _ => FolderFault::Failed,
        }
    }
}

impl From<io::Error> for FolderFault {
    fn from(error: io::Error) -> FolderFault {
        FolderFault::from(error.kind())
    }
}

/// An open folder of logs. No other program has it open, nor another handle of this one, for as long as it lives: it
/// holds a lock on the file `lock` in the folder, which stays there.
#[derive(Drop)]
pub struct LogFolder {
    path: String,
    names: fs::File,
    lock: fs::File,
}

// Whether a log may have the name.
fn is_name(name: &str) -> bool {
    let is_taken = matches!(name, "" | "." | ".." | "lock");
    !is_taken && !name.contains('/') && !name.ends_with(".new")
}

// Why a call of a file failed.
fn device_fault(file: &LogHostFile) -> FolderFault {
    match file.failure() {
        Some(kind) => FolderFault::from(kind),
        None => FolderFault::Failed,
    }
}

// Why no log is made: the file tells why a call of it failed.
fn create_fault(fault: CreateFault, file: &LogHostFile) -> FolderFault {
    match fault {
        CreateFault::Memory => FolderFault::Memory,
        CreateFault::NotEmpty => FolderFault::Exists,
        CreateFault::Failed => device_fault(file),
    }
}

// Why a file isn't opened as a log.
fn open_fault(fault: LogOpenFault, file: &LogHostFile) -> FolderFault {
    match fault {
        LogOpenFault::Memory => FolderFault::Memory,
        LogOpenFault::NotALog => FolderFault::NotALog,
        LogOpenFault::Damaged => FolderFault::Damaged,
        LogOpenFault::Failed => device_fault(file),
    }
}

// The device of a file.
fn device_of(alloc: Global, file: LogHostFile) -> Result<Mirrored<LogHostFile>, FolderFault>
    ensures { IfOk result (λ m. Only m.bytes.items (leaves m.past.items)) }
{
    match Mirrored::new(alloc, file) {
        Ok(device) => Ok(device),
        Err((fault, file)) => Err(open_fault(fault, &file)),
    }
}

// Removes the file, if there is one. It isn't followed where it is a symbolic link.
fn remove_if_any(rt: &HostRuntime, path: &str) -> Result<(), FolderFault> {
    match fs::remove_file(rt, path) {
        Ok(()) => Ok(()),
        Err(error) if error.kind() == io::ErrorKind::NotFound => Ok(()),
        Err(error) => Err(FolderFault::from(error)),
    }
}

// A new log in a new file at the path, whose folder is this.
fn new_log(rt: &HostRuntime, path: &str, folder: &str, slots: u32) -> Result<DiskLog, FolderFault>
    requires few { slots ≤ 65536 }
    ensures created { IfOk result (λ log. StandsFor (free_slots slots) log.device.bytes.items) }
    ensures table { IfOk result (λ log. log.table.slots.items ≡ replicate slots Free) }
    ensures ready { IfOk result (λ log. log.condition ≡ Ready) }
    ensures failures { IfOk result (λ log. log.failures ≡ 0) }
{
    let alloc = rt.alloc();
    let device = device_of(alloc, LogHostFile::create(rt, path, folder)?)?;
    match create(alloc, device, slots) {
        Ok(log) => Ok(log),
        Err((fault, device)) => Err(create_fault(fault, &device.into_file())),
    }
}

impl LogFolder {
    /// Opens the folder at the path, which has to be there, and makes the file `lock` in it where there is none. It is
    /// refused, and no file is made, where standard input, output or error is closed.
    pub fn open(rt: &HostRuntime, path: &str) -> Result<LogFolder, FolderFault> {
        let names = match fs::File::open(rt, path) {
            Ok(file) => beside_streams(file)?,
            Err(error) if error.kind() == io::ErrorKind::NotFound => {
                return Err(FolderFault::NoFolder);
            }
            Err(error) => return Err(FolderFault::from(error)),
        };
        let alloc = rt.alloc();
        let lock = OpenOptions::new()
            .read(true)
            .write(true)
            .create(true)
            .open(rt, &format!(in alloc; "{path}/lock")?)?;
        if let Err(error) = lock.try_lock() {
            return Err(FolderFault::from(io::Error::from(error)));
        }
        Ok(LogFolder {
            path: String::from_str(alloc, path)?,
            names,
            lock,
        })
    }

    /// The path by which it was opened.
    pub fn path(&self) -> &str {
        &self.path
    }

    // Where a log of this name is.
    fn path_of(&self, alloc: Global, name: &str) -> Result<String, FolderFault> {
        if !is_name(name) {
            return Err(FolderFault::BadName);
        }
        let folder = &self.path;
        Ok(format!(in alloc; "{folder}/{name}")?)
    }

    /// Whether the folder has a file of this name, which a log may have.
    pub fn has(&self, rt: &HostRuntime, name: &str) -> Result<bool, FolderFault> {
        let path = self.path_of(rt.alloc(), name)?;
        match fs::symlink_metadata(rt, &path) {
            Ok(_) => Ok(true),
            Err(error) if error.kind() == io::ErrorKind::NotFound => Ok(false),
            Err(error) => Err(FolderFault::from(error)),
        }
    }

    /// Has the disk keep the names that files of the folder have now.
    pub fn keep_names(&self) -> Result<(), FolderFault> {
        self.names.sync_all()?;
        Ok(())
    }

    // Gives a file a second name, which no file may have, and takes the first.
    fn give_name(&self, rt: &HostRuntime, from: &str, to: &str) -> Result<(), FolderFault> {
        fs::hard_link(rt, from, to)?;
        fs::remove_file(rt, from)?;
        self.keep_names()
    }

    /// Makes a log of this name, with room for so many records, at most 65536. No file is written over: where there is
    /// one of the name, it is `Exists`. After an `Err` there is no file of the name but one that was there, or a whole
    /// log without a record.
    pub fn create_log(
        &self,
        rt: &HostRuntime,
        name: &str,
        slots: u32,
    ) -> Result<DiskLog, FolderFault>
        requires few { slots ≤ 65536 }
        ensures created { IfOk result (λ log. StandsFor (free_slots slots) log.device.bytes.items) }
        ensures table { IfOk result (λ log. log.table.slots.items ≡ replicate slots Free) }
        ensures ready { IfOk result (λ log. log.condition ≡ Ready) }
        ensures failures { IfOk result (λ log. log.failures ≡ 0) }
    {
        if self.has(rt, name)? {
            return Err(FolderFault::Exists);
        }
        let alloc = rt.alloc();
        let path = self.path_of(alloc, name)?;
        let unfinished = format!(in alloc; "{path}.new")?;
        remove_if_any(rt, &unfinished)?;
        let log = new_log(rt, &unfinished, &self.path, slots)?;
        self.give_name(rt, &unfinished, &path)?;
        Ok(log)
    }

    /// Opens the log of this name, with the records that its file has. It is `Missing` where there is no such file.
    pub fn open_log(&self, rt: &HostRuntime, name: &str) -> Result<DiskLog, FolderFault>
        ensures opened { IfOk result (λ log.
            StandsFor (table_of log.table.slots.items) log.device.bytes.items) }
        ensures reads { IfOk result (λ log. (records : Records) → HasRecords records log.device.bytes.items
            → records_in log.table.slots.items ≡ records) }
        ensures none_forgotten { IfOk result (λ log. HasNoneForgotten log.table.slots.items) }
        ensures ready { IfOk result (λ log. log.condition ≡ Ready) }
        ensures failures { IfOk result (λ log. log.failures ≡ 0) }
    {
        let alloc = rt.alloc();
        let path = self.path_of(alloc, name)?;
        let device = device_of(alloc, LogHostFile::open(rt, &path)?)?;
        match open(alloc, device) {
            Ok(opened) => Ok(opened),
            Err((fault, device)) => Err(open_fault(fault, &device.into_file())),
        }
    }
}
