//! A file of the operating system.
ghost use Rattle.std.specs.Prelude.{◌≡◌};
ghost use Rattle.xa_log_file.specs.FileNotes.{log_found_by, log_given_by, log_kept_by, log_told_by};

use crate::device::{LogDeviceFault, LogReadFault};
use crate::mirrored::LogBacking;
use crate::notes::Notes;
use std::alloc::Global;
use std::fs::OpenOptions;
use std::os::unix::fs::FileExt;
use std::os::unix::io::AsRawFd;
use std::{fs, io};

/// An open file, which no other handle has open as a log, of this process or another.
#[derive(Drop)]
pub struct LogHostFile {
    file: fs::File,
    failure: Option<io::ErrorKind>,
    // What succeeded: that each call is noted as it was is trusted.
    notes: Notes,
}

/// The handle, where it isn't that of standard input, output or error: where one of these is closed, the next file to
/// be opened takes its place, and what the program prints goes into that file.
pub(crate) fn beside_streams(file: fs::File) -> io::Result<fs::File> {
    if file.as_raw_fd() <= 2 {
        return Err(io::ErrorKind::NotConnected.into());
    }
    Ok(file)
}

impl LogHostFile {
    /// Opens the file at the path, which has to be there. One that is open as a log already is `WouldBlock`. Where
    /// standard input, output or error is closed, it is `NotConnected`.
    pub fn open(rt: &HostRuntime, path: &str) -> io::Result<LogHostFile> {
        let file = OpenOptions::new().read(true).write(true).open(rt, path)?;
        LogHostFile::locked(beside_streams(file)?)
    }

    /// Makes the file at the path, where none may be, and has its folder keep its name: the folder is that of the path.
    /// Where standard input, output or error is closed, it is `NotConnected`, and nothing is made.
    pub fn create(rt: &HostRuntime, path: &str, folder: &str) -> io::Result<LogHostFile> {
        let folder = beside_streams(fs::File::open(rt, folder)?)?;
        let file = fs::File::create_new(rt, path)?;
        folder.sync_all()?;
        LogHostFile::locked(file)
    }

    fn locked(file: fs::File) -> io::Result<LogHostFile> {
        file.try_lock()?;
        Ok(LogHostFile {
            file,
            failure: None,
            notes: Notes::new(),
        })
    }

    /// Why the last call that failed did.
    pub fn failure(&self) -> Option<io::ErrorKind> {
        self.failure
    }

    // Remembers why a call failed.
    fn failed(&mut self, error: &io::Error) -> LogDeviceFault
        ensures same { self.new ≡ record self.old { failure = self.new.failure } }
    {
        self.failure = Some(error.kind());
        LogDeviceFault
    }
}

impl LogBacking for LogHostFile {
    ghost told = { λ f. log_told_by f.notes.sizes.items };

    ghost found = { λ f. log_found_by f.notes.calls.items };

    ghost given = { λ f. log_given_by f.notes.calls.items };

    ghost kept = { λ f. log_kept_by f.notes.syncs.items };

    fn size(&mut self) -> Result<u64, LogDeviceFault> {
        let found = match self.file.metadata() {
            Ok(found) => found,
            Err(error) => return Err(self.failed(&error)),
        };
        let size = found.len();
        self.notes.add_size(size);
        Ok(size)
    }

    fn read_all(&mut self, alloc: Global, len: usize) -> Result<Vec<u8>, LogReadFault> {
        let mut bytes = vec![in alloc; 0; len]?;
        if let Err(error) = self.file.read_exact_at(&mut bytes, 0) {
            self.failed(&error);
            return Err(LogReadFault::Failed);
        }
        self.notes.add_read(&bytes);
        Ok(bytes)
    }

    fn rewrite(&mut self, bytes: &Vec<u8>) -> Result<(), LogDeviceFault> {
        if let Err(error) = self.file.write_all_at(bytes, 0) {
            return Err(self.failed(&error));
        }
        self.notes.add_rewrite(bytes);
        Ok(())
    }

    fn write_part(&mut self, copy: &Vec<u8>, at: usize, len: usize) -> Result<(), LogDeviceFault> {
        let part = &copy[at..at + len];
        if let Err(error) = self.file.write_all_at(part, at as u64) {
            return Err(self.failed(&error));
        }
        self.notes.add_write(copy, at, len);
        Ok(())
    }

    fn sync_all(&mut self) -> Result<(), LogDeviceFault> {
        if let Err(error) = self.file.sync_data() {
            return Err(self.failed(&error));
        }
        self.notes.add_sync();
        Ok(())
    }
}
