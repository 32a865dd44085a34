//! The two files of a database.
ghost use Rattle.std.specs.Prelude.{◌≡◌, IfOk, IsTrue};
ghost use Rattle.sqlite_disk.specs.Disk.{Only};

use crate::backing::Backing;
use crate::host::{FileFault, HostFile};
use crate::write_through::WriteThrough;
use sqlite_disk::{Disk, Files, Unknown};
use std::alloc::Global;

/// The log and the database file of a database, in files of the operating system.
pub type DiskFiles = Files<WriteThrough<HostFile>>;

// The disk over a file.
fn disk_over(
    alloc: Global,
    file: HostFile,
    most: usize,
) -> Result<WriteThrough<HostFile>, FileFault>
    ensures durable { IfOk result (λ disk. Only (⟦<WriteThrough<HostFile> as Disk>⟧.seen disk)
        (⟦<WriteThrough<HostFile> as Disk>⟧.may_leave disk)) }
    ensures usable { IfOk result (λ disk. IsTrue (⟦<WriteThrough<HostFile> as Disk>⟧.is_usable disk)) }
    ensures found { IfOk result (λ disk. ⟦<WriteThrough<HostFile> as Disk>⟧.seen disk
        ≡ ⟦<HostFile as Backing>⟧.found disk.file) }
    ensures faults { IfOk result (λ disk. ⟦<WriteThrough<HostFile> as Disk>⟧.faults disk ≡ 0) }
{
    match WriteThrough::new(alloc, file, most) {
        Ok(disk) => Ok(disk),
        Err((fault, _)) => Err(FileFault::from(fault)),
    }
}

/// Opens the database file at the path, and its log, at the path with `-wal`. Those that are missing are made, the log
/// with the permissions, owner and group of the database file where the program may set them, and the disk is asked to
/// keep their names. Each may have at most so many bytes, and is read whole. As long as one of them is open, no other
/// handle opens it, and sqlite3 finds the database locked. A path that is a link is followed.
pub fn open_files(rt: &HostRuntime, path: &str, most: usize) -> Result<DiskFiles, FileFault>
    ensures log_usable { IfOk result (λ files. IsTrue (⟦<WriteThrough<HostFile> as Disk>⟧.is_usable files.log)) }
    ensures db_usable { IfOk result (λ files. IsTrue (⟦<WriteThrough<HostFile> as Disk>⟧.is_usable files.db)) }
    ensures log { IfOk result (λ files. Only (⟦<WriteThrough<HostFile> as Disk>⟧.seen files.log)
        (⟦<WriteThrough<HostFile> as Disk>⟧.may_leave files.log)) }
    ensures db { IfOk result (λ files. Only (⟦<WriteThrough<HostFile> as Disk>⟧.seen files.db)
        (⟦<WriteThrough<HostFile> as Disk>⟧.may_leave files.db)) }
    ensures log_found { IfOk result (λ files. ⟦<WriteThrough<HostFile> as Disk>⟧.seen files.log
        ≡ ⟦<HostFile as Backing>⟧.found files.log.file) }
    ensures db_found { IfOk result (λ files. ⟦<WriteThrough<HostFile> as Disk>⟧.seen files.db
        ≡ ⟦<HostFile as Backing>⟧.found files.db.file) }
    ensures log_faults { IfOk result (λ files. ⟦<WriteThrough<HostFile> as Disk>⟧.faults files.log ≡ 0) }
    ensures db_faults { IfOk result (λ files. ⟦<WriteThrough<HostFile> as Disk>⟧.faults files.db ≡ 0) }
{
    let alloc = rt.alloc();
    let Files { log, db } = sqlite_std_file::open(rt, path, Unknown)?;
    Ok(Files {
        log: disk_over(alloc, HostFile::over(alloc, log), most)?,
        db: disk_over(alloc, HostFile::over(alloc, db), most)?,
    })
}
