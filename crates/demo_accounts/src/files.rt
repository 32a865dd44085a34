//! The files of the folder: a decision log for each teller, and the number of the next day.
//!
//! The folder is locked before any of them is touched. `next-day` is made once all logs are there, so a folder that has
//! it has had each log: one that is missing is lost, and isn't made anew. Where it isn't there the folder is new, or
//! the program was ended as it made the logs.
ghost use Rattle.std.specs.Prelude.{◌≡◌, ◌^◌, ◌<◌, IfOk, length};
ghost use Rattle.xa_log_file.specs.declared.condition.Condition.TheVariants.{Ready};

use crate::fault::{Fault, Place};
use crate::numbers::{DAYS, TELLERS};
use std::fs;
use std::io::{ErrorKind, Write};
use xa_log::DecisionRecords;
use xa_log_file::{Device, DiskLog, FileLog, FolderFault, LogFolder};

// How many records a log has room for.
const SLOTS: u32 = 1024;

/// Opens the folder, which no other program has open then.
pub fn open_folder(rt: &HostRuntime, path: &str) -> Result<LogFolder, Fault> {
    LogFolder::open(rt, path).map_err(|fault| Fault::File(Place::Folder, fault))
}

// The teller's log. One that isn't there is made in a new folder alone.
fn log_of(
    rt: &HostRuntime,
    folder: &LogFolder,
    teller: u32,
    is_new: bool,
) -> Result<DiskLog, FolderFault>
    ensures ready { IfOk result (λ log. log.condition ≡ Ready) }
{
    let name = format!(in rt.alloc(); "teller-{teller}.log")?;
    if is_new && !folder.has(rt, &name)? {
        return folder.create_log(rt, &name, SLOTS);
    }
    folder.open_log(rt, &name)
}

// Whether the log has a record, or nobody knows which it has.
fn has_records<D: Device>(log: &FileLog<D>) -> bool {
    if !log.is_known() {
        return true;
    }
    for place in 0..log.slots() {
        if log.record_at(place).is_some() {
            return true;
        }
    }
    false
}

/// The log of each teller. They are made in a new folder, which then has a first day.
pub fn logs_of(rt: &HostRuntime, folder: &LogFolder) -> Result<Vec<DiskLog>, Fault>
    ensures { IfOk result (λ logs. length logs.items ≡ 4) }
{
    let alloc = rt.alloc();
    let is_new = next_day(rt, folder)?.is_none();
    let mut logs = Vec::new(alloc);
    for place in 0..TELLERS {
        let teller = place + 1;
        let log = log_of(rt, folder, teller, is_new);
        logs.push(log.map_err(|fault| Fault::File(Place::Log(teller), fault))?)?;
    }
    if is_new {
        if logs.iter().any(|log| has_records(log)) {
            return Err(of_next_day(FolderFault::Missing));
        }
        put_next_day(rt, folder, 0)?;
    }
    Ok(logs)
}

fn of_next_day(fault: FolderFault) -> Fault {
    Fault::File(Place::NextDay, fault)
}

// The number in the file, or nothing where there is no file.
fn number_in(rt: &HostRuntime, path: &str) -> Result<Option<u32>, FolderFault> {
    let bytes = match fs::read(rt, path) {
        Ok(bytes) => bytes,
        Err(error) if error.kind() == ErrorKind::NotFound => return Ok(None),
        Err(error) => return Err(FolderFault::from(error)),
    };
    let Ok(bytes) = <[u8; 4]>::try_from(bytes.as_slice()) else {
        return Err(FolderFault::Damaged);
    };
    Ok(Some(u32::from_be_bytes(bytes)))
}

// The number of the next day, or nothing in a new folder.
fn next_day(rt: &HostRuntime, folder: &LogFolder) -> Result<Option<u32>, Fault> {
    let path = folder.path();
    let path = format!(in rt.alloc(); "{path}/next-day")?;
    number_in(rt, &path).map_err(of_next_day)
}

// Has the disk keep the number in a new file at the path, in place of one that an earlier run left unfinished. A
// symbolic link there isn't followed.
fn put_number(rt: &HostRuntime, path: &str, number: u32) -> Result<(), FolderFault> {
    match fs::remove_file(rt, path) {
        Ok(()) => {}
        Err(error) if error.kind() == ErrorKind::NotFound => {}
        Err(error) => return Err(FolderFault::from(error)),
    }
    let mut file = fs::File::create_new(rt, path)?;
    file.write_all(&number.to_be_bytes())?;
    file.sync_all()?;
    Ok(())
}

// Has the disk keep the number, first under another name.
fn keep_number(rt: &HostRuntime, folder: &LogFolder, number: u32) -> Result<(), FolderFault> {
    let alloc = rt.alloc();
    let path = folder.path();
    let path = format!(in alloc; "{path}/next-day")?;
    let unfinished = format!(in alloc; "{path}.new")?;
    put_number(rt, &unfinished, number)?;
    fs::rename(rt, &unfinished, &path)?;
    folder.keep_names()
}

// Has the disk keep the number of the next day.
fn put_next_day(rt: &HostRuntime, folder: &LogFolder, number: u32) -> Result<(), Fault> {
    keep_number(rt, folder, number).map_err(of_next_day)
}

/// The number of a day that the folder hasn't had, whatever became of the program on the days before.
pub fn new_day(rt: &HostRuntime, folder: &LogFolder) -> Result<u32, Fault>
    ensures { IfOk result (λ day. day < 2 ^ 26) }
{
    let Some(day) = next_day(rt, folder)? else {
        return Err(of_next_day(FolderFault::Missing));
    };
    if day >= DAYS {
        return Err(Fault::Worn);
    }
    put_next_day(rt, folder, day + 1)?;
    Ok(day)
}
