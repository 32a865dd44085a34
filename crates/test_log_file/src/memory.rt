//! Logs over the file in memory, their records, and what they are asked.
ghost use Rattle.std.specs.Prelude.{◌≤◌};

use crate::tape::Tape;
use std::alloc::Global;
use std::process::Abort;
use xa_log::{CommitRecord, DecisionLog, DecisionRecords, LogFault};
use xa_log_file::{CreateFault, Device, FileLog, LogOpenFault, Mirrored, create, open};
use xa_words::{ManagerSet, Tran};

/// A log over the file in memory.
pub(crate) type Log = FileLog<Mirrored<Tape>>;

/// How many slots a small file has.
pub(crate) const SLOTS: u32 = 3;

/// A gate and a body.
pub(crate) const SLOT: usize = 94;

const HEAD: &[u8; 18] = b"xa decisions 1\0\0\0\x03";

/// A file without a record.
pub(crate) fn empty(rt: &impl Abort, alloc: Global) -> Vec<u8> {
    let mut bytes = HEAD.to_vec(alloc).expect(rt, "memory");
    bytes
        .resize(18 + SLOT * SLOTS as usize, 0)
        .expect(rt, "memory");
    bytes
}

// ---- records

/// The managers 1, 3 and 8.
pub(crate) fn yes() -> ManagerSet {
    ManagerSet::of([true, false, true, false, false, false, false, true])
}

pub(crate) fn record(rt: &impl Abort, gtrid: &[u8]) -> CommitRecord {
    CommitRecord {
        tran: Tran::new(-7, gtrid).expect(rt, "a gtrid"),
        yes: yes(),
    }
}

pub(crate) fn numbered(rt: &impl Abort, number: u32) -> CommitRecord {
    record(rt, &number.to_be_bytes())
}

// ---- logs

/// A log over the file, or why it isn't opened, and the file.
pub(crate) fn open_tape(alloc: Global, tape: Tape) -> Result<Log, (LogOpenFault, Tape)> {
    let device = Mirrored::new(alloc, tape)?;
    match open(alloc, device) {
        Ok(log) => Ok(log),
        Err((fault, device)) => Err((fault, device.into_file())),
    }
}

/// A log over these bytes, whose k-th call fails. The first two calls are those of the opening.
pub(crate) fn opened(rt: &impl Abort, alloc: Global, bytes: &[u8], fails: u32) -> Log {
    match open_tape(alloc, Tape::of(rt, alloc, bytes, fails)) {
        Ok(log) => log,
        Err(_) => panic!(rt; "no log"),
    }
}

/// Why these bytes aren't opened.
pub(crate) fn fault_of(rt: &impl Abort, alloc: Global, bytes: &[u8]) -> Option<LogOpenFault> {
    match open_tape(alloc, Tape::of(rt, alloc, bytes, 0)) {
        Ok(_) => None,
        Err((fault, _)) => Some(fault),
    }
}

/// A new log over these bytes, whose k-th call fails, or why none is made, and the file.
pub(crate) fn create_over(
    rt: &impl Abort,
    alloc: Global,
    bytes: &[u8],
    fails: u32,
    slots: u32,
) -> Result<Log, (CreateFault, Tape)>
    requires { slots ≤ 65536 }
{
    let Ok(device) = Mirrored::new(alloc, Tape::of(rt, alloc, bytes, fails)) else {
        panic!(rt; "no device");
    };
    match create(alloc, device, slots) {
        Ok(log) => Ok(log),
        Err((fault, device)) => Err((fault, device.into_file())),
    }
}

/// A new log of so many slots.
pub(crate) fn created(rt: &impl Abort, alloc: Global, slots: u32) -> Log
    requires { slots ≤ 65536 }
{
    match create_over(rt, alloc, &[], 0, slots) {
        Ok(log) => log,
        Err(_) => panic!(rt; "no new log"),
    }
}

/// The file of a log.
pub(crate) fn file_of(log: Log) -> Tape {
    log.into_device().into_file()
}

/// What a log leaves on the disk.
pub(crate) fn durable_of(log: Log) -> Vec<u8> {
    file_of(log).durable
}

// ---- what they are asked

/// What a log that is known has.
pub(crate) fn found<D: Device>(log: &FileLog<D>, record: &CommitRecord) -> Option<ManagerSet> {
    if !log.is_known() {
        return None;
    }
    log.has(&record.tran)
}

/// Whether the log is known and has the record.
pub(crate) fn has<D: Device>(log: &FileLog<D>, record: &CommitRecord) -> bool {
    found(log, record) == Some(yes())
}

/// Whether the log has no record of the transaction, or isn't known.
pub(crate) fn lacks<D: Device>(log: &FileLog<D>, record: &CommitRecord) -> bool {
    found(log, record).is_none()
}

/// An append to a log that is known and has no record of the transaction.
pub(crate) fn added<D: Device>(
    log: &mut FileLog<D>,
    record: &CommitRecord,
) -> Result<(), LogFault> {
    if !log.is_known() || log.has(&record.tran).is_some() {
        return Err(LogFault::Unknown);
    }
    log.append(record)
}

/// Whether such an append is taken.
pub(crate) fn takes<D: Device>(log: &mut FileLog<D>, record: &CommitRecord) -> bool {
    added(log, record) == Ok(())
}

/// Whether such an append is refused.
pub(crate) fn refuses<D: Device>(log: &mut FileLog<D>, record: &CommitRecord) -> bool {
    added(log, record) == Err(LogFault::Refused)
}

/// Has a log that is known forget the record.
pub(crate) fn forget(log: &mut Log, record: &CommitRecord) {
    if log.is_known() {
        log.forget(&record.tran);
    }
}

/// Has a log that is known forget all but these.
pub(crate) fn keep_only(log: &mut Log, trans: &[Tran]) {
    if log.is_known() {
        log.keep_only(trans);
    }
}
