//! Opening a file that a crash may have left.
ghost use Rattle.std.specs.Prelude.{◌≡◌, ◌≢◌, ◌⊎◌, ◌+◌, ◌*◌, ◌<◌, ◌≤◌, length, Option};
ghost use Rattle.std.specs.Prelude.{IfOk, IfErr, IfNone, IfSome, None, Some, take, true, false};
ghost use Rattle.xa_log.specs.declared.log.CommitRecord.{CommitRecord};
ghost use Rattle.xa_log.specs.Log.{Records};
ghost use Rattle.xa_log_file.specs.declared.condition.Condition.TheVariants.{Ready};
ghost use Rattle.xa_log_file.specs.declared.opening.LogOpenFault.TheVariants.{Memory, Failed, NotALog, Damaged};
ghost use Rattle.xa_log_file.specs.Device.{Only, LeavesOnly};
ghost use Rattle.xa_log_file.specs.RecordBytes.{head};
ghost use Rattle.xa_log_file.specs.declared.slot.LogSlot.TheVariants.{Free};
ghost use Rattle.xa_log_file.specs.Slots.{slot, IsHeaded, IsSlotOf, StandsFor, HasRecords, IsNoLog, MayBeLog};
ghost use Rattle.xa_log_file.specs.Memory.{HasNoneForgotten, table_of, records_in};

use crate::condition::Condition;
use crate::device::{Device, LogDeviceFault, LogReadFault};
use crate::file_log::FileLog;
use crate::layout::{HEAD, MOST, OPEN, SHUT, SLOT};
use crate::slot_table::SlotTable;
use crate::spelling::read_body;
use std::alloc::{AllocError, AllocFailed, Global};
use xa_log::CommitRecord;

/// Why a file isn't opened. It is left as it was.
#[derive(Clone, Copy, Debug, PartialEq, Eq)]
pub enum LogOpenFault {
    Memory,
    /// The device failed.
    Failed,
    /// Its head or its size isn't that of a log.
    NotALog,
    /// The gate of a slot is neither open nor shut, an open one has bytes that spell no record, or two are of one
    /// transaction.
    Damaged,
}

impl From<AllocError> for LogOpenFault {
    ghost from_gives = { λ _ e. e ≡ Memory };

    fn from(_: AllocError) -> Self {
        LogOpenFault::Memory
    }
}

impl<T: Drop> From<AllocFailed<T>> for LogOpenFault {
    ghost from_gives = { λ _ e. e ≡ Memory };

    fn from(_: AllocFailed<T>) -> Self {
        LogOpenFault::Memory
    }
}

impl From<LogReadFault> for LogOpenFault {
    ghost from_gives = { λ _ e. (e ≡ Memory) ⊎ (e ≡ Failed) };

    fn from(fault: LogReadFault) -> Self {
        match fault {
            LogReadFault::Memory => LogOpenFault::Memory,
            LogReadFault::Failed => LogOpenFault::Failed,
        }
    }
}

impl From<LogDeviceFault> for LogOpenFault {
    ghost from_gives = { λ _ e. e ≡ Failed };

    fn from(_: LogDeviceFault) -> Self {
        LogOpenFault::Failed
    }
}

/// The head of a file of so many slots.
pub(crate) fn head_of(count: u32) -> [u8; HEAD]
    ensures { result ≡ head count }
{
    let [a, b, c, d] = count.to_be_bytes();
    [
        b'x', b'a', b' ', b'd', b'e', b'c', b'i', b's', b'i', b'o', b'n', b's', b' ', b'1', a, b,
        c, d,
    ]
}

// The bytes of a slot.
fn slot_of(bytes: &[u8], place: usize) -> &[u8]
    requires few { place < 65536 }
    requires within { 18 + 94 * (place + 1) ≤ length bytes.now }
    ensures bytes { result.now ≡ slot place bytes.now }
    ensures size { length result.now ≡ 94 }
{
    let (_, rest) = bytes.split_at(HEAD + SLOT * place);
    let (slot, _) = rest.split_at(SLOT);
    slot
}

// The record of a slot, or that it has none; nothing where it is damaged.
fn read_slot(slot: &[u8]) -> Option<Option<CommitRecord>>
    requires { length slot.now ≡ 94 }
    ensures found { IfSome result (λ found. IsSlotOf found slot.now) }
    ensures damaged { result ≡ None → (o : Option CommitRecord) → IsSlotOf o slot.now → ⊥ }
{
    let gate = slot[0];
    if gate == SHUT {
        return Some(None);
    }
    if gate != OPEN {
        return None;
    }
    read_body(&slot[1..]).map(Some)
}

// The record of each slot of a file, where it has one.
fn read_slots(alloc: Global, bytes: &[u8], count: usize) -> Result<SlotTable, LogOpenFault>
    requires few { count ≤ 65536 }
    requires size { length bytes.now ≡ 18 + 94 * count }
    requires header { take 18 bytes.now ≡ head count }
    ensures stands { IfOk result (λ table. StandsFor (table_of table.slots.items) bytes.now) }
    ensures none_forgotten { IfOk result (λ table. HasNoneForgotten table.slots.items) }
    ensures refused { IfErr result (λ fault. fault ≢ Memory → IsNoLog bytes.now) }
{
    let mut table = SlotTable::new(alloc, count)?;
    for place in 0..count {
        let Some(found) = read_slot(slot_of(bytes, place)) else {
            return Err(LogOpenFault::Damaged);
        };
        if let Some(record) = found {
            if table.place_of(&record.tran).is_some() {
                return Err(LogOpenFault::Damaged);
            }
            table.take(place, record);
        }
    }
    Ok(table)
}

// How many slots a file has, where its size and its head are those of a log.
fn count_of(bytes: &[u8]) -> Option<usize>
    ensures headed { IfSome result (λ count. IsHeaded count bytes.now) }
    ensures none { IfNone result (IsNoLog bytes.now) }
{
    if bytes.len() < HEAD {
        return None;
    }
    let count = (bytes.len() - HEAD) / SLOT;
    if count > MOST || bytes.len() != HEAD + SLOT * count {
        return None;
    }
    let (front, _) = bytes.split_at(HEAD);
    if front != head_of(count as u32).as_slice() {
        return None;
    }
    Some(count)
}

/// Whether a file with these bytes is empty or begins as a log; another is none.
pub(crate) fn may_be_log(bytes: &[u8]) -> bool
    ensures so { result ≡ true → MayBeLog bytes.now }
    ensures not { result ≡ false → IsNoLog bytes.now }
{
    match count_of(bytes) {
        Some(_) => true,
        None => bytes.is_empty(),
    }
}

fn read_table(alloc: Global, bytes: &[u8]) -> Result<SlotTable, LogOpenFault>
    ensures stands { IfOk result (λ table. StandsFor (table_of table.slots.items) bytes.now) }
    ensures none_forgotten { IfOk result (λ table. HasNoneForgotten table.slots.items) }
    ensures refused { IfErr result (λ fault. fault ≢ Memory → IsNoLog bytes.now) }
{
    let Some(count) = count_of(bytes) else {
        return Err(LogOpenFault::NotALog);
    };
    read_slots(alloc, bytes, count)
}

/// Opens a file that a crash may have left. It writes nothing, so a crash leaves what was there, and an `Err` hands the
/// file back.
pub fn open<D: Device>(alloc: Global, device: D) -> Result<FileLog<D>, (LogOpenFault, D)>
    // After a restart, what is read is what is on the disk.
    requires { Only (D.seen device) (D.may_leave device) }

    // It has exactly the records that the file stands for.
    ensures opened { IfOk result (λ log. StandsFor (table_of log.table.slots.items) (D.seen device)) }
    ensures reads { IfOk result (λ log. (records : Records) → HasRecords records (D.seen device)
        → records_in log.table.slots.items ≡ records) }
    ensures none_forgotten { IfOk result (λ log. HasNoneForgotten log.table.slots.items) }
    ensures seen { IfOk result (λ log. D.seen log.device ≡ D.seen device) }
    ensures ready { IfOk result (λ log. log.condition ≡ Ready) }
    ensures failures { IfOk result (λ log. log.failures ≡ 0) }

    // A file that stands for records isn't refused for what it has.
    ensures not_a_log { IfErr result (λ e. e.0 ≡ NotALog → IsNoLog (D.seen device)) }
    ensures damaged { IfErr result (λ e. e.0 ≡ Damaged → IsNoLog (D.seen device)) }
    ensures any_moment { IfOk result (λ log.
        LeavesOnly D.moment D.left_since device log.device (λ c. c ≡ D.seen device)) }
    ensures any_moment_err { IfErr result (λ e.
        LeavesOnly D.moment D.left_since device e.1 (λ c. c ≡ D.seen device)) }
{
    let mut device = device;
    let bytes = match device.read(alloc) {
        Ok(bytes) => bytes,
        Err(fault) => return Err((LogOpenFault::from(fault), device)),
    };
    match read_table(alloc, &bytes) {
        Ok(table) => Ok(FileLog {
            device,
            table,
            condition: Condition::Ready,
            failures: 0,
        }),
        Err(fault) => Err((fault, device)),
    }
}
