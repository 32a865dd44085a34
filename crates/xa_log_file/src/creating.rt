//! A new log in an empty file.
ghost use Rattle.std.specs.Prelude.{◌≡◌, ◌≢◌, ◌⊎◌, ◌≤◌, ◌*◌, ◌++◌, [], None, drop, replicate};
ghost use Rattle.std.specs.Prelude.{IfOk, IfErr, OnOk};
ghost use Rattle.xa_log_file.specs.declared.slot.LogSlot.TheVariants.{Free};
ghost use Rattle.xa_log_file.specs.declared.condition.Condition.TheVariants.{Ready};
ghost use Rattle.xa_log_file.specs.declared.creating.CreateFault.TheVariants.{NotEmpty, Memory, Failed};
ghost use Rattle.xa_log_file.specs.Device.{Only, LeavesOnly};
ghost use Rattle.xa_log_file.specs.RecordBytes.{head};
ghost use Rattle.xa_log_file.specs.Slots.{StandsFor, IsNewLog, free_slots};

use crate::condition::Condition;
use crate::device::{Device, LogDeviceFault, LogReadFault};
use crate::file_log::FileLog;
use crate::layout::{HEAD, SLOT};
use crate::opening::head_of;
use crate::slot_table::SlotTable;
use crate::synced::put;
use std::alloc::{AllocError, Global};

/// Why no log is made.
#[derive(Clone, Copy, Debug, PartialEq, Eq)]
pub enum CreateFault {
    /// There was no memory. The file is left as it was.
    Memory,
    /// The device failed.
    Failed,
    /// The file has bytes already. It is left as it was.
    NotEmpty,
}

fn fault_of(fault: LogReadFault) -> CreateFault
    ensures { (result ≡ Memory) ⊎ (result ≡ Failed) }
{
    match fault {
        LogReadFault::Memory => CreateFault::Memory,
        LogReadFault::Failed => CreateFault::Failed,
    }
}

// The bytes of a file with no record, but for the first.
fn later_bytes(alloc: Global, slots: u32) -> Result<Vec<u8>, AllocError>
    requires { slots ≤ 65536 }
    ensures { IfOk result (λ v. v.items ≡ drop 1 (head slots) ++ replicate (94 * slots) 0) }
{
    let head = head_of(slots);
    let len = HEAD + SLOT * slots as usize;
    let mut bytes = Vec::with_capacity(alloc, len)?;
    bytes.extend_from_slice(&head[1..])?;
    bytes.resize(len - 1, 0)?;
    Ok(bytes)
}

// Writes a file without a record. The first byte of its head comes last, once all else is on the disk: so until then
// it is no log, whatever a crash makes of the rest.
fn write_new<D: Device>(device: &mut D, slots: u32, later: &[u8]) -> Result<(), LogDeviceFault>
    requires few { slots ≤ 65536 }
    requires empty { D.seen device.old ≡ [] }
    requires durable { Only [] (D.may_leave device.old) }
    requires later { later.now ≡ drop 1 (head slots) ++ replicate (94 * slots) 0 }
    ensures written { OnOk result (StandsFor (free_slots slots) (D.seen device.new)) }
    ensures durable { OnOk result (Only (D.seen device.new) (D.may_leave device.new)) }
    ensures any_moment { LeavesOnly D.moment D.left_since device.old device.new (IsNewLog slots) }
{
    device.write_at(0, &[0])?;
    device.sync()?;
    device.write_at(1, later)?;
    device.sync()?;
    put(device, 0, b"x")?;
    Ok(())
}

/// Makes a log without a record in an empty file, with so many slots, at most 65536. A crash at any moment leaves what
/// is no log, or a log without a record. An `Err` hands the file back.
pub fn create<D: Device>(
    alloc: Global,
    device: D,
    slots: u32,
) -> Result<FileLog<D>, (CreateFault, D)>
    requires durable { Only (D.seen device) (D.may_leave device) }
    requires few { slots ≤ 65536 }
    ensures empty { IfOk result (λ _. D.seen device ≡ []) }
    ensures created { IfOk result (λ log. StandsFor (free_slots slots) (D.seen log.device)) }
    ensures table { IfOk result (λ log. log.table.slots.items ≡ replicate slots Free) }
    ensures ready { IfOk result (λ log. log.condition ≡ Ready) }
    ensures failures { IfOk result (λ log. log.failures ≡ 0) }
    ensures not_empty { IfErr result (λ e. e.0 ≡ NotEmpty → D.seen device ≢ []) }
    ensures any_moment { IfOk result (λ log.
        LeavesOnly D.moment D.left_since device log.device (IsNewLog slots)) }
    ensures any_moment_err { IfErr result (λ e.
        LeavesOnly D.moment D.left_since device e.1 (λ c. (c ≡ D.seen device) ⊎ IsNewLog slots c)) }

    // But where the device failed, the file is left as it was.
    ensures kept { IfErr result (λ e. e.0 ≢ Failed
        → LeavesOnly D.moment D.left_since device e.1 (λ c. c ≡ D.seen device)) }
{
    let mut device = device;
    match device.read(alloc) {
        Ok(bytes) if bytes.is_empty() => {}
        Ok(_) => return Err((CreateFault::NotEmpty, device)),
        Err(fault) => return Err((fault_of(fault), device)),
    }
    let table = SlotTable::new(alloc, slots as usize);
    let (Ok(table), Ok(later)) = (table, later_bytes(alloc, slots)) else {
        return Err((CreateFault::Memory, device));
    };
    let Ok(()) = write_new(&mut device, slots, &later) else {
        return Err((CreateFault::Failed, device));
    };
    Ok(FileLog {
        device,
        table,
        condition: Condition::Ready,
        failures: 0,
    })
}
