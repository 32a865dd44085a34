//! Records into free slots, however many for two syncs.
ghost use Rattle.std.specs.Prelude.{◌≡◌, ◌<◌, ◌≤◌, ◌+◌, List, ℕ, length, OnOk, IsErr, IsErrOf};
ghost use Rattle.std.specs.List.{All};
ghost use Rattle.xa_log.specs.declared.log.LogFault.TheVariants.{Refused};
ghost use Rattle.xa_log_file.specs.Device.{LeavesOnly, Only, HasCause};
ghost use Rattle.xa_log_file.specs.RecordBytes.{IsValid};
ghost use Rattle.xa_log_file.specs.Slots.{KeepsTable, StandsFor, IsDurable};
ghost use Rattle.xa_log_file.specs.Memory.{MayShow, HasBodies, HasNoFree, HasFreeSlots, AreNewNames};
ghost use Rattle.xa_log_file.specs.Memory.{table_of, placed, coming};

use crate::device::{Device, LogDeviceFault};
use crate::layout::{HEAD, OPEN, SLOT};
use crate::slot::LogSlot;
use crate::spelling::spelled;
use xa_log::{CommitRecord, LogFault};

// Writes the bodies of all records into the first slots that are free.
fn write_bodies<D: Device>(
    device: &mut D,
    slots: &[LogSlot],
    first: usize,
    decisions: &[CommitRecord],
) -> Result<(), LogDeviceFault>
    requires stands { StandsFor (table_of slots.now) (D.seen device.old) }
    requires keeps { KeepsTable D.may_leave (table_of slots.now) device.old }
    requires none_before { HasNoFree slots.now first }
    requires first { first ≤ length slots.now }
    requires room { HasFreeSlots slots.now (length decisions.now) }
    ensures stands { OnOk result (StandsFor (table_of slots.now) (D.seen device.new)) }
    ensures bodies { OnOk result (HasBodies slots.now decisions.now (D.seen device.new)) }
    ensures keeps { KeepsTable D.may_leave (table_of slots.now) device.new }
    ensures any_moment { LeavesOnly D.moment D.left_since device.old device.new (StandsFor (table_of slots.now)) }
    ensures cause { HasCause (D.faults device.old) (D.faults device.new) result }
{
    let mut next = 0;
    for place in first..slots.len() {
        if next == decisions.len() {
            return Ok(());
        }
        if let LogSlot::Free = slots[place] {
            device.write_at(HEAD + SLOT * place + 1, &spelled(&decisions[next]))?;
            next += 1;
        }
    }
    Ok(())
}

// Opens the gates of the slots that have the bodies of all records.
fn open_gates<D: Device>(
    device: &mut D,
    slots: &[LogSlot],
    first: usize,
    decisions: &[CommitRecord],
) -> Result<(), LogDeviceFault>
    requires settled { IsDurable D.seen D.may_leave (table_of slots.now) device.old }
    requires bodies { HasBodies slots.now decisions.now (D.seen device.old) }
    requires none_before { HasNoFree slots.now first }
    requires first { first ≤ length slots.now }
    requires room { HasFreeSlots slots.now (length decisions.now) }
    requires valid { All IsValid decisions.now }
    requires new { AreNewNames slots.now decisions.now }
    ensures stands { OnOk result (StandsFor (table_of (placed slots.now decisions.now)) (D.seen device.new)) }
    ensures now { (c : List ℕ) → D.may_leave device.new c → MayShow (coming slots.now decisions.now) c }
    ensures any_moment { LeavesOnly D.moment D.left_since device.old device.new
        (MayShow (coming slots.now decisions.now)) }
    ensures cause { HasCause (D.faults device.old) (D.faults device.new) result }
{
    let mut next = 0;
    for place in first..slots.len() {
        if next == decisions.len() {
            return Ok(());
        }
        if let LogSlot::Free = slots[place] {
            device.write_at(HEAD + SLOT * place, &[OPEN])?;
            next += 1;
        }
    }
    Ok(())
}

/// Writes records into the first free slots: the bodies of all, and once these are on the disk, the gates of all.
///
/// Where the bodies can't be written all gates stay closed on the disk, so none of the records is there and the answer
/// is `Refused`; where the gates can't, nobody knows.
pub(crate) fn write_records<D: Device>(
    device: &mut D,
    slots: &[LogSlot],
    first: usize,
    decisions: &[CommitRecord],
) -> Result<(), LogFault>
    requires settled { IsDurable D.seen D.may_leave (table_of slots.now) device.old }
    requires none_before { HasNoFree slots.now first }
    requires first { first ≤ length slots.now }
    requires room { HasFreeSlots slots.now (length decisions.now) }
    requires valid { All IsValid decisions.now }
    requires new { AreNewNames slots.now decisions.now }
    ensures logged { OnOk result
        (IsDurable D.seen D.may_leave (table_of (placed slots.now decisions.now)) device.new) }
    ensures refused { IsErrOf result Refused → KeepsTable D.may_leave (table_of slots.now) device.new }

    // A crash at any moment leaves the records from before the call, and any of the new ones.
    ensures any_moment { LeavesOnly D.moment D.left_since device.old device.new
        (MayShow (coming slots.now decisions.now)) }
    ensures cause { IsErr result → D.faults device.old < D.faults device.new }
{
    let Ok(()) = write_bodies(device, slots, first, decisions) else {
        return Err(LogFault::Refused);
    };
    let Ok(()) = device.sync() else {
        return Err(LogFault::Refused);
    };
    let Ok(()) = open_gates(device, slots, first, decisions) else {
        return Err(LogFault::Unknown);
    };
    let Ok(()) = device.sync() else {
        return Err(LogFault::Unknown);
    };
    Ok(())
}
