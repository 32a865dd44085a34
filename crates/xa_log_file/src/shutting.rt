//! The gates of forgotten records are shut.
ghost use Rattle.std.specs.Prelude.{◌≡◌, List, ℕ, map, OnOk};
ghost use Rattle.xa_log_file.specs.Device.{LeavesOnly, HasCause};
ghost use Rattle.xa_log_file.specs.Slots.{IsDurable};
ghost use Rattle.xa_log_file.specs.Memory.{MayShow, table_of, taken};

use crate::device::{Device, LogDeviceFault};
use crate::layout::{HEAD, SHUT, SLOT};
use crate::slot::LogSlot;

/// Shuts the gates of all forgotten records, and syncs where there are any. Whatever it answers, a crash at any moment
/// leaves the taken records, and perhaps forgotten ones.
pub(crate) fn shut_gates<D: Device>(device: &mut D, slots: &[LogSlot]) -> Result<(), LogDeviceFault>
    requires settled { IsDurable D.seen D.may_leave (table_of slots.now) device.old }
    ensures shut { OnOk result (IsDurable D.seen D.may_leave (map taken slots.now) device.new) }
    ensures now { (c : List ℕ) → D.may_leave device.new c → MayShow slots.now c }
    ensures any_moment { LeavesOnly D.moment D.left_since device.old device.new (MayShow slots.now) }
    ensures cause { HasCause (D.faults device.old) (D.faults device.new) result }
{
    let mut is_clean = true;
    for place in 0..slots.len() {
        if let LogSlot::Forgotten(_) = slots[place] {
            device.write_at(HEAD + SLOT * place, &[SHUT])?;
            is_clean = false;
        }
    }
    if is_clean {
        return Ok(());
    }
    device.sync()?;
    Ok(())
}
