//! A write that is on the disk once it is answered.
ghost use Rattle.std.specs.Prelude.{◌≡◌, ◌≤◌, ◌+◌, List, ℕ, length, OnOk};
ghost use Rattle.xa_log_file.specs.Device.{Only, log_overwritten, IsOverwritten, LeavesOnly, HasCause};

use crate::device::{Device, LogDeviceFault};

/// Writes over bytes that are there, and syncs. Whatever it answers, a crash at any moment leaves the file with some
/// bytes in the range, and where it is one byte, with that one or as it was.
pub(crate) fn put<D: Device>(device: &mut D, at: usize, bytes: &[u8]) -> Result<(), LogDeviceFault>
    requires within { at + length bytes.now ≤ length (D.seen device.old) }
    requires durable { Only (D.seen device.old) (D.may_leave device.old) }
    ensures written { OnOk result (D.seen device.new ≡ log_overwritten (D.seen device.old) at bytes.now) }
    ensures durable { OnOk result (Only (D.seen device.new) (D.may_leave device.new)) }
    ensures now { (c : List ℕ) → D.may_leave device.new c → IsOverwritten (D.seen device.old) at bytes.now c }
    ensures any_moment { LeavesOnly D.moment D.left_since device.old device.new
        (IsOverwritten (D.seen device.old) at bytes.now) }
    ensures cause { HasCause (D.faults device.old) (D.faults device.new) result }
{
    device.write_at(at, bytes)?;
    device.sync()?;
    Ok(())
}
