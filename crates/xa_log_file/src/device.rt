//! A file as the log sees it: what a read returns, and what a crash may leave.
ghost use Rattle.std.specs.Prelude.{◌≡◌, ◌≤◌, List, ℕ, length, IfOk, OnOk, OnErr};
ghost use Rattle.xa_log_file.specs.Device.{Only, OutcomesFollow, Torn, log_overwritten, Elapses, HasCause};
ghost use Rattle.xa_log_file.specs.declared.device.LogReadFault.TheVariants.{Memory};

use std::alloc::{AllocError, AllocFailed, Global};

/// A write or a sync failed.
#[derive(Clone, Copy, Debug, PartialEq, Eq)]
pub struct LogDeviceFault;

/// A read failed, or there was no memory for what it reads.
#[derive(Clone, Copy, Debug, PartialEq, Eq)]
pub enum LogReadFault {
    Memory,
    Failed,
}

impl From<AllocError> for LogReadFault {
    ghost from_gives = { λ _ e. e ≡ Memory };

    fn from(_: AllocError) -> Self {
        LogReadFault::Memory
    }
}

impl<T: Drop> From<AllocFailed<T>> for LogReadFault {
    ghost from_gives = { λ _ e. e ≡ Memory };

    fn from(_: AllocFailed<T>) -> Self {
        LogReadFault::Memory
    }
}

/// A file on a disk that may crash at any moment.
pub trait Device {
    /// The bytes that a read returns.
    ghost seen: { Self → List ℕ };

    /// What a crash at this moment may leave.
    ghost may_leave: { Self → List ℕ → Type 0 };

    /// The moment, as a number that doesn't fall.
    ghost moment: { Self → ℕ };

    /// What a crash at some moment from that one on might have left, during a call or between two.
    ghost left_since: { Self → ℕ → List ℕ → Type 0 };

    /// How often writes and syncs have failed.
    ghost faults: { Self → ℕ };

    /// All the bytes.
    fn read(&mut self, alloc: Global) -> Result<Vec<u8>, LogReadFault>
        ensures bytes { IfOk result (λ bytes. bytes.items ≡ seen self.old) }
        ensures seen { seen self.new ≡ seen self.old }
        ensures crash { (c : List ℕ) → may_leave self.new c → may_leave self.old c }
        ensures time { Elapses (moment self.old) (moment self.new) (left_since self.old) (left_since self.new)
            (may_leave self.new) };

    /// Writes over what is there, and past the end. Until a sync, a crash may leave any bytes in the range; but of a
    /// write of one byte, that one or what was there.
    fn write_at(&mut self, at: usize, bytes: &[u8]) -> Result<(), LogDeviceFault>
        requires { at ≤ length (seen self.old) }
        ensures written { OnOk result (seen self.new ≡ log_overwritten (seen self.old) at bytes.now) }
        ensures crash { OutcomesFollow (Torn at bytes.now) (may_leave self.old) (may_leave self.new) }
        ensures time { Elapses (moment self.old) (moment self.new) (left_since self.old) (left_since self.new)
            (may_leave self.new) }
        ensures cause { HasCause (faults self.old) (faults self.new) result };

    /// After it, a crash leaves what a read returns. A real file can't promise that once a write or a sync has failed:
    /// the kernel may have dropped what was written. So after an `Err` of `write_at` or `sync` no later sync is `Ok`:
    /// only a new handle, which reads from the disk, tells what is there.
    fn sync(&mut self) -> Result<(), LogDeviceFault>
        ensures durable { OnOk result (Only (seen self.old) (may_leave self.new)) }
        ensures seen { seen self.new ≡ seen self.old }
        ensures crash { OnErr result ((c : List ℕ) → may_leave self.new c → may_leave self.old c) }
        ensures usable { OnOk result (faults self.old ≡ 0) }
        ensures time { Elapses (moment self.old) (moment self.new) (left_since self.old) (left_since self.new)
            (may_leave self.new) }
        ensures cause { HasCause (faults self.old) (faults self.new) result };

    /// This moment is one of those since an earlier one.
    ghost counts_now: { (file : Self) (t : ℕ) (c : List ℕ) → t ≤ moment file → may_leave file c → left_since file t c };

    /// Since this moment there is no other.
    ghost only_now: { (file : Self) (c : List ℕ) → left_since file (moment file) c → may_leave file c };
}
