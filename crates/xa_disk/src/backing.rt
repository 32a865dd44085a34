//! What is asked of a file.
ghost use Rattle.std.specs.Prelude.{◌≡◌, ◌≤◌, ◌+◌, ℕ, List, length, IfOk, OnOk};
ghost use Rattle.xa_disk.specs.Bytes.{overwritten, part, resized};
ghost use Rattle.xa_disk.specs.declared.backing.ReadFault.TheVariants.{Memory};

use std::alloc::{AllocError, Global};

/// A write, a change of the length or a sync failed.
#[derive(Clone, Copy, Debug, PartialEq, Eq)]
pub enum DeviceFault {
    /// The disk has no room, or the user's part of it.
    NoRoom,
    Failed,
}

/// A read failed, or there was no memory for what it reads.
#[derive(Clone, Copy, Debug, PartialEq, Eq)]
pub enum ReadFault {
    Memory,
    Failed,
}

impl From<AllocError> for ReadFault {
    ghost from_gives = { λ _ e. e ≡ Memory };

    fn from(_: AllocError) -> ReadFault {
        ReadFault::Memory
    }
}

/// What is asked of a file: the clauses say what it is given, and what the disk is asked to keep.
///
/// That the disk does keep it is trusted, and what a crash leaves of a call that hasn't ended: `rewrite` says what of
/// its own, and `sqlite_disk::Disk` what of the others.
pub trait Backing {
    /// How many bytes it has, as it was told last.
    ghost told: { Self → ℕ };

    /// The bytes that were read of it last.
    ghost found: { Self → List ℕ };

    /// The bytes that it was given, all of them: what was rewritten, and what was done to that.
    ghost given: { Self → List ℕ };

    /// The bytes that the disk was last asked to keep, and answered that it does.
    ghost kept: { Self → List ℕ };

    /// How many bytes it has.
    fn size(&mut self) -> Result<u64, DeviceFault>
        ensures told { IfOk result (λ n. n ≡ told self.new) }
        ensures given { given self.new ≡ given self.old }
        ensures kept { kept self.new ≡ kept self.old };

    /// All the bytes, which are so many.
    fn read_all(&mut self, alloc: Global, len: usize) -> Result<Vec<u8>, ReadFault>
        requires told { len ≡ told self.old }
        ensures found { IfOk result (λ v. v.items ≡ found self.new) }
        ensures len { IfOk result (λ v. length v.items ≡ len) }
        ensures given { given self.new ≡ given self.old }
        ensures kept { kept self.new ≡ kept self.old }
        ensures told { told self.new ≡ told self.old };

    /// Writes the bytes that were read once more, each with the value that it has.
    ///
    /// An earlier process may have written bytes that it failed to sync, and the kernel may then return them while the
    /// disk has others: a sync alone wouldn't write them. Trusted of it: a crash leaves each byte as it was on the disk
    /// or as it was read, so one that is the same in both stays; and a sync after it keeps all that was read.
    fn rewrite(&mut self, bytes: &Vec<u8>) -> Result<(), DeviceFault>
        requires { bytes.now.items ≡ found self.old }
        ensures given { OnOk result (given self.new ≡ bytes.now.items) }
        ensures kept { OnOk result (kept self.new ≡ kept self.old) }
        ensures found { OnOk result (found self.new ≡ found self.old) };

    /// Writes the part of the copy at this offset, of so many bytes, at its place in the file.
    fn write_part(&mut self, copy: &Vec<u8>, at: usize, len: usize) -> Result<(), DeviceFault>
        requires within { at + len ≤ length copy.now.items }
        requires at { at ≤ length (given self.old) }
        ensures given { OnOk result (given self.new ≡ overwritten (given self.old) at (part at len copy.now.items)) }
        ensures kept { OnOk result (kept self.new ≡ kept self.old) };

    /// Makes the file so long: what is past the new end goes, and zeros come past the old one.
    fn resize(&mut self, len: usize) -> Result<(), DeviceFault>
        ensures given { OnOk result (given self.new ≡ resized (given self.old) len) }
        ensures kept { OnOk result (kept self.new ≡ kept self.old) };

    /// Has the disk keep all that was written.
    fn sync_all(&mut self) -> Result<(), DeviceFault>
        ensures given { OnOk result (given self.new ≡ given self.old) }
        ensures kept { OnOk result (kept self.new ≡ given self.old) }
        ensures found { found self.new ≡ found self.old };
}
