//! A file in memory that tears, for tests.
ghost use Rattle.std.specs.Prelude.{◌≡◌, ◌≤◌, length, IfOk, OnOk};
ghost use Rattle.xa_disk.specs.{overwritten, resized};

use crate::backing::{Backing, DeviceFault, ReadFault};
use std::alloc::{AllocError, Global};

/// The bytes of a sector.
const SECTOR: usize = 512;

/// What a write that fails has written.
#[derive(Clone, Copy, Debug, PartialEq, Eq)]
pub enum Tear {
    Nothing,
    /// The first half of its bytes.
    Beginning,
    /// Every other sector of its bytes.
    Sectors,
    Everything,
}

/// A file in memory, of which one write, change of the length or sync fails.
#[derive(Drop)]
pub struct Tape {
    alloc: Global,
    // What the disk has kept.
    durable: Vec<u8>,
    // What was written, synced or not.
    bytes: Vec<u8>,
    calls: u32,
    fails_at: u32,
    tear: Tear,
}

// Puts the bytes in the place of those that are there, and past the end.
fn overwrite(file: &mut Vec<u8>, at: usize, bytes: &[u8]) -> Result<(), AllocError>
    requires { at ≤ length file.old.items }
    ensures { OnOk result (file.new.items ≡ overwritten file.old.items at bytes.now) }
{
    let end = at.checked_add(bytes.len()).ok_or(AllocError)?;
    if end > file.len() {
        file.resize(end, 0)?;
    }
    file[at..end].copy_from_slice(bytes);
    Ok(())
}

// Makes the file so long.
fn lengthen(file: &mut Vec<u8>, len: usize) -> Result<(), AllocError>
    ensures { OnOk result (file.new.items ≡ resized file.old.items len) }
{
    file.resize(len, 0)
}

impl Tape {
    /// A file that has these bytes, all of them on the disk. The call with this number fails, counted from 1 over
    /// writes, changes of the length and syncs; none does where it is 0.
    pub fn of(alloc: Global, bytes: &[u8], fails_at: u32, tear: Tear) -> Result<Tape, AllocError>
        ensures kept { IfOk result (λ tape. tape.durable.items ≡ bytes.now) }
        ensures written { IfOk result (λ tape. tape.bytes.items ≡ bytes.now) }
        ensures calls { IfOk result (λ tape. tape.calls ≡ 0) }
    {
        Ok(Tape {
            alloc,
            durable: bytes.to_vec(alloc)?,
            bytes: bytes.to_vec(alloc)?,
            calls: 0,
            fails_at,
            tear,
        })
    }

    /// How many calls were made.
    pub fn calls(&self) -> u32
        ensures { result ≡ self.now.calls }
    {
        self.calls
    }

    // Counts a call. Whether it is to fail.
    fn is_failing(&mut self) -> bool
        ensures bytes { self.new.bytes ≡ self.old.bytes }
        ensures durable { self.new.durable ≡ self.old.durable }
    {
        self.calls = self.calls.saturating_add(1);
        self.calls == self.fails_at
    }

    // Writes what a call that fails does of these bytes.
    fn tear(&mut self, at: usize, bytes: &[u8])
        requires { at ≤ length self.old.bytes.items }
    {
        let written = match self.tear {
            Tear::Nothing | Tear::Sectors => 0,
            Tear::Beginning => bytes.len() / 2,
            Tear::Everything => bytes.len(),
        };
        let _ = overwrite(&mut self.bytes, at, &bytes[..written]);
        if self.tear == Tear::Sectors {
            for i in 0..bytes.len() {
                let place = at.saturating_add(i);
                if (place / SECTOR) % 2 == 0 {
                    if let Some(byte) = self.bytes.get_mut(place) {
                        *byte = bytes[i];
                    }
                }
            }
        }
    }

    // Of each sector what the disk has kept, or what was written, or bytes of neither where these two differ.
    fn mixture(&self, alloc: Global, choice: u32) -> Result<Vec<u8>, AllocError> {
        let mut image = Vec::new(alloc);
        for i in 0..self.durable.len().max(self.bytes.len()) {
            let kept = self.durable.get(i).copied().unwrap_or(0);
            let written = self.bytes.get(i).copied().unwrap_or(0);
            let sector = (i / SECTOR & 0xffff) as u32;
            let chance = sector.wrapping_add(choice).wrapping_mul(2_654_435_761) >> 13;
            image.push(byte_of(chance, kept, written))?;
        }
        Ok(image)
    }

    /// A file that a crash may leave now. Choice 0 is what the disk has kept, 1 all that was written, and each other
    /// one a mixture, sector by sector, with bytes of neither where these two differ.
    pub fn image(&self, alloc: Global, choice: u32) -> Result<Vec<u8>, AllocError>
        ensures kept { choice ≡ 0 → IfOk result (λ v. v.items ≡ self.now.durable.items) }
        ensures written { choice ≡ 1 → IfOk result (λ v. v.items ≡ self.now.bytes.items) }
    {
        match choice {
            0 => Ok(self.durable.to_vec(alloc)?),
            1 => Ok(self.bytes.to_vec(alloc)?),
            _ => self.mixture(alloc, choice),
        }
    }
}

// A byte of a sector, by chance.
fn byte_of(chance: u32, kept: u8, written: u8) -> u8 {
    match chance % 3 {
        0 => kept,
        1 => written,
        _ if kept == written => kept,
        _ => 0xa5,
    }
}

impl Backing for Tape {
    ghost told = { λ t. length t.bytes.items };

    ghost found = { λ t. t.bytes.items };

    ghost given = { λ t. t.bytes.items };

    ghost kept = { λ t. t.durable.items };

    fn size(&mut self) -> Result<u64, DeviceFault> {
        Ok(self.bytes.len() as u64)
    }

    fn read_all(&mut self, alloc: Global, _len: usize) -> Result<Vec<u8>, ReadFault> {
        Ok(self.bytes.to_vec(alloc)?)
    }

    fn rewrite(&mut self, _bytes: &Vec<u8>) -> Result<(), DeviceFault> {
        if self.is_failing() {
            return Err(DeviceFault::Failed);
        }
        Ok(())
    }

    fn write_part(&mut self, copy: &Vec<u8>, at: usize, len: usize) -> Result<(), DeviceFault> {
        let part = &copy[at..at + len];
        if self.is_failing() {
            self.tear(at, part);
            return Err(DeviceFault::Failed);
        }
        overwrite(&mut self.bytes, at, part).map_err(|_| DeviceFault::NoRoom)
    }

    fn resize(&mut self, len: usize) -> Result<(), DeviceFault> {
        if self.is_failing() {
            return Err(DeviceFault::Failed);
        }
        lengthen(&mut self.bytes, len).map_err(|_| DeviceFault::NoRoom)
    }

    fn sync_all(&mut self) -> Result<(), DeviceFault> {
        if self.is_failing() {
            return Err(DeviceFault::Failed);
        }
        match self.bytes.to_vec(self.alloc) {
            Ok(copy) => {
                self.durable = copy;
                Ok(())
            }
            Err(_) => Err(DeviceFault::NoRoom),
        }
    }
}
