//! A file in memory that tears.
ghost use Rattle.std.specs.Prelude.{◌≡◌, ◌≤◌, length, OnOk};
ghost use Rattle.xa_log_file.specs.Device.{log_overwritten};

use std::alloc::{AllocError, Global};
use std::process::Abort;
use xa_log_file::{LogBacking, LogDeviceFault, LogReadFault};

/// A file in memory whose k-th write or sync fails, and then is torn. What is written and not yet synced is `now`.
#[derive(Drop)]
pub(crate) struct Tape {
    alloc: Global,
    pub(crate) durable: Vec<u8>,
    pub(crate) now: Vec<u8>,
    calls: u32,
    fails: u32,
    reads: u32,
    pub(crate) syncs: u32,
}

impl Tape {
    /// A file of these bytes, all of which are on the disk.
    pub(crate) fn of(rt: &impl Abort, alloc: Global, bytes: &[u8], fails: u32) -> Tape {
        Tape::unsynced(rt, alloc, bytes, bytes, fails)
    }

    /// A file in which an earlier process wrote what isn't on the disk.
    pub(crate) fn unsynced(
        rt: &impl Abort,
        alloc: Global,
        durable: &[u8],
        now: &[u8],
        fails: u32,
    ) -> Tape {
        Tape {
            alloc,
            durable: durable.to_vec(alloc).expect(rt, "memory"),
            now: now.to_vec(alloc).expect(rt, "memory"),
            calls: 0,
            fails,
            reads: 0,
            syncs: 0,
        }
    }

    /// Whether it was read, written or synced.
    pub(crate) fn is_touched(&self) -> bool {
        self.reads > 0 || self.calls > 0
    }

    /// Whether it was written or synced.
    pub(crate) fn is_written(&self) -> bool {
        self.calls > 0
    }

    // Counts a call, which is to fail or not.
    fn is_failing(&mut self) -> bool
        ensures now { self.new.now ≡ self.old.now }
        ensures durable { self.new.durable ≡ self.old.durable }
    {
        self.calls = self.calls.saturating_add(1);
        self.calls == self.fails
    }

    /// What a crash may leave: from some place on what is written, and before it what was on the disk.
    pub(crate) fn crashed_from(&self, rt: &impl Abort, cut: usize) -> Vec<u8> {
        let mut image = self.now.to_vec(self.alloc).expect(rt, "memory");
        for i in 0..cut.min(self.durable.len()) {
            if let Some(byte) = image.get_mut(i) {
                *byte = self.durable[i];
            }
        }
        image
    }

    /// What a crash may leave: up to some place what is written, and from there on what was on the disk.
    pub(crate) fn crashed_at(&self, rt: &impl Abort, cut: usize) -> Vec<u8> {
        let mut image = Vec::new(self.alloc);
        for i in 0..self.now.len() {
            if i < cut {
                image.push(self.now[i]).expect(rt, "memory");
            } else if i < self.durable.len() {
                image.push(self.durable[i]).expect(rt, "memory");
            }
        }
        image
    }
}

// Puts the bytes in the place of those that are there, and past the end.
fn overwrite(file: &mut Vec<u8>, at: usize, bytes: &[u8]) -> Result<(), AllocError>
    requires { at ≤ length file.old.items }
    ensures { OnOk result (file.new.items ≡ log_overwritten file.old.items at bytes.now) }
{
    let end = at.checked_add(bytes.len()).ok_or(AllocError)?;
    if end > file.len() {
        file.resize(end, 0)?;
    }
    file[at..end].copy_from_slice(bytes);
    Ok(())
}

impl LogBacking for Tape {
    ghost told = { λ t. length t.now.items };

    ghost found = { λ t. t.now.items };

    ghost given = { λ t. t.now.items };

    ghost kept = { λ t. t.durable.items };

    fn size(&mut self) -> Result<u64, LogDeviceFault> {
        Ok(self.now.len() as u64)
    }

    fn read_all(&mut self, alloc: Global, _len: usize) -> Result<Vec<u8>, LogReadFault> {
        self.reads = self.reads.saturating_add(1);
        Ok(self.now.to_vec(alloc)?)
    }

    fn rewrite(&mut self, _bytes: &Vec<u8>) -> Result<(), LogDeviceFault> {
        if self.is_failing() {
            Err(LogDeviceFault)
        } else {
            Ok(())
        }
    }

    fn write_part(&mut self, copy: &Vec<u8>, at: usize, len: usize) -> Result<(), LogDeviceFault> {
        let part = &copy[at..at + len];
        if self.is_failing() {
            let _ = overwrite(&mut self.now, at, &part[..len / 2]);
            return Err(LogDeviceFault);
        }
        overwrite(&mut self.now, at, part).map_err(|_| LogDeviceFault)
    }

    fn sync_all(&mut self) -> Result<(), LogDeviceFault> {
        if self.is_failing() {
            return Err(LogDeviceFault);
        }
        match self.now.to_vec(self.alloc) {
            Ok(copy) => {
                self.syncs = self.syncs.saturating_add(1);
                self.durable = copy;
                Ok(())
            }
            Err(_) => Err(LogDeviceFault),
        }
    }
}
