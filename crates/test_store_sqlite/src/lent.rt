//! Files that a test keeps while a store has them open, so that it sees them after a refusal.

use crate::files::{Tapes, disks_of};
use std::alloc::Global;
use xa_disk::{Backing, DeviceFault, ReadFault, Tape};
use xa_store_sqlite::{StoreOpenFault, open};
use xa_tables::Manager;
use xa_words::Key;

/// A file that is borrowed, on a disk that is full after so many calls of it.
#[derive(Drop)]
pub(crate) struct Lent<'a> {
    tape: &'a mut Tape,
    calls: u32,
}

impl<'a> Lent<'a> {
    // Fails once the disk is full.
    fn test(&self) -> Result<(), DeviceFault> {
        if self.tape.calls() >= self.calls {
            return Err(DeviceFault::NoRoom);
        }
        Ok(())
    }
}

impl<'a> Backing for Lent<'a> {
    ghost use Rattle.std.specs.Prelude.{[]};

    ghost told = { λ _. 0 };

    ghost found = { λ _. [] };

    ghost given = { λ _. [] };

    ghost kept = { λ _. [] };

    fn size(&mut self) -> Result<u64, DeviceFault> {
        self.tape.size()
    }

    fn read_all(&mut self, alloc: Global, len: usize) -> Result<Vec<u8>, ReadFault> {
        self.tape.read_all(alloc, len)
    }

    fn rewrite(&mut self, bytes: &Vec<u8>) -> Result<(), DeviceFault> {
        self.tape.rewrite(bytes)
    }

    fn write_part(&mut self, copy: &Vec<u8>, at: usize, len: usize) -> Result<(), DeviceFault> {
        self.test()?;
        self.tape.write_part(copy, at, len)
    }

    fn resize(&mut self, len: usize) -> Result<(), DeviceFault> {
        self.test()?;
        self.tape.resize(len)
    }

    fn sync_all(&mut self) -> Result<(), DeviceFault> {
        self.tape.sync_all()
    }
}

/// The disk is never full.
pub(crate) const ENDLESS: (u32, u32) = (u32::MAX, u32::MAX);

/// What an opening asks for.
#[derive(Clone, Copy)]
pub(crate) struct Asked<'a> {
    pub(crate) number: i64,
    pub(crate) accounts: &'a [(Key, u64)],
    /// After how many calls of the log, and of the database file, the disk is full.
    pub(crate) calls: (u32, u32),
}

/// The manager that an opening of files finds or makes. The files stay.
pub(crate) fn opened(
    alloc: Global,
    tapes: &mut Tapes,
    asked: Asked<'_>,
) -> Result<Manager, StoreOpenFault> {
    let log = Lent {
        tape: &mut tapes.log,
        calls: asked.calls.0,
    };
    let db = Lent {
        tape: &mut tapes.db,
        calls: asked.calls.1,
    };
    let Some(files) = disks_of(alloc, log, db) else {
        return Err(StoreOpenFault::Failed);
    };
    match open(alloc, files, asked.number, asked.accounts, 2, 600) {
        Ok((manager, _)) => Ok(manager),
        Err(fault) => Err(fault),
    }
}
