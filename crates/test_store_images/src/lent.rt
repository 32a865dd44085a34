//! Files that stay when the store over them is gone.
use std::alloc::Global;
use xa_disk::{Backing, DeviceFault, ReadFault, Tape};

/// A file that is borrowed.
#[derive(Drop)]
pub(crate) struct Lent<'a> {
    pub(crate) tape: &'a mut Tape,
}

impl<'a> Backing for Lent<'a> {
    ghost told = { λ l. ⟦<Tape as Backing>⟧.told l.tape.now };

    ghost found = { λ l. ⟦<Tape as Backing>⟧.found l.tape.now };

    ghost given = { λ l. ⟦<Tape as Backing>⟧.given l.tape.now };

    ghost kept = { λ l. ⟦<Tape as Backing>⟧.kept l.tape.now };

    fn size(&mut self) -> Result<u64, DeviceFault> {
        self.tape.size()
    }

    fn read_all(&mut self, alloc: Global, len: usize) -> Result<Vec<u8>, ReadFault> {
        self.tape.read_all(alloc, len)
    }

    fn rewrite(&mut self, bytes: &Vec<u8>) -> Result<(), DeviceFault> {
        self.tape.rewrite(bytes)
    }

    fn write_part(&mut self, copy: &Vec<u8>, at: usize, len: usize) -> Result<(), DeviceFault> {
        self.tape.write_part(copy, at, len)
    }

    fn resize(&mut self, len: usize) -> Result<(), DeviceFault> {
        self.tape.resize(len)
    }

    fn sync_all(&mut self) -> Result<(), DeviceFault> {
        self.tape.sync_all()
    }
}
