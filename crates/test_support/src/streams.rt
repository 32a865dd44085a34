//! A reader and a writer that fail after so many calls.
use std::io;
use std::io::{Read, Write};

/// Gives a byte at a time, and fails at each read after so many.
#[derive(Clone, Copy)]
pub struct Failing<'a> {
    /// What is left to give.
    pub bytes: &'a [u8],
    /// How many reads don't fail.
    pub reads: usize,
}

impl Read for Failing<'_> {
    fn read(&mut self, buf: &mut [u8]) -> io::Result<usize> {
        if self.reads == 0 {
            return Err(io::Error::from(io::ErrorKind::Other));
        }
        self.reads -= 1;
        match (self.bytes.split_first(), buf.split_first_mut()) {
            (Some((first, rest)), Some((place, _))) => {
                *place = *first;
                self.bytes = rest;
                Ok(1)
            }
            _ => Ok(0),
        }
    }
}

/// Takes three bytes at a time, and fails at each write after so many.
#[derive(Drop)]
pub struct Refusing {
    /// How many writes don't fail.
    pub writes: usize,
}

impl Write for Refusing {
    fn write(&mut self, buf: &[u8]) -> io::Result<usize> {
        if self.writes == 0 {
            return Err(io::Error::from(io::ErrorKind::Other));
        }
        self.writes -= 1;
        Ok(buf.len().min(3))
    }

    fn flush(&mut self) -> io::Result<()> {
        Ok(())
    }
}
