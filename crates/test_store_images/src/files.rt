//! Two files in memory, and what a crash leaves of them.
use crate::fault::Fault;
use crate::lent::Lent;
use crate::random::Random;
use sqlite_disk::Files;
use std::alloc::Global;
use std::fmt;
use xa_disk::{Tape, Tear, WriteThrough};

// How many bytes a file may have.
const MOST: usize = 1 << 22;

/// The bytes of two files.
#[derive(Drop)]
pub(crate) struct Bytes {
    pub(crate) log: Vec<u8>,
    pub(crate) db: Vec<u8>,
}

// Turns bits of a byte, where there is one at this place.
fn turn(bytes: &mut Vec<u8>, at: usize, bits: u8) {
    if at < bytes.len() {
        bytes[at] ^= bits;
    }
}

impl Bytes {
    /// Those of files that aren't there yet.
    pub(crate) fn none(alloc: Global) -> Bytes {
        Bytes {
            log: Vec::new(alloc),
            db: Vec::new(alloc),
        }
    }

    /// Those of one file.
    pub(crate) fn of(&self, side: Side) -> &[u8] {
        match side {
            Side::Log => &self.log,
            Side::Database => &self.db,
        }
    }

    /// Turns bits of a byte of one file, where it has a byte at this place.
    pub(crate) fn turn(&mut self, side: Side, at: usize, bits: u8) {
        match side {
            Side::Log => turn(&mut self.log, at, bits),
            Side::Database => turn(&mut self.db, at, bits),
        }
    }
}

/// Which file has a call.
#[derive(Clone, Copy, PartialEq, Eq)]
pub(crate) enum Side {
    Log,
    Database,
}

impl fmt::Display for Side {
    fn fmt<W: fmt::Write>(&self, f: &mut fmt::Formatter<W>) -> fmt::Result {
        f.write_str(match self {
            Side::Log => "log",
            Side::Database => "database file",
        })
    }
}

/// Which call fails, and what it has written.
#[derive(Clone, Copy)]
pub(crate) struct Failure {
    pub(crate) side: Side,
    /// Its number, from 1. No call has number 0.
    pub(crate) call: u32,
    pub(crate) tear: Tear,
}

impl Failure {
    /// No call fails.
    pub(crate) const NONE: Failure = Failure {
        side: Side::Log,
        call: 0,
        tear: Tear::Nothing,
    };

    // The number of the call that fails of this file.
    fn call_of(&self, side: Side) -> u32 {
        if self.side == side { self.call } else { 0 }
    }
}

/// What a crash leaves of each file: what the disk has kept, by 0, what was written, by 1, or a mixture of the two.
#[derive(Clone, Copy)]
pub(crate) struct Choice {
    pub(crate) log: u32,
    pub(crate) db: u32,
}

// A choice by chance, a mixture three times in four.
fn choice_by_chance(random: &mut Random) -> u32 {
    match random.below(8) {
        0 => 0,
        1 => 1,
        _ => random.below(1 << 20).saturating_add(2),
    }
}

impl Choice {
    /// What the disk has kept.
    pub(crate) const KEPT: Choice = Choice { log: 0, db: 0 };

    /// What was written, kept or not.
    pub(crate) const WRITTEN: Choice = Choice { log: 1, db: 1 };

    /// The choice of the image with this number: the first four have no mixtures, and the others are by chance.
    pub(crate) fn of(image: u32, random: &mut Random) -> Choice {
        match image {
            0 => Choice::KEPT,
            1 => Choice::WRITTEN,
            2 => Choice { log: 0, db: 1 },
            3 => Choice { log: 1, db: 0 },
            _ => Choice {
                log: choice_by_chance(random),
                db: choice_by_chance(random),
            },
        }
    }
}

/// Two files, which stay where a store over them isn't opened.
#[derive(Drop)]
pub(crate) struct Tapes {
    log: Tape,
    db: Tape,
}

impl Tapes {
    /// Files with these bytes, of which one call fails.
    pub(crate) fn of(alloc: Global, bytes: &Bytes, failure: &Failure) -> Result<Tapes, Fault> {
        let (of_log, of_db) = (failure.call_of(Side::Log), failure.call_of(Side::Database));
        Ok(Tapes {
            log: Tape::of(alloc, &bytes.log, of_log, failure.tear)?,
            db: Tape::of(alloc, &bytes.db, of_db, failure.tear)?,
        })
    }

    /// How many calls of a file were made.
    pub(crate) fn calls(&self, side: Side) -> u32 {
        match side {
            Side::Log => self.log.calls(),
            Side::Database => self.db.calls(),
        }
    }

    /// Whether the call that was to fail was made.
    pub(crate) fn have_failed(&self, failure: &Failure) -> bool {
        0 < failure.call && failure.call <= self.calls(failure.side)
    }

    /// The bytes that a crash leaves.
    pub(crate) fn image(&self, alloc: Global, choice: &Choice) -> Result<Bytes, Fault> {
        Ok(Bytes {
            log: self.log.image(alloc, choice.log)?,
            db: self.db.image(alloc, choice.db)?,
        })
    }

    /// Disks over the files. None where one of them isn't read, or not written once more.
    pub(crate) fn disks(&mut self, alloc: Global) -> Option<Files<WriteThrough<Lent<'_>>>> {
        let log = Lent {
            tape: &mut self.log,
        };
        let db = Lent { tape: &mut self.db };
        let log = match WriteThrough::new(alloc, log, MOST) {
            Ok(log) => log,
            Err(_) => return None,
        };
        match WriteThrough::new(alloc, db, MOST) {
            Ok(db) => Some(Files { log, db }),
            Err(_) => None,
        }
    }
}
