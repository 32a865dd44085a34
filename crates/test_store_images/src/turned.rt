//! The files of a store of which one byte is turned.
use crate::fault::Fault;
use crate::files::{Bytes, Choice, Failure, Side, Tapes};
use crate::found::Found;
use crate::names::Names;
use crate::parts::{SETTLE, SETTLES_LATER, copied};
use crate::served::Served;
use std::alloc::Global;
use std::fmt;
use xa_store_sqlite::StoreOpenFault;

/// How many bytes were turned, and how many openings found what.
#[derive(Clone, Copy)]
pub(crate) struct Turns {
    pub(crate) bytes: u32,
    /// What the last settle has left.
    same: u32,
    /// What an earlier one has left.
    earlier: u32,
    /// Nothing, as the files are refused as damaged.
    refused: u32,
}

impl Turns {
    const NONE: Turns = Turns {
        bytes: 0,
        same: 0,
        earlier: 0,
        refused: 0,
    };
}

impl fmt::Display for Turns {
    fn fmt<W: fmt::Write>(&self, f: &mut fmt::Formatter<W>) -> fmt::Result {
        let Turns {
            bytes: _,
            same,
            earlier,
            refused,
        } = *self;
        write!(
            f,
            "{same} read as they were, {earlier} as an earlier settle left them, {refused} refused"
        )
    }
}

/// A byte with which the files are read as something else, or not at all. None of its bits are turned where that is so
/// of the files themselves.
#[derive(Clone, Copy)]
pub(crate) struct Missed {
    at: usize,
    bits: u8,
    fault: Fault,
}

impl fmt::Display for Missed {
    fn fmt<W: fmt::Write>(&self, f: &mut fmt::Formatter<W>) -> fmt::Result {
        let Missed { at, bits, fault } = *self;
        write!(f, "byte {at} with the bits {bits} turned: {fault:?}")
    }
}

/// Files of which one is turned, byte by byte.
#[derive(Drop)]
pub(crate) struct Turned {
    pub(crate) name: &'static str,
    pub(crate) side: Side,
    pub(crate) bytes: Bytes,
    /// What settles have left, one after the other. The files have what the last has left.
    pub(crate) settled: Vec<Found>,
}

// Whether the database file has these bytes, also where it was written.
fn is_unwritten(alloc: Global, tapes: &Tapes, bytes: &Bytes) -> Result<bool, Fault> {
    let now = tapes.image(alloc, &Choice::WRITTEN)?;
    Ok(now.of(Side::Database) == bytes.of(Side::Database))
}

// What an opening finds in the files, or nothing where they are refused as damaged, which leaves the database file as
// it was.
fn found_in(alloc: Global, names: &Names, bytes: &Bytes) -> Result<Option<Found>, Fault> {
    let mut tapes = Tapes::of(alloc, bytes, &Failure::NONE)?;
    match Served::open(alloc, &mut tapes, &names.others()) {
        Ok(served) => return Ok(Some(served.found(alloc, names)?)),
        Err(StoreOpenFault::NotADatabase | StoreOpenFault::OtherTables | StoreOpenFault::Damaged) =>
            {}
        Err(fault) => return Err(Fault::Unopened(fault)),
    }
    if is_unwritten(alloc, &tapes, bytes)? {
        Ok(None)
    } else {
        Err(Fault::Written)
    }
}

// Which of these settles has left this, counted from 0.
fn settle_of(settled: &[Found], found: &Found) -> Result<usize, Fault> {
    for (settle, left) in settled.iter().enumerate() {
        if *left == *found {
            return Ok(settle);
        }
    }
    Err(Fault::Other)
}

impl Turned {
    // Opens the files with no byte turned, which have what the last settle has left.
    fn open_whole(&self, alloc: Global, names: &Names) -> Result<(), Fault> {
        let Some(found) = found_in(alloc, names, &self.bytes)? else {
            return Err(Fault::Other);
        };
        if settle_of(&self.settled, &found)?.saturating_add(1) == self.settled.len() {
            Ok(())
        } else {
            Err(Fault::Other)
        }
    }

    // What an opening finds with bits of a byte turned.
    fn found_at(
        &mut self,
        alloc: Global,
        names: &Names,
        at: usize,
        bits: u8,
    ) -> Result<Option<Found>, Fault> {
        self.bytes.turn(self.side, at, bits);
        let found = found_in(alloc, names, &self.bytes);
        self.bytes.turn(self.side, at, bits);
        found
    }

    // Counts a settle that was found, which is to be none before the first.
    fn count(&self, found: &Found, first: usize, turns: &mut Turns) -> Result<usize, Fault> {
        let settle = settle_of(&self.settled, found)?;
        if settle < first {
            return Err(Fault::Other);
        }
        if settle.saturating_add(1) == self.settled.len() {
            turns.same = turns.same.saturating_add(1);
        } else {
            turns.earlier = turns.earlier.saturating_add(1);
        }
        Ok(settle)
    }

    // Turns bits of a byte, and counts what is found. Which settle that is, or the first again where it is refused.
    fn turn(
        &mut self,
        alloc: Global,
        names: &Names,
        at: usize,
        bits: u8,
        first: usize,
        turns: &mut Turns,
    ) -> Result<usize, Fault> {
        match self.found_at(alloc, names, at, bits)? {
            Some(found) => self.count(&found, first, turns),
            None => {
                turns.refused = turns.refused.saturating_add(1);
                Ok(first)
            }
        }
    }

    // Turns a byte, all of its bits and then one of them. Which settle is found, which is none before the first.
    fn turn_byte(
        &mut self,
        alloc: Global,
        names: &Names,
        at: usize,
        mut first: usize,
        turns: &mut Turns,
    ) -> Result<usize, Missed> {
        for bits in [0xff, 1 << (at % 8)] {
            first = self
                .turn(alloc, names, at, bits, first, turns)
                .map_err(|fault| Missed { at, bits, fault })?;
        }
        turns.bytes = turns.bytes.saturating_add(1);
        Ok(first)
    }

    /// Turns each byte of the file whose place this divides. A byte of the log hides the settles from one on, and later
    /// bytes hide none that stands before it.
    pub(crate) fn turn_all(
        &mut self,
        alloc: Global,
        names: &Names,
        every: usize,
    ) -> Result<Turns, Missed> {
        self.open_whole(alloc, names).map_err(|fault| Missed {
            at: 0,
            bits: 0,
            fault,
        })?;
        let mut turns = Turns::NONE;
        let mut first = 0;
        for at in 0..self.bytes.of(self.side).len() {
            if at.checked_rem(every) == Some(0) {
                first = self.turn_byte(alloc, names, at, first, &mut turns)?;
            }
        }
        Ok(turns)
    }
}

/// A database file to which the log was copied, which is gone.
pub(crate) fn database_alone(alloc: Global, names: &Names) -> Result<Turned, Fault> {
    let part = copied(alloc, names, &SETTLE)?;
    let settled = Vec::from_array(alloc, [part.left.settled])?;
    Ok(Turned {
        name: "database file alone",
        side: Side::Database,
        bytes: part.into_bytes(),
        settled,
    })
}

/// A database file beside a log with settles after the copy.
pub(crate) fn database_beside(alloc: Global, names: &Names) -> Result<Turned, Fault> {
    let part = copied(alloc, names, &SETTLES_LATER)?;
    let run = part.run(alloc, names, &Failure::NONE)?;
    Ok(Turned {
        name: "database file beside a log",
        side: Side::Database,
        bytes: run.tapes.image(alloc, &Choice::KEPT)?,
        settled: Vec::from_array(alloc, [run.left.settled])?,
    })
}

/// The log with these settles.
pub(crate) fn log_beside(alloc: Global, names: &Names) -> Result<Turned, Fault> {
    let part = copied(alloc, names, &SETTLE)?;
    let one = part.run(alloc, names, &Failure::NONE)?;
    let part = copied(alloc, names, &SETTLES_LATER)?;
    let both = part.run(alloc, names, &Failure::NONE)?;
    Ok(Turned {
        name: "log",
        side: Side::Log,
        bytes: both.tapes.image(alloc, &Choice::KEPT)?,
        settled: Vec::from_array(
            alloc,
            [part.left.settled, one.left.settled, both.left.settled],
        )?,
    })
}
