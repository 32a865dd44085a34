//! The parts: what is done in their runs, and on which files.
use crate::fault::Fault;
use crate::files::{Bytes, Choice, Failure, Tapes};
use crate::found::Found;
use crate::names::Names;
use crate::runs::{Left, Part, Session};
use crate::script::BATCHES;
use crate::served::Served;
use std::alloc::Global;
use xa_words::Key;

// A new store, and no batch.
const NO_BATCH: [Session; 1] = [Session {
    first: 0,
    end: 0,
    copies: false,
}];

// Settles of one opening.
const SETTLES: [Session; 1] = [Session {
    first: 0,
    end: 8,
    copies: false,
}];

// What comes before copies and reopenings: a branch is prepared then, and one is decided.
const BEGINNING: [Session; 1] = [Session {
    first: 0,
    end: 5,
    copies: false,
}];

const COPY_FIRST: Session = Session {
    first: 5,
    end: 7,
    copies: true,
};

const COPY_NEXT: Session = Session {
    first: 7,
    end: 10,
    copies: true,
};

const SETTLE_LAST: Session = Session {
    first: 10,
    end: BATCHES,
    copies: false,
};

const COPIES: [Session; 3] = [COPY_FIRST, COPY_NEXT, SETTLE_LAST];

const COPIES_ALONE: [Session; 2] = [COPY_FIRST, COPY_NEXT];

/// The settles after the copies.
pub(crate) const SETTLES_LATER: [Session; 1] = [SETTLE_LAST];

/// The first of them alone.
pub(crate) const SETTLE: [Session; 1] = [Session {
    first: 10,
    end: 11,
    copies: false,
}];

const REOPENINGS: [Session; 3] = [
    Session {
        first: 5,
        end: 8,
        copies: false,
    },
    Session {
        first: 8,
        end: 10,
        copies: false,
    },
    Session {
        first: 10,
        end: BATCHES,
        copies: false,
    },
];

// What a store has that is made of these accounts.
fn made_of(alloc: Global, names: &Names, accounts: &[(Key, u64)]) -> Result<Found, Fault> {
    let mut tapes = Tapes::of(alloc, &Bytes::none(alloc), &Failure::NONE)?;
    match Served::open(alloc, &mut tapes, accounts) {
        Ok(served) => served.found(alloc, names),
        Err(fault) => Err(Fault::Unopened(fault)),
    }
}

/// The making of a store.
pub(crate) fn making(alloc: Global, names: &Names) -> Result<Part, Fault> {
    Ok(Part {
        name: "makings",
        sessions: &NO_BATCH,
        before: Bytes::none(alloc),
        left: Left {
            settled: made_of(alloc, names, &names.others())?,
            under_way: made_of(alloc, names, &names.accounts())?,
        },
    })
}

// What comes after a part in which no call fails.
fn after(
    alloc: Global,
    names: &Names,
    part: &Part,
    name: &'static str,
    sessions: &'static [Session],
) -> Result<Part, Fault> {
    let run = part.run(alloc, names, &Failure::NONE)?;
    Ok(Part {
        name,
        sessions,
        before: run.tapes.image(alloc, &Choice::KEPT)?,
        left: run.left,
    })
}

/// The settles of a store that was made.
pub(crate) fn settling(alloc: Global, names: &Names) -> Result<Part, Fault> {
    let making = making(alloc, names)?;
    after(alloc, names, &making, "settles", &SETTLES)
}

// What comes after the batches of the beginning.
fn later(
    alloc: Global,
    names: &Names,
    name: &'static str,
    sessions: &'static [Session],
) -> Result<Part, Fault> {
    let making = making(alloc, names)?;
    let beginning = after(alloc, names, &making, "", &BEGINNING)?;
    after(alloc, names, &beginning, name, sessions)
}

/// Copies of the log to the database file, and settles after them.
pub(crate) fn copying(alloc: Global, names: &Names) -> Result<Part, Fault> {
    later(alloc, names, "copies", &COPIES)
}

/// Settles after the files were opened again.
pub(crate) fn reopening(alloc: Global, names: &Names) -> Result<Part, Fault> {
    later(alloc, names, "reopenings", &REOPENINGS)
}

/// What comes after the copies, on the database file alone: the log is gone, as it was copied.
pub(crate) fn copied(
    alloc: Global,
    names: &Names,
    sessions: &'static [Session],
) -> Result<Part, Fault> {
    let copies = later(alloc, names, "", &COPIES_ALONE)?;
    let run = copies.run(alloc, names, &Failure::NONE)?;
    let Bytes { log: _, db } = run.tapes.image(alloc, &Choice::KEPT)?;
    Ok(Part {
        name: "",
        sessions,
        before: Bytes {
            log: Vec::new(alloc),
            db,
        },
        left: run.left,
    })
}
