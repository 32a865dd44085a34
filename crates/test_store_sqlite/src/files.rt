//! Two files in memory, and stores over them.

use sqlite_disk::Files;
use sqlite_store::FileStore;
use std::alloc::Global;
use std::process::Abort;
use xa_disk::{Backing, Tape, Tear, WriteThrough};
use xa_store_sqlite::{SqliteStore, StoreOpenFault, open};
use xa_tables::Manager;
use xa_words::Key;

/// How many bytes a file may have.
pub(crate) const MOST: usize = 1 << 22;

/// The number of the stores.
pub(crate) const NUMBER: i64 = 77;

/// The bytes of two files.
#[derive(Drop)]
pub(crate) struct Bytes {
    pub(crate) log: Vec<u8>,
    pub(crate) db: Vec<u8>,
}

/// Two files, after a store was closed or wasn't opened.
#[derive(Drop)]
pub(crate) struct Tapes {
    pub(crate) log: Tape,
    pub(crate) db: Tape,
}

/// Which call of which file fails, and how.
#[derive(Clone, Copy)]
pub(crate) struct Failure {
    pub(crate) of_log: u32,
    pub(crate) of_db: u32,
    pub(crate) tear: Tear,
}

/// No call fails.
pub(crate) const NONE: Failure = Failure {
    of_log: 0,
    of_db: 0,
    tear: Tear::Nothing,
};

/// No file yet.
pub(crate) fn nothing(alloc: Global) -> Bytes {
    Bytes {
        log: Vec::new(alloc),
        db: Vec::new(alloc),
    }
}

/// Files with these bytes, of which one call fails.
pub(crate) fn tapes_of(rt: &impl Abort, alloc: Global, bytes: &Bytes, failure: Failure) -> Tapes {
    Tapes {
        log: Tape::of(alloc, &bytes.log, failure.of_log, failure.tear).expect(rt, "memory"),
        db: Tape::of(alloc, &bytes.db, failure.of_db, failure.tear).expect(rt, "memory"),
    }
}

/// The bytes that a crash leaves of the files, by these choices.
pub(crate) fn image(rt: &impl Abort, alloc: Global, tapes: &Tapes, choice: (u32, u32)) -> Bytes {
    Bytes {
        log: tapes.log.image(alloc, choice.0).expect(rt, "memory"),
        db: tapes.db.image(alloc, choice.1).expect(rt, "memory"),
    }
}

/// The files of trees that are no longer open.
pub(crate) fn closed_trees(trees: FileStore<WriteThrough<Tape>>) -> Tapes {
    let Files { log, db } = trees.close();
    Tapes {
        log: log.into_file(),
        db: db.into_file(),
    }
}

/// The files of a store that is no longer open.
pub(crate) fn closed(store: SqliteStore<Tape>) -> Tapes {
    closed_trees(store.into_trees())
}

/// Disks over two files, or nothing where one of them isn't read.
pub(crate) fn disks_of<B: Backing + Drop>(
    alloc: Global,
    log: B,
    db: B,
) -> Option<Files<WriteThrough<B>>> {
    let Ok(log) = WriteThrough::new(alloc, log, MOST) else {
        return None;
    };
    match WriteThrough::new(alloc, db, MOST) {
        Ok(db) => Some(Files { log, db }),
        Err(_) => None,
    }
}

/// What an opening of two files finds; a file that isn't read has failed.
pub(crate) fn found_in(
    alloc: Global,
    tapes: Tapes,
    accounts: &[(Key, u64)],
) -> Result<(Manager, SqliteStore<Tape>), StoreOpenFault> {
    let Tapes { log, db } = tapes;
    match disks_of(alloc, log, db) {
        Some(files) => open(alloc, files, NUMBER, accounts, 2, 600),
        None => Err(StoreOpenFault::Failed),
    }
}
