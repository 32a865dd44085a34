//! A database of three tables of slots, over any two files.

use sqlite_disk::Files;
use sqlite_pager::{Options, PageSize, Pager};
use sqlite_store::{FileStore, Unopened};
use sqlite_trees::schema::Object;
use sqlite_trees::store::Shape;
use std::alloc::Global;
use std::process::Abort;
use xa_disk::{Backing, WriteThrough};
use xa_slots::SlotTables;

/// How many tables there are.
pub(crate) const TABLES: u32 = 3;

/// How many slots each has.
pub(crate) const SLOTS: u32 = 12;

/// How many bytes a file may have.
pub(crate) const MOST: usize = 1 << 20;

/// The tables over two files.
pub(crate) type Database<B> = SlotTables<FileStore<WriteThrough<B>>>;

/// Two files, after a database was opened over them or wasn't.
#[derive(Drop)]
pub(crate) struct Pair<B: Backing> {
    pub(crate) log: B,
    pub(crate) db: B,
}

fn table(name: &'static str, sql: &'static str) -> Object<'static> {
    Object {
        shape: Shape::Table,
        kind: "table",
        name,
        table: name,
        reals: 0,
        sql: Some(sql),
    }
}

fn schema() -> [Object<'static>; 3] {
    [
        table("first", "CREATE TABLE first(value INTEGER, filler BLOB)"),
        table("second", "CREATE TABLE second(value INTEGER, filler BLOB)"),
        table("third", "CREATE TABLE third(value INTEGER, filler BLOB)"),
    ]
}

fn unopened<B: Backing + Drop>(
    rt: &impl Abort,
    alloc: Global,
    files: Files<WriteThrough<B>>,
) -> Unopened<WriteThrough<B>> {
    let size = PageSize::new(1024).expect(rt, "a page size");
    let mut options = Options::new(7);
    options.cache_pages = 16;
    options.spill_pages = 100;
    options.checkpoint_frames = 12;
    let Ok(pager) = Pager::new(alloc, files, size, options) else {
        panic!(rt; "memory");
    };
    let Ok(unopened) = Unopened::new(alloc, pager, &schema()) else {
        panic!(rt; "memory");
    };
    unopened
}

/// The files of disks, with no call to them.
pub(crate) fn files_of<B: Backing>(files: Files<WriteThrough<B>>) -> Pair<B> {
    let Files { log, db } = files;
    Pair {
        log: log.into_file(),
        db: db.into_file(),
    }
}

/// The files of a database.
pub(crate) fn closed<B: Backing + Drop>(database: Database<B>) -> Pair<B> {
    files_of(database.into_trees().close())
}

/// Disks over two files, or the files.
pub(crate) fn disks_of<B: Backing + Drop>(
    alloc: Global,
    files: Pair<B>,
) -> Result<Files<WriteThrough<B>>, Pair<B>> {
    let Pair { log, db } = files;
    let log = match WriteThrough::new(alloc, log, MOST) {
        Ok(log) => log,
        Err((_, log)) => return Err(Pair { log, db }),
    };
    match WriteThrough::new(alloc, db, MOST) {
        Ok(db) => Ok(Files { log, db }),
        Err((_, db)) => Err(Pair {
            log: log.into_file(),
            db,
        }),
    }
}

/// A new database over disks, or their files.
pub(crate) fn created<B: Backing + Drop>(
    rt: &impl Abort,
    alloc: Global,
    disks: Files<WriteThrough<B>>,
) -> Result<Database<B>, Pair<B>> {
    match unopened(rt, alloc, disks).create() {
        Ok(store) => Ok(SlotTables::over(alloc, store)),
        Err((_, unopened)) => Err(files_of(unopened.close())),
    }
}

/// The database that disks have, or their files.
pub(crate) fn opened<B: Backing + Drop>(
    rt: &impl Abort,
    alloc: Global,
    disks: Files<WriteThrough<B>>,
) -> Result<Database<B>, Pair<B>> {
    match unopened(rt, alloc, disks).open_numbered() {
        Ok(store) => Ok(SlotTables::over(alloc, store)),
        Err((_, unopened)) => Err(files_of(unopened.close())),
    }
}
