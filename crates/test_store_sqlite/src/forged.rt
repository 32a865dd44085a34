//! Stores with rows that no store writes, and databases with other tables.

use crate::files::{Bytes, NONE, Tapes, closed_trees, disks_of, image, nothing, tapes_of};
use crate::served::{Served, branch};
use sqlite_pager::{Options, PageSize, Pager};
use sqlite_store::{FileStore, Unopened};
use sqlite_trees::schema::Object;
use sqlite_trees::store::{Shape, Store as Trees};
use sqlite_value::row::Row;
use sqlite_value::value::ValueRef;
use std::alloc::Global;
use std::process::Abort;
use xa_disk::{Tape, WriteThrough};
use xa_slots::SlotTables;
use xa_store_sqlite::PAGE_SIZE;
use xa_words::Op;

/// The tables by their numbers.
pub(crate) const ACCOUNTS: u32 = 0;

pub(crate) const BRANCHES: u32 = 1;

pub(crate) const CHANGES: u32 = 2;

pub(crate) const STORE: u32 = 3;

/// The texts of the tables, by their numbers: a file of this version has just these.
pub(crate) const TEXTS: [(&str, &str); 4] = [
    (
        "accounts",
        "CREATE TABLE accounts(id INTEGER PRIMARY KEY, name TEXT NOT NULL, value INTEGER NOT NULL) STRICT",
    ),
    (
        "branches",
        "CREATE TABLE branches(id INTEGER PRIMARY KEY, format INTEGER NOT NULL, gtrid BLOB NOT NULL, \
            bqual BLOB NOT NULL, state TEXT NOT NULL) STRICT",
    ),
    (
        "changes",
        "CREATE TABLE changes(id INTEGER PRIMARY KEY REFERENCES accounts(id), \
            branch INTEGER NOT NULL REFERENCES branches(id), delta INTEGER NOT NULL) STRICT",
    ),
    (
        "store",
        "CREATE TABLE store(id INTEGER PRIMARY KEY, version INTEGER NOT NULL, number INTEGER NOT NULL) STRICT",
    ),
];

/// A store with `a` at 100 and `b` at 55, and three branches: x in slot 0 is prepared and has taken 30 from `a`, y in
/// slot 1 was committed heuristically, and z in slot 2 rolled back.
pub(crate) fn full(rt: &impl Abort, alloc: Global) -> Served {
    let mut served = Served::new(rt, alloc);
    let (x, y, z) = (branch(rt, b"x"), branch(rt, b"y"), branch(rt, b"z"));
    served.does(rt, Op::OpenRm);
    served.prepare(rt, x, b"a", -30);
    served.settle(rt);
    served.prepare(rt, y, b"b", 5);
    served.does(rt, Op::Heur(y, true));
    served.settle(rt);
    served.prepare(rt, z, b"b", -1);
    served.does(rt, Op::Heur(z, false));
    served.settle(rt);
    served
}

/// The files of the full store, of which the log was copied to the database file.
pub(crate) fn full_bytes(rt: &impl Abort, alloc: Global) -> Bytes {
    let Served { manager: _, store } = full(rt, alloc);
    let mut trees = store.into_trees();
    assert!(rt; trees.checkpoint().is_ok());
    let Bytes { log: _, db } = image(rt, alloc, &closed_trees(trees), (0, 0));
    Bytes {
        log: Vec::new(alloc),
        db,
    }
}

fn table(name: &'static str, sql: &'static str) -> Object<'static> {
    Object {
        shape: Shape::Table,
        kind: "table",
        name,
        table: name,
        reals: 0,
        sql: Some(sql),
    }
}

/// These tables over files, with memory for few pages.
pub(crate) fn unopened(
    rt: &impl Abort,
    alloc: Global,
    bytes: &Bytes,
    texts: &[(&'static str, &'static str)],
) -> Unopened<WriteThrough<Tape>> {
    let mut schema = Vec::new(alloc);
    for text in texts {
        schema.push(table(text.0, text.1)).expect(rt, "memory");
    }
    let Tapes { log, db } = tapes_of(rt, alloc, bytes, NONE);
    let files = disks_of(alloc, log, db).expect(rt, "disks");
    let size = PageSize::new(PAGE_SIZE as usize).expect(rt, "a size of pages");
    let mut options = Options::new(1);
    options.cache_pages = 8;
    options.spill_pages = 8;
    let Ok(pager) = Pager::new(alloc, files, size, options) else {
        panic!(rt; "no pager");
    };
    match Unopened::with_sums(alloc, pager, &schema, true) {
        Ok(unopened) => unopened,
        Err(_) => panic!(rt; "no memory"),
    }
}

/// The files of a database with these tables, and no row.
pub(crate) fn made_of(
    rt: &impl Abort,
    alloc: Global,
    texts: &[(&'static str, &'static str)],
) -> Bytes {
    match unopened(rt, alloc, &nothing(alloc), texts).create() {
        Ok(trees) => image(rt, alloc, &closed_trees(trees), (0, 0)),
        Err(_) => panic!(rt; "no database"),
    }
}

/// The tables of a store, in which any row is put.
pub(crate) struct Forged {
    alloc: Global,
    tables: SlotTables<FileStore<WriteThrough<Tape>>>,
}

impl Forged {
    /// The tables in the files of a store.
    pub(crate) fn new(rt: &impl Abort, alloc: Global, bytes: &Bytes) -> Forged {
        match unopened(rt, alloc, bytes, &TEXTS).open_numbered() {
            Ok(trees) => Forged {
                alloc,
                tables: SlotTables::over(alloc, trees),
            },
            Err(_) => panic!(rt; "no database"),
        }
    }

    /// Puts these cells in a slot.
    pub(crate) fn set(&mut self, rt: &impl Abort, table: u32, slot: u32, cells: &[ValueRef<'_>]) {
        assert!(rt; self.tables.set(table, slot, cells).is_ok());
    }

    /// Leaves a slot with nothing.
    pub(crate) fn clear(&mut self, rt: &impl Abort, table: u32, slot: u32) {
        assert!(rt; self.tables.clear(table, slot).is_ok());
    }

    /// Puts a row of three cells with any rowid.
    pub(crate) fn put(
        &mut self,
        rt: &impl Abort,
        table: u32,
        rowid: i64,
        cells: [ValueRef<'_>; 3],
    ) {
        let mut row = Row::new(self.alloc);
        row.push(ValueRef::Int(rowid)).expect(rt, "memory");
        for cell in cells {
            row.push(cell).expect(rt, "memory");
        }
        assert!(rt; self.tables.trees.put(table, &row).is_ok());
    }

    /// The files, once it is committed.
    pub(crate) fn kept(self, rt: &impl Abort) -> Bytes {
        let Forged { alloc, mut tables } = self;
        assert!(rt; tables.commit().is_ok());
        image(rt, alloc, &closed_trees(tables.into_trees()), (0, 0))
    }
}
