//! The database of a store.
ghost use Rattle.std.specs.Prelude.{◌≡◌, IfErr, IfOk, map, true};
ghost use Rattle.sqlite_store.specs.Catalog.{wanted_of};
ghost use Rattle.sqlite_store.specs.FileStore.{IsReady, view};
ghost use Rattle.sqlite_store.specs.Unopened.{AreUsable, files_of, state_of, wanted_by};
ghost use Rattle.sqlite_trees.specs.Tree.{Trees};
ghost use Rattle.sqlite_wal.specs.Files.{seen_image};
ghost use Rattle.xa_store_sqlite.specs.Files.{AreOpenedAs, AreSynced, HasTrees, IsUnstarted, page_bytes, store_schema};
ghost use Rattle.xa_store_sqlite.specs.Files.{table_by};
ghost use Rattle.xa_store_sqlite.specs.Refusals.{is_of_device};
ghost use Rattle.xa_store_sqlite.specs.Writes.{IsLaid};

use crate::fault::{StoreOpenFault, unopened};
use sqlite_disk::{Disk, Files};
use sqlite_pager::{Options, PageSize, Pager};
use sqlite_store::{FileStore, OpenError, Unopened};
use sqlite_trees::schema::Object;
use sqlite_trees::store::Shape;
use sqlite_value::row::Row;
use sqlite_value::value::ValueRef;
use std::alloc::Global;
use xa_disk::{Backing, WriteThrough};
use xa_slots::SlotTables;

/// The bytes of a page, of which the last eight are its checksum.
pub const PAGE_SIZE: u32 = 4096;

// How many pages that were read are kept in memory. Others are read again of the disk's copy, which is there too.
const CACHE_PAGES: usize = 64;

// How many pages of a settle are kept in memory, before they go to the log: more than 64 branches with 256 changes
// take.
const SPILL_PAGES: usize = 256;

/// The trees in two files.
pub(crate) type TreesIn<B> = FileStore<WriteThrough<B>>;

fn table(name: &'static str, sql: &'static str) -> Object<'static>
    ensures { wanted_of result ≡ table_by name.now sql.now }
{
    Object {
        shape: Shape::Table,
        kind: "table",
        name,
        table: name,
        reals: 0,
        sql: Some(sql),
    }
}

// The tables by their numbers. A file is a store only where it has just these texts.
fn schema() -> [Object<'static>; 4]
    ensures { map wanted_of result ≡ store_schema }
{
    [
        table(
            "accounts",
            "CREATE TABLE accounts(id INTEGER PRIMARY KEY, name TEXT NOT NULL, value INTEGER NOT NULL) STRICT",
        ),
        table(
            "branches",
            "CREATE TABLE branches(id INTEGER PRIMARY KEY, format INTEGER NOT NULL, gtrid BLOB NOT NULL, \
             bqual BLOB NOT NULL, state TEXT NOT NULL) STRICT",
        ),
        table(
            "changes",
            "CREATE TABLE changes(id INTEGER PRIMARY KEY REFERENCES accounts(id), \
             branch INTEGER NOT NULL REFERENCES branches(id), delta INTEGER NOT NULL) STRICT",
        ),
        table(
            "store",
            "CREATE TABLE store(id INTEGER PRIMARY KEY, version INTEGER NOT NULL, number INTEGER NOT NULL) STRICT",
        ),
    ]
}

fn over<B: Backing + Drop>(
    alloc: Global,
    files: Files<WriteThrough<B>>,
) -> Result<Unopened<WriteThrough<B>>, StoreOpenFault>
    ensures usable { IfOk result AreUsable }
    ensures files { IfOk result (λ it. files_of it ≡ (files.log, files.db)) }
    ensures size { IfOk result (λ it. (state_of it).page_size ≡ page_bytes) }
    ensures schema { IfOk result (λ it. wanted_by it ≡ store_schema) }
    ensures device { IfErr result (λ fault. is_of_device fault ≡ true) }
{
    if !files.may_be_used() {
        return Err(StoreOpenFault::Failed);
    }
    let Some(size) = PageSize::new(PAGE_SIZE as usize) else {
        return Err(StoreOpenFault::Failed);
    };
    let mut options = Options::new(1);
    options.cache_pages = CACHE_PAGES;
    options.spill_pages = SPILL_PAGES;
    let pager = Pager::new(alloc, files, size, options)?;
    Ok(Unopened::with_sums(alloc, pager, &schema(), true)?)
}

fn is_text(value: ValueRef<'_>, text: &str) -> bool {
    match value {
        ValueRef::Text(found) => found == text.as_bytes(),
        _ => false,
    }
}

// Whether a row of sqlite_schema lists this table. Its columns are the rowid, the type, the name, the table and the
// SQL text, before which there may be the root page.
fn lists(row: &Row, table: &Object<'_>) -> bool {
    is_text(row.get(2), table.name)
        && match table.sql {
            Some(sql) => is_text(row.get(4), sql) || is_text(row.get(5), sql),
            None => false,
        }
}

// Whether these are the rows of sqlite_schema in a store.
fn are_of_a_store(rows: &[Row]) -> bool {
    let tables = schema();
    if rows.len() != tables.len() {
        return false;
    }
    for at in 0..tables.len() {
        if !lists(&rows[at], &tables[at]) {
            return false;
        }
    }
    true
}

// Why files aren't opened that hold a database with this list of tables.
fn fault_of(rows: &[Row]) -> StoreOpenFault {
    if rows.is_empty() {
        return StoreOpenFault::NotADatabase;
    }
    if are_of_a_store(rows) {
        StoreOpenFault::Damaged
    } else {
        StoreOpenFault::OtherTables
    }
}

// Why these files aren't opened. Nothing is made in them.
fn fault_in<B: Backing + Drop>(alloc: Global, files: Files<WriteThrough<B>>) -> StoreOpenFault {
    let mut found = match over(alloc, files) {
        Ok(found) => found,
        Err(fault) => return fault,
    };
    match found.read_catalog() {
        Ok(rows) => fault_of(&rows),
        Err(error) => unopened(error, StoreOpenFault::NotADatabase),
    }
}

// The tables of the store's database that is in these files.
fn found<B: Backing + Drop>(
    alloc: Global,
    files: Files<WriteThrough<B>>,
) -> Result<SlotTables<TreesIn<B>>, StoreOpenFault>
    ensures ready { IfOk result (λ t. IsReady t.trees) }
    ensures laid { IfOk result (λ t. IsLaid (view t.trees)) }
    ensures has { IfOk result (λ t. HasTrees (seen_image ⟦<WriteThrough<B> as Disk>⟧ files.log files.db)
        (view t.trees).trees) }
    ensures device { (trees : Trees) → HasTrees (seen_image ⟦<WriteThrough<B> as Disk>⟧ files.log files.db) trees
        → IfErr result (λ fault. is_of_device fault ≡ true) }
{
    match over(alloc, files)?.open_numbered() {
        Ok(trees) => Ok(SlotTables::over(alloc, trees)),
        Err((OpenError::Refused, refused)) => Err(fault_in(alloc, refused.close())),
        Err((error, _)) => Err(unopened(error, StoreOpenFault::Failed)),
    }
}

/// The tables of the database in these files. It is made with empty ones where there is none, or where the making of
/// one didn't end. That is tried first, as each opening of what is there begins the log anew, by which such a making
/// is known.
pub(crate) fn tables_in<B: Backing + Drop>(
    alloc: Global,
    files: Files<WriteThrough<B>>,
) -> Result<SlotTables<TreesIn<B>>, StoreOpenFault>
    ensures ready { IfOk result (λ t. IsReady t.trees) }
    ensures laid { IfOk result (λ t. IsLaid (view t.trees)) }
    ensures opened { AreSynced ⟦<WriteThrough<B> as Disk>⟧ files.log files.db → IfOk result (λ t.
        AreOpenedAs (seen_image ⟦<WriteThrough<B> as Disk>⟧ files.log files.db) (view t.trees).trees) }

    // Files that hold a store's database are refused for want of memory, of room or of a disk alone.
    ensures device { AreSynced ⟦<WriteThrough<B> as Disk>⟧ files.log files.db → (trees : Trees)
        → HasTrees (seen_image ⟦<WriteThrough<B> as Disk>⟧ files.log files.db) trees
        → IfErr result (λ fault. is_of_device fault ≡ true) }

    // So are files in which no database was made yet, or the making of one didn't end.
    ensures made { ∥ IsUnstarted (seen_image ⟦<WriteThrough<B> as Disk>⟧ files.log files.db) ∥₁
        → IfErr result (λ fault. is_of_device fault ≡ true) }
{
    match over(alloc, files)?.create() {
        Ok(trees) => Ok(SlotTables::over(alloc, trees)),
        Err((OpenError::Refused, refused)) => found(alloc, refused.close()),
        Err((error, _)) => Err(unopened(error, StoreOpenFault::Failed)),
    }
}
