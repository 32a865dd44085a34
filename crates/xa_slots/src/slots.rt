//! Tables of slots.
ghost use Rattle.std.specs.Prelude.{◌≡◌, ◌⊎◌, ◌<◌, ◌≤◌, ◌+◌, ℕ, pos, false, List, [], ◌∷◌, ◌++◌, None, Some};
ghost use Rattle.std.specs.Prelude.{drop, length, map, IfErr, IfNone, IfOk, IfSome, IsErrOf, IsSome};
ghost use Rattle.std.specs.Prelude.{IsTrue, OnErr, OnOk};
ghost use Rattle.sqlite_disk.specs.Disk.{MoreFaults};
ghost use Rattle.sqlite_value.specs.Value.{owned};
ghost use Rattle.sqlite_value.specs.Order.{column};
ghost use Rattle.sqlite_value.specs.declared.value.Value.TheVariants.{Int};
ghost use Rattle.sqlite_trees.specs.Tree.{Trees, put_row, without_rowid};
ghost use Rattle.sqlite_trees.specs.View.{Commits, HasCause, IsClean, IsFailure, IsQuiet, IsRolledBack, IsStorableRow};
ghost use Rattle.sqlite_trees.specs.View.{KeepsSchema, OnlyCommits, SetsTree, with_cursor};
ghost use Rattle.sqlite_trees.specs.declared.error.StoreError.TheVariants.{OutOfMemory};
ghost use Rattle.xa_slots.specs.{EndsTaken, Failed, HasNoSlots, HasReadCause, HasSlots, IsCommitted, IsSlotRow};
ghost use Rattle.xa_slots.specs.{Knows, NotSlots, OnlyReads, SlotsOfTables, row_of, rows_from, with_slot};

use crate::fault::TableReadFault;
use sqlite_trees::error::StoreError;
use sqlite_trees::store::{Direction, Shape, Store};
use sqlite_value::row::Row;
use sqlite_value::value::ValueRef;
use std::alloc::{AllocError, Global};

// The cursor by which a table is read.
const CURSOR: u16 = 0;

/// Tables of slots, over a store of trees: the tables are trees of the store, each by its number there.
pub struct SlotTables<S: Store> {
    pub trees: S,
    row: Row,
}

impl<S: Store + Drop> Drop for SlotTables<S> {
    fn drop(self) {
        let SlotTables { trees: _, row: _ } = self;
    }
}

// The rowid of a slot.
fn rowid_of(slot: u32) -> i64
    ensures { result ≡ pos (slot + 1) }
{
    i64::from(slot) + 1
}

// The row of a slot.
fn spell(row: &mut Row, slot: u32, cells: &[ValueRef<'_>]) -> Result<(), AllocError>
    ensures { OnOk result (row.new ≡ row_of slot (map owned cells.now)) }
{
    row.clear();
    row.push(ValueRef::Int(rowid_of(slot)))?;
    for cell in cells {
        row.push(*cell)?;
    }
    Ok(())
}

// The values of a row after its rowid.
#[tactic(auto, using(crate::proofs::Found::cells_more))]
fn cells_of(alloc: Global, row: &Row) -> Result<Row, AllocError>
    ensures { IfOk result (λ cells. cells ≡ drop 1 row.now) }
{
    let mut cells = Row::new(alloc);
    for at in 1..row.len() {
        cells.push(row.get(at))?;
    }
    Ok(cells)
}

// The slot of a row, where it is one from the first on, of so many.
fn slot_of(row: &Row, first: u32, count: u32) -> Option<u32>
    ensures slot { IfSome result (λ k. (first ≤ k) × (k < count) × (row.now ≡ row_of k (drop 1 row.now))) }
    ensures none { IfNone result (IsSlotRow first count row.now → ⊥) }
{
    let ValueRef::Int(rowid) = row.get(0) else {
        return None;
    };
    if rowid <= i64::from(first) || rowid > i64::from(count) {
        return None;
    }
    Some((rowid - 1) as u32)
}

// Puts empty slots at the end until there are so many.
#[tactic(auto, using(crate::proofs::Found::rows_none))]
fn fill(slots: &mut Vec<Option<Row>>, count: u32) -> Result<(), AllocError>
    requires { length slots.old.items ≤ count }
    ensures rows { OnOk result (rows_from 1 slots.new.items ≡ rows_from 1 slots.old.items) }
    ensures count { OnOk result (length slots.new.items ≡ count) }
{
    for _ in slots.len()..count as usize {
        slots.push(None)?;
    }
    Ok(())
}

// Puts the slot of the row at its place after these, of so many.
#[tactic(auto, using(crate::proofs::Found::rows_some, crate::proofs::Found::ends_taken))]
fn add(
    alloc: Global,
    slots: &mut Vec<Option<Row>>,
    row: &Row,
    count: u32,
) -> Result<(), TableReadFault>
    requires { length slots.old.items ≤ count }
    ensures rows { OnOk result (rows_from 1 slots.new.items ≡ rows_from 1 slots.old.items ++ row.now ∷ []) }
    ensures more { OnOk result (length slots.old.items < length slots.new.items) }
    ensures within { OnOk result (length slots.new.items ≤ count) }
    ensures taken { OnOk result (EndsTaken slots.new.items) }
    ensures refused { IsErrOf result NotSlots → IsSlotRow (length slots.old.items) count row.now → ⊥ }
    ensures fault { IfErr result (λ fault. (fault ≡ Failed OutOfMemory) ⊎ (fault ≡ NotSlots)) }
{
    let Some(slot) = slot_of(row, slots.len() as u32, count) else {
        return Err(TableReadFault::NotSlots);
    };
    fill(slots, slot)?;
    slots.push(Some(cells_of(alloc, row)?))?;
    Ok(())
}

impl<S: Store> SlotTables<S> {
    /// The tables over the trees of a store.
    pub fn over(alloc: Global, trees: S) -> SlotTables<S>
        ensures { result.trees ≡ trees }
    {
        SlotTables {
            trees,
            row: Row::new(alloc),
        }
    }

    /// The store, with no call to it.
    pub fn into_trees(self) -> S
        ensures { result ≡ self.trees }
    {
        let SlotTables { trees, row: _ } = self;
        trees
    }

    /// Puts the values in a slot, in place of what it had. After an `Err` the tables are as they were, or the
    /// transaction is broken, and can only be rolled back.
    pub fn set(&mut self, table: u32, slot: u32, cells: &[ValueRef<'_>]) -> Result<(), StoreError>
        requires table { IsClean (S.view self.old.trees) → (S.view self.old.trees).shape table ≡ Shape.Table }
        ensures set { (many : ℕ) (all : SlotsOfTables) → Knows many (S.view self.old.trees) all → table < many
            → slot < length (all table)
            → OnOk result (Knows many (S.view self.new.trees)
            (with_slot all table slot (Some (map owned cells.now)))) }

        // Nothing else changes, in this tree or another.
        ensures only { OnOk result (IsClean (S.view self.new.trees) → SetsTree (S.view self.old.trees)
            (S.view self.new.trees) table (put_row (row_of slot (map owned cells.now)))) }
        ensures schema { KeepsSchema (S.view self.old.trees) (S.view self.new.trees) }
        ensures err { IfErr result (IsFailure (S.view self.old.trees) (S.view self.new.trees)) }
        ensures cause { IsClean (S.view self.new.trees) → IfErr result (HasCause (S.view self.old.trees)
            (MoreFaults (S.faults self.old.trees) (S.faults self.new.trees))
            (¬ IsStorableRow ((S.view self.old.trees).reals table) (row_of slot (map owned cells.now)))) }
        ensures quiet { IsQuiet S.view S.faults S.recovers S.is_shielded self.old.trees self.new.trees }
    {
        spell(&mut self.row, slot, cells)?;
        self.trees.put(table, &self.row)?;
        Ok(())
    }

    /// Leaves a slot with nothing. After an `Err` the tables are as they were, or the transaction is broken, and can
    /// only be rolled back.
    pub fn clear(&mut self, table: u32, slot: u32) -> Result<(), StoreError>
        requires table { IsClean (S.view self.old.trees) → (S.view self.old.trees).shape table ≡ Shape.Table }
        ensures cleared { (many : ℕ) (all : SlotsOfTables) → Knows many (S.view self.old.trees) all → table < many
            → slot < length (all table)
            → OnOk result (Knows many (S.view self.new.trees) (with_slot all table slot None)) }

        // Nothing else changes, in this tree or another.
        ensures only { OnOk result (IsClean (S.view self.new.trees) → SetsTree (S.view self.old.trees)
            (S.view self.new.trees) table (without_rowid (pos (slot + 1)))) }
        ensures schema { KeepsSchema (S.view self.old.trees) (S.view self.new.trees) }
        ensures err { IfErr result (IsFailure (S.view self.old.trees) (S.view self.new.trees)) }
        ensures cause { IsClean (S.view self.new.trees) → IfErr result (HasCause (S.view self.old.trees)
            (MoreFaults (S.faults self.old.trees) (S.faults self.new.trees)) ⊥) }
        ensures quiet { IsQuiet S.view S.faults S.recovers S.is_shielded self.old.trees self.new.trees }
    {
        self.trees.delete(table, rowid_of(slot))?;
        Ok(())
    }

    /// Makes all that was written since the last commit durable, at once. A crash in the middle is a disk that fails
    /// from some call on, after which this answers an error: it leaves the slots as they were, or as they are.
    pub fn commit(&mut self) -> Result<(), StoreError>
        ensures committed { (many : ℕ) (all : SlotsOfTables) → Knows many (S.view self.old.trees) all
            → OnOk result (Knows many (S.view self.new.trees) all
            × IsCommitted many (S.view self.new.trees) (S.recovers self.new.trees) all) }
        ensures only { OnOk result (IsClean (S.view self.new.trees)
            → Commits (S.view self.old.trees) (S.view self.new.trees)
            × OnlyCommits (S.view self.old.trees) (S.view self.new.trees)) }
        ensures err { OnErr result (IsRolledBack (S.view self.old.trees) (S.view self.new.trees)) }
        ensures cause { IsClean (S.view self.new.trees) → IfErr result (HasCause (S.view self.old.trees)
            (MoreFaults (S.faults self.old.trees) (S.faults self.new.trees)) ⊥) }
        ensures crash { (many : ℕ) (all : SlotsOfTables) → Knows many (S.view self.old.trees) all
            → IsClean (S.view self.new.trees) → (db : Trees) → S.recovers self.new.trees db
            → HasSlots many all db ⊎ S.recovers self.old.trees db }
        ensures clean { IsClean (S.view self.new.trees) → IsClean (S.view self.old.trees) }
        ensures counts { S.faults self.old.trees ≤ S.faults self.new.trees }
    {
        self.trees.commit()?;
        Ok(())
    }

    // Places the cursor before the first row of a table.
    fn begin(&mut self, table: u32) -> Result<(), StoreError>
        requires table { IsClean (S.view self.old.trees) → (S.view self.old.trees).shape table ≡ Shape.Table }
        ensures begun { OnOk result (IsClean (S.view self.new.trees)
            → S.view self.new.trees ≡ with_cursor (S.view self.old.trees) 0 ((S.view self.old.trees).trees table)) }
        ensures live { OnOk result (IsSome ((S.view self.new.trees).cursors 0)) }
        ensures sound { OnOk result (IsClean (S.view self.new.trees) → (S.view self.old.trees).is_broken ≡ false) }
        ensures cause { IsClean (S.view self.new.trees) → IfErr result (HasCause (S.view self.old.trees)
            (MoreFaults (S.faults self.old.trees) (S.faults self.new.trees)) ⊥) }
        ensures quiet { IsQuiet S.view S.faults S.recovers S.is_shielded self.old.trees self.new.trees }
    {
        self.row.clear();
        self.trees
            .seek(CURSOR, table, &self.row, Direction::Forward)?;
        Ok(())
    }

    /// The slots of a table that has so many, up to the last that is taken: those after it have nothing. A table with a
    /// row that is none of them is `NotSlots`: one whose rowid is below 1, or above the count.
    pub fn read(
        &mut self,
        alloc: Global,
        table: u32,
        count: u32,
    ) -> Result<Vec<Option<Row>>, TableReadFault>
        requires table { IsClean (S.view self.old.trees) → (S.view self.old.trees).shape table ≡ Shape.Table }
        ensures few { IfOk result (λ slots. length slots.items ≤ count) }
        ensures last { IfOk result (λ slots. EndsTaken slots.items) }
        ensures rows { IfOk result (λ slots. IsClean (S.view self.new.trees)
            → (S.view self.old.trees).trees table ≡ rows_from 1 slots.items) }
        ensures sound { OnOk result (IsClean (S.view self.new.trees) → (S.view self.old.trees).is_broken ≡ false) }
        ensures only { OnOk result (OnlyReads (S.view self.old.trees) (S.view self.new.trees)) }
        ensures refused { IsErrOf result NotSlots → IsClean (S.view self.new.trees)
            → HasNoSlots count ((S.view self.old.trees).trees table) }
        ensures cause { IsClean (S.view self.new.trees) → IfErr result (HasReadCause (S.view self.old.trees)
            (MoreFaults (S.faults self.old.trees) (S.faults self.new.trees))) }
        ensures quiet { IsQuiet S.view S.faults S.recovers S.is_shielded self.old.trees self.new.trees }
    {
        self.begin(table)?;
        let mut slots = Vec::new(alloc);
        while self.trees.next(CURSOR, &mut self.row)? {
            add(alloc, &mut slots, &self.row, count)?;
        }
        Ok(slots)
    }

    /// Where nothing was written since the last commit, as in a store that was just opened, an open finds these slots
    /// whenever a crash comes. It does nothing.
    pub fn are_committed(&self)
        ensures { (many : ℕ) (all : SlotsOfTables) → IsTrue (S.view self.now.trees).is_open
            → (S.view self.now.trees).trees ≡ (S.view self.now.trees).committed
            → HasSlots many all (S.view self.now.trees).trees
            → IsCommitted many (S.view self.now.trees) (S.recovers self.now.trees) all }
    {}
}
