//! Reading what a file has.
ghost use Rattle.std.specs.Prelude.{◌≡◌, ◌≤◌, ◌++◌, IfErr, IfOk, IfSome, OnOk, IsErrAnd, IsErrOf, IsSomeAnd};
ghost use Rattle.std.specs.Prelude.{None, Some, length, map, option_map, replicate, is_some, false, true};
ghost use Rattle.std.specs.Prelude.{[], ◌∷◌, ◌<◌, ℕ, ℤ};
ghost use Rattle.std.specs.List.{All};
ghost use Rattle.sqlite_disk.specs.Disk.{MoreFaults};
ghost use Rattle.sqlite_trees.specs.Tree.{Trees};
ghost use Rattle.sqlite_trees.specs.View.{IsClean, IsQuiet};
ghost use Rattle.xa_base.specs.declared.limits.TheConstants.{MOST_KEYS, MOST_VALUE};
ghost use Rattle.xa_slots.specs.{EndsTaken, OnlyReads, rows_from};
ghost use Rattle.xa_store_sqlite.specs.declared.fault.StoreOpenFault.{StoreOpenFault};
ghost use Rattle.xa_store_sqlite.specs.declared.fault.StoreOpenFault.TheVariants.{OtherNumber};
ghost use Rattle.xa_store_sqlite.specs.Images.{HasImage, Image, account_cells, branch_cells, change_cells};
ghost use Rattle.xa_store_sqlite.specs.Images.{table_number, store_cells, stored_of};
ghost use Rattle.xa_store_sqlite.specs.Refusals.{IsNoChangeFor, IsNotBareFor, StoreIsRefused, IsRefusedForRows};
ghost use Rattle.xa_store_sqlite.specs.Refusals.{IsUnreadFor, IsOrOfDevice, IsOther, MayBeOfStore, fault_of_bare};
ghost use Rattle.xa_store_sqlite.specs.Refusals.{is_of_device};
ghost use Rattle.xa_store_sqlite.specs.Writes.{AreOwned, AreOwnedBy, IsLaid, image_of, item_at};
ghost use Rattle.xa_store_sqlite.specs.declared.mirror.TheConstants.{MOST_BRANCHES};

use crate::fault::{RowFault, StoreOpenFault, Table, unread};
use crate::mirror::{Branch, Change, MOST_BRANCHES, Mirror};
use crate::rows::{VERSION, account_in, branch_in, change_in, store_in};
use sqlite_trees::store::Store;
use sqlite_value::row::Row;
use std::alloc::{AllocError, Global};
use xa_base::MOST_KEYS;
use xa_slots::{SlotTables, TableReadFault};
use xa_words::Key;

// The slots of a table, of which it has so many, up to the last that is taken.
fn read<S: Store>(
    tables: &mut SlotTables<S>,
    alloc: Global,
    table: Table,
    count: u32,
) -> Result<Vec<Option<Row>>, StoreOpenFault>
    requires { IsLaid (S.view tables.old.trees) }
    ensures few { IfOk result (λ slots. length slots.items ≤ count) }
    ensures last { IfOk result (λ slots. EndsTaken slots.items) }
    ensures rows { IfOk result (λ slots. IsClean (S.view tables.new.trees)
        → (S.view tables.old.trees).trees (table_number table) ≡ rows_from 1 slots.items) }
    ensures sound { OnOk result (IsClean (S.view tables.new.trees) → (S.view tables.old.trees).is_broken ≡ false) }
    ensures only { OnOk result (OnlyReads (S.view tables.old.trees) (S.view tables.new.trees)) }
    ensures laid { OnOk result (IsLaid (S.view tables.new.trees)) }
    ensures refused { IsClean (S.view tables.new.trees) → IfErr result (IsUnreadFor table count
        ((S.view tables.old.trees).trees (table_number table)) (S.view tables.old.trees).is_broken
        (MoreFaults (S.faults tables.old.trees) (S.faults tables.new.trees))) }
    ensures quiet { IsQuiet S.view S.faults S.recovers S.is_shielded tables.old.trees tables.new.trees }
{
    match tables.read(alloc, table.number(), count) {
        Ok(slots) => Ok(slots),
        Err(fault) => Err(unread(table, fault)),
    }
}

// The accounts of these slots, of which the first are taken and the others not.
fn accounts_of(alloc: Global, slots: &[Option<Row>]) -> Result<Vec<(Key, u64)>, StoreOpenFault>
    requires { length slots.now ≤ MOST_BRANCHES }
    ensures rows { IfOk result (λ v. rows_from 1 (map (λ a. Some (account_cells a)) v.items) ≡ rows_from 1 slots.now) }
    ensures small { IfOk result (λ v. All (λ a. a.1 ≤ MOST_VALUE) v.items) }
    ensures few { IfOk result (λ v. length v.items ≤ length slots.now) }
    ensures refused { (number : ℤ) (room : ℕ) (trees : Trees) → trees 0 ≡ rows_from 1 slots.now
        → IfErr result (IsRefusedForRows number room trees) }
{
    let mut accounts = Vec::with_capacity(alloc, slots.len())?;
    for (slot, row) in slots.iter().enumerate() {
        let Some(row) = row else {
            continue;
        };
        if slot != accounts.len() {
            return Err(StoreOpenFault::BadRow(Table::Accounts, slot as u32, RowFault::Gap));
        }
        match account_in(row) {
            Ok(account) => accounts.push(account)?,
            Err(fault) => return Err(StoreOpenFault::BadRow(Table::Accounts, slot as u32, fault)),
        }
    }
    Ok(accounts)
}

// The branches of these slots.
fn branches_of(
    alloc: Global,
    slots: &[Option<Row>],
    room: usize,
) -> Result<Vec<Option<Branch>>, StoreOpenFault>
    requires { length slots.now ≤ MOST_BRANCHES }
    ensures branches { IfOk result (λ v. map (λ b. option_map branch_cells b) v.items ≡ slots.now) }
    ensures refused { (number : ℤ) (all : ℕ) (trees : Trees) → trees 1 ≡ rows_from 1 slots.now
        → IfErr result (IsRefusedForRows number all trees) }
{
    let mut branches = Vec::with_capacity(alloc, slots.len().saturating_add(room))?;
    for (slot, row) in slots.iter().enumerate() {
        let branch = match row {
            None => None,
            Some(row) => match branch_in(row) {
                Ok(branch) => Some(branch),
                Err(fault) => return Err(StoreOpenFault::BadRow(
                    Table::Branches,
                    slot as u32,
                    fault,
                )),
            },
        };
        branches.push(branch)?;
    }
    Ok(branches)
}

// So many free slots more.
fn widen(branches: &mut Vec<Option<Branch>>, room: usize) -> Result<(), AllocError>
    ensures { OnOk result (branches.new.items ≡ branches.old.items ++ replicate room None) }
{
    for _ in 0..room {
        branches.push(None)?;
    }
    Ok(())
}

// The change of a row, whose branch is there.
fn known_change_in(row: &Row, branches: &[Option<Branch>]) -> Result<Change, RowFault>
    ensures change { IfOk result (λ c. row.now ≡ change_cells c) }
    ensures owned { IfOk result (λ c. is_some (item_at branches.now c.branch) ≡ true) }
    ensures refused { IfErr result (IsNoChangeFor
        (rows_from 1 (map (λ b. option_map branch_cells b) branches.now)) row.now) }
{
    let change = change_in(row)?;
    match branches.get(change.branch as usize) {
        None => Err(RowFault::Unknown),
        Some(None) => Err(RowFault::Unknown),
        Some(Some(_)) => Ok(change),
    }
}

// The changes of these slots, each of a branch that is there.
fn changes_of(
    alloc: Global,
    slots: &[Option<Row>],
    branches: &[Option<Branch>],
) -> Result<Vec<Option<Change>>, StoreOpenFault>
    requires { length slots.now ≤ MOST_BRANCHES }
    ensures changes { IfOk result (λ v. map (λ c. option_map change_cells c) v.items ≡ slots.now) }
    ensures owned { IfOk result (λ v. AreOwnedBy branches.now v.items) }
    ensures refused { (number : ℤ) (room : ℕ) (trees : Trees) → trees 2 ≡ rows_from 1 slots.now
        → trees 1 ≡ rows_from 1 (map (λ b. option_map branch_cells b) branches.now)
        → IfErr result (IsRefusedForRows number room trees) }
{
    let mut changes = Vec::with_capacity(alloc, slots.len())?;
    for (slot, row) in slots.iter().enumerate() {
        let change = match row {
            None => None,
            Some(row) => match known_change_in(row, branches) {
                Ok(change) => Some(change),
                Err(fault) => return Err(StoreOpenFault::BadRow(
                    Table::Changes,
                    slot as u32,
                    fault,
                )),
            },
        };
        changes.push(change)?;
    }
    Ok(changes)
}

// Why a table that is to have no row isn't read.
fn not_bare(fault: TableReadFault) -> StoreOpenFault
    ensures { result ≡ fault_of_bare fault }
{
    match fault {
        TableReadFault::Failed(error) => StoreOpenFault::from(error),
        TableReadFault::NotSlots => StoreOpenFault::NotAStore,
    }
}

// The slots, none at all, of a table that has no row. One that has a row is refused.
fn no_slots<S: Store>(
    tables: &mut SlotTables<S>,
    alloc: Global,
    table: Table,
) -> Result<Vec<Option<Row>>, StoreOpenFault>
    requires { IsLaid (S.view tables.old.trees) }
    ensures bare { OnOk result (IsClean (S.view tables.new.trees)
        → (S.view tables.old.trees).trees (table_number table) ≡ []) }
    ensures only { OnOk result (OnlyReads (S.view tables.old.trees) (S.view tables.new.trees)) }
    ensures laid { OnOk result (IsLaid (S.view tables.new.trees)) }
    ensures refused { table_number table < 3 → IsClean (S.view tables.new.trees) → IfErr result (IsNotBareFor
        (S.view tables.old.trees).trees (S.view tables.old.trees).is_broken
        (MoreFaults (S.faults tables.old.trees) (S.faults tables.new.trees))) }
    ensures quiet { IsQuiet S.view S.faults S.recovers S.is_shielded tables.old.trees tables.new.trees }
{
    match tables.read(alloc, table.number(), 0) {
        Ok(slots) => Ok(slots),
        Err(fault) => Err(not_bare(fault)),
    }
}

// Refuses tables of which one has a row.
fn check_empty<S: Store>(tables: &mut SlotTables<S>, alloc: Global) -> Result<(), StoreOpenFault>
    requires { IsLaid (S.view tables.old.trees) }
    ensures bare { OnOk result (IsClean (S.view tables.new.trees) → (t : ℕ) → t < 3
        → (S.view tables.old.trees).trees t ≡ []) }
    ensures only { OnOk result (OnlyReads (S.view tables.old.trees) (S.view tables.new.trees)) }
    ensures laid { OnOk result (IsLaid (S.view tables.new.trees)) }
    ensures refused { IsClean (S.view tables.new.trees) → IfErr result (IsNotBareFor
        (S.view tables.old.trees).trees (S.view tables.old.trees).is_broken
        (MoreFaults (S.faults tables.old.trees) (S.faults tables.new.trees))) }
    ensures quiet { IsQuiet S.view S.faults S.recovers S.is_shielded tables.old.trees tables.new.trees }
{
    let _accounts = no_slots(tables, alloc, Table::Accounts)?;
    let _branches = no_slots(tables, alloc, Table::Branches)?;
    let _changes = no_slots(tables, alloc, Table::Changes)?;
    Ok(())
}

// Refuses another version of the layout, and another file.
fn check_store(row: &Row, number: i64) -> Result<(), StoreOpenFault>
    ensures store { OnOk result (row.now ≡ store_cells number) }
    ensures other { IsErrOf result OtherNumber → row.now ≡ store_cells number → ⊥ }
    ensures refused { (room : ℕ) (trees : Trees) → trees 3 ≡ rows_from 1 (Some row.now ∷ [])
        → IfErr result (IsRefusedForRows number room trees) }
    ensures others { (wanted : StoreOpenFault) → IsOther number (rows_from 1 (Some row.now ∷ [])) wanted
        → IsErrOf result wanted }
{
    match store_in(row) {
        Err(fault) => Err(StoreOpenFault::BadRow(Table::Store, 0, fault)),
        Ok((version, _)) if version != VERSION => Err(StoreOpenFault::OtherVersion),
        Ok((_, found)) if found != number => Err(StoreOpenFault::OtherNumber),
        Ok(_) => Ok(()),
    }
}

// Whether the file says that it is this store. One with no row at all was made, and no more.
fn is_filled<S: Store>(
    tables: &mut SlotTables<S>,
    alloc: Global,
    number: i64,
) -> Result<bool, StoreOpenFault>
    requires { IsLaid (S.view tables.old.trees) }
    ensures filled { IfOk result (λ is. is ≡ true → IsClean (S.view tables.new.trees)
        → (S.view tables.old.trees).trees 3 ≡ rows_from 1 (Some (store_cells number) ∷ [])) }
    ensures bare { IfOk result (λ is. is ≡ false → IsClean (S.view tables.new.trees) → (t : ℕ) → t < 4
        → (S.view tables.old.trees).trees t ≡ []) }
    ensures sound { OnOk result (IsClean (S.view tables.new.trees) → (S.view tables.old.trees).is_broken ≡ false) }
    ensures only { OnOk result (OnlyReads (S.view tables.old.trees) (S.view tables.new.trees)) }
    ensures laid { OnOk result (IsLaid (S.view tables.new.trees)) }
    ensures refused { (room : ℕ) → IsClean (S.view tables.new.trees) → IfErr result (StoreIsRefused number room
        (S.view tables.old.trees) (MoreFaults (S.faults tables.old.trees) (S.faults tables.new.trees))) }
    ensures others { (wanted : StoreOpenFault) → IsOther number ((S.view tables.old.trees).trees 3) wanted
        → IsClean (S.view tables.new.trees) → IsErrAnd result (IsOrOfDevice wanted) }
    ensures quiet { IsQuiet S.view S.faults S.recovers S.is_shielded tables.old.trees tables.new.trees }
{
    let slots = read(tables, alloc, Table::Store, 1)?;
    match slots.get(0) {
        Some(Some(row)) => {
            check_store(row, number)?;
            Ok(true)
        }
        Some(None) => {
            check_empty(tables, alloc)?;
            Ok(false)
        }
        None => {
            check_empty(tables, alloc)?;
            Ok(false)
        }
    }
}

// The accounts of the file.
fn read_accounts<S: Store>(
    tables: &mut SlotTables<S>,
    alloc: Global,
) -> Result<Vec<(Key, u64)>, StoreOpenFault>
    requires { IsLaid (S.view tables.old.trees) }
    ensures rows { IfOk result (λ v. IsClean (S.view tables.new.trees)
        → (S.view tables.old.trees).trees 0 ≡ rows_from 1 (map (λ a. Some (account_cells a)) v.items)) }
    ensures small { IfOk result (λ v. All (λ a. a.1 ≤ MOST_VALUE) v.items) }
    ensures few { IfOk result (λ v. length v.items ≤ MOST_KEYS) }
    ensures only { OnOk result (OnlyReads (S.view tables.old.trees) (S.view tables.new.trees)) }
    ensures laid { OnOk result (IsLaid (S.view tables.new.trees)) }
    ensures refused { (number : ℤ) (room : ℕ) → IsClean (S.view tables.new.trees)
        → IfErr result (StoreIsRefused number room
        (S.view tables.old.trees) (MoreFaults (S.faults tables.old.trees) (S.faults tables.new.trees))) }
    ensures quiet { IsQuiet S.view S.faults S.recovers S.is_shielded tables.old.trees tables.new.trees }
{
    let slots = read(tables, alloc, Table::Accounts, MOST_KEYS as u32)?;
    accounts_of(alloc, &slots)
}

// The branches of these slots of the table, of which the last is taken, with free slots for so many more.
fn with_room(
    alloc: Global,
    slots: &[Option<Row>],
    room: usize,
) -> Result<Vec<Option<Branch>>, StoreOpenFault>
    requires { EndsTaken slots.now }
    ensures rows { IfOk result (λ v. rows_from 1 (map (λ b. option_map branch_cells b) v.items)
        ≡ rows_from 1 slots.now) }
    ensures few { IfOk result (λ v. length v.items ≤ MOST_BRANCHES) }
    ensures refused { (number : ℤ) (trees : Trees) → trees 1 ≡ rows_from 1 slots.now
        → IfErr result (IsRefusedForRows number room trees) }
{
    if slots.len().saturating_add(room) > MOST_BRANCHES as usize {
        return Err(StoreOpenFault::TooMany(Table::Branches));
    }
    let mut branches = branches_of(alloc, slots, room)?;
    widen(&mut branches, room)?;
    Ok(branches)
}

// The branches of the file, with free slots for so many more.
fn read_branches<S: Store>(
    tables: &mut SlotTables<S>,
    alloc: Global,
    room: usize,
) -> Result<Vec<Option<Branch>>, StoreOpenFault>
    requires { IsLaid (S.view tables.old.trees) }
    ensures rows { IfOk result (λ v. IsClean (S.view tables.new.trees)
        → (S.view tables.old.trees).trees 1 ≡ rows_from 1 (map (λ b. option_map branch_cells b) v.items)) }
    ensures few { IfOk result (λ v. length v.items ≤ MOST_BRANCHES) }
    ensures only { OnOk result (OnlyReads (S.view tables.old.trees) (S.view tables.new.trees)) }
    ensures laid { OnOk result (IsLaid (S.view tables.new.trees)) }
    ensures refused { (number : ℤ) → IsClean (S.view tables.new.trees) → IfErr result (StoreIsRefused number room
        (S.view tables.old.trees) (MoreFaults (S.faults tables.old.trees) (S.faults tables.new.trees))) }
    ensures quiet { IsQuiet S.view S.faults S.recovers S.is_shielded tables.old.trees tables.new.trees }
{
    let slots = read(tables, alloc, Table::Branches, MOST_BRANCHES)?;
    with_room(alloc, &slots, room)
}

// Puts free slots at the end until there are so many.
#[tactic(auto, using(xa_slots::proofs::Found::rows_none))]
fn fill(slots: &mut Vec<Option<Row>>, count: usize) -> Result<(), AllocError>
    requires { length slots.old.items ≤ count }
    ensures rows { OnOk result (rows_from 1 slots.new.items ≡ rows_from 1 slots.old.items) }
    ensures count { OnOk result (length slots.new.items ≡ count) }
{
    for _ in slots.len()..count {
        slots.push(None)?;
    }
    Ok(())
}

// The changes of the file, a slot for each of so many accounts, each change of a branch that is there.
fn read_changes<S: Store>(
    tables: &mut SlotTables<S>,
    alloc: Global,
    count: usize,
    branches: &[Option<Branch>],
) -> Result<Vec<Option<Change>>, StoreOpenFault>
    requires laid { IsLaid (S.view tables.old.trees) }
    requires few { count ≤ MOST_KEYS }
    ensures rows { IfOk result (λ v. IsClean (S.view tables.new.trees)
        → (S.view tables.old.trees).trees 2 ≡ rows_from 1 (map (λ c. option_map change_cells c) v.items)) }
    ensures count { IfOk result (λ v. length v.items ≡ count) }
    ensures owned { IfOk result (λ v. AreOwnedBy branches.now v.items) }
    ensures only { OnOk result (OnlyReads (S.view tables.old.trees) (S.view tables.new.trees)) }
    ensures laid { OnOk result (IsLaid (S.view tables.new.trees)) }
    ensures refused { (number : ℤ) (room : ℕ) → length ((S.view tables.old.trees).trees 0) ≡ count
        → (S.view tables.old.trees).trees 1 ≡ rows_from 1 (map (λ b. option_map branch_cells b) branches.now)
        → IsClean (S.view tables.new.trees) → IfErr result (StoreIsRefused number room
        (S.view tables.old.trees) (MoreFaults (S.faults tables.old.trees) (S.faults tables.new.trees))) }
    ensures quiet { IsQuiet S.view S.faults S.recovers S.is_shielded tables.old.trees tables.new.trees }
{
    let mut slots = read(tables, alloc, Table::Changes, count as u32)?;
    fill(&mut slots, count)?;
    changes_of(alloc, &slots, branches)
}

/// What the file has, with free slots for so many branches more, or nothing where it was made and no more.
pub(crate) fn mirror_of<S: Store>(
    tables: &mut SlotTables<S>,
    alloc: Global,
    number: i64,
    room: usize,
) -> Result<Option<Mirror>, StoreOpenFault>
    requires { IsLaid (S.view tables.old.trees) }
    ensures image { IfOk result (λ found. IfSome found (λ m. IsClean (S.view tables.new.trees)
        → HasImage (image_of m) (S.view tables.old.trees).trees)) }
    ensures bare { IfOk result (λ found. found ≡ None → IsClean (S.view tables.new.trees) → (t : ℕ) → t < 4
        → (S.view tables.old.trees).trees t ≡ []) }
    ensures alike { (image : Image) → HasImage image (S.view tables.old.trees).trees → IsClean (S.view tables.new.trees)
        → IfOk result (λ found. IsSomeAnd found (λ m. stored_of (image_of m) ≡ stored_of image)) }
    ensures number { IfOk result (λ found. IfSome found (λ m. m.number ≡ number)) }
    ensures few { IfOk result (λ found. IfSome found (λ m. length m.branches.items ≤ MOST_BRANCHES)) }
    ensures owned { IfOk result (λ found. IfSome found (λ m. AreOwned (image_of m))) }
    ensures paired { IfOk result (λ found. IfSome found (λ m. length m.changes.items ≡ length m.accounts.items)) }
    ensures sound { OnOk result (IsClean (S.view tables.new.trees) → (S.view tables.old.trees).is_broken ≡ false) }
    ensures only { OnOk result (OnlyReads (S.view tables.old.trees) (S.view tables.new.trees)) }
    ensures laid { OnOk result (IsLaid (S.view tables.new.trees)) }

    // A file is refused for what is wrong with its rows, or for want of memory, of room or of a disk: where a store
    // wrote it, for these alone.
    ensures refused { IsClean (S.view tables.new.trees) → IfErr result (StoreIsRefused number room
        (S.view tables.old.trees) (MoreFaults (S.faults tables.old.trees) (S.faults tables.new.trees))) }
    ensures whole { (image : Image) → MayBeOfStore number room image → HasImage image (S.view tables.old.trees).trees
        → IsClean (S.view tables.new.trees) → IfErr result (λ fault. is_of_device fault ≡ true) }

    // A file of another version, or of another store, is refused as such before all else of its rows.
    ensures others { (wanted : StoreOpenFault) → IsOther number ((S.view tables.old.trees).trees 3) wanted
        → IsClean (S.view tables.new.trees) → IsErrAnd result (IsOrOfDevice wanted) }
    ensures quiet { IsQuiet S.view S.faults S.recovers S.is_shielded tables.old.trees tables.new.trees }
{
    if !is_filled(tables, alloc, number)? {
        return Ok(None);
    }
    let accounts = read_accounts(tables, alloc)?;
    let branches = read_branches(tables, alloc, room)?;
    let changes = read_changes(tables, alloc, accounts.len(), &branches)?;
    Ok(Some(Mirror {
        number,
        accounts,
        branches,
        changes,
    }))
}

/// What a new file is to have: these accounts, and free slots for so many branches.
pub(crate) fn new_mirror(
    alloc: Global,
    number: i64,
    accounts: &[(Key, u64)],
    room: usize,
) -> Result<Mirror, AllocError>
    ensures number { IfOk result (λ m. m.number ≡ number) }
    ensures accounts { IfOk result (λ m. m.accounts.items ≡ accounts.now) }
    ensures branches { IfOk result (λ m. m.branches.items ≡ replicate room None) }
    ensures changes { IfOk result (λ m. m.changes.items ≡ replicate (length accounts.now) None) }
{
    let mut branches = Vec::with_capacity(alloc, room)?;
    widen(&mut branches, room)?;
    let mut changes = Vec::with_capacity(alloc, accounts.len())?;
    for _ in 0..accounts.len() {
        changes.push(None)?;
    }
    Ok(Mirror {
        number,
        accounts: accounts.to_vec(alloc)?,
        branches,
        changes,
    })
}
