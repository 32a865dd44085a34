//! Opening a store.
ghost use Rattle.std.specs.Prelude.{◌≡◌, ◌⊎◌, ◌≤◌, ◌+◌, ◌*◌, ◌/◌, ◌++◌, ◌∷◌, [], IfErr, IfOk, OnOk, None, false, true};
ghost use Rattle.std.specs.Prelude.{slice_get};
ghost use Rattle.sqlite_store.specs.FileStore.{view};
ghost use Rattle.sqlite_trees.specs.Tree.{Trees};
ghost use Rattle.sqlite_trees.specs.View.{IsClean};
ghost use Rattle.sqlite_wal.specs.Files.{seen_image};
ghost use Rattle.xa_slots.specs.{Knows};
ghost use Rattle.xa_store.specs.Stores.{AreDurable};
ghost use Rattle.xa_words.specs.Accounts.{are_accounts};
ghost use Rattle.xa_tables.specs.ManagerTables.{Tables};
ghost use Rattle.xa_tables.specs.Openings.{IsOpening, reopened};
ghost use Rattle.xa_tables.specs.Restored.{fault_of};
ghost use Rattle.xa_store_sqlite.specs.Images.{HasAllBut, HasImage, Image, left_in_slots, branch_name_at, slots_of};
ghost use Rattle.xa_store_sqlite.specs.Images.{stored_of, sums_of, tables_of_image};
ghost use Rattle.xa_store_sqlite.specs.Files.{AreEmpty, AreNewFiles, AreOfAccounts, AreOfFiles, AreOfRows};
ghost use Rattle.xa_store_sqlite.specs.Files.{AreSynced, HasAccountsAlone, HasNoRow, HasTrees, IsBare, IsFresh};
ghost use Rattle.xa_store_sqlite.specs.Files.{sum_of_change};
ghost use Rattle.xa_store_sqlite.specs.Refusals.{MayBeOfStore, is_of_device};
ghost use Rattle.xa_store_sqlite.specs.Writes.{AreOwned, IsInOrder, IsLaid};
ghost use Rattle.xa_store_sqlite.specs.Writes.{KnowsAllBut, image_of};

use crate::database::tables_in;
use crate::fault::StoreOpenFault;
use crate::kept::Kept;
use crate::mirror::{Branch, Change, Mirror};
use crate::reading::{mirror_of, new_mirror};
use crate::store::{SlotStore, SqliteStore};
use sqlite_disk::{Disk, Files};
use sqlite_trees::store::Store as Trees;
use std::alloc::{AllocError, Global};
use xa_base::{MOST_JOURNALED, MOST_THREADS};
use xa_disk::{Backing, WriteThrough};
use xa_slots::SlotTables;
use xa_store::Store;
use xa_tables::{Manager, State, Sum};
use xa_words::{Key, Xid};

// The most branches that so many requests can prepare.
fn branches_within(requests: u32) -> usize
    ensures enough { requests ≤ 2 * result }
    ensures is { result ≡ (requests + 1) / 2 }
{
    requests.div_ceil(2) as usize
}

// Puts the branch of a slot, if it has one, after these.
fn push_left(left: &mut Vec<(Xid, State)>, branch: &Option<Branch>) -> Result<(), AllocError>
    ensures { OnOk result (left.new.items ≡ left.old.items ++ left_in_slots (branch.now ∷ [])) }
{
    if let Some((xid, state)) = branch {
        left.push((*xid, state.state()))?;
    }
    Ok(())
}

// The branches that the file has.
fn left_of(alloc: Global, branches: &[Option<Branch>]) -> Result<Vec<(Xid, State)>, AllocError>
    ensures { IfOk result (λ v. v.items ≡ left_in_slots branches.now) }
{
    let mut left = Vec::new(alloc);
    for branch in branches {
        push_left(&mut left, branch)?;
    }
    Ok(left)
}

// The name of the branch in a slot.
fn name_at(branches: &[Option<Branch>], slot: usize) -> Option<Xid>
    ensures { result ≡ branch_name_at branches.now slot }
{
    match branches.get(slot) {
        None => None,
        Some(None) => None,
        Some(Some(branch)) => Some(branch.0),
    }
}

// Puts the sum of the account at a place, if it has a change, after these.
fn push_sum(
    sums: &mut Vec<Sum>,
    mirror: &Mirror,
    place: usize,
    change: &Option<Change>,
) -> Result<(), AllocError>
    ensures { OnOk result (sums.new.items ≡ sums.old.items ++ sum_of_change mirror.now.branches.items
        (slice_get mirror.now.accounts.items place) change.now) }
{
    let Some(account) = mirror.accounts.get(place).copied() else {
        return Ok(());
    };
    let Some(change) = change else {
        return Ok(());
    };
    let Some(xid) = name_at(&mirror.branches, change.branch as usize) else {
        return Ok(());
    };
    sums.push(Sum {
        xid,
        key: account.0,
        delta: change.delta,
    })?;
    Ok(())
}

// What the branches of the file have added.
#[tactic(auto, using(crate::proofs::LeftOver::sums_nothing))]
fn sums_of(alloc: Global, mirror: &Mirror) -> Result<Vec<Sum>, AllocError>
    ensures { IfOk result (λ v. v.items
        ≡ sums_of mirror.now.branches.items mirror.now.accounts.items mirror.now.changes.items) }
{
    let mut sums = Vec::new(alloc);
    for place in 0..mirror.changes.len() {
        push_sum(&mut sums, mirror, place, &mirror.changes[place])?;
    }
    Ok(sums)
}

// The manager that what the file has stands for.
fn manager_of(
    alloc: Global,
    mirror: &Mirror,
    threads: u32,
    room: u32,
) -> Result<Manager, StoreOpenFault>
    requires threads { (1 ≤ threads) × (threads ≤ MOST_THREADS) }
    requires room { (1 ≤ room) × (room ≤ MOST_JOURNALED) }
    ensures tables { IfOk result (λ m. m.tables ≡ tables_of_image (image_of mirror.now)) }
    ensures opening { IfOk result (λ m. IsOpening m.tables) }
    ensures threads { IfOk result (λ m. m.threads ≡ threads) }
    ensures room { IfOk result (λ m. m.room ≡ room) }
    ensures reserved { IfOk result (λ m. m.reserved ≡ None) }
    ensures faultless { OnOk result (fault_of (stored_of (image_of mirror.now)) ≡ None) }
    ensures device { fault_of (stored_of (image_of mirror.now)) ≡ None
        → IfErr result (λ fault. is_of_device fault ≡ true) }
{
    let left = left_of(alloc, &mirror.branches)?;
    let sums = sums_of(alloc, mirror)?;
    Ok(Manager::restored(alloc, &mirror.accounts, &left, &sums, threads, room)?)
}

// The manager of a file that has this, and what the file has, where each change is of a branch that is there.
fn manager_with<S: Trees + Drop>(
    alloc: Global,
    tables: SlotTables<S>,
    mirror: Mirror,
    threads: u32,
    room: u32,
) -> Result<(Manager, Kept<S>), StoreOpenFault>
    requires threads { (1 ≤ threads) × (threads ≤ MOST_THREADS) }
    requires room { (1 ≤ room) × (room ≤ MOST_JOURNALED) }
    requires laid { IsLaid (S.view tables.trees) }
    ensures opening { IfOk result (λ p. IsOpening p.0.tables) }
    ensures threads { IfOk result (λ p. p.0.threads ≡ threads) }
    ensures room { IfOk result (λ p. p.0.room ≡ room) }
    ensures reserved { IfOk result (λ p. p.0.reserved ≡ None) }
    ensures are { IfOk result (λ p. p.0.tables ≡ tables_of_image (image_of mirror)) }
    ensures tables { IfOk result (λ p. p.1.tables ≡ tables) }
    ensures mirror { IfOk result (λ p. p.1.mirror ≡ mirror) }
    ensures has { IfOk result (λ p. HasAllBut [] false (image_of mirror) p.0.tables) }
    ensures order { AreOwned (image_of mirror)
        → IfOk result (λ p. IsInOrder p.1.slots.entries p.1.places.entries (image_of mirror)) }
    ensures device { fault_of (stored_of (image_of mirror)) ≡ None
        → IfErr result (λ fault. is_of_device fault ≡ true) }
{
    let manager = manager_of(alloc, &mirror, threads, room)?;
    let kept = Kept::new(alloc, tables, mirror)?;
    Ok((manager, kept))
}

// The manager of a file whose rows these are.
fn found<S: Trees + Drop>(
    alloc: Global,
    tables: SlotTables<S>,
    mirror: Mirror,
    threads: u32,
    room: u32,
) -> Result<(Manager, Kept<S>), StoreOpenFault>
    requires threads { (1 ≤ threads) × (threads ≤ MOST_THREADS) }
    requires room { (1 ≤ room) × (room ≤ MOST_JOURNALED) }
    requires laid { IsLaid (S.view tables.trees) }
    ensures opening { IfOk result (λ p. IsOpening p.0.tables) }
    ensures threads { IfOk result (λ p. p.0.threads ≡ threads) }
    ensures room { IfOk result (λ p. p.0.room ≡ room) }
    ensures reserved { IfOk result (λ p. p.0.reserved ≡ None) }
    ensures are { IfOk result (λ p. p.0.tables ≡ tables_of_image (image_of mirror)) }
    ensures knows { IsFresh (S.view tables.trees) → Knows 4 (S.view tables.trees) (slots_of (image_of mirror))
        → AreOwned (image_of mirror) → IfOk result (λ p. KnowsAllBut [] false (S.view p.1.tables.trees)
        (S.recovers p.1.tables.trees) (image_of p.1.mirror) p.1.slots.entries p.1.places.entries p.0.tables) }
    ensures device { fault_of (stored_of (image_of mirror)) ≡ None
        → IfErr result (λ fault. is_of_device fault ≡ true) }
{
    tables.are_committed();
    let found = manager_with(alloc, tables, mirror, threads, room)?;
    Ok(found)
}

// The manager of a new file, which is to have this, and has no row yet.
fn founded<S: Trees + Drop>(
    alloc: Global,
    tables: SlotTables<S>,
    mirror: Mirror,
    threads: u32,
    room: u32,
) -> Result<(Manager, Kept<S>), StoreOpenFault>
    requires threads { (1 ≤ threads) × (threads ≤ MOST_THREADS) }
    requires room { (1 ≤ room) × (room ≤ MOST_JOURNALED) }
    requires laid { IsLaid (S.view tables.trees) }
    ensures opening { IfOk result (λ p. IsOpening p.0.tables) }
    ensures threads { IfOk result (λ p. p.0.threads ≡ threads) }
    ensures room { IfOk result (λ p. p.0.room ≡ room) }
    ensures reserved { IfOk result (λ p. p.0.reserved ≡ None) }
    ensures are { IfOk result (λ p. p.0.tables ≡ tables_of_image (image_of mirror)) }
    ensures knows { IsBare (S.view tables.trees) → HasAccountsAlone (image_of mirror) → AreOwned (image_of mirror)
        → IfOk result (λ p. KnowsAllBut [] false (S.view p.1.tables.trees) (S.recovers p.1.tables.trees)
        (image_of p.1.mirror) p.1.slots.entries p.1.places.entries p.0.tables) }
    ensures device { are_accounts mirror.accounts.items ≡ true → fault_of (stored_of (image_of mirror)) ≡ None
        → IfErr result (λ fault. is_of_device fault ≡ true) }
{
    let made = manager_with(alloc, tables, mirror, threads, room)?;
    let (manager, mut kept) = made;
    kept.fill()?;
    Ok((manager, kept))
}

// The manager of the file in these tables, which have nothing that isn't committed, and what the file has.
fn restored<S: Trees + Drop>(
    alloc: Global,
    mut tables: SlotTables<S>,
    number: i64,
    accounts: &[(Key, u64)],
    threads: u32,
    room: u32,
) -> Result<(Manager, Kept<S>), StoreOpenFault>
    requires threads { (1 ≤ threads) × (threads ≤ MOST_THREADS) }
    requires room { (1 ≤ room) × (room ≤ MOST_JOURNALED) }
    requires laid { IsLaid (S.view tables.trees) }
    ensures opening { IfOk result (λ p. IsOpening p.0.tables) }
    ensures threads { IfOk result (λ p. p.0.threads ≡ threads) }
    ensures room { IfOk result (λ p. p.0.room ≡ room) }
    ensures reserved { IfOk result (λ p. p.0.reserved ≡ None) }
    ensures knows { IsFresh (S.view tables.trees) → IfOk result (λ p. KnowsAllBut [] false
        (S.view p.1.tables.trees) (S.recovers p.1.tables.trees) (image_of p.1.mirror) p.1.slots.entries
        p.1.places.entries p.0.tables) }
    ensures from { ((s : S) → IsClean (S.view s)) → IfOk result (λ p.
        AreOfRows number (S.view tables.trees).trees p.0.tables
        ⊎ AreOfAccounts accounts.now (S.view tables.trees).trees p.0.tables) }
    ensures whole { ((s : S) → IsClean (S.view s)) → (image : Image) → HasImage image (S.view tables.trees).trees
        → MayBeOfStore number ((room + 1) / 2) image → fault_of (stored_of image) ≡ None
        → IfErr result (λ fault. is_of_device fault ≡ true) }
    ensures new { ((s : S) → IsClean (S.view s)) → AreEmpty (S.view tables.trees).trees
        → are_accounts accounts.now ≡ true → IfErr result (λ fault. is_of_device fault ≡ true) }
{
    let free = branches_within(room);
    match mirror_of(&mut tables, alloc, number, free)? {
        Some(mirror) => found(alloc, tables, mirror, threads, room),
        None => {
            let mirror = new_mirror(alloc, number, accounts, free)?;
            founded(alloc, tables, mirror, threads, room)
        }
    }
}

// A store that owes nothing to what this file has, which a crash leaves.
fn store_of<S: Trees + Drop>(alloc: Global, kept: Kept<S>) -> Result<SlotStore<S>, AllocError>
    ensures knows { (T : Tables) → KnowsAllBut [] false (S.view kept.tables.trees) (S.recovers kept.tables.trees)
        (image_of kept.mirror) kept.slots.entries kept.places.entries T
        → IfOk result (λ s. ⟦<SlotStore<S> as Store>⟧.knows s T) }
    ensures owes { IfOk result (λ s. ⟦<SlotStore<S> as Store>⟧.owing s ≡ false) }
    ensures durable { (T : Tables) → KnowsAllBut [] false (S.view kept.tables.trees) (S.recovers kept.tables.trees)
        (image_of kept.mirror) kept.slots.entries kept.places.entries T
        → IfOk result (λ s. AreDurable (⟦<SlotStore<S> as Store>⟧.may_leave s) T) }
    ensures left { (T : Tables) → KnowsAllBut [] false (S.view kept.tables.trees) (S.recovers kept.tables.trees)
        (image_of kept.mirror) kept.slots.entries kept.places.entries T
        → IfOk result (λ s. IsClean (S.view s.kept.tables.trees)
        → ⟦<SlotStore<S> as Store>⟧.may_leave s (reopened T)) }
{
    kept.stays();
    let store = SlotStore::over(alloc, kept)?;
    Ok(store)
}

/// Opens the store in these files, and restores its manager. Where the files, as they are read, are a store's with
/// rows, the manager is that of these rows, and the accounts that are given here aren't looked at. Where they hold no
/// database, what a making that was ended has left of one, or one that has no row, they get these accounts, and the
/// manager has them, and no branch.
///
/// The number says which file it is, as one drawn at random for a set of files. A file that has another is refused, and
/// a new one gets it.
///
/// The manager carries out `room` requests of threads 1 to `threads`, and the store takes all of them in memory that is
/// reserved here, but for what SQLite's trees ask for.
pub fn open<B: Backing + Drop>(
    alloc: Global,
    files: Files<WriteThrough<B>>,
    number: i64,
    accounts: &[(Key, u64)],
    threads: u32,
    room: u32,
) -> Result<(Manager, SqliteStore<B>), StoreOpenFault>
    requires threads { (1 ≤ threads) × (threads ≤ MOST_THREADS) }
    requires room { (1 ≤ room) × (room ≤ MOST_JOURNALED) }
    ensures opening { IfOk result (λ p. IsOpening p.0.tables) }
    ensures threads { IfOk result (λ p. p.0.threads ≡ threads) }
    ensures room { IfOk result (λ p. p.0.room ≡ room) }
    ensures reserved { IfOk result (λ p. p.0.reserved ≡ None) }

    // Where a crash would leave the files as they are read, the manager is that of the rows that they have. Where they
    // have none, it is that of these accounts.
    ensures from { AreSynced ⟦<WriteThrough<B> as Disk>⟧ files.log files.db → IfOk result (λ p.
        AreOfFiles (seen_image ⟦<WriteThrough<B> as Disk>⟧ files.log files.db) number p.0.tables
        ⊎ AreNewFiles (seen_image ⟦<WriteThrough<B> as Disk>⟧ files.log files.db) accounts.now p.0.tables) }

    // The manager has what the file has: the store was told of all that led to it, owes nothing, and a crash leaves it,
    // as far as the disk has returned what was written.
    ensures knows { IfOk result (λ p. ⟦<SqliteStore<B> as Store>⟧.knows p.1 p.0.tables) }
    ensures owes { IfOk result (λ p. ⟦<SqliteStore<B> as Store>⟧.owing p.1 ≡ false) }
    ensures durable { IfOk result (λ p. AreDurable (⟦<SqliteStore<B> as Store>⟧.may_leave p.1) p.0.tables) }
    ensures left { IfOk result (λ p. IsClean (view p.1.kept.tables.trees)
        → ⟦<SqliteStore<B> as Store>⟧.may_leave p.1 (reopened p.0.tables)) }

    // Then files that a store wrote, with room for the branches of so many requests, are refused for want of memory, of
    // room or of a disk alone.
    ensures whole { AreSynced ⟦<WriteThrough<B> as Disk>⟧ files.log files.db → (trees : Trees) (image : Image)
        → HasTrees (seen_image ⟦<WriteThrough<B> as Disk>⟧ files.log files.db) trees → HasImage image trees
        → MayBeOfStore number ((room + 1) / 2) image → fault_of (stored_of image) ≡ None
        → IfErr result (λ fault. is_of_device fault ≡ true) }

    // So are files that have no row, where a manager may be declared with these accounts: a first start that was ended
    // before it had made the file can be started again.
    ensures new { AreSynced ⟦<WriteThrough<B> as Disk>⟧ files.log files.db
        → HasNoRow (seen_image ⟦<WriteThrough<B> as Disk>⟧ files.log files.db) → are_accounts accounts.now ≡ true
        → IfErr result (λ fault. is_of_device fault ≡ true) }
{
    let tables = tables_in(alloc, files)?;
    let made = restored(alloc, tables, number, accounts, threads, room)?;
    let (manager, kept) = made;
    let store = store_of(alloc, kept)?;
    Ok((manager, store))
}
