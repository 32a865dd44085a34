//! What a file has, and writing to it.
ghost use Rattle.std.specs.Prelude.{◌≡◌, ◌≤◌, ◌<◌, ◌⊎◌, IfErr, IfOk, OnOk, Some, None, true, false, length, is_some};
ghost use Rattle.std.specs.Prelude.{List, if◌then◌else◌, ℕ, take, vec_capacity, ◌+◌, IsTrue};
ghost use Rattle.std.specs.List.{IsDistinct};
ghost use Rattle.std.specs.Map.{keys_of, lookup};
ghost use Rattle.xa_words.specs.Accounts.{are_accounts};
ghost use Rattle.xa_words.specs.Key.{key_eq};
ghost use Rattle.xa_words.specs.Xid.{XidName, xid_eq};
ghost use Rattle.std.proofs.Props.{props};
ghost use Rattle.sqlite_trees.specs.View.{IsClean, IsQuiet};
ghost use Rattle.xa_slots.specs.{IsCommitted, Knows};
ghost use Rattle.sqlite_trees.specs.Tree as trees_of;
ghost use Rattle.xa_store_sqlite.specs.Images.{DiffersAt, HasImage, HasOf, HasValuesOf, IsSettledImage, Lacks};
ghost use Rattle.xa_store_sqlite.specs.Images.{slots_of, AreStoredValues, keys_of_accounts, branch_name_at, state_in};
ghost use Rattle.xa_store_sqlite.specs.Images.{sum_in};
ghost use Rattle.xa_store_sqlite.specs.Writes.{NoBranchTwice, AreOwned, AreSlots, IsInOrder, IsLaid, IsSeen, LackAll};
ghost use Rattle.xa_store_sqlite.specs.Writes.{PutsAll, PutsBranch, PutsSum, PutsSums, RemovesAll, image_of};
ghost use Rattle.xa_store_sqlite.specs.Writes.{is_of_branch, is_of_slot, item_at, first_place_from, unless_of};
ghost use Rattle.xa_store_sqlite.specs.Writes.{with_account, with_branch, with_change, without_changes};
ghost use Rattle.xa_store_sqlite.specs.Files.{HasAccountsAlone, IsBare, accounts_to};
ghost use Rattle.xa_store_sqlite.specs.Refusals.{is_of_device};

use crate::fault::StoreOpenFault;
use crate::mirror::{ACCOUNTS, BRANCHES, Branch, CHANGES, Change, Left, Mirror, STORE};
use crate::rows::{account_cells, branch_cells, change_cells, store_cells};
use sqlite_trees::error::StoreError;
use sqlite_trees::store::Store as Trees;
use std::alloc::{AllocError, Global};
use std::collections::{HashMap, HashSet};
use xa_base::{MOST_KEYS, MOST_VALUE};
use xa_slots::SlotTables;
use xa_tables::{Manager, RestoreFault};
use xa_words::{Delta, Key, Xid};

/// Why a write fails.
#[derive(Clone, Copy, Debug, PartialEq, Eq)]
pub(crate) struct WriteFault;

impl From<StoreError> for WriteFault {
    fn from(_: StoreError) -> WriteFault {
        WriteFault
    }
}

/// What a file has, as it will be with the next commit: a copy of its rows, and where each branch and each account
/// stands among them.
pub(crate) struct Kept<S: Trees> {
    tables: SlotTables<S>,
    mirror: Mirror,
    slots: HashMap<Xid, u32>,
    places: HashMap<Key, u32>,
    // Slots of branches that are free, the next one last.
    free: Vec<u32>,
    // Something was written since the last commit.
    is_written: bool,
    ghost laid: { IsLaid (S.view tables.trees) } by { Prim.hlevel props },
}

impl<S: Trees + Drop> Drop for Kept<S> {
    fn drop(self) {
        let Kept {
            tables: _,
            mirror: _,
            slots: _,
            places: _,
            free: _,
            is_written: _,
        } = self;
    }
}

// Notes where a branch stands, if the slot has one.
fn note_slot(
    slots: &mut HashMap<Xid, u32>,
    slot: u32,
    branch: &Option<Branch>,
) -> Result<(), AllocError>
    ensures { OnOk result ((x : XidName) → lookup (xid_eq x) slots.new.entries
        ≡ (if is_of_branch x branch.now then Some slot else lookup (xid_eq x) slots.old.entries)) }
{
    if let Some((xid, _)) = branch {
        slots.insert(*xid, slot)?;
    }
    Ok(())
}

// Where each branch stands, with room for so many.
fn slots_of(
    alloc: Global,
    branches: &[Option<Branch>],
    room: usize,
) -> Result<HashMap<Xid, u32>, AllocError>
    ensures { NoBranchTwice branches.now → IfOk result (λ slots. (x : XidName) → lookup (xid_eq x) slots.entries
        ≡ first_place_from (is_of_branch x) 0 branches.now) }
{
    let Ok(count) = u32::try_from(branches.len()) else {
        return Err(AllocError);
    };
    let mut slots = HashMap::with_capacity(alloc, room)?;
    for slot in 0..count {
        note_slot(&mut slots, slot, &branches[slot as usize])?;
    }
    Ok(slots)
}

// The free slots, the first of them last.
fn free_of(alloc: Global, branches: &[Option<Branch>]) -> Result<Vec<u32>, AllocError> {
    let mut free = Vec::with_capacity(alloc, branches.len())?;
    for (slot, branch) in branches.iter().enumerate().rev() {
        if branch.is_none() {
            free.push((slot & 0xffff_ffff) as u32)?;
        }
    }
    Ok(free)
}

// Where each account stands.
fn places_of(alloc: Global, accounts: &[(Key, u64)]) -> Result<HashMap<Key, u32>, AllocError>
    ensures { IsDistinct key_eq (keys_of_accounts accounts.now) → IfOk result (λ places. (k : List ℕ)
        → lookup (key_eq k) places.entries ≡ first_place_from (λ a. key_eq k a.0) 0 accounts.now) }
{
    let Ok(count) = u32::try_from(accounts.len()) else {
        return Err(AllocError);
    };
    let mut places = HashMap::with_capacity(alloc, accounts.len())?;
    for place in 0..count {
        let account = accounts[place as usize];
        places.insert(account.0, place)?;
    }
    Ok(places)
}

impl<S: Trees + Drop> Kept<S> {
    /// What these tables have, whose rows this has.
    pub(crate) fn new(
        alloc: Global,
        tables: SlotTables<S>,
        mirror: Mirror,
    ) -> Result<Kept<S>, AllocError>
        requires { IsLaid (S.view tables.trees) }
        ensures tables { IfOk result (λ kept. kept.tables ≡ tables) }
        ensures mirror { IfOk result (λ kept. kept.mirror ≡ mirror) }
        ensures marked { IfOk result (λ kept. kept.is_written ≡ false) }
        ensures order { NoBranchTwice mirror.branches.items → AreOwned (image_of mirror)
            → IsDistinct key_eq (keys_of_accounts mirror.accounts.items)
            → IfOk result (λ kept. IsInOrder kept.slots.entries kept.places.entries (image_of mirror)) }
    {
        let slots = slots_of(alloc, &mirror.branches, mirror.branches.len())?;
        let places = places_of(alloc, &mirror.accounts)?;
        let free = free_of(alloc, &mirror.branches)?;
        Ok(Kept {
            tables,
            mirror,
            slots,
            places,
            free,
            is_written: false,
        })
    }
}

impl<S: Trees> Kept<S> {
    /// The trees, with no call to them.
    pub(crate) fn into_trees(self) -> S
        ensures { result ≡ self.tables.trees }
    {
        let Kept {
            tables,
            mirror: _,
            slots: _,
            places: _,
            free: _,
            is_written: _,
        } = self;
        tables.into_trees()
    }

    /// Whether the file has the branch.
    pub(crate) fn has(&self, xid: &Xid) -> bool
        ensures { AreSlots self.now.slots.entries (image_of self.now.mirror)
            → result ≡ is_some (state_in (image_of self.now.mirror) xid.now) }
    {
        self.slots.contains_key(xid)
    }

    // ---- rows

    // Puts the account at a place.
    fn set_account(&mut self, place: u32, key: Key, value: u64) -> Result<(), StoreError>
        requires place { place < length self.old.mirror.accounts.items }
        requires value { value ≤ MOST_VALUE }
        ensures image { OnOk result (image_of self.new.mirror ≡ with_account
            (image_of self.old.mirror) place (key, value)) }
        ensures written { Knows 4 (S.view self.old.tables.trees) (slots_of (image_of self.old.mirror))
            → OnOk result (Knows 4 (S.view self.new.tables.trees) (slots_of (image_of self.new.mirror))) }
        ensures marked { OnOk result (self.new.is_written ≡ true) }
        ensures slots { self.new.slots ≡ self.old.slots }
        ensures places { self.new.places ≡ self.old.places }
        ensures free { self.new.free ≡ self.old.free }
        ensures quiet { IsQuiet S.view S.faults S.recovers S.is_shielded self.old.tables.trees self.new.tables.trees }
    {
        self.is_written = true;
        self.tables
            .set(ACCOUNTS, place, &account_cells(&key, value))?;
        self.mirror.accounts[place as usize] = (key, value);
        Ok(())
    }

    // Puts a branch in a slot.
    fn set_branch(&mut self, slot: u32, branch: Branch) -> Result<(), StoreError>
        requires { slot < length self.old.mirror.branches.items }
        ensures image { OnOk result (image_of self.new.mirror ≡ with_branch
            (image_of self.old.mirror) slot (Some branch)) }
        ensures written { Knows 4 (S.view self.old.tables.trees) (slots_of (image_of self.old.mirror))
            → OnOk result (Knows 4 (S.view self.new.tables.trees) (slots_of (image_of self.new.mirror))) }
        ensures marked { OnOk result (self.new.is_written ≡ true) }
        ensures slots { self.new.slots ≡ self.old.slots }
        ensures places { self.new.places ≡ self.old.places }
        ensures free { self.new.free ≡ self.old.free }
        ensures quiet { IsQuiet S.view S.faults S.recovers S.is_shielded self.old.tables.trees self.new.tables.trees }
    {
        self.is_written = true;
        self.tables.set(BRANCHES, slot, &branch_cells(&branch))?;
        self.mirror.branches[slot as usize] = Some(branch);
        Ok(())
    }

    // Leaves the slot of a branch free.
    fn clear_branch(&mut self, slot: u32) -> Result<(), StoreError>
        requires { slot < length self.old.mirror.branches.items }
        ensures image { OnOk result (image_of self.new.mirror ≡ with_branch (image_of self.old.mirror) slot None) }
        ensures written { Knows 4 (S.view self.old.tables.trees) (slots_of (image_of self.old.mirror))
            → OnOk result (Knows 4 (S.view self.new.tables.trees) (slots_of (image_of self.new.mirror))) }
        ensures marked { OnOk result (self.new.is_written ≡ true) }
        ensures slots { self.new.slots ≡ self.old.slots }
        ensures places { self.new.places ≡ self.old.places }
        ensures free { self.new.free ≡ self.old.free }
        ensures quiet { IsQuiet S.view S.faults S.recovers S.is_shielded self.old.tables.trees self.new.tables.trees }
    {
        self.is_written = true;
        self.tables.clear(BRANCHES, slot)?;
        self.mirror.branches[slot as usize] = None;
        Ok(())
    }

    // Puts the change of the account at a place.
    fn set_change(&mut self, place: u32, change: Change) -> Result<(), StoreError>
        requires { place < length self.old.mirror.changes.items }
        ensures image { OnOk result (image_of self.new.mirror ≡ with_change
            (image_of self.old.mirror) place (Some change)) }
        ensures written { Knows 4 (S.view self.old.tables.trees) (slots_of (image_of self.old.mirror))
            → OnOk result (Knows 4 (S.view self.new.tables.trees) (slots_of (image_of self.new.mirror))) }
        ensures marked { OnOk result (self.new.is_written ≡ true) }
        ensures slots { self.new.slots ≡ self.old.slots }
        ensures places { self.new.places ≡ self.old.places }
        ensures free { self.new.free ≡ self.old.free }
        ensures quiet { IsQuiet S.view S.faults S.recovers S.is_shielded self.old.tables.trees self.new.tables.trees }
    {
        self.is_written = true;
        self.tables.set(CHANGES, place, &change_cells(&change))?;
        self.mirror.changes[place as usize] = Some(change);
        Ok(())
    }

    // The account at a place has no change.
    fn clear_change(&mut self, place: u32) -> Result<(), StoreError>
        requires { place < length self.old.mirror.changes.items }
        ensures image { OnOk result (image_of self.new.mirror ≡ with_change (image_of self.old.mirror) place None) }
        ensures written { Knows 4 (S.view self.old.tables.trees) (slots_of (image_of self.old.mirror))
            → OnOk result (Knows 4 (S.view self.new.tables.trees) (slots_of (image_of self.new.mirror))) }
        ensures marked { OnOk result (self.new.is_written ≡ true) }
        ensures slots { self.new.slots ≡ self.old.slots }
        ensures places { self.new.places ≡ self.old.places }
        ensures free { self.new.free ≡ self.old.free }
        ensures quiet { IsQuiet S.view S.faults S.recovers S.is_shielded self.old.tables.trees self.new.tables.trees }
    {
        self.is_written = true;
        self.tables.clear(CHANGES, place)?;
        self.mirror.changes[place as usize] = None;
        Ok(())
    }

    // ---- branches

    // Whether the change of the account at a place is of the branch in a slot.
    fn is_of(&self, place: u32, slot: u32) -> bool
        ensures { result ≡ is_of_slot slot (item_at self.now.mirror.changes.items place) }
    {
        match self.mirror.changes.get(place as usize) {
            None => false,
            Some(None) => false,
            Some(Some(change)) => change.branch == slot,
        }
    }

    // How many places of changes there are.
    fn change_count(&self) -> Result<u32, WriteFault>
        ensures { IfOk result (λ count. count ≡ length self.now.mirror.changes.items) }
    {
        match u32::try_from(self.mirror.changes.len()) {
            Ok(count) => Ok(count),
            Err(_) => Err(WriteFault),
        }
    }

    // The account at a place has no change of the branch in a slot.
    fn clear_change_of(&mut self, place: u32, slot: u32) -> Result<(), StoreError>
        ensures image { OnOk result (image_of self.new.mirror ≡ with_change (image_of self.old.mirror) place
            (unless_of slot (item_at self.old.mirror.changes.items place))) }
        ensures seen { IsSeen (S.view self.old.tables.trees) (S.recovers self.old.tables.trees) self.old.is_written
            (image_of self.old.mirror) → OnOk result (IsSeen (S.view self.new.tables.trees)
            (S.recovers self.new.tables.trees) self.new.is_written (image_of self.new.mirror)) }
        ensures slots { self.new.slots ≡ self.old.slots }
        ensures places { self.new.places ≡ self.old.places }
        ensures free { self.new.free ≡ self.old.free }
        ensures quiet { IsQuiet S.view S.faults S.recovers S.is_shielded self.old.tables.trees self.new.tables.trees }
    {
        if !self.is_of(place, slot) {
            return Ok(());
        }
        self.clear_change(place)
    }

    // No account has a change of the branch in a slot.
    fn clear_changes(&mut self, slot: u32) -> Result<(), WriteFault>
        ensures image { OnOk result (image_of self.new.mirror ≡ without_changes (image_of self.old.mirror) slot) }
        ensures seen { IsSeen (S.view self.old.tables.trees) (S.recovers self.old.tables.trees) self.old.is_written
            (image_of self.old.mirror) → OnOk result (IsSeen (S.view self.new.tables.trees)
            (S.recovers self.new.tables.trees) self.new.is_written (image_of self.new.mirror)) }
        ensures slots { self.new.slots ≡ self.old.slots }
        ensures places { self.new.places ≡ self.old.places }
        ensures free { self.new.free ≡ self.old.free }
        ensures quiet { IsQuiet S.view S.faults S.recovers S.is_shielded self.old.tables.trees self.new.tables.trees }
    {
        for place in 0..self.change_count()? {
            self.clear_change_of(place, slot)?;
        }
        Ok(())
    }

    // Removes a branch, with its changes, where the file has it.
    fn remove(&mut self, xid: &Xid) -> Result<(), WriteFault>
        ensures seen { IsSeen (S.view self.old.tables.trees) (S.recovers self.old.tables.trees) self.old.is_written
            (image_of self.old.mirror) → OnOk result (IsSeen (S.view self.new.tables.trees)
            (S.recovers self.new.tables.trees) self.new.is_written (image_of self.new.mirror)) }
        ensures order { IsInOrder self.old.slots.entries self.old.places.entries (image_of self.old.mirror)
            → OnOk result (IsInOrder self.new.slots.entries self.new.places.entries (image_of self.new.mirror)) }
        ensures removed { IsInOrder self.old.slots.entries self.old.places.entries (image_of self.old.mirror)
            → OnOk result (Lacks xid.now (image_of self.new.mirror)
            × DiffersAt xid.now (image_of self.old.mirror) (image_of self.new.mirror)) }
        ensures quiet { IsQuiet S.view S.faults S.recovers S.is_shielded self.old.tables.trees self.new.tables.trees }
    {
        let Some(slot) = self.slots.get(xid).copied() else {
            return Ok(());
        };
        if slot as usize >= self.mirror.branches.len() {
            return Err(WriteFault);
        }
        self.clear_changes(slot)?;
        self.clear_branch(slot)?;
        let _ = self.slots.remove(xid);
        match self.free.push(slot) {
            Ok(()) => Ok(()),
            Err(_) => Err(WriteFault),
        }
    }

    /// Removes these branches, each with its changes, where the file has it.
    pub(crate) fn remove_all(&mut self, xids: &HashSet<Xid>) -> Result<(), WriteFault>
        ensures seen { IsSeen (S.view self.old.tables.trees) (S.recovers self.old.tables.trees) self.old.is_written
            (image_of self.old.mirror) → OnOk result (IsSeen (S.view self.new.tables.trees)
            (S.recovers self.new.tables.trees) self.new.is_written (image_of self.new.mirror)) }
        ensures order { IsInOrder self.old.slots.entries self.old.places.entries (image_of self.old.mirror)
            → OnOk result (IsInOrder self.new.slots.entries self.new.places.entries (image_of self.new.mirror)) }
        ensures removed { IsInOrder self.old.slots.entries self.old.places.entries (image_of self.old.mirror)
            → OnOk result (RemovesAll xids.now.keys (image_of self.old.mirror) (image_of self.new.mirror)) }
        ensures quiet { IsQuiet S.view S.faults S.recovers S.is_shielded self.old.tables.trees self.new.tables.trees }
    {
        for xid in xids.iter() {
            self.remove(xid)?;
        }
        Ok(())
    }

    // Puts what the branch in a slot has added to a key, which no other branch in the file has touched.
    fn put_sum(&mut self, slot: u32, key: &Key, amount: i64) -> Result<(), WriteFault>
        ensures seen { IsSeen (S.view self.old.tables.trees) (S.recovers self.old.tables.trees) self.old.is_written
            (image_of self.old.mirror) → OnOk result (IsSeen (S.view self.new.tables.trees)
            (S.recovers self.new.tables.trees) self.new.is_written (image_of self.new.mirror)) }
        ensures order { IsInOrder self.old.slots.entries self.old.places.entries (image_of self.old.mirror)
            → is_some (item_at self.old.mirror.branches.items slot) ≡ true
            → OnOk result (IsInOrder self.new.slots.entries self.new.places.entries (image_of self.new.mirror)) }
        ensures sum { IsInOrder self.old.slots.entries self.old.places.entries (image_of self.old.mirror)
            → (x : XidName) → branch_name_at self.old.mirror.branches.items slot ≡ Some x
            → sum_in (image_of self.old.mirror) x key.now ≡ None
            → OnOk result (PutsSum x key.now amount (image_of self.old.mirror) (image_of self.new.mirror)) }
        ensures branches { OnOk result (self.new.mirror.branches.items ≡ self.old.mirror.branches.items) }
        ensures quiet { IsQuiet S.view S.faults S.recovers S.is_shielded self.old.tables.trees self.new.tables.trees }
    {
        let (Some(place), Some(delta)) = (self.places.get(key).copied(), Delta::new(amount)) else {
            return Err(WriteFault);
        };
        let Some(None) = self.mirror.changes.get(place as usize) else {
            return Err(WriteFault);
        };
        self.set_change(
            place,
            Change {
                branch: slot,
                delta,
            },
        )?;
        Ok(())
    }

    // Puts all that the branch in a slot has added.
    fn put_sums(&mut self, slot: u32, sums: &[(Key, i64)]) -> Result<(), WriteFault>
        ensures seen { IsSeen (S.view self.old.tables.trees) (S.recovers self.old.tables.trees) self.old.is_written
            (image_of self.old.mirror) → OnOk result (IsSeen (S.view self.new.tables.trees)
            (S.recovers self.new.tables.trees) self.new.is_written (image_of self.new.mirror)) }
        ensures order { IsInOrder self.old.slots.entries self.old.places.entries (image_of self.old.mirror)
            → is_some (item_at self.old.mirror.branches.items slot) ≡ true
            → OnOk result (IsInOrder self.new.slots.entries self.new.places.entries (image_of self.new.mirror)) }
        ensures sums { IsInOrder self.old.slots.entries self.old.places.entries (image_of self.old.mirror)
            → (x : XidName) → branch_name_at self.old.mirror.branches.items slot ≡ Some x
            → ((k : List ℕ) → sum_in (image_of self.old.mirror) x k ≡ None)
            → IsDistinct key_eq (keys_of sums.now)
            → OnOk result (PutsSums x sums.now (image_of self.old.mirror) (image_of self.new.mirror)) }
        ensures quiet { IsQuiet S.view S.faults S.recovers S.is_shielded self.old.tables.trees self.new.tables.trees }
    {
        for (key, amount) in sums {
            self.put_sum(slot, key, *amount)?;
        }
        Ok(())
    }

    // A free slot, which is taken for the branch.
    fn take_slot(&mut self, xid: &Xid) -> Result<u32, WriteFault>
        ensures within { IfOk result (λ slot. slot < length self.old.mirror.branches.items) }
        ensures free { IfOk result (λ slot. item_at self.old.mirror.branches.items slot ≡ None) }
        ensures slots { IfOk result (λ slot. (x : XidName) → lookup (xid_eq x) self.new.slots.entries
            ≡ (if xid_eq xid.now x then Some slot else lookup (xid_eq x) self.old.slots.entries)) }
        ensures mirror { self.new.mirror ≡ self.old.mirror }
        ensures tables { self.new.tables ≡ self.old.tables }
        ensures places { self.new.places ≡ self.old.places }
        ensures marked { self.new.is_written ≡ self.old.is_written }
    {
        let Some(slot) = self.free.pop() else {
            return Err(WriteFault);
        };
        let Some(None) = self.mirror.branches.get(slot as usize) else {
            return Err(WriteFault);
        };
        match self.slots.insert(*xid, slot) {
            Ok(None) => Ok(slot),
            _ => Err(WriteFault),
        }
    }

    // Puts a branch in a free slot, which is returned.
    fn put_left(&mut self, xid: &Xid, left: Left) -> Result<u32, WriteFault>
        ensures seen { IsSeen (S.view self.old.tables.trees) (S.recovers self.old.tables.trees) self.old.is_written
            (image_of self.old.mirror) → OnOk result (IsSeen (S.view self.new.tables.trees)
            (S.recovers self.new.tables.trees) self.new.is_written (image_of self.new.mirror)) }
        ensures order { IsInOrder self.old.slots.entries self.old.places.entries (image_of self.old.mirror)
            → Lacks xid.now (image_of self.old.mirror)
            → OnOk result (IsInOrder self.new.slots.entries self.new.places.entries (image_of self.new.mirror)) }
        ensures put { IsInOrder self.old.slots.entries self.old.places.entries (image_of self.old.mirror)
            → Lacks xid.now (image_of self.old.mirror) → IfOk result (λ slot. PutsBranch slot xid.now left
            (image_of self.old.mirror) (image_of self.new.mirror)) }
        ensures quiet { IsQuiet S.view S.faults S.recovers S.is_shielded self.old.tables.trees self.new.tables.trees }
    {
        let slot = self.take_slot(xid)?;
        self.set_branch(slot, (*xid, left))?;
        Ok(slot)
    }

    // Puts a branch, which the file hasn't, as the manager has it, where an opening leaves it. The list has room for
    // as many sums as a manager has keys.
    fn put(
        &mut self,
        manager: &Manager,
        xid: &Xid,
        sums: &mut Vec<(Key, i64)>,
    ) -> Result<(), WriteFault>
        requires { MOST_KEYS ≤ vec_capacity sums.old }
        ensures seen { IsSeen (S.view self.old.tables.trees) (S.recovers self.old.tables.trees) self.old.is_written
            (image_of self.old.mirror) → OnOk result (IsSeen (S.view self.new.tables.trees)
            (S.recovers self.new.tables.trees) self.new.is_written (image_of self.new.mirror)) }
        ensures order { IsInOrder self.old.slots.entries self.old.places.entries (image_of self.old.mirror)
            → Lacks xid.now (image_of self.old.mirror)
            → OnOk result (IsInOrder self.new.slots.entries self.new.places.entries (image_of self.new.mirror)) }
        ensures put { IsInOrder self.old.slots.entries self.old.places.entries (image_of self.old.mirror)
            → Lacks xid.now (image_of self.old.mirror) → OnOk result (HasOf xid.now (image_of self.new.mirror)
            manager.now.tables
            × DiffersAt xid.now (image_of self.old.mirror) (image_of self.new.mirror)) }
        ensures room { vec_capacity sums.new ≡ vec_capacity sums.old }
        ensures quiet { IsQuiet S.view S.faults S.recovers S.is_shielded self.old.tables.trees self.new.tables.trees }
    {
        let Some(left) = Left::of(manager.state(xid)) else {
            return Ok(());
        };
        let slot = self.put_left(xid, left)?;
        match left {
            Left::Completed(_) => Ok(()),
            Left::Prepared => {
                manager.sums_of(xid, sums);
                self.put_sums(slot, sums)
            }
        }
    }

    /// Puts these branches, none of which the file has, as the manager has them, where an opening leaves them. The list
    /// has room for as many sums as a manager has keys.
    pub(crate) fn put_all(
        &mut self,
        manager: &Manager,
        xids: &HashSet<Xid>,
        sums: &mut Vec<(Key, i64)>,
    ) -> Result<(), WriteFault>
        requires { MOST_KEYS ≤ vec_capacity sums.old }
        ensures seen { IsSeen (S.view self.old.tables.trees) (S.recovers self.old.tables.trees) self.old.is_written
            (image_of self.old.mirror) → OnOk result (IsSeen (S.view self.new.tables.trees)
            (S.recovers self.new.tables.trees) self.new.is_written (image_of self.new.mirror)) }
        ensures order { IsInOrder self.old.slots.entries self.old.places.entries (image_of self.old.mirror)
            → LackAll xids.now.keys (image_of self.old.mirror)
            → OnOk result (IsInOrder self.new.slots.entries self.new.places.entries (image_of self.new.mirror)) }
        ensures put { IsInOrder self.old.slots.entries self.old.places.entries (image_of self.old.mirror)
            → LackAll xids.now.keys (image_of self.old.mirror)
            → OnOk result (PutsAll xids.now.keys manager.now.tables (image_of self.old.mirror)
            (image_of self.new.mirror)) }
        ensures room { vec_capacity sums.new ≡ vec_capacity sums.old }
        ensures quiet { IsQuiet S.view S.faults S.recovers S.is_shielded self.old.tables.trees self.new.tables.trees }
    {
        for xid in xids.iter() {
            self.put(manager, xid, sums)?;
        }
        Ok(())
    }

    // ---- values

    // Puts the value that the manager has of the account at a place, where the file has another.
    fn put_value(&mut self, manager: &Manager, place: u32) -> Result<(), WriteFault>
        ensures branches { OnOk result ((image_of self.new.mirror).branches ≡ (image_of self.old.mirror).branches) }
        ensures changes { OnOk result ((image_of self.new.mirror).changes ≡ (image_of self.old.mirror).changes) }
        ensures keys { OnOk result (keys_of_accounts self.new.mirror.accounts.items
            ≡ keys_of_accounts self.old.mirror.accounts.items) }
        ensures values { AreStoredValues manager.now.tables (take place self.old.mirror.accounts.items)
            → OnOk result (AreStoredValues manager.now.tables (take (place + 1) self.new.mirror.accounts.items)) }
        ensures seen { IsSeen (S.view self.old.tables.trees) (S.recovers self.old.tables.trees) self.old.is_written
            (image_of self.old.mirror) → OnOk result (IsSeen (S.view self.new.tables.trees)
            (S.recovers self.new.tables.trees) self.new.is_written (image_of self.new.mirror)) }
        ensures slots { self.new.slots ≡ self.old.slots }
        ensures places { self.new.places ≡ self.old.places }
        ensures quiet { IsQuiet S.view S.faults S.recovers S.is_shielded self.old.tables.trees self.new.tables.trees }
    {
        let Some(account) = self.mirror.accounts.get(place as usize).copied() else {
            return Err(WriteFault);
        };
        match manager.value(&account.0) {
            None => Err(WriteFault),
            Some(value) if value == account.1 => Ok(()),
            Some(value) => Ok(self.set_account(place, account.0, value)?),
        }
    }

    // How many accounts there are.
    fn account_count(&self) -> Result<u32, WriteFault>
        ensures count { IfOk result (λ count. count ≡ length self.now.mirror.accounts.items) }
        ensures few { IfErr result (λ _. MOST_KEYS < length self.now.mirror.accounts.items) }
    {
        match u32::try_from(self.mirror.accounts.len()) {
            Ok(count) => Ok(count),
            Err(_) => Err(WriteFault),
        }
    }

    /// Puts the values that differ from those of the manager.
    pub(crate) fn put_values(&mut self, manager: &Manager) -> Result<(), WriteFault>
        ensures seen { IsSeen (S.view self.old.tables.trees) (S.recovers self.old.tables.trees) self.old.is_written
            (image_of self.old.mirror) → OnOk result (IsSeen (S.view self.new.tables.trees)
            (S.recovers self.new.tables.trees) self.new.is_written (image_of self.new.mirror)) }
        ensures order { IsInOrder self.old.slots.entries self.old.places.entries (image_of self.old.mirror)
            → OnOk result (IsInOrder self.new.slots.entries self.new.places.entries (image_of self.new.mirror)) }
        ensures values { OnOk result (HasValuesOf manager.now.tables (image_of self.old.mirror)
            (image_of self.new.mirror)) }
        ensures quiet { IsQuiet S.view S.faults S.recovers S.is_shielded self.old.tables.trees self.new.tables.trees }
    {
        for place in 0..self.account_count()? {
            self.put_value(manager, place)?;
        }
        Ok(())
    }

    // ---- commits

    /// Makes durable all that was written since the last commit, if anything was.
    pub(crate) fn commit(&mut self) -> Result<(), WriteFault>
        ensures same { image_of self.new.mirror ≡ image_of self.old.mirror }
        ensures slots { self.new.slots ≡ self.old.slots }
        ensures places { self.new.places ≡ self.old.places }
        ensures settled { Knows 4 (S.view self.old.tables.trees) (slots_of (image_of self.old.mirror))
            → (self.old.is_written ≡ false
            → IsCommitted 4 (S.view self.old.tables.trees) (S.recovers self.old.tables.trees) (slots_of
            (image_of self.old.mirror)))
            → OnOk result (IsSettledImage (S.view self.new.tables.trees) (S.recovers self.new.tables.trees)
            (image_of self.new.mirror)) }
        ensures crash { Knows 4 (S.view self.old.tables.trees) (slots_of (image_of self.old.mirror))
            → IsClean (S.view self.new.tables.trees) → (db : trees_of.Trees) → S.recovers self.new.tables.trees db
            → HasImage (image_of self.old.mirror) db ⊎ S.recovers self.old.tables.trees db }
        ensures clean { IsClean (S.view self.new.tables.trees) → IsClean (S.view self.old.tables.trees) }
    {
        if self.is_written {
            self.tables.commit()?;
            self.is_written = false;
        }
        Ok(())
    }

    /// While the trees are open, a crash leaves what was committed last. It does nothing.
    pub(crate) fn stays(&self)
        ensures stays { IsTrue (S.view self.now.tables.trees).is_open
            → S.recovers self.now.tables.trees (S.view self.now.tables.trees).committed }
        ensures broken { (S.view self.now.tables.trees).is_open ≡ false
            → IsTrue (S.view self.now.tables.trees).is_broken }
    {}

    // ---- a new file

    // Writes the account at a place, where those before it are written, and nothing else.
    fn fill_account(&mut self, place: u32) -> Result<(), StoreOpenFault>
        ensures filled { Knows 4 (S.view self.old.tables.trees) (accounts_to place (image_of self.old.mirror))
            → OnOk result (Knows 4 (S.view self.new.tables.trees) (accounts_to (place + 1)
            (image_of self.old.mirror))) }
        ensures device { are_accounts self.old.mirror.accounts.items ≡ true
            → place < length self.old.mirror.accounts.items → IfErr result (λ fault. is_of_device fault ≡ true) }
        ensures mirror { self.new.mirror ≡ self.old.mirror }
        ensures slots { self.new.slots ≡ self.old.slots }
        ensures places { self.new.places ≡ self.old.places }
    {
        let Some(account) = self.mirror.accounts.get(place as usize).copied() else {
            return Err(StoreOpenFault::NotRestored(RestoreFault::BadAccounts));
        };
        if account.1 > MOST_VALUE {
            return Err(StoreOpenFault::NotRestored(RestoreFault::BadAccounts));
        }
        self.is_written = true;
        self.tables
            .set(ACCOUNTS, place, &account_cells(&account.0, account.1))?;
        Ok(())
    }

    // Writes all accounts, where nothing is written.
    fn fill_accounts(&mut self) -> Result<(), StoreOpenFault>
        ensures filled { IsBare (S.view self.old.tables.trees)
            → OnOk result (Knows 4 (S.view self.new.tables.trees)
            (accounts_to (length self.old.mirror.accounts.items) (image_of self.old.mirror))) }
        ensures device { are_accounts self.old.mirror.accounts.items ≡ true
            → IfErr result (λ fault. is_of_device fault ≡ true) }
        ensures mirror { self.new.mirror ≡ self.old.mirror }
        ensures slots { self.new.slots ≡ self.old.slots }
        ensures places { self.new.places ≡ self.old.places }
    {
        let Ok(count) = self.account_count() else {
            return Err(StoreOpenFault::NotRestored(RestoreFault::BadAccounts));
        };
        for place in 0..count {
            self.fill_account(place)?;
        }
        Ok(())
    }

    // Writes what the file is, where its accounts are written.
    fn fill_store(&mut self) -> Result<(), StoreOpenFault>
        ensures filled { HasAccountsAlone (image_of self.old.mirror)
            → Knows 4 (S.view self.old.tables.trees) (accounts_to (length self.old.mirror.accounts.items)
            (image_of self.old.mirror))
            → OnOk result (Knows 4 (S.view self.new.tables.trees) (slots_of (image_of self.old.mirror))) }
        ensures device { IfErr result (λ fault. is_of_device fault ≡ true) }
        ensures mirror { self.new.mirror ≡ self.old.mirror }
        ensures slots { self.new.slots ≡ self.old.slots }
        ensures places { self.new.places ≡ self.old.places }
    {
        self.is_written = true;
        self.tables.set(STORE, 0, &store_cells(self.mirror.number))?;
        Ok(())
    }

    // Makes a new file durable.
    fn commit_new(&mut self) -> Result<(), StoreOpenFault>
        ensures settled { Knows 4 (S.view self.old.tables.trees) (slots_of (image_of self.old.mirror))
            → OnOk result (IsSettledImage (S.view self.new.tables.trees) (S.recovers self.new.tables.trees)
            (image_of self.old.mirror)) }
        ensures device { IfErr result (λ fault. is_of_device fault ≡ true) }
        ensures mirror { self.new.mirror ≡ self.old.mirror }
        ensures slots { self.new.slots ≡ self.old.slots }
        ensures places { self.new.places ≡ self.old.places }
    {
        self.tables.commit()?;
        self.is_written = false;
        Ok(())
    }

    /// Writes a new file, which has no row, and makes it durable: what it is, and its accounts.
    pub(crate) fn fill(&mut self) -> Result<(), StoreOpenFault>
        ensures settled { HasAccountsAlone (image_of self.old.mirror) → IsBare (S.view self.old.tables.trees)
            → OnOk result (IsSettledImage (S.view self.new.tables.trees) (S.recovers self.new.tables.trees)
            (image_of self.old.mirror)) }
        ensures device { are_accounts self.old.mirror.accounts.items ≡ true
            → IfErr result (λ fault. is_of_device fault ≡ true) }
        ensures mirror { self.new.mirror ≡ self.old.mirror }
        ensures slots { self.new.slots ≡ self.old.slots }
        ensures places { self.new.places ≡ self.old.places }
    {
        self.fill_accounts()?;
        self.fill_store()?;
        self.commit_new()
    }
}
