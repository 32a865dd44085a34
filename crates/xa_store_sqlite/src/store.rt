//! The store.
ghost use Rattle.std.specs.Prelude.{◌≡◌, ◌⊎◌, ◌||◌, ◌&&◌, false, true, None, IfOk, []};
ghost use Rattle.std.specs.List.{list_any};
ghost use Rattle.xa_words.specs.Xid.{XidName, xid_eq};
ghost use Rattle.xa_words.specs.Codes.{is_done};
ghost use Rattle.xa_tables.specs.Durable.{is_durable_at, is_settling, moves_values};
ghost use Rattle.xa_tables.specs.Prepared.{names};
ghost use Rattle.std.specs.Prelude.{◌≤◌, ℕ, List, OnOk, vec_capacity};
ghost use Rattle.std.proofs.Props.{props};
ghost use Rattle.sqlite_trees.specs.View.{IsQuiet};
ghost use Rattle.xa_base.specs.declared.limits.TheConstants.{MOST_KEYS};
ghost use Rattle.xa_tables.specs.ManagerTables.{Tables};
ghost use Rattle.xa_tables.specs.Openings.{reopened};
ghost use Rattle.xa_store_sqlite.specs.Images.{HasAllBut, LeavesTables, state_in};
ghost use Rattle.xa_store_sqlite.specs.Writes.{AreSlots, IsInOrder, IsSeen, KnowsAllBut, LackAll, PutsAll, RemovesAll};
ghost use Rattle.xa_store_sqlite.specs.Writes.{image_of, is_removing};

use crate::database::TreesIn;
use crate::kept::{Kept, WriteFault};
use crate::told::Told;
use sqlite_trees::store::Store as Trees;
use std::alloc::{AllocError, Global};
use xa_base::MOST_KEYS;
use xa_store::{Store, StoreFault};
use xa_tables::Manager;
use xa_words::{Code, Key, Op, Request, Xid};

/// A manager's store in the tables of one file.
pub struct SlotStore<S: Trees> {
    kept: Kept<S>,
    // The branches that may differ from what the file has.
    told: Told,
    // The values may differ from those that the file has.
    are_moved: bool,
    has_failed: bool,
    // Room for the sums of a branch.
    sums: Vec<(Key, i64)>,
    ghost room: { MOST_KEYS ≤ vec_capacity sums } by { Prim.hlevel props },
}

/// A manager's store in one SQLite file, and its log, over any two files.
pub type SqliteStore<B> = SlotStore<TreesIn<B>>;

impl<S: Trees + Drop> Drop for SlotStore<S> {
    fn drop(self) {
        let SlotStore {
            kept: _,
            told: _,
            are_moved: _,
            has_failed: _,
            sums: _,
        } = self;
    }
}

fn is_done(code: Code) -> bool
    ensures { result ≡ is_done code }
{
    matches!(code, Code::Done)
}

// Whether the request, so answered, may change values.
fn moves_values(op: &Op, code: Code) -> bool
    ensures { result ≡ moves_values op.now code }
{
    match op {
        Op::Commit(..) => is_done(code),
        Op::Heur(_, commits) => *commits && is_done(code),
        _ => false,
    }
}

impl<S: Trees + Drop> SlotStore<S> {
    /// A store that owes nothing to what this file has.
    pub(crate) fn over(alloc: Global, kept: Kept<S>) -> Result<SlotStore<S>, AllocError>
        ensures kept { IfOk result (λ s. s.kept ≡ kept) }
        ensures told { IfOk result (λ s. s.told.branches.keys ≡ []) }
        ensures moved { IfOk result (λ s. s.are_moved ≡ false) }
        ensures failed { IfOk result (λ s. s.has_failed ≡ false) }
    {
        Ok(SlotStore {
            kept,
            told: Told::new(alloc)?,
            are_moved: false,
            has_failed: false,
            sums: Vec::with_capacity(alloc, MOST_KEYS)?,
        })
    }
}

impl<S: Trees> SlotStore<S> {
    /// The trees of the file, with no call to them. What isn't settled is lost.
    pub fn into_trees(self) -> S
        ensures { result ≡ self.kept.tables.trees }
    {
        let SlotStore {
            kept,
            told: _,
            are_moved: _,
            has_failed: _,
            sums: _,
        } = self;
        kept.into_trees()
    }

    // Remembers a branch, or fails.
    fn note(&mut self, xid: &Xid)
        ensures kept { self.new.kept ≡ self.old.kept }
        ensures moved { self.new.are_moved ≡ self.old.are_moved }
        ensures failed { self.new.has_failed ≡ false → self.old.has_failed ≡ false }
        ensures told { self.new.has_failed ≡ false → (x : XidName) → list_any (xid_eq x) self.new.told.branches.keys
            ≡ (xid_eq x xid.now || list_any (xid_eq x) self.old.told.branches.keys) }
    {
        if !self.told.add(xid) {
            self.has_failed = true;
        }
    }

    // Remembers a branch that is gone, unless it isn't in the file: then there is nothing to write.
    fn note_gone(&mut self, xid: &Xid)
        ensures kept { self.new.kept ≡ self.old.kept }
        ensures moved { self.new.are_moved ≡ self.old.are_moved }
        ensures failed { self.new.has_failed ≡ false → self.old.has_failed ≡ false }
        ensures told { AreSlots self.old.kept.slots.entries (image_of self.old.kept.mirror)
            → self.new.has_failed ≡ false
            → (x : XidName) → list_any (xid_eq x) self.new.told.branches.keys ≡ false
            → (list_any (xid_eq x) self.old.told.branches.keys ≡ false)
            × ((xid_eq xid.now x ≡ false) ⊎ (state_in (image_of self.old.kept.mirror) x ≡ None)) }
    {
        if self.kept.has(xid) {
            self.note(xid);
        }
    }

    // Remembers the branch that a request has changed, which was done.
    fn note_branch(&mut self, op: &Op)
        ensures kept { self.new.kept ≡ self.old.kept }
        ensures moved { self.new.are_moved ≡ self.old.are_moved }
        ensures failed { self.new.has_failed ≡ false → self.old.has_failed ≡ false }
        ensures told { AreSlots self.old.kept.slots.entries (image_of self.old.kept.mirror)
            → self.new.has_failed ≡ false
            → (x : XidName) → list_any (xid_eq x) self.new.told.branches.keys ≡ false
            → (list_any (xid_eq x) self.old.told.branches.keys ≡ false)
            × (((is_settling op.now && names x op.now) ≡ false)
            ⊎ ((is_removing op.now ≡ true) × (state_in (image_of self.old.kept.mirror) x ≡ None))) }
    {
        match op {
            Op::Prepare(xid) => self.note(xid),
            Op::Heur(xid, _) => self.note(xid),
            Op::Commit(xid, _) => self.note_gone(xid),
            Op::Rollback(xid) => self.note_gone(xid),
            Op::Forget(xid) => self.note_gone(xid),
            _ => {}
        }
    }

    // Remembers the branch that a request, so answered, may have changed.
    fn note_op(&mut self, op: &Op, code: Code)
        ensures kept { self.new.kept ≡ self.old.kept }
        ensures moved { self.new.are_moved ≡ self.old.are_moved }
        ensures failed { self.new.has_failed ≡ false → self.old.has_failed ≡ false }
        ensures told { AreSlots self.old.kept.slots.entries (image_of self.old.kept.mirror)
            → self.new.has_failed ≡ false
            → (x : XidName) → list_any (xid_eq x) self.new.told.branches.keys ≡ false
            → (list_any (xid_eq x) self.old.told.branches.keys ≡ false)
            × ((is_durable_at x op.now code ≡ false)
            ⊎ ((is_removing op.now ≡ true) × (state_in (image_of self.old.kept.mirror) x ≡ None))) }
    {
        if !is_done(code) {
            return;
        }
        self.note_branch(op);
    }

    // Remembers whether values may have moved.
    fn note_values(&mut self, op: &Op, code: Code)
        ensures kept { self.new.kept ≡ self.old.kept }
        ensures moved { self.new.are_moved ≡ (self.old.are_moved || moves_values op.now code) }
        ensures failed { self.new.has_failed ≡ self.old.has_failed }
        ensures told { self.new.told ≡ self.old.told }
    {
        if moves_values(op, code) {
            self.are_moved = true;
        }
    }

    // Removes from the file the branches that it was told of.
    fn remove_told(&mut self) -> Result<(), WriteFault>
        ensures seen { IsSeen (S.view self.old.kept.tables.trees) (S.recovers self.old.kept.tables.trees)
            self.old.kept.is_written (image_of self.old.kept.mirror)
            → OnOk result (IsSeen (S.view self.new.kept.tables.trees) (S.recovers self.new.kept.tables.trees)
            self.new.kept.is_written (image_of self.new.kept.mirror)) }
        ensures order { IsInOrder self.old.kept.slots.entries self.old.kept.places.entries
            (image_of self.old.kept.mirror)
            → OnOk result (IsInOrder self.new.kept.slots.entries self.new.kept.places.entries
            (image_of self.new.kept.mirror)) }
        ensures removed { IsInOrder self.old.kept.slots.entries self.old.kept.places.entries
            (image_of self.old.kept.mirror)
            → OnOk result (RemovesAll self.old.told.branches.keys (image_of self.old.kept.mirror)
            (image_of self.new.kept.mirror)) }
        ensures told { self.new.told ≡ self.old.told }
        ensures moved { self.new.are_moved ≡ self.old.are_moved }
        ensures quiet { IsQuiet S.view S.faults S.recovers S.is_shielded self.old.kept.tables.trees
            self.new.kept.tables.trees }
    {
        self.kept.remove_all(&self.told.branches)
    }

    // Puts those of them that an opening leaves.
    fn put_told(&mut self, manager: &Manager) -> Result<(), WriteFault>
        ensures seen { IsSeen (S.view self.old.kept.tables.trees) (S.recovers self.old.kept.tables.trees)
            self.old.kept.is_written (image_of self.old.kept.mirror)
            → OnOk result (IsSeen (S.view self.new.kept.tables.trees) (S.recovers self.new.kept.tables.trees)
            self.new.kept.is_written (image_of self.new.kept.mirror)) }
        ensures order { IsInOrder self.old.kept.slots.entries self.old.kept.places.entries
            (image_of self.old.kept.mirror)
            → LackAll self.old.told.branches.keys (image_of self.old.kept.mirror)
            → OnOk result (IsInOrder self.new.kept.slots.entries self.new.kept.places.entries
            (image_of self.new.kept.mirror)) }
        ensures put { IsInOrder self.old.kept.slots.entries self.old.kept.places.entries
            (image_of self.old.kept.mirror)
            → LackAll self.old.told.branches.keys (image_of self.old.kept.mirror)
            → OnOk result (PutsAll self.old.told.branches.keys manager.now.tables (image_of self.old.kept.mirror)
            (image_of self.new.kept.mirror)) }
        ensures told { self.new.told ≡ self.old.told }
        ensures moved { self.new.are_moved ≡ self.old.are_moved }
        ensures quiet { IsQuiet S.view S.faults S.recovers S.is_shielded self.old.kept.tables.trees
            self.new.kept.tables.trees }
    {
        self.kept
            .put_all(manager, &self.told.branches, &mut self.sums)
    }

    // Puts the values, where they may differ.
    fn put_moved(&mut self, manager: &Manager) -> Result<(), WriteFault>
        ensures seen { IsSeen (S.view self.old.kept.tables.trees) (S.recovers self.old.kept.tables.trees)
            self.old.kept.is_written (image_of self.old.kept.mirror)
            → OnOk result (IsSeen (S.view self.new.kept.tables.trees) (S.recovers self.new.kept.tables.trees)
            self.new.kept.is_written (image_of self.new.kept.mirror)) }
        ensures order { IsInOrder self.old.kept.slots.entries self.old.kept.places.entries
            (image_of self.old.kept.mirror)
            → OnOk result (IsInOrder self.new.kept.slots.entries self.new.kept.places.entries
            (image_of self.new.kept.mirror)) }
        ensures values { HasAllBut [] self.old.are_moved (image_of self.old.kept.mirror) manager.now.tables
            → OnOk result (HasAllBut [] false (image_of self.new.kept.mirror) manager.now.tables) }
        ensures quiet { IsQuiet S.view S.faults S.recovers S.is_shielded self.old.kept.tables.trees
            self.new.kept.tables.trees }
    {
        if !self.are_moved {
            return Ok(());
        }
        self.kept.put_values(manager)
    }

    // Puts all that it owes, and commits nothing of it.
    fn put_owed(&mut self, manager: &Manager) -> Result<(), WriteFault>
        ensures seen { IsSeen (S.view self.old.kept.tables.trees) (S.recovers self.old.kept.tables.trees)
            self.old.kept.is_written (image_of self.old.kept.mirror)
            → OnOk result (IsSeen (S.view self.new.kept.tables.trees) (S.recovers self.new.kept.tables.trees)
            self.new.kept.is_written (image_of self.new.kept.mirror)) }
        ensures order { IsInOrder self.old.kept.slots.entries self.old.kept.places.entries
            (image_of self.old.kept.mirror)
            → OnOk result (IsInOrder self.new.kept.slots.entries self.new.kept.places.entries
            (image_of self.new.kept.mirror)) }
        ensures all { IsInOrder self.old.kept.slots.entries self.old.kept.places.entries
            (image_of self.old.kept.mirror)
            → HasAllBut self.old.told.branches.keys self.old.are_moved (image_of self.old.kept.mirror)
            manager.now.tables → OnOk result (HasAllBut [] false (image_of self.new.kept.mirror) manager.now.tables) }
        ensures quiet { IsQuiet S.view S.faults S.recovers S.is_shielded self.old.kept.tables.trees
            self.new.kept.tables.trees }
    {
        self.remove_told()?;
        self.put_told(manager)?;
        self.put_moved(manager)
    }

    // Writes all that it owes, and commits it. Where a write fails, nothing of it is committed.
    fn write(&mut self, manager: &Manager) -> Result<(), WriteFault>
        ensures kept { KnowsAllBut self.old.told.branches.keys self.old.are_moved (S.view self.old.kept.tables.trees)
            (S.recovers self.old.kept.tables.trees) (image_of self.old.kept.mirror) self.old.kept.slots.entries
            self.old.kept.places.entries manager.now.tables
            → OnOk result (KnowsAllBut [] false (S.view self.new.kept.tables.trees)
            (S.recovers self.new.kept.tables.trees) (image_of self.new.kept.mirror) self.new.kept.slots.entries
            self.new.kept.places.entries manager.now.tables) }
        ensures crash { KnowsAllBut self.old.told.branches.keys self.old.are_moved (S.view self.old.kept.tables.trees)
            (S.recovers self.old.kept.tables.trees) (image_of self.old.kept.mirror) self.old.kept.slots.entries
            self.old.kept.places.entries manager.now.tables
            → (K : Tables) → LeavesTables (S.view self.new.kept.tables.trees) (S.recovers self.new.kept.tables.trees) K
            → (K ≡ reopened manager.now.tables)
            ⊎ LeavesTables (S.view self.old.kept.tables.trees) (S.recovers self.old.kept.tables.trees) K }
    {
        self.put_owed(manager)?;
        self.kept.commit()
    }
}

impl<S: Trees> Store for SlotStore<S> {
    ghost use Rattle.std.specs.Prelude.{◌≡◌, ◌||◌, not, false, length, nat_eq};
    ghost use Rattle.xa_store_sqlite.specs.Images.{LeavesTables};
    ghost use Rattle.xa_store_sqlite.specs.Writes.{KnowsAllBut, image_of};

    ghost knows = { λ s T. s.has_failed ≡ false
        → KnowsAllBut s.told.branches.keys s.are_moved (S.view s.kept.tables.trees) (S.recovers s.kept.tables.trees)
        (image_of s.kept.mirror) s.kept.slots.entries s.kept.places.entries T };

    ghost may_leave = { λ s K. LeavesTables (S.view s.kept.tables.trees) (S.recovers s.kept.tables.trees) K };

    ghost owing = { λ s. s.has_failed || (s.are_moved || not (nat_eq (length s.told.branches.keys) 0)) };

    fn owes(&self) -> bool {
        self.has_failed || self.are_moved || !self.told.is_empty()
    }

    fn is_full(&self) -> bool {
        self.told.is_full()
    }

    fn tell(&mut self, request: &Request, code: Code) {
        self.note_op(&request.op, code);
        self.note_values(&request.op, code);
    }

    fn settle(&mut self, manager: &Manager) -> Result<(), StoreFault> {
        if self.has_failed {
            return Err(StoreFault);
        }
        match self.write(manager) {
            Ok(()) => {
                self.told.clear();
                self.are_moved = false;
                Ok(())
            }
            Err(WriteFault) => {
                self.has_failed = true;
                Err(StoreFault)
            }
        }
    }

    // The file has what a reopening keeps, so the store stays as it is, and takes no memory. What it was told of and
    // hasn't settled, it owes to the next opening too.
    fn reopened(self, _threads: u32, _room: u32) -> Result<SlotStore<S>, SlotStore<S>> {
        Ok(self)
    }
}
