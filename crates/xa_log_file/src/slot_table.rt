//! The slots of a log in memory, and where the record of a transaction is.
ghost use Rattle.std.specs.Prelude.{◌≡◌, ◌⊎◌, ◌<◌, ◌≤◌, ◌+◌, ℕ, length, replicate, map, not, slice_set, slice_index_or};
ghost use Rattle.std.specs.Prelude.{IfOk, IfSome, IfNone, OnSome, true, false};
ghost use Rattle.std.specs.List.{All, Contains};
ghost use Rattle.xa_log.specs.declared.log.CommitRecord.{CommitRecord};
ghost use Rattle.std.specs.FinMap.{from_entries};
ghost use Rattle.std.specs.HashMap.{hash_map_len, spare};
ghost use Rattle.std.proofs.Props.{props};
ghost use Rattle.xa_words.specs.Tran.{tran_eq};
ghost use Rattle.xa_log.specs.Log.{is_among};
ghost use Rattle.xa_log_file.specs.declared.slot.LogSlot.TheVariants.{Free, Taken};
ghost use Rattle.xa_log_file.specs.Memory.{HasName, HasNoName, HasFreeSlots, AreNewNames, IsIndexOf, HasNoFree};
ghost use Rattle.xa_log_file.specs.Memory.{placed, shut, forgets, used};

use crate::slot::LogSlot;
use std::alloc::{AllocError, Global};
use std::collections::HashMap;
use xa_log::CommitRecord;
use xa_words::Tran;

/// The slots, with the place of each transaction, so that none is looked for.
#[derive(Drop)]
pub(crate) struct SlotTable {
    pub(crate) slots: Vec<LogSlot>,
    // Where the record of a transaction is, be it forgotten or not.
    places: HashMap<Tran, usize>,
    // Before this place no slot is free.
    first: usize,
    ghost indexed: { IsIndexOf (from_entries places.entries) slots.items } by { Prim.hlevel props },
    ghost none_before: { HasNoFree slots.items first } by { Prim.hlevel props },

    // Each slot that isn't free has an entry, and there is room for one of each that is.
    ghost room: { length slots.items ≤ used slots.items + spare places } by { Prim.hlevel props },
    ghost capacity: { length slots.items ≤ hash_map_len places + spare places } by { Prim.hlevel props },
}

// Frees the slots of forgotten records, and makes the index of the others anew: so it has room again for all.
fn shut_all(slots: &mut Vec<LogSlot>, places: &mut HashMap<Tran, usize>)
    requires indexed { IsIndexOf (from_entries places.old.entries) slots.old.items }
    requires capacity { length slots.old.items ≤ hash_map_len places.old + spare places.old }
    ensures slots { slots.new.items ≡ map shut slots.old.items }
    ensures indexed { IsIndexOf (from_entries places.new.entries) slots.new.items }
    ensures room { length slots.new.items ≤ used slots.new.items + spare places.new }
    ensures capacity { length slots.new.items ≤ hash_map_len places.new + spare places.new }
{
    places.clear();
    for place in 0..slots.len() {
        match slots[place] {
            LogSlot::Free => {}
            LogSlot::Taken(decision) => {
                let put: Result<_, _> = places.insert(decision.tran, place);
                let _ = put.unwrap();
            }
            LogSlot::Forgotten(_) => slots[place] = LogSlot::Free,
        }
    }
}

// The slot, forgotten where its transaction isn't one of these.
fn kept(slot: &LogSlot, trans: &[Tran]) -> LogSlot
    ensures { result ≡ forgets (λ t. not (is_among trans.now t)) slot.now }
{
    if let LogSlot::Taken(decision) = slot {
        if !trans.contains(&decision.tran) {
            return LogSlot::Forgotten(*decision);
        }
    }
    *slot
}

// Forgets all records but those of these transactions.
#[tactic(auto, using(crate::proofs::Places::mapping))]
fn forget_others(slots: &mut Vec<LogSlot>, trans: &[Tran])
    ensures { slots.new.items ≡ map (forgets (λ t. not (is_among trans.now t))) slots.old.items }
{
    for place in 0..slots.len() {
        slots[place] = kept(&slots[place], trans);
    }
}

impl SlotTable {
    /// So many free slots.
    pub(crate) fn new(alloc: Global, count: usize) -> Result<SlotTable, AllocError>
        ensures { IfOk result (λ table. table.slots.items ≡ replicate count Free) }
    {
        let slots = vec![in alloc; LogSlot::Free; count]?;
        let places = HashMap::with_capacity(alloc, count)?;
        Ok(SlotTable {
            slots,
            places,
            first: 0,
        })
    }

    /// The slot that has a record of the transaction, forgotten or not.
    pub(crate) fn place_of(&self, tran: &Tran) -> Option<usize>
        ensures there { IfSome result (λ place. HasName self.now.slots.items place tran.now) }
        ensures none { IfNone result (HasNoName self.now.slots.items tran.now) }
    {
        self.places.get(tran).copied()
    }

    /// The first slot that is free.
    #[tactic(auto, using(xa_base::proofs::get_or_default, crate::proofs::Places::slot_indexed))]
    pub(crate) fn free_place(&mut self) -> Option<usize>
        ensures slots { self.new.slots.items ≡ self.old.slots.items }
        ensures free { IfSome result (λ place. (place < length self.old.slots.items)
            × (slice_index_or self.old.slots.items place Free ≡ Free)) }
        ensures first { IfSome result (HasNoFree self.old.slots.items) }
        ensures none { IfNone result (HasNoFree self.old.slots.items (length self.old.slots.items)) }
    {
        for place in self.first..self.slots.len() {
            if let LogSlot::Free = self.slots[place] {
                self.first = place;
                return Some(place);
            }
        }
        self.first = self.slots.len();
        None
    }

    /// Puts a record into a free slot.
    pub(crate) fn take(&mut self, place: usize, decision: CommitRecord)
        requires within { place < length self.old.slots.items }
        requires free { slice_index_or self.old.slots.items place Free ≡ Free }
        requires new { HasNoName self.old.slots.items decision.tran }
        ensures { self.new.slots.items ≡ slice_set self.old.slots.items place (Taken decision) }
    {
        let put: Result<_, _> = self.places.insert(decision.tran, place);
        let _ = put.unwrap();
        self.slots[place] = LogSlot::Taken(decision);
    }

    // Whether none of the records is of a transaction that a slot has.
    fn are_unnamed(&self, decisions: &[CommitRecord]) -> bool
        ensures unnamed { result ≡ true → All (λ r. HasNoName self.now.slots.items r.tran) decisions.now }
        ensures named { result ≡ false → (r : CommitRecord) × (Contains decisions.now r
            × ((k : ℕ) × HasName self.now.slots.items k r.tran)) }
    {
        for decision in decisions {
            if self.place_of(&decision.tran).is_some() {
                return false;
            }
        }
        true
    }

    // Whether so many slots are free.
    fn has_free(&self, count: usize) -> bool
        ensures room { result ≡ true → HasFreeSlots self.now.slots.items count }
        ensures full { result ≡ false → length self.now.slots.items < used self.now.slots.items + count }
    {
        let mut left = count;
        for place in self.first()..self.slots.len() {
            if left == 0 {
                return true;
            }
            if let LogSlot::Free = self.slots[place] {
                left -= 1;
            }
        }
        left == 0
    }

    /// Whether all records have room in free slots, and none is of a transaction that a slot has.
    pub(crate) fn has_room_for(&self, decisions: &[CommitRecord]) -> bool
        ensures unnamed { result ≡ true → All (λ r. HasNoName self.now.slots.items r.tran) decisions.now }
        ensures room { result ≡ true → HasFreeSlots self.now.slots.items (length decisions.now) }
        ensures none { result ≡ false → (length self.now.slots.items < used self.now.slots.items + length decisions.now)
            ⊎ ((r : CommitRecord) × (Contains decisions.now r × ((k : ℕ) × HasName self.now.slots.items k r.tran))) }
    {
        if !self.are_unnamed(decisions) {
            return false;
        }
        self.has_free(decisions.len())
    }

    /// The place before which no slot is free.
    pub(crate) fn first(&self) -> usize
        ensures none_before { HasNoFree self.now.slots.items result }
        ensures within { result ≤ length self.now.slots.items }
    {
        if self.first <= self.slots.len() {
            return self.first;
        }
        self.slots.len()
    }

    /// Puts records into the first free slots.
    pub(crate) fn take_all(&mut self, decisions: &[CommitRecord])
        requires room { HasFreeSlots self.old.slots.items (length decisions.now) }
        requires new { AreNewNames self.old.slots.items decisions.now }
        ensures { self.new.slots.items ≡ placed self.old.slots.items decisions.now }
    {
        for decision in decisions {
            let Some(place) = self.free_place() else {
                return;
            };
            self.take(place, *decision);
        }
    }

    /// Forgets the record of a transaction.
    pub(crate) fn forget(&mut self, tran: &Tran)
        ensures { self.new.slots.items ≡ map (forgets (λ t. tran_eq tran.now t)) self.old.slots.items }
    {
        if let Some(place) = self.place_of(tran) {
            if let LogSlot::Taken(record) = self.slots[place] {
                self.slots[place] = LogSlot::Forgotten(record);
            }
        }
    }

    /// Forgets all records but those of these transactions.
    pub(crate) fn keep_only(&mut self, trans: &[Tran])
        ensures { self.new.slots.items ≡ map (forgets (λ t. not (is_among trans.now t))) self.old.slots.items }
    {
        forget_others(&mut self.slots, trans);
    }

    /// The slots of forgotten records are free: their gates are shut on the disk.
    pub(crate) fn shut(&mut self)
        ensures { self.new.slots.items ≡ map shut self.old.slots.items }
    {
        shut_all(&mut self.slots, &mut self.places);
        self.first = 0;
    }
}
