//! The decision log over a device: a record in each slot whose gate is open.
ghost use Rattle.std.specs.Prelude.{◌≡◌, ◌≢◌, ◌⊎◌, ◌<◌, ◌≤◌, List, [], ◌∷◌, ℕ, map, length, slice_index_or};
ghost use Rattle.std.specs.Prelude.{true, false, refl};
ghost use Rattle.std.proofs.Props.{props};
ghost use Rattle.xa_log_file.specs.declared.slot.LogSlot.TheVariants.{Free};
ghost use Rattle.xa_log_file.specs.declared.condition.Condition.TheVariants.{Ready, Lost};
ghost use Rattle.xa_log_file.specs.Appends.{IsAppend, IsLoss, IsForgettingInLog};
ghost use Rattle.xa_log_file.specs.Device.{LeavesOnly};
ghost use Rattle.xa_log_file.specs.Memory.{LeavesShown, MayShow, HasRecordsAndPerhaps, Shows};
ghost use Rattle.xa_log_file.specs.Memory.{table_of, taken, records_in, forgotten_in, state_of_slots, shut};

use crate::condition::Condition;
use crate::device::Device;
use crate::shutting::shut_gates;
use crate::slot::LogSlot;
use crate::slot_table::SlotTable;
use xa_log::{CommitRecord, DecisionLog, DecisionRecords, GroupLog, LogFault, ReopenLog};
use xa_words::{ManagerSet, Tran};

/// A decision log in the slots of a file.
#[derive(Drop)]
pub struct FileLog<D: Device> {
    pub(crate) device: D,
    pub(crate) table: SlotTable,
    pub(crate) condition: Condition,
    pub(crate) failures: u64,
    ghost ready: { condition ≡ Ready → Shows D.seen D.may_leave table.slots.items device } by { Prim.hlevel props },
    ghost known: { condition ≢ Lost → LeavesShown D.may_leave table.slots.items device } by { Prim.hlevel props },
}

impl<D: Device> FileLog<D> {
    /// Shuts the gates of all forgotten records on the disk, and syncs where there are any. Whether it is done: if not,
    /// the device has failed, the log takes no more records, and the same ones are forgotten as before.
    ///
    /// Forgetting is of the memory alone, so the next opening finds forgotten records again. Who ends cleanly calls
    /// this last, so that it finds none. It may be asked of a log whose `condition` is `Ready`.
    pub fn shut_forgotten(&mut self) -> bool
        requires { self.old.condition ≡ Ready }
        ensures shut { result ≡ true → (self.new.condition ≡ Ready)
            × (self.new.table.slots.items ≡ map shut self.old.table.slots.items) }
        ensures failed { result ≡ false → (self.new.condition ≢ Lost)
            × (self.new.table.slots.items ≡ self.old.table.slots.items)
            × (D.faults self.old.device < D.faults self.new.device) }
        ensures faults { D.faults self.old.device ≤ D.faults self.new.device }
        ensures failures { self.new.failures ≡ self.old.failures }
        ensures any_moment { LeavesOnly D.moment D.left_since self.old.device self.new.device
            (MayShow self.old.table.slots.items) }
    {
        let Ok(()) = shut_gates(&mut self.device, &self.table.slots) else {
            self.condition = Condition::Halted;
            return false;
        };
        self.table.shut();
        true
    }
}

impl<D: Device> DecisionRecords for FileLog<D> {
    ghost records = { λ l. records_in l.table.slots.items };

    ghost knows = { λ l. l.condition ≢ Lost };

    fn has(&self, tran: &Tran) -> Option<ManagerSet> {
        let place = self.table.place_of(tran)?;
        match self.table.slots[place] {
            LogSlot::Taken(record) => Some(record.yes),
            _ => None,
        }
    }

    fn is_known(&self) -> bool {
        self.condition != Condition::Lost
    }
}

impl<D: Device> DecisionLog for FileLog<D> {
    ghost state = { λ l. state_of_slots l.table.slots.items l.failures };

    // An append is one of a single record together.
    ghost appends = { λ tran yes taken old new.
        IsAppend (record { moment = D.moment; left_since = D.left_since; faults = D.faults })
        (record { tran = tran; yes = yes } ∷ []) taken
        (record { condition = old.condition; slots = old.table.slots.items; device = old.device })
        (record { condition = new.condition; slots = new.table.slots.items; device = new.device }) };

    ghost loses = { λ tran yes old new.
        IsLoss (record { moment = D.moment; left_since = D.left_since; faults = D.faults })
        (record { tran = tran; yes = yes } ∷ [])
        (record { condition = old.condition; slots = old.table.slots.items; device = old.device })
        (record { condition = new.condition; slots = new.table.slots.items; device = new.device }) };

    // The file stays, and forgotten is what was in it.
    ghost forgets = { λ old new. IsForgettingInLog
        (record { condition = old.condition; slots = old.table.slots.items; device = old.device })
        (record { condition = new.condition; slots = new.table.slots.items; device = new.device }) };

    ghost records_are = { λ l. refl };

    fn append(&mut self, decision: &CommitRecord) -> Result<(), LogFault> {
        self.record_all(&[*decision])
    }

    fn forget(&mut self, tran: &Tran) {
        self.table.forget(tran);
    }

    fn keep_only(&mut self, trans: &[Tran]) {
        self.table.keep_only(trans);
    }

    fn failures(&self) -> u64 {
        self.failures
    }
}

impl<D: Device> GroupLog for FileLog<D> {
    // A crash at any moment of the call leaves the records from before it, any of the new ones, and perhaps forgotten
    // ones; and why the records are refused.
    ghost appends_all = { λ rs taken old new.
        IsAppend (record { moment = D.moment; left_since = D.left_since; faults = D.faults }) rs taken
        (record { condition = old.condition; slots = old.table.slots.items; device = old.device })
        (record { condition = new.condition; slots = new.table.slots.items; device = new.device }) };

    // A crash at any moment leaves the same; and the device has failed.
    ghost loses_all = { λ rs old new.
        IsLoss (record { moment = D.moment; left_since = D.left_since; faults = D.faults }) rs
        (record { condition = old.condition; slots = old.table.slots.items; device = old.device })
        (record { condition = new.condition; slots = new.table.slots.items; device = new.device }) };

    fn append_all(&mut self, decisions: &[CommitRecord]) -> Result<(), LogFault> {
        self.record_all(decisions)
    }
}

/// A file is opened again by its owner, with `open`: a log that has lost an append stays unknown.
impl<D: Device> ReopenLog for FileLog<D> {
    ghost reopens = { λ l l'. l' ≡ l };

    fn reopen(self) -> FileLog<D> {
        self
    }
}

impl<D: Device> FileLog<D> {
    /// While its records are known, a crash at this moment leaves a file that has these, and beside them perhaps some
    /// that were forgotten.
    pub fn keeps_its_records(&self)
        requires { self.now.condition ≢ Lost }
        ensures { (c : List ℕ) → D.may_leave self.now.device c → HasRecordsAndPerhaps
            (records_in self.now.table.slots.items) (forgotten_in self.now.table.slots.items) c }
    {}

    /// What may be asked of the log: whether it takes records, and whether it knows those that it has.
    pub fn condition(&self) -> Condition
        ensures { result ≡ self.now.condition }
    {
        self.condition
    }

    /// How many slots there are, each for one record.
    pub fn slots(&self) -> usize
        ensures { result ≡ length self.now.table.slots.items }
    {
        self.table.slots.len()
    }

    /// The record in the slot at this place, from 0, where there is one that counts. It is for who lists them all.
    pub fn record_at(&self, place: usize) -> Option<CommitRecord>
        requires { self.now.condition ≢ Lost }
        ensures { result ≡ taken (slice_index_or self.now.table.slots.items place Free) }
    {
        if let Some(LogSlot::Taken(record)) = self.table.slots.get(place) {
            return Some(*record);
        }
        None
    }

    /// The device, to be opened again.
    pub fn into_device(self) -> D
        ensures { result ≡ self.device }
    {
        let FileLog {
            device,
            table: _,
            condition: _,
            failures: _,
        } = self;
        device
    }
}
