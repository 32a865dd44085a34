//! A decision log in memory.
ghost use Rattle.std.specs.Prelude.{◌≡◌, ◌+◌, ◌<◌, ◌≤◌, IfOk, OnOk, IsErrOf, true, false, refl};
ghost use Rattle.xa_log.specs.declared.log.LogFault.TheVariants.{Refused, Unknown};
ghost use Rattle.xa_log.specs.Log.{no_records, with_record, with_failure, AppendsTo, ForgetsFrom};

use crate::log::{CommitRecord, DecisionLog, DecisionRecords, LogFault, ReopenLog};
use std::alloc::{AllocError, Global};
use std::collections::HashMap;
use std::marker::Model;
use xa_words::{ManagerSet, Tran};

/// A log that forgets all when it ends. Want of memory is a refused append, and no append has an unknown end.
#[derive(Drop)]
pub struct MemoryLog {
    records: HashMap<Tran, ManagerSet>,
    // Whether memory for records was taken: then there is room in the spare places.
    is_reserved: bool,
    failures: u64,
}

impl Model for MemoryLog {
    ghost use Rattle.std.specs.FinMap.{from_entries};
    ghost use Rattle.std.specs.HashMap.{spare};
    ghost use Rattle.xa_log.specs.Log.{LogView, log_code, room_by_spare};

    ghost Value = { LogView };

    ghost coded = { log_code };

    ghost view = { λ l. record {
      state = record { records = from_entries l.records.entries; failures = l.failures };
      room = room_by_spare l.is_reserved (spare l.records);
    } };
}

impl MemoryLog {
    /// A log with no record, which takes no memory yet.
    pub fn new(alloc: Global) -> MemoryLog
        ensures { result ≡ record { state = no_records; room = 0 } }
    {
        MemoryLog {
            records: HashMap::new(alloc),
            is_reserved: false,
            failures: 0,
        }
    }

    /// A log with no record that has taken memory for so many: none of its first appends is refused.
    pub fn with_room(alloc: Global, records: usize) -> Result<MemoryLog, AllocError>
        ensures state { IfOk result (λ log. log.state ≡ no_records) }
        ensures room { IfOk result (λ log. records ≤ log.room) }
    {
        Ok(MemoryLog {
            records: HashMap::with_capacity(alloc, records)?,
            is_reserved: true,
            failures: 0,
        })
    }

    fn count_failure(&mut self)
        ensures { self.new ≡ record self.old { state = with_failure self.old.state } }
    {
        self.failures = self.failures.wrapping_add(1);
    }

    // Whether the record was put.
    fn put(&mut self, tran: Tran, yes: ManagerSet) -> bool
        ensures put { result ≡ true → self.new.state ≡ with_record self.old.state tran yes }
        ensures unchanged { result ≡ false → self.new.state ≡ self.old.state }

        // With room for it there is, and it takes up no more than one place.
        ensures fits { 0 < self.old.room → result ≡ true }
        ensures room { result ≡ true → self.old.room ≤ self.new.room + 1 }
    {
        if self.records.insert(tran, yes).is_err() {
            return false;
        }
        self.is_reserved = true;
        true
    }
}

impl DecisionRecords for MemoryLog {
    ghost records = { λ l. l.state.records };

    ghost knows = { λ l. Unit {0} };

    fn has(&self, tran: &Tran) -> Option<ManagerSet> {
        self.records.get(tran).copied()
    }

    fn is_known(&self) -> bool {
        true
    }
}

impl DecisionLog for MemoryLog {
    ghost state = { λ l. l.state };

    ghost appends = { AppendsTo };

    ghost loses = { λ tran yes old new. ⊥ };

    ghost forgets = { ForgetsFrom };

    ghost records_are = { λ l. refl };

    fn append(&mut self, decision: &CommitRecord) -> Result<(), LogFault>
        ensures appended { OnOk result ((self.new.state ≡ with_record self.old.state decision.now.tran decision.now.yes)
            × Unit {0} × AppendsTo decision.now.tran decision.now.yes true self.old self.new) }
        ensures refused { IsErrOf result Refused → (self.new.state ≡ with_failure self.old.state)
            × Unit {0} × AppendsTo decision.now.tran decision.now.yes false self.old self.new }
        ensures unknown { IsErrOf result Unknown → ⊥ }
    {
        if !self.put(decision.tran, decision.yes) {
            self.count_failure();
            return Err(LogFault::Refused);
        }
        Ok(())
    }

    fn forget(&mut self, tran: &Tran) {
        let _ = self.records.remove(tran);
    }

    fn keep_only(&mut self, trans: &[Tran]) {
        self.records.retain(|tran, _yes| trans.contains(tran));
    }

    fn failures(&self) -> u64 {
        self.failures
    }
}

/// No append has an unknown end, so it stays as it is.
impl ReopenLog for MemoryLog {
    ghost reopens = { λ l l'. l' ≡ l };

    fn reopen(self) -> MemoryLog {
        self
    }
}
