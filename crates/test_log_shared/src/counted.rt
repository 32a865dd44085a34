//! A log in memory that counts its calls, and fails when it is told to.
ghost use Rattle.std.specs.Prelude.{◌≡◌, ◌+◌, ◌%◌, ◌^◌, true, false, refl, IsErrOf};
ghost use Rattle.std.specs.FinMap.{insert};
ghost use Rattle.xa_log.specs.declared.log.LogFault.TheVariants.{Refused, Unknown};
ghost use Rattle.test_log_shared.specs.Puts.{put_records};
ghost use Rattle.xa_log_shared.specs.Asking.{own_records};

use std::alloc::{AllocError, Global};
use std::collections::HashMap;
use xa_log::{CommitRecord, DecisionLog, DecisionRecords, GroupLog, LogFault};
use xa_words::{ManagerSet, Tran};

/// A call of `append` or `append_all`, counted from 1, at which something happens; 0 for none.
#[derive(Clone, Copy, Debug, Default)]
pub struct Upsets {
    /// It and the next ones, so many, are refused.
    pub refused_at: u64,
    pub refused: u64,
    /// It has an unknown end.
    pub lost_at: u64,
}

#[derive(Drop)]
pub struct CountedLog {
    records: HashMap<Tran, ManagerSet>,
    room: usize,
    upsets: Upsets,
    is_known: bool,
    failures: u64,
    /// The calls of `append_all` and of `append`.
    pub groups: u64,
    pub singles: u64,
}

// Puts the record. False where there is no memory.
fn put(records: &mut HashMap<Tran, ManagerSet>, decision: &CommitRecord) -> bool
    ensures { result ≡ true
        → own_records records.new ≡ insert (own_records records.old) decision.now.tran decision.now.yes }
{
    records.insert(decision.tran, decision.yes).is_ok()
}

// Puts these records. False where there is no memory for one of them.
fn put_all(records: &mut HashMap<Tran, ManagerSet>, decisions: &[CommitRecord]) -> bool
    ensures { result ≡ true → own_records records.new ≡ put_records (own_records records.old) decisions.now }
{
    for decision in decisions {
        if !put(records, decision) {
            return false;
        }
    }
    true
}

impl CountedLog {
    /// One with room for so many records.
    pub fn new(alloc: Global, room: usize, upsets: Upsets) -> Result<CountedLog, AllocError> {
        Ok(CountedLog {
            records: HashMap::with_capacity(alloc, room)?,
            room,
            upsets,
            is_known: true,
            failures: 0,
            groups: 0,
            singles: 0,
        })
    }

    pub fn len(&self) -> usize {
        self.records.len()
    }

    // Whether the call that was just counted is to be refused.
    fn is_refused(&self, more: usize) -> bool {
        let call = self.groups.wrapping_add(self.singles);
        let first = self.upsets.refused_at;
        let is_upset = first > 0 && first <= call && call - first < self.upsets.refused;
        is_upset || self.records.len() > self.room.saturating_sub(more) || more > self.room
    }

    fn is_lost(&self) -> bool {
        self.groups.wrapping_add(self.singles) == self.upsets.lost_at
    }

    fn lose(&mut self) -> Result<(), LogFault>
        ensures unknown { IsErrOf result Unknown }
        ensures lost { self.new.is_known ≡ false }
    {
        self.is_known = false;
        Err(LogFault::Unknown)
    }

    fn refuse(&mut self) -> Result<(), LogFault>
        ensures refused { IsErrOf result Refused }
        ensures failures { self.new.failures ≡ (self.old.failures + 1) % 2 ^ 64 }
        ensures rest { self.new ≡ record self.old { failures = self.new.failures } }
    {
        self.failures = self.failures.wrapping_add(1);
        Err(LogFault::Refused)
    }
}

impl DecisionRecords for CountedLog {
    ghost records = { λ l. own_records l.records };

    ghost knows = { λ l. l.is_known ≡ true };

    fn has(&self, tran: &Tran) -> Option<ManagerSet> {
        self.records.get(tran).copied()
    }

    fn is_known(&self) -> bool {
        self.is_known
    }
}

impl DecisionLog for CountedLog {
    ghost state = { λ l. record { records = own_records l.records; failures = l.failures } };

    ghost appends = { λ tran yes taken old new. Unit {0} };

    ghost loses = { λ tran yes old new. Unit {0} };

    ghost forgets = { λ old new. Unit {0} };

    ghost records_are = { λ l. refl };

    fn append(&mut self, decision: &CommitRecord) -> Result<(), LogFault> {
        self.singles = self.singles.wrapping_add(1);
        if self.is_lost() {
            return self.lose();
        }
        if self.is_refused(1) {
            return self.refuse();
        }
        if put(&mut self.records, decision) {
            Ok(())
        } else {
            self.lose()
        }
    }

    fn forget(&mut self, tran: &Tran) {
        let _ = self.records.remove(tran);
    }

    fn keep_only(&mut self, trans: &[Tran]) {
        self.records.retain(|tran, _yes| trans.contains(tran));
    }

    fn failures(&self) -> u64 {
        self.failures
    }
}

impl GroupLog for CountedLog {
    ghost appends_all = { λ decisions taken old new. Unit {0} };

    ghost loses_all = { λ decisions old new. Unit {0} };

    fn append_all(&mut self, decisions: &[CommitRecord]) -> Result<(), LogFault> {
        self.groups = self.groups.wrapping_add(1);
        if self.is_lost() {
            return self.lose();
        }
        if self.is_refused(decisions.len()) {
            return self.refuse();
        }
        if put_all(&mut self.records, decisions) {
            Ok(())
        } else {
            self.lose()
        }
    }
}
