//! The decision log.
ghost use Rattle.std.specs.Prelude.{◌≡◌, ◌↔◌, OnOk, IsErrOf, IsTrue, None, List, Bool, true, false};
ghost use Rattle.xa_words.specs.Tran.{TranName};
ghost use Rattle.xa_log.specs.declared.log.LogFault.TheVariants.{Refused, Unknown};
ghost use Rattle.xa_log.specs.Log.{LogState, Records, record_in, record_of, with_record, with_failure, without_record};
ghost use Rattle.xa_log.specs.Log.{with_only, with_records, AreNew, IsReadAs};
ghost use Rattle.xa_log.specs.declared.log.CommitRecord.{CommitRecord};

use xa_words::{ManagerSet, Tran};

/// The record of a decision to commit.
#[derive(Clone, Copy, Debug)]
pub struct CommitRecord {
    pub tran: Tran,
    /// The managers that voted yes.
    pub yes: ManagerSet,
}

/// Why a log doesn't answer that it has the record.
#[derive(Clone, Copy, Debug, PartialEq, Eq)]
pub enum LogFault {
    /// The record isn't there, and no crash brings it: the decision is abort.
    Refused,
    /// The record may be there, or not: neither decision may be told before the log is opened again.
    Unknown,
}

/// What is known of the transactions that were decided to commit. One without a record is presumed aborted, so the
/// records may be asked only while they are known.
pub trait DecisionRecords {
    /// The records.
    ghost records: { Self → Records };

    /// The records are known. Once an append had an unknown end they aren't, up to the log's own end.
    ghost knows: { Self → Type 0 };

    /// The managers that voted yes, where there is a record of the transaction.
    fn has(&self, tran: &Tran) -> Option<ManagerSet>
        requires known { knows self.now }
        ensures { result ≡ record_in (records self.now) tran.now };

    /// Whether the records are known.
    fn is_known(&self) -> bool
        ensures { IsTrue result ↔ knows self.now };
}

/// What a coordinator decides by: records, to which it adds its own.
pub trait DecisionLog: DecisionRecords {
    /// The records, and how many appends were refused.
    ghost state: { Self → LogState };

    /// What an append of the record of this transaction, with these managers, does to the log, and whether it took it.
    ghost appends: { TranName → List Bool → Bool → Self → Self → Type 0 };

    /// What an append with an unknown end does to the log.
    ghost loses: { TranName → List Bool → Self → Self → Type 0 };

    /// What forgetting does to the log beside its records.
    ghost forgets: { Self → Self → Type 0 };

    /// Adds a record of a transaction that has none. A refused append leaves the records, and is counted; after one
    /// with an unknown end the records aren't known.
    fn append(&mut self, decision: &CommitRecord) -> Result<(), LogFault>
        requires known { Self.knows self.old }
        requires new { record_of (state self.old) decision.now.tran ≡ None }
        ensures appended { OnOk result (
            (state self.new ≡ with_record (state self.old) decision.now.tran decision.now.yes)
            × Self.knows self.new × appends decision.now.tran decision.now.yes true self.old self.new) }
        ensures refused { IsErrOf result Refused → (state self.new ≡ with_failure (state self.old))
            × Self.knows self.new × appends decision.now.tran decision.now.yes false self.old self.new }
        ensures unknown { IsErrOf result Unknown → (Self.knows self.new → ⊥)
            × loses decision.now.tran decision.now.yes self.old self.new };

    /// Forgets the record of a transaction, where there is one. That is for a transaction of which no manager has a
    /// branch that is prepared: nobody will ask for it, and it does no harm where a crash brings the record back.
    fn forget(&mut self, tran: &Tran)
        requires { Self.knows self.old }
        ensures forgotten { state self.new ≡ without_record (state self.old) tran.now }
        ensures known { Self.knows self.new }
        ensures forgets { forgets self.old self.new };

    /// Forgets all records but those of these transactions.
    fn keep_only(&mut self, trans: &[Tran])
        requires { Self.knows self.old }
        ensures kept { state self.new ≡ with_only (state self.old) trans.now }
        ensures known { Self.knows self.new }
        ensures forgets { forgets self.old self.new };

    /// How many appends were refused; after `u64::MAX` it counts from 0 again.
    fn failures(&self) -> u64
        ensures { result ≡ (state self.now).failures };

    /// What a reader finds is what the log has.
    ghost records_are: { (l : Self) → Self.records l ≡ (state l).records };
}

/// A log that takes several records at once, for little more than it takes for one.
pub trait GroupLog: DecisionLog {
    /// What an append of these records does to the log, and whether that takes them.
    ghost appends_all: { List CommitRecord → Bool → Self → Self → Type 0 };

    /// What an append of these records with an unknown end does to the log.
    ghost loses_all: { List CommitRecord → Self → Self → Type 0 };

    /// Adds records of transactions that have none, all of them or none. What is refused counts as one append. After
    /// one with an unknown end any of them may be there.
    fn append_all(&mut self, decisions: &[CommitRecord]) -> Result<(), LogFault>
        requires known { Self.knows self.old }
        requires new { AreNew (Self.state self.old) decisions.now }
        ensures appended { OnOk result ((Self.state self.new ≡ with_records (Self.state self.old) decisions.now)
            × Self.knows self.new × appends_all decisions.now true self.old self.new) }
        ensures refused { IsErrOf result Refused → (Self.state self.new ≡ with_failure (Self.state self.old))
            × Self.knows self.new × appends_all decisions.now false self.old self.new }
        ensures unknown { IsErrOf result Unknown → (Self.knows self.new → ⊥)
            × loses_all decisions.now self.old self.new };
}

/// A log that can be opened again, as after a crash.
pub trait ReopenLog: DecisionLog {
    /// What opening again does to the log.
    ghost reopens: { Self → Self → Type 0 };

    /// The log, opened again. One that is known stays as it is. One that has lost an append has what it had before,
    /// with that record or without it, if it is known then; one that can't be read stays unknown.
    fn reopen(self) -> Self
        ensures reopened { reopens self result }
        ensures same { Self.knows self → result ≡ self }
        ensures read { Self.knows result → IsReadAs Self.state Self.knows Self.loses self (Self.state result) };
}
