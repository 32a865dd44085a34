//! A decision log for trials: it refuses one of its appends, and loses one.
ghost use Rattle.std.specs.Prelude.{◌≡◌, ◌+◌, ◌%◌, ◌^◌, None, true, false};
ghost use Rattle.xa_log.specs.Log.{counted_up, record_of};
ghost use Rattle.xa_log.specs.Trial.{AppendsOver, ForgetsOver, TrialIsKnown, LosesOver, TrialWasAsked, fails_next};
ghost use Rattle.xa_log.specs.Trial.{loses_next, new_trial, trial_reopened, trial_state};

use crate::log::{CommitRecord, DecisionLog, DecisionRecords, LogFault, ReopenLog};
use xa_words::{ManagerSet, Tran};

/// A log over another one that refuses one of its appends, and loses one, for trials of what a coordinator does then.
///
/// Appends are counted from 1. Whether the log turns out to have the record of the append that it loses is said
/// beforehand. After that append it isn't known, until it is opened again; its appends are counted on.
#[derive(Drop)]
pub struct TrialLog<L> {
    /// What it has, or turns out to have.
    pub found: L,
    /// How many appends there were; the count stays at `u64::MAX`.
    pub appends: u64,
    /// How many of them were refused; after `u64::MAX` it counts from 0 again.
    pub failures: u64,
    /// Which append is refused, from 1; none is where this is 0.
    pub failing: u32,
    /// Which append has an unknown end, from 1; none has where this is 0. That comes before a refusal of the same one.
    pub losing: u32,
    /// Whether the log turns out to have the record of that append.
    pub keeps: bool,
    /// Whether it has lost the append, and wasn't opened again.
    pub is_lost: bool,
}

impl<L> TrialLog<L> {
    /// Stands over this log, and refuses and loses none of its appends.
    pub fn new(found: L) -> TrialLog<L>
        ensures { result ≡ new_trial found }
    {
        TrialLog {
            found,
            appends: 0,
            failures: 0,
            failing: 0,
            losing: 0,
            keeps: false,
            is_lost: false,
        }
    }

    /// The same log, whose k-th append, from 1, is refused.
    pub fn failing_at(self, k: u32) -> TrialLog<L>
        ensures { result ≡ record self { failing = k } }
    {
        TrialLog { failing: k, ..self }
    }

    /// The same log, whose k-th append, from 1, has an unknown end; with `keeps` it turns out to have that record.
    pub fn losing_at(self, k: u32, keeps: bool) -> TrialLog<L>
        ensures { result ≡ record self { losing = k; keeps = keeps } }
    {
        TrialLog {
            losing: k,
            keeps,
            ..self
        }
    }

    // The number of its next append, from 1.
    fn next_append(&self) -> u64
        ensures { result ≡ counted_up self.now.appends }
    {
        if self.appends < u64::MAX {
            self.appends + 1
        } else {
            self.appends
        }
    }

    fn fails_next(&self) -> bool
        ensures { result ≡ fails_next self.now }
    {
        self.next_append() == u64::from(self.failing)
    }

    fn loses_next(&self) -> bool
        ensures { result ≡ loses_next self.now }
    {
        self.next_append() == u64::from(self.losing)
    }

    fn count_append(&mut self)
        ensures { self.new ≡ record self.old { appends = counted_up self.old.appends } }
    {
        self.appends = self.next_append();
    }

    fn count_refusal(&mut self)
        ensures { self.new ≡ record self.old { failures = (self.old.failures + 1) % 2 ^ 64 } }
    {
        self.failures = self.failures.wrapping_add(1);
    }
}

impl<L: DecisionLog> TrialLog<L> {
    // Loses an append: the log that it stands over takes the record only where this one turns out to have it.
    fn lose(&mut self, decision: &CommitRecord)
        requires known { L.knows self.old.found }
        requires new { record_of (L.state self.old.found) decision.now.tran ≡ None }
        ensures lost { self.new ≡ record self.old { found = self.new.found; is_lost = true } }
        ensures kept { self.old.keeps ≡ true → TrialWasAsked L.state L.knows L.appends L.loses decision.now.tran
            decision.now.yes self.old.found self.new.found }
        ensures gone { self.old.keeps ≡ false → self.new.found ≡ self.old.found }
    {
        self.is_lost = true;
        if !self.keeps {
            return;
        }
        let _ = self.found.append(decision);
    }
}

impl<L: DecisionRecords> DecisionRecords for TrialLog<L> {
    ghost records = { λ l. L.records l.found };

    ghost knows = { TrialIsKnown L.knows };

    fn has(&self, tran: &Tran) -> Option<ManagerSet> {
        self.found.has(tran)
    }

    fn is_known(&self) -> bool {
        !self.is_lost && self.found.is_known()
    }
}

impl<L: DecisionLog> DecisionLog for TrialLog<L> {
    ghost state = { trial_state L.state };

    ghost appends = { AppendsOver L.appends };

    ghost loses = { LosesOver L.state L.knows L.appends L.loses };

    ghost forgets = { ForgetsOver L.forgets };

    ghost records_are = { λ l. L.records_are l.found };

    fn append(&mut self, decision: &CommitRecord) -> Result<(), LogFault> {
        let (fails, loses) = (self.fails_next(), self.loses_next());
        self.count_append();
        if loses {
            self.lose(decision);
            return Err(LogFault::Unknown);
        }
        if fails {
            self.count_refusal();
            return Err(LogFault::Refused);
        }
        match self.found.append(decision) {
            Ok(()) => Ok(()),
            Err(LogFault::Refused) => {
                self.count_refusal();
                Err(LogFault::Refused)
            }
            Err(LogFault::Unknown) => Err(LogFault::Unknown),
        }
    }

    fn forget(&mut self, tran: &Tran) {
        self.found.forget(tran);
    }

    fn keep_only(&mut self, trans: &[Tran]) {
        self.found.keep_only(trans);
    }

    fn failures(&self) -> u64 {
        self.failures
    }
}

impl<L: ReopenLog> ReopenLog for TrialLog<L> {
    ghost reopens = { λ l l'. L.reopens l.found l'.found × (l' ≡ record (trial_reopened l) { found = l'.found }) };

    fn reopen(mut self) -> TrialLog<L> {
        self.is_lost = false;
        TrialLog {
            found: self.found.reopen(),
            ..self
        }
    }
}
