//! A coordinator's end of the log that it shares.
ghost use Rattle.std.specs.Prelude.{◌≡◌, true, false, is_some, refl};
ghost use Rattle.std.specs.FinMap.{insert};
ghost use Rattle.xa_lane.specs.Senders.{but_full};
ghost use Rattle.xa_log.specs.Log.{record_in, without_record};
ghost use Rattle.xa_log_shared.specs.Asking.{Appended, AsksToAppend, IsWorkersAnswer, HasNoRoomForMore, Forgets};
ghost use Rattle.xa_log_shared.specs.Asking.{AsksToForget, AsksToForgetAll, client_state, decision, others};
ghost use Rattle.xa_log_shared.specs.Asking.{own_records};
ghost use Rattle.xa_log_shared.specs.declared.ask.AppendAnswer.TheVariants.{Unknown};

use crate::ask::{AppendAnswer, LogRequest};
use crate::sending::{finish, send};
use crossbeam_utils::Backoff;
use std::collections::HashMap;
use std::sync::Wait;
use xa_lane::{Ended, Receiver, Sender, Taken};
use xa_log::{CommitRecord, DecisionLog, DecisionRecords, LogFault, ReopenLog};
use xa_words::{ManagerSet, Tran};

/// What a coordinator decides by, over a log that it shares: the records that are its own, and the lanes to and from
/// the log's worker.
///
/// It takes no memory after it was opened. Each call waits while the worker doesn't take what it sends.
#[derive(Drop)]
pub struct LogClient<R: Wait + Copy> {
    pub(crate) rt: R,
    pub(crate) asks: Sender<LogRequest>,
    pub(crate) answers: Receiver<AppendAnswer>,
    pub(crate) records: HashMap<Tran, ManagerSet>,
    // How many records there may be.
    pub(crate) room: usize,
    pub(crate) is_known: bool,
    pub(crate) failures: u64,
}

/// The ends of the lanes of a coordinator that has ended.
#[derive(Drop)]
pub struct EndedClient {
    pub asks: Ended<LogRequest>,
    pub answers: Receiver<AppendAnswer>,
}

// Takes the answer to what was asked last. It is unknown where the worker has ended its lane before.
fn next_answer<R: Wait>(rt: &R, answers: &mut Receiver<AppendAnswer>) -> AppendAnswer
    ensures { IsWorkersAnswer result answers.old answers.new }
{
    let backoff = Backoff::new();
    for _ in rt.forever() {
        match answers.take(rt) {
            Taken::Item(_, answer) => return answer,
            Taken::EndOf(_) => return AppendAnswer::Unknown,
            Taken::Empty => backoff.snooze(),
        }
    }
    unreachable!()
}

// Asks the worker to append a record, and waits for the answer.
fn ask<R: Wait>(
    rt: &R,
    asks: &mut Sender<LogRequest>,
    answers: &mut Receiver<AppendAnswer>,
    decision: &CommitRecord,
) -> AppendAnswer
    ensures { AsksToAppend decision.now result asks.old asks.new answers.old answers.new }
{
    send(rt, asks, LogRequest::Append(*decision));
    next_answer(rt, answers)
}

// Puts a record among these, of which there may be so many. False where there is no room for it.
fn put(records: &mut HashMap<Tran, ManagerSet>, room: usize, decision: &CommitRecord) -> bool
    ensures put { result ≡ true → own_records records.new ≡ insert (own_records records.old) decision.now.tran
        decision.now.yes }
    ensures unchanged { result ≡ false → own_records records.new ≡ own_records records.old }
    ensures full { result ≡ false → HasNoRoomForMore room records.old }
{
    records.len() < room && records.insert(decision.tran, decision.yes).is_ok()
}

// Asks the worker to forget the records of all transactions but these.
fn forget_others<R: Wait>(
    rt: &R,
    asks: &mut Sender<LogRequest>,
    records: &HashMap<Tran, ManagerSet>,
    trans: &[Tran],
)
    ensures { AsksToForgetAll (others trans.now records.now.entries) asks.old asks.new }
{
    for (tran, _yes) in records.iter() {
        if !trans.contains(tran) {
            send(rt, asks, LogRequest::Forget(*tran));
        }
    }
}

impl<R: Wait + Copy> LogClient<R> {
    /// Ends the coordinator: it asks for nothing more.
    pub fn end(self) -> EndedClient
        ensures asks { but_full result.asks ≡ but_full self.asks }
        ensures answers { result.answers ≡ self.answers }
    {
        let LogClient {
            rt,
            asks,
            answers,
            records: _,
            room: _,
            is_known: _,
            failures: _,
        } = self;
        EndedClient {
            asks: finish(&rt, asks),
            answers,
        }
    }
}

impl<R: Wait + Copy> DecisionRecords for LogClient<R> {
    ghost records = { λ l. own_records l.records };

    ghost knows = { λ l. l.is_known ≡ true };

    #[tactic(auto, using(crate::proofs::Own::there))]
    fn has(&self, tran: &Tran) -> Option<ManagerSet> {
        self.records.get(tran).copied()
    }

    fn is_known(&self) -> bool {
        self.is_known
    }
}

impl<R: Wait + Copy> DecisionLog for LogClient<R> {
    ghost state = { λ l. client_state l.records l.failures };

    ghost appends = { λ tran yes taken old new. Appended (decision tran yes) taken
        (HasNoRoomForMore old.room old.records)
        old.asks new.asks old.answers new.answers };

    ghost loses = { λ tran yes old new. AsksToAppend
        (decision tran yes) Unknown old.asks new.asks old.answers new.answers };

    ghost forgets = { λ old new. Forgets (own_records old.records) (own_records new.records) old.asks new.asks
        old.answers new.answers };

    ghost records_are = { λ l. refl };

    fn append(&mut self, decision: &CommitRecord) -> Result<(), LogFault> {
        if !put(&mut self.records, self.room, decision) {
            self.failures = self.failures.wrapping_add(1);
            return Err(LogFault::Refused);
        }
        match ask(&self.rt, &mut self.asks, &mut self.answers, decision) {
            AppendAnswer::Taken => Ok(()),
            AppendAnswer::Refused => {
                let _ = self.records.remove(&decision.tran);
                self.failures = self.failures.wrapping_add(1);
                Err(LogFault::Refused)
            }
            AppendAnswer::Unknown => {
                self.is_known = false;
                Err(LogFault::Unknown)
            }
        }
    }

    fn forget(&mut self, tran: &Tran)
        requires { self.old.is_known ≡ true }
        ensures forgotten { client_state self.new.records self.new.failures
            ≡ without_record (client_state self.old.records self.old.failures) tran.now }
        ensures known { self.new.is_known ≡ true }
        ensures forgets { Forgets (own_records self.old.records) (own_records self.new.records) self.old.asks
            self.new.asks self.old.answers self.new.answers }

        // The worker is asked where there is a record, and only then.
        ensures asked { AsksToForget
            (is_some (record_in (own_records self.old.records) tran.now)) tran.now self.old.asks
            self.new.asks }
    {
        if self.records.remove(tran).is_some() {
            send(&self.rt, &mut self.asks, LogRequest::Forget(*tran));
        }
    }

    fn keep_only(&mut self, trans: &[Tran]) {
        forget_others(&self.rt, &mut self.asks, &self.records, trans);
        self.records.retain(|tran, _yes| trans.contains(tran));
    }

    fn failures(&self) -> u64 {
        self.failures
    }
}

/// The log is its worker's, whose owner opens it again: a coordinator for which a record was lost stays so.
impl<R: Wait + Copy> ReopenLog for LogClient<R> {
    ghost reopens = { λ l l'. l' ≡ l };

    fn reopen(self) -> LogClient<R> {
        self
    }
}
