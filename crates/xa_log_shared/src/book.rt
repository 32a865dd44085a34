//! What a worker does with the requests that it has taken.
ghost use Rattle.std.specs.Prelude.{◌≡◌, ◌≤◌, ◌<◌, ℕ, [], ◌∷◌, true, false, length, get_or, vec_len, vec_capacity};
ghost use Rattle.std.proofs.Props.{props};
ghost use Rattle.xa_base.specs.declared.limits.TheConstants.{MOST_SENDERS};
ghost use Rattle.xa_log.specs.Log.{AreNew, without_record};
ghost use Rattle.xa_log_shared.specs.declared.ask.Deed.TheVariants.{Answers};
ghost use Rattle.xa_log_shared.specs.declared.ask.Answered.{Answered as AnAnswer};
ghost use Rattle.xa_log_shared.specs.declared.ask.LogRequest.TheVariants.{Append, Forget};
ghost use Rattle.xa_log_shared.specs.Deeds.{AreBelow, Does, IsToldBy, answered_by, records_waiting, is_clash, tran_in};
ghost use Rattle.xa_log_shared.specs.Moves.{Moves, SentBy};

use crate::ask::{Answered, AppendAnswer, Deed, LogRequest};
use crate::group::{Waiting, append_group, note, note_forgetting};
use crate::sending::send;
use http_server::Log;
use std::sync::Wait;
use xa_base::MOST_SENDERS;
use xa_lane::Sender;
use xa_log::{CommitRecord, GroupLog};
use xa_words::Tran;

/// A log, the lanes on which its appends are answered, and the records that wait for their group.
#[derive(Drop)]
pub(crate) struct Book<L: GroupLog> {
    pub(crate) log: L,
    // Whether the log is known.
    pub(crate) is_known: bool,
    // By rising number of coordinator.
    pub(crate) answers: Vec<Sender<AppendAnswer>>,
    // The records that go to the log together, each of another coordinator and another transaction.
    pub(crate) waiting: Vec<Waiting>,
    pub(crate) group: Vec<CommitRecord>,
    pub(crate) done: Vec<Answered>,
    // What was done, oldest first. It has no bytes: only proofs read it.
    pub(crate) deeds: Log<Deed, ()>,
    ghost told: { IsToldBy is_known (L.knows log) } by { Prim.hlevel props },
    ghost grouped: { vec_len group ≡ 0 },
    ghost answered: { vec_len done ≡ 0 },
    ghost few: { vec_len waiting ≤ MOST_SENDERS },
    ghost waiting_room: { MOST_SENDERS ≤ vec_capacity waiting },
    ghost group_room: { MOST_SENDERS ≤ vec_capacity group },
    ghost done_room: { MOST_SENDERS ≤ vec_capacity done },
    ghost places: { AreBelow (vec_len answers) waiting.items } by { Prim.hlevel props },
}

// Whether a record waits that is of this coordinator or of this transaction.
fn clashes(waiting: &[Waiting], from: usize, tran: &Tran) -> bool
    ensures { result ≡ is_clash from tran.now waiting.now }
{
    waiting
        .iter()
        .any(|w| w.from == from || w.decision.tran == *tran)
}

fn tran_of(ask: &LogRequest) -> Tran
    ensures { result ≡ tran_in ask.now }
{
    match ask {
        LogRequest::Append(decision) => decision.tran,
        LogRequest::Forget(tran) => *tran,
    }
}

// Sends each answer on the lane of its coordinator.
fn send_all<R: Wait>(rt: &R, answers: &mut Vec<Sender<AppendAnswer>>, done: &[Answered])
    requires { (k : ℕ) (d : AnAnswer) → k < length done.now → (get_or done.now k d).from < vec_len answers.old }
    ensures len { vec_len answers.new ≡ vec_len answers.old }
    ensures sent { SentBy done.now answers.old.items answers.new.items }
{
    for one in done {
        send(rt, &mut answers[one.from], one.answer);
    }
}

// Forgets a record, where the log is known.
fn forget_in<L: GroupLog>(log: &mut L, is_known: bool, tran: &Tran)
    requires told { IsToldBy is_known (L.knows log.old) }
    ensures told { IsToldBy is_known (L.knows log.new) }
    ensures forgotten { is_known ≡ true → L.state log.new ≡ without_record (L.state log.old) tran.now }
{
    if log.is_known() {
        log.forget(tran);
    }
}

impl<L: GroupLog> Book<L> {
    /// Takes a request in. What is to be answered at once is; a record that is new waits for its group.
    #[tactic(auto, using(crate::proofs::Moves::moves_then))]
    pub(crate) fn take_in<R: Wait>(&mut self, rt: &R, from: usize, ask: &LogRequest)
        requires place { from < vec_len self.old.answers }
        requires new { self.old.is_known ≡ true
            → AreNew (L.state self.old.log) (records_waiting self.old.waiting.items) }
        ensures new { self.new.is_known ≡ true
            → AreNew (L.state self.new.log) (records_waiting self.new.waiting.items) }
        ensures len { vec_len self.new.answers ≡ vec_len self.old.answers }
        ensures moves { Moves self.old.deeds.items self.new.deeds.items self.old.is_known (L.state self.old.log)
            self.new.is_known (L.state self.new.log) self.old.answers.items self.new.answers.items
            self.old.waiting.items self.new.waiting.items ((from, ask.now) ∷ []) }
    {
        self.make_way(rt, from, &tran_of(ask));
        match ask {
            LogRequest::Append(decision) => self.admit(rt, from, decision),
            LogRequest::Forget(tran) => self.forget(from, tran),
        }
    }

    // A request of a coordinator whose record waits, or of a transaction whose record waits, comes after that record.
    fn make_way<R: Wait>(&mut self, rt: &R, from: usize, tran: &Tran)
        requires new { self.old.is_known ≡ true
            → AreNew (L.state self.old.log) (records_waiting self.old.waiting.items) }
        ensures new { self.new.is_known ≡ true
            → AreNew (L.state self.new.log) (records_waiting self.new.waiting.items) }
        ensures apart { is_clash from tran.now self.new.waiting.items ≡ false }
        ensures short { vec_len self.new.waiting < MOST_SENDERS }
        ensures len { vec_len self.new.answers ≡ vec_len self.old.answers }
        ensures moves { Moves self.old.deeds.items self.new.deeds.items self.old.is_known (L.state self.old.log)
            self.new.is_known (L.state self.new.log) self.old.answers.items self.new.answers.items
            self.old.waiting.items self.new.waiting.items [] }
    {
        if self.waiting.len() == MOST_SENDERS || clashes(&self.waiting, from, tran) {
            self.close_group(rt);
        }
    }

    fn admit<R: Wait>(&mut self, rt: &R, from: usize, decision: &CommitRecord)
        requires place { from < vec_len self.old.answers }
        requires new { self.old.is_known ≡ true
            → AreNew (L.state self.old.log) (records_waiting self.old.waiting.items) }
        requires apart { is_clash from decision.now.tran self.old.waiting.items ≡ false }
        requires short { vec_len self.old.waiting < MOST_SENDERS }
        ensures new { self.new.is_known ≡ true
            → AreNew (L.state self.new.log) (records_waiting self.new.waiting.items) }
        ensures len { vec_len self.new.answers ≡ vec_len self.old.answers }
        ensures moves { Moves self.old.deeds.items self.new.deeds.items self.old.is_known (L.state self.old.log)
            self.new.is_known (L.state self.new.log) self.old.answers.items self.new.answers.items
            self.old.waiting.items self.new.waiting.items ((from, Append decision.now) ∷ []) }
    {
        if !self.log.is_known() {
            self.answer(rt, from, decision, AppendAnswer::Unknown);
        } else if self.log.has(&decision.tran).is_some() {
            self.answer(rt, from, decision, AppendAnswer::Refused);
        } else {
            self.waiting.push_reserved(Waiting {
                from,
                decision: *decision,
            });
        }
    }

    #[tactic(auto, using(crate::proofs::Moves::forgetting))]
    fn forget(&mut self, from: usize, tran: &Tran)
        requires apart { is_clash from tran.now self.old.waiting.items ≡ false }
        requires new { self.old.is_known ≡ true
            → AreNew (L.state self.old.log) (records_waiting self.old.waiting.items) }
        ensures new { self.new.is_known ≡ true
            → AreNew (L.state self.new.log) (records_waiting self.new.waiting.items) }
        ensures len { vec_len self.new.answers ≡ vec_len self.old.answers }
        ensures moves { Moves self.old.deeds.items self.new.deeds.items self.old.is_known (L.state self.old.log)
            self.new.is_known (L.state self.new.log) self.old.answers.items self.new.answers.items
            self.old.waiting.items self.new.waiting.items ((from, Forget tran.now) ∷ []) }
    {
        forget_in(&mut self.log, self.is_known, tran);
        note_forgetting(&mut self.deeds, from, tran);
    }

    // Answers a record that doesn't go to the log.
    fn answer<R: Wait>(
        &mut self,
        rt: &R,
        from: usize,
        decision: &CommitRecord,
        answer: AppendAnswer,
    )
        requires place { from < vec_len self.old.answers }
        requires apart { is_clash from decision.now.tran self.old.waiting.items ≡ false }
        requires does { Does self.old.is_known (L.state self.old.log)
            (Answers (answered_by from decision.now answer) ∷ []) self.old.is_known (L.state self.old.log) }
        ensures log { (self.new.log ≡ self.old.log) × (self.new.is_known ≡ self.old.is_known) }
        ensures waiting { self.new.waiting.items ≡ self.old.waiting.items }
        ensures len { vec_len self.new.answers ≡ vec_len self.old.answers }
        ensures moves { Moves self.old.deeds.items self.new.deeds.items self.old.is_known (L.state self.old.log)
            self.new.is_known (L.state self.new.log) self.old.answers.items self.new.answers.items
            self.old.waiting.items self.new.waiting.items ((from, Append decision.now) ∷ []) }
    {
        note(&mut self.deeds, from, decision, answer);
        send(rt, &mut self.answers[from], answer);
    }

    /// Appends the records that wait, and then answers each.
    pub(crate) fn close_group<R: Wait>(&mut self, rt: &R)
        requires new { self.old.is_known ≡ true
            → AreNew (L.state self.old.log) (records_waiting self.old.waiting.items) }
        ensures none { self.new.waiting.items ≡ [] }
        ensures len { vec_len self.new.answers ≡ vec_len self.old.answers }
        ensures moves { Moves self.old.deeds.items self.new.deeds.items self.old.is_known (L.state self.old.log)
            self.new.is_known (L.state self.new.log) self.old.answers.items self.new.answers.items
            self.old.waiting.items self.new.waiting.items [] }
    {
        append_group(
            &mut self.log,
            &mut self.is_known,
            &self.waiting,
            &mut self.group,
            &mut self.done,
            &mut self.deeds,
        );
        self.waiting.clear();
        send_all(rt, &mut self.answers, &self.done);
        self.done.clear();
    }
}
