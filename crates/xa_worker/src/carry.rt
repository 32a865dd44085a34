//! How one request is carried out.
ghost use Rattle.std.specs.Prelude.{◌≡◌, ◌↔◌, ℕ, ◌<◌, ◌≤◌, ◌-◌, [], ◌∷◌, ◌++◌, false, length, IsTrue};
ghost use Rattle.std.specs.Prelude.{vec_len, vec_capacity};
ghost use Rattle.xa_words.specs.declared.code.Code as Code;
ghost use Rattle.xa_tables.specs.ManagerTables.{Tables};
ghost use Rattle.xa_store.specs.Stores.{AreDurable};
ghost use Rattle.xa_worker.specs.Journal.{entry_next, after_request, completion_of};
ghost use Rattle.xa_worker.specs.Outgoing.{AnswersOrWaits, Flushes, put_to};
ghost use Rattle.xa_worker.specs.WorkerSteps.{step_of};

use crate::outbox::{MOST_WAITING, Outbox};
use crate::step::WorkerStep;
use std::sync::Wait;
use xa_store::{Store, settle_or_stop};
use xa_tables::Manager;
use xa_words::{Code, Completion, Op, Request, RmOp, Xid};

// Enters a request whose code isn't known yet.
//
// It names the types within a request: a `push` of a type that only contains them gets no proof.
#[inline(always)]
fn enter(journal: &mut Vec<(Request, Code)>, request: Request)
    requires { vec_len journal.old < vec_capacity journal.old }
    ensures entry { journal.new.items ≡ journal.old.items ++ (request, Code.Done) ∷ [] }
    ensures space { vec_capacity journal.new ≡ vec_capacity journal.old }
{
    let _named: Option<(Xid, Op, RmOp)> = None;
    journal.push_reserved((request, Code::Done));
}

// Has the store settle what it owes.
#[inline(always)]
pub(crate) fn settle_owed<R: Wait, S: Store>(rt: &R, manager: &Manager, store: &mut S)
    ensures known { S.knows store.old manager.now.tables → S.knows store.new manager.now.tables }
    ensures settled { S.knows store.old manager.now.tables → AreDurable (S.may_leave store.new) manager.now.tables }
{
    if store.owes() {
        settle_or_stop(rt, store, manager);
    }
}

// Sends what waits, once the store has settled what it owes. Whether all of it was sent.
#[inline(always)]
pub(crate) fn send_settled<R: Wait, S: Store>(
    rt: &R,
    manager: &Manager,
    store: &mut S,
    out: &mut Outbox,
) -> bool
    ensures flushed { Flushes out.old out.new }
    ensures all { IsTrue result ↔ (out.new.waiting ≡ []) }
    ensures put { (k : ℕ) → put_to k out.new ≡ put_to k out.old }
    ensures known { S.knows store.old manager.now.tables → S.knows store.new manager.now.tables }
    ensures settled { S.knows store.old manager.now.tables → AreDurable (S.may_leave store.new) manager.now.tables }
{
    settle_owed(rt, manager, store);
    out.flush(rt)
}

// Enters a request, carries it out at the manager, enters its code, and tells the store. Its completion is sent, unless
// the store owes something now: then it waits, as it does behind others that wait.
//
// It is carried out where it is entered: a request that was lent to a call on its way there would be copied twice more.
#[inline(always)]
pub(crate) fn carry_out<R: Wait, S: Store>(
    rt: &R,
    number: u32,
    manager: &mut Manager,
    journal: &mut Vec<(Request, Code)>,
    store: &mut S,
    out: &mut Outbox,
    request: Request,
) -> WorkerStep
    requires first { 0 < request.thread }
    requires last { request.thread ≤ manager.old.threads }
    requires lanes { manager.old.threads ≤ length out.old.senders }
    requires room { 0 < manager.old.room }
    requires space { vec_len journal.old < vec_capacity journal.old }
    requires few { length out.old.waiting < MOST_WAITING }
    ensures late { result ≡ step_of manager.old.tables.shut }
    ensures manager { manager.new ≡ after_request request manager.old }
    ensures journal { journal.new.items ≡ journal.old.items ++ entry_next request manager.old.tables ∷ [] }
    ensures space { vec_capacity journal.new ≡ vec_capacity journal.old }
    ensures out { AnswersOrWaits (S.owing store.new) out.old (request.thread - 1) (completion_of number
        (entry_next request manager.old.tables)) out.new }
    ensures known { S.knows store.old manager.old.tables → S.knows store.new manager.new.tables }
    ensures settled { S.knows store.old manager.old.tables → S.owing store.new ≡ false
        → AreDurable (S.may_leave store.new) manager.new.tables }
    ensures crash { (K : Tables) → S.may_leave store.new K → S.may_leave store.old K }
{
    let step = if manager.is_shut() {
        WorkerStep::Late
    } else {
        WorkerStep::Did
    };
    let place = journal.len();
    enter(journal, request);
    let entry = &mut journal[place];
    let code = manager.apply(entry.0.thread, &entry.0.op);
    entry.1 = code;
    let completion = Completion {
        manager: number,
        number: entry.0.number,
        code,
    };
    store.tell(&entry.0, code);
    out.answer(rt, store.owes(), entry.0.thread as usize - 1, completion);
    step
}
