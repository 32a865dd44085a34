//! Resolving what a reopening found left, by presumption.
ghost use Rattle.std.specs.Prelude.{◌≡◌, ◌↔◌, ◌≤◌, ◌+◌, ◌++◌, ℕ, List, length, IfOk, OnErr, IsTrue, vec_capacity};
ghost use Rattle.xa_base.specs.Lists.{IsUpTo};
ghost use Rattle.xa_desk.specs.DeskViews.{ledger, room_at};
ghost use Rattle.xa_desk.specs.GoingOn.{GoesOn};
ghost use Rattle.xa_desk.specs.Kept.{AllKept};
ghost use Rattle.xa_calls.specs.Scans.{Answers};
ghost use Rattle.xa_scan.specs.Left.{left_at};
ghost use Rattle.xa_driver.specs.declared.resolved.Outcome.{Outcome};
ghost use Rattle.xa_driver.specs.Asks.{KeepsTheRest};
ghost use Rattle.xa_driver.specs.Resolving.{is_to_commit, outcome_op, AsksLedger, AsksAlone};
ghost use Rattle.xa_calls.specs.Scans.{AsksAndWaits};
ghost use Rattle.xa_driver.specs.Resolving.{ResolvesBranch};
ghost use Rattle.xa_driver.specs.Resolving.{ResolvesAt, ResolvesInTurn, requests_for, left_up_to, MayResolve};
ghost use Rattle.xa_driver.specs.Resolving.{IsTraceOfResolve};

use crate::resolved::{Outcome, ResolveFault, Resolved};
use crate::rounds::is_decided;
use std::alloc::Global;
use std::sync::Wait;
use xa_base::MOST_MANAGERS;
use xa_desk::{Desk, Idle, Refused};
use xa_log::DecisionRecords;
use xa_scan::Scan;
use xa_words::{Code, Op, Xid};

// Asks a manager, and waits for its answer. One that is learnt to be shut isn't asked, which counts as XAER_RMFAIL.
fn ask<R: Wait, I: Idle>(rt: &R, desk: &mut Desk, manager: u32, op: Op, idle: &mut I) -> Code
    requires { 1 ≤ room_at desk.old.ledgers manager }
    ensures asked { AsksLedger (ledger desk.old.ledgers manager) op (ledger desk.new.ledgers manager) result }
    ensures waits { AsksAndWaits I.leads_by manager (desk.old, idle.old) op (desk.new, idle.new) result }
    ensures alone { AsksAlone manager desk.old desk.new }
    ensures room { room_at desk.old.ledgers manager ≤ room_at desk.new.ledgers manager + 1 }
    ensures idled { I.leads idle.old idle.new }
{
    match desk.call(rt, manager, &op, idle) {
        Ok(code) => code,
        Err(Refused::Shut) => Code::RmFail,
        // The manager is known, and the plan has room for the request.
        Err(_) => unreachable!(),
    }
}

// Whether it is recorded that the branch is to be committed.
fn is_to_commit<L: DecisionRecords>(log: &L, manager: u32, xid: &Xid) -> bool
    requires manager { IsUpTo MOST_MANAGERS manager }
    requires known { L.knows log.now }
    ensures { result ≡ is_to_commit (L.records log.now) manager xid.now }
{
    match log.has(&xid.tran()) {
        Some(yes) => yes.contains(manager),
        None => false,
    }
}

fn outcome_op(commit: bool, xid: &Xid) -> Op
    ensures { result ≡ outcome_op commit xid.now }
{
    if commit {
        return Op::Commit(*xid, false);
    }
    Op::Rollback(*xid)
}

// Resolves a branch left at the manager.
fn resolve_branch<R: Wait, L: DecisionRecords, I: Idle>(
    rt: &R,
    desk: &mut Desk,
    log: &L,
    manager: u32,
    xid: &Xid,
    idle: &mut I,
) -> Outcome
    requires manager { IsUpTo MOST_MANAGERS manager }
    requires room { 2 ≤ room_at desk.old.ledgers manager }
    requires known { L.knows log.now }
    ensures resolves { ResolvesBranch AsksLedger (L.records log.now) manager result (ledger desk.old.ledgers manager)
        (ledger desk.new.ledgers manager) }
    ensures waits { ResolvesBranch (AsksAndWaits I.leads_by manager) (L.records log.now) manager result
        (desk.old, idle.old) (desk.new, idle.new) }
    ensures xid { result.xid ≡ xid.now }
    ensures alone { AsksAlone manager desk.old desk.new }
    ensures room { room_at desk.old.ledgers manager ≤ room_at desk.new.ledgers manager + 2 }
    ensures idled { I.leads idle.old idle.new }
{
    let commit = is_to_commit(log, manager, xid);
    let code = ask(rt, desk, manager, outcome_op(commit, xid), idle);
    if is_decided(code) {
        // Whatever it answers, the outcome is what it was.
        let _ = ask(rt, desk, manager, Op::Forget(*xid), idle);
    }
    Outcome {
        m: manager,
        xid: *xid,
        commit,
        code,
    }
}

// Resolves the branches left at the manager, one after the other, and tells their outcomes.
fn resolve_at<R: Wait, L: DecisionRecords, I: Idle>(
    rt: &R,
    desk: &mut Desk,
    log: &L,
    manager: u32,
    left: &[Xid],
    outcomes: &mut Vec<Outcome>,
    idle: &mut I,
)
    requires manager { IsUpTo MOST_MANAGERS manager }
    requires room { requests_for left.now ≤ room_at desk.old.ledgers manager }
    requires space { length outcomes.old.items + length left.now ≤ vec_capacity outcomes.old }
    requires known { L.knows log.now }
    ensures resolves { (more : List Outcome) × (outcomes.new.items ≡ outcomes.old.items ++ more)
        × (length more ≡ length left.now) × ResolvesAt AsksLedger (L.records log.now) manager left.now more
        (ledger desk.old.ledgers manager) (ledger desk.new.ledgers manager)
        × ResolvesAt (AsksAndWaits I.leads_by manager) (L.records log.now) manager left.now more (desk.old, idle.old)
        (desk.new, idle.new) }
    ensures space { vec_capacity outcomes.new ≡ vec_capacity outcomes.old }
    ensures alone { AsksAlone manager desk.old desk.new }
    ensures idled { I.leads idle.old idle.new }
{
    if left.is_empty() {
        return;
    }
    // Where the manager doesn't open, each branch has its outcome all the same.
    let _ = ask(rt, desk, manager, Op::OpenRm, idle);
    for xid in left {
        let outcome = resolve_branch(rt, desk, log, manager, xid, idle);
        outcomes.push_reserved(outcome);
    }
}

// How many branches are left.
#[tactic(auto, using(crate::proofs::EachLeft::left_few, crate::proofs::EachLeft::left_more))]
fn count_left(desk: &Desk, scan: &Scan) -> usize
    requires { MayResolve desk.now scan.now }
    ensures { result ≡ left_up_to scan.now MOST_MANAGERS }
{
    let mut count = 0;
    for before in 0..MOST_MANAGERS as u32 {
        let left = scan.left(before + 1).len();
        // There is room for a request of each, so none is left out.
        count += left.min(desk.room(before + 1) as usize);
    }
    count
}

// Whether the desk has room to resolve what is left at the manager.
fn has_room(desk: &Desk, scan: &Scan, manager: u32) -> bool
    ensures { IsTrue result ↔ (requests_for (left_at scan.now manager) ≤ room_at desk.now.ledgers manager) }
{
    let left = scan.left(manager).len();
    let room = desk.room(manager) as usize;
    left == 0 || (1 <= room && left <= (room - 1) / 2)
}

/// Whether `resolve` may be called: at each manager at which the scan has branches left, the desk has room for a
/// request to open it and for two for each of them; and the records of the log are known.
pub fn may_resolve<L: DecisionRecords>(desk: &Desk, scan: &Scan, log: &L) -> bool
    ensures { IsTrue result ↔ (MayResolve desk.now scan.now × L.knows log.now) }
{
    for before in 0..MOST_MANAGERS as u32 {
        if !has_room(desk, scan, before + 1) {
            return false;
        }
    }
    log.is_known()
}

/// Ends each branch that the reopening found left, by presumed abort (Mohan, Lindsay and Obermarck, 1986).
///
/// At each manager that has any, by rising number, it puts xa_open(); then for each xid, rising, xa_commit() in two
/// phases where the record of its transaction names the manager, and else xa_rollback(); and xa_forget() after an
/// answer of `XA_HEURCOM` or `XA_HEURRB`. Each is waited for before the next. A manager that is learnt to be shut is
/// asked nothing, which counts as `XAER_RMFAIL`; neither that nor any other answer ends it early, so each branch has
/// its outcome.
///
/// What several coordinators left is resolved by the records of all: a slice of their logs is read as one. Want of
/// memory comes before anything is sent.
pub fn resolve<R: Wait, L: DecisionRecords, I: Idle>(
    rt: &R,
    alloc: Global,
    desk: &mut Desk,
    scan: &Scan,
    log: &L,
    idle: &mut I,
) -> Result<Resolved, ResolveFault>
    requires may { MayResolve desk.old scan.now }
    requires known { L.knows log.now }
    ensures trace { IfOk result (λ r. IsTraceOfResolve scan.now
        (L.records log.now) desk.old.ledgers desk.new.ledgers r.outcomes.items) }

    // Each request was answered before the next was sent, and each idle was in a wait for the manager that was asked.
    ensures in_turn { IfOk result (λ r. ResolvesInTurn Answers (L.records log.now) scan.now desk.old MOST_MANAGERS
        r.outcomes.items desk.new) }
    ensures waited { IfOk result (λ r. ResolvesInTurn (AsksAndWaits I.leads_by) (L.records log.now) scan.now
        (desk.old, idle.old) MOST_MANAGERS r.outcomes.items (desk.new, idle.new)) }

    // The desk goes on, and what is outstanding stays kept. What is kept under the handles stays, and so does all that
    // was outstanding, with its tickets.
    ensures goes_on { GoesOn desk.old desk.new }
    ensures kept { AllKept desk.old → AllKept desk.new }
    ensures keeps { KeepsTheRest desk.old desk.new }

    ensures unsent { OnErr result (desk.new ≡ desk.old) }
    ensures idle_stays { OnErr result (idle.new ≡ idle.old) }
    ensures idled { I.leads idle.old idle.new }
{
    let mut outcomes = Vec::with_capacity(alloc, count_left(desk, scan))?;
    for before in 0..MOST_MANAGERS as u32 {
        let manager = before + 1;
        resolve_at(
            rt,
            desk,
            log,
            manager,
            scan.left(manager),
            &mut outcomes,
            idle,
        );
    }
    Ok(Resolved { outcomes })
}
