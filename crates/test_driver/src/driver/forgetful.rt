//! A log that forgets: a record goes once every branch has acknowledged, and stays while one is in doubt, until what
//! was left is resolved.
ghost use Rattle.std.specs.Prelude.{◌≡◌, ◌∷◌, [], ℕ, map};
ghost use Rattle.xa_desk.specs.DeskViews.{ledger};
ghost use Rattle.xa_switch.specs.Belonging.{ComeFromOpenings, seat_of_desk, seat_of_worker};

use super::openings::{again, open};
use super::pieces::{make, work};
use super::resolved::{Crashed, commit_and_crash, recover};
use super::{Opened, branch, plan_of};
use std::alloc::Global;
use std::process::Abort;
use std::sync::Wait;
use xa_crew::Turns;
use xa_desk::Desk;
use xa_driver::{
    Branch, CommitOutcome, Done, LastKnown, Outcome, Resolved, commit, forget_acknowledged,
    forget_resolved, may_commit,
};
use xa_log::{CommitRecord, DecisionLog, DecisionRecords, MemoryLog};
use xa_switch::Plan;
use xa_words::{Code, Death, ManagerSet, Tran, Xid};

// An opening of two threads and two managers.
fn opened<R: Wait + Abort>(rt: &R, alloc: Global) -> Opened
    ensures opened { ComeFromOpenings (seat_of_desk result.first ∷ seat_of_desk result.second ∷ [])
        (map seat_of_worker result.workers) }
    ensures fresh { (m : ℕ) → (ledger result.second.ledgers m).sent ≡ [] }
{
    let plan = Plan {
        queue: 4,
        ..plan_of(rt, alloc, 2)
    };
    open(rt, alloc, &plan)
}

#[test]
fn a_record_goes_once_all_have_acknowledged(rt: HostRuntime) {
    let alloc = rt.alloc();
    let branches = [branch(&rt, 1), branch(&rt, 2)];
    let tran = branches[0].xid.tran();
    let mut opened = opened(&rt, alloc);
    work(&rt, &mut opened.first, &branches[0], &mut opened.workers);
    work(&rt, &mut opened.first, &branches[1], &mut opened.workers);
    let mut log = MemoryLog::new(alloc);
    let made = make(
        &rt,
        alloc,
        &mut opened.first,
        &mut log,
        &branches,
        &mut opened.workers,
    );
    assert!(&rt; made.done.logged && made.done.is_acknowledged());
    assert!(&rt; log.has(&tran).is_some());
    forget_acknowledged(&mut log, &tran, &made.done);
    assert!(&rt; log.has(&tran).is_none());
}

#[test]
fn a_record_stays_while_a_branch_is_in_doubt(rt: HostRuntime) {
    let alloc = rt.alloc();
    let branches = [branch(&rt, 1), branch(&rt, 2)];
    let tran = branches[0].xid.tran();
    let opened = opened(&rt, alloc);
    let mut log = MemoryLog::new(alloc);
    let Crashed { settled, made, .. } = commit_and_crash(&rt, alloc, opened, &mut log, &branches);
    assert!(&rt; made.done.logged && !made.done.is_acknowledged());
    forget_acknowledged(&mut log, &tran, &made.done);
    assert!(&rt; log.has(&tran).is_some());
    let recovered = recover(&rt, alloc, settled, &again(8), &log);
    assert!(&rt; recovered.ended.told.outcomes.len() == 1);
    assert!(&rt; forget_resolved(alloc, &mut log, &recovered.ended.told).is_ok());
    assert!(&rt; log.has(&tran).is_none());
}

// Commits the branches up to the death of the coordinator, and tells what it knew then.
fn commit_and_die<R: Wait + Abort>(
    rt: &R,
    alloc: Global,
    desk: &mut Desk,
    log: &mut MemoryLog,
    branches: &[Branch],
    death: Death,
    idle: &mut Turns,
) -> LastKnown {
    if !may_commit(desk, log, branches) {
        panic!(rt; "these branches are refused");
    }
    let Ok(CommitOutcome::Died { at: _, known }) = commit(
        rt,
        alloc,
        desk,
        log,
        branches,
        Some(death),
        idle,
    ) else {
        panic!(rt; "memory");
    };
    known
}

// The first thread works for two branches and dies as it commits them, with the record in the log: no branch is known
// to have ended, so the record stays.
fn dies_and_keeps_its_record<R: Wait + Abort>(rt: &R, alloc: Global, opened: Opened, death: Death) {
    let branches = [branch(rt, 1), branch(rt, 2)];
    let tran = branches[0].xid.tran();
    let Opened {
        mut first,
        second: _,
        mut workers,
    } = opened;
    work(rt, &mut first, &branches[0], &mut workers);
    work(rt, &mut first, &branches[1], &mut workers);
    let mut log = MemoryLog::new(alloc);
    let known = commit_and_die(
        rt,
        alloc,
        &mut first,
        &mut log,
        &branches,
        death,
        &mut workers,
    );
    // No ending is known, so there is nothing by which the record could be forgotten.
    assert!(rt; matches!(&known, LastKnown::Decided { decision, .. } if decision.logged));
    assert!(rt; log.has(&tran).is_some());
}

#[test]
fn a_record_stays_where_the_coordinator_died_with_its_decision(rt: HostRuntime) {
    let alloc = rt.alloc();
    let opened = opened(&rt, alloc);
    dies_and_keeps_its_record(&rt, alloc, opened, Death::Decided);
}

#[test]
fn a_record_stays_where_the_coordinator_died_as_it_told_its_decision(rt: HostRuntime) {
    let alloc = rt.alloc();
    let opened = opened(&rt, alloc);
    dies_and_keeps_its_record(&rt, alloc, opened, Death::Telling(1));
}

// The transaction of this gtrid.
fn tran<A: Abort>(rt: &A, gtrid: &[u8]) -> Tran {
    Tran::new(1, gtrid).expect(rt, "a name")
}

// What a branch of the transaction at manager 1 came to.
fn outcome<A: Abort>(rt: &A, gtrid: &[u8], code: Code) -> Outcome {
    Outcome {
        m: 1,
        xid: Xid::new(1, gtrid, b"1").expect(rt, "an xid"),
        commit: true,
        code,
    }
}

// The log takes a record of the transaction.
fn record<A: Abort>(rt: &A, log: &mut MemoryLog, gtrid: &[u8]) {
    let record = CommitRecord {
        tran: tran(rt, gtrid),
        yes: ManagerSet::of([true; 8]),
    };
    let None = log.has(&record.tran) else {
        panic!(rt; "it has a record");
    };
    assert!(rt; log.append(&record).is_ok());
}

// Whether the log has a record of the transaction.
fn has<A: Abort>(rt: &A, log: &MemoryLog, gtrid: &[u8]) -> bool {
    log.has(&tran(rt, gtrid)).is_some()
}

// A resolve that ended the first transaction's branch, and found the manager of the second one's shut.
fn found_one_shut<A: Abort>(rt: &A, alloc: Global) -> Resolved {
    let told = [
        outcome(rt, b"a", Code::Done),
        outcome(rt, b"b", Code::RmFail),
    ];
    Resolved {
        outcomes: Vec::from_array(alloc, told).expect(rt, "memory"),
    }
}

#[test]
fn a_resolve_that_found_a_manager_shut_keeps_what_it_has_to_be_told(rt: HostRuntime) {
    let alloc = rt.alloc();
    let mut log = MemoryLog::new(alloc);
    record(&rt, &mut log, b"a");
    record(&rt, &mut log, b"b");
    record(&rt, &mut log, b"c");
    let resolved = found_one_shut(&rt, alloc);
    assert!(&rt; forget_resolved(alloc, &mut log, &resolved).is_ok());
    assert!(&rt; !has(&rt, &log, b"a"));
    assert!(&rt; has(&rt, &log, b"b"));
    // A crash had brought it back, and nothing of it was left.
    assert!(&rt; !has(&rt, &log, b"c"));
}
