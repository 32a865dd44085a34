//! A record of a decision, and a commit of two branches.
ghost use Rattle.std.specs.Prelude.{◌≡◌, map};
ghost use Rattle.xa_switch.specs.Belonging.{seat_of_desk, seat_of_worker};

use crate::openings::{open, plan_of};
use crate::thing::Came;
use std::alloc::Global;
use std::sync::Wait;
use xa_calls::{RmOp, xa_call};
use xa_crew::Turns;
use xa_desk::Desk;
use xa_driver::{Branch, CommitOutcome, Done, Ending, commit, may_commit};
use xa_log::{CommitRecord, DecisionLog, DecisionRecords, MemoryLog};
use xa_words::{Call, Delta, Key, ManagerSet, Xid};

/// A desk that has worked for two branches of one transaction, and its log.
#[derive(Drop)]
pub(crate) struct Committer {
    desk: Desk,
    workers: Turns,
    log: MemoryLog,
    branches: [Branch; 2],
}

/// The transaction's branch at a manager.
pub(crate) fn branch(m: u32, bqual: &[u8]) -> Option<Branch> {
    let xid = Xid::new(1, b"t", bqual).ok()?;
    Some(Branch { m, xid })
}

/// A call of XA for the branch.
pub(crate) fn ask<R: Wait>(
    rt: &R,
    desk: &mut Desk,
    call: Call,
    branch: &Branch,
    flags: u32,
    idle: &mut Turns,
) -> i32
    ensures seat { seat_of_desk desk.new ≡ seat_of_desk desk.old }
    ensures idled { map seat_of_worker idle.new ≡ map seat_of_worker idle.old }
{
    let xid = Some(branch.xid);
    xa_call(rt, desk, call, xid, branch.m, flags, idle)
}

/// Whether the branch's manager was opened, and this was added for the branch.
pub(crate) fn work<R: Wait>(
    rt: &R,
    desk: &mut Desk,
    branch: &Branch,
    addition: RmOp,
    idle: &mut Turns,
) -> bool
    ensures seat { seat_of_desk desk.new ≡ seat_of_desk desk.old }
    ensures idled { map seat_of_worker idle.new ≡ map seat_of_worker idle.old }
{
    test_support::work(rt, desk, branch.m, branch.xid, addition, idle)
}

impl Committer {
    pub(crate) fn new<R: Wait>(rt: &R, alloc: Global) -> Option<Committer> {
        let mut opened = open(rt, alloc, &plan_of(alloc, 1, 2)?)?;
        let branches = [branch(1, b"1")?, branch(2, b"2")?];
        for branch in &branches {
            let addition = RmOp::Add(Key::new(b"a")?, Delta::new(1)?);
            if !work(rt, &mut opened.desk, branch, addition, &mut opened.workers) {
                return None;
            }
        }
        Some(Committer {
            desk: opened.desk,
            workers: opened.workers,
            log: MemoryLog::new(alloc),
            branches,
        })
    }

    // How many requests were sent to the two managers, and whether the transaction has a record.
    fn state(&self) -> (u32, u32, bool) {
        let tran = self.branches[0].xid.tran();
        (
            self.desk.room(1),
            self.desk.room(2),
            self.log.has(&tran).is_some(),
        )
    }

    // What came of a commit that ended.
    fn judge(&self, done: &Done) -> Came {
        let endings = done.endings.as_slice();
        let logged = self.state().2;
        if done.commit && logged && endings == [Ending::Committed; 2].as_slice() {
            Came::Made
        } else if !done.commit
            && !logged
            && self.log.failures() == 1
            && endings == [Ending::RolledBack; 2].as_slice()
        {
            Came::Aborted
        } else {
            Came::Wrong
        }
    }

    /// Commits the branches.
    pub(crate) fn commit<R: Wait>(&mut self, rt: &R, alloc: Global) -> Came {
        if !may_commit(&self.desk, &self.log, self.branches.as_slice()) {
            return Came::Wrong;
        }
        let before = self.state();
        let (desk, log, idle) = (&mut self.desk, &mut self.log, &mut self.workers);
        match commit(rt, alloc, desk, log, self.branches.as_slice(), None, idle) {
            Ok(CommitOutcome::Decided(done)) => self.judge(&done),
            Err(_) if self.state() == before => Came::Refused,
            _ => Came::Wrong,
        }
    }
}

/// Appends a record of a transaction, unless there is one.
pub(crate) fn append(log: &mut MemoryLog) -> Came {
    let Ok(xid) = Xid::new(1, b"t", b"1") else {
        return Came::Wrong;
    };
    let (tran, yes) = (xid.tran(), ManagerSet::of([true; 8]));
    if log.has(&tran).is_some() {
        return Came::Wrong;
    }
    let failures = log.failures();
    match log.append(&CommitRecord { tran, yes }) {
        Ok(()) if log.has(&tran) == Some(yes) => Came::Made,
        Err(_) if log.has(&tran).is_none() && log.failures() == failures.wrapping_add(1) =>
            Came::Refused,
        _ => Came::Wrong,
    }
}
