//! The pieces of an opening: a desk that works, commits and ends, and workers that run to their ends.
ghost use Rattle.std.specs.Prelude.{◌≡◌, ◌≤◌, length, map};
ghost use Rattle.xa_switch.specs.Belonging.{worker_seats, seat_of_desk, seat_of_ended, seat_of_worker};
ghost use Rattle.xa_driver.specs.Trace.{IsCommit};

use super::{delta, key};
use std::alloc::Global;
use std::process::Abort;
use std::snapshot::Snapshot;
use std::sync::Wait;
use xa_calls::RmOp;
use xa_crew::Turns;
use xa_desk::{Desk, EndedDesk, Idle};
use xa_driver::{Branch, CommitOutcome, Done, commit, may_commit};
use xa_log::MemoryLog;
use xa_worker::DoneWorker;

// Work for a branch, at a manager that the thread opens first.
pub(super) fn work<R: Wait + Abort>(rt: &R, desk: &mut Desk, branch: &Branch, idle: &mut Turns)
    ensures seat { seat_of_desk desk.new ≡ seat_of_desk desk.old }
    ensures idled { map seat_of_worker idle.new ≡ map seat_of_worker idle.old }
{
    let add = RmOp::Add(key(rt), delta(rt, 1));
    let worked = test_support::work(rt, desk, branch.m, branch.xid, add, idle);
    assert!(rt; worked);
}

// A commit that a desk made: the desk and its log before it and after it, and what it told.
#[derive(Drop)]
pub(super) struct Made {
    pub(super) before: Snapshot<Desk>,
    pub(super) after: Snapshot<Desk>,
    pub(super) log_before: Snapshot<MemoryLog>,
    pub(super) log_after: Snapshot<MemoryLog>,
    pub(super) done: Done,
}

pub(super) fn make<R: Wait + Abort, I: Idle>(
    rt: &R,
    alloc: Global,
    desk: &mut Desk,
    log: &mut MemoryLog,
    branches: &[Branch],
    idle: &mut I,
) -> Made
    ensures made { IsCommit branches.now result.before.value result.after.value.ledgers result.log_before.value.state
        result.log_after.value.state result.done }
    ensures few { length result.before.value.ledgers ≤ 8 }
    ensures after { result.after.value ≡ desk.new }
    ensures log { result.log_after.value ≡ log.new }
    ensures seat { seat_of_desk desk.new ≡ seat_of_desk desk.old }
    ensures idled { I.leads idle.old idle.new }
{
    if !may_commit(desk, log, branches) {
        panic!(rt; "these branches are refused");
    }
    let _managers = desk.managers();
    let (before, log_before) = (Snapshot::of(desk), Snapshot::of(log));
    let Ok(CommitOutcome::Decided(done)) = commit(rt, alloc, desk, log, branches, None, idle) else {
        panic!(rt; "memory");
    };
    Made {
        before,
        after: Snapshot::of(desk),
        log_before,
        log_after: Snapshot::of(log),
        done,
    }
}

// Ends a desk with which nothing is outstanding.
pub(super) fn end<R: Wait + Abort>(rt: &R, desk: Desk, idle: &mut Turns) -> EndedDesk
    ensures thread { result.thread ≡ desk.thread }
    ensures seat { seat_of_ended result ≡ seat_of_desk desk }
    ensures lists { result.ledgers ≡ desk.ledgers }
    ensures idled { map seat_of_worker idle.new ≡ map seat_of_worker idle.old }
{
    let Some(ended) = test_support::end(rt, desk, idle) else {
        panic!(rt; "something is outstanding");
    };
    ended
}

// Runs all workers of an opening to their ends.
pub(super) fn run_all<R: Wait + Abort>(rt: &R, alloc: Global, workers: Turns) -> Vec<DoneWorker>
    ensures { worker_seats result.items ≡ map seat_of_worker workers }
{
    let Some(done) = test_support::run_all(rt, alloc, workers) else {
        panic!(rt; "memory");
    };
    done
}
