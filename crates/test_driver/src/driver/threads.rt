//! Workers in threads of their own, which meet before their Prepares.
use super::{branch, plan_of};
use std::alloc::Global;
use std::process::Abort;
use std::sync::Wait;
use std::sync::atomic::{AtomicBool, Ordering};
use std::thread::{Threads, join};
use test_support::{comes, end, one, two};
use xa_calls::RmOp;
use xa_desk::{Desk, EndedDesk, Spin};
use xa_driver::{Branch, CommitOutcome, Done, Ending, commit, may_commit};
use xa_log::{DecisionLog, MemoryLog};
use xa_store::NoStore;
use xa_switch::{Plan, open_switch};
use xa_words::{Op, Request};
use xa_worker::{DoneWorker, Pace, Worker};

// Tells that a worker came to its Prepare, and holds it until the other one came to its own.
#[derive(Drop)]
struct Meeting<'a> {
    here: &'a AtomicBool,
    there: &'a AtomicBool,
    missed: &'a AtomicBool,
}

impl Pace for Meeting<'_> {
    ghost told = { λ request before after. Unit {0} };

    fn before<R: Wait>(&mut self, _rt: &R, request: &Request) {
        if !matches!(request.op, Op::Prepare(_)) {
            return;
        }
        self.here.store(true, Ordering::SeqCst);
        if !comes(self.there) {
            self.missed.store(true, Ordering::SeqCst);
        }
    }
}

// Work on a branch that changes the manager's key.
fn work<R: Wait + Abort>(rt: &R, desk: &mut Desk, branch: &Branch) {
    let add = RmOp::Add(super::key(rt), super::delta(rt, 1));
    let worked = test_support::work(rt, desk, branch.m, branch.xid, add, &mut Spin::new());
    assert!(rt; worked);
}

// Commits branches at managers 1 and 2, for which the thread has worked.
fn commit_worked<R: Wait + Abort, L: DecisionLog>(
    rt: &R,
    alloc: Global,
    desk: &mut Desk,
    log: &mut L,
    branches: &[Branch; 2],
) -> Done {
    if !may_commit(desk, log, branches) {
        panic!(rt; "these branches are refused");
    }
    match commit(rt, alloc, desk, log, branches, None, &mut Spin::new()) {
        Ok(CommitOutcome::Decided(done)) => done,
        _ => panic!(rt; "memory"),
    }
}

// Commits branches at managers 1 and 2, and ends the desk.
pub(super) fn commit_two<R: Wait + Abort, L: DecisionLog>(
    rt: &R,
    alloc: Global,
    mut desk: Desk,
    log: &mut L,
) -> (Done, EndedDesk) {
    let branches = [branch(rt, 1), branch(rt, 2)];
    work(rt, &mut desk, &branches[0]);
    work(rt, &mut desk, &branches[1]);
    let done = commit_worked(rt, alloc, &mut desk, log, &branches);
    let ended = end(rt, desk, &mut Spin::new());
    (done, ended.expect(rt, "nothing outstanding"))
}

// A desk, and a worker for each of its two managers.
pub(super) fn open_two<R: Wait + Abort>(rt: &R, alloc: Global) -> (Desk, Worker, Worker) {
    let plan = Plan {
        threads: 1,
        ..plan_of(rt, alloc, 2)
    };
    let Ok((desks, workers)) = open_switch(rt, alloc, &plan) else {
        panic!(rt; "no opening");
    };
    let desk = one(desks).expect(rt, "one desk");
    let (first, second) = two(workers).expect(rt, "two workers");
    (desk, first, second)
}

// The flags of the meeting.
#[derive(Drop)]
struct Met {
    first: AtomicBool,
    second: AtomicBool,
    missed: AtomicBool,
}

// Runs both workers, each in a thread, which meet before their Prepares.
fn run_both<R: Threads + Wait + Sync>(
    rt: &R,
    met: &Met,
    first: Worker,
    second: Worker,
) -> (DoneWorker, DoneWorker) {
    let mut pace = Meeting {
        here: &met.first,
        there: &met.second,
        missed: &met.missed,
    };
    let mut other = Meeting {
        here: &met.second,
        there: &met.first,
        missed: &met.missed,
    };
    join(
        rt,
        || first.run(rt, &mut pace, &mut NoStore),
        || second.run(rt, &mut other, &mut NoStore),
    )
}

// The manager carried out six requests, which were collected.
fn did_six(rt: &impl Abort, manager: u32, ended: &EndedDesk, worker: &DoneWorker) {
    assert!(rt; ended.collected(manager).len() == 6);
    assert!(rt; worker.journal().len() == 6);
}

#[test]
fn both_prepares_are_in_flight_at_once(rt: HostRuntime) {
    let alloc = rt.alloc();
    let (desk, first, second) = open_two(&rt, alloc);
    let met = Met {
        first: AtomicBool::new(false),
        second: AtomicBool::new(false),
        missed: AtomicBool::new(false),
    };
    let mut log = MemoryLog::new(alloc);
    let ((done, ended), (first, second)) = join(
        &rt,
        || commit_two(&rt, alloc, desk, &mut log),
        || run_both(&rt, &met, first, second),
    );
    assert!(rt;
        !met.missed.load(Ordering::SeqCst),
        "one Prepare waited for the other"
    );
    assert!(rt; done.commit && done.logged);
    let endings = [Ending::Committed, Ending::Committed];
    assert!(rt; done.endings.as_slice() == endings.as_slice());
    did_six(&rt, 1, &ended, &first);
    did_six(&rt, 2, &ended, &second);
}
