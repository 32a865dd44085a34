//! A manager that is shut, or decides heuristically, at each moment of a commit.
use super::{Opened, branch, plan_of, tells};
use std::alloc::Global;
use std::process::Abort;
use std::sync::Wait;
use xa_crew::Turns;
use xa_desk::{Desk, Idle};
use xa_driver::{Branch, CommitOutcome, Done, Ending, commit, may_commit};
use xa_log::MemoryLog;
use xa_switch::Plan;
use xa_words::{Code, Op};

// As it idles for the `at`-th time the second thread puts a request to manager 2. Then, as each time, the worker that
// is waited for does one step.
#[derive(Drop)]
struct Meddler {
    second: Desk,
    workers: Turns,
    op: Op,
    idled: u32,
    at: u32,
}

impl Idle for Meddler {
    ghost leads_by = { λ manager before after. Unit {0} };

    ghost leads = { λ before after. Unit {0} };

    ghost leads_each = { λ manager x y p. tt };

    ghost leads_start = { λ x. tt };

    ghost leads_chain = { λ x y z p q. tt };

    fn idle<R: Wait>(&mut self, rt: &R, manager: u32) {
        self.idled = self.idled.saturating_add(1);
        if self.idled == self.at {
            if let Ok(ticket) = self.second.submit(rt, 2, &self.op) {
                self.second.keep(ticket);
            }
        }
        self.workers.idle(rt, manager);
    }
}

// Commits branches at managers 1 and 2, which both have work to commit, while this is asked for so.
fn commit_while<R: Wait + Abort>(rt: &R, alloc: Global, at: u32, op: Op) -> Done {
    let plan = Plan {
        queue: 4,
        ..plan_of(rt, alloc, 2)
    };
    let mut opened = Opened::of(rt, alloc, &plan);
    let branches = [branch(rt, 1), branch(rt, 2)];
    opened.work(rt, &branches[0], &[1]);
    opened.work(rt, &branches[1], &[1]);
    commit_meddled(rt, alloc, opened, &branches, at, op)
}

// Commits the branches while this is asked for so.
fn commit_meddled<R: Wait + Abort>(
    rt: &R,
    alloc: Global,
    opened: Opened,
    branches: &[Branch; 2],
    at: u32,
    op: Op,
) -> Done {
    let Opened {
        mut first,
        second,
        workers,
    } = opened;
    let mut idle = Meddler {
        second,
        workers,
        op,
        idled: 0,
        at,
    };
    let mut log = MemoryLog::new(alloc);
    if !may_commit(&first, &log, branches) {
        panic!(rt; "these branches are refused");
    }
    match commit(rt, alloc, &mut first, &mut log, branches, None, &mut idle) {
        Ok(CommitOutcome::Decided(done)) => done,
        _ => panic!(rt; "memory"),
    }
}

/// The first idle waits for the first vote, and the third for the first Commit, when both are in flight.
#[test]
fn a_shut_between_the_phases_leaves_its_manager_in_doubt(rt: HostRuntime) {
    let votes = [Code::Done, Code::Done];
    for at in [1, 2] {
        let done = commit_while(&rt, rt.alloc(), at, Op::Shut);
        let endings = [Ending::Committed, Ending::InDoubt];
        tells(&rt, &done, true, true, &votes, &endings);
    }
    for at in [3, 4] {
        let done = commit_while(&rt, rt.alloc(), at, Op::Shut);
        let endings = [Ending::Committed, Ending::Committed];
        tells(&rt, &done, true, true, &votes, &endings);
    }
}

/// The branch's second code is the decision.
#[test]
fn a_decision_between_the_phases_is_told(rt: HostRuntime) {
    let votes = [Code::Done, Code::Done];
    for (commits, told) in [(false, Code::HeurRb), (true, Code::HeurCom)] {
        let endings = [Ending::Committed, Ending::Heuristic(told)];
        for at in [1, 2] {
            let decides = Op::Heur(branch(&rt, 2).xid, commits);
            let done = commit_while(&rt, rt.alloc(), at, decides);
            tells(&rt, &done, true, true, &votes, &endings);
        }
    }
}
