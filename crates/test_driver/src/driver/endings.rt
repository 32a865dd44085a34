//! Endings that take a second thread: it goes on with a branch before the vote, or between the phases.
use super::{Opened, branch, tells};
use std::alloc::Global;
use std::process::Abort;
use std::sync::Wait;
use xa_calls::xa_call;
use xa_crew::Turns;
use xa_desk::{Desk, Idle};
use xa_driver::{Branch, CommitOutcome, Done, Ending, commit, may_commit};
use xa_log::MemoryLog;
use xa_words::{Call, Code, EndHow, Op, TMJOIN};

// More turns than manager 2 has requests at any time.
const TURNS: usize = 16;

// As it first idles the branches have been asked to prepare. Manager 2 answers that, and then a request
// of the second thread.
#[derive(Drop)]
struct Meddler {
    second: Desk,
    workers: Turns,
    op: Op,
    has_meddled: bool,
}

impl Meddler {
    fn meddle<R: Wait>(&mut self, rt: &R) {
        for _turn in 0..TURNS {
            self.workers.idle(rt, 2);
        }
        let _answer = self.second.call(rt, 2, &self.op, &mut self.workers);
    }
}

impl Idle for Meddler {
    ghost leads_by = { λ manager before after. Unit {0} };

    ghost leads = { λ before after. Unit {0} };

    ghost leads_each = { λ manager x y p. tt };

    ghost leads_start = { λ x. tt };

    ghost leads_chain = { λ x y z p q. tt };

    fn idle<R: Wait>(&mut self, rt: &R, manager: u32) {
        if !self.has_meddled {
            self.has_meddled = true;
            self.meddle(rt);
        }
        self.workers.idle(rt, manager);
    }
}

// Commits two branches, between whose phases the second thread puts a request to manager 2.
fn commit_meddled<R: Wait + Abort>(
    rt: &R,
    alloc: Global,
    opened: Opened,
    branches: &[Branch],
    op: Op,
) -> Done {
    let Opened {
        mut first,
        second,
        workers,
    } = opened;
    let mut idle = Meddler {
        second,
        workers,
        op,
        has_meddled: false,
    };
    let mut log = MemoryLog::new(alloc);
    if !may_commit(&first, &log, branches) {
        panic!(rt; "these branches are refused");
    }
    match commit(rt, alloc, &mut first, &mut log, branches, None, &mut idle) {
        Ok(CommitOutcome::Decided(done)) => done,
        _ => panic!(rt; "memory"),
    }
}

// The second thread joins a branch.
fn join_branch<R: Wait + Abort>(rt: &R, opened: &mut Opened, branch: &Branch) {
    let (desk, idle) = (&mut opened.second, &mut opened.workers);
    let xid = Some(branch.xid);
    let joined = xa_call(rt, desk, Call::Start, xid, branch.m, TMJOIN, idle);
    assert!(rt; joined == 0);
}

// Work on branches at managers 1 and 2; the first one votes against where its change overdraws.
fn two_branches<R: Wait + Abort>(rt: &R, opened: &mut Opened, change: i64) -> [Branch; 2] {
    let branches = [branch(rt, 1), branch(rt, 2)];
    opened.work(rt, &branches[0], &[change]);
    opened.work(rt, &branches[1], &[1]);
    branches
}

// Commits two branches, whose second manager is shut between the phases.
fn commit_shut<R: Wait + Abort>(rt: &R, alloc: Global, change: i64) -> Done {
    let mut opened = Opened::new(rt, alloc, 2);
    let branches = two_branches(rt, &mut opened, change);
    commit_meddled(rt, alloc, opened, &branches, Op::Shut)
}

#[test]
fn a_yes_vote_of_a_manager_that_is_then_shut_is_in_doubt(rt: HostRuntime) {
    let done = commit_shut(&rt, rt.alloc(), 1);
    let endings = [Ending::Committed, Ending::InDoubt];
    tells(&rt, &done, true, true, &[Code::Done, Code::Done], &endings);
    // The same where the decision is to abort.
    let done = commit_shut(&rt, rt.alloc(), -6);
    let votes = [Code::RbIntegrity, Code::Done];
    let endings = [Ending::RolledBack, Ending::InDoubt];
    tells(&rt, &done, false, false, &votes, &endings);
}

// Commits two branches, of which the second one is rolled back by the second thread between the phases.
fn commit_ended<R: Wait + Abort>(rt: &R, alloc: Global, change: i64) -> Done {
    let mut opened = Opened::new(rt, alloc, 2);
    let branches = two_branches(rt, &mut opened, change);
    let rollback = Op::Rollback(branches[1].xid);
    commit_meddled(rt, alloc, opened, &branches, rollback)
}

#[test]
fn a_yes_vote_of_a_branch_that_another_thread_ends_is_left(rt: HostRuntime) {
    let left = Ending::Left(Code::Nota);
    let done = commit_ended(&rt, rt.alloc(), 1);
    let endings = [Ending::Committed, left];
    tells(&rt, &done, true, true, &[Code::Done, Code::Done], &endings);
    // The same where the decision is to abort.
    let done = commit_ended(&rt, rt.alloc(), -6);
    let votes = [Code::RbIntegrity, Code::Done];
    let endings = [Ending::RolledBack, left];
    tells(&rt, &done, false, false, &votes, &endings);
}

#[test]
fn a_branch_whose_work_ends_after_its_vote_is_rolled_back(rt: HostRuntime) {
    let alloc = rt.alloc();
    let mut opened = Opened::new(&rt, alloc, 2);
    let branches = two_branches(&rt, &mut opened, 1);
    join_branch(&rt, &mut opened, &branches[1]);
    let end = Op::End(branches[1].xid, EndHow::Success);
    let done = commit_meddled(&rt, alloc, opened, &branches, end);
    let votes = [Code::Done, Code::Proto];
    let endings = [Ending::RolledBack, Ending::RolledBack];
    tells(&rt, &done, false, false, &votes, &endings);
}
