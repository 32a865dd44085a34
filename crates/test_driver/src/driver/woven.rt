//! A commit that is held in stages, with the whole of another between its votes and its decision. By what the calls
//! promise and the laws it is one that was cut short once all its branches were told; and the values have both.
ghost use Rattle.std.specs.Prelude.{◌≡◌, ◌≢◌, ◌↔◌, IsTrue, ℕ, ◌∷◌, [], map};
ghost use Rattle.std.specs.List.{All};
ghost use Rattle.xa_switch.specs.Belonging.{ComeFromOpenings, seat_of_desk, seat_of_worker};
ghost use Rattle.laws_commit.specs.Calls.{commit_call};
ghost use Rattle.laws_commit.specs.Cut.{AreOthers, IsCut};

use super::openings::{open, settle_all};
use super::pieces::{end, run_all};
use super::{Opened, branch, delta, key, plan_of};
use laws_commit::{
    decided_commits_were_made, others_leave_the_branches, stages_are_cuts, stages_follow,
};
use std::alloc::Global;
use std::process::Abort;
use std::snapshot::Snapshot;
use std::sync::Wait;
use xa_calls::RmOp;
use xa_crew::Turns;
use xa_desk::Desk;
use xa_driver::{Branch, CommitOutcome, Done, Ending, commit, may_commit, prepare_all};
use xa_log::{DecisionRecords, MemoryLog};
use xa_switch::{Plan, Settled};
use xa_words::{Key, Xid};

// The two are different branches.
fn differ(branch: &Branch, other: &Branch) -> bool
    ensures { IsTrue result ↔ (other.now.xid ≢ branch.now.xid) }
{
    other.xid != branch.xid
}

// The branch is none of the others.
fn is_other(branch: &Branch, others: &[Branch]) -> bool
    ensures { IsTrue result ↔ All (λ c. c.xid ≢ branch.now.xid) others.now }
{
    others.iter().all(|other| differ(branch, other))
}

// No branch is one of the others.
fn are_others(branches: &[Branch], others: &[Branch]) -> bool
    ensures { IsTrue result ↔ AreOthers branches.now others.now }
{
    branches.iter().all(|branch| is_other(branch, others))
}

// A commit in stages: its desk before and after it, its log as the decision found it and after it, and what is known.
#[derive(Drop)]
struct Woven {
    before: Snapshot<Desk>,
    after: Snapshot<Desk>,
    log_before: Snapshot<MemoryLog>,
    log_after: Snapshot<MemoryLog>,
    known: Done,
}

// Commits the branches up to where all are told, and the others once the branches have voted.
fn weave<R: Wait + Abort>(
    rt: &R,
    alloc: Global,
    desk: &mut Desk,
    log: &mut MemoryLog,
    branches: &[Branch],
    others: &[Branch],
    idle: &mut Turns,
) -> Woven
    ensures cut { (t : ℕ) → IsCut (commit_call t branches.now result.before.value result.after.value.ledgers
        result.log_before.value.state result.log_after.value.state result.known.endings.items) }
    ensures seat { seat_of_desk desk.new ≡ seat_of_desk desk.old }
    ensures idled { map seat_of_worker idle.new ≡ map seat_of_worker idle.old }
{
    stages_are_cuts();
    decided_commits_were_made();
    stages_follow();
    others_leave_the_branches();
    if !are_others(branches, others) {
        panic!(rt; "a branch is one of the others");
    }
    if !may_commit(desk, log, branches) {
        panic!(rt; "these branches are refused");
    }
    let before = Snapshot::of(desk);
    let Ok(prepared) = prepare_all(rt, alloc, desk, branches, idle) else {
        panic!(rt; "memory");
    };
    if !may_commit(desk, log, others) {
        panic!(rt; "the others are refused");
    }
    let Ok(CommitOutcome::Decided(_)) = commit(rt, alloc, desk, log, others, None, idle) else {
        panic!(rt; "memory");
    };
    if log.has(&branches[0].xid.tran()).is_some() {
        panic!(rt; "the transaction is recorded");
    }
    let log_before = Snapshot::of(log);
    let decided = match prepared.decide(log) {
        Ok(decided) => decided,
        Err(prepared) => {
            let _ = prepared.let_go();
            panic!(rt; "nobody knows what the log has")
        }
    };
    if !decided.may_tell(desk) {
        panic!(rt; "they can't be told");
    }
    let told = decided.tell(rt, desk, idle);
    Woven {
        before,
        after: Snapshot::of(desk),
        log_before,
        log_after: Snapshot::of(log),
        known: told.let_go(),
    }
}

fn other_key(rt: &impl Abort) -> Key {
    Key::new(b"b").expect(rt, "a key")
}

// Work for a branch, which adds 1 to the key.
fn work<R: Wait + Abort>(rt: &R, desk: &mut Desk, branch: &Branch, key: Key, idle: &mut Turns)
    ensures seat { seat_of_desk desk.new ≡ seat_of_desk desk.old }
    ensures idled { map seat_of_worker idle.new ≡ map seat_of_worker idle.old }
{
    let add = RmOp::Add(key, delta(rt, 1));
    let worked = test_support::work(rt, desk, branch.m, branch.xid, add, idle);
    assert!(rt; worked);
}

// Two managers, each with the keys `a` and `b` of value 5.
fn plan_of_two_keys(rt: &impl Abort, alloc: Global) -> Plan {
    let mut plan = plan_of(rt, alloc, 2);
    for manager in plan.managers.iter_mut() {
        manager
            .accounts
            .push((other_key(rt), 5))
            .expect(rt, "memory");
    }
    Plan { queue: 4, ..plan }
}

// Both commits in an opening, and what it was settled to.
#[derive(Drop)]
struct Story {
    woven: Woven,
    settled: Settled,
}

// The first thread works for the branches of two transactions, and commits both at once. Then the opening ends.
fn weave_and_settle<R: Wait + Abort>(
    rt: &R,
    alloc: Global,
    opened: Opened,
    log: &mut MemoryLog,
    branches: &[Branch; 2],
    others: &[Branch; 2],
) -> Story
    requires { ComeFromOpenings (seat_of_desk opened.first ∷ seat_of_desk opened.second ∷ [])
        (map seat_of_worker opened.workers) }
    ensures { (t : ℕ) → IsCut (commit_call t branches.now result.woven.before.value
        result.woven.after.value.ledgers result.woven.log_before.value.state result.woven.log_after.value.state
        result.woven.known.endings.items) }
{
    let Opened {
        mut first,
        second,
        mut workers,
    } = opened;
    work(rt, &mut first, &branches[0], key(rt), &mut workers);
    work(rt, &mut first, &branches[1], key(rt), &mut workers);
    work(rt, &mut first, &others[0], other_key(rt), &mut workers);
    work(rt, &mut first, &others[1], other_key(rt), &mut workers);
    let woven = weave(rt, alloc, &mut first, log, branches, others, &mut workers);
    let first_ended = end(rt, first, &mut workers);
    let second_ended = end(rt, second, &mut workers);
    let Ok(desks) = Vec::from_array(alloc, [first_ended, second_ended]) else {
        panic!(rt; "memory");
    };
    let done = run_all(rt, alloc, workers);
    let settled = settle_all(rt, alloc, desks, done);
    Story { woven, settled }
}

// The branch of transaction `u` at a manager.
fn other(rt: &impl Abort, m: u32) -> Branch {
    let xid = Xid::new(1, b"u", b"1").expect(rt, "an xid");
    Branch { m, xid }
}

#[test]
fn a_commit_holds_while_another_is_made(rt: HostRuntime) {
    let branches = [branch(&rt, 1), branch(&rt, 2)];
    let others = [other(&rt, 1), other(&rt, 2)];
    let plan = plan_of_two_keys(&rt, rt.alloc());
    let opened = open(&rt, rt.alloc(), &plan);
    let mut log = MemoryLog::new(rt.alloc());
    let story = weave_and_settle(&rt, rt.alloc(), opened, &mut log, &branches, &others);
    is_committed(&rt, &story.woven.known);
    for m in 1..3 {
        assert!(rt; story.settled.value(m, &key(&rt)) == Some(6));
        assert!(rt; story.settled.value(m, &other_key(&rt)) == Some(6));
    }
}

// It was decided to commit, and each branch is.
fn is_committed(rt: &impl Abort, known: &Done) {
    assert!(rt; known.commit && known.logged);
    for ending in &known.endings {
        assert!(rt; *ending == Ending::Committed);
    }
}
