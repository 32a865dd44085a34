//! A commit whose log can't tell whether it has the record. No branch is told anything; and what the log turns out to
//! have, once it is opened again, ends them all the same way.
ghost use Rattle.std.specs.Prelude.{◌≡◌, map};
ghost use Rattle.xa_switch.specs.Belonging.{seat_of_desk, seat_of_worker};

use super::openings::{again, open};
use super::pieces::work;
use super::resolved::recover;
use super::resolving::end_both;
use super::{Opened, branch, key, plan_of};
use std::alloc::Global;
use std::process::Abort;
use std::sync::Wait;
use xa_crew::Turns;
use xa_desk::Desk;
use xa_driver::{Branch, CommitOutcome, Resolved, commit, may_commit};
use xa_log::{MemoryLog, ReopenLog, TrialLog};
use xa_switch::Plan;
use xa_words::Code;

// A commit that comes to no decision, and the votes of its branches.
fn lose_record<R: Wait + Abort>(
    rt: &R,
    alloc: Global,
    desk: &mut Desk,
    log: &mut TrialLog<MemoryLog>,
    branches: &[Branch; 2],
    idle: &mut Turns,
) -> Vec<Code>
    ensures seat { seat_of_desk desk.new ≡ seat_of_desk desk.old }
    ensures idled { map seat_of_worker idle.new ≡ map seat_of_worker idle.old }
{
    if !may_commit(desk, log, branches) {
        panic!(rt; "these branches are refused");
    }
    match commit(rt, alloc, desk, log, branches, None, idle) {
        Ok(CommitOutcome::Undecided(votes)) => votes,
        _ => panic!(rt; "it was decided"),
    }
}

// Both branches were ended, by what the log has.
fn are_ended(rt: &impl Abort, told: &Resolved, keeps: bool) {
    for outcome in &told.outcomes {
        assert!(rt; outcome.commit == keeps && outcome.code == Code::Done);
    }
    assert!(rt; told.outcomes.len() == 2);
}

// Commits both branches, for which the thread has worked: each is asked to prepare, and no more; and the log can't be
// asked any more.
fn is_undecided<R: Wait + Abort>(
    rt: &R,
    alloc: Global,
    desk: &mut Desk,
    log: &mut TrialLog<MemoryLog>,
    branches: &[Branch; 2],
    idle: &mut Turns,
)
    ensures seat { seat_of_desk desk.new ≡ seat_of_desk desk.old }
    ensures idled { map seat_of_worker idle.new ≡ map seat_of_worker idle.old }
{
    let room = desk.room(1).checked_sub(1).expect(rt, "room");
    let votes = lose_record(rt, alloc, desk, log, branches, idle);
    assert!(rt; votes.as_slice() == [Code::Done; 2].as_slice());
    assert!(rt; (desk.room(1), desk.room(2)) == (room, room));
    assert!(rt; !may_commit(desk, log, &[branch(rt, 1)]));
}

// Commits two branches that each add 1 to 5, with a log that keeps the record or doesn't, and resolves them by what it
// has. Then the managers' values are this.
fn comes_to<R: Wait + Abort>(rt: &R, alloc: Global, keeps: bool, value: u64) {
    let plan = Plan {
        queue: 4,
        ..plan_of(rt, alloc, 2)
    };
    let branches = [branch(rt, 1), branch(rt, 2)];
    let Opened {
        mut first,
        second,
        mut workers,
    } = open(rt, alloc, &plan);
    work(rt, &mut first, &branches[0], &mut workers);
    work(rt, &mut first, &branches[1], &mut workers);
    let found = MemoryLog::with_room(alloc, 1).expect(rt, "memory");
    let mut log = TrialLog::new(found).losing_at(1, keeps);
    is_undecided(rt, alloc, &mut first, &mut log, &branches, &mut workers);
    let settled = end_both(rt, alloc, first, second, workers);
    let recovered = recover(rt, alloc, settled, &again(8), &log.reopen());
    are_ended(rt, &recovered.ended.told, keeps);
    assert!(rt; recovered.settled.value(1, &key(rt)) == Some(value));
    assert!(rt; recovered.settled.value(2, &key(rt)) == Some(value));
}

#[test]
fn what_the_log_turns_out_to_have_ends_an_undecided_commit(rt: HostRuntime) {
    let alloc = rt.alloc();
    comes_to(&rt, alloc, true, 6);
    comes_to(&rt, alloc, false, 5);
}
