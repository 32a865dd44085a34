//! One thread commits, and its opening is settled. By what the calls promise and one law, and with no
//! proof of this caller, what the commit told of its branches is what became of them.
ghost use Rattle.std.specs.Prelude.{◌≡◌, ◌∷◌, [], map};
ghost use Rattle.xa_switch.specs.Fates.{ledgers_of};
ghost use Rattle.xa_switch.specs.Belonging.{ComeFromOpenings, desk_seats, worker_seats, seat_of_desk, seat_of_ended};
ghost use Rattle.xa_switch.specs.Belonging.{seat_of_worker, seat_of_done};
ghost use Rattle.xa_desk.specs.Growth.{HaveGrown};
ghost use Rattle.xa_driver.specs.Trace.{IsCommit};
ghost use Rattle.laws_commit.specs.Outcomes.{AreLeftOrDecided, KeepsTheVotes, TellsTheFates};
ghost use Rattle.xa_driver.specs.Deaths.{sent_so_far};

use super::pieces::{Made, end, make, run_all, work};
use super::{branch, key, plan_of};
use laws_commit::commit_in_a_settled_opening;
use std::alloc::Global;
use std::process::Abort;
use std::snapshot::Snapshot;
use std::sync::Wait;
use test_support::one;
use xa_calls::xa_call;
use xa_crew::Turns;
use xa_desk::laws::{desks_go_on, growth_goes_on};
use xa_desk::{Desk, EndedDesk};
use xa_driver::{Branch, Ending};
use xa_log::MemoryLog;
use xa_switch::laws::opened_pieces_come_from_their_opening;
use xa_switch::{Plan, Settled, settle};
use xa_words::{Call, TMNOFLAGS};
use xa_worker::DoneWorker;

// The one desk of an opening, and its workers.
#[derive(Drop)]
struct Opened {
    desk: Desk,
    workers: Turns,
}

fn open<R: Wait + Abort>(rt: &R, alloc: Global, plan: &Plan) -> Opened
    ensures { ComeFromOpenings (seat_of_desk result.desk ∷ []) (map seat_of_worker result.workers) }
{
    opened_pieces_come_from_their_opening();
    let Some((desks, workers)) = test_support::open(rt, alloc, plan) else {
        panic!(rt; "it is not opened");
    };
    let Some(desk) = one(desks) else {
        panic!(rt; "there is no one desk");
    };
    Opened { desk, workers }
}

// After the commit the thread closes the managers.
fn close<R: Wait + Abort>(rt: &R, desk: &mut Desk, idle: &mut Turns)
    ensures seat { seat_of_desk desk.new ≡ seat_of_desk desk.old }
    ensures grown { HaveGrown desk.old.ledgers desk.new.ledgers }
    ensures idled { map seat_of_worker idle.new ≡ map seat_of_worker idle.old }
{
    desks_go_on();
    let first = xa_call(rt, desk, Call::CloseRm, None, 1, TMNOFLAGS, idle);
    let second = xa_call(rt, desk, Call::CloseRm, None, 2, TMNOFLAGS, idle);
    assert!(rt; first == 0 && second == 0);
}

// Settles all desks and workers of an opening.
fn settle_all<R: Wait + Abort>(
    rt: &R,
    alloc: Global,
    desks: Vec<EndedDesk>,
    workers: Vec<DoneWorker>,
) -> Settled
    requires { ComeFromOpenings (desk_seats desks.items) (worker_seats workers.items) }
    ensures { map (λ e. ledgers_of result e.thread) desks.items ≡ map (λ e. e.ledgers) desks.items }
{
    match settle(rt, alloc, desks, workers) {
        Ok(settled) => settled,
        Err(_) => panic!(rt; "it is not settled"),
    }
}

// A settled opening, and the commit that its thread made.
#[derive(Drop)]
struct Told {
    settled: Settled,
    thread: u32,
    made: Made,
}

// A thread commits, closes its managers and ends, and the opening is settled. That nobody else names the
// branches, but for heuristic decisions, is the one premise that is left.
fn commit_and_settle<R: Wait + Abort>(
    rt: &R,
    alloc: Global,
    opened: Opened,
    branches: &[Branch; 2],
) -> Told
    requires { ComeFromOpenings (seat_of_desk opened.desk ∷ []) (map seat_of_worker opened.workers) }
    ensures votes { AreLeftOrDecided result.settled result.thread branches.now
        (sent_so_far result.made.before.value.ledgers) (sent_so_far result.made.after.value.ledgers)
        → KeepsTheVotes result.settled result.thread branches.now (sent_so_far result.made.before.value.ledgers)
        result.made.done }
    ensures fates { AreLeftOrDecided result.settled result.thread branches.now
        (sent_so_far result.made.before.value.ledgers) (sent_so_far result.made.after.value.ledgers)
        → TellsTheFates result.settled result.thread branches.now (sent_so_far result.made.before.value.ledgers)
        result.made.done }
{
    growth_goes_on();
    let Opened {
        mut desk,
        mut workers,
    } = opened;
    let thread = desk.thread();
    let mut log = MemoryLog::new(alloc);
    work(rt, &mut desk, &branches[0], &mut workers);
    work(rt, &mut desk, &branches[1], &mut workers);
    let made = make(rt, alloc, &mut desk, &mut log, branches, &mut workers);
    close(rt, &mut desk, &mut workers);
    let ended = end(rt, desk, &mut workers);
    let Ok(desks) = Vec::from_array(alloc, [ended]) else {
        panic!(rt; "memory");
    };
    let done = run_all(rt, alloc, workers);
    let settled = settle_all(rt, alloc, desks, done);
    commit_in_a_settled_opening(
        &settled,
        thread,
        branches,
        &made.before,
        &made.after,
        &made.log_before,
        &made.log_after,
        &made.done,
    );
    Told {
        settled,
        thread,
        made,
    }
}

#[test]
fn a_commit_tells_what_became_of_its_branches(rt: HostRuntime) {
    let alloc = rt.alloc();
    let plan = Plan {
        threads: 1,
        ..plan_of(&rt, alloc, 2)
    };
    let opened = open(&rt, alloc, &plan);
    let branches = [branch(&rt, 1), branch(&rt, 2)];
    let told = commit_and_settle(&rt, alloc, opened, &branches);
    let endings = [Ending::Committed, Ending::Committed];
    assert!(rt; told.thread == 1);
    assert!(rt; told.made.done.endings.as_slice() == endings.as_slice());
    assert!(rt; told.settled.value(1, &key(&rt)) == Some(6));
    assert!(rt; told.settled.value(2, &key(&rt)) == Some(6));
}
