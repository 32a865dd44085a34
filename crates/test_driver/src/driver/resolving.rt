//! The order in which a resolve asks: by rising manager, and each answer is waited for before the next request. And
//! that it goes by the logs of several coordinators, read as one.
ghost use Rattle.std.specs.Prelude.{◌≡◌, ◌∷◌, [], map};
ghost use Rattle.xa_switch.specs.Belonging.{ComeFromOpenings, seat_of_desk, seat_of_worker};

use super::dying::{Dies, die};
use super::openings::{Reopened, again, open, open_again, settle_all};
use super::pieces::{end, run_all, work};
use super::resolved::recover;
use super::{Opened, branch, key, plan_of};
use std::alloc::Global;
use std::process::Abort;
use std::sync::Wait;
use xa_calls::xa_call;
use xa_crew::Turns;
use xa_desk::{Desk, Idle};
use xa_driver::{Branch, Outcome, Resolved, may_resolve, resolve};
use xa_log::MemoryLog;
use xa_switch::{Plan, Settled};
use xa_words::{Call, Code, Death, TMNOFLAGS, Xid};

// It notes whom each idle waits for. Then the worker that is waited for does one step, which carries out a request.
#[derive(Drop)]
struct Noting {
    workers: Turns,
    waited: Vec<u32>,
}

impl Idle for Noting {
    ghost leads_by = { λ manager before after. Unit {0} };

    ghost leads = { λ before after. Unit {0} };

    ghost leads_each = { λ manager x y p. tt };

    ghost leads_start = { λ x. tt };

    ghost leads_chain = { λ x y z p q. tt };

    fn idle<R: Wait>(&mut self, rt: &R, manager: u32) {
        let _ = self.waited.push(manager);
        self.workers.idle(rt, manager);
    }
}

// The branch's work is done, and it is prepared.
fn prepare<R: Wait + Abort>(rt: &R, desk: &mut Desk, branch: &Branch, idle: &mut Turns)
    ensures seat { seat_of_desk desk.new ≡ seat_of_desk desk.old }
    ensures idled { map seat_of_worker idle.new ≡ map seat_of_worker idle.old }
{
    work(rt, desk, branch, idle);
    let xid = Some(branch.xid);
    let answer = xa_call(rt, desk, Call::Prepare, xid, branch.m, TMNOFLAGS, idle);
    assert!(rt; answer == 0);
}

// Ends both threads of an opening, which is settled.
pub(super) fn end_both<R: Wait + Abort>(
    rt: &R,
    alloc: Global,
    first: Desk,
    second: Desk,
    workers: Turns,
) -> Settled
    requires { ComeFromOpenings (seat_of_desk first ∷ seat_of_desk second ∷ [])
        (map seat_of_worker workers) }
{
    let mut workers = workers;
    let first_ended = end(rt, first, &mut workers);
    let second_ended = end(rt, second, &mut workers);
    let Ok(desks) = Vec::from_array(alloc, [first_ended, second_ended]) else {
        panic!(rt; "memory");
    };
    let done = run_all(rt, alloc, workers);
    settle_all(rt, alloc, desks, done)
}

// An opening that ends with both branches prepared.
fn leave<R: Wait + Abort>(rt: &R, alloc: Global, opened: Opened, branches: &[Branch; 2]) -> Settled
    requires { ComeFromOpenings (seat_of_desk opened.first ∷ seat_of_desk opened.second ∷ [])
        (map seat_of_worker opened.workers) }
{
    let Opened {
        mut first,
        second,
        mut workers,
    } = opened;
    prepare(rt, &mut first, &branches[0], &mut workers);
    prepare(rt, &mut first, &branches[1], &mut workers);
    end_both(rt, alloc, first, second, workers)
}

// To each of the two managers it puts an xa_open and an end of the branch there.
#[test]
fn managers_are_resolved_one_after_the_other(rt: HostRuntime) {
    let alloc = rt.alloc();
    let plan = Plan {
        queue: 4,
        ..plan_of(&rt, alloc, 2)
    };
    let branches = [branch(&rt, 1), branch(&rt, 2)];
    let opened = open(&rt, alloc, &plan);
    let settled = leave(&rt, alloc, opened, &branches);
    let reopened = open_again(&rt, alloc, settled, &again(8));
    let (told, waited) = resolve_noting(&rt, alloc, reopened);
    assert!(rt; told.outcomes.len() == 2);
    assert!(rt; waited.as_slice() == [1, 1, 2, 2].as_slice());
}

// What a resolve by a log without a record tells, and whom it waited for.
fn resolve_noting<R: Wait + Abort>(
    rt: &R,
    alloc: Global,
    reopened: Reopened,
) -> (Resolved, Vec<u32>) {
    let Reopened {
        mut desk,
        workers,
        scan,
    } = reopened;
    let mut idle = Noting {
        workers,
        waited: Vec::new(alloc),
    };
    let log = MemoryLog::new(alloc);
    if !may_resolve(&desk, &scan, &log) {
        panic!(rt; "there is no room to resolve what is left");
    }
    match resolve(rt, alloc, &mut desk, &scan, &log, &mut idle) {
        Ok(told) => (told, idle.waited),
        Err(_) => panic!(rt; "memory"),
    }
}

// A branch of the first thread's transaction at manager 1, and one of the second thread's at manager 2.
fn branch_of_each(rt: &impl Abort) -> [Branch; 2] {
    let xid = Xid::new(1, b"u", b"2").expect(rt, "an xid");
    [branch(rt, 1), Branch { m: 2, xid }]
}

// An opening in which each thread works for a branch of its own, with a log of its own, and dies as it commits it: once
// it has recorded that, or before.
fn die_both<R: Wait + Abort>(
    rt: &R,
    alloc: Global,
    opened: Opened,
    branches: &[Branch; 2],
    logs: (&mut MemoryLog, &mut MemoryLog),
    deaths: [Dies; 2],
) -> Settled
    requires { ComeFromOpenings (seat_of_desk opened.first ∷ seat_of_desk opened.second ∷ [])
        (map seat_of_worker opened.workers) }
{
    let Opened {
        mut first,
        mut second,
        mut workers,
    } = opened;
    let [one, other] = *branches;
    work(rt, &mut first, &one, &mut workers);
    work(rt, &mut second, &other, &mut workers);
    die(
        rt,
        alloc,
        &mut first,
        logs.0,
        &[one],
        deaths[0],
        &mut workers,
    );
    die(
        rt,
        alloc,
        &mut second,
        logs.1,
        &[other],
        deaths[1],
        &mut workers,
    );
    end_both(rt, alloc, first, second, workers)
}

// Where a coordinator dies, so that its log has the record, or doesn't.
fn death(recorded: bool) -> Dies {
    Dies::At(if recorded {
        Death::Decided
    } else {
        Death::Prepared
    })
}

// Both branches were ended, each as its coordinator's log has it.
fn are_ended(rt: &impl Abort, told: &Resolved, recorded: [bool; 2]) {
    let branches = branch_of_each(rt);
    let outcome = |branch: Branch, commit: bool| Outcome {
        m: branch.m,
        xid: branch.xid,
        commit,
        code: Code::Done,
    };
    let outcomes = [
        outcome(branches[0], recorded[0]),
        outcome(branches[1], recorded[1]),
    ];
    assert!(rt; told.outcomes.as_slice() == outcomes.as_slice());
}

// What two threads left in doubt is resolved by the logs of both, which have these records; and then the values are
// these.
fn resolves_by_both<R: Wait + Abort>(rt: &R, alloc: Global, recorded: [bool; 2], values: [u64; 2]) {
    let plan = Plan {
        queue: 4,
        ..plan_of(rt, alloc, 2)
    };
    let deaths = [death(recorded[0]), death(recorded[1])];
    let branches = branch_of_each(rt);
    let (mut first, mut second) = (MemoryLog::new(alloc), MemoryLog::new(alloc));
    let logs = (&mut first, &mut second);
    let settled = die_both(rt, alloc, open(rt, alloc, &plan), &branches, logs, deaths);
    let logs = [&first, &second];
    let recovered = recover(rt, alloc, settled, &again(8), &logs.as_slice());
    are_ended(rt, &recovered.ended.told, recorded);
    assert!(rt; recovered.settled.value(1, &key(rt)) == Some(values[0]));
    assert!(rt; recovered.settled.value(2, &key(rt)) == Some(values[1]));
}

#[test]
fn what_two_coordinators_left_is_resolved_by_both_logs(rt: HostRuntime) {
    let alloc = rt.alloc();
    resolves_by_both(&rt, alloc, [true, true], [6, 6]);
    resolves_by_both(&rt, alloc, [true, false], [6, 5]);
    resolves_by_both(&rt, alloc, [false, true], [5, 6]);
    resolves_by_both(&rt, alloc, [false, false], [5, 5]);
}
