//! The work for a transaction by asynchronous calls, all of its requests in flight.
ghost use Rattle.std.specs.Prelude.{◌≡◌, ◌↔◌, ◌≤◌, ◌+◌, ◌++◌, [], List, IsTrue, length, vec_capacity};
ghost use Rattle.xa_desk.specs.GoingOn.{GoesOn};
ghost use Rattle.xa_desk.specs.Kept.{AllKept};
ghost use Rattle.xa_work.specs.Requests.{CollectsOp, QueueIsFull, PutsAtLast, op_of_step};
ghost use Rattle.xa_work.specs.Units.{AreFew};
ghost use Rattle.xa_work.specs.Works.{CollectsAll, PutsRequests, TriesInFlight, ops_of, requests_at};
ghost use Rattle.xa_work.specs.Works.{requests_of_branches, steps_in};

use crate::step::{WorkStep, take_step};
use crate::unit::Change;
use std::sync::Wait;
use xa_base::MOST_REQUESTS;
use xa_calls::xa_complete;
use xa_crew::laws::idles_go_on;
use xa_desk::laws::desks_go_on;
use xa_desk::{Desk, Idle};
use xa_driver::Branch;
use xa_words::{Code, TMNOFLAGS};

/// What was put to a manager: the handle, or the code by which it was refused.
#[derive(Clone, Copy)]
pub(crate) struct Flight {
    manager: u32,
    handle: i32,
}

// Whether what was answered so by the manager is put again, after an idle: it was refused for a full queue. A manager
// that takes no asynchronous call, and want of a handle, are answered by the same code, and stay.
fn is_full(desk: &Desk, manager: u32, answer: i32) -> bool
    ensures { IsTrue result ↔ QueueIsFull manager answer desk.now }
{
    answer == Code::Async.value() && desk.carries_async(manager) && desk.free() > 0
}

// Puts a step to the branch's manager: its handle, or why it was refused. It waits for a place in the manager's queue.
fn put<R: Wait, I: Idle>(
    rt: &R,
    desk: &mut Desk,
    branch: &Branch,
    step: &WorkStep,
    idle: &mut I,
) -> Flight
    ensures goes_on { GoesOn desk.old desk.new }
    ensures kept { AllKept desk.old → AllKept desk.new }
    ensures idled { I.leads idle.old idle.new }
    ensures manager { result.manager ≡ branch.now.m }
    ensures puts { PutsAtLast branch.now.m (op_of_step branch.now.xid step.now) result.handle desk.old desk.new }
{
    desks_go_on();
    idles_go_on::<I>();
    let manager = branch.m;
    for _ in rt.forever() {
        let handle = take_step(rt, desk, branch, step, true, idle);
        if !is_full(desk, manager, handle) {
            return Flight { manager, handle };
        }
        idle.idle(rt, manager);
    }
    unreachable!()
}

// Puts the steps of a branch's work to its manager, all in flight, where there is room for them.
fn put_branch<R: Wait, I: Idle>(
    rt: &R,
    desk: &mut Desk,
    branch: &Branch,
    changes: &[Change],
    flights: &mut Vec<Flight>,
    idle: &mut I,
)
    requires { length flights.old.items + length (ops_of changes.now branch.now) ≤ vec_capacity flights.old }
    ensures goes_on { GoesOn desk.old desk.new }
    ensures kept { AllKept desk.old → AllKept desk.new }
    ensures idled { I.leads idle.old idle.new }
    ensures puts { (more : List Flight) × (flights.new.items ≡ flights.old.items ++ more)
        × PutsRequests (requests_at changes.now branch.now) more desk.old desk.new }
    ensures room { vec_capacity flights.new ≡ vec_capacity flights.old }
{
    desks_go_on();
    idles_go_on::<I>();
    flights.push_reserved(put(rt, desk, branch, &WorkStep::Start, idle));
    for change in changes {
        if change.m == branch.m {
            let step = WorkStep::Add(change.key, change.delta);
            flights.push_reserved(put(rt, desk, branch, &step, idle));
        }
    }
    flights.push_reserved(put(rt, desk, branch, &WorkStep::End, idle));
}

// Collects what the handle stands for: whether it is one, and XA_OK was answered.
fn collect<R: Wait, I: Idle>(rt: &R, desk: &mut Desk, flight: &Flight, idle: &mut I) -> bool
    ensures goes_on { GoesOn desk.old desk.new }
    ensures kept { AllKept desk.old → AllKept desk.new }
    ensures idled { I.leads idle.old idle.new }
    ensures collects { CollectsOp flight.now.manager flight.now.handle result desk.old desk.new }
{
    idles_go_on::<I>();
    let Flight {
        manager,
        mut handle,
    } = *flight;
    if handle <= 0 {
        return false;
    }
    let mut retval = Code::Retry.value();
    let answer = xa_complete(rt, desk, &mut handle, &mut retval, manager, TMNOFLAGS, idle);
    answer == 0 && retval == 0
}

// Collects all, one after the other: whether each answered XA_OK.
fn collect_all<R: Wait, I: Idle>(rt: &R, desk: &mut Desk, flights: &[Flight], idle: &mut I) -> bool
    ensures goes_on { GoesOn desk.old desk.new }
    ensures kept { AllKept desk.old → AllKept desk.new }
    ensures idled { I.leads idle.old idle.new }
    ensures collects { CollectsAll flights.now result desk.old desk.new }
{
    desks_go_on();
    idles_go_on::<I>();
    let mut all = true;
    for flight in flights {
        all &= collect(rt, desk, flight, idle);
    }
    all
}

/// How many steps the work of the branches has: two for each, and the changes at its manager.
pub(crate) fn count_steps(branches: &[Branch], changes: &[Change]) -> usize
    requires { AreFew branches.now changes.now }
    ensures { result ≡ length (requests_of_branches changes.now branches.now) }
{
    let mut count = 0;
    for branch in branches {
        count += steps_at(changes, branch.m);
    }
    count
}

/// How many steps the work of a branch at this manager has.
pub(crate) fn steps_at(changes: &[Change], manager: u32) -> usize
    requires { length changes.now ≤ MOST_REQUESTS }
    ensures steps { result ≡ steps_in changes.now manager }
    ensures few { result ≤ MOST_REQUESTS + 2 }
{
    let mut count = 2;
    for change in changes {
        if change.m == manager {
            count += 1;
        }
    }
    count
}

/// Does the work of the branches, with all requests in flight together, where there is room for their handles. It tells
/// whether all answered XA_OK.
pub(crate) fn work_in_flight<R: Wait, I: Idle>(
    rt: &R,
    desk: &mut Desk,
    branches: &[Branch],
    changes: &[Change],
    mut flights: Vec<Flight>,
    idle: &mut I,
) -> bool
    requires none { flights.items ≡ [] }
    requires room { length (requests_of_branches changes.now branches.now) ≤ vec_capacity flights }
    ensures goes_on { GoesOn desk.old desk.new }
    ensures kept { AllKept desk.old → AllKept desk.new }
    ensures idled { I.leads idle.old idle.new }
    ensures tries { TriesInFlight changes.now branches.now result desk.old desk.new }
{
    desks_go_on();
    idles_go_on::<I>();
    for branch in branches {
        put_branch(rt, desk, branch, changes, &mut flights, idle);
    }
    collect_all(rt, desk, &flights, idle)
}
