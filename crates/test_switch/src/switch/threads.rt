//! A desk and its workers, in threads of their own, with one worker held.
ghost use Rattle.std.specs.Prelude.{◌≢◌};
ghost use Rattle.xa_desk.specs.DeskViews.{TicketView, Owns};
ghost use Rattle.xa_desk.specs.Tickets.{LeavesTickets};

use super::{one_desk, plan_of};
use std::process::Abort;
use std::sync::Wait;
use std::sync::atomic::{AtomicBool, Ordering};
use std::thread::{Threads, join};
use test_support::{comes, end, one, two};
use xa_calls::{xa_call, xa_complete};
use xa_desk::{Desk, EndedDesk, Spin, Ticket};
use xa_store::NoStore;
use xa_words::{Call, Code, Op, Request, TMASYNC, TMNOFLAGS, TMNOWAIT};
use xa_worker::{DoneWorker, Free, Pace, Worker};

// What a worker is held at.
#[derive(Drop)]
struct Gate {
    reached: AtomicBool,
    opened: AtomicBool,
    // Whether the worker went on before the gate was opened.
    was_left: AtomicBool,
}

impl Gate {
    fn new() -> Gate {
        Gate {
            reached: AtomicBool::new(false),
            opened: AtomicBool::new(false),
            was_left: AtomicBool::new(false),
        }
    }
}

// Holds the worker before each request until the gate is opened.
#[derive(Drop)]
struct Held<'a> {
    gate: &'a Gate,
}

impl Pace for Held<'_> {
    ghost told = { λ request before after. Unit {0} };

    fn before<R: Wait>(&mut self, _rt: &R, _request: &Request) {
        self.gate.reached.store(true, Ordering::SeqCst);
        if !comes(&self.gate.opened) {
            self.gate.was_left.store(true, Ordering::SeqCst);
        }
    }
}

// The request's answer, where it was sent.
fn submitted<R: Wait + Abort>(rt: &R, desk: &mut Desk, manager: u32) -> Ticket
    ensures owned { Owns desk.new result }
    ensures tickets { LeavesTickets desk.old desk.new }
    ensures fresh { (older : TicketView) → Owns desk.old older → older.operation ≢ result.operation }
{
    match desk.submit(rt, manager, &Op::OpenRm) {
        Ok(ticket) => ticket,
        Err(_) => panic!(rt; "manager {manager} is asked"),
    }
}

// Has an operation of manager 2 completed while the worker of manager 1 is held.
fn pass_by<R: Wait + Abort>(rt: &R, mut desk: Desk, gate: &Gate) -> EndedDesk {
    let mut spin = Spin::new();
    let first = submitted(rt, &mut desk, 1);
    let second = submitted(rt, &mut desk, 2);
    assert!(rt; comes(&gate.reached), "the worker of manager 1 is not held");
    let passed = desk.complete(rt, second, &mut spin);
    assert!(rt; passed == Code::Done);
    gate.opened.store(true, Ordering::SeqCst);
    let held = desk.complete(rt, first, &mut spin);
    assert!(rt; held == Code::Done);
    end(rt, desk, &mut spin).expect(rt, "nothing outstanding")
}

// Both workers run, each in a thread, the first of them held at the gate.
fn run_both<R: Threads + Wait + Sync>(
    rt: &R,
    gate: &Gate,
    first: Worker,
    second: Worker,
) -> (DoneWorker, DoneWorker) {
    join(
        rt,
        || first.run(rt, &mut Held { gate }, &mut NoStore),
        || second.run(rt, &mut Free, &mut NoStore),
    )
}

// The manager carried out one request, which was collected.
fn did_one(rt: &impl Abort, manager: u32, ended: &EndedDesk, done: &DoneWorker) {
    assert!(rt; ended.collected(manager) == [(0, Code::Done)].as_slice());
    assert!(rt; done.journal().len() == 1);
}

#[test]
fn a_held_manager_holds_up_no_other(rt: HostRuntime) {
    let plan = plan_of(&rt, rt.alloc(), 1, 2);
    let (desk, workers) = one_desk(&rt, rt.alloc(), &plan);
    let (first, second) = two(workers).expect(&rt, "two workers");
    let gate = Gate::new();
    let (ended, (first, second)) = join(
        &rt,
        || pass_by(&rt, desk, &gate),
        || run_both(&rt, &gate, first, second),
    );
    assert!(rt;
        !gate.was_left.load(Ordering::SeqCst),
        "manager 1 was let go"
    );
    did_one(&rt, 1, &ended, &first);
    did_one(&rt, 2, &ended, &second);
}

// What a thread is answered that completes the operation, the handle, and the code.
fn complete<R: Wait>(rt: &R, desk: &mut Desk, number: i32, flags: u32) -> (i32, i32, i32) {
    let (mut handle, mut retval) = (number, 55);
    let spin = &mut Spin::new();
    let answer = xa_complete(rt, desk, &mut handle, &mut retval, 1, flags, spin);
    (answer, handle, retval)
}

// Gets two handles of a manager whose worker is held, and completes both once it is let go.
fn complete_both<R: Wait + Abort>(rt: &R, mut desk: Desk, gate: &Gate) -> EndedDesk {
    let spin = &mut Spin::new();
    for expected in [1, 2] {
        let handle = xa_call(rt, &mut desk, Call::OpenRm, None, 1, TMASYNC, spin);
        assert!(rt; handle == expected);
    }
    assert!(rt; comes(&gate.reached), "the worker is not held");
    for handle in [1, 2] {
        let answered = complete(rt, &mut desk, handle, TMNOWAIT);
        assert!(rt; answered == (Code::Retry.value(), handle, 55));
    }
    gate.opened.store(true, Ordering::SeqCst);
    for handle in [1, 2] {
        let answered = complete(rt, &mut desk, handle, TMNOFLAGS);
        assert!(rt; answered == (0, handle, 0));
    }
    end(rt, desk, spin).expect(rt, "nothing outstanding")
}

#[test]
fn handles_of_a_held_manager_are_not_ready(rt: HostRuntime) {
    let plan = plan_of(&rt, rt.alloc(), 1, 1);
    let (desk, workers) = one_desk(&rt, rt.alloc(), &plan);
    let worker = one(workers).expect(&rt, "a worker");
    let gate = Gate::new();
    let (ended, done) = join(
        &rt,
        || complete_both(&rt, desk, &gate),
        || worker.run(&rt, &mut Held { gate: &gate }, &mut NoStore),
    );
    assert!(rt;
        !gate.was_left.load(Ordering::SeqCst),
        "the worker was let go"
    );
    assert!(rt; ended.collected(1) == [(0, Code::Done), (1, Code::Done)].as_slice());
    assert!(rt; done.journal().len() == 2);
}
