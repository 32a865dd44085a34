//! Openings that are run and settled.
//!
//! The contracts of the helpers show that a caller can know what settling asks: that desks and workers
//! come from their openings.
ghost use Rattle.std.specs.Prelude.{◌≡◌, map};
ghost use Rattle.xa_switch.specs.Settled.{IsSettled};
ghost use Rattle.xa_switch.specs.Belonging.{ComeFromOpenings, seat_of_desk, desk_seats, worker_seats};

mod reopening;
mod turns;

use super::key;
use std::alloc::Global;
use std::process::Abort;
use std::sync::Wait;
use test_support::{end, open, run_all};
use xa_calls::{native, xa_call, xa_complete};
use xa_desk::{Desk, EndedDesk, Idle, Spin};
use xa_switch::laws::opened_pieces_come_from_their_opening;
use xa_switch::{Plan, Settled, Why, settle};
use xa_words::{Call, Code, Op, Request, RmOp, TMNOFLAGS, Xid};
use xa_worker::DoneWorker;

// ---- what a thread does

// What a thread asks for.
#[derive(Clone, Copy)]
enum Asks {
    Xa(Call, Option<Xid>, u32),
    Native(RmOp),
    // Waits for the operation under this handle. The answer is its code.
    Complete(i32),
}

// A call at a manager, and what it is to answer.
#[derive(Clone, Copy)]
struct Act {
    manager: u32,
    asks: Asks,
    answer: i32,
}

// A call of XA at the manager.
fn calls(manager: u32, call: Call, xid: Option<Xid>, flags: u32, answer: i32) -> Act {
    Act {
        manager,
        asks: Asks::Xa(call, xid, flags),
        answer,
    }
}

// A call outside XA at the manager.
fn natively(manager: u32, op: RmOp, answer: i32) -> Act {
    Act {
        manager,
        asks: Asks::Native(op),
        answer,
    }
}

// The operation under the handle is completed with this code.
fn completes(manager: u32, handle: i32, code: Code) -> Act {
    Act {
        manager,
        asks: Asks::Complete(handle),
        answer: code.value(),
    }
}

fn ask<R: Wait, I: Idle>(rt: &R, desk: &mut Desk, manager: u32, asks: Asks, idle: &mut I) -> i32
    ensures seat { seat_of_desk desk.new ≡ seat_of_desk desk.old }
    ensures idled { I.leads idle.old idle.new }
{
    match asks {
        Asks::Xa(call, xid, flags) => xa_call(rt, desk, call, xid, manager, flags, idle),
        Asks::Native(op) => native(rt, desk, op, manager, TMNOFLAGS, idle),
        Asks::Complete(number) => {
            let (mut handle, mut retval) = (number, 55);
            let answer = xa_complete(rt, desk, &mut handle, &mut retval, manager, TMNOFLAGS, idle);
            if answer == 0 { retval } else { answer }
        }
    }
}

// Each call answers what it is to answer.
fn play<R: Wait + Abort, I: Idle>(rt: &R, desk: &mut Desk, acts: &[Act], idle: &mut I)
    ensures seat { seat_of_desk desk.new ≡ seat_of_desk desk.old }
    ensures idled { I.leads idle.old idle.new }
{
    for act in acts {
        let answer = ask(rt, desk, act.manager, act.asks, idle);
        assert!(rt;
            answer == act.answer,
            "manager {} answers {answer}",
            act.manager
        );
    }
}

// ---- how an opening ends

// Ends desks with which nothing is outstanding.
fn end_all<R: Wait + Abort>(rt: &R, alloc: Global, desks: Vec<Desk>) -> Vec<EndedDesk>
    ensures { desk_seats result.items ≡ map seat_of_desk desks.items }
{
    let mut ended = Vec::new(alloc);
    for desk in desks {
        let one = end(rt, desk, &mut Spin::new()).expect(rt, "nothing outstanding");
        ended.push(one).expect(rt, "memory");
    }
    ended
}

// Settles. Where a growth was refused, all has come back, and it settles with the memory that there is
// then.
fn settle_all<R: Wait + Abort>(
    rt: &R,
    alloc: Global,
    desks: Vec<EndedDesk>,
    workers: Vec<DoneWorker>,
) -> Settled
    requires { ComeFromOpenings (desk_seats desks.items) (worker_seats workers.items) }
    ensures { IsSettled result }
{
    let refused = match settle(rt, alloc, desks, workers) {
        Ok(settled) => return settled,
        Err(refused) => refused,
    };
    assert!(rt; refused.why == Why::NoMemory);
    match settle(rt, alloc, refused.desks, refused.workers) {
        Ok(settled) => settled,
        Err(_) => panic!(rt; "it is not settled"),
    }
}

// Opens a switch, ends its desks, runs its workers, and settles it, all in this thread.
fn open_and_settle<R: Wait + Abort>(rt: &R, alloc: Global, plan: &Plan) -> Settled
    ensures { IsSettled result }
{
    opened_pieces_come_from_their_opening();
    let Some((desks, turns)) = open(rt, alloc, plan) else {
        panic!(rt; "it is not opened");
    };
    let ended = end_all(rt, alloc, desks);
    let Some(done) = run_all(rt, alloc, turns) else {
        panic!(rt; "memory");
    };
    settle_all(rt, alloc, ended, done)
}

// ---- what is opened, and what is settled

// A plan of so many threads and managers, each manager with the keys `a` of value 100 and `b` of value 7.
fn plan_of(rt: &impl Abort, alloc: Global, opening: u64, threads: u32, managers: u32) -> Plan
    ensures { result.opening ≡ opening }
{
    let accounts = [(key(rt, b"a"), 100), (key(rt, b"b"), 7)];
    Plan {
        opening,
        threads,
        handles: 3,
        requests: 8,
        ..test_support::plan_of(alloc, managers, &accounts).expect(rt, "memory")
    }
}

fn xid(rt: &impl Abort, gtrid: &[u8]) -> Xid {
    Xid::new(1, gtrid, b"1").expect(rt, "an xid")
}

fn entry(thread: u32, number: u32, op: Op, code: Code) -> (Request, Code) {
    let request = Request { thread, number, op };
    (request, code)
}

// Nothing was sent to the manager, and it has these values of its keys, if it is there.
fn is_idle(rt: &impl Abort, settled: &Settled, manager: u32, a: Option<u64>, b: Option<u64>) {
    for thread in 0..5 {
        assert!(rt; settled.sent(thread, manager).is_empty());
        assert!(rt; settled.collected(thread, manager).is_empty());
    }
    assert!(rt; settled.journal(manager).is_empty());
    assert!(rt; settled.value(manager, &key(rt, b"a")) == a);
    assert!(rt; settled.value(manager, &key(rt, b"b")) == b);
    assert!(rt; settled.value(manager, &key(rt, b"c")).is_none());
}

#[test]
fn an_idle_opening_has_what_it_was_opened_with(rt: HostRuntime) {
    let plan = plan_of(&rt, rt.alloc(), 7, 3, 2);
    let settled = open_and_settle(&rt, rt.alloc(), &plan);
    for manager in [0, 3] {
        is_idle(&rt, &settled, manager, None, None);
    }
    for manager in [1, 2] {
        is_idle(&rt, &settled, manager, Some(100), Some(7));
    }
}
