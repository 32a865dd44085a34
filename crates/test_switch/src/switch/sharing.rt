//! Two desks that share a manager's one queue, which has one place, in threads of their own.
use super::{opened, plan_of};
use std::process::Abort;
use std::sync::Wait;
use std::thread;
use std::thread::{Threads, join};
use test_support::{end, one, two};
use xa_calls::{xa_call, xa_complete};
use xa_desk::{Desk, EndedDesk, Spin};
use xa_store::NoStore;
use xa_switch::Plan;
use xa_words::{Call, Code, Request, TMASYNC, TMMULTIPLE, TMNOWAIT};
use xa_worker::{DoneWorker, Free, Worker};

// How many requests each desk sends.
const REQUESTS: u32 = 100;

// How often a desk tries at most.
const TURNS: u32 = 10_000_000;

// Collects what is there. False where nothing is outstanding.
fn collects<R: Wait + Abort>(rt: &R, desk: &mut Desk) -> bool {
    let (mut handle, mut retval) = (0, 55);
    let flags = TMMULTIPLE | TMNOWAIT;
    let spin = &mut Spin::new();
    let answer = xa_complete(rt, desk, &mut handle, &mut retval, 1, flags, spin);
    assert!(rt; answer != 0 || retval == 0);
    answer != Code::Proto.value()
}

// Sends a request. Where it is refused, no handle is free or the queue is full, maybe of the other desk's requests;
// then it collects what is there.
fn send<R: Wait + Abort>(rt: &R, desk: &mut Desk) {
    let answer = xa_call(rt, desk, Call::OpenRm, None, 1, TMASYNC, &mut Spin::new());
    if answer == Code::Async.value() {
        collects(rt, desk);
        thread::yield_now();
    } else {
        assert!(rt; answer > 0, "answered {answer}");
    }
}

// Sends all requests, and collects what is left.
fn ask<R: Wait + Abort>(rt: &R, desk: Desk) -> EndedDesk {
    let mut desk = desk;
    for _turn in 0..TURNS {
        if desk.room(1) == 0 {
            break;
        }
        send(rt, &mut desk);
    }
    assert!(rt; desk.room(1) == 0);
    for _turn in 0..TURNS {
        if !collects(rt, &mut desk) {
            break;
        }
        thread::yield_now();
    }
    end(rt, desk, &mut Spin::new()).expect(rt, "nothing outstanding")
}

// How many of these are of the thread, where they are numbered in their order.
fn count_of(journal: &[(Request, Code)], thread: u32) -> Option<u32> {
    let mut next: u32 = 0;
    for (request, code) in journal {
        if request.thread == thread {
            if request.number != next || *code != Code::Done {
                return None;
            }
            next = next.saturating_add(1);
        }
    }
    Some(next)
}

// The thread's requests were sent, collected and carried out, each once.
fn has_all(rt: &impl Abort, thread: u32, ended: &EndedDesk, done: &DoneWorker) {
    assert!(rt; ended.sent(1).len() == REQUESTS as usize);
    assert!(rt; ended.collected(1).len() == REQUESTS as usize);
    assert!(rt; count_of(done.journal(), thread) == Some(REQUESTS));
}

// Both threads ask, each in a thread, and the worker answers in one.
fn run_all<R: Threads + Wait + Abort + Sync>(
    rt: &R,
    first: Desk,
    second: Desk,
    worker: Worker,
) -> (EndedDesk, (EndedDesk, DoneWorker)) {
    join(
        rt,
        || ask(rt, first),
        || join(
            rt,
            || ask(rt, second),
            || worker.run(rt, &mut Free, &mut NoStore),
        ),
    )
}

#[test]
fn nothing_is_lost_in_a_queue_of_one_place(rt: HostRuntime) {
    let plan = Plan {
        queue: 1,
        requests: REQUESTS,
        ..plan_of(&rt, rt.alloc(), 2, 1)
    };
    let (desks, workers) = opened(&rt, rt.alloc(), &plan);
    let (first, second) = two(desks).expect(&rt, "two desks");
    let worker = one(workers).expect(&rt, "a worker");
    let (first, (second, done)) = run_all(&rt, first, second, worker);
    has_all(&rt, 1, &first, &done);
    has_all(&rt, 2, &second, &done);
    assert!(rt; done.journal().len() == 2 * REQUESTS as usize);
}
