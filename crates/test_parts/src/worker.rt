//! A worker in one thread, step by step.
ghost use Rattle.std.specs.Prelude.{◌≤◌};

mod opened;
mod stored;

use opened::opened;
use std::alloc::Global;
use std::process::Abort;
use std::sync::Wait;
use xa_base::MOST_JOURNALED;
use xa_lane::{Receiver, Sender, Taken};
use xa_store::NoStore;
use xa_words::{Code, Completion, Op, Request};
use xa_worker::{Pace, Worker, WorkerStep};

// Counts what it is called before.
#[derive(Drop)]
struct Counting {
    requests: u32,
}

impl Pace for Counting {
    ghost told = { λ request before after. Unit {0} };

    fn before<R: Wait>(&mut self, _rt: &R, _request: &Request) {
        self.requests = self.requests.saturating_add(1);
    }
}

// Sends a thread's requests, numbered from 0.
fn ask<R: Wait + Abort>(rt: &R, sender: &mut Sender<Request>, thread: u32, ops: &[Op]) {
    let mut number: u32 = 0;
    for op in ops {
        let request = Request {
            thread,
            number,
            op: *op,
        };
        assert!(rt; sender.offer(rt, request).is_ok(), "request {number}");
        number = number.saturating_add(1);
    }
}

// The next steps of the worker are these.
fn step_by<R: Wait + Abort>(
    rt: &R,
    worker: &mut Worker,
    pace: &mut Counting,
    steps: &[WorkerStep],
) {
    for (i, step) in steps.iter().enumerate() {
        assert!(rt; worker.step(rt, pace, &mut NoStore) == *step, "step {i}");
    }
}

// The next completion is that of manager 1 to this request.
fn collect<R: Wait + Abort>(rt: &R, answers: &mut Receiver<Completion>, number: u32, code: Code) {
    let Taken::Item(0, completion) = answers.take(rt) else {
        panic!(rt; "no completion {number}");
    };
    let sent = Completion {
        manager: 1,
        number,
        code,
    };
    assert!(rt; completion == sent);
}

// A worker of one thread, that thread's sender of requests, and its receiver of completions.
fn opened_for_one<R: Wait + Abort>(
    rt: &R,
    alloc: Global,
    room: u32,
    places: usize,
) -> (Worker, Sender<Request>, Receiver<Completion>)
    requires { (1 ≤ room) × (room ≤ MOST_JOURNALED) }
{
    let (worker, mut asks, mut answers) = opened(rt, alloc, &[], 1, room, places).expect(
        rt, "memory",
    );
    let sender = asks.pop().expect(rt, "a sender");
    let answers = answers.pop().expect(rt, "a receiver");
    (worker, sender, answers)
}

// A worker of two threads, their senders of requests, and their receivers of completions.
fn opened_for_two<R: Wait + Abort>(
    rt: &R,
    alloc: Global,
    room: u32,
    places: usize,
) -> (
    Worker,
    Sender<Request>,
    Sender<Request>,
    Vec<Receiver<Completion>>,
)
    requires { (1 ≤ room) × (room ≤ MOST_JOURNALED) }
{
    let (worker, mut asks, answers) = opened(rt, alloc, &[], 2, room, places).expect(rt, "memory");
    let second = asks.pop().expect(rt, "a sender");
    let first = asks.pop().expect(rt, "a sender");
    (worker, first, second, answers)
}

// The next completion is that of this number, which was carried out; with its place free, the next steps are these.
fn collect_and_step<R: Wait + Abort>(
    rt: &R,
    answers: &mut Receiver<Completion>,
    number: u32,
    worker: &mut Worker,
    pace: &mut Counting,
    steps: &[WorkerStep],
) {
    collect(rt, answers, number, Code::Done);
    step_by(rt, worker, pace, steps);
}

/// A completion that finds its lane full blocks the worker until there is a place. A Shut is carried
/// out, and the request after it is late.
#[test]
fn each_answer_of_a_step(rt: HostRuntime) {
    let (mut worker, mut sender, mut answers) = opened_for_one(&rt, rt.alloc(), 8, 1);
    let mut pace = Counting { requests: 0 };
    assert!(rt; worker.manager() == 1);
    step_by(&rt, &mut worker, &mut pace, &[WorkerStep::Empty]);
    let ops = [Op::OpenRm, Op::CloseRm, Op::Shut, Op::OpenRm];
    ask(&rt, &mut sender, 1, &ops);
    assert!(rt; sender.finish(&rt).is_ok());
    steps_while_full(&rt, &mut worker, &mut pace, &mut answers);
    collect(&rt, &mut answers, 3, Code::RmFail);
    let done = worker.run(&rt, &mut pace, &mut NoStore);
    assert!(rt; done.journal().len() == 4 && pace.requests == 4);
    assert!(rt; matches!(answers.take(&rt), Taken::EndOf(0)));
}

// Four requests, whose completions have one place; the last of them is late.
fn steps_while_full<R: Wait + Abort>(
    rt: &R,
    worker: &mut Worker,
    pace: &mut Counting,
    answers: &mut Receiver<Completion>,
) {
    let blocked = [
        WorkerStep::Did,
        WorkerStep::Did,
        WorkerStep::Blocked,
        WorkerStep::Blocked,
    ];
    step_by(rt, worker, pace, &blocked);
    assert!(rt; pace.requests == 2);
    collect_and_step(
        rt,
        answers,
        0,
        worker,
        pace,
        &[WorkerStep::Did, WorkerStep::Blocked],
    );
    collect_and_step(
        rt,
        answers,
        1,
        worker,
        pace,
        &[WorkerStep::Late, WorkerStep::Blocked],
    );
    assert!(rt; pace.requests == 4);
    collect_and_step(
        rt,
        answers,
        2,
        worker,
        pace,
        &[WorkerStep::EndSeen, WorkerStep::Empty],
    );
}

/// It is held whatever is done, and what stands after it, also of another thread, is never taken.
#[test]
fn a_request_of_another_thread_is_held(rt: HostRuntime) {
    let (mut worker, mut first, mut second, mut answers) = opened_for_two(&rt, rt.alloc(), 8, 4);
    let mut pace = Counting { requests: 0 };
    ask(&rt, &mut first, 2, &[Op::OpenRm]);
    step_by(&rt, &mut worker, &mut pace, &[WorkerStep::Blocked]);
    ask(&rt, &mut first, 1, &[Op::OpenRm]);
    ask(&rt, &mut second, 2, &[Op::OpenRm]);
    step_by(&rt, &mut worker, &mut pace, &[WorkerStep::Blocked; 3]);
    for lane in &mut answers {
        assert!(rt; matches!(lane.take(&rt), Taken::Empty));
    }
    assert!(rt; pace.requests == 0);
}

/// The completion before it is sent all the same.
#[test]
fn a_request_without_room_is_held(rt: HostRuntime) {
    let (mut worker, mut sender, mut answers) = opened_for_one(&rt, rt.alloc(), 2, 1);
    let mut pace = Counting { requests: 0 };
    ask(&rt, &mut sender, 1, &[Op::OpenRm, Op::CloseRm, Op::OpenRm]);
    let steps = [WorkerStep::Did, WorkerStep::Did, WorkerStep::Blocked];
    step_by(&rt, &mut worker, &mut pace, &steps);
    let blocked = [WorkerStep::Blocked; 2];
    collect_and_step(&rt, &mut answers, 0, &mut worker, &mut pace, &blocked);
    collect_and_step(&rt, &mut answers, 1, &mut worker, &mut pace, &blocked[..1]);
    assert!(rt; matches!(answers.take(&rt), Taken::Empty));
    assert!(rt; pace.requests == 2);
}

/// With the end mark of only one of two threads it goes on.
#[test]
fn a_worker_without_requests_ends_with_the_last_mark(rt: HostRuntime) {
    let (mut worker, first, second, mut answers) = opened_for_two(&rt, rt.alloc(), 1, 1);
    let mut pace = Counting { requests: 0 };
    assert!(rt; second.finish(&rt).is_ok());
    step_by(
        &rt,
        &mut worker,
        &mut pace,
        &[WorkerStep::EndSeen, WorkerStep::Empty],
    );
    assert!(rt; first.finish(&rt).is_ok());
    let done = worker.run(&rt, &mut pace, &mut NoStore);
    assert!(rt; done.journal().is_empty());
    for lane in &mut answers {
        assert!(rt; matches!(lane.take(&rt), Taken::EndOf(0)));
    }
}
