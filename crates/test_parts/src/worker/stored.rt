//! A worker with a store, step by step: no answer runs ahead of a settle.
ghost use Rattle.std.specs.Prelude.{◌≤◌};

use super::opened::opened;
use super::{ask, collect};
use std::alloc::Global;
use std::process::Abort;
use std::sync::Wait;
use xa_lane::{Receiver, Sender, Taken};
use xa_store::Store;
use xa_store_memory::MemoryStore;
use xa_tables::Manager;
use xa_words::{Code, Completion, Delta, EndHow, Key, Op, Request, StartHow, Xid};
use xa_worker::{Free, Worker, WorkerStep};

// The requests that prepare one branch, which adds 1 to the key `a`.
const REQUESTS: usize = 5;

fn branch(rt: &impl Abort) -> Xid {
    Xid::new(1, b"x", b"1").expect(rt, "a short name")
}

fn key(rt: &impl Abort) -> Key {
    Key::new(b"a").expect(rt, "a short name")
}

fn prepares(rt: &impl Abort) -> [Op; REQUESTS] {
    let x = branch(rt);
    let one = Delta::new(1).expect(rt, "within the limit");
    [
        Op::OpenRm,
        Op::Start(x, StartHow::Fresh),
        Op::Add(key(rt), one),
        Op::End(x, EndHow::Success),
        Op::Prepare(x),
    ]
}

// A worker of one thread and a store for it that has room for so many requests between two settles. What prepares the
// branch stands in its lane.
fn opened_with_store<R: Wait + Abort>(
    rt: &R,
    alloc: Global,
    room: u32,
) -> (Worker, MemoryStore, Sender<Request>, Receiver<Completion>) {
    let accounts = [(key(rt), 5)];
    let twin = Manager::new(alloc, &accounts, 1, 16).expect(rt, "one account");
    let store = MemoryStore::new(alloc, twin, 1, room).expect(rt, "memory");
    let (worker, mut asks, mut answers) = opened(rt, alloc, &accounts, 1, 16, 8).expect(
        rt, "memory",
    );
    let mut sender = asks.pop().expect(rt, "a sender");
    let answers = answers.pop().expect(rt, "a receiver");
    ask(rt, &mut sender, 1, &prepares(rt));
    (worker, store, sender, answers)
}

// How many completions have come by now.
fn count<R: Wait>(rt: &R, answers: &mut Receiver<Completion>) -> usize {
    for taken in 0..REQUESTS {
        let Taken::Item(_, _) = answers.take(rt) else {
            return taken;
        };
    }
    REQUESTS
}

/// The answers of five requests wait until the lane is found empty, and then all of them come.
#[test]
fn answers_wait_for_one_settle(rt: HostRuntime) {
    let (mut worker, mut store, _sender, mut answers) = opened_with_store(&rt, rt.alloc(), 16);
    for _ in 0..REQUESTS {
        assert!(rt; worker.step(&rt, &mut Free, &mut store) == WorkerStep::Did);
        assert!(rt; store.owes() && matches!(answers.take(&rt), Taken::Empty));
    }
    assert!(rt; worker.step(&rt, &mut Free, &mut store) == WorkerStep::Empty);
    assert!(rt; !store.owes());
    for number in 0..REQUESTS {
        collect(&rt, &mut answers, number as u32, Code::Done);
    }
}

/// A store that has room for two requests is settled before the third is taken.
#[test]
fn a_full_store_is_settled(rt: HostRuntime) {
    let (mut worker, mut store, _sender, mut answers) = opened_with_store(&rt, rt.alloc(), 2);
    for came in [0, 0, 2, 0, 2, 1] {
        worker.step(&rt, &mut Free, &mut store);
        assert!(rt; count(&rt, &mut answers) == came, "{came}");
    }
}

/// Wherever a crash comes between two steps, an opening finds the branch prepared where its answer was sent, and else
/// nothing of it.
#[test]
fn a_crash_takes_no_answer_back(rt: HostRuntime) {
    for room in [1, 2, 3, 16] {
        for steps in 0..8 {
            let (mut worker, mut store, _sender, mut answers) = opened_with_store(
                &rt,
                rt.alloc(),
                room,
            );
            for _ in 0..steps {
                worker.step(&rt, &mut Free, &mut store);
            }
            let came = count(&rt, &mut answers);
            let found = store.after_crash(1, 16).expect(&rt, "memory");
            let left = found.left(rt.alloc()).expect(&rt, "memory");
            assert!(rt;
                left.len() == usize::from(came == REQUESTS),
                "{room} {steps}"
            );
            assert!(rt; found.value(&key(&rt)) == Some(5));
        }
    }
}

/// A worker that has run to the last end mark leaves a store that owes nothing.
#[test]
fn a_run_settles_at_its_end(rt: HostRuntime) {
    let (worker, mut store, sender, mut answers) = opened_with_store(&rt, rt.alloc(), 16);
    assert!(rt; sender.finish(&rt).is_ok());
    let done = worker.run(&rt, &mut Free, &mut store);
    assert!(rt; done.journal().len() == REQUESTS && !store.owes());
    assert!(rt; count(&rt, &mut answers) == REQUESTS);
    let found = store.after_crash(1, 16).expect(&rt, "memory");
    let left = found.left(rt.alloc()).expect(&rt, "memory");
    assert!(rt; left.as_slice() == [branch(&rt)].as_slice());
}
