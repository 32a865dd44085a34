//! Crashes after each request, with and without settles that succeed or fail.

use crate::histories::{STEPS, Served, branch, history};
use std::alloc::Global;
use std::process::Abort;
use xa_store::Store;
use xa_store_memory::MemoryStore;
use xa_words::{EndHow, Op, StartHow};

// How many requests were settled before a crash, and of how many the store was told.
#[derive(Clone, Copy)]
struct Reached {
    settled: usize,
    told: usize,
}

// Carries out the first requests of the history, up to a crash. The store is settled after every so many of them, where
// that isn't 0, and at a settle that fails the process ends.
fn run(
    rt: &impl Abort,
    alloc: Global,
    store: &mut MemoryStore,
    crash: usize,
    every: usize,
) -> Reached {
    let (mut served, steps) = (Served::new(rt, alloc), history(rt));
    let mut reached = Reached {
        settled: 0,
        told: 0,
    };
    for (place, step) in steps.iter().take(crash).enumerate() {
        served.serve(rt, store, step);
        reached.told = place + 1;
        if every != 0 && reached.told % every == 0 {
            if store.settle(served.manager()).is_err() {
                return reached;
            }
            assert!(rt; !store.owes());
            reached.settled = reached.told;
        }
    }
    reached
}

// A manager that has carried out so many requests of the history, and was opened again.
fn reopened_after(rt: &impl Abort, alloc: Global, requests: usize) -> Served {
    let (mut served, steps) = (Served::new(rt, alloc), history(rt));
    for (thread, op, _) in steps.iter().take(requests) {
        served.ask(rt, *thread, op);
    }
    served.reopened(rt)
}

// Both have the same branches left.
fn have_left_the_same(rt: &impl Abort, alloc: Global, one: &Served, two: &Served) {
    let left = one.manager().left(alloc).expect(rt, "memory");
    let others = two.manager().left(alloc).expect(rt, "memory");
    assert!(rt; left.as_slice() == others.as_slice());
}

fn answer_the_same(rt: &impl Abort, one: &mut Served, two: &mut Served, ops: &[Op]) {
    for op in ops {
        assert!(rt; one.ask(rt, 1, op) == two.ask(rt, 1, op));
    }
}

// Both have the same branches in the same states, which add the same where they are committed.
fn are_alike(rt: &impl Abort, alloc: Global, one: Served, two: Served) {
    let (mut one, mut two) = (one, two);
    have_left_the_same(rt, alloc, &one, &two);
    answer_the_same(rt, &mut one, &mut two, &[Op::Listed(None), Op::OpenRm]);
    for name in [b"x", b"y", b"z", b"w", b"v"] {
        let xid = branch(rt, name);
        let ops = [
            Op::Listed(Some(xid)),
            Op::Commit(xid, false),
            Op::Forget(xid),
            Op::Start(xid, StartHow::Fresh),
            Op::End(xid, EndHow::Success),
        ];
        answer_the_same(rt, &mut one, &mut two, &ops);
    }
    assert!(rt; one.value(rt, b"a") == two.value(rt, b"a"));
    assert!(rt; one.value(rt, b"b") == two.value(rt, b"b"));
}

// A crash after so many requests, where the store is settled after every so many, leaves what was settled.
fn leaves_what_was_settled(rt: &impl Abort, alloc: Global, crash: usize, every: usize) {
    let mut store = Served::store(rt, alloc, 64);
    let reached = run(rt, alloc, &mut store, crash, every);
    assert!(rt; reached.told == crash);
    let expected = reopened_after(rt, alloc, reached.settled);
    are_alike(rt, alloc, Served::found(rt, store), expected);
}

#[test]
fn a_crash_leaves_what_was_settled(rt: HostRuntime) {
    for crash in 0..=STEPS {
        for every in 0..=4 {
            leaves_what_was_settled(&rt, rt.alloc(), crash, every);
        }
    }
}

// The settle after so many others fails, and a crash then leaves what it is to leave.
fn leaves_all_or_nothing(rt: &impl Abort, alloc: Global, settles: u32, every: usize, keeps: bool) {
    let mut store = Served::store(rt, alloc, 64).failing_after(settles, keeps);
    let reached = run(rt, alloc, &mut store, STEPS, every);
    assert!(rt; store.owes());
    assert!(rt; reached.settled < reached.told && reached.told < STEPS);
    let left = if keeps { reached.told } else { reached.settled };
    let expected = reopened_after(rt, alloc, left);
    are_alike(rt, alloc, Served::found(rt, store), expected);
}

#[test]
fn a_settle_that_fails_leaves_all_or_nothing(rt: HostRuntime) {
    for (every, most) in [(1, 24), (3, 8)] {
        for settles in 0..most {
            leaves_all_or_nothing(&rt, rt.alloc(), settles, every, true);
            leaves_all_or_nothing(&rt, rt.alloc(), settles, every, false);
        }
    }
}

#[test]
fn after_a_failure_each_settle_fails(rt: HostRuntime) {
    let (mut served, steps) = (Served::new(&rt, rt.alloc()), history(&rt));
    let mut store = Served::store(&rt, rt.alloc(), 64).failing_after(0, false);
    for step in &steps {
        served.serve(&rt, &mut store, step);
        assert!(rt; store.settle(served.manager()).is_err());
    }
    assert!(rt; Served::found(&rt, store).value(&rt, b"a") == 100);
}

// After these branches, and no others, are left, a has this value: the history is told up to its second number, and
// settled once, at the first.
fn leaves(rt: &impl Abort, alloc: Global, reached: Reached, names: &[&[u8]], a: u64) {
    let (mut served, steps) = (Served::new(rt, alloc), history(rt));
    let mut store = Served::store(rt, alloc, 64);
    for (place, step) in steps.iter().take(reached.told).enumerate() {
        served.serve(rt, &mut store, step);
        if place + 1 == reached.settled {
            assert!(rt; store.settle(served.manager()).is_ok());
        }
    }
    has_left(rt, alloc, &Served::found(rt, store), names, a);
}

// These branches are left, in this order, and a has this value.
fn has_left(rt: &impl Abort, alloc: Global, found: &Served, names: &[&[u8]], a: u64) {
    let left = found.manager().left(alloc).expect(rt, "memory");
    assert!(rt; left.len() == names.len());
    for (xid, name) in left.iter().zip(names.iter()) {
        assert!(rt; *xid == branch(rt, name));
    }
    assert!(rt; found.value(rt, b"a") == a);
}

#[test]
fn what_crashes_leave_was_worked_out_by_hand(rt: HostRuntime) {
    let alloc = rt.alloc();
    let at = |settled: usize, told: usize| Reached { settled, told };
    // x is at work, and then prepared.
    leaves(&rt, alloc, at(5, 6), &[], 100);
    leaves(&rt, alloc, at(6, 6), &[b"x"], 100);
    // x was committed, which wasn't settled; then it was.
    leaves(&rt, alloc, at(11, 12), &[b"x", b"y"], 100);
    leaves(&rt, alloc, at(12, 12), &[b"y"], 70);
    // y is forgotten and z at work; then z is rolled back, w prepared, and v at work.
    leaves(&rt, alloc, at(14, 17), &[], 70);
    leaves(&rt, alloc, at(25, 25), &[b"w", b"z"], 70);
}
