//! Openings of a switch.
mod asking;
mod settling;
mod sharing;
mod threads;

use std::alloc::Global;
use std::process::Abort;
use std::sync::Wait;
use test_support::one;
use xa_desk::Desk;
use xa_switch::{OpenFault, Plan, open_switch};
use xa_words::Key;
use xa_worker::Worker;

// A plan of so many managers, each with the one key `a` of value 100.
fn plan_of(rt: &impl Abort, alloc: Global, threads: u32, managers: u32) -> Plan {
    let accounts = [(key(rt, b"a"), 100)];
    Plan {
        opening: 7,
        threads,
        handles: 2,
        queue: 2,
        requests: 8,
        ..test_support::plan_of(alloc, managers, &accounts).expect(rt, "memory")
    }
}

fn key(rt: &impl Abort, text: &[u8]) -> Key {
    Key::new(text).expect(rt, "a key")
}

// The desks and the workers of an opening.
fn opened<R: Wait + Abort>(rt: &R, alloc: Global, plan: &Plan) -> (Vec<Desk>, Vec<Worker>) {
    match open_switch(rt, alloc, plan) {
        Ok(pieces) => pieces,
        Err(_) => panic!(rt; "no opening"),
    }
}

// The desk of an opening of one thread, and the workers.
fn one_desk<R: Wait + Abort>(rt: &R, alloc: Global, plan: &Plan) -> (Desk, Vec<Worker>) {
    let (desks, workers) = opened(rt, alloc, plan);
    (one(desks).expect(rt, "one desk"), workers)
}

// The thread's desk has room for as much as a plan may have.
fn is_wide(rt: &impl Abort, desk: &Desk) {
    assert!(rt; desk.free() == 32);
    assert!(rt; desk.room(8) == 4096);
    assert!(rt; desk.room(9) == 0);
    assert!(rt; desk.carries_async(1));
    assert!(rt; !desk.learnt_shut(1));
}

#[test]
fn a_plan_at_the_limits_opens(rt: HostRuntime) {
    let most = Plan {
        handles: 32,
        queue: 64,
        requests: 4096,
        ..plan_of(&rt, rt.alloc(), 8, 8)
    };
    let (desks, workers) = opened(&rt, rt.alloc(), &most);
    assert!(rt; (desks.len(), workers.len()) == (8, 8));
    for (place, desk) in desks.iter().enumerate() {
        assert!(rt; desk.thread() as usize == place.wrapping_add(1));
        is_wide(&rt, desk);
    }
    for (place, worker) in workers.iter().enumerate() {
        assert!(rt; worker.manager() as usize == place.wrapping_add(1));
    }
    opens_at_least(&rt, rt.alloc());
}

// A plan opens that has the least of everything.
fn opens_at_least<R: Wait + Abort>(rt: &R, alloc: Global) {
    let least = Plan {
        handles: 1,
        queue: 1,
        requests: 1,
        ..plan_of(rt, alloc, 1, 1)
    };
    let (desks, workers) = opened(rt, alloc, &least);
    assert!(rt; (desks.len(), workers.len()) == (1, 1));
}

fn is_bad<R: Wait>(rt: &R, alloc: Global, plan: &Plan) -> bool {
    matches!(open_switch(rt, alloc, plan), Err(OpenFault::BadPlan))
}

// Whether a plan of one thread and one manager with these numbers is bad.
fn are_bad<R: Wait + Abort>(
    rt: &R,
    alloc: Global,
    handles: u32,
    queue: u32,
    requests: u32,
) -> bool {
    let plan = Plan {
        handles,
        queue,
        requests,
        ..plan_of(rt, alloc, 1, 1)
    };
    is_bad(rt, alloc, &plan)
}

#[test]
fn a_number_outside_its_limits_is_a_bad_plan(rt: HostRuntime) {
    let alloc = rt.alloc();
    for threads in [0, 9, u32::MAX] {
        assert!(rt;
            is_bad(&rt, alloc, &plan_of(&rt, alloc, threads, 1)),
            "{threads} threads"
        );
    }
    for managers in [0, 9] {
        assert!(rt;
            is_bad(&rt, alloc, &plan_of(&rt, alloc, 1, managers)),
            "{managers} managers"
        );
    }
    for handles in [0, 33] {
        assert!(rt; are_bad(&rt, alloc, handles, 2, 8), "{handles} handles");
    }
    for queue in [0, 65] {
        assert!(rt; are_bad(&rt, alloc, 2, queue, 8), "a queue of {queue}");
    }
    for requests in [0, 4097] {
        assert!(rt; are_bad(&rt, alloc, 2, 2, requests), "{requests} requests");
    }
}

#[test]
fn a_key_twice_is_a_bad_plan(rt: HostRuntime) {
    let mut plan = plan_of(&rt, rt.alloc(), 1, 2);
    assert!(rt; !is_bad(&rt, rt.alloc(), &plan));
    add_key(&rt, &mut plan, key(&rt, b"a"));
    assert!(rt; is_bad(&rt, rt.alloc(), &plan));
}

// The second manager gets one more account.
fn add_key(rt: &impl Abort, plan: &mut Plan, key: Key) {
    match plan.managers.get_mut(1) {
        Some(last) => last.accounts.push((key, 1)).expect(rt, "memory"),
        None => panic!(rt; "two managers"),
    }
}
