//! Days of a teller alone: nobody is in its way, so that each transfer is committed that has the funds.
use super::{FULL, START, STORES, day_of, is_committed, plan_of, sum_of};
use std::alloc::Global;
use std::process::Abort;
use std::sync::Wait;
use std::thread::Threads;
use xa_switch::{ManagerPlan, Plan};
use xa_work::{Refusal, WorkOutcome};

// The one transfer that hasn't: it takes 400 from the account current of store 1, which has 200 by then.
const LACKING: usize = 18;

fn all_commit<R: Threads + Wait + Abort + Copy + Send + 'static>(
    rt: &R,
    alloc: Global,
    plan: &Plan,
) {
    let day = day_of(rt, alloc, plan);
    for attended in &day.clients {
        for (k, outcome) in attended.client.outcomes.iter().enumerate() {
            assert_eq!(rt; is_committed(outcome), k != LACKING, "transfer {k}");
        }
    }
    assert_eq!(rt; day.clients.len(), 1);
    assert_eq!(rt; sum_of(rt, &day.settled), 3 * (2 * START + 8 * FULL));
}

// With six handles the work is in flight, where three requests may wait for one place in a store's queue. With fewer it
// is done in turn, and commits with two.
#[test]
fn few_handles_and_short_queues_will_do(rt: HostRuntime) {
    let alloc = rt.alloc();
    for queue in 1..5u32 {
        for handles in 2..8u32 {
            let plan = Plan {
                queue,
                handles,
                ..plan_of(&rt, alloc, 1, STORES)
            };
            all_commit(&rt, alloc, &plan);
        }
    }
}

#[test]
fn a_store_without_asynchronous_calls_will_do(rt: HostRuntime) {
    let alloc = rt.alloc();
    let mut plan = plan_of(&rt, alloc, 1, STORES);
    for store in &mut plan.managers {
        store.use_async = false;
    }
    all_commit(&rt, alloc, &plan);
}

// A commit wants two handles: with one nothing is put for a transfer.
#[test]
fn without_room_nothing_is_put(rt: HostRuntime) {
    let alloc = rt.alloc();
    let plan = Plan {
        handles: 1,
        ..plan_of(&rt, alloc, 1, STORES)
    };
    let day = day_of(&rt, alloc, &plan);
    for attended in &day.clients {
        for outcome in &attended.client.outcomes {
            assert!(rt; matches!(outcome, WorkOutcome::Refused(Refusal::NotBegun)));
        }
    }
    for before in 0..STORES {
        assert_eq!(rt; day.settled.journal(before + 1).len(), 1);
    }
}
