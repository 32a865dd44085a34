//! Days on which tellers lack places, handles or requests: nobody stays associated with a branch that was given up.
use super::{STORES, day_of, own_transfers_commit, plan_of};
use demo_bank::Day;
use std::process::Abort;
use xa_log::MemoryLog;
use xa_switch::{Plan, Settled};
use xa_words::{Code, Op};

// Whether a start or a rollback at the store met a branch that its thread was associated with.
fn met_association(settled: &Settled, store: u32) -> bool {
    settled.journal(store).iter().any(|(request, code)| {
        matches!(request.op, Op::Start(..) | Op::Rollback(..)) && *code == Code::Proto
    })
}

fn nobody_is_stuck(rt: &impl Abort, day: &Day<MemoryLog>) {
    for before in 0..STORES {
        assert!(rt;
            !met_association(&day.settled, before + 1),
            "store {}",
            before + 1
        );
    }
}

#[test]
fn a_full_queue_strands_no_teller(rt: HostRuntime) {
    let alloc = rt.alloc();
    for queue in 1..7u32 {
        let plan = Plan {
            queue,
            ..plan_of(&rt, alloc, 2, STORES)
        };
        let day = day_of(&rt, alloc, &plan);
        nobody_is_stuck(&rt, &day);
        own_transfers_commit(&rt, &day);
    }
}

#[test]
fn few_handles_strand_no_teller(rt: HostRuntime) {
    let alloc = rt.alloc();
    for handles in 2..7u32 {
        let plan = Plan {
            handles,
            ..plan_of(&rt, alloc, 2, STORES)
        };
        let day = day_of(&rt, alloc, &plan);
        nobody_is_stuck(&rt, &day);
        own_transfers_commit(&rt, &day);
    }
}

#[test]
fn spent_requests_strand_no_teller(rt: HostRuntime) {
    let alloc = rt.alloc();
    for requests in 1..20u32 {
        let plan = Plan {
            requests,
            ..plan_of(&rt, alloc, 2, STORES)
        };
        let day = day_of(&rt, alloc, &plan);
        nobody_is_stuck(&rt, &day);
    }
}
