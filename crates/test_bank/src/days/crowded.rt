//! A crowded day: eight tellers over eight stores, of which one is shut while they are at work.
use super::{NAMES, account_of, amount_of, is_committed, is_own, plan_of, start_of};
use demo_bank::{Teller, Transfer};
use std::alloc::Global;
use std::process::Abort;
use std::sync::Wait;
use xa_calls::native;
use xa_crew::laws::idles_go_on;
use xa_crew::{Client, run_clients};
use xa_desk::laws::desks_go_on;
use xa_desk::{Desk, Idle};
use xa_driver::{CommitOutcome, Ending};
use xa_log::MemoryLog;
use xa_switch::Settled;
use xa_words::{Key, Op, RmOp, TMNOFLAGS};
use xa_work::WorkOutcome;
use xa_worker::Free;

const STORES: u32 = 8;

const TELLERS: u32 = 8;

// The store that is shut, by the first teller, which has two thirds of the others' transfers.
const SHUT: u32 = 8;

const TRANSFERS: u32 = 90;

// A teller that shuts a store when it has made its transfers, if there is one to shut.
#[derive(Drop)]
struct Clerk {
    teller: Teller<MemoryLog>,
    shuts: Option<u32>,
}

impl Client for Clerk {
    ghost works = { λ clerk desk clerk' desk'. Unit {0} };

    fn work<R: Wait, I: Idle>(&mut self, rt: &R, desk: &mut Desk, idle: &mut I) {
        desks_go_on();
        idles_go_on::<I>();
        self.teller.work(rt, desk, idle);
        if let Some(store) = self.shuts {
            native(rt, desk, RmOp::Shut, store, TMNOFLAGS, idle);
        }
    }
}

// How many transfers the teller at this place has.
fn transfers_of(place: u32) -> u32 {
    if place == 0 {
        TRANSFERS / 3 * 2
    } else {
        TRANSFERS
    }
}

// Transfer k of the teller at this place: all tellers use all stores.
fn transfer_of(rt: &impl Abort, place: u32, k: u32) -> Transfer {
    let from = place.wrapping_add(k) % STORES;
    Transfer {
        from: from + 1,
        to: from.wrapping_add(k % (STORES - 1)).wrapping_add(1) % STORES + 1,
        account: account_of(rt, place, k),
        amount: amount_of(k),
    }
}

fn clerk_of(rt: &impl Abort, alloc: Global, place: u32) -> Clerk {
    let mut transfers = Vec::new(alloc);
    for k in 0..transfers_of(place) {
        transfers
            .push(transfer_of(rt, place, k))
            .expect(rt, "memory");
    }
    Clerk {
        teller: Teller::new(alloc, MemoryLog::new(alloc), transfers).expect(rt, "memory"),
        shuts: if place == 0 { Some(SHUT) } else { None },
    }
}

// What the endings say of one account at one store: what its committed branches have moved.
#[derive(Clone, Copy)]
struct Told {
    moved: i64,
    // What is missing of it, of transactions that were committed, in branches in doubt.
    missing: i64,
}

// What the transfer moves at the store.
fn delta_at(transfer: &Transfer, store: u32) -> i64 {
    if store == transfer.from {
        -i64::from(transfer.amount)
    } else {
        i64::from(transfer.amount)
    }
}

// Adds what an outcome says of the store's account.
fn tell(told: &mut Told, store: u32, transfer: &Transfer, outcome: &WorkOutcome) {
    let WorkOutcome::Commit(CommitOutcome::Decided(done)) = outcome else {
        return;
    };
    let place = if store == transfer.from.min(transfer.to) {
        0
    } else {
        1
    };
    let delta = delta_at(transfer, store);
    match done.endings.get(place) {
        Some(Ending::Committed) => told.moved = told.moved.wrapping_add(delta),
        Some(Ending::InDoubt) if done.endings.contains(&Ending::Committed) => {
            told.missing = told.missing.wrapping_add(delta);
        }
        _ => {}
    }
}

// What all endings say of the store's account of this name.
fn told_of(rt: &impl Abort, clerks: &[xa_crew::Attended<Clerk>], store: u32, name: &Key) -> Told {
    let mut told = Told {
        moved: 0,
        missing: 0,
    };
    for (place, attended) in clerks.iter().enumerate() {
        let place = u32::try_from(place).expect(rt, "a place");
        for (k, outcome) in attended.client.teller.outcomes.iter().enumerate() {
            let k = u32::try_from(k).expect(rt, "a number");
            let transfer = transfer_of(rt, place, k);
            if transfer.account == *name && (transfer.from == store || transfer.to == store) {
                tell(&mut told, store, &transfer, outcome);
            }
        }
    }
    told
}

// A teller's transfers between its own tills, at stores that nobody shuts, are in nobody's way. It tells how many there
// are.
fn sure_transfers_commit(rt: &impl Abort, clerks: &[xa_crew::Attended<Clerk>]) -> u32 {
    let mut sure: u32 = 0;
    for (place, attended) in clerks.iter().enumerate() {
        let place = u32::try_from(place).expect(rt, "a place");
        for (k, outcome) in attended.client.teller.outcomes.iter().enumerate() {
            let k = u32::try_from(k).expect(rt, "a number");
            let transfer = transfer_of(rt, place, k);
            if is_own(k) && transfer.from != SHUT && transfer.to != SHUT {
                assert!(rt; is_committed(outcome), "teller {place}, transfer {k}");
                sure = sure.wrapping_add(1);
            }
        }
    }
    sure
}

// Whether the store has carried out a Shut.
fn was_shut(settled: &Settled, store: u32) -> bool {
    settled
        .journal(store)
        .iter()
        .any(|(request, _)| matches!(request.op, Op::Shut))
}

#[test]
fn the_endings_say_where_the_money_is(rt: HostRuntime) {
    let alloc = rt.alloc();
    let plan = plan_of(&rt, alloc, TELLERS, STORES);
    let mut clerks = Vec::new(alloc);
    let mut paces = Vec::new(alloc);
    for place in 0..TELLERS {
        clerks
            .push(clerk_of(&rt, alloc, place))
            .expect(&rt, "memory");
    }
    for _ in 0..STORES {
        paces.push(Free).expect(&rt, "memory");
    }
    assert_eq!(rt; clerks.len(), plan.threads as usize);
    assert_eq!(rt; paces.len(), plan.managers.len());
    let day = run_clients(&rt, alloc, &plan, clerks, paces).expect(&rt, "a day");
    let (mut moved, mut missing) = (0i64, 0i64);
    for before in 0..STORES {
        for (place, name) in NAMES.iter().enumerate() {
            let account = Key::new(name).expect(&rt, "a name");
            let told = told_of(&rt, &day.clients, before + 1, &account);
            let value = day
                .settled
                .value(before + 1, &account)
                .expect(&rt, "an account");
            let first = i64::try_from(start_of(place)).expect(&rt, "a value");
            assert_eq!(rt;
                i64::try_from(value).ok(),
                Some(told.moved.wrapping_add(first))
            );
            moved = moved.wrapping_add(told.moved);
            missing = missing.wrapping_add(told.missing);
        }
    }
    assert_eq!(rt; moved.wrapping_add(missing), 0);
    assert!(rt; was_shut(&day.settled, SHUT));
    assert_eq!(rt; sure_transfers_commit(&rt, &day.clients), 129);
    for attended in &day.clients {
        assert!(rt; !attended.client.teller.wants_memory && attended.outstanding.is_empty());
    }
}
