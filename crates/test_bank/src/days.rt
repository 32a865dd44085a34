//! Days of tellers over stores, and what all of them have in common.
mod alone;
mod crowded;
mod dying;
mod resolving;
mod stuck;

ghost use Rattle.std.specs.Prelude.{◌≡◌, length};

use demo_bank::{Day, Teller, Transfer, run_day};
use std::alloc::Global;
use std::process::Abort;
use std::sync::Wait;
use std::thread::Threads;
use xa_crew::{CrewFault, run_clients_in_turns};
use xa_driver::{CommitOutcome, Ending};
use xa_log::MemoryLog;
use xa_switch::{Plan, Settled};
use xa_words::Key;
use xa_work::WorkOutcome;

const STORES: u32 = 3;

const TRANSFERS: u32 = 60;

// The accounts of each store: two that all tellers use, and then a till for each teller, which no other uses.
const NAMES: [&[u8]; 10] = [
    b"current", b"savings", b"till1", b"till2", b"till3", b"till4", b"till5", b"till6", b"till7",
    b"till8",
];

const SHARED: usize = 2;

const START: u64 = 1_000;

// What a till has at first: more than its teller moves in a day.
const FULL: u64 = 100_000;

// What the account at this place of the names has at first.
fn start_of(place: usize) -> u64 {
    if place < SHARED { START } else { FULL }
}

fn accounts_of(rt: &impl Abort, alloc: Global) -> Vec<(Key, u64)> {
    let mut accounts = Vec::new(alloc);
    for (place, name) in NAMES.iter().enumerate() {
        let account = Key::new(name).expect(rt, "a name");
        accounts
            .push((account, start_of(place)))
            .expect(rt, "memory");
    }
    accounts
}

// A plan of so many stores with the same accounts.
fn plan_of(rt: &impl Abort, alloc: Global, threads: u32, stores: u32) -> Plan
    ensures { result.threads ≡ threads }
{
    let accounts = accounts_of(rt, alloc);
    Plan {
        threads,
        handles: 6,
        requests: 2_000,
        ..test_support::plan_of(alloc, stores, &accounts).expect(rt, "memory")
    }
}

// The amount of transfer k.
fn amount_of(k: u32) -> u32 {
    k % 7 * 100
}

// Whether a teller's transfer k is between tills of its own.
fn is_own(k: u32) -> bool {
    k % 4 == 3
}

// The account of transfer k of the teller at this place.
fn account_of(rt: &impl Abort, place: u32, k: u32) -> Key {
    let name = if is_own(k) {
        SHARED + place as usize % 8
    } else {
        k as usize % SHARED
    };
    Key::new(NAMES[name]).expect(rt, "a name")
}

// The teller at this place, with transfers round the stores.
fn teller_of(rt: &impl Abort, alloc: Global, place: u32) -> Teller<MemoryLog> {
    let mut all = Vec::new(alloc);
    for k in 0..TRANSFERS {
        let transfer = Transfer {
            from: k % STORES + 1,
            to: (k + 1) % STORES + 1,
            account: account_of(rt, place, k),
            amount: amount_of(k),
        };
        all.push(transfer).expect(rt, "memory");
    }
    Teller::new(alloc, MemoryLog::new(alloc), all).expect(rt, "memory")
}

// The tellers of so many threads.
fn tellers_of(rt: &impl Abort, alloc: Global, threads: u32) -> Vec<Teller<MemoryLog>> {
    let mut tellers = Vec::new(alloc);
    for place in 0..threads {
        tellers
            .push(teller_of(rt, alloc, place))
            .expect(rt, "memory");
    }
    tellers
}

// A day of tellers over the plan, one for each of its threads.
fn day_of<R: Threads + Wait + Abort + Copy + Send + 'static>(
    rt: &R,
    alloc: Global,
    plan: &Plan,
) -> Day<MemoryLog> {
    let tellers = tellers_of(rt, alloc, plan.threads);
    assert_eq!(rt; tellers.len(), plan.threads as usize);
    let day = run_day(rt, alloc, plan, tellers).expect(rt, "a day");
    all_are_done(rt, &day);
    day
}

// Each teller has made all its transfers, and left nothing outstanding.
fn all_are_done(rt: &impl Abort, day: &Day<MemoryLog>) {
    for attended in &day.clients {
        assert!(rt; !attended.client.wants_memory && attended.outstanding.is_empty());
        assert_eq!(rt; attended.client.outcomes.len(), TRANSFERS as usize);
    }
}

// What all accounts are worth together.
fn sum_of(rt: &impl Abort, settled: &Settled) -> u64 {
    let mut sum: u64 = 0;
    for store in 0..STORES {
        for name in NAMES {
            let account = Key::new(name).expect(rt, "a name");
            let value = settled.value(store + 1, &account).expect(rt, "an account");
            sum = sum.checked_add(value).expect(rt, "a sum");
        }
    }
    sum
}

// Whether each branch of it has one outcome, and none is in doubt.
fn is_whole(outcome: &WorkOutcome) -> bool {
    match outcome {
        WorkOutcome::Refused(_) => true,
        WorkOutcome::Commit(CommitOutcome::Decided(done)) if done.commit => {
            done.endings.iter().all(|ending| matches!(ending, Ending::Committed | Ending::ReadOnly))
        }
        WorkOutcome::Commit(CommitOutcome::Decided(done)) => done
            .endings
            .iter()
            .all(|ending| *ending != Ending::Committed),
        WorkOutcome::Commit(_) => false,
    }
}

fn is_committed(outcome: &WorkOutcome) -> bool {
    matches!(outcome, WorkOutcome::Commit(CommitOutcome::Decided(done)) if done.commit)
}

// A teller's transfers between its own tills are in nobody's way, and have the funds.
fn own_transfers_commit(rt: &impl Abort, day: &Day<MemoryLog>) {
    for attended in &day.clients {
        for (k, outcome) in attended.client.outcomes.iter().enumerate() {
            if k % 4 == 3 {
                assert!(rt; is_committed(outcome), "transfer {k}");
            }
        }
    }
}

// Each transfer has one outcome, and all accounts of the three stores are worth what they were.
fn is_sound(rt: &impl Abort, day: &Day<MemoryLog>) {
    for attended in &day.clients {
        for outcome in &attended.client.outcomes {
            assert!(rt; is_whole(outcome));
        }
    }
    own_transfers_commit(rt, day);
    assert_eq!(rt; sum_of(rt, &day.settled), 3 * (2 * START + 8 * FULL));
}

// Two tellers stand in each other's way at the accounts that both use, and nowhere else.
#[test]
fn money_stays_in_the_bank(rt: HostRuntime) {
    let alloc = rt.alloc();
    let day = day_of(&rt, alloc, &plan_of(&rt, alloc, 2, STORES));
    is_sound(&rt, &day);
}

// The same tellers one after the other in one thread, whose workers take turns.
#[test]
fn money_stays_in_the_bank_in_turns(rt: HostRuntime) {
    let alloc = rt.alloc();
    let plan = plan_of(&rt, alloc, 2, STORES);
    let tellers = tellers_of(&rt, alloc, plan.threads);
    assert_eq!(rt; tellers.len(), plan.threads as usize);
    let day = run_clients_in_turns(&rt, alloc, &plan, tellers).expect(&rt, "a day");
    all_are_done(&rt, &day);
    is_sound(&rt, &day);
}

#[test]
fn a_plan_without_stores_is_refused(rt: HostRuntime) {
    let alloc = rt.alloc();
    let plan = Plan {
        managers: Vec::new(alloc),
        ..plan_of(&rt, alloc, 1, STORES)
    };
    let Ok(tellers) = Vec::from_array(alloc, [teller_of(&rt, alloc, 0)]) else {
        panic!(rt; "memory");
    };
    let day = run_day(&rt, alloc, &plan, tellers);
    assert!(rt; matches!(day, Err(CrewFault::BadPlan)));
}
