//! Days on which tellers die as they commit. The stores are opened again, and what the dead left is resolved by their
//! logs: no money is lost or made, and each transfer is there wholly or not at all, as its teller's log has it.
use super::resolving::resolve_by;
use super::{
    FULL, NAMES, START, STORES, account_of, amount_of, plan_of, start_of, sum_of, teller_of,
};
use demo_bank::{Day, DiesAt, Teller, run_day};
use std::alloc::Global;
use std::process::Abort;
use std::sync::Wait;
use std::thread::Threads;
use xa_crew::{Attended, Run};
use xa_driver::CommitOutcome;
use xa_log::{DecisionRecords, MemoryLog};
use xa_switch::Settled;
use xa_words::{Code, Death, Key, Tran, Xid};
use xa_work::WorkOutcome;

const TELLERS: u32 = 3;

const DEATHS: [Death; 7] = [
    Death::Preparing(0),
    Death::Preparing(1),
    Death::Prepared,
    Death::Decided,
    Death::Telling(0),
    Death::Telling(1),
    Death::Told,
];

// The places of the transfers with which the first two tellers die: each is between tills of its own, so that it comes
// to its commit.
const PLACES: [usize; 2] = [3, 11];

// A day of three tellers, of which the first two die these deaths.
fn day_of<R: Threads + Wait + Abort + Copy + Send + 'static>(
    rt: &R,
    alloc: Global,
    deaths: [Death; 2],
) -> Day<MemoryLog> {
    let mut tellers = Vec::new(alloc);
    for before in 0..2usize {
        let dies = DiesAt {
            place: PLACES[before],
            death: deaths[before],
        };
        let mut teller = teller_of(rt, alloc, before as u32);
        teller.habits.death = Some(dies);
        tellers.push(teller).expect(rt, "memory");
    }
    tellers.push(teller_of(rt, alloc, 2)).expect(rt, "memory");
    let plan = plan_of(rt, alloc, TELLERS, STORES);
    assert_eq!(rt; tellers.len(), plan.threads as usize);
    run_day(rt, alloc, &plan, tellers).expect(rt, "a day")
}

// How many branches a commit leaves in doubt whose teller dies at this point, and whether it has a record.
fn left_by(death: Death) -> (usize, bool) {
    match death {
        Death::Preparing(_) | Death::Prepared => (2, false),
        Death::Decided => (2, true),
        Death::Telling(_) | Death::Told => (0, true),
    }
}

// The transaction of the transfer at this place, of the teller of this thread.
fn tran_of(rt: &impl Abort, thread: u32, place: u32) -> Tran {
    let gtrid = (u64::from(thread) * 0x1_0000_0000 + u64::from(place)).to_be_bytes();
    Xid::new(1, &gtrid, b"pays").expect(rt, "an xid").tran()
}

// Whether the transfer was made: as was decided, or where its teller died with it, as the log has it.
fn was_made(
    rt: &impl Abort,
    teller: &Teller<MemoryLog>,
    outcome: &WorkOutcome,
    thread: u32,
    place: u32,
) -> bool {
    match outcome {
        WorkOutcome::Commit(CommitOutcome::Died { .. }) => {
            teller.has(&tran_of(rt, thread, place)).is_some()
        }
        _ => outcome.is_to_commit(),
    }
}

// What transfer k of the teller at this place moves at the store's account of this name.
fn moved(rt: &impl Abort, place: u32, k: u32, store: u32, name: &Key) -> i64 {
    let amount = i64::from(amount_of(k));
    if account_of(rt, place, k) != *name {
        0
    } else if store == k % STORES + 1 {
        -amount
    } else if store == k.wrapping_add(1) % STORES + 1 {
        amount
    } else {
        0
    }
}

// What the store's account of this name has, by all transfers that were made.
fn value_of(
    rt: &impl Abort,
    clients: &[Attended<Teller<MemoryLog>>],
    store: u32,
    name: usize,
) -> Option<u64> {
    let account = Key::new(NAMES.get(name)?)?;
    let mut value = i64::try_from(start_of(name)).ok()?;
    for (place, attended) in clients.iter().enumerate() {
        let place = u32::try_from(place).ok()?;
        for (k, outcome) in attended.client.outcomes.iter().enumerate() {
            let k = u32::try_from(k).ok()?;
            if was_made(rt, &attended.client, outcome, place.wrapping_add(1), k) {
                value = value.wrapping_add(moved(rt, place, k, store, &account));
            }
        }
    }
    u64::try_from(value).ok()
}

// Each account has what the transfers that were made have left in it.
fn balances(rt: &impl Abort, clients: &[Attended<Teller<MemoryLog>>], settled: &Settled) {
    for before in 0..STORES {
        for (name, account) in NAMES.iter().enumerate() {
            let account = Key::new(account).expect(rt, "a name");
            assert_eq!(rt;
                settled.value(before + 1, &account),
                value_of(rt, clients, before + 1, name)
            );
        }
    }
}

// The first two tellers died these deaths, and the third didn't die.
fn died_there(rt: &impl Abort, clients: &[Attended<Teller<MemoryLog>>], deaths: [Death; 2]) {
    for (before, attended) in clients.iter().enumerate() {
        let outcomes = &attended.client.outcomes;
        let last = outcomes.last();
        if before < 2 {
            assert_eq!(rt; outcomes.len(), PLACES[before].saturating_add(1));
            assert!(rt;
                matches!(
                    last,
                    Some(WorkOutcome::Commit(CommitOutcome::Died { at, known: _ }))
                        if *at == deaths[before]
                )
            );
        } else {
            assert!(rt; last.is_some_and(|outcome| !outcome.has_died()));
        }
    }
}

// The stores are opened again after such a day, and what the dead left is resolved.
fn resolves<R: Threads + Wait + Abort + Copy + Send + 'static>(
    rt: &R,
    alloc: Global,
    deaths: [Death; 2],
) {
    let Run { clients, settled } = day_of(rt, alloc, deaths);
    assert_eq!(rt; clients.len(), 3);
    died_there(rt, &clients, deaths);
    let dead = [&clients[0].client, &clients[1].client];
    let run = resolve_by(rt, alloc, settled, dead.as_slice());
    assert_eq!(rt; run.clients.len(), 1);
    let Some(resolved) = &run.clients[0].client.client.resolved else {
        panic!(rt; "nothing was resolved");
    };
    let outcomes = &resolved.outcomes;
    let (first, second) = (left_by(deaths[0]), left_by(deaths[1]));
    assert_eq!(rt; outcomes.len(), first.0.saturating_add(second.0));
    let committed = outcomes.iter().filter(|outcome| outcome.commit).count();
    let recorded = |left: (usize, bool)| if left.1 { left.0 } else { 0 };
    assert_eq!(rt; committed, recorded(first).saturating_add(recorded(second)));
    assert!(rt; outcomes.iter().all(|outcome| outcome.code == Code::Done));
    balances(rt, &clients, &run.settled);
    assert_eq!(rt; sum_of(rt, &run.settled), 3 * (2 * START + 8 * FULL));
}

#[test]
fn what_dead_tellers_left_is_resolved_by_their_logs(rt: HostRuntime) {
    let alloc = rt.alloc();
    for first in 0..DEATHS.len() {
        let second = (first + 1) % DEATHS.len();
        resolves(&rt, alloc, [DEATHS[first], DEATHS[second]]);
    }
}
