//! Days of the bank. On each day a store is shut, and a teller dies in a commit; each night ends what was left. What
//! the stores have in the end is compared with the abstract machine: the transfers that were applied, one by one.
use demo_bank::{DiesAt, ShutsAt, Teller, Transfer};
use demo_bank_days::{Bank, Closed, Days, Errands, Stop, run_days};
use std::alloc::Global;
use std::process::Abort;
use std::sync::Wait;
use xa_log::{DecisionLog, MemoryLog, TrialLog};
use xa_switch::{Plan, Settled};
use xa_words::{Death, Key};
use xa_work::{CommitOutcome, WorkOutcome};

const TELLERS: u32 = 4;

const STORES: u32 = 3;

const TRANSFERS: u32 = 16;

// Each point at which a teller dies comes together with each store that is shut.
const DAYS: u32 = 21;

const DEATHS: [Death; 7] = [
    Death::Preparing(0),
    Death::Preparing(1),
    Death::Prepared,
    Death::Decided,
    Death::Telling(0),
    Death::Telling(1),
    Death::Told,
];

// The accounts of each store: one that all tellers use, and then a till for each teller, which no other uses.
const NAMES: [&[u8]; 5] = [b"current", b"till1", b"till2", b"till3", b"till4"];

const START: u64 = 1_000;

fn account(rt: &impl Abort, name: usize) -> Key {
    Key::new(NAMES[name % NAMES.len()]).expect(rt, "a name")
}

// The plan of the stores, each with the same accounts.
fn plan_of(rt: &impl Abort, alloc: Global) -> Plan {
    let mut accounts = Vec::new(alloc);
    for name in 0..NAMES.len() {
        accounts
            .push((account(rt, name), START))
            .expect(rt, "memory");
    }
    Plan {
        threads: TELLERS,
        requests: 500,
        ..test_support::plan_of(alloc, STORES, &accounts).expect(rt, "memory")
    }
}

// The tellers, each with an empty log in memory; that of the last refuses its fifth record.
fn tellers_of(rt: &impl Abort, alloc: Global) -> Vec<Teller<TrialLog<MemoryLog>>> {
    let mut tellers = Vec::new(alloc);
    for place in 0..TELLERS {
        let failing = if place + 1 == TELLERS { 5 } else { 0 };
        let log = TrialLog::new(MemoryLog::new(alloc)).failing_at(failing);
        let teller = Teller::new(alloc, log, Vec::new(alloc)).expect(rt, "memory");
        tellers.push(teller).expect(rt, "memory");
    }
    tellers
}

// How an append fails: it is refused; or nobody knows whether it was made, and the log kept the record or not.
#[derive(Clone, Copy, PartialEq, Eq)]
enum Failure {
    Refused,
    Kept,
    Gone,
}

// The tellers, each with a log in memory of which one append fails so: its number for the first teller, and for each
// other so many more than for the one before it.
fn failing_tellers_of(
    rt: &impl Abort,
    alloc: Global,
    failure: Failure,
    first: u32,
    more: u32,
) -> Vec<Teller<TrialLog<MemoryLog>>> {
    let (mut tellers, mut k) = (Vec::new(alloc), first);
    for _ in 0..TELLERS {
        let log = TrialLog::new(MemoryLog::new(alloc));
        let log = match failure {
            Failure::Refused => log.failing_at(k),
            Failure::Kept => log.losing_at(k, true),
            Failure::Gone => log.losing_at(k, false),
        };
        let teller = Teller::new(alloc, log, Vec::new(alloc)).expect(rt, "memory");
        tellers.push(teller).expect(rt, "memory");
        k = k.wrapping_add(more);
    }
    tellers
}

// Transfer k of the day, of the teller at this place: every fourth is between tills of its own.
fn transfer_of(rt: &impl Abort, day: u32, place: u32, k: u32) -> Transfer {
    let name = if k % 4 == 3 {
        1 + place as usize % 4
    } else {
        0
    };
    Transfer {
        from: (day % STORES + k % STORES) % STORES + 1,
        to: (day % STORES + k % STORES + 1) % STORES + 1,
        account: account(rt, name),
        amount: k % 7 * 50,
    }
}

// One teller dies on a day, at a transfer between its own tills; another shuts a store before its tenth.
fn errands_of(rt: &impl Abort, alloc: Global, day: u32, place: u32) -> Errands {
    let mut transfers = Vec::new(alloc);
    for k in 0..TRANSFERS {
        transfers
            .push(transfer_of(rt, day, place, k))
            .expect(rt, "memory");
    }
    let (dying, shutting) = (
        day % TELLERS == place,
        day.wrapping_add(1) % TELLERS == place,
    );
    Errands {
        transfers,
        death: dying.then_some(DiesAt {
            place: 7,
            death: DEATHS[day as usize % 7],
        }),
        shuts: shutting.then_some(ShutsAt {
            place: 9,
            store: day % STORES + 1,
        }),
    }
}

fn days_of(rt: &impl Abort, alloc: Global, many: u32) -> Vec<Vec<Errands>> {
    let mut days = Vec::new(alloc);
    for day in 0..many {
        let mut errands = Vec::new(alloc);
        for place in 0..TELLERS {
            errands
                .push(errands_of(rt, alloc, day, place))
                .expect(rt, "memory");
        }
        days.push(errands).expect(rt, "memory");
    }
    days
}

// As many such days on which nobody dies and no store is shut.
fn quiet_days_of(rt: &impl Abort, alloc: Global, many: u32) -> Vec<Vec<Errands>> {
    let mut days = days_of(rt, alloc, many);
    for day in &mut days {
        for errands in day {
            errands.death = None;
            errands.shuts = None;
        }
    }
    days
}

// Whether a transfer was applied, by what its teller was told, or where it couldn't be told by what its log was found
// to have.
fn is_applied(outcome: &WorkOutcome, found: bool) -> bool {
    match outcome {
        WorkOutcome::Commit(CommitOutcome::Undecided(_)) => found,
        WorkOutcome::Commit(outcome) => outcome.is_to_commit(),
        WorkOutcome::Refused(_) => false,
    }
}

// What a transfer moves at the store's account.
fn moved(transfer: &Transfer, store: u32, name: &Key) -> i64 {
    if transfer.account != *name {
        0
    } else if transfer.from == store {
        -i64::from(transfer.amount)
    } else if transfer.to == store {
        i64::from(transfer.amount)
    } else {
        0
    }
}

// What the store's account has by the abstract machine, after all these days.
fn balance(rt: &impl Abort, closed: &[Closed], store: u32, name: &Key) -> Option<u64> {
    let mut value = i64::try_from(START).ok()?;
    for (day, over) in closed.iter().enumerate() {
        let day = u32::try_from(day).ok()?;
        for (place, outcomes) in over.outcomes.iter().enumerate() {
            let found = *over.found.get(place)?;
            let place = u32::try_from(place).ok()?;
            for (k, outcome) in outcomes.iter().enumerate() {
                if is_applied(outcome, found) {
                    let transfer = transfer_of(rt, day, place, u32::try_from(k).ok()?);
                    value = value.checked_add(moved(&transfer, store, name))?;
                }
            }
        }
    }
    u64::try_from(value).ok()
}

fn balances(rt: &impl Abort, closed: &[Closed], settled: &Settled) {
    for store in 1..STORES + 1 {
        for name in 0..NAMES.len() {
            let account = account(rt, name);
            assert_eq!(rt;
                settled.value(store, &account),
                balance(rt, closed, store, &account)
            );
        }
    }
}

// How many tellers died on these days, and how many branches the nights committed, and rolled back.
fn counted(rt: &impl Abort, closed: &[Closed]) -> (usize, usize, usize) {
    let (mut died, mut committed, mut undone): (usize, usize, usize) = (0, 0, 0);
    for over in closed {
        for outcomes in &over.outcomes {
            let last = outcomes.last();
            died = died.wrapping_add(usize::from(last.is_some_and(|o| o.has_died())));
        }
        let Ok(resolved) = &over.resolved else {
            panic!(rt; "no night")
        };
        for outcome in &resolved.outcomes {
            if outcome.commit {
                committed = committed.wrapping_add(1);
            } else {
                undone = undone.wrapping_add(1);
            }
        }
    }
    (died, committed, undone)
}

// The bank with these tellers, before its first day.
fn bank_of<R: Wait + Abort, L: DecisionLog + Drop>(
    rt: &R,
    alloc: Global,
    tellers: Vec<Teller<L>>,
) -> Bank<L> {
    let plan = plan_of(rt, alloc);
    let Ok(bank) = Bank::open(rt, alloc, &plan, tellers) else {
        panic!(rt; "not opened")
    };
    bank
}

#[test]
fn stores_have_what_was_applied(rt: HostRuntime) {
    let alloc = rt.alloc();
    let bank = bank_of(&rt, alloc, tellers_of(&rt, alloc));
    let Days { closed, end } = run_days(&rt, alloc, bank, days_of(&rt, alloc, DAYS));
    assert_eq!(rt; closed.len(), DAYS as usize);
    let Ok(bank) = end else { panic!(rt; "stopped") };
    balances(&rt, &closed, &bank.settled);
    let (died, committed, undone) = counted(&rt, &closed);
    assert!(rt; died > 0 && committed > 0 && undone > 0);
}

#[test]
fn a_day_has_errands_for_each_teller(rt: HostRuntime) {
    let alloc = rt.alloc();
    let days = Vec::from_array(alloc, [Vec::new(alloc)]).expect(&rt, "memory");
    let Days { closed, end } = run_days(
        &rt,
        alloc,
        bank_of(&rt, alloc, tellers_of(&rt, alloc)),
        days,
    );
    assert!(rt; closed.is_empty() && matches!(&end, Err(Stop::BadDay(_))));
}

// Of how many transfers nobody knew whether their record was made, and how many of these records were found.
fn lost(closed: &[Closed]) -> (usize, usize) {
    let (mut lost, mut found): (usize, usize) = (0, 0);
    for over in closed {
        for outcomes in &over.outcomes {
            let last = outcomes.last();
            let is_lost = last.is_some_and(|o| matches!(
                o,
                WorkOutcome::Commit(CommitOutcome::Undecided(_))
            ));
            lost = lost.wrapping_add(usize::from(is_lost));
        }
        for has in &over.found {
            found = found.wrapping_add(usize::from(*has));
        }
    }
    (lost, found)
}

#[test]
fn days_go_on_after_records_are_lost(rt: HostRuntime) {
    let alloc = rt.alloc();
    for failure in [Failure::Kept, Failure::Gone] {
        let bank = bank_of(&rt, alloc, failing_tellers_of(&rt, alloc, failure, 3, 10));
        let Days { closed, end } = run_days(&rt, alloc, bank, quiet_days_of(&rt, alloc, DAYS));
        assert_eq!(rt; closed.len(), DAYS as usize);
        let Ok(bank) = end else { panic!(rt; "stopped") };
        balances(&rt, &closed, &bank.settled);
        let (lost, found) = lost(&closed);
        let kept = if failure == Failure::Kept { lost } else { 0 };
        assert!(rt; lost == TELLERS as usize && found == kept);
    }
}

#[test]
fn any_append_of_a_day_may_fail(rt: HostRuntime) {
    let alloc = rt.alloc();
    for k in 1..TRANSFERS + 1 {
        for failure in [Failure::Refused, Failure::Kept, Failure::Gone] {
            let bank = bank_of(&rt, alloc, failing_tellers_of(&rt, alloc, failure, k, 0));
            let Days { closed, end } = run_days(&rt, alloc, bank, quiet_days_of(&rt, alloc, 1));
            let Ok(bank) = end else { panic!(rt; "stopped") };
            assert!(rt; closed.len() == 1 && closed[0].is_over());
            balances(&rt, &closed, &bank.settled);
        }
    }
}
