//! Eight threads at eight managers: `test_soak SEED ACTIONS`. Each thread does so many things at random, and once all
//! is settled the journals are replayed by the sequential tables (test_replay). It writes `agrees` where each code and
//! each value is the replay's, with status 0, and to standard error what the threads did. Where threads did a hundred
//! things or more, each manager was opened by one; else the status is 5.
#![tactic(auto)]

ghost use Rattle.std.specs.Prelude.{◌≡◌, true, IfSome, Some};
ghost use Rattle.test_soak.specs.Soak.{AgreesAt, AllAgree, AreValuesAt, sent_by_all};

mod counts;
mod random;
mod visitor;

use counts::Counts;
use std::alloc::Global;
use std::env;
use std::io::Write;
use std::process::ExitCode;
use std::rt::Env;
use std::sync::Wait;
use std::thread::Threads;
use test_replay::{agrees, was_opened};
use visitor::{NAMES, VALUE, Visitor};
use xa_crew::run_clients;
use xa_switch::{Plan, Settled};
use xa_words::Key;
use xa_worker::Free;

const THREADS: u32 = 8;

const MANAGERS: u32 = 8;

// The accounts of each manager.
fn accounts(alloc: Global) -> Option<Vec<(Key, u64)>> {
    let mut accounts = Vec::new(alloc);
    for name in NAMES {
        accounts.push((Key::new(&[name])?, VALUE)).ok()?;
    }
    Some(accounts)
}

// A plan with queues of two places, which are full at times.
fn plan_of(alloc: Global) -> Option<Plan>
    ensures threads { IfSome result (λ p. p.threads ≡ 8) }
{
    let accounts = accounts(alloc)?;
    Some(Plan {
        threads: THREADS,
        handles: 6,
        queue: 2,
        requests: 4_096,
        ..test_support::plan_of(alloc, MANAGERS, &accounts)?
    })
}

// What all threads did, in one run.
fn soak<R: Threads + Wait + Copy + Send + 'static>(
    rt: &R,
    alloc: Global,
    seed: u64,
    actions: u32,
) -> Option<(Counts, Settled)> {
    let plan = plan_of(alloc)?;
    let visitors = [1, 2, 3, 4, 5, 6, 7, 8].map(|thread: u64| Visitor::new(
        alloc, seed, thread, actions,
    ));
    let clients = Vec::from_array(alloc, visitors).ok()?;
    let paces = vec![in alloc; Free; plan.managers.len()].ok()?;
    let run = run_clients(rt, alloc, &plan, clients, paces).ok()?;
    let mut all = Counts::default();
    for attended in &run.clients {
        all.add(&attended.client.counts);
    }
    Some((all, run.settled))
}

// How many requests each thread sent to the manager, by rising thread.
fn sent_to(settled: &Settled, manager: u32) -> [usize; 8]
    ensures { result ≡ sent_by_all settled.now manager }
{
    [1, 2, 3, 4, 5, 6, 7, 8].map(|thread: u32| settled.sent(thread, manager).len())
}

// The values that the manager's keys have at the end.
fn values_at(
    alloc: Global,
    settled: &Settled,
    manager: u32,
    accounts: &[(Key, u64)],
) -> Option<Vec<(Key, Option<u64>)>>
    ensures { IfSome result (λ v. AreValuesAt accounts.now settled.now manager v.items) }
{
    let mut values = Vec::new(alloc);
    for account in accounts {
        values
            .push((account.0, settled.value(manager, &account.0)))
            .ok()?;
    }
    Some(values)
}

// Whether the manager's journal, its threads' requests and the values of its keys are those of a replay. None where
// there is no memory for that.
fn agrees_at(
    alloc: Global,
    settled: &Settled,
    manager: u32,
    accounts: &[(Key, u64)],
) -> Option<bool>
    ensures { result ≡ Some true → AgreesAt accounts.now settled.now manager }
{
    let values = values_at(alloc, settled, manager, accounts)?;
    let sent = sent_to(settled, manager);
    Some(agrees(alloc, accounts, settled.journal(manager), &sent, &values))
}

// The same for all managers.
fn all_agree(alloc: Global, settled: &Settled, accounts: &[(Key, u64)]) -> Option<bool>
    ensures { result ≡ Some true → AllAgree accounts.now settled.now }
{
    for before in 0..MANAGERS {
        if !agrees_at(alloc, settled, before + 1, accounts)? {
            return Some(false);
        }
    }
    Some(true)
}

// The fewest things of each thread by which each manager is sure to be opened by one of them.
const ENOUGH: u32 = 100;

// Whether each manager was opened by a thread.
fn all_were_opened(settled: &Settled) -> bool {
    (0..MANAGERS).all(|before| was_opened(settled.journal(before + 1)))
}

// The number at this place after the program's name.
fn number_at<R: Env + AllocGlobal>(rt: &R, place: usize) -> Option<u32> {
    env::args(rt).ok()?.nth(place)?.parse::<u32>().ok()
}

fn main(rt: HostRuntime) -> ExitCode {
    let alloc = rt.alloc();
    let (Some(seed), Some(actions)) = (number_at(&rt, 1), number_at(&rt, 2)) else {
        return ExitCode::from(2);
    };
    let Some((counts, settled)) = soak(&rt, alloc, u64::from(seed), actions) else {
        return ExitCode::from(3);
    };
    let _ = writeln!(rt.stderr(), "{counts}");
    let Some(accounts) = accounts(alloc) else {
        return ExitCode::from(3);
    };
    match all_agree(alloc, &settled, &accounts) {
        Some(true) => {}
        Some(false) => return ExitCode::from(1),
        None => return ExitCode::from(3),
    }
    if ENOUGH <= actions && !all_were_opened(&settled) {
        return ExitCode::from(5);
    }
    match rt.stdout().write_all(b"agrees\n") {
        Ok(()) => ExitCode::from(0),
        Err(_) => ExitCode::from(4),
    }
}
