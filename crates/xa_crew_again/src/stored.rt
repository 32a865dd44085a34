//! A run of clients over an opening that is opened again, whose managers have stores.
ghost use Rattle.std.specs.Prelude.{◌≡◌, ◌≤◌, ◌↔◌, [], length, vec_capacity, IfOk, IfErr, IsTrue, OnOk};
ghost use Rattle.xa_base.specs.declared.limits.TheConstants.{MOST_JOURNALED, MOST_THREADS};
ghost use Rattle.xa_base.specs.Lists.{Pairwise};
ghost use Rattle.xa_switch.specs.Reopening.{MayReopen, managers_in, reopening};
ghost use Rattle.xa_crew_again.specs.Again.{AreGiven, HasRunAgain, IfUnopened, IfUnstarted, IfUnsettled, IsBad};
ghost use Rattle.xa_crew_again.specs.Again.{IsRunAgain};
ghost use Rattle.xa_crew_again.specs.Stored.{KeepOne, Reopens, KeepsAsMuch};
ghost use Rattle.xa_crew.specs.Opened.{IsOpened, clients_of};
ghost use Rattle.xa_crew.specs.Stores.{StoresKeep, KeepLast, tables_served};

use crate::again::{AgainFault, ClientAgain, UnopenedClients, WithScan, open_clients_again};
use laws_tables::a_second_reopening_changes_nothing;
use std::alloc::Global;
use std::sync::Wait;
use std::thread::Threads;
use xa_base::{MOST_JOURNALED, MOST_THREADS};
use xa_crew::{OpenedFault, Run};
use xa_store::Store;
use xa_switch::{Again, OpenFault, Settled, may_reopen};
use xa_worker::Pace;

// Reopens a store, and clears the flag where it can't: the store is as it was then.
fn reopen_one<S: Store>(store: S, threads: u32, room: u32, all: &mut bool) -> S
    requires threads { (1 ≤ threads) × (threads ≤ MOST_THREADS) }
    requires room { (1 ≤ room) × (room ≤ MOST_JOURNALED) }
    ensures stays { KeepsAsMuch S.knows S.may_leave store result }
    ensures reopens { IsTrue all.new → Reopens S.knows S.may_leave store result }
    ensures before { IsTrue all.new → IsTrue all.old }
{
    a_second_reopening_changes_nothing();
    match store.reopened(threads, room) {
        Ok(next) => next,
        Err(same) => {
            *all = false;
            same
        }
    }
}

// Reopens all stores, and tells whether it did, where there is room for them: a store that it couldn't reopen is as it
// was.
fn reopen_each<S: Store + Drop>(
    stores: Vec<S>,
    threads: u32,
    room: u32,
    mut next: Vec<S>,
) -> (bool, Vec<S>)
    requires threads { (1 ≤ threads) × (threads ≤ MOST_THREADS) }
    requires room { (1 ≤ room) × (room ≤ MOST_JOURNALED) }
    requires none { next.items ≡ [] }
    requires space { length stores.items ≤ vec_capacity next }
    ensures stays { Pairwise (KeepsAsMuch S.knows S.may_leave) stores.items result.1.items }
    ensures reopens { IsTrue result.0 → Pairwise (Reopens S.knows S.may_leave) stores.items result.1.items }
{
    let mut all = true;
    for store in stores {
        next.push_reserved(reopen_one(store, threads, room, &mut all));
    }
    (all, next)
}

// The stores of the managers of a settled opening, for the next one. It fails only for want of memory: then each is as
// it was, or reopened.
fn reopen_stores<S: Store + Drop>(
    alloc: Global,
    stores: Vec<S>,
    threads: u32,
    room: u32,
) -> Result<Vec<S>, Vec<S>>
    requires threads { (1 ≤ threads) × (threads ≤ MOST_THREADS) }
    requires room { (1 ≤ room) × (room ≤ MOST_JOURNALED) }
    ensures reopened { IfOk result (λ r. Pairwise (Reopens S.knows S.may_leave) stores.items r.items) }
    ensures stay { IfErr result (λ r. Pairwise (KeepsAsMuch S.knows S.may_leave) stores.items r.items) }
{
    let Ok(next) = Vec::with_capacity(alloc, stores.len()) else {
        return Err(stores);
    };
    let (all, next) = reopen_each(stores, threads, room, next);
    if all { Ok(next) } else { Err(next) }
}

// Opens it again and runs all, with stores that were reopened.
fn run_reopened<
    R: Threads + Wait + Copy + Send + 'static,
    C: ClientAgain + Send + 'static,
    P: Pace + Drop + Send + 'static,
    S: Store + Drop + Send + 'static,
>(
    rt: &R,
    alloc: Global,
    settled: Settled,
    again: &Again,
    clients: Vec<C>,
    paces: Vec<P>,
    stores: Vec<S>,
) -> (Result<Run<WithScan<C>>, AgainFault<C>>, Vec<S>)
    requires clients { length clients.items ≡ again.now.threads }
    requires paces { managers_in settled ≤ length paces.items }
    requires stores { StoresKeep S.knows S.may_leave (reopening settled again.now).first stores.items }
    ensures ran { IfOk result.0 (λ r. IsRunAgain C.works_again settled again.now clients.items r.clients.items
        r.settled) }
    ensures kept { IfOk result.0 (λ r. KeepLast S.knows S.may_leave r.settled result.1.items) }
    ensures bad { IfErr result.0 (λ f. IsBad f ↔ ¬ MayReopen settled again.now) }
    ensures sound { OnOk result.0 (MayReopen settled again.now) }
    ensures unopened { IfErr result.0 (IfUnopened (λ u. (u.settled ≡ settled) × (u.clients ≡ clients))) }
    ensures unopened_stores { IfErr result.0 (IfUnopened (λ u. KeepOne S.knows S.may_leave settled result.1.items)) }
    ensures unstarted { IfErr result.0 (IfUnstarted (λ o. IsOpened (reopening settled again.now) o
        × AreGiven settled again.now clients.items (clients_of o))) }
    ensures unstarted_stores { IfErr result.0 (IfUnstarted (λ o.
        StoresKeep S.knows S.may_leave (reopening settled again.now).first result.1.items)) }
    ensures unsettled { IfErr result.0 (IfUnsettled (HasRunAgain C.works_again settled again.now clients.items)) }
    ensures kept_so { IfErr result.0 (IfUnsettled (λ ran.
        StoresKeep S.knows S.may_leave (tables_served ran.workers.items) result.1.items)) }
{
    match open_clients_again(rt, alloc, settled, again, clients) {
        Ok(opened) => {
            let (ran, stores) = opened.run_stored(rt, alloc, paces, stores);
            match ran {
                Ok(run) => (Ok(run), stores),
                Err(OpenedFault::Unstarted(opened)) => {
                    (Err(AgainFault::Unstarted(opened)), stores)
                }
                Err(OpenedFault::Unsettled(ran)) => (Err(AgainFault::Unsettled(ran)), stores),
            }
        }
        Err(unopened) => (Err(AgainFault::Unopened(unopened)), stores),
    }
}

/// Opens a settled opening again and runs it as `run_clients_again` does, each manager with its store: manager m has
/// the store at place m - 1, which keeps the tables that the settled opening has of it, or what a reopening makes of
/// them, and is reopened here.
///
/// The stores come back, at a fault too: so that they may be given here again where it wasn't opened again, ready for
/// `Opened::run_stored` where it was opened and not run, and else each keeps the tables that its manager has at the
/// end. The faults are those of `run_clients_again`. Where a store fails it never returns.
pub fn run_clients_again_stored<
    R: Threads + Wait + Copy + Send + 'static,
    C: ClientAgain + Send + 'static,
    P: Pace + Drop + Send + 'static,
    S: Store + Drop + Send + 'static,
>(
    rt: &R,
    alloc: Global,
    settled: Settled,
    again: &Again,
    clients: Vec<C>,
    paces: Vec<P>,
    stores: Vec<S>,
) -> (Result<Run<WithScan<C>>, AgainFault<C>>, Vec<S>)
    requires clients { length clients.items ≡ again.now.threads }
    requires paces { managers_in settled ≤ length paces.items }
    requires stores { KeepOne S.knows S.may_leave settled stores.items }
    ensures ran { IfOk result.0 (λ r. IsRunAgain C.works_again settled again.now clients.items r.clients.items
        r.settled) }
    ensures kept { IfOk result.0 (λ r. KeepLast S.knows S.may_leave r.settled result.1.items) }
    ensures bad { IfErr result.0 (λ f. IsBad f ↔ ¬ MayReopen settled again.now) }
    ensures sound { OnOk result.0 (MayReopen settled again.now) }
    ensures unopened { IfErr result.0 (IfUnopened (λ u. (u.settled ≡ settled) × (u.clients ≡ clients))) }
    ensures unopened_stores { IfErr result.0 (IfUnopened (λ u. KeepOne S.knows S.may_leave settled result.1.items)) }
    ensures unstarted { IfErr result.0 (IfUnstarted (λ o. IsOpened (reopening settled again.now) o
        × AreGiven settled again.now clients.items (clients_of o))) }
    ensures unstarted_stores { IfErr result.0 (IfUnstarted (λ o.
        StoresKeep S.knows S.may_leave (reopening settled again.now).first result.1.items)) }
    ensures unsettled { IfErr result.0 (IfUnsettled (HasRunAgain C.works_again settled again.now clients.items)) }
    ensures kept_so { IfErr result.0 (IfUnsettled (λ ran.
        StoresKeep S.knows S.may_leave (tables_served ran.workers.items) result.1.items)) }
{
    if !may_reopen(&settled, again) {
        let why = OpenFault::BadPlan;
        let unopened = UnopenedClients {
            why,
            settled,
            clients,
        };
        return (Err(AgainFault::Unopened(unopened)), stores);
    }
    match reopen_stores(alloc, stores, again.threads, again.threads * again.requests) {
        Ok(stores) => run_reopened(rt, alloc, settled, again, clients, paces, stores),
        Err(stores) => {
            let why = OpenFault::NoMemory;
            let unopened = UnopenedClients {
                why,
                settled,
                clients,
            };
            (Err(AgainFault::Unopened(unopened)), stores)
        }
    }
}
