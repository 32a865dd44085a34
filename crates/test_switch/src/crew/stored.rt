//! Runs over managers that have stores: what the stores keep after a run, and after the next opening.
use super::again::{Leaver, again, first_plan, one_leaver, only, only_again, rolled_one_back};
use std::alloc::Global;
use std::process::Abort;
use std::sync::Wait;
use std::thread::Threads;
use xa_crew::{Run, open_clients};
use xa_crew_again::{AgainFault, run_clients_again_stored};
use xa_store::Store;
use xa_store_memory::MemoryStore;
use xa_switch::OpenFault;
use xa_tables::Manager;
use xa_words::Key;
use xa_worker::Free;

fn key(rt: &impl Abort) -> Key {
    Key::new(b"a").expect(rt, "a key")
}

// A store for each manager of the first plan.
fn stores_of(rt: &impl Abort, alloc: Global) -> Vec<MemoryStore> {
    let mut stores = Vec::new(alloc);
    for _ in 0..2 {
        let twin = Manager::new(alloc, &[(key(rt), 5)], 1, 8).expect(rt, "one account");
        stores
            .push(MemoryStore::new(alloc, twin, 1, 8).expect(rt, "memory"))
            .expect(rt, "memory");
    }
    stores
}

// A run over them that leaves a branch prepared at manager 1.
fn run_one<R: Threads + Wait + Abort + Copy + Send + 'static>(
    rt: &R,
    alloc: Global,
) -> (Run<Leaver>, Vec<MemoryStore>) {
    let plan = first_plan(rt, alloc);
    let opened = open_clients(rt, alloc, &plan, one_leaver(rt, alloc)).expect(rt, "an opening");
    let paces = Vec::from_array(alloc, [Free, Free]).expect(rt, "memory");
    let (ran, stores) = opened.run_stored(rt, alloc, paces, stores_of(rt, alloc));
    let run = ran.expect(rt, "a run");
    assert!(rt; only(rt, &run).prepared == 0);
    (run, stores)
}

// After a crash an opening finds so many branches at each manager, and the values as they were.
fn would_find(rt: &impl Abort, alloc: Global, stores: Vec<MemoryStore>, left: [usize; 2]) {
    assert!(rt; stores.len() == 2);
    let mut place = 0;
    for store in stores {
        assert!(rt; !store.owes());
        let found = store.after_crash(1, 8).expect(rt, "memory");
        assert!(rt; found.left(alloc).expect(rt, "memory").len() == left[place]);
        assert!(rt; found.value(&key(rt)) == Some(5));
        place += 1;
    }
}

#[test]
fn stores_owe_nothing_after_a_run(rt: HostRuntime) {
    let alloc = rt.alloc();
    let (_, stores) = run_one(&rt, alloc);
    would_find(&rt, alloc, stores, [1, 0]);
}

#[test]
fn two_openings_use_the_same_stores(rt: HostRuntime) {
    let alloc = rt.alloc();
    let (run, stores) = run_one(&rt, alloc);
    let clients = one_leaver(&rt, alloc);
    let paces = Vec::from_array(alloc, [Free, Free]).expect(&rt, "memory");
    let (ran, stores) = run_clients_again_stored(
        &rt,
        alloc,
        run.settled,
        &again(8),
        clients,
        paces,
        stores,
    );
    rolled_one_back(&rt, &ran.expect(&rt, "a run"));
    would_find(&rt, alloc, stores, [0, 0]);
}

#[test]
fn stores_of_an_opening_that_is_refused_come_back(rt: HostRuntime) {
    let alloc = rt.alloc();
    let (run, stores) = run_one(&rt, alloc);
    let clients = one_leaver(&rt, alloc);
    let paces = Vec::from_array(alloc, [Free, Free]).expect(&rt, "memory");
    let (ran, stores) = run_clients_again_stored(
        &rt,
        alloc,
        run.settled,
        &again(7),
        clients,
        paces,
        stores,
    );
    let Err(AgainFault::Unopened(back)) = ran else {
        panic!(rt; "it was opened again");
    };
    assert!(rt; back.why == OpenFault::BadPlan && back.clients.len() == 1);
    would_find(&rt, alloc, stores, [1, 0]);
}
