//! Runs in a thread of their own, whose store fails or doesn't.

use crate::histories::{Served, history};
use std::alloc::Global;
use std::process::Abort;
use std::sync::Wait;
use xa_store::{Store, settle_or_stop};
use xa_store_memory::MemoryStore;
use xa_watch::{Stopped, Watch, Watched, WatchedRun, run_watched};

// Settles so many times, and comes to the store.
#[derive(Drop)]
struct Settles {
    store: Watched<MemoryStore>,
    served: Served,
    times: u32,
}

impl<R: Wait> WatchedRun<R, MemoryStore> for Settles {
    ghost can_run = { λ _. Unit {0} };

    ghost comes_to = { λ _ _. Unit {0} };

    fn run(self, rt: &R) -> MemoryStore {
        let Settles {
            mut store,
            served,
            times,
        } = self;
        for _ in 0..times {
            settle_or_stop(rt, &mut store, served.manager());
        }
        store.into_store()
    }
}

// A run of so many settles, after which its store fails at the one after so many.
fn run_of(rt: &impl Abort, alloc: Global, watch: &Watch, times: u32, failing: u32) -> Settles {
    let (mut served, steps) = (Served::new(rt, alloc), history(rt));
    let store = Served::store(rt, alloc, 64).failing_after(failing, false);
    let shared = watch.share().expect(rt, "few have it");
    let mut store = Watched::new(store, 2, shared);
    assert!(rt; store.number() == 2);
    for step in &steps {
        served.serve(rt, &mut store, step);
    }
    Settles {
        store,
        served,
        times,
    }
}

#[test]
fn a_run_ends_where_no_store_fails(rt: HostRuntime) {
    let watch = Watch::new(rt.alloc()).expect(&rt, "memory");
    let run = run_of(&rt, rt.alloc(), &watch, 3, 3);
    let Ok(store) = run_watched(&rt, &watch, run) else {
        panic!(rt; "no store fails");
    };
    assert!(rt; !store.owes());
    assert!(rt; Served::found(&rt, store).value(&rt, b"a") == 70);
}

#[test]
fn a_store_that_fails_is_named(rt: HostRuntime) {
    let watch = Watch::new(rt.alloc()).expect(&rt, "memory");
    let run = run_of(&rt, rt.alloc(), &watch, 4, 3);
    match run_watched(&rt, &watch, run) {
        Err(Stopped::Failed(store)) => assert!(rt; store == 2),
        _ => panic!(rt; "its fourth settle fails"),
    }
}

#[test]
fn a_watch_that_was_told_of_a_run_does_no_other(rt: HostRuntime) {
    let watch = Watch::new(rt.alloc()).expect(&rt, "memory");
    let first = run_of(&rt, rt.alloc(), &watch, 1, 3);
    assert!(rt; run_watched(&rt, &watch, first).is_ok());
    let second = run_of(&rt, rt.alloc(), &watch, 4, 3);
    match run_watched(&rt, &watch, second) {
        Err(Stopped::NotBegun(run)) => assert!(rt; run.times == 4),
        _ => panic!(rt; "the watch is told that a run has ended"),
    }
}

#[test]
fn a_watched_store_is_reopened_as_it_is(rt: HostRuntime) {
    let watch = Watch::new(rt.alloc()).expect(&rt, "memory");
    let Settles {
        mut store,
        served,
        ..
    } = run_of(&rt, rt.alloc(), &watch, 0, 3);
    assert!(rt; store.owes());
    assert!(rt; !store.is_full());
    assert!(rt; store.settle(served.manager()).is_ok());
    assert!(rt; !store.owes());
    let Ok(store) = store.reopened(2, 64) else {
        panic!(rt; "memory");
    };
    assert!(rt; store.number() == 2);
    assert!(rt; Served::found(&rt, store.into_store()).value(&rt, b"a") == 70);
}
