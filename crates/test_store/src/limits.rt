//! What a store owes, for how much it has room, and a store that keeps nothing.

use crate::histories::{Served, history};
use std::alloc::Global;
use std::process::Abort;
use xa_store::{NoStore, Store, settle_or_stop};
use xa_words::{Code, Op, Request};

#[test]
fn a_store_owes_until_it_is_settled(rt: HostRuntime) {
    let (mut served, steps) = (Served::new(&rt, rt.alloc()), history(&rt));
    let mut store = Served::store(&rt, rt.alloc(), 64);
    for step in &steps {
        assert!(rt; !store.owes());
        served.serve(&rt, &mut store, step);
        assert!(rt; store.owes());
        settle_or_stop(&rt, &mut store, served.manager());
    }
    assert!(rt; !store.owes());
    assert!(rt; Served::found(&rt, store).value(&rt, b"a") == 70);
}

#[test]
fn a_store_that_is_told_of_too_much_fails(rt: HostRuntime) {
    let (mut served, steps) = (Served::new(&rt, rt.alloc()), history(&rt));
    let mut store = Served::store(&rt, rt.alloc(), 2);
    for (place, step) in steps.iter().take(3).enumerate() {
        assert!(rt; store.is_full() == (place == 2));
        served.serve(&rt, &mut store, step);
    }
    assert!(rt; store.settle(served.manager()).is_err());
    assert!(rt; store.owes());
}

#[test]
fn a_settle_makes_room(rt: HostRuntime) {
    let (mut served, steps) = (Served::new(&rt, rt.alloc()), history(&rt));
    let mut store = Served::store(&rt, rt.alloc(), 2);
    for step in &steps {
        if store.is_full() {
            assert!(rt; store.settle(served.manager()).is_ok());
        }
        assert!(rt; !store.is_full());
        served.serve(&rt, &mut store, step);
    }
    assert!(rt; store.settle(served.manager()).is_ok());
}

// A store that is told of a request of this thread fails.
fn fails_at(rt: &impl Abort, alloc: Global, served: &Served, thread: u32) {
    let mut store = Served::store(rt, alloc, 2);
    let request = Request {
        thread,
        number: 0,
        op: Op::OpenRm,
    };
    store.tell(&request, Code::Done);
    assert!(rt; store.owes());
    assert!(rt; store.settle(served.manager()).is_err());
}

#[test]
fn a_request_of_no_thread_of_the_manager_is_a_failure(rt: HostRuntime) {
    let served = Served::new(&rt, rt.alloc());
    fails_at(&rt, rt.alloc(), &served, 0);
    fails_at(&rt, rt.alloc(), &served, 3);
}

#[test]
fn no_store_owes_nothing(rt: HostRuntime) {
    let (mut served, steps) = (Served::new(&rt, rt.alloc()), history(&rt));
    let mut store = NoStore;
    for step in &steps {
        served.serve(&rt, &mut store, step);
        assert!(rt; !store.owes() && !store.is_full());
        assert!(rt; store.settle(served.manager()).is_ok());
    }
}
