//! As many branches in doubt as a store is told of at once, over as many accounts as a manager may have.

use crate::files::{NONE, nothing, tapes_of};
use crate::served::Served;
use std::alloc::Global;
use std::process::Abort;
use xa_base::MOST_KEYS;
use xa_store::Store;
use xa_tables::State;
use xa_words::{Delta, EndHow, Key, Op, StartHow, Xid};

// How many branches there are.
const BRANCHES: usize = 64;

// The name of a key, by its number.
fn key_of(rt: &impl Abort, number: usize) -> Key {
    let digit = |place: usize| b'a' + ((number >> place) & 15) as u8;
    Key::new(&[b'k', digit(4), digit(0)]).expect(rt, "a short name")
}

fn branch_of(rt: &impl Abort, number: usize) -> Xid {
    Xid::new(-2, &[7; 64], &[(number & 255) as u8]).expect(rt, "a short name")
}

fn accounts(rt: &impl Abort, alloc: Global) -> Vec<(Key, u64)> {
    let mut accounts = Vec::new(alloc);
    for number in 0..MOST_KEYS {
        accounts
            .push((key_of(rt, number), 1_000_000_000_000 - number as u64))
            .expect(rt, "memory");
    }
    accounts
}

// What a branch adds to the key with this number.
fn delta_of(rt: &impl Abort, number: usize) -> Delta {
    Delta::new(number as i64 - 1_000).expect(rt, "within the limit")
}

// A branch works on four keys and is prepared.
fn prepare(rt: &impl Abort, served: &mut Served, number: usize) {
    let xid = branch_of(rt, number);
    served.does(rt, Op::Start(xid, StartHow::Fresh));
    for turn in 0..4 {
        let key = number + BRANCHES * turn;
        served.does(rt, Op::Add(key_of(rt, key), delta_of(rt, key)));
    }
    served.does(rt, Op::End(xid, EndHow::Success));
    served.does(rt, Op::Prepare(xid));
}

// The store after it was opened again.
fn again(rt: &impl Abort, alloc: Global, served: Served) -> Served {
    let bytes = served.kept(rt, alloc);
    let Ok(served) = Served::found(rt, alloc, &bytes, NONE) else {
        panic!(rt; "no store");
    };
    served
}

fn value_of(rt: &impl Abort, served: &Served, number: usize) -> u64 {
    served
        .manager
        .value(&key_of(rt, number))
        .expect(rt, "an account")
}

#[test]
fn many_branches_in_doubt_are_found_and_committed(rt: HostRuntime) {
    let alloc = rt.alloc();
    let accounts = accounts(&rt, alloc);
    let tapes = tapes_of(&rt, alloc, &nothing(alloc), NONE);
    let Ok(mut served) = Served::open(alloc, tapes, &accounts) else {
        panic!(rt; "no store");
    };
    served.does(&rt, Op::OpenRm);
    for number in 0..BRANCHES {
        assert!(rt; !served.store.is_full());
        prepare(&rt, &mut served, number);
    }
    assert!(rt; served.store.is_full());
    served.settle(&rt);
    let mut served = again(&rt, alloc, served);
    served.does(&rt, Op::OpenRm);
    for number in 0..BRANCHES {
        let xid = branch_of(&rt, number);
        assert!(rt; served.manager.state(&xid) == Some(State::Prepared));
        served.does(&rt, Op::Commit(xid, false));
    }
    served.settle(&rt);
    let served = again(&rt, alloc, served);
    assert!(rt; served.manager.left(alloc).expect(&rt, "memory").is_empty());
    for number in 0..MOST_KEYS {
        assert!(rt; value_of(&rt, &served, number) == 999_999_999_000);
    }
}

// One branch more than it has room for: the store has failed, and the next settle says so.
#[test]
fn one_branch_too_many_fails(rt: HostRuntime) {
    let alloc = rt.alloc();
    let accounts = accounts(&rt, alloc);
    let tapes = tapes_of(&rt, alloc, &nothing(alloc), NONE);
    let Ok(mut served) = Served::open(alloc, tapes, &accounts) else {
        panic!(rt; "no store");
    };
    served.does(&rt, Op::OpenRm);
    for number in 0..BRANCHES {
        prepare(&rt, &mut served, number);
    }
    // A branch that it was told of needs no room.
    served.does(&rt, Op::Rollback(branch_of(&rt, 3)));
    prepare(&rt, &mut served, 3);
    served.does(&rt, Op::Rollback(branch_of(&rt, 5)));
    let xid = branch_of(&rt, 100);
    served.does(&rt, Op::Start(xid, StartHow::Fresh));
    served.does(&rt, Op::Add(key_of(&rt, 5), delta_of(&rt, 5)));
    served.does(&rt, Op::End(xid, EndHow::Success));
    served.does(&rt, Op::Prepare(xid));
    assert!(rt; served.store.owes());
    assert!(rt; served.store.settle(&served.manager).is_err());
    let served = again(&rt, alloc, served);
    assert!(rt; served.manager.left(alloc).expect(&rt, "memory").is_empty());
}
