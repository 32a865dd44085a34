//! Each failure of a file, and what crashes then leave.

use crate::files::{Bytes, Failure, NONE, Tapes, closed_trees, image};
use crate::served::{Served, add, branch};
use std::alloc::Global;
use std::process::Abort;
use xa_disk::Tear;
use xa_store::Store;
use xa_tables::{HeuristicDecision, State};
use xa_words::{EndHow, Op, StartHow};

const TEARS: [Tear; 4] = [
    Tear::Nothing,
    Tear::Beginning,
    Tear::Sectors,
    Tear::Everything,
];

// What a crash leaves of the log and of the database file.
const IMAGES: [(u32, u32); 9] = [
    (0, 0),
    (1, 1),
    (0, 1),
    (1, 0),
    (2, 2),
    (3, 4),
    (5, 3),
    (6, 7),
    (8, 9),
];

// The names of the branches.
const NAMES: [&[u8]; 3] = [b"x", b"y", b"z"];

/// What a manager has: the values of a and b, and the states of the branches.
#[derive(Clone, Copy, PartialEq, Eq)]
struct Found {
    values: (u64, u64),
    states: [Option<State>; 3],
}

// How many batches there are, and what is durable after each.
const BATCHES: usize = 6;

const P: Option<State> = Some(State::Prepared);

const C: Option<State> = Some(State::HeuristicallyCompleted(HeuristicDecision::Commit));

const R: Option<State> = Some(State::HeuristicallyCompleted(HeuristicDecision::Rollback));

const AFTER: [Found; 7] = [
    Found {
        values: (100, 50),
        states: [None, None, None],
    },
    Found {
        values: (100, 50),
        states: [P, None, None],
    },
    Found {
        values: (100, 50),
        states: [P, P, None],
    },
    Found {
        values: (70, 55),
        states: [None, C, None],
    },
    Found {
        values: (70, 55),
        states: [None, None, P],
    },
    Found {
        values: (70, 55),
        states: [P, None, R],
    },
    Found {
        values: (70, 57),
        states: [None, None, None],
    },
];

// A batch of requests.
fn serve(rt: &impl Abort, served: &mut Served, batch: usize) {
    let (x, y, z) = (branch(rt, b"x"), branch(rt, b"y"), branch(rt, b"z"));
    match batch {
        0 => {
            served.does(rt, Op::OpenRm);
            served.prepare(rt, x, b"a", -30);
        }
        1 => served.prepare(rt, y, b"b", 5),
        2 => {
            served.does(rt, Op::Commit(x, false));
            served.does(rt, Op::Heur(y, true));
        }
        3 => {
            served.does(rt, Op::Forget(y));
            served.prepare(rt, z, b"a", 1);
        }
        4 => {
            served.does(rt, Op::Heur(z, false));
            // The key is free again, and so is the name.
            served.prepare(rt, x, b"a", -70);
        }
        _ => {
            served.does(rt, Op::Forget(z));
            served.does(rt, Op::Rollback(x));
            served.does(rt, Op::Start(z, StartHow::Fresh));
            served.does(rt, add(rt, b"b", 2));
            served.does(rt, Op::End(z, EndHow::Success));
            served.does(rt, Op::Commit(z, true));
        }
    }
}

// What a manager has.
fn found_in(rt: &impl Abort, served: &Served) -> Found {
    let state = |name: &[u8]| served.manager.state(&branch(rt, name));
    Found {
        values: (served.value(rt, b"a"), served.value(rt, b"b")),
        states: [state(NAMES[0]), state(NAMES[1]), state(NAMES[2])],
    }
}

// Serves batches, each of them settled, until a settle fails. How many were settled.
fn run(rt: &impl Abort, served: &mut Served) -> usize {
    for batch in 0..BATCHES {
        serve(rt, served, batch);
        if served.store.settle(&served.manager).is_err() {
            // Each settle after it fails too.
            assert!(rt; served.store.settle(&served.manager).is_err());
            assert!(rt; served.store.owes());
            return batch;
        }
        assert!(rt; !served.store.owes());
    }
    BATCHES
}

// The files after batches of which a settle fails, and how many were settled; 0 where the store isn't opened.
fn after_run(
    rt: &impl Abort,
    alloc: Global,
    base: &Bytes,
    failure: Failure,
) -> Option<(usize, Tapes)> {
    match Served::found(rt, alloc, base, failure) {
        Ok(mut served) => {
            let settled = run(rt, &mut served);
            Some((settled, served.close()))
        }
        Err(_) => None,
    }
}

// The files of a new store.
fn base(rt: &impl Abort, alloc: Global) -> Bytes {
    Served::new(rt, alloc).kept(rt, alloc)
}

// What a crash leaves is opened: it has what the last settle has left, or the one under way.
fn leaves_a_settle(
    rt: &impl Abort,
    alloc: Global,
    tapes: &Tapes,
    choice: (u32, u32),
    settled: usize,
) {
    let bytes = image(rt, alloc, tapes, choice);
    let Ok(served) = Served::found(rt, alloc, &bytes, NONE) else {
        panic!(rt; "no store");
    };
    let found = found_in(rt, &served);
    assert!(rt; found == AFTER[settled] || found == AFTER[(settled + 1).min(BATCHES)]);
}

// How many images are opened of batches in which a call fails: each has a settle.
fn settles_left(rt: &impl Abort, alloc: Global, base: &Bytes, failure: Failure) -> u32 {
    let Some((settled, tapes)) = after_run(rt, alloc, base, failure) else {
        return 0;
    };
    let call = (failure.of_log + failure.of_db) as usize;
    for turn in 0..3 {
        leaves_a_settle(rt, alloc, &tapes, IMAGES[(call + 4 * turn) % 9], settled);
    }
    3
}

#[test]
fn each_settle_leaves_what_was_settled(rt: HostRuntime) {
    let alloc = rt.alloc();
    let base = base(&rt, alloc);
    for batches in 0..=BATCHES {
        let Ok(mut served) = Served::found(&rt, alloc, &base, NONE) else {
            panic!(rt; "no store");
        };
        for batch in 0..batches {
            serve(&rt, &mut served, batch);
            served.settle(&rt);
        }
        let tapes = served.close();
        for choice in [IMAGES[batches], IMAGES[8 - batches]] {
            let bytes = image(&rt, alloc, &tapes, choice);
            let Ok(served) = Served::found(&rt, alloc, &bytes, NONE) else {
                panic!(rt; "no store");
            };
            assert!(rt; found_in(&rt, &served) == AFTER[batches]);
        }
    }
}

#[test]
fn one_settle_takes_all_batches(rt: HostRuntime) {
    let alloc = rt.alloc();
    let mut served = Served::new(&rt, alloc);
    for batch in 0..5 {
        serve(&rt, &mut served, batch);
    }
    served.settle(&rt);
    let bytes = served.kept(&rt, alloc);
    let Ok(served) = Served::found(&rt, alloc, &bytes, NONE) else {
        panic!(rt; "no store");
    };
    assert!(rt; found_in(&rt, &served) == AFTER[5]);
}

// Of 36 calls four are of the opening, which is refused where one of them fails. Three images of each other one are
// opened, 96 in all. An opening takes a quarter of a second with checks; checks/images opens thousands without.
#[test]
fn each_failure_of_the_log_leaves_a_settle(rt: HostRuntime) {
    let alloc = rt.alloc();
    let base = base(&rt, alloc);
    let Some((settled, tapes)) = after_run(&rt, alloc, &base, NONE) else {
        panic!(rt; "no store");
    };
    assert!(rt; settled == BATCHES && tapes.log.calls() > 12);
    let mut images: u32 = 0;
    for of_log in 1..=tapes.log.calls() {
        let failure = Failure {
            of_log,
            of_db: 0,
            tear: TEARS[(of_log / 3 % 4) as usize],
        };
        images += settles_left(&rt, alloc, &base, failure);
    }
    assert!(rt; images == 96, "{images}");
}

// The files after all batches and a copy of the log to the database file, of which a call fails; nothing where the
// store isn't opened.
fn after_copy(rt: &impl Abort, alloc: Global, base: &Bytes, failure: Failure) -> Option<Tapes> {
    let Ok(mut served) = Served::found(rt, alloc, base, failure) else {
        return None;
    };
    assert!(rt; run(rt, &mut served) == BATCHES);
    let Served { manager: _, store } = served;
    let mut trees = store.into_trees();
    let _ = trees.checkpoint();
    Some(closed_trees(trees))
}

// How many images are opened of a copy of which a call fails: each has all batches.
fn copies_left(rt: &impl Abort, alloc: Global, base: &Bytes, of_db: u32, tear: Tear) -> u32 {
    let failure = Failure {
        of_log: 0,
        of_db,
        tear,
    };
    let Some(tapes) = after_copy(rt, alloc, base, failure) else {
        return 0;
    };
    for turn in [0, 4] {
        let choice = IMAGES[(of_db as usize + turn) % 9];
        leaves_a_settle(rt, alloc, &tapes, choice, BATCHES);
    }
    2
}

// A settle writes to the log alone, which is copied to the database file once it has 1,000 frames. Of 12 calls five are
// of the opening. Each other one fails twice, torn in two ways, and two images of it are opened: 28 in all.
#[test]
fn each_failure_of_the_database_file_leaves_all_settles(rt: HostRuntime) {
    let alloc = rt.alloc();
    let base = base(&rt, alloc);
    let Some(tapes) = after_copy(&rt, alloc, &base, NONE) else {
        panic!(rt; "no store");
    };
    let calls = tapes.db.calls();
    let mut images: u32 = 0;
    for of_db in 1..=calls {
        for turn in 0..2 {
            let tear = TEARS[((of_db + 2 * turn) % 4) as usize];
            images += copies_left(&rt, alloc, &base, of_db, tear);
        }
    }
    assert!(rt;
        images == 4 * (calls - 5) && images > 20,
        "{images} of {calls} calls"
    );
}
