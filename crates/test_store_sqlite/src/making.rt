//! Makings of a new file that fail.

use crate::files::{Failure, NONE, NUMBER, Tapes, image, nothing, tapes_of};
use crate::lent::{Asked, ENDLESS, opened};
use crate::served::key;
use std::alloc::Global;
use std::process::Abort;
use xa_disk::Tear;
use xa_store_sqlite::StoreOpenFault;
use xa_tables::Manager;

const TEARS: [Tear; 4] = [
    Tear::Nothing,
    Tear::Beginning,
    Tear::Sectors,
    Tear::Everything,
];

// A making with `a` at 100 and `b` at 50, on a disk that is full after so many calls of the log and the database file.
fn make(
    rt: &impl Abort,
    alloc: Global,
    tapes: &mut Tapes,
    calls: (u32, u32),
) -> Option<StoreOpenFault> {
    let asked = Asked {
        number: NUMBER,
        accounts: &[(key(rt, b"a"), 100), (key(rt, b"b"), 50)],
        calls,
    };
    match opened(alloc, tapes, asked) {
        Ok(manager) => {
            assert!(rt; is_first(rt, &manager));
            None
        }
        Err(fault) => Some(fault),
    }
}

// Whether these are the accounts of the making.
fn is_first(rt: &impl Abort, manager: &Manager) -> bool {
    manager.value(&key(rt, b"a")) == Some(100)
        && manager.value(&key(rt, b"b")) == Some(50)
        && manager.value(&key(rt, b"c")).is_none()
}

// Whether these are the accounts of the opening that comes after it.
fn is_second(rt: &impl Abort, manager: &Manager) -> bool {
    manager.value(&key(rt, b"c")) == Some(7)
        && manager.value(&key(rt, b"a")).is_none()
        && manager.value(&key(rt, b"b")).is_none()
}

// What an opening finds of a making.
#[derive(Clone, Copy, PartialEq, Eq)]
enum Left {
    // Its accounts.
    Made,
    // Nothing, so that it makes a file with accounts of its own.
    Bare,
}

// What an opening, with another account where nothing was made, finds of what a crash leaves.
fn found(rt: &impl Abort, alloc: Global, tapes: &Tapes, choice: (u32, u32)) -> Left {
    let bytes = image(rt, alloc, tapes, choice);
    let mut tapes = tapes_of(rt, alloc, &bytes, NONE);
    let asked = Asked {
        number: NUMBER,
        accounts: &[(key(rt, b"c"), 7)],
        calls: ENDLESS,
    };
    let Ok(manager) = opened(alloc, &mut tapes, asked) else {
        panic!(rt; "no store");
    };
    if is_first(rt, &manager) {
        return Left::Made;
    }
    assert!(rt; is_second(rt, &manager));
    Left::Bare
}

// What a crash leaves, by a turn: what the disk has kept, what was written, and mixtures.
fn choice_of(turn: u32) -> (u32, u32) {
    match turn {
        0 => (0, 0),
        1 => (1, 1),
        2 => (0, 1),
        3 => (1, 0),
        _ => (turn - 2, turn * 7 % 31),
    }
}

// How many images there are by what is left.
#[derive(Clone, Copy)]
struct Counts {
    made: u32,
    bare: u32,
}

impl Counts {
    fn add(&mut self, left: Left) {
        match left {
            Left::Made => self.made += 1,
            Left::Bare => self.bare += 1,
        }
    }
}

// Counts two images of a making that fails.
fn count_images(rt: &impl Abort, alloc: Global, failure: Failure, first: u32, counts: &mut Counts) {
    let mut tapes = tapes_of(rt, alloc, &nothing(alloc), failure);
    let fault = make(rt, alloc, &mut tapes, ENDLESS);
    assert!(rt; fault == Some(StoreOpenFault::Failed));
    for turn in first..first + 2 {
        counts.add(found(rt, alloc, &tapes, choice_of(turn % 16)));
    }
}

// How many calls a making makes of the log and of the database file.
fn calls(rt: &impl Abort, alloc: Global) -> (u32, u32) {
    let mut tapes = tapes_of(rt, alloc, &nothing(alloc), NONE);
    assert!(rt; make(rt, alloc, &mut tapes, ENDLESS).is_none());
    (tapes.log.calls(), tapes.db.calls())
}

// The call of a making with this number, those of the log first, fails so.
fn failure_of(call: u32, of_log: u32, tear: Tear) -> Failure {
    if call < of_log {
        return Failure {
            of_log: call + 1,
            of_db: 0,
            tear,
        };
    }
    Failure {
        of_log: 0,
        of_db: call + 1 - of_log,
        tear,
    }
}

// Of 33 calls each fails twice, torn in two ways: 132 images are opened.
#[test]
fn each_failure_of_a_making_leaves_the_accounts_or_none(rt: HostRuntime) {
    let alloc = rt.alloc();
    let (of_log, of_db) = calls(&rt, alloc);
    let mut counts = Counts { made: 0, bare: 0 };
    for call in 0..of_log + of_db {
        for turn in 0..2 {
            let tear = TEARS[((call + 2 * turn) % 4) as usize];
            let failure = failure_of(call, of_log, tear);
            count_images(&rt, alloc, failure, 2 * call + 3 * turn, &mut counts);
        }
    }
    let Counts { made, bare } = counts;
    assert!(rt; made + bare == 132);
    assert!(rt; made > 0 && bare > 100, "{made} {bare}");
}

// What was made is there, whatever a crash leaves.
#[test]
fn a_making_that_succeeds_is_durable(rt: HostRuntime) {
    let alloc = rt.alloc();
    let mut tapes = tapes_of(&rt, alloc, &nothing(alloc), NONE);
    assert!(rt; make(&rt, alloc, &mut tapes, ENDLESS).is_none());
    for turn in 0..16 {
        assert!(rt; found(&rt, alloc, &tapes, choice_of(turn)) == Left::Made);
    }
}

// After which calls of the log and of the database file a disk is full.
fn full_at(call: u32, of_log: u32) -> (u32, u32) {
    if call < of_log {
        return (call, u32::MAX);
    }
    (u32::MAX, call - of_log)
}

// A full disk is named so once the tables are there. The kit's opening makes these, and tells it as a failure. Nothing
// that was refused is there.
#[test]
fn a_making_without_room_says_so(rt: HostRuntime) {
    let alloc = rt.alloc();
    let (of_log, of_db) = calls(&rt, alloc);
    let (mut failed, mut refused): (u32, u32) = (0, 0);
    for call in 0..of_log + of_db {
        let mut tapes = tapes_of(&rt, alloc, &nothing(alloc), NONE);
        match make(&rt, alloc, &mut tapes, full_at(call, of_log)) {
            // After this call there are only syncs.
            None => continue,
            Some(StoreOpenFault::Failed) => failed += 1,
            Some(fault) => {
                assert!(rt; fault == StoreOpenFault::NoRoom);
                refused += 1;
            }
        }
        assert!(rt; found(&rt, alloc, &tapes, (0, 0)) != Left::Made);
    }
    assert!(rt; failed > 10 && refused > 3);
}
