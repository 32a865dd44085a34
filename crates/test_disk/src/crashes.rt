//! Every failure of a file in memory, and files that a crash then may leave.

use crate::database::{Database, Pair, closed, created, disks_of, opened};
use crate::rounds::{State, do_round, do_rounds, state_after, state_of};
use std::alloc::Global;
use std::process::Abort;
use xa_disk::{Tape, Tear};

// How many rounds there are.
const ROUNDS: u32 = 6;

const TEARS: [Tear; 4] = [
    Tear::Nothing,
    Tear::Beginning,
    Tear::Sectors,
    Tear::Everything,
];

// What a crash leaves of the log and of the database file.
const IMAGES: [(u32, u32); 9] = [
    (0, 0),
    (1, 1),
    (0, 1),
    (1, 0),
    (2, 2),
    (3, 4),
    (5, 3),
    (6, 7),
    (8, 9),
];

// Which call of which file fails, and how.
#[derive(Clone, Copy)]
struct Failure {
    of_log: u32,
    of_db: u32,
    tear: Tear,
}

const NONE: Failure = Failure {
    of_log: 0,
    of_db: 0,
    tear: Tear::Nothing,
};

fn tapes_of(rt: &impl Abort, alloc: Global, log: &[u8], db: &[u8], failure: Failure) -> Pair<Tape> {
    Pair {
        log: Tape::of(alloc, log, failure.of_log, failure.tear).expect(rt, "memory"),
        db: Tape::of(alloc, db, failure.of_db, failure.tear).expect(rt, "memory"),
    }
}

// A new database, or the files.
fn new_over(
    rt: &impl Abort,
    alloc: Global,
    tapes: Pair<Tape>,
) -> Result<Database<Tape>, Pair<Tape>> {
    created(rt, alloc, disks_of(alloc, tapes)?)
}

// The database of the files, or the files.
fn found_in(
    rt: &impl Abort,
    alloc: Global,
    tapes: Pair<Tape>,
) -> Result<Database<Tape>, Pair<Tape>> {
    opened(rt, alloc, disks_of(alloc, tapes)?)
}

// The files that a crash leaves.
fn crashed(rt: &impl Abort, alloc: Global, tapes: &Pair<Tape>, image: (u32, u32)) -> Pair<Tape> {
    let log = tapes.log.image(alloc, image.0).expect(rt, "memory");
    let db = tapes.db.image(alloc, image.1).expect(rt, "memory");
    tapes_of(rt, alloc, &log, &db, NONE)
}

// What the slots have in the files that a crash leaves, or nothing where they are no database.
fn state_in(
    rt: &impl Abort,
    alloc: Global,
    tapes: &Pair<Tape>,
    image: (u32, u32),
) -> Option<State> {
    match found_in(rt, alloc, crashed(rt, alloc, tapes, image)) {
        Ok(mut database) => state_of(&mut database, alloc),
        Err(_) => None,
    }
}

// The files of a new database.
fn base(rt: &impl Abort, alloc: Global) -> (Vec<u8>, Vec<u8>) {
    match new_over(rt, alloc, tapes_of(rt, alloc, &[], &[], NONE)) {
        Ok(database) => {
            let tapes = closed(database);
            let log = tapes.log.image(alloc, 0).expect(rt, "memory");
            let db = tapes.db.image(alloc, 0).expect(rt, "memory");
            (log, db)
        }
        Err(_) => panic!(rt; "no database"),
    }
}

// The files after rounds of which one fails, and how many were committed.
fn after_rounds(rt: &impl Abort, alloc: Global, tapes: Pair<Tape>) -> (u32, Pair<Tape>) {
    match found_in(rt, alloc, tapes) {
        Ok(mut database) => {
            let rounds = do_rounds(&mut database, ROUNDS);
            if rounds < ROUNDS {
                // Whatever comes after the failure isn't committed.
                assert!(rt; do_round(&mut database, rounds.saturating_add(2)).is_err());
            }
            (rounds, closed(database))
        }
        Err(tapes) => (0, tapes),
    }
}

// How many images there are of rounds in which a call fails, each of them right.
fn right_images(
    rt: &impl Abort,
    alloc: Global,
    base: &(Vec<u8>, Vec<u8>),
    failure: Failure,
) -> u32 {
    let tapes = tapes_of(rt, alloc, &base.0, &base.1, failure);
    let (rounds, tapes) = after_rounds(rt, alloc, tapes);
    let call = (failure.of_log + failure.of_db) as usize;
    let mut images: u32 = 0;
    for turn in 0..3 {
        let image = IMAGES[(call + 4 * turn) % 9];
        // The last commit, or the one that was under way.
        let state = state_in(rt, alloc, &tapes, image);
        let next = state_after(rounds.saturating_add(1));
        assert!(rt; state == Some(state_after(rounds)) || state == Some(next));
        images = images.saturating_add(1);
    }
    images
}

// How many calls all rounds make of the log and of the database file.
fn calls_of(rt: &impl Abort, alloc: Global, base: &(Vec<u8>, Vec<u8>)) -> (u32, u32) {
    let (rounds, tapes) = after_rounds(rt, alloc, tapes_of(rt, alloc, &base.0, &base.1, NONE));
    assert!(rt; rounds == ROUNDS);
    (tapes.log.calls(), tapes.db.calls())
}

#[test]
fn a_crash_after_a_commit_leaves_it(rt: HostRuntime) {
    let alloc = rt.alloc();
    let base = base(&rt, alloc);
    for rounds in 0..=ROUNDS {
        let tapes = tapes_of(&rt, alloc, &base.0, &base.1, NONE);
        let Ok(mut database) = found_in(&rt, alloc, tapes) else {
            panic!(rt; "no database");
        };
        assert!(rt; do_rounds(&mut database, rounds) == rounds);
        let tapes = closed(database);
        for image in IMAGES {
            assert!(rt; state_in(&rt, alloc, &tapes, image) == Some(state_after(rounds)));
        }
    }
}

// How the call with this number fails.
fn tear_of(call: u32) -> Tear {
    TEARS[(call / 3 % 4) as usize]
}

#[test]
fn each_failure_of_the_log_leaves_a_commit(rt: HostRuntime) {
    let alloc = rt.alloc();
    let base = base(&rt, alloc);
    let (calls, _) = calls_of(&rt, alloc, &base);
    let mut images: u32 = 0;
    for of_log in 1..=calls {
        let failure = Failure {
            of_log,
            of_db: 0,
            tear: tear_of(of_log),
        };
        images = images.saturating_add(right_images(&rt, alloc, &base, failure));
    }
    assert!(rt; images == 3 * calls && images > 60);
}

#[test]
fn each_failure_of_the_database_file_leaves_a_commit(rt: HostRuntime) {
    let alloc = rt.alloc();
    let base = base(&rt, alloc);
    let (_, calls) = calls_of(&rt, alloc, &base);
    let mut images: u32 = 0;
    for of_db in 1..=calls {
        let failure = Failure {
            of_log: 0,
            of_db,
            tear: tear_of(of_db),
        };
        images = images.saturating_add(right_images(&rt, alloc, &base, failure));
    }
    assert!(rt; images == 3 * calls && images > 10);
}

// Whether the files that a crash leaves of a making that failed have an empty database, or can have one made.
fn is_empty_or_makable(
    rt: &impl Abort,
    alloc: Global,
    tapes: &Pair<Tape>,
    image: (u32, u32),
) -> bool {
    let found = match new_over(rt, alloc, crashed(rt, alloc, tapes, image)) {
        Ok(database) => Ok(database),
        Err(_) => found_in(rt, alloc, crashed(rt, alloc, tapes, image)),
    };
    match found {
        Ok(mut database) => state_of(&mut database, alloc) == Some(state_after(0)),
        Err(_) => false,
    }
}

#[test]
fn each_failure_of_a_making_leaves_an_empty_database(rt: HostRuntime) {
    let alloc = rt.alloc();
    let mut failed: u32 = 0;
    for k in 2..40 {
        let failure = Failure {
            of_log: if k % 2 == 0 { k / 2 } else { 0 },
            of_db: if k % 2 == 1 { k / 2 } else { 0 },
            tear: tear_of(k),
        };
        if let Err(tapes) = new_over(&rt, alloc, tapes_of(&rt, alloc, &[], &[], failure)) {
            failed = failed.saturating_add(1);
            for turn in 0..3 {
                let image = IMAGES[(k as usize + 4 * turn) % 9];
                assert!(rt; is_empty_or_makable(&rt, alloc, &tapes, image));
            }
        }
    }
    assert!(rt; failed > 10);
}
