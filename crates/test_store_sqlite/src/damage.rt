//! Files with one byte turned.

use crate::files::{Bytes, NONE, Tapes, found_in, image, nothing, tapes_of};
use crate::served::{Served, branch};
use sqlite_disk::Files;
use std::alloc::Global;
use std::process::Abort;
use xa_store_sqlite::StoreOpenFault;
use xa_tables::{Manager, State};
use xa_words::Op;

// A store with a branch in doubt.
fn in_doubt(rt: &impl Abort, alloc: Global) -> Served {
    let mut served = Served::new(rt, alloc);
    served.does(rt, Op::OpenRm);
    served.prepare(rt, branch(rt, b"x"), b"a", -30);
    served.settle(rt);
    served
}

// Its database file, to which the log was copied, and no log.
fn checkpointed(rt: &impl Abort, alloc: Global) -> Bytes {
    let Served { manager: _, store } = in_doubt(rt, alloc);
    let mut trees = store.into_trees();
    assert!(rt; trees.checkpoint().is_ok());
    let Files { log, db } = trees.close();
    let tapes = Tapes {
        log: log.into_file(),
        db: db.into_file(),
    };
    let Bytes { log: _, db } = image(rt, alloc, &tapes, (0, 0));
    Bytes {
        log: Vec::new(alloc),
        db,
    }
}

// What is opened of files: the value of a, the branch, and how many there are; or why not.
fn opened(rt: &impl Abort, alloc: Global, bytes: &Bytes) -> Result<Manager, StoreOpenFault> {
    match found_in(alloc, tapes_of(rt, alloc, bytes, NONE), &[]) {
        Ok((manager, _)) => Ok(manager),
        Err(fault) => Err(fault),
    }
}

fn is_in_doubt(rt: &impl Abort, alloc: Global, manager: &Manager) -> bool {
    let a = crate::served::key(rt, b"a");
    let left = manager.left(alloc).expect(rt, "memory");
    manager.value(&a) == Some(100)
        && left.len() == 1
        && manager.state(&branch(rt, b"x")) == Some(State::Prepared)
}

fn is_of_damage(fault: StoreOpenFault) -> bool {
    matches!(
        fault,
        StoreOpenFault::NotADatabase | StoreOpenFault::OtherTables | StoreOpenFault::Damaged
    )
}

// A byte of the log may hide the commits from there on, as a write that was torn: SQLite can't tell them apart. What is
// opened is then what an earlier commit has left.
#[test]
fn a_byte_of_the_log_hides_commits_at_most(rt: HostRuntime) {
    let alloc = rt.alloc();
    let mut bytes = in_doubt(&rt, alloc).kept(&rt, alloc);
    let a = crate::served::key(&rt, b"a");
    let mut at = 0;
    while at < bytes.log.len() {
        bytes.log[at] ^= 0x04;
        match opened(&rt, alloc, &bytes) {
            Ok(manager) => {
                let left = manager.left(alloc).expect(&rt, "memory");
                assert!(rt;
                    is_in_doubt(&rt, alloc, &manager)
                        || (left.is_empty() && matches!(manager.value(&a), None | Some(100)))
                );
            }
            Err(fault) => assert!(rt; is_of_damage(fault)),
        }
        bytes.log[at] ^= 0x04;
        at = at.saturating_add(if at < 64 { 5 } else { 1531 });
    }
}

#[test]
fn another_number_is_refused(rt: HostRuntime) {
    let alloc = rt.alloc();
    let bytes = checkpointed(&rt, alloc);
    let Tapes { log, db } = tapes_of(&rt, alloc, &bytes, NONE);
    let Some(files) = crate::files::disks_of(alloc, log, db) else {
        panic!(rt; "no disks");
    };
    match xa_store_sqlite::open(alloc, files, 78, &[], 2, 64) {
        Ok(_) => panic!(rt; "opened"),
        Err(fault) => assert!(rt; fault == StoreOpenFault::OtherNumber),
    }
}

#[test]
fn what_is_no_database_is_refused(rt: HostRuntime) {
    let alloc = rt.alloc();
    let mut bytes = nothing(alloc);
    bytes.db = b"This is a letter, and no database. Its one page doesn't begin as a database does."
        .to_vec(alloc)
        .expect(&rt, "memory");
    match opened(&rt, alloc, &bytes) {
        Ok(_) => panic!(rt; "opened"),
        Err(fault) => assert!(rt; fault == StoreOpenFault::NotADatabase),
    }
}
