//! One opening whose managers have stores of three kinds: a file, memory, and none.

use crate::files::{NONE, NUMBER, closed, disks_of, image, nothing, tapes_of};
use crate::served::{Served, key};
use std::alloc::Global;
use std::process::Abort;
use std::sync::Wait;
use xa_crew::laws::idles_go_on;
use xa_crew::{Client, CrewMemory};
use xa_desk::laws::desks_go_on;
use xa_desk::{Desk, Idle};
use xa_disk::Tape;
use xa_driver::Branch;
use xa_log::MemoryLog;
use xa_store::{NoStore, Store, StoreFault};
use xa_store_memory::MemoryStore;
use xa_store_sqlite::{SqliteStore, open};
use xa_switch::{Again, open_over};
use xa_tables::Manager;
use xa_words::{Code, Delta, Key, Request, Xid};
use xa_work::{Change, open_all, transact};
use xa_worker::Free;

/// A store of one of two kinds.
#[derive(Drop)]
enum Either<A, B> {
    First(A),
    Second(B),
}

impl<A: Store + Drop, B: Store + Drop> Store for Either<A, B> {
    ghost use Rattle.test_store_sqlite.specs.Mixed.{of_either, tables_of_either};

    ghost knows = { tables_of_either A.knows B.knows };

    ghost may_leave = { tables_of_either A.may_leave B.may_leave };

    ghost owing = { of_either A.owing B.owing };

    fn owes(&self) -> bool {
        match self {
            Either::First(store) => store.owes(),
            Either::Second(store) => store.owes(),
        }
    }

    fn is_full(&self) -> bool {
        match self {
            Either::First(store) => store.is_full(),
            Either::Second(store) => store.is_full(),
        }
    }

    fn tell(&mut self, request: &Request, code: Code) {
        match self {
            Either::First(store) => store.tell(request, code),
            Either::Second(store) => store.tell(request, code),
        }
    }

    fn settle(&mut self, manager: &Manager) -> Result<(), StoreFault> {
        match self {
            Either::First(store) => store.settle(manager),
            Either::Second(store) => store.settle(manager),
        }
    }

    fn reopened(self, threads: u32, room: u32) -> Result<Either<A, B>, Either<A, B>> {
        match self {
            Either::First(store) => match store.reopened(threads, room) {
                Ok(store) => Ok(Either::First(store)),
                Err(store) => Err(Either::First(store)),
            },
            Either::Second(store) => match store.reopened(threads, room) {
                Ok(store) => Ok(Either::Second(store)),
                Err(store) => Err(Either::Second(store)),
            },
        }
    }
}

type Mixed = Either<SqliteStore<Tape>, Either<MemoryStore, NoStore>>;

const THREADS: u32 = 1;

const REQUESTS: u32 = 16;

/// Moves 30 of `a` from manager 1 to the others.
#[derive(Drop)]
struct Mover {
    alloc: Global,
    has_committed: bool,
}

// The branch at manager m, and what it changes.
fn leg(m: u32, amount: i64) -> Option<(Branch, Change)> {
    let xid = Xid::new(1, b"x", &[m as u8]).ok()?;
    let (key, delta) = (Key::new(b"a")?, Delta::new(amount)?);
    Some((Branch { m, xid }, Change { m, key, delta }))
}

impl Mover {
    fn has_moved<R: Wait, I: Idle>(&self, rt: &R, desk: &mut Desk, idle: &mut I) -> Option<bool> {
        let (one, less) = leg(1, -30)?;
        let (two, more) = leg(2, 10)?;
        let (three, most) = leg(3, 20)?;
        if !open_all(rt, desk, idle) {
            return None;
        }
        let mut log = MemoryLog::new(self.alloc);
        let branches = [one, two, three];
        let changes = [less, more, most];
        match transact(rt, self.alloc, desk, &mut log, &branches, &changes, idle) {
            Ok(outcome) => Some(outcome.is_to_commit()),
            Err(_) => None,
        }
    }
}

impl Client for Mover {
    ghost works = { λ _ desk _ desk'. Unit {0} };

    fn work<R: Wait, I: Idle>(&mut self, rt: &R, desk: &mut Desk, idle: &mut I) {
        desks_go_on();
        idles_go_on::<I>();
        self.has_committed = self.has_moved(rt, desk, idle) == Some(true);
    }
}

// The manager of a new file, with its store.
fn in_file(rt: &impl Abort, alloc: Global) -> (Manager, Mixed) {
    let tapes = tapes_of(rt, alloc, &nothing(alloc), NONE);
    let files = disks_of(alloc, tapes.log, tapes.db).expect(rt, "disks");
    match open(
        alloc,
        files,
        NUMBER,
        &[(key(rt, b"a"), 100)],
        THREADS,
        REQUESTS,
    ) {
        Ok((manager, store)) => (manager, Either::First(store)),
        Err(_) => panic!(rt; "no store"),
    }
}

fn plain(rt: &impl Abort, alloc: Global) -> Manager {
    Manager::new(alloc, &[(key(rt, b"a"), 100)], THREADS, REQUESTS).expect(rt, "an account")
}

fn in_memory(rt: &impl Abort, alloc: Global) -> (Manager, Mixed) {
    let store = MemoryStore::new(alloc, plain(rt, alloc), THREADS, REQUESTS).expect(rt, "memory");
    (plain(rt, alloc), Either::Second(Either::First(store)))
}

// What a crash would leave of `a`, if the store keeps anything.
fn durable(rt: &impl Abort, alloc: Global, store: Mixed) -> Option<u64> {
    match store {
        Either::First(store) => {
            let bytes = image(rt, alloc, &closed(store), (0, 0));
            match Served::found(rt, alloc, &bytes, NONE) {
                Ok(served) => Some(served.value(rt, b"a")),
                Err(_) => panic!(rt; "no store"),
            }
        }
        Either::Second(Either::First(store)) => {
            let manager = store.after_crash(THREADS, REQUESTS).expect(rt, "memory");
            manager.value(&key(rt, b"a"))
        }
        Either::Second(Either::Second(_)) => None,
    }
}

#[test]
fn stores_of_three_kinds_keep_one_commit(rt: HostRuntime) {
    let alloc = rt.alloc();
    let (first, file) = in_file(&rt, alloc);
    let (second, memory) = in_memory(&rt, alloc);
    let third = plain(&rt, alloc);
    let nothing = Either::Second(Either::Second(NoStore));
    let managers = Vec::from_array(alloc, [first, second, third]).expect(&rt, "memory");
    let stores = Vec::from_array(alloc, [file, memory, nothing]).expect(&rt, "memory");
    let numbers = Again {
        opening: 1,
        threads: THREADS,
        handles: 6,
        queue: 8,
        requests: REQUESTS,
    };
    let use_async = Vec::from_array(alloc, [true, true, true]).expect(&rt, "memory");
    let Ok((desks, workers)) = open_over(&rt, alloc, &numbers, use_async, managers) else {
        panic!(rt; "no opening");
    };
    let mover = Mover {
        alloc,
        has_committed: false,
    };
    let movers = Vec::from_array(alloc, [mover]).expect(&rt, "memory");
    let memory = CrewMemory::reserve(alloc, 1).expect(&rt, "memory");
    let paces = Vec::from_array(alloc, [Free, Free, Free]).expect(&rt, "memory");
    let opened = memory.hold(movers, desks, workers);
    let (ran, stores) = opened.run_stored(&rt, alloc, paces, stores);
    let Ok(run) = ran else {
        panic!(rt; "no run");
    };
    assert!(rt; run.clients[0].client.has_committed);
    let mut found = Vec::new(alloc);
    for store in stores {
        assert!(rt; !store.owes());
        found.push(durable(&rt, alloc, store)).expect(&rt, "memory");
    }
    assert!(rt; found.as_slice() == [Some(70), Some(110), None].as_slice());
    assert!(rt; run.settled.value(3, &key(&rt, b"a")) == Some(120));
}
