//! A manager with its store, and requests with the codes that they are answered.

use crate::files::{Bytes, Failure, NONE, Tapes, closed, found_in, image, nothing, tapes_of};
use std::alloc::Global;
use std::process::Abort;
use xa_disk::Tape;
use xa_store::Store;
use xa_store_sqlite::{SqliteStore, StoreOpenFault};
use xa_tables::Manager;
use xa_words::{Code, Delta, EndHow, Key, Op, Request, StartHow, Xid};

/// The key with this name.
pub(crate) fn key(rt: &impl Abort, name: &[u8]) -> Key {
    Key::new(name).expect(rt, "a short name")
}

/// The branch with this name.
pub(crate) fn branch(rt: &impl Abort, name: &[u8]) -> Xid {
    Xid::new(1, name, b"1").expect(rt, "a short name")
}

/// The request to add to a key.
pub(crate) fn add(rt: &impl Abort, name: &[u8], amount: i64) -> Op {
    let delta = Delta::new(amount).expect(rt, "within the limit");
    Op::Add(key(rt, name), delta)
}

/// A manager and its store.
#[derive(Drop)]
pub(crate) struct Served {
    pub(crate) manager: Manager,
    pub(crate) store: SqliteStore<Tape>,
}

impl Served {
    /// What an opening of files finds, or makes with these accounts.
    pub(crate) fn open(
        alloc: Global,
        tapes: Tapes,
        accounts: &[(Key, u64)],
    ) -> Result<Served, StoreOpenFault> {
        match found_in(alloc, tapes, accounts) {
            Ok((manager, store)) => Ok(Served { manager, store }),
            Err(fault) => Err(fault),
        }
    }

    /// A new one, with `a` at 100 and `b` at 50.
    pub(crate) fn new(rt: &impl Abort, alloc: Global) -> Served {
        let accounts = [(key(rt, b"a"), 100), (key(rt, b"b"), 50)];
        let tapes = tapes_of(rt, alloc, &nothing(alloc), NONE);
        match Served::open(alloc, tapes, &accounts) {
            Ok(served) => served,
            Err(_) => panic!(rt; "no store"),
        }
    }

    /// What an opening of these bytes finds. The call that is to fail does.
    pub(crate) fn found(
        rt: &impl Abort,
        alloc: Global,
        bytes: &Bytes,
        failure: Failure,
    ) -> Result<Served, StoreOpenFault> {
        Served::open(alloc, tapes_of(rt, alloc, bytes, failure), &[])
    }

    /// The files, with no call to them.
    pub(crate) fn close(self) -> Tapes {
        let Served { manager: _, store } = self;
        closed(store)
    }

    /// The bytes that the files have kept.
    pub(crate) fn kept(self, rt: &impl Abort, alloc: Global) -> Bytes {
        image(rt, alloc, &self.close(), (0, 0))
    }

    /// Carries out one request, of which the store is told.
    pub(crate) fn ask(&mut self, thread: u32, op: Op) -> Code {
        let code = self.manager.apply(thread, &op);
        let request = Request {
            thread,
            number: 0,
            op,
        };
        self.store.tell(&request, code);
        code
    }

    /// Carries out one request, which is to be done.
    pub(crate) fn does(&mut self, rt: &impl Abort, op: Op) {
        assert!(rt; self.ask(1, op) == Code::Done);
    }

    /// A branch adds to a key and is prepared.
    pub(crate) fn prepare(&mut self, rt: &impl Abort, xid: Xid, name: &[u8], amount: i64) {
        self.does(rt, Op::Start(xid, StartHow::Fresh));
        self.does(rt, add(rt, name, amount));
        self.does(rt, Op::End(xid, EndHow::Success));
        self.does(rt, Op::Prepare(xid));
    }

    /// Settles, which is to succeed.
    pub(crate) fn settle(&mut self, rt: &impl Abort) {
        assert!(rt; self.store.settle(&self.manager).is_ok());
        assert!(rt; !self.store.owes());
    }

    /// The committed value of the key with this name.
    pub(crate) fn value(&self, rt: &impl Abort, name: &[u8]) -> u64 {
        self.manager.value(&key(rt, name)).expect(rt, "an account")
    }
}
