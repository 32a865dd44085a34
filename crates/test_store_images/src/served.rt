//! A manager with its store, over two files in memory.
ghost use Rattle.std.specs.Prelude.{◌≤◌};
ghost use Rattle.std.proofs.Props.{props};

use crate::fault::Fault;
use crate::files::Tapes;
use crate::found::Found;
use crate::lent::Lent;
use crate::names::Names;
use sqlite_disk::Disk;
use sqlite_store::FileStore;
use std::alloc::Global;
use xa_store::Store;
use xa_store_sqlite::{SqliteStore, StoreOpenFault, open};
use xa_tables::Manager;
use xa_words::{Code, Delta, EndHow, Key, Op, Request, StartHow, Xid};

// The number of each store.
const NUMBER: i64 = 77;

// How many threads there are.
const THREADS: u32 = 2;

// How many requests a manager carries out.
const ROOM: u32 = 256;

/// A manager and its store.
#[derive(Drop)]
pub(crate) struct Served<'a> {
    manager: Manager,
    store: SqliteStore<Lent<'a>>,
    ghost threads: { 2 ≤ manager.threads } by { Prim.hlevel props },
}

// Whether the log of these trees is copied to the database file.
fn are_copied<D: Disk + Drop>(mut trees: FileStore<D>) -> bool {
    trees.checkpoint().is_ok()
}

impl<'a> Served<'a> {
    /// What an opening of the files finds, or makes with these accounts.
    pub(crate) fn open(
        alloc: Global,
        tapes: &'a mut Tapes,
        accounts: &[(Key, u64)],
    ) -> Result<Served<'a>, StoreOpenFault> {
        let Some(files) = tapes.disks(alloc) else {
            return Err(StoreOpenFault::Failed);
        };
        let (manager, store) = open(alloc, files, NUMBER, accounts, THREADS, ROOM)?;
        Ok(Served { manager, store })
    }

    /// What a reopening keeps of the manager.
    pub(crate) fn found(&self, alloc: Global, names: &Names) -> Result<Found, Fault> {
        Found::of(alloc, &self.manager, names)
    }

    /// Carries out a request of thread 1 or 2, of which the store is told.
    pub(crate) fn does(&mut self, thread: u32, op: Op) -> Result<(), Fault>
        requires { (1 ≤ thread) × (thread ≤ 2) }
    {
        if self.manager.room() == 0 {
            return Err(Fault::Refused);
        }
        let code = self.manager.apply(thread, &op);
        let request = Request {
            thread,
            number: 0,
            op,
        };
        self.store.tell(&request, code);
        match code {
            Code::Done => Ok(()),
            _ => Err(Fault::Refused),
        }
    }

    /// Both threads open the manager.
    pub(crate) fn begin(&mut self) -> Result<(), Fault> {
        self.does(1, Op::OpenRm)?;
        self.does(2, Op::OpenRm)
    }

    /// A thread begins a branch, which adds to an account.
    pub(crate) fn start(
        &mut self,
        thread: u32,
        xid: Xid,
        key: Key,
        amount: i64,
    ) -> Result<(), Fault>
        requires { (1 ≤ thread) × (thread ≤ 2) }
    {
        self.does(thread, Op::Start(xid, StartHow::Fresh))?;
        self.add(thread, key, amount)
    }

    /// The thread's branch adds to an account.
    pub(crate) fn add(&mut self, thread: u32, key: Key, amount: i64) -> Result<(), Fault>
        requires { (1 ≤ thread) × (thread ≤ 2) }
    {
        match Delta::new(amount) {
            Some(delta) => self.does(thread, Op::Add(key, delta)),
            None => Err(Fault::Refused),
        }
    }

    /// A thread ends its work on the branch.
    pub(crate) fn end(&mut self, thread: u32, xid: Xid) -> Result<(), Fault>
        requires { (1 ≤ thread) × (thread ≤ 2) }
    {
        self.does(thread, Op::End(xid, EndHow::Success))
    }

    /// A branch adds to an account, and is prepared.
    pub(crate) fn prepare(&mut self, xid: Xid, key: Key, amount: i64) -> Result<(), Fault> {
        self.start(1, xid, key, amount)?;
        self.end(1, xid)?;
        self.does(1, Op::Prepare(xid))
    }

    /// A branch adds to an account, and is committed in one phase.
    pub(crate) fn commit_at_once(&mut self, xid: Xid, key: Key, amount: i64) -> Result<(), Fault> {
        self.start(1, xid, key, amount)?;
        self.end(1, xid)?;
        self.does(1, Op::Commit(xid, true))
    }

    /// Whether the store settles. Where it doesn't, it owes what it was told, and settles no more.
    pub(crate) fn settles(&mut self) -> Result<bool, Fault> {
        if self.store.settle(&self.manager).is_ok() {
            return Ok(true);
        }
        if self.store.owes() && self.store.settle(&self.manager).is_err() {
            Ok(false)
        } else {
            Err(Fault::Settled)
        }
    }

    /// Whether the log is copied to the database file. The store isn't open any more.
    pub(crate) fn copies(self) -> bool {
        let Served { manager: _, store } = self;
        are_copied(store.into_trees())
    }
}
