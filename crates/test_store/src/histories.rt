//! A manager, its store, and requests with the codes that they are answered.
ghost use Rattle.std.specs.Prelude.{◌≡◌};

use std::alloc::Global;
use std::process::Abort;
use xa_store::Store;
use xa_store_memory::MemoryStore;
use xa_tables::Manager;
use xa_words::{Code, Delta, EndHow, Key, Op, Request, StartHow, Xid};

/// A thread, what it asks, and the number of the code that is answered.
pub type Step = (u32, Op, i32);

/// How many requests the history has.
pub const STEPS: usize = 25;

/// The key with this name.
pub fn key(rt: &impl Abort, name: &[u8]) -> Key {
    Key::new(name).expect(rt, "a short name")
}

/// The branch with this name.
pub fn branch(rt: &impl Abort, name: &[u8]) -> Xid {
    Xid::new(1, name, b"1").expect(rt, "a short name")
}

/// The request to add to a key.
pub fn add(rt: &impl Abort, name: &[u8], amount: i64) -> Op {
    let delta = Delta::new(amount).expect(rt, "within the limit");
    Op::Add(key(rt, name), delta)
}

/// A manager of two accounts, `a` with 100 and `b` with 50, and of two threads.
#[derive(Drop)]
pub struct Served {
    manager: Manager,
    ghost two: { manager.threads ≡ 2 },
}

impl Served {
    /// One that has carried out nothing.
    pub fn new(rt: &impl Abort, alloc: Global) -> Served {
        let accounts = [(key(rt, b"a"), 100), (key(rt, b"b"), 50)];
        let manager = Manager::new(alloc, &accounts, 2, 64).expect(rt, "two accounts");
        Served { manager }
    }

    /// Its store, with room for so many requests between two settles.
    pub fn store(rt: &impl Abort, alloc: Global, room: u32) -> MemoryStore {
        let twin = Served::new(rt, alloc);
        MemoryStore::new(alloc, twin.manager, 2, room).expect(rt, "memory")
    }

    /// The one that an opening after a crash finds.
    pub fn found(rt: &impl Abort, store: MemoryStore) -> Served {
        let manager = store.after_crash(2, 64).expect(rt, "memory");
        Served { manager }
    }

    /// It is opened again.
    pub fn reopened(self, rt: &impl Abort) -> Served {
        let mut manager = self.manager;
        manager.reserve_reopen(2, 64).expect(rt, "memory");
        Served {
            manager: manager.reopened(2, 64),
        }
    }

    /// The manager.
    pub fn manager(&self) -> &Manager {
        &self.manager
    }

    /// The committed value of the key with this name.
    pub fn value(&self, rt: &impl Abort, name: &[u8]) -> u64 {
        self.manager.value(&key(rt, name)).expect(rt, "an account")
    }

    /// Carries out one request.
    pub fn ask(&mut self, rt: &impl Abort, thread: u32, op: &Op) -> Code {
        assert!(rt; thread == 1 || thread == 2);
        assert!(rt; 0 < self.manager.room());
        self.manager.apply(thread, op)
    }

    /// Carries out one request, which is to have its code, and the store is told of it.
    pub fn serve<S: Store>(&mut self, rt: &impl Abort, store: &mut S, step: &Step) {
        let code = self.ask(rt, step.0, &step.1);
        assert!(rt; code.value() == step.2);
        let request = Request {
            thread: step.0,
            number: 0,
            op: step.1,
        };
        store.tell(&request, code);
    }
}

/// Two threads work on five branches: x is committed, y is committed heuristically and forgotten, z is rolled back
/// heuristically, w stays prepared, and v at work.
pub fn history(rt: &impl Abort) -> [Step; STEPS] {
    let (x, y, z) = (branch(rt, b"x"), branch(rt, b"y"), branch(rt, b"z"));
    let (w, v) = (branch(rt, b"w"), branch(rt, b"v"));
    [
        (1, Op::OpenRm, 0),
        (2, Op::OpenRm, 0),
        (1, Op::Start(x, StartHow::Fresh), 0),
        (1, add(rt, b"a", -30), 0),
        (1, Op::End(x, EndHow::Success), 0),
        (1, Op::Prepare(x), 0),
        (2, Op::Start(y, StartHow::Fresh), 0),
        (2, add(rt, b"b", 5), 0),
        (2, Op::End(y, EndHow::Success), 0),
        (2, Op::Prepare(y), 0),
        (1, Op::Heur(y, true), 0),
        (1, Op::Commit(x, false), 0),
        (2, Op::Commit(y, false), 7),
        (1, Op::Forget(y), 0),
        (1, Op::Start(z, StartHow::Fresh), 0),
        (1, add(rt, b"a", 1), 0),
        (1, Op::End(z, EndHow::Success), 0),
        (1, Op::Prepare(z), 0),
        (2, Op::Heur(z, false), 0),
        (2, Op::Start(w, StartHow::Fresh), 0),
        (2, add(rt, b"b", -5), 0),
        (2, Op::End(w, EndHow::Success), 0),
        (2, Op::Prepare(w), 0),
        (1, Op::Start(v, StartHow::Fresh), 0),
        (1, add(rt, b"a", 2), 0),
    ]
}
