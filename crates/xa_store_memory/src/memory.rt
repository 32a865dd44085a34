//! A store in memory, which may be made to fail.
ghost use Rattle.std.specs.Prelude.{◌≡◌, ◌⊎◌, ◌≤◌, ◌+◌, ◌++◌, ◌∷◌, ◌<◌, [], false, true, length, None, Some};
ghost use Rattle.std.specs.Prelude.{IfErr, IfOk, OnOk, is_ok, vec_len, vec_capacity, nat_lt, not};
ghost use Rattle.std.specs.List.{All};
ghost use Rattle.xa_base.specs.Lists.{IsUpTo};
ghost use Rattle.xa_tables.specs.ManagerTables.{Tables};
ghost use Rattle.xa_tables.specs.Managers.{AreAssociationsLive};
ghost use Rattle.xa_tables.specs.Next.{next};
ghost use Rattle.xa_tables.specs.Histories.{tables_after};
ghost use Rattle.xa_tables.specs.Openings.{reopened};
ghost use Rattle.xa_store.specs.Stores.{AreDurable};
ghost use Rattle.xa_store_memory.specs.Memory.{KnowsTables, MayLeave, after_settle, after_tell, can_write};
ghost use Rattle.xa_store_memory.specs.Memory.{counted_down, store_failed, reopened_for};
ghost use Rattle.xa_store_memory.specs.Memory.{fits, is_due, owes, settles, store_of, written};

use laws_tables::a_second_reopening_changes_nothing;
use std::alloc::{AllocError, Global};
use std::marker::Model;
use xa_base::{MOST_JOURNALED, MOST_THREADS};
use xa_store::{Store, StoreFault};
use xa_tables::Manager;
use xa_words::{Code, Op, Request, RmOp, Xid};

/// A store that forgets all when its process ends, for tests of what a crash leaves.
///
/// It has a manager of its own, which begins as the one that it is told of. A settle carries out there what the store
/// was told of since the settle before: all of it, or nothing, since an opening ignores a write that has no commit
/// mark. What a crash leaves is that manager, reopened.
#[derive(Drop)]
pub struct MemoryStore {
    manager: Manager,
    threads: u32,
    // What isn't settled yet.
    told: Vec<Request>,
    // How many more settles succeed before one fails, if one is to fail.
    failing: Option<u32>,
    // Whether that one writes what it was to write, and only then fails.
    keeps: bool,
    is_failed: bool,
}

impl Model for MemoryStore {
    ghost use Rattle.std.specs.Prelude.{◌≡◌, vec_capacity};
    ghost use Rattle.std.specs.List.{All};
    ghost use Rattle.std.specs.Coded.{codes};
    ghost use Rattle.xa_base.specs.Lists.{IsUpTo};
    ghost use Rattle.xa_tables.specs.Managers.{tables_code};
    ghost use Rattle.xa_store_memory.specs.Memory.{StoreView};

    ghost Value = { StoreView };

    ghost coded = { Prim.hlevel (codes, tables_code) };

    ghost view = { λ s. record {
      settled = s.manager.tables;
      told = s.told.items;
      threads = s.threads;
      room = vec_capacity s.told;
      spare = s.manager.room;
      failing = s.failing;
      keeps = s.keeps;
      is_failed = s.is_failed;
    } };

    ghost invariant = { λ s. (s.manager.threads ≡ s.threads) × All (λ r. IsUpTo s.threads r.thread) s.told.items };
}

// The manager carries out these requests, one after another.
fn carry_out(manager: &mut Manager, requests: &[Request])
    requires threads { All (λ r. IsUpTo manager.old.threads r.thread) requests.now }
    requires room { length requests.now ≤ manager.old.room }
    ensures tables { manager.new.tables ≡ tables_after requests.now manager.old.tables }
    ensures threads { manager.new.threads ≡ manager.old.threads }
    ensures room { manager.new.room + length requests.now ≡ manager.old.room }
{
    for request in requests {
        manager.apply(request.thread, &request.op);
    }
}

// Puts a request behind the others.
//
// It names the types within a request: a `push` of a type that only contains them gets no proof.
fn put(told: &mut Vec<Request>, request: &Request)
    requires { vec_len told.old < vec_capacity told.old }
    ensures items { told.new.items ≡ told.old.items ++ request.now ∷ [] }
    ensures room { vec_capacity told.new ≡ vec_capacity told.old }
{
    let _named: Option<(Xid, Op, RmOp)> = None;
    told.push_reserved(*request);
}

impl MemoryStore {
    /// A store for a manager that is as `twin` is: made in the same way, with nothing carried out.
    ///
    /// It takes requests of threads 1 to `threads`, which are the twin's. It has room for `room` of them between two
    /// settles, and for as many in all as the twin has.
    pub fn new(
        alloc: Global,
        twin: Manager,
        threads: u32,
        room: u32,
    ) -> Result<MemoryStore, AllocError>
        requires { twin.threads ≡ threads }
        ensures new { IfOk result (λ s. s ≡ store_of twin room) }
        ensures knows { IfOk result (λ s. KnowsTables s twin.tables) }
        ensures durable { IfOk result (λ s. AreDurable (MayLeave s) twin.tables) }
    {
        let told = Vec::with_capacity(alloc, room as usize)?;
        Ok(MemoryStore {
            manager: twin,
            threads,
            told,
            failing: None,
            keeps: false,
            is_failed: false,
        })
    }

    /// This store, which settles so many times more, and then fails.
    ///
    /// Where `keeps` is true, a crash after that leaves all that the store was told of before the settle that failed,
    /// and else what the settle before has left.
    pub fn failing_after(mut self, settles: u32, keeps: bool) -> MemoryStore
        ensures { result ≡ record self { failing = Some settles; keeps = keeps } }
    {
        self.failing = Some(settles);
        self.keeps = keeps;
        self
    }

    /// The manager that an opening after a crash finds: what is settled, reopened in memory that is reserved here. It
    /// carries out `room` requests of threads 1 to `threads`.
    pub fn after_crash(self, threads: u32, room: u32) -> Result<Manager, AllocError>
        requires threads { (1 ≤ threads) × (threads ≤ MOST_THREADS) }
        requires room { (1 ≤ room) × (room ≤ MOST_JOURNALED) }
        ensures left { IfOk result (λ m. MayLeave self m.tables) }
        ensures threads { IfOk result (λ m. m.threads ≡ threads) }
        ensures room { IfOk result (λ m. m.room ≡ room) }
        ensures reserved { IfOk result (λ m. m.reserved ≡ None) }
    {
        let MemoryStore {
            mut manager,
            threads: _,
            told: _,
            failing: _,
            keeps: _,
            is_failed: _,
        } = self;
        manager.reserve_reopen(threads, room)?;
        Ok(manager.reopened(threads, room))
    }

    // Whether it can keep this request: it has room for it, and its manager has the thread.
    fn fits(&self, request: &Request) -> bool
        ensures { result ≡ fits self.now request.now }
    {
        self.told.len() < self.told.capacity() && (1..=self.threads).contains(&request.thread)
    }

    // Whether it hasn't failed, and its manager has room for all that it was told of.
    fn can_write(&self) -> bool
        ensures { result ≡ can_write self.now }
    {
        !self.is_failed && self.told.len() <= self.manager.room() as usize
    }

    // Whether the next settle is the one that is to fail.
    fn is_due(&self) -> bool
        ensures { result ≡ is_due self.now.failing }
    {
        matches!(self.failing, Some(0))
    }

    fn fail(&mut self)
        ensures { self.new ≡ store_failed self.old }
    {
        self.is_failed = true;
    }

    // One settle less is to come before the one that fails.
    fn count_down(&mut self)
        ensures { self.new ≡ counted_down self.old }
    {
        if let Some(settles) = self.failing {
            self.failing = Some(settles.saturating_sub(1));
        }
    }

    // Carries out all that it was told of.
    fn write(&mut self)
        requires { can_write self.old ≡ true }
        ensures { self.new ≡ written self.old }
    {
        carry_out(&mut self.manager, &self.told);
        self.told.clear();
    }
}

impl Store for MemoryStore {
    ghost knows = { KnowsTables };

    ghost may_leave = { MayLeave };

    ghost owing = { owes };

    fn owes(&self) -> bool {
        self.is_failed || !self.told.is_empty()
    }

    fn is_full(&self) -> bool
        ensures { result ≡ not (nat_lt (length self.now.told) self.now.room) }
    {
        self.told.len() >= self.told.capacity()
    }

    fn tell(&mut self, request: &Request, _code: Code)
        ensures told { (T : Tables) → AreAssociationsLive T → KnowsTables self.old T
            → _code ≡ (next request.now.thread request.now.op T).1
            → KnowsTables self.new (next request.now.thread request.now.op T).0 }
        ensures crash { (K : Tables) → MayLeave self.new K → MayLeave self.old K }
        ensures after { self.new ≡ after_tell request.now self.old }
    {
        if self.fits(request) {
            put(&mut self.told, request);
        } else {
            self.fail();
        }
    }

    fn settle(&mut self, _manager: &Manager) -> Result<(), StoreFault>
        ensures kept { KnowsTables self.old _manager.now.tables
            → OnOk result (KnowsTables self.new _manager.now.tables) }
        ensures durable { KnowsTables self.old _manager.now.tables
            → OnOk result (AreDurable (MayLeave self.new) _manager.now.tables) }
        ensures crash { KnowsTables self.old _manager.now.tables → (K : Tables) → MayLeave self.new K
            → (K ≡ reopened _manager.now.tables) ⊎ MayLeave self.old K }
        ensures settles { is_ok result ≡ settles self.old }
        ensures after { self.new ≡ after_settle self.old }
    {
        if !self.can_write() {
            self.fail();
            return Err(StoreFault);
        }
        if self.is_due() {
            if self.keeps {
                self.write();
            }
            self.fail();
            return Err(StoreFault);
        }
        self.count_down();
        self.write();
        Ok(())
    }

    fn reopened(self, threads: u32, room: u32) -> Result<MemoryStore, MemoryStore>
        requires threads { (1 ≤ threads) × (threads ≤ MOST_THREADS) }
        requires room { (1 ≤ room) × (room ≤ MOST_JOURNALED) }
        ensures known { (T : Tables) → KnowsTables self T → AreDurable (MayLeave self) T
            → IfOk result (λ s. KnowsTables s (reopened T)) }
        ensures crash { IfOk result (λ s. (K : Tables) → MayLeave s K → MayLeave self K) }
        ensures refused { IfErr result (λ s. s ≡ self) }
        ensures after { IfOk result (λ s. s ≡ reopened_for threads room self) }
    {
        a_second_reopening_changes_nothing();
        let MemoryStore {
            mut manager,
            threads: before,
            mut told,
            failing,
            keeps,
            is_failed,
        } = self;
        if manager.reserve_reopen(threads, room).is_err() {
            return Err(MemoryStore {
                manager,
                threads: before,
                told,
                failing,
                keeps,
                is_failed,
            });
        }
        told.clear();
        Ok(MemoryStore {
            manager: manager.reopened(threads, room),
            threads,
            told,
            failing,
            keeps,
            is_failed,
        })
    }
}
