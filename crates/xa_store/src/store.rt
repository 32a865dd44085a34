//! What every store keeps to, and a store that keeps nothing.
ghost use Rattle.std.specs.Prelude.{◌≡◌, ◌⊎◌, ◌≤◌, Bool, IfErr, IfOk, IsOk, OnOk, false};
ghost use Rattle.xa_base.specs.declared.limits.TheConstants.{MOST_JOURNALED, MOST_THREADS};
ghost use Rattle.xa_tables.specs.ManagerTables.{Tables};
ghost use Rattle.xa_tables.specs.Managers.{AreAssociationsLive};
ghost use Rattle.xa_tables.specs.Next.{next};
ghost use Rattle.xa_tables.specs.Openings.{reopened};
ghost use Rattle.xa_store.specs.Stores.{AreDurable};

use std::sync::Wait;
use std::thread;
use xa_base::{MOST_JOURNALED, MOST_THREADS};
use xa_tables::Manager;
use xa_words::{Code, Request};

/// The store has failed. What the disk has is known once the store is opened again.
#[derive(Clone, Copy, Debug, PartialEq, Eq)]
pub struct StoreFault;

/// Keeps what a reopening keeps of one manager's tables.
///
/// A store is told of each request after the manager has carried it out, and before the next one. It needs no rules of
/// its own: as it settles, it finds in the manager's tables what the requests have made of their branches and accounts.
pub trait Store {
    /// It was told of all that led to these tables.
    ghost knows: { Self → Tables → Type 0 };

    /// What an opening may find, were there a crash now: tables as a reopening makes them.
    ghost may_leave: { Self → Tables → Type 0 };

    /// It was told of something that a crash may still take back.
    ghost owing: { Self → Bool };

    /// Whether it was told of something that a crash may still take back. While it owes nothing, an answer may go out
    /// without a settle.
    fn owes(&self) -> bool
        ensures owing { result ≡ owing self.now }
        ensures durable { owing self.now ≡ false → (T : Tables) → knows self.now T
            → AreDurable (may_leave self.now) T };

    /// Whether it is to be settled before it is told of more.
    ///
    /// That is advice, and no clause rests on it: a store that is told of more than it has room for has failed, which
    /// the next settle reports, so no answer goes out that it can't keep. It is no count of what there is room for,
    /// since a second request of the same branch may need no room.
    fn is_full(&self) -> bool;

    /// Is told of a request that its manager has carried out, with its code. A crash leaves what it would have left
    /// before, or less of it. A store that can't keep the request has failed, which the next settle reports.
    fn tell(&mut self, request: &Request, code: Code)
        ensures told { (T : Tables) → AreAssociationsLive T → knows self.old T
            → code ≡ (next request.now.thread request.now.op T).1
            → knows self.new (next request.now.thread request.now.op T).0 }
        ensures crash { (K : Tables) → may_leave self.new K → may_leave self.old K };

    /// Makes durable all that it was told, at once: what differs is written once, as the manager's tables have it. The
    /// manager is the one whose requests it was told of, as they left it.
    ///
    /// At an error a crash leaves either what it would have left before, or all. The same holds of a crash in the
    /// middle, since such a crash is a device all of whose later calls fail.
    ///
    /// After an error ask it nothing more, send none of the answers that wait for this settle, and end the process: a
    /// second sync after one that has failed may succeed with nothing written. The next opening finds what is there.
    fn settle(&mut self, manager: &Manager) -> Result<(), StoreFault>
        ensures kept { knows self.old manager.now.tables → OnOk result (knows self.new manager.now.tables) }
        ensures durable { knows self.old manager.now.tables
            → OnOk result (AreDurable (may_leave self.new) manager.now.tables) }
        ensures crash { knows self.old manager.now.tables → (K : Tables) → may_leave self.new K
            → (K ≡ reopened manager.now.tables) ⊎ may_leave self.old K };

    /// The store of the same manager at its next opening in this process, which carries out `room` requests of threads
    /// 1 to `threads`: it knows what the reopening makes of the tables that are settled. What a crash leaves stays.
    ///
    /// It fails only for want of memory, and comes back as it was.
    fn reopened(self, threads: u32, room: u32) -> Result<Self, Self>
        requires threads { (1 ≤ threads) × (threads ≤ MOST_THREADS) }
        requires room { (1 ≤ room) × (room ≤ MOST_JOURNALED) }
        ensures known { (T : Tables) → knows self T → AreDurable (may_leave self) T
            → IfOk result (λ s. knows s (reopened T)) }
        ensures crash { IfOk result (λ s. (K : Tables) → may_leave s K → may_leave self K) }
        ensures refused { IfErr result (λ s. s ≡ self) };
}

/// Settles, or never returns: no answer may go out that a crash would take back.
///
/// Where the store fails, the thread yields its processor until its process is ended, which leaves what a crash leaves.
pub fn settle_or_stop<R: Wait, S: Store>(rt: &R, store: &mut S, manager: &Manager)
    ensures kept { S.knows store.old manager.now.tables → S.knows store.new manager.now.tables }
    ensures durable { S.knows store.old manager.now.tables → AreDurable (S.may_leave store.new) manager.now.tables }
{
    let Ok(()) = store.settle(manager) else {
        for _ in rt.forever() {
            thread::yield_now();
        }
        unreachable!()
    };
}

/// Keeps nothing, and costs nothing: the manager is in memory alone, and a crash leaves nothing that could be opened.
#[derive(Clone, Copy, Debug, PartialEq, Eq)]
pub struct NoStore;

impl Store for NoStore {
    ghost knows = { λ _ _. Unit {0} };

    ghost may_leave = { λ _ _. ⊥ };

    ghost owing = { λ _. false };

    #[inline(always)]
    fn owes(&self) -> bool {
        false
    }

    #[inline(always)]
    fn is_full(&self) -> bool
        ensures { result ≡ false }
    {
        self.owes()
    }

    #[inline(always)]
    fn tell(&mut self, _request: &Request, _code: Code) {}

    #[inline(always)]
    fn settle(&mut self, _manager: &Manager) -> Result<(), StoreFault>
        ensures { IsOk result }
    {
        Ok(())
    }

    #[inline(always)]
    fn reopened(self, _threads: u32, _room: u32) -> Result<NoStore, NoStore>
        ensures { IsOk result }
    {
        Ok(self)
    }
}
