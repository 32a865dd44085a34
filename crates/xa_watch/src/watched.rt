//! A store that tells a watch where it fails.
ghost use Rattle.std.specs.Prelude.{◌≡◌, ◌≤◌};
ghost use Rattle.xa_base.specs.declared.limits.TheConstants.{MOST_MANAGERS};

use crate::watch::Watch;
use xa_base::{MOST_JOURNALED, MOST_MANAGERS, MOST_THREADS};
use xa_store::{Store, StoreFault};
use xa_tables::Manager;
use xa_words::{Code, Request};

/// The store of a manager, which tells a watch, once, that a settle of it has failed.
#[derive(Drop)]
pub struct Watched<S: Drop> {
    store: S,
    number: u32,
    watch: Watch,
}

impl<S: Drop> Watched<S> {
    /// The store of the manager with this number.
    pub fn new(store: S, number: u32, watch: Watch) -> Watched<S>
        requires { (1 ≤ number) × (number ≤ MOST_MANAGERS) }
        ensures store { result.store ≡ store }
        ensures number { result.number ≡ number }
    {
        Watched {
            store,
            number,
            watch,
        }
    }

    /// The number of its manager.
    pub fn number(&self) -> u32
        ensures { result ≡ self.now.number }
    {
        self.number
    }

    /// The store, which tells nobody any more.
    pub fn into_store(self) -> S
        ensures { result ≡ self.store }
    {
        let Watched {
            store,
            number: _,
            watch: _,
        } = self;
        store
    }
}

impl<S: Store + Drop> Store for Watched<S> {
    ghost knows = { λ w. S.knows w.store };

    ghost may_leave = { λ w. S.may_leave w.store };

    ghost owing = { λ w. S.owing w.store };

    #[inline(always)]
    fn owes(&self) -> bool {
        self.store.owes()
    }

    #[inline(always)]
    fn is_full(&self) -> bool {
        self.store.is_full()
    }

    #[inline(always)]
    fn tell(&mut self, request: &Request, code: Code) {
        self.store.tell(request, code);
    }

    fn settle(&mut self, manager: &Manager) -> Result<(), StoreFault> {
        if let Err(fault) = self.store.settle(manager) {
            self.watch.tell_failure(self.number);
            return Err(fault);
        }
        Ok(())
    }

    fn reopened(self, threads: u32, room: u32) -> Result<Watched<S>, Watched<S>> {
        let Watched {
            store,
            number,
            watch,
        } = self;
        match store.reopened(threads, room) {
            Ok(store) => Ok(Watched {
                store,
                number,
                watch,
            }),
            Err(store) => Err(Watched {
                store,
                number,
                watch,
            }),
        }
    }
}
