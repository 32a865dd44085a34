//! What the one that waits for a run is told.
use std::alloc::{AllocError, Global};
use std::sync::atomic::{AtomicU32, Ordering};
use std::sync::{Arc, Wait};
use std::thread::Parker;

const NOTHING: u32 = 0;

const ENDED: u32 = u32::MAX;

// What was told first: nothing yet, the number of a store that failed, or that the run has ended.
#[derive(Drop)]
struct Told {
    first: AtomicU32,
    waits: Parker,
}

/// What a run has come to, as its thread and its stores tell the one thread that waits for it. What is told first
/// stays.
#[derive(Drop)]
pub struct Watch(Arc<Told, Global>);

/// What was told first.
#[derive(Clone, Copy, Debug, PartialEq, Eq)]
pub(crate) enum News {
    /// The run has ended.
    Ended,
    /// The store with this number has failed.
    Failed(u32),
}

impl Watch {
    /// One that was told nothing yet.
    pub fn new(alloc: Global) -> Result<Watch, AllocError> {
        let told = Told {
            first: AtomicU32::new(NOTHING),
            waits: Parker::new(),
        };
        Ok(Watch(Arc::new(alloc, told)?))
    }

    /// The same watch, for one more that tells it. There is none where too many have it.
    pub fn share(&self) -> Option<Watch> {
        Arc::try_clone(&self.0).ok().map(Watch)
    }

    fn tell(&self, news: u32) {
        let told: &Told = &self.0;
        let _ = told
            .first
            .compare_exchange(NOTHING, news, Ordering::SeqCst, Ordering::SeqCst);
        told.waits.unpark();
    }

    /// Tells that the run has ended.
    pub(crate) fn tell_end(&self) {
        self.tell(ENDED);
    }

    /// Tells that the store with this number, from 1, has failed.
    pub(crate) fn tell_failure(&self, store: u32) {
        self.tell(store);
    }

    /// Whether anything was told.
    pub(crate) fn is_told(&self) -> bool {
        let told: &Told = &self.0;
        told.first.load(Ordering::SeqCst) != NOTHING
    }

    /// Waits until something is told, and says what was told first. One thread at a time may wait.
    pub(crate) fn wait<R: Wait>(&self, rt: &R) -> News {
        let told: &Told = &self.0;
        for _ in rt.forever() {
            match told.first.load(Ordering::SeqCst) {
                NOTHING => told.waits.park(rt),
                ENDED => return News::Ended,
                store => return News::Failed(store),
            }
        }
        unreachable!()
    }
}
