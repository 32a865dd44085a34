//! A worker that has run.
ghost use Rattle.std.specs.Prelude.{◌≡◌, ◌≤◌};
ghost use Rattle.xa_worker.specs.Done.{IsServed, IsOrdered, served};
ghost use Rattle.xa_worker.specs.Workers.{first_tables};

use http_server::Log;
use std::marker::Model;
use xa_base::MOST_THREADS;
use xa_lane::{Ended, Receiver};
use xa_tables::Manager;
use xa_words::{Code, Completion, Request};

/// A worker that has run: each thread's end mark was taken, nothing is held, and its senders are ended.
pub struct DoneWorker {
    number: u32,
    // The manager as it was given, with its number. It has no bytes: only proofs read it.
    given: Log<u32, Manager>,
    parts: WorkerEnds,
}

// It is dropped by one call, wherever that is, and not part by part there.
impl Drop for DoneWorker {
    fn drop(self) {
        let DoneWorker {
            number: _,
            given: _,
            parts: _,
        } = self;
    }
}

impl Model for DoneWorker {
    ghost use Rattle.std.specs.Coded.{codes};
    ghost use Rattle.xa_tables.specs.Managers.{tables_code, managed_code};
    ghost use Rattle.xa_worker.specs.Done.{Served};

    ghost Value = { Served };

    ghost coded = { Prim.hlevel (codes, tables_code, managed_code) };

    ghost use Rattle.xa_worker.specs.Finished.{served_of, IsDone};

    ghost view = { served_of };

    ghost invariant = { IsDone };
}

/// The parts of a worker that has run.
#[derive(Drop)]
pub struct WorkerEnds {
    pub manager: Manager,
    /// The end of the lane of requests.
    pub receiver: Receiver<Request>,
    /// The ends of the lanes of completions, by rising thread.
    pub ends: Vec<Ended<Completion>>,
    /// The requests in the order in which they were taken, each with its code.
    pub journal: Vec<(Request, Code)>,
}

impl DoneWorker {
    pub(crate) fn new(number: u32, given: Log<u32, Manager>, parts: WorkerEnds) -> DoneWorker
        requires served { IsServed (served number (first_tables given.items) parts.manager parts.receiver
            parts.ends.items parts.journal.items) }
        requires few { parts.manager.threads ≤ MOST_THREADS }
        ensures { result ≡ served number (first_tables given.items) parts.manager parts.receiver parts.ends.items
            parts.journal.items }
    {
        DoneWorker {
            number,
            given,
            parts,
        }
    }

    /// The number of its manager, from 1.
    pub fn number(&self) -> u32
        ensures { result ≡ self.now.number }
    {
        self.number
    }

    /// The opening that its lane of requests is of.
    pub fn opening(&self) -> u64
        ensures { result ≡ self.now.receiver.lane.opening }
    {
        self.parts.receiver.name().opening
    }

    /// How many threads its opening has, 1 to 8.
    pub fn peers(&self) -> u32
        ensures { result ≡ self.now.manager.threads }
    {
        self.parts.ends.len() as u32
    }

    /// The requests in the order in which they were taken, each with its code.
    pub fn journal(&self) -> &[(Request, Code)]
        ensures journal { result.now ≡ self.now.journal }
        ensures served { IsServed self.now }
        ensures ordered { IsOrdered self.now }
    {
        &self.parts.journal
    }

    /// Its manager, the ends of its lanes and its journal.
    pub fn apart(self) -> WorkerEnds
        ensures parts { served self.number self.first result.manager result.receiver result.ends.items
            result.journal.items ≡ self }
        ensures served { IsServed self }
        ensures ordered { IsOrdered self }
    {
        let DoneWorker {
            number: _,
            given: _,
            parts: ends,
        } = self;
        ends
    }
}
