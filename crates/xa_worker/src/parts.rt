//! What a worker is put together of.
ghost use Rattle.std.specs.Prelude.{◌≡◌, IfOk};

use crate::outbox::MOST_WAITING;
use std::alloc::{AllocError, Global};
use std::collections::VecDeque;
use std::marker::Model;
use xa_base::MOST_THREADS;
use xa_lane::Ended;
use xa_words::{Code, Completion, Request};

/// The memory of one manager's worker, which takes no more once it is put together.
#[derive(Drop)]
pub struct WorkerParts {
    pub(crate) number: u32,
    pub(crate) room: u32,
    pub(crate) journal: Vec<(Request, Code)>,
    // Reserved for the completions that wait.
    pub(crate) waiting: VecDeque<(usize, Completion)>,
    // Reserved for the ends of the lanes that the worker sends on.
    pub(crate) ends: Vec<Ended<Completion>>,
}

impl Model for WorkerParts {
    ghost use Rattle.xa_worker.specs.Workers.{Reserved};

    ghost Value = { Reserved };

    ghost use Rattle.std.specs.Prelude.{◌≡◌, ◌≤◌, [], vec_capacity};
    ghost use Rattle.std.specs.VecDeque.{deque_capacity};
    ghost use Rattle.xa_base.specs.declared.limits.TheConstants.{MOST_THREADS};
    ghost use Rattle.xa_worker.specs.declared.outbox.TheConstants.{MOST_WAITING};

    ghost view = { λ p. record { number = p.number; room = p.room } };

    ghost invariant = { λ p. (p.journal.items ≡ []) × (p.room ≤ vec_capacity p.journal) × (p.ends.items ≡ [])
        × (MOST_THREADS ≤ vec_capacity p.ends) × (p.waiting.items ≡ []) × (MOST_WAITING ≤ deque_capacity p.waiting) };
}

impl WorkerParts {
    /// Memory for the worker of the manager with this number, and for a journal of `room` requests.
    /// Fails only for want of memory.
    pub fn reserve(alloc: Global, number: u32, room: u32) -> Result<WorkerParts, AllocError>
        ensures number { IfOk result (λ p. p.number ≡ number) }
        ensures room { IfOk result (λ p. p.room ≡ room) }
    {
        let journal = Vec::with_capacity(alloc, room as usize)?;
        let waiting = VecDeque::with_capacity(alloc, MOST_WAITING)?;
        let ends = Vec::with_capacity(alloc, MOST_THREADS)?;
        Ok(WorkerParts {
            number,
            room,
            journal,
            waiting,
            ends,
        })
    }
}
