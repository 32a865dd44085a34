//! What a desk is made of.
ghost use Rattle.std.specs.Prelude.{◌≡◌, ◌+◌, ◌≤◌, [], length, IfOk};

use crate::ledger::{Ledger, open_ledgers};
use crate::operation::{MOST_SLOTS, Operation, Slot, SlotKeys, reserve_keys};
use crate::places::empty_places;
use slab::Slab;
use std::alloc::{AllocError, Global};
use std::marker::Model;
use xa_base::{MOST_HANDLES, MOST_MANAGERS, MOST_REQUESTS, MOST_THREADS};
use xa_lane::Ended;
use xa_words::Request;

/// All the memory that a desk ever takes.
#[derive(Drop)]
pub struct DeskParts {
    pub(crate) thread: u32,
    pub(crate) handles: u32,
    pub(crate) plan: u32,
    pub(crate) ledgers: Vec<Ledger>,
    pub(crate) slots: Slab<Slot>,
    pub(crate) rows: Vec<SlotKeys>,
    pub(crate) kept: Vec<Option<Operation>>,
    pub(crate) ends: Vec<Ended<Request>>,
}

impl Model for DeskParts {
    ghost use Rattle.xa_desk.specs.Lanes.{PartsView};
    ghost use Rattle.xa_desk.specs.Parts.{parts_view, AreParts};

    ghost Value = { PartsView };

    ghost view = { parts_view };

    ghost invariant = { AreParts };
}

impl DeskParts {
    /// Reserves the memory of a desk.
    ///
    /// `thread` and the managers are numbered from 1. There are `handles` handles and at most `requests`
    /// requests to each manager. `use_async` says of each manager whether it takes asynchronous calls
    /// (`TMUSEASYNC`; C193, chapter 4). Fails only for want of memory.
    pub fn reserve(
        alloc: Global,
        thread: u32,
        handles: u32,
        requests: u32,
        use_async: &[bool],
    ) -> Result<DeskParts, AllocError>
        requires thread { (1 ≤ thread) × (thread ≤ MOST_THREADS) }
        requires handles { (1 ≤ handles) × (handles ≤ MOST_HANDLES) }
        requires requests { (1 ≤ requests) × (requests ≤ MOST_REQUESTS) }
        requires managers { (1 ≤ length use_async.now) × (length use_async.now ≤ MOST_MANAGERS) }
        ensures { IfOk result (λ p. p ≡ record {
          thread = thread;
          handles = handles;
          plan = requests;
          use_async = use_async.now;
        }) }
    {
        let ledgers = open_ledgers(alloc, requests, use_async)?;
        let slots = reserve_slots(alloc, handles)?;
        let rows = reserve_keys(alloc, use_async.len(), requests)?;
        let kept = empty_places(alloc, handles as usize)?;
        let ends = Vec::with_capacity(alloc, MOST_MANAGERS)?;
        Ok(DeskParts {
            thread,
            handles,
            plan: requests,
            ledgers,
            slots,
            rows,
            kept,
            ends,
        })
    }
}

// A slot for each handle, and one more for a synchronous call. A slab may come with more room than was asked for. Room
// for more slots than there are keys counts as want of memory.
fn reserve_slots(alloc: Global, handles: u32) -> Result<Slab<Slot>, AllocError>
    ensures empty { IfOk result (λ s. s.slots ≡ []) }
    ensures room { IfOk result (λ s. (handles + 1 ≤ s.capacity) × (s.capacity ≤ MOST_SLOTS)) }
{
    let slots = Slab::with_capacity(alloc, handles as usize + 1)?;
    if slots.capacity() > MOST_SLOTS {
        return Err(AllocError);
    }
    Ok(slots)
}
