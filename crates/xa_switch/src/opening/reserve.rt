//! The memory of desks and workers.
ghost use Rattle.std.specs.Prelude.{◌≡◌, ◌+◌, length, IfOk};
ghost use Rattle.xa_base.specs.Lists.{IsUpTo};
ghost use Rattle.xa_switch.specs.Columns.{Each};
ghost use Rattle.xa_switch.specs.OpenedPieces.{desk_parts, worker_parts};

use crate::plan::Again;
use std::alloc::{AllocError, Global};
use xa_base::{MOST_HANDLES, MOST_JOURNALED, MOST_MANAGERS, MOST_REQUESTS, MOST_THREADS};
use xa_desk::DeskParts;
use xa_worker::WorkerParts;

/// The memory of each thread's desk, by rising thread, over managers with these flags.
pub(crate) fn reserve_desks(
    alloc: Global,
    numbers: &Again,
    use_async: &[bool],
) -> Result<Vec<DeskParts>, AllocError>
    requires threads { IsUpTo MOST_THREADS numbers.now.threads }
    requires managers { IsUpTo MOST_MANAGERS (length use_async.now) }
    requires handles { IsUpTo MOST_HANDLES numbers.now.handles }
    requires requests { IsUpTo MOST_REQUESTS numbers.now.requests }
    ensures many { IfOk result (λ v. length v.items ≡ numbers.now.threads) }
    ensures parts { IfOk result (λ v. Each (λ k p. p ≡ desk_parts numbers.now use_async.now (k + 1)) v.items) }
{
    let mut parts = Vec::with_capacity(alloc, numbers.threads as usize)?;
    for before in 0..numbers.threads {
        let part = DeskParts::reserve(
            alloc,
            before + 1,
            numbers.handles,
            numbers.requests,
            use_async,
        )?;
        parts.push(part)?;
    }
    Ok(parts)
}

/// The memory of each manager's worker, by rising manager, each with room for so many requests.
pub(crate) fn reserve_workers(
    alloc: Global,
    managers: u32,
    room: u32,
) -> Result<Vec<WorkerParts>, AllocError>
    requires managers { IsUpTo MOST_MANAGERS managers }
    requires room { IsUpTo MOST_JOURNALED room }
    ensures many { IfOk result (λ v. length v.items ≡ managers) }
    ensures parts { IfOk result (λ v. Each (λ k p. p ≡ record { number = k + 1; room = room }) v.items) }
{
    let mut parts = Vec::with_capacity(alloc, managers as usize)?;
    for before in 0..managers {
        parts.push(WorkerParts::reserve(alloc, before + 1, room)?)?;
    }
    Ok(parts)
}
