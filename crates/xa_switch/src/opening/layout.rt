//! The memory and the lanes of an opening.
ghost use Rattle.std.specs.Prelude.{◌≡◌, length, map, IfOk};
ghost use Rattle.std.specs.List.{All};
ghost use Rattle.xa_tables.specs.Openings.{IsOpening};
ghost use Rattle.xa_switch.specs.Plans.{IsWithinLimits, setup, new_manager};
ghost use Rattle.xa_switch.specs.OpenedPieces.{IsLaidOut, AreOfOneOpening};

use crate::opening::assemble::{assemble_desks, assemble_workers};
use crate::opening::lanes::{COMPLETIONS, NewLanes, REQUESTS, open_lanes};
use crate::opening::reserve::{reserve_desks, reserve_workers};
use crate::plan::Again;
use std::alloc::{AllocError, Global};
use std::sync::Wait;
use xa_desk::{Desk, DeskParts};
use xa_tables::Manager;
use xa_words::{Completion, Request};
use xa_worker::{Worker, WorkerParts};

/// All that an opening needs but its managers, of which nothing is put together yet.
#[derive(Drop)]
pub(crate) struct Layout {
    pub(crate) numbers: Again,
    pub(crate) use_async: Vec<bool>,
    pub(crate) desk_parts: Vec<DeskParts>,
    pub(crate) worker_parts: Vec<WorkerParts>,
    pub(crate) requests: NewLanes<Request>,
    pub(crate) completions: NewLanes<Completion>,
    // Room for the desks and the workers.
    pub(crate) desks: Vec<Desk>,
    pub(crate) workers: Vec<Worker>,
}

/// Reserves the memory of an opening with these numbers, of managers with these flags, and opens its lanes.
pub(crate) fn lay_out<R: Wait>(
    rt: &R,
    alloc: Global,
    numbers: &Again,
    use_async: Vec<bool>,
) -> Result<Layout, AllocError>
    requires limits { IsWithinLimits numbers.now (length use_async.items) }
    ensures laid_out { IfOk result IsLaidOut }
    ensures numbers { IfOk result (λ l. l.numbers ≡ numbers.now) }
    ensures flags { IfOk result (λ l. l.use_async.items ≡ use_async.items) }
{
    let many = use_async.len() as u32;
    let (opening, threads) = (numbers.opening, numbers.threads);
    let room = numbers.handles + 1 + many;
    let desk_parts = reserve_desks(alloc, numbers, &use_async)?;
    let worker_parts = reserve_workers(alloc, many, numbers.manager_room())?;
    let requests = open_lanes(rt, alloc, opening, REQUESTS, threads, many, numbers.queue)?;
    let completions = open_lanes(rt, alloc, opening, COMPLETIONS, many, threads, room)?;
    let desks = Vec::with_capacity(alloc, desk_parts.len())?;
    let workers = Vec::with_capacity(alloc, worker_parts.len())?;
    Ok(Layout {
        numbers: *numbers,
        use_async,
        desk_parts,
        worker_parts,
        requests,
        completions,
        desks,
        workers,
    })
}

/// Puts an opening together: a desk for each thread, and a worker for each manager. It takes no memory.
pub(crate) fn put_together(layout: Layout, managers: Vec<Manager>) -> (Vec<Desk>, Vec<Worker>)
    requires laid_out { IsLaidOut layout }
    requires many { length managers.items ≡ length layout.use_async.items }
    requires new { All (λ m. m ≡ new_manager layout.numbers m.tables) managers.items }
    requires begins { All (λ m. IsOpening m.tables) managers.items }
    ensures { AreOfOneOpening (setup layout.numbers layout.use_async.items (map (λ m. m.tables) managers.items))
        result.0.items result.1.items }
{
    let Layout {
        numbers: _,
        use_async: _,
        desk_parts,
        worker_parts,
        requests,
        completions,
        desks,
        workers,
    } = layout;
    let desks = assemble_desks(desks, desk_parts, requests.columns, completions.receivers);
    let workers = assemble_workers(
        workers,
        worker_parts,
        managers,
        requests.receivers,
        completions.columns,
    );
    (desks, workers)
}
