//! How an opening is settled, once its desks have ended and its workers have run.
ghost use Rattle.std.specs.Prelude.{◌≡◌, ◌≤◌, length, map, IfOk, IfErr, OnOk};
ghost use Rattle.std.specs.List.{All};
ghost use Rattle.xa_switch.specs.Settled.{IsSettled, journal};
ghost use Rattle.xa_switch.specs.Belonging.{desk_seats, worker_seats, ComeFromOpenings, AreOfOne, AreAll};
ghost use Rattle.xa_switch.specs.Belonging.{IsWhyUnsettled, first_opening};
ghost use Rattle.xa_switch.specs.Closing.{settling, HasRoomForPieces};
ghost use Rattle.xa_switch.specs.Fates.{ledgers_of};

mod checks;
mod closing;
mod gathered;
pub(crate) mod settled;

use crate::settling::checks::{are_all, are_of_one, first_opening};
use crate::settling::closing::close_lanes;
use crate::settling::gathered::{
    Gathered, GatheredDesks, GatheredWorkers, reserve_gathered, take_desks, take_workers,
};
use crate::settling::settled::Settled;
use std::alloc::Global;
use std::sync::Wait;
use xa_base::MOST_SENDERS;
use xa_desk::EndedDesk;
use xa_worker::DoneWorker;

/// Why an opening is not settled: the first reason that holds.
#[derive(Clone, Copy, Debug, PartialEq, Eq)]
pub enum Why {
    /// A desk or a worker is of another opening than the first one.
    Stranger,
    /// Not every desk and worker of the opening is there.
    Missing,
    /// There is no memory to settle it.
    NoMemory,
}

/// An opening that is not settled. All that was given comes back.
#[derive(Drop)]
pub struct Unsettled {
    pub why: Why,
    pub desks: Vec<EndedDesk>,
    pub workers: Vec<DoneWorker>,
}

/// Settles an opening: whatever the schedule was, each manager carried out what each thread sent to it,
/// once and in the thread's order, and each request was collected once, with the code that the
/// sequential tables give it at its place.
///
/// The desks and the workers may come in any order. All is checked and all memory is taken before any
/// lane is closed.
///
/// Condition: desks and workers of one opening number come from one opening.
pub fn settle<R: Wait>(
    rt: &R,
    alloc: Global,
    desks: Vec<EndedDesk>,
    workers: Vec<DoneWorker>,
) -> Result<Settled, Unsettled>
    requires { ComeFromOpenings (desk_seats desks.items) (worker_seats workers.items) }
    ensures settled { IfOk result (λ s. IsSettled s) }
    ensures parts { IfOk result (λ s. s ≡ settling desks.items workers.items) }
    ensures lists { IfOk result (λ s. map (λ e. ledgers_of s e.thread) desks.items ≡ map (λ e. e.ledgers) desks.items) }
    ensures journals { IfOk result (λ s. map (λ w. journal s w.number) workers.items
        ≡ map (λ w. w.journal) workers.items) }
    ensures whole { OnOk result (AreOfOne desks.items workers.items × AreAll desks.items workers.items) }
    ensures why { IfErr result (λ u. IsWhyUnsettled u.why desks.items workers.items) }
    ensures back { IfErr result (λ u. (u.desks.items ≡ desks.items) × (u.workers.items ≡ workers.items)) }
{
    let opening = first_opening(&desks, &workers);
    if !are_of_one(&desks, &workers) {
        return Err(refused(Why::Stranger, desks, workers));
    }
    if !are_all(&desks, &workers) {
        return Err(refused(Why::Missing, desks, workers));
    }
    let Ok(desk_room) = reserve_gathered(alloc, desks.len()) else {
        return Err(refused(Why::NoMemory, desks, workers));
    };
    let Ok(worker_room) = reserve_gathered(alloc, workers.len()) else {
        return Err(refused(Why::NoMemory, desks, workers));
    };
    Ok(close_all(rt, alloc, opening, desks, workers, desk_room, worker_room))
}

fn refused(why: Why, desks: Vec<EndedDesk>, workers: Vec<DoneWorker>) -> Unsettled
    ensures { (result.why ≡ why) × (result.desks.items ≡ desks.items) × (result.workers.items ≡ workers.items) }
{
    Unsettled {
        why,
        desks,
        workers,
    }
}

// Closes all lanes of an opening whose desks and workers are all there.
#[tactic(auto, using(crate::proofs::Pieces::workers_numbered, crate::proofs::Pieces::workers_opened))]
fn close_all<R: Wait>(
    rt: &R,
    alloc: Global,
    opening: u64,
    desks: Vec<EndedDesk>,
    workers: Vec<DoneWorker>,
    desk_room: GatheredDesks,
    worker_room: GatheredWorkers,
) -> Settled
    requires from { ComeFromOpenings (desk_seats desks.items) (worker_seats workers.items) }
    requires opening { opening ≡ first_opening desks.items workers.items }
    requires one { AreOfOne desks.items workers.items }
    requires whole { AreAll desks.items workers.items }
    requires few_managers { All (λ d. length d.ledgers ≤ MOST_SENDERS) desks.items }
    requires few_threads { All (λ w. w.manager.threads ≤ MOST_SENDERS) workers.items }
    requires desk_room { HasRoomForPieces (length desks.items) desk_room }
    requires worker_room { HasRoomForPieces (length workers.items) worker_room }
    ensures parts { result ≡ settling desks.items workers.items }
    ensures lists { map (λ e. ledgers_of result e.thread) desks.items ≡ map (λ e. e.ledgers) desks.items }
    ensures journals { map (λ w. journal result w.number) workers.items ≡ map (λ w. w.journal) workers.items }
    ensures settled { IsSettled result }
{
    let Gathered {
        columns: sent,
        lanes: completions,
        parts: threads,
    } = take_desks(desks, desk_room);
    let Gathered {
        columns: answered,
        lanes: requests,
        parts: managers,
    } = take_workers(workers, worker_room);
    close_lanes(rt, alloc, sent, requests);
    close_lanes(rt, alloc, answered, completions);
    Settled {
        opening,
        threads,
        managers,
    }
}
