//! How desks and workers are taken apart, as their opening is settled.
ghost use Rattle.std.specs.Prelude.{◌≤◌, length, map, IfOk};
ghost use Rattle.std.specs.List.{All};
ghost use Rattle.xa_desk.specs.Ended.{IsEndedDesk};
ghost use Rattle.xa_tables.specs.Openings.{IsOpening};
ghost use Rattle.xa_worker.specs.Done.{IsServed, IsOrdered};
ghost use Rattle.xa_switch.specs.Closing.{desk_lane, worker_lane, thread_part, ready_part, HasRoomForPieces};
ghost use Rattle.xa_switch.specs.Closing.{HasRoomForPiece, HasTaken, TakesInPiece};

use crate::columns::{deal, reserve_columns};
use crate::settling::settled::{Carried, EndedThread};
use std::alloc::{AllocError, Global};
use std::snapshot::Snapshot;
use xa_base::MOST_SENDERS;
use xa_desk::{DeskEnds, EndedDesk};
use xa_lane::{Ended, Receiver};
use xa_words::{Completion, Request};
use xa_worker::{DoneWorker, WorkerEnds};

/// The pieces' ends of lanes, dealt by the lane that they are of, the receivers of their own lanes, each
/// with its place, and what becomes part of a settled opening.
#[derive(Drop)]
pub(crate) struct Gathered<E: Drop, R: Drop, P: Drop> {
    pub(crate) columns: Vec<Vec<E>>,
    pub(crate) lanes: Vec<(usize, R)>,
    pub(crate) parts: Vec<P>,
}

pub(crate) type GatheredDesks = Gathered<Ended<Request>, Receiver<Completion>, EndedThread>;

pub(crate) type GatheredWorkers = Gathered<Ended<Completion>, Receiver<Request>, Carried>;

/// Room for so many pieces.
pub(crate) fn reserve_gathered<E: Drop, R: Drop, P: Drop>(
    alloc: Global,
    pieces: usize,
) -> Result<Gathered<E, R, P>, AllocError>
    ensures { IfOk result (λ r. HasRoomForPieces pieces r) }
{
    let columns = reserve_columns(alloc, MOST_SENDERS, pieces)?;
    let lanes = Vec::with_capacity(alloc, pieces)?;
    let parts = Vec::with_capacity(alloc, pieces)?;
    Ok(Gathered {
        columns,
        lanes,
        parts,
    })
}

impl<E: Drop, R: Drop, P: Drop> Gathered<E, R, P> {
    // Takes in one piece more: its ends of lanes, its own lane with the lane's place, and its part.
    fn take_in(self, ends: Vec<E>, lane: (usize, R), part: P) -> Gathered<E, R, P>
        requires row { length ends.items ≤ length self.columns.items }
        requires room { HasRoomForPiece self }
        ensures { TakesInPiece ends.items lane part self result }
    {
        let Gathered {
            columns,
            mut lanes,
            mut parts,
        } = self;
        lanes.push_reserved(lane);
        parts.push_reserved(part);
        Gathered {
            columns: deal(columns, ends),
            lanes,
            parts,
        }
    }
}

/// Takes the desks apart. It takes no memory.
pub(crate) fn take_desks(desks: Vec<EndedDesk>, mut room: GatheredDesks) -> GatheredDesks
    requires room { HasRoomForPieces (length desks.items) room }
    requires few { All (λ d. length d.ledgers ≤ MOST_SENDERS) desks.items }
    ensures taken { HasTaken (length desks.items) (map (λ d. d.requests) desks.items) (map desk_lane desks.items)
        (map thread_part desks.items) result }
    ensures known { All IsEndedDesk desks.items }
{
    for desk in desks {
        let number = desk.number();
        let DeskEnds {
            requests,
            completions,
            ledgers,
        } = desk.apart();
        let lane = (number as usize - 1, completions);
        room = room.take_in(requests, lane, EndedThread { number, ledgers });
    }
    room
}

/// Takes the workers apart. It takes no memory.
pub(crate) fn take_workers(workers: Vec<DoneWorker>, mut room: GatheredWorkers) -> GatheredWorkers
    requires room { HasRoomForPieces (length workers.items) room }
    requires few { All (λ w. w.manager.threads ≤ MOST_SENDERS) workers.items }
    requires numbered { All (λ w. 1 ≤ w.number) workers.items }
    requires opened { All (λ w. IsOpening w.first) workers.items }
    ensures taken { HasTaken (length workers.items) (map (λ w. w.ends) workers.items) (map worker_lane workers.items)
        (map ready_part workers.items) result }
    ensures known { All IsServed workers.items }
    ensures ordered { All IsOrdered workers.items }
{
    for worker in workers {
        let number = worker.number();
        let done = Snapshot::of(&worker);
        let WorkerEnds {
            manager,
            receiver,
            ends,
            journal,
        } = worker.apart();
        let lane = (number as usize - 1, receiver);
        let part = Carried {
            number,
            done,
            manager,
            journal,
        };
        room = room.take_in(ends, lane, part);
    }
    room
}
