//! Openings one after another: opened, settled, and opened again for one thread.
ghost use Rattle.std.specs.Prelude.{◌≡◌, ℕ, List, ◌∷◌, [], map};
ghost use Rattle.xa_desk.specs.DeskViews.{DeskView, ledger};
ghost use Rattle.xa_worker.specs.Workers.{WorkerView};
ghost use Rattle.xa_switch.specs.Plans.{Setup};
ghost use Rattle.xa_switch.specs.Reopening.{reopening};
ghost use Rattle.xa_switch.specs.Closing.{settling};
ghost use Rattle.xa_switch.specs.OfPlans.{IsOf};
ghost use Rattle.xa_switch.specs.OpenedPieces.{AreOfOneOpening};
ghost use Rattle.xa_switch.specs.Recovery.{IsScanOf};
ghost use Rattle.xa_switch.specs.Belonging.{ComeFromOpenings, desk_seats, worker_seats, seat_of_desk, seat_of_worker};
ghost use Rattle.xa_switch.specs.Settled.{IsSettled};

use super::Opened;
use std::alloc::Global;
use std::process::Abort;
use std::sync::Wait;
use test_support::{one, two};
use xa_crew::Turns;
use xa_desk::{Desk, EndedDesk};
use xa_scan::Scan;
use xa_switch::laws::{opened_pieces_come_from_their_opening, settled_openings_are_of_their_setup};
use xa_switch::{Again, Plan, Settled, settle};
use xa_worker::DoneWorker;

// Opens a switch of two threads, the second of which has sent nothing.
pub(super) fn open<R: Wait + Abort>(rt: &R, alloc: Global, plan: &Plan) -> Opened
    ensures opened { ComeFromOpenings (seat_of_desk result.first ∷ seat_of_desk result.second ∷ [])
        (map seat_of_worker result.workers) }
    ensures fresh { (m : ℕ) → (ledger result.second.ledgers m).sent ≡ [] }
{
    opened_pieces_come_from_their_opening();
    let Some((desks, workers)) = test_support::open(rt, alloc, plan) else {
        panic!(rt; "it is not opened");
    };
    let Some((first, second)) = two(desks) else {
        panic!(rt; "there are no two desks");
    };
    Opened {
        first,
        second,
        workers,
    }
}

// Settles all desks and workers of an opening, which is of its setup.
pub(super) fn settle_all<R: Wait + Abort>(
    rt: &R,
    alloc: Global,
    desks: Vec<EndedDesk>,
    workers: Vec<DoneWorker>,
) -> Settled
    requires { ComeFromOpenings (desk_seats desks.items) (worker_seats workers.items) }
    ensures settled { IsSettled result }
    ensures parts { result ≡ settling desks.items workers.items }
    ensures of { (p : Setup) (ds : List DeskView) (ws : List WorkerView) → AreOfOneOpening p ds ws
        → map seat_of_desk ds ≡ desk_seats desks.items → map seat_of_worker ws ≡ worker_seats workers.items
        → IsOf p result }
{
    settled_openings_are_of_their_setup();
    match settle(rt, alloc, desks, workers) {
        Ok(settled) => settled,
        Err(_) => panic!(rt; "it is not settled"),
    }
}

// The one desk of an opening that was opened again, its workers, and the scan of its thread.
#[derive(Drop)]
pub(super) struct Reopened {
    pub(super) desk: Desk,
    pub(super) workers: Turns,
    pub(super) scan: Scan,
}

pub(super) fn open_again<R: Wait + Abort>(
    rt: &R,
    alloc: Global,
    settled: Settled,
    again: &Again,
) -> Reopened
    ensures opened { AreOfOneOpening (reopening settled again.now) (result.desk ∷ []) result.workers }
    ensures scan { IsScanOf settled result.scan }
{
    let Some((desks, workers, scans)) = test_support::open_again(rt, alloc, settled, again) else {
        panic!(rt; "it is not opened again");
    };
    let Some(desk) = one(desks) else {
        panic!(rt; "there is no one desk");
    };
    let Some(scan) = one(scans) else {
        panic!(rt; "there is no one scan");
    };
    Reopened {
        desk,
        workers,
        scan,
    }
}

// The numbers of an opening that is opened again.
pub(super) fn again(opening: u64) -> Again {
    Again {
        opening,
        threads: 1,
        handles: 8,
        queue: 4,
        requests: 16,
    }
}
