//! How an opening is settled whose desks have all ended and whose workers have all run.
ghost use Rattle.std.specs.Prelude.{◌≡◌, IfErr, IfOk};
ghost use Rattle.xa_switch.specs.Closing.{settling};
ghost use Rattle.xa_switch.specs.OfPlans.{IsOf};
ghost use Rattle.xa_switch.specs.Plans.{Setup};
ghost use Rattle.xa_switch.specs.Settled.{IsSettled};
ghost use Rattle.xa_crew.specs.Pieces.{ArePiecesOf};

use std::alloc::{AllocError, Global};
use std::sync::Wait;
use xa_desk::EndedDesk;
use xa_desk::laws::desks_go_out;
use xa_switch::laws::{opened_pieces_come_from_their_opening, settled_openings_are_of_their_setup};
use xa_switch::{Settled, Why, settle};
use xa_worker::DoneWorker;

/// Settles the opening whose desks and workers these are, all of them by rising number: one of a plan, or one that was
/// opened again. It fails only for want of memory, and then the desks and the workers come back.
pub(crate) fn settle_pieces<R: Wait>(
    rt: &R,
    alloc: Global,
    desks: Vec<EndedDesk>,
    workers: Vec<DoneWorker>,
) -> Result<Settled, (Vec<EndedDesk>, Vec<DoneWorker>)>
    requires { (p : Setup) × ArePiecesOf p desks.items workers.items }
    ensures settled { IfOk result (λ s. IsSettled s) }
    ensures pieces { IfOk result (λ s. s ≡ settling desks.items workers.items) }
    ensures of { IfOk result (λ s. (p : Setup) → ArePiecesOf p desks.items workers.items → IsOf p s) }
    ensures back { IfErr result (λ r. (r.0.items ≡ desks.items) × (r.1.items ≡ workers.items)) }
{
    opened_pieces_come_from_their_opening();
    settled_openings_are_of_their_setup();
    desks_go_out();
    match settle(rt, alloc, desks, workers) {
        Ok(settled) => Ok(settled),
        Err(unsettled) => match unsettled.why {
            Why::NoMemory => Err((unsettled.desks, unsettled.workers)),
            // They are all of one opening.
            Why::Stranger | Why::Missing => unreachable!(),
        },
    }
}

/// The same for a caller that drops what it can't settle.
pub fn settle_all<R: Wait>(
    rt: &R,
    alloc: Global,
    desks: Vec<EndedDesk>,
    workers: Vec<DoneWorker>,
) -> Result<Settled, AllocError>
    requires { (p : Setup) × ArePiecesOf p desks.items workers.items }
    ensures settled { IfOk result (λ s. IsSettled s) }
    ensures pieces { IfOk result (λ s. s ≡ settling desks.items workers.items) }
    ensures of { IfOk result (λ s. (p : Setup) → ArePiecesOf p desks.items workers.items → IsOf p s) }
{
    match settle_pieces(rt, alloc, desks, workers) {
        Ok(settled) => Ok(settled),
        Err(_) => Err(AllocError),
    }
}
