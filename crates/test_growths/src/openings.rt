//! Openings whose workers take turns while a desk waits, all in this thread.
ghost use Rattle.std.specs.Prelude.{◌≡◌, ◌∷◌, [], IfSome, map};
ghost use Rattle.std.specs.List.{All};
ghost use Rattle.xa_switch.specs.Belonging.{ComeFromOpenings, openings_of, seat_of_desk, seat_of_worker};

use std::alloc::Global;
use std::sync::Wait;
use test_support::one;
use xa_crew::Turns;
use xa_desk::Desk;
use xa_switch::Plan;
use xa_switch::laws::{opened_pieces_come_from_their_opening, opened_pieces_have_their_number};
use xa_words::Key;

/// A plan of one thread and so many managers, each with a key `a` of value 5. None for want of memory.
pub(crate) fn plan_of(alloc: Global, opening: u64, managers: u32) -> Option<Plan>
    ensures { IfSome result (λ p. p.opening ≡ opening) }
{
    let accounts = [(Key::new(b"a")?, 5)];
    Some(Plan {
        opening,
        handles: 4,
        ..test_support::plan_of(alloc, managers, &accounts)?
    })
}

/// The one desk of an opening, and its workers.
#[derive(Drop)]
pub(crate) struct Opened {
    pub(crate) desk: Desk,
    pub(crate) workers: Turns,
}

/// Opens a plan of one thread. None for want of memory.
pub(crate) fn open<R: Wait>(rt: &R, alloc: Global, plan: &Plan) -> Option<Opened>
    ensures come { IfSome result (λ o. ComeFromOpenings (seat_of_desk o.desk ∷ [])
        (map seat_of_worker o.workers)) }
    ensures number { IfSome result (λ o. All (λ n. n ≡ plan.now.opening)
        (openings_of (seat_of_desk o.desk ∷ []) (map seat_of_worker o.workers))) }
{
    opened_pieces_come_from_their_opening();
    opened_pieces_have_their_number();
    let (desks, workers) = test_support::open(rt, alloc, plan)?;
    let desk = one(desks)?;
    Some(Opened { desk, workers })
}
