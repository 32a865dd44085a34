//! Laws of openings: how a caller knows that desks and workers come from their openings, which is what
//! settling asks, after whatever they did and in whatever order they are.
//!
//! The pieces of an opening come from it. A desk keeps its seat at every call and as it ends, a worker at
//! every step and as it runs, which each of them says itself; so the seats of what is left at the end are
//! those of the opening.
ghost use Rattle.std.specs.Prelude.{◌≡◌, ◌≢◌, ℕ, List, ◌++◌, map, Some};
ghost use Rattle.std.specs.List.{All};
ghost use Rattle.std.specs.List.Sorted.{IsPermutation};
ghost use Rattle.xa_tables.specs.Managers.{opening};
ghost use Rattle.xa_tables.specs.ManagerTables.{Tables};
ghost use Rattle.xa_tables.specs.Histories.{History};
ghost use Rattle.xa_tables.specs.Openings.{IsNew, left_by};
ghost use Rattle.xa_desk.specs.DeskViews.{DeskView};
ghost use Rattle.xa_desk.specs.Kept.{AllKept};
ghost use Rattle.xa_desk.specs.Ended.{EndedView};
ghost use Rattle.xa_worker.specs.Done.{Served};
ghost use Rattle.xa_worker.specs.Workers.{WorkerView};
ghost use Rattle.xa_switch.specs.declared.plan.Again.{Again};
ghost use Rattle.xa_switch.specs.Reopening.{IsWhole, reopening, reopened_at};
ghost use Rattle.xa_switch.specs.Closing.{settling};
ghost use Rattle.xa_switch.specs.OfPlans.{IsOf};
ghost use Rattle.xa_switch.specs.Plans.{Setup};
ghost use Rattle.xa_switch.specs.OpenedPieces.{AreOfOneOpening};
ghost use Rattle.xa_switch.specs.Settled.{Settling, IsSettled};
ghost use Rattle.xa_switch.specs.Fates.{IsOpenedWith, IsSumOver, first_of};
ghost use Rattle.xa_switch.specs.Belonging.{DeskSeat, WorkerSeat, ComeFromOpenings, AreSomeOf, AreAll, desk_seats};
ghost use Rattle.xa_switch.specs.Belonging.{worker_seats, openings_of, seat_of_desk, seat_of_worker};

use laws_fates::value_is_sum;

/// The desks and workers that an opening gives come from it.
#[tactic(auto, using(crate::proofs::Meeting::opened))]
pub fn opened_pieces_come_from_their_opening()
    ensures { (p : Setup) (ds : List DeskView) (ws : List WorkerView) → AreOfOneOpening p ds ws
        → ComeFromOpenings (map seat_of_desk ds) (map seat_of_worker ws) }
{}

/// They have its number.
#[tactic(auto, using(crate::proofs::Meeting::numbered))]
pub fn opened_pieces_have_their_number()
    ensures { (p : Setup) (ds : List DeskView) (ws : List WorkerView) → AreOfOneOpening p ds ws
        → All (λ n. n ≡ p.numbers.opening) (openings_of (map seat_of_desk ds) (map seat_of_worker ws)) }
{}

/// Some of the pieces, in any order, still come from their openings.
pub fn some_pieces_come_from_their_openings()
    ensures { (ds some_ds : List DeskSeat) (ws some_ws : List WorkerSeat) → AreSomeOf some_ds ds → AreSomeOf some_ws ws
        → ComeFromOpenings ds ws → ComeFromOpenings some_ds some_ws }
{}

/// Pieces of several openings may be mixed, since no two openings have one number.
#[tactic(auto, using(crate::proofs::Dealing::mixed_come))]
pub fn mixed_pieces_come_from_their_openings()
    ensures { (ds others : List DeskSeat) (ws other_ws : List WorkerSeat)
        → All (λ a. All (λ b. a ≢ b) (openings_of others other_ws)) (openings_of ds ws) → ComeFromOpenings ds ws
        → ComeFromOpenings others other_ws → ComeFromOpenings (ds ++ others) (ws ++ other_ws) }
{}

/// What is settled of all pieces of an opening, in any order, is of the setup that it was made with: its number, its
/// threads and its managers are those of the setup, and each manager began with the setup's tables.
pub fn settled_openings_are_of_their_setup()
    ensures { (p : Setup) (ds : List DeskView) (ws : List WorkerView) (es : List EndedView) (vs : List Served)
        → AreOfOneOpening p ds ws → IsPermutation (map seat_of_desk ds) (desk_seats es)
        → IsPermutation (map seat_of_worker ws) (worker_seats vs) → AreAll es vs → IsOf p (settling es vs) }
{}

/// An opening that was opened again from another has its managers, and each begins with what was left there.
pub fn reopened_openings_go_on_from_what_was_left()
    ensures { (s next : Settling) (again : Again) (m : ℕ) (T : Tables) → IsWhole s → IsOf (reopening s again) next
        → first_of s m ≡ Some T → first_of next m ≡ Some (reopened_at s.managers m) }
{}

/// In a settled opening each journal is what the tables that its manager began with make of the requests that it took.
pub fn settled_journals_follow_the_tables()
    ensures some { (s : Settling) (m : ℕ) → IsSettled s → (T : Tables) × IsOpenedWith s m T }
    ensures first { (s : Settling) (m : ℕ) (T : Tables) → IsSettled s → first_of s m ≡ Some T → IsOpenedWith s m T }
{}

/// In a settled opening the values are those that the first opening had, and each accepted addition whose branch
/// commits later, in its own opening or in another, whichever openings left what its managers began with.
#[tactic(auto, using(crate::proofs::SettledOpenings::sums))]
pub fn settled_values_are_sums()
    ensures { (s : Settling) (m : ℕ) (before : List History) (T : Tables) → IsSettled s → IsNew T
        → first_of s m ≡ Some (left_by before T) → IsSumOver s m before T }
{
    value_is_sum();
}

/// At the desks of an opening nothing is outstanding that isn't kept.
#[tactic(auto, using(crate::proofs::Meeting::kept))]
pub fn opened_desks_keep_what_is_outstanding()
    ensures { (p : Setup) (ds : List DeskView) (ws : List WorkerView) → AreOfOneOpening p ds ws → All AllKept ds }
{}
