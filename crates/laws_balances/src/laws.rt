//! What branches move, each alone and all together.
ghost use Rattle.std.specs.Prelude.{◌≡◌, ℕ, pos, true, false, List, ◌∷◌};
ghost use Rattle.std.specs.List.{All, IsDistinct};
ghost use Rattle.xa_words.specs.Xid.{XidName, xid_eq};
ghost use Rattle.xa_tables.specs.ManagerTables.{Tables};
ghost use Rattle.xa_tables.specs.Histories.{History, Fate, InDoubt, fate, is_in_doubt};
ghost use Rattle.xa_tables.specs.Openings.{IsOpening, fate_left};
ghost use Rattle.xa_tables.specs.Prepared.{IsPrepared};
ghost use Rattle.xa_tables.specs.Worth.{DeclareEach, held_by};
ghost use Rattle.laws_balances.specs.MovedOver.{moved_over, is_for, CommitsNowhere, CommitsAmong};
ghost use Rattle.laws_balances.specs.Course.{Votes, is_outcome_or_in_doubt, OnlyTold, MovesWhereCommitted, voted_sum};
ghost use Rattle.laws_balances.specs.Days.{WorthIsOfBranches, WorthIsRecorded, IsDay, DayLeg};

/// A branch that votes to commit moves what it held as it was asked, if a Commit ends it, in its own opening or in a
/// later one, and else nothing. So does one that an opening finds prepared.
#[tactic(auto, using(crate::proofs::Course::voted_law, crate::proofs::Course::left_law))]
pub fn voted_branches_move_what_they_held()
    ensures voted { (accounts : List (List ℕ × ℕ)) (x : XidName) (f : Fate) (h : History) (later : List History)
        (T : Tables) (votes : Votes x h T) → IsOpening T → All (OnlyTold x) later
        → MovesWhereCommitted accounts x (voted_sum accounts x h T votes) f (h ∷ later) T }
    ensures left { (accounts : List (List ℕ × ℕ)) (x : XidName) (hs : List History) (T : Tables) → IsOpening T
        → IsPrepared x T → All (OnlyTold x) hs
        → MovesWhereCommitted accounts x (held_by accounts x T) InDoubt hs T }
{}

/// No manager has decided such a branch by itself; and once it has ended in the opening in which it voted, that stays
/// its fate.
#[tactic(auto, using(crate::proofs::Course::undecided_law, crate::proofs::Course::ended_law))]
pub fn voted_branches_end_as_they_were_told()
    ensures undecided { (x : XidName) (f : Fate) (h : History) (later : List History) (T : Tables) → Votes x h T
        → IsOpening T → All (OnlyTold x) later → is_outcome_or_in_doubt (fate_left x f (h ∷ later) T) ≡ true }
    ensures ended { (x : XidName) (f : Fate) (h : History) (later : List History) (T : Tables) → Votes x h T
        → IsOpening T → All (OnlyTold x) later → is_in_doubt (fate x f h T) ≡ false
        → fate_left x f (h ∷ later) T ≡ fate x f h T }
{}

/// A branch that nothing commits moves nothing.
#[tactic(auto, using(crate::proofs::Course::still_over))]
pub fn uncommitted_branches_move_nothing()
    ensures { (accounts : List (List ℕ × ℕ)) (x : XidName) (hs : List History) (T : Tables)
        → All (CommitsNowhere x) hs → moved_over accounts (is_for x) hs T ≡ pos 0 }
{}

/// Over openings one after another the worth of any accounts that are declared moves by what the Commits of each branch
/// have moved, where they are all of these branches.
#[tactic(auto, using(crate::proofs::InARow::branches_law))]
pub fn branches_move_the_worth_over_openings()
    ensures { (accounts : List (List ℕ × ℕ)) (xs : List XidName) (hs : List History) (T : Tables)
        → DeclareEach accounts T → IsDistinct xid_eq xs → All (CommitsAmong xs) hs
        → WorthIsOfBranches accounts xs hs T }
{}

/// What accounts are worth after a day, and after the openings that follow it, is what they were worth before and, for
/// each branch whose transaction was recorded, what it held as it voted.
#[tactic(auto, using(crate::proofs::InARow::day_law))]
pub fn recorded_branches_are_what_a_day_moves()
    ensures { (accounts : List (List ℕ × ℕ)) (T : Tables) (h : History) (later : List History) (legs : List DayLeg)
        → IsOpening T → DeclareEach accounts T → IsDay accounts T h later legs
        → WorthIsRecorded accounts T h later legs }
{}
