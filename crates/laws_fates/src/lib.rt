//! What becomes of the branches of a manager, and of its values, by any history of requests and over any openings.
//!
//! A transcript's values rest on these laws. Those that the program doesn't stand on are in laws_tables.
#![tactic(auto)]

ghost use Rattle.std.specs.Prelude.{◌≡◌, ◌++◌, ℕ, Bool, List, codes};
ghost use Rattle.xa_words.specs.Xid.{XidName};
ghost use Rattle.xa_tables.specs.ManagerTables.{Tables, state_of};
ghost use Rattle.xa_tables.specs.Histories.{History, Fate, IsFateOf, OnlyUnfinishedTouch, LateAddNothing};
ghost use Rattle.xa_tables.specs.Histories.{LateAreRefused, LateChangeNothing, tables_after, coded, accepted};
ghost use Rattle.xa_tables.specs.Histories.{first_shut, late, fate, fate_in};
ghost use Rattle.xa_tables.specs.Openings.{IsNew, IsOpening, FatesAreTold, ValueIsSum, reopened, reopened_fate};
ghost use Rattle.xa_tables.specs.Openings.{fate_of_state};

/// Whatever is requested, the tables tell what became of each branch: it is prepared exactly if it is in doubt, it
/// exists exactly while it is at work or in doubt or is heuristically completed, and then it ended as was decided. So
/// it is in an opening, from a fate that its first tables tell, and over any openings one after another.
#[tactic(auto, using(crate::proofs::FateLaw::begin_law, crate::proofs::FateLaw::kept_law))]
pub fn tables_tell_the_fates()
    ensures first { (x : XidName) (T : Tables) → IsFateOf x (fate_of_state (state_of T x)) T }
    ensures kept { (h : History) (x : XidName) (f : Fate) (T : Tables) → IsOpening T → IsFateOf x f T
        → IsFateOf x (fate x f h T) (tables_after h T) }
    ensures reopened { (x : XidName) (f : Fate) (T : Tables) → IsFateOf x f T
        → IsFateOf x (reopened_fate f) (reopened T) }
    ensures over { (before : List History) (h : History) (x : XidName) (T : Tables) → IsNew T
        → FatesAreTold x before h T }
{}

/// Whatever is requested, a branch that doesn't exist, or is heuristically completed, has touched no key.
#[tactic(auto, using(crate::proofs::ValueLaw::touch_law))]
pub fn only_unfinished_branches_have_touched_keys()
    ensures { (h : History) (x : XidName) (T : Tables) → IsOpening T → OnlyUnfinishedTouch x h T }
{}

/// Whatever is requested, over any openings, the tables' value of a key is its value at the first opening and each
/// accepted addition whose branch commits later, in its own opening or in another.
#[tactic(auto, using(crate::proofs::SumLaw::sum_law))]
pub fn value_is_sum()
    ensures { (before : List History) (h : History) (k : List ℕ) (T : Tables) → IsNew T → ValueIsSum k before h T }
{}

/// The first Shut parts a history into the accepted requests, itself and the late ones. A late request is
/// refused with XAER_RMFAIL and changes nothing; the accepted ones go as if nothing came after them.
#[tactic(auto, using(crate::proofs::ShutLaw::late_are_refused, crate::proofs::ShutLaw::late_change_nothing))]
pub fn late_requests_are_refused()
    ensures parted { (h : History) → h ≡ accepted h ++ (first_shut h ++ late h) }
    ensures codes { (h : History) (T : Tables) → IsOpening T → LateAreRefused h T }
    ensures tables { (h : History) (T : Tables) → IsOpening T → LateChangeNothing h T }
{}

/// They make nothing of any branch, so its fate may be read from the whole history.
#[tactic(auto, using(crate::proofs::ShutLaw::late_leave_fates))]
pub fn late_requests_leave_fates()
    ensures { (h : History) (x : XidName) (f : Fate) (T : Tables) → fate x f h T ≡ fate_in x f (coded h T) }
{}

/// Late requests add nothing, so a value may be read from the whole history.
#[tactic(auto, using(crate::proofs::ValueLaw::late_law))]
pub fn late_requests_add_nothing()
    ensures { (h : History) (k : List ℕ) (after : XidName → Bool) (T : Tables) → LateAddNothing k after h T }
{}
