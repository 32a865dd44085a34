//! Branches: which are active, what leaves them as they are, and how prepared ones end.
ghost use Rattle.std.specs.Prelude.{◌≡◌, ◌++◌, ℕ, [], true, false};
ghost use Rattle.xa_words.specs.Xid.{XidName};
ghost use Rattle.xa_words.specs.declared.code.Code.TheVariants.{Done, RbIntegrity};
ghost use Rattle.xa_words.specs.declared.request.Op.TheVariants.{Prepare, Commit, Rollback};
ghost use Rattle.xa_tables.specs.declared.state.HeuristicDecision.{HeuristicDecision};
ghost use Rattle.xa_tables.specs.ManagerTables.{Tables, is_somebody_associated, is_prepared};
ghost use Rattle.xa_tables.specs.Reasons.{decision_code};
ghost use Rattle.xa_tables.specs.Histories.{History, ActiveWhileAssociated, tables_after, coded, fates_in};
ghost use Rattle.xa_words.specs.Codes.{is_rolled_back};
ghost use Rattle.xa_tables.specs.Openings.{IsOpening};
ghost use Rattle.xa_tables.specs.Next.{next};
ghost use Rattle.xa_tables.specs.Prepared.{NamesNowhere, OnlyDecides, LeavesWaiting, StaysAsItWas, IsPrepared};
ghost use Rattle.xa_tables.specs.Prepared.{StaysPrepared, AwaitsAfter, IsToldDecision};

/// Whatever is requested, a branch is active exactly while somebody is associated with it, suspended or
/// not, and it is neither prepared nor rollback-only nor heuristically completed.
#[tactic(auto, using(crate::proofs::ActiveLaw::active_law))]
pub fn branches_are_active_while_associated()
    ensures { (h : History) (x : XidName) (T : Tables) → IsOpening T → ActiveWhileAssociated x h T }
{}

/// A branch with which nobody is associated stays as it is, whatever is requested that doesn't name it.
pub fn unnamed_branches_stay()
    ensures { (h g : History) (x : XidName) (T : Tables) → is_somebody_associated (tables_after h T).associations x
        ≡ false → NamesNowhere x g → StaysAsItWas x (tables_after h T) (tables_after (h ++ g) T) }
{}

/// A prepared branch stays prepared, and keeps its sums, whatever is requested that doesn't name it, a
/// Shut included.
pub fn prepared_branches_stay_prepared()
    ensures { (h g : History) (x : XidName) (T : Tables) → IsOpening T → IsPrepared x (tables_after h T)
        → NamesNowhere x g → StaysPrepared x (tables_after h T) (tables_after (h ++ g) T) }
{}

/// A branch whose Prepare a thread got answered XA_OK awaits the outcome from that thread, whatever is requested in
/// between that doesn't name it, but for a CloseRm of the thread itself. A heuristic decision may name it: where one
/// was carried out, that is its one fate since, and the outcome is answered with it.
#[tactic(auto, using(crate::proofs::PreparedLaw::outcome_law))]
pub fn prepared_branches_await_the_outcome()
    ensures { (h g : History) (t : ℕ) (x : XidName) (T : Tables) → IsOpening T
        → (next t (Prepare x) (tables_after h T)).1 ≡ Done → LeavesWaiting t x g
        → AwaitsAfter t x g (next t (Prepare x) (tables_after h T)).0 }
{}

/// A branch that isn't prepared isn't decided: heuristic decisions and Forgets make nothing of it, whatever is
/// requested that doesn't name it.
#[tactic(auto, using(crate::proofs::PreparedLaw::unprepared_law))]
pub fn only_prepared_branches_are_decided()
    ensures { (g : History) (x : XidName) (T : Tables) → is_prepared T x ≡ false → OnlyDecides x g
        → fates_in x (coded g T) ≡ [] }
{}

/// Commit in two phases and Rollback are answered with a heuristic decision only where the branch is completed with it,
/// and change nothing then.
pub fn only_completed_branches_tell_a_decision()
    ensures commits { (t : ℕ) (x : XidName) (d : HeuristicDecision) (T : Tables)
        → (next t (Commit x false) T).1 ≡ decision_code d → IsToldDecision x d T (next t (Commit x false) T) }
    ensures rolls_back { (t : ℕ) (x : XidName) (d : HeuristicDecision) (T : Tables)
        → (next t (Rollback x) T).1 ≡ decision_code d → IsToldDecision x d T (next t (Rollback x) T) }
{}

/// A Prepare that rolls its branch back answers XA_RBINTEGRITY.
#[tactic(auto, using(crate::proofs::PreparedLaw::prepare_breaks))]
pub fn refused_prepares_tell_integrity()
    ensures { (t : ℕ) (x : XidName) (T : Tables) → is_rolled_back (next t (Prepare x) T).1 ≡ true
        → (next t (Prepare x) T).1 ≡ RbIntegrity }
{}
