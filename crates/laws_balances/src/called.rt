//! What a commit and a resolve say of the requests that name a branch, for the laws of days.
ghost use Rattle.std.specs.Prelude.{◌≡◌, ◌≤◌, ℕ, ℤ, pos, if◌then◌else◌, Some, true, false};
ghost use Rattle.std.specs.Prelude.{List, [], ◌∷◌};
ghost use Rattle.std.specs.List.{All, Contains};
ghost use Rattle.xa_base.specs.declared.limits.TheConstants.{MOST_MANAGERS};
ghost use Rattle.xa_base.specs.Lists.{IsUpTo};
ghost use Rattle.xa_words.specs.Xid.{XidName};
ghost use Rattle.xa_words.specs.Tran.{TranName, tran_of};
ghost use Rattle.xa_words.specs.Key.{key_eq};
ghost use Rattle.laws_tables.specs.Work.{DoesWork};
ghost use Rattle.xa_tables.specs.ManagerTables.{Tables};
ghost use Rattle.xa_tables.specs.Histories.{History, tables_after};
ghost use Rattle.xa_tables.specs.Openings.{IsOpening};
ghost use Rattle.xa_tables.specs.Worth.{held_by};
ghost use Rattle.xa_switch.specs.Settled.{Settling, IsSettled};
ghost use Rattle.xa_switch.specs.Fates.{first_of, history};
ghost use Rattle.xa_driver.specs.declared.branch.Branch.{Branch};
ghost use Rattle.xa_driver.specs.Commits.{HasSentNone};
ghost use Rattle.xa_driver.specs.Trace.{IsTranOf};
ghost use Rattle.laws_commit.specs.Cut.{is_commit_of, is_recorded};
ghost use Rattle.laws_commit.specs.Calls.{CommitCall, after_at, before_at};
ghost use Rattle.laws_commit.specs.Presumed.{VotedToCommit};
ghost use Rattle.laws_commit.specs.Resolution.{AskedAreLeft, IsKept, IsUseIn, OnlyResolves, Opening, commits};
ghost use Rattle.laws_balances.specs.MovedOver.{CommitsNowhere};
ghost use Rattle.laws_balances.specs.Course.{OnlyTold};
ghost use Rattle.laws_balances.specs.Recorded.{AgreedOrRead};
ghost use Rattle.laws_balances.specs.Calls.{CommitsInCall, DecidesNowhere, IsMarkedNowhere, VotedInCall};
ghost use Rattle.laws_balances.specs.Calls.{taken_till_asked};

use laws_commit::tables_keep_to_their_laws;

/// A branch of a commit that voted to commit, in its settled opening: its Prepare stands in its manager's history with
/// XA_OK, and from then on it is only told its outcome, if nobody else names it after that, nothing committed it
/// before, and no manager decides it.
#[tactic(auto, using(crate::proofs::Legs::voted_in_call))]
pub fn branches_of_a_commit_vote()
    ensures { (s : Settling) (k : CommitCall) (b : Branch) (T : Tables) → IsSettled s → IsUseIn s (commits k)
        → Contains k.branches b → VotedToCommit k s b → AskedAreLeft k s → first_of s b.m ≡ Some T
        → DecidesNowhere b.xid (history s b.m) → CommitsNowhere b.xid (taken_till_asked k s b)
        → VotedInCall k s b T }
{
    tables_keep_to_their_laws();
}

/// Where nothing but resolves names a transaction in an opening, its branches are only told their outcome there; and a
/// branch is not committed there that no resolve has a record of.
#[tactic(auto, using(crate::proofs::Legs::resolves_tell, crate::proofs::Legs::resolves_commit_nothing))]
pub fn resolves_only_tell_outcomes()
    ensures told { (m : ℕ) (x : XidName) (o : Opening) → IsUpTo MOST_MANAGERS m → IsKept o
        → OnlyResolves (tran_of x) o → OnlyTold x (history o.settled m) }
    ensures unmarked { (m : ℕ) (x : XidName) (o : Opening) → IsUpTo MOST_MANAGERS m → IsKept o
        → OnlyResolves (tran_of x) o → IsMarkedNowhere m x o → CommitsNowhere x (history o.settled m) }
{}

/// A branch is committed nowhere in a settled opening to which its commit sent no Commit of it, if nobody else commits
/// it: so each branch of a transaction of which the log has no record.
pub fn branches_that_are_not_told_to_commit_are_not_committed()
    ensures unsent { (s : Settling) (k : CommitCall) (b : Branch) → IsSettled s → IsUseIn s (commits k) → 1 ≤ b.m
        → HasSentNone (is_commit_of b.xid) (before_at k b) (after_at k b) → CommitsInCall k s b
        → CommitsNowhere b.xid (history s b.m) }
    ensures unrecorded { (s : Settling) (k : CommitCall) (b : Branch) (t : TranName) → IsSettled s
        → IsUseIn s (commits k) → Contains k.branches b → IsTranOf k.branches t → is_recorded k.later t ≡ false
        → CommitsInCall k s b
        → CommitsNowhere b.xid (history s b.m) }
{}

/// Where the log has the record of a transaction, all of its branches were asked to prepare, and each voted to commit
/// or had changed nothing.
#[tactic(auto, using(crate::proofs::Legs::recorded_law))]
pub fn recorded_branches_agreed_or_read()
    ensures { (s : Settling) (k : CommitCall) (t : TranName) → IsUseIn s (commits k) → IsTranOf k.branches t
        → is_recorded k.later t ≡ true → All (AgreedOrRead k s) k.branches }
{}

/// A branch whose work one thread did holds of an account what the thread added to it, in any opening; so of each other
/// account nothing.
pub fn a_branch_holds_what_its_thread_added()
    ensures { (t n : ℕ) (x : XidName) (k : List ℕ) (d : ℤ) (h : History) (T : Tables) → DoesWork t n x k d T h
        → IsOpening T → (j : List ℕ) (v : ℕ)
        → held_by ((j, v) ∷ []) x (tables_after h T) ≡ (if key_eq j k then d else pos 0) }
{}
