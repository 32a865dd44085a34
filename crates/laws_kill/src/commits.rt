//! Commits that a crash of the whole process cut short, and what becomes of them in the openings after it.
ghost use Rattle.std.specs.List.{All};
ghost use Rattle.std.specs.Prelude.{◌≡◌, ◌≢◌, ◌≤◌, ℕ, Bool, None, List, [], ◌∷◌, length};
ghost use Rattle.xa_base.specs.declared.limits.TheConstants.{MOST_MANAGERS};
ghost use Rattle.xa_words.specs.Tran.{TranName};
ghost use Rattle.xa_words.specs.declared.code.Code.TheVariants.{RmFail};
ghost use Rattle.xa_desk.specs.Growth.{HaveGrown};
ghost use Rattle.xa_switch.specs.declared.plan.Again.{Again};
ghost use Rattle.xa_switch.specs.OfPlans.{IsOf};
ghost use Rattle.xa_switch.specs.Plans.{Setup};
ghost use Rattle.xa_switch.specs.Recovery.{IsScanOf};
ghost use Rattle.xa_switch.specs.Reopening.{IsWhole, reopening};
ghost use Rattle.xa_switch.specs.Settled.{Settling, IsSettled};
ghost use Rattle.xa_log.specs.Log.{Records, record_in, record_of};
ghost use Rattle.xa_driver.specs.Trace.{IsTranOf};
ghost use Rattle.laws_commit.specs.Calls.{CommitCall, ResolveCall};
ghost use Rattle.laws_commit.specs.Cut.{IsCut};
ghost use Rattle.laws_commit.specs.Presumed.{CountsByTheLog, EndsByTheLog};
ghost use Rattle.laws_commit.specs.Resolution.{AskedAreLeft, Continues, HasBranchLeft, IsOutcomeOf, IsUseIn};
ghost use Rattle.laws_commit.specs.Resolution.{OnlyResolves, commits, resolves, with_resolves, with_use};
ghost use Rattle.xa_log_file.specs.Memory.{HasRecordsAndPerhaps};
ghost use Rattle.xa_log_file.specs.Slots.{HasRecords};
ghost use Rattle.laws_kill.specs.Crashes.{Crash, IsCrash, ledgers_then};
ghost use Rattle.laws_kill.specs.AsSettled.{HasNoRequests, as_settled, over_stores};

use crate::crashes::crashes_are_settled;
use laws_commit::{presumed_transactions_count_by_the_log, presumed_transactions_have_one_outcome};
use laws_disk::{files_have_one_log, next_openings_end_by_the_file};
use xa_switch::laws::reopened_openings_go_on_from_what_was_left;

/// A commit that a crash cut short, wherever its thread was, is the same commit in the settled opening, cut at the same
/// place: nothing is asked but that its thread's ledgers, by the crash, have grown from what the commit left.
pub fn commits_are_cut_where_they_were()
    ensures { (p : Setup) (c : Crash) (k : CommitCall) → IsCrash p c → IsCut k
        → HaveGrown k.new (ledgers_then c k.thread) → IsUseIn (as_settled c) (commits k) }
{
    crashes_are_settled();
}

/// An opening over what the stores have continues the one that the crash ended, whether it was settled or crashed too:
/// so openings of which any were killed stand one after the other as settled ones do.
pub fn openings_over_stores_continue()
    ensures settled { (p : Setup) (c : Crash) (next : Settling) (again : Again) (flags : List Bool) → IsCrash p c
        → IsOf (over_stores c again flags) next → Continues (as_settled c) next }
    ensures crashed { (p : Setup) (c d : Crash) (again : Again) (flags : List Bool) → IsCrash p c
        → IsCrash (over_stores c again flags) d → Continues (as_settled c) (as_settled d) }
{
    crashes_are_settled();
}

/// Where the process was killed (`IsCrash`), with a commit cut short anywhere, and the next opening resolves, over
/// what the stores have and by what is read of the log's file: each branch that voted to commit ended committed where
/// the log had the record, and rolled back where it hadn't, or it was decided heuristically; and its additions count
/// so. What is asked of the log, and of the next opening, is what `next_openings_end_by_the_file` of laws_disk asks.
pub fn killed_openings_end_by_the_file()
    ensures { (p : Setup) (c : Crash) (next : Settling) (again : Again) (flags : List Bool) (k : CommitCall)
        (q : ResolveCall) (records forgotten : Records) (file : List ℕ) → IsCrash p c → IsCut k
        → HaveGrown k.new (ledgers_then c k.thread) → length k.desk.ledgers ≤ MOST_MANAGERS
        → AskedAreLeft k (as_settled c) → IsSettled next → IsUseIn next (resolves q) → length flags ≡ p.managers
        → IsOf (over_stores c again flags) next → IsScanOf (as_settled c) q.scan
        → HasRecordsAndPerhaps records forgotten file → HasRecords q.records file
        → (HasBranchLeft k.branches (as_settled c) → (t : TranName) → IsTranOf k.branches t
        → (record_in records t ≡ record_of k.later t) × (record_in forgotten t ≡ None))
        → ((t : TranName) → IsTranOf k.branches t → OnlyResolves t (with_use next (resolves q)))
        → All (λ r. IsOutcomeOf k.branches r → r.code ≢ RmFail) q.outcomes
        → EndsByTheLog k (with_use (as_settled c) (commits k)) (with_use next (resolves q) ∷ [])
        × CountsByTheLog k (with_use (as_settled c) (commits k)) (with_use next (resolves q) ∷ []) }
{
    crashes_are_settled();
    commits_are_cut_where_they_were();
    openings_over_stores_continue();
    next_openings_end_by_the_file();
}

/// The same where the managers are first opened over their stores and settled with nothing done, and then opened again,
/// which gives the scan by which the resolve goes.
pub fn restored_openings_end_by_the_file()
    ensures { (p : Setup) (c : Crash) (restored next : Settling) (first again : Again) (flags : List Bool)
        (k : CommitCall) (q : ResolveCall) (records forgotten : Records) (file : List ℕ) → IsCrash p c → IsCut k
        → HaveGrown k.new (ledgers_then c k.thread) → length k.desk.ledgers ≤ MOST_MANAGERS
        → AskedAreLeft k (as_settled c) → IsSettled restored → IsWhole restored → HasNoRequests restored
        → IsOf (over_stores c first flags) restored → IsSettled next → IsUseIn next (resolves q)
        → IsOf (reopening restored again) next → IsScanOf restored q.scan
        → HasRecordsAndPerhaps records forgotten file → HasRecords q.records file
        → (HasBranchLeft k.branches (as_settled c) → (t : TranName) → IsTranOf k.branches t
        → (record_in records t ≡ record_of k.later t) × (record_in forgotten t ≡ None))
        → ((t : TranName) → IsTranOf k.branches t → OnlyResolves t (with_use next (resolves q)))
        → All (λ r. IsOutcomeOf k.branches r → r.code ≢ RmFail) q.outcomes
        → EndsByTheLog k (with_use (as_settled c) (commits k))
        (with_resolves restored [] ∷ with_use next (resolves q) ∷ [])
        × CountsByTheLog k (with_use (as_settled c) (commits k))
        (with_resolves restored [] ∷ with_use next (resolves q) ∷ []) }
{
    crashes_are_settled();
    commits_are_cut_where_they_were();
    openings_over_stores_continue();
    reopened_openings_go_on_from_what_was_left();
    presumed_transactions_have_one_outcome();
    presumed_transactions_count_by_the_log();
    files_have_one_log();
}
