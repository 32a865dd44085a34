//! A commit, the death of its coordinator and of its log, and a resolve by the file that it left.
ghost use Rattle.std.specs.List.{All};
ghost use Rattle.std.specs.Prelude.{◌≡◌, ◌≢◌, ◌⊎◌, ◌≤◌, true, ℕ, Option, None, List, [], ◌∷◌, Vec, length};
ghost use Rattle.std.specs.Global.{Global};
ghost use Rattle.xa_base.specs.declared.limits.TheConstants.{MOST_MANAGERS};
ghost use Rattle.xa_words.specs.Tran.{TranName};
ghost use Rattle.xa_words.specs.declared.code.Code.{Code};
ghost use Rattle.xa_words.specs.declared.code.Code.TheVariants.{RmFail};
ghost use Rattle.xa_words.specs.declared.death.Death.{Death};
ghost use Rattle.xa_desk.specs.LedgerViews.{LedgerView};
ghost use Rattle.xa_desk.specs.DeskViews.{ledger};
ghost use Rattle.xa_switch.specs.declared.plan.Again.{Again};
ghost use Rattle.xa_switch.specs.Reopening.{reopening};
ghost use Rattle.xa_switch.specs.OfPlans.{IsOf};
ghost use Rattle.xa_switch.specs.Recovery.{IsScanOf};
ghost use Rattle.xa_switch.specs.Settled.{Settling, IsSettled};
ghost use Rattle.xa_log.specs.Log.{LogState, Records, record_in, record_of, with_record};
ghost use Rattle.xa_driver.specs.declared.done.CommitOutcome.TheVariants.{Undecided};
ghost use Rattle.xa_driver.specs.Deaths.{PutsLedger};
ghost use Rattle.xa_driver.specs.Decision.{yes_of};
ghost use Rattle.xa_driver.specs.Outcomes.{ComesTo};
ghost use Rattle.xa_driver.specs.Resolving.{AsksLedger};
ghost use Rattle.xa_driver.specs.Stages.{HasVoted};
ghost use Rattle.xa_driver.specs.Trace.{IsTranOf, MayCommit, wants_record};
ghost use Rattle.laws_commit.specs.Cut.{IsCut, LeavesBranches};
ghost use Rattle.laws_commit.specs.Calls.{CommitCall, ResolveCall, turned_out};
ghost use Rattle.laws_commit.specs.Presumed.{CountsByTheLog, EndsByTheLog};
ghost use Rattle.laws_commit.specs.Resolution.{AskedAreLeft, Continues, IsOutcomeOf, IsUseIn, OnlyResolves};
ghost use Rattle.laws_commit.specs.Resolution.{HasBranchLeft, commits, resolves, with_use};
ghost use Rattle.xa_log_file.specs.Memory.{HasRecordsAndPerhaps};
ghost use Rattle.xa_log_file.specs.Slots.{HasRecords};

use laws_commit::{
    commits_are_cuts, next_openings_resolve, presumed_transactions_count_by_the_log,
    presumed_transactions_have_one_outcome, stages_are_cuts,
};
use xa_log_file::laws::a_file_has_one_table;

/// A file stands for the records of one log at most: so who opens it has what the crash left, and nothing else.
pub fn files_have_one_log()
    ensures { (one other : Records) (file : List ℕ) → HasRecords one file → HasRecords other file → one ≡ other }
{
    a_file_has_one_table();
}

/// A death in an append: all branches have voted, and the file that it left has the records from before, with the new
/// one or without, and perhaps some that the log had forgotten, which are of other transactions. It is a commit that
/// was cut short, whichever it is, and the log has of the transaction what the file has.
pub fn crashed_appends_are_cuts()
    // In one call, which came to no decision.
    ensures called { (c : CommitCall) (death : Option Death) (votes : Vec Code Global) (tran : TranName)
        (forgotten : Records) (file : List ℕ) → MayCommit c.desk c.log c.branches → IsTranOf c.branches tran
        → length c.new ≡ length c.desk.ledgers
        → ComesTo AsksLedger PutsLedger death tran c.branches (ledger c.desk.ledgers) (ledger c.new) c.log c.later
        (Undecided votes)
        → c.endings ≡ [] → record_in forgotten tran ≡ None
        → HasRecordsAndPerhaps c.log.records forgotten file
        ⊎ HasRecordsAndPerhaps (with_record c.log tran (yes_of c.branches votes.items)).records forgotten file
        → (turned : LogState) × (found : Records) × IsCut (turned_out c turned) × HasRecords found file
        × (record_in found tran ≡ record_of turned tran) }

    // In stages, whatever its thread did between them that leaves the branches.
    ensures staged { (c : CommitCall) (mid : List LedgerView) (votes : List Code) (tran : TranName)
        (forgotten : Records) (file : List ℕ) → MayCommit c.desk c.log c.branches
        → HasVoted c.branches c.desk.ledgers mid votes → LeavesBranches c.branches mid c.new
        → IsTranOf c.branches tran → wants_record votes ≡ true → c.endings ≡ [] → record_in forgotten tran ≡ None
        → HasRecordsAndPerhaps c.log.records forgotten file
        ⊎ HasRecordsAndPerhaps (with_record c.log tran (yes_of c.branches votes)).records forgotten file
        → (turned : LogState) × (found : Records) × IsCut (turned_out c turned) × HasRecords found file
        × (record_in found tran ≡ record_of turned tran) }
{
    commits_are_cuts();
    stages_are_cuts();
}

/// A commit that was cut short anywhere, as its coordinator and its log died, and a resolve in the next opening by what
/// is read of the file that they left: each branch that voted to commit ended committed where the log had the record,
/// and rolled back where it hadn't, or it was decided heuristically; and its additions count so.
///
/// Of the log it is asked only that the file is the one that was left, with the records that the log had and perhaps
/// some that it had forgotten; and that, if a branch of the transaction was left, it still had its record, and hadn't
/// forgotten one of that name.
pub fn next_openings_end_by_the_file()
    ensures { (s next : Settling) (again : Again) (k : CommitCall) (q : ResolveCall) (records forgotten : Records)
        (file : List ℕ) → IsSettled s → IsUseIn s (commits k) → length k.desk.ledgers ≤ MOST_MANAGERS
        → AskedAreLeft k s → IsSettled next → IsUseIn next (resolves q) → Continues s next
        → IsOf (reopening s again) next → IsScanOf s q.scan
        → HasRecordsAndPerhaps records forgotten file → HasRecords q.records file
        → (HasBranchLeft k.branches s → (t : TranName) → IsTranOf k.branches t
        → (record_in records t ≡ record_of k.later t) × (record_in forgotten t ≡ None))
        → ((t : TranName) → IsTranOf k.branches t → OnlyResolves t (with_use next (resolves q)))
        → All (λ r. IsOutcomeOf k.branches r → r.code ≢ RmFail) q.outcomes
        → EndsByTheLog k (with_use s (commits k)) (with_use next (resolves q) ∷ [])
        × CountsByTheLog k (with_use s (commits k)) (with_use next (resolves q) ∷ []) }
{
    next_openings_resolve();
    presumed_transactions_have_one_outcome();
    presumed_transactions_count_by_the_log();
    files_have_one_log();
}
