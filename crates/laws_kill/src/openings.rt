//! Openings one after another, of which any were killed: each transaction has one outcome.
ghost use Rattle.std.specs.List.{All, Contains};
ghost use Rattle.std.specs.Prelude.{◌≡◌, true, ℕ, Bool, Option, None, Some, List, ◌∷◌, ◌++◌, map};
ghost use Rattle.xa_words.specs.Tran.{TranName};
ghost use Rattle.xa_tables.specs.ManagerTables.{Tables};
ghost use Rattle.xa_tables.specs.Openings.{AreLeft};
ghost use Rattle.xa_desk.specs.Growth.{HaveGrown};
ghost use Rattle.xa_scan.specs.Left.{ScanView, left_at};
ghost use Rattle.xa_switch.specs.Fates.{first_of};
ghost use Rattle.xa_switch.specs.Plans.{Setup};
ghost use Rattle.xa_switch.specs.Recovery.{IsScanOf};
ghost use Rattle.xa_log.specs.Log.{Records, record_in};
ghost use Rattle.xa_driver.specs.declared.done.Done.{Done};
ghost use Rattle.xa_driver.specs.Trace.{IsTranOf};
ghost use Rattle.laws_commit.specs.Calls.{CommitCall, IsFinished, ResolveCall};
ghost use Rattle.laws_commit.specs.Cut.{is_recorded};
ghost use Rattle.laws_commit.specs.Outcomes.{has_committed};
ghost use Rattle.laws_commit.specs.Presumed.{CountsByTheLog, EndsByTheLog};
ghost use Rattle.laws_kill.specs.Openings.{EndedOpening, FollowEachOther, IsLeftToResolves, IsThere, LastResolves};
ghost use Rattle.laws_kill.specs.Openings.{IsEndedOpening, IsOpenedOver, as_opening, settled_as, with_commit};
ghost use Rattle.laws_kill.specs.Crashes.{Crash, IsCrash, ledgers_then};
ghost use Rattle.laws_kill.specs.AsSettled.{as_settled};
ghost use Rattle.laws_commit.specs.Resolution.{IsAsPromised, IsUseIn, resolves};
ghost use Rattle.xa_log_file.specs.Memory.{HasRecordsAndPerhaps};
ghost use Rattle.xa_log_file.specs.Slots.{HasRecords};

use laws_balances::recorded_branches_agreed_or_read;
use laws_commit::{
    one_outcome, presumed_transactions_count_by_the_log, presumed_transactions_have_one_outcome,
};
use laws_disk::files_have_one_log;
use xa_log::laws::several_logs_are_read_as_one;
use xa_switch::laws::reopened_openings_go_on_from_what_was_left;

/// Any number of openings one after another, each ended in order or killed (`IsCrash`), in the middle of any commits
/// of any threads. For each commit that was begun in any of them, finished or cut short, there is a later opening in
/// which a thread resolves by all logs. As that ends, each branch of the commit that voted to commit ended committed
/// where its log has the record, and rolled back where it hasn't, or it was decided heuristically; none of them is in
/// doubt; and its additions count so.
pub fn killed_openings_have_one_outcome()
    ensures { (before : List EndedOpening) (o : EndedOpening) (later rest : List EndedOpening) (q : ResolveCall)
        (k : CommitCall) → FollowEachOther (before ++ o ∷ (later ++ rest)) → LastResolves later q → Contains o.begun k
        → IsLeftToResolves k o later q
        → EndsByTheLog k (with_commit o k) (map as_opening later)
        × CountsByTheLog k (with_commit o k) (map as_opening later) }
{
    reopened_openings_go_on_from_what_was_left();
    several_logs_are_read_as_one();
    presumed_transactions_have_one_outcome();
    presumed_transactions_count_by_the_log();
}

/// Over the same openings: what was told as committed is there, whole; and so is each transaction of which the log has
/// the record, whether its thread came to tell it or not. Each of its branches voted to commit and ended committed, but
/// for heuristic decisions; or it had changed nothing.
pub fn committed_transactions_are_there()
    ensures recorded { (before : List EndedOpening) (o : EndedOpening) (later rest : List EndedOpening)
        (q : ResolveCall) (k : CommitCall) (t : TranName) → FollowEachOther (before ++ o ∷ (later ++ rest))
        → LastResolves later q → Contains o.begun k → IsLeftToResolves k o later q
        → IsTranOf k.branches t → is_recorded k.later t ≡ true
        → All (IsThere k (with_commit o k) (map as_opening later)) k.branches }
    ensures told { (before : List EndedOpening) (o : EndedOpening) (later rest : List EndedOpening)
        (q : ResolveCall) (k : CommitCall) (t : TranName) (done : Done)
        → FollowEachOther (before ++ o ∷ (later ++ rest)) → LastResolves later q → Contains o.begun k
        → IsLeftToResolves k o later q
        → IsTranOf k.branches t → IsFinished k done → has_committed done ≡ true
        → All (IsThere k (with_commit o k) (map as_opening later)) k.branches }
{
    killed_openings_have_one_outcome();
    recorded_branches_agreed_or_read();
    one_outcome();
}

/// What a resolve of such an opening goes by. One that ended before a kill is a resolve of the settled opening.
/// The scan of what the opening before left has what its managers begin with. And the file of a log that was killed has
/// of a transaction what the log had, which hadn't forgotten a record of it.
pub fn killed_openings_are_resolved_by_what_they_left()
    ensures made { (p : Setup) (c : Crash) (q : ResolveCall) → IsCrash p c → IsAsPromised (resolves q)
        → HaveGrown q.new (ledgers_then c q.thread) → IsUseIn (as_settled c) (resolves q) }
    ensures scan { (o next : EndedOpening) (z : ScanView) (m : ℕ) (T : Tables) → IsEndedOpening o
        → IsEndedOpening next → IsOpenedOver o.how next.setup → IsScanOf (settled_as o.how) z
        → first_of (settled_as next.how) m ≡ Some T → AreLeft (left_at z m) T }
    ensures read { (t : TranName) (has : Option (List Bool)) (records forgotten own : Records) (file : List ℕ)
        → HasRecordsAndPerhaps records forgotten file → HasRecords own file → record_in records t ≡ has
        → record_in forgotten t ≡ None → record_in own t ≡ has }
{
    files_have_one_log();
}
