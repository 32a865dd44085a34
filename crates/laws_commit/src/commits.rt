//! Of one commit alone.
ghost use Rattle.std.specs.Prelude.{◌≡◌, true, false, List};
ghost use Rattle.xa_words.specs.Tran.{TranName};
ghost use Rattle.xa_desk.specs.LedgerViews.{LedgerView};
ghost use Rattle.xa_desk.specs.Growth.{HaveGrown};
ghost use Rattle.xa_driver.specs.declared.branch.Branch.{Branch};
ghost use Rattle.xa_driver.specs.declared.done.Done.{Done};
ghost use Rattle.xa_log.specs.Log.{LogState};
ghost use Rattle.xa_driver.specs.Trace.{IsTraceOfCommit, IsTranOf, wants_record};
ghost use Rattle.xa_driver.specs.Commits.{NoCommitWasSent};
ghost use Rattle.laws_commit.specs.Calls.{CommitCall, IsFinished};
ghost use Rattle.laws_commit.specs.Outcomes.{IsAbortedTransaction, IsCommittedTransaction, has_committed};
ghost use Rattle.laws_commit.specs.Outcomes.{was_refused};

/// Of one call alone: where the append failed, no Commit was sent to any manager.
pub fn failed_append()
    ensures { (tran : TranName) (bs : List Branch) (old new : List LedgerView) (log later : LogState) (done : Done)
        → IsTraceOfCommit tran bs old new log later done → wants_record done.votes.items ≡ true
        → done.logged ≡ false → NoCommitWasSent old new }
{}

/// Of one call alone: all its branches have one outcome. Where a branch was committed, every vote was to
/// commit or of a branch that only read, the log has the record with exactly the managers that voted to
/// commit, and no branch was rolled back. Where a vote was against, a branch was rolled back or the append
/// failed, no branch was committed, the log has nothing of the transaction, and no Commit was sent to any
/// manager.
pub fn one_outcome()
    ensures committed { (c : CommitCall) (done : Done) (tran : TranName) → IsFinished c done
        → IsTranOf c.branches tran → has_committed done ≡ true
        → IsCommittedTransaction tran c.branches c.later done }
    ensures aborted { (c : CommitCall) (done : Done) (tran : TranName) → IsFinished c done
        → IsTranOf c.branches tran → was_refused done ≡ true
        → IsAbortedTransaction tran c.desk.ledgers c.new c.later done }
{}

/// A commit of several branches only makes its desk's lists grow.
pub fn commits_grow_the_lists()
    ensures { (tran : TranName) (bs : List Branch) (old new : List LedgerView) (log later : LogState) (done : Done)
        → IsTraceOfCommit tran bs old new log later done → HaveGrown old new }
{}
