//! Over openings one after another: what a commit left in doubt ends by the log.
ghost use Rattle.std.specs.List.{All};
ghost use Rattle.std.specs.Prelude.{◌≡◌, ◌≢◌, ◌≤◌, List, [], ◌∷◌};
ghost use Rattle.std.specs.Prelude.{◌++◌, length};
ghost use Rattle.xa_words.specs.Tran.{TranName};
ghost use Rattle.xa_switch.specs.Settled.{Settling, IsSettled};
ghost use Rattle.xa_desk.specs.Growth.{HaveGrown};
ghost use Rattle.xa_switch.specs.Fates.{ledgers_of};
ghost use Rattle.xa_driver.specs.declared.branch.Branch.{Branch};
ghost use Rattle.xa_driver.specs.declared.done.Done.{Done};
ghost use Rattle.xa_log.specs.Log.{record_in, record_of};
ghost use Rattle.xa_driver.specs.Trace.{IsCommit, IsTranOf};
ghost use Rattle.laws_commit.specs.Outcomes.{AreLeftOrDecided};
ghost use Rattle.xa_driver.specs.Deaths.{sent_so_far};
ghost use Rattle.laws_commit.specs.Calls.{CommitCall, IsFinished, ResolveCall, commit_call, resolve_call};
ghost use Rattle.laws_commit.specs.Presumed.{CountsByTheLog, EndsByTheLog};
ghost use Rattle.laws_commit.specs.Resolution.{AreOfAllLogs, AskedAreLeft, Continues, HasBranchLeft, IsAllOrNone};
ghost use Rattle.laws_commit.specs.Resolution.{IsOutcomeOf, IsResolved, IsUseIn, OnlyResolves, Opening, commits};
ghost use Rattle.laws_commit.specs.Resolution.{resolves, with_resolves, with_use};
ghost use Rattle.xa_driver.specs.Resolving.{IsTraceOfResolve};
ghost use Rattle.xa_switch.specs.Reopening.{reopening};
ghost use Rattle.xa_switch.specs.OfPlans.{IsOf};
ghost use Rattle.xa_switch.specs.Recovery.{IsScanOf};
ghost use Rattle.xa_switch.specs.declared.plan.Again.{Again};
ghost use Rattle.xa_words.specs.declared.code.Code.TheVariants.{RmFail};
ghost use Rattle.xa_base.specs.declared.limits.TheConstants.{MOST_MANAGERS};
ghost use Rattle.laws_commit.specs.Worth.{CountsOver, CountsAllOrNone};

use crate::stages::finished_commits_are_cut_after_all;
use crate::tables_keep_to_their_laws;
use std::snapshot::Snapshot;
use xa_desk::Desk;
use xa_driver::{Branch, Done, Resolved};
use xa_log::laws::several_logs_are_read_as_one;
use xa_log::{DecisionLog, DecisionRecords};
use xa_scan::Scan;
use xa_switch::laws::settled_journals_follow_the_tables;
use xa_switch::{Again, Settled};

/// Over openings one after another, with a commit in the first, finished or cut short anywhere, and a resolve in the
/// last: each branch of it that voted to commit ended committed where the log has the record, and rolled back where it
/// hasn't; or it was decided heuristically, and then what its coordinator knew, or a resolve of a later opening, tells
/// so. None of them is in doubt. What `resolve` and a reopening promise gives the premises on the later openings.
pub fn presumed_transactions_have_one_outcome()
    ensures { (o : Opening) (between : List Opening) (last : Opening) (c : CommitCall) (q : ResolveCall)
        → IsResolved o between last c q → EndsByTheLog c o (between ++ last ∷ []) }
{
    tables_keep_to_their_laws();
    settled_journals_follow_the_tables();
}

/// Over the same openings: but for branches that were decided heuristically the values have, after all of them, all
/// additions of the branches that voted to commit where the log has the record, and none where it hasn't.
pub fn presumed_transactions_count_by_the_log()
    ensures { (o : Opening) (between : List Opening) (last : Opening) (c : CommitCall) (q : ResolveCall)
        → IsResolved o between last c q → CountsByTheLog c o (between ++ last ∷ []) }
{
    tables_keep_to_their_laws();
    settled_journals_follow_the_tables();
}

/// Over the same openings, where the commit came to its end: each branch of it that voted to commit ended as was
/// decided, also where its fate was unknown as the first opening ended; or it was decided heuristically, and then its
/// ending, or a resolve of a later opening, tells so. Where it was decided to commit, no vote was against; where it was
/// decided to abort, no branch was committed.
pub fn resolved_transactions_have_one_outcome()
    ensures { (o : Opening) (between : List Opening) (last : Opening) (c : CommitCall) (q : ResolveCall) (done : Done)
        → IsResolved o between last c q → IsFinished c done → IsAllOrNone c done o (between ++ last ∷ []) }
{
    tables_keep_to_their_laws();
    settled_journals_follow_the_tables();
}

/// Over the same openings: of each branch of the commit that voted to commit the values have, after all of them, every
/// addition where it was committed, be it by a resolve or heuristically, and none where it was rolled back. So but for
/// branches that were decided heuristically they have all additions of the transaction or none.
pub fn resolved_transactions_count_where_committed()
    ensures counts { (o : Opening) (between : List Opening) (last : Opening) (c : CommitCall) (q : ResolveCall)
        (done : Done) → IsResolved o between last c q → IsFinished c done
        → CountsOver c done o (between ++ last ∷ []) }
    ensures whole { (o : Opening) (between : List Opening) (last : Opening) (c : CommitCall) (q : ResolveCall)
        (done : Done) → IsResolved o between last c q → IsFinished c done
        → CountsAllOrNone c done o (between ++ last ∷ []) }
{
    tables_keep_to_their_laws();
    settled_journals_follow_the_tables();
}

/// What resolving asks for, where a commit is resolved in the next opening and nothing else used the log: each premise
/// is what a call promises, but that nobody else names the branches, that nothing but the resolve does in the next
/// opening, and that no branch's outcome was XAER_RMFAIL, which the caller sees. The log has to have the record still
/// where one of the branches was left: once none is, it may be forgotten.
pub fn next_openings_resolve()
    ensures { (s next : Settling) (again : Again) (c : CommitCall) (q : ResolveCall) → IsSettled s
        → IsUseIn s (commits c) → length c.desk.ledgers ≤ MOST_MANAGERS → AskedAreLeft c s → IsSettled next
        → IsUseIn next (resolves q) → Continues s next → IsOf (reopening s again) next → IsScanOf s q.scan
        → (HasBranchLeft c.branches s → (t : TranName) → IsTranOf c.branches t
        → record_in q.records t ≡ record_of c.later t)
        → ((t : TranName) → IsTranOf c.branches t → OnlyResolves t (with_use next (resolves q)))
        → All (λ r. IsOutcomeOf c.branches r → r.code ≢ RmFail) q.outcomes
        → IsResolved (with_use s (commits c)) [] (with_use next (resolves q)) c q }
{}

/// The same where several threads of the next opening resolve, in whatever order, each by the logs of all coordinators:
/// where no other log has a record of the transaction, any of the resolves that reached the branches ends them as the
/// commit's own log says, and none takes back what another log has recorded.
pub fn next_openings_resolve_by_all_logs()
    ensures { (s next : Settling) (again : Again) (c : CommitCall) (ps : List ResolveCall) (q : ResolveCall)
        (rs : List ResolveCall) → IsSettled s → IsUseIn s (commits c) → length c.desk.ledgers ≤ MOST_MANAGERS
        → AskedAreLeft c s → IsSettled next → All (λ r. IsUseIn next (resolves r)) (ps ++ q ∷ rs) → Continues s next
        → IsOf (reopening s again) next → IsScanOf s q.scan
        → (HasBranchLeft c.branches s → (t : TranName) → IsTranOf c.branches t
        → All (λ r. AreOfAllLogs t c.later.records r.records) (ps ++ q ∷ rs))
        → ((t : TranName) → IsTranOf c.branches t → OnlyResolves t (with_resolves next (ps ++ q ∷ rs)))
        → All (λ r. IsOutcomeOf c.branches r → r.code ≢ RmFail) q.outcomes
        → IsResolved (with_use s (commits c)) [] (with_resolves next (ps ++ q ∷ rs)) c q }
{
    several_logs_are_read_as_one();
}

/// A commit that is resolved in the next opening, for a caller that kept both settled openings, its desks and its logs
/// as they were: all or none of its branches ended as was decided, and the values have all of its additions or none.
pub fn commit_resolved_in_the_next_opening<L: DecisionLog, D: DecisionRecords>(
    settled: &Snapshot<Settled>,
    next: &Settled,
    again: &Again,
    thread: u32,
    branches: &[Branch],
    before: &Snapshot<Desk>,
    after: &Snapshot<Desk>,
    log_before: &Snapshot<L>,
    log_after: &Snapshot<L>,
    done: &Done,
    resolver: u32,
    scan: &Snapshot<Scan>,
    start: &Snapshot<Desk>,
    end: &Snapshot<Desk>,
    log: &Snapshot<D>,
    resolved: &Resolved,
)
    requires settled { IsSettled settled.now.value }
    requires made { IsCommit branches.now before.now.value after.now.value.ledgers (L.state log_before.now.value)
        (L.state log_after.now.value) done.now }
    requires grown { HaveGrown after.now.value.ledgers (ledgers_of settled.now.value thread) }
    requires few { length before.now.value.ledgers ≤ MOST_MANAGERS }
    requires own { AreLeftOrDecided settled.now.value thread branches.now (sent_so_far before.now.value.ledgers)
        (sent_so_far after.now.value.ledgers) }
    requires continues { Continues settled.now.value next.now }
    requires of { IsOf (reopening settled.now.value again.now) next.now }
    requires scan { IsScanOf settled.now.value scan.now.value }
    requires trace { IsTraceOfResolve scan.now.value (D.records log.now.value) start.now.value.ledgers
        end.now.value.ledgers resolved.now.outcomes.items }
    requires ended { HaveGrown end.now.value.ledgers (ledgers_of next.now resolver) }
    requires log { HasBranchLeft branches.now settled.now.value → (t : TranName) → IsTranOf branches.now t
        → record_in (D.records log.now.value) t ≡ record_of (L.state log_after.now.value) t }
    requires later { let q : ResolveCall = resolve_call resolver scan.now.value start.now.value.ledgers
        end.now.value.ledgers resolved.now.outcomes.items (D.records log.now.value) in
        (t : TranName) → IsTranOf branches.now t → OnlyResolves t (with_use next.now (resolves q)) }
    requires reached { All (λ r. IsOutcomeOf branches.now r → r.code ≢ RmFail) resolved.now.outcomes.items }
    ensures { let c : CommitCall = commit_call thread branches.now before.now.value after.now.value.ledgers
        (L.state log_before.now.value) (L.state log_after.now.value) done.now.endings.items in
        let q : ResolveCall = resolve_call resolver scan.now.value start.now.value.ledgers end.now.value.ledgers
        resolved.now.outcomes.items (D.records log.now.value) in
        IsAllOrNone c done.now (with_use settled.now.value (commits c)) (with_use next.now (resolves q) ∷ [])
        × CountsAllOrNone c done.now (with_use settled.now.value (commits c)) (with_use next.now (resolves q) ∷ []) }
{
    finished_commits_are_cut_after_all();
    next_openings_resolve();
    resolved_transactions_have_one_outcome();
    resolved_transactions_count_where_committed();
    next.is_settled();
}
