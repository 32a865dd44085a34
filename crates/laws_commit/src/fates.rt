//! Of a settled opening: what a call told is what became of each branch, and what the values have of it.
ghost use Rattle.std.specs.List.{All, Contains, list_any};
ghost use Rattle.std.specs.Prelude.{◌≡◌, ℕ, ◌≤◌, ℤ, pos, ◌+ℤ◌, true, false, Some, List, length};
ghost use Rattle.xa_base.specs.Sums.{total};
ghost use Rattle.xa_words.specs.Tran.{TranName, tran_of};
ghost use Rattle.xa_desk.specs.LedgerViews.{LedgerView};
ghost use Rattle.xa_switch.specs.Settled.{Settling, IsSettled};
ghost use Rattle.xa_desk.specs.Growth.{HaveGrown};
ghost use Rattle.xa_switch.specs.Reopening.{reopened_at};
ghost use Rattle.xa_switch.specs.Fates.{IsOpenedWith, first_of, ledgers_of};
ghost use Rattle.xa_switch.specs.Plans.{IsSoundManager};
ghost use Rattle.xa_switch.specs.Worth.{WorthIsOfThreads, accounts_of, threads_of_plan, plan_worth, settled_worth};
ghost use Rattle.xa_switch.specs.declared.plan.Plan.{Plan};
ghost use Rattle.xa_driver.specs.declared.branch.Branch.{Branch};
ghost use Rattle.xa_driver.specs.declared.done.Done.{Done};
ghost use Rattle.xa_driver.specs.Forgetful.{is_acknowledged};
ghost use Rattle.xa_driver.specs.Trace.{IsCommit, IsTranOf};
ghost use Rattle.laws_commit.specs.Calls.{CommitCall, IsFinishedIn, ResolveCall};
ghost use Rattle.laws_commit.specs.Outcomes.{AreLeftAlone, AreLeftOrDecided, IsCommittedTransaction};
ghost use Rattle.laws_commit.specs.Outcomes.{IsLeftAlone, IsLeftOrDecided};
ghost use Rattle.laws_commit.specs.Outcomes.{IsAbortedTransaction, KeepsTheVotes, TellsTheFates, has_committed};
ghost use Rattle.laws_commit.specs.Outcomes.{ends_in_doubt, was_refused};
ghost use Rattle.xa_driver.specs.Deaths.{sent_so_far};
ghost use Rattle.laws_commit.specs.Conservation.{OnlyTransfers, held_in_doubt};
ghost use Rattle.laws_commit.specs.Additions.{CountsTheCommitted, HasAllOrNothing, is_decided_everywhere};
ghost use Rattle.laws_commit.specs.Resolution.{HasBranchLeft, IsUseIn, OnlyResolves, TellsTheOutcomes};
ghost use Rattle.laws_commit.specs.Resolution.{resolves, with_use};
ghost use Rattle.xa_driver.specs.declared.resolved.Outcome.{Outcome};
ghost use Rattle.xa_words.specs.Codes.{is_done};
ghost use Rattle.xa_tables.specs.ManagerTables.{Tables, is_left};
ghost use Rattle.xa_tables.specs.Managers.{opening};
ghost use Rattle.xa_tables.specs.Openings.{AreLeft};
ghost use Rattle.xa_scan.specs.Left.{left_at};
ghost use Rattle.xa_switch.specs.OfPlans.{IsOfPlan};

use crate::commits::one_outcome;
use crate::tables_keep_to_their_laws;
use laws_tables::{branches_hold_their_additions, commits_alone_move_the_worth};
use std::snapshot::Snapshot;
use xa_desk::Desk;
use xa_driver::{Branch, Done};
use xa_log::DecisionLog;
use xa_switch::Settled;
use xa_switch::laws::settled_journals_follow_the_tables;

/// In a settled opening, where nobody but the call named a branch after its Prepare, but for heuristic decisions: a
/// branch that voted to commit isn't left, is in doubt only where its manager was shut before the place of its second
/// request, and ended heuristically only where a decision of it was carried out after its Prepare; and what the call
/// tells of each branch is what became of it by its manager's journal, where a branch in doubt may have been decided.
/// Where no heuristic decision named a branch either, the values count each addition of it exactly where it was
/// committed; and where no branch is in doubt or left, they count all additions of the transaction or none.
pub fn endings_are_fates()
    ensures votes { (s : Settling) (c : CommitCall) (done : Done) → IsFinishedIn s c done → IsLeftOrDecided s c
        → KeepsTheVotes s c.thread c.branches (sent_so_far c.desk.ledgers) done }
    ensures fates { (s : Settling) (c : CommitCall) (done : Done) → IsFinishedIn s c done → IsLeftOrDecided s c
        → TellsTheFates s c.thread c.branches (sent_so_far c.desk.ledgers) done }
    ensures values { (s : Settling) (c : CommitCall) (done : Done) → IsFinishedIn s c done → IsLeftAlone s c
        → CountsTheCommitted s c.thread c.branches (sent_so_far c.desk.ledgers) done }
    ensures whole { (s : Settling) (c : CommitCall) (done : Done) → IsFinishedIn s c done → IsLeftAlone s c
        → is_decided_everywhere done ≡ true → HasAllOrNothing s c.thread c.branches (sent_so_far c.desk.ledgers) done }
{
    tables_keep_to_their_laws();
    settled_journals_follow_the_tables();
}

/// In a settled opening, where nobody but the call named a branch after its Prepare, but for heuristic decisions: a
/// commit that all branches have acknowledged leaves none of them to the next opening. So nobody will ask for its
/// record, and a log may forget it.
pub fn acknowledged_commits_leave_no_branch()
    ensures { (s : Settling) (c : CommitCall) (done : Done) → IsFinishedIn s c done → IsLeftOrDecided s c
        → is_acknowledged done ≡ true → HasBranchLeft c.branches s → ⊥ }
{
    tables_keep_to_their_laws();
    settled_journals_follow_the_tables();
}

/// In a settled opening where threads made only transfers, all accounts are together worth what they were declared
/// with, but for what is missing where a transaction was committed and a branch of it is in doubt: exactly what that
/// branch holds. Where no branch is in doubt nothing is missing.
pub fn transfers_conserve_the_worth()
    ensures conserved { (p : Plan) (s : Settling) (doubt : ℕ → ℤ) → IsSettled s → IsOfPlan p s
        → All IsSoundManager p.managers.items → ((t : ℕ) → 1 ≤ t → t ≤ p.threads
        → OnlyTransfers p s t (ledgers_of s t) (doubt t))
        → settled_worth p s +ℤ total doubt (threads_of_plan p) ≡ plan_worth p }
    ensures decided { (p : Plan) (s : Settling) (t : ℕ) (old : List LedgerView) (bs : List Branch) (done : Done)
        → list_any ends_in_doubt done.endings.items ≡ false → held_in_doubt p s t old bs done ≡ pos 0 }
{
    tables_keep_to_their_laws();
    branches_hold_their_additions();
    settled_journals_follow_the_tables();
    managers_open_with_their_accounts();
    threads_move_the_worth();
}

/// In a settled opening that was opened again, where nothing but a resolve names the transactions that it ends: what
/// each of its outcomes tells is what became of the branch by its manager's journal.
pub fn outcomes_are_fates()
    ensures { (s : Settling) (q : ResolveCall) → IsSettled s → IsUseIn s (resolves q)
        → ((m : ℕ) (T : Tables) → first_of s m ≡ Some T → AreLeft (left_at q.scan m) T)
        → ((r : Outcome) → Contains q.outcomes r → OnlyResolves (tran_of r.xid) (with_use s (resolves q)))
        → TellsTheOutcomes s q.outcomes }
{
    tables_keep_to_their_laws();
    settled_journals_follow_the_tables();
}

/// In the same opening: a branch whose outcome was answered XA_OK isn't left to the next opening. So once each branch
/// of a transaction that a scan has was answered so, a log may forget its record.
pub fn finished_outcomes_leave_no_branch()
    ensures { (s : Settling) (q : ResolveCall) → IsSettled s → IsUseIn s (resolves q)
        → ((m : ℕ) (T : Tables) → first_of s m ≡ Some T → AreLeft (left_at q.scan m) T)
        → ((r : Outcome) → Contains q.outcomes r → OnlyResolves (tran_of r.xid) (with_use s (resolves q)))
        → (r : Outcome) → Contains q.outcomes r → is_done r.code ≡ true
        → is_left (reopened_at s.managers r.m) r.xid ≡ false }
{
    tables_keep_to_their_laws();
    settled_journals_follow_the_tables();
}

/// The laws for a caller that kept its desk and its log as they were before and after a commit: all its
/// branches have one outcome, and where nobody else named them, what it told of each is what became of it.
pub fn commit_in_a_settled_opening<L: DecisionLog>(
    settled: &Settled,
    thread: u32,
    branches: &[Branch],
    before: &Snapshot<Desk>,
    after: &Snapshot<Desk>,
    log_before: &Snapshot<L>,
    log_after: &Snapshot<L>,
    done: &Done,
)
    requires made { IsCommit branches.now before.now.value after.now.value.ledgers (L.state log_before.now.value)
        (L.state log_after.now.value) done.now }
    requires grown { HaveGrown after.now.value.ledgers (ledgers_of settled.now thread) }
    ensures committed { has_committed done.now ≡ true → (tran : TranName) → IsTranOf branches.now tran
        → IsCommittedTransaction tran branches.now (L.state log_after.now.value) done.now }
    ensures aborted { was_refused done.now ≡ true → (tran : TranName) → IsTranOf branches.now tran
        → IsAbortedTransaction tran before.now.value.ledgers after.now.value.ledgers
        (L.state log_after.now.value) done.now }
    ensures votes { AreLeftOrDecided settled.now thread branches.now (sent_so_far before.now.value.ledgers)
        (sent_so_far after.now.value.ledgers)
        → KeepsTheVotes settled.now thread branches.now (sent_so_far before.now.value.ledgers) done.now }
    ensures fates { AreLeftOrDecided settled.now thread branches.now (sent_so_far before.now.value.ledgers)
        (sent_so_far after.now.value.ledgers)
        → TellsTheFates settled.now thread branches.now (sent_so_far before.now.value.ledgers) done.now }
    ensures values { AreLeftAlone settled.now thread branches.now (sent_so_far before.now.value.ledgers)
        (sent_so_far after.now.value.ledgers)
        → CountsTheCommitted settled.now thread branches.now (sent_so_far before.now.value.ledgers) done.now }
    ensures whole { AreLeftAlone settled.now thread branches.now (sent_so_far before.now.value.ledgers)
        (sent_so_far after.now.value.ledgers)
        → is_decided_everywhere done.now ≡ true
        → HasAllOrNothing settled.now thread branches.now (sent_so_far before.now.value.ledgers) done.now }
{
    one_outcome();
    endings_are_fates();
    settled.is_settled();
}

/// In a settled opening of a plan the tables that a manager began with are those of the plan's accounts.
pub fn managers_open_with_their_accounts()
    ensures { (p : Plan) (s : Settling) (m : ℕ) → IsSettled s → IsOfPlan p s → 1 ≤ m → m ≤ length p.managers.items
        → IsOpenedWith s m (opening (accounts_of p m)) }
{}

/// What all accounts are worth together after the journals is what was declared and what each thread's
/// Commits have moved.
#[tactic(auto, using(crate::proofs::Worth::worth_law))]
pub fn threads_move_the_worth()
    ensures { (p : Plan) (s : Settling) → IsSettled s → IsOfPlan p s → All IsSoundManager p.managers.items
        → WorthIsOfThreads p s }
{
    commits_alone_move_the_worth();
}
