//! A coordinator that dies at each point of a commit: what it left is resolved by its log, all of it or nothing. By
//! what the calls promise and one law, and with every premise of it met.
ghost use Rattle.xa_driver.specs.Outcomes.{endings_known};
ghost use Rattle.std.specs.Prelude.{◌≡◌, ◌≤◌, ℕ, ◌∷◌, [], length, map, refl, true, IfSome};
ghost use Rattle.std.specs.List.{All};
ghost use Rattle.std.proofs.Common.{◌∙◌};
ghost use Rattle.xa_tables.specs.Prepared.{is_heur};
ghost use Rattle.xa_desk.specs.DeskViews.{ledger};
ghost use Rattle.xa_desk.specs.GoingOn.{GoesOn};
ghost use Rattle.xa_desk.specs.Growth.{HaveGrown};
ghost use Rattle.xa_switch.specs.Fates.{ledgers_of};
ghost use Rattle.xa_switch.specs.Belonging.{ComeFromOpenings, seat_of_desk, seat_of_worker};
ghost use Rattle.xa_switch.specs.Settled.{IsSettled};
ghost use Rattle.laws_commit.specs.Cut.{IsCut};
ghost use Rattle.laws_commit.specs.Outcomes.{AreLeftOrDecided};
ghost use Rattle.xa_driver.specs.Deaths.{sent_so_far};
ghost use Rattle.laws_commit.specs.Presumed.{CountsByTheLog, EndsByTheLog};
ghost use Rattle.laws_commit.specs.Calls.{CommitCall, ResolveCall, commit_call, resolve_call};
ghost use Rattle.laws_commit.specs.Resolution.{commits, resolves, with_use};
ghost use Rattle.xa_driver.specs.Trace.{MayCommit};

use super::openings::{again, open, settle_all};
use super::pieces::{end, run_all, work};
use super::resolved::{Recovered, recover};
use super::{Opened, branch, key, plan_of};
use laws_commit::{
    commits_are_cuts, logs_turn_out_as_they_are_read, next_openings_resolve,
    others_leave_the_branches, presumed_transactions_count_by_the_log,
    presumed_transactions_have_one_outcome, rounds_are_cuts, stages_follow,
};
use std::alloc::Global;
use std::process::Abort;
use std::snapshot::Snapshot;
use std::sync::Wait;
use xa_crew::Turns;
use xa_desk::laws::desks_go_on;
use xa_desk::{Desk, Idle};
use xa_driver::{Branch, CommitOutcome, LastKnown, Resolved, begin_prepare, commit, may_commit};
use xa_log::{DecisionLog, MemoryLog, TrialLog};
use xa_switch::{Again, Plan, Settled};
use xa_words::{Code, Death, Op, Xid};

// ---- the coordinator

// Where the coordinator dies.
#[derive(Clone, Copy)]
pub(super) enum Dies {
    // At a point before any branch is told to forget a decision of its own.
    At(Death),
    // Those that were decided heuristically were told to forget it, and have not answered.
    Forgetting,
}

// Commits the branches until those that were decided heuristically are told to forget it, and dies then.
fn commit_until_forgetting<R: Wait, L: DecisionLog, I: Idle>(
    rt: &R,
    alloc: Global,
    desk: &mut Desk,
    log: &mut L,
    branches: &[Branch],
    idle: &mut I,
) -> Option<LastKnown>
    requires known { L.knows log.old }
    requires may { MayCommit desk.old (L.state log.old) branches.now }
    ensures cut { IfSome result (λ known. (t : ℕ) → IsCut (commit_call t branches.now desk.old desk.new.ledgers
        (L.state log.old) (L.state log.new) (endings_known known))) }
    ensures known { IfSome result (λ known. L.knows log.new) }
    ensures goes_on { GoesOn desk.old desk.new }
    ensures idled { I.leads idle.old idle.new }
{
    desks_go_on();
    stages_follow();
    rounds_are_cuts();
    others_leave_the_branches();
    let Ok(preparing) = begin_prepare(alloc, desk, branches) else {
        return None;
    };
    let prepared = preparing.finish(rt, desk, idle);
    let decided = match prepared.decide(log) {
        Ok(decided) => decided,
        Err(prepared) => {
            let _ = prepared.let_go();
            return None;
        }
    };
    let telling = decided.begin_telling(desk);
    let told = telling.finish(rt, desk, idle);
    let mut forgetting = told.begin_forgetting(desk);
    forgetting.round.send_next(rt, desk, idle);
    forgetting.round.send_next(rt, desk, idle);
    Some(LastKnown::Told(forgetting.leave(desk)))
}

// Commits the branches until the coordinator dies, and tells what it knew then.
fn commit_until_it_dies<R: Wait, L: DecisionLog, I: Idle>(
    rt: &R,
    alloc: Global,
    desk: &mut Desk,
    log: &mut L,
    branches: &[Branch],
    dies: Dies,
    idle: &mut I,
) -> Option<LastKnown>
    requires known { L.knows log.old }
    requires may { MayCommit desk.old (L.state log.old) branches.now }
    ensures cut { IfSome result (λ known. (t : ℕ) → IsCut (commit_call t branches.now desk.old desk.new.ledgers
        (L.state log.old) (L.state log.new) (endings_known known))) }
    ensures known { IfSome result (λ known. L.knows log.new) }
    ensures goes_on { GoesOn desk.old desk.new }
    ensures idled { I.leads idle.old idle.new }
{
    commits_are_cuts();
    logs_turn_out_as_they_are_read::<L>();
    match dies {
        Dies::At(death) => match commit(rt, alloc, desk, log, branches, Some(death), idle) {
            Ok(CommitOutcome::Died { at: _, known }) => Some(known),
            _ => None,
        },
        Dies::Forgetting => commit_until_forgetting(rt, alloc, desk, log, branches, idle),
    }
}

// A commit whose coordinator died: its desk and its log before it and after it, and what it knew.
#[derive(Drop)]
pub(super) struct Died<L> {
    before: Snapshot<Desk>,
    after: Snapshot<Desk>,
    log_before: Snapshot<L>,
    log_after: Snapshot<L>,
    known: LastKnown,
}

// Commits the branches up to the death of the coordinator.
pub(super) fn die<R: Wait + Abort, L: DecisionLog, I: Idle>(
    rt: &R,
    alloc: Global,
    desk: &mut Desk,
    log: &mut L,
    branches: &[Branch],
    dies: Dies,
    idle: &mut I,
) -> Died<L>
    ensures cut { (t : ℕ) → IsCut (commit_call t branches.now result.before.value result.after.value.ledgers
        (L.state result.log_before.value) (L.state result.log_after.value) (endings_known result.known)) }
    ensures known { L.knows log.new }
    ensures few { length result.before.value.ledgers ≤ 8 }
    ensures after { result.after.value ≡ desk.new }
    ensures log { result.log_after.value ≡ log.new }
    ensures seat { seat_of_desk desk.new ≡ seat_of_desk desk.old }
    ensures idled { I.leads idle.old idle.new }
{
    if !may_commit(desk, log, branches) {
        panic!(rt; "these branches are refused");
    }
    let _managers = desk.managers();
    let (before, log_before) = (Snapshot::of(desk), Snapshot::of(log));
    let Some(known) = commit_until_it_dies(rt, alloc, desk, log, branches, dies, idle) else {
        panic!(rt; "memory");
    };
    Died {
        before,
        after: Snapshot::of(desk),
        log_before,
        log_after: Snapshot::of(log),
        known,
    }
}

// Collects what the dead coordinator left in flight under this number.
fn collect_number<R: Wait>(rt: &R, desk: &mut Desk, number: u32, idle: &mut Turns)
    ensures goes_on { GoesOn desk.old desk.new }
    ensures sent { (m : ℕ) → (ledger desk.new.ledgers m).sent ≡ (ledger desk.old.ledgers m).sent }
    ensures idled { map seat_of_worker idle.new ≡ map seat_of_worker idle.old }
{
    desks_go_on();
    let Some(ticket) = desk.redeem(number) else {
        return;
    };
    desk.complete(rt, ticket, idle);
}

// Collects all that is in flight, as the end of its thread does.
fn collect_all<R: Wait>(rt: &R, desk: &mut Desk, idle: &mut Turns)
    ensures goes_on { GoesOn desk.old desk.new }
    ensures sent { (m : ℕ) → (ledger desk.new.ledgers m).sent ≡ (ledger desk.old.ledgers m).sent }
    ensures idled { map seat_of_worker idle.new ≡ map seat_of_worker idle.old }
{
    desks_go_on();
    for before in 0..desk.handles() {
        collect_number(rt, desk, before + 1, idle);
    }
}

// ---- a manager that decides heuristically

// Has manager 2 decide the branch.
fn decide<R: Wait>(rt: &R, desk: &mut Desk, xid: Xid, commits: bool, idle: &mut Turns)
    ensures seat { seat_of_desk desk.new ≡ seat_of_desk desk.old }
    ensures decides { ((m : ℕ) → All (λ op. is_heur op ≡ true) (ledger desk.old.ledgers m).sent) → (m : ℕ)
        → All (λ op. is_heur op ≡ true) (ledger desk.new.ledgers m).sent }
    ensures idled { map seat_of_worker idle.new ≡ map seat_of_worker idle.old }
{
    let _ = desk.call(rt, 2, &Op::Heur(xid, commits), idle);
}

// As it idles for the first time the branches have been asked to prepare. Manager 2 answers that, and then the second
// thread has it decide its branch, if it is to. After that, as each time, the worker that is waited for does one step.
#[derive(Drop)]
struct Deciding {
    second: Desk,
    workers: Turns,
    decision: Option<(Xid, bool)>,
}

impl Idle for Deciding {
    ghost leads_by = { λ manager before after. (seat_of_desk after.second ≡ seat_of_desk before.second)
        × (map seat_of_worker after.workers ≡ map seat_of_worker before.workers)
        × (((m : ℕ) → All (λ op. is_heur op ≡ true) (ledger before.second.ledgers m).sent) → (m : ℕ)
        → All (λ op. is_heur op ≡ true) (ledger after.second.ledgers m).sent) };

    ghost leads = { λ before after. (seat_of_desk after.second ≡ seat_of_desk before.second)
        × (map seat_of_worker after.workers ≡ map seat_of_worker before.workers)
        × (((m : ℕ) → All (λ op. is_heur op ≡ true) (ledger before.second.ledgers m).sent) → (m : ℕ)
        → All (λ op. is_heur op ≡ true) (ledger after.second.ledgers m).sent) };

    ghost leads_each = { λ manager x y p. p };

    ghost leads_start = { λ x. (refl, refl, λ s. s) };

    ghost leads_chain = { λ x y z p q. (q.0 ∙ p.0, q.1 ∙ p.1, λ s. q.2 (p.2 s)) };

    fn idle<R: Wait>(&mut self, rt: &R, manager: u32) {
        if let Some((xid, commits)) = self.decision {
            self.decision = None;
            self.workers.idle(rt, 2);
            decide(rt, &mut self.second, xid, commits, &mut self.workers);
        }
        self.workers.idle(rt, manager);
    }
}

// ---- both openings

// A settled opening, and the commit that died in it.
#[derive(Drop)]
struct Ended<L> {
    settled: Settled,
    thread: u32,
    died: Died<L>,
}

// The first thread works for two branches, and dies as it commits them, while manager 2 decides its branch, if it is
// to. Then the opening ends and is settled. Nobody but the first thread names a branch, but for that decision.
fn die_and_settle<R: Wait + Abort, L: DecisionLog>(
    rt: &R,
    alloc: Global,
    opened: Opened,
    log: &mut L,
    branches: &[Branch; 2],
    dies: Dies,
    decision: Option<bool>,
) -> Ended<L>
    requires opened { ComeFromOpenings (seat_of_desk opened.first ∷ seat_of_desk opened.second ∷ [])
        (map seat_of_worker opened.workers) }
    requires fresh { (m : ℕ) → (ledger opened.second.ledgers m).sent ≡ [] }
    ensures settled { IsSettled result.settled }
    ensures cut { IsCut (commit_call result.thread branches.now result.died.before.value
        result.died.after.value.ledgers (L.state result.died.log_before.value) (L.state result.died.log_after.value)
        (endings_known result.died.known)) }
    ensures known { L.knows log.new }
    ensures grown { HaveGrown result.died.after.value.ledgers (ledgers_of result.settled result.thread) }
    ensures own { AreLeftOrDecided result.settled result.thread branches.now
        (sent_so_far result.died.before.value.ledgers) (sent_so_far result.died.after.value.ledgers) }
    ensures few { length result.died.before.value.ledgers ≤ 8 }
    ensures log { result.died.log_after.value ≡ log.new }
{
    let Opened {
        mut first,
        second,
        mut workers,
    } = opened;
    let thread = first.thread();
    work(rt, &mut first, &branches[0], &mut workers);
    work(rt, &mut first, &branches[1], &mut workers);
    let xid = branches[1].xid;
    let mut idle = Deciding {
        second,
        workers,
        decision: decision.map(|commits| (xid, commits)),
    };
    let died = die(rt, alloc, &mut first, log, branches, dies, &mut idle);
    let Deciding {
        second,
        mut workers,
        decision: _,
    } = idle;
    collect_all(rt, &mut first, &mut workers);
    let first_ended = end(rt, first, &mut workers);
    let second_ended = end(rt, second, &mut workers);
    let Ok(desks) = Vec::from_array(alloc, [first_ended, second_ended]) else {
        panic!(rt; "memory");
    };
    let done = run_all(rt, alloc, workers);
    let settled = settle_all(rt, alloc, desks, done);
    Ended {
        settled,
        thread,
        died,
    }
}

// Both openings, of the first of which only proofs see what it was settled to.
#[derive(Drop)]
struct Story<L> {
    first: Snapshot<Settled>,
    thread: u32,
    died: Died<L>,
    last: Recovered,
    log: Snapshot<L>,
}

// What a coordinator left that died is resolved in the next opening. Every premise of the laws is met; so all branches
// that voted to commit end by the log's record, and their additions count by it.
fn die_and_resolve<R: Wait + Abort, L: DecisionLog + Drop>(
    rt: &R,
    alloc: Global,
    opened: Opened,
    again: &Again,
    log: L,
    branches: &[Branch; 2],
    dies: Dies,
    decision: Option<bool>,
) -> Story<L>
    requires opened { ComeFromOpenings (seat_of_desk opened.first ∷ seat_of_desk opened.second ∷ [])
        (map seat_of_worker opened.workers) }
    requires fresh { (m : ℕ) → (ledger opened.second.ledgers m).sent ≡ [] }
    ensures { let k : CommitCall = commit_call result.thread branches.now result.died.before.value
        result.died.after.value.ledgers (L.state result.died.log_before.value) (L.state result.died.log_after.value)
        (endings_known result.died.known) in
        let q : ResolveCall = resolve_call result.last.thread result.last.ended.scan.value
        result.last.ended.before.value.ledgers result.last.ended.after.value.ledgers
        result.last.ended.told.outcomes.items (L.records result.log.value) in
        EndsByTheLog k (with_use result.first.value (commits k)) (with_use result.last.settled (resolves q) ∷ [])
        × CountsByTheLog k (with_use result.first.value (commits k))
        (with_use result.last.settled (resolves q) ∷ []) }
{
    next_openings_resolve();
    presumed_transactions_have_one_outcome();
    presumed_transactions_count_by_the_log();
    let mut log = log;
    let Ended {
        settled,
        thread,
        died,
    } = die_and_settle(rt, alloc, opened, &mut log, branches, dies, decision);
    let first = Snapshot::of(&settled);
    let last = recover(rt, alloc, settled, again, &log);
    Story {
        first,
        thread,
        died,
        last,
        log: Snapshot::of(&log),
    }
}

// What the next opening's resolve does, and the values after it.
fn resolves<R: Wait + Abort, L: DecisionLog + Drop>(
    rt: &R,
    alloc: Global,
    log: L,
    dies: Dies,
    decision: Option<bool>,
    outcomes: &[(u32, bool, Code)],
    values: [u64; 2],
) {
    let plan = Plan {
        queue: 4,
        ..plan_of(rt, alloc, 2)
    };
    let branches = [branch(rt, 1), branch(rt, 2)];
    let opened = open(rt, alloc, &plan);
    let again = again(8);
    let story = die_and_resolve(rt, alloc, opened, &again, log, &branches, dies, decision);
    tells(rt, &story.last.ended.told, outcomes);
    let settled = &story.last.settled;
    assert!(rt; settled.value(1, &key(rt)) == Some(values[0]));
    assert!(rt; settled.value(2, &key(rt)) == Some(values[1]));
}

// The resolve tells these outcomes.
fn tells(rt: &impl Abort, told: &Resolved, outcomes: &[(u32, bool, Code)]) {
    assert!(rt; told.outcomes.len() == outcomes.len());
    for place in 0..outcomes.len() {
        let told = told.outcomes[place];
        assert!(rt; (told.m, told.commit, told.code) == outcomes[place]);
    }
}

const ROLLED_BACK: [(u32, bool, Code); 2] = [(1, false, Code::Done), (2, false, Code::Done)];

const COMMITTED: [(u32, bool, Code); 2] = [(1, true, Code::Done), (2, true, Code::Done)];

#[test]
fn what_a_dead_coordinator_left_is_resolved_by_its_log(rt: HostRuntime) {
    let alloc = rt.alloc();
    let log = || MemoryLog::new(alloc);
    let before = [
        Death::Preparing(0),
        Death::Preparing(1),
        Death::Preparing(2),
        Death::Prepared,
    ];
    for death in before {
        let rolled_back = ROLLED_BACK.as_slice();
        resolves(
            &rt,
            alloc,
            log(),
            Dies::At(death),
            None,
            rolled_back,
            [5, 5],
        );
    }
    let decided = Dies::At(Death::Decided);
    resolves(
        &rt,
        alloc,
        log(),
        decided,
        None,
        COMMITTED.as_slice(),
        [6, 6],
    );
    let told = [
        Dies::At(Death::Telling(0)),
        Dies::At(Death::Telling(1)),
        Dies::At(Death::Telling(8)),
        Dies::At(Death::Told),
        Dies::Forgetting,
    ];
    for dies in told {
        resolves(&rt, alloc, log(), dies, None, &[], [6, 6]);
    }
}

// The log fails: it has no record, so that all is rolled back, by the resolve or by the coordinator itself.
#[test]
fn what_a_log_did_not_take_is_rolled_back(rt: HostRuntime) {
    let alloc = rt.alloc();
    let failing = || TrialLog::new(MemoryLog::new(alloc)).failing_at(1);
    let decided = Dies::At(Death::Decided);
    resolves(
        &rt,
        alloc,
        failing(),
        decided,
        None,
        ROLLED_BACK.as_slice(),
        [5, 5],
    );
    for death in [Death::Telling(0), Death::Telling(1), Death::Told] {
        resolves(&rt, alloc, failing(), Dies::At(death), None, &[], [5, 5]);
    }
}

// Manager 2 decides its branch against the record. It lists the decision until it was told to forget it.
#[test]
fn a_decision_is_listed_until_it_is_forgotten(rt: HostRuntime) {
    let alloc = rt.alloc();
    let log = || MemoryLog::new(alloc);
    let listed = [(2, true, Code::HeurRb)];
    for death in [Death::Telling(0), Death::Telling(1), Death::Told] {
        let dies = Dies::At(death);
        resolves(
            &rt,
            alloc,
            log(),
            dies,
            Some(false),
            listed.as_slice(),
            [6, 5],
        );
    }
    resolves(
        &rt,
        alloc,
        log(),
        Dies::Forgetting,
        Some(false),
        &[],
        [6, 5],
    );
    let rolled_back = [(1, false, Code::Done), (2, false, Code::HeurCom)];
    let prepared = Dies::At(Death::Prepared);
    resolves(
        &rt,
        alloc,
        log(),
        prepared,
        Some(true),
        rolled_back.as_slice(),
        [5, 6],
    );
}
