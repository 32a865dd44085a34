//! A crash between the phases of a commit: a manager is shut after its vote, and its branch is in doubt as the opening
//! ends. The opening is opened again, and the branch is resolved by the log. By what the calls promise and one law, and
//! with every premise of it met, the transaction has one outcome, and the values count all of it or nothing.
ghost use Rattle.std.specs.Prelude.{◌≡◌, ◌≢◌, ◌↔◌, ◌≤◌, ℕ, List, ◌∷◌, [], length, map, IsTrue};
ghost use Rattle.std.specs.List.{All};
ghost use Rattle.std.proofs.Common.{◌∙◌, refl};
ghost use Rattle.xa_words.specs.Tran.{TranName};
ghost use Rattle.xa_words.specs.declared.code.Code.TheVariants.{RmFail};
ghost use Rattle.xa_words.specs.declared.request.Op.TheVariants.{Shut};
ghost use Rattle.xa_desk.specs.DeskViews.{DeskView, ledger};
ghost use Rattle.xa_desk.specs.Growth.{HaveGrown};
ghost use Rattle.xa_worker.specs.Workers.{WorkerView};
ghost use Rattle.xa_switch.specs.Plans.{Setup};
ghost use Rattle.xa_switch.specs.Reopening.{reopening};
ghost use Rattle.xa_switch.specs.Closing.{settling};
ghost use Rattle.xa_switch.specs.Fates.{ledgers_of};
ghost use Rattle.xa_switch.specs.OfPlans.{IsOf};
ghost use Rattle.xa_switch.specs.OpenedPieces.{AreOfOneOpening};
ghost use Rattle.xa_switch.specs.Recovery.{IsScanOf};
ghost use Rattle.xa_switch.specs.Belonging.{ComeFromOpenings, desk_seats, worker_seats, seat_of_desk, seat_of_ended};
ghost use Rattle.xa_switch.specs.Belonging.{seat_of_worker, seat_of_done};
ghost use Rattle.xa_switch.specs.Settled.{IsSettled};
ghost use Rattle.laws_commit.specs.Outcomes.{AreLeftOrDecided};
ghost use Rattle.xa_driver.specs.Deaths.{sent_so_far};
ghost use Rattle.laws_commit.specs.Calls.{CommitCall, ResolveCall, commit_call, resolve_call};
ghost use Rattle.laws_commit.specs.Resolution.{Continues, IsAllOrNone, IsResolved, OnlyResolves, Opening, Use};
ghost use Rattle.laws_commit.specs.Resolution.{commits, resolves, with_use};
ghost use Rattle.xa_driver.specs.Resolving.{IsTraceOfResolve};
ghost use Rattle.xa_driver.specs.Trace.{IsCommit};
ghost use Rattle.laws_commit.specs.Worth.{CountsOver, CountsAllOrNone};

use super::openings::{Reopened, again, open, open_again, settle_all};
use super::pieces::{Made, end, make, run_all, work};
use super::{Opened, branch, key, plan_of};
use laws_commit::{
    finished_commits_are_cut_after_all, next_openings_resolve,
    resolved_transactions_count_where_committed, resolved_transactions_have_one_outcome,
};
use std::alloc::Global;
use std::process::Abort;
use std::snapshot::Snapshot;
use std::sync::Wait;
use xa_crew::Turns;
use xa_desk::{Desk, Idle};
use xa_driver::{Branch, Ending, Outcome, Resolved, may_resolve, resolve};
use xa_log::{DecisionRecords, MemoryLog};
use xa_scan::Scan;
use xa_switch::laws::{
    opened_pieces_come_from_their_opening, reopened_openings_go_on_from_what_was_left,
};
use xa_switch::{Again, Plan, Settled};
use xa_words::{Code, Op};

// ---- the opening that crashes

// Shuts manager 2, if the desk hasn't learnt that it is shut.
fn shut<R: Wait>(rt: &R, desk: &mut Desk, idle: &mut Turns)
    ensures seat { seat_of_desk desk.new ≡ seat_of_desk desk.old }
    ensures shuts { ((m : ℕ) → All (λ op. op ≡ Shut) (ledger desk.old.ledgers m).sent) → (m : ℕ)
        → All (λ op. op ≡ Shut) (ledger desk.new.ledgers m).sent }
    ensures idled { map seat_of_worker idle.new ≡ map seat_of_worker idle.old }
{
    let _ = desk.call(rt, 2, &Op::Shut, idle);
}

// As it idles for the first time the second thread shuts manager 2. Then, as each time, the worker that is waited for
// does one step.
#[derive(Drop)]
struct Crash {
    second: Desk,
    workers: Turns,
    idled: bool,
}

impl Idle for Crash {
    ghost leads_by = { λ manager before after. (seat_of_desk after.second ≡ seat_of_desk before.second)
        × (map seat_of_worker after.workers ≡ map seat_of_worker before.workers)
        × (((m : ℕ) → All (λ op. op ≡ Shut) (ledger before.second.ledgers m).sent) → (m : ℕ)
        → All (λ op. op ≡ Shut) (ledger after.second.ledgers m).sent) };

    ghost leads = { λ before after. (seat_of_desk after.second ≡ seat_of_desk before.second)
        × (map seat_of_worker after.workers ≡ map seat_of_worker before.workers)
        × (((m : ℕ) → All (λ op. op ≡ Shut) (ledger before.second.ledgers m).sent) → (m : ℕ)
        → All (λ op. op ≡ Shut) (ledger after.second.ledgers m).sent) };

    ghost leads_each = { λ manager x y p. p };

    ghost leads_start = { λ x. (refl, refl, λ s. s) };

    ghost leads_chain = { λ x y z p q. (q.0 ∙ p.0, q.1 ∙ p.1, λ s. q.2 (p.2 s)) };

    fn idle<R: Wait>(&mut self, rt: &R, manager: u32) {
        if !self.idled {
            self.idled = true;
            shut(rt, &mut self.second, &mut self.workers);
        }
        self.workers.idle(rt, manager);
    }
}

// A settled opening, and the commit that its first thread made.
#[derive(Drop)]
pub(super) struct Crashed {
    pub(super) settled: Settled,
    thread: u32,
    pub(super) made: Made,
}

// The first thread works for two branches and commits them, and manager 2 is shut after its vote. Then the opening ends
// and is settled. Nobody but the first thread names a branch.
pub(super) fn commit_and_crash<R: Wait + Abort>(
    rt: &R,
    alloc: Global,
    opened: Opened,
    log: &mut MemoryLog,
    branches: &[Branch; 2],
) -> Crashed
    requires opened { ComeFromOpenings (seat_of_desk opened.first ∷ seat_of_desk opened.second ∷ [])
        (map seat_of_worker opened.workers) }
    requires fresh { (m : ℕ) → (ledger opened.second.ledgers m).sent ≡ [] }
    ensures settled { IsSettled result.settled }
    ensures made { IsCommit branches.now result.made.before.value result.made.after.value.ledgers
        result.made.log_before.value.state result.made.log_after.value.state result.made.done }
    ensures grown { HaveGrown result.made.after.value.ledgers (ledgers_of result.settled result.thread) }
    ensures own { AreLeftOrDecided result.settled result.thread branches.now
        (sent_so_far result.made.before.value.ledgers) (sent_so_far result.made.after.value.ledgers) }
    ensures few { length result.made.before.value.ledgers ≤ 8 }
    ensures log { result.made.log_after.value ≡ log.new }
{
    let Opened {
        mut first,
        second,
        mut workers,
    } = opened;
    let thread = first.thread();
    work(rt, &mut first, &branches[0], &mut workers);
    work(rt, &mut first, &branches[1], &mut workers);
    let mut idle = Crash {
        second,
        workers,
        idled: false,
    };
    let made = make(rt, alloc, &mut first, log, branches, &mut idle);
    let Crash {
        second,
        mut workers,
        idled: _,
    } = idle;
    let first_ended = end(rt, first, &mut workers);
    let second_ended = end(rt, second, &mut workers);
    let Ok(desks) = Vec::from_array(alloc, [first_ended, second_ended]) else {
        panic!(rt; "memory");
    };
    let done = run_all(rt, alloc, workers);
    let settled = settle_all(rt, alloc, desks, done);
    Crashed {
        settled,
        thread,
        made,
    }
}

// ---- the opening that recovers

// No manager was learnt to be shut.
fn are_reached(outcomes: &[Outcome]) -> bool
    ensures { IsTrue result ↔ All (λ x. x.code ≢ RmFail) outcomes.now }
{
    outcomes.iter().all(|outcome| outcome.code != Code::RmFail)
}

// A resolve that a desk made: the desk before it and after it, its scan, and what it told.
#[derive(Drop)]
pub(super) struct Ended {
    pub(super) before: Snapshot<Desk>,
    pub(super) after: Snapshot<Desk>,
    pub(super) scan: Snapshot<Scan>,
    pub(super) told: Resolved,
}

fn resolve_left<R: Wait + Abort, L: DecisionRecords>(
    rt: &R,
    alloc: Global,
    desk: &mut Desk,
    scan: &Scan,
    log: &L,
    idle: &mut Turns,
) -> Ended
    ensures trace { IsTraceOfResolve result.scan.value (L.records log.now) result.before.value.ledgers
        result.after.value.ledgers result.told.outcomes.items }
    ensures reached { All (λ x. x.code ≢ RmFail) result.told.outcomes.items }
    ensures scan { result.scan.value ≡ scan.now }
    ensures before { result.before.value ≡ desk.old }
    ensures after { result.after.value ≡ desk.new }
    ensures seat { seat_of_desk desk.new ≡ seat_of_desk desk.old }
    ensures idled { map seat_of_worker idle.new ≡ map seat_of_worker idle.old }
{
    if !may_resolve(desk, scan, log) {
        panic!(rt; "there is no room to resolve what is left");
    }
    let before = Snapshot::of(desk);
    let Ok(told) = resolve(rt, alloc, desk, scan, log, idle) else {
        panic!(rt; "memory");
    };
    if !are_reached(&told.outcomes) {
        panic!(rt; "a manager is shut");
    }
    Ended {
        before,
        after: Snapshot::of(desk),
        scan: Snapshot::of(scan),
        told,
    }
}

// A settled opening, and the resolve that its thread made.
#[derive(Drop)]
pub(super) struct Recovered {
    pub(super) settled: Settled,
    pub(super) thread: u32,
    pub(super) ended: Ended,
}

// Opens a settled opening again, for one thread, which resolves what was left; then that opening ends and is settled.
pub(super) fn recover<R: Wait + Abort, L: DecisionRecords>(
    rt: &R,
    alloc: Global,
    settled: Settled,
    again: &Again,
    log: &L,
) -> Recovered
    ensures settled { IsSettled result.settled }
    ensures continues { Continues settled result.settled }
    ensures trace { IsTraceOfResolve result.ended.scan.value (L.records log.now) result.ended.before.value.ledgers
        result.ended.after.value.ledgers result.ended.told.outcomes.items }
    ensures grown { HaveGrown result.ended.after.value.ledgers (ledgers_of result.settled result.thread) }
    ensures later { let q : ResolveCall = resolve_call result.thread result.ended.scan.value
        result.ended.before.value.ledgers result.ended.after.value.ledgers result.ended.told.outcomes.items
        (L.records log.now) in
        (t : TranName) → OnlyResolves t (with_use result.settled (resolves q)) }
    ensures of { IsOf (reopening settled again.now) result.settled }
    ensures scan { IsScanOf settled result.ended.scan.value }
    ensures reached { All (λ x. x.code ≢ RmFail) result.ended.told.outcomes.items }
{
    opened_pieces_come_from_their_opening();
    reopened_openings_go_on_from_what_was_left();
    settled.is_settled();
    let Reopened {
        mut desk,
        mut workers,
        scan,
    } = open_again(rt, alloc, settled, again);
    let thread = desk.thread();
    let ended = resolve_left(rt, alloc, &mut desk, &scan, log, &mut workers);
    let last = end(rt, desk, &mut workers);
    let Ok(desks) = Vec::from_array(alloc, [last]) else {
        panic!(rt; "memory");
    };
    let done = run_all(rt, alloc, workers);
    let settled = settle_all(rt, alloc, desks, done);
    Recovered {
        settled,
        thread,
        ended,
    }
}

// ---- both

// Both openings, of the first of which only proofs see what it was settled to.
#[derive(Drop)]
struct Story {
    first: Snapshot<Settled>,
    thread: u32,
    made: Made,
    last: Recovered,
    log: Snapshot<MemoryLog>,
}

// What a crash leaves in doubt is resolved. Every premise of the laws is met; so the transaction has one outcome, and
// its additions count where it was committed: all of them or none.
fn commit_and_resolve<R: Wait + Abort>(
    rt: &R,
    alloc: Global,
    opened: Opened,
    again: &Again,
    branches: &[Branch; 2],
) -> Story
    requires opened { ComeFromOpenings (seat_of_desk opened.first ∷ seat_of_desk opened.second ∷ [])
        (map seat_of_worker opened.workers) }
    requires fresh { (m : ℕ) → (ledger opened.second.ledgers m).sent ≡ [] }
    ensures { let c : CommitCall = commit_call result.thread branches.now result.made.before.value
        result.made.after.value.ledgers result.made.log_before.value.state result.made.log_after.value.state
        result.made.done.endings.items in
        let q : ResolveCall = resolve_call result.last.thread result.last.ended.scan.value
        result.last.ended.before.value.ledgers result.last.ended.after.value.ledgers
        result.last.ended.told.outcomes.items result.log.value.state.records in
        let o : Opening = with_use result.first.value (commits c) in
        let last : Opening = with_use result.last.settled (resolves q) in
        IsResolved o [] last c q × IsAllOrNone c result.made.done o (last ∷ [])
        × CountsOver c result.made.done o (last ∷ []) × CountsAllOrNone c result.made.done o (last ∷ []) }
{
    finished_commits_are_cut_after_all();
    next_openings_resolve();
    resolved_transactions_have_one_outcome();
    resolved_transactions_count_where_committed();
    let mut log = MemoryLog::new(alloc);
    let Crashed {
        settled,
        thread,
        made,
    } = commit_and_crash(rt, alloc, opened, &mut log, branches);
    let first = Snapshot::of(&settled);
    let last = recover(rt, alloc, settled, again, &log);
    Story {
        first,
        thread,
        made,
        last,
        log: Snapshot::of(&log),
    }
}

// ---- an opening between

// Opens a settled opening again, for one thread, which sends nothing; then that opening ends and is settled.
fn pass<R: Wait + Abort>(rt: &R, alloc: Global, settled: Settled, again: &Again) -> Settled
    ensures settled { IsSettled result }
    ensures continues { Continues settled result }
    ensures silent { (t : TranName) → OnlyResolves t (record { settled = result; uses = [] }) }
{
    opened_pieces_come_from_their_opening();
    reopened_openings_go_on_from_what_was_left();
    settled.is_settled();
    let Reopened {
        desk,
        mut workers,
        scan: _,
    } = open_again(rt, alloc, settled, again);
    let last = end(rt, desk, &mut workers);
    let Ok(desks) = Vec::from_array(alloc, [last]) else {
        panic!(rt; "memory");
    };
    let done = run_all(rt, alloc, workers);
    settle_all(rt, alloc, desks, done)
}

// The same story with an opening between, of which only proofs see what it was settled to.
#[derive(Drop)]
struct LongStory {
    first: Snapshot<Settled>,
    thread: u32,
    made: Made,
    between: Snapshot<Settled>,
    last: Recovered,
    log: Snapshot<MemoryLog>,
}

// What a crash leaves in doubt stays so over an opening, and is resolved in the next one: the same holds.
fn commit_and_resolve_later<R: Wait + Abort>(
    rt: &R,
    alloc: Global,
    opened: Opened,
    between: &Again,
    again: &Again,
    branches: &[Branch; 2],
) -> LongStory
    requires opened { ComeFromOpenings (seat_of_desk opened.first ∷ seat_of_desk opened.second ∷ [])
        (map seat_of_worker opened.workers) }
    requires fresh { (m : ℕ) → (ledger opened.second.ledgers m).sent ≡ [] }
    ensures { let c : CommitCall = commit_call result.thread branches.now result.made.before.value
        result.made.after.value.ledgers result.made.log_before.value.state result.made.log_after.value.state
        result.made.done.endings.items in
        let q : ResolveCall = resolve_call result.last.thread result.last.ended.scan.value
        result.last.ended.before.value.ledgers result.last.ended.after.value.ledgers
        result.last.ended.told.outcomes.items result.log.value.state.records in
        let o : Opening = with_use result.first.value (commits c) in
        let between : Opening = record { settled = result.between.value; uses = [] } in
        let last : Opening = with_use result.last.settled (resolves q) in
        IsResolved o (between ∷ []) last c q × IsAllOrNone c result.made.done o (between ∷ last ∷ [])
        × CountsOver c result.made.done o (between ∷ last ∷ [])
        × CountsAllOrNone c result.made.done o (between ∷ last ∷ []) }
{
    finished_commits_are_cut_after_all();
    resolved_transactions_have_one_outcome();
    resolved_transactions_count_where_committed();
    let mut log = MemoryLog::new(alloc);
    let Crashed {
        settled,
        thread,
        made,
    } = commit_and_crash(rt, alloc, opened, &mut log, branches);
    let first = Snapshot::of(&settled);
    let passed = pass(rt, alloc, settled, between);
    let between = Snapshot::of(&passed);
    let last = recover(rt, alloc, passed, again, &log);
    LongStory {
        first,
        thread,
        made,
        between,
        last,
        log: Snapshot::of(&log),
    }
}

// The plan of the first opening, and the numbers of one that is opened again.
fn first_plan(rt: &impl Abort, alloc: Global) -> Plan {
    Plan {
        queue: 4,
        ..plan_of(rt, alloc, 2)
    }
}

// The second branch was in doubt, and was committed in the last opening.
fn tells(rt: &impl Abort, made: &Made, last: &Recovered) {
    let endings = [Ending::Committed, Ending::InDoubt];
    assert!(rt; made.done.endings.as_slice() == endings.as_slice());
    let outcome = Outcome {
        m: 2,
        xid: branch(rt, 2).xid,
        commit: true,
        code: Code::Done,
    };
    assert!(rt; last.ended.told.outcomes.as_slice() == [outcome].as_slice());
    assert!(rt; last.settled.value(1, &key(rt)) == Some(6));
    assert!(rt; last.settled.value(2, &key(rt)) == Some(6));
}

#[test]
fn what_a_crash_leaves_in_doubt_is_committed_by_the_log(rt: HostRuntime) {
    let alloc = rt.alloc();
    let branches = [branch(&rt, 1), branch(&rt, 2)];
    let opened = open(&rt, alloc, &first_plan(&rt, alloc));
    let story = commit_and_resolve(&rt, alloc, opened, &again(8), &branches);
    tells(&rt, &story.made, &story.last);
}

#[test]
fn what_is_in_doubt_stays_so_until_it_is_resolved(rt: HostRuntime) {
    let alloc = rt.alloc();
    let branches = [branch(&rt, 1), branch(&rt, 2)];
    let opened = open(&rt, alloc, &first_plan(&rt, alloc));
    let story = commit_and_resolve_later(&rt, alloc, opened, &again(8), &again(9), &branches);
    tells(&rt, &story.made, &story.last);
}
