//! A unit of work, from its first request to its decision.
ghost use Rattle.std.specs.Prelude.{◌≡◌, ◌-◌, ◌↔◌, ◌≤◌, true, IfOk, IsTrue, None, OnErr, Some, length};
ghost use Rattle.xa_desk.specs.GoingOn.{GoesOn};
ghost use Rattle.xa_desk.specs.Kept.{AllKept};
ghost use Rattle.xa_driver.specs.Trace.{has_branch_at};
ghost use Rattle.xa_work.specs.Sent.{HaveSent, NamesOnly};
ghost use Rattle.xa_work.specs.Units.{AreFew, HaveRoomToWork, IsGivenUp, LeavesKnown, MayBegin};
ghost use Rattle.std.specs.List.{list_all};
ghost use Rattle.xa_desk.specs.DeskViews.{outstanding};
ghost use Rattle.xa_work.specs.Requests.{carries_async};
ghost use Rattle.xa_work.specs.Units.{IfLost, LosesRecord, Transacts, has_died, is_last, decided_to_commit};
ghost use Rattle.xa_work.specs.Works.{Tries, are_placed};

use crate::giving_up::give_up;
use crate::in_flight::{count_steps, steps_at, work_in_flight};
use crate::in_turn::work_in_turn;
use std::alloc::{AllocError, Global};
use std::sync::Wait;
use xa_base::MOST_REQUESTS;
use xa_crew::laws::idles_go_on;
use xa_desk::laws::desks_go_on;
use xa_desk::{Desk, Idle};
use xa_driver::{Branch, CommitOutcome, commit, may_commit};
use xa_log::DecisionLog;
use xa_words::{Death, Delta, Key};

/// A change of a value at a manager.
#[derive(Clone, Copy, Debug, PartialEq, Eq)]
pub struct Change {
    /// The manager, from 1.
    pub m: u32,
    /// The key whose value is changed.
    pub key: Key,
    /// What is added to it.
    pub delta: Delta,
}

/// Why no Commit was sent for a unit of work.
#[derive(Clone, Copy, Debug, PartialEq, Eq)]
pub enum Refusal {
    /// It may not begin, as `may_begin` tells, and nothing was sent: also where the log isn't known, or has a record of
    /// the transaction.
    NotBegun,
    /// Its work was tried, and not all of it answered XA_OK, or the branches might not be committed then: all were
    /// given up, by a failed end and a rollback at each manager. A branch whose rollback was answered XA_OK is gone,
    /// and another unit of work may have its name.
    GivenUp,
}

/// What became of a unit of work.
#[derive(Debug, Drop)]
pub enum WorkOutcome {
    /// All of its work answered XA_OK, and the commit of its branches came to this.
    Commit(CommitOutcome),
    /// No Commit was sent.
    Refused(Refusal),
}

impl WorkOutcome {
    /// Whether it was decided to commit.
    pub fn is_to_commit(&self) -> bool
        ensures { result ≡ decided_to_commit self.now }
    {
        match self {
            WorkOutcome::Commit(outcome) => outcome.is_to_commit(),
            WorkOutcome::Refused(_) => false,
        }
    }

    /// Whether the coordinator died with it.
    pub fn has_died(&self) -> bool
        ensures { result ≡ has_died self.now }
    {
        match self {
            WorkOutcome::Commit(outcome) => outcome.has_died(),
            WorkOutcome::Refused(_) => false,
        }
    }

    /// Whether no unit of work is to follow it with this log: the coordinator died with it, or the log has lost the
    /// record.
    pub fn is_last(&self) -> bool
        ensures { result ≡ is_last self.now }
    {
        match self {
            WorkOutcome::Commit(outcome) => outcome.is_last(),
            WorkOutcome::Refused(_) => false,
        }
    }
}

// Whether there is a branch at the manager.
fn has_branch_at(branches: &[Branch], manager: u32) -> bool
    ensures { result ≡ has_branch_at branches.now manager }
{
    branches.iter().any(|branch| branch.m == manager)
}

// Whether each change is at a branch's manager.
fn are_placed(branches: &[Branch], changes: &[Change]) -> bool
    ensures { result ≡ are_placed branches.now changes.now }
{
    changes
        .iter()
        .all(|change| has_branch_at(branches, change.m))
}

// The requests at each manager that come after the work: three to commit, or two to give up.
const AFTERWARDS: usize = 3;

// Whether the plan has room at each manager for the work and for what comes after it.
fn have_room(desk: &Desk, branches: &[Branch], changes: &[Change]) -> bool
    requires { length changes.now ≤ MOST_REQUESTS }
    ensures { IsTrue result ↔ HaveRoomToWork desk.now.ledgers changes.now branches.now }
{
    for branch in branches {
        if (desk.room(branch.m) as usize) < steps_at(changes, branch.m) + AFTERWARDS {
            return false;
        }
    }
    true
}

/// Whether a unit of work may begin: its branches may be committed (`may_commit`), there are at most 4,096 changes,
/// each at the manager of a branch, and the plan has room at each manager for the work and for what comes after it:
/// five requests, and one for each change there.
pub fn may_begin<L: DecisionLog>(
    desk: &Desk,
    log: &L,
    branches: &[Branch],
    changes: &[Change],
) -> bool
    ensures { IsTrue result
        ↔ (MayBegin desk.now (L.state log.now) branches.now changes.now × L.knows log.now) }
{
    if changes.len() > MOST_REQUESTS {
        return false;
    }
    if !may_commit(desk, log, branches) {
        return false;
    }
    if !are_placed(branches, changes) {
        return false;
    }
    have_room(desk, branches, changes)
}

// Whether each branch's manager takes asynchronous calls.
fn all_carry(desk: &Desk, branches: &[Branch]) -> bool
    ensures { result ≡ list_all (λ b. carries_async desk.now b.m) branches.now }
{
    branches.iter().all(|branch| desk.carries_async(branch.m))
}

// Whether there is a handle for each request of the work, and all managers take asynchronous calls.
fn can_fly(desk: &Desk, branches: &[Branch], steps: usize) -> bool
    ensures handles { result ≡ true → steps ≤ desk.now.handles - outstanding desk.now.ledgers }
    ensures carry { result ≡ true → list_all (λ b. carries_async desk.now b.m) branches.now ≡ true }
{
    steps <= desk.free() as usize && all_carry(desk, branches)
}

// Does the work of the branches, in flight where that can be. It tells whether all requests answered XA_OK.
fn work<R: Wait, I: Idle>(
    rt: &R,
    alloc: Global,
    desk: &mut Desk,
    branches: &[Branch],
    changes: &[Change],
    idle: &mut I,
) -> bool
    requires { AreFew branches.now changes.now }
    ensures goes_on { GoesOn desk.old desk.new }
    ensures kept { AllKept desk.old → AllKept desk.new }
    ensures idled { I.leads idle.old idle.new }
    ensures tries { Tries changes.now branches.now result desk.old desk.new }
{
    let steps = count_steps(branches, changes);
    if can_fly(desk, branches, steps) {
        // Where memory is refused for the handles, the calls take none.
        if let Ok(flights) = Vec::with_capacity(alloc, steps) {
            return work_in_flight(rt, desk, branches, changes, flights, idle);
        }
    }
    work_in_turn(rt, desk, branches, changes, idle)
}

/// Does a unit of work: starts each branch, makes the changes at its manager in their order, and ends it; then commits
/// all branches.
///
/// The branches are those of one global transaction, by rising manager, and the thread has opened their managers. The
/// transaction has a name of its own: another may have it only where this one was refused. The requests of the work are
/// in flight together, where there are handles for all of them and each manager takes asynchronous calls; else they are
/// called one after the other, up to the first branch whose work isn't all answered XA_OK. A full queue is idled on and
/// tried again.
///
/// What is asked for is tested first, and refused (`NotBegun`) with nothing sent. Where the work isn't all done, every
/// branch is given up (`GivenUp`). Memory is taken for the handles of the work, and for the votes and the endings:
/// where it is refused for the handles the work is done in turn, and where it is refused for the commit every branch is
/// given up as well, and `transact` fails.
pub fn transact<R: Wait, L: DecisionLog, I: Idle>(
    rt: &R,
    alloc: Global,
    desk: &mut Desk,
    log: &mut L,
    branches: &[Branch],
    changes: &[Change],
    idle: &mut I,
) -> Result<WorkOutcome, AllocError>
    ensures goes_on { GoesOn desk.old desk.new }
    ensures kept { AllKept desk.old → AllKept desk.new }
    ensures idled { I.leads idle.old idle.new }

    // Nothing that was sent names another branch.
    ensures named { HaveSent (NamesOnly branches.now) desk.old.ledgers desk.new.ledgers }

    // What was done, and what it came to.
    ensures transacts { IfOk result (λ o. Transacts branches.now changes.now None o desk.old desk.new
        (L.state log.old) (L.knows log.old) (L.state log.new)) }

    // The log is known afterwards, unless it has lost the record: then it has that or hasn't, and else what it had.
    ensures known { IfOk result (λ o. L.knows log.old → LeavesKnown (L.knows log.new) o) }
    ensures lost { IfOk result (IfLost (LosesRecord L.loses branches.now log.old log.new)) }

    // Where memory was wanted, all of the work answered XA_OK, and it was given up.
    ensures wants { OnErr result (IsGivenUp branches.now changes.now desk.old desk.new (L.state log.old)) }
    ensures unlogged { OnErr result (log.new ≡ log.old) }
{
    transact_until(rt, alloc, desk, log, branches, changes, None, idle)
}

/// The same by a coordinator that dies at this point of the commit, if at any. Where it comes to no commit it lives on.
pub fn transact_until<R: Wait, L: DecisionLog, I: Idle>(
    rt: &R,
    alloc: Global,
    desk: &mut Desk,
    log: &mut L,
    branches: &[Branch],
    changes: &[Change],
    death: Option<Death>,
    idle: &mut I,
) -> Result<WorkOutcome, AllocError>
    ensures goes_on { GoesOn desk.old desk.new }
    ensures kept { AllKept desk.old → AllKept desk.new }
    ensures idled { I.leads idle.old idle.new }
    ensures named { HaveSent (NamesOnly branches.now) desk.old.ledgers desk.new.ledgers }
    ensures transacts { IfOk result (λ o. Transacts branches.now changes.now death o desk.old desk.new
        (L.state log.old) (L.knows log.old) (L.state log.new)) }
    ensures known { IfOk result (λ o. L.knows log.old → LeavesKnown (L.knows log.new) o) }
    ensures lost { IfOk result (IfLost (LosesRecord L.loses branches.now log.old log.new)) }
    ensures wants { OnErr result (IsGivenUp branches.now changes.now desk.old desk.new (L.state log.old)) }
    ensures unlogged { OnErr result (log.new ≡ log.old) }
{
    desks_go_on();
    idles_go_on::<I>();
    if !may_begin(desk, log, branches, changes) {
        return Ok(WorkOutcome::Refused(Refusal::NotBegun));
    }
    let worked = work(rt, alloc, desk, branches, changes, idle);
    if !worked || !may_commit(desk, log, branches) {
        give_up(rt, desk, branches, idle);
        return Ok(WorkOutcome::Refused(Refusal::GivenUp));
    }
    let Ok(outcome) = commit(rt, alloc, desk, log, branches, death, idle) else {
        give_up(rt, desk, branches, idle);
        return Err(AllocError);
    };
    Ok(WorkOutcome::Commit(outcome))
}
