//! A commit of several branches by a line of a script.
ghost use Rattle.std.specs.Prelude.{◌≡◌, IfOk, OnErr};
ghost use Rattle.xa_desk.specs.GoingOn.{GoesOn};
ghost use Rattle.xa_desk.specs.Kept.{AllKept};
ghost use Rattle.script_session.specs.Committing.{branch_of_commit, branches_of, CanCommit, CommitsAll};
ghost use Rattle.xa_scan.specs.Left.{ScanView};
ghost use Rattle.script_session.specs.Sessions.{session_of};

use itoa::Buffer;
use script_grammar::{CommitAll, Gtrid};
use script_transcript::Answer;
use std::alloc::{AllocError, Global};
use std::sync::Wait;
use xa_base::MOST_MANAGERS;
use xa_desk::laws::desks_go_on;
use xa_desk::{Desk, Idle};
use xa_driver::{Branch, commit, may_commit};
use xa_log::{MemoryLog, TrialLog};
use xa_words::Xid;

// The branch `G.M` at a manager.
fn branch_at(asked: &CommitAll<Gtrid>, m: u32) -> Branch
    ensures { result ≡ branch_of_commit asked.now m }
{
    match Xid::new(1, asked.tran.bytes(), Buffer::new().format(m).as_bytes()) {
        Ok(xid) => Branch { m, xid },
        // A gtrid has 1 to 64 bytes, and a number has few digits.
        Err(_) => unreachable!(),
    }
}

// The branches of a commit, by rising manager.
fn branches_of(alloc: Global, asked: &CommitAll<Gtrid>) -> Result<Vec<Branch>, AllocError>
    ensures { IfOk result (λ v. v.items ≡ branches_of asked.now) }
{
    let mut branches = Vec::with_capacity(alloc, MOST_MANAGERS)?;
    for manager in asked.managers.iter() {
        branches.push_reserved(branch_at(asked, manager));
    }
    Ok(branches)
}

/// Commits the branches, where that may be done, or dies as it commits them. It fails only for want of memory, and then
/// nothing is done.
pub(crate) fn commit_asked<R: Wait, I: Idle>(
    rt: &R,
    alloc: Global,
    desk: &mut Desk,
    log: &mut TrialLog<MemoryLog>,
    asked: &CommitAll<Gtrid>,
    idle: &mut I,
) -> Result<Answer, AllocError>
    ensures commits { IfOk result (λ a. (z : ScanView) → CommitsAll asked.now (session_of desk.old log.old z)
        (session_of desk.new log.new z) a) }
    ensures goes_on { GoesOn desk.old desk.new }
    ensures kept { AllKept desk.old → AllKept desk.new }
    ensures unsent { OnErr result (desk.new ≡ desk.old) }
    ensures unlogged { OnErr result (log.new ≡ log.old) }
    ensures idled { I.leads idle.old idle.new }
    ensures prompt { (z : ScanView) → ¬ CanCommit asked.now (session_of desk.old log.old z) → idle.new ≡ idle.old }
{
    desks_go_on();
    let branches = branches_of(alloc, asked)?;
    if !may_commit(desk, log, &branches) {
        return Ok(Answer::Refused);
    }
    let outcome = commit(rt, alloc, desk, log, &branches, asked.death, idle)?;
    Ok(Answer::Commit(outcome))
}
