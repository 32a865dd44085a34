//! When branches may be committed.
ghost use Rattle.std.specs.Prelude.{◌≡◌, ◌↔◌, IsTrue, length};
ghost use Rattle.xa_words.specs.Tran.{TranName, tran_of};
ghost use Rattle.xa_driver.specs.Trace.{AreBranchesRising, HaveRoom, IsTranOf, MayCommit, MayPrepare};

use crate::branch::Branch;
use xa_base::MOST_MANAGERS;
use xa_desk::Desk;
use xa_log::DecisionLog;
use xa_words::Tran;

fn are_rising(branches: &[Branch]) -> bool
    ensures { IsTrue result ↔ AreBranchesRising 0 branches.now }
{
    let mut last = 0;
    for branch in branches {
        if branch.m <= last {
            return false;
        }
        last = branch.m;
    }
    true
}

fn have_room(desk: &Desk, branches: &[Branch]) -> bool
    ensures { IsTrue result ↔ HaveRoom desk.now.ledgers branches.now }
{
    for branch in branches {
        if desk.room(branch.m) < 3 {
            return false;
        }
    }
    true
}

fn is_of(branch: &Branch, tran: &Tran) -> bool
    ensures { IsTrue result ↔ (tran_of branch.now.xid ≡ tran.now) }
{
    branch.xid.tran() == *tran
}

fn is_tran_of(branches: &[Branch], tran: Tran) -> bool
    ensures { IsTrue result ↔ IsTranOf branches.now tran }
{
    for branch in branches {
        if !is_of(branch, &tran) {
            return false;
        }
    }
    true
}

/// Whether the branches may be asked to prepare: 1 to 8 branches of one global transaction, at known managers in rising
/// order, a free handle for each, and room for three requests to each manager.
pub fn may_prepare(desk: &Desk, branches: &[Branch]) -> bool
    ensures { IsTrue result ↔ MayPrepare desk.now branches.now }
{
    if branches.is_empty() || branches.len() > MOST_MANAGERS {
        return false;
    }
    if !are_rising(branches) {
        return false;
    }
    if !have_room(desk, branches) {
        return false;
    }
    if (desk.free() as usize) < branches.len() {
        return false;
    }
    is_tran_of(branches, branches[0].xid.tran())
}

/// Whether `commit` may be called: the branches may be asked to prepare, and the log is known to have no record yet.
#[tactic(auto, using(crate::proofs::Calls::no_record, crate::proofs::Calls::may_record))]
pub fn may_commit<L: DecisionLog>(desk: &Desk, log: &L, branches: &[Branch]) -> bool
    ensures { IsTrue result ↔ (MayCommit desk.now (L.state log.now) branches.now × L.knows log.now) }
{
    if !may_prepare(desk, branches) {
        return false;
    }
    log.is_known() && log.has(&branches[0].xid.tran()).is_none()
}
