//! A log that forgets: when the record of a commit may go, so that a log has those of commits in flight and in doubt
//! alone.
//!
//! A coordinator that never calls these keeps every record, as `commit` and `resolve` leave them.
ghost use Rattle.std.specs.Prelude.{◌≡◌, ◌++◌, ◌+◌, ◌≤◌, true, false, IfOk, OnErr, OnOk, length, vec_capacity};
ghost use Rattle.std.specs.List.{list_all};
ghost use Rattle.xa_words.specs.Tran.{tran_of};
ghost use Rattle.xa_log.specs.Log.{with_only, without_record};
ghost use Rattle.xa_driver.specs.Forgetful.{has_acknowledged, has_endings, is_acknowledged, unfinished};

use crate::done::{Done, Ending};
use crate::resolved::{Outcome, Resolved};
use std::alloc::{AllocError, Global};
use xa_log::DecisionLog;
use xa_words::{Code, Tran};

fn has_acknowledged(ending: Ending) -> bool
    ensures { result ≡ has_acknowledged ending }
{
    matches!(ending, Ending::Committed | Ending::ReadOnly)
}

impl Done {
    // Whether an ending is known for each vote, and there is one.
    fn has_endings(&self) -> bool
        ensures { result ≡ has_endings self.now }
    {
        !self.votes.is_empty() && self.endings.len() == self.votes.len()
    }

    // Whether each ending that is known is an acknowledgement.
    fn have_acknowledged(&self) -> bool
        ensures { result ≡ list_all has_acknowledged self.now.endings.items }
    {
        self.endings.iter().all(|ending| has_acknowledged(*ending))
    }

    /// Whether every branch was committed, or only read: no manager has anything of it, so nobody will ask for the
    /// record. It is false of a commit whose coordinator died before the endings were known.
    pub fn is_acknowledged(&self) -> bool
        ensures { result ≡ is_acknowledged self.now }
    {
        self.has_endings() && self.have_acknowledged()
    }
}

/// Forgets the record of a commit that every branch has acknowledged. Where one is in doubt, was left, was decided
/// heuristically or has no ending yet, the record stays.
pub fn forget_acknowledged<L: DecisionLog>(log: &mut L, tran: &Tran, done: &Done)
    requires { L.knows log.old }
    ensures forgotten { is_acknowledged done.now ≡ true
        → (L.state log.new ≡ without_record (L.state log.old) tran.now) × L.knows log.new
        × L.forgets log.old log.new }
    ensures kept { is_acknowledged done.now ≡ false → log.new ≡ log.old }
{
    if done.is_acknowledged() {
        log.forget(tran);
    }
}

// The transactions of the outcomes that weren't answered XA_OK.
fn unfinished(alloc: Global, outcomes: &[Outcome]) -> Result<Vec<Tran>, AllocError>
    ensures { IfOk result (λ trans. trans.items ≡ unfinished outcomes.now) }
{
    let mut trans = Vec::with_capacity(alloc, outcomes.len())?;
    for outcome in outcomes {
        if !matches!(outcome.code, Code::Done) {
            trans.push_reserved(outcome.xid.tran());
        }
    }
    Ok(trans)
}

/// Forgets what is resolved: all records but those of a transaction of which a branch wasn't answered `XA_OK`, since
/// its manager was shut, say. So also records that a crash brought back.
///
/// It is for a log whose records are all older than what was resolved: call it before the opening's first commit. Where
/// memory is refused, the log keeps all.
pub fn forget_resolved<L: DecisionLog>(
    alloc: Global,
    log: &mut L,
    resolved: &Resolved,
) -> Result<(), AllocError>
    requires { L.knows log.old }
    ensures kept { OnOk result ((L.state log.new ≡ with_only (L.state log.old) (unfinished resolved.now.outcomes.items))
        × L.knows log.new × L.forgets log.old log.new) }
    ensures unchanged { OnErr result (log.new ≡ log.old) }
{
    let trans = unfinished(alloc, &resolved.outcomes)?;
    log.keep_only(&trans);
    Ok(())
}
