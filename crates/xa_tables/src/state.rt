//! What the tables hold of a branch and of a thread.
ghost use Rattle.std.specs.Prelude.{◌≡◌, Some};
ghost use Rattle.xa_tables.specs.Reasons.{reason_code, decision_code};
ghost use Rattle.xa_tables.specs.ManagerTables.{is_S3, is_suspended_state, is_left_in};
ghost use Rattle.xa_tables.specs.Steps.{decided, may_prepare};

use xa_words::{Code, Xid};

/// The state of a branch that exists (C193, table 6-4).
#[derive(Clone, Copy, Debug, PartialEq, Eq)]
pub enum State {
    /// S1: somebody is associated with it.
    Active,
    /// S2: its work has ended.
    Idle,
    /// S3: it awaits the outcome.
    Prepared,
    /// S4: it can only be rolled back.
    RollbackOnly(RollbackReason),
    /// S5: it was decided heuristically, and is to be forgotten.
    HeuristicallyCompleted(HeuristicDecision),
}

impl State {
    /// Whether a branch in this state is left where an opening ends.
    pub(crate) fn is_left(&self) -> bool
        ensures { result ≡ is_left_in (Some self.now) }
    {
        matches!(self, State::Prepared | State::HeuristicallyCompleted(_))
    }

    /// Whether a branch in this state is prepared.
    #[inline(always)]
    pub(crate) fn is_prepared(&self) -> bool
        ensures { result ≡ is_S3 (Some self.now) }
    {
        matches!(self, State::Prepared)
    }

    /// Whether a branch in this state may be prepared.
    #[inline(always)]
    pub(crate) fn may_prepare(&self) -> bool
        ensures { result ≡ may_prepare self.now }
    {
        matches!(self, State::Active | State::Idle)
    }
}

/// Why a branch can only be rolled back.
#[derive(Clone, Copy, Debug, PartialEq, Eq)]
pub enum RollbackReason {
    /// A thread ended its work on the branch with TMFAIL: XA_RBROLLBACK.
    Failed,
    /// It needed a key that another branch had touched: XA_RBTRANSIENT.
    Transient,
}

impl RollbackReason {
    /// The code that tells it.
    pub fn code(self) -> Code
        ensures { result ≡ reason_code self }
    {
        match self {
            RollbackReason::Failed => Code::RbRollback,
            RollbackReason::Transient => Code::RbTransient,
        }
    }
}

/// What was decided on a prepared branch, and not by its transaction manager.
#[derive(Clone, Copy, Debug, PartialEq, Eq)]
pub enum HeuristicDecision {
    /// It was committed: XA_HEURCOM.
    Commit,
    /// It was rolled back: XA_HEURRB.
    Rollback,
}

impl HeuristicDecision {
    /// The decision that commits, or doesn't.
    #[inline(always)]
    pub(crate) fn of(commits: bool) -> HeuristicDecision
        ensures { result ≡ decided commits }
    {
        if commits {
            HeuristicDecision::Commit
        } else {
            HeuristicDecision::Rollback
        }
    }

    /// The code that tells it.
    pub fn code(self) -> Code
        ensures { result ≡ decision_code self }
    {
        match self {
            HeuristicDecision::Commit => Code::HeurCom,
            HeuristicDecision::Rollback => Code::HeurRb,
        }
    }
}

/// How a thread is associated with a branch (C193, table 6-2).
#[derive(Clone, Copy, Debug, PartialEq, Eq)]
pub enum AssociationState {
    /// T1: it works for the branch.
    Associated,
    /// T2: it may resume its work.
    Suspended,
}

impl AssociationState {
    /// Whether the thread may resume its work.
    pub(crate) fn is_suspended(self) -> bool
        ensures { result ≡ is_suspended_state self }
    {
        match self {
            AssociationState::Associated => false,
            AssociationState::Suspended => true,
        }
    }
}

/// A thread's association with a branch.
#[derive(Clone, Copy, Debug, PartialEq, Eq)]
pub struct Association {
    pub xid: Xid,
    pub state: AssociationState,
}
