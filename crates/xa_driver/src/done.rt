//! What became of a global transaction, and what was known of it where its coordinator died.
ghost use Rattle.std.specs.Prelude.{◌≡◌};
ghost use Rattle.xa_driver.specs.Outcomes.{comes_to_commit, comes_to_death, ends_the_log, knows_commit};

use xa_words::{Code, Death};

/// What became of a branch.
#[derive(Clone, Copy, Debug, PartialEq, Eq)]
pub enum Ending {
    /// It was committed.
    Committed,
    /// It only read, and was gone once it had voted.
    ReadOnly,
    /// It was rolled back.
    RolledBack,
    /// It voted yes, and its manager was shut before it heard the decision.
    InDoubt,
    /// It was decided heuristically: its second request was answered `XA_HEURCOM`, `XA_HEURRB`, `XA_HEURMIX` or
    /// `XA_HEURHAZ`. After the first two the manager was told to forget it.
    Heuristic(Code),
    /// The branch may still be there: the manager answered this code.
    Left(Code),
}

/// What became of a global transaction.
#[derive(Debug, Drop)]
pub struct Done {
    /// The decision.
    pub commit: bool,
    /// Whether the log took a record of it.
    pub logged: bool,
    /// The code of each branch's Prepare, in the order of the branches.
    pub votes: Vec<Code>,
    /// What became of each branch, in the same order.
    pub endings: Vec<Ending>,
}

/// A decision of a coordinator, by the votes.
#[derive(Clone, Copy, Debug, PartialEq, Eq)]
pub struct Decision {
    /// Whether to commit.
    pub commit: bool,
    /// Whether the log took a record of it.
    pub logged: bool,
}

/// What a coordinator knew of a commit as it died.
#[derive(Debug, Drop)]
pub enum LastKnown {
    /// Nothing was decided. The votes that it had collected, in the order of the branches.
    Votes(Vec<Code>),
    /// The votes of all branches, and the decision. No ending was known.
    Decided {
        decision: Decision,
        votes: Vec<Code>,
    },
    /// All branches were told, and their endings are known.
    Told(Done),
}

impl LastKnown {
    /// Whether it was decided to commit.
    pub fn is_to_commit(&self) -> bool
        ensures { result ≡ knows_commit self.now }
    {
        match self {
            LastKnown::Votes(_) => false,
            LastKnown::Decided { decision, .. } => decision.commit,
            LastKnown::Told(done) => done.commit,
        }
    }
}

/// What a commit came to.
#[derive(Debug, Drop)]
pub enum CommitOutcome {
    /// It was decided, and all branches were told.
    Decided(Done),
    /// Nobody knows whether the log has the record of the decision, so no branch was told any: each one that voted yes
    /// is in doubt, until what the log has once it is opened again resolves it. With the votes, in the order of the
    /// branches.
    Undecided(Vec<Code>),
    /// The coordinator died at this point, when this was known. Requests may be outstanding: they are collected as the
    /// desk ends.
    Died { at: Death, known: LastKnown },
}

impl CommitOutcome {
    /// Whether it was decided to commit.
    pub fn is_to_commit(&self) -> bool
        ensures { result ≡ comes_to_commit self.now }
    {
        match self {
            CommitOutcome::Decided(done) => done.commit,
            CommitOutcome::Undecided(_) => false,
            CommitOutcome::Died { known, .. } => known.is_to_commit(),
        }
    }

    /// Whether the coordinator died with it.
    pub fn has_died(&self) -> bool
        ensures { result ≡ comes_to_death self.now }
    {
        matches!(self, CommitOutcome::Died { .. })
    }

    /// Whether no commit is to follow it with this log: the coordinator died with it, or the log has lost the record.
    pub fn is_last(&self) -> bool
        ensures { result ≡ ends_the_log self.now }
    {
        !matches!(self, CommitOutcome::Decided(_))
    }
}
