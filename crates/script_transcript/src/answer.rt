//! What the lines of a transcript tell.
use xa_driver::{CommitOutcome, Outcome};
use xa_words::Xid;
use xa_worker::WorkerStep;

/// What a thread's task answered.
#[derive(Debug, Drop)]
pub enum Answer {
    /// A call answered a code or a handle: `C`.
    Called(i32),
    /// An xa_complete answered XA_OK: `0 handle H retval R`.
    Completed { handle: i32, retval: i32 },
    /// An xa_recover listed these branches: `N`, and their xids.
    Recovered(Vec<Xid>),
    /// What was asked for may not be done, and nothing was: the branches may not be committed, or there is no room to
    /// resolve what is left: `refused`.
    Refused,
    /// What a commit of several branches came to. Once all were told, what became of each: `commit logged E ..`,
    /// `commit unlogged E ..` or `abort unlogged E ..`. Where nobody knows whether the log has the record:
    /// `undecided`, and `vote:C` for each branch, in their order. Where the coordinator died: `died`, and `vote:C` for
    /// each vote that it had; once it was decided `died commit logged vote:C ..`, `died commit unlogged vote:C ..` or
    /// `died abort unlogged vote:C ..`; and once all branches were told what became of each after `died`.
    Commit(CommitOutcome),
    /// What became of the branches that the reopening found left: `resolved`, and `M:G.B:commit:C` or
    /// `M:G.B:rollback:C` for each.
    Resolved(Vec<Outcome>),
}

/// A line of a transcript before the values. Lines and threads count from 1, and handles do.
#[derive(Debug, Drop)]
pub enum TranscriptLine {
    /// What a thread's task on this line answered: `L T`, and the answer.
    Answered {
        line: u32,
        thread: u32,
        answer: Answer,
    },
    /// What a manager's worker did in its turn: `L turn S`.
    Turned {
        line: u32,
        step: WorkerStep,
    },
    /// An operation that was outstanding after the thread's last line: `end T handle H retval R`.
    Ended {
        thread: u32,
        handle: u32,
        retval: i32,
    },
    /// The opening before this line was settled and opened again: `L reopened`.
    Reopened {
        line: u32,
    },
}
