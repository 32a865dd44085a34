//! What goes between coordinators and the worker of their log.

use xa_log::CommitRecord;
use xa_words::Tran;

/// What a coordinator asks of the worker.
#[derive(Clone, Copy, Debug)]
pub enum LogRequest {
    /// To append a record, which is answered.
    Append(CommitRecord),
    /// To forget the record of a transaction, which isn't.
    Forget(Tran),
}

/// What the worker answers where it was asked to append a record.
#[derive(Clone, Copy, Debug, PartialEq, Eq)]
pub enum AppendAnswer {
    /// The log has the record.
    Taken,
    /// The record isn't there, and no crash brings it.
    Refused,
    /// The record may be there, or not.
    Unknown,
}

/// A record, the number of the coordinator that asked for it, from 0, and the answer.
#[derive(Clone, Copy, Debug)]
pub struct Answered {
    pub from: usize,
    pub decision: CommitRecord,
    pub answer: AppendAnswer,
}

/// What the worker does.
#[derive(Clone, Copy, Debug)]
pub enum Deed {
    /// It answers a record.
    Answers(Answered),
    /// It is asked by a coordinator to forget a record, and does so while the log is known.
    Forgets(usize, Tran),
    /// The log refuses several records together, so that each is tried alone.
    IsRefused,
}
