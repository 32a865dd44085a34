//! A worker for a decision log that many coordinators share: their records go to the log in groups.
//!
//! A `LogWorker` owns the log. Each coordinator has a `LogClient`, by which it asks the worker to append a record and
//! waits for the answer, or to forget one, for which it doesn't wait.
#![tactic(auto)]

mod ask;
mod book;
mod client;
mod ends;
mod group;
mod opening;
mod sending;
mod worker;

pub use ask::{Answered, AppendAnswer, Deed, LogRequest};
pub use client::{EndedClient, LogClient};
pub use ends::LogEnds;
pub use opening::{LogWorkerFault, open_log_worker};
pub use worker::{LogWorker, LogWorkerStep};
