//! One manager's worker: it takes the requests from the manager's lane, one after another, enters each
//! with its code in its journal, and sends the completions to the threads that asked.
//!
//! A `Worker` is put together of parts that were reserved before, goes a `WorkerStep` at a time or by `run`,
//! and comes out of `run` as a `DoneWorker`.
#![tactic(auto)]

mod carry;
mod done;
mod outbox;
mod pace;
mod parts;
mod step;
mod worker;

pub use done::{DoneWorker, WorkerEnds};
pub use pace::{Free, Pace};
pub use parts::WorkerParts;
pub use step::WorkerStep;
pub use worker::Worker;
