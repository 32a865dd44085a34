//! What a worker that has run gives back.

use crate::ask::{AppendAnswer, Deed, LogRequest};
use http_server::Log;
use xa_lane::{Ended, Receiver};

/// The log of a worker that has run, and the ends of its lanes.
#[derive(Drop)]
pub struct LogEnds<L> {
    pub log: L,
    /// Whether the log is known.
    pub is_known: bool,
    pub asks: Receiver<LogRequest>,
    /// By rising number of coordinator.
    pub answers: Vec<Ended<AppendAnswer>>,
    // What was done, oldest first. It has no bytes: only proofs read it.
    pub(crate) deeds: Log<Deed, ()>,
}
