//! How a worker and its coordinators are opened.
ghost use Rattle.std.specs.Prelude.{◌≡◌, ◌≤◌, [], All, map, length, true, IfOk, IfErr, vec_len, vec_capacity};
ghost use Rattle.std.specs.HashMap.{spare};
ghost use Rattle.xa_lane.specs.Ends.{new_senders};
ghost use Rattle.xa_log.specs.Log.{no_records};
ghost use Rattle.xa_log_shared.specs.Asking.{own_records};
ghost use Rattle.xa_log_shared.specs.Deeds.{IsToldBy};
ghost use Rattle.xa_base.specs.declared.limits.TheConstants.{MOST_SENDERS};

use crate::ask::{Answered, AppendAnswer, LogRequest};
use crate::book::Book;
use crate::client::LogClient;
use crate::group::Waiting;
use crate::worker::LogWorker;
use http_server::Log;
use std::alloc::{AllocError, AllocFailed, Global};
use std::collections::HashMap;
use std::sync::Wait;
use xa_base::{MOST_QUEUED, MOST_SENDERS};
use xa_lane::{Ended, LaneFault, LaneName, Receiver, Sender, open_lane};
use xa_log::{CommitRecord, GroupLog};

/// Why no worker is opened.
#[derive(Clone, Copy, Debug, PartialEq, Eq)]
pub enum LogWorkerFault {
    /// There are not 1 to 8 coordinators.
    BadCount,
    NoMemory,
}

impl From<LaneFault> for LogWorkerFault {
    fn from(fault: LaneFault) -> Self {
        match fault {
            LaneFault::BadCount => LogWorkerFault::BadCount,
            LaneFault::NoMemory => LogWorkerFault::NoMemory,
        }
    }
}

impl From<AllocError> for LogWorkerFault {
    fn from(_: AllocError) -> Self {
        LogWorkerFault::NoMemory
    }
}

impl<T: Drop> From<AllocFailed<T>> for LogWorkerFault {
    fn from(_: AllocFailed<T>) -> Self {
        LogWorkerFault::NoMemory
    }
}

/// The number of the lanes of requests.
const ASKS: u32 = 0;
/// The number of the lanes of answers.
const ANSWERS: u32 = 1;

// The lane of answers to a coordinator. At most one answer stands in it.
fn open_answers<R: Wait>(
    rt: &R,
    alloc: Global,
    index: u32,
) -> Result<(Sender<AppendAnswer>, Receiver<AppendAnswer>), LogWorkerFault>
    ensures sent { IfOk result (λ r. r.0.sent ≡ []) }
    ensures taken { IfOk result (λ r. r.1.taken ≡ []) }
    ensures line { IfOk result (λ r. r.1.line ≡ r.0.line) }
{
    let name = LaneName {
        opening: 0,
        kind: ANSWERS,
        index,
    };
    let (mut senders, receiver) = open_lane(rt, alloc, name, 1, 1)?;
    match senders.pop() {
        Some(sender) => Ok((sender, receiver)),
        None => Err(LogWorkerFault::NoMemory),
    }
}

fn new_client<R: Wait + Copy>(
    rt: R,
    alloc: Global,
    asks: Sender<LogRequest>,
    answers: Receiver<AppendAnswer>,
    room: usize,
) -> Result<LogClient<R>, LogWorkerFault>
    ensures none { IfOk result (λ c. own_records c.records ≡ no_records.records) }
    ensures known { IfOk result (λ c. c.is_known ≡ true) }
    ensures room { IfOk result (λ c. (c.room ≡ room) × (room ≤ spare c.records)) }
    ensures lanes { IfOk result (λ c. (c.asks ≡ asks) × (c.answers ≡ answers)) }
{
    let records = HashMap::with_capacity(alloc, room)?;
    Ok(LogClient {
        rt,
        asks,
        answers,
        records,
        room,
        is_known: true,
        failures: 0,
    })
}

// The memory of a worker, and its lanes.
#[derive(Drop)]
struct Parts {
    asks: Receiver<LogRequest>,
    answers: Vec<Sender<AppendAnswer>>,
    waiting: Vec<Waiting>,
    group: Vec<CommitRecord>,
    done: Vec<Answered>,
    ends: Vec<Ended<AppendAnswer>>,
}

fn open_parts<R: Wait + Copy>(
    rt: R,
    alloc: Global,
    coordinators: usize,
    room: usize,
) -> Result<(Parts, Vec<LogClient<R>>), LogWorkerFault>
    ensures lanes { IfOk result (λ r. r.0.asks.senders ≡ vec_len r.0.answers) }
    ensures few { IfOk result (λ r. vec_len r.0.answers ≤ MOST_SENDERS) }
    ensures sent { IfOk result (λ r. All (λ s. s.sent ≡ []) r.0.answers.items) }
    ensures taken { IfOk result (λ r. r.0.asks.taken ≡ []) }
    ensures count { IfOk result (λ r. length r.1.items ≡ coordinators) }
    ensures clients { IfOk result (λ r. All (λ c. (own_records c.records ≡ no_records.records) × (c.is_known ≡ true)
        × (c.room ≡ room) × (room ≤ spare c.records) × (c.answers.taken ≡ [])) r.1.items) }
    ensures asks { IfOk result (λ r. map (λ c. c.asks) r.1.items
        ≡ new_senders r.0.asks.lane r.0.asks.line r.0.asks.capacity coordinators) }
    ensures answers { IfOk result (λ r. map (λ c. c.answers.line) r.1.items ≡ map (λ s. s.line) r.0.answers.items) }
    ensures empty { IfOk result (λ r. (vec_len r.0.waiting ≡ 0) × (vec_len r.0.group ≡ 0) × (vec_len r.0.done ≡ 0)
        × (vec_len r.0.ends ≡ 0)) }
    ensures room { IfOk result (λ r. (MOST_SENDERS ≤ vec_capacity r.0.waiting) × (MOST_SENDERS ≤ vec_capacity r.0.group)
        × (MOST_SENDERS ≤ vec_capacity r.0.done) × (MOST_SENDERS ≤ vec_capacity r.0.ends)) }
{
    let name = LaneName {
        opening: 0,
        kind: ASKS,
        index: 0,
    };
    let (senders, asks) = open_lane(&rt, alloc, name, coordinators, MOST_QUEUED)?;
    let mut answers = Vec::with_capacity(alloc, MOST_SENDERS)?;
    let mut clients = Vec::with_capacity(alloc, MOST_SENDERS)?;
    let mut index = 0;
    for sender in senders {
        let (to, from) = open_answers(&rt, alloc, index)?;
        index = index.wrapping_add(1);
        answers.push(to)?;
        clients.push(new_client(rt, alloc, sender, from, room)?)?;
    }
    let parts = Parts {
        asks,
        answers,
        waiting: Vec::with_capacity(alloc, MOST_SENDERS)?,
        group: Vec::with_capacity(alloc, MOST_SENDERS)?,
        done: Vec::with_capacity(alloc, MOST_SENDERS)?,
        ends: Vec::with_capacity(alloc, MOST_SENDERS)?,
    };
    Ok((parts, clients))
}

/// Opens the worker of a log with 1 to 8 coordinators, each with room for so many records. All memory that they ever
/// take is reserved here. An `Err` hands the log back.
pub fn open_log_worker<L: GroupLog, R: Wait + Copy>(
    rt: R,
    alloc: Global,
    log: L,
    coordinators: usize,
    room: usize,
) -> Result<(LogWorker<L>, Vec<LogClient<R>>), (LogWorkerFault, L)>
    ensures log { IfOk result (λ r. r.0.book.log ≡ log) }
    ensures told { IfOk result (λ r. IsToldBy r.0.book.is_known (L.knows r.0.book.log)) }
    ensures nothing { IfOk result (λ r. (r.0.book.deeds.items ≡ []) × (r.0.asks.taken ≡ [])
        × All (λ s. s.sent ≡ []) r.0.book.answers.items) }
    ensures count { IfOk result (λ r. length r.1.items ≡ coordinators) }
    ensures clients { IfOk result (λ r. All (λ c. (own_records c.records ≡ no_records.records) × (c.is_known ≡ true)
        × (c.room ≡ room) × (room ≤ spare c.records) × (c.answers.taken ≡ [])) r.1.items) }

    // The k-th coordinator is the k-th sender of the worker's lane, and is answered on the k-th lane of answers.
    ensures asks { IfOk result (λ r. map (λ c. c.asks) r.1.items
        ≡ new_senders r.0.asks.lane r.0.asks.line r.0.asks.capacity coordinators) }
    ensures answers { IfOk result (λ r. map (λ c. c.answers.line) r.1.items
        ≡ map (λ s. s.line) r.0.book.answers.items) }
    ensures back { IfErr result (λ e. e.1 ≡ log) }
{
    let (parts, clients) = match open_parts(rt, alloc, coordinators, room) {
        Ok(opened) => opened,
        Err(fault) => return Err((fault, log)),
    };
    let Parts {
        asks,
        answers,
        waiting,
        group,
        done,
        ends,
    } = parts;
    let is_known = log.is_known();
    let book = Book {
        log,
        is_known,
        answers,
        waiting,
        group,
        done,
        deeds: Log::new(),
    };
    let worker = LogWorker {
        book,
        asks,
        ended: [false; MOST_SENDERS],
        ends,
    };
    Ok((worker, clients))
}
