//! How desks and workers are put together.
ghost use Rattle.std.specs.Prelude.{◌≡◌, ◌≤◌, [], length, map, vec_capacity};
ghost use Rattle.xa_switch.specs.Columns.{Each};
ghost use Rattle.xa_switch.specs.OpenedPieces.{DesksFit, WorkersFit, IsDeskOf, IsWorkerOf};

use xa_desk::{Desk, DeskParts};
use xa_lane::{Receiver, Sender};
use xa_tables::Manager;
use xa_words::{Completion, Request};
use xa_worker::{Worker, WorkerParts};

/// Puts a desk together of each part, with the senders and the receiver at its place. It takes no memory.
pub(crate) fn assemble_desks(
    mut desks: Vec<Desk>,
    parts: Vec<DeskParts>,
    columns: Vec<Vec<Sender<Request>>>,
    receivers: Vec<Receiver<Completion>>,
) -> Vec<Desk>
    requires none { desks.items ≡ [] }
    requires room { length parts.items ≤ vec_capacity desks }
    requires columns { length columns.items ≡ length parts.items }
    requires receivers { length receivers.items ≡ length parts.items }
    requires fit { DesksFit parts.items (map (λ c. c.items) columns.items) receivers.items }
    ensures many { length result.items ≡ length parts.items }
    ensures made { Each (IsDeskOf parts.items (map (λ c. c.items) columns.items) receivers.items) result.items }
{
    let mut columns = columns.into_iter();
    let mut receivers = receivers.into_iter();
    for part in parts {
        let Some(requests) = columns.next() else {
            unreachable!()
        };
        let Some(completions) = receivers.next() else {
            unreachable!()
        };
        desks.push_reserved(Desk::assemble(part, requests, completions));
    }
    desks
}

/// Puts a worker together of each part, with the manager, the receiver and the senders at its place. It
/// takes no memory.
pub(crate) fn assemble_workers(
    mut workers: Vec<Worker>,
    parts: Vec<WorkerParts>,
    managers: Vec<Manager>,
    receivers: Vec<Receiver<Request>>,
    columns: Vec<Vec<Sender<Completion>>>,
) -> Vec<Worker>
    requires none { workers.items ≡ [] }
    requires room { length parts.items ≤ vec_capacity workers }
    requires managers { length managers.items ≡ length parts.items }
    requires receivers { length receivers.items ≡ length parts.items }
    requires columns { length columns.items ≡ length parts.items }
    requires fit { WorkersFit parts.items managers.items receivers.items (map (λ c. c.items) columns.items) }
    ensures many { length result.items ≡ length parts.items }
    ensures made { Each (IsWorkerOf parts.items managers.items receivers.items (map (λ c. c.items) columns.items))
        result.items }
{
    let mut managers = managers.into_iter();
    let mut receivers = receivers.into_iter();
    let mut columns = columns.into_iter();
    for part in parts {
        let Some(manager) = managers.next() else {
            unreachable!()
        };
        let Some(requests) = receivers.next() else {
            unreachable!()
        };
        let Some(senders) = columns.next() else {
            unreachable!()
        };
        workers.push_reserved(Worker::assemble(part, manager, requests, senders));
    }
    workers
}
