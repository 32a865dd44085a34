//! A worker of manager 1, and the threads' ends of its lanes.
ghost use Rattle.std.specs.Prelude.{◌≡◌, ◌≤◌, [], length, All, IfSome};

use std::alloc::Global;
use std::sync::Wait;
use xa_base::MOST_JOURNALED;
use xa_lane::{LaneName, Receiver, Sender, open_lane};
use xa_tables::Manager;
use xa_words::{Completion, Key, Request};
use xa_worker::{Worker, WorkerParts};

fn name(kind: u32, index: u32) -> LaneName {
    LaneName {
        opening: 7,
        kind,
        index,
    }
}

// One thread's lane of completions.
fn completions<R: Wait>(
    rt: &R,
    alloc: Global,
    thread: u32,
    places: usize,
) -> Option<(Sender<Completion>, Receiver<Completion>)>
    ensures { IfSome result (λ r. r.0.sent ≡ []) }
{
    let Ok((mut senders, receiver)) = open_lane(rt, alloc, name(1, thread), 1, places) else {
        return None;
    };
    let sender = senders.pop()?;
    Some((sender, receiver))
}

// The lanes of completions, by rising thread.
fn all_completions<R: Wait>(
    rt: &R,
    alloc: Global,
    threads: u32,
    places: usize,
) -> Option<(Vec<Sender<Completion>>, Vec<Receiver<Completion>>)>
    ensures lanes { IfSome result (λ r. length r.0.items ≡ threads) }
    ensures sent { IfSome result (λ r. All (λ s. s.sent ≡ []) r.0.items) }
{
    let mut senders = Vec::new(alloc);
    let mut answers = Vec::new(alloc);
    for thread in 0..threads {
        let (sender, receiver) = completions(rt, alloc, thread, places)?;
        senders.push(sender).ok()?;
        answers.push(receiver).ok()?;
    }
    Some((senders, answers))
}

/// The worker of manager 1 of opening 7, with these accounts, so many threads and so much room; the
/// threads' senders of requests and their receivers of completions. Each lane has so many places, that
/// of requests eight.
pub(super) fn opened<R: Wait>(
    rt: &R,
    alloc: Global,
    accounts: &[(Key, u64)],
    threads: u32,
    room: u32,
    places: usize,
) -> Option<(Worker, Vec<Sender<Request>>, Vec<Receiver<Completion>>)>
    requires threads { (1 ≤ threads) × (threads ≤ 8) }
    requires room { (1 ≤ room) × (room ≤ MOST_JOURNALED) }
{
    let Ok(manager) = Manager::new(alloc, accounts, threads, room) else {
        return None;
    };
    let Ok(parts) = WorkerParts::reserve(alloc, 1, room) else {
        return None;
    };
    let Ok((asks, requests)) = open_lane(rt, alloc, name(0, 1), threads as usize, 8) else {
        return None;
    };
    let (senders, answers) = all_completions(rt, alloc, threads, places)?;
    let worker = Worker::assemble(parts, manager, requests, senders);
    Some((worker, asks, answers))
}
