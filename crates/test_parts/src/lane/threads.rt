//! Senders and a receiver in threads of their own.
ghost use Rattle.std.specs.Prelude.{◌≡◌, map, IfSome};
ghost use Rattle.xa_lane.specs.Ends.{SameSender, SameReceiver};

use super::NAME;
use crossbeam_utils::Backoff;
use std::alloc::Global;
use std::snapshot::Snapshot;
use std::sync::Wait;
use std::thread;
use std::thread::{Promise, PromisedHandle, Threads};
use xa_lane::{Ended, Receiver, Sender, Taken, close_lane, open_lane};

// The thread gives the end of the sender that it was given.
#[derive(Drop)]
struct EndOf(Snapshot<Sender<u32>>);

impl Promise<Ended<u32>> for EndOf {
    ghost kept_by = { λ p end. SameSender p.0.value end };
}

// The thread gives the receiver that it was given back.
#[derive(Drop)]
struct ReceiverOf(Snapshot<Receiver<u32>>);

impl Promise<Option<(Receiver<u32>, Vec<(usize, u32)>)>> for ReceiverOf {
    ghost kept_by = { λ p r. IfSome r (λ r. SameReceiver p.0.value r.0) };
}

// Sends the numbers below `count`, and then the end mark.
fn send_all<R: Wait>(rt: &R, mut sender: Sender<u32>, count: u32) -> Ended<u32>
    ensures { SameSender sender result }
{
    let backoff = Backoff::new();
    let mut next = 0;
    'items: for _ in rt.forever() {
        if next >= count {
            break;
        }
        match sender.offer(rt, next) {
            Ok(()) => {
                next += 1;
                backoff.reset();
            }
            Err(_) => backoff.snooze(),
        }
    }
    'mark: for _ in rt.forever() {
        match sender.finish(rt) {
            Ok(end) => return end,
            Err(back) => sender = back,
        }
        backoff.snooze();
    }
    unreachable!()
}

// Takes until the end marks of so many senders were taken.
fn receive_all<R: Wait>(
    rt: &R,
    alloc: Global,
    mut receiver: Receiver<u32>,
    senders: usize,
) -> Option<(Receiver<u32>, Vec<(usize, u32)>)>
    ensures { IfSome result (λ r. SameReceiver receiver r.0) }
{
    let backoff = Backoff::new();
    let mut items = Vec::new(alloc);
    let mut ended = 0;
    for _ in rt.forever() {
        if ended >= senders {
            break;
        }
        match receiver.take(rt) {
            Taken::Item(from, item) => {
                items.push((from, item)).ok()?;
                backoff.reset();
            }
            Taken::EndOf(_) => ended += 1,
            Taken::Empty => backoff.snooze(),
        }
    }
    Some((receiver, items))
}

fn start_senders<R: Threads + Wait + Copy + Send + 'static>(
    rt: R,
    alloc: Global,
    senders: Vec<Sender<u32>>,
    count: u32,
) -> Option<Vec<PromisedHandle<Ended<u32>, EndOf>>>
    ensures { IfSome result (λ handles. map (λ h. h.promise.0.value.line) handles.items
        ≡ map (λ s. s.line) senders.items) }
{
    let mut handles = Vec::new(alloc);
    for sender in senders {
        let promise = EndOf(Snapshot::of(&sender));
        let handle = thread::spawn_with(&rt, promise, move || send_all(&rt, sender, count)).ok()?;
        handles.push(handle).ok()?;
    }
    Some(handles)
}

fn join_senders(
    rt: &impl Threads,
    handles: Vec<PromisedHandle<Ended<u32>, EndOf>>,
) -> Option<Vec<Ended<u32>>>
    ensures { IfSome result (λ ended. map (λ e. e.line) ended.items ≡ map (λ h. h.promise.0.value.line) handles.items) }
{
    match thread::join_promised(rt, handles) {
        Ok(ended) => Some(ended),
        Err(_) => None,
    }
}

fn receive_there<R: Threads + Wait + Copy + Send + 'static>(
    rt: R,
    alloc: Global,
    receiver: Receiver<u32>,
    senders: usize,
) -> Option<(Receiver<u32>, Vec<(usize, u32)>)>
    ensures { IfSome result (λ r. SameReceiver receiver r.0) }
{
    let promise = ReceiverOf(Snapshot::of(&receiver));
    let there = move || receive_all(&rt, alloc, receiver, senders);
    match thread::spawn_with(&rt, promise, there) {
        Ok(receiving) => receiving.join(&rt),
        Err(_) => None,
    }
}

// What is taken of a lane whose senders each send the numbers below `count`, and what is left.
fn relay<R: Threads + Wait + Copy + Send + 'static>(
    rt: R,
    alloc: Global,
    senders: usize,
    count: u32,
) -> Option<(Vec<(usize, u32)>, Vec<(usize, u32)>)> {
    let Ok((ends, receiver)) = open_lane(&rt, alloc, NAME, senders, 8) else {
        return None;
    };
    let handles = start_senders(rt, alloc, ends, count)?;
    let (receiver, taken) = receive_there(rt, alloc, receiver, senders)?;
    let ended = join_senders(&rt, handles)?;
    match close_lane(&rt, ended, receiver) {
        Ok(left) => Some((taken, left)),
        Err(_) => None,
    }
}

// The items of one sender, in order, are the numbers below `count`.
fn is_whole(taken: &[(usize, u32)], sender: usize, count: u32) -> bool {
    let items = taken.iter().filter(|parcel| parcel.0 == sender);
    items.map(|parcel| parcel.1).eq(0..count)
}

#[test]
fn what_each_sender_sends_arrives_whole_and_in_order(rt: HostRuntime) {
    for senders in [1, 2, 8] {
        let (taken, left) = relay(rt, rt.alloc(), senders, 1000).expect(&rt, "memory");
        assert!(rt; taken.len() == 1000 * senders);
        assert!(rt; left.is_empty());
        for sender in 0..senders {
            assert!(rt;
                is_whole(taken.as_slice(), sender, 1000),
                "{sender} of {senders}"
            );
        }
    }
}
