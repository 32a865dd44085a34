//! What no clause says: that calls succeed, and what they answer on worked lanes.
ghost use Rattle.std.specs.Prelude.{◌≡◌};
ghost use Rattle.xa_lane.specs.Ends.{SameSender, SameReceiver};

mod driven;
mod threads;

use std::alloc::Global;
use std::process::Abort;
use std::sync::Wait;
use xa_lane::{
    CloseWhy, Ended, LaneFault, LaneName, Receiver, Sender, Taken, close_lane, open_lane,
};

const NAME: LaneName = LaneName {
    opening: 1,
    kind: 0,
    index: 1,
};

// A lane of one sender.
fn open_one<R: Wait + Abort>(
    rt: &R,
    alloc: Global,
    name: LaneName,
    capacity: usize,
) -> (Sender<u32>, Receiver<u32>)
    ensures { (result.0.line ≡ result.1.line) × (result.0.lane ≡ name) × (result.1.lane ≡ name) }
{
    let (mut senders, receiver) = open_lane(rt, alloc, name, 1, capacity).expect(rt, "a lane");
    let sender = senders.pop().expect(rt, "a sender");
    (sender, receiver)
}

// What is left of a lane of one sender.
fn left_of_one<R: Wait + Abort>(
    rt: &R,
    alloc: Global,
    end: Ended<u32>,
    receiver: Receiver<u32>,
) -> Vec<(usize, u32)>
    requires { end.line ≡ receiver.line }
{
    let Ok(ended) = Vec::from_array(alloc, [end]) else {
        panic!(rt; "out of memory");
    };
    match close_lane(rt, ended, receiver) {
        Ok(left) => left,
        Err(_) => panic!(rt; "not closed"),
    }
}

// Whether the item was sent.
fn sends<R: Wait>(rt: &R, sender: &mut Sender<u32>, item: u32) -> bool
    ensures { SameSender sender.old sender.new }
{
    sender.offer(rt, item).is_ok()
}

// Whether the item came back, for want of a place.
fn hands_back<R: Wait>(rt: &R, sender: &mut Sender<u32>, item: u32) -> bool
    ensures { SameSender sender.old sender.new }
{
    match sender.offer(rt, item) {
        Ok(()) => false,
        Err(back) => back.item == item,
    }
}

// The end of a sender whose lane has a place for the mark.
fn finished<R: Wait + Abort>(rt: &R, sender: Sender<u32>) -> Ended<u32>
    ensures { SameSender sender result }
{
    match sender.finish(rt) {
        Ok(end) => end,
        Err(_) => panic!(rt; "full"),
    }
}

// The sender, whose lane has no place for the mark.
fn unfinished<R: Wait + Abort>(rt: &R, sender: Sender<u32>) -> Sender<u32>
    ensures { SameSender sender result }
{
    match sender.finish(rt) {
        Ok(_) => panic!(rt; "finished"),
        Err(sender) => sender,
    }
}

// Whether this item of this sender is taken.
fn gives<R: Wait>(rt: &R, receiver: &mut Receiver<u32>, sender: usize, item: u32) -> bool
    ensures { SameReceiver receiver.old receiver.new }
{
    match receiver.take(rt) {
        Taken::Item(from, taken) => from == sender && taken == item,
        _ => false,
    }
}

// Whether nothing is there to take.
fn has_nothing<R: Wait>(rt: &R, receiver: &mut Receiver<u32>) -> bool
    ensures { SameReceiver receiver.old receiver.new }
{
    matches!(receiver.take(rt), Taken::Empty)
}

// The receiver, whose lane isn't closed without an end.
fn unclosed<R: Wait + Abort>(rt: &R, alloc: Global, receiver: Receiver<u32>) -> Receiver<u32>
    ensures { SameReceiver receiver result }
{
    let Err(fault) = close_lane(rt, Vec::new(alloc), receiver) else {
        panic!(rt; "closed");
    };
    assert!(rt; fault.why == CloseWhy::Missing);
    fault.receiver
}

#[test]
fn a_full_lane_hands_the_item_and_the_sender_back(rt: HostRuntime) {
    let (mut sender, mut receiver) = open_one(&rt, rt.alloc(), NAME, 1);
    assert!(rt; sends(&rt, &mut sender, 7));
    assert!(rt; hands_back(&rt, &mut sender, 8));
    let sender = unfinished(&rt, sender);
    assert!(rt; gives(&rt, &mut receiver, 0, 7));
    assert!(rt; has_nothing(&rt, &mut receiver));
    let end = finished(&rt, sender);
    assert!(rt; end.name() == NAME && receiver.name() == NAME);
    let receiver = unclosed(&rt, rt.alloc(), receiver);
    // The end mark needn't have been taken.
    let left = left_of_one(&rt, rt.alloc(), end, receiver);
    assert!(rt; left.is_empty());
}

#[test]
fn a_full_lane_is_full_for_each_sender(rt: HostRuntime) {
    let (mut senders, mut receiver) = open_lane::<u32, _>(&rt, rt.alloc(), NAME, 2, 1).expect(
        &rt, "a lane",
    );
    let mut second = senders.pop().expect(&rt, "a sender");
    let mut first = senders.pop().expect(&rt, "a sender");
    assert!(rt; sends(&rt, &mut first, 1));
    assert!(rt; hands_back(&rt, &mut second, 2));
    assert!(rt; gives(&rt, &mut receiver, 0, 1));
    assert!(rt; sends(&rt, &mut second, 3));
    assert!(rt; hands_back(&rt, &mut first, 4));
    assert!(rt; gives(&rt, &mut receiver, 1, 3));
    assert!(rt; has_nothing(&rt, &mut receiver));
}

#[test]
fn items_that_were_not_taken_are_left_in_order(rt: HostRuntime) {
    let (mut sender, mut receiver) = open_one(&rt, rt.alloc(), NAME, 4);
    assert!(rt; sends(&rt, &mut sender, 1));
    assert!(rt; sends(&rt, &mut sender, 2));
    assert!(rt; sends(&rt, &mut sender, 3));
    let end = finished(&rt, sender);
    assert!(rt; gives(&rt, &mut receiver, 0, 1));
    let left = left_of_one(&rt, rt.alloc(), end, receiver);
    assert!(rt; left.as_slice() == [(0, 2), (0, 3)].as_slice());
}

#[test]
fn the_end_mark_is_taken_last(rt: HostRuntime) {
    let (mut sender, mut receiver) = open_one(&rt, rt.alloc(), NAME, 4);
    assert!(rt; sends(&rt, &mut sender, 5));
    assert!(rt; sender.name() == NAME);
    finished(&rt, sender);
    assert!(rt; gives(&rt, &mut receiver, 0, 5));
    assert!(rt; matches!(receiver.take(&rt), Taken::EndOf(0)));
    assert!(rt; has_nothing(&rt, &mut receiver));
}

#[test]
fn an_end_of_another_lane_is_a_stranger(rt: HostRuntime) {
    let other = LaneName { index: 2, ..NAME };
    let (sender, _) = open_one(&rt, rt.alloc(), other, 1);
    let (_, receiver) = open_one(&rt, rt.alloc(), NAME, 1);
    let end = finished(&rt, sender);
    let Ok(ended) = Vec::from_array(rt.alloc(), [end]) else {
        panic!(rt; "out of memory");
    };
    let Err(fault) = close_lane(&rt, ended, receiver) else {
        panic!(rt; "closed");
    };
    assert!(rt; fault.why == CloseWhy::Stranger);
    assert!(rt; fault.ended.len() == 1);
}

// How many senders a lane of these counts has, or why it isn't opened.
fn senders_of<R: Wait>(
    rt: &R,
    alloc: Global,
    senders: usize,
    capacity: usize,
) -> Result<usize, LaneFault> {
    match open_lane::<u32, _>(rt, alloc, NAME, senders, capacity) {
        Ok((ends, _)) => Ok(ends.len()),
        Err(fault) => Err(fault),
    }
}

#[test]
fn counts_are_within_the_limits(rt: HostRuntime) {
    for (senders, capacity) in [(0, 1), (9, 1), (1, 0), (1, 65)] {
        assert!(rt;
            senders_of(&rt, rt.alloc(), senders, capacity) == Err(LaneFault::BadCount),
            "at {senders}, {capacity}"
        );
    }
    for (senders, capacity) in [(1, 1), (8, 1), (1, 64), (8, 64)] {
        assert!(rt;
            senders_of(&rt, rt.alloc(), senders, capacity) == Ok(senders),
            "at {senders}, {capacity}"
        );
    }
}

/// With memory refused once, the opening that met it made nothing, and the next succeeds.
#[test]
fn an_opening_that_was_refused_memory_succeeds_again(rt: HostRuntime) {
    if let Err(fault) = senders_of(&rt, rt.alloc(), 8, 64) {
        assert!(rt; fault == LaneFault::NoMemory);
        assert!(rt; senders_of(&rt, rt.alloc(), 8, 64).is_ok());
    }
}
