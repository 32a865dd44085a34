//! A lane in one thread, call by call, each answer compared with what stands in the lane by then.
ghost use Rattle.std.specs.Prelude.{◌<◌};

use super::NAME;
use std::alloc::Global;
use std::collections::VecDeque;
use std::process::Abort;
use std::sync::Wait;
use xa_lane::{Receiver, Sender, Taken, open_lane};

// A lane, and what stands in it, oldest first: a sender's number with an item, or with none as its end
// mark.
#[derive(Drop)]
struct Driven {
    senders: Vec<Option<Sender<u32>>>,
    receiver: Receiver<u32>,
    capacity: usize,
    stands: VecDeque<(usize, Option<u32>)>,
}

impl Driven {
    fn open<R: Wait + Abort>(rt: &R, alloc: Global, senders: usize, capacity: usize) -> Driven {
        let (ends, receiver) = open_lane(rt, alloc, NAME, senders, capacity).expect(rt, "a lane");
        let mut senders = Vec::new(alloc);
        for end in ends {
            assert!(rt; senders.push(Some(end)).is_ok());
        }
        Driven {
            senders,
            receiver,
            capacity,
            stands: VecDeque::new(alloc),
        }
    }

    fn is_full(&self) -> bool {
        self.stands.len() == self.capacity
    }

    // Whether the item was sent: it is unless all places are taken, and then it comes back.
    fn offer<R: Wait + Abort>(&mut self, rt: &R, place: usize, item: u32) -> bool {
        let full = self.is_full();
        let is_sent = sends(rt, &mut self.senders, place, item);
        assert!(rt; is_sent != full, "item {item}");
        if is_sent {
            self.stand(rt, place, Some(item));
        }
        is_sent
    }

    // Whether the end mark was put: it is unless all places are taken, and then the sender comes back.
    fn finish<R: Wait + Abort>(&mut self, rt: &R, place: usize) -> bool {
        let full = self.is_full();
        let is_put = finishes(rt, &mut self.senders, place);
        assert!(rt; is_put != full, "the mark of {place}");
        if is_put {
            self.stand(rt, place, None);
        }
        is_put
    }

    // This stands in the lane from now on, as the last.
    fn stand<R: Abort>(&mut self, rt: &R, place: usize, item: Option<u32>) {
        assert!(rt; self.stands.push_back((place, item)).is_ok());
    }

    // Whether anything was taken: what stands at the front is, unless nothing stands there.
    fn take<R: Wait + Abort>(&mut self, rt: &R) -> bool {
        let taken = match self.receiver.take(rt) {
            Taken::Item(from, item) => Some((from, Some(item))),
            Taken::EndOf(from) => Some((from, None)),
            Taken::Empty => None,
        };
        assert!(rt; taken == self.stands.pop_front());
        taken.is_some()
    }
}

// Whether the sender at the place sent the item. Else that comes back.
fn sends<R: Wait + Abort>(
    rt: &R,
    senders: &mut [Option<Sender<u32>>],
    place: usize,
    item: u32,
) -> bool {
    let Some(Some(sender)) = senders.get_mut(place) else {
        panic!(rt; "sender {place} has ended");
    };
    match sender.offer(rt, item) {
        Ok(()) => true,
        Err(back) => {
            assert!(rt; back.item == item);
            false
        }
    }
}

// Whether the sender at the place put its end mark. Else it comes back.
fn finishes<R: Wait + Abort>(rt: &R, senders: &mut [Option<Sender<u32>>], place: usize) -> bool {
    let Some(slot) = senders.get_mut(place) else {
        panic!(rt; "no sender {place}");
    };
    let Some(sender) = slot.take() else {
        panic!(rt; "sender {place} has ended");
    };
    match sender.finish(rt) {
        Ok(_) => true,
        Err(back) => {
            *slot = Some(back);
            false
        }
    }
}

// 4,096 calls, drawn from the seed: by turns 256 of which three of four put something, and 256 of which
// three of four take.
fn drive<R: Wait + Abort>(rt: &R, lane: &mut Driven, senders: u32, seed: u32)
    requires { 0 < senders }
{
    let mut drawn = seed;
    for call in 0..4096u32 {
        drawn = drawn.wrapping_mul(1664525).wrapping_add(1013904223);
        let mostly = (drawn >> 16) % 4 != 0;
        let fills = call / 256 % 2 == 0;
        let place = ((drawn >> 18) % senders) as usize;
        if mostly != fills {
            lane.take(rt);
        } else if lane.is_full() && call % 2 == 0 {
            lane.finish(rt, place);
        } else {
            lane.offer(rt, place, call);
        }
    }
}

// All senders end, and all that stands in the lane is taken.
fn wind_up<R: Wait + Abort>(rt: &R, lane: &mut Driven, senders: usize) {
    for place in 0..senders {
        if !lane.finish(rt, place) {
            assert!(rt; lane.take(rt) && lane.finish(rt, place), "sender {place}");
        }
    }
    for _ in 0..lane.stands.len() {
        assert!(rt; lane.take(rt));
    }
    assert!(rt; !lane.take(rt) && !lane.take(rt));
}

#[test]
fn each_of_thousands_of_calls_is_answered_by_what_stands_in_the_lane(rt: HostRuntime) {
    for senders in 1..=8 {
        for capacity in 1..=64 {
            let mut lane = Driven::open(&rt, rt.alloc(), senders as usize, capacity);
            drive(&rt, &mut lane, senders, senders + capacity as u32);
            wind_up(&rt, &mut lane, senders as usize);
        }
    }
}

// The lane of one place passes so many quiet moments and so many full ones, and then still gives what stands there.
fn pass_moments<R: Wait + Abort>(rt: &R, lane: &mut Driven, moments: u32) {
    for _ in 0..moments {
        assert!(rt; !lane.take(rt));
    }
    assert!(rt; lane.offer(rt, 0, 7));
    for _ in 0..moments {
        assert!(rt; !lane.offer(rt, 0, 8));
    }
    assert!(rt; lane.take(rt) && lane.offer(rt, 0, 9), "{moments}");
}

// One item stands in the lane, which has one place; the mark comes after it.
fn ends_after_one<R: Wait + Abort>(rt: &R, lane: &mut Driven) {
    assert!(rt; !lane.finish(rt, 0) && lane.take(rt) && lane.finish(rt, 0));
    assert!(rt; lane.take(rt) && !lane.take(rt));
}

/// After any number of full and of quiet moments what there is place for is put, and what stands there
/// is taken.
#[test]
fn moments_change_no_later_answer(rt: HostRuntime) {
    for moments in 0..512 {
        let mut lane = Driven::open(&rt, rt.alloc(), 1, 1);
        pass_moments(&rt, &mut lane, moments);
        ends_after_one(&rt, &mut lane);
    }
}

// Fills the lane, while the other one is empty.
fn fill<R: Wait + Abort>(rt: &R, lane: &mut Driven, other: &mut Driven, senders: usize)
    requires { 0 < senders }
{
    let mut item: u32 = 0;
    for place in 0..lane.capacity {
        assert!(rt; lane.offer(rt, place % senders, item));
        assert!(rt; !other.take(rt));
        item = item.wrapping_add(1);
    }
}

// The lane has no place, and the other one has.
fn is_full_alone<R: Wait + Abort>(rt: &R, lane: &mut Driven, other: &mut Driven, senders: usize) {
    for place in 0..senders {
        assert!(rt; !lane.offer(rt, place, 7) && !lane.finish(rt, place));
        assert!(rt; other.offer(rt, place, 8) && other.take(rt));
    }
}

// All that stands in the lane is taken, and then a mark.
fn drain<R: Wait + Abort>(rt: &R, lane: &mut Driven) {
    for _ in 0..lane.capacity {
        assert!(rt; lane.take(rt));
    }
    assert!(rt; !lane.take(rt));
    assert!(rt; lane.finish(rt, 0) && lane.take(rt) && !lane.take(rt));
}

/// A lane is full where its places are taken, and empty where nothing stands in it, whatever stands in
/// another lane.
#[test]
fn lanes_are_full_and_empty_each_for_itself(rt: HostRuntime) {
    for (senders, capacity) in [(1, 1), (1, 2), (2, 1), (2, 2)] {
        let mut lane = Driven::open(&rt, rt.alloc(), senders, capacity);
        let mut other = Driven::open(&rt, rt.alloc(), senders, capacity);
        assert!(rt; senders > 0);
        fill(&rt, &mut lane, &mut other, senders);
        is_full_alone(&rt, &mut lane, &mut other, senders);
        drain(&rt, &mut lane);
    }
}
