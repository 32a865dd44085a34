//! Where a worker puts completions.
ghost use Rattle.std.specs.Prelude.{◌≡◌, ◌↔◌, ◌<◌, ◌≤◌, ℕ, [], length, map, false, IsTrue, MatchBool};
ghost use Rattle.std.specs.Prelude.{vec_capacity};
ghost use Rattle.std.specs.VecDeque.{deque_capacity};
ghost use Rattle.xa_lane.specs.Senders.{at_place, with_item, with_full, but_full};
ghost use Rattle.xa_worker.specs.Outgoing.{AnswersOrWaits, FindsFull, Flushes, SendsFirst, put_to};

use crossbeam_utils::Backoff;
use std::collections::VecDeque;
use std::marker::Model;
use std::sync::Wait;
use xa_lane::{Ended, Sender};
use xa_words::Completion;

/// The most completions that wait at once: so many requests at most are settled together.
pub(crate) const MOST_WAITING: usize = 64;

/// The lanes on which the threads get their completions, by rising thread, and the completions that wait: for the
/// store of their manager, or for the first of them to find room in its lane.
#[derive(Drop)]
pub(crate) struct Outbox {
    senders: Vec<Sender<Completion>>,
    // Each with the place of its lane, oldest first.
    waiting: VecDeque<(usize, Completion)>,
}

impl Model for Outbox {
    ghost use Rattle.xa_worker.specs.Outgoing.{Outgoing};

    ghost Value = { Outgoing };

    ghost use Rattle.std.specs.Prelude.{All, ◌<◌, ◌≤◌, length};
    ghost use Rattle.std.specs.VecDeque.{deque_capacity};
    ghost use Rattle.xa_worker.specs.declared.outbox.TheConstants.{MOST_WAITING};

    ghost view = { λ o. record { senders = o.senders.items; waiting = o.waiting.items } };

    ghost invariant = { λ o. All (λ p. p.0 < length o.senders.items) o.waiting.items
        × (MOST_WAITING ≤ deque_capacity o.waiting) };
}

// Offers a completion to the lane at a place: whether it was sent.
#[inline(always)]
fn offer_at<R: Wait>(
    rt: &R,
    senders: &mut Vec<Sender<Completion>>,
    place: usize,
    completion: Completion,
) -> bool
    requires { place < length senders.old.items }
    ensures len { length senders.new.items ≡ length senders.old.items }
    ensures offered { MatchBool result (senders.new.items ≡ at_place place (with_item completion) senders.old.items)
        (senders.new.items ≡ at_place place with_full senders.old.items) }
{
    match senders[place].offer(rt, completion) {
        Ok(()) => true,
        Err(_) => false,
    }
}

impl Outbox {
    /// Lanes on which nothing waits to be sent, and reserved memory for what will.
    pub(crate) fn new(
        senders: Vec<Sender<Completion>>,
        waiting: VecDeque<(usize, Completion)>,
    ) -> Outbox
        requires none { waiting.items ≡ [] }
        requires room { MOST_WAITING ≤ deque_capacity waiting }
        ensures { result ≡ record { senders = senders.items; waiting = [] } }
    {
        Outbox { senders, waiting }
    }

    /// How many lanes there are.
    pub(crate) fn len(&self) -> usize
        ensures { result ≡ length self.now.senders }
    {
        self.senders.len()
    }

    /// Whether a completion waits.
    #[inline(always)]
    pub(crate) fn is_waiting(&self) -> bool
        ensures { (result ≡ false) ↔ (self.now.waiting ≡ []) }
    {
        !self.waiting.is_empty()
    }

    /// Whether one more completion may wait.
    #[inline(always)]
    pub(crate) fn has_room(&self) -> bool
        ensures { IsTrue result ↔ (length self.now.waiting < MOST_WAITING) }
    {
        self.waiting.len() < MOST_WAITING
    }

    /// Sends a completion. It waits, behind those that do, where the store owes something, others wait, or its lane is
    /// full.
    #[inline(always)]
    pub(crate) fn answer<R: Wait>(
        &mut self,
        rt: &R,
        owing: bool,
        place: usize,
        completion: Completion,
    )
        requires place { place < length self.old.senders }
        requires room { length self.old.waiting < MOST_WAITING }
        ensures { AnswersOrWaits owing self.old place completion self.new }
    {
        if owing || self.is_waiting() || !offer_at(rt, &mut self.senders, place, completion) {
            self.waiting.push_back_reserved((place, completion));
        }
    }

    /// Sends the completions that wait, oldest first, as far as the first whose lane is full. Whether all were sent.
    #[inline(always)]
    pub(crate) fn flush<R: Wait>(&mut self, rt: &R) -> bool
        ensures flushed { Flushes self.old self.new }
        ensures all { IsTrue result ↔ (self.new.waiting ≡ []) }
        ensures put { (k : ℕ) → put_to k self.new ≡ put_to k self.old }
    {
        for _place in 0..self.count() {
            if !self.send_first(rt) {
                return false;
            }
        }
        true
    }

    // How many completions wait.
    #[inline(always)]
    fn count(&self) -> usize
        ensures { result ≡ length self.now.waiting }
    {
        self.waiting.len()
    }

    // Offers the completion that waits first to its lane: whether it was sent.
    fn send_first<R: Wait>(&mut self, rt: &R) -> bool
        requires { 0 < length self.old.waiting }
        ensures first { MatchBool result (SendsFirst self.old self.new) (FindsFull self.old self.new) }
        ensures put { (k : ℕ) → put_to k self.new ≡ put_to k self.old }
    {
        let Some((place, completion)) = self.waiting.front() else {
            unreachable!()
        };
        if !offer_at(rt, &mut self.senders, *place, *completion) {
            return false;
        }
        let _ = self.waiting.pop_front();
        true
    }

    pub(crate) fn into_senders(self) -> Vec<Sender<Completion>>
        ensures { result.items ≡ self.senders }
    {
        self.senders
    }
}

// Puts the end mark of one lane.
fn end_one<R: Wait>(rt: &R, mut sender: Sender<Completion>) -> Ended<Completion>
    ensures { but_full result ≡ but_full sender }
{
    let backoff = Backoff::new();
    for _ in rt.forever() {
        match sender.finish(rt) {
            Ok(end) => return end,
            Err(back) => sender = back,
        }
        backoff.snooze();
    }
    unreachable!()
}

/// Puts the end mark of each lane.
pub(crate) fn end_all<R: Wait>(
    rt: &R,
    senders: Vec<Sender<Completion>>,
    mut ends: Vec<Ended<Completion>>,
) -> Vec<Ended<Completion>>
    requires none { ends.items ≡ [] }
    requires room { length senders.items ≤ vec_capacity ends }
    ensures { map but_full result.items ≡ map but_full senders.items }
{
    for sender in senders {
        let end = end_one(rt, sender);
        ends.push_reserved(end);
    }
    ends
}
