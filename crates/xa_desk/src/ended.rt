//! What a desk leaves.
ghost use Rattle.std.specs.Prelude.{◌≡◌, ◌+◌, ◌≤◌, length, map, vec_capacity, []};
ghost use Rattle.xa_lane.specs.Senders.{but_full};
ghost use Rattle.xa_desk.specs.DeskViews.{outstanding, sent_to, collected_from};
ghost use Rattle.xa_desk.specs.Ended.{Ends, IsEndedDesk, AreBalanced};
ghost use Rattle.xa_desk.specs.Lanes.{IsDesk};
ghost use Rattle.xa_desk.specs.Waits.{MarksEnd, MarkEnds};

use crate::book::Book;
use crate::idle::Idle;
use crate::ledger::Ledger;
use http_server::Log;
use std::marker::Model;
use std::sync::Wait;
use xa_base::{MOST_MANAGERS, MOST_THREADS};
use xa_lane::{Ended, Receiver, Sender};
use xa_words::{Code, Completion, Op, Request};

/// A desk that has ended: nothing is outstanding, nothing more is sent or collected, and each manager's
/// lane has its end mark.
pub struct EndedDesk {
    thread: u32,
    ledgers: Vec<Ledger>,
    // The completions that were drained. It has no bytes: only proofs read it.
    drained: Log<Completion, ()>,
    requests: Vec<Ended<Request>>,
    completions: Receiver<Completion>,
}

// It is dropped by one call, wherever that is, and not part by part there.
impl Drop for EndedDesk {
    fn drop(self) {
        let EndedDesk {
            thread: _,
            ledgers: _,
            drained: _,
            requests: _,
            completions: _,
        } = self;
    }
}

impl Model for EndedDesk {
    ghost use Rattle.xa_desk.specs.Ended.{EndedView};
    ghost use Rattle.xa_desk.specs.EndedParts.{ended_of, AreEndedParts};

    ghost Value = { EndedView };

    ghost view = { ended_of };

    ghost invariant = { AreEndedParts };
}

/// What an ended desk hands out.
#[derive(Drop)]
pub struct DeskEnds {
    /// The ends of the lanes to the managers, by rising manager.
    pub requests: Vec<Ended<Request>>,
    /// The end of the lane of completions.
    pub completions: Receiver<Completion>,
    /// The ledgers with the managers, by rising manager.
    pub ledgers: Vec<Ledger>,
}

impl EndedDesk {
    /// The number of the opening that its lanes are of.
    pub fn opening(&self) -> u64
        ensures { result ≡ self.now.completions.lane.opening }
    {
        self.completions.name().opening
    }

    /// The thread of control, from 1.
    pub fn number(&self) -> u32
        ensures thread { result ≡ self.now.thread }
        ensures limits { (1 ≤ result) × (result ≤ MOST_THREADS) }
    {
        self.thread
    }

    /// How many managers there are, which are numbered from 1.
    pub fn peers(&self) -> u32
        ensures managers { result ≡ length self.now.ledgers }
        ensures limits { (1 ≤ result) × (result ≤ MOST_MANAGERS) }
    {
        self.ledgers.len() as u32
    }

    /// The requests that were sent to the manager, in order: the one at place n has number n. None for
    /// no manager.
    pub fn sent(&self, manager: u32) -> &[Op]
        ensures { result.now ≡ sent_to self.now.ledgers manager }
    {
        if manager == 0 || manager > self.peers() {
            return &[];
        }
        self.ledgers[manager as usize - 1].sent()
    }

    /// What was collected from the manager, in the order of collection: each request's number with its
    /// code. Nothing for no manager.
    pub fn collected(&self, manager: u32) -> &[(u32, Code)]
        ensures { result.now ≡ collected_from self.now.ledgers manager }
    {
        if manager == 0 || manager > self.peers() {
            return &[];
        }
        self.ledgers[manager as usize - 1].collected()
    }

    /// Its ends of lanes and its lists. It takes no memory.
    pub fn apart(self) -> DeskEnds
        ensures requests { result.requests.items ≡ self.requests }
        ensures completions { result.completions ≡ self.completions }
        ensures ledgers { result.ledgers.items ≡ self.ledgers }
        ensures known { IsEndedDesk self }
    {
        let EndedDesk {
            thread: _,
            ledgers,
            drained: _,
            requests,
            completions,
        } = self;
        DeskEnds {
            requests,
            completions,
            ledgers,
        }
    }
}

/// Ends a desk with which nothing is outstanding.
pub(crate) fn end<R: Wait, I: Idle>(rt: &R, book: Book, idle: &mut I) -> EndedDesk
    requires tied { IsDesk book }
    requires settled { AreBalanced book.ledgers }
    ensures ended { Ends book result }
    ensures marked { MarkEnds I.leads_by 0 book.requests result.requests idle.old idle.new }
    ensures idled { I.leads idle.old idle.new }
{
    let Book {
        thread,
        handles: _,
        ledgers,
        events: _,
        slots: _,
        rows: _,
        kept: _,
        kept_marks: _,
        ready_marks: _,
        drained,
        drained_now: _,
        drained_then: _,
        requests,
        completions,
        ends,
    } = book;
    let requests = end_all(rt, requests, ends, idle);
    EndedDesk {
        thread,
        ledgers,
        drained,
        requests,
        completions,
    }
}

// Puts the end mark of each lane to a manager.
fn end_all<R: Wait, I: Idle>(
    rt: &R,
    requests: Vec<Sender<Request>>,
    mut ends: Vec<Ended<Request>>,
    idle: &mut I,
) -> Vec<Ended<Request>>
    requires none { ends.items ≡ [] }
    requires room { length requests.items ≤ vec_capacity ends }
    requires few { length requests.items ≤ MOST_MANAGERS }
    ensures ended { map but_full result.items ≡ map but_full requests.items }
    ensures marked { MarkEnds I.leads_by 0 requests.items result.items idle.old idle.new }
    ensures idled { I.leads idle.old idle.new }
{
    let mut manager = 0;
    for sender in requests {
        manager += 1;
        let end = end_one(rt, sender, manager, idle);
        ends.push_reserved(end);
    }
    ends
}

// Puts the end mark of the lane to the manager, and idles while it is full.
#[tactic(auto, using(crate::proofs::Looks::bare_full))]
fn end_one<R: Wait, I: Idle>(
    rt: &R,
    sender: Sender<Request>,
    manager: u32,
    idle: &mut I,
) -> Ended<Request>
    ensures ended { but_full result ≡ but_full sender }
    ensures marked { MarksEnd (I.leads_by manager) sender result idle.old idle.new }
    ensures idled { I.leads idle.old idle.new }
{
    let mut sender = sender;
    for _ in rt.forever() {
        match sender.finish(rt) {
            Ok(end) => return end,
            Err(back) => sender = back,
        }
        idle.idle(rt, manager);
    }
    unreachable!()
}
