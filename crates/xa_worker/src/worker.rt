//! One manager's worker.
ghost use Rattle.std.specs.Prelude.{◌≡◌, ◌↔◌, ◌≤◌, [], length, false, All, IsTrue};
ghost use Rattle.xa_worker.specs.Workers.{IsTiedWorker, IsFinishedWorker, SameWorker, new_worker};
ghost use Rattle.xa_worker.specs.WorkerSteps.{HasWay, IsBlocked, Paces, Stepped, Takes};
ghost use Rattle.xa_worker.specs.Outgoing.{Offers};
ghost use Rattle.xa_worker.specs.Stored.{IsStored};
ghost use Rattle.xa_store.specs.Stores.{AreDurable};
ghost use Rattle.xa_worker.specs.Done.{IsServed, SameServed};
ghost use Rattle.xa_worker.specs.WorkerSeats.{seat_of_worker, seat_of_done};
ghost use Rattle.xa_worker.specs.Inner.{AreSet};

use crate::carry::{carry_out, send_settled, settle_owed};
use crate::done::{DoneWorker, WorkerEnds};
use crate::outbox::{Outbox, end_all};
use crate::pace::Pace;
use crate::parts::WorkerParts;
use crate::step::WorkerStep;
use http_server::Log;
use std::marker::Model;
use std::sync::Wait;
use std::thread;
use xa_base::MOST_THREADS;
use xa_lane::{Ended, Receiver, Sender};
use xa_store::Store;
use xa_tables::Manager;
use xa_words::{Code, Completion, Request};

/// Carries out the requests of one manager's lane, one after another.
///
/// It takes no memory. What a call's contract doesn't name of the worker stays.
pub struct Worker {
    number: u32,
    // The manager as it was given, with its number. It has no bytes: only proofs read it.
    given: Log<u32, Manager>,
    manager: Manager,
    receiver: Receiver<Request>,
    out: Outbox,
    journal: Vec<(Request, Code)>,
    // Which threads' end marks were taken.
    ended: [bool; MOST_THREADS],
    // A request that was taken and can't be carried out, with its sender.
    held: Option<(usize, Request)>,
    // Reserved for the ends of the lanes of completions.
    ends: Vec<Ended<Completion>>,
}

// It is dropped by one call, wherever that is, and not part by part there.
impl Drop for Worker {
    fn drop(self) {
        let Worker {
            number: _,
            given: _,
            manager: _,
            receiver: _,
            out: _,
            journal: _,
            ended: _,
            held: _,
            ends: _,
        } = self;
    }
}

impl Model for Worker {
    ghost use Rattle.std.specs.Coded.{codes};
    ghost use Rattle.xa_tables.specs.Managers.{tables_code, managed_code};
    ghost use Rattle.xa_worker.specs.Workers.{WorkerView};

    ghost Value = { WorkerView };

    ghost coded = { Prim.hlevel (codes, tables_code, managed_code) };

    ghost use Rattle.xa_worker.specs.Inner.{working_of, IsWorker};

    ghost view = { working_of };

    ghost invariant = { IsWorker };
}

// Whether the end marks of so many threads were all taken.
fn are_all(ended: &[bool; MOST_THREADS], threads: usize) -> bool
    requires { threads ≤ MOST_THREADS }
    ensures { IsTrue result ↔ AreSet threads ended.now }
{
    for thread in 0..threads {
        if !ended[thread] {
            return false;
        }
    }
    true
}

impl Worker {
    /// A worker that has done nothing, of a manager and the lanes that are its own: `receiver` takes the
    /// requests, and `senders` has the lane of each thread's completions, by rising thread.
    ///
    /// The manager has the room that the parts were reserved for and at most 8 threads, as many as the
    /// lane of requests has senders. Of the lanes nothing was taken, and nothing was sent on them.
    pub fn assemble(
        parts: WorkerParts,
        manager: Manager,
        receiver: Receiver<Request>,
        senders: Vec<Sender<Completion>>,
    ) -> Worker
        requires room { manager.room ≡ parts.room }
        requires threads { manager.threads ≤ MOST_THREADS }
        requires requests { receiver.senders ≡ manager.threads }
        requires lanes { length senders.items ≡ manager.threads }
        requires taken { receiver.taken ≡ [] }
        requires sent { All (λ s. s.sent ≡ []) senders.items }
        ensures new { result ≡ new_worker parts.number manager receiver senders.items }
    {
        let WorkerParts {
            number,
            room: _,
            journal,
            waiting,
            ends,
        } = parts;
        Worker {
            number,
            given: Log::new().and(&number, &manager),
            manager,
            receiver,
            out: Outbox::new(senders, waiting),
            journal,
            ended: [false; MOST_THREADS],
            held: None,
            ends,
        }
    }

    /// What holds of every worker: its journal has the codes of its places, and says what was taken and what is owed to
    /// each thread. A law: nothing is done.
    pub fn is_tied(&self)
        ensures { IsTiedWorker self.now }
    {
        let _inside = &self.number;
    }

    /// The number of its manager, from 1.
    pub fn manager(&self) -> u32
        ensures { result ≡ self.now.number }
    {
        self.number
    }

    /// Does one thing. First the completions that wait are offered to their lanes; where all were sent, and no request
    /// is held, one thing is taken from the lane of requests.
    ///
    /// A request is entered in the journal with its code before its completion is sent. A Shut is carried
    /// out as any request; after it each is late. While the store owes something, completions wait: the store settles
    /// once for all of them, where nothing is there to be taken, or 64 wait, or it can be told of no more. `Empty` is
    /// answered only where a take of this call was answered `Empty`, and `Blocked` only where an offer of this call was
    /// answered `Full` or a request is held. Where the store fails it never returns.
    pub fn step<R: Wait, P: Pace, S: Store>(
        &mut self,
        rt: &R,
        pace: &mut P,
        store: &mut S,
    ) -> WorkerStep
        ensures step { Stepped (S.owing store.old) (S.owing store.new) self.old result self.new }
        ensures same { SameWorker self.old self.new }
        ensures seat { seat_of_worker self.new ≡ seat_of_worker self.old }
        ensures paced { Paces P.told self.old.journal self.new.journal pace.old pace.new }
        ensures stored { IsStored (S.knows store.old) (S.may_leave store.old) self.old
            → IsStored (S.knows store.new) (S.may_leave store.new) self.new }
    {
        if !self.make_way(rt, store) {
            return WorkerStep::Blocked;
        }
        self.take_one(rt, pace, store)
    }

    // Offers the completions that wait, or has them wait for a store that owes something. Whether a thing may be taken.
    #[inline(always)]
    fn make_way<R: Wait, S: Store>(&mut self, rt: &R, store: &mut S) -> bool
        ensures offers { Offers (S.owing store.old) self.old.out self.new.out }
        ensures rest { self.new ≡ record self.old { out = self.new.out } }
        ensures may { IsTrue result → HasWay (S.owing store.new) self.new }
        ensures blocked { result ≡ false → IsBlocked self.old self.new }
        ensures same { SameWorker self.old self.new }
        ensures stored { IsStored (S.knows store.old) (S.may_leave store.old) self.old
            → IsStored (S.knows store.new) (S.may_leave store.new) self.new }
    {
        if store.owes() && self.held.is_none() && self.out.has_room() && !store.is_full() {
            return true;
        }
        send_settled(rt, &self.manager, store, &mut self.out) && self.held.is_none()
    }

    // Takes one thing from the lane of requests, if one is there.
    #[inline(always)]
    fn take_one<R: Wait, P: Pace, S: Store>(
        &mut self,
        rt: &R,
        pace: &mut P,
        store: &mut S,
    ) -> WorkerStep
        requires { HasWay (S.owing store.old) self.old }
        ensures takes { Takes (S.owing store.new) self.old result self.new }
        ensures same { SameWorker self.old self.new }
        ensures paced { Paces P.told self.old.journal self.new.journal pace.old pace.new }
        ensures stored { IsStored (S.knows store.old) (S.may_leave store.old) self.old
            → IsStored (S.knows store.new) (S.may_leave store.new) self.new }
    {
        match self.receiver.take_parcel(rt) {
            None => {
                if store.owes() {
                    send_settled(rt, &self.manager, store, &mut self.out);
                }
                WorkerStep::Empty
            }
            Some(parcel) => match &parcel.item {
                None => {
                    self.ended[parcel.from] = true;
                    WorkerStep::EndSeen
                }
                Some(request) => {
                    if request.thread as usize != parcel.from + 1 || self.manager.room() == 0 {
                        self.held = Some((parcel.from, *request));
                        return WorkerStep::Blocked;
                    }
                    pace.before(rt, request);
                    let number = self.number;
                    carry_out(
                        rt,
                        number,
                        &mut self.manager,
                        &mut self.journal,
                        store,
                        &mut self.out,
                        *request,
                    )
                }
            },
        }
    }

    fn is_finished(&self) -> bool
        ensures { IsTrue result ↔ IsFinishedWorker self.now }
    {
        self.held.is_none() && !self.out.is_waiting() && are_all(&self.ended, self.out.len())
    }

    /// Steps until each thread's end mark was taken and nothing is held, has the store settle what it owes, and then
    /// ends its own senders.
    ///
    /// It yields its processor while there is nothing to be done. With a request that can't be carried out, or where
    /// the store fails, it never returns.
    pub fn run<R: Wait, P: Pace, S: Store>(self, rt: &R, pace: &mut P, store: &mut S) -> DoneWorker
        ensures same { SameServed self result }
        ensures served { IsServed result }
        ensures seat { seat_of_done result ≡ seat_of_worker self }
        ensures paced { Paces P.told self.journal result.journal pace.old pace.new }
        ensures known { IsStored (S.knows store.old) (S.may_leave store.old) self
            → S.knows store.new result.manager.tables }
        ensures settled { IsStored (S.knows store.old) (S.may_leave store.old) self
            → AreDurable (S.may_leave store.new) result.manager.tables }
    {
        let mut worker = self;
        for _ in rt.forever() {
            if worker.is_finished() {
                break;
            }
            match worker.step(rt, pace, store) {
                WorkerStep::Empty | WorkerStep::Blocked => thread::yield_now(),
                WorkerStep::Did | WorkerStep::Late | WorkerStep::EndSeen => {}
            }
        }
        settle_owed(rt, &worker.manager, store);
        worker.end(rt)
    }

    // Puts the end marks of its lanes.
    fn end<R: Wait>(self, rt: &R) -> DoneWorker
        requires { IsFinishedWorker self }
        ensures same { SameServed self result }
        ensures manager { result.manager ≡ self.manager }
        ensures journal { result.journal ≡ self.journal }
        ensures served { IsServed result }
        ensures seat { seat_of_done result ≡ seat_of_worker self }
    {
        let Worker {
            number,
            given,
            manager,
            receiver,
            out,
            journal,
            ended: _,
            held: _,
            ends,
        } = self;
        let ends = end_all(rt, out.into_senders(), ends);
        let parts = WorkerEnds {
            manager,
            receiver,
            ends,
            journal,
        };
        DoneWorker::new(number, given, parts)
    }
}
