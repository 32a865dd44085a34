//! The worker.
ghost use Rattle.std.specs.Prelude.{◌≡◌, ◌≤◌, ◌<◌, ℕ, true, false, map, get_or, vec_len, vec_capacity};
ghost use Rattle.xa_lane.specs.Ends.{has_ended};
ghost use Rattle.xa_lane.specs.Senders.{but_full};
ghost use Rattle.xa_log.specs.Log.{AreNew};
ghost use Rattle.xa_log_shared.specs.Deeds.{IsToldBy, records_waiting};
ghost use Rattle.xa_log_shared.specs.Moves.{HasNoted, Works, Steps};
ghost use Rattle.xa_base.specs.declared.limits.TheConstants.{MOST_SENDERS};

use crate::ask::{AppendAnswer, LogRequest};
use crate::book::Book;
use crate::ends::LogEnds;
use crate::sending::finish;
use std::sync::Wait;
use xa_base::{MOST_QUEUED, MOST_SENDERS};
use xa_desk::Idle;
use xa_lane::{Ended, Receiver, Taken};
use xa_log::GroupLog;

/// What a step did.
#[derive(Clone, Copy, Debug, PartialEq, Eq)]
pub enum LogWorkerStep {
    /// Something was taken.
    Did,
    /// Nothing was there to be taken.
    Empty,
}

// How often a worker with several coordinators idles after a step.
const PAUSES: u32 = 32;

/// Owns the log that coordinators share.
///
/// It takes no memory after it was opened.
#[derive(Drop)]
pub struct LogWorker<L: GroupLog> {
    pub(crate) book: Book<L>,
    pub(crate) asks: Receiver<LogRequest>,
    // Which coordinators' end marks were taken.
    pub(crate) ended: [bool; MOST_SENDERS],
    // Reserved for the ends of the lanes of answers.
    pub(crate) ends: Vec<Ended<AppendAnswer>>,
    ghost closed: { vec_len book.waiting ≡ 0 },
    ghost noted: { HasNoted ended asks.taken },
    ghost lanes: { asks.senders ≡ vec_len book.answers },
    ghost few: { vec_len book.answers ≤ MOST_SENDERS },
    ghost none: { vec_len ends ≡ 0 },
    ghost room: { MOST_SENDERS ≤ vec_capacity ends },
}

// Takes one thing. False where nothing is there.
#[tactic(auto, using(crate::proofs::Moves::taking))]
fn take_one<L: GroupLog, R: Wait>(
    rt: &R,
    book: &mut Book<L>,
    asks: &mut Receiver<LogRequest>,
    ended: &mut [bool; MOST_SENDERS],
) -> bool
    requires lanes { asks.old.senders ≡ vec_len book.old.answers }
    requires few { vec_len book.old.answers ≤ MOST_SENDERS }
    requires noted { HasNoted ended.old asks.old.taken }
    requires new { book.old.is_known ≡ true → AreNew (L.state book.old.log) (records_waiting book.old.waiting.items) }
    ensures new { book.new.is_known ≡ true → AreNew (L.state book.new.log) (records_waiting book.new.waiting.items) }
    ensures noted { HasNoted ended.new asks.new.taken }
    ensures lanes { asks.new.senders ≡ asks.old.senders }
    ensures len { vec_len book.new.answers ≡ vec_len book.old.answers }
    ensures works { Works book.old.deeds.items book.new.deeds.items book.old.is_known (L.state book.old.log)
        book.new.is_known (L.state book.new.log) book.old.answers.items book.new.answers.items
        book.old.waiting.items book.new.waiting.items asks.old.taken asks.new.taken }
{
    match asks.take(rt) {
        Taken::Empty => false,
        Taken::EndOf(from) => {
            ended[from] = true;
            true
        }
        Taken::Item(from, ask) => {
            book.take_in(rt, from, &ask);
            true
        }
    }
}

// Takes the requests that wait.
#[tactic(auto, using(crate::proofs::Moves::works_chain, crate::proofs::Moves::works_none))]
fn gather<L: GroupLog, R: Wait>(
    rt: &R,
    book: &mut Book<L>,
    asks: &mut Receiver<LogRequest>,
    ended: &mut [bool; MOST_SENDERS],
) -> LogWorkerStep
    requires lanes { asks.old.senders ≡ vec_len book.old.answers }
    requires few { vec_len book.old.answers ≤ MOST_SENDERS }
    requires noted { HasNoted ended.old asks.old.taken }
    requires new { book.old.is_known ≡ true → AreNew (L.state book.old.log) (records_waiting book.old.waiting.items) }
    ensures new { book.new.is_known ≡ true → AreNew (L.state book.new.log) (records_waiting book.new.waiting.items) }
    ensures noted { HasNoted ended.new asks.new.taken }
    ensures lanes { asks.new.senders ≡ asks.old.senders }
    ensures len { vec_len book.new.answers ≡ vec_len book.old.answers }
    ensures works { Works book.old.deeds.items book.new.deeds.items book.old.is_known (L.state book.old.log)
        book.new.is_known (L.state book.new.log) book.old.answers.items book.new.answers.items
        book.old.waiting.items book.new.waiting.items asks.old.taken asks.new.taken }
{
    let mut step = LogWorkerStep::Empty;
    for _ in 0..MOST_QUEUED {
        if !take_one(rt, book, asks, ended) {
            break;
        }
        step = LogWorkerStep::Did;
    }
    step
}

impl<L: GroupLog> LogWorker<L> {
    /// Takes the requests that wait, appends the records among them together, and then answers each.
    ///
    /// A record is refused whose transaction has one in the log. Once the log isn't known, nothing is asked of it, and
    /// each record is answered `Unknown`.
    pub fn step<R: Wait>(&mut self, rt: &R) -> LogWorkerStep
        ensures steps { Steps self.old.book.deeds.items self.new.book.deeds.items self.old.book.is_known
            (L.state self.old.book.log) self.new.book.is_known (L.state self.new.book.log)
            self.old.book.answers.items self.new.book.answers.items self.old.asks.taken self.new.asks.taken }
        ensures told { IsToldBy self.new.book.is_known (L.knows self.new.book.log) }
        ensures lanes { self.new.asks.senders ≡ self.old.asks.senders }
    {
        let step = gather(rt, &mut self.book, &mut self.asks, &mut self.ended);
        self.book.close_group(rt);
        step
    }

    // Whether each coordinator's end mark was taken.
    fn is_finished(&self) -> bool
        ensures { result ≡ true → (k : ℕ) → k < vec_len self.now.book.answers → get_or self.now.ended k false ≡ true }
    {
        for place in 0..self.book.answers.len() {
            if !self.ended[place] {
                return false;
            }
        }
        true
    }

    // Idles once where nothing was there. After a step that did something it idles for so long that who was answered
    // may come back with the next record, and all go together; a coordinator that is alone isn't kept waiting.
    fn pause<R: Wait, I: Idle>(&self, rt: &R, step: LogWorkerStep, idle: &mut I) {
        let idles = match step {
            LogWorkerStep::Empty => 1,
            LogWorkerStep::Did if self.book.answers.len() > 1 => PAUSES,
            LogWorkerStep::Did => 0,
        };
        for _ in 0..idles {
            idle.idle(rt, 0);
        }
    }

    /// Steps until each coordinator has ended, and then ends the lanes of answers and gives the log back.
    ///
    /// It idles while there is nothing to be done, and between its steps where there are several coordinators, in a
    /// wait for no manager.
    #[tactic(auto, using(crate::proofs::Moves::stepping))]
    pub fn run<R: Wait, I: Idle>(self, rt: &R, idle: &mut I) -> LogEnds<L>
        ensures steps { Steps self.book.deeds.items result.deeds.items self.book.is_known (L.state self.book.log)
            result.is_known (L.state result.log) self.book.answers.items result.answers.items self.asks.taken
            result.asks.taken }
        ensures told { IsToldBy result.is_known (L.knows result.log) }

        // It doesn't end before each coordinator has.
        ensures ended { (k : ℕ) → k < self.asks.senders → has_ended k result.asks.taken ≡ true }
    {
        let mut worker = self;
        for _ in rt.forever() {
            if worker.is_finished() {
                break;
            }
            let step = worker.step(rt);
            worker.pause(rt, step, idle);
        }
        worker.end(rt)
    }

    // Puts the end marks of the lanes of answers.
    fn end<R: Wait>(self, rt: &R) -> LogEnds<L>
        ensures log { (result.log ≡ self.book.log) × (result.is_known ≡ self.book.is_known) }
        ensures asks { result.asks ≡ self.asks }
        ensures deeds { result.deeds.items ≡ self.book.deeds.items }
        ensures answers { map but_full result.answers.items ≡ map but_full self.book.answers.items }
    {
        let LogWorker {
            book,
            asks,
            ended: _,
            mut ends,
        } = self;
        let Book {
            log,
            is_known,
            answers,
            waiting: _,
            group: _,
            done: _,
            deeds,
        } = book;
        for sender in answers {
            ends.push_reserved(finish(rt, sender));
        }
        LogEnds {
            log,
            is_known,
            asks,
            answers: ends,
            deeds,
        }
    }
}
