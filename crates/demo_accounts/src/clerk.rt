//! A teller's day: its transfers one after the other, of which it tells as each is made.
ghost use Rattle.std.specs.Prelude.{◌≡◌, ◌<◌, pos};
ghost use Rattle.demo_bank.specs.Transfers.{gtrid_of};
ghost use Rattle.xa_desk.specs.GoingOn.{GoesOn};
ghost use Rattle.xa_desk.specs.Kept.{AllKept};

use crate::fault::Fault;
use crate::lines::{Event, add_event, write_lines};
use crate::numbers::{STORES, TRANSFERS};
use demo_bank::{Habits, Teller, Transfer};
use std::alloc::{AllocError, Global};
use std::io::Write;
use std::sync::Wait;
use xa_crew::Client;
use xa_crew::laws::idles_go_on;
use xa_desk::laws::desks_go_on;
use xa_desk::{Desk, Idle};
use xa_log::DecisionLog;
use xa_words::{Code, Key, Tran};
use xa_work::{CommitOutcome, WorkOutcome};

/// A teller that tells of each of its transfers on standard output, or wherever it is to.
#[derive(Drop)]
pub struct Clerk<L, W> {
    alloc: Global,
    out: W,
    first: u32,
    teller: Teller<L>,
    account: Key,
    recorded: Vec<Tran>,
    fault: Option<Fault>,
}

// The transfer at this place of a teller's day: from store to store, of a small amount.
fn transfer_of(account: Key, place: u32) -> Transfer
    requires { place < 64 }
{
    Transfer {
        from: place % STORES + 1,
        to: (place + 1) % STORES + 1,
        account,
        amount: place % 7 + 1,
    }
}

// The transaction of the thread's transfer of this number.
fn tran_of(thread: u32, number: u32) -> Tran
    ensures format { result.format ≡ pos 1 }
    ensures gtrid { result.gtrid ≡ gtrid_of thread number }
{
    let gtrid = (u64::from(thread) * 0x1_0000_0000 + u64::from(number)).to_be_bytes();
    let Ok(tran) = Tran::new(1, &gtrid) else {
        unreachable!()
    };
    tran
}

// Whether the record of the transfer at this place is forgotten as soon as each store has acknowledged it: of every
// other one. The rest go at the end of the day, all at once.
fn forgets(place: u32) -> bool {
    place % 2 == 1
}

// Whether each of these votes is for a commit.
fn have_all_agreed(votes: &[Code]) -> bool {
    votes.iter().all(|vote| *vote == Code::Done)
}

impl<L: DecisionLog + Drop, W: Write + Drop> Clerk<L, W> {
    /// A teller for a day, with its log, the number of its first transfer and the account whose money it moves.
    pub fn new(
        alloc: Global,
        log: L,
        out: W,
        first: u32,
        account: Key,
    ) -> Result<Clerk<L, W>, AllocError> {
        Ok(Clerk {
            alloc,
            out,
            first,
            teller: Teller::new(alloc, log, Vec::new(alloc))?,
            account,
            recorded: Vec::with_capacity(alloc, TRANSFERS as usize)?,
            fault: None,
        })
    }

    /// Its log, with the transactions of the day whose records that has; or why it stopped before the end of its day.
    pub fn into_parts(self) -> (L, Vec<Tran>, Option<Fault>) {
        let Clerk {
            alloc: _,
            out: _,
            first: _,
            teller,
            account: _,
            recorded,
            fault,
        } = self;
        (teller.into_log(), recorded, fault)
    }

    // Adds what became of the transaction to these lines, and remembers whether its record is there. Where all stores
    // voted for a commit and it isn't one, the log took no record of it.
    fn add(
        &mut self,
        lines: &mut String,
        thread: u32,
        tran: Tran,
        forgets: bool,
    ) -> Result<(), Fault> {
        match self.teller.outcomes.first() {
            Some(WorkOutcome::Commit(CommitOutcome::Decided(done))) if done.commit && done.logged =>
                {
                    add_event(self.alloc, lines, Event::Committed, thread, &tran)?;
                    if forgets && done.is_acknowledged() {
                        add_event(self.alloc, lines, Event::Forgotten, thread, &tran)?;
                    } else {
                        self.recorded.push(tran)?;
                    }
                    Ok(())
                }
            Some(WorkOutcome::Commit(CommitOutcome::Decided(done)))
                if have_all_agreed(&done.votes) => { Err(Fault::Unrecorded) }
            Some(WorkOutcome::Commit(CommitOutcome::Undecided(_))) => {
                add_event(self.alloc, lines, Event::Undecided, thread, &tran)?;
                Err(Fault::Unrecorded)
            }
            // It makes none where its log isn't known.
            None => Err(Fault::Unrecorded),
            Some(_) => Err(Fault::Stores),
        }
    }

    // Tells what became of the transaction, in one write.
    fn tell(&mut self, thread: u32, tran: Tran, forgets: bool) -> Result<(), Fault> {
        let mut lines = String::new(self.alloc);
        let added = self.add(&mut lines, thread, tran, forgets);
        if !lines.is_empty() {
            write_lines(&mut self.out, &lines)?;
        }
        added
    }

    // Makes the transfer at this place of the day, and tells of it.
    fn make<R: Wait, I: Idle>(
        &mut self,
        rt: &R,
        desk: &mut Desk,
        place: u32,
        idle: &mut I,
    ) -> Result<(), Fault>
        requires place { place < 64 }
        requires kept { AllKept desk.old }
        ensures goes_on { GoesOn desk.old desk.new }
        ensures kept { AllKept desk.new }
        ensures idled { I.leads idle.old idle.new }
    {
        desks_go_on();
        idles_go_on::<I>();
        let Some(number) = self.first.checked_add(place) else {
            return Err(Fault::Worn);
        };
        let transfers = vec![in self.alloc; transfer_of(self.account, place)]?;
        let habits = Habits {
            first: number,
            death: None,
            shuts: None,
            forgets: forgets(place),
        };
        self.teller.turn_to(transfers, habits);
        self.teller.work(rt, desk, idle);
        if self.teller.wants_memory {
            return Err(Fault::NoMemory);
        }
        let thread = desk.thread();
        self.tell(thread, tran_of(thread, number), forgets(place))
    }
}

impl<L: DecisionLog + Drop, W: Write + Drop> Client for Clerk<L, W> {
    ghost works = { λ clerk desk clerk' desk'. Unit {0} };

    fn work<R: Wait, I: Idle>(&mut self, rt: &R, desk: &mut Desk, idle: &mut I) {
        desks_go_on();
        idles_go_on::<I>();
        for place in 0..TRANSFERS {
            if let Err(fault) = self.make(rt, desk, place, idle) {
                self.fault = Some(fault);
                return;
            }
        }
    }
}
