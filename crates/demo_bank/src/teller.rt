//! What a teller does: transfers, one after the other, each as one unit of work.
ghost use Rattle.std.specs.Prelude.{◌≡◌, ◌+◌, ℤ, ◌≤ℤ◌, neg_ℤ, pos, [], length, false, IfOk, MatchOption, None, OnErr};
ghost use Rattle.std.specs.Prelude.{◌<◌, ◌^◌, OnOk};
ghost use Rattle.xa_desk.specs.GoingOn.{GoesOn};
ghost use Rattle.xa_desk.specs.Kept.{AllKept};
ghost use Rattle.xa_log.specs.Log.{IsReadAs};
ghost use Rattle.xa_work.specs.Units.{IfLost, LeavesKnown};
ghost use Rattle.demo_bank.specs.Tellers.{HasMade, ReadsBack, has_record_of, has_undecided, last_number, plain};
ghost use Rattle.demo_bank.specs.Numbered.{store_if_at};
ghost use Rattle.demo_bank.specs.Transfers.{HasLegs, HasNoLegs, IsLeg, MakesNext, MayShut, WantsMemory};
ghost use Rattle.demo_bank.specs.Transfers.{change_of, log_after_forgetting, gtrid_of, leg_by, tran_of_transfer};

use crate::habits::Habits;
use std::alloc::{AllocError, Global};
use std::sync::Wait;
use xa_calls::native;
use xa_crew::Client;
use xa_crew::laws::idles_go_on;
use xa_crew_again::ClientAgain;
use xa_desk::laws::desks_go_on;
use xa_desk::{Desk, Idle};
use xa_driver::{Branch, CommitOutcome, forget_acknowledged};
use xa_log::{DecisionLog, DecisionRecords, ReopenLog};
use xa_scan::Scan;
use xa_words::{Delta, Key, ManagerSet, RmOp, TMNOFLAGS, Tran, Xid};
use xa_work::{Change, Refusal, WorkOutcome, open_all, transact_until};

/// An amount that goes from an account at one store to the account of that name at another.
#[derive(Clone, Copy, Debug, PartialEq, Eq)]
pub struct Transfer {
    /// The store that pays, from 1.
    pub from: u32,
    /// The store that is paid.
    pub to: u32,
    pub account: Key,
    pub amount: u32,
}

/// A teller: a decision log of its own, its transfers, and what became of each.
#[derive(Drop)]
pub struct Teller<L> {
    alloc: Global,
    log: L,
    transfers: Vec<Transfer>,
    /// How it goes about them.
    pub habits: Habits,
    /// One for each transfer that was made, in their order: what became of its unit of work. One whose stores are one,
    /// or whose number is too great, isn't begun. None was made after one with which the teller died, or that its log
    /// has lost, and none at all where the log wasn't known at first.
    pub outcomes: Vec<WorkOutcome>,
    /// Whether memory was refused, after which no transfer was made.
    pub wants_memory: bool,
}

// The format of a transfer's name.
const FORMAT: i32 = 1;

// The gtrid of the thread's transfer of this number.
fn gtrid_of(thread: u32, number: u32) -> [u8; 8]
    ensures { result ≡ gtrid_of thread number }
{
    (u64::from(thread) * 0x1_0000_0000 + u64::from(number)).to_be_bytes()
}

// The name of that transaction.
fn tran_named(thread: u32, number: u32) -> Tran
    ensures { result ≡ tran_of_transfer thread number }
{
    let Ok(tran) = Tran::new(FORMAT, &gtrid_of(thread, number)) else {
        unreachable!()
    };
    tran
}

// A store's branch of a transfer, and what is changed there.
type Leg = (Branch, Change);

// The store's leg of this global transaction, which adds the amount to the account.
fn leg_of(gtrid: &[u8], bqual: &[u8], m: u32, key: Key, amount: i64) -> Leg
    requires gtrid { length gtrid.now ≡ 8 }
    requires bqual { length bqual.now ≡ 4 }
    requires low { neg_ℤ (pos u32.MAX) ≤ℤ amount }
    requires high { amount ≤ℤ pos u32.MAX }
    ensures leg { IsLeg gtrid.now m amount (leg_by result.0 result.1) }
    ensures change { result.1 ≡ change_of (leg_by result.0 result.1) key }
{
    let (Ok(xid), Some(delta)) = (Xid::new(FORMAT, gtrid, bqual), Delta::new(amount)) else {
        unreachable!()
    };
    (Branch { m, xid }, Change { m, key, delta })
}

// The two legs of the thread's transfer of this number, by rising store. There are none where the stores are one, or
// the number is too great.
fn legs_of(thread: u32, number: usize, transfer: &Transfer) -> Option<(Leg, Leg)>
    ensures { MatchOption result (HasNoLegs number transfer.now)
        (λ legs. HasLegs thread number transfer.now legs.0.0 legs.0.1 legs.1.0 legs.1.1) }
{
    let gtrid = gtrid_of(thread, u32::try_from(number).ok()?);
    let (from, to, amount) = (transfer.from, transfer.to, i64::from(transfer.amount));
    let pays = leg_of(&gtrid, b"pays", from, transfer.account, -amount);
    let is_paid = leg_of(&gtrid, b"paid", to, transfer.account, amount);
    if from < to {
        Some((pays, is_paid))
    } else if to < from {
        Some((is_paid, pays))
    } else {
        None
    }
}

// Forgets the record of a transfer that came to this, where every store has acknowledged it.
fn forget_made<L: DecisionLog>(log: &mut L, tran: &Tran, outcome: &WorkOutcome)
    requires { LeavesKnown (L.knows log.old) outcome.now }
    ensures forgotten { L.state log.new ≡ log_after_forgetting tran.now outcome.now (L.state log.old) }
    ensures known { LeavesKnown (L.knows log.new) outcome.now }
    ensures lost { IfLost (λ votes. log.new ≡ log.old) outcome.now }
{
    if let WorkOutcome::Commit(CommitOutcome::Decided(done)) = outcome {
        forget_acknowledged(log, tran, done);
    }
}

// Shuts the store that these habits have a teller shut before its transfer at this place, if any.
fn shut<R: Wait, I: Idle>(rt: &R, desk: &mut Desk, habits: &Habits, place: usize, idle: &mut I)
    ensures goes_on { GoesOn desk.old desk.new }
    ensures kept { AllKept desk.old → AllKept desk.new }
    ensures idled { I.leads idle.old idle.new }
    ensures shuts { MayShut (store_if_at habits.now.shuts place) desk.old desk.new }
{
    desks_go_on();
    idles_go_on::<I>();
    if let Some(shuts) = habits.shuts
        && shuts.place == place
    {
        native(rt, desk, RmOp::Shut, shuts.store, TMNOFLAGS, idle);
    }
}

impl<L: DecisionLog + Drop> Teller<L> {
    // Shuts the store that its habits have it shut before the transfer at this place, if any. Then it makes the
    // transfer, or dies with it, as they have it. It fails only for want of memory, and then both branches are given
    // up.
    fn make<R: Wait, I: Idle>(
        &mut self,
        rt: &R,
        desk: &mut Desk,
        place: usize,
        transfer: &Transfer,
        idle: &mut I,
    ) -> Result<WorkOutcome, AllocError>
        requires place { place < 2 ^ 63 }
        requires known { L.knows self.old.log }
        ensures goes_on { GoesOn desk.old desk.new }
        ensures kept { AllKept desk.old → AllKept desk.new }
        ensures idled { I.leads idle.old idle.new }
        ensures same { self.new ≡ record self.old { log = self.new.log } }
        ensures makes { IfOk result (λ o. MakesNext desk.old.thread (self.old.habits.first + place) transfer.now
            self.old.habits o desk.old desk.new (L.state self.old.log) (L.state self.new.log)
            (IsReadAs L.state L.knows L.loses self.new.log)) }
        ensures known { IfOk result (LeavesKnown (L.knows self.new.log)) }
        ensures wants { OnErr result (WantsMemory desk.old.thread (self.old.habits.first + place) transfer.now
            self.old.habits desk.old desk.new (L.state self.old.log)) }
        ensures unlogged { OnErr result (self.new.log ≡ self.old.log) }
    {
        desks_go_on();
        idles_go_on::<I>();
        shut(rt, desk, &self.habits, place, idle);
        let number = self.habits.first as usize + place;
        let Some(legs) = legs_of(desk.thread(), number, transfer) else {
            return Ok(WorkOutcome::Refused(Refusal::NotBegun));
        };
        let ((one, here), (two, there)) = legs;
        let (alloc, at, log) = (self.alloc, self.habits.death_at(place), &mut self.log);
        let outcome = transact_until(rt, alloc, desk, log, &[one, two], &[here, there], at, idle)?;
        if self.habits.forgets {
            forget_made(&mut self.log, &one.xid.tran(), &outcome);
        }
        Ok(outcome)
    }

    // Makes its transfers, until memory is refused, it dies or its log has lost a record. It makes none where the log
    // isn't known.
    fn make_all<R: Wait, I: Idle>(
        &mut self,
        rt: &R,
        desk: &mut Desk,
        idle: &mut I,
    ) -> Result<(), AllocError>
        ensures goes_on { GoesOn desk.old desk.new }
        ensures kept { AllKept desk.old → AllKept desk.new }
        ensures idled { I.leads idle.old idle.new }
        ensures transfers { self.new.transfers ≡ self.old.transfers }
        ensures habits { self.new.habits ≡ self.old.habits }
        ensures each { OnOk result (self.old.habits.death ≡ None → L.knows self.old.log → L.knows self.new.log
            → length self.new.outcomes.items ≡ length self.old.outcomes.items + length self.old.transfers.items) }
        ensures made { OnOk result (HasMade self.old.transfers.items self.old.habits self.old.outcomes.items desk.old
            (L.state self.old.log) (L.knows self.old.log) self.new.outcomes.items desk.new (L.state self.new.log)
            (L.knows self.new.log) (IsReadAs L.state L.knows L.loses self.new.log)) }
    {
        desks_go_on();
        idles_go_on::<I>();
        if !self.log.is_known() {
            return Ok(());
        }
        open_all(rt, desk, idle);
        for place in 0..self.transfers.len() {
            let transfer = self.transfers[place];
            let outcome = self.make(rt, desk, place, &transfer, idle)?;
            let last = outcome.is_last();
            self.outcomes.push(outcome)?;
            if last {
                return Ok(());
            }
        }
        Ok(())
    }

    /// A teller with this log that has made none of its transfers, with room for what becomes of them. It counts them
    /// from 0, lives, shuts no store, and keeps its records; and makes none where the log isn't known.
    pub fn new(alloc: Global, log: L, transfers: Vec<Transfer>) -> Result<Teller<L>, AllocError>
        ensures log { IfOk result (λ t. t.log ≡ log) }
        ensures none { IfOk result (λ t. t.outcomes.items ≡ []) }
        ensures transfers { IfOk result (λ t. t.transfers.items ≡ transfers.items) }
        ensures habits { IfOk result (λ t. t.habits ≡ plain) }
    {
        Ok(Teller {
            alloc,
            log,
            outcomes: Vec::with_capacity(alloc, transfers.len())?,
            transfers,
            habits: Habits {
                first: 0,
                death: None,
                shuts: None,
                forgets: false,
            },
            wants_memory: false,
        })
    }

    /// Sets the teller to other transfers, of which it has made none, with these habits. It keeps its log.
    pub fn turn_to(&mut self, transfers: Vec<Transfer>, habits: Habits)
        ensures log { self.new.log ≡ self.old.log }
        ensures transfers { self.new.transfers ≡ transfers }
        ensures habits { self.new.habits ≡ habits }
        ensures none { self.new.outcomes.items ≡ [] }
        ensures memory { self.new.wants_memory ≡ false }
    {
        self.transfers = transfers;
        self.habits = habits;
        self.outcomes.clear();
        self.wants_memory = false;
    }

    /// Whether nobody knows of one of its transfers whether the log has its record. No other was made after that.
    pub fn has_undecided(&self) -> bool
        ensures { result ≡ has_undecided self.now }
    {
        self.outcomes.iter().any(|outcome| matches!(
            outcome,
            WorkOutcome::Commit(CommitOutcome::Undecided(_))
        ))
    }

    /// Whether its log has the record of the last transfer that it made, as the teller of this thread. It has none of a
    /// transfer whose number is too great.
    pub fn has_last_record(&self, thread: u32) -> bool
        requires made { 0 < length self.now.outcomes.items }
        requires known { L.knows self.now.log }
        ensures { result ≡ has_record_of (L.state self.now.log) thread (last_number self.now) }
    {
        let number = self.habits.first as usize + (self.outcomes.len() - 1);
        match u32::try_from(number) {
            Ok(number) => self.log.has(&tran_named(thread, number)).is_some(),
            Err(_) => false,
        }
    }

    /// Its decision log, and the teller goes.
    pub fn into_log(self) -> L
        ensures { result ≡ self.log }
    {
        self.log
    }
}

impl<L: ReopenLog + Drop> Teller<L> {
    /// The same teller, with its log opened again.
    pub fn with_log_reopened(mut self) -> Teller<L>
        ensures same { result ≡ record self { log = result.log } }
        ensures reopened { L.reopens self.log result.log }
        ensures kept { L.knows self.log → result.log ≡ self.log }
        ensures read { L.knows result.log → IsReadAs L.state L.knows L.loses self.log (L.state result.log) }
    {
        self.log = self.log.reopen();
        self
    }

    /// The same teller, with its log opened again where nobody knows of a transfer whether its record was made; and
    /// whether the log, once it is known, has that record, as the log of the teller of this thread.
    pub fn read_back(self, thread: u32) -> (Teller<L>, bool)
        ensures reads_back { ReadsBack L.state L.knows L.loses L.reopens thread self result.0.log result.1 }
        ensures same { result.0 ≡ record self { log = result.0.log } }
    {
        if !self.has_undecided() {
            return (self, false);
        }
        let teller = self.with_log_reopened();
        let found = teller.is_known() && teller.has_last_record(thread);
        (teller, found)
    }
}

/// What its log has recorded, by which what it left is resolved.
impl<L: DecisionLog + Drop> DecisionRecords for Teller<L> {
    ghost records = { λ teller. (L.state teller.log).records };

    ghost knows = { λ teller. L.knows teller.log };

    fn has(&self, tran: &Tran) -> Option<ManagerSet> {
        self.log.has(tran)
    }

    fn is_known(&self) -> bool {
        self.log.is_known()
    }
}

impl<L: DecisionLog + Drop> Client for Teller<L> {
    ghost use Rattle.demo_bank.specs.Tellers.{TellerWorks};

    ghost works = { TellerWorks L.state L.knows L.loses };

    fn work<R: Wait, I: Idle>(&mut self, rt: &R, desk: &mut Desk, idle: &mut I) {
        self.wants_memory = self.make_all(rt, desk, idle).is_err();
    }
}

/// A teller works in an opening that was opened again as in the first: what was left there is none of its own.
impl<L: DecisionLog + Drop> ClientAgain for Teller<L> {
    ghost use Rattle.demo_bank.specs.Tellers.{WorksOn};

    ghost works_again = { WorksOn L.state L.knows L.loses };

    fn work_again<R: Wait, I: Idle>(
        &mut self,
        rt: &R,
        desk: &mut Desk,
        _scan: &mut Scan,
        idle: &mut I,
    ) {
        self.work(rt, desk, idle)
    }
}
