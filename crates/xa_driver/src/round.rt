//! A round of requests to several managers, request by request.
ghost use Rattle.std.specs.Prelude.{◌≡◌, ◌+◌, ◌≤◌, ◌↔◌, List, [], length, true, false, IfOk, IsTrue, MatchOption};
ghost use Rattle.std.specs.Prelude.{min, take};
ghost use Rattle.xa_desk.specs.DeskViews.{DeskView, outstanding};
ghost use Rattle.xa_desk.specs.GoingOn.{GoesOn};
ghost use Rattle.xa_desk.specs.Kept.{AllKept};
ghost use Rattle.xa_driver.specs.Asks.{Ask, AllCanAsk, AreRising, Asks, KeepsTheRest, SameAsks, among_asks};
ghost use Rattle.xa_driver.specs.Idling.{IdlesAt, IdlesToCollect, IdlesToSend};
ghost use Rattle.xa_driver.specs.RoundSteps.{CollectsNext, SendsNext, count_asked, is_passed, next_collected};
ghost use Rattle.xa_driver.specs.RoundOrder.{CollectsFirst, GoesAsFar, SendsMore, SendsThenCollects};
ghost use Rattle.xa_driver.specs.UnderWay.{AllKeptBut, BeginsRound, CollectsAsk, IsAtRest, AllAreCollected, AllAreSent};
ghost use Rattle.xa_driver.specs.UnderWay.{IsUnderWay, LeavesInFlight, MayAsk, OwnsAll, SendsAsk, Stays, next_ask};
ghost use Rattle.xa_driver.specs.UnderWay.{next_ticket, sent_count};

use crate::ask::{Ask, begin, end, keep};
use std::alloc::{AllocError, Global};
use std::collections::VecDeque;
use std::snapshot::Snapshot;
use std::sync::Wait;
use xa_desk::laws::desks_go_on;
use xa_desk::{Desk, Idle, Ticket};

/// A round of a commit: what each branch's manager is asked, if anything.
///
/// Its requests are sent in the order of the branches, and collected in that order. To a manager that is learnt to be
/// shut nothing is sent, which counts as `XAER_RMFAIL`.
pub struct Round {
    pub(crate) before: Snapshot<Desk>,
    pub(crate) asks: Vec<Ask>,
    pub(crate) collected: usize,
    pub(crate) tickets: VecDeque<Option<Ticket>>,
}

// Whether each of these managers can take one more request.
fn can_ask_all(desk: &Desk, asks: &[Ask]) -> bool
    ensures { IsTrue result ↔ AllCanAsk asks.now desk.now.ledgers }
{
    for ask in asks {
        if desk.room(ask.manager) < 1 {
            return false;
        }
    }
    true
}

// Keeps the operations of all these tickets under handles, where they stay until somebody collects them.
#[tactic(auto, using(crate::proofs::Flights::first_owned, xa_base::proofs::none_of, crate::proofs::Flights::all_kept))]
fn keep_all(desk: &mut Desk, tickets: &mut VecDeque<Option<Ticket>>)
    requires { OwnsAll desk.old tickets.old.items }
    ensures left { LeavesInFlight tickets.old.items desk.old desk.new }
    ensures goes_on { GoesOn desk.old desk.new }
    ensures kept { AllKeptBut tickets.old.items desk.old → AllKept desk.new }
    ensures none { tickets.new.items ≡ [] }
{
    desks_go_on();
    for _place in 0..tickets.len() {
        let Some(ticket) = tickets.pop_front() else {
            unreachable!()
        };
        keep(desk, ticket);
    }
}

impl Round {
    /// A round of these requests, of which none is sent.
    #[tactic(auto, using(crate::proofs::Stepping::begins))]
    pub(crate) fn new(alloc: Global, desk: &Desk, asks: Vec<Ask>) -> Result<Round, AllocError>
        requires rising { AreRising 0 asks.items }
        requires can { AllCanAsk asks.items desk.now.ledgers }
        requires free { outstanding desk.now.ledgers + length asks.items ≤ desk.now.handles }
        ensures begins { IfOk result (BeginsRound asks.items desk.now) }
    {
        let tickets = VecDeque::with_capacity(alloc, asks.len())?;
        Ok(Round {
            before: Snapshot::of(desk),
            asks,
            collected: 0,
            tickets,
        })
    }

    /// The next round, of what the requests have become since the last one.
    #[tactic(auto, using(crate::proofs::Stepping::begins))]
    pub(crate) fn again(&mut self, desk: &Desk)
        requires rest { IsAtRest self.old }
        requires may { MayAsk self.old desk.now }
        ensures { BeginsRound self.old.asks.items desk.now self.new }
    {
        self.before = Snapshot::of(desk);
        self.collected = 0;
    }

    /// Whether the next round may be asked: each manager can take one more request, and there is a handle for each.
    pub(crate) fn may_ask(&self, desk: &Desk) -> bool
        ensures { IsTrue result ↔ MayAsk self.now desk.now }
    {
        can_ask_all(desk, &self.asks) && desk.free() as usize >= self.asks.len()
    }

    // Whether nothing is asked at the next place.
    fn is_passed(&self) -> bool
        requires { (d : DeskView) × IsUnderWay self.now d }
        ensures { result ≡ is_passed (next_ask self.now) }
    {
        let place = self.collected + self.tickets.len();
        place < self.asks.len() && self.asks[place].is_passed()
    }

    // Whether nothing was asked at the place that is collected next.
    fn is_unasked(&self) -> bool
        requires { (d : DeskView) × IsUnderWay self.now d }
        ensures { result ≡ is_passed (next_collected self.now) }
    {
        !self.tickets.is_empty() && self.asks[self.collected].is_passed()
    }

    // Comes to the next place, and sends what is asked there, if anything is. It tells whether there was one.
    fn send_place<R: Wait, I: Idle>(&mut self, rt: &R, desk: &mut Desk, idle: &mut I) -> bool
        requires { IsUnderWay self.old desk.old }
        ensures under_way { IsUnderWay self.new desk.new }
        ensures sends { MatchOption (next_ask self.old) ((result ≡ false) × Stays self.old self.new desk.old desk.new)
            (λ k. (result ≡ true) × SendsAsk k self.old self.new desk.old desk.new) }
        ensures waited { MatchOption (next_ask self.old) (idle.new ≡ idle.old)
            (λ k. IdlesToSend I.leads_by k desk.old desk.new idle.old idle.new) }
        ensures before { self.new.before ≡ self.old.before }
        ensures same { (js : List Ask) → SameAsks js self.old.asks.items → SameAsks js self.new.asks.items }
        ensures idled { I.leads idle.old idle.new }
    {
        let place = self.collected + self.tickets.len();
        if place >= self.asks.len() {
            return false;
        }
        let ticket = begin(rt, desk, &self.asks[place], idle);
        self.tickets.push_back_reserved(ticket);
        true
    }

    /// Sends the next request of the round, and idles while its lane is full. It tells whether there was one. A branch
    /// that is asked nothing is passed over.
    pub fn send_next<R: Wait, I: Idle>(&mut self, rt: &R, desk: &mut Desk, idle: &mut I) -> bool
        requires { IsUnderWay self.old desk.old }
        ensures under_way { IsUnderWay self.new desk.new }
        ensures sends { SendsNext I.leads_by self.old self.new desk.old desk.new idle.old idle.new result }
        ensures before { self.new.before ≡ self.old.before }
        ensures same { (js : List Ask) → SameAsks js self.old.asks.items → SameAsks js self.new.asks.items }
        ensures idled { I.leads idle.old idle.new }
    {
        'passed: while self.is_passed() {
            self.send_place(rt, desk, idle);
        }
        self.send_place(rt, desk, idle)
    }

    // Collects what is longest in flight, if anything was sent there. It tells whether there was a place.
    fn collect_place<R: Wait, I: Idle>(&mut self, rt: &R, desk: &mut Desk, idle: &mut I) -> bool
        requires { IsUnderWay self.old desk.old }
        ensures under_way { IsUnderWay self.new desk.new }
        ensures collects { MatchOption (next_ticket self.old)
            ((result ≡ false) × Stays self.old self.new desk.old desk.new)
            (λ t. (result ≡ true) × CollectsAsk t self.old self.new desk.old desk.new) }
        ensures waited { MatchOption (next_ticket self.old) (idle.new ≡ idle.old)
            (λ t. IdlesToCollect I.leads_by t desk.old desk.new idle.old idle.new) }
        ensures before { self.new.before ≡ self.old.before }
        ensures same { (js : List Ask) → SameAsks js self.old.asks.items → SameAsks js self.new.asks.items }
        ensures idled { I.leads idle.old idle.new }
    {
        if self.tickets.is_empty() {
            return false;
        }
        let Some(ticket) = self.tickets.pop_front() else {
            unreachable!()
        };
        let place = self.collected;
        let code = end(rt, desk, &self.asks[place], ticket, idle);
        self.asks[place].enter(code);
        self.collected = place + 1;
        true
    }

    /// Waits for the answer to the request that is longest in flight, and collects it. It tells whether there was one.
    /// A branch that was asked nothing is passed over.
    pub fn collect_next<R: Wait, I: Idle>(&mut self, rt: &R, desk: &mut Desk, idle: &mut I) -> bool
        requires { IsUnderWay self.old desk.old }
        ensures under_way { IsUnderWay self.new desk.new }
        ensures collects { CollectsNext I.leads_by self.old self.new desk.old desk.new idle.old idle.new result }
        ensures before { self.new.before ≡ self.old.before }
        ensures same { (js : List Ask) → SameAsks js self.old.asks.items → SameAsks js self.new.asks.items }
        ensures idled { I.leads idle.old idle.new }
    {
        'passed: while self.is_unasked() {
            self.collect_place(rt, desk, idle);
        }
        self.collect_place(rt, desk, idle)
    }

    // Sends all that isn't sent.
    #[tactic(auto, using(crate::proofs::Progress::idles_start, crate::proofs::Progress::sends_stay))]
    fn send_all<R: Wait, I: Idle>(&mut self, rt: &R, desk: &mut Desk, idle: &mut I)
        requires { IsUnderWay self.old desk.old }
        ensures under_way { IsUnderWay self.new desk.new }
        ensures all { AllAreSent self.new }
        ensures long { length self.new.asks.items ≡ length self.old.asks.items }
        ensures before { self.new.before ≡ self.old.before }
        ensures same { (js : List Ask) → SameAsks js self.old.asks.items → SameAsks js self.new.asks.items }
        ensures waited { IdlesAt I.leads_by (among_asks self.old.asks.items) idle.old idle.new }
        ensures asks { (self.new.asks ≡ self.old.asks) × (self.new.collected ≡ self.old.collected) }
        ensures ordered { SendsMore self.old.tickets.items self.new.tickets.items desk.old desk.new }
        ensures idled { I.leads idle.old idle.new }
    {
        for _place in 0..self.asks.len() {
            self.send_place(rt, desk, idle);
        }
    }

    // Collects all that is in flight.
    #[tactic(auto, using(crate::proofs::Progress::idles_start, crate::proofs::Progress::collects_nothing))]
    fn collect_all<R: Wait, I: Idle>(&mut self, rt: &R, desk: &mut Desk, idle: &mut I)
        requires under_way { IsUnderWay self.old desk.old }
        requires all { AllAreSent self.old }
        ensures under_way { IsUnderWay self.new desk.new }
        ensures all { AllAreCollected self.new }
        ensures long { length self.new.asks.items ≡ length self.old.asks.items }
        ensures before { self.new.before ≡ self.old.before }
        ensures same { (js : List Ask) → SameAsks js self.old.asks.items → SameAsks js self.new.asks.items }
        ensures waited { IdlesAt I.leads_by (among_asks self.old.asks.items) idle.old idle.new }
        ensures ordered { CollectsFirst self.old.tickets.items self.new.tickets.items desk.old desk.new }
        ensures idled { I.leads idle.old idle.new }
    {
        for _place in 0..self.asks.len() {
            self.collect_place(rt, desk, idle);
        }
    }

    // Collects the answers to the first so many requests, or to all where there are fewer.
    fn collect_first<R: Wait, I: Idle>(&mut self, rt: &R, desk: &mut Desk, count: u8, idle: &mut I)
        requires under_way { IsUnderWay self.old desk.old }
        requires all { AllAreSent self.old }
        requires none { self.old.collected ≡ 0 }
        ensures under_way { IsUnderWay self.new desk.new }
        ensures all { AllAreSent self.new }
        ensures first { count_asked (take self.new.collected self.new.asks.items)
            ≡ min count (count_asked self.new.asks.items) }
        ensures before { self.new.before ≡ self.old.before }
        ensures same { (js : List Ask) → SameAsks js self.old.asks.items → SameAsks js self.new.asks.items }
        ensures waited { IdlesAt I.leads_by (among_asks self.old.asks.items) idle.old idle.new }
        ensures ordered { CollectsFirst self.old.tickets.items self.new.tickets.items desk.old desk.new }
        ensures idled { I.leads idle.old idle.new }
    {
        let mut left = count;
        'answers: while left > 0 && !self.tickets.is_empty() {
            if !self.is_unasked() {
                left -= 1;
            }
            self.collect_place(rt, desk, idle);
        }
    }

    /// Sends the whole round, and then collects the answers to the first so many requests, or to all where there are
    /// fewer. A branch that is asked nothing doesn't count.
    pub(crate) fn begin_to_collect<R: Wait, I: Idle>(
        &mut self,
        rt: &R,
        desk: &mut Desk,
        count: u8,
        idle: &mut I,
    )
        requires under_way { IsUnderWay self.old desk.old }
        requires none { sent_count self.old ≡ 0 }
        ensures under_way { IsUnderWay self.new desk.new }
        ensures all { AllAreSent self.new }
        ensures first { count_asked (take self.new.collected self.new.asks.items)
            ≡ min count (count_asked self.new.asks.items) }
        ensures before { self.new.before ≡ self.old.before }
        ensures same { (js : List Ask) → SameAsks js self.old.asks.items → SameAsks js self.new.asks.items }
        ensures waited { IdlesAt I.leads_by (among_asks self.old.asks.items) idle.old idle.new }
        ensures ordered { GoesAsFar self.old.asks.items self.old.before.value.ledgers desk.old desk.new }
        ensures idled { I.leads idle.old idle.new }
    {
        self.send_all(rt, desk, idle);
        self.collect_first(rt, desk, count, idle);
    }

    /// Sends all that isn't sent, and then collects all that is in flight.
    pub(crate) fn finish<R: Wait, I: Idle>(&mut self, rt: &R, desk: &mut Desk, idle: &mut I)
        requires { IsUnderWay self.old desk.old }
        ensures rest { IsAtRest self.new }
        ensures long { length self.new.asks.items ≡ length self.old.asks.items }
        ensures asked { Asks self.new.asks.items self.old.before.value.ledgers desk.new.ledgers }
        ensures same { (js : List Ask) → SameAsks js self.old.asks.items → SameAsks js self.new.asks.items }
        ensures keeps { KeepsTheRest self.old.before.value desk.new }
        ensures waited { IdlesAt I.leads_by (among_asks self.old.asks.items) idle.old idle.new }
        ensures ordered { SendsThenCollects self.old desk.old desk.new }
        ensures idled { I.leads idle.old idle.new }
    {
        self.send_all(rt, desk, idle);
        self.collect_all(rt, desk, idle);
    }

    /// Leaves the round as it stands: what is in flight is kept under handles.
    #[tactic(auto, using(crate::proofs::Flights::flights_owned))]
    pub(crate) fn leave(self, desk: &mut Desk)
        requires { IsUnderWay self desk.old }
        ensures left { LeavesInFlight self.tickets.items desk.old desk.new }
        ensures goes_on { GoesOn desk.old desk.new }
        ensures kept { AllKept self.before.value → AllKept desk.new }
    {
        let Round {
            before: _,
            asks: _,
            collected: _,
            mut tickets,
        } = self;
        keep_all(desk, &mut tickets);
        tickets.destroy_empty();
    }

    /// Ends a round of which nothing is in flight.
    pub(crate) fn end(self)
        requires { IsAtRest self }
    {
        let Round {
            before: _,
            asks: _,
            collected: _,
            tickets,
        } = self;
        tickets.destroy_empty();
    }
}
