//! One thread of control's desk over its lanes, and why it refuses a request.
ghost use Rattle.std.specs.Prelude.{◌≡◌, ◌≢◌, ℕ, ◌-◌, ◌<◌, ◌≤◌, ◌↔◌, length, IfOk, IfErr, IfSome, IfNone, OnOk, OnErr};
ghost use Rattle.std.specs.Prelude.{OnSome, IsTrue, IsSome, IsNone, IsOk, IsErr, Some, None, false, true, option_map};
ghost use Rattle.std.specs.Prelude.{◌&&◌};
ghost use Rattle.xa_desk.specs.LedgerViews.{learnt_shut};
ghost use Rattle.xa_desk.specs.DeskViews.{TicketView, IsKnown, IsHandle, Owns, ledger, outstanding, drained_code};
ghost use Rattle.xa_desk.specs.DeskViews.{ticket_of, next_operation, reach_refusal, submit_refusal, call_refusal};
ghost use Rattle.xa_desk.specs.DeskViews.{IsLeastFree, ready_at, keeps_at, room_at, is_known, handle_refusal};
ghost use Rattle.xa_desk.specs.DeskViews.{spent_refusal, room_refusal};
ghost use Rattle.xa_desk.specs.Ended.{Ends, AreBalanced};
ghost use Rattle.xa_desk.specs.GoingOn.{GoesOn, GoesOut};
ghost use Rattle.xa_desk.specs.Lanes.{AreEnds, AreUnused, IsDesk, new_desk, submitted, after_full, after_fulls};
ghost use Rattle.xa_desk.specs.Looks.{EndsQuiet, Collects, CollectsKept, CollectsLeast};
ghost use Rattle.xa_desk.specs.Tickets.{LeavesTickets, LeavesOthers};
ghost use Rattle.xa_desk.specs.Waits.{WaitsFor, WaitsForAny, SendsAndWaits, MarkEnds};
ghost use Rattle.std.specs.FinMap as map;

use crate::book::Book;
use crate::ended::{EndedDesk, end};
use crate::idle::Idle;
use crate::kept::keeps_any;
use crate::operation::Ticket;
use crate::parts::DeskParts;
use crate::pump::{
    send_waiting, try_collect, try_collect_any, try_collect_kept, wait_for, wait_for_any,
    wait_until,
};
use crate::refused::{AnyFault, NothingOutstanding, Refused};
use std::marker::Model;
use std::sync::Wait;
use xa_base::{MOST_HANDLES, MOST_MANAGERS, MOST_THREADS};
use xa_lane::{Receiver, Sender};
use xa_words::{Code, Completion, Op, Request};

/// What one thread of control sends requests and collects completions by.
///
/// All memory is reserved by `DeskParts`: no call of a desk takes any. A call that waits looks first, and
/// idles on what it waits for after each look that found nothing, and nowhere else (`waited`); it may never
/// return, and its promise holds if it does. What a call's contract doesn't name of the desk stays. `tied`
/// says that the ledgers and what was drained say what the ends of the lanes do, `goes_on` what each call
/// keeps of a desk, and `tickets` or `others` which of the tickets that were owned still are.
pub struct Desk {
    book: Book,
}

// It is dropped by one call, wherever that is, and not part by part there.
impl Drop for Desk {
    fn drop(self) {
        let Desk { book: _ } = self;
    }
}

impl Model for Desk {
    ghost use Rattle.std.specs.Prelude.{◌≤◌};
    ghost use Rattle.std.specs.Coded.{codes};
    ghost use Rattle.xa_desk.specs.DeskViews.{DeskView, kept_code, outstanding};
    ghost use Rattle.xa_desk.specs.Lanes.{IsDesk};

    ghost Value = { DeskView };

    ghost coded = { Prim.hlevel (codes, kept_code) };

    ghost view = { λ d. d.book };

    ghost invariant = { λ d. (outstanding d.book.ledgers ≤ d.book.handles) × IsDesk d.book };
}

impl Desk {
    /// A desk that has done nothing, over ends of lanes on which nothing was sent and taken.
    ///
    /// `requests` has the thread's end of the lane to each manager, by rising manager, and on the lane of
    /// `completions` each manager sends. The names of these lanes have one opening, and as index the
    /// manager, that of `completions` the thread. It takes no memory.
    pub fn assemble(
        parts: DeskParts,
        requests: Vec<Sender<Request>>,
        completions: Receiver<Completion>,
    ) -> Desk
        requires ends { AreEnds parts.thread (length parts.use_async) requests.items completions }
        requires new { AreUnused requests.items completions }
        ensures made { result ≡ new_desk parts requests.items completions }
    {
        Desk {
            book: Book::assemble(parts, requests, completions),
        }
    }

    /// What holds of every desk: its ledgers and what was drained say what the ends of its lanes do. A law: nothing is
    /// done.
    pub fn is_tied(&self)
        ensures { IsDesk self.now }
    {
        let _inside = &self.book;
    }

    /// What holds of every desk: it has no more managers than there may be. A law: nothing is done.
    pub fn has_few_managers(&self)
        ensures { length self.now.ledgers ≤ MOST_MANAGERS }
    {
        let _managers = self.book.managers();
    }

    /// The thread of control, from 1.
    pub fn thread(&self) -> u32
        ensures thread { result ≡ self.now.thread }
        ensures limits { (1 ≤ result) × (result ≤ MOST_THREADS) }
    {
        self.book.thread()
    }

    /// How many handles there are. Nothing is kept under 0 and under a greater number.
    pub fn handles(&self) -> u32
        ensures handles { result ≡ self.now.handles }
        ensures limit { result ≤ MOST_HANDLES }
        ensures past { (k : ℕ) → result < k → map.get self.now.kept k ≡ None }
        ensures zero { map.get self.now.kept 0 ≡ None }
    {
        self.book.handles()
    }

    /// How many handles are free: those there are, less the operations that are outstanding.
    pub fn free(&self) -> u32
        ensures free { result ≡ self.now.handles - outstanding self.now.ledgers }
        ensures within { outstanding self.now.ledgers ≤ self.now.handles }
        ensures limit { self.now.handles ≤ MOST_HANDLES }
    {
        // No more are outstanding than there are handles.
        self.handles() - self.book.slots.len() as u32
    }

    /// How many planned requests are left for the manager; 0 for no manager.
    pub fn room(&self, manager: u32) -> u32
        ensures { result ≡ room_at self.now.ledgers manager }
    {
        if !self.knows(manager) {
            return 0;
        }
        self.book.ledgers[manager as usize - 1].room()
    }

    /// How many managers there are, which are numbered from 1.
    pub fn managers(&self) -> u32
        ensures managers { result ≡ length self.now.ledgers }
        ensures limits { (1 ≤ result) × (result ≤ MOST_MANAGERS) }
    {
        self.book.managers()
    }

    // Whether there is a manager of this number.
    #[inline(always)]
    pub(crate) fn knows(&self, manager: u32) -> bool
        ensures { result ≡ is_known self.now.ledgers manager }
    {
        1 <= manager && manager <= self.managers()
    }

    /// Whether `XAER_RMFAIL` was collected from the manager, so that nothing more is sent to it; false
    /// for no manager.
    pub fn learnt_shut(&self, manager: u32) -> bool
        ensures { result ≡ (is_known self.now.ledgers manager && learnt_shut (ledger self.now.ledgers manager)) }
    {
        self.knows(manager) && self.book.ledgers[manager as usize - 1].learnt_shut()
    }

    /// Whether the manager takes asynchronous calls: `TMUSEASYNC` (C193, chapter 4); false for no
    /// manager.
    pub fn carries_async(&self, manager: u32) -> bool
        ensures { result ≡ (is_known self.now.ledgers manager && (ledger self.now.ledgers manager).carries_async) }
    {
        self.knows(manager) && self.book.ledgers[manager as usize - 1].carries_async()
    }

    /// Whether the ticket is of the desk's opening and thread, and its operation is outstanding and not
    /// kept.
    pub fn owns(&self, ticket: &Ticket) -> bool
        ensures { IsTrue result ↔ Owns self.now ticket.now }
    {
        ticket.opening() == self.book.opening()
            && ticket.thread() == self.thread()
            && self.book.is_loose(ticket.operation())
    }

    /// Sends a request to a manager; its completion is collected later, by the ticket.
    ///
    /// The refusals come in the order of `Refused`, each where its condition holds and nowhere else; `Full`
    /// where a push of this call found the queue of the lane to the manager full, which the lane's end
    /// counts. No completion is looked at.
    #[inline(always)]
    pub fn submit<R: Wait>(&mut self, rt: &R, manager: u32, op: &Op) -> Result<Ticket, Refused>
        ensures refused { (why : _) → submit_refusal self.old manager ≡ Some why
            → (result ≡ Err why) × (self.new ≡ self.old) }
        ensures full { submit_refusal self.old manager ≡ None → IfErr result (λ why. (why ≡ Refused.Full)
            × (self.new ≡ after_full self.old manager)) }

        // A sent request has the next number, and the desk owns its ticket.
        ensures ticket { IfOk result (λ t. t ≡ ticket_of self.old (next_operation self.old.ledgers manager)) }
        ensures owned { IfOk result (λ t. Owns self.new t) }
        ensures sent { OnOk result (self.new ≡ submitted self.old manager op.now) }
        ensures goes_on { GoesOn self.old self.new }

        // Each older ticket is still owned, and of another operation.
        ensures tickets { LeavesTickets self.old self.new }
        ensures fresh { IfOk result (λ t. (older : TicketView) → Owns self.old older → older.operation ≢ t.operation) }
    {
        // What holds of the book, for the way out by a refusal.
        let _ = &self.book;
        if let Some(why) = self.reach_refusal(manager) {
            return Err(why);
        }
        self.submit_reached(rt, manager, op)
    }

    /// `submit` to a manager that `reach_refusal` was asked about, and doesn't refuse: only the handles and the
    /// planned requests are still judged.
    #[tactic(auto, using(crate::proofs::Ties::submitted_desk, crate::proofs::Ties::full_desk))]
    pub fn submit_reached<R: Wait>(
        &mut self,
        rt: &R,
        manager: u32,
        op: &Op,
    ) -> Result<Ticket, Refused>
        requires reached { reach_refusal self.old manager ≡ None }
        ensures refused { (why : _) → submit_refusal self.old manager ≡ Some why
            → (result ≡ Err why) × (self.new ≡ self.old) }
        ensures full { submit_refusal self.old manager ≡ None → IfErr result (λ why. (why ≡ Refused.Full)
            × (self.new ≡ after_full self.old manager)) }
        ensures ticket { IfOk result (λ t. t ≡ ticket_of self.old (next_operation self.old.ledgers manager)) }
        ensures owned { IfOk result (λ t. Owns self.new t) }
        ensures sent { OnOk result (self.new ≡ submitted self.old manager op.now) }
        ensures goes_on { GoesOn self.old self.new }
        ensures tickets { LeavesTickets self.old self.new }
        ensures fresh { IfOk result (λ t. (older : TicketView) → Owns self.old older → older.operation ≢ t.operation) }
    {
        if let Some(why) = self.room_refusal(manager) {
            return Err(why);
        }
        let Some(operation) = self.book.offer(rt, manager, op) else {
            return Err(Refused::Full);
        };
        Ok(Ticket::new(&self.book, operation))
    }

    /// Sends a request to a manager and collects its completion: the synchronous form, with a slot of its
    /// own beyond the handles.
    ///
    /// It is refused as `NoSuchManager`, `Shut` or `Spent`, in this order, each where its condition holds
    /// and nowhere else. Where the lane to the manager is full it idles on the manager and tries again.
    #[inline(always)]
    pub fn call<R: Wait, I: Idle>(
        &mut self,
        rt: &R,
        manager: u32,
        op: &Op,
        idle: &mut I,
    ) -> Result<Code, Refused>
        ensures refused { (why : _) → call_refusal self.old manager ≡ Some why → result ≡ Err why }
        ensures answered { call_refusal self.old manager ≡ None → IsOk result }
        ensures unchanged { OnErr result (self.new ≡ self.old) }

        // Once the lane was found full so many times, the request was sent.
        ensures collected { IfOk result (λ code. (n : ℕ) × Collects
            (submitted (after_fulls n self.old manager) manager op.now) self.new
            (next_operation self.old.ledgers manager) code) }
        ensures goes_on { GoesOn self.old self.new }
        ensures tickets { LeavesTickets self.old self.new }
        ensures waited { IfOk result (SendsAndWaits (I.leads_by manager) self.old self.new idle.old idle.new manager
            op.now) }
        ensures idled { I.leads idle.old idle.new }
        ensures idle_stays { OnErr result (idle.new ≡ idle.old) }
    {
        if let Some(why) = self.call_refusal(manager) {
            return Err(why);
        }
        let operation = send_waiting(rt, &mut self.book, manager, op, idle);
        Ok(wait_until(rt, &mut self.book, operation, idle))
    }

    /// Collects the ticket's operation, waiting for its completion: `xa_complete()` of a handle with
    /// `TMNOFLAGS` (C193, chapter 5).
    pub fn complete<R: Wait, I: Idle>(&mut self, rt: &R, ticket: Ticket, idle: &mut I) -> Code
        requires { Owns self.old ticket }
        ensures collected { Collects self.old self.new ticket.operation result }
        ensures goes_on { GoesOn self.old self.new }
        ensures others { LeavesOthers self.old self.new ticket.operation }
        ensures waited { WaitsFor (I.leads_by ticket.operation.manager) self.old self.new idle.old idle.new
            ticket.operation result }
        ensures idled { I.leads idle.old idle.new }
    {
        wait_for(rt, &mut self.book, ticket.spend(), idle)
    }

    /// Collects the ticket's operation where its completion came; else the ticket comes back, which is
    /// `XA_RETRY` of `xa_complete()` with `TMNOWAIT` (C193, chapter 5).
    ///
    /// It comes back only after a quiet moment at which the completion wasn't drained.
    pub fn try_complete<R: Wait>(&mut self, rt: &R, ticket: Ticket) -> Result<Code, Ticket>
        requires { Owns self.old ticket }
        ensures collected { IfOk result (Collects self.old self.new ticket.operation) }
        ensures back { IfErr result (λ t. t ≡ ticket) }
        ensures owned { IfErr result (λ t. Owns self.new t) }
        ensures quiet { OnErr result (EndsQuiet self.old self.new) }
        ensures nothing { OnErr result (drained_code ticket.operation self.new.drained ≡ None) }
        ensures goes_on { GoesOn self.old self.new }
        ensures others { LeavesOthers self.old self.new ticket.operation }
        ensures tickets { OnErr result (LeavesTickets self.old self.new) }
    {
        match try_collect(rt, &mut self.book, ticket.operation()) {
            Some(code) => {
                ticket.spend();
                Ok(code)
            }
            None => Err(ticket),
        }
    }

    /// Keeps the ticket's operation under the least positive number that no kept operation has: the
    /// handle that a call with `TMASYNC` answers (C193, chapter 4).
    pub fn keep(&mut self, ticket: Ticket) -> u32
        requires { Owns self.old ticket }
        ensures least { IsLeastFree self.old.kept result }
        ensures kept { self.new ≡ record self.old { kept = map.insert self.old.kept result ticket.operation } }
        ensures handle { IsHandle result }
        ensures goes_on { GoesOn self.old self.new }
        ensures others { LeavesOthers self.old self.new ticket.operation }
    {
        self.book.keep(ticket.spend())
    }

    /// The ticket of the operation that is kept under the number, which is free again; `None` for a
    /// number that isn't kept.
    pub fn redeem(&mut self, number: u32) -> Option<Ticket>
        ensures kept { IfSome result (λ t. map.get self.old.kept number ≡ Some t.operation) }
        ensures owned { IfSome result (λ t. Owns self.new t) }
        ensures freed { OnSome result (self.new ≡ record self.old { kept = map.remove self.old.kept number }) }
        ensures absent { IsNone result ↔ (map.get self.old.kept number ≡ None) }
        ensures unchanged { IfNone result (self.new ≡ self.old) }
        ensures goes_on { GoesOn self.old self.new }

        // Each older ticket is still owned, and of another operation.
        ensures tickets { LeavesTickets self.old self.new }
        ensures fresh { IfSome result (λ t. (older : TicketView) → Owns self.old older
            → older.operation ≢ t.operation) }
    {
        let operation = self.book.release(number)?;
        Some(Ticket::new(&self.book, operation))
    }

    /// The manager of the operation that is kept under the number; `None` for a number that isn't kept.
    pub fn manager_of(&self, number: u32) -> Option<u32>
        ensures manager { result ≡ option_map (λ o. o.manager) (map.get self.now.kept number) }
        ensures known { IfSome result (IsKnown self.now.ledgers) }
        ensures handle { IfSome result (λ _. IsHandle number) }
    {
        match self.book.kept_at(number) {
            Some(operation) => Some(operation.manager),
            None => None,
        }
    }

    /// Collects what is kept under the number where its completion came, and frees the number: as
    /// `xa_complete()` with `TMNOWAIT` does (C193, chapter 5). `None` is `XA_RETRY`.
    ///
    /// `None` comes only after a quiet moment at which the completion wasn't drained; the operation stays
    /// kept under its number.
    pub fn try_kept<R: Wait>(&mut self, rt: &R, number: u32) -> Option<Code>
        requires { IsSome (map.get self.old.kept number) }
        ensures collected { IfSome result (CollectsKept self.old self.new number) }
        ensures quiet { IsNone result → EndsQuiet self.old self.new }
        ensures nothing { IsNone result → ready_at self.new 0 number ≡ false }
        ensures goes_on { GoesOn self.old self.new }
        ensures tickets { LeavesTickets self.old self.new }
    {
        try_collect_kept(rt, &mut self.book, number)
    }

    /// Collects the least number of the manager, of any for 0, whose completion came, waiting for one:
    /// `xa_complete()` with `TMMULTIPLE` (C193, chapter 5).
    ///
    /// Before it answers, and before each idle, it looks until the lane of completions is found empty.
    pub fn complete_any<R: Wait, I: Idle>(
        &mut self,
        rt: &R,
        manager: u32,
        idle: &mut I,
    ) -> Result<(u32, Code), NothingOutstanding>
        ensures collected { IfOk result (λ r. CollectsLeast self.old self.new manager r.0 r.1) }
        ensures handle { IfOk result (λ r. IsHandle r.0) }
        ensures some { IsOk result → (k : ℕ) × (keeps_at self.old manager k ≡ true) }
        ensures nothing { IsErr result → (k : ℕ) → keeps_at self.old manager k ≡ false }
        ensures unchanged { OnErr result (self.new ≡ self.old) }
        ensures goes_on { GoesOn self.old self.new }
        ensures tickets { LeavesTickets self.old self.new }
        ensures waited { IfOk result (λ r. WaitsForAny (I.leads_by manager) self.old self.new idle.old idle.new manager
            r.0 r.1) }
        ensures idled { I.leads idle.old idle.new }
        ensures idle_stays { OnErr result (idle.new ≡ idle.old) }
    {
        if !keeps_any(&self.book, manager) {
            return Err(NothingOutstanding);
        }
        Ok(wait_for_any(rt, &mut self.book, manager, idle))
    }

    /// Collects the least number of the manager, of any for 0, whose completion came: `xa_complete()` with
    /// `TMMULTIPLE` and `TMNOWAIT` (C193, chapter 5).
    ///
    /// The faults come in the order of `AnyFault`. Before it answers `Ok` or `Retry` it looks until the
    /// lane of completions is found empty.
    pub fn try_complete_any<R: Wait>(
        &mut self,
        rt: &R,
        manager: u32,
    ) -> Result<(u32, Code), AnyFault>
        ensures collected { IfOk result (λ r. CollectsLeast self.old self.new manager r.0 r.1) }
        ensures handle { IfOk result (λ r. IsHandle r.0) }
        ensures some { IsOk result → (k : ℕ) × (keeps_at self.old manager k ≡ true) }

        ensures nothing { result ≡ Err AnyFault.NothingOutstanding → (k : ℕ) → keeps_at self.old manager k ≡ false }
        ensures unchanged { result ≡ Err AnyFault.NothingOutstanding → self.new ≡ self.old }

        ensures retry_some { result ≡ Err AnyFault.Retry → (k : ℕ) × (keeps_at self.old manager k ≡ true) }
        ensures retry_quiet { result ≡ Err AnyFault.Retry → EndsQuiet self.old self.new }
        ensures retry_none { result ≡ Err AnyFault.Retry → (k : ℕ) → ready_at self.new manager k ≡ false }
        ensures goes_on { GoesOn self.old self.new }
        ensures tickets { LeavesTickets self.old self.new }
    {
        if !keeps_any(&self.book, manager) {
            return Err(AnyFault::NothingOutstanding);
        }
        let Some(collected) = try_collect_any(rt, &mut self.book, manager) else {
            return Err(AnyFault::Retry);
        };
        Ok(collected)
    }

    /// Ends the desk where nothing is outstanding, so that each request was collected once; else the desk
    /// comes back as it was.
    ///
    /// It sends its end mark to each manager, by rising manager, and idles on the manager where the lane to
    /// it is full.
    pub fn finish<R: Wait, I: Idle>(self, rt: &R, idle: &mut I) -> Result<EndedDesk, Desk>
        ensures ended { IfOk result (Ends self) }
        ensures back { IfErr result (λ d. d ≡ self) }
        ensures outstanding { IsErr result ↔ (0 < outstanding self.ledgers) }
        ensures settled { IfOk result (λ e. AreBalanced e.ledgers) }
        ensures goes_out { IfOk result (GoesOut self) }
        ensures marked { IfOk result (λ e. MarkEnds I.leads_by 0 self.requests e.requests idle.old idle.new) }
        ensures idled { I.leads idle.old idle.new }
        ensures idle_stays { OnErr result (idle.new ≡ idle.old) }
    {
        if self.book.is_outstanding() {
            return Err(self);
        }
        let Desk { book } = self;
        Ok(end(rt, book, idle))
    }
}

impl Desk {
    /// Why nothing may be sent to the manager, handles, planned requests and a full lane aside:
    /// `NoSuchManager` or `Shut`, the first that holds.
    pub fn reach_refusal(&self, manager: u32) -> Option<Refused>
        ensures { result ≡ reach_refusal self.now manager }
    {
        if !self.knows(manager) {
            return Some(Refused::NoSuchManager);
        }
        if self.learnt_shut(manager) {
            return Some(Refused::Shut);
        }
        None
    }

    // Why no operation may be begun that takes a handle.
    fn handle_refusal(&self) -> Option<Refused>
        ensures { result ≡ handle_refusal self.now }
    {
        (self.free() == 0).then_some(Refused::TooMany)
    }

    // Why no further request may be sent to the manager.
    fn spent_refusal(&self, manager: u32) -> Option<Refused>
        ensures { result ≡ spent_refusal self.now manager }
    {
        (self.room(manager) == 0).then_some(Refused::Spent)
    }

    // Why no asynchronous request may be sent to a manager that is reached: the first reason that holds.
    pub(crate) fn room_refusal(&self, manager: u32) -> Option<Refused>
        ensures { result ≡ room_refusal self.now manager }
    {
        self.handle_refusal().or(self.spent_refusal(manager))
    }

    // Why no synchronous request may be sent to the manager: the first reason that holds.
    pub(crate) fn call_refusal(&self, manager: u32) -> Option<Refused>
        ensures { result ≡ call_refusal self.now manager }
    {
        self.reach_refusal(manager).or(self.spent_refusal(manager))
    }
}
