//! What a desk knows, and its ends of lanes.
ghost use Rattle.std.specs.Prelude.{◌≡◌, ℕ, ◌+◌, ◌-◌, ◌<◌, ◌≤◌, ◌↔◌, length, IfSome, IfNone, OnSome, IsTrue, None};
ghost use Rattle.std.specs.Prelude.{is_some, ◌&&◌, true, false, [], ◌∷◌, ◌++◌};
ghost use Rattle.xa_desk.specs.declared.event.Event.TheVariants.{Sent};
ghost use Rattle.xa_desk.specs.LedgerViews.{learnt_shut};
ghost use Rattle.xa_desk.specs.DeskViews.{IsKnown, IsOut, IsLoose, IsHandle, IsLeastFree, ledger, after_sent};
ghost use Rattle.xa_desk.specs.DeskViews.{completed, opening_of, outstanding, drained_code, room_at, is_known};
ghost use Rattle.xa_desk.specs.DeskViews.{next_operation, IsLeast, keeps_at, ready_at};
ghost use Rattle.xa_desk.specs.Ended.{AreBalanced};
ghost use Rattle.xa_desk.specs.Lanes.{new_desk, submitted, after_full};
ghost use Rattle.xa_desk.specs.Looks.{CollectsTaken, Drains, Draws, DrawsFor};
ghost use Rattle.xa_lane.specs.declared.parcel.Taken.{Taken};
ghost use Rattle.xa_lane.specs.declared.parcel.Taken.TheVariants.{Empty};
ghost use Rattle.xa_words.specs.declared.request.Completion.{Completion};
ghost use Rattle.std.specs.FinMap as map;

use crate::event::Event;
use crate::found::Found;
use crate::ledger::Ledger;
use crate::marks::Marks;
use crate::operation::{Operation, Slot, SlotKeys, enter_code, enter_handle, find_slot};
use crate::parts::DeskParts;
use http_server::Log;
use slab::Slab;
use std::marker::Model;
use std::sync::Wait;
use xa_base::{MOST_HANDLES, MOST_MANAGERS, MOST_THREADS};
use xa_lane::{Ended, Receiver, Sender, Taken};
use xa_words::{Code, Completion, Op, Request};

/// The ledgers with the managers, the slots of what is outstanding and where each is, the places of what
/// is kept, which of these have an operation and which a ready one, how many completions were drained by now
/// and at the last quiet moment, and the ends of the lanes. All memory is reserved as it is made, that for the
/// ended senders too.
#[derive(Drop)]
pub(crate) struct Book {
    pub(crate) thread: u32,
    pub(crate) handles: u32,
    pub(crate) ledgers: Vec<Ledger>,
    // What was sent and collected. It has no bytes: only proofs read it.
    pub(crate) events: Log<Event, ()>,
    pub(crate) slots: Slab<Slot>,
    pub(crate) rows: Vec<SlotKeys>,
    pub(crate) kept: Vec<Option<Operation>>,
    pub(crate) kept_marks: Marks,
    pub(crate) ready_marks: Marks,
    // The completions that were drained. It has no bytes: only proofs read it.
    pub(crate) drained: Log<Completion, ()>,
    pub(crate) drained_now: usize,
    pub(crate) drained_then: usize,
    pub(crate) requests: Vec<Sender<Request>>,
    pub(crate) completions: Receiver<Completion>,
    pub(crate) ends: Vec<Ended<Request>>,
}

impl Model for Book {
    ghost use Rattle.std.specs.Coded.{codes};
    ghost use Rattle.xa_desk.specs.DeskViews.{DeskView, kept_code};
    ghost use Rattle.xa_desk.specs.Book.{desk_of, IsBook};

    ghost Value = { DeskView };

    ghost coded = { Prim.hlevel (codes, kept_code) };

    ghost view = { desk_of };

    ghost invariant = { IsBook };
}

impl Book {
    /// The book of a desk that has done nothing.
    pub(crate) fn assemble(
        parts: DeskParts,
        requests: Vec<Sender<Request>>,
        completions: Receiver<Completion>,
    ) -> Book
        ensures { result ≡ new_desk parts requests.items completions }
    {
        let DeskParts {
            thread,
            handles,
            plan: _,
            ledgers,
            slots,
            rows,
            kept,
            ends,
        } = parts;
        Book {
            thread,
            handles,
            ledgers,
            events: Log::new(),
            slots,
            rows,
            kept,
            kept_marks: Marks::none(),
            ready_marks: Marks::none(),
            drained: Log::new(),
            drained_now: 0,
            drained_then: 0,
            requests,
            completions,
            ends,
        }
    }

    /// A request was sent, which is outstanding from now on.
    #[inline(always)]
    pub(crate) fn note_sent(&mut self, manager: u32, op: &Op) -> Operation
        requires known { IsKnown self.old.ledgers manager }
        requires room { length (ledger self.old.ledgers manager).sent < (ledger self.old.ledgers manager).plan }
        requires slot { outstanding self.old.ledgers ≤ self.old.handles }
        ensures named { result ≡ next_operation self.old.ledgers manager }
        ensures sent { self.new ≡ record self.old {
          ledgers = after_sent self.old.ledgers manager op.now;
          events = self.old.events ++ Sent (next_operation self.old.ledgers manager) ∷ [];
        } }
        ensures more { outstanding self.new.ledgers ≡ outstanding self.old.ledgers + 1 }
        ensures out { IsOut self.new.ledgers result }
        ensures loose { IsLoose self.new result }
        ensures missing { drained_code result self.new.drained ≡ None }
    {
        let ledger = &mut self.ledgers[manager as usize - 1];
        let number = ledger.next_number();
        ledger.push_sent(op);
        let operation = Operation { manager, number };
        let key = self.slots.insert_reserved(Slot {
            operation,
            code: None,
            handle: 0,
        });
        let row = &mut self.rows[manager as usize - 1];
        row.enter(key);
        self.events = self.events.and(&Event::Sent(operation), &());
        operation
    }

    /// A completion was taken. One that names nothing outstanding, or that isn't the first for its
    /// operation, changes nothing.
    #[tactic(auto, using(crate::proofs::KeyRows::number_within))]
    #[inline(always)]
    pub(crate) fn note_taken(&mut self, completion: Completion)
        ensures { Drains self.old completion self.new }
    {
        let operation = Operation {
            manager: completion.manager,
            number: completion.number,
        };
        if let Some(number) = enter_code(&self.rows, &mut self.slots, operation, completion.code) {
            self.ready_marks.mark_number(number);
            self.drained = self.drained.and(&completion, &());
            self.drained_now += 1;
        }
    }

    /// A completion was taken as an operation is waited for that isn't kept and has no code yet. Where it is the
    /// operation's, that is collected at once.
    #[inline(always)]
    pub(crate) fn collect_taken(
        &mut self,
        completion: Completion,
        operation: Operation,
    ) -> Option<Code>
        requires out { IsOut self.old.ledgers operation }
        requires loose { IsLoose self.old operation }
        requires missing { drained_code operation self.old.drained ≡ None }
        ensures { CollectsTaken self.old completion operation self.new result }
    {
        let completed = Operation {
            manager: completion.manager,
            number: completion.number,
        };
        if !operation.is(completed) {
            self.note_taken(completion);
            return None;
        }
        let Some((key, _)) = find_slot(&self.rows, &self.slots, operation) else {
            unreachable!()
        };
        self.slots.remove(key);
        self.drained = self.drained.and(&completion, &());
        self.drained_now += 1;
        let ledger = &mut self.ledgers[operation.manager as usize - 1];
        ledger.push_collected(operation.number, completion.code);
        self.events = self.events.and(&Event::Collected(operation), &());
        Some(completion.code)
    }

    /// Collects an operation that isn't kept, where its completion was drained.
    #[inline(always)]
    pub(crate) fn collect(&mut self, operation: Operation) -> Option<Code>
        requires out { IsOut self.old.ledgers operation }
        requires loose { IsLoose self.old operation }
        ensures code { result ≡ drained_code operation self.old.drained }
        ensures ready { IfSome result (λ code. self.new ≡ completed self.old operation code) }
        ensures fewer { OnSome result (outstanding self.new.ledgers + 1 ≡ outstanding self.old.ledgers) }
        ensures waiting { IfNone result (self.new ≡ self.old) }
    {
        let Some((key, slot)) = find_slot(&self.rows, &self.slots, operation) else {
            unreachable!()
        };
        let Some(code) = slot.code else {
            return None;
        };
        self.slots.remove(key);
        let ledger = &mut self.ledgers[operation.manager as usize - 1];
        ledger.push_collected(operation.number, code);
        self.events = self.events.and(&Event::Collected(operation), &());
        Some(code)
    }

    /// Keeps an operation under the least positive number that isn't kept.
    #[inline(always)]
    pub(crate) fn keep(&mut self, operation: Operation) -> u32
        requires out { IsOut self.old.ledgers operation }
        requires loose { IsLoose self.old operation }
        requires slot { outstanding self.old.ledgers ≤ self.old.handles }
        ensures least { IsLeastFree self.old.kept result }
        ensures kept { self.new ≡ record self.old { kept = map.insert self.old.kept result operation } }
        ensures handle { IsHandle result }
    {
        let place = self.kept_marks.first_clear();
        let handle = place + 1;
        self.kept[place as usize] = Some(operation);
        let is_ready = enter_handle(&self.rows, &mut self.slots, operation, handle);
        self.kept_marks.mark(place);
        self.ready_marks.mark_if(is_ready, place);
        handle
    }

    /// Frees a number, and answers the operation that was kept under it.
    #[inline(always)]
    pub(crate) fn release(&mut self, number: u32) -> Option<Operation>
        ensures found { result ≡ map.get self.old.kept number }
        ensures freed { IfSome result (λ _. self.new ≡ record self.old { kept = map.remove self.old.kept number }) }
        ensures was_out { IfSome result (λ o. IsOut self.old.ledgers o) }
        ensures out { IfSome result (λ o. IsOut self.new.ledgers o) }
        ensures loose { IfSome result (λ o. IsLoose self.new o) }
        ensures handle { IfSome result (λ _. IsHandle number) }
        ensures absent { IfNone result (self.new ≡ self.old) }
    {
        let operation = self.kept_at(number)?;
        let place = number - 1;
        self.kept[place as usize] = None;
        let _was_ready = enter_handle(&self.rows, &mut self.slots, operation, 0);
        self.kept_marks.clear(place);
        self.ready_marks.clear(place);
        Some(operation)
    }

    /// The operation that is kept under a number.
    #[tactic(auto, using(crate::proofs::Books::kept_of_rules))]
    #[inline(always)]
    pub(crate) fn kept_at(&self, number: u32) -> Option<Operation>
        ensures kept { result ≡ map.get self.now.kept number }
        ensures out { IfSome result (λ o. IsOut self.now.ledgers o) }
        ensures handle { IfSome result (λ _. IsHandle number) }
    {
        if number as usize > self.kept.len() {
            return None;
        }
        if number == 0 {
            return None;
        }
        self.kept[number as usize - 1]
    }

    /// Whether an operation is kept.
    #[tactic(auto, using(crate::proofs::KeyRows::none_kept))]
    #[inline(always)]
    pub(crate) fn keeps(&self) -> bool
        ensures some { IsTrue result → (k : ℕ) × (keeps_at self.now 0 k ≡ true) }
        ensures none { result ≡ false → (k : ℕ) → keeps_at self.now 0 k ≡ false }
    {
        self.kept_marks.first().is_some()
    }

    /// The least number under which a drained operation is kept.
    #[inline(always)]
    pub(crate) fn first_ready(&self) -> Option<u32>
        ensures found { IfSome result (IsLeast (ready_at self.now 0)) }
        ensures absent { IfNone result ((k : ℕ) → ready_at self.now 0 k ≡ false) }
    {
        let place = self.ready_marks.first()?;
        Some(place + 1)
    }

    /// How many handles there are. No greater number is kept.
    #[tactic(auto, using(crate::proofs::Books::kept_of_rules))]
    #[inline(always)]
    pub(crate) fn handles(&self) -> u32
        ensures handles { result ≡ self.now.handles }
        ensures limit { result ≤ MOST_HANDLES }
        ensures past { (k : ℕ) → result < k → map.get self.now.kept k ≡ None }
        ensures zero { map.get self.now.kept 0 ≡ None }
    {
        self.handles
    }

    /// Whether an operation is outstanding. Where none is, each request was collected once.
    #[inline(always)]
    pub(crate) fn is_outstanding(&self) -> bool
        ensures some { IsTrue result ↔ (0 < outstanding self.now.ledgers) }
        ensures settled { result ≡ false → AreBalanced self.now.ledgers }
    {
        self.slots.len() > 0
    }

    /// Whether the operation is outstanding and no number has it.
    pub(crate) fn is_loose(&self, operation: Operation) -> bool
        ensures { IsTrue result ↔ (IsOut self.now.ledgers operation × IsLoose self.now operation) }
    {
        match find_slot(&self.rows, &self.slots, operation) {
            Some((_, slot)) => slot.handle == 0,
            None => false,
        }
    }

    /// Whether the operation's completion was drained.
    #[inline(always)]
    pub(crate) fn is_drained(&self, operation: Operation) -> bool
        requires { IsOut self.now.ledgers operation }
        ensures { result ≡ is_some (drained_code operation self.now.drained) }
    {
        let Some((_, slot)) = find_slot(&self.rows, &self.slots, operation) else {
            unreachable!()
        };
        slot.code.is_some()
    }

    /// The thread of control, from 1.
    #[inline(always)]
    pub(crate) fn thread(&self) -> u32
        ensures thread { result ≡ self.now.thread }
        ensures limits { (1 ≤ result) × (result ≤ MOST_THREADS) }
    {
        self.thread
    }

    /// The opening that its lanes are of.
    pub(crate) fn opening(&self) -> u64
        ensures { result ≡ opening_of self.now }
    {
        self.completions.name().opening
    }

    /// How many managers there are, which are numbered from 1.
    #[tactic(auto, using(std::proofs::lemmas::Grind::common_steps))]
    #[inline(always)]
    pub(crate) fn managers(&self) -> u32
        ensures managers { result ≡ length self.now.ledgers }
        ensures limits { (1 ≤ result) × (result ≤ MOST_MANAGERS) }
    {
        self.ledgers.len() as u32
    }

    /// The number of the next request to the manager.
    #[inline(always)]
    pub(crate) fn next_number(&self, manager: u32) -> u32
        requires { IsKnown self.now.ledgers manager }
        ensures { result ≡ length (ledger self.now.ledgers manager).sent }
    {
        self.ledgers[manager as usize - 1].next_number()
    }
}

impl Book {
    /// Sends the next request to the manager, unless the lane to it is full.
    #[inline(always)]
    pub(crate) fn offer<R: Wait>(&mut self, rt: &R, manager: u32, op: &Op) -> Option<Operation>
        requires known { IsKnown self.old.ledgers manager }
        requires lanes { length self.old.requests ≡ length self.old.ledgers }
        requires room { length (ledger self.old.ledgers manager).sent < (ledger self.old.ledgers manager).plan }
        requires slot { outstanding self.old.ledgers ≤ self.old.handles }
        ensures named { IfSome result (λ o. o ≡ next_operation self.old.ledgers manager) }
        ensures sent { OnSome result (self.new ≡ submitted self.old manager op.now) }
        ensures more { OnSome result (outstanding self.new.ledgers ≡ outstanding self.old.ledgers + 1) }
        ensures out { IfSome result (λ o. IsOut self.new.ledgers o) }
        ensures loose { IfSome result (λ o. IsLoose self.new o) }
        ensures missing { IfSome result (λ o. drained_code o self.new.drained ≡ None) }
        ensures full { IfNone result (self.new ≡ after_full self.old manager) }
    {
        let request = Request {
            thread: self.thread,
            number: self.next_number(manager),
            op: *op,
        };
        match self.requests[manager as usize - 1].offer(rt, request) {
            Ok(()) => Some(self.note_sent(manager, op)),
            Err(_) => None,
        }
    }

    /// Takes from the lane of completions once. False where nothing stood there.
    #[inline(always)]
    pub(crate) fn draw<R: Wait>(&mut self, rt: &R) -> bool
        ensures drawn { IsTrue result → (taken : Taken Completion) × Draws self.old taken self.new }
        ensures quiet { result ≡ false → Draws self.old Empty self.new }
        ensures came { IsTrue result → self.new.completions.quiet ≡ self.old.completions.quiet }
    {
        match self.completions.take(rt) {
            Taken::Item(_, completion) => {
                self.note_taken(completion);
                true
            }
            Taken::EndOf(_) => true,
            Taken::Empty => {
                self.drained_then = self.drained_now;
                false
            }
        }
    }

    /// Takes from the lane of completions once, as an operation is waited for that isn't kept. Where its completion
    /// stood there, it is collected.
    #[inline(always)]
    pub(crate) fn draw_for<R: Wait>(&mut self, rt: &R, operation: Operation) -> Found
        requires out { IsOut self.old.ledgers operation }
        requires loose { IsLoose self.old operation }
        requires missing { drained_code operation self.old.drained ≡ None }
        ensures { DrawsFor self.old operation result self.new }
    {
        match self.completions.take(rt) {
            Taken::Item(_, completion) => match self.collect_taken(completion, operation) {
                Some(code) => Found::Its(code),
                None => Found::Other,
            },
            Taken::EndOf(_) => Found::Other,
            Taken::Empty => {
                self.drained_then = self.drained_now;
                Found::Nothing
            }
        }
    }
}
