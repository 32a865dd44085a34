//! Operations that are under way: their names, the tickets to collect them by, and their slots, with the keys that say
//! where a slot is.
ghost use Rattle.std.specs.Prelude.{◌≡◌, ◌<◌, length, replicate, slice_get, IfOk, ◌≢◌, ℕ, Some, None, IfSome, IfNone};
ghost use Rattle.std.specs.Prelude.{OnSome, is_some};
ghost use Rattle.xa_desk.specs.Slots.{no_keys, with_key, key_of_operation, HasSlot, HasKept, AreTold, EntersCode};
ghost use Rattle.xa_desk.specs.Slots.{EntersHandle};
ghost use Rattle.slab.specs.Slab.{get};

use crate::book::Book;
use slab::Slab;
use std::alloc::{AllocError, Global};
use std::marker::Model;
use xa_words::Code;

/// An operation's name: its manager, from 1, and its number, from 0, among the requests of one thread to it.
#[derive(Clone, Copy, PartialEq, Eq)]
pub(crate) struct Operation {
    /// The manager that it was put to, from 1.
    pub(crate) manager: u32,
    /// Its number among the thread's requests to this manager, from 0.
    pub(crate) number: u32,
}

impl Operation {
    ghost use Rattle.std.specs.Prelude.{◌≡◌, ◌↔◌, IsTrue};
    ghost use Rattle.xa_desk.specs.DeskViews.{is_asked};

    /// Whether the names are the same.
    #[inline(always)]
    pub(crate) fn is(self, other: Operation) -> bool
        ensures { IsTrue result ↔ (self ≡ other) }
    {
        self.manager == other.manager && self.number == other.number
    }

    /// Whether it is of this manager, or the manager is 0.
    pub(crate) fn is_of(self, manager: u32) -> bool
        ensures { result ≡ is_asked manager self }
    {
        manager == 0 || self.manager == manager
    }
}

/// An operation that was sent, isn't collected and isn't kept.
///
/// A ticket must be spent: by `complete`, by a `try_complete` that succeeds, or by `keep`. It is neither
/// `Copy` nor `Clone` nor `Drop`, so a program that lets one go doesn't compile.
pub struct Ticket {
    opening: u64,
    thread: u32,
    operation: Operation,
}

impl Model for Ticket {
    ghost use Rattle.xa_desk.specs.DeskViews.{TicketView, ticket_code};

    ghost Value = { TicketView };

    ghost coded = { ticket_code };

    ghost view = { λ t. record { opening = t.opening; thread = t.thread; operation = t.operation } };
}

impl Ticket {
    ghost use Rattle.std.specs.Prelude.{◌≡◌};
    ghost use Rattle.xa_desk.specs.DeskViews.{ticket_of};

    /// A desk's one ticket of an operation that was just sent, or that isn't kept any more.
    pub(crate) fn new(book: &Book, operation: Operation) -> Ticket
        ensures { result ≡ ticket_of book.now operation }
    {
        Ticket {
            opening: book.opening(),
            thread: book.thread(),
            operation,
        }
    }

    /// The opening that the desk which gave it is of.
    pub(crate) fn opening(&self) -> u64
        ensures { result ≡ self.now.opening }
    {
        self.opening
    }

    /// The thread of control whose desk gave it.
    pub(crate) fn thread(&self) -> u32
        ensures { result ≡ self.now.thread }
    {
        self.thread
    }

    /// What it is the ticket of.
    pub(crate) fn operation(&self) -> Operation
        ensures { result ≡ self.now.operation }
    {
        self.operation
    }

    /// Uses the ticket up.
    pub(crate) fn spend(self) -> Operation
        ensures { result ≡ self.operation }
    {
        let Ticket {
            opening: _,
            thread: _,
            operation,
        } = self;
        operation
    }
}

/// The most slots that a desk has room for: the key of each is kept in one byte.
pub(crate) const MOST_SLOTS: usize = 256;

/// The keys of the slots of one manager's operations. A request's number is the count of those sent before
/// it, so its key stands at that place.
#[derive(Drop)]
pub(crate) struct SlotKeys {
    keys: Vec<u8>,
}

impl Model for SlotKeys {
    ghost use Rattle.std.specs.Prelude.{vec_capacity};
    ghost use Rattle.xa_desk.specs.Slots.{KeysView};

    ghost Value = { KeysView };

    ghost view = { λ k. record { keys = k.keys.items; capacity = vec_capacity k.keys } };
}

impl SlotKeys {
    /// No key, and room for that of each planned request.
    pub(crate) fn reserve(alloc: Global, plan: u32) -> Result<SlotKeys, AllocError>
        ensures { IfOk result (λ k. k ≡ no_keys plan) }
    {
        let keys = Vec::with_capacity(alloc, plan as usize)?;
        Ok(SlotKeys { keys })
    }

    #[inline(always)]
    fn key(&self, number: u32) -> Option<usize>
        ensures { result ≡ slice_get self.now.keys number }
    {
        let key = *self.keys.get(number as usize)?;
        Some(usize::from(key))
    }

    /// The slot of the next request has this key.
    #[inline(always)]
    pub(crate) fn enter(&mut self, key: usize)
        requires room { length self.old.keys < self.old.capacity }
        requires key { key < MOST_SLOTS }
        ensures { self.new ≡ with_key self.old key }
    {
        self.keys.push_reserved(key as u8);
    }
}

/// Room for the keys of each manager's operations.
pub(crate) fn reserve_keys(
    alloc: Global,
    managers: usize,
    plan: u32,
) -> Result<Vec<SlotKeys>, AllocError>
    ensures { IfOk result (λ v. v.items ≡ replicate managers (no_keys plan)) }
{
    let mut rows = Vec::with_capacity(alloc, managers)?;
    for _manager in 0..managers {
        rows.push(SlotKeys::reserve(alloc, plan)?)?;
    }
    Ok(rows)
}

/// The key of the slot that the operation has if it is outstanding.
#[inline(always)]
pub(crate) fn key_of(rows: &Vec<SlotKeys>, operation: Operation) -> Option<usize>
    ensures { result ≡ key_of_operation rows.now.items operation }
{
    let row = rows.get((operation.manager as usize).saturating_sub(1))?;
    row.key(operation.number)
}

/// An operation that was sent and not collected.
#[derive(Clone, Copy)]
pub(crate) struct Slot {
    /// The operation.
    pub(crate) operation: Operation,
    /// The code that was drained for it, if any was.
    pub(crate) code: Option<Code>,
    /// The number that it is kept under, or 0.
    pub(crate) handle: u32,
}

/// The slot of an operation, with its key.
#[inline(always)]
pub(crate) fn find_slot(
    rows: &Vec<SlotKeys>,
    slots: &Slab<Slot>,
    wanted: Operation,
) -> Option<(usize, Slot)>
    requires { AreTold rows.now.items slots.now }
    ensures found { IfSome result (λ r. get slots.now r.0 ≡ Some r.1) }
    ensures named { IfSome result (λ r. r.1.operation ≡ wanted) }
    ensures absent { IfNone result ((key : ℕ) (slot : _) → get slots.now key ≡ Some slot → slot.operation ≢ wanted) }
{
    let Some(key) = key_of(rows, wanted) else {
        return None;
    };
    let Some(slot) = slots.get(key) else {
        return None;
    };
    if !slot.operation.is(wanted) {
        return None;
    }
    Some((key, *slot))
}

/// Enters the code of a completion into its operation's slot, and answers the number that the operation is kept
/// under, or 0. `None`, and nothing entered, where the operation has no slot, or one with a code.
#[inline(always)]
pub(crate) fn enter_code(
    rows: &Vec<SlotKeys>,
    slots: &mut Slab<Slot>,
    wanted: Operation,
    code: Code,
) -> Option<u32>
    requires { AreTold rows.now.items slots.old }
    ensures entered { OnSome result (EntersCode slots.old wanted code slots.new) }
    ensures number { IfSome result (λ number. HasKept slots.old wanted number) }
    ensures known { IfNone result ((key : ℕ) (slot : _) → get slots.old key ≡ Some slot → slot.operation ≡ wanted
        → slot.code ≢ None) }
    ensures same { IfNone result (slots.new ≡ slots.old) }
{
    let Some(key) = key_of(rows, wanted) else {
        return None;
    };
    let Some(slot) = slots.get_mut(key) else {
        return None;
    };
    if !slot.operation.is(wanted) || slot.code.is_some() {
        return None;
    }
    slot.code = Some(code);
    Some(slot.handle)
}

/// Writes the number that an operation is kept under, or 0, into its slot, and answers whether it has a code.
#[inline(always)]
pub(crate) fn enter_handle(
    rows: &Vec<SlotKeys>,
    slots: &mut Slab<Slot>,
    wanted: Operation,
    handle: u32,
) -> bool
    requires told { AreTold rows.now.items slots.old }
    requires there { HasSlot slots.old wanted }
    ensures entered { EntersHandle slots.old wanted handle slots.new }
    ensures code { (key : ℕ) (slot : _) → get slots.old key ≡ Some slot → slot.operation ≡ wanted
        → result ≡ is_some slot.code }
{
    let Some(key) = key_of(rows, wanted) else {
        unreachable!()
    };
    let Some(slot) = slots.get_mut(key) else {
        unreachable!()
    };
    slot.handle = handle;
    slot.code.is_some()
}
