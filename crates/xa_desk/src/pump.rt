//! Calls of a book that look at the lane of completions, with and without waiting.
ghost use Rattle.std.specs.Prelude.{◌≡◌, ℕ, ◌+◌, ◌<◌, ◌≤◌, length, IfSome, OnSome, IsNone, IsTrue, IsSome, None, false};
ghost use Rattle.xa_lane.specs.Ends.{counted};
ghost use Rattle.xa_desk.specs.DeskViews.{IsHandle, IsKnown, IsOut, IsLoose, ledger, outstanding, next_operation};
ghost use Rattle.xa_desk.specs.DeskViews.{drained_code, ready_at};
ghost use Rattle.xa_desk.specs.Lanes.{submitted, after_fulls};
ghost use Rattle.xa_desk.specs.Looks.{Looks, EndsQuiet, Collects, CollectsKept, CollectsLeast};
ghost use Rattle.xa_desk.specs.Waits.{Idles, WaitsFor, WaitsForAny};
ghost use Rattle.std.specs.FinMap as map;

use crate::book::Book;
use crate::found::Found;
use crate::idle::Idle;
use crate::kept::{collect_kept, least_ready};
use crate::operation::Operation;
use std::sync::Wait;
use xa_words::{Code, Op};

// Takes until the operation's completion is drained, or the lane is found empty.
#[tactic(auto, using(crate::proofs::Looks::look_rules))]
#[inline(always)]
fn look_for<R: Wait>(rt: &R, book: &mut Book, operation: Operation) -> bool
    requires { IsOut book.old.ledgers operation }
    ensures looks { Looks book.old book.new }
    ensures found { IsTrue result → IsSome (drained_code operation book.new.drained) }
    ensures quiet { result ≡ false → EndsQuiet book.old book.new }
    ensures at_once { IsTrue result → book.new.completions.quiet ≡ book.old.completions.quiet }
    ensures once { result ≡ false → book.new.completions.quiet ≡ counted book.old.completions.quiet }
    ensures missing { result ≡ false → drained_code operation book.new.drained ≡ None }
{
    for _ in rt.forever() {
        if book.is_drained(operation) {
            return true;
        }
        if !book.draw(rt) {
            return false;
        }
    }
    unreachable!()
}

// Takes until the operation's completion comes, which is collected, or the lane is found empty.
#[tactic(auto, using(crate::proofs::Looks::look_rules))]
#[inline(always)]
fn draw_until<R: Wait>(rt: &R, book: &mut Book, operation: Operation) -> Option<Code>
    requires out { IsOut book.old.ledgers operation }
    requires loose { IsLoose book.old operation }
    requires missing { drained_code operation book.old.drained ≡ None }
    ensures collected { IfSome result (Collects book.old book.new operation) }
    ensures quiet { IsNone result → EndsQuiet book.old book.new }
    ensures missing { IsNone result → drained_code operation book.new.drained ≡ None }
    ensures at_once { OnSome result (book.new.completions.quiet ≡ book.old.completions.quiet) }
    ensures once { IsNone result → book.new.completions.quiet ≡ counted book.old.completions.quiet }
{
    for _ in rt.forever() {
        match book.draw_for(rt, operation) {
            Found::Its(code) => return Some(code),
            Found::Other => {}
            Found::Nothing => return None,
        }
    }
    unreachable!()
}

/// Collects an operation that isn't kept, where its completion came.
#[tactic(auto, using(crate::proofs::Looks::look_rules))]
#[inline(always)]
pub(crate) fn try_collect<R: Wait>(rt: &R, book: &mut Book, operation: Operation) -> Option<Code>
    requires out { IsOut book.old.ledgers operation }
    requires loose { IsLoose book.old operation }
    ensures collected { IfSome result (Collects book.old book.new operation) }
    ensures quiet { IsNone result → EndsQuiet book.old book.new }
    ensures missing { IsNone result → drained_code operation book.new.drained ≡ None }
{
    if let Some(code) = book.collect(operation) {
        return Some(code);
    }
    draw_until(rt, book, operation)
}

/// Collects an operation that isn't kept and whose completion wasn't drained yet, and waits for that.
#[tactic(auto, using(crate::proofs::Looks::look_rules))]
#[inline(always)]
pub(crate) fn wait_until<R: Wait, I: Idle>(
    rt: &R,
    book: &mut Book,
    operation: Operation,
    idle: &mut I,
) -> Code
    requires out { IsOut book.old.ledgers operation }
    requires loose { IsLoose book.old operation }
    requires missing { drained_code operation book.old.drained ≡ None }
    ensures collected { Collects book.old book.new operation result }
    ensures waited { WaitsFor (I.leads_by operation.manager) book.old book.new idle.old idle.new operation result }
    ensures idled { I.leads idle.old idle.new }
{
    for _ in rt.forever() {
        if let Some(code) = draw_until(rt, book, operation) {
            return code;
        }
        idle.idle(rt, operation.manager);
    }
    unreachable!()
}

/// Collects an operation that isn't kept, and waits for its completion.
#[tactic(auto, using(crate::proofs::Looks::look_rules))]
#[inline(always)]
pub(crate) fn wait_for<R: Wait, I: Idle>(
    rt: &R,
    book: &mut Book,
    operation: Operation,
    idle: &mut I,
) -> Code
    requires out { IsOut book.old.ledgers operation }
    requires loose { IsLoose book.old operation }
    ensures collected { Collects book.old book.new operation result }
    ensures waited { WaitsFor (I.leads_by operation.manager) book.old book.new idle.old idle.new operation result }
    ensures idled { I.leads idle.old idle.new }
{
    if let Some(code) = book.collect(operation) {
        return code;
    }
    wait_until(rt, book, operation, idle)
}

// Takes until the lane is found empty.
#[tactic(auto, using(crate::proofs::Looks::look_rules))]
#[inline(always)]
fn drain<R: Wait>(rt: &R, book: &mut Book)
    ensures quiet { EndsQuiet book.old book.new }
    ensures once { book.new.completions.quiet ≡ counted book.old.completions.quiet }
{
    for _ in rt.forever() {
        if !book.draw(rt) {
            return;
        }
    }
    unreachable!()
}

/// Collects what is kept under the number, where its completion came.
#[tactic(auto, using(crate::proofs::Looks::kept_rules))]
pub(crate) fn try_collect_kept<R: Wait>(rt: &R, book: &mut Book, number: u32) -> Option<Code>
    requires { IsSome (map.get book.old.kept number) }
    ensures collected { IfSome result (CollectsKept book.old book.new number) }
    ensures quiet { IsNone result → EndsQuiet book.old book.new }
    ensures missing { IsNone result → ready_at book.new 0 number ≡ false }
{
    let Some(operation) = book.kept_at(number) else {
        unreachable!()
    };
    if look_for(rt, book, operation) {
        Some(collect_kept(book, number))
    } else {
        None
    }
}

/// Collects the least ready number of the manager, of any for 0, once the lane was found empty.
#[inline(always)]
pub(crate) fn try_collect_any<R: Wait>(rt: &R, book: &mut Book, manager: u32) -> Option<(u32, Code)>
    ensures collected { IfSome result (λ r. CollectsLeast book.old book.new manager r.0 r.1) }
    ensures quiet { IsNone result → EndsQuiet book.old book.new }
    ensures missing { IsNone result → (k : ℕ) → ready_at book.new manager k ≡ false }
    ensures handle { IfSome result (λ r. IsHandle r.0) }
    ensures once { book.new.completions.quiet ≡ counted book.old.completions.quiet }
{
    drain(rt, book);
    let Some(number) = least_ready(book, manager) else {
        return None;
    };
    let code = collect_kept(book, number);
    Some((number, code))
}

/// The same, waiting for one.
#[inline(always)]
pub(crate) fn wait_for_any<R: Wait, I: Idle>(
    rt: &R,
    book: &mut Book,
    manager: u32,
    idle: &mut I,
) -> (u32, Code)
    ensures collected { CollectsLeast book.old book.new manager result.0 result.1 }
    ensures waited { WaitsForAny (I.leads_by manager) book.old book.new idle.old idle.new manager result.0 result.1 }
    ensures handle { IsHandle result.0 }
    ensures idled { I.leads idle.old idle.new }
{
    for _ in rt.forever() {
        if let Some(collected) = try_collect_any(rt, book, manager) {
            return collected;
        }
        idle.idle(rt, manager);
    }
    unreachable!()
}

/// Sends the next request to the manager, and idles while the lane to it is full.
#[inline(always)]
pub(crate) fn send_waiting<R: Wait, I: Idle>(
    rt: &R,
    book: &mut Book,
    manager: u32,
    op: &Op,
    idle: &mut I,
) -> Operation
    requires known { IsKnown book.old.ledgers manager }
    requires lanes { length book.old.requests ≡ length book.old.ledgers }
    requires room { length (ledger book.old.ledgers manager).sent < (ledger book.old.ledgers manager).plan }
    requires slot { outstanding book.old.ledgers ≤ book.old.handles }
    ensures named { result ≡ next_operation book.old.ledgers manager }
    ensures sent { (n : ℕ) × (book.new ≡ submitted (after_fulls n book.old manager) manager op.now)
        × Idles (I.leads_by manager) n idle.old idle.new }
    ensures more { outstanding book.new.ledgers ≡ outstanding book.old.ledgers + 1 }
    ensures out { IsOut book.new.ledgers result }
    ensures loose { IsLoose book.new result }
    ensures missing { drained_code result book.new.drained ≡ None }
    ensures idled { I.leads idle.old idle.new }
{
    for _ in rt.forever() {
        if let Some(operation) = book.offer(rt, manager, op) {
            return operation;
        }
        idle.idle(rt, manager);
    }
    unreachable!()
}
