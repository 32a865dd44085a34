//! The calls of XA that put a request to a manager, and what each asks for.
ghost use Rattle.std.specs.Prelude.{◌≡◌, false, true, IfOk, IfErr, Some, None, Ok, Err};
ghost use Rattle.xa_desk.specs.DeskViews.{IsLeastFree, IsHandle, next_operation};
ghost use Rattle.xa_desk.specs.GoingOn.{GoesOn};
ghost use Rattle.xa_desk.specs.Kept.{AllKept};
ghost use Rattle.xa_desk.specs.Lanes.{submitted, after_full};
ghost use Rattle.xa_desk.specs.Tickets.{LeavesTickets};
ghost use Rattle.xa_calls.specs.Asking.{asked_of, native, rm_op};
ghost use Rattle.xa_calls.specs.Putting.{code_of, put_refusal, Puts, Calls, CallLeaves, CallsAndWaits, call_waits};
ghost use Rattle.std.specs.FinMap as map;

use std::sync::Wait;
use xa_desk::laws::desks_go_on;
use xa_desk::{Desk, Idle, Refused};
use xa_words::{Call, Code, Op, RmOp, TMASYNC, TMNOFLAGS, Xid, check_flags};

/// A request that a call asks for.
#[derive(Clone, Copy)]
pub(crate) struct Asked {
    pub(crate) op: Op,
    /// `TMASYNC`
    pub(crate) asynchronous: bool,
}

/// What an XA call asks for, where its flags suit it and it has an xid if it needs one.
#[inline(always)]
pub(crate) fn asked_of(call: Call, xid: Option<Xid>, flags: u32) -> Result<Asked, Code>
    ensures { result ≡ asked_of call xid flags }
{
    let mode = check_flags(call, flags)?;
    let op = match call {
        Call::OpenRm => Op::OpenRm,
        Call::CloseRm => Op::CloseRm,
        Call::Start => Op::Start(xid.ok_or(Code::Inval)?, mode.start),
        Call::End => Op::End(xid.ok_or(Code::Inval)?, mode.how),
        Call::Prepare => Op::Prepare(xid.ok_or(Code::Inval)?),
        Call::Commit => Op::Commit(xid.ok_or(Code::Inval)?, mode.one_phase),
        Call::Rollback => Op::Rollback(xid.ok_or(Code::Inval)?),
        Call::Forget => Op::Forget(xid.ok_or(Code::Inval)?),
        Call::Recover | Call::Complete => return Err(Code::Inval),
    };
    Ok(Asked {
        op,
        asynchronous: mode.asynchronous,
    })
}

#[inline(always)]
fn rm_op(op: RmOp) -> Op
    ensures { result ≡ rm_op op }
{
    match op {
        RmOp::Add(key, delta) => Op::Add(key, delta),
        RmOp::Heur(xid, commits) => Op::Heur(xid, commits),
        RmOp::Shut => Op::Shut,
    }
}

/// What a call outside XA asks for, which takes no other flag than `TMASYNC`.
#[inline(always)]
pub(crate) fn native_of(op: RmOp, flags: u32) -> Result<Asked, Code>
    ensures { result ≡ native op flags }
{
    let asynchronous = match flags {
        TMNOFLAGS => false,
        TMASYNC => true,
        _ => return Err(Code::Inval),
    };
    Ok(Asked {
        op: rm_op(op),
        asynchronous,
    })
}

// The code that a refusal of a desk is answered as.
#[inline(always)]
pub(crate) fn code_of(why: Refused) -> Code
    ensures { result ≡ code_of why }
{
    match why {
        Refused::NoSuchManager => Code::Inval,
        Refused::Shut => Code::RmFail,
        Refused::TooMany | Refused::Full => Code::Async,
        Refused::Spent => Code::RmErr,
    }
}

// Puts an asynchronous request to a manager, and answers the handle that it is kept under, or why it wasn't put.
#[inline(always)]
fn put_later<R: Wait>(rt: &R, desk: &mut Desk, manager: u32, op: &Op) -> Result<u32, Code>
    ensures refused { (c : _) → put_refusal desk.old manager true ≡ Some c → (result ≡ Err c) × (desk.new ≡ desk.old) }
    ensures full { put_refusal desk.old manager true ≡ None → IfErr result (λ c. (c ≡ Code.Async)
        × (desk.new ≡ after_full desk.old manager)) }
    ensures put { IfOk result (λ k. put_refusal desk.old manager true ≡ None) }
    ensures kept { IfOk result (λ k. IsLeastFree desk.old.kept k
        × (desk.new ≡ record (submitted desk.old manager op.now) {
          kept =
              map.insert desk.old.kept k (next_operation desk.old.ledgers manager);
        })) }
    ensures handle { IfOk result (λ k. IsHandle k) }
    ensures goes_on { GoesOn desk.old desk.new }
    ensures tickets { LeavesTickets desk.old desk.new }
{
    desks_go_on();
    if let Some(why) = desk.reach_refusal(manager) {
        return Err(code_of(why));
    }
    if !desk.carries_async(manager) {
        return Err(Code::Async);
    }
    match desk.submit_reached(rt, manager, op) {
        Ok(ticket) => Ok(desk.keep(ticket)),
        Err(why) => Err(code_of(why)),
    }
}

// Puts what is asked for to a manager, and answers the handle, or the code of a synchronous request.
#[inline(always)]
fn put<R: Wait, I: Idle>(rt: &R, desk: &mut Desk, manager: u32, asked: Asked, idle: &mut I) -> i32
    ensures puts { Puts desk.old manager asked desk.new result }
    ensures leaves { CallLeaves I.leads desk.old desk.new idle.old idle.new }
    ensures prompt { call_waits desk.old manager (Ok asked) ≡ false → idle.new ≡ idle.old }
    ensures waited { CallsAndWaits I.leads_by (Ok asked) desk.old manager desk.new idle.old idle.new result }
{
    desks_go_on();
    if asked.asynchronous {
        return match put_later(rt, desk, manager, &asked.op) {
            Ok(handle) => handle as i32,
            Err(code) => code.value(),
        };
    }
    match desk.call(rt, manager, &asked.op, idle) {
        Ok(code) => code.value(),
        Err(why) => code_of(why).value(),
    }
}

// Puts what is asked for, or answers why nothing is.
#[inline(always)]
fn put_asked<R: Wait, I: Idle>(
    rt: &R,
    desk: &mut Desk,
    manager: u32,
    asked: Result<Asked, Code>,
    idle: &mut I,
) -> i32
    ensures calls { Calls asked desk.old manager desk.new result }
    ensures leaves { CallLeaves I.leads desk.old desk.new idle.old idle.new }
    ensures prompt { call_waits desk.old manager asked ≡ false → idle.new ≡ idle.old }
    ensures waited { CallsAndWaits I.leads_by asked desk.old manager desk.new idle.old idle.new result }
{
    desks_go_on();
    match asked {
        Ok(asked) => put(rt, desk, manager, asked, idle),
        Err(code) => code.value(),
    }
}

/// A call of C193, chapter 5, but for `xa_recover()` and `xa_complete()`: the handle where it is asynchronous, else the
/// code.
///
/// The refusals, the first that holds: XAER_INVAL for the flags, for `Call::Recover` and `Call::Complete`, and where
/// the call needs an xid and has none; XAER_INVAL for a number that no manager has; XAER_RMFAIL where the manager is
/// learnt to be shut; XAER_ASYNC for an asynchronous call where the manager takes none or no handle is free; XAER_RMERR
/// where the thread has used up its requests to the manager; XAER_ASYNC for an asynchronous call where the manager's
/// queue is full.
///
/// A call that waits idles on its manager alone: after each offer that found the queue full, and after each look that
/// found no answer (`waited`).
#[inline(always)]
pub fn xa_call<R: Wait, I: Idle>(
    rt: &R,
    desk: &mut Desk,
    call: Call,
    xid: Option<Xid>,
    manager: u32,
    flags: u32,
    idle: &mut I,
) -> i32
    ensures calls { Calls (asked_of call xid flags) desk.old manager desk.new result }
    ensures goes_on { GoesOn desk.old desk.new }
    ensures kept { AllKept desk.old → AllKept desk.new }
    ensures tickets { LeavesTickets desk.old desk.new }
    ensures idled { I.leads idle.old idle.new }
    ensures prompt { call_waits desk.old manager (asked_of call xid flags) ≡ false → idle.new ≡ idle.old }
    ensures waited { CallsAndWaits I.leads_by (asked_of call xid flags) desk.old manager desk.new idle.old idle.new
        result }
{
    put_asked(rt, desk, manager, asked_of(call, xid, flags), idle)
}

/// A call outside XA, which takes `TMNOFLAGS` or `TMASYNC`, else XAER_INVAL; then as `xa_call`.
#[inline(always)]
pub fn native<R: Wait, I: Idle>(
    rt: &R,
    desk: &mut Desk,
    op: RmOp,
    manager: u32,
    flags: u32,
    idle: &mut I,
) -> i32
    ensures calls { Calls (native op flags) desk.old manager desk.new result }
    ensures goes_on { GoesOn desk.old desk.new }
    ensures kept { AllKept desk.old → AllKept desk.new }
    ensures tickets { LeavesTickets desk.old desk.new }
    ensures idled { I.leads idle.old idle.new }
    ensures prompt { call_waits desk.old manager (native op flags) ≡ false → idle.new ≡ idle.old }
    ensures waited { CallsAndWaits I.leads_by (native op flags) desk.old manager desk.new idle.old idle.new result }
{
    put_asked(rt, desk, manager, native_of(op, flags), idle)
}
