//! The call of XA that collects what was put to a manager.
ghost use Rattle.std.specs.Prelude.{◌≡◌, ◌≢◌, false, pos, IfOk, IsErr, IsTrue};
ghost use Rattle.xa_words.specs.Flags.{check_flags};
ghost use Rattle.xa_desk.specs.DeskViews.{IsHandle};
ghost use Rattle.xa_desk.specs.GoingOn.{GoesOn};
ghost use Rattle.xa_desk.specs.Kept.{AllKept};
ghost use Rattle.xa_desk.specs.Tickets.{LeavesTickets};
ghost use Rattle.xa_desk.specs.Waits.{WaitsForAny};
ghost use Rattle.xa_calls.specs.Putting.{CallLeaves};
ghost use Rattle.xa_calls.specs.Completing.{number_in, keeps_for, CompletesOne, CompletesAny, may_complete};
ghost use Rattle.xa_calls.specs.Completing.{CompletesIn, CompletesBy, WritesHandle, HasCompleted, completion_waits};
ghost use Rattle.xa_calls.specs.Completing.{WaitsIn, CompletesAndWaits, HasWaited};

use std::sync::Wait;
use xa_desk::laws::desks_go_on;
use xa_desk::{AnyFault, Desk, Idle, NothingOutstanding};
use xa_words::{Call, Code, Mode, check_flags};

// The number that a handle from outside stands for.
fn number_in(handle: i32) -> Option<u32>
    ensures { result ≡ number_in handle }
{
    u32::try_from(handle).ok()
}

// Whether an operation of this manager is kept under the number.
fn keeps(desk: &Desk, number: u32, manager: u32) -> bool
    ensures keeps { result ≡ keeps_for desk.now number manager }
    ensures handle { IsTrue result → IsHandle number }
{
    match desk.manager_of(number) {
        Some(own) => own == manager,
        None => false,
    }
}

// Collects the operation of this manager that is kept under the number, where there is one.
fn complete_one<R: Wait, I: Idle>(
    rt: &R,
    desk: &mut Desk,
    number: Option<u32>,
    manager: u32,
    nowait: bool,
    idle: &mut I,
) -> Result<(u32, Code), Code>
    ensures completes { CompletesOne desk.old number manager nowait desk.new result }
    ensures leaves { CallLeaves I.leads desk.old desk.new idle.old idle.new }
    ensures handle { IfOk result (λ r. IsHandle r.0) }
    ensures refused { IsErr result → idle.new ≡ idle.old }
    ensures prompt { IsTrue nowait → idle.new ≡ idle.old }
    ensures waited { IfOk result (λ r. nowait ≡ false → WaitsIn I.leads_by false desk.old number manager desk.new
        idle.old idle.new r) }
{
    desks_go_on();
    let Some(number) = number else {
        return Err(Code::Inval);
    };
    if !keeps(desk, number, manager) {
        return Err(Code::Inval);
    }
    if nowait {
        return match desk.try_kept(rt, number) {
            Some(code) => Ok((number, code)),
            None => Err(Code::Retry),
        };
    }
    match desk.redeem(number) {
        Some(ticket) => Ok((number, desk.complete(rt, ticket, idle))),
        None => unreachable!(),
    }
}

// Collects the least number of this manager, of any where it is 0, whose completion came.
fn complete_any<R: Wait, I: Idle>(
    rt: &R,
    desk: &mut Desk,
    manager: u32,
    nowait: bool,
    idle: &mut I,
) -> Result<(u32, Code), Code>
    ensures completes { CompletesAny desk.old manager nowait desk.new result }
    ensures leaves { CallLeaves I.leads desk.old desk.new idle.old idle.new }
    ensures handle { IfOk result (λ r. IsHandle r.0) }
    ensures refused { IsErr result → idle.new ≡ idle.old }
    ensures prompt { IsTrue nowait → idle.new ≡ idle.old }
    ensures waited { IfOk result (λ r. nowait ≡ false → WaitsForAny (I.leads_by manager) desk.old desk.new idle.old
        idle.new manager r.0 r.1) }
{
    desks_go_on();
    if nowait {
        return match desk.try_complete_any(rt, manager) {
            Ok(collected) => Ok(collected),
            Err(AnyFault::NothingOutstanding) => Err(Code::Proto),
            Err(AnyFault::Retry) => Err(Code::Retry),
        };
    }
    match desk.complete_any(rt, manager, idle) {
        Ok(collected) => Ok(collected),
        Err(NothingOutstanding) => Err(Code::Proto),
    }
}

// Whether this is the number of a manager, or with `TMMULTIPLE` 0.
fn may_complete(desk: &Desk, manager: u32, multiple: bool) -> bool
    ensures { result ≡ may_complete desk.now manager multiple }
{
    (1 <= manager && manager <= desk.managers()) || (multiple && manager == 0)
}

// Collects what is asked for, in this mode.
fn complete_in<R: Wait, I: Idle>(
    rt: &R,
    desk: &mut Desk,
    number: Option<u32>,
    manager: u32,
    mode: Mode,
    idle: &mut I,
) -> Result<(u32, Code), Code>
    ensures completes { CompletesIn mode desk.old number manager desk.new result }
    ensures leaves { CallLeaves I.leads desk.old desk.new idle.old idle.new }
    ensures handle { IfOk result (λ r. IsHandle r.0) }
    ensures refused { IsErr result → idle.new ≡ idle.old }
    ensures prompt { IsTrue mode.nowait → idle.new ≡ idle.old }
    ensures waited { IfOk result (λ r. mode.nowait ≡ false → WaitsIn I.leads_by mode.multiple desk.old number manager
        desk.new idle.old idle.new r) }
{
    desks_go_on();
    if !may_complete(desk, manager, mode.multiple) {
        return Err(Code::Inval);
    }
    if mode.multiple {
        complete_any(rt, desk, manager, mode.nowait, idle)
    } else {
        complete_one(rt, desk, number, manager, mode.nowait, idle)
    }
}

// Collects what is asked for, where the flags have a mode.
fn complete_by<R: Wait, I: Idle>(
    rt: &R,
    desk: &mut Desk,
    number: Option<u32>,
    manager: u32,
    mode: Result<Mode, Code>,
    idle: &mut I,
) -> Result<(u32, Code), Code>
    ensures completes { CompletesBy mode desk.old number manager desk.new result }
    ensures leaves { CallLeaves I.leads desk.old desk.new idle.old idle.new }
    ensures handle { IfOk result (λ r. IsHandle r.0) }
    ensures refused { IsErr result → idle.new ≡ idle.old }
    ensures prompt { completion_waits mode ≡ false → idle.new ≡ idle.old }
    ensures waited { IfOk result (CompletesAndWaits I.leads_by mode desk.old number manager desk.new idle.old
        idle.new) }
{
    desks_go_on();
    match mode {
        Ok(mode) => complete_in(rt, desk, number, manager, mode, idle),
        Err(code) => Err(code),
    }
}

// Writes what was collected.
fn tell(collected: Result<(u32, Code), Code>, handle: &mut i32, retval: &mut i32) -> i32
    requires { IfOk collected (λ r. IsHandle r.0) }
    ensures { WritesHandle collected handle.old retval.old handle.new retval.new result }
{
    match collected {
        Ok((number, code)) => {
            *handle = number as i32;
            *retval = code.value();
            Code::Done.value()
        }
        Err(code) => code.value(),
    }
}

/// `xa_complete()` of C193, chapter 5: collects an operation of the manager that is kept under the
/// handle, or with `TMMULTIPLE` the least handle that is ready, for manager 0 of any manager. It waits
/// unless `TMNOWAIT` is given. On XA_OK the handle and the operation's code are written, and on no
/// other answer.
///
/// The refusals, the first that holds: XAER_INVAL for the flags; XAER_INVAL for a number that no manager
/// has; XAER_INVAL for a handle under which no operation of the manager is kept; with `TMMULTIPLE`
/// XAER_PROTO where nothing of the manager is kept; with `TMNOWAIT` XA_RETRY where nothing that is asked
/// for has completed.
///
/// While it waits it idles on the manager that is given, on 0 for any, after each look that found nothing that is asked
/// for (`waited`).
pub fn xa_complete<R: Wait, I: Idle>(
    rt: &R,
    desk: &mut Desk,
    handle: &mut i32,
    retval: &mut i32,
    manager: u32,
    flags: u32,
    idle: &mut I,
) -> i32
    ensures completes { HasCompleted desk.old handle.old retval.old manager flags desk.new handle.new retval.new
        result }
    ensures goes_on { GoesOn desk.old desk.new }
    ensures kept { AllKept desk.old → AllKept desk.new }
    ensures tickets { LeavesTickets desk.old desk.new }
    ensures idled { I.leads idle.old idle.new }
    ensures refused { result ≢ pos 0 → idle.new ≡ idle.old }
    ensures prompt { completion_waits (check_flags Call.Complete flags) ≡ false → idle.new ≡ idle.old }
    ensures waited { result ≡ pos 0 → HasWaited I.leads_by desk.old handle.old manager flags desk.new idle.old idle.new
        handle.new retval.new }
{
    let (number, mode) = (number_in(*handle), check_flags(Call::Complete, flags));
    let collected = complete_by(rt, desk, number, manager, mode, idle);
    tell(collected, handle, retval)
}
