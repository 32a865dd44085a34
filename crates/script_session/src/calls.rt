//! What a thread's tasks answer: its calls, over the desk; commits.rt and resolving.rt have the rest.
ghost use Rattle.std.specs.Prelude.{◌≡◌, ◌≤◌, ◌<◌, false, length, take, IfOk, OnErr};
ghost use Rattle.xa_desk.specs.GoingOn.{GoesOn};
ghost use Rattle.xa_desk.specs.Kept.{AllKept};
ghost use Rattle.xa_calls.specs.Asking.{asked_of, native};
ghost use Rattle.xa_calls.specs.Completing.{completion_waits};
ghost use Rattle.xa_calls.specs.Putting.{Calls, call_waits};
ghost use Rattle.xa_calls.specs.Scans.{asks};
ghost use Rattle.xa_words.specs.Flags.{check_flags};
ghost use Rattle.xa_words.specs.Xid.{XidName};
ghost use Rattle.xa_words.specs.declared.flags.Call.TheVariants as call;
ghost use Rattle.script_session.specs.ManagerCalls.{shown_completion, HasAnswered, HasCollected, HasListed};
ghost use Rattle.script_session.specs.ManagerCalls.{ShowsListed, CallAnswers, manager_call_waits};
ghost use Rattle.script_session.specs.Sessions.{session_of, TaskDoes, MayWait};

use crate::commits::commit_asked;
use crate::resolving::resolve_left;
use script_grammar::{Action, Called, Gtrid, ManagerCall, Name};
use script_transcript::Answer;
use std::alloc::{AllocError, Global};
use std::sync::Wait;
use xa_calls::{native, xa_call, xa_complete, xa_recover};
use xa_desk::{Desk, Idle};
use xa_log::{MemoryLog, TrialLog};
use xa_scan::Scan;
use xa_words::{Call, RmOp, Xid};

/// Does what a task asks for, and gives its answer. It fails only for want of memory, and then nothing is done.
#[inline(always)]
pub fn carry_out<R: Wait, I: Idle>(
    rt: &R,
    alloc: Global,
    desk: &mut Desk,
    log: &mut TrialLog<MemoryLog>,
    scan: &mut Scan,
    action: &Action<Name, Gtrid>,
    idle: &mut I,
) -> Result<Answer, AllocError>
    ensures does { IfOk result (TaskDoes action.now (session_of desk.old log.old scan.old)
        (session_of desk.new log.new scan.new)) }
    ensures goes_on { GoesOn desk.old desk.new }
    ensures kept { AllKept desk.old → AllKept desk.new }
    ensures unsent { OnErr result (desk.new ≡ desk.old) }
    ensures unlogged { OnErr result (log.new ≡ log.old) }
    ensures unscanned { OnErr result (scan.new ≡ scan.old) }
    ensures idled { I.leads idle.old idle.new }
    ensures prompt { ¬ MayWait action.now (session_of desk.old log.old scan.old) → idle.new ≡ idle.old }
{
    match action {
        Action::Call(called) => answer(rt, alloc, desk, scan, called, idle),
        Action::CommitAll(asked) => commit_asked(rt, alloc, desk, log, asked, idle),
        Action::Resolve => resolve_left(rt, alloc, desk, log, scan, idle),
    }
}

// The xid of the branch that is called, where there is one.
#[inline(always)]
fn xid_of(branch: &Option<Name>) -> Option<Xid>
    ensures { result ≡ branch.now }
{
    match branch {
        Some(name) => Some(name.xid()),
        None => None,
    }
}

// What an XA call answers.
#[inline(always)]
fn xa_called<R: Wait, I: Idle>(
    rt: &R,
    desk: &mut Desk,
    called: &Called<Name>,
    call: Call,
    branch: &Option<Name>,
    idle: &mut I,
) -> Answer
    ensures answers { HasAnswered (Calls (asked_of call branch.now called.now.flags)) called.now desk.old desk.new
        result }
    ensures goes_on { GoesOn desk.old desk.new }
    ensures kept { AllKept desk.old → AllKept desk.new }
    ensures idled { I.leads idle.old idle.new }
    ensures prompt { call_waits desk.old called.now.manager (asked_of call branch.now called.now.flags) ≡ false
        → idle.new ≡ idle.old }
{
    let xid = xid_of(branch);
    let answer = xa_call(rt, desk, call, xid, called.manager, called.flags, idle);
    Answer::Called(answer)
}

// What a call answers. It fails only for want of memory, and then nothing is done.
#[inline(always)]
fn answer<R: Wait, I: Idle>(
    rt: &R,
    alloc: Global,
    desk: &mut Desk,
    scan: &mut Scan,
    called: &Called<Name>,
    idle: &mut I,
) -> Result<Answer, AllocError>
    ensures answers { IfOk result (CallAnswers called.now.call called.now desk.old scan.old desk.new scan.new) }
    ensures goes_on { GoesOn desk.old desk.new }
    ensures kept { AllKept desk.old → AllKept desk.new }
    ensures unsent { OnErr result (desk.new ≡ desk.old) }
    ensures unscanned { OnErr result (scan.new ≡ scan.old) }
    ensures idled { I.leads idle.old idle.new }
    ensures prompt { manager_call_waits called.now.call called.now desk.old scan.old ≡ false → idle.new ≡ idle.old }
{
    match &called.call {
        ManagerCall::Xa(call, branch) => Ok(xa_called(rt, desk, called, *call, branch, idle)),
        ManagerCall::Heur(branch, commits) => {
            let op = RmOp::Heur(branch.xid(), *commits);
            Ok(native_called(rt, desk, called, op, idle))
        }
        ManagerCall::Add(key, delta) => {
            let op = RmOp::Add(*key, *delta);
            Ok(native_called(rt, desk, called, op, idle))
        }
        ManagerCall::Shut => Ok(native_called(rt, desk, called, RmOp::Shut, idle)),
        ManagerCall::Complete(handle) => Ok(completed(rt, desk, called, *handle, idle)),
        ManagerCall::Recover(room) => recovered(rt, alloc, desk, scan, called, *room, idle),
    }
}

fn some_xid() -> Xid {
    match Xid::new(1, b"0", b"0") {
        Ok(xid) => xid,
        // Each part has a byte.
        Err(_) => unreachable!(),
    }
}

// So many xids, whichever.
fn blank(alloc: Global, room: u32) -> Result<Vec<Xid>, AllocError>
    ensures { IfOk result (λ v. length v.items ≡ room) }
{
    let mut xids = Vec::with_capacity(alloc, room as usize)?;
    for _ in 0..room {
        xids.push_reserved(some_xid());
    }
    Ok(xids)
}

// What an xa_recover with room for so many xids answers.
fn recovered<R: Wait, I: Idle>(
    rt: &R,
    alloc: Global,
    desk: &mut Desk,
    scan: &mut Scan,
    called: &Called<Name>,
    room: u32,
    idle: &mut I,
) -> Result<Answer, AllocError>
    ensures answers { IfOk result (HasListed called.now room desk.old scan.old desk.new scan.new) }
    ensures goes_on { GoesOn desk.old desk.new }
    ensures kept { AllKept desk.old → AllKept desk.new }
    ensures unsent { OnErr result (desk.new ≡ desk.old) }
    ensures unscanned { OnErr result (scan.new ≡ scan.old) }
    ensures idled { I.leads idle.old idle.new }
    ensures prompt { asks desk.old scan.old called.now.manager (check_flags call.Recover called.now.flags) ≡ false
        → idle.new ≡ idle.old }
{
    let (manager, flags) = (called.manager, called.flags);
    let mut xids = blank(alloc, room)?;
    let answer = xa_recover(rt, desk, scan, &mut xids, manager, flags, idle);
    Ok(listed(answer, xids))
}

// The answer of an xa_recover, which is shown with what it wrote.
fn listed(answer: i32, mut xids: Vec<Xid>) -> Answer
    ensures { ShowsListed answer xids.items result }
{
    if answer < 0 {
        return Answer::Called(answer);
    }
    xids.truncate(answer as usize);
    Answer::Recovered(xids)
}

// What a call outside XA answers.
#[inline(always)]
fn native_called<R: Wait, I: Idle>(
    rt: &R,
    desk: &mut Desk,
    called: &Called<Name>,
    op: RmOp,
    idle: &mut I,
) -> Answer
    ensures answers { HasAnswered (Calls (native op called.now.flags)) called.now desk.old desk.new result }
    ensures goes_on { GoesOn desk.old desk.new }
    ensures kept { AllKept desk.old → AllKept desk.new }
    ensures idled { I.leads idle.old idle.new }
    ensures prompt { call_waits desk.old called.now.manager (native op called.now.flags) ≡ false
        → idle.new ≡ idle.old }
{
    let answer = native(rt, desk, op, called.manager, called.flags, idle);
    Answer::Called(answer)
}

// What an xa_complete of the handle answers.
#[inline(always)]
fn completed<R: Wait, I: Idle>(
    rt: &R,
    desk: &mut Desk,
    called: &Called<Name>,
    handle: i32,
    idle: &mut I,
) -> Answer
    ensures answers { HasCollected called.now desk.old handle desk.new result }
    ensures goes_on { GoesOn desk.old desk.new }
    ensures kept { AllKept desk.old → AllKept desk.new }
    ensures idled { I.leads idle.old idle.new }
    ensures prompt { completion_waits (check_flags call.Complete called.now.flags) ≡ false → idle.new ≡ idle.old }
{
    let (manager, flags) = (called.manager, called.flags);
    let (mut handle, mut retval) = (handle, 0);
    let answer = xa_complete(rt, desk, &mut handle, &mut retval, manager, flags, idle);
    told(answer, handle, retval)
}

// The answer of an xa_complete, which on XA_OK is shown with what it wrote.
#[inline(always)]
fn told(answer: i32, handle: i32, retval: i32) -> Answer
    ensures { result ≡ shown_completion handle retval answer }
{
    if answer != 0 {
        return Answer::Called(answer);
    }
    Answer::Completed { handle, retval }
}
