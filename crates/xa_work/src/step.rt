//! The steps of a branch's work.
ghost use Rattle.std.specs.Prelude.{◌≡◌};
ghost use Rattle.xa_desk.specs.GoingOn.{GoesOn};
ghost use Rattle.xa_desk.specs.Kept.{AllKept};
ghost use Rattle.xa_calls.specs.Putting.{Puts};
ghost use Rattle.xa_work.specs.Requests.{op_of_step};

use std::sync::Wait;
use xa_calls::{native, xa_call};
use xa_desk::{Desk, Idle};
use xa_driver::Branch;
use xa_words::{Call, Delta, Key, RmOp, TMASYNC, TMNOFLAGS, TMSUCCESS};

/// A step of a branch's work.
#[derive(Clone, Copy)]
pub(crate) enum WorkStep {
    /// The thread starts it.
    Start,
    /// A change of a key's value is made in it.
    Add(Key, Delta),
    /// The thread ends it, with success.
    End,
}

/// Puts the step to the branch's manager: what `xa_call` or `native` answers.
pub(crate) fn take_step<R: Wait, I: Idle>(
    rt: &R,
    desk: &mut Desk,
    branch: &Branch,
    step: &WorkStep,
    asynchronous: bool,
    idle: &mut I,
) -> i32
    ensures goes_on { GoesOn desk.old desk.new }
    ensures kept { AllKept desk.old → AllKept desk.new }
    ensures idled { I.leads idle.old idle.new }
    ensures puts { Puts desk.old branch.now.m (record {
      op = op_of_step branch.now.xid step.now;
      asynchronous = asynchronous;
    }) desk.new result }
{
    let flags = if asynchronous { TMASYNC } else { TMNOFLAGS };
    let Branch { m, xid } = *branch;
    match *step {
        WorkStep::Start => xa_call(rt, desk, Call::Start, Some(xid), m, flags, idle),
        WorkStep::Add(key, delta) => native(rt, desk, RmOp::Add(key, delta), m, flags, idle),
        WorkStep::End => xa_call(rt, desk, Call::End, Some(xid), m, flags | TMSUCCESS, idle),
    }
}
