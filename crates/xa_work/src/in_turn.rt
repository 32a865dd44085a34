//! The work for a transaction by synchronous calls, one after the other: they take no handle, and any manager takes
//! them.
ghost use Rattle.xa_desk.specs.GoingOn.{GoesOn};
ghost use Rattle.xa_desk.specs.Kept.{AllKept};
ghost use Rattle.xa_work.specs.Requests.{CallsOp, op_of_step};
ghost use Rattle.xa_work.specs.Works.{CallsBranch, CallsBranches};

use crate::step::{WorkStep, take_step};
use crate::unit::Change;
use std::sync::Wait;
use xa_crew::laws::idles_go_on;
use xa_desk::laws::desks_go_on;
use xa_desk::{Desk, Idle};
use xa_driver::Branch;

// Takes a step, and waits for its answer: whether it is XA_OK.
fn ask<R: Wait, I: Idle>(
    rt: &R,
    desk: &mut Desk,
    branch: &Branch,
    step: &WorkStep,
    idle: &mut I,
) -> bool
    ensures goes_on { GoesOn desk.old desk.new }
    ensures kept { AllKept desk.old → AllKept desk.new }
    ensures idled { I.leads idle.old idle.new }
    ensures calls { CallsOp branch.now.m (op_of_step branch.now.xid step.now) result desk.old desk.new }
{
    take_step(rt, desk, branch, step, false, idle) == 0
}

// Does the work of a branch: whether each of its steps answered XA_OK.
fn work_on<R: Wait, I: Idle>(
    rt: &R,
    desk: &mut Desk,
    branch: &Branch,
    changes: &[Change],
    idle: &mut I,
) -> bool
    ensures goes_on { GoesOn desk.old desk.new }
    ensures kept { AllKept desk.old → AllKept desk.new }
    ensures idled { I.leads idle.old idle.new }
    ensures calls { CallsBranch changes.now branch.now result desk.old desk.new }
{
    desks_go_on();
    idles_go_on::<I>();
    let mut all = ask(rt, desk, branch, &WorkStep::Start, idle);
    for change in changes {
        if change.m == branch.m {
            let step = WorkStep::Add(change.key, change.delta);
            all &= ask(rt, desk, branch, &step, idle);
        }
    }
    let ended = ask(rt, desk, branch, &WorkStep::End, idle);
    all & ended
}

/// Does the work of the branches, each where that of all before it was done. It tells whether all requests answered
/// XA_OK.
pub(crate) fn work_in_turn<R: Wait, I: Idle>(
    rt: &R,
    desk: &mut Desk,
    branches: &[Branch],
    changes: &[Change],
    idle: &mut I,
) -> bool
    ensures goes_on { GoesOn desk.old desk.new }
    ensures kept { AllKept desk.old → AllKept desk.new }
    ensures idled { I.leads idle.old idle.new }
    ensures calls { CallsBranches changes.now branches.now result desk.old desk.new }
{
    desks_go_on();
    idles_go_on::<I>();
    for branch in branches {
        if !work_on(rt, desk, branch, changes, idle) {
            return false;
        }
    }
    true
}
