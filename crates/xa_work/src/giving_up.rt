//! What a unit of work leaves where it comes to no commit.
ghost use Rattle.std.specs.Prelude.{◌≡◌};
ghost use Rattle.xa_words.specs.Flags.{TMFAIL};
ghost use Rattle.xa_desk.specs.GoingOn.{GoesOn};
ghost use Rattle.xa_desk.specs.Kept.{AllKept};
ghost use Rattle.xa_work.specs.Works.{CallsFor, GivesUp};

use std::sync::Wait;
use xa_calls::xa_call;
use xa_crew::laws::idles_go_on;
use xa_desk::laws::desks_go_on;
use xa_desk::{Desk, Idle};
use xa_driver::Branch;
use xa_words::{Call, TMFAIL, TMNOFLAGS};

// Ends the thread's work on the branch as failed. A thread that stays associated with a branch can't roll it back, and
// can start no other at its manager. Where the work has ended it is an error, which changes nothing.
fn fail<R: Wait, I: Idle>(rt: &R, desk: &mut Desk, branch: &Branch, idle: &mut I)
    ensures goes_on { GoesOn desk.old desk.new }
    ensures kept { AllKept desk.old → AllKept desk.new }
    ensures idled { I.leads idle.old idle.new }
    ensures asks { CallsFor Call.End TMFAIL branch.now desk.old desk.new }
{
    xa_call(
        rt,
        desk,
        Call::End,
        Some(branch.xid),
        branch.m,
        TMFAIL,
        idle,
    );
}

// Rolls the branch back.
fn roll_back<R: Wait, I: Idle>(rt: &R, desk: &mut Desk, branch: &Branch, idle: &mut I)
    ensures goes_on { GoesOn desk.old desk.new }
    ensures kept { AllKept desk.old → AllKept desk.new }
    ensures idled { I.leads idle.old idle.new }
    ensures asks { CallsFor Call.Rollback 0 branch.now desk.old desk.new }
{
    xa_call(
        rt,
        desk,
        Call::Rollback,
        Some(branch.xid),
        branch.m,
        TMNOFLAGS,
        idle,
    );
}

/// Ends the work on all branches, whatever became of it, and then rolls them back. Each call waits for its answer.
pub(crate) fn give_up<R: Wait, I: Idle>(rt: &R, desk: &mut Desk, branches: &[Branch], idle: &mut I)
    ensures goes_on { GoesOn desk.old desk.new }
    ensures kept { AllKept desk.old → AllKept desk.new }
    ensures idled { I.leads idle.old idle.new }
    ensures gives_up { GivesUp branches.now desk.old desk.new }
{
    desks_go_on();
    idles_go_on::<I>();
    for branch in branches {
        fail(rt, desk, branch, idle);
    }
    for branch in branches {
        roll_back(rt, desk, branch, idle);
    }
}
