//! How a thread opens its managers.
ghost use Rattle.xa_words.specs.declared.request.Op.TheVariants.{OpenRm};
ghost use Rattle.xa_desk.specs.GoingOn.{GoesOn};
ghost use Rattle.xa_desk.specs.Kept.{AllKept};
ghost use Rattle.xa_work.specs.Requests.{CallsOp};
ghost use Rattle.xa_work.specs.Sent.{HaveSent, IsOpenRm};
ghost use Rattle.xa_work.specs.Works.{OpensAll};

use std::sync::Wait;
use xa_calls::xa_call;
use xa_crew::laws::idles_go_on;
use xa_desk::laws::desks_go_on;
use xa_desk::{Desk, Idle};
use xa_words::{Call, TMNOFLAGS};

// Opens a manager for the thread: whether it answered XA_OK.
fn open_one<R: Wait, I: Idle>(rt: &R, desk: &mut Desk, manager: u32, idle: &mut I) -> bool
    ensures goes_on { GoesOn desk.old desk.new }
    ensures kept { AllKept desk.old → AllKept desk.new }
    ensures idled { I.leads idle.old idle.new }
    ensures calls { CallsOp manager OpenRm result desk.old desk.new }
{
    xa_call(rt, desk, Call::OpenRm, None, manager, TMNOFLAGS, idle) == 0
}

/// Opens each manager for the thread, by rising number: whether all answered XA_OK. One that refuses is left, and the
/// others are opened all the same.
pub fn open_all<R: Wait, I: Idle>(rt: &R, desk: &mut Desk, idle: &mut I) -> bool
    ensures goes_on { GoesOn desk.old desk.new }
    ensures kept { AllKept desk.old → AllKept desk.new }
    ensures idled { I.leads idle.old idle.new }
    ensures opens { OpensAll result desk.old desk.new }
    ensures sent { HaveSent IsOpenRm desk.old.ledgers desk.new.ledgers }
{
    desks_go_on();
    idles_go_on::<I>();
    let mut all = true;
    for before in 0..desk.managers() {
        all &= open_one(rt, desk, before + 1, idle);
    }
    all
}
