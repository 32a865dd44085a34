//! The least work for a branch.
ghost use Rattle.xa_desk.specs.GoingOn.{GoesOn};
ghost use Rattle.xa_desk.specs.Kept.{AllKept};

use std::sync::Wait;
use xa_calls::{RmOp, native, xa_call};
use xa_crew::laws::idles_go_on;
use xa_desk::laws::desks_go_on;
use xa_desk::{Desk, Idle};
use xa_words::{Call, TMNOFLAGS, TMSUCCESS, Xid};

// Whether a call for the branch answered XA_OK.
fn is_done<R: Wait, I: Idle>(
    rt: &R,
    desk: &mut Desk,
    call: Call,
    m: u32,
    xid: Xid,
    flags: u32,
    idle: &mut I,
) -> bool
    ensures goes_on { GoesOn desk.old desk.new }
    ensures kept { AllKept desk.old → AllKept desk.new }
    ensures idled { I.leads idle.old idle.new }
{
    xa_call(rt, desk, call, Some(xid), m, flags, idle) == 0
}

/// Has the thread open manager `m`, and make one change there for the branch. Whether each call answered XA_OK.
pub fn work<R: Wait, I: Idle>(
    rt: &R,
    desk: &mut Desk,
    m: u32,
    xid: Xid,
    change: RmOp,
    idle: &mut I,
) -> bool
    ensures goes_on { GoesOn desk.old desk.new }
    ensures kept { AllKept desk.old → AllKept desk.new }
    ensures idled { I.leads idle.old idle.new }
{
    desks_go_on();
    idles_go_on::<I>();
    let opened = is_done(rt, desk, Call::OpenRm, m, xid, TMNOFLAGS, idle);
    let started = is_done(rt, desk, Call::Start, m, xid, TMNOFLAGS, idle);
    let changed = native(rt, desk, change, m, TMNOFLAGS, idle);
    let ended = is_done(rt, desk, Call::End, m, xid, TMSUCCESS, idle);
    opened && started && changed == 0 && ended
}
