//! Calls that ask for nothing: they answer XAER_INVAL, and nothing is sent.
use super::{one_desk, plan_of};
use std::process::Abort;
use std::sync::Wait;
use test_support::end;
use xa_calls::xa_call;
use xa_desk::{Desk, Spin};
use xa_words::{
    Call, Code, TMASYNC, TMENDRSCAN, TMMULTIPLE, TMNOFLAGS, TMNOWAIT, TMSTARTRSCAN, TMSUCCESS, Xid,
};

// The calls that `xa_call` doesn't make, with an xid and without one, and with flags that they take.
fn others(xid: Xid) -> [(Call, Option<Xid>, u32); 6] {
    [
        (Call::Recover, Some(xid), TMSTARTRSCAN),
        (Call::Recover, None, TMSTARTRSCAN | TMENDRSCAN),
        (Call::Recover, None, TMNOFLAGS),
        (Call::Complete, Some(xid), TMNOFLAGS),
        (Call::Complete, None, TMNOFLAGS),
        (Call::Complete, None, TMMULTIPLE | TMNOWAIT),
    ]
}

// The calls that need an xid, without one.
const NAMELESS: [(Call, u32); 8] = [
    (Call::Start, TMNOFLAGS),
    (Call::Start, TMASYNC),
    (Call::End, TMSUCCESS),
    (Call::Prepare, TMNOFLAGS),
    (Call::Prepare, TMASYNC),
    (Call::Commit, TMNOFLAGS),
    (Call::Rollback, TMNOFLAGS),
    (Call::Forget, TMNOFLAGS),
];

// The call asks for nothing.
fn asks_for_nothing<R: Wait + Abort>(
    rt: &R,
    desk: &mut Desk,
    call: Call,
    xid: Option<Xid>,
    flags: u32,
) {
    let answer = xa_call(rt, desk, call, xid, 1, flags, &mut Spin::new());
    assert!(rt; answer == Code::Inval.value(), "{call:?}, {flags}");
}

// No worker runs, so a synchronous request that was sent would be waited for to the end of days.
#[test]
fn what_asks_for_nothing_sends_nothing(rt: HostRuntime) {
    let plan = plan_of(&rt, rt.alloc(), 1, 1);
    let (mut desk, _workers) = one_desk(&rt, rt.alloc(), &plan);
    let xid = Xid::new(1, b"g", b"1").expect(&rt, "an xid");
    for (call, xid, flags) in others(xid) {
        asks_for_nothing(&rt, &mut desk, call, xid, flags);
    }
    for (call, flags) in NAMELESS {
        asks_for_nothing(&rt, &mut desk, call, None, flags);
    }
    assert!(rt; (desk.room(1), desk.free()) == (8, 2));
    let ended = end(&rt, desk, &mut Spin::new()).expect(&rt, "nothing outstanding");
    assert!(rt; ended.sent(1).is_empty() && ended.collected(1).is_empty());
}
