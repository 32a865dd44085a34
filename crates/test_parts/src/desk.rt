//! A desk with managers that are stepped by hand, in one thread.
use std::process::Abort;
use std::sync::Wait;
use stepped::{Managers, kept, opened, refusal, sent};
use xa_desk::{AnyFault, Desk, Refused, Ticket};
use xa_lane::Taken;
use xa_words::{Code, Op, Xid};

mod stepped;
mod turns;

// The next request to manager 1 is the thread's with this number.
fn comes_next<R: Wait + Abort>(rt: &R, managers: &mut Managers, number: u32) {
    let request = managers.next(rt, 1).expect(rt, "a request");
    assert!(rt; request.thread == 1 && request.number == number);
}

// The ticket is the desk's, and its request has no code yet.
fn waits<R: Wait + Abort>(rt: &R, desk: &mut Desk, ticket: Ticket) -> Ticket {
    assert!(rt; desk.owns(&ticket));
    match desk.try_complete(rt, ticket) {
        Ok(code) => panic!(rt; "collected {code:?}"),
        Err(ticket) => ticket,
    }
}

// The ticket is the desk's, and its request has this code by now.
fn is_answered<R: Wait + Abort>(rt: &R, desk: &mut Desk, ticket: Ticket, answer: Code) {
    assert!(rt; desk.owns(&ticket));
    match desk.try_complete(rt, ticket) {
        Ok(code) => assert!(rt; code == answer),
        Err(ticket) => {
            desk.keep(ticket);
            panic!(rt; "retry");
        }
    }
}

// The ticket is the desk's, and its request comes to this code.
fn comes_to<R: Wait + Abort>(
    rt: &R,
    desk: &mut Desk,
    ticket: Ticket,
    managers: &mut Managers,
    answer: Code,
) {
    assert!(rt; desk.owns(&ticket));
    let code = desk.complete(rt, ticket, managers);
    assert!(rt; code == answer);
}

// Both requests to manager 1 come there in their order.
fn come_in_order<R: Wait + Abort>(rt: &R, managers: &mut Managers) {
    comes_next(rt, managers, 0);
    comes_next(rt, managers, 1);
    assert!(rt; managers.next(rt, 1).is_none());
}

#[test]
fn a_request_is_collected_by_its_ticket(rt: HostRuntime) {
    let (mut desk, mut managers) = opened(&rt, rt.alloc(), 2, 4, &[true], 4);
    let first = sent(&rt, &mut desk, 1, Op::OpenRm);
    let xid = Xid::new(1, b"g", b"1").expect(&rt, "a short name");
    let second = sent(&rt, &mut desk, 1, Op::Prepare(xid));
    assert!(rt; desk.free() == 0 && desk.room(1) == 2);
    come_in_order(&rt, &mut managers);
    managers.answer(&rt, 1, 1, Code::Proto);
    let first = waits(&rt, &mut desk, first);
    managers.answer(&rt, 1, 0, Code::Done);
    comes_to(&rt, &mut desk, first, &mut managers, Code::Done);
    is_answered(&rt, &mut desk, second, Code::Proto);
    assert!(rt; desk.free() == 2);
}

#[test]
fn a_full_lane_refuses_a_submit_and_delays_a_call(rt: HostRuntime) {
    let (mut desk, mut managers) = opened(&rt, rt.alloc(), 2, 4, &[true], 1);
    let number = kept(&rt, &mut desk, 1, Op::CloseRm);
    assert!(rt; refusal(&rt, &mut desk, 1, Op::OpenRm) == Refused::Full);
    assert!(rt; desk.free() == 1 && desk.room(1) == 3);
    let answer = desk.call(&rt, 1, &Op::OpenRm, &mut managers);
    assert!(rt; answer == Ok(Code::Done));
    // One idle for room in the queue, and one for the completion.
    assert!(rt; managers.idled == 2);
    assert!(rt; desk.manager_of(number) == Some(1));
    let answer = desk.complete_any(&rt, 1, &mut managers);
    assert!(rt; answer == Ok((number, Code::Proto)));
    // What is asked for was there.
    assert!(rt; managers.idled == 2);
}

// Completions of requests that weren't sent, or not to these managers.
fn answer_strangely<R: Wait + Abort>(rt: &R, managers: &mut Managers) {
    for (manager, number) in [(0, 0), (2, 0), (3, 0), (1, 1), (u32::MAX, u32::MAX)] {
        managers.answer(rt, manager, number, Code::RmFail);
    }
}

// What completed with manager 0, which stands for any, is this.
fn collects<R: Wait + Abort>(rt: &R, desk: &mut Desk, answer: Result<(u32, Code), AnyFault>) {
    let collected = desk.try_complete_any(rt, 0);
    assert!(rt; collected == answer);
}

#[test]
fn a_foreign_completion_changes_nothing(rt: HostRuntime) {
    let (mut desk, mut managers) = opened(&rt, rt.alloc(), 2, 4, &[true, true], 4);
    let number = kept(&rt, &mut desk, 1, Op::OpenRm);
    answer_strangely(&rt, &mut managers);
    collects(&rt, &mut desk, Err(AnyFault::Retry));
    // Of two completions of one request the first counts.
    managers.answer(&rt, 1, 0, Code::Done);
    managers.answer(&rt, 1, 0, Code::RmFail);
    collects(&rt, &mut desk, Ok((number, Code::Done)));
    managers.answer(&rt, 1, 0, Code::RmFail);
    collects(&rt, &mut desk, Err(AnyFault::NothingOutstanding));
    assert!(rt; !desk.learnt_shut(1) && !desk.learnt_shut(2));
    assert!(rt; desk.finish(&rt, &mut managers).is_ok());
}

// The end mark of the thread is all that the lane to the manager has.
fn has_ended<R: Wait + Abort>(rt: &R, managers: &mut Managers, manager: u32) {
    assert!(rt; matches!(managers.take(rt, manager), Taken::EndOf(0)));
    assert!(rt; matches!(managers.take(rt, manager), Taken::Empty));
}

#[test]
fn a_full_lane_delays_the_end_mark(rt: HostRuntime) {
    let (mut desk, mut managers) = opened(&rt, rt.alloc(), 1, 2, &[true, true], 1);
    let ticket = sent(&rt, &mut desk, 2, Op::OpenRm);
    // The completion comes although the request still fills the lane.
    managers.answer(&rt, 2, 0, Code::Done);
    comes_to(&rt, &mut desk, ticket, &mut managers, Code::Done);
    assert!(rt; managers.idled == 0);
    assert!(rt; desk.finish(&rt, &mut managers).is_ok());
    // One idle, on manager 2, which made room in its lane.
    assert!(rt; managers.idled == 1);
    has_ended(&rt, &mut managers, 1);
    has_ended(&rt, &mut managers, 2);
}

// The request that is kept under this number has this code by now.
fn is_collected<R: Wait + Abort>(rt: &R, desk: &mut Desk, number: u32, answer: Code) {
    assert!(rt; desk.manager_of(number).is_some());
    assert!(rt; desk.try_kept(rt, number) == Some(answer));
}

// Manager 2 puts its end mark between the completions of both managers.
fn answer_around_a_mark<R: Wait + Abort>(rt: &R, managers: &mut Managers) {
    managers.answer(rt, 2, 0, Code::RdOnly);
    let last = managers.completions.pop().expect(rt, "manager 2");
    assert!(rt; last.finish(rt).is_ok());
    managers.answer(rt, 1, 0, Code::Done);
}

#[test]
fn an_end_mark_among_completions_changes_nothing(rt: HostRuntime) {
    let (mut desk, mut managers) = opened(&rt, rt.alloc(), 2, 4, &[true, true], 4);
    let first = kept(&rt, &mut desk, 1, Op::OpenRm);
    let second = kept(&rt, &mut desk, 2, Op::OpenRm);
    answer_around_a_mark(&rt, &mut managers);
    is_collected(&rt, &mut desk, first, Code::Done);
    is_collected(&rt, &mut desk, second, Code::RdOnly);
    assert!(rt; desk.free() == 2);
    assert!(rt; !desk.learnt_shut(2));
    assert!(rt; desk.finish(&rt, &mut managers).is_ok());
}
