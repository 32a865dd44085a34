//! A manager that one thread shuts while another one puts requests to it.
ghost use Rattle.std.specs.Prelude.{◌≡◌};
ghost use Rattle.xa_desk.specs.GoingOn.{GoesOn};
ghost use Rattle.xa_desk.specs.Kept.{AllKept};

use super::plan_of;
use std::alloc::Global;
use std::process::Abort;
use std::sync::Wait;
use std::thread::Threads;
use xa_calls::{RmOp, native, xa_call, xa_complete};
use xa_crew::laws::idles_go_on;
use xa_crew::{Client, Run, run_clients};
use xa_desk::laws::desks_go_on;
use xa_desk::{Desk, Idle};
use xa_switch::Plan;
use xa_words::{Call, Code, Op, Request, TMASYNC, TMMULTIPLE, TMNOFLAGS, Xid};
use xa_worker::Free;

// How many requests the asking thread sends at most, and how many handles it has.
const MOST: usize = 100;

const HANDLES: usize = 4;

// Which handles are of operations that nobody has collected; place 0 is of none.
type Open = [bool; HANDLES + 1];

// Marks a handle. False where it is none, or is marked so already: then it was given or collected twice.
fn mark(open: &mut Open, handle: i32, is_open: bool) -> bool {
    let place = usize::try_from(handle).unwrap_or(0);
    match open.get_mut(place) {
        Some(mark) if *mark != is_open => {
            *mark = is_open;
            true
        }
        _ => false,
    }
}

// Collects one operation. False where there is none, or it is one that was collected before.
fn collects<R: Wait, I: Idle>(rt: &R, desk: &mut Desk, open: &mut Open, idle: &mut I) -> bool
    ensures goes_on { GoesOn desk.old desk.new }
    ensures kept { AllKept desk.old → AllKept desk.new }
    ensures idled { I.leads idle.old idle.new }
{
    let (mut handle, mut retval) = (0, 55);
    let answer = xa_complete(rt, desk, &mut handle, &mut retval, 1, TMMULTIPLE, idle);
    answer == 0 && mark(open, handle, false)
}

// What came of a request.
#[derive(Clone, Copy)]
enum Put {
    Sent,
    // No handle was free, or the queue was full.
    Busy,
    Shut,
    // The handle stands for another operation.
    Wrong,
}

// Puts a request of the given number to the manager. An even one opens it, and an odd one asks it to
// prepare a branch that isn't there, so that requests which aren't late have two codes.
fn puts<R: Wait, I: Idle>(
    rt: &R,
    desk: &mut Desk,
    number: usize,
    open: &mut Open,
    idle: &mut I,
) -> Put
    ensures goes_on { GoesOn desk.old desk.new }
    ensures kept { AllKept desk.old → AllKept desk.new }
    ensures idled { I.leads idle.old idle.new }
{
    let call = if number % 2 == 0 {
        Call::OpenRm
    } else {
        Call::Prepare
    };
    let branch = Xid::new(1, b"g", b"1").ok();
    let answer = xa_call(rt, desk, call, branch, 1, TMASYNC, idle);
    if answer == Code::Async.value() {
        Put::Busy
    } else if answer == Code::RmFail.value() {
        Put::Shut
    } else if mark(open, answer, true) {
        Put::Sent
    } else {
        Put::Wrong
    }
}

// Sends up to 100 requests, until one is refused because the manager is shut. It collects where it may
// not send. How many were sent, and whether each handle was collected once.
fn send_all<R: Wait, I: Idle>(
    rt: &R,
    desk: &mut Desk,
    open: &mut Open,
    idle: &mut I,
) -> (usize, bool)
    ensures goes_on { GoesOn desk.old desk.new }
    ensures kept { AllKept desk.old → AllKept desk.new }
    ensures idled { I.leads idle.old idle.new }
{
    desks_go_on();
    idles_go_on::<I>();
    let (mut sent, mut is_well) = (0usize, true);
    // Each request is sent once and collected once, and one is refused at last.
    'asks: for _turn in 0..2 * MOST + 1 {
        if sent == MOST {
            break;
        }
        match puts(rt, desk, sent, open, idle) {
            Put::Sent => sent = sent.saturating_add(1),
            Put::Busy => is_well &= collects(rt, desk, open, idle),
            Put::Shut => break,
            Put::Wrong => is_well = false,
        }
    }
    (sent, is_well)
}

// Collects what is left. Whether nothing is then.
fn collect_rest<R: Wait, I: Idle>(rt: &R, desk: &mut Desk, open: &mut Open, idle: &mut I) -> bool
    ensures goes_on { GoesOn desk.old desk.new }
    ensures kept { AllKept desk.old → AllKept desk.new }
    ensures idled { I.leads idle.old idle.new }
{
    desks_go_on();
    idles_go_on::<I>();
    'rest: for _handle in 0..HANDLES {
        collects(rt, desk, open, idle);
    }
    !collects(rt, desk, open, idle) && !open.contains(&true)
}

// Sends all requests, and collects all. How many were sent, and whether all was answered as it has to be.
fn ask<R: Wait, I: Idle>(rt: &R, desk: &mut Desk, idle: &mut I) -> (usize, bool)
    ensures goes_on { GoesOn desk.old desk.new }
    ensures kept { AllKept desk.old → AllKept desk.new }
    ensures idled { I.leads idle.old idle.new }
{
    desks_go_on();
    idles_go_on::<I>();
    let mut open = [false; HANDLES + 1];
    let (sent, is_well) = send_all(rt, desk, &mut open, idle);
    let is_empty = collect_rest(rt, desk, &mut open, idle);
    let is_over = sent == MOST || desk.learnt_shut(1);
    (sent, is_well & is_empty & is_over)
}

fn opens<R: Wait, I: Idle>(rt: &R, desk: &mut Desk, idle: &mut I) -> i32
    ensures goes_on { GoesOn desk.old desk.new }
    ensures kept { AllKept desk.old → AllKept desk.new }
    ensures idled { I.leads idle.old idle.new }
{
    xa_call(rt, desk, Call::OpenRm, None, 1, TMNOFLAGS, idle)
}

fn shuts<R: Wait, I: Idle>(rt: &R, desk: &mut Desk, idle: &mut I) -> i32
    ensures goes_on { GoesOn desk.old desk.new }
    ensures kept { AllKept desk.old → AllKept desk.new }
    ensures idled { I.leads idle.old idle.new }
{
    native(rt, desk, RmOp::Shut, 1, TMNOFLAGS, idle)
}

// Shuts the manager after so many calls, each of which is answered. The second Shut is late, and the third
// isn't sent.
fn shut<R: Wait, I: Idle>(rt: &R, desk: &mut Desk, calls: u32, idle: &mut I) -> bool
    ensures goes_on { GoesOn desk.old desk.new }
    ensures kept { AllKept desk.old → AllKept desk.new }
    ensures idled { I.leads idle.old idle.new }
{
    desks_go_on();
    idles_go_on::<I>();
    let mut is_well = true;
    for _call in 0..calls {
        is_well &= opens(rt, desk, idle) == 0;
    }
    let first = shuts(rt, desk, idle);
    let was_learnt = desk.learnt_shut(1);
    let second = shuts(rt, desk, idle);
    let is_learnt = desk.learnt_shut(1);
    let third = shuts(rt, desk, idle);
    let late = Code::RmFail.value();
    is_well & (first == 0) & !was_learnt & (second == late) & is_learnt & (third == late)
}

// A thread that shuts the manager after so many calls, or else one that asks it: how many requests it sent, and
// whether all was answered as it has to be.
#[derive(Drop)]
struct Racer {
    shuts_after: Option<u32>,
    sent: usize,
    is_well: bool,
}

impl Racer {
    fn new(shuts_after: Option<u32>) -> Racer {
        Racer {
            shuts_after,
            sent: 0,
            is_well: false,
        }
    }
}

impl Client for Racer {
    ghost works = { λ client desk client' desk'. Unit {0} };

    fn work<R: Wait, I: Idle>(&mut self, rt: &R, desk: &mut Desk, idle: &mut I) {
        match self.shuts_after {
            Some(calls) => self.is_well = shut(rt, desk, calls, idle),
            None => (self.sent, self.is_well) = ask(rt, desk, idle),
        }
    }
}

// After the first Shut each code is XAER_RMFAIL, and no other is.
fn is_shut_once(journal: &[(Request, Code)]) -> bool {
    let mut is_shut = false;
    for (request, code) in journal {
        if is_shut != matches!(code, Code::RmFail) {
            return false;
        }
        is_shut = is_shut || matches!(request.op, Op::Shut);
    }
    is_shut
}

// What a thread that asks and one that shuts the manager after so many calls come to.
fn race<R: Threads + Wait + Abort + Copy + Send + 'static>(
    rt: &R,
    alloc: Global,
    calls: u32,
) -> Run<Racer> {
    let plan = Plan {
        handles: HANDLES as u32,
        requests: 128,
        ..plan_of(rt, alloc, 2)
    };
    let racers = [Racer::new(None), Racer::new(Some(calls))];
    let clients = Vec::from_array(alloc, racers).expect(rt, "memory");
    let paces = Vec::from_array(alloc, [Free, Free]).expect(rt, "memory");
    assert!(rt; plan.threads == 2 && plan.managers.len() == 2);
    match run_clients(rt, alloc, &plan, clients, paces) {
        Ok(run) => run,
        Err(_) => panic!(rt; "no run"),
    }
}

#[test]
fn requests_race_with_a_shut(rt: HostRuntime) {
    for calls in [0, 1, 5, 20, 60] {
        is_right(&rt, &race(&rt, rt.alloc(), calls), calls);
    }
}

// All was answered as it has to be, and nothing is outstanding.
fn is_right(rt: &impl Abort, run: &Run<Racer>, calls: u32) {
    let [asker, shutter] = run.clients.as_slice() else {
        panic!(rt; "two clients");
    };
    assert!(rt;
        asker.client.is_well && shutter.client.is_well,
        "after {calls} calls"
    );
    assert!(rt; asker.outstanding.is_empty() && shutter.outstanding.is_empty());
    let journal = run.settled.journal(1);
    assert!(rt; is_shut_once(journal), "after {calls} calls");
    // The Shut, the late one, and the calls before them.
    assert!(rt; journal.len() == asker.client.sent.saturating_add(calls as usize + 2));
}
