//! Managers that tests step by hand, and a desk over lanes to them.
ghost use Rattle.std.specs.Prelude.{◌≡◌, ◌≢◌, ◌≤◌, [], length, All};
ghost use Rattle.xa_desk.specs.DeskViews.{TicketView, Owns};
ghost use Rattle.xa_desk.specs.GoingOn.{GoesOn};
ghost use Rattle.xa_desk.specs.Lanes.{AreEndsTo, IsEndTo};
ghost use Rattle.xa_desk.specs.Tickets.{LeavesTickets};

use std::alloc::Global;
use std::process::Abort;
use std::sync::Wait;
use xa_desk::{Desk, DeskParts, Idle, Refused, Ticket};
use xa_lane::{LaneName, Receiver, Sender, Taken, open_lane};
use xa_words::{Code, Completion, Op, Request};

/// The managers' ends of the lanes of one desk. Each idle lets the manager that is waited for, or each
/// manager, answer one request.
#[derive(Drop)]
pub(crate) struct Managers {
    pub(crate) requests: Vec<Receiver<Request>>,
    pub(crate) completions: Vec<Sender<Completion>>,
    pub(crate) idled: u32,
}

impl Managers {
    /// What stands at the front of the lane to a manager.
    pub(crate) fn take<R: Wait + Abort>(&mut self, rt: &R, manager: u32) -> Taken<Request> {
        let Some(lane) = self.requests.get_mut((manager as usize).wrapping_sub(1)) else {
            panic!(rt; "no manager {manager}");
        };
        lane.take(rt)
    }

    /// The next request to a manager.
    pub(crate) fn next<R: Wait + Abort>(&mut self, rt: &R, manager: u32) -> Option<Request> {
        match self.take(rt, manager) {
            Taken::Item(_, request) => Some(request),
            Taken::EndOf(_) | Taken::Empty => None,
        }
    }

    /// Answers a request of a manager; the first manager speaks for one that there isn't.
    pub(crate) fn answer<R: Wait + Abort>(
        &mut self,
        rt: &R,
        manager: u32,
        number: u32,
        code: Code,
    ) {
        let completion = Completion {
            manager,
            number,
            code,
        };
        let place = (manager as usize).wrapping_sub(1);
        let place = if place < self.completions.len() {
            place
        } else {
            0
        };
        let Some(lane) = self.completions.get_mut(place) else {
            panic!(rt; "no manager");
        };
        assert!(rt; lane.offer(rt, completion).is_ok(), "room for completions");
    }

    // Carries out the next request to a manager.
    fn step<R: Wait>(&mut self, rt: &R, manager: u32) {
        let place = (manager as usize).wrapping_sub(1);
        let Some(lane) = self.requests.get_mut(place) else {
            return;
        };
        let Taken::Item(_, request) = lane.take(rt) else {
            return;
        };
        let completion = Completion {
            manager,
            number: request.number,
            code: code_of(&request.op),
        };
        if let Some(lane) = self.completions.get_mut(place) {
            let _ = lane.offer(rt, completion);
        }
    }
}

impl Idle for Managers {
    ghost use Rattle.std.specs.Prelude.{◌≤◌};
    ghost use Rattle.std.proofs.Common.{arith};

    ghost leads_by = { λ manager before after. before.idled ≤ after.idled };

    ghost leads = { λ before after. before.idled ≤ after.idled };

    ghost leads_each = { λ manager x y p. p };

    ghost leads_start = { λ x. Prim.omega arith };

    ghost leads_chain = { λ x y z p q. Prim.omega arith };

    fn idle<R: Wait>(&mut self, rt: &R, manager: u32) {
        let idled = self.idled.saturating_add(1);
        if manager > 0 {
            self.step(rt, manager);
        } else {
            for number in 1..9 {
                self.step(rt, number);
            }
        }
        self.idled = idled;
    }
}

/// What each manager answers.
pub(crate) fn code_of(op: &Op) -> Code {
    match op {
        Op::OpenRm => Code::Done,
        Op::CloseRm => Code::Proto,
        Op::Shut => Code::RmFail,
        _ => Code::Nota,
    }
}

// A lane of requests from thread 1 to a manager.
fn open_one<R: Wait + Abort>(
    rt: &R,
    alloc: Global,
    manager: u32,
    capacity: usize,
) -> (Sender<Request>, Receiver<Request>)
    ensures end { IsEndTo 1 1 manager result.0 }
    ensures new { result.0.sent ≡ [] }
{
    let name = LaneName {
        opening: 1,
        kind: 0,
        index: manager,
    };
    let (mut senders, receiver) = open_lane(rt, alloc, name, 1, capacity).expect(rt, "a lane");
    let sender = senders.pop().expect(rt, "a sender");
    (sender, receiver)
}

// The lanes of requests from thread 1 to so many managers.
fn open_requests<R: Wait + Abort>(
    rt: &R,
    alloc: Global,
    managers: usize,
    capacity: usize,
) -> (Vec<Sender<Request>>, Vec<Receiver<Request>>)
    requires { managers ≤ 8 }
    ensures ends { AreEndsTo 1 1 result.0.items }
    ensures number { length result.0.items ≡ managers }
    ensures new { All (λ s. s.sent ≡ []) result.0.items }
{
    let mut senders = Vec::new(alloc);
    let mut receivers = Vec::new(alloc);
    let mut manager = 0;
    for _place in 0..managers {
        manager += 1;
        let (sender, receiver) = open_one(rt, alloc, manager, capacity);
        senders.push(sender).expect(rt, "memory");
        receivers.push(receiver).expect(rt, "memory");
    }
    (senders, receivers)
}

// The lane of completions of thread 1 from so many managers.
fn open_completions<R: Wait + Abort>(
    rt: &R,
    alloc: Global,
    managers: usize,
) -> (Vec<Sender<Completion>>, Receiver<Completion>)
    ensures named { (result.1.lane.opening ≡ 1) × (result.1.lane.index ≡ 1) }
    ensures new { (result.1.senders ≡ managers) × (result.1.taken ≡ []) }
{
    let name = LaneName {
        opening: 1,
        kind: 1,
        index: 1,
    };
    open_lane(rt, alloc, name, managers, 64).expect(rt, "a lane")
}

/// A desk of thread 1 of opening 1, with a manager for each of `use_async`, and the managers' ends of its
/// lanes.
pub(crate) fn opened<R: Wait + Abort>(
    rt: &R,
    alloc: Global,
    handles: u32,
    requests: u32,
    use_async: &[bool],
    capacity: usize,
) -> (Desk, Managers)
    requires handles { (1 ≤ handles) × (handles ≤ 32) }
    requires requests { (1 ≤ requests) × (requests ≤ 4096) }
    requires managers { (1 ≤ length use_async.now) × (length use_async.now ≤ 8) }
{
    let parts = DeskParts::reserve(alloc, 1, handles, requests, use_async).expect(rt, "memory");
    let (senders, receivers) = open_requests(rt, alloc, use_async.len(), capacity);
    let (workers, completions) = open_completions(rt, alloc, use_async.len());
    let managers = Managers {
        requests: receivers,
        completions: workers,
        idled: 0,
    };
    (Desk::assemble(parts, senders, completions), managers)
}

/// Sends a request that is not to be refused.
pub(crate) fn sent<R: Wait + Abort>(rt: &R, desk: &mut Desk, manager: u32, op: Op) -> Ticket
    ensures owned { Owns desk.new result }
    ensures tickets { LeavesTickets desk.old desk.new }
    ensures fresh { (older : TicketView) → Owns desk.old older → older.operation ≢ result.operation }
    ensures goes_on { GoesOn desk.old desk.new }
{
    match desk.submit(rt, manager, &op) {
        Ok(ticket) => ticket,
        Err(why) => panic!(rt; "refused: {why:?}"),
    }
}

/// Sends and keeps.
pub(crate) fn kept<R: Wait + Abort>(rt: &R, desk: &mut Desk, manager: u32, op: Op) -> u32 {
    let ticket = sent(rt, desk, manager, op);
    desk.keep(ticket)
}

/// Why a request is refused.
pub(crate) fn refusal<R: Wait + Abort>(rt: &R, desk: &mut Desk, manager: u32, op: Op) -> Refused {
    match desk.submit(rt, manager, &op) {
        Ok(ticket) => {
            desk.keep(ticket);
            panic!(rt; "sent");
        }
        Err(why) => why,
    }
}
