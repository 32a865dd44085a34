//! Requests to several managers at once.
ghost use Rattle.std.specs.Prelude.{◌≡◌, ◌<◌, ◌++◌, ◌∷◌, [], ℕ, true, false, IfSome, IfNone, OnSome, IsNone, IsSome};
ghost use Rattle.std.specs.Prelude.{is_none};
ghost use Rattle.xa_desk.specs.declared.event.Event.TheVariants.{Sent};
ghost use Rattle.xa_desk.specs.LedgerViews.{learnt_shut};
ghost use Rattle.xa_desk.specs.DeskViews.{Owns, ledger, after_sent, next_operation, outstanding, ticket_of};
ghost use Rattle.xa_desk.specs.GoingOn.{GoesOn};
ghost use Rattle.xa_desk.specs.Lanes.{submitted, after_fulls};
ghost use Rattle.xa_desk.specs.Waits.{Idles};
ghost use Rattle.xa_driver.specs.Asks.{BeginsAsk, CanAsk, EndsAsk, KeepsDesk, KeepsTicket, LeavesOwned, Owning};
ghost use Rattle.xa_driver.specs.Idling.{IdlesToCollect, IdlesToSend};
ghost use Rattle.xa_driver.specs.UnderWay.{with_code};

use std::marker::Model;
use std::sync::Wait;
use xa_desk::laws::desks_go_on;
use xa_desk::{Desk, Idle, Refused, Ticket};
use xa_words::{Code, Op, Xid};

/// What a branch's manager may be asked.
#[derive(Clone, Copy)]
pub(crate) enum Wanted {
    Prepare,
    Commit,
    Rollback,
    Forget,
}

/// What a manager is asked for a branch, if anything, the code that it answered, and the branch's vote.
#[derive(Drop)]
pub(crate) struct Ask {
    pub(crate) manager: u32,
    pub(crate) xid: Xid,
    pub(crate) vote: Code,
    // What the request is. It has the branch's name, which isn't kept twice.
    pub(crate) wanted: Option<Wanted>,
    pub(crate) code: Option<Code>,
}

impl Model for Ask {
    ghost use Rattle.std.specs.Prelude.{option_map};
    ghost use Rattle.xa_driver.specs.Asks.{Ask, op_wanted};

    ghost Value = { Ask };

    ghost view = { λ k. record {
      manager = k.manager;
      xid = k.xid;
      vote = k.vote;
      op = option_map (op_wanted k.xid) k.wanted;
      code = k.code;
    } };
}

impl Ask {
    /// The request, if there is one.
    #[inline(always)]
    fn op(&self) -> Option<Op>
        ensures { result ≡ self.now.op }
    {
        match self.wanted? {
            Wanted::Prepare => Some(Op::Prepare(self.xid)),
            Wanted::Commit => Some(Op::Commit(self.xid, false)),
            Wanted::Rollback => Some(Op::Rollback(self.xid)),
            Wanted::Forget => Some(Op::Forget(self.xid)),
        }
    }

    /// It was answered so.
    #[inline(always)]
    pub(crate) fn enter(&mut self, code: Option<Code>)
        ensures { self.new ≡ with_code self.old code }
    {
        self.code = code;
    }

    /// Whether nothing is asked.
    pub(crate) fn is_passed(&self) -> bool
        ensures { result ≡ is_none self.now.op }
    {
        self.wanted.is_none()
    }
}

// Sends a request, and idles while the queue is full. None where the manager is learnt to be shut.
fn submit_waiting<R: Wait, I: Idle>(
    rt: &R,
    desk: &mut Desk,
    manager: u32,
    op: &Op,
    idle: &mut I,
) -> Option<Ticket>
    requires can { CanAsk desk.old.ledgers manager }
    requires free { outstanding desk.old.ledgers < desk.old.handles }
    ensures shut { IsNone result → learnt_shut (ledger desk.old.ledgers manager) ≡ true }
    ensures open_ { IsSome result → learnt_shut (ledger desk.old.ledgers manager) ≡ false }
    ensures unsent { IfNone result (desk.new ≡ desk.old) }
    ensures ticket { IfSome result (λ t. t ≡ ticket_of desk.old (next_operation desk.old.ledgers manager)) }
    ensures owned { IfSome result (λ t. Owns desk.new t) }
    ensures sent { OnSome result (desk.new.ledgers ≡ after_sent desk.old.ledgers manager op.now) }
    ensures event { OnSome result (desk.new.events
        ≡ desk.old.events ++ Sent (next_operation desk.old.ledgers manager) ∷ []) }
    ensures keeps { OnSome result (KeepsDesk desk.old desk.new) }
    ensures waited { OnSome result ((fulls : ℕ) × ((desk.new ≡ submitted (after_fulls fulls desk.old manager) manager
        op.now) × Idles (I.leads_by manager) fulls idle.old idle.new)) }
    ensures idle_stays { IfNone result (idle.new ≡ idle.old) }
    ensures idled { I.leads idle.old idle.new }
{
    if desk.learnt_shut(manager) {
        return None;
    }
    desks_go_on();
    for _ in rt.forever() {
        match desk.submit(rt, manager, op) {
            Ok(ticket) => return Some(ticket),
            Err(why) => match why {
                Refused::Full => idle.idle(rt, manager),
                // The manager isn't learnt to be shut, and a commit that may be made has handles and requests left.
                Refused::NoSuchManager | Refused::Shut | Refused::TooMany | Refused::Spent => {
                    unreachable!()
                }
            },
        }
    }
    unreachable!()
}

/// Sends what is asked. None where nothing is, or where the manager is learnt to be shut.
pub(crate) fn begin<R: Wait, I: Idle>(
    rt: &R,
    desk: &mut Desk,
    ask: &Ask,
    idle: &mut I,
) -> Option<Ticket>
    requires can { CanAsk desk.old.ledgers ask.now.manager }
    requires free { outstanding desk.old.ledgers < desk.old.handles }
    ensures began { BeginsAsk ask.now desk.old desk.new result }
    ensures waited { IdlesToSend I.leads_by ask.now desk.old desk.new idle.old idle.new }
    ensures idled { I.leads idle.old idle.new }
{
    let Some(op) = ask.op() else {
        return None;
    };
    submit_waiting(rt, desk, ask.manager, &op, idle)
}

/// Collects what was sent, and tells its code.
pub(crate) fn end<R: Wait, I: Idle>(
    rt: &R,
    desk: &mut Desk,
    ask: &Ask,
    ticket: Option<Ticket>,
    idle: &mut I,
) -> Option<Code>
    requires { Owning desk.old ticket }
    ensures ended { EndsAsk ask.now desk.old desk.new ticket result }
    ensures others { LeavesOwned desk.old desk.new ticket }
    ensures waited { IdlesToCollect I.leads_by ticket desk.old desk.new idle.old idle.new }
    ensures idled { I.leads idle.old idle.new }
{
    let Some(ticket) = ticket else {
        if ask.is_passed() {
            return None;
        }
        return Some(Code::RmFail);
    };
    Some(desk.complete(rt, ticket, idle))
}

/// Keeps the operation of the ticket under a handle, if there is one.
pub(crate) fn keep(desk: &mut Desk, ticket: Option<Ticket>)
    requires { Owning desk.old ticket }
    ensures kept { KeepsTicket desk.old desk.new ticket }
    ensures goes_on { GoesOn desk.old desk.new }
    ensures others { LeavesOwned desk.old desk.new ticket }
{
    desks_go_on();
    let Some(ticket) = ticket else {
        return;
    };
    desk.keep(ticket);
}
