//! A desk's ledger with one manager.
ghost use Rattle.std.specs.Prelude.{◌≡◌, ◌-◌, ◌^◌, ◌<◌, ◌≤◌, [], ◌∷◌, ◌++◌, length, IfOk};
ghost use Rattle.xa_desk.specs.LedgerViews.{new_ledger, learnt_shut, with_sent, with_collected};
ghost use Rattle.xa_desk.specs.Lanes.{new_ledgers};

use std::alloc::{AllocError, Global};
use std::marker::Model;
use xa_words::{Code, Op, RmOp, Xid};

/// What was sent to one manager and what was collected from it, in memory that was reserved for the plan.
#[derive(Drop)]
pub struct Ledger {
    carries_async: bool,
    learnt_shut: bool,
    plan: u32,
    sent: Vec<Op>,
    collected: Vec<(u32, Code)>,
}

impl Model for Ledger {
    ghost use Rattle.xa_desk.specs.LedgerViews.{LedgerView};
    ghost use Rattle.xa_desk.specs.Ledger.{ledger_of, IsLedger};

    ghost Value = { LedgerView };

    ghost view = { ledger_of };

    ghost invariant = { IsLedger };
}

impl Ledger {
    /// A ledger with which nothing was done, and room for `plan` requests.
    pub(crate) fn new(alloc: Global, plan: u32, carries_async: bool) -> Result<Ledger, AllocError>
        ensures { IfOk result (λ a. a ≡ new_ledger carries_async plan) }
    {
        let sent = Vec::with_capacity(alloc, plan as usize)?;
        let collected = Vec::with_capacity(alloc, plan as usize)?;
        Ok(Ledger {
            carries_async,
            learnt_shut: false,
            plan,
            sent,
            collected,
        })
    }

    /// Whether the manager takes asynchronous calls: `TMUSEASYNC` (C193, chapter 4).
    #[inline(always)]
    pub fn carries_async(&self) -> bool
        ensures { result ≡ self.now.carries_async }
    {
        self.carries_async
    }

    /// Whether `XAER_RMFAIL` was collected.
    #[inline(always)]
    pub(crate) fn learnt_shut(&self) -> bool
        ensures { result ≡ learnt_shut self.now }
    {
        self.learnt_shut
    }

    /// What holds of every ledger: no more requests were sent than are planned, and these can be numbered. A law:
    /// nothing is done.
    #[inline(always)]
    fn is_planned(&self)
        ensures { (length self.now.sent ≤ self.now.plan) × (self.now.plan < 2 ^ 32) }
    {
        let _inside = self.plan;
    }

    /// How many requests were sent, which is the number of the next.
    #[inline(always)]
    pub(crate) fn next_number(&self) -> u32
        ensures sent { result ≡ length self.now.sent }
        ensures planned { result ≤ self.now.plan }
    {
        self.is_planned();
        self.sent.len() as u32
    }

    /// How many planned requests are left.
    #[inline(always)]
    pub(crate) fn room(&self) -> u32
        ensures { result ≡ self.now.plan - length self.now.sent }
    {
        self.plan - self.sent.len() as u32
    }

    /// The requests that were sent, in order: the one at place n has number n.
    pub fn sent(&self) -> &[Op]
        ensures { result.now ≡ self.now.sent }
    {
        &self.sent
    }

    /// What was collected, in order: numbers with their codes.
    pub fn collected(&self) -> &[(u32, Code)]
        ensures { result.now ≡ self.now.collected }
    {
        &self.collected
    }

    /// One more request was sent.
    #[inline(always)]
    pub(crate) fn push_sent(&mut self, op: &Op)
        requires { length self.old.sent < self.old.plan }
        ensures { self.new ≡ with_sent self.old op.now }
    {
        // It names the types within a request: a `push` of a type that only contains them gets no proof.
        let _named: Option<(Xid, RmOp)> = None;
        self.sent.push_reserved(*op);
    }

    /// One more request was collected.
    #[inline(always)]
    pub(crate) fn push_collected(&mut self, number: u32, code: Code)
        requires { length self.old.collected < self.old.plan }
        ensures { self.new ≡ with_collected self.old number code }
    {
        self.collected.push_reserved((number, code));
        if matches!(code, Code::RmFail) {
            self.learnt_shut = true;
        }
    }
}

/// A ledger with each manager, and whether it takes asynchronous calls.
pub(crate) fn open_ledgers(
    alloc: Global,
    requests: u32,
    use_async: &[bool],
) -> Result<Vec<Ledger>, AllocError>
    ensures { IfOk result (λ v. v.items ≡ new_ledgers requests use_async.now) }
{
    let mut ledgers = Vec::with_capacity(alloc, use_async.len())?;
    for carries_async in use_async {
        ledgers.push(Ledger::new(alloc, requests, *carries_async)?)?;
    }
    Ok(ledgers)
}
