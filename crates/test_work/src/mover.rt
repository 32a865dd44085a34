//! A thread of control whose units of work each move an amount from manager 1 to another.
ghost use Rattle.std.specs.Prelude.{◌≡◌, length};
ghost use Rattle.xa_desk.specs.GoingOn.{GoesOn};
ghost use Rattle.xa_desk.specs.Kept.{AllKept};

use std::alloc::Global;
use std::process::Abort;
use std::sync::Wait;
use xa_crew::laws::idles_go_on;
use xa_crew::{Client, run_clients_in_turns};
use xa_desk::laws::desks_go_on;
use xa_desk::{Desk, Idle};
use xa_driver::Branch;
use xa_log::DecisionLog;
use xa_switch::{Plan, Settled};
use xa_words::{Death, Delta, Key, Xid};
use xa_work::{Change, WorkOutcome, open_all, transact, transact_until};

// A unit of work with branches at managers 1 and 2.
#[derive(Clone, Copy)]
pub(crate) struct Move {
    // The name of its global transaction.
    pub(crate) gtrid: u8,
    pub(crate) key: u8,
    // What goes from the key at manager 1 to that at another.
    pub(crate) amount: i64,
    pub(crate) to: u32,
    // Where its coordinator is to die.
    pub(crate) death: Option<Death>,
}

impl Move {
    // 2 of key `a` go to manager 2, in the transaction of this name.
    pub(crate) fn of(gtrid: u8) -> Move {
        Move {
            gtrid,
            key: b'a',
            amount: 2,
            to: 2,
            death: None,
        }
    }

    // The same, whose coordinator is to die there.
    pub(crate) fn until(self, death: Option<Death>) -> Move {
        Move { death, ..self }
    }

    fn branch(&self, m: u32, bqual: &[u8]) -> Option<Branch> {
        let xid = Xid::new(1, &[self.gtrid], bqual).ok()?;
        Some(Branch { m, xid })
    }

    fn change(&self, m: u32, amount: i64) -> Option<Change> {
        let (key, delta) = (Key::new(&[self.key])?, Delta::new(amount)?);
        Some(Change { m, key, delta })
    }
}

// Does the unit of work. None where there are no such names, or for want of memory.
fn make<R: Wait, L: DecisionLog, I: Idle>(
    rt: &R,
    alloc: Global,
    desk: &mut Desk,
    log: &mut L,
    one: &Move,
    idle: &mut I,
) -> Option<WorkOutcome>
    ensures goes_on { GoesOn desk.old desk.new }
    ensures kept { AllKept desk.old → AllKept desk.new }
    ensures idled { I.leads idle.old idle.new }
{
    desks_go_on();
    idles_go_on::<I>();
    let branches = [one.branch(1, b"from")?, one.branch(2, b"to")?];
    let changes = [
        one.change(1, one.amount.wrapping_neg())?,
        one.change(one.to, one.amount)?,
    ];
    match one.death {
        None => transact(rt, alloc, desk, log, &branches, &changes, idle).ok(),
        death => transact_until(rt, alloc, desk, log, &branches, &changes, death, idle).ok(),
    }
}

// A thread that opens its managers, and then does its units of work one after the other.
#[derive(Drop)]
struct Mover<L> {
    alloc: Global,
    log: L,
    moves: Vec<Move>,
    outcomes: Vec<WorkOutcome>,
}

impl<L: DecisionLog + Drop> Client for Mover<L> {
    ghost works = { λ mover desk mover' desk'. Unit {0} };

    fn work<R: Wait, I: Idle>(&mut self, rt: &R, desk: &mut Desk, idle: &mut I) {
        desks_go_on();
        idles_go_on::<I>();
        open_all(rt, desk, idle);
        for one in &self.moves {
            let Some(outcome) = make(rt, self.alloc, desk, &mut self.log, one, idle) else {
                return;
            };
            if self.outcomes.push(outcome).is_err() {
                return;
            }
        }
    }
}

// A plan of one thread and two managers, each of which has 5 of key `a`, with 8 handles.
pub(crate) fn plan(rt: &impl Abort, alloc: Global) -> Plan {
    let accounts = [(Key::new(b"a").expect(rt, "a key"), 5)];
    test_support::plan_of(alloc, 2, &accounts).expect(rt, "memory")
}

// What came of a thread's units of work.
#[derive(Drop)]
pub(crate) struct Moved<L> {
    pub(crate) outcomes: Vec<WorkOutcome>,
    pub(crate) log: L,
    pub(crate) settled: Settled,
}

impl<L> Moved<L> {
    // What both managers have of key `a`.
    pub(crate) fn values(&self, rt: &impl Abort) -> [Option<u64>; 2] {
        let key = Key::new(b"a").expect(rt, "a key");
        [1, 2].map(|m: u32| self.settled.value(m, &key))
    }

    // How many requests were sent to each.
    pub(crate) fn sent(&self) -> [usize; 2] {
        [1, 2].map(|m: u32| self.settled.sent(1, m).len())
    }
}

// Runs a thread over the plan with this log and these units of work, each of which has its outcome.
pub(crate) fn run<R: Wait + Abort, L: DecisionLog + Drop>(
    rt: &R,
    alloc: Global,
    plan: &Plan,
    log: L,
    moves: &[Move],
) -> Moved<L>
    ensures { length result.outcomes.items ≡ length moves.now }
{
    let mover = Mover {
        alloc,
        log,
        moves: moves.to_vec(alloc).expect(rt, "memory"),
        outcomes: Vec::new(alloc),
    };
    let mut movers = Vec::with_capacity(alloc, 1).expect(rt, "memory");
    movers.push_reserved(mover);
    assert_eq!(rt; movers.len(), plan.threads as usize);
    let mut run = run_clients_in_turns(rt, alloc, plan, movers).expect(rt, "a run");
    let Mover {
        alloc: _,
        log,
        moves: _,
        outcomes,
    } = run.clients.pop().expect(rt, "a mover").client;
    assert_eq!(rt; outcomes.len(), moves.len());
    Moved {
        outcomes,
        log,
        settled: run.settled,
    }
}
