//! A caller's own functions: what they owe of the desk on every exit follows from what the calls promise, also where
//! want of memory is passed on, and with no proof file. And two threads that resolve by the logs of all coordinators.
ghost use Rattle.std.specs.Prelude.{◌≡◌, length};
ghost use Rattle.xa_desk.specs.GoingOn.{GoesOn};
ghost use Rattle.xa_desk.specs.Kept.{AllKept};

use std::alloc::Global;
use std::process::Abort;
use std::sync::Wait;
use std::thread::Threads;
use xa_calls::{RmOp, native, xa_call};
use xa_crew::laws::idles_go_on;
use xa_crew::{Client, Run, run_clients};
use xa_crew_again::{ClientAgain, run_clients_again_in_turns};
use xa_desk::laws::desks_go_on;
use xa_desk::{Desk, Idle};
use xa_driver::{Branch, Resolved, commit, may_commit, may_resolve, resolve};
use xa_log::{DecisionRecords, MemoryLog};
use xa_scan::Scan;
use xa_switch::{Again, Plan, Settled};
use xa_words::{Call, Code, Death, Delta, Key, TMNOFLAGS, TMSUCCESS, Xid};
use xa_worker::Free;

// Opens the branch's manager, and starts the branch.
fn start<R: Wait, I: Idle>(rt: &R, desk: &mut Desk, branch: &Branch, idle: &mut I)
    ensures goes_on { GoesOn desk.old desk.new }
    ensures kept { AllKept desk.old → AllKept desk.new }
    ensures idled { I.leads idle.old idle.new }
{
    desks_go_on();
    idles_go_on::<I>();
    let Branch { m, xid } = *branch;
    xa_call(rt, desk, Call::OpenRm, None, m, TMNOFLAGS, idle);
    xa_call(rt, desk, Call::Start, Some(xid), m, TMNOFLAGS, idle);
}

// Makes a change in the branch, at its manager.
fn work<R: Wait, I: Idle>(rt: &R, desk: &mut Desk, branch: &Branch, change: RmOp, idle: &mut I)
    ensures goes_on { GoesOn desk.old desk.new }
    ensures kept { AllKept desk.old → AllKept desk.new }
    ensures idled { I.leads idle.old idle.new }
{
    desks_go_on();
    idles_go_on::<I>();
    start(rt, desk, branch, idle);
    let Branch { m, xid } = *branch;
    native(rt, desk, change, m, TMNOFLAGS, idle);
    xa_call(rt, desk, Call::End, Some(xid), m, TMSUCCESS, idle);
}

// The account of the thread, which the other doesn't touch.
fn account_of(thread: u32) -> Option<Key> {
    Key::new(if thread == 1 { b"a" } else { b"b" })
}

// The branches of the thread's payment, and what is changed in each: 1 goes from manager 1 to manager 2.
fn payment(thread: u32) -> Option<([Branch; 2], [RmOp; 2])> {
    let gtrid = thread.to_be_bytes();
    let pays = Branch {
        m: 1,
        xid: Xid::new(1, &gtrid, b"pays").ok()?,
    };
    let is_paid = Branch {
        m: 2,
        xid: Xid::new(1, &gtrid, b"paid").ok()?,
    };
    let account = account_of(thread)?;
    let changes = [
        RmOp::Add(account, Delta::new(-1)?),
        RmOp::Add(account, Delta::new(1)?),
    ];
    Some(([pays, is_paid], changes))
}

// Makes the payment: whether it was committed. Its coordinator may die once that is decided.
fn pay<R: Wait, I: Idle>(
    rt: &R,
    alloc: Global,
    desk: &mut Desk,
    log: &mut MemoryLog,
    dies: bool,
    idle: &mut I,
) -> Option<bool>
    ensures goes_on { GoesOn desk.old desk.new }
    ensures kept { AllKept desk.old → AllKept desk.new }
    ensures idled { I.leads idle.old idle.new }
{
    desks_go_on();
    idles_go_on::<I>();
    let ([pays, is_paid], [minus, plus]) = payment(desk.thread())?;
    work(rt, desk, &pays, minus, idle);
    work(rt, desk, &is_paid, plus, idle);
    let branches = [pays, is_paid];
    if !may_commit(desk, log, &branches) {
        return None;
    }
    let death = dies.then_some(Death::Decided);
    let outcome = commit(rt, alloc, desk, log, &branches, death, idle).ok()?;
    Some(outcome.is_to_commit())
}

// Ends what is left, where that can be.
fn end_what_is_left<R: Wait, L: DecisionRecords, I: Idle>(
    rt: &R,
    alloc: Global,
    desk: &mut Desk,
    scan: &Scan,
    log: &L,
    idle: &mut I,
) -> Option<Resolved>
    ensures goes_on { GoesOn desk.old desk.new }
    ensures kept { AllKept desk.old → AllKept desk.new }
    ensures idled { I.leads idle.old idle.new }
{
    if !may_resolve(desk, scan, log) {
        return None;
    }
    resolve(rt, alloc, desk, scan, log, idle).ok()
}

// A thread that makes a payment.
#[derive(Drop)]
struct Payer {
    alloc: Global,
    log: MemoryLog,
    dies: bool,
    committed: Option<bool>,
}

impl Client for Payer {
    ghost works = { λ payer desk payer' desk'. Unit {0} };

    fn work<R: Wait, I: Idle>(&mut self, rt: &R, desk: &mut Desk, idle: &mut I) {
        self.committed = pay(rt, self.alloc, desk, &mut self.log, self.dies, idle);
    }
}

// A thread that resolves by the logs of all.
#[derive(Drop)]
struct Clerk<'a> {
    alloc: Global,
    logs: &'a [&'a MemoryLog],
    resolved: Option<Resolved>,
}

impl<'a> ClientAgain for Clerk<'a> {
    ghost works_again = { λ clerk desk scan clerk' desk' scan'. Unit {0} };

    fn work_again<R: Wait, I: Idle>(
        &mut self,
        rt: &R,
        desk: &mut Desk,
        scan: &mut Scan,
        idle: &mut I,
    ) {
        self.resolved = end_what_is_left(rt, self.alloc, desk, scan, &self.logs, idle);
    }
}

// A plan of two threads and two managers, each with both accounts of value 10.
fn plan_of_both(rt: &impl Abort, alloc: Global) -> Plan {
    let (Some(a), Some(b)) = (account_of(1), account_of(2)) else {
        panic!(rt; "they are names");
    };
    let accounts = [(a, 10), (b, 10)];
    Plan {
        handles: 2,
        requests: 16,
        ..Plan::uniform(alloc, 2, 2, &accounts).expect(rt, "memory")
    }
}

fn payer_of(alloc: Global, dies: bool) -> Payer {
    Payer {
        alloc,
        log: MemoryLog::new(alloc),
        dies,
        committed: None,
    }
}

// A run of two payers in threads, which die, or don't.
fn run_of<R: Threads + Wait + Abort + Copy + Send + 'static>(
    rt: &R,
    alloc: Global,
    dies: bool,
) -> Run<Payer> {
    let plan = plan_of_both(rt, alloc);
    let payers = [payer_of(alloc, dies), payer_of(alloc, dies)];
    let payers = Vec::from_array(alloc, payers).expect(rt, "memory");
    let paces = vec![in alloc; Free; plan.managers.len()].expect(rt, "memory");
    assert!(rt; plan.threads == 2);
    match run_clients(rt, alloc, &plan, payers, paces) {
        Ok(run) => run,
        Err(_) => panic!(rt; "no run"),
    }
}

// The thread's account has this much at the two managers.
fn has(rt: &impl Abort, settled: &Settled, thread: u32, values: [Option<u64>; 2]) {
    let account = account_of(thread).expect(rt, "an account");
    assert!(rt; settled.value(1, &account) == values[0]);
    assert!(rt; settled.value(2, &account) == values[1]);
}

// Each account has this much at the two managers.
fn have(rt: &impl Abort, settled: &Settled, values: [Option<u64>; 2]) {
    has(rt, settled, 1, values);
    has(rt, settled, 2, values);
}

// Of each branch that was left, that it was to be committed, and what its manager answered.
fn told(rt: &impl Abort, resolved: &Option<Resolved>, code: Code) {
    let Some(Resolved { outcomes }) = resolved else {
        panic!(rt; "it may resolve");
    };
    assert!(rt; outcomes.len() == 4);
    for outcome in outcomes {
        assert!(rt; outcome.commit && outcome.code == code);
    }
}

#[test]
fn a_caller_passes_want_of_memory_on(rt: HostRuntime) {
    let run = run_of(&rt, rt.alloc(), false);
    for payer in &run.clients {
        assert!(rt; payer.client.committed == Some(true));
    }
    have(&rt, &run.settled, [Some(9), Some(11)]);
}

// Two clerks, who have the logs of both payers.
fn clerks<'a>(rt: &impl Abort, alloc: Global, logs: &'a [&'a MemoryLog]) -> Vec<Clerk<'a>>
    ensures { length result.items ≡ 2 }
{
    let clerk = || Clerk {
        alloc,
        logs,
        resolved: None,
    };
    Vec::from_array(alloc, [clerk(), clerk()]).expect(rt, "memory")
}

// Both clerks resolve what is left, one after the other.
fn resolve_both<R: Wait + Abort>(
    rt: &R,
    alloc: Global,
    settled: Settled,
    logs: &[&MemoryLog],
) -> Settled {
    let again = Again {
        opening: 2,
        threads: 2,
        handles: 2,
        queue: 2,
        requests: 16,
    };
    let clerks = clerks(rt, alloc, logs);
    let Ok(run) = run_clients_again_in_turns(rt, alloc, settled, &again, clerks) else {
        panic!(rt; "no run");
    };
    let [first, second] = run.clients.as_slice() else {
        panic!(rt; "two clerks");
    };
    told(rt, &first.client.client.resolved, Code::Done);
    told(rt, &second.client.client.resolved, Code::Nota);
    run.settled
}

// Each of the two finds all four branches left. The first ends them as their own logs have it, and the second is told
// that they are gone.
#[test]
fn two_threads_resolve_by_the_logs_of_all(rt: HostRuntime) {
    let alloc = rt.alloc();
    let Run { clients, settled } = run_of(&rt, alloc, true);
    have(&rt, &settled, [Some(10), Some(10)]);
    let [first, second] = clients.as_slice() else {
        panic!(rt; "two payers");
    };
    let logs = [&first.client.log, &second.client.log];
    let settled = resolve_both(&rt, alloc, settled, &logs);
    have(&rt, &settled, [Some(9), Some(11)]);
}
