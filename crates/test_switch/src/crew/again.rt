//! Runs of a client over an opening that is opened again: it is lent the scan of what it left prepared.
ghost use Rattle.std.specs.Prelude.{◌≡◌, length};
ghost use Rattle.xa_desk.specs.GoingOn.{GoesOn};
ghost use Rattle.xa_desk.specs.Kept.{AllKept};

use std::alloc::Global;
use std::process::Abort;
use std::sync::Wait;
use std::thread::Threads;
use xa_calls::{RmOp, native, xa_call, xa_recover};
use xa_crew::laws::idles_go_on;
use xa_crew::{Client, Run, run_clients};
use xa_crew_again::{
    AgainFault, ClientAgain, UnopenedClients, WithScan, run_clients_again,
    run_clients_again_in_turns,
};
use xa_desk::laws::desks_go_on;
use xa_desk::{Desk, Idle};
use xa_scan::Scan;
use xa_switch::{Again, OpenFault, Plan, Settled};
use xa_words::{Call, Delta, Key, TMNOFLAGS, TMSTARTRSCAN, TMSUCCESS, Xid};
use xa_worker::Free;

// A thread that leaves a branch prepared at manager 1, and rolls back what an earlier opening left there.
#[derive(Drop)]
pub(super) struct Leaver {
    // What its Prepare answered.
    pub(super) prepared: i32,
    // How many branches were listed in a later opening, and what the last rollback answered.
    found: i32,
    rolled_back: i32,
}

impl Leaver {
    fn new() -> Leaver {
        Leaver {
            prepared: -1,
            found: -1,
            rolled_back: -1,
        }
    }
}

// Opens manager 1, and adds in the branch, whose work ends.
fn work_for<R: Wait, I: Idle>(rt: &R, desk: &mut Desk, xid: Xid, addition: RmOp, idle: &mut I)
    ensures goes_on { GoesOn desk.old desk.new }
    ensures kept { AllKept desk.old → AllKept desk.new }
    ensures idled { I.leads idle.old idle.new }
{
    desks_go_on();
    idles_go_on::<I>();
    start(rt, desk, xid, idle);
    native(rt, desk, addition, 1, TMNOFLAGS, idle);
    xa_call(rt, desk, Call::End, Some(xid), 1, TMSUCCESS, idle);
}

// Opens manager 1, and starts the branch there.
fn start<R: Wait, I: Idle>(rt: &R, desk: &mut Desk, xid: Xid, idle: &mut I)
    ensures goes_on { GoesOn desk.old desk.new }
    ensures kept { AllKept desk.old → AllKept desk.new }
    ensures idled { I.leads idle.old idle.new }
{
    desks_go_on();
    idles_go_on::<I>();
    xa_call(rt, desk, Call::OpenRm, None, 1, TMNOFLAGS, idle);
    xa_call(rt, desk, Call::Start, Some(xid), 1, TMNOFLAGS, idle);
}

impl Client for Leaver {
    ghost works = { λ leaver desk leaver' desk'. Unit {0} };

    fn work<R: Wait, I: Idle>(&mut self, rt: &R, desk: &mut Desk, idle: &mut I) {
        desks_go_on();
        idles_go_on::<I>();
        let (Ok(xid), Some(key), Some(more)) = (
            Xid::new(1, b"g", b"1"),
            Key::new(b"a"),
            Delta::new(1),
        ) else {
            return;
        };
        work_for(rt, desk, xid, RmOp::Add(key, more), idle);
        self.prepared = xa_call(rt, desk, Call::Prepare, Some(xid), 1, TMNOFLAGS, idle);
    }
}

impl ClientAgain for Leaver {
    ghost works_again = { λ leaver desk scan leaver' desk' scan'. Unit {0} };

    fn work_again<R: Wait, I: Idle>(
        &mut self,
        rt: &R,
        desk: &mut Desk,
        scan: &mut Scan,
        idle: &mut I,
    ) {
        desks_go_on();
        idles_go_on::<I>();
        let Ok(none) = Xid::new(1, b"none", b"1") else {
            return;
        };
        let mut page = [none; 2];
        xa_call(rt, desk, Call::OpenRm, None, 1, TMNOFLAGS, idle);
        self.found = xa_recover(rt, desk, scan, &mut page, 1, TMSTARTRSCAN, idle);
        if self.found == 1 {
            let left = Some(page[0]);
            self.rolled_back = xa_call(rt, desk, Call::Rollback, left, 1, TMNOFLAGS, idle);
        }
    }
}

// The numbers of a later opening, with one thread.
pub(super) fn again(opening: u64) -> Again
    ensures { result.threads ≡ 1 }
{
    Again {
        opening,
        threads: 1,
        handles: 2,
        queue: 2,
        requests: 8,
    }
}

pub(super) fn one_leaver(rt: &impl Abort, alloc: Global) -> Vec<Leaver>
    ensures { length result.items ≡ 1 }
{
    Vec::from_array(alloc, [Leaver::new()]).expect(rt, "memory")
}

// A plan of one thread and two managers, each with the key `a` of value 5.
pub(super) fn first_plan(rt: &impl Abort, alloc: Global) -> Plan {
    let accounts = [(Key::new(b"a").expect(rt, "a key"), 5)];
    Plan {
        opening: 7,
        handles: 2,
        queue: 2,
        requests: 8,
        ..test_support::plan_of(alloc, 2, &accounts).expect(rt, "memory")
    }
}

// A settled opening with a branch prepared at manager 1.
fn settled_with_one_left<R: Threads + Wait + Abort + Copy + Send + 'static>(
    rt: &R,
    alloc: Global,
) -> Settled {
    let plan = first_plan(rt, alloc);
    let clients = one_leaver(rt, alloc);
    let paces = Vec::from_array(alloc, [Free, Free]).expect(rt, "memory");
    assert!(rt; plan.threads == 1 && plan.managers.len() == 2);
    let run = run_clients(rt, alloc, &plan, clients, paces).expect(rt, "a run");
    assert!(rt; only(rt, &run).prepared == 0);
    run.settled
}

// The one client of the run.
pub(super) fn only<'a>(rt: &impl Abort, run: &'a Run<Leaver>) -> &'a Leaver {
    match run.clients.as_slice() {
        [attended] => &attended.client,
        _ => panic!(rt; "one client"),
    }
}

// The one client of a run over an opening that was opened again, and its scan.
pub(super) fn only_again<'a>(
    rt: &impl Abort,
    run: &'a Run<WithScan<Leaver>>,
) -> &'a WithScan<Leaver> {
    match run.clients.as_slice() {
        [attended] => &attended.client,
        _ => panic!(rt; "one client"),
    }
}

// The client listed the one that was left, and rolled it back.
pub(super) fn rolled_one_back(rt: &impl Abort, run: &Run<WithScan<Leaver>>) {
    let WithScan { client, scan } = only_again(rt, run);
    assert!(rt; client.found == 1 && client.rolled_back == 0);
    assert!(rt; scan.left(1).len() == 1 && scan.left(2).is_empty());
    let key = Key::new(b"a").expect(rt, "a key");
    assert!(rt; run.settled.value(1, &key) == Some(5));
}

// A run of one client in its turn, over an opening that is opened again.
fn run_again<R: Wait + Abort>(
    rt: &R,
    alloc: Global,
    settled: Settled,
    opening: u64,
) -> Run<WithScan<Leaver>> {
    let clients = one_leaver(rt, alloc);
    match run_clients_again_in_turns(rt, alloc, settled, &again(opening), clients) {
        Ok(run) => run,
        Err(_) => panic!(rt; "no run"),
    }
}

#[test]
fn what_was_left_is_lent_to_a_client_in_a_thread(rt: HostRuntime) {
    let alloc = rt.alloc();
    let settled = settled_with_one_left(&rt, alloc);
    let clients = one_leaver(&rt, alloc);
    let paces = vec![in alloc; Free; settled.managers()].expect(&rt, "memory");
    let Ok(run) = run_clients_again(&rt, alloc, settled, &again(8), clients, paces) else {
        panic!(rt; "no run");
    };
    rolled_one_back(&rt, &run);
}

#[test]
fn what_was_left_is_lent_to_a_client_in_its_turn(rt: HostRuntime) {
    let alloc = rt.alloc();
    let run = run_again(&rt, alloc, settled_with_one_left(&rt, alloc), 8);
    rolled_one_back(&rt, &run);
    // Nothing is left for the opening after that.
    let run = run_again(&rt, alloc, run.settled, 9);
    assert!(rt; only_again(&rt, &run).client.found == 0);
}

// What comes back where the number is that of the opening that was settled.
fn comes_back<R: Wait + Abort>(rt: &R, alloc: Global, settled: Settled) -> UnopenedClients<Leaver> {
    let clients = one_leaver(rt, alloc);
    match run_clients_again_in_turns(rt, alloc, settled, &again(7), clients) {
        Err(AgainFault::Unopened(back)) => back,
        _ => panic!(rt; "it was opened again"),
    }
}

#[test]
fn what_may_not_be_opened_again_comes_back_with_its_clients(rt: HostRuntime) {
    let alloc = rt.alloc();
    let back = comes_back(&rt, alloc, settled_with_one_left(&rt, alloc));
    assert!(rt; matches!(back.why, OpenFault::BadPlan));
    assert!(rt; back.clients.len() == 1);
    let run = run_clients_again_in_turns(&rt, alloc, back.settled, &again(8), back.clients);
    rolled_one_back(&rt, &run.expect(&rt, "a run"));
}
