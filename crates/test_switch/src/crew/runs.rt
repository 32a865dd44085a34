//! Runs of two clients over two managers, in threads and in turns, and of a plan that can't be opened.
ghost use Rattle.std.specs.Prelude.{◌≡◌, length};

use super::{Opener, plan_of};
use std::alloc::Global;
use std::process::Abort;
use xa_crew::{Attended, CrewFault, Run, run_clients, run_clients_in_turns};
use xa_switch::{Plan, Settled};
use xa_words::{Code, Op};
use xa_worker::Free;

// The client's calls were answered; its asynchronous one has this code, or is left outstanding with that one.
fn tells(
    rt: &impl Abort,
    attended: &Attended<Opener>,
    code: Option<i32>,
    outstanding: &[(u32, Code)],
) {
    assert!(rt; attended.client.answers == (0, 1));
    assert!(rt; attended.client.code == code);
    assert!(rt; attended.outstanding.as_slice() == outstanding);
}

// Each thread opened the manager, which answered that.
fn was_opened_by_both(rt: &impl Abort, settled: &Settled, manager: u32) {
    for thread in [1, 2] {
        assert!(rt; settled.sent(thread, manager) == [Op::OpenRm].as_slice());
        assert!(rt; settled.collected(thread, manager) == [(0, Code::Done)].as_slice());
    }
}

// The first client has completed what it sent, and the second one has left its asynchronous call outstanding.
fn tells_what_is_left(rt: &impl Abort, run: &Run<Opener>) {
    let [completed, left] = run.clients.as_slice() else {
        panic!(rt; "two clients");
    };
    tells(rt, completed, Some(0), &[]);
    tells(rt, left, None, &[(1, Code::Done)]);
    was_opened_by_both(rt, &run.settled, 1);
    was_opened_by_both(rt, &run.settled, 2);
    assert!(rt; run.settled.journal(1).len() == 2);
}

// A client that completes what it sends, and one that leaves its asynchronous call outstanding.
fn two_clients(rt: &impl Abort, alloc: Global) -> Vec<Opener>
    ensures { length result.items ≡ 2 }
{
    Vec::from_array(alloc, [Opener::new(false), Opener::new(true)]).expect(rt, "memory")
}

fn two_paces(rt: &impl Abort, alloc: Global) -> Vec<Free>
    ensures { length result.items ≡ 2 }
{
    Vec::from_array(alloc, [Free, Free]).expect(rt, "memory")
}

#[test]
fn what_is_left_outstanding_is_told(rt: HostRuntime) {
    let alloc = rt.alloc();
    let plan = plan_of(&rt, alloc, 2);
    let (clients, paces) = (two_clients(&rt, alloc), two_paces(&rt, alloc));
    assert!(rt; plan.threads == 2 && plan.managers.len() == 2);
    let run = run_clients(&rt, alloc, &plan, clients, paces).expect(&rt, "a run");
    tells_what_is_left(&rt, &run);
}

// The worker took the first thread's request first.
fn took_in_turn(rt: &impl Abort, settled: &Settled, manager: u32) {
    let [(first, _), (second, _)] = settled.journal(manager) else {
        panic!(rt; "two requests");
    };
    assert!(rt; first.thread == 1 && second.thread == 2);
}

#[test]
fn the_same_is_told_in_turns(rt: HostRuntime) {
    let alloc = rt.alloc();
    let plan = plan_of(&rt, alloc, 2);
    let clients = two_clients(&rt, alloc);
    assert!(rt; plan.threads == 2);
    let run = run_clients_in_turns(&rt, alloc, &plan, clients).expect(&rt, "a run");
    tells_what_is_left(&rt, &run);
    // One thread was done before the other began.
    took_in_turn(&rt, &run.settled, 1);
    took_in_turn(&rt, &run.settled, 2);
}

fn one_client(rt: &impl Abort, alloc: Global) -> Vec<Opener>
    ensures { length result.items ≡ 1 }
{
    Vec::from_array(alloc, [Opener::new(true)]).expect(rt, "memory")
}

#[test]
fn a_plan_that_is_not_sound_is_refused(rt: HostRuntime) {
    let alloc = rt.alloc();
    let plan = Plan {
        handles: 33,
        ..plan_of(&rt, alloc, 1)
    };
    assert!(rt; plan.threads == 1 && plan.managers.len() == 2);
    let (clients, paces) = (one_client(&rt, alloc), two_paces(&rt, alloc));
    let refused = run_clients(&rt, alloc, &plan, clients, paces);
    assert!(rt; matches!(refused, Err(CrewFault::BadPlan)));
    let refused = run_clients_in_turns(&rt, alloc, &plan, one_client(&rt, alloc));
    assert!(rt; matches!(refused, Err(CrewFault::BadPlan)));
}
