//! Commits over an opening whose workers take turns, and the log in memory.
mod appending;
mod callers;
mod crash;
mod dying;
mod endings;
mod forgetful;
mod known;
mod meddling;
mod openings;
mod pieces;
mod resolved;
mod resolving;
mod threads;
mod told;
mod undecided;
mod woven;

use std::alloc::Global;
use std::process::Abort;
use std::sync::Wait;
use test_support::two;
use xa_calls::{RmOp, native, xa_call};
use xa_crew::Turns;
use xa_desk::Desk;
use xa_driver::{Branch, Done, Ending, may_commit};
use xa_log::MemoryLog;
use xa_switch::Plan;
use xa_words::{Call, Code, Delta, Key, TMNOFLAGS, TMSUCCESS, Xid};

// The desks of two threads, with the workers of their opening.
#[derive(Drop)]
struct Opened {
    first: Desk,
    second: Desk,
    workers: Turns,
}

fn key(rt: &impl Abort) -> Key {
    Key::new(b"a").expect(rt, "a key")
}

fn delta(rt: &impl Abort, change: i64) -> Delta {
    Delta::new(change).expect(rt, "a change")
}

// The branch of transaction `t` at a manager, which is named by its digit.
fn branch(rt: &impl Abort, m: u32) -> Branch {
    let digit = [b"12345678"[(m as usize).wrapping_sub(1) & 7]];
    let xid = Xid::new(1, b"t", &digit).expect(rt, "an xid");
    Branch { m, xid }
}

// A plan of so many managers, each with the one key `a` of value 5, and queues of one place.
fn plan_of(rt: &impl Abort, alloc: Global, managers: u32) -> Plan {
    let accounts = [(key(rt), 5)];
    Plan {
        opening: 7,
        queue: 1,
        requests: 16,
        ..Plan::uniform(alloc, 2, managers, &accounts).expect(rt, "memory")
    }
}

fn open_by<R: Wait + Abort>(rt: &R, desk: &mut Desk, manager: u32, idle: &mut Turns) {
    let answer = xa_call(rt, desk, Call::OpenRm, None, manager, TMNOFLAGS, idle);
    assert!(rt; answer == 0);
}

impl Opened {
    // An opening of so many managers, in which both threads have opened each.
    fn new<R: Wait + Abort>(rt: &R, alloc: Global, managers: u32) -> Opened {
        Opened::of(rt, alloc, &plan_of(rt, alloc, managers))
    }

    // An opening of the plan, in which both threads have opened each manager.
    fn of<R: Wait + Abort>(rt: &R, alloc: Global, plan: &Plan) -> Opened {
        let (desks, workers) = test_support::open(rt, alloc, plan).expect(rt, "an opening");
        let (first, second) = two(desks).expect(rt, "two desks");
        let mut opened = Opened {
            first,
            second,
            workers,
        };
        let mut manager: u32 = 0;
        for _plan in &plan.managers {
            manager = manager.wrapping_add(1);
            opened.open(rt, manager);
        }
        opened
    }

    fn open<R: Wait + Abort>(&mut self, rt: &R, manager: u32) {
        let idle = &mut self.workers;
        open_by(rt, &mut self.first, manager, idle);
        open_by(rt, &mut self.second, manager, idle);
    }

    fn call<R: Wait + Abort>(&mut self, rt: &R, call: Call, branch: &Branch, flags: u32) {
        let (desk, idle) = (&mut self.first, &mut self.workers);
        let answer = xa_call(rt, desk, call, Some(branch.xid), branch.m, flags, idle);
        assert!(rt; answer == 0);
    }

    // The first thread changes the manager's key.
    fn change<R: Wait + Abort>(&mut self, rt: &R, m: u32, change: i64) {
        let add = RmOp::Add(key(rt), delta(rt, change));
        let (desk, idle) = (&mut self.first, &mut self.workers);
        let answer = native(rt, desk, add, m, TMNOFLAGS, idle);
        assert!(rt; answer == 0);
    }

    // Work of the first thread on a branch: changes of the manager's key, one after another.
    fn work<R: Wait + Abort>(&mut self, rt: &R, branch: &Branch, changes: &[i64]) {
        self.call(rt, Call::Start, branch, TMNOFLAGS);
        for change in changes {
            self.change(rt, branch.m, *change);
        }
        self.call(rt, Call::End, branch, TMSUCCESS);
    }
}

// Compares all that a commit tells.
fn tells(
    rt: &impl Abort,
    done: &Done,
    commit: bool,
    logged: bool,
    votes: &[Code],
    endings: &[Ending],
) {
    assert!(rt; (done.commit, done.logged) == (commit, logged));
    assert!(rt; done.votes.as_slice() == votes);
    assert!(rt; done.endings.as_slice() == endings);
}

// Whether the first thread may commit these, with a log that has no record.
fn may(opened: &Opened, alloc: Global, branches: &[Branch]) -> bool {
    may_commit(&opened.first, &MemoryLog::new(alloc), branches)
}

// Branches at managers that rise, of one transaction.
fn are_taken(rt: &impl Abort, alloc: Global, opened: &Opened) {
    assert!(rt; may(opened, alloc, &[branch(rt, 1)]));
    assert!(rt; may(opened, alloc, &[branch(rt, 1), branch(rt, 2)]));
}

// None, one twice, falling ones, and one at a manager that there isn't.
fn are_refused(rt: &impl Abort, alloc: Global, opened: &Opened) {
    assert!(rt; !may(opened, alloc, &[]));
    assert!(rt; !may(opened, alloc, &[branch(rt, 1), branch(rt, 1)]));
    assert!(rt; !may(opened, alloc, &[branch(rt, 2), branch(rt, 1)]));
    assert!(rt; !may(opened, alloc, &[branch(rt, 3)]));
}

#[test]
fn only_sound_lists_of_branches_may_be_committed(rt: HostRuntime) {
    let alloc = rt.alloc();
    let opened = Opened::new(&rt, alloc, 2);
    are_taken(&rt, alloc, &opened);
    are_refused(&rt, alloc, &opened);
    // Two of different transactions.
    let xid = Xid::new(1, b"u", b"2").expect(&rt, "an xid");
    let strangers = [branch(&rt, 1), Branch { m: 2, xid }];
    assert!(rt; !may(&opened, alloc, &strangers));
}
