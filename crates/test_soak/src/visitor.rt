//! What a thread does: calls, completions and commits at random.
ghost use Rattle.std.specs.Prelude.{◌<◌};
ghost use Rattle.xa_desk.specs.GoingOn.{GoesOn};
ghost use Rattle.xa_desk.specs.Kept.{AllKept};

use crate::counts::Counts;
use crate::random::Random;
use std::alloc::Global;
use std::sync::Wait;
use xa_calls::{RmOp, native, xa_call, xa_complete};
use xa_crew::Client;
use xa_crew::laws::idles_go_on;
use xa_desk::laws::desks_go_on;
use xa_desk::{Desk, Idle};
use xa_driver::{Branch, commit, may_commit};
use xa_log::MemoryLog;
use xa_words::{
    Call, Code, Delta, Key, TMASYNC, TMFAIL, TMJOIN, TMMULTIPLE, TMNOFLAGS, TMNOWAIT, TMONEPHASE,
    TMRESUME, TMSUCCESS, TMSUSPEND, Xid,
};

/// The keys of each manager, which all threads share.
pub(crate) const NAMES: [u8; 4] = *b"abcd";

/// The value that each key has at first.
pub(crate) const VALUE: u64 = 100;

/// A thread of control.
#[derive(Drop)]
pub(crate) struct Visitor {
    alloc: Global,
    random: Random,
    log: MemoryLog,
    actions: u32,
    pub(crate) counts: Counts,
}

impl Visitor {
    pub(crate) fn new(alloc: Global, seed: u64, thread: u64, actions: u32) -> Visitor {
        Visitor {
            alloc,
            random: Random::new(seed, thread),
            log: MemoryLog::new(alloc),
            actions,
            counts: Counts::default(),
        }
    }
}

// What a call came to.
fn count(counts: &mut Counts, answer: i32) {
    counts.calls = counts.calls.saturating_add(1);
    if answer == Code::Async.value() {
        counts.no_handle = counts.no_handle.saturating_add(1);
    }
    if answer == Code::RmFail.value() {
        counts.shut = counts.shut.saturating_add(1);
    }
}

// One of a few branches, which threads share.
fn shared_branch(random: &mut Random, m: u32) -> Option<Xid> {
    let name = b'a' + random.below(4) as u8;
    Xid::new(1, &[name], &m.to_le_bytes()).ok()
}

// An addition to one of two keys, from the one of this place on.
fn addition(random: &mut Random, first: usize) -> Option<RmOp>
    requires { first < 3 }
{
    let key = Key::new(&[NAMES[first + random.below(2) as usize]])?;
    let delta = Delta::new(i64::from(random.below(41)) - 20)?;
    Some(RmOp::Add(key, delta))
}

// A call of XA, with its flags. One that associates the thread is among them where it may be.
fn call_of(random: &mut Random, may_associate: bool) -> (Call, u32) {
    let kinds = if may_associate { 12 } else { 6 };
    match random.below(kinds) {
        0 => (Call::OpenRm, TMNOFLAGS),
        1 => (Call::Prepare, TMNOFLAGS),
        2 => (Call::Commit, TMNOFLAGS),
        3 => (Call::Commit, TMONEPHASE),
        4 => (Call::Rollback, TMNOFLAGS),
        5 => (Call::CloseRm, TMNOFLAGS),
        6 => (Call::Start, TMNOFLAGS),
        7 => (Call::Start, TMJOIN),
        8 => (Call::Start, TMRESUME),
        9 => (Call::End, TMSUSPEND),
        10 => (Call::End, TMFAIL),
        _ => (Call::End, TMSUCCESS),
    }
}

// A call of XA, or a request of the manager's own, synchronous or not.
fn call<R: Wait, I: Idle>(
    rt: &R,
    desk: &mut Desk,
    random: &mut Random,
    may_associate: bool,
    idle: &mut I,
) -> i32
    ensures goes_on { GoesOn desk.old desk.new }
    ensures kept { AllKept desk.old → AllKept desk.new }
    ensures idled { I.leads idle.old idle.new }
{
    idles_go_on::<I>();
    let m = random.below(8) + 1;
    let wait = if random.is_one_in(4) {
        TMNOFLAGS
    } else {
        TMASYNC
    };
    if random.is_one_in(4) {
        let Some(addition) = addition(random, 0) else {
            return 0;
        };
        return native(rt, desk, addition, m, wait, idle);
    }
    let (call, flags) = call_of(random, may_associate);
    let xid = match call {
        Call::OpenRm | Call::CloseRm => None,
        _ => shared_branch(random, m),
    };
    xa_call(rt, desk, call, xid, m, flags | wait, idle)
}

// Collects an operation: any that has completed, or any at a manager, or any at all, which it waits for.
fn collect<R: Wait, I: Idle>(rt: &R, desk: &mut Desk, random: &mut Random, idle: &mut I) -> bool
    ensures goes_on { GoesOn desk.old desk.new }
    ensures kept { AllKept desk.old → AllKept desk.new }
    ensures idled { I.leads idle.old idle.new }
{
    let (mut handle, mut retval) = (0, 0);
    let (m, flags) = match random.below(3) {
        0 => (0, TMMULTIPLE | TMNOWAIT),
        1 => (random.below(8) + 1, TMMULTIPLE),
        _ => (0, TMMULTIPLE),
    };
    xa_complete(rt, desk, &mut handle, &mut retval, m, flags, idle) == 0
}

// Shuts a manager.
fn shut<R: Wait, I: Idle>(rt: &R, desk: &mut Desk, random: &mut Random, idle: &mut I) -> i32
    ensures goes_on { GoesOn desk.old desk.new }
    ensures kept { AllKept desk.old → AllKept desk.new }
    ensures idled { I.leads idle.old idle.new }
{
    let m = random.below(8) + 1;
    native(rt, desk, RmOp::Shut, m, TMNOFLAGS, idle)
}

// The branch at a manager of the thread's transaction of this number.
fn branch_of(thread: u32, number: u32, m: u32) -> Option<Branch> {
    let gtrid = (u64::from(thread) << 32 | u64::from(number)).to_be_bytes();
    let xid = Xid::new(1, &gtrid, &m.to_le_bytes()).ok()?;
    Some(Branch { m, xid })
}

// A call of XA for the branch.
fn ask<R: Wait, I: Idle>(
    rt: &R,
    desk: &mut Desk,
    call: Call,
    branch: &Branch,
    flags: u32,
    idle: &mut I,
)
    ensures goes_on { GoesOn desk.old desk.new }
    ensures kept { AllKept desk.old → AllKept desk.new }
    ensures idled { I.leads idle.old idle.new }
{
    let xid = Some(branch.xid);
    xa_call(rt, desk, call, xid, branch.m, flags, idle);
}

// Adds to one of the keys of the branch's manager.
fn add<R: Wait, I: Idle>(
    rt: &R,
    desk: &mut Desk,
    random: &mut Random,
    branch: &Branch,
    idle: &mut I,
)
    ensures goes_on { GoesOn desk.old desk.new }
    ensures kept { AllKept desk.old → AllKept desk.new }
    ensures idled { I.leads idle.old idle.new }
{
    desks_go_on();
    idles_go_on::<I>();
    if let Some(addition) = addition(random, 1) {
        native(rt, desk, addition, branch.m, TMNOFLAGS, idle);
    }
}

// Opens the branch's manager, and adds to one of its keys.
fn work_on<R: Wait, I: Idle>(
    rt: &R,
    desk: &mut Desk,
    random: &mut Random,
    branch: &Branch,
    idle: &mut I,
)
    ensures goes_on { GoesOn desk.old desk.new }
    ensures kept { AllKept desk.old → AllKept desk.new }
    ensures idled { I.leads idle.old idle.new }
{
    desks_go_on();
    idles_go_on::<I>();
    xa_call(rt, desk, Call::OpenRm, None, branch.m, TMNOFLAGS, idle);
    ask(rt, desk, Call::Start, branch, TMNOFLAGS, idle);
    add(rt, desk, random, branch, idle);
    ask(rt, desk, Call::End, branch, TMSUCCESS, idle);
}

// Whether the branches were committed. None where they may not be.
fn try_commit<R: Wait, I: Idle>(
    rt: &R,
    alloc: Global,
    desk: &mut Desk,
    log: &mut MemoryLog,
    branches: &[Branch],
    idle: &mut I,
) -> Option<bool>
    ensures goes_on { GoesOn desk.old desk.new }
    ensures kept { AllKept desk.old → AllKept desk.new }
    ensures idled { I.leads idle.old idle.new }
{
    desks_go_on();
    idles_go_on::<I>();
    if !may_commit(desk, log, branches) {
        return None;
    }
    let outcome = commit(rt, alloc, desk, log, branches, None, idle).ok()?;
    Some(outcome.is_to_commit())
}

// A transaction over three managers: whether it was committed. None where it may not be.
fn transact<R: Wait, I: Idle>(
    rt: &R,
    alloc: Global,
    desk: &mut Desk,
    random: &mut Random,
    log: &mut MemoryLog,
    number: u32,
    idle: &mut I,
) -> Option<bool>
    ensures goes_on { GoesOn desk.old desk.new }
    ensures kept { AllKept desk.old → AllKept desk.new }
    ensures idled { I.leads idle.old idle.new }
{
    desks_go_on();
    idles_go_on::<I>();
    let thread = desk.thread();
    let first = random.below(6) + 1;
    let branches = [
        branch_of(thread, number, first)?,
        branch_of(thread, number, first + 1)?,
        branch_of(thread, number, first + 2)?,
    ];
    work_on(rt, desk, random, &branches[0], idle);
    work_on(rt, desk, random, &branches[1], idle);
    work_on(rt, desk, random, &branches[2], idle);
    try_commit(rt, alloc, desk, log, branches.as_slice(), idle)
}

// A transaction, with what it came to. Before it some of the handles are given back.
fn count_transaction<R: Wait, I: Idle>(
    rt: &R,
    desk: &mut Desk,
    visitor: &mut Visitor,
    number: u32,
    idle: &mut I,
)
    ensures goes_on { GoesOn desk.old desk.new }
    ensures kept { AllKept desk.old → AllKept desk.new }
    ensures idled { I.leads idle.old idle.new }
{
    desks_go_on();
    idles_go_on::<I>();
    let Visitor {
        random,
        log,
        counts,
        ..
    } = visitor;
    collect(rt, desk, random, idle);
    collect(rt, desk, random, idle);
    collect(rt, desk, random, idle);
    match transact(rt, visitor.alloc, desk, random, log, number, idle) {
        Some(true) => counts.commits = counts.commits.saturating_add(1),
        Some(false) => counts.aborts = counts.aborts.saturating_add(1),
        None => counts.not_begun = counts.not_begun.saturating_add(1),
    }
}

// One thing at random. The first four threads make transactions and associate themselves with nothing else; the others
// make calls.
fn act<R: Wait, I: Idle>(rt: &R, desk: &mut Desk, visitor: &mut Visitor, number: u32, idle: &mut I)
    ensures goes_on { GoesOn desk.old desk.new }
    ensures kept { AllKept desk.old → AllKept desk.new }
    ensures idled { I.leads idle.old idle.new }
{
    let transacts = desk.thread() <= 4;
    if transacts && visitor.random.is_one_in(2) {
        count_transaction(rt, desk, visitor, number, idle);
    } else if visitor.random.is_one_in(3) {
        if collect(rt, desk, &mut visitor.random, idle) {
            visitor.counts.collected = visitor.counts.collected.saturating_add(1);
        }
    } else if visitor.random.is_one_in(4_000) {
        let answer = shut(rt, desk, &mut visitor.random, idle);
        count(&mut visitor.counts, answer);
    } else {
        let answer = call(rt, desk, &mut visitor.random, !transacts, idle);
        count(&mut visitor.counts, answer);
    }
}

impl Client for Visitor {
    ghost works = { λ visitor desk visitor' desk'. Unit {0} };

    fn work<R: Wait, I: Idle>(&mut self, rt: &R, desk: &mut Desk, idle: &mut I) {
        desks_go_on();
        idles_go_on::<I>();
        for number in 0..self.actions {
            act(rt, desk, self, number, idle);
        }
    }
}
