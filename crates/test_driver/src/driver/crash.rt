//! A crash of two of three managers, in threads: they are shut once the commit's record is made, and hold branches in
//! doubt. All are opened again, and what was left is resolved by the log. No money is lost or made over both openings.
ghost use Rattle.std.specs.Prelude.{refl};
ghost use Rattle.xa_desk.specs.GoingOn.{GoesOn};
ghost use Rattle.xa_desk.specs.Kept.{AllKept};
ghost use Rattle.xa_log.specs.Log.{AppendsTo, ForgetsFrom};

use super::openings::again;
use super::resolved::{Recovered, recover};
use super::{branch, key, plan_of};
use std::alloc::Global;
use std::process::Abort;
use std::sync::atomic::{AtomicBool, Ordering};
use std::sync::{Arc, Wait};
use std::thread::Threads;
use test_support::{comes, work};
use xa_calls::{RmOp, native};
use xa_crew::laws::idles_go_on;
use xa_crew::{Attended, Client, Run, run_clients};
use xa_desk::laws::desks_go_on;
use xa_desk::{Desk, Idle};
use xa_driver::{Branch, CommitOutcome, Done, Ending, Outcome, commit, may_commit};
use xa_log::{CommitRecord, DecisionLog, DecisionRecords, LogFault, MemoryLog};
use xa_switch::{Again, Plan, Settled};
use xa_words::{Code, Delta, Key, ManagerSet, TMNOFLAGS, Tran, Xid};
use xa_worker::Free;

// What the two threads tell each other.
#[derive(Drop)]
struct Signals {
    // The record is made.
    recorded: Arc<AtomicBool, Global>,
    // Managers 2 and 3 are shut.
    shut: Arc<AtomicBool, Global>,
}

impl Signals {
    fn new(rt: &impl Abort, alloc: Global) -> Signals {
        Signals {
            recorded: Arc::new(alloc, AtomicBool::new(false)).expect(rt, "memory"),
            shut: Arc::new(alloc, AtomicBool::new(false)).expect(rt, "memory"),
        }
    }

    fn share(&self, rt: &impl Abort) -> Signals {
        Signals {
            recorded: Arc::try_clone(&self.recorded).expect(rt, "a share"),
            shut: Arc::try_clone(&self.shut).expect(rt, "a share"),
        }
    }
}

// A log that, once it has taken a record, waits until the managers are shut.
#[derive(Drop)]
struct Waiting {
    inner: MemoryLog,
    signals: Signals,
}

impl DecisionRecords for Waiting {
    ghost records = { λ l. l.inner.state.records };

    ghost knows = { λ l. Unit {0} };

    fn has(&self, tran: &Tran) -> Option<ManagerSet> {
        self.inner.has(tran)
    }

    fn is_known(&self) -> bool {
        true
    }
}

impl DecisionLog for Waiting {
    ghost state = { λ l. l.inner.state };

    ghost appends = { λ tran yes taken old new. AppendsTo tran yes taken old.inner new.inner };

    ghost loses = { λ tran yes old new. ⊥ };

    ghost forgets = { λ old new. ForgetsFrom old.inner new.inner };

    ghost records_are = { λ l. refl };

    fn append(&mut self, decision: &CommitRecord) -> Result<(), LogFault> {
        let appended = self.inner.append(decision);
        self.signals.recorded.store(true, Ordering::SeqCst);
        comes(&self.signals.shut);
        appended
    }

    fn forget(&mut self, tran: &Tran) {
        self.inner.forget(tran);
    }

    fn keep_only(&mut self, trans: &[Tran]) {
        self.inner.keep_only(trans);
    }

    fn failures(&self) -> u64 {
        self.inner.failures()
    }
}

// A branch of the transaction, and what is added for it.
fn leg(m: u32, bqual: &[u8], change: i64) -> Option<(Branch, RmOp)> {
    let xid = Xid::new(1, b"t", bqual).ok()?;
    let addition = RmOp::Add(Key::new(b"a")?, Delta::new(change)?);
    Some((Branch { m, xid }, addition))
}

// Works for three branches, whose additions sum to 0, and commits them where that may be done.
fn commit_three<R: Wait, I: Idle>(
    rt: &R,
    alloc: Global,
    desk: &mut Desk,
    log: &mut Waiting,
    idle: &mut I,
) -> Option<Done>
    ensures goes_on { GoesOn desk.old desk.new }
    ensures kept { AllKept desk.old → AllKept desk.new }
    ensures idled { I.leads idle.old idle.new }
{
    desks_go_on();
    idles_go_on::<I>();
    let (first, less) = leg(1, b"1", -2)?;
    let (second, more) = leg(2, b"2", 1)?;
    let (third, as_much) = leg(3, b"3", 1)?;
    let at_first = work(rt, desk, first.m, first.xid, less, idle);
    let at_second = work(rt, desk, second.m, second.xid, more, idle);
    let at_third = work(rt, desk, third.m, third.xid, as_much, idle);
    if !(at_first && at_second && at_third) {
        return None;
    }
    let three = [first, second, third];
    let branches = three.as_slice();
    if !may_commit(desk, log, branches) {
        return None;
    }
    match commit(rt, alloc, desk, log, branches, None, idle) {
        Ok(CommitOutcome::Decided(done)) => Some(done),
        _ => None,
    }
}

// Commits a transaction over three managers.
#[derive(Drop)]
struct Committer {
    alloc: Global,
    log: Waiting,
    done: Option<Done>,
}

impl Committer {
    fn commit<R: Wait, I: Idle>(&mut self, rt: &R, desk: &mut Desk, idle: &mut I)
        ensures goes_on { GoesOn desk.old desk.new }
        ensures kept { AllKept desk.old → AllKept desk.new }
        ensures idled { I.leads idle.old idle.new }
    {
        let done = commit_three(rt, self.alloc, desk, &mut self.log, idle);
        self.done = done;
    }
}

// Shuts managers 2 and 3 once the record is made.
fn shut<R: Wait, I: Idle>(rt: &R, desk: &mut Desk, signals: &Signals, idle: &mut I)
    ensures goes_on { GoesOn desk.old desk.new }
    ensures kept { AllKept desk.old → AllKept desk.new }
    ensures idled { I.leads idle.old idle.new }
{
    desks_go_on();
    idles_go_on::<I>();
    comes(&signals.recorded);
    native(rt, desk, RmOp::Shut, 2, TMNOFLAGS, idle);
    native(rt, desk, RmOp::Shut, 3, TMNOFLAGS, idle);
    signals.shut.store(true, Ordering::SeqCst);
}

// The threads of the opening that crashes.
#[derive(Drop)]
enum Part {
    Commits(Committer),
    Shuts(Signals),
}

impl Client for Part {
    ghost works = { λ part desk part' desk'. Unit {0} };

    fn work<R: Wait, I: Idle>(&mut self, rt: &R, desk: &mut Desk, idle: &mut I) {
        match self {
            Part::Commits(committer) => committer.commit(rt, desk, idle),
            Part::Shuts(signals) => shut(rt, desk, signals, idle),
        }
    }
}

fn committing(alloc: Global, signals: Signals) -> Committer {
    Committer {
        alloc,
        log: Waiting {
            inner: MemoryLog::new(alloc),
            signals,
        },
        done: None,
    }
}

// The committer, which is the last of the clients.
fn committed(rt: &impl Abort, mut clients: Vec<Attended<Part>>) -> Committer {
    let Some(last) = clients.pop() else {
        panic!(rt; "there is no client");
    };
    let Attended {
        client,
        outstanding: _,
    } = last;
    match client {
        Part::Commits(committer) => committer,
        Part::Shuts(_) => panic!(rt; "another client"),
    }
}

// The three accounts have this much.
fn have(rt: &impl Abort, settled: &Settled, values: [u64; 3]) {
    let key = key(rt);
    assert!(rt; settled.value(1, &key) == Some(values[0]));
    assert!(rt; settled.value(2, &key) == Some(values[1]));
    assert!(rt; settled.value(3, &key) == Some(values[2]));
}

// A run of a thread that shuts managers 2 and 3, and of the committer.
fn run_both<R: Threads + Wait + Abort + Copy + Send + 'static>(rt: &R, alloc: Global) -> Run<Part> {
    let plan = Plan {
        queue: 4,
        ..plan_of(rt, alloc, 3)
    };
    let signals = Signals::new(rt, alloc);
    let commits = Part::Commits(committing(alloc, signals.share(rt)));
    let parts = [Part::Shuts(signals), commits];
    let parts = Vec::from_array(alloc, parts).expect(rt, "memory");
    let paces = Vec::from_array(alloc, [Free; 3]).expect(rt, "memory");
    assert!(rt; plan.threads == 2 && plan.managers.len() == 3);
    match run_clients(rt, alloc, &plan, parts, paces) {
        Ok(run) => run,
        Err(_) => panic!(rt; "an opening"),
    }
}

// The commit is decided, and two of its branches are in doubt.
fn leaves_two_in_doubt(rt: &impl Abort, done: &Option<Done>) {
    let Some(done) = done else {
        panic!(rt; "a commit");
    };
    let endings = [Ending::Committed, Ending::InDoubt, Ending::InDoubt];
    assert!(rt; done.commit && done.logged);
    assert!(rt; done.endings.as_slice() == endings.as_slice());
}

// Both were resolved, to be committed.
fn are_committed(rt: &impl Abort, recovered: &Recovered) {
    let outcome = |m| Outcome {
        m,
        xid: branch(rt, m).xid,
        commit: true,
        code: Code::Done,
    };
    let outcomes = [outcome(2), outcome(3)];
    assert!(rt; recovered.ended.told.outcomes.as_slice() == outcomes.as_slice());
}

#[test]
fn what_a_crash_left_in_doubt_is_committed_by_its_record(rt: HostRuntime) {
    let alloc = rt.alloc();
    let Run { clients, settled } = run_both(&rt, alloc);
    have(&rt, &settled, [3, 5, 5]);
    let Committer { log, done, .. } = committed(&rt, clients);
    leaves_two_in_doubt(&rt, &done);
    let again = Again {
        handles: 4,
        ..again(8)
    };
    let recovered = recover(&rt, alloc, settled, &again, &log.inner);
    are_committed(&rt, &recovered);
    have(&rt, &recovered.settled, [3, 6, 6]);
}
