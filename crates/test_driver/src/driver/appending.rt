//! What the managers were asked for when the record is appended.
ghost use Rattle.std.specs.Prelude.{refl};
ghost use Rattle.xa_log.specs.Log.{AppendsTo, ForgetsFrom};

use super::threads::{commit_two, open_two};
use std::alloc::Global;
use std::process::Abort;
use std::sync::Wait;
use std::sync::atomic::{AtomicU64, Ordering};
use std::thread;
use std::thread::{Threads, join};
use xa_desk::Desk;
use xa_driver::Done;
use xa_log::{CommitRecord, DecisionLog, DecisionRecords, LogFault, MemoryLog};
use xa_store::NoStore;
use xa_words::{ManagerSet, Op, Request, Tran};
use xa_worker::{Pace, Worker};

// How often the log lets the workers go on before it looks at what they took.
const TURNS: u32 = 10_000;

// How many requests of the two phases the workers took.
#[derive(Drop)]
struct Asked {
    prepares: AtomicU64,
    seconds: AtomicU64,
}

// Counts what a worker takes.
#[derive(Drop)]
struct Counting<'a> {
    asked: &'a Asked,
}

impl Pace for Counting<'_> {
    ghost told = { λ request before after. Unit {0} };

    fn before<R: Wait>(&mut self, _rt: &R, request: &Request) {
        match request.op {
            Op::Prepare(_) => {
                self.asked.prepares.fetch_add(1, Ordering::SeqCst);
            }
            Op::Commit(_, _) | Op::Rollback(_) => {
                self.asked.seconds.fetch_add(1, Ordering::SeqCst);
            }
            _ => {}
        }
    }
}

// A log that looks at what was taken before it takes a record.
#[derive(Drop)]
struct Watching<'a> {
    inner: MemoryLog,
    asked: &'a Asked,
    // What it saw; nothing before the first append.
    saw: Option<(u64, u64)>,
}

impl DecisionRecords for Watching<'_> {
    ghost records = { λ l. l.inner.state.records };

    ghost knows = { λ l. Unit {0} };

    fn has(&self, tran: &Tran) -> Option<ManagerSet> {
        self.inner.has(tran)
    }

    fn is_known(&self) -> bool {
        true
    }
}

impl DecisionLog for Watching<'_> {
    ghost state = { λ l. l.inner.state };

    ghost appends = { λ tran yes taken old new. AppendsTo tran yes taken old.inner new.inner };

    ghost loses = { λ tran yes old new. ⊥ };

    ghost forgets = { λ old new. ForgetsFrom old.inner new.inner };

    ghost records_are = { λ l. refl };

    fn append(&mut self, decision: &CommitRecord) -> Result<(), LogFault> {
        for _turn in 0..TURNS {
            thread::yield_now();
        }
        let prepares = self.asked.prepares.load(Ordering::SeqCst);
        let seconds = self.asked.seconds.load(Ordering::SeqCst);
        self.saw = Some((prepares, seconds));
        self.inner.append(decision)
    }

    fn forget(&mut self, tran: &Tran) {
        self.inner.forget(tran);
    }

    fn keep_only(&mut self, trans: &[Tran]) {
        self.inner.keep_only(trans);
    }

    fn failures(&self) -> u64 {
        self.inner.failures()
    }
}

// What became of two branches, and what the log saw.
fn commit_watched<R: Wait + Abort>(
    rt: &R,
    alloc: Global,
    desk: Desk,
    asked: &Asked,
) -> (Done, Option<(u64, u64)>) {
    let mut log = Watching {
        inner: MemoryLog::new(alloc),
        asked,
        saw: None,
    };
    let (done, _ended) = commit_two(rt, alloc, desk, &mut log);
    (done, log.saw)
}

// Runs both workers, each in a thread.
fn run_both<R: Threads + Wait + Sync>(rt: &R, asked: &Asked, first: Worker, second: Worker) {
    join(
        rt,
        || first.run(rt, &mut Counting { asked }, &mut NoStore),
        || second.run(rt, &mut Counting { asked }, &mut NoStore),
    );
}

#[test]
fn the_record_stands_before_the_first_commit_is_sent(rt: HostRuntime) {
    let alloc = rt.alloc();
    let (desk, first, second) = open_two(&rt, alloc);
    let asked = Asked {
        prepares: AtomicU64::new(0),
        seconds: AtomicU64::new(0),
    };
    let ((done, saw), _) = join(
        &rt,
        || commit_watched(&rt, alloc, desk, &asked),
        || run_both(&rt, &asked, first, second),
    );
    assert!(rt; done.commit && done.logged);
    assert!(rt; saw == Some((2, 0)));
    assert!(rt; asked.seconds.load(Ordering::SeqCst) == 2);
}
