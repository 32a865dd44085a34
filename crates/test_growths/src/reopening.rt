//! An opening that is opened again, and the end of what was left there.
ghost use Rattle.std.specs.Prelude.{◌≡◌, map};
ghost use Rattle.xa_switch.specs.Belonging.{seat_of_desk, seat_of_worker};

use crate::commits::{ask, branch, work};
use crate::openings::{open, plan_of};
use crate::settling::end_all;
use crate::thing::Came;
use std::alloc::Global;
use std::sync::Wait;
use test_support::one;
use xa_calls::{RmOp, xa_call, xa_recover};
use xa_crew::Turns;
use xa_desk::Desk;
use xa_driver::{Branch, Outcome, may_resolve, resolve};
use xa_log::MemoryLog;
use xa_scan::Scan;
use xa_switch::{Again, OpenFault, Settled, reopen, settle};
use xa_words::{Call, Code, Delta, Key, TMENDRSCAN, TMNOFLAGS, TMSTARTRSCAN, Xid};

// Adds 1 for the branch, and prepares it.
fn prepare<R: Wait>(rt: &R, desk: &mut Desk, branch: &Branch, idle: &mut Turns) -> bool
    ensures seat { seat_of_desk desk.new ≡ seat_of_desk desk.old }
    ensures idled { map seat_of_worker idle.new ≡ map seat_of_worker idle.old }
{
    match (Key::new(b"a"), Delta::new(1)) {
        (Some(key), Some(delta)) => {
            let addition = RmOp::Add(key, delta);
            work(rt, desk, branch, addition, idle)
                && ask(rt, desk, Call::Prepare, branch, TMNOFLAGS, idle) == 0
        }
        _ => false,
    }
}

/// An opening of two managers that was settled with a branch prepared at the first. None for want of memory.
pub(crate) fn settled<R: Wait>(rt: &R, alloc: Global) -> Option<Settled> {
    let mut opened = open(rt, alloc, &plan_of(alloc, 1, 2)?)?;
    let branch = branch(1, b"1")?;
    if !prepare(rt, &mut opened.desk, &branch, &mut opened.workers) {
        return None;
    }
    let pieces = end_all(rt, alloc, opened)?;
    settle(rt, alloc, pieces.desks, pieces.workers).ok()
}

// Whether the branch is left, and listed.
fn lists<R: Wait>(rt: &R, mut desk: Desk, mut workers: Turns, mut scan: Scan, xid: Xid) -> bool {
    if workers.managers() != 2 || scan.left(1) != [xid].as_slice() || !scan.left(2).is_empty() {
        return false;
    }
    xa_call(
        rt,
        &mut desk,
        Call::OpenRm,
        None,
        1,
        TMNOFLAGS,
        &mut workers,
    );
    let mut page = [xid; 4];
    let flags = TMSTARTRSCAN | TMENDRSCAN;
    xa_recover(rt, &mut desk, &mut scan, &mut page, 1, flags, &mut workers) == 1
}

// Whether these are one desk and two workers, over managers of which the first has the branch left.
fn is_whole<R: Wait>(rt: &R, desks: Vec<Desk>, workers: Turns, scans: Vec<Scan>) -> bool {
    match (one(desks), one(scans), branch(1, b"1")) {
        (Some(desk), Some(scan), Some(branch)) => lists(rt, desk, workers, scan, branch.xid),
        _ => false,
    }
}

// What it is opened again by.
fn again() -> Again {
    Again {
        opening: 2,
        threads: 1,
        handles: 4,
        queue: 4,
        requests: 32,
    }
}

/// Opens it again. It is kept where memory was refused.
pub(crate) fn open_again<R: Wait>(rt: &R, alloc: Global, kept: &mut Option<Settled>) -> Came {
    let Some(settled) = kept.take() else {
        return Came::Wrong;
    };
    match reopen(rt, alloc, settled, &again()) {
        Ok((desks, workers, scans)) => {
            if is_whole(rt, desks, Turns::new(workers), scans) {
                Came::Made
            } else {
                Came::Wrong
            }
        }
        Err(unopened) => match unopened.why {
            OpenFault::NoMemory => {
                *kept = Some(unopened.settled);
                Came::Refused
            }
            OpenFault::BadPlan => Came::Wrong,
        },
    }
}

/// The desk of an opening that was opened again with a branch left at the first of its managers, and its scan.
#[derive(Drop)]
pub(crate) struct Resolver {
    desk: Desk,
    scan: Scan,
    workers: Turns,
}

impl Resolver {
    /// None for want of memory.
    pub(crate) fn new<R: Wait>(rt: &R, alloc: Global) -> Option<Resolver> {
        let kept = settled(rt, alloc)?;
        let (desks, workers, scans) = test_support::open_again(rt, alloc, kept, &again())?;
        Some(Resolver {
            desk: one(desks)?,
            scan: one(scans)?,
            workers,
        })
    }

    // What came of a resolve that ended: nothing is logged, so the branch was rolled back.
    fn judge(outcomes: &[Outcome]) -> Came {
        match (outcomes, branch(1, b"1")) {
            ([outcome], Some(branch))
                if outcome.m == 1
                    && outcome.xid == branch.xid
                    && !outcome.commit
                    && outcome.code == Code::Done => Came::Made,
            _ => Came::Wrong,
        }
    }

    /// Resolves what is left.
    pub(crate) fn resolve<R: Wait>(&mut self, rt: &R, alloc: Global) -> Came {
        let log = MemoryLog::new(alloc);
        if !may_resolve(&self.desk, &self.scan, &log) {
            return Came::Wrong;
        }
        let before = self.desk.room(1);
        let (desk, idle) = (&mut self.desk, &mut self.workers);
        match resolve(rt, alloc, desk, &self.scan, &log, idle) {
            Ok(resolved) => Resolver::judge(&resolved.outcomes),
            Err(_) if self.desk.room(1) == before => Came::Refused,
            Err(_) => Came::Wrong,
        }
    }
}
