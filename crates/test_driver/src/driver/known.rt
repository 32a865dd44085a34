//! What a coordinator knows as it dies, what it has asked by then, and what of that is in flight.
use super::{Opened, branch, tells};
use std::alloc::Global;
use std::process::Abort;
use std::sync::Wait;
use xa_driver::{Branch, CommitOutcome, Decision, Ending, LastKnown, commit, may_commit};
use xa_log::{DecisionLog, MemoryLog, TrialLog};
use xa_words::{Code, Death};

// What a coordinator left that died: what it knew, how many requests of the commit each manager was sent, and how many
// of them are in flight.
#[derive(Drop)]
struct Left {
    known: LastKnown,
    sent: (u32, u32),
    in_flight: u32,
}

// The coordinator of a commit of these branches dies.
fn die<R: Wait + Abort, L: DecisionLog + Drop>(
    rt: &R,
    alloc: Global,
    opened: Opened,
    mut log: L,
    branches: &[Branch; 2],
    death: Death,
) -> Left {
    let Opened {
        mut first,
        second: _second,
        mut workers,
    } = opened;
    if !may_commit(&first, &log, branches) {
        panic!(rt; "these branches are refused");
    }
    let (one, two, free) = (first.room(1), first.room(2), first.free());
    let idle = &mut workers;
    let Ok(CommitOutcome::Died { at: _, known }) = commit(
        rt,
        alloc,
        &mut first,
        &mut log,
        branches,
        Some(death),
        idle,
    ) else {
        panic!(rt; "memory");
    };
    Left {
        known,
        sent: (less(rt, one, first.room(1)), less(rt, two, first.room(2))),
        in_flight: less(rt, free, first.free()),
    }
}

// How much less it is than before.
fn less(rt: &impl Abort, before: u32, after: u32) -> u32 {
    before.checked_sub(after).expect(rt, "it only sends")
}

// The same, once the thread has worked for both branches: with these changes for the first, and with one for the other.
fn die_after<R: Wait + Abort, L: DecisionLog + Drop>(
    rt: &R,
    alloc: Global,
    log: L,
    changes: &[i64],
    death: Death,
) -> Left {
    let branches = [branch(rt, 1), branch(rt, 2)];
    let mut opened = Opened::new(rt, alloc, 2);
    opened.work(rt, &branches[0], changes);
    opened.work(rt, &branches[1], &[1]);
    die(rt, alloc, opened, log, &branches, death)
}

// What was asked of both managers, and what of it is in flight.
fn asked(rt: &impl Abort, left: &Left, sent: (u32, u32), in_flight: u32) {
    assert!(rt; left.sent == sent);
    assert!(rt; left.in_flight == in_flight);
}

const YES: [Code; 2] = [Code::Done, Code::Done];

const LOGGED: Decision = Decision {
    commit: true,
    logged: true,
};

const ABORTED: Decision = Decision {
    commit: false,
    logged: false,
};

// These votes alone were known.
fn voted(rt: &impl Abort, known: &LastKnown, votes: &[Code]) {
    let LastKnown::Votes(told) = known else {
        panic!(rt; "it was decided");
    };
    assert!(rt; told.as_slice() == votes);
}

// The decision was known, and these votes.
fn decided(rt: &impl Abort, known: &LastKnown, decision: Decision, votes: &[Code]) {
    let LastKnown::Decided {
        decision: told,
        votes: all,
    } = known
    else {
        panic!(rt; "it wasn't decided, or all were told");
    };
    assert!(rt; *told == decision);
    assert!(rt; all.as_slice() == votes);
}

// All were told to commit, and these endings were known.
fn ended(rt: &impl Abort, known: &LastKnown, votes: &[Code], endings: &[Ending]) {
    let LastKnown::Told(done) = known else {
        panic!(rt; "no ending is known");
    };
    tells(rt, done, true, true, votes, endings);
}

#[test]
fn votes_are_known_as_far_as_they_were_collected(rt: HostRuntime) {
    let alloc = rt.alloc();
    for count in 0..4u8 {
        let log = MemoryLog::new(alloc);
        let left = die_after(&rt, alloc, log, &[1], Death::Preparing(count));
        let collected = u32::from(count.min(2));
        let votes = YES.get(..collected as usize).expect(&rt, "so many votes");
        voted(&rt, &left.known, votes);
        asked(&rt, &left, (1, 1), 2u32.saturating_sub(collected));
    }
    let left = die_after(&rt, alloc, MemoryLog::new(alloc), &[1], Death::Prepared);
    voted(&rt, &left.known, &YES);
    asked(&rt, &left, (1, 1), 0);
}

#[test]
fn a_decision_is_known_before_any_branch_hears_of_it(rt: HostRuntime) {
    let alloc = rt.alloc();
    let left = die_after(&rt, alloc, MemoryLog::new(alloc), &[1], Death::Decided);
    decided(&rt, &left.known, LOGGED, &YES);
    asked(&rt, &left, (1, 1), 0);
    let failing = TrialLog::new(MemoryLog::new(alloc)).failing_at(1);
    let left = die_after(&rt, alloc, failing, &[1], Death::Decided);
    decided(&rt, &left.known, ABORTED, &YES);
    asked(&rt, &left, (1, 1), 0);
    // A vote against: nothing is logged.
    let left = die_after(&rt, alloc, MemoryLog::new(alloc), &[-6], Death::Decided);
    let votes = [Code::RbIntegrity, Code::Done];
    decided(&rt, &left.known, ABORTED, &votes);
    asked(&rt, &left, (1, 1), 0);
}

#[test]
fn endings_are_known_once_all_were_told(rt: HostRuntime) {
    let alloc = rt.alloc();
    for (count, in_flight) in [(0u8, 2u32), (1, 1), (2, 0), (8, 0)] {
        let log = MemoryLog::new(alloc);
        let left = die_after(&rt, alloc, log, &[1], Death::Telling(count));
        decided(&rt, &left.known, LOGGED, &YES);
        asked(&rt, &left, (2, 2), in_flight);
    }
    let left = die_after(&rt, alloc, MemoryLog::new(alloc), &[1], Death::Told);
    let endings = [Ending::Committed, Ending::Committed];
    ended(&rt, &left.known, &YES, &endings);
    asked(&rt, &left, (2, 2), 0);
}

// The first branch only reads: it is asked nothing in the second round, and doesn't count there.
#[test]
fn a_branch_that_only_read_is_not_told(rt: HostRuntime) {
    let alloc = rt.alloc();
    let votes = [Code::RdOnly, Code::Done];
    let left = die_after(&rt, alloc, MemoryLog::new(alloc), &[], Death::Preparing(1));
    voted(&rt, &left.known, &votes[..1]);
    asked(&rt, &left, (1, 1), 1);
    for (count, in_flight) in [(0u8, 1u32), (1, 0)] {
        let log = MemoryLog::new(alloc);
        let left = die_after(&rt, alloc, log, &[], Death::Telling(count));
        decided(&rt, &left.known, LOGGED, &votes);
        asked(&rt, &left, (1, 2), in_flight);
    }
    let left = die_after(&rt, alloc, MemoryLog::new(alloc), &[], Death::Told);
    let endings = [Ending::ReadOnly, Ending::Committed];
    ended(&rt, &left.known, &votes, &endings);
    asked(&rt, &left, (1, 2), 0);
}
