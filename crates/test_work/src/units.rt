//! Units of work: done in flight and in turn, given up, not begun, and cut short.
use crate::mover::{Move, plan, run};
use std::alloc::Global;
use std::process::Abort;
use std::sync::Wait;
use xa_driver::CommitOutcome;
use xa_log::{DecisionRecords, MemoryLog, TrialLog};
use xa_switch::Plan;
use xa_words::{Death, Xid};
use xa_work::{Refusal, WorkOutcome};

// Whether it was decided to commit, whether the coordinator died with it, and whether no other is to follow.
fn told(outcome: &WorkOutcome) -> (bool, bool, bool) {
    (
        outcome.is_to_commit(),
        outcome.has_died(),
        outcome.is_last(),
    )
}

fn is_not_begun(outcome: &WorkOutcome) -> bool {
    matches!(outcome, WorkOutcome::Refused(Refusal::NotBegun))
}

// A unit of work is given up since no manager has its key. Its branches are gone: the next one has the same names, and
// is committed. After that the log has a record of that name, so that a third isn't begun.
fn is_given_up_and_made<R: Wait + Abort>(rt: &R, alloc: Global, plan: &Plan, requests: [usize; 2]) {
    let unknown = Move {
        key: b'z',
        ..Move::of(b't')
    };
    let moves = [unknown, Move::of(b't'), Move::of(b't')];
    let moved = run(rt, alloc, plan, MemoryLog::new(alloc), &moves);
    let outcomes = &moved.outcomes;
    assert!(rt; matches!(&outcomes[0], WorkOutcome::Refused(Refusal::GivenUp)));
    assert!(rt;
        matches!(
        &outcomes[1],
        WorkOutcome::Commit(CommitOutcome::Decided(done)) if done.commit && done.logged
    )
    );
    assert!(rt; is_not_begun(&outcomes[2]));
    assert_eq!(rt; told(&outcomes[0]), (false, false, false));
    assert_eq!(rt; told(&outcomes[1]), (true, false, false));
    assert_eq!(rt; moved.values(rt), [Some(3), Some(7)]);
    assert_eq!(rt; moved.sent(), requests);
}

// Each manager is opened. Then the first unit of work has a start, a change and an end, an end as failed and a
// rollback; and the second a start, a change, an end, a prepare and a commit.
const IN_FLIGHT: [usize; 2] = [11, 11];

// In turn the first one's work stops with the branch at manager 1.
const IN_TURN: [usize; 2] = [11, 8];

#[test]
fn work_in_flight_is_given_up_or_committed(rt: HostRuntime) {
    let alloc = rt.alloc();
    // A queue of one place is full most of the time.
    for queue in [1, 2, 4] {
        let plan = Plan {
            queue,
            ..plan(&rt, alloc)
        };
        is_given_up_and_made(&rt, alloc, &plan, IN_FLIGHT);
    }
}

// The plan whose last manager takes no asynchronous call.
fn half_synchronous(rt: &impl Abort, alloc: Global) -> Plan {
    let mut plan = plan(rt, alloc);
    if let Some(last) = plan.managers.last_mut() {
        last.use_async = false;
    }
    plan
}

#[test]
fn work_in_turn_is_given_up_or_committed(rt: HostRuntime) {
    let alloc = rt.alloc();
    // The commit has a handle for each branch, and the work one too few.
    for handles in 2..6u32 {
        let plan = Plan {
            handles,
            ..plan(&rt, alloc)
        };
        is_given_up_and_made(&rt, alloc, &plan, IN_TURN);
    }
    is_given_up_and_made(&rt, alloc, &half_synchronous(&rt, alloc), IN_TURN);
}

#[test]
fn nothing_is_sent_for_what_is_not_begun(rt: HostRuntime) {
    let alloc = rt.alloc();
    let elsewhere = Move {
        to: 3,
        ..Move::of(b't')
    };
    // A change has no branch at its manager; a branch has no handle in the commit; a manager has too few requests left.
    let units = [
        (8, 32, elsewhere),
        (1, 32, Move::of(b't')),
        (8, 6, Move::of(b't')),
    ];
    for (handles, requests, one) in units {
        let plan = Plan {
            handles,
            requests,
            ..plan(&rt, alloc)
        };
        let moved = run(&rt, alloc, &plan, MemoryLog::new(alloc), &[one]);
        assert!(rt; is_not_begun(&moved.outcomes[0]));
        assert_eq!(rt; moved.values(&rt), [Some(5), Some(5)]);
        assert_eq!(rt; moved.sent(), [1, 1]);
    }
}

// The deaths of a coordinator, whether it had decided to commit, how many requests it had sent to each manager, and
// what the managers have.
const DEATHS: [(Death, bool, usize, [Option<u64>; 2]); 7] = [
    (Death::Preparing(0), false, 5, [Some(5), Some(5)]),
    (Death::Preparing(1), false, 5, [Some(5), Some(5)]),
    (Death::Prepared, false, 5, [Some(5), Some(5)]),
    (Death::Decided, true, 5, [Some(5), Some(5)]),
    (Death::Telling(0), true, 6, [Some(3), Some(7)]),
    (Death::Telling(1), true, 6, [Some(3), Some(7)]),
    (Death::Told, true, 6, [Some(3), Some(7)]),
];

#[test]
fn a_coordinator_dies_where_it_is_to(rt: HostRuntime) {
    let alloc = rt.alloc();
    let tran = Xid::new(1, b"t", b"from").expect(&rt, "an xid").tran();
    for (death, commits, requests, has) in DEATHS {
        let (plan, log) = (plan(&rt, alloc), MemoryLog::new(alloc));
        let dying = Move::of(b't').until(Some(death));
        let moved = run(&rt, alloc, &plan, log, &[dying]);
        assert!(rt;
            matches!(
                &moved.outcomes[0],
                WorkOutcome::Commit(CommitOutcome::Died { at, known: _ }) if *at == death
            )
        );
        assert_eq!(rt; told(&moved.outcomes[0]), (commits, true, true));
        assert_eq!(rt; moved.log.has(&tran).is_some(), commits);
        assert_eq!(rt; moved.sent(), [requests; 2]);
        assert_eq!(rt; moved.values(&rt), has);
    }
}

// The log refuses the record: the branches are rolled back, and the next unit of work is committed.
#[test]
fn without_a_record_nothing_is_committed(rt: HostRuntime) {
    let alloc = rt.alloc();
    let log = TrialLog::new(MemoryLog::new(alloc)).failing_at(1);
    let moves = [Move::of(b't'), Move::of(b'u')];
    let moved = run(&rt, alloc, &plan(&rt, alloc), log, &moves);
    let outcomes = &moved.outcomes;
    assert!(rt;
        matches!(&outcomes[0], WorkOutcome::Commit(CommitOutcome::Decided(done)) if !done.logged)
    );
    assert_eq!(rt; told(&outcomes[0]), (false, false, false));
    assert_eq!(rt; told(&outcomes[1]), (true, false, false));
    assert_eq!(rt; moved.values(&rt), [Some(3), Some(7)]);
}

// The log has lost the record: the branches are told nothing, and with that log no other unit of work is begun.
#[test]
fn a_lost_record_is_the_last(rt: HostRuntime) {
    let alloc = rt.alloc();
    for death in [None, Some(Death::Told)] {
        let log = TrialLog::new(MemoryLog::new(alloc)).losing_at(1, true);
        let moves = [Move::of(b't').until(death), Move::of(b'u')];
        let moved = run(&rt, alloc, &plan(&rt, alloc), log, &moves);
        let outcomes = &moved.outcomes;
        assert!(rt;
            matches!(
            &outcomes[0],
            WorkOutcome::Commit(CommitOutcome::Undecided(votes)) if votes.len() == 2
        )
        );
        assert_eq!(rt; told(&outcomes[0]), (false, false, true));
        assert!(rt; is_not_begun(&outcomes[1]));
        assert_eq!(rt; moved.values(&rt), [Some(5), Some(5)]);
        assert_eq!(rt; moved.sent(), [5, 5]);
    }
}
