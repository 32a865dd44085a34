//! A manager that is restored from what a store has, goes on from there, and is refused for each fault.
ghost use Rattle.std.specs.Prelude.{◌≤◌};

use super::{branch, carry_out, key};
use std::alloc::Global;
use std::process::Abort;
use xa_base::MOST_KEYS;
use xa_tables::{HeuristicDecision, Manager, RestoreFault, State, Sum};
use xa_words::{Delta, Key, Op, StartHow, Xid};

const COMMITTED: State = State::HeuristicallyCompleted(HeuristicDecision::Commit);

// What the branch of this name has added to a key.
fn sum(rt: &impl Abort, name: &[u8], of: &[u8], amount: i64) -> Sum {
    Sum {
        xid: branch(rt, name),
        key: key(rt, of),
        delta: Delta::new(amount).expect(rt, "within the limit"),
    }
}

// Two branches are prepared, and one is completed.
fn three(rt: &impl Abort) -> [(Xid, State); 3] {
    let (one, two, three) = (branch(rt, b"1"), branch(rt, b"2"), branch(rt, b"3"));
    [
        (two, State::Prepared),
        (three, COMMITTED),
        (one, State::Prepared),
    ]
}

// The branch has added these amounts to these keys, in any order.
fn has_added(
    rt: &impl Abort,
    alloc: Global,
    manager: &Manager,
    name: &[u8],
    amounts: &[(Key, i64)],
) {
    let mut sums = Vec::with_capacity(alloc, MOST_KEYS).expect(rt, "memory");
    manager.sums_of(&branch(rt, name), &mut sums);
    sums.sort_unstable();
    assert!(rt; sums.as_slice() == amounts);
}

// The branches are as the store has them.
fn are_there(rt: &impl Abort, alloc: Global, manager: &Manager) {
    let (a, b, c) = (key(rt, b"a"), key(rt, b"b"), key(rt, b"c"));
    assert!(rt; manager.state(&branch(rt, b"1")) == Some(State::Prepared));
    assert!(rt; manager.state(&branch(rt, b"3")) == Some(COMMITTED));
    assert!(rt; manager.state(&branch(rt, b"4")).is_none());
    has_added(rt, alloc, manager, b"1", &[(a, -9), (c, 1)]);
    has_added(rt, alloc, manager, b"2", &[(b, 5)]);
    has_added(rt, alloc, manager, b"3", &[]);
}

// A commit adds the sums, a rollback doesn't, and a completed branch is forgotten.
fn go_on(rt: &impl Abort, manager: &mut Manager)
    requires { 1 ≤ manager.old.threads }
{
    let (one, two, three) = (branch(rt, b"1"), branch(rt, b"2"), branch(rt, b"3"));
    let delta = Delta::new(1).expect(rt, "within the limit");
    let steps = [
        (Op::Commit(one, false), -6),
        (Op::OpenRm, 0),
        (Op::Start(branch(rt, b"4"), StartHow::Fresh), 0),
        // The key of a prepared branch isn't free.
        (Op::Add(key(rt, b"b"), delta), 107),
        (Op::Commit(one, false), 0),
        (Op::Rollback(two), 0),
        (Op::Rollback(three), 7),
        (Op::Forget(three), 0),
        (Op::Commit(three, false), -4),
    ];
    carry_out(rt, manager, 1, &steps);
}

#[test]
fn a_restored_manager_goes_on(rt: HostRuntime) {
    let (a, b, c) = (key(&rt, b"a"), key(&rt, b"b"), key(&rt, b"c"));
    let accounts = [(a, 9), (b, 0), (c, 0)];
    let sums = [
        sum(&rt, b"1", b"c", 1),
        sum(&rt, b"2", b"b", 5),
        sum(&rt, b"1", b"a", -9),
    ];
    let manager = Manager::restored(rt.alloc(), &accounts, &three(&rt), &sums, 1, 9);
    let mut manager = manager.expect(&rt, "what a store has");
    assert!(rt; manager.room() == 9 && !manager.is_shut());
    are_there(&rt, rt.alloc(), &manager);
    go_on(&rt, &mut manager);
    assert!(rt; manager.value(&a) == Some(0));
    assert!(rt; manager.value(&b) == Some(0));
    assert!(rt; manager.value(&c) == Some(1));
}

// Why a manager with one key, which has 9, isn't restored with these branches and sums.
fn fault_of(
    rt: &impl Abort,
    alloc: Global,
    branches: &[(Xid, State)],
    sums: &[Sum],
) -> Option<RestoreFault> {
    let accounts = [(key(rt, b"a"), 9)];
    match Manager::restored(alloc, &accounts, branches, sums, 1, 1) {
        Ok(_) => None,
        Err(fault) => Some(fault),
    }
}

fn refuses(
    rt: &impl Abort,
    alloc: Global,
    branches: &[(Xid, State)],
    sums: &[Sum],
    fault: RestoreFault,
) {
    assert!(rt; fault_of(rt, alloc, branches, sums) == Some(fault));
}

#[test]
fn branches_that_no_opening_leaves_are_refused(rt: HostRuntime) {
    let (one, two) = (branch(&rt, b"1"), branch(&rt, b"2"));
    let twice = [(one, State::Prepared), (two, COMMITTED), (one, COMMITTED)];
    refuses(&rt, rt.alloc(), &twice, &[], RestoreFault::BranchTwice);
    let idle = [(one, State::Prepared), (two, State::Idle)];
    refuses(&rt, rt.alloc(), &idle, &[], RestoreFault::NotLeft);
    // The first reason is told: here that the state is none that is left.
    let both = [(one, State::Active), (one, State::Prepared)];
    refuses(
        &rt,
        rt.alloc(),
        &both,
        &[sum(&rt, b"3", b"z", 1)],
        RestoreFault::NotLeft,
    );
}

#[test]
fn sums_that_no_branch_can_have_are_refused(rt: HostRuntime) {
    let prepared = [
        (branch(&rt, b"1"), State::Prepared),
        (branch(&rt, b"2"), COMMITTED),
    ];
    let unknown = [sum(&rt, b"3", b"z", 1)];
    refuses(
        &rt,
        rt.alloc(),
        &prepared,
        &unknown,
        RestoreFault::UnknownKey,
    );
    let completed = [sum(&rt, b"2", b"a", 1)];
    refuses(
        &rt,
        rt.alloc(),
        &prepared,
        &completed,
        RestoreFault::NotPrepared,
    );
    let absent = [sum(&rt, b"3", b"a", 1)];
    refuses(
        &rt,
        rt.alloc(),
        &prepared,
        &absent,
        RestoreFault::NotPrepared,
    );
    let twice = [sum(&rt, b"1", b"a", 1), sum(&rt, b"1", b"a", 1)];
    refuses(&rt, rt.alloc(), &prepared, &twice, RestoreFault::KeyTwice);
    let below = [sum(&rt, b"1", b"a", -10)];
    refuses(
        &rt,
        rt.alloc(),
        &prepared,
        &below,
        RestoreFault::OutOfLimits,
    );
    let above = [sum(&rt, b"1", b"a", 999_999_999_992)];
    refuses(
        &rt,
        rt.alloc(),
        &prepared,
        &above,
        RestoreFault::OutOfLimits,
    );
    let most = [sum(&rt, b"1", b"a", 999_999_999_991)];
    assert!(rt; fault_of(&rt, rt.alloc(), &prepared, &most).is_none());
}

#[test]
fn accounts_of_a_store_are_looked_at_first(rt: HostRuntime) {
    let twice = [(key(&rt, b"a"), 1), (key(&rt, b"a"), 1)];
    let idle = [(branch(&rt, b"1"), State::Idle)];
    let refused = Manager::restored(rt.alloc(), &twice, &idle, &[], 8, 1);
    assert!(rt; refused.err() == Some(RestoreFault::BadAccounts));
}
