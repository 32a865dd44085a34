//! What a manager answers, and which accounts it is opened with. That the definitions mean what the rules of the branch
//! tables say is for the scripts of tests/, whose codes were worked out by hand.
ghost use Rattle.std.specs.Prelude.{◌≡◌, ◌≤◌};

use std::alloc::Global;
use std::process::Abort;
use xa_tables::{Manager, TableFault};
use xa_words::{Delta, EndHow, Key, Op, StartHow, Xid};

mod restored;

const LIMIT: u64 = 1_000_000_000_000;

fn key(rt: &impl Abort, name: &[u8]) -> Key {
    Key::new(name).expect(rt, "a short name")
}

// Requests of one thread, each with the code that it is to be answered.
fn carry_out(rt: &impl Abort, manager: &mut Manager, thread: u32, steps: &[(Op, i32)])
    requires { (1 ≤ thread) × (thread ≤ manager.old.threads) }
    ensures { manager.new.threads ≡ manager.old.threads }
{
    for (op, code) in steps {
        assert!(rt; 0 < manager.room());
        assert!(rt; manager.apply(thread, op).value() == *code);
    }
}

#[test]
fn a_transfer_commits(rt: HostRuntime) {
    let a = key(&rt, b"a");
    let xid = Xid::new(1, b"g", b"1").expect(&rt, "a short name");
    let delta = Delta::new(-30).expect(&rt, "within the limit");
    let steps = [
        (Op::Prepare(xid), -6),
        (Op::OpenRm, 0),
        (Op::Start(xid, StartHow::Fresh), 0),
        (Op::Add(a, delta), 0),
        (Op::End(xid, EndHow::Success), 0),
        (Op::Prepare(xid), 0),
        (Op::Commit(xid, false), 0),
    ];
    let mut manager = Manager::new(rt.alloc(), &[(a, 100)], 1, 7).expect(&rt, "an account");
    carry_out(&rt, &mut manager, 1, &steps);
    assert!(rt; manager.room() == 0);
    assert!(rt; manager.value(&a) == Some(70));
}

fn fault_of(alloc: Global, accounts: &[(Key, u64)]) -> Option<TableFault> {
    match Manager::new(alloc, accounts, 1, 1) {
        Ok(_) => None,
        Err(fault) => Some(fault),
    }
}

// So many accounts, each of another key and with the most that one may have.
fn accounts(rt: &impl Abort, alloc: Global) -> Vec<(Key, u64)> {
    let mut many = Vec::new(alloc);
    for i in 0..16 {
        for j in 0..16 {
            let account = (key(rt, &[b'a' + i, b'a' + j]), LIMIT);
            many.push(account).expect(rt, "memory");
        }
    }
    many
}

// No more than 256 accounts are taken.
fn are_few(rt: &impl Abort, alloc: Global) {
    let mut many = accounts(rt, alloc);
    assert!(rt; many.len() == 256);
    assert!(rt; fault_of(alloc, &many).is_none());
    many.push((key(rt, b"a"), 0)).expect(rt, "memory");
    assert!(rt; fault_of(alloc, &many) == Some(TableFault::BadAccounts));
}

// A manager with the least and the most of everything.
fn is_wide(rt: &impl Abort, alloc: Global) {
    let (a, b) = (key(rt, b"a"), key(rt, b"b"));
    let manager = Manager::new(alloc, &[(a, 0), (b, LIMIT)], 8, 32768);
    let manager = manager.expect(rt, "two keys");
    assert!(rt; manager.room() == 32768);
    assert!(rt; !manager.is_shut());
    assert!(rt; manager.value(&a) == Some(0));
    assert!(rt; manager.value(&b) == Some(LIMIT));
    assert!(rt; manager.value(&key(rt, b"z")).is_none());
}

#[test]
fn accounts_are_refused_before_memory(rt: HostRuntime) {
    let (a, b) = (key(&rt, b"a"), key(&rt, b"b"));
    let twice = fault_of(rt.alloc(), &[(a, 1), (b, 1), (a, 2)]);
    assert!(rt; twice == Some(TableFault::BadAccounts));
    let too_much = fault_of(rt.alloc(), &[(a, 1), (b, LIMIT + 1)]);
    assert!(rt; too_much == Some(TableFault::BadAccounts));
    are_few(&rt, rt.alloc());
    is_wide(&rt, rt.alloc());
}

// The branch of the transaction of this name.
fn branch(rt: &impl Abort, name: &[u8]) -> Xid {
    Xid::new(1, name, b"1").expect(rt, "a short name")
}

// Thread 1 takes 1 from the key for the branch, whose work then ends.
fn work(rt: &impl Abort, manager: &mut Manager, xid: Xid, key: Key)
    requires { 1 ≤ manager.old.threads }
    ensures { manager.new.threads ≡ manager.old.threads }
{
    let delta = Delta::new(-1).expect(rt, "within the limit");
    let steps = [
        (Op::Start(xid, StartHow::Fresh), 0),
        (Op::Add(key, delta), 0),
        (Op::End(xid, EndHow::Success), 0),
    ];
    carry_out(rt, manager, 1, &steps);
}

// One branch is prepared, and one decided.
fn leave(rt: &impl Abort, manager: &mut Manager)
    requires { 1 ≤ manager.old.threads }
    ensures { manager.new.threads ≡ manager.old.threads }
{
    let (prepared, decided) = (branch(rt, b"prepared"), branch(rt, b"b"));
    carry_out(rt, manager, 1, &[(Op::OpenRm, 0)]);
    work(rt, manager, prepared, key(rt, b"a"));
    carry_out(rt, manager, 1, &[(Op::Prepare(prepared), 0)]);
    work(rt, manager, decided, key(rt, b"b"));
    let steps = [(Op::Prepare(decided), 0), (Op::Heur(decided, true), 0)];
    carry_out(rt, manager, 1, &steps);
}

// Of the others one is idle and one begun, as the manager is shut.
fn leave_working(rt: &impl Abort, manager: &mut Manager)
    requires { 1 ≤ manager.old.threads }
{
    let (idle, begun) = (branch(rt, b"idle"), branch(rt, b"begun"));
    work(rt, manager, idle, key(rt, b"c"));
    let steps = [
        (Op::Start(begun, StartHow::Fresh), 0),
        (Op::Listed(Some(branch(rt, b"prepared"))), 0),
        (Op::Listed(Some(idle)), -4),
        (Op::Shut, 0),
    ];
    carry_out(rt, manager, 1, &steps);
}

// The prepared branch is committed, and the decided one forgotten.
fn end_both(rt: &impl Abort, manager: &mut Manager)
    requires { 2 ≤ manager.old.threads }
{
    let (prepared, decided) = (branch(rt, b"prepared"), branch(rt, b"b"));
    let delta = Delta::new(-1).expect(rt, "within the limit");
    let steps = [
        (Op::OpenRm, 0),
        (Op::Listed(None), 0),
        (Op::Listed(Some(prepared)), 0),
        (Op::Listed(Some(branch(rt, b"begun"))), -4),
        (Op::Start(branch(rt, b"idle"), StartHow::Fresh), 0),
        // The key of the branch that is gone is free, and that of the prepared one isn't.
        (Op::Add(key(rt, b"c"), delta), 0),
        (Op::Add(key(rt, b"a"), delta), 107),
        (Op::Commit(prepared, false), 0),
        (Op::Rollback(decided), 7),
        (Op::Forget(decided), 0),
    ];
    carry_out(rt, manager, 2, &steps);
}

// The branches that are left are these.
fn has_left(rt: &impl Abort, alloc: Global, manager: &Manager, branches: &[Xid]) {
    let left = manager.left(alloc).expect(rt, "memory");
    assert!(rt; left.as_slice() == branches);
}

#[test]
fn prepared_and_decided_branches_are_left(rt: HostRuntime) {
    let (a, b, c) = (key(&rt, b"a"), key(&rt, b"b"), key(&rt, b"c"));
    let manager = Manager::new(rt.alloc(), &[(a, 9), (b, 9), (c, 9)], 1, 17);
    let mut manager = manager.expect(&rt, "three keys");
    leave(&rt, &mut manager);
    leave_working(&rt, &mut manager);
    let left = [branch(&rt, b"b"), branch(&rt, b"prepared")];
    has_left(&rt, rt.alloc(), &manager, &left);

    // The next opening has two threads.
    let reserved = manager.reserve_reopen(2, 11);
    reserved.expect(&rt, "two threads");
    let mut manager = manager.reopened(2, 11);
    assert!(rt; manager.room() == 11 && !manager.is_shut());
    carry_out(&rt, &mut manager, 1, &[(Op::Listed(None), -6)]);
    end_both(&rt, &mut manager);
    assert!(rt; manager.value(&a) == Some(8));
    assert!(rt; manager.value(&b) == Some(8));
    assert!(rt; manager.value(&c) == Some(9));
    has_left(&rt, rt.alloc(), &manager, &[]);
}
