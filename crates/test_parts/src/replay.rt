//! A journal that is right, by codes that were worked out by hand, and one that is wrong for each fact that a replay
//! shows.
use std::process::Abort;
use test_replay::{agrees, was_opened};
use xa_words::{Code, Delta, EndHow, Key, Op, Request, StartHow, Xid};

fn key(rt: &impl Abort) -> Key {
    Key::new(b"a").expect(rt, "a short name")
}

// Thread 1 adds 5 to the key in a branch, which it commits in one phase; thread 2 opens the manager twice.
fn journal(rt: &impl Abort) -> [(Request, Code); 7] {
    let xid = Xid::new(1, b"g", b"1").expect(rt, "a short name");
    let delta = Delta::new(5).expect(rt, "within the limit");
    let entry = |thread: u32, number: u32, op: Op| (Request { thread, number, op }, Code::Done);
    [
        entry(1, 0, Op::OpenRm),
        entry(2, 0, Op::OpenRm),
        entry(1, 1, Op::Start(xid, StartHow::Fresh)),
        entry(1, 2, Op::Add(key(rt), delta)),
        entry(2, 1, Op::OpenRm),
        entry(1, 3, Op::End(xid, EndHow::Success)),
        entry(1, 4, Op::Commit(xid, true)),
    ]
}

#[test]
fn a_right_journal_agrees(rt: HostRuntime) {
    let (a, journal) = (key(&rt), journal(&rt));
    let accounts = [(a, 100)];
    assert!(rt; agrees(rt.alloc(), &accounts, &journal, &[5, 2], &[(a, Some(105))]));
    assert!(rt; was_opened(&journal));
    let all = journal.as_slice();
    assert!(rt; !was_opened(&all[2..4]));
    let absent = Key::new(b"z").expect(&rt, "a short name");
    assert!(rt;
        agrees(
            rt.alloc(),
            &accounts,
            &journal,
            &[5, 2, 0],
            &[(a, Some(105)), (absent, None)]
        )
    );
}

#[test]
fn a_wrong_code_is_noticed(rt: HostRuntime) {
    let a = key(&rt);
    for place in 0..7 {
        let mut journal = journal(&rt);
        journal[place].1 = Code::Proto;
        assert!(rt;
            !agrees(
                rt.alloc(),
                &[(a, 100)],
                &journal,
                &[5, 2],
                &[(a, Some(105))]
            )
        );
    }
}

#[test]
fn wrong_values_are_noticed(rt: HostRuntime) {
    let (a, journal) = (key(&rt), journal(&rt));
    for shown in [Some(100), Some(104), None] {
        assert!(rt; !agrees(rt.alloc(), &[(a, 100)], &journal, &[5, 2], &[(a, shown)]));
    }
    // Other accounts leave other values.
    assert!(rt; !agrees(rt.alloc(), &[(a, 99)], &journal, &[5, 2], &[(a, Some(105))]));
}

#[test]
fn requests_out_of_their_order_are_noticed(rt: HostRuntime) {
    let a = key(&rt);
    let (mut changed, mut skipped, mut strange) = (journal(&rt), journal(&rt), journal(&rt));
    // The codes are right all the same.
    changed[1].0.number = 1;
    changed[4].0.number = 0;
    skipped[4].0.number = 2;
    strange[4].0.thread = 3;
    for journal in [&changed, &skipped, &strange] {
        assert!(rt; !agrees(rt.alloc(), &[(a, 100)], journal, &[5, 2], &[(a, Some(105))]));
    }
    // More or fewer were sent than the journal has.
    for sent in [[5, 3], [5, 1], [4, 2], [6, 2]] {
        assert!(rt;
            !agrees(
                rt.alloc(),
                &[(a, 100)],
                &journal(&rt),
                &sent,
                &[(a, Some(105))]
            )
        );
    }
}
