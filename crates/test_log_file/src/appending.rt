//! Records that are appended, an append that fails, and a log that is full.

use crate::memory::{
    Log, added, durable_of, empty, file_of, has, lacks, opened, record, refuses, takes,
};
use crate::tape::Tape;
use std::alloc::Global;
use std::process::Abort;
use xa_log::{CommitRecord, DecisionLog, DecisionRecords, LogFault};

#[test]
fn what_was_appended_is_read_again(rt: HostRuntime) {
    let alloc = rt.alloc();
    let (one, two) = (record(&rt, b"g1"), record(&rt, &[255; 64]));
    let mut log = opened(&rt, alloc, &empty(&rt, alloc), 0);
    assert!(rt; takes(&mut log, &one));
    assert!(rt; takes(&mut log, &two));
    assert!(rt; has(&log, &one));
    let tape = file_of(log);
    assert!(rt; tape.now.as_slice() == tape.durable.as_slice());
    let again = opened(&rt, alloc, &tape.durable, 0);
    assert!(rt; has(&again, &one));
    assert!(rt; has(&again, &two));
    assert!(rt; lacks(&again, &record(&rt, b"g2")));
}

// Whether each file that a crash may leave is a log that has the first record; and whether some has the second.
fn crashes(
    rt: &impl Abort,
    alloc: Global,
    tape: &Tape,
    one: &CommitRecord,
    two: &CommitRecord,
) -> (bool, bool) {
    let (mut all, mut some) = (true, false);
    for cut in 0..tape.now.len() {
        let log = opened(rt, alloc, &tape.crashed_at(rt, cut), 0);
        all &= has(&log, one);
        some |= !lacks(&log, two);
    }
    (all, some)
}

// After a refusal it takes no more.
fn takes_no_more(rt: &impl Abort, log: &mut Log, one: &CommitRecord, two: &CommitRecord) {
    assert!(rt; refuses(log, &record(rt, b"g3")));
    assert!(rt; has(log, one));
    assert!(rt; lacks(log, two));
}

// An append of the second record, whose k-th call fails, is answered so.
fn fails_at(rt: &impl Abort, alloc: Global, bytes: &[u8], k: u32, answer: Result<(), LogFault>) {
    let (one, two) = (record(rt, b"g1"), record(rt, b"g2"));
    let mut log = opened(rt, alloc, bytes, k.saturating_add(3));
    assert!(rt; added(&mut log, &two) == answer);
    assert!(rt; log.is_known() == (answer != Err(LogFault::Unknown)));
    assert!(rt; log.failures() == u64::from(k < 2));
    if k < 2 {
        takes_no_more(rt, &mut log, &one, &two);
    }
    let (all, some) = crashes(rt, alloc, &file_of(log), &one, &two);
    assert!(rt; all);
    assert!(rt; some == (k >= 3));
}

#[test]
fn a_failed_append_is_refused_or_unknown(rt: HostRuntime) {
    let alloc = rt.alloc();
    let mut first = opened(&rt, alloc, &empty(&rt, alloc), 0);
    assert!(rt; takes(&mut first, &record(&rt, b"g1")));
    let bytes = durable_of(first);
    // The first two calls are those of the opening.
    fails_at(&rt, alloc, &bytes, 0, Err(LogFault::Refused));
    fails_at(&rt, alloc, &bytes, 1, Err(LogFault::Refused));
    fails_at(&rt, alloc, &bytes, 2, Err(LogFault::Unknown));
    fails_at(&rt, alloc, &bytes, 3, Err(LogFault::Unknown));
    fails_at(&rt, alloc, &bytes, 4, Ok(()));
}

#[test]
fn a_full_log_refuses(rt: HostRuntime) {
    let alloc = rt.alloc();
    let mut log = opened(&rt, alloc, &empty(&rt, alloc), 0);
    for gtrid in [b"1", b"2", b"3"] {
        assert!(rt; takes(&mut log, &record(&rt, gtrid)));
    }
    assert!(rt; refuses(&mut log, &record(&rt, b"4")));
    assert!(rt; log.is_known());
    assert!(rt; has(&log, &record(&rt, b"3")));
}
