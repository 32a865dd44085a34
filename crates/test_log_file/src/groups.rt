//! Records that are appended in groups.

use crate::images::FEW;
use crate::memory::{
    Log, created, durable_of, empty, file_of, found, has, keep_only, lacks, numbered, opened,
    takes, yes,
};
use crate::tape::Tape;
use std::alloc::Global;
use std::process::Abort;
use xa_log::{CommitRecord, DecisionRecords, GroupLog, LogFault};

// An append of two records to a log that is known and has neither, where their transactions differ.
fn both_added(log: &mut Log, one: &CommitRecord, two: &CommitRecord) -> Result<(), LogFault> {
    if !log.is_known() {
        return Err(LogFault::Unknown);
    }
    if log.has(&one.tran).is_some() {
        return Err(LogFault::Unknown);
    }
    if log.has(&two.tran).is_some() {
        return Err(LogFault::Unknown);
    }
    if one.tran == two.tran {
        return Err(LogFault::Unknown);
    }
    log.append_all(&[*one, *two])
}

// Two groups: of the second there is room for one record until one of the first is forgotten.
fn append_two_groups(rt: &impl Abort, log: &mut Log) {
    let (one, two) = (numbered(rt, 1), numbered(rt, 2));
    let (three, four) = (numbered(rt, 3), numbered(rt, 4));
    assert!(rt; both_added(log, &one, &two) == Ok(()));
    assert!(rt; has(log, &one));
    assert!(rt; has(log, &two));
    // One slot is left.
    assert!(rt; both_added(log, &three, &four) == Err(LogFault::Refused));
    assert!(rt; lacks(log, &three));
    keep_only(log, &[two.tran]);
    assert!(rt; lacks(log, &one));
    assert!(rt; both_added(log, &three, &four) == Ok(()));
}

#[test]
fn a_group_is_taken_whole(rt: HostRuntime) {
    let alloc = rt.alloc();
    let mut log = opened(&rt, alloc, &empty(&rt, alloc), 0);
    append_two_groups(&rt, &mut log);
    let tape = file_of(log);
    let again = opened(&rt, alloc, &tape.durable, 0);
    assert!(rt; lacks(&again, &numbered(&rt, 1)));
    for number in 2..=4 {
        assert!(rt; has(&again, &numbered(&rt, number)));
    }
    // One sync of the opening, two of each group, and one for the gate of the first.
    assert!(rt; tape.syncs == 6);
}

// Whether the log has the record whole, or no record of its transaction.
fn has_all_or_none(log: &Log, record: &CommitRecord) -> bool {
    match found(log, record) {
        Some(managers) => managers == yes(),
        None => true,
    }
}

// Whether an image has the record from before, and of each of the two new ones the whole or nothing; and whether it has
// a new one.
fn group_image(rt: &impl Abort, alloc: Global, image: &[u8]) -> (bool, bool) {
    let log = opened(rt, alloc, image, 0);
    let (one, two) = (numbered(rt, 1), numbered(rt, 2));
    let whole = has_all_or_none(&log, &one)
        & has_all_or_none(&log, &two)
        & has(&log, &numbered(rt, 0));
    (whole, !lacks(&log, &one) | !lacks(&log, &two))
}

// Whether some image of the file has a new record; each has those that it must have.
fn some_is_new(rt: &impl Abort, alloc: Global, tape: &Tape) -> bool {
    let mut some = false;
    for cut in 0..=tape.now.len() {
        let before = group_image(rt, alloc, &tape.crashed_at(rt, cut));
        let after = group_image(rt, alloc, &tape.crashed_from(rt, cut));
        assert!(rt; before.0 && after.0);
        some |= before.1 | after.1;
    }
    some
}

// An append of a group whose k-th call fails is answered so, and leaves a new record in some image or in none.
fn fails_at(rt: &impl Abort, alloc: Global, bytes: &[u8], k: u32, answer: Result<(), LogFault>) {
    let mut log = opened(rt, alloc, bytes, k.saturating_add(3));
    assert!(rt; both_added(&mut log, &numbered(rt, 1), &numbered(rt, 2)) == answer);
    assert!(rt; log.is_known() == (answer != Err(LogFault::Unknown)));
    // Before the gates are written none of them is there.
    assert!(rt; some_is_new(rt, alloc, &file_of(log)) == (k > 3));
}

// Each call of an append of a group fails in turn: it is refused, or its end unknown; and each image has the record
// from before, and any of the new ones.
#[test]
fn a_failed_group_is_refused_or_unknown(rt: HostRuntime) {
    let alloc = rt.alloc();
    let mut first = created(&rt, alloc, FEW);
    assert!(rt; takes(&mut first, &numbered(&rt, 0)));
    let bytes = durable_of(first);
    // The first two calls are those of the opening; then come two bodies, a sync, two gates, and a sync.
    for k in 0..3 {
        fails_at(&rt, alloc, &bytes, k, Err(LogFault::Refused));
    }
    for k in 3..6 {
        fails_at(&rt, alloc, &bytes, k, Err(LogFault::Unknown));
    }
    fails_at(&rt, alloc, &bytes, 6, Ok(()));
}
