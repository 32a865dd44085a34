//! A crash while what was read is written once more.

use crate::memory::{
    Log, SLOT, added, durable_of, empty, file_of, has, lacks, open_tape, opened, record, takes,
};
use crate::tape::Tape;
use std::alloc::Global;
use std::process::Abort;
use xa_log_file::LogOpenFault;

// A file with one record.
fn with_one(rt: &impl Abort, alloc: Global) -> Vec<u8> {
    let mut log = opened(rt, alloc, &empty(rt, alloc), 0);
    assert!(rt; takes(&mut log, &record(rt, b"g1")));
    durable_of(log)
}

// The file of a process whose k-th call fails as it appends a second record.
fn left_by(rt: &impl Abort, alloc: Global, fails: u32) -> Tape {
    let mut log = opened(rt, alloc, &with_one(rt, alloc), fails);
    assert!(rt; added(&mut log, &record(rt, b"g2")).is_err());
    file_of(log)
}

// The file as the next process opens it, whose k-th call fails.
fn torn_at(rt: &impl Abort, alloc: Global, left: &Tape, fails: u32) -> Tape {
    let next = Tape::unsynced(rt, alloc, &left.durable, &left.now, fails);
    match open_tape(alloc, next) {
        Ok(_) => panic!(rt; "a log"),
        Err((fault, tape)) => {
            assert!(rt; fault == LogOpenFault::Failed);
            tape
        }
    }
}

// Whether the log has the first record, and the second whole or not at all.
fn is_right(rt: &impl Abort, log: &Log) -> bool {
    let two = record(rt, b"g2");
    has(log, &record(rt, b"g1")) & (has(log, &two) | lacks(log, &two))
}

// How many images there are of the file, each of them right: each byte is the disk's or the one that was read.
fn right_images(rt: &impl Abort, alloc: Global, tape: &Tape) -> u32 {
    let mut images: u32 = 0;
    for cut in 0..=tape.now.len() {
        let before = opened(rt, alloc, &tape.crashed_at(rt, cut), 0);
        let after = opened(rt, alloc, &tape.crashed_from(rt, cut), 0);
        assert!(rt; is_right(rt, &before) && is_right(rt, &after));
        images = images.saturating_add(2);
    }
    images
}

#[test]
fn a_crash_in_the_rewrite_leaves_the_records(rt: HostRuntime) {
    let alloc = rt.alloc();
    let mut images: u32 = 0;
    // The append fails at its body, at the sync of it, at its gate, or at the sync of that.
    for append in 3..7 {
        let left = left_by(&rt, alloc, append);
        // The next opening fails at its rewrite, or at the sync of it.
        for opening in 1..3 {
            let tape = torn_at(&rt, alloc, &left, opening);
            images = images.saturating_add(right_images(&rt, alloc, &tape));
        }
    }
    assert!(rt; images as usize == 4 * 2 * 2 * (18 + 3 * SLOT + 1));
}

#[test]
fn what_was_read_is_kept_once_a_log_is_opened(rt: HostRuntime) {
    let alloc = rt.alloc();
    // The sync of the gate failed, so the disk lacks the record that a read returns.
    let left = left_by(&rt, alloc, 6);
    let two = record(&rt, b"g2");
    assert!(rt; lacks(&opened(&rt, alloc, &left.durable, 0), &two));
    let next = Tape::unsynced(&rt, alloc, &left.durable, &left.now, 0);
    let Ok(log) = open_tape(alloc, next) else {
        panic!(rt; "no log");
    };
    assert!(rt; has(&log, &two));
    assert!(rt; has(&opened(&rt, alloc, &durable_of(log), 0), &two));
}
