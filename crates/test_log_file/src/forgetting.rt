//! Records that are forgotten.

use crate::images::MANY;
use crate::memory::{
    Log, created, durable_of, empty, file_of, forget, has, keep_only, lacks, numbered, opened,
    record, takes,
};
use std::process::Abort;

// The log takes the records of so many numbers.
fn take_all(rt: &impl Abort, log: &mut Log, first: u32) {
    for number in 0..MANY {
        assert!(rt; takes(log, &numbered(rt, first.saturating_add(number))));
    }
}

fn forget_all(rt: &impl Abort, log: &mut Log) {
    for number in 0..MANY {
        let old = numbered(rt, number);
        forget(log, &old);
        assert!(rt; lacks(log, &old));
    }
}

#[test]
fn forgotten_records_make_room_by_one_sync(rt: HostRuntime) {
    let alloc = rt.alloc();
    let mut log = opened(&rt, alloc, &durable_of(created(&rt, alloc, MANY)), 0);
    take_all(&rt, &mut log, 0);
    forget_all(&rt, &mut log);
    take_all(&rt, &mut log, MANY);
    // One of the opening, two of each append, and one for all gates.
    assert!(rt; file_of(log).syncs == 1 + 2 * 2 * MANY + 1);
}

#[test]
fn a_forgotten_name_is_shut_before_it_is_used_again(rt: HostRuntime) {
    let alloc = rt.alloc();
    let one = record(&rt, b"g1");
    let mut log = opened(&rt, alloc, &empty(&rt, alloc), 0);
    assert!(rt; takes(&mut log, &one));
    forget(&mut log, &one);
    assert!(rt; lacks(&log, &one));
    // A crash brings it back.
    let mut again = opened(&rt, alloc, &durable_of(log), 0);
    assert!(rt; has(&again, &one));
    keep_only(&mut again, &[]);
    assert!(rt; lacks(&again, &one));
    assert!(rt; takes(&mut again, &one));
    let tape = file_of(again);
    assert!(rt; tape.syncs == 4);
    assert!(rt; has(&opened(&rt, alloc, &tape.durable, 0), &one));
}
