//! Files that are no logs, or damaged ones.

use crate::memory::{SLOT, durable_of, empty, fault_of, open_tape, opened, record, takes};
use crate::tape::Tape;
use std::alloc::Global;
use std::process::Abort;
use xa_log_file::LogOpenFault;

// A file with one record.
fn with_one(rt: &impl Abort, alloc: Global) -> Vec<u8> {
    let mut log = opened(rt, alloc, &empty(rt, alloc), 0);
    assert!(rt; takes(&mut log, &record(rt, b"g1")));
    durable_of(log)
}

fn is_damaged(rt: &impl Abort, alloc: Global, bytes: &[u8]) -> bool {
    fault_of(rt, alloc, bytes) == Some(LogOpenFault::Damaged)
}

fn is_no_log(rt: &impl Abort, alloc: Global, bytes: &[u8]) -> bool {
    fault_of(rt, alloc, bytes) == Some(LogOpenFault::NotALog)
}

#[test]
fn two_slots_of_one_transaction_are_damage(rt: HostRuntime) {
    let alloc = rt.alloc();
    let mut bytes = with_one(&rt, alloc);
    for i in 0..SLOT {
        let byte = *bytes.get(18 + i).expect(&rt, "a byte");
        *bytes.get_mut(18 + SLOT + i).expect(&rt, "a byte") = byte;
    }
    assert!(rt; is_damaged(&rt, alloc, &bytes));
}

// A gate that is neither open nor shut is damage.
fn no_gate_is_ajar(rt: &impl Abort, alloc: Global) {
    let mut ajar = empty(rt, alloc);
    for gate in 1..=255 {
        *ajar.get_mut(18).expect(rt, "a gate") = gate;
        assert!(rt; fault_of(rt, alloc, &ajar) == Some(LogOpenFault::Damaged));
    }
}

#[test]
fn other_bytes_are_no_log(rt: HostRuntime) {
    let alloc = rt.alloc();
    let bytes = empty(&rt, alloc);
    assert!(rt; fault_of(&rt, alloc, &bytes).is_none());
    assert!(rt; is_no_log(&rt, alloc, &[]));
    let headless = bytes.get(1..).expect(&rt, "a head");
    assert!(rt; is_no_log(&rt, alloc, headless));
    let fewer = bytes.get(..18 + SLOT).expect(&rt, "a slot");
    assert!(rt; is_no_log(&rt, alloc, fewer));
    no_gate_is_ajar(&rt, alloc);
}

// The file, which isn't opened since it is no log.
fn refused(rt: &impl Abort, alloc: Global, bytes: &[u8]) -> Tape {
    match open_tape(alloc, Tape::of(rt, alloc, bytes, 0)) {
        Ok(_) => panic!(rt; "a log"),
        Err((fault, tape)) => {
            assert!(rt; fault == LogOpenFault::NotALog);
            tape
        }
    }
}

#[test]
fn a_file_of_another_size_is_not_touched(rt: HostRuntime) {
    let alloc = rt.alloc();
    let mut bytes = empty(&rt, alloc);
    bytes.push(0).expect(&rt, "memory");
    assert!(rt; !refused(&rt, alloc, &bytes).is_touched());
    assert!(rt; !refused(&rt, alloc, &[0; 17]).is_touched());
    // A head, and one slot more than the most.
    bytes.resize(18 + SLOT * 65_537, 0).expect(&rt, "memory");
    assert!(rt; !refused(&rt, alloc, &bytes).is_touched());
}

#[test]
fn a_file_of_another_head_is_not_written(rt: HostRuntime) {
    let alloc = rt.alloc();
    for place in 0..18 {
        let mut bytes = empty(&rt, alloc);
        *bytes.get_mut(place).expect(&rt, "a byte") ^= 1;
        assert!(rt; !refused(&rt, alloc, &bytes).is_written());
    }
}

#[test]
fn a_record_that_rots_shows(rt: HostRuntime) {
    let alloc = rt.alloc();
    let bytes = with_one(&rt, alloc);
    for i in 0..SLOT {
        let mut rotten = bytes.to_vec(alloc).expect(&rt, "memory");
        *rotten.get_mut(18 + i).expect(&rt, "a byte") ^= 4;
        assert!(rt; is_damaged(&rt, alloc, &rotten));
    }
}
