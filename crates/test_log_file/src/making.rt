//! Logs that are made, or fail to be.

use crate::memory::{SLOTS, create_over, empty, fault_of, file_of};
use crate::tape::Tape;
use std::alloc::Global;
use std::process::Abort;
use xa_log_file::{CreateFault, LogOpenFault, Mirrored};

// The file of a log whose making fails at the k-th call; the ninth would be one more than there are.
fn made(rt: &impl Abort, alloc: Global, k: u32) -> Tape {
    match create_over(rt, alloc, &[], k, SLOTS) {
        Ok(log) => {
            assert!(rt; k == 9);
            file_of(log)
        }
        Err((fault, tape)) => {
            assert!(rt; k < 9);
            assert!(rt; fault == CreateFault::Failed);
            tape
        }
    }
}

// Whether the bytes are no log, or an empty one.
fn is_none_or_empty(rt: &impl Abort, alloc: Global, image: &[u8]) -> bool {
    fault_of(rt, alloc, image) == Some(LogOpenFault::NotALog)
        || image == empty(rt, alloc).as_slice()
}

#[test]
fn a_failed_create_leaves_no_log_or_an_empty_one(rt: HostRuntime) {
    let alloc = rt.alloc();
    // The first two calls are those of the opening.
    for k in 3..10 {
        let tape = made(&rt, alloc, k);
        for cut in 0..=tape.now.len() {
            assert!(rt; is_none_or_empty(&rt, alloc, &tape.crashed_at(&rt, cut)));
        }
    }
}

#[test]
fn no_log_is_made_over_another(rt: HostRuntime) {
    let alloc = rt.alloc();
    let bytes = empty(&rt, alloc);
    let Err((fault, tape)) = create_over(&rt, alloc, &bytes, 0, SLOTS) else {
        panic!(rt; "made");
    };
    assert!(rt; fault == CreateFault::NotEmpty);
    assert!(rt; tape.now.as_slice() == bytes.as_slice());
}

#[test]
fn no_log_is_made_over_bytes(rt: HostRuntime) {
    let alloc = rt.alloc();
    let Err((fault, tape)) = Mirrored::new(alloc, Tape::of(&rt, alloc, b"other", 0)) else {
        panic!(rt; "a device");
    };
    assert!(rt; fault == LogOpenFault::NotALog);
    assert!(rt; !tape.is_touched());
}
