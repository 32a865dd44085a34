//! A file whose write or sync failed isn't synced again by the same handle, so nothing is opened over it.

use crate::memory::{Log, SLOTS, added, empty, lacks, opened, record};
use crate::tape::Tape;
use std::alloc::Global;
use std::process::Abort;
use xa_log::LogFault;
use xa_log_file::{CreateFault, Device, Mirrored, create};

// Neither a sync nor a write of the device succeeds.
fn is_dead(device: &mut Mirrored<Tape>) -> bool {
    let mut dead = true;
    for _ in 0..3 {
        dead &= device.sync().is_err();
    }
    dead & device.write_at(0, b"x").is_err() & device.sync().is_err()
}

// What the disk has after an append that has an unknown end, since the k-th call fails. The same handle syncs nothing
// more, so that its file is opened by a new one.
fn after_failing(rt: &impl Abort, alloc: Global, fails: u32) -> Log {
    let mut log = opened(rt, alloc, &empty(rt, alloc), fails);
    assert!(rt; added(&mut log, &record(rt, b"g1")) == Err(LogFault::Unknown));
    let mut device = log.into_device();
    assert!(rt; is_dead(&mut device));
    opened(rt, alloc, &device.into_file().durable, 0)
}

#[test]
fn a_device_whose_write_failed_is_never_synced(rt: HostRuntime) {
    let alloc = rt.alloc();
    // The write of the gate, after the two calls of the opening and the two of the body.
    let again = after_failing(&rt, alloc, 5);
    assert!(rt; lacks(&again, &record(&rt, b"g1")));
}

#[test]
fn a_device_whose_sync_failed_is_never_synced(rt: HostRuntime) {
    let alloc = rt.alloc();
    let again = after_failing(&rt, alloc, 6);
    assert!(rt; lacks(&again, &record(&rt, b"g1")));
}

// The device that `create` hands back, as its k-th call fails.
fn unmade(rt: &impl Abort, alloc: Global, fails: u32) -> Mirrored<Tape> {
    let Ok(device) = Mirrored::new(alloc, Tape::of(rt, alloc, &[], fails)) else {
        panic!(rt; "no device");
    };
    match create(alloc, device, SLOTS) {
        Ok(_) => panic!(rt; "made"),
        Err((fault, device)) => {
            assert!(rt; fault == CreateFault::Failed);
            device
        }
    }
}

#[test]
fn a_device_whose_create_failed_is_never_synced(rt: HostRuntime) {
    let alloc = rt.alloc();
    for fails in 3..9 {
        assert!(rt; is_dead(&mut unmade(&rt, alloc, fails)));
    }
}
