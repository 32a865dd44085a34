//! What a disk answers once a call of its file has failed.
ghost use Rattle.std.specs.Prelude.{IsTrue};

use sqlite_disk::Disk;
use std::alloc::Global;
use std::process::Abort;
use xa_disk::{Backing, DeviceFault, DiskOpenFault, Tape, Tear, WriteThrough};

// A disk over a file of these bytes, whose k-th call fails. The first two calls are those of the opening.
fn disk(rt: &impl Abort, alloc: Global, bytes: &[u8], k: u32) -> WriteThrough<Tape>
    ensures { IsTrue (⟦<WriteThrough<Tape> as Disk>⟧.is_usable result) }
{
    let tape = Tape::of(alloc, bytes, k, Tear::Beginning).expect(rt, "memory");
    match WriteThrough::new(alloc, tape, 100) {
        Ok(disk) => disk,
        Err(_) => panic!(rt; "no disk"),
    }
}

// What the disk of a file has kept.
fn kept(rt: &impl Abort, alloc: Global, disk: WriteThrough<Tape>) -> Vec<u8> {
    disk.into_file().image(alloc, 0).expect(rt, "memory")
}

#[test]
fn a_sync_keeps_what_was_written(rt: HostRuntime) {
    let alloc = rt.alloc();
    let mut disk = disk(&rt, alloc, b"abc", 0);
    assert!(rt; disk.write_at(5, b"de").is_ok());
    assert!(rt; disk.set_len(6).is_ok());
    assert!(rt; disk.sync().is_ok());
    assert!(rt; disk.write_at(0, b"xx").is_ok());
    let mut back = [0; 6];
    assert!(rt; disk.read_at(0, &mut back).is_ok());
    assert!(rt; back == *b"xxc\0\0d");
    assert!(rt; kept(&rt, alloc, disk).as_slice() == b"abc\0\0d".as_slice());
}

#[test]
fn after_a_failed_write_no_sync_succeeds(rt: HostRuntime) {
    let alloc = rt.alloc();
    let mut disk = disk(&rt, alloc, b"abcd", 3);
    assert!(rt; disk.write_at(0, b"wxyz").is_err());
    assert!(rt; disk.sync().is_err());
    assert!(rt; !disk.may_be_used());
    assert!(rt; kept(&rt, alloc, disk).as_slice() == b"abcd".as_slice());
}

#[test]
fn after_a_failed_write_no_write_succeeds(rt: HostRuntime) {
    let alloc = rt.alloc();
    let mut disk = disk(&rt, alloc, b"abcd", 3);
    assert!(rt; !disk.has_failed());
    assert!(rt; disk.set_len(2).is_err());
    assert!(rt; disk.has_failed());
    assert!(rt; disk.write_at(0, b"w").is_err());
    assert!(rt; disk.set_len(4).is_err());
    assert!(rt; disk.may_be_used());
}

#[test]
fn after_a_failed_sync_it_may_not_be_used(rt: HostRuntime) {
    let alloc = rt.alloc();
    let mut disk = disk(&rt, alloc, b"abcd", 4);
    assert!(rt; disk.write_at(0, b"w").is_ok());
    assert!(rt; disk.may_be_used() && !disk.has_failed());
    assert!(rt; disk.sync().is_err());
    assert!(rt; !disk.may_be_used() && disk.has_failed());
}

#[test]
fn a_large_file_is_refused(rt: HostRuntime) {
    let alloc = rt.alloc();
    let tape = Tape::of(alloc, &[1; 101], 0, Tear::Nothing).expect(&rt, "memory");
    match WriteThrough::new(alloc, tape, 100) {
        Ok(_) => panic!(rt; "read"),
        Err((fault, tape)) => {
            assert!(rt; fault == DiskOpenFault::TooLarge);
            assert!(rt; tape.calls() == 0);
        }
    }
}

#[test]
fn a_file_that_is_not_synced_is_refused(rt: HostRuntime) {
    let alloc = rt.alloc();
    let tape = Tape::of(alloc, b"abc", 2, Tear::Nothing).expect(&rt, "memory");
    match WriteThrough::new(alloc, tape, 100) {
        Ok(_) => panic!(rt; "read"),
        Err((fault, _)) => assert!(rt; fault == DiskOpenFault::Failed(DeviceFault::Failed)),
    }
}
