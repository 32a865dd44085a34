//! A log over a real file.

use crate::memory::{SLOTS, has, lacks, record, takes};
use std::alloc::Global;
use std::fs;
use xa_log_file::{FileLog, LogHostFile, Mirrored, create, open};

const PATH: &str = "xa_file_log_test";

type Log = FileLog<Mirrored<LogHostFile>>;

fn created(rt: &HostRuntime, alloc: Global) -> Option<Log> {
    let file = LogHostFile::create(rt, PATH, ".").ok()?;
    let device = Mirrored::new(alloc, file).ok()?;
    create(alloc, device, SLOTS).ok()
}

fn opened(rt: &HostRuntime, alloc: Global) -> Option<Log> {
    let file = LogHostFile::open(rt, PATH).ok()?;
    let device = Mirrored::new(alloc, file).ok()?;
    open(alloc, device).ok()
}

#[test]
fn a_real_file_keeps_its_records(rt: HostRuntime) {
    let alloc = rt.alloc();
    let _ = fs::remove_file(&rt, PATH);
    let one = record(&rt, b"g1");
    let mut log = created(&rt, alloc).expect(&rt, "a new log");
    assert!(rt; lacks(&log, &one));
    assert!(rt; takes(&mut log, &one));
    // No other handle has it open.
    assert!(rt; LogHostFile::open(&rt, PATH).is_err());
    drop(log);
    let again = opened(&rt, alloc).expect(&rt, "a log");
    assert!(rt; has(&again, &one));
    drop(again);
    assert!(rt; fs::remove_file(&rt, PATH).is_ok());
}
