//! How a worker is opened.

use crate::counted::{CountedLog, Upsets};
use std::process::Abort;
use xa_log::CommitRecord;
use xa_log_shared::{LogWorkerFault, open_log_worker};
use xa_words::{ManagerSet, Tran};

// The record of a transaction with this number.
pub fn record_of<R: Abort>(rt: &R, number: u32) -> CommitRecord {
    CommitRecord {
        tran: Tran::new(1, &number.to_be_bytes()).expect(rt, "a name"),
        yes: ManagerSet::new(),
    }
}

#[test]
fn a_worker_has_one_to_eight_coordinators(rt: HostRuntime) {
    for coordinators in [0, 9] {
        let log = CountedLog::new(rt.alloc(), 4, Upsets::default()).expect(&rt, "memory");
        let Err((fault, _)) = open_log_worker(rt, rt.alloc(), log, coordinators, 4) else {
            panic!(rt; "opened");
        };
        assert_eq!(rt; fault, LogWorkerFault::BadCount);
    }
}
